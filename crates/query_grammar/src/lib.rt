//! Queries: how they are written, and what they find.
//!
//! `specs/Queries.antt` says which units spell which query, as a relation between units and steps; a step is
//! a hunter that finds nodes, with filters that keep some of them.
//! `specs/Machine.antt` is its machine, which takes one unit at a time. `specs/Finds.antt` says what a query
//! finds of what it sees of a page.
//! The functions that do nothing carry the laws.
#![tactic(auto)]

mod filters;
mod laws;
mod query;
mod word;

pub use filters::Filters;
pub use laws::{filters_as_units, filters_once, machine_is_exact, one_answer, renumbering};
pub use query::{Filter, Hunter, ListFilter, Query, QueryStep, StepFilter};
pub use word::QueryWord;
