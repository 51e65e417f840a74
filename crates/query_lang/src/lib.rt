//! Queries on the nodes of a widget: how they are written, and what they find.
//!
//! Which units spell which query, and what it finds of what it sees of a page, is said by `query_grammar`;
//! `specs/Finds.antt` of `query_walks` says what it sees of a page. Their text is read by `query_text`.
#![tactic(auto)]

mod finder;

pub use finder::find;
pub use query_grammar::{Filter, Hunter, ListFilter, Query, QueryStep, StepFilter};
pub use query_text::{QueryFault, read_query};
pub use query_walks::nodes::test;
