//! What a script means, and what one widget does by itself: definitions in `specs/`, in the order of
//! docs/LANGUAGE.md, and their laws.
//! There is no code here: the functions that do nothing carry the laws of the definitions.
#![tactic(auto)]

mod laws;
mod native_laws;
mod rows;

pub use laws::{
    alone, ancestors_end, compositional, counts, fuel, nodes_have_numbers, plans, scopes_end,
    stopped, stops, sums, timers,
};
pub use native_laws::{json, native_rows, queries, sort, split, styles};
pub use rows::{body_rows, page_rows, rows_hold};
