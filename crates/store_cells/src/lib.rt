//! The cells of the store by the numbers of their names: objects, arrays, functions, scopes and
//! Bunches, what is written to each, and what widgets have paid.
#![tactic(auto)]

pub mod cell;
pub mod counts;
mod first;
mod indices;
mod kind;
mod pairs;
mod value;

pub use first::FirstNames;
pub use kind::{CellKind, Form, FunParts};
pub use value::{CellId, Number, Value};
