//! The rules that accepted scripts and widget files keep.
#![tactic(auto)]

mod accepted;
mod judge;
mod laws;
mod opening;
mod rows;
mod scope;
mod walk;

pub use accepted::Accepted;
pub use judge::check;
pub use laws::{callee_breaks, directive_breaks, one_first, opening_breaks};
pub use scope::{CheckFault, Scope};
