//! A tree taken apart into the pieces of its text: the levels of operators, and the pieces of each node.
#![tactic(auto)]

pub mod expand;
pub mod expressions;
pub mod levels;
pub mod statements;
pub mod work;
