//! What a parser takes from the tokens of a text: their signs, and what is read of them without
//! the grammar's recursion.
#![tactic(auto)]

pub mod key;
pub mod names;
pub mod operators;
pub mod refusal;
pub mod script;
pub mod signs;
pub mod steps;
pub mod texts;
