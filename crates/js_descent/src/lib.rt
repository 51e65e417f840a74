//! The recursive descent: from the tokens of a script to the nodes of a tree. Its functions call
//! one another, and are proved together.
#![tactic(auto)]

mod branches;
mod expressions;
mod for_loops;
pub mod statements;
mod switches;
