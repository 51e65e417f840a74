//! What the rules ask of one node: its names, the words and numbers that stand in it, the jumps and
//! names that enclose it, and its parts as they are put on a stack.
#![tactic(auto)]

pub mod binding;
pub mod enclosing;
pub mod forms;
mod numbers;
pub mod pushes;
pub mod rows;
pub mod rule_numbers;
pub mod shapes;
pub mod words;
