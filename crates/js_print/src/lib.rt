//! The one spelling of a tree.
#![tactic(auto)]

mod print;
mod write;

pub use print::print_tree;
