//! How long a list in a JSON text is, told without making the value of the text.
#![tactic(auto)]

mod counting;
mod over;

pub use over::length_over;
