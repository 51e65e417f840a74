//! Tables of pairs by numbers, in the order in which these came, that are small where they have few.
#![tactic(auto)]

mod few;
mod rising;
mod table;

pub use table::PairTable;
