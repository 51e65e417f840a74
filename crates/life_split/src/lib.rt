//! Cuts the items of a trace at the swaps of each slot.
#![tactic(auto)]

mod cut;
mod items;
mod laws;

pub use cut::lives;
pub use items::{Life, LifeItem};
pub use laws::cuts;
