//! What is kept for one widget beside its cells and its nodes: handlers, marks, protected nodes,
//! timers, the clock and the focus; and where its events go.
#![tactic(auto)]

mod around;
mod delivery;
mod kept;
mod timers;

pub use around::{Loop, LoopFault};
pub use delivery::{Delivered, Event};
pub use timers::Timer;
