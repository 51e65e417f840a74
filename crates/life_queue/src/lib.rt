//! The lives of a host: what is recorded of one, what is queued for it, and each work as it leaves the
//! queue: it begins a turn, becomes another work, or is done with none.
#![tactic(auto)]

mod begins;
mod events;
mod leading;
mod life;
mod queue;
mod works;

pub use life::{Life, Records, Script, Work};
pub use queue::begin_turn;
pub use turn_dispatch::{Stop, Turn};
