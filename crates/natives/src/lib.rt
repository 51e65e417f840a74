//! One call for all natives of the language: each is answered by the room that has it, and the timer that `later` asks
//! for is started.
#![tactic(auto)]

mod calling;
mod rooms;
mod timers;

pub use calling::call;
