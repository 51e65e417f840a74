//! A turn in progress: what it does and what waits for that to end. How turns and dispatches begin: the event
//! object is paid and made, the node that listens is found, the function of a script is called. And how a turn
//! goes on when a call has ended, without fuel: what waits for it takes its value, handlers are called one after
//! the other, and an event bubbles.
#![tactic(auto)]

mod calls;
mod events;
mod giving;
mod hearing;
mod level;
mod opening;
mod searching;
mod site;
mod taking;
mod turn;

pub use calls::Calls;
pub use giving::give;
pub use hearing::hear;
pub use js_steps::{Stepped, Stop, Task, begin, resume, stride};
pub use level::{Dispatch, Doing, Firing, Heard, Hearing, Level};
pub use opening::open_script;
pub use searching::listeners;
pub use site::Site;
pub use taking::call_handler;
pub use turn::Turn;
