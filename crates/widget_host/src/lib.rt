//! The host: one store and one page, the lives of all places, and the slots in which they follow on each
//! other. It loads a page, is given items, picks lives, and tells what they did.
#![tactic(auto)]

mod giving;
mod host;
mod items;
mod laws;
mod lines;
mod loading;
mod reaching;
mod rounds;
mod running;
mod swapping;

pub use host::Host;
pub use items::HostItem;
pub use laws::{given_lives, loaded_lives, swapped_lives};
pub use lines::{LifeStop, RunLine};
