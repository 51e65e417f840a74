//! What a host begins with: the page of its slots, the trees of their scripts, and the first life of each slot with
//! its load turns; and the lives that come later.
#![tactic(auto)]

mod codes;
mod joining;
mod laying;
mod lives;
mod loading;
mod opening;
mod queues;

pub use joining::{Coming, add_life};
pub use loading::{Loaded, load_page};
