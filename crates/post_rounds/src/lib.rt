//! Rounds of posts: what each slot gets of the posts that the others made.
#![tactic(auto)]

mod laws;
mod posts;
mod rounds;

pub use laws::{counts, drops, events, senders};
pub use posts::{Post, PostEvent};
pub use rounds::round;
