//! The natives of `ADSAFE`, and `hasOwnProperty`.
#![tactic(auto)]

mod laws;
mod names;
mod natives;
mod notes;
mod objects;
mod owning;
mod properties;
mod texts;

pub use natives::{call, call_silent};
