//! A pick of a life: its turn in progress is carried on, or the first that its queue begins.
#![tactic(auto)]

mod notes;
mod picking;

pub use picking::pick_life;
