//! Explains to a person at a terminal what `check` refuses: each refusal with its place, its source
//! line and what to write instead (docs/PROGRAM.md, "Explaining").
#![tactic(auto)]

mod ending;
mod notes;
mod pages;
mod reading;
mod refusals;
mod request;
mod running;
mod shown;
mod steps;
mod words;

pub use ending::Status;
pub use running::{exit_number, run};
