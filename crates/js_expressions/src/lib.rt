//! Expressions and targets: what each does after its unit, and with how its parts ended.
#![tactic(auto)]

mod assigning;
mod evaluating;
mod handing;
mod literals;
mod operating;
mod reading;
mod taking;

pub use evaluating::{eval, target};
pub use taking::take_form;
