//! Statements: what each form is after its unit, and what its frames do with how their parts ended
//! (ECMA-262 3rd edition, section 12; docs/LANGUAGE.md).
#![tactic(auto)]

mod catching;
mod choosing;
mod forms;
mod given;
mod looping;
mod names;
mod parts;

pub use forms::{exec, pass};
pub use given::{begin_block, take_statement};
pub use names::pass_in;
