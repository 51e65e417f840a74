//! The names of properties by number: an array index below a bound has a number by rule, and other names are interned.
#![tactic(auto)]

mod names;

pub use names::{FIRST_INDEX, PropertyNames, RULED};
