//! The conversions among the globals, and `Math` (ECMA-262 3rd edition, 15.1, 15.7 and 15.8, as docs/LANGUAGE.md has
//! them). Each takes its extra and its costs; its unit was taken before.
#![tactic(auto)]

mod codes;
mod conversions;
mod maths;
mod numerals;
mod powers;

pub use conversions::global_native;
pub use maths::math_native;
