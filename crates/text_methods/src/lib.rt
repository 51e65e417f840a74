//! The methods of texts, each `toString` but that of arrays, and one call for these and for the natives of
//! `plain_natives` (ECMA-262 3rd edition, 15.1 to 15.8, as docs/LANGUAGE.md has them).
#![tactic(auto)]

mod calling;
mod cutting;
mod joining;
mod making;
mod prototypes;
mod radix;
mod searching;
mod splitting;

pub use calling::call;
