//! A JSON text is judged in one pass that makes nothing of it: whether it is JSON as `serde_json` reads
//! it, and whether an object in it has a name that is not permitted.
#![tactic(auto)]

mod judged;
mod judging;
mod members;
mod numbers;

pub use judged::JudgedTexts;
pub use judging::{Verdict, judge};
