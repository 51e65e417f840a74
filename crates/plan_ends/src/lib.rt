//! How a form, a call and a native end, and the laws of it.
//! There is no code here: the functions that do nothing carry the laws of the definitions.
#![tactic(auto)]

mod laws;

pub use laws::{ends, plans, yields};
