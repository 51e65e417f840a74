//! Calls: functions and natives, their arguments and scopes, conversions by `toString`, and the calls that
//! natives ask for.
#![tactic(auto)]

mod answering;
mod arguments;
mod converting;
mod declaring;
mod invoking;
mod repeating;
mod scoping;
mod taking;

pub use answering::answer;
pub use declaring::Entry;
pub use invoking::{Called, call, entered};
pub use repeating::{gather, next_item};
pub use taking::take_call;
