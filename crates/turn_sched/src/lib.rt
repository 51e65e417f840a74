//! Who is next: choosers among the widgets that are ready.
#![tactic(auto)]

mod chooser;
mod listed;
mod round_robin;

pub use chooser::{Ask, Chooser};
pub use listed::Listed;
pub use round_robin::RoundRobin;
