//! A page is loaded, takes its items and settles; and then what its lives did is written, with the page or
//! as its certificate of reach.
#![tactic(auto)]

mod findings;
mod laws;
mod lines;
mod playing;
mod reports;

pub use findings::{Findings, Swaps, find_swaps, some_refused};
pub use laws::plays_come_to;
pub use lines::{refused_line, run_text};
pub use playing::play;
pub use reports::{certificate, last_line, report, report_of};
pub use widget_host::{Host, HostItem, given_lives, loaded_lives, swapped_lives};
