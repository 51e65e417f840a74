//! The texts of a run: the lines of its report.
#![tactic(auto)]

mod line;
mod pieces;
mod report;

pub use line::{Line, Rule, RunText, State};
pub use report::report_line;
