//! The call that the program makes: words and files to a report and a status. It checks the widgets
//! of a page, or a library, by the rules of docs/, and writes a line on each; or it runs a page with
//! its widgets, and writes what became of them.
#![tactic(auto)]

mod audits;
mod demos;
mod laws;
mod pages;
mod playing;
mod reports;
mod running;
mod runs;
mod writing;

pub use laws::{one_answer, some_answer};
pub use page_play::{Host, HostItem};
pub use run_steps::Status;
pub use running::{exit_number, run};
