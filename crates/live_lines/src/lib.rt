//! A page that lives over lines: each line of an input is answered, and what is answered is written.
#![tactic(auto)]

mod answering;
mod asking;
mod living;

pub use answering::answer_line;
pub use living::live;
pub use run_steps::Status;
