//! Which rule a script breaks first, and what is written of a library.
#![tactic(auto)]

mod fault;
mod judging;
mod laws;
mod lines;

pub use fault::ScriptFault;
pub use judging::judge_script;
pub use laws::one_verdict;
pub use lines::{JudgedText, LibraryText, library_line, tidied_library};
