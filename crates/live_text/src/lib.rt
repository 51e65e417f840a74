//! The lines of a live page as text: what is asked, and what is answered (docs/LIVE.md).
#![tactic(auto)]

mod answer;
mod entry;
mod laws;
mod request;

pub use answer::{Cause, push_answer, push_full, push_refused, push_slot};
pub use entry::{Entry, line_object, root_value};
pub use laws::{object_of_line, one_request};
pub use request::{Request, RequestFault, read_request};
