//! Which rule a slot breaks first, and what is written of it.
#![tactic(auto)]

mod fault;
mod laws;
mod libraries;
mod lines;
mod markup;
mod parts;
mod sources;
mod verdict;

pub use fault::{Refusal, SlotFault};
pub use laws::{one_markup_rule, one_slot};
pub use libraries::{Known, Libraries};
pub use lines::{SlotText, slot_line, slot_lines};
pub use markup::{CheckMarkupFault, check_markup};
pub use sources::SourceFile;
pub use verdict::{Widget, judge_slot};
