//! From a manifest and its files to the page that a host loads, and the slots that are refused; and from
//! the files of swaps to what they bring, also of swaps that come later.
#![tactic(auto)]

mod contents;
mod laws;
mod libraries;
mod page;
mod slots;
mod swaps;

pub use contents::JudgedContent;
pub use laws::{one_widget, read_manifests_fit};
pub use libraries::Later;
pub use page::{JudgedPage, judge_page};
pub use swaps::JudgedSwaps;
