//! The nodes of the page, of all owners: an arena with their links and labels, and the index of
//! ids. What an owner may do with them is said by `page_tree`.
#![tactic(auto)]

mod arena;
pub mod content;
mod copies;
mod ids;
pub mod index;
mod links;
mod many;
mod rows;
mod slots;

pub use arena::{Arena, BODY};
pub use copies::{is_low, room_after};
pub use ids::Ids;
pub use links::is_number;
pub use rows::Content;
pub use slots::{OWNERS, same_owner, slot_of};
