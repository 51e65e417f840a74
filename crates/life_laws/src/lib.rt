//! What a widget in a host has still to do, and the laws of it: of one life, of picks of many widgets (the journal,
//! the asks of a chooser, the order of picks), of slots and the lives that follow on each other in them, and of rounds
//! of posts.
//! There is no code here but the types of a pick: the functions that do nothing carry the laws of the definitions.
#![tactic(auto)]

mod entry;
mod laws;
mod pick_laws;
mod round_laws;
mod slot_laws;

pub use entry::{PickEntry, Picked};
pub use laws::{picks, turns, works};
pub use pick_laws::{gives, journal, order, settles};
pub use round_laws::{channels, lives, rounds};
pub use slot_laws::{items, passes, slots, slots_settle, swaps};
