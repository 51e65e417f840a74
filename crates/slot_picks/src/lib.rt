//! The lives of all places of a host, and the slots in which they follow on each other: one slot is picked,
//! picks are made until no slot is ready, and one round of posts is delivered to the last life of each slot.
#![tactic(auto)]

mod delivering;
mod giving;
mod lives;
mod posting;
mod ready;
mod settling;
mod slots;

pub use delivering::deliver_posts;
pub use life_queue::{Life, Records, Script, Stop, Work};
pub use lives::{Lives, Place, spent_at};
pub use ready::ready_slots;
pub use settling::settle_slots;
pub use slots::{Slot, pick_slot, present};
