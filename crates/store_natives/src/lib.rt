//! Natives that need the store alone, carried out where they are called: those of texts, numbers, truth values, `Math`
//! and lists, of `ADSAFE` those that keep no note, and `hasOwnProperty`.
#![tactic(auto)]

mod calling;
mod carrying;
mod laws;
mod receiving;
mod rooms;

pub use calling::call;
pub use laws::rooms_are_whole;
pub use receiving::{GLOBAL, receiver_of};
pub use rooms::{StoreRoom, store_room};
