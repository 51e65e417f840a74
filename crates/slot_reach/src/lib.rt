//! The certificate of reach of all slots, each by its last life.
//!
//! A block of it is what a widget can get at in the one store: `specs/Reads.antt` tells each reference by the
//! cell to which it leads, whoever that belongs to. `specs/States.antt` has the certificate of widgets by their own
//! states; `states_are_read`: it is what is read off the store.
#![tactic(auto)]

mod blocks;
mod counts;
mod few;
mod held;
mod laws;
mod names;
mod references;
mod rows;
mod slots;
mod state_laws;
mod store_laws;

pub use laws::lasts_are_told;
pub use slots::reach;
pub use state_laws::{names_all_differ, states_are_read};
pub use store_laws::{own_stays, references_tell};
