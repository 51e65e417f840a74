//! The permitted table: the natives of the language and the host's objects that a widget may hold,
//! the names of each and its prototype.
#![tactic(auto)]

mod laws;
mod native;
mod table;

pub use laws::entries_are_numbered;
pub use native::{
    AdsafeNative, DomNative, GlobalNative, HostEntry, ListNative, MathNative, NativeId,
    PrototypeNative, ReadNative, TextNative, WriteNative,
};
pub use table::{COUNT, Home, PROTOTYPES, ROWS};
