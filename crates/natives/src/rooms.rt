//! Which room has a native.
ghost use Rattle.std.specs.Prelude.{◌≡◌};
ghost use Rattle.natives.specs.Rooms.{dom_room, read_room, room_beside, room_in_store, room_of};

use object_store::{DomNative, NativeId, ReadNative};
use store_natives::{StoreRoom, store_room};

/// The rooms that have natives.
#[derive(Clone, Copy, Drop)]
pub enum Room {
    /// Of texts, numbers, truth values and `Math`, the conversions among the globals, and each `toString` but that of
    /// arrays.
    Texts,
    /// Of arrays.
    Lists,
    /// Of `ADSAFE`, and `hasOwnProperty`.
    Adsafe,
    /// Of Bunches, those that read, and `dom.q`.
    Reads,
    /// Of Bunches, those that change something or ask for calls, the others of `dom`, and `bubble`.
    Writes,
}

// The room of a native.
pub(crate) fn room_of(which: NativeId) -> Room
    ensures { result ≡ room_of which }
{
    match store_room(which) {
        Some(room) => room_in_store(room),
        None => room_beside(which),
    }
}

fn room_in_store(room: StoreRoom) -> Room
    ensures { result ≡ room_in_store room }
{
    match room {
        StoreRoom::Texts => Room::Texts,
        StoreRoom::Lists => Room::Lists,
        StoreRoom::Adsafe => Room::Adsafe,
    }
}

// The room of a native that needs more than the store.
fn room_beside(which: NativeId) -> Room
    ensures { result ≡ room_beside which }
{
    match which {
        NativeId::Adsafe(_) => Room::Adsafe,
        NativeId::Dom(native) => dom_room(native),
        NativeId::Read(native) => read_room(native),
        _ => Room::Writes,
    }
}

fn dom_room(which: DomNative) -> Room
    ensures { result ≡ dom_room which }
{
    match which {
        DomNative::DomQuery => Room::Reads,
        _ => Room::Writes,
    }
}

fn read_room(which: ReadNative) -> Room
    ensures { result ≡ read_room which }
{
    match which {
        ReadNative::Explode => Room::Writes,
        _ => Room::Reads,
    }
}
