//! Which room has a native that needs the store alone.
ghost use Rattle.std.specs.Prelude.{◌≡◌};
ghost use Rattle.store_natives.specs.Rooms.{adsafe_room, prototype_room, store_room};

use object_store::{AdsafeNative, NativeId, PrototypeNative};

/// The rooms that need the store alone.
#[derive(Clone, Copy, Drop)]
pub enum StoreRoom {
    /// Of texts, numbers, truth values and `Math`, the conversions among the globals, and each `toString` but that of
    /// arrays.
    Texts,
    /// Of arrays.
    Lists,
    /// Of `ADSAFE`, but `log`, `later` and `post`, and `hasOwnProperty`.
    Adsafe,
}

/// The room of a native that needs the store alone. One that needs the page, the loop, the log or the posts has none.
pub fn store_room(which: NativeId) -> Option<StoreRoom>
    ensures { result ≡ store_room which }
{
    match which {
        NativeId::Global(_) => Some(StoreRoom::Texts),
        NativeId::Math(_) => Some(StoreRoom::Texts),
        NativeId::Prototype(native) => Some(prototype_room(native)),
        NativeId::Text(_) => Some(StoreRoom::Texts),
        NativeId::List(_) => Some(StoreRoom::Lists),
        NativeId::Adsafe(native) => adsafe_room(native),
        _ => None,
    }
}

fn prototype_room(which: PrototypeNative) -> StoreRoom
    ensures { result ≡ prototype_room which }
{
    match which {
        PrototypeNative::HasOwnProperty => StoreRoom::Adsafe,
        PrototypeNative::ArrayToString => StoreRoom::Lists,
        _ => StoreRoom::Texts,
    }
}

fn adsafe_room(which: AdsafeNative) -> Option<StoreRoom>
    ensures { result ≡ adsafe_room which }
{
    match which {
        AdsafeNative::Later | AdsafeNative::LogValue | AdsafeNative::Post => None,
        _ => Some(StoreRoom::Adsafe),
    }
}
