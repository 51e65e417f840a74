//! What the definitions mean, as the contract of a function that does nothing.
ghost use Rattle.std.specs.Prelude.{◌≡◌, IfSome, is_some};
ghost use Rattle.permitted_table.specs.declared.native.NativeId.{NativeId};
ghost use Rattle.store_natives.specs.Rooms.{IsOf, needs_store, store_room};

/// A native has a room exactly where the store is all that it needs, and stands in the crate of that room.
pub fn rooms_are_whole()
    ensures each { (which : NativeId) → IfSome (store_room which) (λ room. IsOf room which) }
    ensures every { (which : NativeId) → is_some (store_room which) ≡ needs_store which }
{}
