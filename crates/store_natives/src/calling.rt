//! The call of a native that needs the store alone.
ghost use Rattle.std.specs.Prelude.{◌≡◌, ◌+◌, ◌<◌, List, Some, IfNone, IfOk, IfSome, OnErr};
ghost use Rattle.std.specs.Option.{option_map};
ghost use Rattle.js_tree.specs.Forest.{Forest};
ghost use Rattle.widget_meaning.specs.Natives.{run_native};
ghost use Rattle.js_image.specs.Held.{AreFine, IsConfined, IsFine, Kept};
ghost use Rattle.js_image.specs.Image.{all_seen, seen};
ghost use Rattle.native_common.specs.Receivers.{IsReceiver, receiver};
ghost use Rattle.adsafe_object.specs.Ends.{RefinesSilent};
ghost use Rattle.store_natives.specs.Done.{Done, Wants};
ghost use Rattle.store_natives.specs.Rooms.{store_room};

use crate::carrying::carried;
use crate::receiving::{GLOBAL, receiver_of};
use crate::rooms::{StoreRoom, store_room};
use code_units::Memory;
use js_values::{Meter, NativeOut};
use native_common::WidgetId;
use object_store::{NativeId, Store, Value};
use std::alloc::Global;

/// A native that needs no more than the store, for widget `w`, with its unit taken: one of texts, numbers, truth
/// values, `Math` or lists, one of `ADSAFE` but `log`, `later` and `post`, or `hasOwnProperty` (docs/LANGUAGE.md,
/// "Natives"). `this` is its receiver, if it has one. None where it is another, or where its fuel is wanting: then
/// nothing has changed. Else it took its extra, all of which was spent, and what is given is left of it; handlers are
/// not asked for. After `Memory` too, all that the widget holds is its own, and others have what they had.
pub fn call(
    alloc: Global,
    w: u32,
    which: NativeId,
    this: &Option<Value>,
    args: &[Value],
    store: &mut Store,
    meter: &mut Meter,
) -> Result<Option<NativeOut>, Memory>
    requires widget { w < 32 }
    requires confined { (fs : List Forest) × IsConfined fs w store.old }
    requires held { IfSome this.now (IsFine w store.old.cells) × AreFine w store.old.cells args.now }
    ensures none { IfOk result (λ o. IfNone o ((store.new ≡ store.old) × (meter.new ≡ meter.old))) }
    ensures wanting { IfOk result (λ o. IfNone o (IfSome (store_room which) (λ room. Wants w store.old meter.old.left
        (run_native which (option_map (seen w store.old.cells) this.now) (all_seen w store.old.cells args.now))))) }
    ensures done { IfOk result (λ o. IfSome o (Done w store.old store.new meter.old.left meter.new.left
        (run_native which (option_map (seen w store.old.cells) this.now) (all_seen w store.old.cells args.now)))) }
    ensures spent { IfOk result (λ o. meter.new.left + meter.new.spent ≡ meter.old.left + meter.old.spent) }
    ensures kept { (fs : List Forest) → Kept fs w store.old store.new }
{
    let id = WidgetId { index: w };
    let Some(room) = store_room(which) else {
        return Ok(None);
    };
    let plain = Value::Ref(GLOBAL);
    let this = receiver_of(store, id, this, &plain);
    let out = call_in(room, alloc, id, which, this, args, store, meter)?;
    Ok(carried(out))
}

// A native of a room, where the Global cell stands for no receiver.
fn call_in(
    room: StoreRoom,
    alloc: Global,
    w: WidgetId,
    which: NativeId,
    this: &Value,
    args: &[Value],
    store: &mut Store,
    meter: &mut Meter,
) -> Result<NativeOut, Memory>
    requires room { store_room which ≡ Some room }
    requires confined { (fs : List Forest) × IsConfined fs w.index store.old }
    requires receiver { IsReceiver w.index store.old.cells this.now }
    requires args { AreFine w.index store.old.cells args.now }
    ensures native { IfOk result (RefinesSilent w.index store.old store.new meter.old meter.new
        (run_native which (receiver w.index store.old.cells this.now) (all_seen w.index store.old.cells args.now))) }
    ensures memory { OnErr result ((fs : List Forest) → Kept fs w.index store.old store.new) }
{
    match room {
        StoreRoom::Texts => text_methods::call(alloc, which, this, args, store, meter, w),
        StoreRoom::Lists => list_methods::call(alloc, which, this, args, store, meter, w),
        StoreRoom::Adsafe => adsafe_object::call_silent(alloc, w, which, this, args, store, meter),
    }
}
