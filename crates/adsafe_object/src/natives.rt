//! The one call of a native.
ghost use Rattle.std.specs.Prelude.{◌≡◌, List, Option, None, false, true, IfOk, OnErr};
ghost use Rattle.js_tree.specs.Forest.{Forest};
ghost use Rattle.widget_meaning.specs.AdsafeNatives.{adsafe_native};
ghost use Rattle.widget_meaning.specs.Natives.{run_native};
ghost use Rattle.widget_meaning.specs.Values.{Value as Plain};
ghost use Rattle.js_image.specs.Image.{all_seen};
ghost use Rattle.js_image.specs.Held.{AreFine, Kept};
ghost use Rattle.native_common.specs.Receivers.{IsReceiver, receiver};
ghost use Rattle.adsafe_object.specs.Ends.{RefinesNoted, RefinesSilent};
ghost use Rattle.adsafe_object.specs.Part.{is_part, keeps_note};
ghost use Rattle.adsafe_object.specs.Timers.{AsksOwn};

use crate::notes::{later, log as log_value, post};
use crate::objects::{create, is_array, keys};
use crate::owning::{has, has_own_property};
use crate::properties::{get, remove, set};
use code_units::{Memory, Text};
use js_values::{Meter, NativeOut};
use json_text::{from_json, to_json};
use native_common::{WidgetId, nth};
use object_store::{AdsafeNative, CellId, NativeId, Store, Value};
use std::alloc::Global;

/// Calls a native of `ADSAFE`, or `hasOwnProperty`, whose unit was taken: the answer is the row of the
/// language. `waiting` timers wait; what `later` asks for is left in `asked`, with a function of the widget;
/// `log` is the widget's log,
/// and `posts` are the posts that it has kept, each with receiver and text.
pub fn call(
    alloc: Global,
    which: NativeId,
    this: &Value,
    args: &[Value],
    store: &mut Store,
    meter: &mut Meter,
    w: WidgetId,
    log: &mut Vec<Text>,
    waiting: u32,
    asked: &mut Option<(CellId, i64)>,
    posts: &mut Vec<(Text, Text)>,
) -> Result<NativeOut, Memory>
    requires part { is_part which ≡ true }
    requires receiver { IsReceiver w.index store.old.cells this.now }
    requires args { AreFine w.index store.old.cells args.now }
    requires unasked { asked.old ≡ None }
    ensures own { AsksOwn w.index store.new.cells asked.new }
    ensures native { IfOk result (λ o.
        RefinesNoted w.index waiting store.old store.new meter.old meter.new
        (record { log = log.old.items; posts = posts.old.items; asked = None })
        (record { log = log.new.items; posts = posts.new.items; asked = asked.new })
        (run_native which (receiver w.index store.old.cells this.now)
        (all_seen w.index store.old.cells args.now)) o) }
    ensures memory { OnErr result ((fs : List Forest) → Kept fs w.index store.old store.new) }
{
    match which {
        NativeId::Adsafe(native) => of_adsafe(
            alloc, native, args, store, meter, w, log, waiting, asked, posts,
        ),
        _ => call_silent(alloc, w, which, this, args, store, meter),
    }
}

/// The same for widget `w`, of a native that keeps no note: all but `log`, `later` and `post`.
pub fn call_silent(
    alloc: Global,
    w: WidgetId,
    which: NativeId,
    this: &Value,
    args: &[Value],
    store: &mut Store,
    meter: &mut Meter,
) -> Result<NativeOut, Memory>
    requires part { is_part which ≡ true }
    requires silent { keeps_note which ≡ false }
    requires receiver { IsReceiver w.index store.old.cells this.now }
    requires args { AreFine w.index store.old.cells args.now }
    ensures native { IfOk result (λ o. RefinesSilent w.index store.old store.new meter.old meter.new
        (run_native which (receiver w.index store.old.cells this.now) (all_seen w.index store.old.cells args.now)) o) }
    ensures memory { OnErr result ((fs : List Forest) → Kept fs w.index store.old store.new) }
{
    let absent = Value::Undefined;
    let first = nth(args, 0, &absent);
    match which {
        NativeId::Adsafe(native) => silent(alloc, native, args, store, meter, w),
        NativeId::Prototype(_) => has_own_property(alloc, store, w, this, first),
        _ => unreachable!(),
    }
}

// A native of `ADSAFE`, for every receiver.
fn of_adsafe(
    alloc: Global,
    which: AdsafeNative,
    args: &[Value],
    store: &mut Store,
    meter: &mut Meter,
    w: WidgetId,
    log: &mut Vec<Text>,
    waiting: u32,
    asked: &mut Option<(CellId, i64)>,
    posts: &mut Vec<(Text, Text)>,
) -> Result<NativeOut, Memory>
    requires args { AreFine w.index store.old.cells args.now }
    requires unasked { asked.old ≡ None }
    ensures own { AsksOwn w.index store.new.cells asked.new }
    ensures native { (this : Option Plain) → IfOk result (λ o.
        RefinesNoted w.index waiting store.old store.new meter.old meter.new
        (record { log = log.old.items; posts = posts.old.items; asked = None })
        (record { log = log.new.items; posts = posts.new.items; asked = asked.new })
        (adsafe_native which this (all_seen w.index store.old.cells args.now)) o) }
    ensures memory { OnErr result ((fs : List Forest) → Kept fs w.index store.old store.new) }
{
    let absent = Value::Undefined;
    let first = nth(args, 0, &absent);
    let second = nth(args, 1, &absent);
    match which {
        AdsafeNative::Later => Ok(later(store, w, first, second, waiting, asked)),
        AdsafeNative::LogValue => log_value(alloc, store, meter, w, first, log),
        AdsafeNative::Post => post(store, meter, w, first, second, posts),
        _ => silent(alloc, which, args, store, meter, w),
    }
}

// The same of a native that keeps no note.
fn silent(
    alloc: Global,
    which: AdsafeNative,
    args: &[Value],
    store: &mut Store,
    meter: &mut Meter,
    w: WidgetId,
) -> Result<NativeOut, Memory>
    requires silent { keeps_note (NativeId.Adsafe which) ≡ false }
    requires args { AreFine w.index store.old.cells args.now }
    ensures native { (this : Option Plain)
        → IfOk result (λ o. RefinesSilent w.index store.old store.new meter.old meter.new
        (adsafe_native which this (all_seen w.index store.old.cells args.now)) o) }
    ensures memory { OnErr result ((fs : List Forest) → Kept fs w.index store.old store.new) }
{
    let absent = Value::Undefined;
    let first = nth(args, 0, &absent);
    let second = nth(args, 1, &absent);
    match which {
        AdsafeNative::GetProperty => get(alloc, store, w, first, second),
        AdsafeNative::SetProperty => set(alloc, store, w, first, second, nth(args, 2, &absent)),
        AdsafeNative::RemoveProperty => remove(alloc, store, w, first, second),
        AdsafeNative::HasProperty => has(alloc, store, w, first, second),
        AdsafeNative::Create => create(alloc, store, w, first),
        AdsafeNative::IsArray => Ok(is_array(store, w, first)),
        AdsafeNative::KeysOf => keys(alloc, store, meter, w, first),
        AdsafeNative::FromJson => from_json(alloc, store, meter, w, first),
        AdsafeNative::ToJson => to_json(alloc, store, meter, w, first),
        _ => unreachable!(),
    }
}
