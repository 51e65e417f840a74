//! The one call of this crate, and the methods of texts.
ghost use Rattle.std.specs.Prelude.{◌≡◌, true, List, IfOk, OnErr};
ghost use Rattle.js_tree.specs.Forest.{Forest};
ghost use Rattle.widget_meaning.specs.Natives.{run_native};
ghost use Rattle.widget_meaning.specs.TextNatives as means;
ghost use Rattle.js_image.specs.Image.{all_seen};
ghost use Rattle.js_image.specs.Held.{AreFine, Kept};
ghost use Rattle.native_common.specs.Refines.{Refines};
ghost use Rattle.native_common.specs.Receivers.{IsReceiver, receiver};
ghost use Rattle.text_methods.specs.Part.{is_part};

use crate::cutting::{char_at, char_code_at, cut};
use crate::joining::concat;
use crate::making::make_of;
use crate::prototypes::prototype_native;
use crate::searching::{index_of, last_index_of};
use crate::splitting::split;
use code_units::{Memory, Text};
use js_values::{Fault, Meter, NativeOut};
use native_common::{WidgetId, nth};
use object_store::{NativeId, Store, TextNative, Value};
use plain_natives::{global_native, math_native};
use std::alloc::Global;

/// A native of this crate, called by a widget: what the meaning gives at the widget's image, for every
/// receiver and all arguments that the widget may hold. The Global cell as receiver stands for none.
/// The native's unit was taken before; the call takes the extra. Where fuel is wanting nothing
/// changes. After `Memory` what others have is as before, and no cell is gone.
pub fn call(
    alloc: Global,
    which: NativeId,
    this: &Value,
    args: &[Value],
    store: &mut Store,
    meter: &mut Meter,
    w: WidgetId,
) -> Result<NativeOut, Memory>
    requires part { is_part which ≡ true }
    requires receiver { IsReceiver w.index store.old.cells this.now }
    requires args { AreFine w.index store.old.cells args.now }
    ensures native { IfOk result (λ o. Refines w.index store.old store.new meter.old meter.new
        (run_native which (receiver w.index store.old.cells this.now)
        (all_seen w.index store.old.cells args.now)) o) }
    ensures memory { OnErr result ((fs : List Forest) → Kept fs w.index store.old store.new) }
{
    match which {
        NativeId::Global(native) => global_native(alloc, native, args, store, meter, w),
        NativeId::Math(native) => math_native(native, args, meter),
        NativeId::Prototype(native) => prototype_native(alloc, native, this, args, store, meter, w),
        NativeId::Text(native) => text_native(alloc, native, this, args, store, meter, w),
        _ => unreachable!(),
    }
}

// A method of texts, for any receiver.
fn text_native(
    alloc: Global,
    which: TextNative,
    this: &Value,
    args: &[Value],
    store: &mut Store,
    meter: &mut Meter,
    w: WidgetId,
) -> Result<NativeOut, Memory>
    ensures native { IfOk result (λ o. Refines w.index store.old store.new meter.old meter.new
        (λ d s. means.text_native which (receiver w.index store.old.cells this.now)
        (all_seen w.index store.old.cells args.now) s) o) }
    ensures memory { OnErr result ((fs : List Forest) → Kept fs w.index store.old store.new) }
{
    match this {
        Value::Text(t) => text_method(alloc, which, t, args, store, meter, w),
        _ => Ok(NativeOut::Throw(Fault::E3)),
    }
}

// A method on a text.
fn text_method(
    alloc: Global,
    which: TextNative,
    t: &Text,
    args: &[Value],
    store: &mut Store,
    meter: &mut Meter,
    w: WidgetId,
) -> Result<NativeOut, Memory>
    ensures native { IfOk result (λ o. Refines w.index store.old store.new meter.old meter.new
        (λ d s. means.text_method which t.now (all_seen w.index store.old.cells args.now) s) o) }
    ensures memory { OnErr result ((fs : List Forest) → Kept fs w.index store.old store.new) }
{
    let absent = Value::Undefined;
    let first = nth(args, 0, &absent);
    let second = nth(args, 1, &absent);
    match which {
        TextNative::CharAt => char_at(alloc, t, first, store, meter, w),
        TextNative::CharCodeAt => Ok(char_code_at(t, first, meter)),
        TextNative::TextConcat => concat(alloc, t, args, store, meter, w),
        TextNative::IndexOf => index_of(alloc, t, first, second, meter),
        TextNative::LastIndexOf => last_index_of(alloc, t, first, second, meter),
        TextNative::TextSlice => cut(alloc, t, true, first, second, store, meter, w),
        TextNative::Substring => cut(alloc, t, false, first, second, store, meter, w),
        TextNative::Split => split(alloc, t, first, store, meter, w),
        _ => make_of(alloc, which, t, store, meter, w),
    }
}
