//! The call of a native.
ghost use Rattle.std.specs.Prelude.{◌≡◌, List, true, IfOk, OnErr};
ghost use Rattle.js_tree.specs.Forest.{Forest};
ghost use Rattle.widget_meaning.specs.ListNatives.{list_method};
ghost use Rattle.widget_meaning.specs.Natives.{run_native};
ghost use Rattle.js_image.specs.Image.{all_seen};
ghost use Rattle.js_image.specs.Held.{AreFine, IsConfined, Kept};
ghost use Rattle.native_common.specs.Refines.{Refines};
ghost use Rattle.native_common.specs.Receivers.{IsReceiver, receiver};
ghost use Rattle.list_methods.specs.Arrays.{IsArray, number};
ghost use Rattle.list_methods.specs.Parts.{is_part};

use crate::array::{OwnArray, array_of};
use crate::copying::{concat, slice};
use crate::ends::{pop, push};
use crate::joining::{join, to_string};
use crate::over::{Calls, over};
use crate::sorting::sort;
use crate::splicing::splice;
use crate::turning::{reverse, shift, unshift};
use code_units::Memory;
use js_values::{Fault, Keep, Meter, NativeOut};
use native_common::WidgetId;
use object_store::{ListNative, NativeId, Store, Value};
use std::alloc::Global;

/// Calls a native of arrays, or the `toString` of arrays, for a widget: `this` is the Global cell for a
/// plain call. The answer is the row of docs/LANGUAGE.md, "Natives"; the unit of the native
/// was taken before. What is charged and paid comes before any change, and where fuel is wanting
/// nothing changes. After `Memory` the widget keeps what stands in `Kept`, and nothing more is said.
pub fn call(
    alloc: Global,
    which: NativeId,
    this: &Value,
    args: &[Value],
    store: &mut Store,
    meter: &mut Meter,
    w: WidgetId,
) -> Result<NativeOut, Memory>
    requires part { is_part which ≡ true }
    requires confined { (fs : List Forest) × IsConfined fs w.index store.old }
    requires receiver { IsReceiver w.index store.old.cells this.now }
    requires args { AreFine w.index store.old.cells args.now }
    ensures native { IfOk result (λ o. Refines w.index store.old store.new meter.old meter.new
        (run_native which (receiver w.index store.old.cells this.now)
        (all_seen w.index store.old.cells args.now)) o) }
    ensures memory { OnErr result ((fs : List Forest) → Kept fs w.index store.old store.new) }
{
    let Some(array) = array_of(store, w, this) else {
        return Ok(NativeOut::Throw(Fault::E3));
    };
    match which {
        NativeId::List(method) => of_array(alloc, method, array, args, store, meter, w),
        NativeId::Prototype(_) => to_string(alloc, array, store, meter, w),
        _ => unreachable!(),
    }
}

// A method of an Array.
fn of_array(
    alloc: Global,
    method: ListNative,
    array: OwnArray,
    args: &[Value],
    store: &mut Store,
    meter: &mut Meter,
    w: WidgetId,
) -> Result<NativeOut, Memory>
    requires array { IsArray w.index store.old array }
    requires confined { (fs : List Forest) × IsConfined fs w.index store.old }
    requires args { AreFine w.index store.old.cells args.now }
    ensures native { IfOk result (λ o. Refines w.index store.old store.new meter.old meter.new
        (λ d s. list_method method (number w.index store.old array) array.len
        (all_seen w.index store.old.cells args.now) d s) o) }
    ensures memory { OnErr result ((fs : List Forest) → Kept fs w.index store.old store.new) }
{
    match method {
        ListNative::Join => join(alloc, array, args, store, meter, w),
        ListNative::Shift => shift(alloc, array, args, store, meter, w),
        ListNative::Unshift => unshift(alloc, array, args, store, meter, w),
        ListNative::Reverse => reverse(alloc, array, args, store, meter, w),
        ListNative::Sort => sort(alloc, array, args, store, meter, w),
        ListNative::Splice => splice(alloc, array, args, store, meter, w),
        ListNative::ListConcat => concat(alloc, array, args, store, meter, w),
        ListNative::ListSlice => slice(alloc, array, args, store, meter, w),
        ListNative::Pop => pop(alloc, array, args, store, meter, w),
        ListNative::Push => push(alloc, array, args, store, meter, w),
        ListNative::ForEach => {
            let keep = Keep::Nothing;
            over(alloc, Calls { array, keep }, args, store, meter, w)
        }
        ListNative::MapNative => {
            let keep = Keep::Results;
            over(alloc, Calls { array, keep }, args, store, meter, w)
        }
        ListNative::FilterNative => {
            let keep = Keep::Passing;
            over(alloc, Calls { array, keep }, args, store, meter, w)
        }
    }
}
