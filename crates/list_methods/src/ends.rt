//! `pop` and `push`.
ghost use Rattle.std.specs.Prelude.{◌≡◌, ◌+◌, ◌≤◌, List, IfOk, OnErr, length};
ghost use Rattle.js_tree.specs.Forest.{Forest};
ghost use Rattle.widget_meaning.specs.ListChanges as changes;
ghost use Rattle.js_image.specs.Image.{all_seen};
ghost use Rattle.js_image.specs.Held.{AreFine, IsConfined, Kept};
ghost use Rattle.native_common.specs.Refines.{Ends, Refines};
ghost use Rattle.list_methods.specs.Arrays.{IsArray, number};
ghost use Rattle.list_methods.specs.Parts.{popped, put_last};

use crate::array::{OwnArray, arg_count, number_value};
use crate::changing::{push_all, shorten};
use code_units::Memory;
use js_image::{Paid, element, pay_slots};
use js_values::{Fault, Meter, NativeOut};
use native_common::{WidgetId, take};
use object_store::{Store, Value};
use std::alloc::Global;

/// `pop()`.
pub(crate) fn pop(
    alloc: Global,
    array: OwnArray,
    args: &[Value],
    store: &mut Store,
    meter: &mut Meter,
    w: WidgetId,
) -> Result<NativeOut, Memory>
    requires array { IsArray w.index store.old array }
    requires confined { (fs : List Forest) × IsConfined fs w.index store.old }
    ensures native { IfOk result (λ o. Refines w.index store.old store.new meter.old meter.new
        (λ d s. changes.pop (number w.index store.old array) array.len
        (all_seen w.index store.old.cells args.now) s) o) }
    ensures memory { OnErr result ((fs : List Forest) → Kept fs w.index store.old store.new) }
{
    let asked = arg_count(args);
    match take(meter, asked) {
        Ok(()) => pop_last(alloc, array, store, w),
        Err(_) => Ok(NativeOut::OutOfFuel),
    }
}

fn pop_last(
    alloc: Global,
    array: OwnArray,
    store: &mut Store,
    w: WidgetId,
) -> Result<NativeOut, Memory>
    requires array { IsArray w.index store.old array }
    requires confined { (fs : List Forest) × IsConfined fs w.index store.old }
    ensures native { IfOk result
        (λ o. Ends w.index store.old store.new (λ d s. popped (number w.index store.old array) array.len s) o) }
    ensures memory { OnErr result ((fs : List Forest) → Kept fs w.index store.old store.new) }
{
    if array.len == 0 {
        return Ok(NativeOut::Value(Value::Undefined));
    }
    let base = Value::Ref(array.cell);
    let last = element(store, &base, array.len - 1)?;
    shorten(alloc, array, array.len - 1, store, w)?;
    Ok(NativeOut::Value(last))
}

/// The largest length of an Array.
const MOST: usize = 4294967295;

/// `push(a, ...)`.
pub(crate) fn push(
    alloc: Global,
    array: OwnArray,
    args: &[Value],
    store: &mut Store,
    meter: &mut Meter,
    w: WidgetId,
) -> Result<NativeOut, Memory>
    requires array { IsArray w.index store.old array }
    requires args { AreFine w.index store.old.cells args.now }
    ensures native { IfOk result (λ o. Refines w.index store.old store.new meter.old meter.new
        (λ d s. changes.push (number w.index store.old array) array.len
        (all_seen w.index store.old.cells args.now) s) o) }
    ensures memory { OnErr result ((fs : List Forest) → Kept fs w.index store.old store.new) }
{
    let asked = arg_count(args);
    let room = room_behind(array.len);
    if asked > room {
        return Ok(NativeOut::Throw(Fault::E7));
    }
    match take(meter, asked) {
        Ok(()) => put_last(alloc, array, args, store, w),
        Err(_) => Ok(NativeOut::OutOfFuel),
    }
}

/// How many elements an Array of a length has room for.
pub(crate) fn room_behind(len: u32) -> usize
    ensures { result + len ≡ 4294967295 }
{
    MOST - len as usize
}

// The arguments at the end.
fn put_last(
    alloc: Global,
    array: OwnArray,
    args: &[Value],
    store: &mut Store,
    w: WidgetId,
) -> Result<NativeOut, Memory>
    requires array { IsArray w.index store.old array }
    requires args { AreFine w.index store.old.cells args.now }
    requires few { array.len + length args.now ≤ 4294967295 }
    ensures native { IfOk result (λ o. Ends w.index store.old store.new
        (λ d s. put_last (number w.index store.old array) array.len (all_seen w.index store.old.cells args.now) s) o) }
    ensures memory { OnErr result ((fs : List Forest) → Kept fs w.index store.old store.new) }
{
    let count = count_of(args);
    match pay_slots(store, w.index, count) {
        Paid::Stop(cause) => Ok(NativeOut::Stop(cause)),
        Paid::Done => {
            push_all(alloc, array, args, store, w)?;
            Ok(NativeOut::Value(number_value(array.len + count)))
        }
    }
}

/// How many arguments there are.
pub(crate) fn count_of(args: &[Value]) -> u32
    requires { length args.now ≤ 4294967295 }
    ensures { result ≡ length args.now }
{
    args.len() as u32
}
