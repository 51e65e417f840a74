//! `shift`, `unshift` and `reverse`.
ghost use Rattle.std.specs.Prelude as std;
ghost use Rattle.std.specs.Prelude.{◌≡◌, ◌+◌, ◌++◌, ◌≤◌, List, IfOk, OnErr, drop, length, pos, slice_get, unwrap_or};
ghost use Rattle.js_tree.specs.Forest.{Forest};
ghost use Rattle.widget_meaning.specs.Values as meaning;
ghost use Rattle.widget_meaning.specs.NativeForms as forms;
ghost use Rattle.widget_meaning.specs.ListChanges as changes;
ghost use Rattle.js_image.specs.Image.{all_seen};
ghost use Rattle.js_image.specs.Held.{AreFine, IsConfined, Kept};
ghost use Rattle.native_common.specs.Refines.{Ends, Refines};
ghost use Rattle.list_methods.specs.Arrays.{IsArray, number};

use crate::array::{OwnArray, arg_count, extra, number_value, share_all, values_of};
use crate::ends::{count_of, room_behind};
use crate::filling::change;
use code_units::Memory;
use js_values::{Fault, Meter, NativeOut};
use native_common::{WidgetId, nth, take};
use object_store::{Store, Value};
use std::alloc::Global;

/// `shift()`.
pub(crate) fn shift(
    alloc: Global,
    array: OwnArray,
    args: &[Value],
    store: &mut Store,
    meter: &mut Meter,
    w: WidgetId,
) -> Result<NativeOut, Memory>
    requires array { IsArray w.index store.old array }
    requires confined { (fs : List Forest) × IsConfined fs w.index store.old }
    requires args { AreFine w.index store.old.cells args.now }
    ensures native { IfOk result (λ o. Refines w.index store.old store.new meter.old meter.new
        (λ d s. changes.shift (number w.index store.old array) array.len
        (all_seen w.index store.old.cells args.now) s) o) }
    ensures memory { OnErr result ((fs : List Forest) → Kept fs w.index store.old store.new) }
{
    let asked = extra(store, w, array.len, args);
    match take(meter, asked) {
        Ok(()) => take_first(alloc, array, store, w),
        Err(_) => Ok(NativeOut::OutOfFuel),
    }
}

fn take_first(
    alloc: Global,
    array: OwnArray,
    store: &mut Store,
    w: WidgetId,
) -> Result<NativeOut, Memory>
    requires array { IsArray w.index store.old array }
    requires confined { (fs : List Forest) × IsConfined fs w.index store.old }
    ensures native { IfOk result (λ o. Ends w.index store.old store.new
        (λ d s. changes.change (number w.index store.old array)
        (drop 1 (forms.elements s (number w.index store.old array) array.len))
        (meaning.nth 0 (forms.elements s (number w.index store.old array) array.len)) s) o) }
    ensures memory { OnErr result ((fs : List Forest) → Kept fs w.index store.old store.new) }
{
    let all = values_of(alloc, store, w, array)?;
    let first = first_of(&all)?;
    change(alloc, array, rest(&all), first, store, w)
}

// The first of them, for a second holder; undefined where there is none.
fn first_of(all: &[Value]) -> Result<Value, Memory>
    ensures { IfOk result (λ v. v ≡ unwrap_or (slice_get all.now 0) Value.Undefined) }
{
    let absent = Value::Undefined;
    nth(all, 0, &absent).share()
}

// All but the first.
fn rest(all: &[Value]) -> &[Value]
    ensures { result.now ≡ drop 1 all.now }
{
    if all.is_empty() { all } else { &all[1..] }
}

/// `unshift(a, ...)`.
pub(crate) fn unshift(
    alloc: Global,
    array: OwnArray,
    args: &[Value],
    store: &mut Store,
    meter: &mut Meter,
    w: WidgetId,
) -> Result<NativeOut, Memory>
    requires array { IsArray w.index store.old array }
    requires confined { (fs : List Forest) × IsConfined fs w.index store.old }
    requires args { AreFine w.index store.old.cells args.now }
    ensures native { IfOk result (λ o. Refines w.index store.old store.new meter.old meter.new
        (λ d s. changes.unshift (number w.index store.old array) array.len
        (all_seen w.index store.old.cells args.now) s) o) }
    ensures memory { OnErr result ((fs : List Forest) → Kept fs w.index store.old store.new) }
{
    let count = arg_count(args);
    let room = room_behind(array.len);
    if count > room {
        return Ok(NativeOut::Throw(Fault::E7));
    }
    let asked = extra(store, w, array.len, args);
    match take(meter, asked) {
        Ok(()) => put_first(alloc, array, args, store, w),
        Err(_) => Ok(NativeOut::OutOfFuel),
    }
}

// The arguments at the front.
fn put_first(
    alloc: Global,
    array: OwnArray,
    args: &[Value],
    store: &mut Store,
    w: WidgetId,
) -> Result<NativeOut, Memory>
    requires array { IsArray w.index store.old array }
    requires confined { (fs : List Forest) × IsConfined fs w.index store.old }
    requires args { AreFine w.index store.old.cells args.now }
    requires few { array.len + length args.now ≤ 4294967295 }
    ensures native { IfOk result (λ o. Ends w.index store.old store.new
        (λ d s. changes.change (number w.index store.old array)
        (all_seen w.index store.old.cells args.now ++ forms.elements s (number w.index store.old array) array.len)
        (meaning.Num (pos (array.len + length (all_seen w.index store.old.cells args.now)))) s) o) }
    ensures memory { OnErr result ((fs : List Forest) → Kept fs w.index store.old store.new) }
{
    let all = values_of(alloc, store, w, array)?;
    let values = in_front(alloc, args, &all)?;
    let len = array.len + count_of(args);
    change(alloc, array, &values, number_value(len), store, w)
}

// Values, and others behind them.
fn in_front(alloc: Global, values: &[Value], more: &[Value]) -> Result<Vec<Value>, Memory>
    ensures { IfOk result (λ vs. vs.items ≡ values.now ++ more.now) }
{
    let mut all = Vec::new(alloc);
    share_all(&mut all, values)?;
    share_all(&mut all, more)?;
    Ok(all)
}

/// `reverse()`.
pub(crate) fn reverse(
    alloc: Global,
    array: OwnArray,
    args: &[Value],
    store: &mut Store,
    meter: &mut Meter,
    w: WidgetId,
) -> Result<NativeOut, Memory>
    requires array { IsArray w.index store.old array }
    requires confined { (fs : List Forest) × IsConfined fs w.index store.old }
    requires args { AreFine w.index store.old.cells args.now }
    ensures native { IfOk result (λ o. Refines w.index store.old store.new meter.old meter.new
        (λ d s. changes.reverse (number w.index store.old array) array.len
        (all_seen w.index store.old.cells args.now) s) o) }
    ensures memory { OnErr result ((fs : List Forest) → Kept fs w.index store.old store.new) }
{
    let asked = extra(store, w, array.len, args);
    match take(meter, asked) {
        Ok(()) => turn(alloc, array, store, w),
        Err(_) => Ok(NativeOut::OutOfFuel),
    }
}

fn turn(alloc: Global, array: OwnArray, store: &mut Store, w: WidgetId) -> Result<NativeOut, Memory>
    requires array { IsArray w.index store.old array }
    requires confined { (fs : List Forest) × IsConfined fs w.index store.old }
    ensures native { IfOk result (λ o. Ends w.index store.old store.new
        (λ d s. changes.change (number w.index store.old array)
        (std.reverse (forms.elements s (number w.index store.old array) array.len))
        (meaning.Own (number w.index store.old array)) s) o) }
    ensures memory { OnErr result ((fs : List Forest) → Kept fs w.index store.old store.new) }
{
    let all = values_of(alloc, store, w, array)?;
    let values = reversed(all);
    change(alloc, array, &values, Value::Ref(array.cell), store, w)
}

// The values, the last first.
fn reversed(mut values: Vec<Value>) -> Vec<Value>
    ensures { result.items ≡ std.reverse values.items }
{
    values.reverse();
    values
}
