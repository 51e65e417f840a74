//! `concat` and `slice`.
ghost use Rattle.std.specs.Prelude.{◌≡◌, ◌++◌, ℕ, List, IfOk, OnErr, OnOk, slice_range, ◌≤◌, length, pos};
ghost use Rattle.std.specs.List.{flat_map};
ghost use Rattle.js_tree.specs.Forest.{Forest};
ghost use Rattle.store_cells.specs.Cells.{PlainCell};
ghost use Rattle.widget_meaning.specs.Values as meaning;
ghost use Rattle.widget_meaning.specs.Costs as costs;
ghost use Rattle.widget_meaning.specs.NativeForms as forms;
ghost use Rattle.widget_meaning.specs.ListChanges as changes;
ghost use Rattle.widget_meaning.specs.ListNatives as means;
ghost use Rattle.js_image.specs.Image.{Rest, all_seen, image, seen};
ghost use Rattle.js_image.specs.Held.{AreFine, IsConfined, IsFine, Kept};
ghost use Rattle.native_common.specs.Refines.{Ends, Refines};
ghost use Rattle.native_common.specs.Numbers as numbers;
ghost use Rattle.list_methods.specs.Arrays.{IsArray, number};

use crate::array::{OwnArray, charged, extra, share_all, values_of, whole};
use code_units::Memory;
use js_image::{StopCause, array_length, elements};
use js_values::{Fault, Meter, NativeOut};
use native_common::{WidgetId, either_object, from_end, give_array, nth, number_or, take};
use object_store::{Store, Value};
use std::alloc::Global;

/// `concat(a, ...)`.
pub(crate) fn concat(
    alloc: Global,
    array: OwnArray,
    args: &[Value],
    store: &mut Store,
    meter: &mut Meter,
    w: WidgetId,
) -> Result<NativeOut, Memory>
    requires array { IsArray w.index store.old array }
    requires confined { (fs : List Forest) × IsConfined fs w.index store.old }
    requires args { AreFine w.index store.old.cells args.now }
    ensures native { IfOk result (λ o. Refines w.index store.old store.new meter.old meter.new
        (λ d s. means.list_concat (number w.index store.old array) array.len
        (all_seen w.index store.old.cells args.now) s) o) }
    ensures memory { OnErr result ((fs : List Forest) → Kept fs w.index store.old store.new) }
{
    let asked = extra(store, w, array.len, args);
    match take(meter, asked) {
        Ok(()) => all_elements(alloc, array, args, store, w),
        Err(_) => Ok(NativeOut::OutOfFuel),
    }
}

// The elements, then those of the arguments, in a new Array.
fn all_elements(
    alloc: Global,
    array: OwnArray,
    args: &[Value],
    store: &mut Store,
    w: WidgetId,
) -> Result<NativeOut, Memory>
    requires array { IsArray w.index store.old array }
    requires confined { (fs : List Forest) × IsConfined fs w.index store.old }
    requires args { AreFine w.index store.old.cells args.now }
    ensures native { IfOk result (λ o. Ends w.index store.old store.new
        (λ d s. forms.make_array (forms.elements s (number w.index store.old array) array.len ++ flat_map
        (changes.array_elements s) (all_seen w.index store.old.cells args.now)) 0 s costs.give) o) }
    ensures memory { OnErr result ((fs : List Forest) → Kept fs w.index store.old store.new) }
{
    let mut values = values_of(alloc, store, w, array)?;
    push_arguments(alloc, store, w, &mut values, args)?;
    give_array(alloc, store, w, values, 0)
}

fn push_arguments(
    alloc: Global,
    store: &Store,
    w: WidgetId,
    values: &mut Vec<Value>,
    args: &[Value],
) -> Result<(), Memory>
    requires confined { (fs : List Forest) × IsConfined fs w.index store.now }
    requires args { AreFine w.index store.now.cells args.now }
    requires values { AreFine w.index store.now.cells values.old.items }
    ensures more { OnOk result ((fs : List Forest) (r : Rest) → all_seen w.index store.now.cells values.new.items
        ≡ all_seen w.index store.now.cells values.old.items ++ flat_map
        (changes.array_elements (image fs r w.index store.now))
        (all_seen w.index store.now.cells args.now)) }
    ensures fine { OnOk result (AreFine w.index store.now.cells values.new.items) }
{
    for v in args {
        push_argument(alloc, store, w, values, v)?;
    }
    Ok(())
}

// What an argument adds: an Array its elements, all else itself.
fn push_argument(
    alloc: Global,
    store: &Store,
    w: WidgetId,
    values: &mut Vec<Value>,
    v: &Value,
) -> Result<(), Memory>
    requires confined { (fs : List Forest) × IsConfined fs w.index store.now }
    requires arg { IsFine w.index store.now.cells v.now }
    requires values { AreFine w.index store.now.cells values.old.items }
    ensures more { OnOk result ((fs : List Forest) (r : Rest) → all_seen w.index store.now.cells values.new.items
        ≡ all_seen w.index store.now.cells values.old.items ++ changes.array_elements (image fs r w.index store.now)
        (seen w.index store.now.cells v.now)) }
    ensures fine { OnOk result (AreFine w.index store.now.cells values.new.items) }
{
    let Some(len) = array_length(store, v) else {
        return Ok(values.push(v.share()?)?);
    };
    let mut more = elements(alloc, store, v, len)?;
    Ok(values.append(&mut more)?)
}

/// `slice(a, b)`.
pub(crate) fn slice(
    alloc: Global,
    array: OwnArray,
    args: &[Value],
    store: &mut Store,
    meter: &mut Meter,
    w: WidgetId,
) -> Result<NativeOut, Memory>
    requires array { IsArray w.index store.old array }
    requires confined { (fs : List Forest) × IsConfined fs w.index store.old }
    requires args { AreFine w.index store.old.cells args.now }
    ensures native { IfOk result (λ o. Refines w.index store.old store.new meter.old meter.new
        (λ d s. means.list_slice (number w.index store.old array) array.len
        (meaning.nth 0 (all_seen w.index store.old.cells args.now))
        (meaning.nth 1 (all_seen w.index store.old.cells args.now))
        (changes.list_extra array.len (all_seen w.index store.old.cells args.now) s) s) o) }
    ensures memory { OnErr result ((fs : List Forest) → Kept fs w.index store.old store.new) }
{
    let absent = Value::Undefined;
    let from = nth(args, 0, &absent);
    let to = nth(args, 1, &absent);
    if either_object(from, to) {
        return Ok(NativeOut::Throw(Fault::E4));
    }
    let asked = extra(store, w, array.len, args);
    let Some(x) = number_or(from, 0) else {
        return Ok(charged(meter, asked, NativeOut::Stop(StopCause::Number)));
    };
    let Some(y) = end_or(to, array.len) else {
        return Ok(charged(meter, asked, NativeOut::Stop(StopCause::Number)));
    };
    let len = array.len as usize;
    match take(meter, asked) {
        Ok(()) => between(alloc, array, from_end(len, x), from_end(len, y), store, w),
        Err(_) => Ok(NativeOut::OutOfFuel),
    }
}

// Where a part ends: at the end, where nothing is said.
fn end_or(v: &Value, len: u32) -> Option<i64>
    ensures { (w : ℕ) (cells : List PlainCell) → result ≡ numbers.optional_number (pos len) (seen w cells v.now) }
{
    match v {
        Value::Undefined => Some(whole(len)),
        _ => number_or(v, 0),
    }
}

// The elements between two places, in a new Array.
fn between(
    alloc: Global,
    array: OwnArray,
    from: usize,
    to: usize,
    store: &mut Store,
    w: WidgetId,
) -> Result<NativeOut, Memory>
    requires array { IsArray w.index store.old array }
    requires confined { (fs : List Forest) × IsConfined fs w.index store.old }
    requires end { to ≤ array.len }
    ensures native { IfOk result (λ o. Ends w.index store.old store.new
        (λ d s. forms.make_array (slice_range
        (forms.elements s (number w.index store.old array) array.len) from to) 0 s costs.give) o) }
    ensures memory { OnErr result ((fs : List Forest) → Kept fs w.index store.old store.new) }
{
    let all = values_of(alloc, store, w, array)?;
    let values = part(alloc, &all, from, to)?;
    give_array(alloc, store, w, values, 0)
}

/// The elements of a list between two places.
pub(crate) fn part(
    alloc: Global,
    all: &[Value],
    from: usize,
    to: usize,
) -> Result<Vec<Value>, Memory>
    requires { to ≤ length all.now }
    ensures { IfOk result (λ vs. vs.items ≡ slice_range all.now from to) }
{
    let mut values = Vec::new(alloc);
    if from < to {
        share_all(&mut values, &all[from..to])?;
    }
    Ok(values)
}
