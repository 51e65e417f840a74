//! `splice`.
ghost use Rattle.std.specs.Prelude.{◌≡◌, ◌+◌, ◌++◌, ◌-◌, ◌≤◌, ℕ, List, IfOk, OnErr, drop, length, take};
ghost use Rattle.js_tree.specs.Forest.{Forest};
ghost use Rattle.store_cells.specs.Cells.{PlainCell};
ghost use Rattle.widget_meaning.specs.NativeForms as forms;
ghost use Rattle.widget_meaning.specs.ListChanges as changes;
ghost use Rattle.js_image.specs.Image.{all_seen};
ghost use Rattle.js_image.specs.Held.{AreFine, IsConfined, Kept};
ghost use Rattle.native_common.specs.Refines.{Ends, Refines};
ghost use Rattle.list_methods.specs.Arrays.{IsArray, number};
ghost use Rattle.list_methods.specs.Parts.{exchanged, filled_after, many_taken};

use crate::array::{OwnArray, charged, extra, share_all, values_of, whole};
use crate::copying::part;
use crate::filling::fill;
use code_units::{Memory, Owner};
use js_image::{Made, Paid, StopCause, make_array, new_indexes, pay_slots};
use js_values::{Fault, Meter, NativeOut};
use native_common::{WidgetId, any_object, clamped, from_end, nth, number_or, take};
use object_store::{CELL_LIMIT, SLOT_LIMIT, Store, Value};
use std::alloc::Global;

/// Where elements are taken out, and how many.
#[derive(Clone, Copy, Drop)]
pub(crate) struct Cut {
    pub at: usize,
    pub count: usize,
}

/// `splice(a, n, v, ...)`.
pub(crate) fn splice(
    alloc: Global,
    array: OwnArray,
    args: &[Value],
    store: &mut Store,
    meter: &mut Meter,
    w: WidgetId,
) -> Result<NativeOut, Memory>
    requires array { IsArray w.index store.old array }
    requires confined { (fs : List Forest) × IsConfined fs w.index store.old }
    requires args { AreFine w.index store.old.cells args.now }
    ensures native { IfOk result (λ o. Refines w.index store.old store.new meter.old meter.new
        (λ d s. changes.splice (number w.index store.old array) array.len
        (all_seen w.index store.old.cells args.now) s) o) }
    ensures memory { OnErr result ((fs : List Forest) → Kept fs w.index store.old store.new) }
{
    if any_object(first_two(args)) {
        return Ok(NativeOut::Throw(Fault::E4));
    }
    let asked = extra(store, w, array.len, args);
    let absent = Value::Undefined;
    let Some(a) = number_or(nth(args, 0, &absent), 0) else {
        return Ok(charged(meter, asked, NativeOut::Stop(StopCause::Number)));
    };
    let Some(n) = count_of(args, array.len) else {
        return Ok(charged(meter, asked, NativeOut::Stop(StopCause::Number)));
    };
    let cut = cut_of(array.len as usize, a, n);
    match take(meter, asked) {
        Ok(()) => spliced(alloc, array, cut, behind_two(args), store, w),
        Err(_) => Ok(NativeOut::OutOfFuel),
    }
}

// The arguments that say where.
fn first_two(args: &[Value]) -> &[Value]
    ensures { result.now ≡ take 2 args.now }
{
    if args.len() < 2 { args } else { &args[..2] }
}

// The arguments that are put in.
fn behind_two(args: &[Value]) -> &[Value]
    ensures { result.now ≡ drop 2 args.now }
{
    if args.len() < 2 {
        &args[..0]
    } else {
        &args[2..]
    }
}

// How many are taken out: to the end where the argument is absent; none where it leaves the numbers.
fn count_of(args: &[Value], len: u32) -> Option<i64>
    ensures { (w : ℕ) (cells : List PlainCell) → result ≡ many_taken len (drop 1 (all_seen w cells args.now)) }
{
    match args.get(1) {
        None => Some(whole(len)),
        Some(v) => number_or(v, 0),
    }
}

// The place counts from the end where it is negative, and no more are taken than there are.
fn cut_of(len: usize, a: i64, n: i64) -> Cut
    ensures at { result.at ≡ forms.from_end len a }
    ensures count { result.count ≡ forms.clamped (len - forms.from_end len a) n }
    ensures within { result.at + result.count ≤ len }
{
    let at = from_end(len, a);
    Cut {
        at,
        count: clamped(len - at, n),
    }
}

// Elements are taken out, and others put in.
fn spliced(
    alloc: Global,
    array: OwnArray,
    cut: Cut,
    new: &[Value],
    store: &mut Store,
    w: WidgetId,
) -> Result<NativeOut, Memory>
    requires array { IsArray w.index store.old array }
    requires confined { (fs : List Forest) × IsConfined fs w.index store.old }
    requires new { AreFine w.index store.old.cells new.now }
    requires within { cut.at + cut.count ≤ array.len }
    ensures native { IfOk result (λ o. Ends w.index store.old store.new
        (λ d s. changes.spliced (number w.index store.old array)
        (forms.elements s (number w.index store.old array) array.len) cut.at cut.count
        (all_seen w.index store.old.cells new.now) s) o) }
    ensures memory { OnErr result ((fs : List Forest) → Kept fs w.index store.old store.new) }
{
    let all = values_of(alloc, store, w, array)?;
    let taken = part(alloc, &all, cut.at, cut.at + cut.count)?;
    let left = left(alloc, &all, cut, new)?;
    exchange(alloc, array, taken, &left, store, w)
}

// What is left: the elements before the place, the new ones, and those behind.
fn left(alloc: Global, all: &[Value], cut: Cut, new: &[Value]) -> Result<Vec<Value>, Memory>
    requires { cut.at + cut.count ≤ length all.now }
    ensures { IfOk result (λ vs. vs.items ≡ take cut.at all.now ++ (new.now ++ drop (cut.at + cut.count) all.now)) }
{
    let mut values = Vec::new(alloc);
    share_all(&mut values, &all[..cut.at])?;
    share_all(&mut values, new)?;
    share_all(&mut values, &all[cut.at + cut.count..])?;
    Ok(values)
}

// The Array gets elements, and those taken out are a new one, which is given: one cost for both.
fn exchange(
    alloc: Global,
    array: OwnArray,
    taken: Vec<Value>,
    left: &[Value],
    store: &mut Store,
    w: WidgetId,
) -> Result<NativeOut, Memory>
    requires array { IsArray w.index store.old array }
    requires taken { AreFine w.index store.old.cells taken.items }
    requires left { AreFine w.index store.old.cells left.now }
    ensures native { IfOk result (λ o. Ends w.index store.old store.new
        (λ d s. exchanged (number w.index store.old array) (all_seen w.index store.old.cells taken.items)
        (all_seen w.index store.old.cells left.now) s) o) }
    ensures memory { OnErr result ((fs : List Forest) → Kept fs w.index store.old store.new) }
{
    let Ok(len) = u32::try_from(left.len()) else {
        return Err(Memory);
    };
    let base = Value::Ref(array.cell);
    let fresh = new_indexes(store, &base, len);
    let paid = store.counts(Owner::Widget(w.index));
    if paid.cells >= CELL_LIMIT {
        return Ok(NativeOut::Stop(StopCause::Cells));
    }
    if taken.len().saturating_add(fresh as usize) > (SLOT_LIMIT - paid.slots) as usize {
        return Ok(NativeOut::Stop(StopCause::Slots));
    }
    match pay_slots(store, w.index, fresh) {
        Paid::Stop(_) => Err(Memory),
        Paid::Done => give_taken(alloc, array, taken, left, store, w),
    }
}

// The new Array, and then the elements that are left, which are paid for.
fn give_taken(
    alloc: Global,
    array: OwnArray,
    taken: Vec<Value>,
    left: &[Value],
    store: &mut Store,
    w: WidgetId,
) -> Result<NativeOut, Memory>
    requires array { IsArray w.index store.old array }
    requires taken { AreFine w.index store.old.cells taken.items }
    requires left { AreFine w.index store.old.cells left.now }
    requires few { length left.now ≤ 4294967295 }
    ensures native { IfOk result (λ o. Ends w.index store.old store.new
        (λ d s. filled_after (number w.index store.old array) (all_seen w.index store.old.cells taken.items)
        (all_seen w.index store.old.cells left.now) s) o) }
    ensures memory { OnErr result ((fs : List Forest) → Kept fs w.index store.old store.new) }
{
    let made = make_array(alloc, store, w.index, taken, 0)?;
    match made {
        Made::Stop(cause) => Ok(NativeOut::Stop(cause)),
        Made::Cell(id) => {
            fill(alloc, array, left, store, w)?;
            Ok(NativeOut::Value(Value::Ref(id)))
        }
    }
}
