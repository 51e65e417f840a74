//! `sort`.
ghost use Rattle.std.specs.Prelude.{◌≡◌, ℕ, List, IfOk, OnErr, OnOk, map};
ghost use Rattle.std.specs.List.{AllByRecursion};
ghost use Rattle.std.specs.List.Sorted.{IsPermutation, IsSortedBy, IsStableBy};
ghost use Rattle.std.specs.Ordering.{is_lt};
ghost use Rattle.js_tree.specs.Forest.{Forest};
ghost use Rattle.store_cells.specs.Cells.{PlainCell};
ghost use Rattle.widget_meaning.specs.Values as meaning;
ghost use Rattle.widget_meaning.specs.NativeForms as forms;
ghost use Rattle.widget_meaning.specs.ListChanges as changes;
ghost use Rattle.js_image.specs.Image.{all_seen, seen};
ghost use Rattle.js_image.specs.Held.{AreFine, IsConfined, Kept};
ghost use Rattle.native_common.specs.Refines.{Ends, Refines};
ghost use Rattle.list_methods.specs.Arrays.{IsArray, number};
ghost use Rattle.list_methods.specs.Sorting.{IsKeyed, comes_before, has_order};

use crate::array::{OwnArray, extra, holds_objects, values_of};
use crate::filling::change;
use code_units::{Memory, Text};
use js_values::{Fault, Meter, NativeOut};
use native_common::{WidgetId, nth, read_text, take};
use object_store::{Store, Value};
use std::alloc::Global;
use std::cmp::Ordering;

/// `sort()`.
pub(crate) fn sort(
    alloc: Global,
    array: OwnArray,
    args: &[Value],
    store: &mut Store,
    meter: &mut Meter,
    w: WidgetId,
) -> Result<NativeOut, Memory>
    requires array { IsArray w.index store.old array }
    requires confined { (fs : List Forest) × IsConfined fs w.index store.old }
    requires args { AreFine w.index store.old.cells args.now }
    ensures native { IfOk result (λ o. Refines w.index store.old store.new meter.old meter.new
        (λ d s. changes.sort (number w.index store.old array) array.len
        (all_seen w.index store.old.cells args.now) s) o) }
    ensures memory { OnErr result ((fs : List Forest) → Kept fs w.index store.old store.new) }
{
    let absent = Value::Undefined;
    if has_order(nth(args, 0, &absent)) {
        return Ok(NativeOut::Throw(Fault::E4));
    }
    if holds_objects(store, w, array) {
        return Ok(NativeOut::Throw(Fault::E4));
    }
    let asked = extra(store, w, array.len, args);
    match take(meter, asked) {
        Ok(()) => put_in_order(alloc, array, store, w),
        Err(_) => Ok(NativeOut::OutOfFuel),
    }
}

// Whether an order is asked for.
fn has_order(v: &Value) -> bool
    ensures { (w : ℕ) (cells : List PlainCell) → result ≡ has_order (seen w cells v.now) }
{
    match v {
        Value::Undefined => false,
        _ => true,
    }
}

fn put_in_order(
    alloc: Global,
    array: OwnArray,
    store: &mut Store,
    w: WidgetId,
) -> Result<NativeOut, Memory>
    requires array { IsArray w.index store.old array }
    requires confined { (fs : List Forest) × IsConfined fs w.index store.old }
    ensures native { IfOk result (λ o. Ends w.index store.old store.new
        (λ d s. changes.change (number w.index store.old array)
        (changes.sorted (forms.elements s (number w.index store.old array) array.len))
        (meaning.Own (number w.index store.old array)) s) o) }
    ensures memory { OnErr result ((fs : List Forest) → Kept fs w.index store.old store.new) }
{
    let all = values_of(alloc, store, w, array)?;
    let values = sorted(alloc, &all)?;
    change(alloc, array, &values, Value::Ref(array.cell), store, w)
}

/// An element with its text, by which it is sorted; undefined has none.
#[derive(Drop)]
pub(crate) struct Keyed {
    pub key: Option<Text>,
    pub value: Value,
}

// Values in the order of their texts; undefined comes last, and those that tie keep their order.
fn sorted(alloc: Global, values: &[Value]) -> Result<Vec<Value>, Memory>
    ensures sorted { IfOk result (λ vs. (w : ℕ) (cells : List PlainCell)
        → all_seen w cells vs.items ≡ changes.sorted (all_seen w cells values.now)) }
    ensures fine { IfOk result (λ vs. (w : ℕ) (cells : List PlainCell) → AreFine w cells values.now
        → AreFine w cells vs.items) }
{
    let mut all = with_keys(alloc, values)?;
    put_in_place(&mut all)?;
    values_in(alloc, &all)
}

// Each value with its key.
fn with_keys(alloc: Global, values: &[Value]) -> Result<Vec<Keyed>, Memory>
    ensures values { IfOk result (λ all. map (λ k. k.value) all.items ≡ values.now) }
    ensures keys { IfOk result (λ all. AllByRecursion IsKeyed all.items) }
{
    let mut all = Vec::new(alloc);
    for v in values {
        all.push(with_key(alloc, v)?)?;
    }
    Ok(all)
}

fn with_key(alloc: Global, v: &Value) -> Result<Keyed, Memory>
    ensures value { IfOk result (λ k. k.value ≡ v.now) }
    ensures key { IfOk result (λ k. IsKeyed k) }
{
    let key = key_of(alloc, v)?;
    Ok(Keyed {
        key,
        value: v.share()?,
    })
}

fn key_of(alloc: Global, v: &Value) -> Result<Option<Text>, Memory>
    ensures { IfOk result (λ key. (w : ℕ) (cells : List PlainCell) → key ≡ changes.sort_key (seen w cells v.now)) }
{
    match v {
        Value::Undefined => Ok(None),
        _ => Ok(Some(read_text(alloc, v)?)),
    }
}

fn put_in_place(all: &mut Vec<Keyed>) -> Result<(), Memory>
    ensures same { IsPermutation all.old.items all.new.items }
    ensures sorted { OnOk result (IsSortedBy comes_before all.new.items) }
    ensures stable { IsStableBy comes_before all.old.items all.new.items }
{
    Ok(all.sort_by(|a, b| order(a, b))?)
}

fn order(a: &Keyed, b: &Keyed) -> Ordering
    ensures { is_lt result ≡ comes_before a.now b.now }
{
    match (&a.key, &b.key) {
        (Some(t), Some(u)) => t.cmp(u),
        (Some(_), None) => Ordering::Less,
        (None, Some(_)) => Ordering::Greater,
        (None, None) => Ordering::Equal,
    }
}

// The values alone.
fn values_in(alloc: Global, all: &[Keyed]) -> Result<Vec<Value>, Memory>
    ensures { IfOk result (λ vs. vs.items ≡ map (λ k. k.value) all.now) }
{
    let mut values = Vec::new(alloc);
    for k in all {
        values.push(k.value.share()?)?;
    }
    Ok(values)
}
