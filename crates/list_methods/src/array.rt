//! Arrays of the running widget: receivers, elements, and the charge of a native.
ghost use Rattle.std.specs.Prelude.{◌≡◌, ◌++◌, ℕ, List, IfOk, IfSome, OnOk, length, nat_eq, pos, unwrap_or};
ghost use Rattle.std.specs.List.{list_any};
ghost use Rattle.js_tree.specs.Forest.{Forest};
ghost use Rattle.store_cells.specs.Cells.{Cells};
ghost use Rattle.store_cells.specs.Host.{global};
ghost use Rattle.store_cells.specs.Shape.{IsRefWithin};
ghost use Rattle.widget_meaning.specs.Values as meaning;
ghost use Rattle.widget_meaning.specs.OwnState as state;
ghost use Rattle.widget_meaning.specs.OwnState.{State};
ghost use Rattle.widget_meaning.specs.Plan.{Plan, charge};
ghost use Rattle.widget_meaning.specs.NativeForms as forms;
ghost use Rattle.widget_meaning.specs.ListChanges as changes;
ghost use Rattle.js_image.specs.Image.{Rest, all_seen, image, seen};
ghost use Rattle.js_image.specs.Held.{AreFine, IsConfined, IsFine};
ghost use Rattle.js_image.specs.Reads.{cell_in};
ghost use Rattle.native_common.specs.Refines.{Ends, Refines};
ghost use Rattle.native_common.specs.Numbers.{counted};
ghost use Rattle.native_common.specs.Receivers.{IsReceiver, receiver};
ghost use Rattle.list_methods.specs.Arrays.{IsArray, number, on_own};

use code_units::Memory;
use js_image::{array_length, elements, has_objects};
use js_values::{Meter, NativeOut};
use native_common::{WidgetId, take};
use object_store::{CellId, Number, Store, Value};
use std::alloc::Global;

/// An Array of the running widget, and its length.
#[derive(Clone, Copy, Drop)]
pub struct OwnArray {
    pub cell: CellId,
    pub len: u32,
}

/// The Array that a receiver is.
pub(crate) fn array_of(store: &Store, w: WidgetId, this: &Value) -> Option<OwnArray>
    requires { IsReceiver w.index store.now.cells this.now }
    ensures array { IfSome result (λ a. IsArray w.index store.now a) }
    ensures plan { (fs : List Forest) (r : Rest) (k : ℕ → ℕ → Plan)
        → forms.on_array (receiver w.index store.now.cells this.now) (image fs r w.index store.now) k
        ≡ on_own w.index store.now result (image fs r w.index store.now) k }
{
    match cell_of(this) {
        Some(cell) => array_at(store, w, cell),
        None => None,
    }
}

/// The cell to which a value refers.
pub(crate) fn cell_of(v: &Value) -> Option<CellId>
    ensures { result ≡ cell_in v.now }
{
    match v {
        Value::Ref(cell) => Some(*cell),
        _ => None,
    }
}

// The same for a cell.
fn array_at(store: &Store, w: WidgetId, cell: CellId) -> Option<OwnArray>
    requires { IsReceiver w.index store.now.cells (Value.Ref cell) }
    ensures array { IfSome result (λ a. IsArray w.index store.now a) }
    ensures plan { (fs : List Forest) (r : Rest) (k : ℕ → ℕ → Plan)
        → forms.on_array (receiver w.index store.now.cells (Value.Ref cell)) (image fs r w.index store.now) k
        ≡ on_own w.index store.now result (image fs r w.index store.now) k }
{
    if is_global(store, cell) {
        return None;
    }
    let base = Value::Ref(cell);
    let len = array_length(store, &base)?;
    Some(OwnArray { cell, len })
}

// Whether a cell is the Global cell.
fn is_global(store: &Store, cell: CellId) -> bool
    ensures { result ≡ nat_eq cell global }
{
    cell == store.global()
}

/// The elements of an Array.
pub(crate) fn values_of(
    alloc: Global,
    store: &Store,
    w: WidgetId,
    array: OwnArray,
) -> Result<Vec<Value>, Memory>
    requires array { IsArray w.index store.now array }
    requires confined { (fs : List Forest) × IsConfined fs w.index store.now }
    ensures seen { IfOk result (λ vs. (fs : List Forest) (r : Rest) → all_seen w.index store.now.cells vs.items
        ≡ forms.elements (image fs r w.index store.now) (number w.index store.now array) array.len) }
    ensures fine { IfOk result (λ vs. AreFine w.index store.now.cells vs.items) }
    ensures len { IfOk result (λ vs. length vs.items ≡ array.len) }
{
    let base = Value::Ref(array.cell);
    elements(alloc, store, &base, array.len)
}

// The length of a value that is an Array, else 0.
fn len_of(store: &Store, v: &Value) -> usize
    requires { IsRefWithin (length store.now.cells) v.now }
    ensures { (fs : List Forest) (r : Rest) (w : ℕ) → IsFine w store.now.cells v.now
        → result ≡ unwrap_or (state.array_length
        (state.kind_of (image fs r w store.now) (seen w store.now.cells v.now))) 0 }
{
    match array_length(store, v) {
        None => 0,
        Some(len) => len as usize,
    }
}

/// The charge of most of these natives without the units made, as far as a length is counted: the lengths of the Array
/// and of Array arguments, and the number of arguments.
pub(crate) fn extra(store: &Store, w: WidgetId, len: u32, args: &[Value]) -> usize
    requires { AreFine w.index store.now.cells args.now }
    ensures { (fs : List Forest) (r : Rest)
        → result ≡ counted (changes.list_extra len (all_seen w.index store.now.cells args.now)
        (image fs r w.index store.now)) }
{
    let mut sum = counted_len(len);
    for v in args {
        sum = sum.saturating_add(len_of(store, v));
    }
    sum.saturating_add(args.len())
}

/// What is given after a charge, where nothing is made.
pub(crate) fn charged(meter: &mut Meter, asked: usize, out: NativeOut) -> NativeOut
    ensures { (w : ℕ) (s : Cells) (plan : ℕ → State → Plan) (n : State → ℕ)
        → ((fs : List Forest) (r : Rest) → asked ≡ counted (n (image fs r w s))) → Ends w s s plan out
        → Refines w s s meter.old meter.new (λ d t. charge (n t) t (plan d t)) result }
{
    match take(meter, asked) {
        Ok(()) => out,
        Err(_) => NativeOut::OutOfFuel,
    }
}

/// Values for second holders, behind others.
pub(crate) fn share_all(values: &mut Vec<Value>, more: &[Value]) -> Result<(), Memory>
    ensures { OnOk result (values.new.items ≡ values.old.items ++ more.now) }
{
    for v in more {
        values.push(v.share()?)?;
    }
    Ok(())
}

/// A length as a charge counts it.
pub(crate) fn counted_len(len: u32) -> usize
    ensures { result ≡ counted len }
{
    len as usize
}

/// The number of arguments, as a charge counts it.
pub(crate) fn arg_count(args: &[Value]) -> usize
    ensures { result ≡ length args.now }
{
    args.len()
}

/// A count as a number.
pub(crate) fn whole(n: u32) -> i64
    ensures { result ≡ pos n }
{
    i64::from(n)
}

/// A count as a value.
pub(crate) fn number_value(n: u32) -> Value
    ensures { result ≡ Value.Num (Number.Whole (pos n)) }
{
    Value::Num(Number::Whole(whole(n)))
}

/// Whether an element is an object.
pub(crate) fn holds_objects(store: &Store, w: WidgetId, array: OwnArray) -> bool
    requires { IsArray w.index store.now array }
    ensures { (fs : List Forest) (r : Rest)
        → result ≡ list_any meaning.is_object
        (forms.elements (image fs r w.index store.now) (number w.index store.now array) array.len) }
{
    let base = Value::Ref(array.cell);
    has_objects(store, &base, array.len)
}
