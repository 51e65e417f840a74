//! Natives on objects: whether they are Arrays, their names, and new ones on a prototype.
ghost use Rattle.std.specs.Prelude.{◌≡◌, ℕ, List, IfOk, OnErr, is_some, length};
ghost use Rattle.js_tree.specs.Forest.{Forest};
ghost use Rattle.store_cells.specs.Cells.{PlainCell};
ghost use Rattle.store_cells.specs.Shape.{IsRefWithin};
ghost use Rattle.widget_meaning.specs.OwnState.{State, array_length, kind_of};
ghost use Rattle.widget_meaning.specs.Values.{Truth};
ghost use Rattle.widget_meaning.specs.Costs as costs;
ghost use Rattle.widget_meaning.specs.AdsafeNatives as means;
ghost use Rattle.js_image.specs.Image.{seen};
ghost use Rattle.js_image.specs.Held.{IsFine, Kept};
ghost use Rattle.js_image.specs.Plans.{IsFineMade, made_plan};
ghost use Rattle.js_values.specs.Answers.{IsFineOut, IsOutOfFuel, Leaves};
ghost use Rattle.native_common.specs.Refines.{Ends, Refines};
ghost use Rattle.adsafe_object.specs.Ends.{EndsConfined};
ghost use Rattle.adsafe_object.specs.Kinds as kinds;
ghost use Rattle.object_store.specs.Owned.{is_of};

use crate::laws::lawful;
use crate::texts::give_texts;
use code_units::{Memory, Owner};
use js_image::{Fault, Made, keys_len, make};
use js_values::{Meter, NativeOut};
use native_common::{WidgetId, is_object, take};
use object_store::{CellId, CellKind, NewCell, Store, Value};
use std::alloc::Global;

/// The prototypes that an object may have.
const LONGEST_CHAIN: u32 = 100;

/// `isArray(v)`: whether it is an Array.
pub(crate) fn is_array(store: &Store, w: WidgetId, v: &Value) -> NativeOut
    requires { IsFine w.index store.now.cells v.now }
    ensures { Ends w.index store.now store.now
        (λ d s. costs.give (Truth (is_some (array_length (kind_of s (seen w.index store.now.cells v.now))))) s) result }
{
    lawful(store);
    NativeOut::Value(Value::Bool(is_array_in(store, v)))
}

fn is_array_in(store: &Store, v: &Value) -> bool
    requires { IsRefWithin (length store.now.cells) v.now }
    ensures { result ≡ kinds.is_array_in store.now.cells v.now }
{
    match v {
        Value::Ref(cell) => is_array_kind(store.kind(*cell)),
        _ => false,
    }
}

fn is_array_kind(kind: CellKind) -> bool
    ensures { result ≡ kinds.is_array_kind kind }
{
    match kind {
        CellKind::Array => true,
        _ => false,
    }
}

/// `create(o)`: a new Object on this prototype.
pub(crate) fn create(
    alloc: Global,
    store: &mut Store,
    w: WidgetId,
    v: &Value,
) -> Result<NativeOut, Memory>
    requires { IsFine w.index store.old.cells v.now }
    ensures ends { IfOk result (λ o. EndsConfined w.index store.old store.new
        (λ d s. means.create (seen w.index store.old.cells v.now) s) o) }
    ensures memory { OnErr result ((fs : List Forest) → Kept fs w.index store.old store.new) }
{
    lawful(store);
    let Some(base) = base_in(store, w, v) else {
        return Ok(NativeOut::Throw(Fault::E4));
    };
    if store.chain(base) >= LONGEST_CHAIN {
        return Ok(NativeOut::Throw(Fault::E12));
    }
    Ok(given(make(alloc, store, w.index, NewCell::Object(base))?))
}

// The cell of an Object or an Array of the widget.
fn base_in(store: &Store, w: WidgetId, v: &Value) -> Option<CellId>
    requires { IsRefWithin (length store.now.cells) v.now }
    ensures { result ≡ kinds.base_in w.index store.now.cells v.now }
{
    match v {
        Value::Ref(cell) => {
            if is_of(w.index, store.owner(*cell)) && is_base_kind(store.kind(*cell)) {
                Some(*cell)
            } else {
                None
            }
        }
        _ => None,
    }
}

fn is_of(w: u32, owner: Owner) -> bool
    ensures { result ≡ is_of w owner }
{
    match owner {
        Owner::Host => false,
        Owner::Widget(v) => v == w,
    }
}

fn is_base_kind(kind: CellKind) -> bool
    ensures { result ≡ kinds.is_base_kind kind }
{
    match kind {
        CellKind::Object => true,
        CellKind::Array => true,
        _ => false,
    }
}

// What was made is given.
pub(crate) fn given(made: Made) -> NativeOut
    ensures leaves { (w : ℕ) (cells : List PlainCell) (node : ℕ → ℕ) (d : ℕ) (s : State)
        → Leaves (seen w cells) node d result s (made_plan w cells made costs.give s) }
    ensures paid { IsOutOfFuel result → ⊥ }
    ensures fine { (w : ℕ) (cells : List PlainCell) → IsFineMade w cells made → IsFineOut w cells result }
{
    match made {
        Made::Cell(cell) => NativeOut::Value(Value::Ref(cell)),
        Made::Stop(cause) => NativeOut::Stop(cause),
    }
}

/// `keys(o)`: a new array of the own permitted names. The extra is their number.
pub(crate) fn keys(
    alloc: Global,
    store: &mut Store,
    meter: &mut Meter,
    w: WidgetId,
    object: &Value,
) -> Result<NativeOut, Memory>
    requires { IsFine w.index store.old.cells object.now }
    ensures native { IfOk result (λ o. Refines w.index store.old store.new meter.old meter.new
        (λ d s. means.keys_native (seen w.index store.old.cells object.now) s) o) }
    ensures memory { OnErr result ((fs : List Forest) → Kept fs w.index store.old store.new) }
{
    if !is_object(object) {
        return Ok(NativeOut::Throw(Fault::E4));
    }
    match take(meter, keys_len(store, object)) {
        Err(_) => Ok(NativeOut::OutOfFuel),
        Ok(()) => {
            let names = js_image::keys(alloc, store, object)?;
            give_texts(alloc, store, w, names)
        }
    }
}
