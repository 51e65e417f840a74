//! Natives that read and write properties.
ghost use Rattle.std.specs.Prelude.{◌≡◌, ℕ, List, IfOk, OnErr};
ghost use Rattle.js_tree.specs.Forest.{Forest};
ghost use Rattle.widget_meaning.specs.OwnState.{State};
ghost use Rattle.widget_meaning.specs.Values as meaning;
ghost use Rattle.widget_meaning.specs.Costs as costs;
ghost use Rattle.widget_meaning.specs.AdsafeNatives as means;
ghost use Rattle.js_image.specs.Image.{seen};
ghost use Rattle.js_image.specs.Held.{IsFine, Kept};
ghost use Rattle.js_image.specs.Plans.{put_plan, removed_plan};
ghost use Rattle.js_values.specs.Answers.{IsFineOut, Leaves};
ghost use Rattle.store_cells.specs.Cells.{PlainCell};
ghost use Rattle.store_cells.specs.declared.value.Value.{Value as StoreValue};
ghost use Rattle.native_common.specs.Refines.{Ends};
ghost use Rattle.adsafe_object.specs.Ends.{EndsConfined};

use crate::names::{Named, name_of};
use code_units::Memory;
use js_image::{self, Removed, Written};
use js_values::NativeOut;
use native_common::WidgetId;
use object_store::{Store, Value};
use std::alloc::Global;

/// `get(o, n)`: the property, along the prototypes.
pub(crate) fn get(
    alloc: Global,
    store: &Store,
    w: WidgetId,
    object: &Value,
    name: &Value,
) -> Result<NativeOut, Memory>
    requires { IsFine w.index store.now.cells object.now }
    ensures { IfOk result (λ o. EndsConfined w.index store.now store.now
        (λ d s. means.get_native (seen w.index store.now.cells object.now)
        (seen w.index store.now.cells name.now) s) o) }
{
    match name_of(alloc, object, name)? {
        Named::Refused(fault) => Ok(NativeOut::Throw(fault)),
        Named::Name(name) => Ok(NativeOut::Value(js_image::get(store, object, &name)?)),
    }
}

/// `set(o, n, v)`: writes the own property.
pub(crate) fn set(
    alloc: Global,
    store: &mut Store,
    w: WidgetId,
    object: &Value,
    name: &Value,
    value: &Value,
) -> Result<NativeOut, Memory>
    requires object { IsFine w.index store.old.cells object.now }
    requires value { IsFine w.index store.old.cells value.now }
    ensures ends { IfOk result (λ o. Ends w.index store.old store.new
        (λ d s. means.set_native (seen w.index store.old.cells object.now) (seen w.index store.old.cells name.now)
        (seen w.index store.old.cells value.now) s) o) }
    ensures memory { OnErr result ((fs : List Forest) → Kept fs w.index store.old store.new) }
{
    match name_of(alloc, object, name)? {
        Named::Refused(fault) => Ok(NativeOut::Throw(fault)),
        Named::Name(name) => {
            let value = value.share()?;
            Ok(written(js_image::put(store, w.index, object, &name, value)?))
        }
    }
}

// What a write gives.
fn written(done: Written) -> NativeOut
    ensures leaves { (see : StoreValue → meaning.Value) (node : ℕ → ℕ) (d : ℕ) (s : State)
        → see Value.Undefined ≡ meaning.Undefined
        → Leaves see node d result s (put_plan done (costs.give meaning.Undefined) s) }
    ensures fine { (w : ℕ) (cells : List PlainCell) → IsFineOut w cells result }
{
    match done {
        Written::Done => NativeOut::Value(Value::Undefined),
        Written::Throw(fault) => NativeOut::Throw(fault),
        Written::Stop(cause) => NativeOut::Stop(cause),
    }
}

/// `remove(o, n)`: takes the own property out; it gives undefined, also where an Array keeps its
/// `length`.
pub(crate) fn remove(
    alloc: Global,
    store: &mut Store,
    w: WidgetId,
    object: &Value,
    name: &Value,
) -> Result<NativeOut, Memory>
    requires { IsFine w.index store.old.cells object.now }
    ensures ends { IfOk result (λ o. Ends w.index store.old store.new
        (λ d s. means.remove_native (seen w.index store.old.cells object.now)
        (seen w.index store.old.cells name.now) s) o) }
    ensures memory { OnErr result ((fs : List Forest) → Kept fs w.index store.old store.new) }
{
    match name_of(alloc, object, name)? {
        Named::Refused(fault) => Ok(NativeOut::Throw(fault)),
        Named::Name(name) => Ok(removed(js_image::remove(store, w.index, object, &name))),
    }
}

// What is given for a name that was taken out.
fn removed(done: Removed) -> NativeOut
    ensures leaves { (see : StoreValue → meaning.Value) (node : ℕ → ℕ) (d : ℕ) (s : State)
        → see Value.Undefined ≡ meaning.Undefined
        → Leaves see node d result s (removed_plan done (λ b. costs.give meaning.Undefined) s) }
    ensures fine { (w : ℕ) (cells : List PlainCell) → IsFineOut w cells result }
{
    match done {
        Removed::Done(_) => NativeOut::Value(Value::Undefined),
        Removed::Throw(fault) => NativeOut::Throw(fault),
    }
}
