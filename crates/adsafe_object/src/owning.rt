//! Natives that ask for own properties.
ghost use Rattle.std.specs.Prelude.{◌≡◌, ◌&&◌, ℕ, List, IfOk, is_some, length};
ghost use Rattle.js_tree.specs.Forest.{Forest};
ghost use Rattle.code_units.specs.Permitted.{is_permitted};
ghost use Rattle.store_cells.specs.Shape.{IsRefWithin};
ghost use Rattle.widget_meaning.specs.AdsafeNatives as means;
ghost use Rattle.widget_meaning.specs.PrototypeNatives as prototypes;
ghost use Rattle.widget_meaning.specs.Properties.{own_property};
ghost use Rattle.js_image.specs.Image.{Rest, image, seen};
ghost use Rattle.js_image.specs.Held.{IsConfined, IsFine};
ghost use Rattle.native_common.specs.Receivers.{IsReceiver, receiver};
ghost use Rattle.adsafe_object.specs.Ends.{EndsConfined};

use crate::names::{Named, name_of};
use crate::notes::primitive_text;
use code_units::{Memory, Text, permitted};
use js_image::{Fault, has_own};
use js_values::NativeOut;
use native_common::{WidgetId, is_object, is_plain_call};
use object_store::{Store, Value};
use std::alloc::Global;

/// `has(o, n)`: whether it has an own property of this name.
pub(crate) fn has(
    alloc: Global,
    store: &Store,
    w: WidgetId,
    object: &Value,
    name: &Value,
) -> Result<NativeOut, Memory>
    requires { IsFine w.index store.now.cells object.now }
    ensures { IfOk result (λ o. EndsConfined w.index store.now store.now
        (λ d s. means.has_native (seen w.index store.now.cells object.now)
        (seen w.index store.now.cells name.now) s) o) }
{
    match name_of(alloc, object, name)? {
        Named::Refused(fault) => Ok(NativeOut::Throw(fault)),
        Named::Name(name) => Ok(NativeOut::Value(Value::Bool(has_own(store, object, &name)))),
    }
}

/// `o.hasOwnProperty(v)`: whether it has an own property of this name, which is permitted.
pub(crate) fn has_own_property(
    alloc: Global,
    store: &Store,
    w: WidgetId,
    this: &Value,
    v: &Value,
) -> Result<NativeOut, Memory>
    requires { IsReceiver w.index store.now.cells this.now }
    ensures { IfOk result (λ o. EndsConfined w.index store.now store.now
        (λ d s. prototypes.has_own_property (receiver w.index store.now.cells this.now)
        (seen w.index store.now.cells v.now) s) o) }
{
    if is_plain_call(this) {
        return Ok(NativeOut::Throw(Fault::E3));
    }
    if !is_object(this) {
        return Ok(NativeOut::Throw(Fault::E3));
    }
    match primitive_text(alloc, v)? {
        None => Ok(NativeOut::Throw(Fault::E4)),
        Some(name) => Ok(NativeOut::Value(Value::Bool(shows(store, this, &name)))),
    }
}

// Whether a value has an own property of this name, which is permitted.
fn shows(store: &Store, v: &Value, name: &Text) -> bool
    requires { IsRefWithin (length store.now.cells) v.now }
    ensures { (fs : List Forest) (r : Rest) (w : ℕ) → IsConfined fs w store.now → IsFine w store.now.cells v.now
        → result ≡ (is_some (own_property (image fs r w store.now)
        (seen w store.now.cells v.now) name.now) && is_permitted name.now) }
{
    if !permitted(name) {
        return false;
    }
    has_own(store, v, name)
}
