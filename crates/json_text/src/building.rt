//! Values that are made of JSON.
ghost use Rattle.std.specs.Prelude.{◌≡◌, ℕ, List, [], IfOk, OnOk};
ghost use Rattle.js_tree.specs.Forest.{Forest};
ghost use Rattle.store_cells.specs.Cells.{PlainCell};
ghost use Rattle.serde_json.specs.Data.{array, object};
ghost use Rattle.serde_json.specs.View.{view, items_view, members_view, number_view};
ghost use Rattle.widget_meaning.specs.JsonValues as json;
ghost use Rattle.widget_meaning.specs.OwnState.{State, new_array, plain_object};
ghost use Rattle.widget_meaning.specs.Plan.{Plan};
ghost use Rattle.widget_meaning.specs.Properties as properties;
ghost use Rattle.widget_meaning.specs.Values as meaning;
ghost use Rattle.widget_meaning.specs.Costs.{give};
ghost use Rattle.js_image.specs.Image.{Rest, image, seen};
ghost use Rattle.js_image.specs.Held.{IsFine, Kept};
ghost use Rattle.js_image.specs.Plans.{IsFineMade, made_plan};
ghost use Rattle.json_text.specs.Building.{Begins, Builds, IsPlainOf};

use crate::laws::lawful;
use code_units::{Memory, Text, whole_text};
use js_image::{Made, Written, make, put};
use native_common::WidgetId;
use object_store::{HostEntry, NewCell, Number, Store, Value};
use serde_json::{Map, Number as JsonNumber, Value as Json};
use std::alloc::Global;

/// Makes the value of JSON: an object or array first, then its parts in order.
#[cycle(building)]
pub(crate) fn build(
    alloc: Global,
    store: &mut Store,
    w: WidgetId,
    json: &Json,
) -> Result<Value, Memory>
    ensures built { IfOk result (λ v. (fs : List Forest) (r : Rest)
        → Builds fs r w.index store.old store.new v (view json.now)) }
    ensures fine { IfOk result (λ v. IsFine w.index store.new.cells v) }
    ensures kept { (fs : List Forest) → Kept fs w.index store.old store.new }
{
    match json {
        Json::Array(items) => build_array(alloc, store, w, items),
        Json::Object(members) => build_object(alloc, store, w, members),
        _ => plain(alloc, json),
    }
}

// The value of JSON that is neither an object nor an array.
fn plain(alloc: Global, json: &Json) -> Result<Value, Memory>
    ensures { IfOk result (λ v. IsPlainOf v (view json.now)) }
{
    match json {
        Json::Null => Ok(Value::Null),
        Json::Bool(b) => Ok(Value::Bool(*b)),
        Json::Number(x) => Ok(Value::Num(Number::Whole(whole(x)?))),
        Json::String(text) => Ok(Value::Text(Text::from_str(alloc, text.as_str())?)),
        _ => Err(Memory),
    }
}

// A whole number; one that is held as a float stopped before.
fn whole(x: &JsonNumber) -> Result<i64, Memory>
    ensures { IfOk result (λ z. z ≡ json.whole (number_view x.now)) }
{
    match x.as_i64() {
        Some(z) => Ok(z),
        None => Err(Memory),
    }
}

// An array, and then its elements.
#[cycle(building)]
fn build_array(
    alloc: Global,
    store: &mut Store,
    w: WidgetId,
    items: &Vec<Json>,
) -> Result<Value, Memory>
    ensures built { IfOk result (λ v. (fs : List Forest) (r : Rest)
        → Builds fs r w.index store.old store.new v (array (items_view items.now.items))) }
    ensures fine { IfOk result (λ v. IsFine w.index store.new.cells v) }
    ensures kept { (fs : List Forest) → Kept fs w.index store.old store.new }
{
    let parent = begin_array(alloc, store, w)?;
    let mut at: u32 = 0;
    for item in items {
        if at == u32::MAX {
            return Err(Memory);
        }
        let value = build(alloc, store, w, item)?;
        let name = whole_text(alloc, i64::from(at))?;
        put_next(store, w, &parent, &name, value)?;
        at += 1;
    }
    Ok(parent)
}

// An object, and then its members.
#[cycle(building)]
fn build_object(
    alloc: Global,
    store: &mut Store,
    w: WidgetId,
    members: &Map<String, Json>,
) -> Result<Value, Memory>
    ensures built { IfOk result (λ v. (fs : List Forest) (r : Rest)
        → Builds fs r w.index store.old store.new v (object (members_view members.now.entries))) }
    ensures fine { IfOk result (λ v. IsFine w.index store.new.cells v) }
    ensures kept { (fs : List Forest) → Kept fs w.index store.old store.new }
{
    let parent = begin_object(alloc, store, w)?;
    for (key, member) in members.iter() {
        let value = build(alloc, store, w, member)?;
        let name = Text::from_str(alloc, key.as_str())?;
        put_next(store, w, &parent, &name, value)?;
    }
    Ok(parent)
}

// An array without elements.
fn begin_array(alloc: Global, store: &mut Store, w: WidgetId) -> Result<Value, Memory>
    ensures begun { IfOk result (λ v. (fs : List Forest) (r : Rest)
        → Begins fs r w.index store.old store.new v (new_array 0 [])) }
    ensures fine { IfOk result (λ v. IsFine w.index store.new.cells v) }
    ensures kept { (fs : List Forest) → Kept fs w.index store.old store.new }
{
    made(make(alloc, store, w.index, NewCell::Array)?)
}

// An object without members.
fn begin_object(alloc: Global, store: &mut Store, w: WidgetId) -> Result<Value, Memory>
    ensures begun { IfOk result (λ v. (fs : List Forest) (r : Rest)
        → Begins fs r w.index store.old store.new v (plain_object [])) }
    ensures fine { IfOk result (λ v. IsFine w.index store.new.cells v) }
    ensures kept { (fs : List Forest) → Kept fs w.index store.old store.new }
{
    lawful(store);
    let proto = store.host(HostEntry::ObjectPrototype);
    made(make(alloc, store, w.index, NewCell::Object(proto))?)
}

// The value of what was made; that it can be paid is known before.
fn made(made: Made) -> Result<Value, Memory>
    ensures plan { IfOk result (λ v. (w : ℕ) (cells : List PlainCell) (k : meaning.Value → State → Plan) (s : State)
        → made_plan w cells made k s ≡ k (seen w cells v) s) }
    ensures fine { IfOk result (λ v. (w : ℕ) (cells : List PlainCell) → IsFineMade w cells made → IsFine w cells v) }
{
    match made {
        Made::Cell(cell) => Ok(Value::Ref(cell)),
        Made::Stop(_) => Err(Memory),
    }
}

// One more property; that it can be paid is known before.
fn put_next(
    store: &mut Store,
    w: WidgetId,
    parent: &Value,
    name: &Text,
    value: Value,
) -> Result<(), Memory>
    requires parent { IsFine w.index store.old.cells parent.now }
    requires value { IsFine w.index store.old.cells value }
    ensures put { OnOk result ((fs : List Forest) (r : Rest)
        → properties.put (seen w.index store.old.cells parent.now) name.now (seen w.index store.old.cells value)
        (image fs r w.index store.old) (give meaning.Undefined)
        ≡ give meaning.Undefined (image fs r w.index store.new)) }
    ensures kept { (fs : List Forest) → Kept fs w.index store.old store.new }
{
    match put(store, w.index, parent, name, value)? {
        Written::Done => Ok(()),
        _ => Err(Memory),
    }
}
