//! Reads and writes of variables and properties, and faults.
ghost use Rattle.std.specs.Prelude.{◌≡◌, ℕ, ◌<◌, ◌≤◌, List, IfOk, OnOk};
ghost use Rattle.std.specs.Fmt.{decimal};
ghost use Rattle.store_cells.specs.Cells.{PlainCell};
ghost use Rattle.widget_meaning.specs.Values as meaning;
ghost use Rattle.widget_meaning.specs.Costs as costs;
ghost use Rattle.widget_meaning.specs.Properties as properties;
ghost use Rattle.widget_meaning.specs.Expressions as expressions;
ghost use Rattle.js_image.specs.Image.{Rest, image, seen};
ghost use Rattle.js_image.specs.Held.{IsConfined, IsFine, Kept};
ghost use Rattle.js_image.specs.Plans.{meant_fault};
ghost use Rattle.js_names.specs.Code.{trees_of};
ghost use Rattle.js_flow.specs.Views.{place_of, reference_of};
ghost use Rattle.js_flow.specs.Frames.{Plans};
ghost use Rattle.js_flow.specs.Fine.{FineLeft, FineReference, IsPlace};
ghost use Rattle.js_flow.specs.Free.{left_free};
ghost use Rattle.js_flow.specs.Left.{all_frames};

use code_units::{Memory, Text, whole_text};
use js_flow::{Completion, Flow, Place, Reference};
use js_image::{Fault, Made, Written, assign, get, indexed_value, make_fault, put, variable};
use js_names::Code;
use object_store::{CellId, Store, Value};
use std::alloc::Global;

/// A fault is thrown.
pub(crate) fn throw(
    flow: &mut Flow,
    alloc: Global,
    w: u32,
    codes: &Vec<Code>,
    store: &mut Store,
    fault: Fault,
) -> Result<(), Memory>
    requires widget { w < 32 }
    ensures plan { OnOk result (Plans (trees_of codes.now.items) w store.old store.new
        (costs.throw (meant_fault fault)) flow.new) }
    ensures fine { OnOk result (FineLeft (trees_of codes.now.items) w store.new.cells flow.new) }
    ensures near { OnOk result (left_free flow.new ≤ 1) }
    ensures kept { Kept (trees_of codes.now.items) w store.old store.new }
    ensures below { OnOk result (flow.new.below ≡ all_frames flow.old) }
{
    match make_fault(alloc, store, w, fault)? {
        Made::Cell(cell) => Ok(flow.give(Completion::Throw(Value::Ref(cell)))),
        Made::Stop(cause) => Ok(flow.stop(cause)),
    }
}

// Whether a value has no properties.
fn is_nothing(value: &Value) -> bool
    ensures { (w : ℕ) (cells : List PlainCell) → result ≡ meaning.is_nothing (seen w cells value.now) }
{
    matches!(value, Value::Undefined | Value::Null)
}

/// A property is read; undefined and null have none.
pub(crate) fn read(
    flow: &mut Flow,
    alloc: Global,
    w: u32,
    codes: &Vec<Code>,
    store: &mut Store,
    base: &Value,
    name: &Text,
) -> Result<(), Memory>
    requires widget { w < 32 }
    requires confined { IsConfined (trees_of codes.now.items) w store.old }
    requires held { IsFine w store.old.cells base.now }
    ensures plan { OnOk result (Plans (trees_of codes.now.items) w store.old store.new
        (properties.read (seen w store.old.cells base.now) name.now) flow.new) }
    ensures fine { OnOk result (FineLeft (trees_of codes.now.items) w store.new.cells flow.new) }
    ensures near { OnOk result (left_free flow.new ≤ 1) }
    ensures kept { Kept (trees_of codes.now.items) w store.old store.new }
    ensures below { OnOk result (flow.new.below ≡ all_frames flow.old) }
{
    match base {
        Value::Undefined => throw(flow, alloc, w, codes, store, Fault::E1),
        Value::Null => throw(flow, alloc, w, codes, store, Fault::E1),
        _ => Ok(flow.give(Completion::Is(get(store, base, name)?))),
    }
}

/// A property as a target; undefined and null have none.
pub(crate) fn refer(
    flow: &mut Flow,
    alloc: Global,
    w: u32,
    codes: &Vec<Code>,
    store: &mut Store,
    base: Value,
    name: Text,
) -> Result<(), Memory>
    requires widget { w < 32 }
    requires held { IsFine w store.old.cells base }
    ensures plan { OnOk result (Plans (trees_of codes.now.items) w store.old store.new
        (expressions.refer (seen w store.old.cells base) name) flow.new) }
    ensures fine { OnOk result (FineLeft (trees_of codes.now.items) w store.new.cells flow.new) }
    ensures near { OnOk result (left_free flow.new ≤ 1) }
    ensures kept { Kept (trees_of codes.now.items) w store.old store.new }
    ensures below { OnOk result (flow.new.below ≡ all_frames flow.old) }
{
    if is_nothing(&base) {
        throw(flow, alloc, w, codes, store, Fault::E1)
    } else {
        Ok(flow.give(Completion::Refers(Reference::Property(base, name))))
    }
}

/// What a reference has.
pub(crate) fn referred(
    w: u32,
    codes: &Vec<Code>,
    store: &Store,
    of: &Reference,
    place: Place,
) -> Result<Value, Memory>
    requires confined { IsConfined (trees_of codes.now.items) w store.now }
    requires held { FineReference w store.now.cells of.now
        × IsPlace (trees_of codes.now.items) w store.now.cells place }
    ensures found { IfOk result (λ v. (r : Rest) → seen w store.now.cells v
        ≡ expressions.referred (reference_of w store.now.cells of.now) (place_of w store.now.cells place)
        (image (trees_of codes.now.items) r w store.now)) }
    ensures fine { IfOk result (IsFine w store.now.cells) }
{
    match of {
        Reference::Variable(x) => variable(store, place.scope, x),
        Reference::Property(base, x) => get(store, base, x),
        Reference::Element(cell, i) => indexed_value(store, *cell, *i),
        Reference::Found(v) => v.share(),
    }
}

/// The same reference for a second holder.
pub(crate) fn shared(of: &Reference) -> Result<Reference, Memory>
    ensures { IfOk result (λ r. r ≡ of.now) }
{
    match of {
        Reference::Variable(x) => Ok(Reference::Variable(x.share()?)),
        Reference::Property(base, x) => Ok(Reference::Property(base.share()?, x.share()?)),
        Reference::Element(cell, i) => Ok(Reference::Element(*cell, *i)),
        Reference::Found(value) => Ok(Reference::Found(value.share()?)),
    }
}

/// A write of the first value to a reference, after which the second is given.
pub(crate) fn write(
    flow: &mut Flow,
    alloc: Global,
    w: u32,
    codes: &Vec<Code>,
    store: &mut Store,
    of: &Reference,
    place: Place,
    values: (Value, Value),
) -> Result<(), Memory>
    requires widget { w < 32 }
    requires confined { IsConfined (trees_of codes.now.items) w store.old }
    requires to { FineReference w store.old.cells of.now × IsPlace (trees_of codes.now.items) w store.old.cells place }
    requires values { IsFine w store.old.cells values.0 × IsFine w store.old.cells values.1 }
    ensures plan { OnOk result (Plans (trees_of codes.now.items) w store.old store.new
        (λ s. expressions.write (reference_of w store.old.cells of.now) (place_of w store.old.cells place)
        (seen w store.old.cells values.0) s (costs.give (seen w store.old.cells values.1))) flow.new) }
    ensures fine { OnOk result (FineLeft (trees_of codes.now.items) w store.new.cells flow.new) }
    ensures near { OnOk result (left_free flow.new ≤ 1) }
    ensures kept { Kept (trees_of codes.now.items) w store.old store.new }
    ensures below { OnOk result (flow.new.below ≡ all_frames flow.old) }
{
    let (value, given) = values;
    match of {
        Reference::Variable(x) => {
            assign(store, w, place.scope, x, value);
            Ok(flow.give(Completion::Is(given)))
        }
        Reference::Property(base, x) => write_property(
            flow,
            alloc,
            w,
            codes,
            store,
            base,
            x,
            (value, given),
        ),
        Reference::Element(cell, i) => {
            write_element(flow, alloc, w, codes, store, *cell, *i, (value, given))
        }
        Reference::Found(_) => Ok(flow.give(Completion::Is(given))),
    }
}

// A write of the first value to the property of a cell under an index, after which the second is given.
fn write_element(
    flow: &mut Flow,
    alloc: Global,
    w: u32,
    codes: &Vec<Code>,
    store: &mut Store,
    cell: CellId,
    i: u32,
    values: (Value, Value),
) -> Result<(), Memory>
    requires widget { w < 32 }
    requires to { IsFine w store.old.cells (Value.Ref cell) }
    requires values { IsFine w store.old.cells values.0 × IsFine w store.old.cells values.1 }
    ensures plan { OnOk result (Plans (trees_of codes.now.items) w store.old store.new
        (λ s. properties.put (seen w store.old.cells (Value.Ref cell)) (decimal i) (seen w store.old.cells values.0) s
        (costs.give (seen w store.old.cells values.1))) flow.new) }
    ensures fine { OnOk result (FineLeft (trees_of codes.now.items) w store.new.cells flow.new) }
    ensures near { OnOk result (left_free flow.new ≤ 1) }
    ensures kept { Kept (trees_of codes.now.items) w store.old store.new }
    ensures below { OnOk result (flow.new.below ≡ all_frames flow.old) }
{
    let name = element_name(alloc, i)?;
    let base = Value::Ref(cell);
    write_property(flow, alloc, w, codes, store, &base, &name, values)
}

/// The name of an element.
pub(crate) fn element_name(alloc: Global, i: u32) -> Result<Text, Memory>
    ensures { IfOk result (λ t. t ≡ decimal i) }
{
    whole_text(alloc, i64::from(i))
}

// A write of the first value to a property, after which the second is given.
pub(crate) fn write_property(
    flow: &mut Flow,
    alloc: Global,
    w: u32,
    codes: &Vec<Code>,
    store: &mut Store,
    base: &Value,
    name: &Text,
    values: (Value, Value),
) -> Result<(), Memory>
    requires widget { w < 32 }
    requires to { IsFine w store.old.cells base.now }
    requires values { IsFine w store.old.cells values.0 × IsFine w store.old.cells values.1 }
    ensures plan { OnOk result (Plans (trees_of codes.now.items) w store.old store.new
        (λ s. properties.put (seen w store.old.cells base.now) name.now (seen w store.old.cells values.0) s
        (costs.give (seen w store.old.cells values.1))) flow.new) }
    ensures fine { OnOk result (FineLeft (trees_of codes.now.items) w store.new.cells flow.new) }
    ensures near { OnOk result (left_free flow.new ≤ 1) }
    ensures kept { Kept (trees_of codes.now.items) w store.old store.new }
    ensures below { OnOk result (flow.new.below ≡ all_frames flow.old) }
{
    let (value, given) = values;
    match put(store, w, base, name, value)? {
        Written::Done => Ok(flow.give(Completion::Is(given))),
        Written::Throw(fault) => throw(flow, alloc, w, codes, store, fault),
        Written::Stop(cause) => Ok(flow.stop(cause)),
    }
}
