//! What natives ask of a value: an Array's length and elements, a Bunch's nodes, an own property.
ghost use Rattle.std.specs.Prelude.{◌≡◌, ℕ, ◌-◌, ◌<◌, ◌≤◌, if◌then◌else◌, List, Option, Some, IfOk, IfSome, is_some, length, map, nat_eq};
ghost use Rattle.std.specs.List.{IsDistinct, list_any, range_with_len};
ghost use Rattle.std.specs.Option.{option_map};
ghost use Rattle.js_tree.specs.Forest.{Forest};
ghost use Rattle.store_cells.specs.Shape.{IsRefWithin};
ghost use Rattle.widget_meaning.specs.Values as meaning;
ghost use Rattle.widget_meaning.specs.OwnState as state;
ghost use Rattle.widget_meaning.specs.ListChanges as changes;
ghost use Rattle.widget_meaning.specs.Plan.{Plan};
ghost use Rattle.widget_meaning.specs.NativeForms as natives;
ghost use Rattle.widget_meaning.specs.Properties as properties;
ghost use Rattle.js_image.specs.Image.{Rest, all_seen, image, node_number, seen};
ghost use Rattle.js_image.specs.Held.{AreFine, IsConfined, IsFine};
ghost use Rattle.js_image.specs.Elements.{DifferAt, array_plan, is_stored, own_place, stored_count, stored_element, stored_length, stored_nodes, stored_own, stored_references};

use crate::laws::lawful;
use crate::reading::shared;
use code_units::{Memory, Text};
use object_store::{CellId, Store, Value};
use std::alloc::Global;

/// The length of a value that is an Array of the widget, none exactly for all else; with it the
/// receiver of a method of arrays is decided.
pub fn array_length(store: &Store, base: &Value) -> Option<u32>
    requires { IsRefWithin (length store.now.cells) base.now }
    ensures length { (fs : List Forest) (r : Rest) (w : ℕ) → IsFine w store.now.cells base.now
        → result ≡ state.array_length (state.kind_of (image fs r w store.now) (seen w store.now.cells base.now)) }
    ensures receiver { (fs : List Forest) (r : Rest) (w : ℕ) (k : ℕ → ℕ → Plan) → IsFine w store.now.cells base.now
        → natives.on_array (Some (seen w store.now.cells base.now)) (image fs r w store.now) k
        ≡ array_plan (own_place w store.now.cells base.now) result k (image fs r w store.now) }
{
    lawful(store);
    length_of(store, base)
}

// The same by the cells of the store.
fn length_of(store: &Store, base: &Value) -> Option<u32>
    requires { IsRefWithin (length store.now.cells) base.now }
    ensures { result ≡ stored_length store.now.cells base.now }
{
    match base {
        Value::Ref(cell) => store.array_length(*cell),
        _ => None,
    }
}

/// An element of an Array of the widget, `undefined` where it is missing. No text is made.
pub fn element(store: &Store, base: &Value, at: u32) -> Result<Value, Memory>
    requires within { IsRefWithin (length store.now.cells) base.now }
    requires index { at < 4294967295 }
    ensures found { IfOk result (λ v. (fs : List Forest) (r : Rest) (w len : ℕ) → IsFine w store.now.cells base.now
        → state.array_length (state.kind_of (image fs r w store.now) (seen w store.now.cells base.now)) ≡ Some len
        → seen w store.now.cells v
        ≡ natives.element (state.cell_at (image fs r w store.now) (own_place w store.now.cells base.now)).pairs at) }
    ensures fine { IfOk result (λ v. (fs : List Forest) (w : ℕ)
        → IsConfined fs w store.now → IsFine w store.now.cells base.now → IsFine w store.now.cells v) }
{
    lawful(store);
    element_of(store, base, at)
}

// The same by the cells of the store.
fn element_of(store: &Store, base: &Value, at: u32) -> Result<Value, Memory>
    requires within { IsRefWithin (length store.now.cells) base.now }
    requires index { at < 4294967295 }
    ensures { IfOk result (λ v. v ≡ stored_element store.now.cells base.now at) }
{
    match base {
        Value::Ref(cell) => shared(store.element(*cell, at)),
        _ => Ok(Value::Undefined),
    }
}

/// The elements of an Array of the widget below a length, in order, `undefined` where one is missing.
pub fn elements(alloc: Global, store: &Store, base: &Value, len: u32) -> Result<Vec<Value>, Memory>
    requires { IsRefWithin (length store.now.cells) base.now }
    ensures found { IfOk result (λ vs. (fs : List Forest) (r : Rest) (w m : ℕ) → IsFine w store.now.cells base.now
        → state.array_length (state.kind_of (image fs r w store.now) (seen w store.now.cells base.now)) ≡ Some m
        → all_seen w store.now.cells vs.items
        ≡ natives.elements (image fs r w store.now) (own_place w store.now.cells base.now) len) }
    ensures fine { IfOk result (λ vs. (fs : List Forest) (w : ℕ)
        → IsConfined fs w store.now → IsFine w store.now.cells base.now → AreFine w store.now.cells vs.items) }
{
    lawful(store);
    elements_of(alloc, store, base, len)
}

// The same by the cells of the store.
fn elements_of(alloc: Global, store: &Store, base: &Value, len: u32) -> Result<Vec<Value>, Memory>
    requires { IsRefWithin (length store.now.cells) base.now }
    ensures { IfOk result (λ vs. vs.items ≡ map (stored_element store.now.cells base.now) (range_with_len 0 len)) }
{
    let mut values = Vec::new(alloc);
    for at in 0..len {
        values.push(element_of(store, base, at)?)?;
    }
    Ok(values)
}

/// Whether an element of an Array of the widget below a length is an object. Where that is its length,
/// this takes no longer for more elements.
pub fn has_objects(store: &Store, base: &Value, len: u32) -> bool
    requires { IsRefWithin (length store.now.cells) base.now }
    ensures { (fs : List Forest) (r : Rest) (w m : ℕ) → IsFine w store.now.cells base.now
        → state.array_length (state.kind_of (image fs r w store.now) (seen w store.now.cells base.now)) ≡ Some m
        → result ≡ list_any meaning.is_object
        (natives.elements (image fs r w store.now) (own_place w store.now.cells base.now) len) }
{
    lawful(store);
    references_of(store, base, len)
}

// The same by the cells of the store.
fn references_of(store: &Store, base: &Value, len: u32) -> bool
    requires { IsRefWithin (length store.now.cells) base.now }
    ensures found { result ≡ stored_references store.now.cells base.now len }
    ensures differ { DifferAt store.now.cells base.now }
{
    match base {
        Value::Ref(cell) => references_in(store, *cell, len),
        _ => false,
    }
}

fn references_in(store: &Store, cell: CellId, len: u32) -> bool
    requires { cell < length store.now.cells }
    ensures found { result ≡ stored_references store.now.cells (Value.Ref cell) len }
    ensures differ { DifferAt store.now.cells (Value.Ref cell) }
{
    store.names_differ(cell);
    store.has_reference(cell, len)
}

/// How many indices below a length are no own names of an Array of the widget. It makes one look-up
/// for each index.
pub fn new_indexes(store: &Store, base: &Value, len: u32) -> u32
    requires { IsRefWithin (length store.now.cells) base.now }
    ensures { (fs : List Forest) (r : Rest) (w m : ℕ) → IsFine w store.now.cells base.now
        → state.array_length (state.kind_of (image fs r w store.now) (seen w store.now.cells base.now)) ≡ Some m
        → result ≡ changes.new_indexes
        (state.cell_at (image fs r w store.now) (own_place w store.now.cells base.now)) len }
{
    lawful(store);
    let count = count_of(store, base, len);
    len.saturating_sub(count)
}

// How many indices below a length are own names of a value that is an Array.
fn count_of(store: &Store, base: &Value, len: u32) -> u32
    requires { IsRefWithin (length store.now.cells) base.now }
    ensures count { result ≡ stored_count store.now.cells base.now len }
    ensures differ { DifferAt store.now.cells base.now }
{
    match base {
        Value::Ref(cell) => count_in(store, *cell, len),
        _ => 0,
    }
}

fn count_in(store: &Store, cell: CellId, len: u32) -> u32
    requires { cell < length store.now.cells }
    ensures count { result ≡ stored_count store.now.cells (Value.Ref cell) len }
    ensures differ { DifferAt store.now.cells (Value.Ref cell) }
{
    store.names_differ(cell);
    let mut count = 0;
    for at in 0..len {
        count += count_at(store, cell, at);
    }
    count
}

// How many names of an Array are one index: one or none.
fn count_at(store: &Store, cell: CellId, at: u32) -> u32
    requires cell { cell < length store.now.cells }
    requires index { at < 4294967295 }
    ensures count { result ≡ (if is_stored store.now.cells cell at then 1 else 0) }
    ensures small { result ≤ 1 }
{
    match store.element(cell, at) {
        None => 0,
        Some(_) => 1,
    }
}

/// The page nodes of a value that is a Bunch of the widget, in its order, none exactly for all else.
/// Each stands once.
pub fn bunch_nodes(alloc: Global, store: &Store, base: &Value) -> Result<Option<Vec<u32>>, Memory>
    requires { IsRefWithin (length store.now.cells) base.now }
    ensures nodes { IfOk result (λ found. (fs : List Forest) (r : Rest) (w : ℕ) → IsFine w store.now.cells base.now
        → state.bunch_nodes (state.kind_of (image fs r w store.now) (seen w store.now.cells base.now))
        ≡ option_map (λ v. map (node_number r.nodes) v.items) found) }
    ensures distinct { IfOk result (λ found. IfSome found (λ v. IsDistinct nat_eq v.items)) }
{
    lawful(store);
    nodes_of(alloc, store, base)
}

// The same by the cells of the store.
fn nodes_of(alloc: Global, store: &Store, base: &Value) -> Result<Option<Vec<u32>>, Memory>
    requires { IsRefWithin (length store.now.cells) base.now }
    ensures nodes { IfOk result (λ found. option_map (λ v. v.items) found ≡ stored_nodes store.now.cells base.now) }
    ensures distinct { IfOk result (λ found. IfSome found (λ v. IsDistinct nat_eq v.items)) }
{
    match base {
        Value::Ref(cell) => store.bunch_nodes(alloc, *cell),
        _ => Ok(None),
    }
}

/// Whether a value has an own property.
pub fn has_own(store: &Store, base: &Value, name: &Text) -> bool
    requires { IsRefWithin (length store.now.cells) base.now }
    ensures { (fs : List Forest) (r : Rest) (w : ℕ) → IsConfined fs w store.now → IsFine w store.now.cells base.now
        → result ≡ is_some (properties.own_property (image fs r w store.now)
        (seen w store.now.cells base.now) name.now) }
{
    lawful(store);
    own_of(store, base, name)
}

// The same by the cells of the store.
fn own_of(store: &Store, base: &Value, name: &Text) -> bool
    requires { IsRefWithin (length store.now.cells) base.now }
    ensures { result ≡ stored_own store.now.cells base.now name.now }
{
    match base {
        Value::Ref(cell) => store.has_own(*cell, name),
        _ => false,
    }
}
