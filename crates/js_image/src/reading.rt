//! What is read from the store.
ghost use Rattle.std.specs.Prelude.{◌≡◌, ℕ, ◌<◌, ◌≤◌, List, Option, IfOk, IfSome, is_some, pos, length, ◌||◌, option_copied, unwrap_or};
ghost use Rattle.std.specs.Fmt.{decimal};
ghost use Rattle.std.specs.Option.{option_map};
ghost use Rattle.js_tree.specs.Forest.{Forest};
ghost use Rattle.store_cells.specs.Cells.{first_own, prototypes};
ghost use Rattle.store_cells.specs.Host.{global, text_prototype};
ghost use Rattle.store_cells.specs.Shape.{IsRefWithin};
ghost use Rattle.object_store.specs.Calls.{readable};
ghost use Rattle.object_store.specs.Owned.{scope_number};
ghost use Rattle.widget_meaning.specs.Properties as properties;
ghost use Rattle.widget_meaning.specs.Scopes as scopes;
ghost use Rattle.js_image.specs.Image.{Rest, image, seen};
ghost use Rattle.js_image.specs.Held.{IsConfined, IsFine, IsPlaceScope};
ghost use Rattle.js_image.specs.Reads.{cell_in, is_body, reader, shown_global, stored_found, stored_property, stored_read, stored_some, stored_value, stored_variable};

use crate::laws::lawful;
use code_units::{Memory, Text, is_word};
use object_store::{CellId, HostEntry, Number, Store, Value};
use std::alloc::Global;

/// A property of a value, own or along its prototypes; `undefined` where there is none.
pub fn get(store: &Store, base: &Value, name: &Text) -> Result<Value, Memory>
    requires { IsRefWithin (length store.now.cells) base.now }
    ensures found { IfOk result (λ v. (fs : List Forest) (r : Rest) (w : ℕ)
        → IsConfined fs w store.now → IsFine w store.now.cells base.now
        → seen w store.now.cells v
        ≡ properties.get (image fs r w store.now) (seen w store.now.cells base.now) name.now) }
    ensures fine { IfOk result (λ v. (fs : List Forest) (w : ℕ)
        → IsConfined fs w store.now → IsFine w store.now.cells base.now → IsFine w store.now.cells v) }
{
    lawful(store);
    read_of(store, base, name)
}

// The same by the cell from which the value is read.
fn read_of(store: &Store, base: &Value, name: &Text) -> Result<Value, Memory>
    requires { IsRefWithin (length store.now.cells) base.now }
    ensures value { IfOk result (λ v. v ≡ stored_read store.now.cells base.now name.now) }
    ensures few { IfSome (reader base.now) (λ i. prototypes store.now.cells i ≤ 100) }
{
    match base {
        Value::Undefined => Ok(Value::Undefined),
        Value::Null => Ok(Value::Undefined),
        Value::Bool(_) => property_of(store, store.host(HostEntry::BooleanPrototype), name),
        Value::Num(_) => property_of(store, store.host(HostEntry::NumberPrototype), name),
        Value::Text(t) => property_of_text(store, t, name),
        Value::Ref(cell) => property_of(store, *cell, name),
    }
}

// A property of a text, which has a `length`.
fn property_of_text(store: &Store, t: &Text, name: &Text) -> Result<Value, Memory>
    ensures value { IfOk result (λ v. v ≡ stored_read store.now.cells (Value.Text t.now) name.now) }
    ensures few { prototypes store.now.cells text_prototype ≤ 100 }
{
    let proto = store.host(HostEntry::TextPrototype);
    if is_length(name) {
        Ok(length_value(t))
    } else {
        property_of(store, proto, name)
    }
}

/// The first own property along the prototypes of a cell, where it stands; none for an `undefined` that
/// stands nowhere.
#[inline(never)]
pub fn property_at<'a>(store: &'a Store, cell: CellId, name: &Text) -> Option<&'a Value>
    requires { cell < length store.now.cells }
    ensures found { (fs : List Forest) (r : Rest) (w : ℕ) → IsConfined fs w store.now
        → IsFine w store.now.cells (Value.Ref cell)
        → seen w store.now.cells (unwrap_or (option_copied result) Value.Undefined)
        ≡ properties.get (image fs r w store.now) (seen w store.now.cells (Value.Ref cell)) name.now }
    ensures fine { (fs : List Forest) (w : ℕ) → IsConfined fs w store.now → IsFine w store.now.cells (Value.Ref cell)
        → IsFine w store.now.cells (unwrap_or (option_copied result) Value.Undefined) }
{
    lawful(store);
    let _links = store.chain(cell);
    store.get(cell, name)
}

/// The same under the name of an index below 2^30, of which no text is made.
#[inline(always)]
pub fn indexed_at(store: &Store, cell: CellId, i: u32) -> Option<&Value>
    requires within { cell < length store.now.cells }
    requires index { i < 1073741824 }
    ensures found { (fs : List Forest) (r : Rest) (w : ℕ) → IsConfined fs w store.now
        → IsFine w store.now.cells (Value.Ref cell)
        → seen w store.now.cells (unwrap_or (option_copied result) Value.Undefined)
        ≡ properties.get (image fs r w store.now) (seen w store.now.cells (Value.Ref cell)) (decimal i) }
    ensures fine { (fs : List Forest) (w : ℕ) → IsConfined fs w store.now → IsFine w store.now.cells (Value.Ref cell)
        → IsFine w store.now.cells (unwrap_or (option_copied result) Value.Undefined) }
{
    lawful(store);
    let _links = store.chain(cell);
    store.get_index(cell, i)
}

/// The same for a second holder.
pub fn indexed_value(store: &Store, cell: CellId, i: u32) -> Result<Value, Memory>
    requires within { cell < length store.now.cells }
    requires index { i < 1073741824 }
    ensures found { IfOk result (λ v. (fs : List Forest) (r : Rest) (w : ℕ) → IsConfined fs w store.now
        → IsFine w store.now.cells (Value.Ref cell)
        → seen w store.now.cells v
        ≡ properties.get (image fs r w store.now) (seen w store.now.cells (Value.Ref cell)) (decimal i)) }
    ensures fine { IfOk result (λ v. (fs : List Forest) (w : ℕ) → IsConfined fs w store.now
        → IsFine w store.now.cells (Value.Ref cell) → IsFine w store.now.cells v) }
{
    shared(indexed_at(store, cell, i))
}

// The first own property along the prototypes of a cell, of which there are at most 100.
fn property_of(store: &Store, cell: CellId, name: &Text) -> Result<Value, Memory>
    requires { cell < length store.now.cells }
    ensures value { IfOk result (λ v. v ≡ stored_property store.now.cells cell name.now) }
    ensures few { prototypes store.now.cells cell ≤ 100 }
{
    let _links = store.chain(cell);
    shared(store.get(cell, name))
}

/// Whether a value has a property, own or along its prototypes.
pub fn is_found(store: &Store, base: &Value, name: &Text) -> bool
    requires { IsRefWithin (length store.now.cells) base.now }
    ensures { (fs : List Forest) (r : Rest) (w : ℕ) → IsConfined fs w store.now → IsFine w store.now.cells base.now
        → result ≡ is_some (properties.property (image fs r w store.now) (seen w store.now.cells base.now) name.now) }
{
    lawful(store);
    found_of(store, base, name)
}

// The same by the cell from which the value is read.
fn found_of(store: &Store, base: &Value, name: &Text) -> bool
    requires { IsRefWithin (length store.now.cells) base.now }
    ensures found { result ≡ stored_found store.now.cells base.now name.now }
    ensures few { IfSome (reader base.now) (λ i. prototypes store.now.cells i ≤ 100) }
{
    match base {
        Value::Undefined => false,
        Value::Null => false,
        Value::Bool(_) => has_property(store, store.host(HostEntry::BooleanPrototype), name),
        Value::Num(_) => has_property(store, store.host(HostEntry::NumberPrototype), name),
        Value::Text(_) => has_property_of_text(store, name),
        Value::Ref(cell) => has_property(store, *cell, name),
    }
}

// Whether a text has a property.
fn has_property_of_text(store: &Store, name: &Text) -> bool
    ensures found { result ≡ (properties.is_length name.now || stored_some store.now.cells text_prototype name.now) }
    ensures few { prototypes store.now.cells text_prototype ≤ 100 }
{
    let along = has_property(store, store.host(HostEntry::TextPrototype), name);
    is_length(name) || along
}

// Whether a cell has a property along its prototypes, of which there are at most 100.
fn has_property(store: &Store, cell: CellId, name: &Text) -> bool
    requires { cell < length store.now.cells }
    ensures found { result ≡ stored_some store.now.cells cell name.now }
    ensures few { prototypes store.now.cells cell ≤ 100 }
{
    let _links = store.chain(cell);
    store.get(cell, name).is_some()
}

// A value for a second holder, or `undefined`.
pub(crate) fn shared(found: Option<&Value>) -> Result<Value, Memory>
    ensures { IfOk result (λ v. v ≡ unwrap_or (option_copied found.entry) Value.Undefined) }
{
    match found {
        None => Ok(Value::Undefined),
        Some(v) => v.share(),
    }
}

fn is_length(name: &Text) -> bool
    ensures { result ≡ properties.is_length name.now }
{
    is_word(name, b"length")
}

// The length of a text.
fn length_value(t: &Text) -> Value
    ensures { result ≡ Value.Num (Number.Whole (pos (length t.now))) }
{
    Value::Num(Number::Whole(t.units().len() as i64))
}

// The cell to which a value refers.
pub(crate) fn cell_of(v: &Value) -> Option<CellId>
    ensures { result ≡ cell_in v.now }
{
    match v {
        Value::Ref(cell) => Some(*cell),
        _ => None,
    }
}

/// The permitted own names of a value, in order of insertion; a primitive has none, and the `length`
/// of an Array is none of them.
pub fn keys(alloc: Global, store: &Store, base: &Value) -> Result<Vec<Text>, Memory>
    requires { IsRefWithin (length store.now.cells) base.now }
    ensures { IfOk result (λ names. (fs : List Forest) (r : Rest) (w : ℕ) → IsFine w store.now.cells base.now
        → names.items ≡ properties.keys (image fs r w store.now) (seen w store.now.cells base.now)) }
{
    lawful(store);
    store.bunches_have_nodes();
    match cell_of(base) {
        None => Ok(Vec::new(alloc)),
        Some(cell) => store.keys(alloc, cell),
    }
}

/// How many names `keys` gives.
pub fn keys_len(store: &Store, base: &Value) -> usize
    requires { IsRefWithin (length store.now.cells) base.now }
    ensures { (fs : List Forest) (r : Rest) (w : ℕ) → IsFine w store.now.cells base.now
        → result ≡ length (properties.keys (image fs r w store.now) (seen w store.now.cells base.now)) }
{
    lawful(store);
    store.bunches_have_nodes();
    match cell_of(base) {
        None => 0,
        Some(cell) => store.keys_len(cell),
    }
}

/// The value of a variable: of the innermost scope that has the name, or else of a listed global;
/// `undefined` where neither has it.
pub fn variable(store: &Store, scope: Option<CellId>, name: &Text) -> Result<Value, Memory>
    requires { IfSome scope (λ i. i < length store.now.cells) }
    ensures found { IfOk result (λ v. (fs : List Forest) (r : Rest) (w d : ℕ)
        → IsConfined fs w store.now → IsPlaceScope w store.now.cells scope
        → seen w store.now.cells v ≡ scopes.variable (image fs r w store.now)
        (record { scope = option_map (scope_number w store.now.cells) scope; depth = d }) name.now) }
    ensures fine { IfOk result (λ v. (fs : List Forest) (w : ℕ)
        → IsConfined fs w store.now → IsPlaceScope w store.now.cells scope → IsFine w store.now.cells v) }
{
    shared(variable_at(store, scope, name))
}

/// The same value where it stands; none for an `undefined` that stands nowhere.
#[inline(never)]
pub fn variable_at<'a>(store: &'a Store, scope: Option<CellId>, name: &Text) -> Option<&'a Value>
    requires { IfSome scope (λ i. i < length store.now.cells) }
    ensures found { (fs : List Forest) (r : Rest) (w d : ℕ)
        → IsConfined fs w store.now → IsPlaceScope w store.now.cells scope
        → seen w store.now.cells (unwrap_or (option_copied result) Value.Undefined)
        ≡ scopes.variable (image fs r w store.now)
        (record { scope = option_map (scope_number w store.now.cells) scope; depth = d }) name.now }
    ensures fine { (fs : List Forest) (w : ℕ) → IsConfined fs w store.now → IsPlaceScope w store.now.cells scope
        → IsFine w store.now.cells (unwrap_or (option_copied result) Value.Undefined) }
{
    lawful(store);
    value_at(store, scope, name)
}

// The value of a short name that the scope itself has, as most have.
#[inline(always)]
fn soon_at<'a>(store: &'a Store, scope: Option<CellId>, name: &Text) -> Option<&'a Value>
    requires { IfSome scope (λ i. i < length store.now.cells) }
    ensures { IfSome result (λ v. v.now ≡ stored_value store.now.cells scope name.now) }
{
    let from = scope?;
    store.var_few(from, name)
}

// The value of a variable, or else of a listed global.
#[inline(always)]
fn value_at<'a>(store: &'a Store, scope: Option<CellId>, name: &Text) -> Option<&'a Value>
    requires { IfSome scope (λ i. i < length store.now.cells) }
    ensures { unwrap_or (option_copied result) Value.Undefined ≡ stored_value store.now.cells scope name.now }
{
    match soon_at(store, scope, name) {
        Some(value) => Some(value),
        None => value_far(store, scope, name),
    }
}

// The same of any name and scope.
#[inline(never)]
fn value_far<'a>(store: &'a Store, scope: Option<CellId>, name: &Text) -> Option<&'a Value>
    requires { IfSome scope (λ i. i < length store.now.cells) }
    ensures { unwrap_or (option_copied result) Value.Undefined ≡ stored_value store.now.cells scope name.now }
{
    match in_scopes(store, scope, name) {
        None => global_at(store, name),
        Some(value) => Some(value),
    }
}

// The value of a variable of a scope or of those around it.
#[inline(always)]
fn in_scopes<'a>(store: &'a Store, scope: Option<CellId>, name: &Text) -> Option<&'a Value>
    requires { IfSome scope (λ i. i < length store.now.cells) }
    ensures { option_copied result ≡ stored_variable store.now.cells scope name.now }
{
    match scope {
        None => None,
        Some(from) => store.var_get(from, name),
    }
}

// The value of a listed global.
#[inline(never)]
fn global_at<'a>(store: &'a Store, name: &Text) -> Option<&'a Value>
    ensures { unwrap_or (option_copied result) Value.Undefined
        ≡ shown_global (first_own name.now (readable store.now.cells global)) }
{
    shown(store.get(store.global(), name))
}

// A global; the cell of `body` is hidden.
fn shown<'a>(found: Option<&'a Value>) -> Option<&'a Value>
    ensures { unwrap_or (option_copied result) Value.Undefined ≡ shown_global (option_copied found.entry) }
{
    let value = found?;
    if is_body(value) { None } else { Some(value) }
}

fn is_body(v: &Value) -> bool
    ensures { result ≡ is_body v.now }
{
    match v {
        Value::Ref(i) => *i == 1,
        _ => false,
    }
}
