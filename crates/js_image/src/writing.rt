//! What is written to the store.
ghost use Rattle.std.specs.Prelude.{◌≡◌, ℕ, ◌+ℤ◌, ◌<◌, Bool, true, List, IfOk, IfNone, IfSome, OnOk, nat_lt, unsigned_abs};
ghost use Rattle.std.specs.Fmt.{decimal};
ghost use Rattle.std.specs.Option.{option_map};
ghost use Rattle.store_cells.specs.Cells.{own_count};
ghost use Rattle.js_tree.specs.Forest.{Forest};
ghost use Rattle.object_store.specs.Owned.{scope_number};
ghost use Rattle.widget_meaning.specs.Limits.{past_numbers};
ghost use Rattle.widget_meaning.specs.Values as meaning;
ghost use Rattle.widget_meaning.specs.OwnState.{State};
ghost use Rattle.widget_meaning.specs.Plan.{Plan};
ghost use Rattle.widget_meaning.specs.Properties as properties;
ghost use Rattle.widget_meaning.specs.Scopes as scopes;
ghost use Rattle.js_image.specs.Image.{Rest, image, seen};
ghost use Rattle.js_image.specs.Held.{IsConfined, IsFine, IsHeld, IsPlaceScope, Kept};
ghost use Rattle.js_image.specs.Plans.{IsRefusalOf, put_plan, removed_plan, PushedAt};

use crate::laws::lawful;
use crate::outcome::{Fault, Removed, StopCause, Written};
use crate::reading::cell_of;
use code_units::{Memory, Owner, Text, permitted, whole_text};
use object_store::{CellId, Store, StoreFault, Value};
use std::alloc::Global;

/// Writes a variable in the innermost scope that has the name; of no other name.
pub fn assign(store: &mut Store, w: u32, scope: Option<CellId>, name: &Text, value: Value)
    requires scope { IsPlaceScope w store.old.cells scope }
    requires value { IsFine w store.old.cells value }
    ensures plan { (fs : List Forest) (r : Rest) (d : ℕ) → IsConfined fs w store.old
        → image fs r w store.new ≡ scopes.assign (image fs r w store.old)
        (record { scope = option_map (scope_number w store.old.cells) scope; depth = d }) name.now
        (seen w store.old.cells value) }
    ensures kept { (fs : List Forest) → IsConfined fs w store.old → Kept fs w store.old store.new }
{
    lawful(store);
    if let Some(from) = scope {
        store.var_set(from, name, value);
    }
}

/// Adds to the whole number that a variable has, where the sum is within the numbers; the number before. None where the
/// variable has no whole number, is none of a scope, or the sum leaves the numbers; then nothing changes.
#[inline(never)]
pub fn add_to(store: &mut Store, w: u32, scope: Option<CellId>, name: &Text, by: i64) -> Option<i64>
    requires scope { IsPlaceScope w store.old.cells scope }
    ensures had { IfSome result (λ z. (fs : List Forest) (r : Rest) (d : ℕ) → IsConfined fs w store.old
        → scopes.variable (image fs r w store.old)
        (record { scope = option_map (scope_number w store.old.cells) scope; depth = d }) name.now ≡ meaning.Num z) }
    ensures within { IfSome result (λ z. nat_lt (unsigned_abs (z +ℤ by)) past_numbers ≡ true) }
    ensures plan { IfSome result (λ z. (fs : List Forest) (r : Rest) (d : ℕ) → IsConfined fs w store.old
        → image fs r w store.new ≡ scopes.assign (image fs r w store.old)
        (record { scope = option_map (scope_number w store.old.cells) scope; depth = d }) name.now
        (meaning.Num (z +ℤ by))) }
    ensures none { IfNone result (store.new ≡ store.old) }
    ensures kept { (fs : List Forest) → IsConfined fs w store.old → Kept fs w store.old store.new }
{
    lawful(store);
    match scope {
        None => None,
        Some(from) => store.var_add(from, name, by),
    }
}

/// Writes a property of a value that the widget holds: the plan that pays for a new name, and then
/// goes on; on a primitive it does nothing. A name that no accepted script can write is answered like
/// want of memory.
pub fn put(
    store: &mut Store,
    w: u32,
    base: &Value,
    name: &Text,
    value: Value,
) -> Result<Written, Memory>
    requires widget { w < 32 }
    requires base { IsFine w store.old.cells base.now }
    requires value { IsFine w store.old.cells value }
    ensures plan { IfOk result (λ p. (fs : List Forest) (r : Rest) (k : State → Plan)
        → properties.put (seen w store.old.cells base.now) name.now (seen w store.old.cells value)
        (image fs r w store.old) k
        ≡ put_plan p k (image fs r w store.new)) }
    ensures kept { (fs : List Forest) → Kept fs w store.old store.new }
{
    match cell_of(base) {
        None => Ok(Written::Done),
        Some(cell) => put_in(store, w, cell, name, value),
    }
}

// The same for a cell.
fn put_in(
    store: &mut Store,
    w: u32,
    cell: CellId,
    name: &Text,
    value: Value,
) -> Result<Written, Memory>
    requires widget { w < 32 }
    requires held { IsHeld w store.old.cells cell }
    requires value { IsFine w store.old.cells value }
    ensures plan { IfOk result (λ p. (fs : List Forest) (r : Rest) (k : State → Plan)
        → properties.put (seen w store.old.cells (Value.Ref cell)) name.now (seen w store.old.cells value)
        (image fs r w store.old) k
        ≡ put_plan p k (image fs r w store.new)) }
    ensures kept { (fs : List Forest) → Kept fs w store.old store.new }
{
    if !permitted(name) {
        return Err(Memory);
    }
    lawful(store);
    let _paid = store.counts(Owner::Widget(w));
    match store.put(cell, name, value) {
        Ok(()) => Ok(Written::Done),
        Err(fault) => refused(fault),
    }
}

/// Writes under the name of an index below 2^30 of a cell that the widget holds, as `put` under that name, of which
/// no text is made.
#[inline(always)]
pub fn put_at(
    store: &mut Store,
    w: u32,
    cell: CellId,
    i: u32,
    value: Value,
) -> Result<Written, Memory>
    requires widget { w < 32 }
    requires held { IsHeld w store.old.cells cell }
    requires index { i < 1073741824 }
    requires value { IsFine w store.old.cells value }
    ensures plan { IfOk result (λ p. (fs : List Forest) (r : Rest) (k : State → Plan)
        → properties.put (seen w store.old.cells (Value.Ref cell)) (decimal i) (seen w store.old.cells value)
        (image fs r w store.old) k ≡ put_plan p k (image fs r w store.new)) }
    ensures kept { (fs : List Forest) → Kept fs w store.old store.new }
{
    lawful(store);
    let _paid = store.counts(Owner::Widget(w));
    match store.put_index(cell, i, value) {
        Ok(()) => Ok(Written::Done),
        Err(fault) => refused(fault),
    }
}

/// Puts an element behind the last of an Array of the widget, which has this length; the slot was paid
/// before. An element that is there already is answered like want of memory.
pub fn push_paid(
    alloc: Global,
    store: &mut Store,
    w: u32,
    array: CellId,
    at: u32,
    value: Value,
) -> Result<(), Memory>
    requires held { IsHeld w store.old.cells array }
    requires value { IsFine w store.old.cells value }
    requires below { at < 4294967295 }
    ensures done { OnOk result ((fs : List Forest) (r : Rest) → PushedAt (own_count w store.old.cells array) at
        (seen w store.old.cells (Value.Ref array)) (seen w store.old.cells value) (image fs r w store.old)
        (image fs r w store.new)) }
    ensures kept { (fs : List Forest) → Kept fs w store.old store.new }
{
    if at < RULED {
        push_index(store, w, array, at, value)
    } else {
        push_named(alloc, store, w, array, at, value)
    }
}

// The same of an index below 2^30, of which no text is made.
fn push_index(store: &mut Store, w: u32, array: CellId, at: u32, value: Value) -> Result<(), Memory>
    requires index { at < RULED }
    requires held { IsHeld w store.old.cells array }
    requires value { IsFine w store.old.cells value }
    requires below { at < 4294967295 }
    ensures done { OnOk result ((fs : List Forest) (r : Rest) → PushedAt (own_count w store.old.cells array) at
        (seen w store.old.cells (Value.Ref array)) (seen w store.old.cells value) (image fs r w store.old)
        (image fs r w store.new)) }
    ensures kept { (fs : List Forest) → Kept fs w store.old store.new }
{
    lawful(store);
    match store.put_index_paid(array, at, value) {
        Ok(()) => Ok(()),
        Err(_) => Err(Memory),
    }
}

// The same by its name.
#[cold]
#[inline(never)]
fn push_named(
    alloc: Global,
    store: &mut Store,
    w: u32,
    array: CellId,
    at: u32,
    value: Value,
) -> Result<(), Memory>
    requires held { IsHeld w store.old.cells array }
    requires value { IsFine w store.old.cells value }
    requires below { at < 4294967295 }
    ensures done { OnOk result ((fs : List Forest) (r : Rest) → PushedAt (own_count w store.old.cells array) at
        (seen w store.old.cells (Value.Ref array)) (seen w store.old.cells value) (image fs r w store.old)
        (image fs r w store.new)) }
    ensures kept { (fs : List Forest) → Kept fs w store.old store.new }
{
    let name = index_name(alloc, at)?;
    lawful(store);
    match store.put_paid(array, &name, value) {
        Ok(()) => Ok(()),
        Err(_) => Err(Memory),
    }
}

// How many indices have their numbers by rule.
const RULED: u32 = 1_073_741_824;

// The name of an element.
fn index_name(alloc: Global, at: u32) -> Result<Text, Memory>
    ensures { IfOk result (λ t. t ≡ decimal at) }
{
    whole_text(alloc, i64::from(at))
}

/// Takes a name out of a value that the widget holds: the plan that goes on with the answer, false
/// exactly for the `length` of an Array; of a primitive it is true.
pub fn remove(store: &mut Store, w: u32, base: &Value, name: &Text) -> Removed
    requires { IsFine w store.old.cells base.now }
    ensures plan { (fs : List Forest) (r : Rest) (k : Bool → State → Plan)
        → properties.delete (seen w store.old.cells base.now) name.now (image fs r w store.old) k
        ≡ removed_plan result k (image fs r w store.new) }
    ensures kept { (fs : List Forest) → Kept fs w store.old store.new }
{
    match cell_of(base) {
        None => Removed::Done(true),
        Some(cell) => remove_in(store, w, cell, name),
    }
}

// The same for a cell.
fn remove_in(store: &mut Store, w: u32, cell: CellId, name: &Text) -> Removed
    requires { IsHeld w store.old.cells cell }
    ensures plan { (fs : List Forest) (r : Rest) (k : Bool → State → Plan)
        → properties.delete (seen w store.old.cells (Value.Ref cell)) name.now (image fs r w store.old) k
        ≡ removed_plan result k (image fs r w store.new) }
    ensures kept { (fs : List Forest) → Kept fs w store.old store.new }
{
    lawful(store);
    match store.remove(cell, name) {
        Ok(answer) => Removed::Done(answer),
        Err(_) => Removed::Throw(Fault::E5),
    }
}

// What a refused write gives.
fn refused(fault: StoreFault) -> Result<Written, Memory>
    ensures { IfOk result (λ p. IsRefusalOf fault p) }
{
    match fault {
        StoreFault::Closed => Ok(Written::Throw(Fault::E5)),
        StoreFault::BadLength => Ok(Written::Throw(Fault::E7)),
        StoreFault::Cells { .. } => Ok(Written::Stop(StopCause::Cells)),
        StoreFault::Slots { .. } => Ok(Written::Stop(StopCause::Slots)),
        StoreFault::Units { .. } => Ok(Written::Stop(StopCause::Units)),
        StoreFault::Memory => Err(Memory),
    }
}
