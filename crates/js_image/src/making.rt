//! New cells and scopes.
ghost use Rattle.std.specs.Prelude.{◌≡◌, ℕ, ◌<◌, List, IfOk, length, map};
ghost use Rattle.std.specs.List.{IsDistinct, list_all};
ghost use Rattle.std.specs.Str.{bytes_eq};
ghost use Rattle.code_units.specs.Permitted.{is_permitted};
ghost use Rattle.js_tree.specs.Forest.{Forest};
ghost use Rattle.store_cells.specs.First.{first_values};
ghost use Rattle.object_store.specs.Calls.{slots_of};
ghost use Rattle.widget_meaning.specs.Values.{Value as Meant};
ghost use Rattle.widget_meaning.specs.OwnState.{State, plain_object, with_new_scope};
ghost use Rattle.widget_meaning.specs.Plan.{Plan};
ghost use Rattle.widget_meaning.specs.Costs as costs;
ghost use Rattle.widget_meaning.specs.NativeForms as natives;
ghost use Rattle.js_image.specs.Image.{Rest, all_seen, image};
ghost use Rattle.js_image.specs.Held.{AreFine, ArePairs, IsPlaceScope, Kept};
ghost use Rattle.js_image.specs.Plans.{IsFineMade, IsNew, IsNewOf, IsScopeMade, IsStopOf, begins_permitted, fault_values, made_plan, meant_fault, meant_new, scope_of, scope_plan};

use crate::laws::lawful;
use crate::outcome::{Fault, Made, Paid, StopCause};
use crate::paying::pay_units;
use code_units::{Memory, Owner, Text, permitted};
use object_store::{CellId, FirstNames, HostEntry, NewCell, Store, StoreFault, UNIT_LIMIT, Value};
use std::alloc::Global;

/// Makes an Object, an Array, a Function or a Bunch, with its first pairs or elements: the plan that
/// pays for it at once, and then goes on with it. An Object with a name that no accepted script can
/// write is answered like want of memory.
pub fn make(alloc: Global, store: &mut Store, w: u32, cell: NewCell) -> Result<Made, Memory>
    requires widget { w < 32 }
    requires held { IsNew w store.old.cells cell }
    ensures plan { IfOk result (λ m. (fs : List Forest) (r : Rest) (k : Meant → State → Plan)
        → costs.make (meant_new w store.old.cells fs r.nodes cell) (slots_of cell) (image fs r w store.old) k
        ≡ made_plan w store.new.cells m k (image fs r w store.new)) }
    ensures fine { IfOk result (λ m. IsFineMade w store.new.cells m) }
    ensures kept { (fs : List Forest) → IsNewOf fs cell → Kept fs w store.old store.new }
{
    if !begins_permitted(&cell) {
        return Err(Memory);
    }
    // The host's cells are there, and what the widget has paid is within the limits.
    store.host_stays();
    let _paid = store.counts(Owner::Widget(w));
    match store.make(alloc, Owner::Widget(w), cell) {
        Ok(id) => Ok(Made::Cell(id)),
        Err(fault) => Ok(Made::Stop(stop_of(fault)?)),
    }
}

// Whether a script may use the names with which a new cell begins.
fn begins_permitted(cell: &NewCell) -> bool
    ensures { result ≡ begins_permitted cell.now }
{
    match cell {
        NewCell::ObjectWith { pairs, .. } => all_permitted(pairs),
        _ => true,
    }
}

fn all_permitted(pairs: &[(Text, Value)]) -> bool
    ensures { result ≡ list_all (λ p. is_permitted p.0) pairs.now }
{
    pairs.iter().all(|pair| permitted(&pair.0))
}

/// Makes an Array of these elements, and pays for so many units of texts that are made for it: the
/// plan that pays for all at once.
pub fn make_array(
    alloc: Global,
    store: &mut Store,
    w: u32,
    values: Vec<Value>,
    units: u32,
) -> Result<Made, Memory>
    requires widget { w < 32 }
    requires held { AreFine w store.old.cells values.items }
    ensures plan { IfOk result (λ m. (fs : List Forest) (r : Rest) (k : Meant → State → Plan)
        → natives.make_array (all_seen w store.old.cells values.items) units (image fs r w store.old) k
        ≡ made_plan w store.new.cells m k (image fs r w store.new)) }
    ensures fine { IfOk result (λ m. IsFineMade w store.new.cells m) }
    ensures kept { (fs : List Forest) → Kept fs w store.old store.new }
{
    // Units come first in the order of stops, and what is left of the cost is made and then paid.
    let paid = store.counts(Owner::Widget(w));
    if units > UNIT_LIMIT - paid.units {
        return Ok(Made::Stop(StopCause::Units));
    }
    let made = make(alloc, store, w, NewCell::ArrayWith(values))?;
    Ok(with_units(store, w, made, units))
}

// What was made, once units are paid for it.
fn with_units(store: &mut Store, w: u32, made: Made, units: u32) -> Made
    requires widget { w < 32 }
    requires made { IsFineMade w store.old.cells made }
    ensures plan { (fs : List Forest) (r : Rest) (k : Meant → State → Plan)
        → made_plan w store.old.cells made (λ v t. costs.pay (costs.units_cost units) t (k v)) (image fs r w store.old)
        ≡ made_plan w store.new.cells result k (image fs r w store.new) }
    ensures fine { IsFineMade w store.new.cells result }
    ensures kept { (fs : List Forest) → Kept fs w store.old store.new }
{
    match made {
        Made::Stop(cause) => Made::Stop(cause),
        Made::Cell(id) => match pay_units(store, w, units) {
            Paid::Done => Made::Cell(id),
            Paid::Stop(cause) => Made::Stop(cause),
        },
    }
}

/// Makes the scope of a call or of a `catch`, with its names, which differ, and their first values.
pub fn make_scope(
    alloc: Global,
    store: &mut Store,
    w: u32,
    outer: Option<CellId>,
    pairs: Vec<(Text, Value)>,
) -> Result<Made, Memory>
    requires widget { w < 32 }
    requires outer { IsPlaceScope w store.old.cells outer }
    requires names { IsDistinct bytes_eq (map (λ p. p.0) pairs.items) }
    requires values { ArePairs w store.old.cells pairs.items }
    ensures plan { IfOk result (λ m. (fs : List Forest) (r : Rest) (k : ℕ → State → Plan)
        → costs.pay (costs.scope_cost (scope_of w store.old.cells outer pairs.items)) (image fs r w store.old)
        (λ t. k (length t.own.scopes) (with_new_scope t (scope_of w store.old.cells outer pairs.items)))
        ≡ scope_plan w store.new.cells m k (image fs r w store.new)) }
    ensures fine { IfOk result (λ m. IsScopeMade w store.new.cells m) }
    ensures kept { (fs : List Forest) → Kept fs w store.old store.new }
{
    let _paid = store.counts(Owner::Widget(w));
    match store.make(alloc, Owner::Widget(w), NewCell::ScopeWith { outer, pairs }) {
        Ok(id) => Ok(Made::Cell(id)),
        Err(fault) => Ok(Made::Stop(stop_of(fault)?)),
    }
}

/// Makes the scope of a call, with its names, which differ, and their first values.
#[inline(never)]
pub fn make_call_scope(
    alloc: Global,
    store: &mut Store,
    w: u32,
    outer: Option<CellId>,
    first: &FirstNames,
) -> Result<Made, Memory>
    requires widget { w < 32 }
    requires outer { IsPlaceScope w store.old.cells outer }
    requires names { IsDistinct bytes_eq (map (λ p. p.0) (first_values first.now)) }
    requires values { ArePairs w store.old.cells (first_values first.now) }
    ensures plan { IfOk result (λ m. (fs : List Forest) (r : Rest) (k : ℕ → State → Plan)
        → costs.pay (costs.scope_cost (scope_of w store.old.cells outer (first_values first.now)))
        (image fs r w store.old)
        (λ t. k (length t.own.scopes) (with_new_scope t (scope_of w store.old.cells outer (first_values first.now))))
        ≡ scope_plan w store.new.cells m k (image fs r w store.new)) }
    ensures fine { IfOk result (λ m. IsScopeMade w store.new.cells m) }
    ensures kept { (fs : List Forest) → Kept fs w store.old store.new }
{
    let _paid = store.counts(Owner::Widget(w));
    match store.make_call_scope(alloc, w, outer, first) {
        Ok(id) => Ok(Made::Cell(id)),
        Err(fault) => Ok(Made::Stop(stop_of(fault)?)),
    }
}

/// Makes the object of a fault, which is then thrown.
pub fn make_fault(alloc: Global, store: &mut Store, w: u32, fault: Fault) -> Result<Made, Memory>
    requires widget { w < 32 }
    ensures plan { IfOk result (λ m. (fs : List Forest) (r : Rest) (k : Meant → State → Plan)
        → costs.make (plain_object (costs.fault_pairs (meant_fault fault))) 2 (image fs r w store.old) k
        ≡ made_plan w store.new.cells m k (image fs r w store.new)) }
    ensures fine { IfOk result (λ m. IsFineMade w store.new.cells m) }
    ensures kept { (fs : List Forest) → Kept fs w store.old store.new }
{
    let pairs = fault_pairs(alloc, fault)?;
    lawful(store);
    let proto = store.host(HostEntry::ObjectPrototype);
    make(alloc, store, w, NewCell::ObjectWith { proto, pairs })
}

// The pairs of the object of a fault.
fn fault_pairs(alloc: Global, fault: Fault) -> Result<Vec<(Text, Value)>, Memory>
    ensures { IfOk result (λ ps. ps.items ≡ fault_values (meant_fault fault)) }
{
    let name = word(alloc, fault_name(fault))?;
    let message = word(alloc, fault_message(fault))?;
    let mut pairs = Vec::new(alloc);
    pairs.push((word(alloc, b"name")?, Value::Text(name)))?;
    pairs.push((word(alloc, b"message")?, Value::Text(message)))?;
    Ok(pairs)
}

// The stop of a cost that a widget cannot pay.
#[cold]
#[inline(never)]
fn stop_of(fault: StoreFault) -> Result<StopCause, Memory>
    ensures { IfOk result (λ c. IsStopOf fault c) }
{
    match fault {
        StoreFault::Cells { .. } => Ok(StopCause::Cells),
        StoreFault::Slots { .. } => Ok(StopCause::Slots),
        StoreFault::Units { .. } => Ok(StopCause::Units),
        _ => Err(Memory),
    }
}

fn fault_name(fault: Fault) -> &'static [u8]
    ensures { result.now ≡ costs.fault_name (meant_fault fault) }
{
    match fault {
        Fault::E7 | Fault::E11 | Fault::E12 => b"RangeError",
        Fault::E8 | Fault::E9 | Fault::E10 => b"ADsafe",
        _ => b"TypeError",
    }
}

fn fault_message(fault: Fault) -> &'static [u8]
    ensures { result.now ≡ costs.fault_message (meant_fault fault) }
{
    match fault {
        Fault::E1 => b"no property of undefined or null",
        Fault::E2 => b"not a function",
        Fault::E3 => b"bad receiver",
        Fault::E4 => b"bad argument",
        Fault::E5 => b"closed object",
        Fault::E6 => b"no primitive value",
        Fault::E7 => b"bad length",
        Fault::E8 => b"bad name",
        Fault::E9 => b"bad query",
        Fault::E10 => b"bad place in the page",
        Fault::E11 => b"too many timers",
        Fault::E12 => b"chain too long",
    }
}

/// An ASCII word as a text.
pub fn word(alloc: Global, bytes: &[u8]) -> Result<Text, Memory>
    ensures { IfOk result (λ t. t ≡ bytes.now) }
{
    let units = bytes.iter().map(u16_of).collect(alloc)?;
    Text::from_units(alloc, units)
}

fn u16_of(b: &u8) -> u16
    ensures { result ≡ b.now }
{
    u16::from(*b)
}
