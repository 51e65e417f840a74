//! `explode`: an Array of Bunches, one for each node. The Array is born before them.
ghost use Rattle.std.specs.Prelude.{◌≡◌, ◌<◌, ◌≤◌, ℕ, List, [], Bool, Option, Some, IfOk, OnOk, length, map, slice_get};
ghost use Rattle.js_tree.specs.Forest.{Forest};
ghost use Rattle.widget_meaning.specs.BunchReads as means;
ghost use Rattle.permitted_table.specs.declared.native.ReadNative.TheVariants as names;
ghost use Rattle.widget_meaning.specs.Costs.{with_counts};
ghost use Rattle.widget_meaning.specs.OwnState.{Amounts, new_array, with_new_cell};
ghost use Rattle.widget_meaning.specs.Values.{Own, Value as Meant};
ghost use Rattle.event_loop.specs.declared.around.Loop.{Loop};
ghost use Rattle.js_image.specs.Held.{AreFine, IsHeld, Kept};
ghost use Rattle.js_image.specs.Image.{Rest, all_seen, seen};
ghost use Rattle.js_image.specs.Image as joint;
ghost use Rattle.native_common.specs.Receivers.{IsReceiver, receiver};
ghost use Rattle.page_image.specs.Image.{number};
ghost use Rattle.native_image.specs.Image.{beside};
ghost use Rattle.native_image.specs.Refines.{EndsAt, RefinesAt};
ghost use Rattle.native_image.specs.Sound.{AreNodes, IsSound, KeepsAll, KeepsStore};
ghost use Rattle.bunch_trees.specs.Explodes.{IsEmptyArray, IsExploded, explode_paid, filled};

use code_units::Memory;
use js_image::{Fault, Made, Paid, make_array, pay_slots, push_paid};
use js_values::{Meter, NativeOut};
use native_common::{WidgetId, take};
use native_image::{Bill, make_bunches, receiver_of, settle, weigh};
use object_store::{CellId, Store, Value};
use page_tree::{NodeId, Page};
use std::alloc::Global;

// An Array of no elements. Where it cannot be paid, it is answered like want of memory.
fn empty_array(alloc: Global, store: &mut Store, w: WidgetId) -> Result<CellId, Memory>
    ensures made { OnOk result ((fs : List Forest) (r : Rest) (c : Amounts)
        → with_counts (joint.image fs r w.index store.new) c
        ≡ with_new_cell (with_counts (joint.image fs r w.index store.old) c) (new_array 0 [])) }
    ensures number { IfOk result (λ id. (fs : List Forest) (r : Rest)
        → seen w.index store.new.cells (Value.Ref id) ≡ Own (length (joint.image fs r w.index store.old).own.heap)) }
    ensures held { IfOk result (IsHeld w.index store.new.cells) }
    ensures kept { (fs : List Forest) → Kept fs w.index store.old store.new }
{
    let none = Vec::new(alloc);
    match make_array(alloc, store, w.index, none, 0)? {
        Made::Cell(id) => Ok(id),
        Made::Stop(_) => Err(Memory),
    }
}

// The value at a place of a list, for a second holder.
fn value_at(values: &[Value], at: usize) -> Result<Value, Memory>
    requires { at < length values.now }
    ensures { IfOk result (λ v. slice_get values.now at ≡ Some v) }
{
    let value = &values[at];
    value.share()
}

// Puts elements into an Array that has none; their slots are paid for afterwards.
fn put_all(
    alloc: Global,
    store: &mut Store,
    w: WidgetId,
    array: CellId,
    values: &[Value],
) -> Result<(), Memory>
    requires held { IsHeld w.index store.old.cells array }
    requires values { AreFine w.index store.old.cells values.now }
    requires few { length values.now ≤ 16384 }
    ensures done { OnOk result ((fs : List Forest) (r : Rest) (n : ℕ) → seen w.index store.old.cells (Value.Ref array) ≡ Own n
        → IsEmptyArray (joint.image fs r w.index store.old) n
        → joint.image fs r w.index store.new
        ≡ filled n (all_seen w.index store.old.cells values.now) (joint.image fs r w.index store.old)) }
    ensures kept { (fs : List Forest) → Kept fs w.index store.old store.new }
{
    for at in 0..values.len() {
        let value = value_at(values, at)?;
        push_paid(alloc, store, w.index, array, at as u32, value)?;
    }
    Ok(())
}

// Pays for slots that were judged before. Where they cannot be paid, it is answered like want of
// memory.
fn pay_judged_slots(store: &mut Store, w: WidgetId, n: u32) -> Result<(), Memory>
    ensures paid { OnOk result ((fs : List Forest) (r : Rest) (c : Amounts)
        → with_counts (joint.image fs r w.index store.new) c ≡ with_counts (joint.image fs r w.index store.old) c) }
    ensures kept { (fs : List Forest) → Kept fs w.index store.old store.new }
{
    match pay_slots(store, w.index, n) {
        Paid::Done => Ok(()),
        Paid::Stop(_) => Err(Memory),
    }
}

// The Array and its Bunches, whose cost was judged before.
fn make_exploded(
    alloc: Global,
    store: &mut Store,
    w: WidgetId,
    page: &Page,
    nodes: &[NodeId],
) -> Result<CellId, Memory>
    requires nodes { AreNodes page.now w.index nodes.now }
    requires sound { (l : Loop) × IsSound w.index store.old page.now l }
    ensures made { IfOk result (λ id. (l : Loop) → IsSound w.index store.old page.now l
        → IsExploded w.index store.old store.new page.now l (map (number page.now w.index) nodes.now) id) }
    ensures sound { (l : Loop) → IsSound w.index store.old page.now l → IsSound w.index store.new page.now l }
    ensures kept { KeepsStore w.index store.old store.new }
{
    let array = empty_array(alloc, store, w)?;
    let bunches = make_bunches(alloc, store, w, page, nodes)?;
    put_all(alloc, store, w, array, &bunches)?;
    pay_judged_slots(store, w, nodes.len() as u32)?;
    Ok(array)
}

// The cost is weighed, and the Array is made and given.
fn explode_weighed(
    alloc: Global,
    nodes: &[NodeId],
    store: &mut Store,
    w: WidgetId,
    page: &Page,
) -> Result<NativeOut, Memory>
    requires nodes { AreNodes page.now w.index nodes.now }
    requires sound { (l : Loop) × IsSound w.index store.old page.now l }
    ensures ends { (l : Loop) (b : Option Bool) → IsSound w.index store.old page.now l → IfOk result (λ o.
        EndsAt w.index (beside store.old page.now l b) (beside store.new page.now l b)
        (λ d s. explode_paid (map (number page.now w.index) nodes.now) s) o) }
    ensures kept { (l : Loop) → IsSound w.index store.old page.now l → KeepsAll w.index store.old store.new page.now page.now l }
{
    let many = nodes.len() as u32;
    let bill = Bill {
        units: 0,
        cells: many + 1,
        slots: 3 * many,
        nodes: 0,
    };
    match weigh(store, page, w, bill) {
        Ok(due) => {
            let array = make_exploded(alloc, store, w, page, nodes)?;
            settle(store, page, w, due)?;
            Ok(NativeOut::Value(Value::Ref(array)))
        }
        Err(cause) => Ok(NativeOut::Stop(cause)),
    }
}

// `explode()` of these nodes.
fn explode_nodes(
    alloc: Global,
    nodes: &[NodeId],
    store: &mut Store,
    meter: &mut Meter,
    w: WidgetId,
    page: &Page,
) -> Result<NativeOut, Memory>
    requires nodes { AreNodes page.now w.index nodes.now }
    requires sound { (l : Loop) × IsSound w.index store.old page.now l }
    ensures native { (l : Loop) (b : Option Bool) → IsSound w.index store.old page.now l → IfOk result (λ o.
        RefinesAt w.index (beside store.old page.now l b) (beside store.new page.now l b) meter.old meter.new
        (λ d s. means.explode (map (number page.now w.index) nodes.now) s) o) }
    ensures kept { (l : Loop) → IsSound w.index store.old page.now l → KeepsAll w.index store.old store.new page.now page.now l }
{
    match take(meter, nodes.len()) {
        Ok(()) => explode_weighed(alloc, nodes, store, w, page),
        Err(_) => Ok(NativeOut::OutOfFuel),
    }
}

/// `explode()` of a receiver: an Array of Bunches of one node each.
pub fn explode(
    alloc: Global,
    this: &Value,
    store: &mut Store,
    meter: &mut Meter,
    w: WidgetId,
    page: &Page,
) -> Result<NativeOut, Memory>
    requires receiver { IsReceiver w.index store.old.cells this.now }
    requires sound { (l : Loop) × IsSound w.index store.old page.now l }
    ensures native { (l : Loop) (b : Option Bool) (vs : List Meant) → IsSound w.index store.old page.now l → IfOk result (λ o.
        RefinesAt w.index (beside store.old page.now l b) (beside store.new page.now l b) meter.old meter.new
        (λ d s. means.read_native names.Explode (receiver w.index store.old.cells this.now) vs d s) o) }
    ensures kept { (l : Loop) → IsSound w.index store.old page.now l → KeepsAll w.index store.old store.new page.now page.now l }
{
    match receiver_of(alloc, store, w, page, this)? {
        Some(list) => explode_nodes(alloc, &list, store, meter, w, page),
        None => Ok(NativeOut::Throw(Fault::E3)),
    }
}
