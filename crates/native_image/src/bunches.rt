//! Bunches of a widget.
ghost use Rattle.std.specs.Prelude.{◌≡◌, ℕ, ◌++◌, Bool, List, [], ◌∷◌, Option, true, IfOk, OnOk, IfSome, map, nat_eq};
ghost use Rattle.std.specs.List.{IsDistinct};
ghost use Rattle.std.specs.Option.{option_and_then, option_map};
ghost use Rattle.js_tree.specs.Forest.{Forest};
ghost use Rattle.widget_meaning.specs.Costs.{give};
ghost use Rattle.widget_meaning.specs.NativeForms as forms;
ghost use Rattle.widget_meaning.specs.OwnState.{State, bunch_nodes, kind_of};
ghost use Rattle.widget_meaning.specs.Plan.{Plan};
ghost use Rattle.widget_meaning.specs.Values.{Value as Meant};
ghost use Rattle.event_loop.specs.declared.around.Loop.{Loop};
ghost use Rattle.js_image.specs.Held.{HoldNodes, IsFine};
ghost use Rattle.js_image.specs.Image.{seen};
ghost use Rattle.js_image.specs.Plans.{IsFineMade, IsStopOf, made_plan};
ghost use Rattle.query_grammar.specs.Finds.{has_number};
ghost use Rattle.page_image.specs.Image.{number, owns};
ghost use Rattle.native_common.specs.Receivers.{IsReceiver, receiver};
ghost use Rattle.native_image.specs.Image.{Outside, beside, image};
ghost use Rattle.native_image.specs.Made.{AreBunches};
ghost use Rattle.native_image.specs.Refines.{EndsAt};
ghost use Rattle.native_image.specs.Sound.{AreNodes, HoldsOwn, IsSound, KeepsStore};

use code_units::{Memory, Owner};
use js_image::{Made, StopCause};
use js_values::NativeOut;
use native_common::{WidgetId, is_plain_call};
use object_store::{NewCell, Store, StoreFault, Value};
use page_tree::{NodeId, Page};
use std::alloc::Global;

/// The nodes of a Bunch of the widget, in its order; none for any other value.
pub fn bunch_of(
    alloc: Global,
    store: &Store,
    w: WidgetId,
    page: &Page,
    v: &Value,
) -> Result<Option<Vec<NodeId>>, Memory>
    requires held { HoldNodes (owns page.now w.index) w.index store.now }
    requires fine { IsFine w.index store.now.cells v.now }
    ensures read { IfOk result (λ o. (fs : List Forest) (x : Outside) (l : Loop) (b : Option Bool)
        → bunch_nodes (kind_of (image fs x w.index (beside store.now page.now l b))
        (seen w.index store.now.cells v.now))
        ≡ option_map (λ ns. map (number page.now w.index) ns.items) o) }
    ensures nodes { IfOk result (λ o. IfSome o (λ ns. AreNodes page.now w.index ns.items)) }
{
    js_image::bunch_nodes(alloc, store, v)
}

/// The nodes of a receiver that is a Bunch of the widget, in its order; none for any other, and for a
/// plain call.
pub fn receiver_of(
    alloc: Global,
    store: &Store,
    w: WidgetId,
    page: &Page,
    this: &Value,
) -> Result<Option<Vec<NodeId>>, Memory>
    requires held { HoldNodes (owns page.now w.index) w.index store.now }
    requires receiver { IsReceiver w.index store.now.cells this.now }
    ensures read { IfOk result (λ o. (fs : List Forest) (x : Outside) (l : Loop) (b : Option Bool)
        → option_and_then (λ v. bunch_nodes (kind_of (image fs x w.index (beside store.now page.now l b)) v))
        (receiver w.index store.now.cells this.now)
        ≡ option_map (λ ns. map (number page.now w.index) ns.items) o) }
    ensures nodes { IfOk result (λ o. IfSome o (λ ns. AreNodes page.now w.index ns.items)) }
{
    if is_plain_call(this) {
        return Ok(None);
    }
    bunch_of(alloc, store, w, page, this)
}

/// Makes a Bunch of these nodes of a widget, which differ: the plan that pays for it, and then goes
/// on with it.
pub fn make_bunch(
    alloc: Global,
    store: &mut Store,
    w: WidgetId,
    page: &Page,
    nodes: Vec<NodeId>,
) -> Result<Made, Memory>
    requires sound { (l : Loop) × IsSound w.index store.old page.now l }
    requires own { (n : ℕ) → has_number nodes.items n ≡ true → owns page.now w.index n ≡ true }
    requires apart { IsDistinct nat_eq nodes.items }
    ensures plan { IfOk result
        (λ m. (fs : List Forest) (x : Outside) (l : Loop) (b : Option Bool) (k : Meant → State → Plan)
        → HoldsOwn w.index store.old page.now l
        → forms.make_bunch (map (number page.now w.index) nodes.items)
        (image fs x w.index (beside store.old page.now l b)) k
        ≡ made_plan w.index store.new.cells m k (image fs x w.index (beside store.new page.now l b))) }
    ensures fine { IfOk result (λ m. IsFineMade w.index store.new.cells m) }
    ensures sound { (l : Loop) → IsSound w.index store.old page.now l → IsSound w.index store.new page.now l }
    ensures kept { KeepsStore w.index store.old store.new }
{
    // The host's cells are there, and what the widget has paid is within the limits.
    store.host_stays();
    let _paid = store.counts(Owner::Widget(w.index));
    match store.make(alloc, Owner::Widget(w.index), NewCell::Bunch(nodes)) {
        Ok(id) => Ok(Made::Cell(id)),
        Err(fault) => Ok(Made::Stop(stop_of(fault)?)),
    }
}

/// Makes a Bunch of these nodes of a widget, which differ, and gives it.
pub fn give_bunch(
    alloc: Global,
    store: &mut Store,
    w: WidgetId,
    page: &Page,
    nodes: Vec<NodeId>,
) -> Result<NativeOut, Memory>
    requires sound { (l : Loop) × IsSound w.index store.old page.now l }
    requires own { (n : ℕ) → has_number nodes.items n ≡ true → owns page.now w.index n ≡ true }
    requires apart { IsDistinct nat_eq nodes.items }
    ensures ends { IfOk result (λ o. (l : Loop) (b : Option Bool) → IsSound w.index store.old page.now l
        → EndsAt w.index (beside store.old page.now l b) (beside store.new page.now l b)
        (λ d t. forms.make_bunch (map (number page.now w.index) nodes.items) t give) o) }
    ensures sound { (l : Loop) → IsSound w.index store.old page.now l → IsSound w.index store.new page.now l }
    ensures kept { KeepsStore w.index store.old store.new }
{
    match make_bunch(alloc, store, w, page, nodes)? {
        Made::Cell(id) => Ok(NativeOut::Value(Value::Ref(id))),
        Made::Stop(cause) => Ok(NativeOut::Stop(cause)),
    }
}

/// A Bunch of a node of a widget. Where it cannot be paid, it is answered like want of memory.
pub fn bunch_of_node(
    alloc: Global,
    store: &mut Store,
    w: WidgetId,
    page: &Page,
    node: NodeId,
) -> Result<Value, Memory>
    requires sound { (l : Loop) × IsSound w.index store.old page.now l }
    requires own { owns page.now w.index node ≡ true }
    ensures made { IfOk result (λ v. (l : Loop) → HoldsOwn w.index store.old page.now l
        → AreBunches w.index store.old store.new page.now l (number page.now w.index node ∷ []) (v ∷ [])) }
    ensures sound { (l : Loop) → IsSound w.index store.old page.now l → IsSound w.index store.new page.now l }
    ensures kept { KeepsStore w.index store.old store.new }
{
    let nodes = one_node(alloc, node)?;
    match make_bunch(alloc, store, w, page, nodes)? {
        Made::Cell(id) => Ok(Value::Ref(id)),
        Made::Stop(_) => Err(Memory),
    }
}

/// A Bunch of each of these nodes of a widget, in order. Where one cannot be paid, it is answered
/// like want of memory.
pub fn make_bunches(
    alloc: Global,
    store: &mut Store,
    w: WidgetId,
    page: &Page,
    nodes: &[NodeId],
) -> Result<Vec<Value>, Memory>
    requires sound { (l : Loop) × IsSound w.index store.old page.now l }
    requires own { (n : ℕ) → has_number nodes.now n ≡ true → owns page.now w.index n ≡ true }
    ensures made { IfOk result (λ vs. (l : Loop) → HoldsOwn w.index store.old page.now l
        → AreBunches w.index store.old store.new page.now l (map (number page.now w.index) nodes.now) vs.items) }
    ensures sound { (l : Loop) → IsSound w.index store.old page.now l → IsSound w.index store.new page.now l }
    ensures kept { KeepsStore w.index store.old store.new }
{
    let mut values = Vec::new(alloc);
    'each: for node in nodes {
        let value = bunch_of_node(alloc, store, w, page, *node)?;
        keep(&mut values, value)?;
    }
    Ok(values)
}

// A list of one node.
fn one_node(alloc: Global, node: NodeId) -> Result<Vec<NodeId>, Memory>
    ensures { IfOk result (λ ns. ns.items ≡ node ∷ []) }
{
    let mut nodes = Vec::new(alloc);
    nodes.push(node)?;
    Ok(nodes)
}

// Puts a value behind others.
fn keep(values: &mut Vec<Value>, value: Value) -> Result<(), Memory>
    ensures { OnOk result (values.new.items ≡ values.old.items ++ value ∷ []) }
{
    values.push(value)?;
    Ok(())
}

// The stop of a cost that a widget cannot pay.
fn stop_of(fault: StoreFault) -> Result<StopCause, Memory>
    ensures { IfOk result (λ c. IsStopOf fault c) }
{
    match fault {
        StoreFault::Cells { .. } => Ok(StopCause::Cells),
        StoreFault::Slots { .. } => Ok(StopCause::Slots),
        StoreFault::Units { .. } => Ok(StopCause::Units),
        _ => Err(Memory),
    }
}
