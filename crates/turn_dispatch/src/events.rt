//! The event object of a dispatch, with the Bunches of its target and of the node that listens.
ghost use Rattle.std.specs.Prelude.{◌≡◌, ℕ, List, [], ◌∷◌, Option, Bool, IfOk, IfSome, OnOk, None, is_some, true};
ghost use Rattle.js_tree.specs.Forest.{Forest};
ghost use Rattle.store_cells.specs.declared.value.Value.TheVariants as value;
ghost use Rattle.widget_meaning.specs.Costs as costs;
ghost use Rattle.widget_meaning.specs.Costs.{object_cost, with_counts};
ghost use Rattle.widget_meaning.specs.Dispatch.{event_cost, with_event};
ghost use Rattle.widget_meaning.specs.OwnState.{Pairs, State, cell_at, lookup, new_bunch, plain_object, replaced, with_cell};
ghost use Rattle.widget_meaning.specs.Plan.{Plan, Halt};
ghost use Rattle.widget_meaning.specs.Values.{Own, Undefined as Nothing};
ghost use Rattle.event_loop.specs.declared.around.Loop.{Loop};
ghost use Rattle.page_image.specs.Image.{number, owns};
ghost use Rattle.page_tree.specs.declared.page.Page.{Page as PageTree};
ghost use Rattle.js_image.specs.Image.{Rest, image as store_image, seen};
ghost use Rattle.js_image.specs.Held.{IsFine, IsHeld, Kept};
ghost use Rattle.js_image.specs.Laws.{AreLawful};
ghost use Rattle.js_image.specs.Plans.{meant_cause};
ghost use Rattle.native_image.specs.Image.{Outside, beside, image};
ghost use Rattle.native_image.specs.Sound.{IsSound, KeepsStore};
ghost use Rattle.turn_dispatch.specs.Events.{Changes, IsNext, born, pairs_with, stored_pairs};
ghost use Rattle.turn_dispatch.specs.Held.{FineDispatch};

use crate::level::Dispatch;
use code_units::{Memory, Owner, Text};
use js_image::{Made, StopCause, Written, make, put, word};
use native_image::{WidgetId, make_bunch};
use object_store::{CELL_LIMIT, CellId, HostEntry, NativeId, NewCell, SLOT_LIMIT, Store, Value};
use page_tree::{NodeId, Page};
use std::alloc::Global;

// What an event object and its two Bunches cost.
const EVENT_CELLS: u32 = 3;

const EVENT_SLOTS: u32 = 9;

/// Why an event object cannot be paid, none where it can: cells are judged before slots.
pub(crate) fn refusal(store: &Store, w: WidgetId) -> Option<StopCause>
    ensures stop { IfSome result (λ c. (fs : List Forest) (r : Rest) (k : State → Plan)
        → costs.pay event_cost (store_image fs r w.index store.now) k ≡ Halt (meant_cause c) (store_image fs r w.index store.now)) }
    ensures fits { result ≡ None → (fs : List Forest) (r : Rest) (k : State → Plan)
        → costs.pay event_cost (store_image fs r w.index store.now) k
        ≡ k (with_counts (store_image fs r w.index store.now)
        (costs.sum (store_image fs r w.index store.now).own.counts event_cost)) }
{
    let paid = store.counts(Owner::Widget(w.index));
    if EVENT_CELLS > CELL_LIMIT - paid.cells {
        return Some(StopCause::Cells);
    }
    if EVENT_SLOTS > SLOT_LIMIT - paid.slots {
        return Some(StopCause::Slots);
    }
    None
}

// The cell of what was made; that it can be paid is known before.
fn made(made: Made) -> Result<CellId, Memory>
    ensures { IfOk result (λ i. made ≡ Made.Cell i) }
{
    match made {
        Made::Cell(cell) => Ok(cell),
        Made::Stop(_) => Err(Memory),
    }
}

// That a write was done is known before.
fn done(written: Written) -> Result<(), Memory>
    ensures { OnOk result (written ≡ Written.Done) }
{
    match written {
        Written::Done => Ok(()),
        _ => Err(Memory),
    }
}

// The pairs of an event object before its Bunches.
fn event_pairs(
    alloc: Global,
    dispatch: &Dispatch,
    bubble: CellId,
) -> Result<Vec<(Text, Value)>, Memory>
    ensures { IfOk result (λ ps. ps.items ≡ stored_pairs dispatch.now.kind dispatch.now.value bubble) }
{
    let mut pairs = Vec::new(alloc);
    pairs.push((word(alloc, b"type")?, Value::Text(dispatch.kind.share()?)))?;
    pairs.push((word(alloc, b"target")?, Value::Undefined))?;
    pairs.push((word(alloc, b"that")?, Value::Undefined))?;
    pairs.push((word(alloc, b"value")?, dispatch.value.share()?))?;
    pairs.push((word(alloc, b"bubble")?, Value::Ref(bubble)))?;
    Ok(pairs)
}

// The laws of the store, together.
fn lawful(store: &Store)
    ensures { AreLawful store.now.cells }
{
    store.links_are_older();
    store.permitted_leads_on();
    store.host_stays();
    store.arrays_have_length();
    store.cells_have_prototypes();
}

// The event object, before its Bunches.
fn make_object(
    alloc: Global,
    store: &mut Store,
    w: WidgetId,
    dispatch: &Dispatch,
) -> Result<CellId, Memory>
    requires { IsFine w.index store.old.cells dispatch.now.value }
    ensures born { IfOk result (λ e. (p : PageTree) → Changes w.index store.old store.new p
        (born (plain_object (pairs_with dispatch.now.kind Nothing Nothing
        (seen w.index store.old.cells dispatch.now.value))) (object_cost 5))) }
    ensures next { IfOk result (λ e. (p : PageTree) → IsNext w.index store.old store.new p e) }
    ensures held { IfOk result (λ e. IsHeld w.index store.new.cells e) }
    ensures kept { (fs : List Forest) → Kept fs w.index store.old store.new }
{
    lawful(store);
    let proto = store.host(HostEntry::ObjectPrototype);
    let bubble = store.host(HostEntry::Native(NativeId::Bubble));
    let pairs = event_pairs(alloc, dispatch, bubble)?;
    made(make(alloc, store, w.index, NewCell::ObjectWith { proto, pairs })?)
}

// The Bunch of one node.
fn make_bunch_of(
    alloc: Global,
    store: &mut Store,
    w: WidgetId,
    page: &Page,
    node: NodeId,
) -> Result<CellId, Memory>
    requires sound { (l : Loop) × IsSound w.index store.old page.now l }
    requires own { owns page.now w.index node ≡ true }
    ensures born { IfOk result
        (λ e. Changes w.index store.old store.new page.now
        (born (new_bunch (number page.now w.index node ∷ [])) (object_cost 2))) }
    ensures next { IfOk result (λ e. IsNext w.index store.old store.new page.now e) }
    ensures held { IfOk result (λ e. IsHeld w.index store.new.cells e) }
    ensures sound { (l : Loop) → IsSound w.index store.old page.now l → IsSound w.index store.new page.now l }
    ensures kept { KeepsStore w.index store.old store.new }
{
    let mut nodes = Vec::new(alloc);
    nodes.push(node)?;
    made(make_bunch(alloc, store, w, page, nodes)?)
}

// A Bunch under a name that an event object has.
fn fill(
    store: &mut Store,
    w: WidgetId,
    event: CellId,
    name: &Text,
    bunch: CellId,
) -> Result<(), Memory>
    requires event { IsHeld w.index store.old.cells event }
    requires bunch { IsHeld w.index store.old.cells bunch }
    ensures filled { OnOk result
        ((p : PageTree) (fs : List Forest) (x : Outside) (l : Loop) (b : Option Bool) (n : ℕ) (ps : Pairs)
        → IsSound w.index store.old p l → seen w.index store.old.cells (value.Ref event) ≡ Own n
        → cell_at (image fs x w.index (beside store.old p l b)) n ≡ plain_object ps → is_some (lookup ps name.now) ≡ true
        → with_cell (image fs x w.index (beside store.old p l b)) n
        (plain_object (replaced ps name.now (seen w.index store.old.cells (value.Ref bunch))))
        ≡ image fs x w.index (beside store.new p l b)) }
    ensures kept { (fs : List Forest) → Kept fs w.index store.old store.new }
{
    done(put(store, w.index, &Value::Ref(event), name, Value::Ref(bunch))?)
}

/// The event object of a dispatch at a node, with its Bunches; that it can be paid is known before.
pub(crate) fn make_event(
    alloc: Global,
    store: &mut Store,
    w: WidgetId,
    page: &Page,
    dispatch: &Dispatch,
    node: NodeId,
) -> Result<CellId, Memory>
    requires sound { (l : Loop) × IsSound w.index store.old page.now l }
    requires dispatch { FineDispatch w.index store.old.cells page.now dispatch.now }
    requires own { owns page.now w.index node ≡ true }
    ensures born { IfOk result (λ e. Changes w.index store.old store.new page.now
        (λ s. with_event (with_counts s (costs.sum s.own.counts event_cost)) dispatch.now.kind
        (number page.now w.index dispatch.now.target) (number page.now w.index node)
        (seen w.index store.old.cells dispatch.now.value))) }
    ensures next { IfOk result (λ e. IsNext w.index store.old store.new page.now e) }
    ensures held { IfOk result (λ e. IsHeld w.index store.new.cells e) }
    ensures sound { (l : Loop) → IsSound w.index store.old page.now l → IsSound w.index store.new page.now l }
    ensures kept { KeepsStore w.index store.old store.new }
{
    let first = word(alloc, b"target")?;
    let second = word(alloc, b"that")?;
    let event = make_object(alloc, store, w, dispatch)?;
    let target = make_bunch_of(alloc, store, w, page, dispatch.target)?;
    let that = make_bunch_of(alloc, store, w, page, node)?;
    fill(store, w, event, &first, target)?;
    fill(store, w, event, &second, that)?;
    Ok(event)
}
