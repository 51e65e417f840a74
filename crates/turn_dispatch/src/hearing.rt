//! How a dispatch begins at a node.
ghost use Rattle.std.specs.Prelude.{◌≡◌, ◌<◌, List, Option, Bool, IfOk, length, map, true};
ghost use Rattle.std.specs.List.{AllByRecursion};
ghost use Rattle.js_tree.specs.Forest.{Forest};
ghost use Rattle.store_cells.specs.Cells.{own_count};
ghost use Rattle.widget_meaning.specs.Costs as costs;
ghost use Rattle.widget_meaning.specs.Costs.{with_counts};
ghost use Rattle.widget_meaning.specs.Dispatch as meaning;
ghost use Rattle.widget_meaning.specs.Dispatch.{event_cost};
ghost use Rattle.widget_meaning.specs.OwnState.{State};
ghost use Rattle.widget_meaning.specs.Plan.{Plan};
ghost use Rattle.event_loop.specs.declared.around.Loop.{Loop};
ghost use Rattle.page_image.specs.Image.{number, owns};
ghost use Rattle.js_image.specs.Image.{Rest, image as store_image, seen};
ghost use Rattle.native_image.specs.Image.{Outside, beside, image};
ghost use Rattle.native_image.specs.Sound.{IsOwnCell, IsSound, KeepsStore};
ghost use Rattle.turn_dispatch.specs.Held.{FineDispatch, FineHeard, FineHearing};
ghost use Rattle.turn_dispatch.specs.Levels.{heard_plan};

use crate::events::{make_event, refusal};
use crate::level::{Dispatch, Heard, Hearing};
use code_units::Memory;
use native_image::WidgetId;
use object_store::{CellId, Store};
use page_tree::{NodeId, Page};
use std::alloc::Global;

// The event object of a dispatch, which can be paid, is made, and the first function is called next.
fn announce(
    alloc: Global,
    store: &mut Store,
    w: WidgetId,
    page: &Page,
    dispatch: Dispatch,
    at: (NodeId, Vec<CellId>),
) -> Result<Box<Hearing>, Memory>
    requires sound { (l : Loop) × IsSound w.index store.old page.now l }
    requires dispatch { FineDispatch w.index store.old.cells page.now dispatch }
    requires own { owns page.now w.index at.0 ≡ true }
    requires functions { AllByRecursion (IsOwnCell w.index store.old.cells) at.1.items }
    requires some { 0 < length at.1.items }
    requires paid { (fs : List Forest) (r : Rest) (k : State → Plan)
        → costs.pay event_cost (store_image fs r w.index store.old) k
        ≡ k (with_counts (store_image fs r w.index store.old)
        (costs.sum (store_image fs r w.index store.old).own.counts event_cost)) }
    ensures plan { IfOk result (λ h. (fs : List Forest) (x : Outside) (l : Loop) (b : Option Bool)
        → IsSound w.index store.old page.now l
        → meaning.hear dispatch.kind (number page.now w.index dispatch.target)
        (seen w.index store.old.cells dispatch.value) dispatch.depth (number page.now w.index at.0)
        (map (own_count w.index store.old.cells) at.1.items) (image fs x w.index (beside store.old page.now l b))
        ≡ heard_plan w.index store.new.cells page.now (Heard.Calls h) (image fs x w.index (beside store.new page.now l b))) }
    ensures fine { IfOk result (λ h. FineHearing w.index store.new.cells page.now h.value) }
    ensures sound { (l : Loop) → IsSound w.index store.old page.now l → IsSound w.index store.new page.now l }
    ensures kept { KeepsStore w.index store.old store.new }
{
    let (node, handlers) = at;
    let event = make_event(alloc, store, w, page, &dispatch, node)?;
    let hearing = Hearing {
        dispatch,
        node,
        event,
        handlers,
    };
    Ok(Box::new(alloc, hearing)?)
}

/// Begins a dispatch at a node of a widget, to its functions that listen, of which there are some: the
/// event object is paid and made, and the first function is called next; or the widget stops.
pub fn hear(
    alloc: Global,
    store: &mut Store,
    w: WidgetId,
    page: &Page,
    dispatch: Dispatch,
    at: (NodeId, Vec<CellId>),
) -> Result<Heard, Memory>
    requires sound { (l : Loop) × IsSound w.index store.old page.now l }
    requires dispatch { FineDispatch w.index store.old.cells page.now dispatch }
    requires own { owns page.now w.index at.0 ≡ true }
    requires functions { AllByRecursion (IsOwnCell w.index store.old.cells) at.1.items }
    requires some { 0 < length at.1.items }
    ensures plan { IfOk result (λ h. (fs : List Forest) (x : Outside) (l : Loop) (b : Option Bool)
        → IsSound w.index store.old page.now l
        → meaning.hear dispatch.kind (number page.now w.index dispatch.target)
        (seen w.index store.old.cells dispatch.value) dispatch.depth (number page.now w.index at.0)
        (map (own_count w.index store.old.cells) at.1.items) (image fs x w.index (beside store.old page.now l b))
        ≡ heard_plan w.index store.new.cells page.now h (image fs x w.index (beside store.new page.now l b))) }
    ensures fine { IfOk result (λ h. FineHeard w.index store.new.cells page.now h) }
    ensures sound { (l : Loop) → IsSound w.index store.old page.now l → IsSound w.index store.new page.now l }
    ensures kept { KeepsStore w.index store.old store.new }
{
    match refusal(store, w) {
        Some(cause) => Ok(Heard::Stop(cause)),
        None => Ok(Heard::Calls(announce(alloc, store, w, page, dispatch, at)?)),
    }
}
