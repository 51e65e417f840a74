//! The node that listens, and the dispatch there.
ghost use Rattle.std.specs.Prelude.{◌≡◌, ℕ, ◌<◌, List, Option, Bool, IfOk, IfSome, Some, length, true};
ghost use Rattle.std.specs.List.{AllByRecursion};
ghost use Rattle.js_tree.specs.Forest.{Forest};
ghost use Rattle.store_cells.specs.Cells.{Cells};
ghost use Rattle.query_grammar.specs.Renumbering.{renumbered};
ghost use Rattle.widget_meaning.specs.Dispatch as meaning;
ghost use Rattle.widget_meaning.specs.OwnState.{State};
ghost use Rattle.event_loop.specs.Deliveries.{found_of};
ghost use Rattle.event_loop.specs.declared.around.Loop.{Loop as LoopOf};
ghost use Rattle.page_image.specs.Held.{OptionIn};
ghost use Rattle.page_image.specs.Image.{HasRoot, number, owns, root_of};
ghost use Rattle.page_image.specs.Around.{Shows, own_found};
ghost use Rattle.js_image.specs.Image.{seen};
ghost use Rattle.native_image.specs.Image.{Outside, beside, image};
ghost use Rattle.native_image.specs.Sound.{HoldsOwn, IsOwnCell, IsSound, KeepsStore};
ghost use Rattle.turn_dispatch.specs.Held.{FineDispatch, FineHeard};
ghost use Rattle.turn_dispatch.specs.Levels.{searched_plan};

use crate::hearing::hear;
use crate::level::{Dispatch, Heard};
use crate::site::Site;
use code_units::{Memory, Owner, Text};
use event_loop::Loop;
use native_image::WidgetId;
use object_store::{CellId, Store};
use page_tree::{NodeId, Page};
use std::alloc::Global;

// The root of a widget.
fn root_of(page: &Page, w: WidgetId) -> NodeId
    requires { HasRoot page.now w.index }
    ensures { root_of page.now w.index ≡ Some result }
{
    match page.root_of(Owner::Widget(w.index)) {
        Some(root) => root,
        None => unreachable!(),
    }
}

/// The nearest node at or above one that listens to a type, with its functions in order: they are the
/// widget's, and there are some.
pub fn listeners(
    alloc: Global,
    w: WidgetId,
    page: &Page,
    around: &Loop,
    node: Option<NodeId>,
    kind: &Text,
) -> Result<Option<(NodeId, Vec<CellId>)>, Memory>
    requires home { HasRoot page.now w.index }
    requires own { OptionIn (owns page.now w.index) node }
    ensures image { IfOk result (λ found. (g : ℕ → ℕ) (s : State) → Shows page.now w.index g around.now s.own
        → own_found (number page.now w.index) g (found_of found)
        ≡ meaning.nearest s (renumbered (number page.now w.index) node) kind.now) }
    ensures own { IfOk result (λ found. (s : Cells) → HoldsOwn w.index s page.now around.now
        → IfSome found (λ at. (owns page.now w.index at.0 ≡ true) × AllByRecursion (IsOwnCell w.index s.cells) at.1.items
        × (0 < length at.1.items))) }
{
    around.nearest(alloc, page, root_of(page, w), node, kind)
}

/// Begins a dispatch at the nearest node, at or above one, that listens; none where no node does.
pub(crate) fn search(
    alloc: Global,
    store: &mut Store,
    site: &Site,
    dispatch: Dispatch,
    from: Option<NodeId>,
) -> Result<Option<Heard>, Memory>
    requires sound { IsSound site.now.id.index store.old site.now.page.now site.now.around.now }
    requires dispatch { FineDispatch site.now.id.index store.old.cells site.now.page.now dispatch }
    requires own { OptionIn (owns site.now.page.now site.now.id.index) from }
    ensures plan { let w = site.now.id.index in let p = site.now.page.now in let l = site.now.around.now in
        IfOk result (λ o. (fs : List Forest) (x : Outside) (b : Option Bool)
        → meaning.search_from (renumbered (number p w) from) dispatch.kind (number p w dispatch.target)
        (seen w store.old.cells dispatch.value) dispatch.depth (image fs x w (beside store.old p l b))
        ≡ searched_plan w store.new.cells p o (image fs x w (beside store.new p l b))) }
    ensures fine { IfOk result (λ o. IfSome o (FineHeard site.now.id.index store.new.cells site.now.page.now)) }
    ensures sound { (l : LoopOf) → IsSound site.now.id.index store.old site.now.page.now l
        → IsSound site.now.id.index store.new site.now.page.now l }
    ensures kept { KeepsStore site.now.id.index store.old store.new }
{
    match listeners(alloc, site.id, site.page, site.around, from, &dispatch.kind)? {
        None => Ok(None),
        Some(at) => Ok(Some(hear(alloc, store, site.id, site.page, dispatch, at)?)),
    }
}
