//! Where an event goes, at a widget's own state.
ghost use Rattle.std.specs.Prelude.{◌≡◌, ℕ, ◌<◌, Some, IfOk};
ghost use Rattle.query_grammar.specs.Renumbering.{renumbered};
ghost use Rattle.widget_meaning.specs.Dispatch.{nearest};
ghost use Rattle.widget_meaning.specs.OwnState.{State};
ghost use Rattle.event_loop.specs.Deliveries.{found_of, delivered_of};
ghost use Rattle.page_image.specs.Held.{OptionIn};
ghost use Rattle.page_image.specs.Image.{owns, number, root_of, HasRoot};
ghost use Rattle.page_image.specs.Around.{Shows, own_found, own_goes, goes};

use code_units::{Memory, Owner, Text};
use event_loop::{Delivered, Event, Loop};
use page_tree::{NodeId, Page};
use std::alloc::Global;

// The root of a widget.
fn root_of(page: &Page, widget: u32) -> NodeId
    requires widget { widget < 32 }
    requires home { HasRoot page.now widget }
    ensures { root_of page.now widget ≡ Some result }
{
    match page.root_of(Owner::Widget(widget)) {
        Some(root) => root,
        None => unreachable!(),
    }
}

/// The nearest node that listens to a type, with its functions in order of listening: a widget's node
/// or one above it.
pub fn nearest(
    around: &Loop,
    alloc: Global,
    page: &Page,
    widget: u32,
    node: Option<NodeId>,
    kind: &Text,
) -> Result<Option<(NodeId, Vec<u32>)>, Memory>
    requires widget { widget < 32 }
    requires home { HasRoot page.now widget }
    requires own { OptionIn (owns page.now widget) node }
    ensures { (g : ℕ → ℕ) (s : State) → Shows page.now widget g around.now s.own → IfOk result (λ found.
        own_found (number page.now widget) g (found_of found)
        ≡ nearest s (renumbered (number page.now widget) node) kind.now) }
{
    around.nearest(alloc, page, root_of(page, widget), node, kind)
}

/// Where an event goes: `Gone` where the widget has stopped; else `Miss` where the path leads to no
/// node; else `Silent` where no node at or above it listens to the type; else to the nearest that does.
pub fn deliver(
    around: &Loop,
    alloc: Global,
    page: &Page,
    widget: u32,
    stopped: bool,
    event: &Event,
) -> Result<Delivered, Memory>
    requires widget { widget < 32 }
    requires home { HasRoot page.now widget }
    ensures { (g : ℕ → ℕ) (s : State) → Shows page.now widget g around.now s.own → IfOk result (λ d.
        own_goes (number page.now widget) g (delivered_of d) ≡ goes s stopped event.now.path.items event.now.kind) }
{
    around.deliver(alloc, page, root_of(page, widget), stopped, event)
}
