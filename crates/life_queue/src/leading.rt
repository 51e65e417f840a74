//! The node to which the path of an event leads.
ghost use Rattle.std.specs.Prelude.{◌≡◌, Some, option_and_then, slice_get};
ghost use Rattle.query_grammar.specs.Renumbering.{renumbered};
ghost use Rattle.widget_meaning.specs.Trees.{node_at};
ghost use Rattle.page_nodes.specs.Entries.{at};
ghost use Rattle.page_tree.specs.Pages.{nodes};
ghost use Rattle.page_image.specs.Held.{OptionIn};
ghost use Rattle.page_image.specs.Image.{HasRoot, forest, number, owns, root_of};

use code_units::Owner;
use native_image::WidgetId;
use page_tree::{NodeId, Page};

// The root of a widget.
fn root_of(page: &Page, id: WidgetId) -> NodeId
    requires { HasRoot page.now id.index }
    ensures { root_of page.now id.index ≡ Some result }
{
    match page.root_of(Owner::Widget(id.index)) {
        Some(root) => root,
        None => unreachable!(),
    }
}

// The child of a node at a place.
fn child_of(page: &Page, w: u32, place: Option<NodeId>, step: u32) -> Option<NodeId>
    requires own { OptionIn (owns page.now w) place }
    ensures child { result ≡ option_and_then (λ m. slice_get (at (nodes page.now) m).children step) place }
    ensures own { OptionIn (owns page.now w) result }
{
    match place {
        Some(node) => page.child(node, step),
        None => None,
    }
}

/// The node of a widget to which child positions lead from its root, none where they lead to none.
pub(crate) fn target(page: &Page, id: WidgetId, path: &[u32]) -> Option<NodeId>
    requires { HasRoot page.now id.index }
    ensures image { renumbered (number page.now id.index) result ≡ node_at (forest page.now id.index) path.now }
    ensures own { OptionIn (owns page.now id.index) result }
{
    let root = root_of(page, id);
    let mut place = Some(root);
    'each: for step in path {
        place = child_of(page, id.index, place, *step);
    }
    place
}
