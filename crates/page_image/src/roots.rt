//! A tree of a widget becomes its root's. The trees of all others stay.
ghost use Rattle.std.specs.Prelude.{◌≡◌, ◌<◌, None, true, OnOk, OnErr};
ghost use Rattle.plain_tree.specs.Trees.{beside};
ghost use Rattle.query_grammar.specs.Finds.{has_number};
ghost use Rattle.tree_ops.specs.Trees.{subtree, without};
ghost use Rattle.widget_meaning.specs.Trees.{tops};
ghost use Rattle.page_image.specs.Image.{owns, number, forest, root_of, is_shown};
ghost use Rattle.page_image.specs.Stays.{KeepsNodes, GetsRoot, OthersStay};

use code_units::Memory;
use page_nodes::BODY;
use page_tree::{NodeId, Page, is_number};

/// Whether a widget's node stands under the host's `body`, as a root does that was not swapped out.
pub fn is_shown(page: &Page, widget: u32, node: NodeId) -> bool
    requires { owns page.now widget node ≡ true }
    ensures { result ≡ is_shown page.now node }
{
    is_number(BODY, page.parent(node))
}

/// Puts a tree of a widget that has no root behind the last child of the host's `body`: it becomes
/// the root's, the first of the widget's trees.
pub fn adopt(page: &mut Page, widget: u32, node: NodeId) -> Result<(), Memory>
    requires own { owns page.old widget node ≡ true }
    requires top { has_number (tops (forest page.old widget)) (number page.old widget node) ≡ true }
    requires free { root_of page.old widget ≡ None }
    ensures image { OnOk result (forest page.new widget ≡ beside
        (subtree (number page.old widget node) (forest page.old widget))
        (without (number page.old widget node) (forest page.old widget))) }
    ensures becomes { OnOk result (GetsRoot page.old page.new widget node) }
    ensures shown { OnOk result (is_shown page.new node ≡ true) }
    ensures unchanged { OnErr result (forest page.new widget ≡ forest page.old widget) }
    ensures kept { OnErr result (KeepsNodes page.old page.new) }
    ensures others { OthersStay page.old page.new widget }
{
    page.adopt(node)
}
