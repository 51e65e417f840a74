//! How many nodes stand at and below nodes, and the units of copies of them.
ghost use Rattle.std.specs.Prelude.{◌≡◌, ◌+◌, ℕ, Some, codes, length, min, ◌-◌, ◌^◌, sum_by, true};
ghost use Rattle.plain_tree.specs.Trees.{Label, size};
ghost use Rattle.tree_ops.specs.Labels.{without_value};
ghost use Rattle.tree_ops.specs.Trees.{subtree};
ghost use Rattle.query_grammar.specs.Finds.{has_number};
ghost use Rattle.widget_meaning.specs.PageForms.{tree_units};
ghost use Rattle.native_common.specs.Numbers.{counted};
ghost use Rattle.page_image.specs.Copies.{trees_at};
ghost use Rattle.page_image.specs.Image.{forest, label_at, number, owns};
ghost use Rattle.bunch_trees.specs.Appends.{label_units};

use code_units::{Text, is_word};
use native_common::{WidgetId, text_len};
use page_image::{children, content};
use page_tree::{Content, NodeId, Page};

/// Nodes, and the units of copies of them, both counted.
#[derive(Clone, Copy, Drop)]
pub struct Extent {
    pub nodes: usize,
    pub units: usize,
}

// The units of the values of attributes but `id`.
fn values_len(attributes: &[(Text, Text)]) -> usize
    ensures { result ≡ counted (sum_by (λ a. length a.1) (without_value (codes "id") attributes.now)) }
{
    let mut units: usize = 0;
    'each: for attribute in attributes {
        if !is_word(&attribute.0, b"id") {
            units = units.saturating_add(text_len(&attribute.1));
        }
    }
    units
}

// The units of a copy of a node by itself.
fn own_units(node: NodeId, w: WidgetId, page: &Page) -> usize
    requires { owns page.now w.index node ≡ true }
    ensures { (l : Label) → label_at page.now w.index node ≡ Some l → result ≡ counted (label_units l) }
{
    match content(page, w.index, node) {
        Content::Text(text) => text_len(text),
        Content::Element(_, attributes) => values_len(attributes),
    }
}

// Two measures together.
fn plus(a: Extent, b: Extent) -> Extent
    ensures nodes { result.nodes ≡ min (a.nodes + b.nodes) (2 ^ 64 - 1) }
    ensures units { result.units ≡ min (a.units + b.units) (2 ^ 64 - 1) }
{
    Extent {
        nodes: a.nodes.saturating_add(b.nodes),
        units: a.units.saturating_add(b.units),
    }
}

/// The measure of a widget's node with what is below it.
pub(crate) fn measure(node: NodeId, w: WidgetId, page: &Page) -> Extent
    requires { owns page.now w.index node ≡ true }
    ensures nodes { result.nodes ≡ counted (size (subtree (number page.now w.index node) (forest page.now w.index))) }
    ensures units { result.units ≡ counted (tree_units (subtree (number page.now w.index node) (forest page.now w.index))) }
{
    let mut all = Extent {
        nodes: 1,
        units: own_units(node, w, page),
    };
    'each: for child in children(page, w.index, node) {
        all = plus(all, measure(*child, w, page));
    }
    all
}

/// The measure of several.
pub(crate) fn measure_all(nodes: &[NodeId], w: WidgetId, page: &Page) -> Extent
    requires { (n : ℕ) → has_number nodes.now n ≡ true → owns page.now w.index n ≡ true }
    ensures nodes { result.nodes ≡ counted (size (trees_at page.now w.index nodes.now)) }
    ensures units { result.units ≡ counted (tree_units (trees_at page.now w.index nodes.now)) }
{
    let mut all = Extent { nodes: 0, units: 0 };
    'each: for node in nodes {
        all = plus(all, measure(*node, w, page));
    }
    all
}
