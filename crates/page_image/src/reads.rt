//! What is read of the page of one widget.
ghost use Rattle.std.specs.Prelude.{◌≡◌, ℕ, ◌<◌, ◌≤◌, Some, None, true, map, length, nat_eq, option_copied, option_and_then};
ghost use Rattle.page_nodes.specs.Entries.{label_of};
ghost use Rattle.query_grammar.specs.Finds.{has_number};
ghost use Rattle.query_grammar.specs.Renumbering.{renumbered};
ghost use Rattle.tree_ops.specs.Labels.{tag_of, text_of, attribute_of};
ghost use Rattle.widget_meaning.specs.Trees.{parent, children, subtrees, tops, depth_of};
ghost use Rattle.page_image.specs.Held.{OptionIn};
ghost use Rattle.page_image.specs.Image.{owns, number, own, forest, label_at, HasRoot};
ghost use Rattle.page_image.specs.Targets.{takes};

use code_units::{Owner, Text};
use page_tree::{Content, NodeId, Page, is_number};

/// Whether a widget's node is its root, which is the first of its nodes.
pub fn is_root(page: &Page, widget: u32, node: NodeId) -> bool
    requires home { HasRoot page.now widget }
    requires own { owns page.now widget node ≡ true }
    ensures { result ≡ nat_eq (number page.now widget node) 0 }
{
    is_number(node, page.root_of(Owner::Widget(widget)))
}

/// The parent of a widget's node, none for a top of its trees.
pub fn parent(page: &Page, widget: u32, node: NodeId) -> Option<NodeId>
    requires { owns page.now widget node ≡ true }
    ensures image { renumbered (number page.now widget) result ≡
        parent (number page.now widget node) (forest page.now widget) }
    ensures own { OptionIn (owns page.now widget) result }
{
    if is_number(node, page.root_of(Owner::Widget(widget))) {
        return None;
    }
    page.parent(node)
}

/// The children of a widget's node.
pub fn children(page: &Page, widget: u32, node: NodeId) -> &[NodeId]
    requires { owns page.now widget node ≡ true }
    ensures image { children (number page.now widget node) (forest page.now widget) ≡
        subtrees (map (number page.now widget) result.now) (forest page.now widget) }
    ensures tops { tops (children (number page.now widget node) (forest page.now widget)) ≡
        map (number page.now widget) result.now }
    ensures own { (n : ℕ) → has_number result.now n ≡ true → owns page.now widget n ≡ true }
{
    page.children(node)
}

/// How many nodes stand above a widget's node in its tree.
pub fn depth(page: &Page, widget: u32, node: NodeId) -> u32
    requires { owns page.now widget node ≡ true }
    ensures { result ≡ depth_of (number page.now widget node) (forest page.now widget) }
{
    page.depth(node) - 1
}

/// What a widget's node is: an element with its tag and its attributes, or a text.
pub fn content(page: &Page, widget: u32, node: NodeId) -> &Content
    requires { owns page.now widget node ≡ true }
    ensures { label_at page.now widget node ≡ Some (label_of result.now) }
{
    page.content(node)
}

/// The tag of an element, none exactly for a text node.
pub fn tag(page: &Page, widget: u32, node: NodeId) -> Option<&Text>
    requires { owns page.now widget node ≡ true }
    ensures { option_copied result ≡ option_and_then tag_of (label_at page.now widget node) }
{
    page.tag(node)
}

/// The text of a text node, none exactly for an element.
pub fn text(page: &Page, widget: u32, node: NodeId) -> Option<&Text>
    requires { owns page.now widget node ≡ true }
    ensures { option_copied result ≡ option_and_then text_of (label_at page.now widget node) }
{
    page.text(node)
}

/// The value of an attribute whose name is an ASCII word, none exactly where the node has none of
/// that name.
pub fn attr_of_word<'a>(page: &'a Page, widget: u32, node: NodeId, word: &[u8]) -> Option<&'a Text>
    requires { owns page.now widget node ≡ true }
    ensures { option_copied result ≡
        option_and_then (attribute_of word.now) (label_at page.now widget node) }
{
    page.attr_of_word(node, word)
}

/// How many nodes a widget has made.
pub fn made(page: &Page, widget: u32) -> u32
    requires { widget < 32 }
    ensures exact { result ≡ length (own page.now widget) }
    ensures few { result ≤ 16384 }
{
    page.made(Owner::Widget(widget))
}

/// Whether a target takes all of these nodes of the widget as its children. It takes no memory.
pub fn may_append(page: &Page, widget: u32, target: NodeId, news: &[NodeId]) -> bool
    requires home { HasRoot page.now widget }
    requires target { owns page.now widget target ≡ true }
    requires news { (n : ℕ) → has_number news.now n ≡ true → owns page.now widget n ≡ true }
    ensures { result ≡
        takes (forest page.now widget) (map (number page.now widget) news.now) (number page.now widget target) }
{
    page.may_append(target, news).is_ok()
}
