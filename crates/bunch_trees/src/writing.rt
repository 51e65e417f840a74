//! A node gets a value: an `input` its attribute `value`, a text node its text, another element a text node
//! in place of its
//! children.
ghost use Rattle.std.specs.Prelude.{◌≡◌, ◌<◌, ℕ, codes, true, OnOk, length, map};
ghost use Rattle.std.specs.List.{fold};
ghost use Rattle.plain_tree.specs.Plains.{unplaced};
ghost use Rattle.plain_tree.specs.Trees.{End, Node, TextOf};
ghost use Rattle.query_grammar.specs.Finds.{has_number};
ghost use Rattle.widget_meaning.specs.BunchWrites.{emptied, valued, with_text_node};
ghost use Rattle.event_loop.specs.declared.around.Loop.{Loop};
ghost use Rattle.page_image.specs.Image.{number, owns};
ghost use Rattle.native_image.specs.Sound.{HoldsOwn, IsSound, KeepsAll};
ghost use Rattle.bunch_trees.specs.Changes.{Changes};

use crate::copying::put_under;
use bunch_attributes::{is_input, is_text_node};
use code_units::{Memory, Text};
use native_common::WidgetId;
use native_image::add_tree;
use object_store::Store;
use page_image::{empty, set_attr, set_text};
use page_tree::{NodeId, Page};
use plain_tree::Plain;
use std::alloc::Global;

/// A value that nodes get, and the name of the attribute of those that have one for it.
#[derive(Drop)]
pub struct Given {
    pub name: Text,
    pub text: Text,
}

/// A text node.
pub fn text_tree(text: Text) -> Plain
    ensures { unplaced result ≡ Node tt (TextOf text) End End }
{
    Plain::Text { text, at: 0 }
}

// A new text node behind the last child of a node.
fn put_text(
    alloc: Global,
    store: &mut Store,
    page: &mut Page,
    w: WidgetId,
    node: NodeId,
    text: Text,
) -> Result<(), Memory>
    requires sound { (l : Loop) × IsSound w.index store.old page.old l }
    requires own { owns page.old w.index node ≡ true }
    requires some { 0 < length text }
    ensures done { OnOk result
        (Changes w.index store.old store.new page.old page.new (with_text_node (number page.old w.index node) text)) }
    ensures kept { (l : Loop) → HoldsOwn w.index store.old page.old l → KeepsAll w.index store.old store.new page.old page.new l }
{
    let plain = text_tree(text);
    let id = add_tree(alloc, store, page, w, &plain)?;
    put_under(page, w, node, &[id])
}

// A text in place of what is below an element; none of the empty text.
fn fill(
    alloc: Global,
    store: &mut Store,
    page: &mut Page,
    w: WidgetId,
    node: NodeId,
    text: &Text,
) -> Result<(), Memory>
    requires sound { (l : Loop) × IsSound w.index store.old page.old l }
    requires own { owns page.old w.index node ≡ true }
    ensures done { OnOk result (Changes w.index store.old store.new page.old page.new
        (λ s. with_text_node (number page.old w.index node) text.now (emptied s (number page.old w.index node)))) }
    ensures kept { (l : Loop) → HoldsOwn w.index store.old page.old l → KeepsAll w.index store.old store.new page.old page.new l }
{
    empty(page, w.index, node);
    if text.units().is_empty() {
        return Ok(());
    }
    let text = text.share()?;
    put_text(alloc, store, page, w, node, text)
}

// A node gets a value.
fn give(
    alloc: Global,
    store: &mut Store,
    page: &mut Page,
    w: WidgetId,
    node: NodeId,
    given: &Given,
) -> Result<(), Memory>
    requires sound { (l : Loop) × IsSound w.index store.old page.old l }
    requires own { owns page.old w.index node ≡ true }
    requires name { given.now.name ≡ codes "value" }
    ensures done { OnOk result (Changes w.index store.old store.new page.old page.new
        (λ s. valued given.now.text s (number page.old w.index node))) }
    ensures kept { (l : Loop) → HoldsOwn w.index store.old page.old l → KeepsAll w.index store.old store.new page.old page.new l }
{
    if is_input(node, w, page) {
        let text = given.text.share()?;
        return set_attr(page, w.index, node, &given.name, Some(text));
    }
    if is_text_node(node, w, page) {
        let text = given.text.share()?;
        set_text(page, w.index, node, text);
        return Ok(());
    }
    fill(alloc, store, page, w, node, &given.text)
}

/// Each node gets a value, one after the other.
pub(crate) fn give_all(
    alloc: Global,
    store: &mut Store,
    page: &mut Page,
    w: WidgetId,
    nodes: &[NodeId],
    given: &Given,
) -> Result<(), Memory>
    requires sound { (l : Loop) × IsSound w.index store.old page.old l }
    requires own { (n : ℕ) → has_number nodes.now n ≡ true → owns page.old w.index n ≡ true }
    requires name { given.now.name ≡ codes "value" }
    ensures done { OnOk result (Changes w.index store.old store.new page.old page.new
        (λ s. fold (valued given.now.text) s (map (number page.old w.index) nodes.now))) }
    ensures kept { (l : Loop) → HoldsOwn w.index store.old page.old l → KeepsAll w.index store.old store.new page.old page.new l }
{
    'each: for node in nodes {
        give(alloc, store, page, w, *node, given)?;
    }
    Ok(())
}
