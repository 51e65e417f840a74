//! New nodes of one widget. All older nodes keep their numbers, and the trees of all others and what
//! the host has stay.
ghost use Rattle.std.specs.Prelude.{◌≡◌, ℕ, ◌+◌, ◌<◌, [], ◌∷◌, ◌++◌, None, true, map, length, OnOk, OnErr, IfOk, IfErr};
ghost use Rattle.page_tree.specs.declared.fault.PageFault.{PageFault};
ghost use Rattle.plain_tree.specs.Plains.{unplaced};
ghost use Rattle.plain_tree.specs.Trees.{beside, size};
ghost use Rattle.tree_ops.specs.Trees.{subtree, numbered, copied, grafted};
ghost use Rattle.query_grammar.specs.Finds.{has_number};
ghost use Rattle.page_image.specs.Copies.{AreCopied, SomeCopied, trees_at, copies_of};
ghost use Rattle.page_image.specs.Image.{owns, number, own, forest, HasRoot};
ghost use Rattle.page_image.specs.Refusals.{RefusesTree, RefusesCopy, RefusesCopies};
ghost use Rattle.page_image.specs.Stays.{HostStays, KeepsNodes, GrowsBy, OthersStay};
ghost use Rattle.page_image.specs.Targets.{takes};

use crate::changes::append;
use code_units::{Memory, Owner};
use page_tree::{NodeId, Page, PageFault};
use plain_tree::Plain;
use std::alloc::Global;

/// Adds a plain tree of a widget: it stands behind all its other trees, with the next numbers.
pub fn add(alloc: Global, page: &mut Page, widget: u32, plain: &Plain) -> Result<NodeId, PageFault>
    requires { widget < 32 }
    ensures image { OnOk result (forest page.new widget ≡
        beside (forest page.old widget) (numbered (length (own page.old widget)) (unplaced plain.now))) }
    ensures number { IfOk result (λ id. number page.new widget id ≡ length (own page.old widget)) }
    ensures own { IfOk result (λ id. owns page.new widget id ≡ true) }
    ensures grows { OnOk result (GrowsBy page.old page.new widget (size (unplaced plain.now))) }
    ensures refused { IfErr result (RefusesTree (length (own page.old widget)) (unplaced plain.now)) }
    ensures unchanged { OnErr result (forest page.new widget ≡ forest page.old widget) }
    ensures kept { OnErr result (KeepsNodes page.old page.new) }
    ensures others { OthersStay page.old page.new widget }
    ensures host { HostStays page.old page.new }
{
    page.add(alloc, Owner::Widget(widget), plain)
}

/// Adds a copy of a widget's node, with all below it and without ids, as `add` does.
pub fn copy(alloc: Global, page: &mut Page, widget: u32, node: NodeId) -> Result<NodeId, PageFault>
    requires { owns page.old widget node ≡ true }
    ensures image { OnOk result (forest page.new widget ≡ beside (forest page.old widget)
        (numbered (length (own page.old widget))
        (copied (subtree (number page.old widget node) (forest page.old widget))))) }
    ensures number { IfOk result (λ id. number page.new widget id ≡ length (own page.old widget)) }
    ensures own { IfOk result (λ id. owns page.new widget id ≡ true) }
    ensures grows { OnOk result (GrowsBy page.old page.new widget
        (size (subtree (number page.old widget node) (forest page.old widget)))) }
    ensures refused { IfErr result (RefusesCopy (length (own page.old widget))
        (size (subtree (number page.old widget node) (forest page.old widget)))) }
    ensures unchanged { OnErr result (forest page.new widget ≡ forest page.old widget) }
    ensures kept { OnErr result (KeepsNodes page.old page.new) }
    ensures others { OthersStay page.old page.new widget }
    ensures host { HostStays page.old page.new }
{
    page.copy(alloc, node)
}

// Puts a number behind a list.
fn keep(list: &mut Vec<NodeId>, id: NodeId) -> Result<(), Memory>
    ensures { OnOk result (list.new.items ≡ list.old.items ++ id ∷ []) }
{
    list.push(id)?;
    Ok(())
}

// Adds a copy of each of these nodes of a widget, one after the other.
fn copy_all(
    alloc: Global,
    page: &mut Page,
    widget: u32,
    nodes: &[NodeId],
) -> Result<Vec<NodeId>, PageFault>
    requires { (n : ℕ) → has_number nodes.now n ≡ true → owns page.old widget n ≡ true }
    ensures copied { IfOk result (λ ids. AreCopied page.old page.new widget nodes.now ids.items) }
    ensures refused { IfErr result (RefusesCopies (length (own page.old widget))
        (size (trees_at page.old widget nodes.now))) }
    ensures left { OnErr result (SomeCopied page.old page.new widget nodes.now) }
    ensures others { OthersStay page.old page.new widget }
    ensures host { HostStays page.old page.new }
{
    let mut ids = Vec::new(alloc);
    'each: for node in nodes {
        let id = copy(alloc, page, widget, *node)?;
        keep(&mut ids, id)?;
    }
    Ok(ids)
}

/// Adds copies of nodes of a widget, each with all below it and without ids, as the last children of
/// a target, in order. Where the target takes the nodes, it is refused for want of memory or for too
/// many nodes alone. Refused, it may leave copies of the first of them as detached trees.
pub fn append_copies(
    alloc: Global,
    page: &mut Page,
    widget: u32,
    target: NodeId,
    nodes: &[NodeId],
) -> Result<(), PageFault>
    requires home { HasRoot page.old widget }
    requires target { owns page.old widget target ≡ true }
    requires nodes { (n : ℕ) → has_number nodes.now n ≡ true → owns page.old widget n ≡ true }
    ensures image { OnOk result (forest page.new widget ≡
        grafted (number page.old widget target) None (copies_of page.old widget nodes.now) (forest page.old widget)) }
    ensures grows { OnOk result (GrowsBy page.old page.new widget (size (trees_at page.old widget nodes.now))) }
    ensures refused { IfErr result (λ f.
        takes (forest page.old widget) (map (number page.old widget) nodes.now) (number page.old widget target) ≡ true →
        RefusesCopies (length (own page.old widget)) (size (trees_at page.old widget nodes.now)) f) }
    ensures left { OnErr result (SomeCopied page.old page.new widget nodes.now) }
    ensures others { OthersStay page.old page.new widget }
    ensures host { HostStays page.old page.new }
{
    let ids = copy_all(alloc, page, widget, nodes)?;
    append(page, widget, target, &ids)
}
