//! What hunters find, in document order.
ghost use Rattle.std.specs.Prelude.{◌≡◌, ℕ, ◌<◌, ◌++◌, [], ◌∷◌, ◌&&◌, ◌||◌, not, true, false, if◌then◌else◌, length, OnOk, IfOk};
ghost use Rattle.std.specs.List.{filter, flat_map, list_any};
ghost use Rattle.code_units.specs.declared.owner.Owner.TheVariants as owners;
ghost use Rattle.page_tree.specs.Entries.{at};
ghost use Rattle.page_tree.specs.Owners.{is_owner, same_owner};
ghost use Rattle.page_tree.specs.Pages.{nodes, root};
ghost use Rattle.tree_ops.specs.Trees.{is_number};
ghost use Rattle.query_grammar.specs.declared.query.Hunter.TheVariants as hunter;
ghost use Rattle.query_walks.specs.Nodes.{is_element};
ghost use Rattle.page_tree.specs.Documents.{below, parent_within};
ghost use Rattle.query_walks.specs.Finds.{is_tagged, hunted, in_order};
ghost use Rattle.query_grammar.specs.Finds.{has_number};
ghost use Rattle.query_walks.specs.Walks.{AreNodes, AreHunted, AreHuntedOf, MissesNone, takes, is_one_of, is_start, next_ones};

use crate::marks::{Marks, Risen};
use crate::named::all_named;
use crate::nodes::is_element;
use crate::order::in_order;
use crate::wanted::{Wanted, child_at};
use code_units::{Memory, Owner, Text};
use page_tree::{NodeId, Page, is_number, same_owner};
use query_grammar::Hunter;
use std::alloc::Global;

// The parent under which a node has siblings. The root has none.
fn parent_within(page: &Page, root: Option<NodeId>, node: NodeId) -> Option<NodeId>
    requires { node < length (nodes page.now) }
    ensures { result ≡ parent_within (nodes page.now) root node }
{
    if is_number(node, root) {
        return None;
    }
    page.parent(node)
}

// Puts the parent under which a node has siblings into a set.
fn add_parent(
    page: &Page,
    root: Option<NodeId>,
    node: NodeId,
    parents: &mut Risen,
) -> Result<(), Memory>
    requires { node < length (nodes page.now) }
    ensures { OnOk result ((n : ℕ)
        → has_number parents.new n
        ≡ (is_number n (parent_within (nodes page.now) root node) || has_number parents.old n)) }
{
    match parent_within(page, root, node) {
        Some(parent) => parents.add(parent),
        None => Ok(()),
    }
}

// The parents under which nodes have siblings, each once.
fn parents_of(
    alloc: Global,
    page: &Page,
    root: Option<NodeId>,
    starts: &[NodeId],
) -> Result<Vec<NodeId>, Memory>
    requires { AreNodes page.now starts.now }
    ensures { IfOk result (λ list. (n : ℕ)
        → has_number list.items n ≡ list_any (λ s. is_number n (parent_within (nodes page.now) root s)) starts.now) }
{
    let mut parents = Risen::new(alloc);
    'each: for start in starts {
        add_parent(page, root, *start, &mut parents)?;
    }
    parents.list(alloc)
}

// Whether a node is one of the starts and has siblings.
fn is_start(root: Option<NodeId>, starts: &Marks, node: NodeId) -> bool
    ensures { result ≡ is_start root starts.now node }
{
    starts.has(node) && !is_number(node, root)
}

// Whether a start was met whose next element is still to come, behind this child.
fn is_met(page: &Page, root: Option<NodeId>, starts: &Marks, met: bool, child: NodeId) -> bool
    requires { child < length (nodes page.now) }
    ensures { result ≡ (is_start root starts.now child || (met && not (is_element (nodes page.now) child))) }
{
    is_start(root, starts, child) || (met && !is_element(page, child))
}

// Takes a child if it is an element that comes next behind a start and has a tag.
fn take_next(
    page: &Page,
    tag: &Text,
    met: bool,
    child: NodeId,
    found: &mut Vec<NodeId>,
) -> Result<(), Memory>
    requires { child < length (nodes page.now) }
    ensures { OnOk result (found.new.items
        ≡ found.old.items ++ filter (is_tagged (nodes page.now) tag.now)
        (if met && is_element (nodes page.now) child then child ∷ [] else [])) }
{
    if met && is_element(page, child) {
        return Wanted::Tagged(tag).take(page, child, found);
    }
    Ok(())
}

// Takes the elements with a tag that come next behind starts among the children of a node.
fn collect_next(
    page: &Page,
    root: Option<NodeId>,
    starts: &Marks,
    tag: &Text,
    parent: NodeId,
    found: &mut Vec<NodeId>,
) -> Result<(), Memory>
    requires { parent < length (nodes page.now) }
    ensures { OnOk result (found.new.items
        ≡ found.old.items ++ filter (is_tagged (nodes page.now) tag.now)
        (next_ones (nodes page.now) (is_start root starts.now) false (at (nodes page.now) parent).children)) }
{
    let mut met = false;
    'each: for place in 0..page.width(parent) {
        let child = child_at(page, parent, place);
        take_next(page, tag, met, child, found)?;
        met = is_met(page, root, starts, met, child);
    }
    Ok(())
}

// The same among the children of nodes.
fn collect_all_next(
    alloc: Global,
    page: &Page,
    root: Option<NodeId>,
    starts: &Marks,
    tag: &Text,
    parents: &[NodeId],
) -> Result<Vec<NodeId>, Memory>
    requires { AreNodes page.now parents.now }
    ensures { IfOk result (λ found. found.items
        ≡ flat_map (λ p. filter (is_tagged (nodes page.now) tag.now)
        (next_ones (nodes page.now) (is_start root starts.now) false (at (nodes page.now) p).children)) parents.now) }
{
    let mut found = Vec::new(alloc);
    'each: for parent in parents {
        collect_next(page, root, starts, tag, *parent, &mut found)?;
    }
    Ok(found)
}

// The next elements of nodes that have a tag: one pass over the children of each of their parents.
fn all_next(
    alloc: Global,
    page: &Page,
    root: Option<NodeId>,
    tag: &Text,
    starts: &[NodeId],
) -> Result<Vec<NodeId>, Memory>
    requires { AreNodes page.now starts.now }
    ensures { IfOk result (λ found. AreHunted (nodes page.now) root (hunter.Next tag.now) starts.now found.items) }
{
    let marks = Marks::of(alloc, starts)?;
    let parents = parents_of(alloc, page, root, starts)?;
    collect_all_next(alloc, page, root, &marks, tag, &parents)
}

// What is wanted of the children of nodes, one node after the other.
fn all_children(
    alloc: Global,
    page: &Page,
    wanted: &Wanted,
    starts: &[NodeId],
) -> Result<Vec<NodeId>, Memory>
    requires { AreNodes page.now starts.now }
    ensures { IfOk result (λ found. found.items
        ≡ flat_map (λ n. filter (takes (nodes page.now) wanted.now) (at (nodes page.now) n).children) starts.now) }
{
    let mut found = Vec::new(alloc);
    'each: for start in starts {
        wanted.collect_children(page, *start, &mut found)?;
    }
    Ok(found)
}

// What is wanted below nodes, one node after the other.
fn all_below(
    alloc: Global,
    page: &Page,
    wanted: &Wanted,
    starts: &[NodeId],
) -> Result<Vec<NodeId>, Memory>
    requires nodes { AreNodes page.now starts.now }
    requires all { MissesNone page.now wanted.now }
    ensures { IfOk result (λ found. found.items
        ≡ flat_map (λ n. filter (takes (nodes page.now) wanted.now) (below (nodes page.now) n)) starts.now) }
{
    let mut found = Vec::new(alloc);
    'each: for start in starts {
        wanted.collect_below(page, *start, &mut found)?;
    }
    Ok(found)
}

// What a hunter finds from nodes, in any order, by the links.
fn walk_all(
    alloc: Global,
    page: &Page,
    root: Option<NodeId>,
    hunter: &Hunter,
    starts: &[NodeId],
) -> Result<Vec<NodeId>, Memory>
    requires { AreNodes page.now starts.now }
    ensures { IfOk result (λ found. AreHunted (nodes page.now) root hunter.now starts.now found.items) }
{
    match hunter {
        Hunter::Tag(tag) => all_below(alloc, page, &Wanted::Tagged(tag), starts),
        Hunter::Id(id) => all_below(alloc, page, &Wanted::Named(id), starts),
        Hunter::Child(tag) => all_children(alloc, page, &Wanted::Tagged(tag), starts),
        Hunter::Next(tag) => all_next(alloc, page, root, tag, starts),
        Hunter::Children => all_children(alloc, page, &Wanted::Elements, starts),
        Hunter::All => all_below(alloc, page, &Wanted::Elements, starts),
    }
}

// The same in the trees of an owner.
fn hunt_by_links(
    alloc: Global,
    page: &Page,
    owner: Owner,
    hunter: &Hunter,
    starts: &[NodeId],
) -> Result<Vec<NodeId>, Memory>
    requires owner { is_owner owner ≡ true }
    requires nodes { AreNodes page.now starts.now }
    ensures nodes { IfOk result (λ found. AreNodes page.now found.items) }
    ensures found { IfOk result (λ found. AreHuntedOf page.now owner hunter.now starts.now found.items) }
{
    walk_all(alloc, page, page.root_of(owner), hunter, starts)
}

// What a hunter finds from nodes of a widget, in any order: a node with an `id` by the widget's
// nodes that have it, and up from each.
fn hunt_in_widget(
    alloc: Global,
    page: &Page,
    owner: Owner,
    hunter: &Hunter,
    starts: &[NodeId],
) -> Result<Vec<NodeId>, Memory>
    requires owner { is_owner owner ≡ true }
    requires widget { same_owner owner owners.Host ≡ false }
    requires nodes { AreNodes page.now starts.now }
    ensures nodes { IfOk result (λ found. AreNodes page.now found.items) }
    ensures found { IfOk result (λ found. AreHuntedOf page.now owner hunter.now starts.now found.items) }
{
    match hunter {
        Hunter::Id(id) => all_named(alloc, page, owner, id, starts),
        _ => hunt_by_links(alloc, page, owner, hunter, starts),
    }
}

// What a hunter finds from nodes of an owner, in any order. Nodes outside the owner's trees may be
// left out.
fn hunt_all(
    alloc: Global,
    page: &Page,
    owner: Owner,
    hunter: &Hunter,
    starts: &[NodeId],
) -> Result<Vec<NodeId>, Memory>
    requires owner { is_owner owner ≡ true }
    requires nodes { AreNodes page.now starts.now }
    ensures nodes { IfOk result (λ found. AreNodes page.now found.items) }
    ensures found { IfOk result (λ found. AreHuntedOf page.now owner hunter.now starts.now found.items) }
{
    match owner {
        Owner::Host => hunt_by_links(alloc, page, owner, hunter, starts),
        Owner::Widget(_) => hunt_in_widget(alloc, page, owner, hunter, starts),
    }
}

// Whether nodes are a single one, and the owner's.
fn is_one_of(page: &Page, owner: Owner, list: &[NodeId]) -> bool
    requires { AreNodes page.now list.now }
    ensures { result ≡ is_one_of (nodes page.now) owner list.now }
{
    match list {
        [node] => same_owner(page.owner(*node), owner),
        _ => false,
    }
}

// What a hunter finds from nodes of an owner, put in document order.
fn hunt_and_order(
    alloc: Global,
    page: &Page,
    owner: Owner,
    hunter: &Hunter,
    starts: &[NodeId],
) -> Result<Vec<NodeId>, Memory>
    requires owner { is_owner owner ≡ true }
    requires nodes { AreNodes page.now starts.now }
    ensures { IfOk result (λ list. list.items ≡ in_order (nodes page.now) (root page.now owner) owner
        (flat_map (hunted (nodes page.now) (root page.now owner) hunter.now) starts.now)) }
{
    let found = hunt_all(alloc, page, owner, hunter, starts)?;
    if is_one_of(page, owner, &found) {
        return Ok(found);
    }
    in_order(alloc, page, owner, &found)
}

// The same from one node, where most hunters find in document order.
fn hunt_from_one(
    alloc: Global,
    page: &Page,
    owner: Owner,
    hunter: &Hunter,
    starts: &[NodeId],
) -> Result<Vec<NodeId>, Memory>
    requires owner { is_owner owner ≡ true }
    requires nodes { AreNodes page.now starts.now }
    requires one { is_one_of (nodes page.now) owner starts.now ≡ true }
    ensures { IfOk result (λ list. list.items ≡ in_order (nodes page.now) (root page.now owner) owner
        (flat_map (hunted (nodes page.now) (root page.now owner) hunter.now) starts.now)) }
{
    match hunter {
        Hunter::Tag(tag) => all_below(alloc, page, &Wanted::Tagged(tag), starts),
        Hunter::Child(tag) => all_children(alloc, page, &Wanted::Tagged(tag), starts),
        Hunter::Children => all_children(alloc, page, &Wanted::Elements, starts),
        Hunter::All => all_below(alloc, page, &Wanted::Elements, starts),
        Hunter::Id(_) => hunt_and_order(alloc, page, owner, hunter, starts),
        Hunter::Next(_) => hunt_and_order(alloc, page, owner, hunter, starts),
    }
}

/// What a hunter finds from nodes of an owner, in document order and without repeats.
pub fn hunt_in_order(
    alloc: Global,
    page: &Page,
    owner: Owner,
    hunter: &Hunter,
    starts: &[NodeId],
) -> Result<Vec<NodeId>, Memory>
    requires owner { is_owner owner ≡ true }
    requires nodes { AreNodes page.now starts.now }
    ensures { IfOk result (λ list. list.items ≡ in_order (nodes page.now) (root page.now owner) owner
        (flat_map (hunted (nodes page.now) (root page.now owner) hunter.now) starts.now)) }
{
    if is_one_of(page, owner, starts) {
        return hunt_from_one(alloc, page, owner, hunter, starts);
    }
    hunt_and_order(alloc, page, owner, hunter, starts)
}
