//! Document order.
ghost use Rattle.std.specs.Prelude.{◌≡◌, ℕ, ◌<◌, ◌++◌, [], ◌∷◌, true, length, OnOk, IfOk, IfSome, option_to_list};
ghost use Rattle.std.specs.List.{filter, flat_map};
ghost use Rattle.page_tree.specs.Owners.{is_owner};
ghost use Rattle.page_tree.specs.Pages.{nodes, root};
ghost use Rattle.page_tree.specs.Documents.{within, is_loose};
ghost use Rattle.query_walks.specs.Finds.{in_order};
ghost use Rattle.query_grammar.specs.Finds.{has_number};
ghost use Rattle.query_walks.specs.Walks.{takes, TakesOf, MissesNone, AreNodes, IsClosed, AreTops};

use crate::marks::{Marks, Risen};
use crate::wanted::Wanted;
use code_units::{Memory, Owner};
use page_tree::{NodeId, Page, is_number, same_owner};
use std::alloc::Global;

// Puts a node and all above it into a set that has all above its nodes, and the top into a second
// set.
fn mark_up(page: &Page, node: NodeId, above: &mut Marks, tops: &mut Risen) -> Result<(), Memory>
    requires node { node < length (nodes page.now) }
    requires closed { IsClosed page.now above.old }
    requires nodes { AreNodes page.now above.old }
    requires tops { AreTops page.now above.old tops.old }
    ensures closed { OnOk result (IsClosed page.now above.new) }
    ensures nodes { OnOk result (AreNodes page.now above.new) }
    ensures tops { OnOk result (AreTops page.now above.new tops.new) }
    ensures node { OnOk result (has_number above.new node ≡ true) }
    ensures more { OnOk result ((n : ℕ) → has_number above.old n ≡ true → has_number above.new n ≡ true) }
{
    let mut place = node;
    'up: while above.add(place)? {
        match page.parent(place) {
            Some(parent) => place = parent,
            None => {
                tops.add(place)?;
                return Ok(());
            }
        }
    }
    Ok(())
}

// Whether a node is the top of a detached tree of the owner.
fn is_loose(page: &Page, root: Option<NodeId>, owner: Owner, node: NodeId) -> bool
    requires { node < length (nodes page.now) }
    ensures { result ≡ is_loose (nodes page.now) root owner node }
{
    same_owner(page.owner(node), owner) && page.parent(node).is_none() && !is_number(node, root)
}

// What a walk takes of the root's tree, if there is one.
fn walk_root(
    page: &Page,
    root: Option<NodeId>,
    wanted: &Wanted,
    list: &mut Vec<NodeId>,
) -> Result<(), Memory>
    requires root { IfSome root (λ r. r < length (nodes page.now)) }
    requires all { MissesNone page.now wanted.now }
    ensures { OnOk result (TakesOf (nodes page.now) wanted.now
        (flat_map (within (nodes page.now)) (option_to_list root))
        list.old.items list.new.items) }
{
    match root {
        Some(root) => wanted.collect(page, root, list),
        None => Ok(()),
    }
}

// What a walk takes of the tree of a top, if it is a detached one of the owner.
fn walk_loose(
    page: &Page,
    root: Option<NodeId>,
    owner: Owner,
    top: NodeId,
    wanted: &Wanted,
    list: &mut Vec<NodeId>,
) -> Result<(), Memory>
    requires top { top < length (nodes page.now) }
    requires all { MissesNone page.now wanted.now }
    ensures { OnOk result (TakesOf (nodes page.now) wanted.now
        (flat_map (within (nodes page.now)) (filter (is_loose (nodes page.now) root owner) (top ∷ [])))
        list.old.items list.new.items) }
{
    if is_loose(page, root, owner, top) {
        return wanted.collect(page, top, list);
    }
    Ok(())
}

// What a walk takes of the owner's trees with these tops.
fn walk_trees(
    alloc: Global,
    page: &Page,
    owner: Owner,
    tops: &[NodeId],
    wanted: &Wanted,
) -> Result<Vec<NodeId>, Memory>
    requires owner { is_owner owner ≡ true }
    requires tops { AreNodes page.now tops.now }
    requires all { MissesNone page.now wanted.now }
    ensures { IfOk result (λ list. list.items ≡ filter (takes (nodes page.now) wanted.now)
        (flat_map (within (nodes page.now))
        (option_to_list (root page.now owner) ++ filter
        (is_loose (nodes page.now) (root page.now owner) owner) tops.now))) }
{
    let mut list = Vec::new(alloc);
    let root = page.root_of(owner);
    walk_root(page, root, wanted, &mut list)?;
    'each: for top in tops {
        walk_loose(page, root, owner, *top, wanted, &mut list)?;
    }
    Ok(list)
}

/// Nodes of an owner in document order and without repeats.
pub fn in_order(
    alloc: Global,
    page: &Page,
    owner: Owner,
    found: &[NodeId],
) -> Result<Vec<NodeId>, Memory>
    requires owner { is_owner owner ≡ true }
    requires nodes { AreNodes page.now found.now }
    ensures { IfOk result (λ list. list.items ≡ in_order (nodes page.now) (root page.now owner) owner found.now) }
{
    let mut marks = Marks::new(alloc);
    let mut above = Marks::new(alloc);
    let mut tops = Risen::new(alloc);
    'each: for node in found {
        marks.add(*node)?;
        mark_up(page, *node, &mut above, &mut tops)?;
    }
    let tops = tops.list(alloc)?;
    walk_trees(alloc, page, owner, &tops, &Wanted::Among(&marks, &above))
}
