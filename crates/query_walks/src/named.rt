//! The nodes of a widget with an `id` that stand below nodes.
ghost use Rattle.std.specs.Prelude.{◌≡◌, ◌<◌, ◌++◌, [], ◌∷◌, true, false, length, OnOk, IfOk};
ghost use Rattle.std.specs.List.{filter};
ghost use Rattle.code_units.specs.declared.owner.Owner.TheVariants as owners;
ghost use Rattle.page_tree.specs.Ids.{with_id};
ghost use Rattle.page_tree.specs.Owners.{is_owner, same_owner};
ghost use Rattle.page_tree.specs.Pages.{nodes};
ghost use Rattle.query_grammar.specs.declared.query.Hunter.TheVariants as hunter;
ghost use Rattle.query_walks.specs.Walks.{AreNodes, AreHuntedOf, below_any};

use crate::marks::Marks;
use code_units::{Memory, Owner, Text};
use page_tree::{NodeId, Page};
use std::alloc::Global;

// Whether a node stands below one of the starts.
fn is_below(page: &Page, starts: &Marks, node: NodeId) -> bool
    requires { node < length (nodes page.now) }
    ensures { result ≡ below_any (nodes page.now) starts.now node }
{
    let mut place = node;
    'up: while let Some(parent) = page.parent(place) {
        if starts.has(parent) {
            return true;
        }
        place = parent;
    }
    false
}

// Takes a node if it stands below one of the starts.
fn take_below(
    page: &Page,
    starts: &Marks,
    node: NodeId,
    found: &mut Vec<NodeId>,
) -> Result<(), Memory>
    requires { node < length (nodes page.now) }
    ensures { OnOk result (found.new.items
        ≡ found.old.items ++ filter (below_any (nodes page.now) starts.now) (node ∷ [])) }
{
    if is_below(page, starts, node) {
        found.push(node)?;
    }
    Ok(())
}

// Those of nodes that stand below one of the starts.
fn collect_below(
    alloc: Global,
    page: &Page,
    starts: &Marks,
    list: &[NodeId],
) -> Result<Vec<NodeId>, Memory>
    requires { AreNodes page.now list.now }
    ensures { IfOk result (λ found. found.items ≡ filter (below_any (nodes page.now) starts.now) list.now) }
{
    let mut found = Vec::new(alloc);
    'each: for node in list {
        take_below(page, starts, *node, &mut found)?;
    }
    Ok(found)
}

/// The nodes of a widget with an `id` that stand below starts: up from each that has it. Nodes
/// outside the widget's trees may be left out.
pub fn all_named(
    alloc: Global,
    page: &Page,
    owner: Owner,
    id: &Text,
    starts: &[NodeId],
) -> Result<Vec<NodeId>, Memory>
    requires owner { is_owner owner ≡ true }
    requires widget { same_owner owner owners.Host ≡ false }
    ensures nodes { IfOk result (λ found. AreNodes page.now found.items) }
    ensures found { IfOk result (λ found. AreHuntedOf page.now owner (hunter.Id id.now) starts.now found.items) }
{
    let marks = Marks::of(alloc, starts)?;
    collect_below(alloc, page, &marks, page.with_id(owner, id))
}
