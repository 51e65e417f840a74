//! The arena and the index of ids, changed together.
ghost use Rattle.std.specs.Prelude.{◌≡◌, ℕ, ◌+◌, ◌<◌, ◌≤◌, length, take, true, false, codes, option_copied, IfOk, MatchResult};
ghost use Rattle.std.specs.Str.{bytes_eq};
ghost use Rattle.plain_tree.specs.Trees.{height};
ghost use Rattle.plain_tree.specs.Plains.{unplaced};
ghost use Rattle.page_nodes.specs.Adds.{IsAdded, Older};
ghost use Rattle.page_nodes.specs.Arenas.{nodes_in};
ghost use Rattle.tree_ops.specs.Labels.{with_attribute, is_text};
ghost use Rattle.page_nodes.specs.Entries.{AreOwners, at, limit};
ghost use Rattle.page_nodes.specs.Index.{IsIndex};
ghost use Rattle.page_nodes.specs.Moves.{IsRelabelled};
ghost use Rattle.page_nodes.specs.Owners.{is_owner};

use crate::arena::Arena;
use crate::content::id_of;
use crate::ids::Ids;
use crate::slots::slot_of;
use code_units::{Memory, Owner, Text, is_word};
use plain_tree::Plain;
use std::alloc::Global;

// An id for a second holder.
fn shared(id: Option<&Text>) -> Result<Option<Text>, Memory>
    ensures { IfOk result (λ copy. copy ≡ option_copied id.entry) }
{
    match id {
        Some(id) => Ok(Some(id.share()?)),
        None => Ok(None),
    }
}

// Enters a node into an index of the nodes before it.
fn enter(ids: &mut Ids, arena: &Arena, node: u32) -> Result<(), Memory>
    requires node { node < length (nodes_in arena.now) }
    requires owners { AreOwners (nodes_in arena.now) }
    requires before { IsIndex (take node (nodes_in arena.now)) ids.old }
    ensures { MatchResult result
        (λ _. IsIndex (take (node + 1) (nodes_in arena.now)) ids.new)
        (λ _. IsIndex (take node (nodes_in arena.now)) ids.new) }
{
    let slot = slot_of(arena.owner(node));
    let id = id_of(arena.content(node));
    ids.make_room(slot, id)?;
    ids.put(slot, id, node);
    Ok(())
}

// Takes the last node out of an index.
fn leave(ids: &mut Ids, arena: &Arena, node: u32)
    requires node { node < length (nodes_in arena.now) }
    requires owners { AreOwners (nodes_in arena.now) }
    requires before { IsIndex (take (node + 1) (nodes_in arena.now)) ids.old }
    ensures { IsIndex (take node (nodes_in arena.now)) ids.new }
{
    let slot = slot_of(arena.owner(node));
    let id = id_of(arena.content(node));
    ids.take(slot, id, node);
    ids.forget(slot, id);
}

// Takes the nodes from one on out of an index of those before another.
fn leave_from(ids: &mut Ids, arena: &Arena, from: u32, to: u32)
    requires order { from ≤ to }
    requires to { to ≤ length (nodes_in arena.now) }
    requires owners { AreOwners (nodes_in arena.now) }
    requires before { IsIndex (take to (nodes_in arena.now)) ids.old }
    ensures { IsIndex (take from (nodes_in arena.now)) ids.new }
{
    let mut node = to;
    'back: while node > from {
        node -= 1;
        leave(ids, arena, node);
    }
}

// Enters the nodes from one on. After a refusal the index is as before.
fn enter_from(ids: &mut Ids, arena: &Arena, from: u32) -> Result<(), Memory>
    requires from { from ≤ length (nodes_in arena.now) }
    requires owners { AreOwners (nodes_in arena.now) }
    requires before { IsIndex (take from (nodes_in arena.now)) ids.old }
    ensures { MatchResult result
        (λ _. IsIndex (nodes_in arena.now) ids.new)
        (λ _. IsIndex (take from (nodes_in arena.now)) ids.new) }
{
    let Ok(end) = u32::try_from(arena.len()) else {
        return Err(Memory);
    };
    let mut node = from;
    'each: while node < end {
        if enter(ids, arena, node).is_err() {
            leave_from(ids, arena, from, node);
            return Err(Memory);
        }
        node += 1;
    }
    Ok(())
}

// Adds a plain tree and enters its nodes. After a refusal the older nodes are as before.
fn add_entered(
    arena: &mut Arena,
    ids: &mut Ids,
    alloc: Global,
    owner: Owner,
    plain: &Plain,
) -> Result<u32, Memory>
    requires low { height (unplaced plain.now) ≤ limit }
    requires owner { is_owner owner ≡ true }
    requires owners { AreOwners (nodes_in arena.old) }
    requires index { IsIndex (nodes_in arena.old) ids.old }
    ensures nodes { MatchResult result
        (λ id. IsAdded (nodes_in arena.old) (nodes_in arena.new) id owner (unplaced plain.now))
        (λ _. Older (nodes_in arena.old) (nodes_in arena.new)) }
    ensures index { MatchResult result
        (λ _. IsIndex (nodes_in arena.new) ids.new)
        (λ _. IsIndex (nodes_in arena.old) ids.new) }
{
    let id = arena.add(alloc, owner, plain)?;
    enter_from(ids, arena, id)?;
    Ok(id)
}

/// Adds a plain tree, with numbers from the next on in document order. A refusal changes nothing.
pub fn add(
    arena: &mut Arena,
    ids: &mut Ids,
    alloc: Global,
    owner: Owner,
    plain: &Plain,
) -> Result<u32, Memory>
    requires low { height (unplaced plain.now) ≤ limit }
    requires owner { is_owner owner ≡ true }
    requires owners { AreOwners (nodes_in arena.old) }
    requires index { IsIndex (nodes_in arena.old) ids.old }
    ensures nodes { MatchResult result
        (λ id. IsAdded (nodes_in arena.old) (nodes_in arena.new) id owner (unplaced plain.now))
        (λ _. nodes_in arena.new ≡ nodes_in arena.old) }
    ensures index { IsIndex (nodes_in arena.new) ids.new }
{
    let len = arena.len();
    match add_entered(arena, ids, alloc, owner, plain) {
        Ok(id) => Ok(id),
        Err(_) => {
            arena.truncate(len);
            Err(Memory)
        }
    }
}

// Gives an element another `id`, or none. A refusal changes nothing.
fn set_id(
    arena: &mut Arena,
    ids: &mut Ids,
    node: u32,
    name: &Text,
    value: Option<Text>,
) -> Result<(), Memory>
    requires node { node < length (nodes_in arena.old) }
    requires element { is_text (at (nodes_in arena.old) node).label ≡ false }
    requires word { bytes_eq name.now (codes "id") ≡ true }
    requires owners { AreOwners (nodes_in arena.old) }
    requires index { IsIndex (nodes_in arena.old) ids.old }
    ensures nodes { MatchResult result
        (λ _. IsRelabelled (nodes_in arena.old) (nodes_in arena.new) node
        (with_attribute name.now value (at (nodes_in arena.old) node).label))
        (λ _. nodes_in arena.new ≡ nodes_in arena.old) }
    ensures index { IsIndex (nodes_in arena.new) ids.new }
{
    let slot = slot_of(arena.owner(node));
    let old = shared(id_of(arena.content(node)))?;
    let new = shared(value.as_ref())?;
    ids.make_room(slot, new.as_ref())?;
    arena.set_attribute(node, name, value)?;
    ids.take(slot, old.as_ref(), node);
    ids.put(slot, new.as_ref(), node);
    ids.forget(slot, old.as_ref());
    Ok(())
}

/// Sets an attribute of an element, or takes it out. A refusal changes nothing.
pub fn set_attribute(
    arena: &mut Arena,
    ids: &mut Ids,
    node: u32,
    name: &Text,
    value: Option<Text>,
) -> Result<(), Memory>
    requires node { node < length (nodes_in arena.old) }
    requires element { is_text (at (nodes_in arena.old) node).label ≡ false }
    requires owners { AreOwners (nodes_in arena.old) }
    requires index { IsIndex (nodes_in arena.old) ids.old }
    ensures nodes { MatchResult result
        (λ _. IsRelabelled (nodes_in arena.old) (nodes_in arena.new) node
        (with_attribute name.now value (at (nodes_in arena.old) node).label))
        (λ _. nodes_in arena.new ≡ nodes_in arena.old) }
    ensures index { IsIndex (nodes_in arena.new) ids.new }
{
    if is_word(name, b"id") {
        return set_id(arena, ids, node, name, value);
    }
    arena.set_attribute(node, name, value)
}
