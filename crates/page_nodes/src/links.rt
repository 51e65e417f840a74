//! The links of the arena, without its invariants: each call writes one node.
ghost use Rattle.std.specs.Prelude.{◌≡◌, ℕ, ◌+◌, ◌<◌, ◌≤◌, List, [], ◌∷◌, ◌++◌, length, Some, None, insert, slice_index, slice_get, true, false, is_ok, ◌≢◌, OnOk, MatchResult};
ghost use Rattle.page_nodes.specs.Entries.{minus, before, listed, distinct, Entry, entries, at, label_of};
ghost use Rattle.tree_ops.specs.Labels.{is_text, with_attribute};
ghost use Rattle.tree_ops.specs.Trees.{is_number};
ghost use Rattle.plain_tree.specs.Trees.{TextOf};
ghost use Rattle.page_nodes.specs.Room.{room_in, room_at};
ghost use Rattle.page_nodes.specs.Writes.{new_entry, with_children, with_parent, with_label, children_in, label_in};

use crate::content;
use crate::rows::{Content, Row};
use code_units::{Memory, Owner, Text};
use std::alloc::{AllocError, Global};

/// The parent of a node.
#[tactic(auto, using(crate::proofs::Lists::entries_long))]
pub fn parent_of(rows: &Vec<Row>, node: u32) -> Option<u32>
    requires { node < length (entries rows.now.items) }
    ensures { result ≡ (at (entries rows.now.items) node).parent }
{
    rows[node as usize].parent
}

/// The owner of a node.
#[tactic(auto, using(crate::proofs::Lists::entries_long))]
pub fn owner_of(rows: &Vec<Row>, node: u32) -> Owner
    requires { node < length (entries rows.now.items) }
    ensures { result ≡ (at (entries rows.now.items) node).owner }
{
    rows[node as usize].owner
}

/// What a node is.
#[tactic(auto, using(crate::proofs::Lists::entries_long))]
pub fn content_of(rows: &Vec<Row>, node: u32) -> &Content
    requires { node < length (entries rows.now.items) }
    ensures { label_of result.now ≡ (at (entries rows.now.items) node).label }
{
    &rows[node as usize].content
}

/// The children of a node.
#[tactic(auto, using(crate::proofs::Lists::entries_long))]
pub fn children_of(rows: &Vec<Row>, node: u32) -> &Vec<u32>
    requires { node < length (entries rows.now.items) }
    ensures { result.now.items ≡ (at (entries rows.now.items) node).children }
{
    &rows[node as usize].children
}

/// Takes a number out of a list that has it at most once.
fn take_out(list: &mut Vec<u32>, number: u32)
    requires once { distinct list.old.items ≡ true }
    ensures items { list.new.items ≡ minus number list.old.items }
    ensures room { room_in list.old ≤ room_in list.new }
{
    let place = place_of(list, Some(number));
    if place < list.len() {
        list.remove(place);
    }
}

/// Takes a node out of the children of another.
#[tactic(auto, using(crate::proofs::Lists::entries_long))]
pub fn drop_child(rows: &mut Vec<Row>, parent: u32, node: u32)
    requires parent { parent < length (entries rows.old.items) }
    requires once { distinct (at (entries rows.old.items) parent).children ≡ true }
    ensures links { entries rows.new.items ≡
        with_children (entries rows.old.items) parent (minus node (children_in rows.old.items parent)) }
    ensures room { (t : ℕ) → room_at rows.old.items t ≤ room_at rows.new.items t }
{
    take_out(&mut rows[parent as usize].children, node);
}

/// Sets the link from a node to its parent.
#[tactic(auto, using(crate::proofs::Lists::entries_long))]
pub fn set_parent(rows: &mut Vec<Row>, node: u32, parent: Option<u32>)
    requires { node < length (entries rows.old.items) }
    ensures links { entries rows.new.items ≡ with_parent (entries rows.old.items) node parent }
    ensures room { (t : ℕ) → room_at rows.old.items t ≤ room_at rows.new.items t }
{
    rows[node as usize].parent = parent;
}

/// Whether this is the number.
pub fn is_number(other: u32, number: Option<u32>) -> bool
    ensures { result ≡ is_number other number }
{
    match number {
        Some(number) => other == number,
        None => false,
    }
}

/// Where a number stands in a list: its first place, or the length.
pub fn place_of(list: &[u32], number: Option<u32>) -> usize
    ensures place { (n : ℕ) → before number n list.now ≡ insert list.now result n }
    ensures bound { result ≤ length list.now }
    ensures found { result < length list.now → is_number (slice_index list.now result) number ≡ true }
    ensures first { (j : ℕ) → j < result → is_number (slice_index list.now j) number ≡ false }
{
    if number.is_none() {
        return list.len();
    }
    let mut place = 0;
    'each: while place < list.len() && !is_number(list[place], number) {
        place += 1;
    }
    place
}

/// Puts a number into a list that has room for it: before another, or behind the last.
fn put_in(list: &mut Vec<u32>, next: Option<u32>, number: u32)
    requires { 1 ≤ room_in list.old }
    ensures items { list.new.items ≡ before next number list.old.items }
    ensures room { room_in list.old ≤ room_in list.new + 1 }
{
    let place = place_of(list, next);
    match list.insert(place, number) {
        Ok(()) => {}
        Err(_) => unreachable!(),
    }
}

/// Puts a node among the children of another, which has room for it.
#[tactic(auto, using(crate::proofs::Lists::entries_long))]
pub fn add_child(rows: &mut Vec<Row>, parent: u32, next: Option<u32>, node: u32)
    requires parent { parent < length (entries rows.old.items) }
    requires room { 1 ≤ room_at rows.old.items parent }
    ensures links { entries rows.new.items ≡
        with_children (entries rows.old.items) parent (before next node (children_in rows.old.items parent)) }
    ensures room { (t : ℕ) → room_at rows.old.items t ≤ room_at rows.new.items t + 1 }
{
    put_in(&mut rows[parent as usize].children, next, node);
}

/// Writes a number over another in a list.
fn write_over(list: &mut Vec<u32>, old: u32, new: u32)
    requires listed { listed old list.old.items ≡ true }
    requires once { distinct list.old.items ≡ true }
    requires other { new ≢ old }
    ensures items { list.new.items ≡ minus old (before (Some old) new list.old.items) }
{
    let place = place_of(list, Some(old));
    list[place] = new;
}

/// Puts a node in the place of another among the children of a node.
#[tactic(auto, using(crate::proofs::Lists::entries_long))]
pub fn swap_child(rows: &mut Vec<Row>, parent: u32, old: u32, new: u32)
    requires parent { parent < length (entries rows.old.items) }
    requires listed { listed old (at (entries rows.old.items) parent).children ≡ true }
    requires once { distinct (at (entries rows.old.items) parent).children ≡ true }
    requires other { new ≢ old }
    ensures { entries rows.new.items ≡ with_children (entries rows.old.items) parent
        (minus old (before (Some old) new (children_in rows.old.items parent))) }
{
    write_over(&mut rows[parent as usize].children, old, new);
}

/// Makes room for further children of a node. Nothing else changes.
#[tactic(auto, using(crate::proofs::Lists::entries_long))]
pub fn reserve_children(rows: &mut Vec<Row>, parent: u32, count: usize) -> Result<(), AllocError>
    requires { parent < length (entries rows.old.items) }
    ensures links { entries rows.new.items ≡ entries rows.old.items }
    ensures room { OnOk result (count ≤ room_at rows.new.items parent) }
{
    rows[parent as usize].children.reserve(count)
}

/// Adds a node without links. A refusal changes nothing.
#[tactic(auto, using(crate::proofs::Lists::entries_push))]
pub fn push_node(
    rows: &mut Vec<Row>,
    alloc: Global,
    owner: Owner,
    content: Content,
) -> Result<(), AllocError>
    ensures { MatchResult result
        (λ _. entries rows.new.items ≡ entries rows.old.items ++ new_entry owner (label_of content) ∷ [])
        (λ _. entries rows.new.items ≡ entries rows.old.items) }
{
    let row = Row {
        owner,
        parent: None,
        children: Vec::new(alloc),
        content,
    };
    Ok(rows.push(row)?)
}

/// Sets an attribute of an element, or takes it out. A refusal changes nothing.
#[tactic(auto, using(crate::proofs::Lists::entries_long))]
pub fn set_attribute(
    rows: &mut Vec<Row>,
    node: u32,
    name: &Text,
    value: Option<Text>,
) -> Result<(), Memory>
    requires node { node < length (entries rows.old.items) }
    requires element { is_text (at (entries rows.old.items) node).label ≡ false }
    ensures { MatchResult result
        (λ _. entries rows.new.items ≡
        with_label (entries rows.old.items) node (with_attribute name.now value (label_in rows.old.items node)))
        (λ _. entries rows.new.items ≡ entries rows.old.items) }
{
    content::set_attribute(&mut rows[node as usize].content, name, value)
}

/// Sets the text of a node.
#[tactic(auto, using(crate::proofs::Lists::entries_long))]
pub fn set_text(rows: &mut Vec<Row>, node: u32, text: Text)
    requires { node < length (entries rows.old.items) }
    ensures { entries rows.new.items ≡ with_label (entries rows.old.items) node (TextOf text) }
{
    rows[node as usize].content = Content::Text(text);
}
