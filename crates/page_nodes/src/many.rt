//! Many nodes moved at once: each list of children that changes is gone over once.
ghost use Rattle.std.specs.Prelude.{◌≡◌, ℕ, ◌<◌, ◌≤◌, ◌+◌, [], ◌∷◌, ◌==◌, length, true, false, None, is_some, if◌then◌else◌, reverse, unwrap_or};
ghost use Rattle.std.specs.List.{list_any};
ghost use Rattle.std.specs.List.Sorted.{IsSorted};
ghost use Rattle.std.specs.Ordering.{nat_cmp};
ghost use Rattle.page_nodes.specs.Entries.{at, entries, IsSound};
ghost use Rattle.page_nodes.specs.Many.{below, if_top, backward, put_off, AreCleared, IsSwept, AreRaised, AreTidied, AreCut, AreAdded, AreHung, AreTops, last_ones};
ghost use Rattle.page_nodes.specs.Moves.{AreNodes};
ghost use Rattle.page_nodes.specs.Room.{room_at, room_in};
ghost use Rattle.page_nodes.specs.Writes.{with_children, with_parent, children_in};

use crate::links::{
    add_child, children_of, drop_child, is_number, parent_of, place_of, set_parent,
};
use crate::rows::Row;
use std::alloc::Global;
use std::mem;

/// Whether a number is in a list in order.
pub fn is_listed(sorted: &[u32], number: u32) -> bool
    requires { IsSorted nat_cmp sorted.now }
    ensures { result ≡ list_any (λ y. y == number) sorted.now }
{
    sorted.binary_search(&number).is_ok()
}

// Takes a node from its parent, if it has one.
fn take_one(rows: &mut Vec<Row>, node: u32)
    requires sound { IsSound (entries rows.old.items) }
    requires node { node < length (entries rows.old.items) }
    ensures links { AreCut (entries rows.old.items) (entries rows.new.items) (node ∷ []) }
    ensures room { (t : ℕ) → room_at rows.old.items t ≤ room_at rows.new.items t }
{
    if let Some(parent) = parent_of(rows, node) {
        drop_child(rows, parent, node);
        set_parent(rows, node, None);
    }
}

// Clears the link up from a node, and gives its parent, or the node where it had none.
fn clear_link(rows: &mut Vec<Row>, node: u32) -> u32
    requires { node < length (entries rows.old.items) }
    ensures links { entries rows.new.items ≡ with_parent (entries rows.old.items) node None }
    ensures parent { result ≡ unwrap_or (at (entries rows.old.items) node).parent node }
    ensures room { (t : ℕ) → room_at rows.old.items t ≤ room_at rows.new.items t }
{
    let parent = parent_of(rows, node);
    set_parent(rows, node, None);
    parent.unwrap_or(node)
}

// Clears the links up from nodes, and puts the parents that they had into their places.
fn clear_links(rows: &mut Vec<Row>, nodes: &mut [u32])
    requires sound { IsSound (entries rows.old.items) }
    requires nodes { AreNodes (entries rows.old.items) nodes.old }
    ensures links { AreRaised (entries rows.old.items) (entries rows.new.items) nodes.old nodes.new }
    ensures nodes { AreNodes (entries rows.new.items) nodes.new }
    ensures room { (t : ℕ) → room_at rows.old.items t ≤ room_at rows.new.items t }
{
    let mut place = 0;
    'each: while place < nodes.len() {
        let node = nodes[place];
        nodes[place] = clear_link(rows, node);
        place += 1;
    }
}

// Whether a node has a parent.
#[tactic(auto, using(crate::proofs::Lists::entries_long))]
fn is_below(rows: &Vec<Row>, node: u32) -> bool
    ensures { result ≡ is_some (at (entries rows.now.items) node).parent }
{
    if node as usize >= rows.len() {
        return false;
    }
    parent_of(rows, node).is_some()
}

// Takes those numbers out of a list that are nodes without a parent.
fn take_out_tops(list: &mut Vec<u32>, rows: &Vec<Row>)
    ensures items { list.new.items ≡ below (entries rows.now.items) list.old.items }
    ensures room { room_in list.old ≤ room_in list.new }
{
    list.retain(|c| is_below(rows, *c));
}

// Leaves a node without children, and gives them.
#[tactic(auto, using(crate::proofs::Lists::entries_long))]
fn lift_children(rows: &mut Vec<Row>, alloc: Global, parent: u32) -> Vec<u32>
    requires { parent < length (entries rows.old.items) }
    ensures links { entries rows.new.items ≡ with_children (entries rows.old.items) parent [] }
    ensures items { result.items ≡ children_in rows.old.items parent }
    ensures room { (t : ℕ) → (if t == parent then room_in result else room_at rows.new.items t)
        ≡ room_at rows.old.items t }
{
    let none = Vec::new(alloc);
    mem::replace(&mut rows[parent as usize].children, none)
}

// Gives a node other children.
#[tactic(auto, using(crate::proofs::Lists::entries_long))]
fn set_children(rows: &mut Vec<Row>, parent: u32, children: Vec<u32>)
    requires { parent < length (entries rows.old.items) }
    ensures links { entries rows.new.items ≡ with_children (entries rows.old.items) parent children.items }
    ensures room { (t : ℕ) → room_at rows.new.items t
        ≡ (if t == parent then room_in children else room_at rows.old.items t) }
{
    rows[parent as usize].children = children;
}

// Takes those children from a node that have no link up.
fn tidy(rows: &mut Vec<Row>, alloc: Global, parent: u32)
    requires { parent < length (entries rows.old.items) }
    ensures links { AreTidied (entries rows.old.items) (entries rows.new.items) (parent ∷ []) }
    ensures room { (t : ℕ) → room_at rows.old.items t ≤ room_at rows.new.items t }
{
    let mut children = lift_children(rows, alloc, parent);
    take_out_tops(&mut children, rows);
    set_children(rows, parent, children);
}

// The same for several nodes. One that comes again right away is not gone over again.
fn tidy_all(rows: &mut Vec<Row>, alloc: Global, parents: &[u32])
    requires { AreNodes (entries rows.old.items) parents.now }
    ensures links { AreTidied (entries rows.old.items) (entries rows.new.items) parents.now }
    ensures room { (t : ℕ) → room_at rows.old.items t ≤ room_at rows.new.items t }
{
    let mut last = None;
    'each: for parent in parents {
        if !is_number(*parent, last) {
            tidy(rows, alloc, *parent);
            last = Some(*parent);
        }
    }
}

// Clears the link up from each child of a node.
fn clear_all(rows: &mut Vec<Row>, parent: u32)
    requires parent { parent < length (entries rows.old.items) }
    requires inside { AreNodes (entries rows.old.items) (children_in rows.old.items parent) }
    ensures { AreCleared (entries rows.old.items) (entries rows.new.items)
        (children_in rows.old.items parent) (children_in rows.old.items parent) }
{
    let width = children_of(rows, parent).len();
    'each: for place in 0..width {
        let child = children_of(rows, parent)[place];
        set_parent(rows, child, None);
    }
}

// Leaves a node without children.
#[tactic(auto, using(crate::proofs::Lists::entries_long))]
fn drop_all(rows: &mut Vec<Row>, parent: u32)
    requires { parent < length (entries rows.old.items) }
    ensures { entries rows.new.items ≡ with_children (entries rows.old.items) parent [] }
{
    rows[parent as usize].children.clear();
}

/// Takes all children from a node.
pub fn take_children(rows: &mut Vec<Row>, parent: u32)
    requires parent { parent < length (entries rows.old.items) }
    requires inside { AreNodes (entries rows.old.items) (children_in rows.old.items parent) }
    ensures { IsSwept (entries rows.old.items) (entries rows.new.items) (children_in rows.old.items parent) parent }
{
    clear_all(rows, parent);
    drop_all(rows, parent);
}

// Takes several nodes from their parents.
fn take_many(rows: &mut Vec<Row>, alloc: Global, nodes: &mut [u32])
    requires sound { IsSound (entries rows.old.items) }
    requires nodes { AreNodes (entries rows.old.items) nodes.old }
    ensures links { AreCut (entries rows.old.items) (entries rows.new.items) nodes.old }
    ensures room { (t : ℕ) → room_at rows.old.items t ≤ room_at rows.new.items t }
{
    clear_links(rows, nodes);
    nodes.sort_unstable();
    tidy_all(rows, alloc, nodes);
}

/// Takes nodes from their parents, and overwrites the list. Of one node only its place is looked for;
/// of several each list of children that changes is gone over once.
pub fn take_all(rows: &mut Vec<Row>, alloc: Global, nodes: &mut [u32])
    requires sound { IsSound (entries rows.old.items) }
    requires nodes { AreNodes (entries rows.old.items) nodes.old }
    ensures links { AreCut (entries rows.old.items) (entries rows.new.items) nodes.old }
    ensures room { (t : ℕ) → room_at rows.old.items t ≤ room_at rows.new.items t }
{
    if nodes.len() == 1 {
        take_one(rows, nodes[0]);
    } else {
        take_many(rows, alloc, nodes);
    }
}

// Puts a node behind the last child of a target that has room, unless it has a parent.
fn hang_one(rows: &mut Vec<Row>, target: u32, node: u32)
    requires target { target < length (entries rows.old.items) }
    requires node { node < length (entries rows.old.items) }
    requires room { 1 ≤ room_at rows.old.items target }
    ensures links { AreAdded (entries rows.old.items) (entries rows.new.items) target
        (if_top (at (entries rows.old.items) node).parent node)
        (if_top (at (entries rows.old.items) node).parent node) }
    ensures room { (t : ℕ) → room_at rows.old.items t ≤ room_at rows.new.items t + 1 }
{
    if parent_of(rows, node).is_none() {
        add_child(rows, target, None, node);
        set_parent(rows, node, Some(target));
    }
}

// Puts nodes without a parent behind the last child of a target, the last of them first and each once.
fn hang_back(rows: &mut Vec<Row>, target: u32, nodes: &[u32])
    requires target { target < length (entries rows.old.items) }
    requires nodes { AreNodes (entries rows.old.items) nodes.now }
    requires tops { AreTops (entries rows.old.items) nodes.now }
    requires room { length nodes.now ≤ room_at rows.old.items target }
    ensures { AreAdded (entries rows.old.items) (entries rows.new.items) target
        (reverse (last_ones nodes.now)) nodes.now }
{
    let mut left = nodes.len();
    'back: while left > 0 {
        left -= 1;
        hang_one(rows, target, nodes[left]);
    }
}

// Turns the end of a list round.
fn turn_back(list: &mut [u32], from: usize)
    requires { from ≤ length list.old }
    ensures { list.new ≡ backward from list.old }
{
    list[from..].reverse();
}

// Puts what stands from one place up to another behind all else.
fn turn_round(list: &mut [u32], from: usize, to: usize)
    requires order { from ≤ to }
    requires inside { to ≤ length list.old }
    ensures { list.new ≡ put_off from to list.old }
{
    list[from..].rotate_left(to - from);
}

// Turns the end of a list round, and puts it before an earlier place.
fn turn_in(list: &mut [u32], place: usize, first: usize)
    requires order { place ≤ first }
    requires inside { first ≤ length list.old }
    ensures { list.new ≡ put_off place first (backward first list.old) }
{
    turn_back(list, first);
    turn_round(list, place, first);
}

// The same in the children of a node.
#[tactic(auto, using(crate::proofs::Lists::entries_long))]
fn turn_children(rows: &mut Vec<Row>, parent: u32, place: usize, first: usize)
    requires parent { parent < length (entries rows.old.items) }
    requires order { place ≤ first }
    requires inside { first ≤ length (at (entries rows.old.items) parent).children }
    ensures { entries rows.new.items ≡ with_children (entries rows.old.items) parent
        (put_off place first (backward first (children_in rows.old.items parent))) }
{
    turn_in(&mut rows[parent as usize].children, place, first);
}

/// Puts nodes without a parent among the children of a target that has room, each where it comes
/// last: before a child that is none of them, or behind the last.
pub fn hang_all(rows: &mut Vec<Row>, target: u32, next: Option<u32>, nodes: &[u32])
    requires target { target < length (entries rows.old.items) }
    requires nodes { AreNodes (entries rows.old.items) nodes.now }
    requires tops { AreTops (entries rows.old.items) nodes.now }
    requires room { length nodes.now ≤ room_at rows.old.items target }
    ensures { AreHung (entries rows.old.items) (entries rows.new.items) target next nodes.now }
{
    let place = place_of(children_of(rows, target), next);
    let first = children_of(rows, target).len();
    hang_back(rows, target, nodes);
    turn_children(rows, target, place, first);
}
