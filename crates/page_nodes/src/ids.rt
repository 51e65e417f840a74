//! The nodes of each owner by their `id`.
ghost use Rattle.std.specs.Prelude.{◌≡◌, ℕ, ◌+◌, ◌<◌, ◌≤◌, List, [], true, false, not, ◌&&◌, ◌||◌, ◌==◌, length, vec_len, slice_get, option_copied, OnOk, IfOk, Some, None};
ghost use Rattle.std.specs.Str.{bytes_eq};
ghost use Rattle.page_nodes.specs.Entries.{listed};
ghost use Rattle.page_nodes.specs.Ids.{rises, numbers_of, room_under};
ghost use Rattle.page_nodes.specs.Room.{room_in};

use crate::slots::OWNERS;
use code_units::{Memory, Text};
use indexmap::IndexMap;
use keyed_names::Keys;
use std::alloc::Global;

// The nodes of one owner by their `id`, each list in the order of their numbers.
type Lists = IndexMap<Text, Vec<u32>, Keys>;

/// The nodes of each owner by their `id`.
#[derive(Drop)]
pub struct Ids {
    alloc: Global,
    owners: Vec<Lists>,
    ghost long: { length owners.items ≡ 33 },
}

// Puts a number into a rising list that has room for it.
fn put_in_order(list: &mut Vec<u32>, number: u32)
    requires in_order { rises 0 list.old.items ≡ true }
    requires room { 1 ≤ room_in list.old }
    ensures in_order { rises 0 list.new.items ≡ true }
    ensures exact { (x : ℕ) → listed x list.new.items ≡ (listed x list.old.items || (number == x)) }
{
    if let Err(place) = list.binary_search(&number) {
        match list.insert(place, number) {
            Ok(()) => {}
            Err(_) => unreachable!(),
        }
    }
}

// Takes a number out of a rising list.
fn take_in_order(list: &mut Vec<u32>, number: u32)
    requires in_order { rises 0 list.old.items ≡ true }
    ensures in_order { rises 0 list.new.items ≡ true }
    ensures exact { (x : ℕ) → listed x list.new.items ≡ (listed x list.old.items && not (number == x)) }
    ensures room { room_in list.old ≤ room_in list.new }
{
    if let Ok(place) = list.binary_search(&number) {
        list.remove(place);
    }
}

// The nodes with an id.
fn list_of<'a>(lists: &'a Lists, id: &Text) -> &'a [u32]
    ensures { result.now ≡ numbers_of lists.now id.now }
{
    match lists.get(id) {
        Some(list) => list,
        None => &[],
    }
}

// Adds an empty list under an id that has none.
fn add_list(lists: &mut Lists, alloc: Global, id: &Text) -> Result<(), Memory>
    ensures { (value : List ℕ) → numbers_of lists.new value ≡ numbers_of lists.old value }
{
    if !lists.contains_key(id) {
        lists.insert(id.share()?, Vec::new(alloc))?;
    }
    Ok(())
}

// Makes room for a node more with an id that has a list.
fn reserve_one(lists: &mut Lists, id: &Text) -> Result<(), Memory>
    ensures same { (value : List ℕ) → numbers_of lists.new value ≡ numbers_of lists.old value }
    ensures room { OnOk result (1 ≤ room_under lists.new id.now) }
{
    match lists.get_mut(id) {
        Some(list) => Ok(list.reserve(1)?),
        None => Err(Memory),
    }
}

// Puts a node under an id, where there is room for it.
fn put_under(lists: &mut Lists, id: &Text, node: u32)
    requires in_order { (value : List ℕ) → rises 0 (numbers_of lists.old value) ≡ true }
    requires room { 1 ≤ room_under lists.old id.now }
    ensures in_order { (value : List ℕ) → rises 0 (numbers_of lists.new value) ≡ true }
    ensures exact { (value : List ℕ) (x : ℕ) → listed x (numbers_of lists.new value) ≡
        (listed x (numbers_of lists.old value) || (bytes_eq id.now value && (node == x))) }
{
    match lists.get_mut(id) {
        Some(list) => put_in_order(list, node),
        None => unreachable!(),
    }
}

// Takes a node from under an id.
fn take_from(lists: &mut Lists, id: &Text, node: u32)
    requires in_order { (value : List ℕ) → rises 0 (numbers_of lists.old value) ≡ true }
    ensures in_order { (value : List ℕ) → rises 0 (numbers_of lists.new value) ≡ true }
    ensures exact { (value : List ℕ) (x : ℕ) → listed x (numbers_of lists.new value) ≡
        (listed x (numbers_of lists.old value) && not (bytes_eq id.now value && (node == x))) }
    ensures room { (value : List ℕ) → room_under lists.old value ≤ room_under lists.new value }
{
    if let Some(list) = lists.get_mut(id) {
        take_in_order(list, node);
    }
}

// Drops the list under an id, where it is empty.
fn drop_empty(lists: &mut Lists, id: &Text)
    ensures { (value : List ℕ) → numbers_of lists.new value ≡ numbers_of lists.old value }
{
    if list_of(lists, id).is_empty() {
        lists.swap_remove(id);
    }
}

impl Ids {
    ghost use Rattle.page_nodes.specs.Index.{indexed, HasRoom, AreRising, SameNumbers, Puts, Takes};

    /// No owner has a node. The tables hash by these keys.
    pub fn new(alloc: Global, keys: Keys) -> Result<Ids, Memory>
        ensures { IfOk result (λ ids. (s : ℕ) (value : List ℕ) → indexed ids s value ≡ []) }
    {
        let mut owners = Vec::with_capacity(alloc, OWNERS)?;
        'each: for _ in 0..OWNERS {
            owners.push(IndexMap::with_hasher(alloc, keys))?;
        }
        Ok(Ids { alloc, owners })
    }

    /// The keys by which the tables hash.
    pub fn keys(&self) -> Keys {
        *self.owners[0].hasher()
    }

    /// The nodes of an owner with an id.
    pub fn get(&self, slot: usize, id: &Text) -> &[u32]
        requires { slot < 33 }
        ensures { result.now ≡ indexed self.now slot id.now }
    {
        list_of(&self.owners[slot], id)
    }

    /// Makes room for a node more under an id, where there is one.
    pub fn make_room(&mut self, slot: usize, id: Option<&Text>) -> Result<(), Memory>
        requires { slot < 33 }
        ensures same { SameNumbers self.old self.new }
        ensures room { OnOk result (HasRoom self.new slot (option_copied id.entry)) }
    {
        let Some(id) = id else {
            return Ok(());
        };
        let lists = &mut self.owners[slot];
        add_list(lists, self.alloc, id)?;
        reserve_one(lists, id)
    }

    /// Puts a node under an id, where there is one.
    pub fn put(&mut self, slot: usize, id: Option<&Text>, node: u32)
        requires slot { slot < 33 }
        requires in_order { AreRising self.old }
        requires room { HasRoom self.old slot (option_copied id) }
        ensures { Puts self.old self.new slot (option_copied id.entry) node }
    {
        if let Some(id) = id {
            put_under(&mut self.owners[slot], id, node);
        }
    }

    /// Takes a node from under an id, where there is one.
    pub fn take(&mut self, slot: usize, id: Option<&Text>, node: u32)
        requires slot { slot < 33 }
        requires in_order { AreRising self.old }
        ensures { Takes self.old self.new slot (option_copied id.entry) node }
    {
        if let Some(id) = id {
            take_from(&mut self.owners[slot], id, node);
        }
    }

    /// Lets an id go under which no node is left.
    pub fn forget(&mut self, slot: usize, id: Option<&Text>)
        requires { slot < 33 }
        ensures { SameNumbers self.old self.new }
    {
        if let Some(id) = id {
            drop_empty(&mut self.owners[slot], id);
        }
    }
}
