//! Few pairs, in a plain list that is searched from its front.
ghost use Rattle.std.specs.Prelude.{◌≡◌, ◌+◌, ◌-◌, ◌<◌, ◌≤◌, ℕ, List, [], ◌∷◌, None, Some, nat_eq, nat_lt, length, filter, slice_get, position, swap_remove, option_map, option_copied, vec_capacity, true, IfSome, IfNone, IsOk, OnOk, OnErr};
ghost use Rattle.std.specs.List.{IsDistinct};
ghost use Rattle.std.specs.Map.{keys_of, lookup, remove_entry};
ghost use Rattle.std.specs.Map.Iter.{deref_pair};
ghost use Rattle.indexmap.specs.IndexMap.{insert_entry, spare};
ghost use Rattle.pair_table.specs.Rising.{AreNear, IsRising};

use crate::rising::guess;
use indexmap::IndexMap;
use keyed_names::NumberKeys;
use std::alloc::{AllocError, Global};
use std::marker::Model;
use std::mem;

/// The most pairs that stand in a list.
pub(crate) const MOST_FEW: usize = 32;

/// Pairs in a list. There is none before the first allocation, and the first pair alone takes room
/// for one.
#[derive(Drop)]
pub(crate) struct FewPairs<V> {
    list: Vec<(u32, V)>,
}

impl<V> Model for FewPairs<V> {
    ghost use Rattle.std.specs.Prelude.{◌-◌, min, nat_eq, length, vec_capacity};
    ghost use Rattle.std.specs.List.{IsDistinct};
    ghost use Rattle.std.specs.Map.{keys_of};
    ghost use Rattle.pair_table.specs.Pairs.{Pairs, pairs_code};

    ghost Value = { Pairs V };

    ghost coded = { pairs_code V.code };

    ghost view = { λ f. record { entries = f.list.items; spare = min (vec_capacity f.list) 32 - length f.list.items } };

    ghost invariant = { λ f. IsDistinct nat_eq (keys_of f.list.items) };
}

// The place of a number in a list.
#[inline(always)]
pub(crate) fn place_in<V>(list: &[(u32, V)], n: u32) -> Option<usize>
    ensures { result ≡ position (λ e. nat_eq n e.0) list.now }
{
    list.iter().position(|pair| n == pair.0)
}

// Whether each pair stands where `guess` looks for its number.
fn all_near<V>(list: &[(u32, V)]) -> bool
    ensures { result ≡ true → AreNear (length list.now) (keys_of list.now) }
{
    for at in 0..list.len() {
        let near = guess(list[at].0);
        if near != at {
            return false;
        }
    }
    true
}

// Inserts pairs whose numbers differ into a map without pairs that has room for them.
pub(crate) fn insert_all<V: Drop>(list: Vec<(u32, V)>, map: &mut IndexMap<u32, V, NumberKeys>)
    requires distinct { IsDistinct nat_eq (keys_of list.items) }
    requires empty { map.old.entries ≡ [] }
    requires room { length list.items ≤ spare map.old }
    ensures entries { map.new.entries ≡ list.items }
    ensures room { spare map.old ≤ spare map.new + length list.items }
{
    for (n, value) in list {
        let Ok(_) = map.insert(n, value) else {
            unreachable!()
        };
    }
}

// Makes room in a list: no more than is asked for in an empty one, so that a single pair takes little.
pub(crate) fn make_room<V>(list: &mut Vec<(u32, V)>, additional: usize) -> Result<(), AllocError>
    ensures items { list.new.items ≡ list.old.items }
    ensures ok { OnOk result (length list.new.items + additional ≤ vec_capacity list.new) }
    ensures capacity { vec_capacity list.old ≤ vec_capacity list.new }
    ensures succeeds { length list.old.items + additional ≤ vec_capacity list.old → IsOk result }
{
    if list.is_empty() {
        list.reserve_exact(additional)
    } else {
        list.reserve(additional)
    }
}

impl<V> FewPairs<V> {
    /// No pairs.
    pub(crate) fn new(alloc: Global) -> FewPairs<V>
        ensures { result.entries ≡ [] }
    {
        FewPairs {
            list: Vec::new(alloc),
        }
    }

    /// These pairs, whose numbers differ.
    #[inline(always)]
    pub(crate) fn of_list(list: Vec<(u32, V)>) -> FewPairs<V>
        requires { IsDistinct nat_eq (keys_of list.items) }
        ensures { result.entries ≡ list.items }
    {
        FewPairs { list }
    }

    /// How many pairs there are. Their numbers differ, and the room ends where they are no longer few.
    pub(crate) fn len(&self) -> usize
        ensures len { result ≡ length self.now.entries }
        ensures distinct { IsDistinct nat_eq (keys_of self.now.entries) }
        ensures room { self.now.spare ≤ 32 - length self.now.entries }
    {
        self.list.len()
    }

    /// The place of a number.
    #[inline(always)]
    pub(crate) fn place(&self, n: u32) -> Option<usize>
        ensures { result ≡ position (nat_eq n) (keys_of self.now.entries) }
    {
        place_in(&self.list, n)
    }

    /// The value under a number.
    #[inline(always)]
    pub(crate) fn get(&self, n: u32) -> Option<&V>
        ensures { option_copied result ≡ lookup (nat_eq n) self.now.entries }
    {
        let place = self.place(n)?;
        Some(&self.list[place].1)
    }

    /// The pair at a place.
    pub(crate) fn get_index(&self, place: usize) -> Option<(&u32, &V)>
        ensures { option_map deref_pair result ≡ slice_get self.now.entries place }
    {
        let pair = self.list.get(place)?;
        Some((&pair.0, &pair.1))
    }

    /// The allocator.
    pub(crate) fn allocator(&self) -> Global {
        *self.list.allocator()
    }

    /// Whether each pair stands where `guess` looks for its number.
    pub(crate) fn rises(&self) -> bool
        ensures { result ≡ true → IsRising (length self.now.entries) (keys_of self.now.entries) }
    {
        all_near(&self.list)
    }

    /// Makes room for so many more pairs, where these are few then.
    pub(crate) fn reserve(&mut self, additional: usize) -> Result<(), AllocError>
        ensures entries { self.new.entries ≡ self.old.entries }
        ensures ok { OnOk result (length self.old.entries + additional ≤ 32 → additional ≤ self.new.spare) }
    {
        make_room(&mut self.list, additional)
    }
}

impl<V: Drop> FewPairs<V> {
    /// Puts a value under a number that is at a place.
    #[inline(always)]
    pub(crate) fn set(&mut self, n: u32, place: usize, value: V)
        requires { position (nat_eq n) (keys_of self.old.entries) ≡ Some place }
        ensures { self.new.entries ≡ insert_entry nat_eq self.old.entries n value }
    {
        let _n = n;
        self.list[place].1 = value;
    }

    /// Puts a value under a number, a new one last, where there may be one more.
    pub(crate) fn insert(&mut self, n: u32, value: V) -> Result<(), AllocError>
        ensures entries { OnOk result (self.new.entries ≡ insert_entry nat_eq self.old.entries n value) }
        ensures err { OnErr result (self.new.entries ≡ self.old.entries) }
        ensures absent { OnErr result (lookup (nat_eq n) self.old.entries ≡ None) }
        ensures succeeds { 0 < self.old.spare → IsOk result }
        ensures spare { self.old.spare ≤ self.new.spare + 1 }
    {
        match self.place(n) {
            Some(place) => {
                self.list[place].1 = value;
                Ok(())
            }
            None => self.push(n, value),
        }
    }

    // Puts a new number last.
    fn push(&mut self, n: u32, value: V) -> Result<(), AllocError>
        requires { lookup (nat_eq n) self.old.entries ≡ None }
        ensures entries { OnOk result (self.new.entries ≡ insert_entry nat_eq self.old.entries n value) }
        ensures err { OnErr result (self.new.entries ≡ self.old.entries) }
        ensures succeeds { 0 < self.old.spare → IsOk result }
        ensures spare { self.old.spare ≤ self.new.spare + 1 }
    {
        if self.list.len() >= MOST_FEW {
            return Err(AllocError);
        }
        make_room(&mut self.list, 1)?;
        self.list.push_reserved((n, value));
        Ok(())
    }

    /// Moves all pairs into a map without pairs that has room for them.
    pub(crate) fn pour(&mut self, map: &mut IndexMap<u32, V, NumberKeys>)
        requires empty { map.old.entries ≡ [] }
        requires room { length self.old.entries ≤ spare map.old }
        ensures entries { map.new.entries ≡ self.old.entries }
        ensures room { spare map.old ≤ spare map.new + length self.old.entries }
    {
        let alloc = self.allocator();
        let list = mem::replace(&mut self.list, Vec::new(alloc));
        insert_all(list, map);
    }

    /// The list, which it has no more.
    pub(crate) fn take_list(&mut self) -> Vec<(u32, V)>
        ensures { result.items ≡ self.old.entries }
    {
        let alloc = self.allocator();
        mem::replace(&mut self.list, Vec::new(alloc))
    }

    /// Takes the pair at a place out, and puts the last one into its place.
    pub(crate) fn swap_remove_index(&mut self, place: usize) -> Option<(u32, V)>
        ensures entry { result ≡ slice_get self.old.entries place }
        ensures entries { IfSome result (λ p. self.new.entries ≡ swap_remove self.old.entries place p) }
        ensures unchanged { IfNone result (self.new.entries ≡ self.old.entries) }
    {
        if place < self.list.len() {
            Some(self.list.swap_remove(place))
        } else {
            None
        }
    }

    /// Takes a number out. The others keep their order.
    pub(crate) fn shift_remove(&mut self, n: u32)
        ensures { self.new.entries ≡ remove_entry (nat_eq n) self.old.entries }
    {
        if let Some(place) = self.place(n) {
            let _pair = self.list.remove(place);
        }
    }

    /// Keeps the pairs whose numbers are less than a bound.
    pub(crate) fn retain_below(&mut self, bound: u32)
        ensures { self.new.entries ≡ filter (λ e. nat_lt e.0 bound) self.old.entries }
    {
        self.list.retain(|pair| pair.0 < bound);
    }
}
