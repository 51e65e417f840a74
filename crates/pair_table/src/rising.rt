//! Pairs most of whose numbers tell their places, as those of an array do, in a list that needs no hash.
ghost use Rattle.std.specs.Prelude.{◌≡◌, ◌+◌, ◌-◌, ◌<◌, ◌≤◌, ℕ, min, List, [], ◌∷◌, None, Some, nat_eq, nat_lt, length, filter, slice_get, position, swap_remove, option_map, option_copied, vec_capacity, drop, false, true, IfSome, IfNone, IfOk, IsOk, OnOk, OnErr};
ghost use Rattle.std.specs.List.{IsDistinct};
ghost use Rattle.std.specs.Map.{keys_of, lookup, remove_entry};
ghost use Rattle.std.specs.Map.Iter.{deref_pair};
ghost use Rattle.indexmap.specs.IndexMap.{insert_entry, spare};
ghost use Rattle.pair_table.specs.Rising.{IsNoneBefore, IsRising};

use crate::few::{MOST_FEW, insert_all, make_room, place_in};
use indexmap::IndexMap;
use keyed_names::NumberKeys;
use std::alloc::{AllocError, Global};
use std::marker::Model;
use std::mem;

/// Pairs in a list. Those before `upto` stand where `guess` looks for their numbers, so that none of these stands
/// elsewhere before it; the few others stand behind. The key is that of the map that a list of too many others becomes.
#[derive(Drop)]
pub(crate) struct RisingPairs<V> {
    list: Vec<(u32, V)>,
    upto: usize,
    key: NumberKeys,
}

impl<V> Model for RisingPairs<V> {
    ghost use Rattle.std.specs.Prelude.{◌+◌, ◌-◌, ◌≤◌, min, nat_eq, length, vec_capacity};
    ghost use Rattle.std.specs.List.{IsDistinct};
    ghost use Rattle.std.specs.Map.{keys_of};
    ghost use Rattle.pair_table.specs.Pairs.{Pairs, pairs_code};
    ghost use Rattle.pair_table.specs.Rising.{IsRising};

    ghost Value = { Pairs V };

    ghost coded = { pairs_code V.code };

    ghost view = { λ r. record { entries = r.list.items; spare = min (vec_capacity r.list) (r.upto + 32) - length r.list.items } };

    ghost invariant = { λ r. IsRising r.upto (keys_of r.list.items) };
}

/// Where a number is looked for first: the elements of an array come in order behind its length, and no other
/// number up to the last index is 1 or less.
#[inline(always)]
pub(crate) fn guess(n: u32) -> usize
    ensures { result ≡ n - 1 }
{
    n.saturating_sub(1) as usize
}

// Whether a number stands at a place before another.
#[inline(always)]
fn is_before<V>(list: &Vec<(u32, V)>, n: u32, place: usize, upto: usize) -> bool
    requires { upto ≤ length list.now.items }
    ensures yes { result ≡ true → slice_get (keys_of list.now.items) place ≡ Some n }
    ensures no { result ≡ false → place < upto → slice_get (keys_of list.now.items) place ≡ Some n → ⊥ }
{
    if place < upto {
        list[place].0 == n
    } else {
        false
    }
}

// The place of a number that does not stand before a place.
#[inline(always)]
fn place_behind<V>(list: &Vec<(u32, V)>, n: u32, upto: usize) -> Option<usize>
    requires upto { upto ≤ length list.now.items }
    requires none { IsNoneBefore upto n (keys_of list.now.items) }
    ensures { result ≡ position (nat_eq n) (keys_of list.now.items) }
{
    let at = place_in(behind(list, upto), n)?;
    Some(upto + at)
}

// The pairs from a place on.
#[inline(always)]
fn behind<V>(list: &Vec<(u32, V)>, upto: usize) -> &[(u32, V)]
    requires { upto ≤ length list.now.items }
    ensures { result.now ≡ drop upto list.now.items }
{
    &list[upto..]
}

impl<V> RisingPairs<V> {
    /// No pairs, in a list that has room for so many.
    pub(crate) fn with_room(
        alloc: Global,
        key: NumberKeys,
        room: usize,
    ) -> Result<RisingPairs<V>, AllocError>
        ensures { IfOk result (λ r. r.entries ≡ []) }
    {
        let list = Vec::with_capacity(alloc, room)?;
        Ok(RisingPairs { list, upto: 0, key })
    }

    /// How many pairs there are. Their numbers differ.
    pub(crate) fn len(&self) -> usize
        ensures len { result ≡ length self.now.entries }
        ensures distinct { IsDistinct nat_eq (keys_of self.now.entries) }
    {
        self.list.len()
    }

    /// How many of them do not stand where `guess` looks for their numbers. The room ends where these are no longer few.
    pub(crate) fn others(&self) -> usize
        ensures { self.now.spare ≤ 32 - result }
    {
        self.list.len() - self.upto
    }

    /// The place of a number.
    #[inline(always)]
    pub(crate) fn place(&self, n: u32) -> Option<usize>
        ensures { result ≡ position (nat_eq n) (keys_of self.now.entries) }
    {
        let near = guess(n);
        if is_before(&self.list, n, near, self.upto) {
            return Some(near);
        }
        place_behind(&self.list, n, self.upto)
    }

    /// The value under a number.
    #[inline(always)]
    pub(crate) fn get(&self, n: u32) -> Option<&V>
        ensures { option_copied result ≡ lookup (nat_eq n) self.now.entries }
    {
        let place = self.place(n)?;
        Some(&self.list[place].1)
    }

    /// The pair at a place.
    pub(crate) fn get_index(&self, place: usize) -> Option<(&u32, &V)>
        ensures { option_map deref_pair result ≡ slice_get self.now.entries place }
    {
        let pair = self.list.get(place)?;
        Some((&pair.0, &pair.1))
    }

    /// The key of the map.
    pub(crate) fn key(&self) -> NumberKeys {
        self.key
    }

    /// The allocator.
    pub(crate) fn allocator(&self) -> Global {
        *self.list.allocator()
    }

    /// Makes room for so many more pairs, where the others are few then.
    pub(crate) fn reserve(&mut self, additional: usize) -> Result<(), AllocError>
        ensures entries { self.new.entries ≡ self.old.entries }
        ensures ok { OnOk result (additional ≤ self.new.spare) }
    {
        let others = self.list.len() - self.upto;
        if others > MOST_FEW || additional > MOST_FEW - others {
            return Err(AllocError);
        }
        self.list.reserve(additional)
    }
}

impl<V: Drop> RisingPairs<V> {
    /// Puts a value under a number that is at a place.
    #[inline(always)]
    pub(crate) fn set(&mut self, n: u32, place: usize, value: V)
        requires { position (nat_eq n) (keys_of self.old.entries) ≡ Some place }
        ensures { self.new.entries ≡ insert_entry nat_eq self.old.entries n value }
    {
        let _n = n;
        self.list[place].1 = value;
    }

    /// Puts a value under a number, a new one last, where there may be one more.
    pub(crate) fn insert(&mut self, n: u32, value: V) -> Result<(), AllocError>
        ensures entries { OnOk result (self.new.entries ≡ insert_entry nat_eq self.old.entries n value) }
        ensures err { OnErr result (self.new.entries ≡ self.old.entries) }
        ensures absent { OnErr result (lookup (nat_eq n) self.old.entries ≡ None) }
        ensures succeeds { 0 < self.old.spare → IsOk result }
        ensures spare { self.old.spare ≤ self.new.spare + 1 }
    {
        match self.place(n) {
            Some(place) => {
                self.list[place].1 = value;
                Ok(())
            }
            None => self.push(n, value),
        }
    }

    // Puts a new number last.
    #[inline(always)]
    fn push(&mut self, n: u32, value: V) -> Result<(), AllocError>
        requires { lookup (nat_eq n) self.old.entries ≡ None }
        ensures entries { OnOk result (self.new.entries ≡ insert_entry nat_eq self.old.entries n value) }
        ensures err { OnErr result (self.new.entries ≡ self.old.entries) }
        ensures succeeds { 0 < self.old.spare → IsOk result }
        ensures spare { self.old.spare ≤ self.new.spare + 1 }
    {
        let len = self.list.len();
        if len - self.upto >= MOST_FEW {
            return Err(AllocError);
        }
        make_room(&mut self.list, 1)?;
        self.list.push_reserved((n, value));
        self.upto = next_upto(self.upto, len, n);
        Ok(())
    }

    /// Moves all pairs into a map without pairs that has room for them.
    pub(crate) fn pour(&mut self, map: &mut IndexMap<u32, V, NumberKeys>)
        requires empty { map.old.entries ≡ [] }
        requires room { length self.old.entries ≤ spare map.old }
        ensures entries { map.new.entries ≡ self.old.entries }
        ensures room { spare map.old ≤ spare map.new + length self.old.entries }
    {
        let alloc = self.allocator();
        let list = mem::replace(&mut self.list, Vec::new(alloc));
        self.upto = 0;
        insert_all(list, map);
    }

    /// Puts pairs that stand where `guess` looks for their numbers into the place of no pairs.
    pub(crate) fn fill(&mut self, list: Vec<(u32, V)>)
        requires { IsRising (length list.items) (keys_of list.items) }
        ensures { self.new.entries ≡ list.items }
    {
        self.upto = list.len();
        self.list = list;
    }

    /// Takes the pair at a place out, and puts the last one into its place.
    pub(crate) fn swap_remove_index(&mut self, place: usize) -> Option<(u32, V)>
        ensures entry { result ≡ slice_get self.old.entries place }
        ensures entries { IfSome result (λ p. self.new.entries ≡ swap_remove self.old.entries place p) }
        ensures unchanged { IfNone result (self.new.entries ≡ self.old.entries) }
    {
        if place < self.list.len() {
            let pair = self.list.swap_remove(place);
            self.upto = 0;
            Some(pair)
        } else {
            None
        }
    }

    /// Takes a number out. The others keep their order.
    pub(crate) fn shift_remove(&mut self, n: u32)
        ensures { self.new.entries ≡ remove_entry (nat_eq n) self.old.entries }
    {
        if let Some(place) = self.place(n) {
            self.upto = least(self.upto, place);
            let _pair = self.list.remove(place);
        }
    }

    /// Keeps the pairs whose numbers are less than a bound.
    pub(crate) fn retain_below(&mut self, bound: u32)
        ensures { self.new.entries ≡ filter (λ e. nat_lt e.0 bound) self.old.entries }
    {
        self.upto = 0;
        self.list.retain(|pair| pair.0 < bound);
    }
}

// How far pairs stand where `guess` looks for their numbers, once one is put last behind so many.
#[inline(always)]
fn next_upto(upto: usize, len: usize, n: u32) -> usize
    requires { upto ≤ len }
    ensures within { result ≤ len + 1 }
    ensures grown { upto ≤ result }
    ensures near { (p : ℕ) → p < result → upto ≤ p → n - 1 ≡ p }
    ensures last { (p : ℕ) → p < result → upto ≤ p → p ≡ len }
{
    if upto != len {
        return upto;
    }
    if guess(n) != len {
        return upto;
    }
    upto + 1
}

#[inline(always)]
fn least(a: usize, b: usize) -> usize
    ensures { result ≡ min a b }
{
    if a < b { a } else { b }
}
