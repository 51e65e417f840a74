//! A table of pairs.
ghost use Rattle.std.specs.Prelude.{◌≡◌, ◌+◌, ◌<◌, ◌≤◌, ℕ, List, [], ◌∷◌, None, Some, nat_eq, nat_lt, length, filter, slice_get, position, swap_remove, option_map, option_copied, is_some, IfSome, IfNone, IsOk, IfOk, OnOk, OnErr, true, false};
ghost use Rattle.std.specs.List.{IsDistinct};
ghost use Rattle.std.specs.Map.{keys_of, lookup, remove_entry};
ghost use Rattle.std.specs.Map.Iter.{deref_pair};
ghost use Rattle.indexmap.specs.IndexMap.{insert_entry, spare};
ghost use Rattle.pair_table.specs.Rising.{IsRising};
ghost use Rattle.pair_table.specs.Storage.{HasPlaces, pairs_in};

use crate::few::{FewPairs, MOST_FEW};
use crate::rising::{RisingPairs, guess};
use indexmap::IndexMap;
use keyed_names::NumberKeys;
use std::alloc::{AllocError, Global};
use std::marker::Model;

/// Pairs of a number and a value, in the order in which the numbers came.
///
/// Up to sixteen pairs stand in a list, with no room beside them at first: a table of one pair takes
/// one allocation of its size. More stand in an `IndexMap`, which finds a number by its hash. The key
/// of the hash is handed over where a list may become a map, and a list keeps none.
#[derive(Drop)]
pub struct PairTable<V> {
    storage: Storage<V>,
}

/// Where the pairs stand.
#[derive(Drop)]
enum Storage<V> {
    Few(FewPairs<V>),
    Rising(Box<RisingPairs<V>>),
    Many(Box<IndexMap<u32, V, NumberKeys>>),
}

impl<V> Model for PairTable<V> {
    ghost use Rattle.pair_table.specs.Pairs.{Pairs, pairs_code};

    ghost Value = { Pairs V };

    ghost coded = { pairs_code V.code };

    ghost use Rattle.pair_table.specs.Storage.{pairs_in};

    ghost view = { λ t. pairs_in t.storage };
}

impl<V> PairTable<V> {
    /// A table without pairs, which allocates nothing until the first one.
    pub fn new(alloc: Global) -> PairTable<V>
        ensures { result.entries ≡ [] }
    {
        PairTable {
            storage: Storage::Few(FewPairs::new(alloc)),
        }
    }

    /// These few pairs, whose numbers differ.
    #[inline(always)]
    pub fn of_few(list: Vec<(u32, V)>) -> PairTable<V>
        requires { IsDistinct nat_eq (keys_of list.items) }
        ensures { result.entries ≡ list.items }
    {
        PairTable {
            storage: Storage::Few(FewPairs::of_list(list)),
        }
    }

    /// How many pairs there are. Their numbers differ.
    pub fn len(&self) -> usize
        ensures len { result ≡ length self.now.entries }
        ensures distinct { IsDistinct nat_eq (keys_of self.now.entries) }
    {
        match &self.storage {
            Storage::Few(few) => few.len(),
            Storage::Rising(rising) => rising.len(),
            Storage::Many(map) => map.len(),
        }
    }

    /// Whether a number is there.
    pub fn contains_key(&self, n: u32) -> bool
        ensures { result ≡ is_some (lookup (nat_eq n) self.now.entries) }
    {
        self.get(n).is_some()
    }

    /// The value under a number.
    #[inline(always)]
    pub fn get(&self, n: u32) -> Option<&V>
        ensures { option_copied result ≡ lookup (nat_eq n) self.now.entries }
    {
        match &self.storage {
            Storage::Few(few) => few.get(n),
            Storage::Rising(rising) => rising.get(n),
            Storage::Many(map) => get_in(map, n),
        }
    }

    /// The value under a number, where there are few pairs and it is one of them.
    #[inline(always)]
    pub fn get_few(&self, n: u32) -> Option<&V>
        ensures { IfSome result (λ v. lookup (nat_eq n) self.now.entries ≡ Some v.now) }
    {
        match &self.storage {
            Storage::Few(few) => few.get(n),
            _ => None,
        }
    }

    /// The place of a number.
    #[inline(always)]
    pub fn get_index_of(&self, n: u32) -> Option<usize>
        ensures { result ≡ position (nat_eq n) (keys_of self.now.entries) }
    {
        match &self.storage {
            Storage::Few(few) => few.place(n),
            Storage::Rising(rising) => rising.place(n),
            Storage::Many(map) => place_in(map, n),
        }
    }

    /// The pair at a place.
    pub fn get_index(&self, place: usize) -> Option<(&u32, &V)>
        ensures { option_map deref_pair result ≡ slice_get self.now.entries place }
    {
        match &self.storage {
            Storage::Few(few) => few.get_index(place),
            Storage::Rising(rising) => rising.get_index(place),
            Storage::Many(map) => map.get_index(place),
        }
    }
}

impl<V: Drop> PairTable<V> {
    /// A table without pairs that has room for so many elements of an array.
    pub fn with_elements(
        alloc: Global,
        key: NumberKeys,
        room: usize,
    ) -> Result<PairTable<V>, AllocError>
        ensures { IfOk result (λ t. t.entries ≡ []) }
    {
        let rising = empty_rising(alloc, key, room)?;
        Ok(PairTable {
            storage: Storage::Rising(rising),
        })
    }

    /// Puts a value under a number that is at a place.
    #[inline(always)]
    pub fn set(&mut self, n: u32, place: usize, value: V)
        requires { position (nat_eq n) (keys_of self.old.entries) ≡ Some place }
        ensures { self.new.entries ≡ insert_entry nat_eq self.old.entries n value }
    {
        match &mut self.storage {
            Storage::Few(few) => few.set(n, place, value),
            Storage::Rising(rising) => rising.set(n, place, value),
            Storage::Many(map) => set_in(map, n, place, value),
        }
    }

    /// Makes room for so many more pairs, so that as many new numbers need no memory. A list has no room
    /// past the most that it may hold (`make_places`).
    pub fn reserve(&mut self, additional: usize) -> Result<(), AllocError>
        ensures entries { self.new.entries ≡ self.old.entries }
        ensures ok { OnOk result (additional ≤ self.new.spare) }
    {
        if outgrows(&self.storage, additional) {
            return Err(AllocError);
        }
        match &mut self.storage {
            Storage::Few(few) => few.reserve(additional),
            Storage::Rising(rising) => rising.reserve(additional),
            Storage::Many(map) => map.reserve(additional),
        }
    }

    /// Moves the pairs of a list that cannot hold so many more into a map that hashes by `key`.
    pub fn make_places(&mut self, additional: usize, key: &NumberKeys) -> Result<(), AllocError>
        ensures { self.new.entries ≡ self.old.entries }
    {
        if outgrows(&self.storage, additional) {
            return self.spill(additional, key);
        }
        Ok(())
    }

    /// Puts a value under a number. One that is there keeps its place and needs no memory; a new one
    /// goes last. For want of memory, or of a place in a list (`make_places`), nothing changes.
    pub fn insert(&mut self, n: u32, value: V) -> Result<(), AllocError>
        ensures entries { OnOk result (self.new.entries ≡ insert_entry nat_eq self.old.entries n value) }
        ensures err { OnErr result (self.new.entries ≡ self.old.entries) }
        ensures absent { OnErr result (lookup (nat_eq n) self.old.entries ≡ None) }
        ensures succeeds { 0 < self.old.spare → IsOk result }
        ensures spare { self.old.spare ≤ self.new.spare + 1 }
    {
        match &mut self.storage {
            Storage::Few(few) => few.insert(n, value),
            Storage::Rising(rising) => rising.insert(n, value),
            Storage::Many(map) => insert_in(map, n, value),
        }
    }

    // Moves the pairs of a list into a map that has room for so many more.
    fn spill(&mut self, additional: usize, key: &NumberKeys) -> Result<(), AllocError>
        ensures { self.new.entries ≡ self.old.entries }
    {
        match &mut self.storage {
            Storage::Few(few) => {
                let storage = spilled(few, *key, additional)?;
                self.storage = storage;
                Ok(())
            }
            Storage::Rising(rising) => {
                let map = rising_map(rising, additional)?;
                self.storage = Storage::Many(map);
                Ok(())
            }
            Storage::Many(map) => map.reserve(additional),
        }
    }

    // A list from whose midst a pair goes becomes a map, where there is memory for one.
    fn settle(&mut self)
        ensures { self.new.entries ≡ self.old.entries }
    {
        if let Storage::Rising(rising) = &mut self.storage {
            if let Ok(map) = rising_map(rising, 0) {
                self.storage = Storage::Many(map);
            }
        }
    }

    /// Takes the pair at a place out, and puts the last one into its place.
    pub fn swap_remove_index(&mut self, place: usize) -> Option<(u32, V)>
        ensures entry { result ≡ slice_get self.old.entries place }
        ensures entries { IfSome result (λ p. self.new.entries ≡ swap_remove self.old.entries place p) }
        ensures unchanged { IfNone result (self.new.entries ≡ self.old.entries) }
    {
        self.settle();
        self.swap_out(place)
    }

    // The same, of any table.
    fn swap_out(&mut self, place: usize) -> Option<(u32, V)>
        ensures entry { result ≡ slice_get self.old.entries place }
        ensures entries { IfSome result (λ p. self.new.entries ≡ swap_remove self.old.entries place p) }
        ensures unchanged { IfNone result (self.new.entries ≡ self.old.entries) }
    {
        match &mut self.storage {
            Storage::Few(few) => few.swap_remove_index(place),
            Storage::Rising(rising) => rising.swap_remove_index(place),
            Storage::Many(map) => map.swap_remove_index(place),
        }
    }

    /// Takes a number out. The others keep their order.
    pub fn shift_remove(&mut self, n: u32)
        ensures { self.new.entries ≡ remove_entry (nat_eq n) self.old.entries }
    {
        match &mut self.storage {
            Storage::Few(few) => few.shift_remove(n),
            Storage::Rising(rising) => rising.shift_remove(n),
            Storage::Many(map) => {
                let _value = map.shift_remove(&n);
            }
        }
    }

    /// Keeps the pairs whose numbers are less than a bound, in their order.
    pub fn retain_below(&mut self, bound: u32)
        ensures { self.new.entries ≡ filter (λ e. nat_lt e.0 bound) self.old.entries }
    {
        match &mut self.storage {
            Storage::Few(few) => few.retain_below(bound),
            Storage::Rising(rising) => rising.retain_below(bound),
            Storage::Many(map) => retain_in(map, bound),
        }
    }
}

// Whether a number is at a place.
#[inline(always)]
fn is_near<V>(map: &IndexMap<u32, V, NumberKeys>, n: u32, place: usize) -> bool
    ensures { result ≡ true → position (nat_eq n) (keys_of map.now.entries) ≡ Some place }
{
    // This says that the numbers differ.
    let _len = map.len();
    match map.get_index(place) {
        Some((k, _value)) => *k == n,
        None => false,
    }
}

// The value under a number, where it is at a place.
#[inline(always)]
fn value_near<V>(map: &IndexMap<u32, V, NumberKeys>, n: u32, place: usize) -> Option<&V>
    ensures { IfSome result (λ v. lookup (nat_eq n) map.now.entries ≡ Some v.now) }
{
    let (k, value) = map.get_index(place)?;
    if *k == n { Some(value) } else { None }
}

// The place of a number in a map.
#[inline(always)]
fn place_in<V>(map: &IndexMap<u32, V, NumberKeys>, n: u32) -> Option<usize>
    ensures { result ≡ position (nat_eq n) (keys_of map.now.entries) }
{
    let place = guess(n);
    if is_near(map, n, place) {
        return Some(place);
    }
    hashed_place(map, n)
}

// The same by its hash.
#[inline(never)]
fn hashed_place<V>(map: &IndexMap<u32, V, NumberKeys>, n: u32) -> Option<usize>
    ensures { result ≡ position (nat_eq n) (keys_of map.now.entries) }
{
    map.get_index_of(&n)
}

// The value under a number in a map.
#[inline(always)]
fn get_in<V>(map: &IndexMap<u32, V, NumberKeys>, n: u32) -> Option<&V>
    ensures { option_copied result ≡ lookup (nat_eq n) map.now.entries }
{
    match value_near(map, n, guess(n)) {
        Some(value) => Some(value),
        None => hashed_value(map, n),
    }
}

// The same by its hash.
#[inline(never)]
fn hashed_value<V>(map: &IndexMap<u32, V, NumberKeys>, n: u32) -> Option<&V>
    ensures { option_copied result ≡ lookup (nat_eq n) map.now.entries }
{
    map.get(&n)
}

// Whether the pairs stand in a list that cannot hold so many more.
fn outgrows<V>(storage: &Storage<V>, additional: usize) -> bool
    ensures places { result ≡ false → HasPlaces additional storage.now }
    ensures full { result ≡ true → 0 < additional → (pairs_in storage.now).spare < additional }
{
    match storage {
        Storage::Few(few) => {
            let len = few.len();
            len > MOST_FEW || additional > MOST_FEW - len
        }
        Storage::Rising(rising) => {
            let others = rising.others();
            others > MOST_FEW || additional > MOST_FEW - others
        }
        Storage::Many(_) => false,
    }
}

// A map with the pairs of a list, which it has no more, and with room for so many more. For want of
// memory the list stays.
fn into_map<V: Drop>(
    few: &mut FewPairs<V>,
    key: NumberKeys,
    additional: usize,
) -> Result<Box<IndexMap<u32, V, NumberKeys>>, AllocError>
    ensures entries { IfOk result (λ map. map.value.entries ≡ few.old.entries) }
    ensures room { IfOk result (λ map. additional ≤ spare map.value) }
    ensures err { OnErr result (few.new ≡ few.old) }
{
    let Some(room) = few.len().checked_add(additional) else {
        return Err(AllocError);
    };
    let alloc = few.allocator();
    let empty = IndexMap::with_capacity_and_hasher(alloc, room, key)?;
    let mut map = Box::new(alloc, empty)?;
    few.pour(&mut map);
    Ok(map)
}

// Where the pairs of a list go that cannot hold so many more.
fn spilled<V: Drop>(
    few: &mut FewPairs<V>,
    key: NumberKeys,
    additional: usize,
) -> Result<Storage<V>, AllocError>
    ensures ok { IfOk result (λ s. (pairs_in s).entries ≡ few.old.entries) }
    ensures err { OnErr result (few.new ≡ few.old) }
{
    if is_rising(few, additional) {
        let rising = into_rising(few, key)?;
        return Ok(Storage::Rising(rising));
    }
    let map = into_map(few, key, additional)?;
    Ok(Storage::Many(map))
}

// Whether pairs stand where a rising list has them, which has places for so many others.
fn is_rising<V>(few: &FewPairs<V>, additional: usize) -> bool
    ensures { result ≡ true → IsRising (length few.now.entries) (keys_of few.now.entries) }
{
    if few.len() == 0 || additional > MOST_FEW {
        return false;
    }
    few.rises()
}

// A rising list with the pairs of a list, which it has no more. For want of memory the list stays.
fn into_rising<V: Drop>(
    few: &mut FewPairs<V>,
    key: NumberKeys,
) -> Result<Box<RisingPairs<V>>, AllocError>
    requires { IsRising (length few.old.entries) (keys_of few.old.entries) }
    ensures entries { IfOk result (λ rising. rising.value.entries ≡ few.old.entries) }
    ensures err { OnErr result (few.new ≡ few.old) }
{
    let mut rising = empty_rising(few.allocator(), key, 0)?;
    rising.fill(few.take_list());
    Ok(rising)
}

// A rising list without pairs that has room for so many.
fn empty_rising<V: Drop>(
    alloc: Global,
    key: NumberKeys,
    room: usize,
) -> Result<Box<RisingPairs<V>>, AllocError>
    ensures { IfOk result (λ rising. rising.value.entries ≡ []) }
{
    let empty = RisingPairs::with_room(alloc, key, room)?;
    Ok(Box::new(alloc, empty)?)
}

// A map with the pairs of a rising list, which it has no more, and with room for so many more. For want of memory
// the list stays.
fn rising_map<V: Drop>(
    rising: &mut RisingPairs<V>,
    additional: usize,
) -> Result<Box<IndexMap<u32, V, NumberKeys>>, AllocError>
    ensures entries { IfOk result (λ map. map.value.entries ≡ rising.old.entries) }
    ensures room { IfOk result (λ map. additional ≤ spare map.value) }
    ensures err { OnErr result (rising.new ≡ rising.old) }
{
    let Some(room) = rising.len().checked_add(additional) else {
        return Err(AllocError);
    };
    let alloc = rising.allocator();
    let empty = IndexMap::with_capacity_and_hasher(alloc, room, rising.key())?;
    let mut map = Box::new(alloc, empty)?;
    rising.pour(&mut map);
    Ok(map)
}

// Puts a value under a number into a map.
fn insert_in<V: Drop>(
    map: &mut IndexMap<u32, V, NumberKeys>,
    n: u32,
    value: V,
) -> Result<(), AllocError>
    ensures entries { OnOk result (map.new.entries ≡ insert_entry nat_eq map.old.entries n value) }
    ensures err { OnErr result (map.new.entries ≡ map.old.entries) }
    ensures absent { OnErr result (lookup (nat_eq n) map.old.entries ≡ None) }
    ensures succeeds { 0 < spare map.old → IsOk result }
    ensures spare { spare map.old ≤ spare map.new + 1 }
{
    let place = guess(n);
    if is_near(map, n, place) {
        set_in(map, n, place, value);
        return Ok(());
    }
    hashed_insert(map, n, value)
}

// The same by its hash.
#[inline(never)]
fn hashed_insert<V: Drop>(
    map: &mut IndexMap<u32, V, NumberKeys>,
    n: u32,
    value: V,
) -> Result<(), AllocError>
    ensures entries { OnOk result (map.new.entries ≡ insert_entry nat_eq map.old.entries n value) }
    ensures err { OnErr result (map.new.entries ≡ map.old.entries) }
    ensures absent { OnErr result (lookup (nat_eq n) map.old.entries ≡ None) }
    ensures succeeds { 0 < spare map.old → IsOk result }
    ensures spare { spare map.old ≤ spare map.new + 1 }
{
    match map.insert(n, value) {
        Ok(_) => Ok(()),
        Err(_) => Err(AllocError),
    }
}

// Puts a value under a number that a map has at a place.
#[inline(always)]
fn set_in<V: Drop>(map: &mut IndexMap<u32, V, NumberKeys>, n: u32, place: usize, value: V)
    requires { position (nat_eq n) (keys_of map.old.entries) ≡ Some place }
    ensures entries { map.new.entries ≡ insert_entry nat_eq map.old.entries n value }
    ensures spare { spare map.new ≡ spare map.old }
{
    let _n = n;
    match map.get_index_mut(place) {
        Some(had) => *had = value,
        None => unreachable!(),
    }
}

// Keeps the pairs of a map whose numbers are less than a bound.
fn retain_in<V: Drop>(map: &mut IndexMap<u32, V, NumberKeys>, bound: u32)
    ensures { map.new.entries ≡ filter (λ e. nat_lt e.0 bound) map.old.entries }
{
    map.retain(|n, _value| *n < bound);
}
