//! The pairs of a cell: a table in order in which a name that is taken out leaves a hole, so that no
//! pair moves.
ghost use Rattle.std.specs.Prelude.{◌≡◌, ℕ, ◌<◌, ◌≤◌, ◌++◌, List, Option, None, Some, true, false, is_some, nat_eq, length, IfOk, IfSome, OnOk, filter, option_copied, option_to_list, position, slice_get, if◌then◌else◌, ◌&&◌};
ghost use Rattle.std.specs.List.{IsDistinct, list_any};
ghost use Rattle.std.specs.Map.{keys_of as numbers_of, lookup, remove_entry};
ghost use Rattle.std.specs.Option.{option_and_then, option_map_or};
ghost use Rattle.store_cells.specs.Arrays.{is_below, is_index_below, is_reference};
ghost use Rattle.store_cells.specs.Numbered.{found_in, live, name_at, noted_below, recounted, references_in, refers_at};
ghost use Rattle.store_cells.specs.Holes.{IsFull, StandsAt, is_name, is_reference_below, listed_in, listed_name, listed_names, place_key};
ghost use Rattle.store_cells.specs.Shape.{IsIndexed, Known};

use crate::indices::Elements;
use crate::value::Value;
use code_units::{Memory, Text, is_word, permitted};
use pair_table::PairTable;
use property_names::PropertyNames;
use std::alloc::Global;

/// The numbers of names are less; the others are those of holes.
pub const FIRST_HOLE: u32 = 2_147_483_648;

/// Whether a table has a name.
#[inline(always)]
pub(crate) fn has(table: &PairTable<Value>, n: u32) -> bool
    ensures { result ≡ is_some (lookup (nat_eq n) (live table.now.entries)) }
{
    value(table, n).is_some()
}

/// The value under a name.
#[inline(always)]
pub(crate) fn value(table: &PairTable<Value>, n: u32) -> Option<&Value>
    ensures { option_copied result ≡ lookup (nat_eq n) (live table.now.entries) }
{
    if n < FIRST_HOLE { table.get(n) } else { None }
}

/// The value under a name, where the table has few and it is one of them.
#[inline(always)]
pub(crate) fn few_value(table: &PairTable<Value>, n: u32) -> Option<&Value>
    ensures { IfSome result (λ v. lookup (nat_eq n) (live table.now.entries) ≡ Some v.now) }
{
    if n < FIRST_HOLE {
        table.get_few(n)
    } else {
        None
    }
}

/// The place of a name in the table.
#[inline(always)]
pub(crate) fn place_of(table: &PairTable<Value>, n: u32) -> Option<usize>
    ensures { is_some result ≡ is_some (lookup (nat_eq n) (live table.now.entries)) }
{
    if n < FIRST_HOLE {
        table.get_index_of(n)
    } else {
        None
    }
}

/// Whether a number stands at a place in the table.
#[inline(always)]
pub(crate) fn stands_at(table: &PairTable<Value>, n: u32, place: usize) -> bool
    ensures { result ≡ true → position (nat_eq n) (numbers_of table.now.entries) ≡ Some place }
{
    // This says that the numbers differ.
    let _len = table.len();
    match table.get_index(place) {
        Some((k, _value)) => *k == n,
        None => false,
    }
}

/// The place in the table of the pair at a place among those that are no holes.
pub(crate) fn place(table: &PairTable<Value>, holes: u32, at: usize) -> usize
    requires { IsFull holes table.now.entries }
    ensures { slice_get table.now.entries result ≡ slice_get (live table.now.entries) at }
{
    if holes == 0 {
        at
    } else {
        place_behind(table, at)
    }
}

// The same, where there are holes.
fn place_behind(table: &PairTable<Value>, at: usize) -> usize
    ensures { slice_get table.now.entries result ≡ slice_get (live table.now.entries) at }
{
    let mut left = at;
    for place in 0..table.len() {
        if is_pair(table, place) {
            if left == 0 {
                return place;
            }
            left -= 1;
        }
    }
    table.len()
}

// Whether a pair stands at a place, and no hole.
fn is_pair(table: &PairTable<Value>, place: usize) -> bool
    ensures { result ≡ option_map_or (λ e. is_name e.0) (slice_get table.now.entries place) false }
{
    match table.get_index(place) {
        None => false,
        Some((k, _value)) => *k < FIRST_HOLE,
    }
}

/// Whether a name is listed: it is permitted, and no `length` of an Array.
pub(crate) fn is_listed(array: bool, name: &Text) -> bool
    ensures { result ≡ listed_in array name.now }
{
    permitted(name) && !(array && is_word(name, b"length"))
}

// A number, where it is that of a listed name.
fn listed(names: &PropertyNames, array: bool, k: u32) -> Option<u32>
    ensures name { option_and_then (slice_get names.now) result ≡ listed_name names.now array k }
    ensures there { is_some result ≡ is_some (listed_name names.now array k) }
{
    if k >= FIRST_HOLE {
        return None;
    }
    if names.is_listed(array, k) {
        Some(k)
    } else {
        None
    }
}

// The number of the name at a place, where it is listed.
fn listed_at(table: &PairTable<Value>, names: &PropertyNames, array: bool, at: usize) -> Option<u32>
    ensures name { option_and_then (slice_get names.now) result ≡ place_key names.now array table.now.entries at }
    ensures there { is_some result ≡ is_some (place_key names.now array table.now.entries at) }
{
    let (k, _value) = table.get_index(at)?;
    listed(names, array, *k)
}

// The name at a place, where it is listed.
fn key_at(
    alloc: Global,
    table: &PairTable<Value>,
    names: &PropertyNames,
    array: bool,
    at: usize,
) -> Result<Option<Text>, Memory>
    ensures { IfOk result (λ key. key ≡ place_key names.now array table.now.entries at) }
{
    match listed_at(table, names, array, at) {
        None => Ok(None),
        Some(k) => names.text(alloc, k),
    }
}

fn push_key(
    alloc: Global,
    table: &PairTable<Value>,
    names: &PropertyNames,
    array: bool,
    at: usize,
    keys: &mut Vec<Text>,
) -> Result<(), Memory>
    ensures { OnOk result (keys.new.items
        ≡ keys.old.items ++ option_to_list (place_key names.now array table.now.entries at)) }
{
    if let Some(name) = key_at(alloc, table, names, array, at)? {
        keys.push(name)?;
    }
    Ok(())
}

/// The listed names in order.
pub(crate) fn keys(
    alloc: Global,
    table: &PairTable<Value>,
    names: &PropertyNames,
    array: bool,
) -> Result<Vec<Text>, Memory>
    requires { Known (length names.now) (live table.now.entries) }
    ensures { IfOk result (λ keys. keys.items ≡ listed_names names.now array (live table.now.entries)) }
{
    let mut keys = Vec::new(alloc);
    for at in 0..table.len() {
        push_key(alloc, table, names, array, at, &mut keys)?;
    }
    Ok(keys)
}

fn count_key(table: &PairTable<Value>, names: &PropertyNames, array: bool, at: usize) -> usize
    ensures count { result ≡ length (option_to_list (place_key names.now array table.now.entries at)) }
    ensures small { result ≤ 1 }
{
    match listed_at(table, names, array, at) {
        None => 0,
        Some(_) => 1,
    }
}

/// How many names are listed.
pub(crate) fn keys_len(table: &PairTable<Value>, names: &PropertyNames, array: bool) -> usize
    requires { Known (length names.now) (live table.now.entries) }
    ensures { result ≡ length (listed_names names.now array (live table.now.entries)) }
{
    let mut count = 0;
    for at in 0..table.len() {
        count += count_key(table, names, array, at);
    }
    count
}

// Whether the name with a number is an index below another.
fn is_index_below(names: &PropertyNames, k: u32, n: u32) -> bool
    ensures { result ≡ is_index_below n (name_at names.now k) }
{
    match names.index(k) {
        None => false,
        Some(i) => i < n,
    }
}

// Whether the pair at a place is an element below an index, and refers to a cell.
fn is_reference_at(table: &PairTable<Value>, names: &PropertyNames, n: u32, place: usize) -> bool
    ensures { result ≡ option_map_or
        (λ e. is_name e.0 && is_reference_below names.now n e) (slice_get table.now.entries place) false }
{
    let Some((k, value)) = table.get_index(place) else {
        return false;
    };
    *k < FIRST_HOLE && (is_index_below(names, *k, n) && value.is_reference())
}

/// Whether an element below an index refers to a cell.
pub(crate) fn has_reference(table: &PairTable<Value>, names: &PropertyNames, n: u32) -> bool
    ensures { result ≡ list_any (is_reference_below names.now n) (live table.now.entries) }
{
    for place in 0..table.len() {
        if is_reference_at(table, names, n, place) {
            return true;
        }
    }
    false
}

/// Whether the value under a name refers to a cell.
#[inline(always)]
pub(crate) fn refers(table: &PairTable<Value>, n: u32) -> bool
    ensures { result ≡ refers_at n (live table.now.entries) }
{
    match value(table, n) {
        None => false,
        Some(v) => v.is_reference(),
    }
}

/// The count of the values that refer to cells, once the value under a name that is counted is this.
pub(crate) fn recounted(table: &PairTable<Value>, count: u32, n: u32, to: &Value) -> u32
    requires { count < 4294967295 }
    ensures { result ≡ recounted (refers_at n (live table.now.entries)) (is_reference to.now) count }
{
    let left = if refers(table, n) {
        count.saturating_sub(1)
    } else {
        count
    };
    if to.is_reference() { left + 1 } else { left }
}

/// The same, once the name is taken out.
pub(crate) fn discount(table: &PairTable<Value>, count: &mut u32, n: u32)
    ensures { count.new ≡ recounted (refers_at n (live table.now.entries)) false count.old }
{
    if refers(table, n) {
        *count = count.saturating_sub(1);
    }
}

/// Takes a name out. It leaves a hole, where there is memory for one and it is not the last; once more
/// than half are holes, these are filled.
pub(crate) fn take_out(table: &mut PairTable<Value>, holes: &mut u32, n: u32)
    requires { IsFull holes.old table.old.entries }
    ensures full { IsFull holes.new table.new.entries }
    ensures done { live table.new.entries ≡ remove_entry (nat_eq n) (live table.old.entries) }
    ensures distinct { IsDistinct nat_eq (numbers_of (live table.old.entries)) }
{
    // This says that the numbers differ.
    let _len = table.len();
    if n >= FIRST_HOLE {
        return;
    }
    if dig(table, n) {
        *holes = holes.saturating_add(1);
        fill(table, holes);
    } else {
        table.shift_remove(n);
    }
}

// Puts a hole in the place of a name that is not the last.
fn dig(table: &mut PairTable<Value>, n: u32) -> bool
    requires { n < FIRST_HOLE }
    ensures dug { result ≡ true → live table.new.entries ≡ remove_entry (nat_eq n) (live table.old.entries) }
    ensures same { result ≡ false → table.new.entries ≡ table.old.entries }
{
    let Some(place) = place_before(table, n) else {
        return false;
    };
    let hole = FIRST_HOLE + place;
    if table.contains_key(hole) {
        return false;
    }
    let Ok(_) = table.insert(hole, Value::Undefined) else {
        return false;
    };
    let _pair = table.swap_remove_index(place as usize);
    true
}

// The place of a name that is not the last.
fn place_before(table: &PairTable<Value>, n: u32) -> Option<u32>
    ensures at { IfSome result (StandsAt table.now.entries n) }
    ensures distinct { IsDistinct nat_eq (numbers_of table.now.entries) }
{
    // This says that the numbers differ.
    let len = table.len();
    let place = table.get_index_of(n)?;
    let (k, _value) = table.get_index(place)?;
    if *k != n || place + 1 >= len || place >= FIRST_HOLE as usize {
        return None;
    }
    Some(place as u32)
}

// Fills the holes, where there are more than pairs.
fn fill(table: &mut PairTable<Value>, holes: &mut u32)
    requires { 0 < holes.old }
    ensures full { IsFull holes.new table.new.entries }
    ensures same { live table.new.entries ≡ live table.old.entries }
{
    if *holes as usize > table.len() / 2 {
        table.retain_below(FIRST_HOLE);
        *holes = 0;
    }
}

/// Takes out the elements from an index on, the last first.
pub(crate) fn cut(
    elements: &mut Elements,
    table: &mut PairTable<Value>,
    holes: &mut u32,
    count: &mut u32,
    n: u32,
)
    requires { IsFull holes.old table.old.entries }
    ensures full { IsFull holes.new table.new.entries }
    ensures elements { elements.new ≡ noted_below n elements.old }
    ensures count { (names : List (List ℕ)) → Known (length names) (live table.old.entries)
        → IsIndexed names (found_in elements.old) (live table.old.entries)
        → count.old ≡ references_in names (live table.old.entries)
        → count.new ≡ references_in names (live table.new.entries) }
    ensures entries { (names : List (List ℕ)) → Known (length names) (live table.old.entries)
        → IsIndexed names (found_in elements.old) (live table.old.entries)
        → live table.new.entries ≡ filter (λ e. is_below n (name_at names e.0)) (live table.old.entries) }
{
    while let Some(k) = elements.pop_past(n) {
        discount(table, count, k);
        take_out(table, holes, k);
    }
}
