//! Names of properties.
ghost use Rattle.std.specs.Prelude.{◌≡◌, ◌<◌, ◌^◌, length, IfOk, IfSome, OnErr, Some, None, false, slice_get, option_copied, MatchOption, codes, not, ◌&&◌};
ghost use Rattle.std.specs.Fmt.{decimal};
ghost use Rattle.std.specs.List.{list_any};
ghost use Rattle.std.specs.Option.{option_and_then, option_map_or};
ghost use Rattle.std.specs.Str.{bytes_eq};
ghost use Rattle.code_units.specs.Indices.{index_of};
ghost use Rattle.code_units.specs.Permitted.{is_permitted};
ghost use Rattle.code_units.specs.Whole.{is_numeral};
ghost use Rattle.keyed_names.specs.Interned.{Interns, IsTable};
ghost use Rattle.property_names.specs.Seen.{HasWords, first_keys, place_of, ruled_index, ruled_number, shifted};

use code_units::{Memory, Text, index_of, is_word, permitted, whole_text};
use keyed_names::{Keys, Names, NumberKeys};
use std::alloc::{AllocError, Global};
use std::marker::Model;

/// How many array indices, from 0 on, have their numbers by rule.
pub const RULED: u32 = 1_073_741_824;

/// The number of the index 0. The numbers 0 and 1 are those of `length` and `___nodes___`.
pub const FIRST_INDEX: u32 = 2;

/// The names of properties. Each array index below a bound is one from the first, without a text that
/// is kept; others are interned behind these. Equal texts have one number.
#[derive(Drop)]
pub struct PropertyNames {
    names: Names,
    key: NumberKeys,
}

impl Model for PropertyNames {
    ghost use Rattle.std.specs.Prelude.{List, ℕ};
    ghost use Rattle.property_names.specs.Seen.{AreOthers, seen};

    ghost Value = { List (List ℕ) };

    ghost view = { λ t. seen t.names };

    ghost invariant = { λ t. AreOthers t.names };
}

// Whether a name begins as an index does. Most names do not, and are looked at no further.
#[inline]
fn begins_with_digit(units: &[u16]) -> bool
    ensures { result ≡ false → is_numeral 10 units.now ≡ false }
{
    match units.first() {
        Some(unit) => (48..=57).contains(unit),
        None => false,
    }
}

// The index that a name is, where it has its number by rule.
fn ruled(name: &Text) -> Option<u32>
    ensures { result ≡ ruled_index name.now }
{
    if !begins_with_digit(name.units()) {
        return None;
    }
    match index_of(name) {
        Some(i) if i < RULED => Some(i),
        _ => None,
    }
}

// The index that has a number by rule.
fn ruled_at(n: u32) -> Option<u32>
    ensures { result ≡ ruled_number n }
{
    if n >= FIRST_INDEX && n - FIRST_INDEX < RULED {
        Some(n - FIRST_INDEX)
    } else {
        None
    }
}

// The number of the interned name at a place.
#[inline(always)]
fn shifted(place: u32) -> u32
    requires { place < RULED }
    ensures { result ≡ shifted place }
{
    if place < FIRST_INDEX {
        place
    } else {
        place + RULED
    }
}

// The place of the interned name with a number that is not by rule.
fn place_of(n: u32) -> u32
    ensures { result ≡ place_of n }
{
    if n < FIRST_INDEX {
        n
    } else {
        n.saturating_sub(RULED)
    }
}

// The text of an index.
fn index_text(alloc: Global, i: u32) -> Result<Text, Memory>
    ensures { IfOk result (λ t. t ≡ decimal i) }
{
    whole_text(alloc, i64::from(i))
}

// A text of ASCII letters.
fn text_of(alloc: Global, word: &str) -> Result<Text, Memory>
    ensures { IfOk result (λ t. t ≡ word.now) }
{
    let units = units_of(alloc, word)?;
    Text::from_units(alloc, units)
}

fn units_of(alloc: Global, word: &str) -> Result<Vec<u16>, AllocError>
    ensures { IfOk result (λ units. units.items ≡ word.now) }
{
    word.bytes().map(u16::from).collect(alloc)
}

// The two interned names with fixed numbers.
fn first_names(alloc: Global, keys: Keys) -> Result<Names, Memory>
    ensures { IfOk result (λ names. names ≡ first_keys) }
{
    let mut names = Names::new(alloc, keys)?;
    names.intern(&text_of(alloc, "length")?)?;
    names.intern(&text_of(alloc, "___nodes___")?)?;
    Ok(names)
}

impl PropertyNames {
    /// The names that every table has: the indices, `length` and `___nodes___`. It hashes by these keys.
    pub fn new(alloc: Global, keys: Keys) -> Result<PropertyNames, Memory>
        ensures table { IfOk result (λ names. IsTable names) }
        ensures words { IfOk result (λ names. HasWords names) }
    {
        let names = first_names(alloc, keys)?;
        let key = keys.for_numbers();
        Ok(PropertyNames { names, key })
    }

    /// The number of the name, the next free one where it is new. A name that is there takes no
    /// memory, and a refusal changes nothing.
    pub fn intern(&mut self, name: &Text) -> Result<u32, Memory>
        requires { length self.old < 2 ^ 31 }
        ensures ok { IfOk result (Interns self.old self.new name.now) }
        ensures err { OnErr result (self.new ≡ self.old) }
        ensures table { IsTable self.new }
    {
        match self.number(name) {
            Some(n) => Ok(n),
            None => self.intern_new(name),
        }
    }

    // The next free number for a name that is new.
    fn intern_new(&mut self, name: &Text) -> Result<u32, Memory>
        requires few { length self.old < 2 ^ 31 }
        requires absent { list_any (bytes_eq name.now) self.old ≡ false }
        ensures ok { IfOk result (Interns self.old self.new name.now) }
        ensures err { OnErr result (self.new ≡ self.old) }
        ensures table { IsTable self.new }
    {
        let place = self.names.intern(name)?;
        Ok(shifted(place))
    }

    /// The number of the name, none exactly where it is none of these. An index below the bound is
    /// not hashed.
    #[inline(always)]
    pub fn number(&self, name: &Text) -> Option<u32>
        ensures found { MatchOption result (list_any (bytes_eq name.now) self.now ≡ false)
            (λ n. (slice_get self.now n ≡ Some name.now) × (n < length self.now)) }
        ensures table { IsTable self.now }
    {
        // To read the field opens what the type keeps.
        let _names = &self.names;
        match self.names.hinted(name) {
            Some(place) => Some(shifted(place)),
            None => self.looked_up(name),
        }
    }

    /// The number of a short name that was found before.
    #[inline(always)]
    pub fn quick(&self, name: &Text) -> Option<u32>
        ensures { IfSome result (λ n. (slice_get self.now n ≡ Some name.now) × (n < length self.now)) }
    {
        // To read the field opens what the type keeps.
        let _names = &self.names;
        let place = self.names.quick(name)?;
        Some(shifted(place))
    }

    /// The number of the name that an index below the bound is.
    #[inline(always)]
    pub fn of_index(&self, i: u32) -> u32
        requires { i < RULED }
        ensures number { slice_get self.now result ≡ Some (decimal i) }
        ensures within { result < length self.now }
    {
        // To read the field opens what the type keeps.
        let _names = &self.names;
        FIRST_INDEX + i
    }

    // The number of a name that was not found before.
    #[inline(never)]
    fn looked_up(&self, name: &Text) -> Option<u32>
        ensures { MatchOption result (list_any (bytes_eq name.now) self.now ≡ false)
            (λ n. (slice_get self.now n ≡ Some name.now) × (n < length self.now)) }
    {
        let _names = &self.names;
        match ruled(name) {
            Some(i) => Some(FIRST_INDEX + i),
            None => self.interned(name),
        }
    }

    // The number of a name that is no index below the bound.
    fn interned(&self, name: &Text) -> Option<u32>
        requires { ruled_index name.now ≡ None }
        ensures { MatchOption result (list_any (bytes_eq name.now) self.now ≡ false)
            (λ n. (slice_get self.now n ≡ Some name.now) × (n < length self.now)) }
    {
        let place = self.names.number(name)?;
        Some(shifted(place))
    }

    /// The name with a number, none exactly where no name has it.
    pub fn text(&self, alloc: Global, n: u32) -> Result<Option<Text>, Memory>
        ensures { IfOk result (λ text. text ≡ slice_get self.now n) }
    {
        let _names = &self.names;
        match ruled_at(n) {
            Some(i) => Ok(Some(index_text(alloc, i)?)),
            None => self.interned_text(n),
        }
    }

    // The interned name with a number.
    fn interned_text(&self, n: u32) -> Result<Option<Text>, Memory>
        requires { ruled_number n ≡ None }
        ensures { IfOk result (λ text. text ≡ slice_get self.now n) }
    {
        match self.interned_at(n) {
            None => Ok(None),
            Some(text) => Ok(Some(text.share()?)),
        }
    }

    fn interned_at(&self, n: u32) -> Option<&Text>
        requires { ruled_number n ≡ None }
        ensures { option_copied result ≡ slice_get self.now n }
    {
        self.names.text(place_of(n))
    }

    /// The index that the name with a number is.
    pub fn index(&self, n: u32) -> Option<u32>
        ensures { result ≡ option_and_then index_of (slice_get self.now n) }
    {
        let _names = &self.names;
        match ruled_at(n) {
            Some(i) => Some(i),
            None => self.interned_index(n),
        }
    }

    fn interned_index(&self, n: u32) -> Option<u32>
        requires { ruled_number n ≡ None }
        ensures { result ≡ option_and_then index_of (slice_get self.now n) }
    {
        match self.interned_at(n) {
            None => None,
            Some(name) => index_of(name),
        }
    }

    /// Whether a name is listed: it is permitted, and no `length` of an Array. A number that no name has
    /// is not.
    pub fn is_listed(&self, array: bool, n: u32) -> bool
        ensures { result ≡ option_map_or
            (λ name. is_permitted name && not (array && bytes_eq name (codes "length")))
            (slice_get self.now n) false }
    {
        let _names = &self.names;
        match ruled_at(n) {
            Some(_i) => true,
            None => self.is_interned_listed(array, n),
        }
    }

    fn is_interned_listed(&self, array: bool, n: u32) -> bool
        requires { ruled_number n ≡ None }
        ensures { result ≡ option_map_or
            (λ name. is_permitted name && not (array && bytes_eq name (codes "length")))
            (slice_get self.now n) false }
    {
        match self.interned_at(n) {
            None => false,
            Some(name) => permitted(name) && !(array && is_word(name, b"length")),
        }
    }

    /// The key of the hash of tables of numbers.
    pub fn key(&self) -> &NumberKeys {
        &self.key
    }

    /// How many names there are.
    pub fn len(&self) -> usize
        ensures { result ≡ length self.now }
    {
        self.names.len() + RULED as usize
    }
}
