//! The indices of an Array's elements.
ghost use Rattle.std.specs.Prelude.{◌≡◌, suc, ◌+◌, ◌<◌, ◌≤◌, [], ◌∷◌, None, true, length, IfNone, IfSome, MatchOption, OnErr, OnOk, IfOk};
ghost use Rattle.store_cells.specs.Listed.{AreBelow, IsLastPast, IsLastRuled, IsNext};
ghost use Rattle.store_cells.specs.Numbered.{found_in, noted};
ghost use Rattle.store_cells.specs.Holes.{IsNonePast, IsPoppedPast};

use code_units::Memory;
use property_names::{FIRST_INDEX, RULED};
use std::alloc::Global;
use std::collections::BTreeMap;
use std::marker::Model;

/// The numbers of names by the indices that these are, in a table that is made with the first one.
#[derive(Drop)]
pub(crate) struct Elements {
    table: Option<Box<Indices>>,
    alloc: Global,
}

// The numbers by the indices: those below `upto` have their numbers by rule, and others stand in a map.
#[derive(Drop)]
struct Indices {
    upto: u32,
    far: BTreeMap<u32, u32>,
}

impl Model for Elements {
    ghost use Rattle.std.specs.Prelude.{List, ℕ};
    ghost use Rattle.store_cells.specs.Listed.{listed};

    ghost Value = { List (ℕ × ℕ) };

    ghost view = { λ e. listed e.table };
}

impl Model for Indices {
    ghost use Rattle.std.specs.Prelude.{List, ℕ};
    ghost use Rattle.store_cells.specs.Listed.{AreListed, joined};

    ghost Value = { List (ℕ × ℕ) };

    ghost view = { λ t. joined t.upto t.far.entries };

    ghost invariant = { λ t. AreListed t.upto t.far.entries };
}

impl Elements {
    /// No index.
    pub(crate) fn new(alloc: Global) -> Elements
        ensures { result ≡ [] }
    {
        Elements { table: None, alloc }
    }

    /// The number of the name that is an index.
    pub(crate) fn get(&self, at: u32) -> Option<u32>
        ensures { result ≡ found_in self.now at }
    {
        match &self.table {
            None => None,
            Some(table) => table.get(at),
        }
    }

    /// Whether all indices are below one; no, where none is noted.
    pub(crate) fn are_below(&self, n: u32) -> bool
        ensures { result ≡ true → IsNonePast n self.now }
    {
        match &self.table {
            None => false,
            Some(table) => table.are_below(n),
        }
    }

    /// Notes a name as an index.
    pub(crate) fn note(&mut self, at: u32, n: u32) -> Result<(), Memory>
        ensures ok { OnOk result (self.new ≡ noted (suc at) n self.old) }
        ensures err { OnErr result (self.new ≡ self.old) }
    {
        match &mut self.table {
            None => {
                self.table = Some(first(self.alloc, at, n)?);
                Ok(())
            }
            Some(table) => table.note(at, n),
        }
    }

    /// Whether a name is noted as an index already; no, where that is not by rule.
    #[inline(always)]
    pub(crate) fn is_noted(&self, at: u32, n: u32) -> bool
        ensures { result ≡ true → noted (suc at) n self.now ≡ self.now }
    {
        match &self.table {
            None => false,
            Some(table) => table.is_noted(at, n),
        }
    }

    /// Takes out the last element, where it is one from an index on.
    pub(crate) fn pop_past(&mut self, n: u32) -> Option<u32>
        ensures popped { MatchOption result ((self.new ≡ self.old) × IsNonePast n self.old)
            (λ k. IsPoppedPast n k self.old self.new) }
        ensures less { IfSome result (λ k. length self.new < length self.old) }
    {
        match &mut self.table {
            None => None,
            Some(table) => table.pop_past(n),
        }
    }
}

// A table with its first index.
fn first(alloc: Global, at: u32, n: u32) -> Result<Box<Indices>, Memory>
    ensures { IfOk result (λ table. table.value ≡ (at, n) ∷ []) }
{
    let mut table = Indices::new(alloc);
    table.note(at, n)?;
    Ok(Box::new(alloc, table)?)
}

impl Indices {
    fn new(alloc: Global) -> Indices
        ensures { result ≡ [] }
    {
        Indices {
            upto: 0,
            far: BTreeMap::new(alloc),
        }
    }

    fn get(&self, at: u32) -> Option<u32>
        ensures { result ≡ found_in self.now at }
    {
        if at < self.upto {
            Some(ruled_number(at))
        } else {
            far_at(&self.far, at)
        }
    }

    fn are_below(&self, n: u32) -> bool
        ensures { result ≡ true → IsNonePast n self.now }
    {
        if self.upto > n {
            return false;
        }
        is_far_below(&self.far, n)
    }

    #[inline(always)]
    fn is_noted(&self, at: u32, n: u32) -> bool
        ensures { result ≡ true → noted (suc at) n self.now ≡ self.now }
    {
        if at < self.upto {
            return ruled_number(at) == n;
        }
        false
    }

    // An index below `upto` is noted already, under its number by rule and under no other.
    fn note(&mut self, at: u32, n: u32) -> Result<(), Memory>
        ensures ok { OnOk result (self.new ≡ noted (suc at) n self.old) }
        ensures err { OnErr result (self.new ≡ self.old) }
    {
        if at < self.upto {
            check_number(at, n)?;
            return Ok(());
        }
        if is_next(self.upto, &self.far, at, n) {
            self.upto += 1;
            return Ok(());
        }
        self.far.insert(at, n)?;
        Ok(())
    }

    fn pop_past(&mut self, n: u32) -> Option<u32>
        ensures popped { MatchOption result ((self.new ≡ self.old) × IsNonePast n self.old)
            (λ k. IsPoppedPast n k self.old self.new) }
        ensures less { IfSome result (λ k. length self.new < length self.old) }
    {
        match pop_far(&mut self.far, n) {
            Some(k) => Some(k),
            None => pop_near(&mut self.upto, n),
        }
    }
}

// The number by rule of an index.
fn ruled_number(at: u32) -> u32
    requires { at < RULED }
    ensures { result ≡ FIRST_INDEX + at }
{
    FIRST_INDEX + at
}

// Whether a number is that of an index by rule.
fn check_number(at: u32, n: u32) -> Result<(), Memory>
    requires { at < RULED }
    ensures { OnOk result (n ≡ FIRST_INDEX + at) }
{
    if n == ruled_number(at) {
        Ok(())
    } else {
        Err(Memory)
    }
}

// Whether an index is the first that is not noted, and has its number by rule.
fn is_next(upto: u32, far: &BTreeMap<u32, u32>, at: u32, n: u32) -> bool
    ensures { result ≡ true → IsNext upto far.now.entries at n }
{
    if at != upto || at >= RULED {
        return false;
    }
    if n != ruled_number(at) {
        return false;
    }
    match far_at(far, at) {
        None => true,
        Some(_) => false,
    }
}

fn far_at(far: &BTreeMap<u32, u32>, at: u32) -> Option<u32>
    ensures { result ≡ found_in far.now.entries at }
{
    far.get(&at).copied()
}

fn is_far_below(far: &BTreeMap<u32, u32>, n: u32) -> bool
    ensures { result ≡ true → AreBelow n far.now.entries }
{
    match far.last_key_value() {
        None => true,
        Some((at, _number)) => *at < n,
    }
}

// Takes out the last index of a map, where it is one from another on.
fn pop_far(far: &mut BTreeMap<u32, u32>, n: u32) -> Option<u32>
    ensures popped { IfSome result (λ k. IsLastPast n k far.old.entries far.new.entries) }
    ensures same { IfNone result (far.new.entries ≡ far.old.entries) }
    ensures below { IfNone result (AreBelow n far.old.entries) }
{
    let (at, _number) = far.last_key_value()?;
    if *at < n {
        return None;
    }
    let (_at, k) = far.pop_last()?;
    Some(k)
}

// Takes out the last index by rule, where it is one from another on.
fn pop_near(upto: &mut u32, n: u32) -> Option<u32>
    requires { upto.old ≤ RULED }
    ensures popped { IfSome result (λ k. IsLastRuled n k upto.old upto.new) }
    ensures same { IfNone result ((upto.new ≡ upto.old) × (upto.old ≤ n)) }
{
    if *upto <= n {
        return None;
    }
    *upto -= 1;
    Some(ruled_number(*upto))
}
