//! Interned names.
ghost use Rattle.std.specs.Prelude.{◌≡◌, ◌↔◌, ◌<◌, ◌^◌, [], length, IsTrue, IfOk, IfSome, OnErr, Some, true, false, slice_get, option_copied, MatchOption};
ghost use Rattle.std.specs.List.{list_any};
ghost use Rattle.std.specs.Str.{bytes_eq};
ghost use Rattle.keyed_names.specs.Interned.{Interns, IsTable};

use crate::keys::Keys;
use code_units::{Memory, Text};
use indexmap::IndexSet;
use std::alloc::Global;
use std::marker::Model;

// Room for the names that a page has at first.
const FIRST_NAMES: usize = 256;

/// A table of interned names: a name's number is its place, and equal texts have one number.
#[derive(Drop)]
pub struct Names {
    set: IndexSet<Text, Keys>,
}

impl Model for Names {
    ghost use Rattle.std.specs.Prelude.{List, ℕ};
    ghost use Rattle.keyed_names.specs.Interned.{IsTable};

    ghost Value = { List (List ℕ) };

    ghost view = { λ n. n.set.keys };

    ghost invariant = { λ n. IsTable n.set.keys };
}

impl Names {
    /// An empty table that hashes by these keys.
    pub fn new(alloc: Global, keys: Keys) -> Result<Names, Memory>
        ensures { IfOk result (λ names. names ≡ []) }
    {
        Ok(Names {
            set: IndexSet::with_capacity_and_hasher(alloc, FIRST_NAMES, keys)?,
        })
    }

    /// The number of the name, the next free one where it is new. A name that is there takes no
    /// memory, and a refusal changes nothing.
    pub fn intern(&mut self, name: &Text) -> Result<u32, Memory>
        requires { length self.old < 2 ^ 31 }
        ensures ok { IfOk result (Interns self.old self.new name.now) }
        ensures err { OnErr result (self.new ≡ self.old) }
        ensures table { IsTable self.new }
    {
        if let Some(n) = self.number(name) {
            return Ok(n);
        }
        let n = self.set.len() as u32;
        self.set.insert(name.share()?)?;
        name.set_hint(n);
        Ok(n)
    }

    /// The number of the name, none exactly where it was not interned. A text that was found before
    /// is compared with the name that it was then, and is not hashed again.
    pub fn number(&self, name: &Text) -> Option<u32>
        ensures found { MatchOption result (list_any (bytes_eq name.now) self.now ≡ false)
            (λ n. (slice_get self.now n ≡ Some name.now) × (n < length self.now)) }
        ensures table { IsTable self.now }
    {
        match self.hinted(name) {
            Some(n) => Some(n),
            None => self.looked_up(name),
        }
    }

    /// The number under which a short name was found last, where it has it.
    #[inline(always)]
    pub fn quick(&self, name: &Text) -> Option<u32>
        ensures found { IfSome result (λ n. (slice_get self.now n ≡ Some name.now) × (n < length self.now)) }
    {
        let n = name.hint();
        match self.set.get_index(n as usize) {
            Some(known) if known.is_short_same(name) => Some(n),
            _ => None,
        }
    }

    /// The number under which the name was found last, where it has it.
    #[inline(always)]
    pub fn hinted(&self, name: &Text) -> Option<u32>
        ensures found { IfSome result (λ n. (slice_get self.now n ≡ Some name.now) × (n < length self.now)) }
        ensures table { IsTable self.now }
    {
        let hint = name.hint();
        if self.is_at(hint, name) {
            Some(hint)
        } else {
            None
        }
    }

    // Whether a name has a number.
    #[inline(always)]
    fn is_at(&self, n: u32, name: &Text) -> bool
        ensures found { result ≡ true → slice_get self.now n ≡ Some name.now }
        ensures table { IsTable self.now }
    {
        match self.set.get_index(n as usize) {
            Some(known) => known == name,
            None => false,
        }
    }

    // The number of the name by its hash, which then is its hint.
    #[inline(never)]
    #[tactic(auto, using(crate::proofs::Interning::found_at))]
    fn looked_up(&self, name: &Text) -> Option<u32>
        ensures found { MatchOption result (list_any (bytes_eq name.now) self.now ≡ false)
            (λ n. (slice_get self.now n ≡ Some name.now) × (n < length self.now)) }
        ensures table { IsTable self.now }
    {
        let n = self.set.get_index_of(name)? as u32;
        name.set_hint(n);
        Some(n)
    }

    /// The name with a number, none exactly where no name has it.
    pub fn text(&self, n: u32) -> Option<&Text>
        ensures { option_copied result ≡ slice_get self.now n }
    {
        self.set.get_index(n as usize)
    }

    /// How many names there are.
    pub fn len(&self) -> usize
        ensures { result ≡ length self.now }
    {
        self.set.len()
    }

    /// Whether there is no name.
    pub fn is_empty(&self) -> bool
        ensures { IsTrue result ↔ (self.now ≡ []) }
    {
        self.set.is_empty()
    }
}
