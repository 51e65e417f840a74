//! Words as keys of tables.
ghost use Rattle.std.specs.Prelude.{◌≡◌};

use code_units::feed;
use indexmap::IndexSet;
use keyed_names::Keys;
use std::hash::{Hash, Hasher};
use std::marker::Model;

/// A word that is looked up: units of a text, which are hashed as a text is.
#[derive(Drop)]
pub struct Word<'a> {
    units: &'a [u16],
}

/// A set of words. Whoever chooses them does not know the keys by which it hashes.
pub type Words<'a> = IndexSet<Word<'a>, Keys>;

impl<'a> Model for Word<'a> {
    ghost use Rattle.std.specs.Prelude.{List, ℕ};

    ghost Value = { List ℕ };

    ghost view = { λ w. w.units.now };
}

impl<'a> Word<'a> {
    /// The word of these units.
    pub fn new(units: &'a [u16]) -> Word<'a>
        ensures { result ≡ units.now }
    {
        Word { units }
    }
}

impl<'a> PartialEq for Word<'a> {
    ghost use Rattle.std.specs.Str.{bytes_eq};
    ghost use Rattle.std.specs.Cmp.{partial_equiv_from_equiv};
    ghost use Rattle.std.specs.Cmp.Lexicographic.{nat_list_eq_equiv};

    ghost eq = { bytes_eq };

    ghost laws = { partial_equiv_from_equiv nat_list_eq_equiv };

    fn eq(&self, other: &Word<'a>) -> bool {
        self.units == other.units
    }
}

impl<'a> Eq for Word<'a> {
    ghost use Rattle.std.specs.Cmp.Lexicographic.{nat_list_eq_equiv};

    ghost laws = { nat_list_eq_equiv };
}

impl<'a> Hash for Word<'a> {
    ghost use Rattle.std.proofs.Common.{ap};
    ghost use Rattle.std.proofs.lemmas.Slice.Eq.{bytes_eq-Decides};
    ghost use Rattle.code_units.specs.Feeding.{input};

    ghost hash_input = { λ w. input w };

    ghost respects_eq = { λ x y h. ap (λ w. input w) ((bytes_eq-Decides x y).0 h) };

    fn hash<H: Hasher>(&self, state: &mut H) {
        feed(self.units, state);
    }
}
