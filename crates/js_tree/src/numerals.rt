//! Number literals.
ghost use Rattle.std.specs.Prelude.{◌≡◌};
ghost use Rattle.code_units.specs.Whole.{number_in};

use code_units::{Text, WholeRead, read_whole};
use std::marker::Model;

/// A number literal: its text, and the number that this spells, which is read once.
#[derive(Drop)]
pub struct Numeral {
    text: Text,
    number: WholeRead,
}

impl Model for Numeral {
    ghost use Rattle.std.specs.Prelude.{List, ℕ, ◌≡◌};
    ghost use Rattle.code_units.specs.Whole.{number_in};

    ghost Value = { List ℕ };

    ghost view = { λ n. n.text };

    ghost invariant = { λ n. n.number ≡ number_in n.text };
}

impl Numeral {
    /// The literal with this text.
    pub fn new(text: Text) -> Numeral
        ensures { result ≡ text }
    {
        let number = read_whole(&text);
        Numeral { text, number }
    }

    /// Its text.
    pub fn text(&self) -> &Text
        ensures { result.now ≡ self.now }
    {
        &self.text
    }

    /// The number that its text spells (`read_whole` of `code_units`).
    #[inline(always)]
    pub fn number(&self) -> WholeRead
        ensures { result ≡ number_in self.now }
    {
        self.number
    }
}
