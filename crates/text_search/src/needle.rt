//! Texts that are searched for.
ghost use Rattle.std.specs.Prelude.{◌≡◌, ◌≤◌, None, IfOk, IfSome, nat_le, length, slice_get};
ghost use Rattle.std.specs.List.{filter, last_or};
ghost use Rattle.text_search.specs.Places.{IsFirst, IsLast, places};

use crate::borders::borders;
use crate::finding;
use code_units::{Memory, Text};
use std::alloc::Global;
use std::marker::Model;

/// A text that is searched for, with what is known of it beforehand.
#[derive(Drop)]
pub struct Needle {
    text: Text,
    borders: Vec<usize>,
}

impl Model for Needle {
    ghost use Rattle.std.specs.Prelude.{◌≡◌, List, ℕ, length};
    ghost use Rattle.text_search.specs.Borders.{AreBorders};

    ghost Value = { List ℕ };

    ghost view = { λ n. n.text };

    ghost invariant = { λ n. (length n.borders.items ≡ length n.text) × AreBorders n.text n.borders.items };
}

impl Needle {
    /// Of a text.
    pub fn new(alloc: Global, text: Text) -> Result<Needle, Memory>
        ensures { IfOk result (λ n. n ≡ text) }
    {
        let borders = borders(alloc, text.units())?;
        Ok(Needle { text, borders })
    }

    /// The first place at or after one at which it stands in a text; the empty one stands everywhere,
    /// and at the end.
    pub fn first_from(&self, t: &[u16], from: usize) -> Option<usize>
        requires { from ≤ length t.now }
        ensures value { result ≡ slice_get (filter (nat_le from) (places t.now self.now)) 0 }
        ensures within { IfSome result (λ i. i ≤ length t.now) }
        ensures first { IsFirst t.now self.now from result }
    {
        finding::first_from(t, self.text.units(), &self.borders, from, 0)
    }

    /// The last place at or before one at which it stands in a text.
    pub fn last_to(&self, t: &[u16], to: usize) -> Option<usize>
        requires { to ≤ length t.now }
        ensures value { result ≡ last_or None (filter (λ i. nat_le i to) (places t.now self.now)) }
        ensures within { IfSome result (λ i. i ≤ length t.now) }
        ensures last { IsLast t.now self.now to result }
    {
        if self.borders.is_empty() {
            return Some(to);
        }
        finding::last_to(t, self.text.units(), &self.borders, to)
    }
}
