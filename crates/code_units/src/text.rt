//! A shared text of 16-bit units, which keeps no hash, and a hint where it was found last.
ghost use Rattle.std.specs.Prelude.{◌≡◌, IfOk, true};

use crate::feeding::feed;
use crate::memory::Memory;
use std::alloc::Global;
use std::cell::Cell;
use std::cmp::{Eq, Ord, Ordering, PartialEq, PartialOrd};
use std::hash::{Hash, Hasher};
use std::marker::Model;
use std::rc::Rc;

// What all holders of a text share: its units, and the number under which a table of names knows it,
// which is a hint and promises nothing.
#[derive(Drop)]
struct Shared {
    units: Vec<u16>,
    hint: Cell<u32>,
}

// The hint of a text that was not looked up yet.
const NO_HINT: u32 = u32::MAX;

// The most units of a text that is compared in place.
const SHORT: usize = 12;

// Whether units are the same, without a call.
#[inline(always)]
fn are_same(a: &[u16], b: &[u16]) -> bool
    ensures { result ≡ true → a.now ≡ b.now }
{
    if a.len() != b.len() {
        return false;
    }
    for k in 0..a.len() {
        if a[k] != b[k] {
            return false;
        }
    }
    true
}

/// A shared list of 16-bit units.
#[derive(Drop)]
pub struct Text {
    shared: Rc<Shared>,
}

impl Model for Text {
    ghost use Rattle.std.specs.Prelude.{List, ℕ, ◌≡◌};

    ghost Value = { List ℕ };

    ghost view = { λ t. t.shared.value.units.items };
}

impl Text {
    /// A text of these units.
    pub fn from_units(alloc: Global, units: Vec<u16>) -> Result<Text, Memory>
        ensures { IfOk result (λ t. t ≡ units.items) }
    {
        let shared = Shared {
            units,
            hint: Cell::new(NO_HINT),
        };
        Ok(Text {
            shared: Rc::new(alloc, shared)?,
        })
    }

    /// The same list for a second holder.
    pub fn share(&self) -> Result<Text, Memory>
        ensures { IfOk result (λ t. t ≡ self.now) }
    {
        Ok(Text {
            shared: self.shared.clone()?,
        })
    }

    /// The units.
    pub fn units(&self) -> &[u16]
        ensures { result.now ≡ self.now }
    {
        self.shared.units.as_slice()
    }

    /// Where a table of names has it, as the last one to set the hint knew; any number, else.
    pub fn hint(&self) -> u32 {
        self.shared.hint.get()
    }

    /// Whether both are short, and the same.
    #[inline(always)]
    pub fn is_short_same(&self, other: &Text) -> bool
        ensures { result ≡ true → self.now ≡ other.now }
    {
        self.units().len() <= SHORT && are_same(self.units(), other.units())
    }

    /// Sets the hint, for all holders of the text.
    pub fn set_hint(&self, number: u32) {
        self.shared.hint.set(number);
    }
}

impl PartialEq for Text {
    ghost use Rattle.std.specs.Str.{bytes_eq};
    ghost use Rattle.std.specs.Cmp.{partial_equiv_from_equiv};
    ghost use Rattle.std.specs.Cmp.Lexicographic.{nat_list_eq_equiv};

    ghost eq = { bytes_eq };

    ghost laws = { partial_equiv_from_equiv nat_list_eq_equiv };

    fn eq(&self, other: &Text) -> bool {
        self.units() == other.units()
    }
}

impl Eq for Text {
    ghost use Rattle.std.specs.Cmp.Lexicographic.{nat_list_eq_equiv};

    ghost laws = { nat_list_eq_equiv };
}

impl Hash for Text {
    ghost use Rattle.std.proofs.Common.{ap};
    ghost use Rattle.std.proofs.lemmas.Slice.Eq.{bytes_eq-Decides};
    ghost use Rattle.code_units.specs.Feeding.{input};

    ghost hash_input = { λ t. input t };

    ghost respects_eq = { λ x y h. ap (λ t. input t) ((bytes_eq-Decides x y).0 h) };

    fn hash<H: Hasher>(&self, state: &mut H) {
        feed(self.units(), state);
    }
}

impl PartialOrd for Text {
    ghost use Rattle.std.specs.Prelude.{Some};
    ghost use Rattle.std.specs.Ordering.{nat_cmp};
    ghost use Rattle.std.specs.Cmp.Lexicographic.{slice_cmp, texts_po};

    ghost partial_cmp = { λ x y. Some (slice_cmp nat_cmp x y) };

    ghost laws = { texts_po };

    fn partial_cmp(&self, other: &Text) -> Option<Ordering> {
        Some(self.units().cmp(other.units()))
    }
}

impl Ord for Text {
    ghost use Rattle.std.proofs.Common.{refl};
    ghost use Rattle.std.specs.Ordering.{nat_cmp};
    ghost use Rattle.std.specs.Cmp.Lexicographic.{slice_cmp, nat_list_cmp_total, texts_ties};

    ghost cmp = { slice_cmp nat_cmp };

    ghost total = { nat_list_cmp_total };

    ghost matches_partial_cmp = { λ x y. refl };

    ghost matches_eq = { texts_ties };

    fn cmp(&self, other: &Text) -> Ordering {
        self.units().cmp(other.units())
    }
}
