//! Units that are taken, and units of words.
ghost use Rattle.std.specs.Prelude.{◌≡◌, ◌∷◌, ◌+◌, [], IfOk, IfSome, ◌<◌, length, drop, MatchOption};

use code_units::{Memory, Text};
use std::alloc::Global;
use std::mem;

/// The text of the units, which are taken out.
pub fn take_text(alloc: Global, units: &mut Vec<u16>) -> Result<Text, Memory>
    ensures { IfOk result (λ t. t ≡ units.old.items) }
{
    Text::from_units(alloc, mem::replace(units, Vec::new(alloc)))
}

/// The unit of a word at a place; none behind its end.
pub fn unit_at(word: &[u16], at: usize) -> Option<u16>
    ensures unit { MatchOption result (drop at word.now ≡ []) (λ u. drop at word.now ≡ u ∷ drop (at + 1) word.now) }
    ensures within { IfSome result (λ _. at < length word.now) }
{
    word.get(at).copied()
}

/// The byte of a word at a place; none behind its end.
pub fn byte_at(word: &[u8], at: usize) -> Option<u8>
    ensures { MatchOption result (drop at word.now ≡ []) (λ u. drop at word.now ≡ u ∷ drop (at + 1) word.now) }
{
    word.get(at).copied()
}
