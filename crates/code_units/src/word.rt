//! Texts and ASCII words.
ghost use Rattle.std.specs.Prelude.{◌≡◌};
ghost use Rattle.std.specs.Str.{bytes_eq};
ghost use Rattle.code_units.specs.Words.{begins_with};

use crate::text::Text;

/// Whether the text is this ASCII word.
pub fn is_word(text: &Text, word: &[u8]) -> bool
    ensures { result ≡ bytes_eq text.now word.now }
{
    spells(text.units(), word)
}

/// Whether the units are those of the ASCII word.
pub fn spells(units: &[u16], word: &[u8]) -> bool
    ensures { result ≡ bytes_eq units.now word.now }
{
    if units.len() != word.len() {
        return false;
    }
    for (i, byte) in word.iter().enumerate() {
        if units[i] != u16::from(*byte) {
            return false;
        }
    }
    true
}

/// Whether the ASCII word begins with the units.
pub fn begins_with(word: &[u8], front: &[u16]) -> bool
    ensures { result ≡ begins_with word.now front.now }
{
    front.len() <= word.len() && spells(front, &word[..front.len()])
}
