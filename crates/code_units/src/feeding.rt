//! Texts of 16-bit units as the words that a hasher is fed with.
ghost use Rattle.std.specs.Prelude.{◌≡◌, ◌<◌, length, get_or};
ghost use Rattle.std.specs.List.{fold};
ghost use Rattle.code_units.specs.Feeding.{word, last, input};

use std::hash::Hasher;

/// Feeds a hasher with the units of a text, as the `Hash` of [`Text`](crate::Text) does.
pub fn feed<H: Hasher>(units: &[u16], state: &mut H)
    ensures { state.new ≡ fold H.write state.old (input units.now) }
{
    let mut at = 0;
    'words: while units.len() - at >= 4 {
        state.write_u64(word_of(units[at], units[at + 1], units[at + 2], units[at + 3]));
        at += 4;
    }
    state.write_u64(last_word(&units[at..]));
}

// The last word, with the units that are left.
fn last_word(units: &[u16]) -> u64
    requires { length units.now < 4 }
    ensures { result ≡ last units.now }
{
    let count = units.len() as u16;
    word_of(
        unit_at(units, 0),
        unit_at(units, 1),
        unit_at(units, 2),
        count,
    )
}

// The unit at a place, 0 past the end.
fn unit_at(units: &[u16], at: usize) -> u16
    ensures { result ≡ get_or units.now at 0 }
{
    if at < units.len() { units[at] } else { 0 }
}

// Four numbers of 16 bits in a word.
fn word_of(a: u16, b: u16, c: u16, d: u16) -> u64
    ensures { result ≡ word a b c d }
{
    u64::from(a)
        + u64::from(b) * 0x1_0000
        + u64::from(c) * 0x1_0000_0000
        + u64::from(d) * 0x1_0000_0000_0000
}
