//! The values of styles.
ghost use Rattle.std.specs.Prelude.{◌≡◌, ◌+◌, ◌<◌, ◌≤◌, true, length, slice_range, nat_le, ◌&&◌, not};
ghost use Rattle.std.specs.List.{list_all};
ghost use Rattle.style_text.specs.Styles.{is_value_unit, is_letter, begins_in_any_case, has_word, is_value};
ghost use Rattle.style_text.specs.Values.{is_open, ends_in_word, extends};

use code_units::Text;

// The most units of a value.
const LONGEST_VALUE: usize = 256;

pub const SPACE: u16 = 0x20;

fn is_value_unit(unit: u16) -> bool
    ensures { result ≡ is_value_unit unit }
{
    matches!(
        unit,
        0x61..=0x7A
            | 0x41..=0x5A
            | 0x30..=0x39
            | 0x20
            | 0x21
            | 0x23
            | 0x25
            | 0x27..=0x29
            | 0x2C..=0x2E
    )
}

// Whether the unit is the lower-case letter, in either case.
fn is_letter(letter: u8, unit: u16) -> bool
    ensures { result ≡ is_letter letter unit }
{
    let letter = u32::from(letter);
    let unit = u32::from(unit);
    unit == letter || unit + 32 == letter
}

// Whether the word stands at the start of the units, in any case.
fn begins_in_any_case(word: &[u8], units: &[u16]) -> bool
    ensures { result ≡ begins_in_any_case word.now units.now }
{
    for (i, letter) in word.iter().enumerate() {
        if i >= units.len() {
            return false;
        }
        if !is_letter(*letter, units[i]) {
            return false;
        }
    }
    true
}

// Whether the word stands somewhere in the units, in any case.
fn has_word(word: &[u8], units: &[u16]) -> bool
    ensures { result ≡ has_word word.now units.now }
{
    for at in 0..units.len() {
        if begins_in_any_case(word, &units[at..]) {
            return true;
        }
    }
    false
}

// Whether the word stands at the end of the units, in any case.
fn ends_in_word(word: &[u8], units: &[u16]) -> bool
    ensures { result ≡ ends_in_word word.now units.now }
{
    word.len() <= units.len() && begins_in_any_case(word, &units[units.len() - word.len()..])
}

fn are_value_units(units: &[u16]) -> bool
    ensures { result ≡ list_all is_value_unit units.now }
{
    units.iter().all(|unit| is_value_unit(*unit))
}

/// Whether the text is a value of a style: 1 to 256 ASCII letters, digits, spaces and
/// `# % . , - ! ( ) '`, neither the first nor the last a space, with neither `url` nor
/// `expression` in any case.
#[tactic(auto, unfolding(crate::specs::Styles::is_value))]
pub fn value_spelled(text: &Text) -> bool
    ensures { result ≡ is_value text.now }
{
    let units = text.units();
    if units.is_empty() || units.len() > LONGEST_VALUE {
        return false;
    }
    are_value_units(units)
        && units[0] != SPACE
        && units[units.len() - 1] != SPACE
        && !has_word(b"url", units)
        && !has_word(b"expression", units)
}

// Whether the last unit goes on with a value.
fn extends(front: &[u16], unit: u16) -> bool
    ensures { result ≡ extends front.now unit }
{
    is_value_unit(unit)
        && unit != SPACE
        && front.len() <= LONGEST_VALUE
        && !ends_in_word(b"url", front)
        && !ends_in_word(b"expression", front)
}

/// Whether the units from `start` up to and with `at` are a value, where those before `at` begin
/// one.
pub fn goes_on(units: &[u16], start: usize, at: usize) -> bool
    requires order { start ≤ at }
    requires inside { at < length units.now }
    requires begun { is_open (slice_range units.now start at) ≡ true }
    ensures { result ≡ is_value (slice_range units.now start (at + 1)) }
{
    extends(&units[start..at + 1], units[at])
}
