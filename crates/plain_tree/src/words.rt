//! Plain words, and the types of events.
ghost use Rattle.std.specs.Prelude.{◌≡◌};
ghost use Rattle.std.specs.List.{list_all};
ghost use Rattle.plain_tree.specs.Names.{is_letter};
ghost use Rattle.plain_tree.specs.Words.{is_plain_unit, is_plain_words, is_event_type};

use code_units::Text;

const MAX_EVENT_TYPE: usize = 16;

/// Whether each unit of the value is an ASCII letter, a digit, a space, `_`, `-` or `/`, as rule M09
/// asks of a `class`, a `name` and a `type`.
pub fn plain_words(value: &Text) -> bool
    ensures { result ≡ is_plain_words value.now }
{
    value.units().iter().all(|unit| is_plain_unit(*unit))
}

fn is_plain_unit(unit: u16) -> bool
    ensures { result ≡ is_plain_unit unit }
{
    matches!(unit, 0x20 | 0x2D | 0x2F..=0x39 | 0x41..=0x5A | 0x5F | 0x61..=0x7A)
}

/// Whether the text is a type of events: 1 to 16 letters `a` to `z`.
pub fn is_event_type(text: &Text) -> bool
    ensures { result ≡ is_event_type text.now }
{
    let units = text.units();
    1 <= units.len() && units.len() <= MAX_EVENT_TYPE && are_letters(units)
}

fn are_letters(units: &[u16]) -> bool
    ensures { result ≡ list_all is_letter units.now }
{
    units.iter().all(|unit| is_letter(*unit))
}

// Whether the unit is a letter `a` to `z`.
fn is_letter(unit: u16) -> bool
    ensures { result ≡ is_letter unit }
{
    97 <= unit && unit <= 122
}
