//! Styles in their printed form, without memory.
ghost use Rattle.std.specs.Prelude.{◌≡◌, ℕ, List, [], ◌++◌, codes, if◌then◌else◌, MatchOption};
ghost use Rattle.std.specs.Str.{bytes_eq};
ghost use Rattle.style_text.specs.Form.{style_form};
ghost use Rattle.style_text.specs.Separated.{separated, IsBehind};

use crate::property::{mark, none_used};
use crate::read::{blanks_end, property_at, value_at};
use code_units::Text;

const COLON: [u16; 2] = [0x3A, 0x20];

const SEMICOLON: [u16; 2] = [0x3B, 0x20];

// What stands before a pair.
fn separator(first: bool) -> &'static [u16]
    ensures { result.now ≡ (if first then [] else codes "; ") }
{
    if first { &[] } else { &SEMICOLON }
}

// What stands in a text behind a front.
fn behind<'t>(text: &'t [u16], front: &[u16]) -> Option<&'t [u16]>
    ensures { IsBehind front.now text.now result }
{
    text.strip_prefix(front)
}

// The same of what is left of a text behind another front.
fn behind_next<'t>(rest: Option<&'t [u16]>, next: &[u16]) -> Option<&'t [u16]>
    ensures { (text front : List ℕ) → IsBehind front text rest.entry → IsBehind (front ++ next.now) text result }
{
    match rest {
        Some(text) => behind(text, next),
        None => None,
    }
}

// The same behind a pair.
fn behind_pair<'t>(
    rest: Option<&'t [u16]>,
    first: bool,
    property: &[u16],
    value: &[u16],
) -> Option<&'t [u16]>
    ensures { (text front : List ℕ) → IsBehind front text rest.entry
        → IsBehind (front ++ separated first (property.now, value.now)) text result }
{
    let rest = behind_next(rest, separator(first));
    let rest = behind_next(rest, property);
    let rest = behind_next(rest, &COLON);
    behind_next(rest, value)
}

// Whether the text is what is printed of the pairs that the units spell, none where they spell
// none.
fn prints_pairs(units: &[u16], text: &[u16]) -> Option<bool>
    ensures { MatchOption result
        (style_form units.now ≡ units.now)
        (λ same. same ≡ bytes_eq (style_form units.now) text.now) }
{
    let mut rest = Some(text);
    let mut used = none_used();
    let mut first = true;
    let mut at = blanks_end(units, 0);
    'pairs: while at < units.len() {
        let (end, start) = match property_at(units, at, &used) {
            Ok(ends) => ends,
            Err(_) => return None,
        };
        let (stop, next) = match value_at(units, start) {
            Ok(ends) => ends,
            Err(_) => return None,
        };
        rest = behind_pair(rest, first, &units[at..end], &units[start..stop]);
        mark(&mut used, &units[at..end]);
        first = false;
        at = next;
    }
    match rest {
        Some(rest) => Some(rest.is_empty()),
        None => Some(false),
    }
}

/// Whether a text is the printed form of a style. What is no style is its own printed form.
pub fn prints_as(style: &Text, text: &[u16]) -> bool
    ensures { result ≡ bytes_eq (style_form style.now) text.now }
{
    match prints_pairs(style.units(), text) {
        Some(same) => same,
        None => style.units() == text,
    }
}
