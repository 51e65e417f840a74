//! Texts in quotes, which are written straight behind what is there.
ghost use Rattle.std.specs.Prelude.{
  ◌≡◌,
  ◌+◌,
  ◌<◌,
  ◌≤◌,
  ◌∷◌,
  ◌++◌,
  [],
  IfOk,
  IfSome,
  MatchOption,
  OnOk,
  length,
  drop,
  slice_index,
  take,
  true,
  unwrap_or,
};
ghost use Rattle.std.specs.Char.{digit_char};
ghost use Rattle.std.specs.Char.Utf16.{lone_unit_char};
ghost use Rattle.json.specs.Print.{escape_byte, escape_letter};
ghost use Rattle.code_units.specs.Utf8.{IsSurrogatePair};
ghost use Rattle.widget_meaning.specs.JsonTexts.{quoted_text, write};
ghost use Rattle.json_text.specs.Names.{comma, inside, name_text};
ghost use Rattle.json_text.specs.Steps.{meant_step};

use crate::steps::{LONGEST, Step, push_word};
use code_units::{Memory, Text};

const COMMA: u16 = 0x2C;

const QUOTE: u16 = 0x22;

const BACKSLASH: u16 = 0x5C;

/// A text in quotes is written: its code points, with the escapes of a report.
pub(crate) fn push_quoted(out: &mut Vec<u16>, text: &Text) -> Result<Step, Memory>
    ensures { IfOk result (λ p. meant_step p out.new.items ≡ write out.old.items (quoted_text text.now)) }
{
    let units = text.units();
    in_quotes(units);
    out.push(QUOTE)?;
    push_inside(out, units, b"\"")
}

/// What stands before the value of a member is written: a comma where it is not the first, its name and
/// a colon.
pub(crate) fn push_name(out: &mut Vec<u16>, first: bool, name: &Text) -> Result<Step, Memory>
    ensures { IfOk result (λ p. meant_step p out.new.items ≡ write out.old.items (name_text first name.now)) }
{
    let units = name.units();
    in_quotes(units);
    out.extend_from_slice(opening(first))?;
    push_inside(out, units, b"\":")
}

// What stands before the first unit of a name.
fn opening(first: bool) -> &'static [u16]
    ensures { result.now ≡ comma first ++ 34 ∷ [] }
{
    if first { &[QUOTE] } else { &[COMMA, QUOTE] }
}

// A law: a text in quotes is what stands inside, between two of them.
fn in_quotes(units: &[u16])
    ensures { quoted_text units.now ≡ 34 ∷ (inside units.now ++ 34 ∷ []) }
{}

// What stands inside the quotes of a text is written, and what closes it.
fn push_inside(out: &mut Vec<u16>, units: &[u16], close: &[u8]) -> Result<Step, Memory>
    ensures { IfOk result (λ p.
        meant_step p out.new.items ≡ write out.old.items (inside units.now ++ close.now)) }
{
    let mut at = 0;
    'units: while at < units.len() {
        if is_too_long(out.len()) {
            return Ok(Step::TooLong);
        }
        at = push_next(out, units, at)?;
    }
    push_word(out, close)
}

fn is_too_long(len: usize) -> bool
    ensures { result ≡ true → 65536 < len }
{
    len > LONGEST
}

// The code point whose units begin at a place is written as it stands in quotes; where the next begins.
fn push_next(out: &mut Vec<u16>, units: &[u16], at: usize) -> Result<usize, Memory>
    requires { at < length units.now }
    ensures { IfOk result (λ next. (at < next) × (next ≤ length units.now)
        × (out.new.items ++ inside (drop next units.now) ≡ out.old.items ++ inside (drop at units.now))) }
{
    let unit = unit_at(units, at);
    if unit < 0x80 {
        push_escaped(out, unit)?;
        return Ok(at + 1);
    }
    match low_at(units, at) {
        Some(low) => {
            out.extend_from_slice(&[unit, low])?;
            Ok(at + 2)
        }
        None => {
            out.push(alone(unit))?;
            Ok(at + 1)
        }
    }
}

fn unit_at(units: &[u16], at: usize) -> u16
    requires { at < length units.now }
    ensures { result ≡ slice_index units.now at }
{
    units[at]
}

// The second of two surrogates at a place, if two stand there.
fn low_at(units: &[u16], at: usize) -> Option<u16>
    requires { at < length units.now }
    ensures within { IfSome result (λ low. at + 1 < length units.now) }
    ensures pair { let u = slice_index units.now at in let v = slice_index units.now (at + 1) in
        MatchOption result (¬ (IsSurrogatePair u v)) (λ low. IsSurrogatePair u v × (low ≡ v)) }
{
    let high = units[at];
    let low = *units.get(at + 1)?;
    if high < 0xD800 || 0xDC00 <= high || low < 0xDC00 || 0xE000 <= low {
        return None;
    }
    Some(low)
}

// A unit that is in no pair, or U+FFFD for a surrogate.
fn alone(unit: u16) -> u16
    ensures { result ≡ unwrap_or (lone_unit_char unit) 0xFFFD }
{
    if unit < 0xD800 || 0xE000 <= unit {
        unit
    } else {
        0xFFFD
    }
}

// An ASCII unit is written as it stands in quotes.
fn push_escaped(out: &mut Vec<u16>, unit: u16) -> Result<(), Memory>
    ensures { OnOk result (out.new.items ≡ out.old.items ++ escape_byte unit) }
{
    if is_plain(unit) {
        out.push(unit)?;
        return Ok(());
    }
    let (escape, len) = escape_of(unit);
    Ok(out.extend_from_slice(&escape[..len])?)
}

// Whether an ASCII unit stands for itself.
fn is_plain(unit: u16) -> bool
    ensures { result ≡ true → (unit ≡ 34 → ⊥) × (unit ≡ 92 → ⊥) × (32 ≤ unit) }
{
    unit >= 0x20 && unit != QUOTE && unit != BACKSLASH
}

// The units that stand in quotes for an ASCII unit, and how many they are.
fn escape_of(unit: u16) -> ([u16; 6], usize)
    ensures value { take result.1 result.0 ≡ escape_byte unit }
    ensures bound { result.1 ≤ 6 }
{
    let letter = letter(unit);
    if letter > 0 {
        return ([BACKSLASH, letter, 0, 0, 0, 0], 2);
    }
    if unit < 0x20 {
        return (
            [BACKSLASH, 0x75, 0x30, 0x30, hex(unit / 16), hex(unit % 16)],
            6,
        );
    }
    ([unit, 0, 0, 0, 0, 0], 1)
}

// The letter of a short escape, or 0 where there is none.
fn letter(unit: u16) -> u16
    ensures { result ≡ escape_letter unit }
{
    match unit {
        0x22 | 0x5C => unit,
        8 => 0x62,
        12 => 0x66,
        10 => 0x6E,
        13 => 0x72,
        9 => 0x74,
        _ => 0,
    }
}

fn hex(digit: u16) -> u16
    requires { digit < 16 }
    ensures { result ≡ digit_char digit }
{
    if digit < 10 {
        0x30 + digit
    } else {
        0x57 + digit
    }
}
