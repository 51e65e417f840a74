//! Reading a style.
ghost use Rattle.std.specs.Prelude.{◌≡◌, ℕ, ◌+◌, ◌<◌, ◌≤◌, false, List, [], length, drop, slice_range, MatchOption, MatchResult, IfOk, IfErr};
ghost use Rattle.style_text.specs.declared.StyleFault.TheVariants as fault;
ghost use Rattle.style_text.specs.Styles.{Pair, is_blank, StyleSpells, IsStyleFault};
ghost use Rattle.style_text.specs.Machine.{Next, Name, Start, goes, fits};
ghost use Rattle.style_text.specs.Used.{marks_of};
ghost use Rattle.style_text.specs.Reads.{blank_first, is_first, IsBlanksEnd, Refuses, IsProperty, IsValueAt, IsWhole};

use super::StyleFault;
use crate::property::{Used, fits, is_free, mark, none_used};
use crate::value::{SPACE, goes_on};
use code_units::{Memory, Text};
use std::alloc::Global;

const COLON: u16 = 0x3A;

const SEMICOLON: u16 = 0x3B;

fn is_blank(unit: u16) -> bool
    ensures { result ≡ is_blank unit }
{
    matches!(unit, 0x20 | 0x09 | 0x0A | 0x0D)
}

// Whether the unit stands at a place.
fn stands(units: &[u16], at: usize, unit: u16) -> bool
    requires { at ≤ length units.now }
    ensures { result ≡ is_first unit (drop at units.now) }
{
    at < units.len() && units[at] == unit
}

/// The place behind the blanks at a place.
pub fn blanks_end(units: &[u16], at: usize) -> usize
    requires { at ≤ length units.now }
    ensures { IsBlanksEnd units.now at result }
{
    let mut end = at;
    'blanks: while end < units.len() {
        if !is_blank(units[end]) {
            return end;
        }
        end += 1;
    }
    end
}

// The place at which no property that no pair has goes on.
fn property_end(units: &[u16], at: usize, used: &Used) -> usize
    requires { at ≤ length units.now }
    ensures order { at ≤ result }
    ensures inside { result ≤ length units.now }
    ensures read { (pairs : List Pair) → used.now ≡ marks_of pairs
        → goes units.now (Name pairs []) at ≡ goes units.now (Name pairs (slice_range units.now at result)) result }
    ensures all { (pairs : List Pair) → used.now ≡ marks_of pairs → result < length units.now
        → fits pairs (slice_range units.now at (result + 1)) ≡ false }
{
    let mut end = at;
    'property: while end < units.len() {
        if !fits(used, &units[at..end + 1]) {
            return end;
        }
        end += 1;
    }
    end
}

/// The end of the property at a place, and the place of its value.
pub fn property_at(units: &[u16], at: usize, used: &Used) -> Result<(usize, usize), StyleFault>
    requires inside { at < length units.now }
    requires first { blank_first (drop at units.now) ≡ false }
    ensures { (pairs : List Pair) → used.now ≡ marks_of pairs → MatchResult result
        (λ r. IsProperty units.now pairs at r.0 r.1)
        (λ e. Refuses units.now (Next pairs) at e) }
{
    let end = property_end(units, at, used);
    if !is_free(used, &units[at..end]) {
        return Err(StyleFault::BadStyle { at: end });
    }
    let colon = blanks_end(units, end);
    if !stands(units, colon, COLON) {
        return Err(StyleFault::BadStyle { at: colon });
    }
    Ok((end, blanks_end(units, colon + 1)))
}

// The end of the value at a place, if one begins there.
fn value_end(units: &[u16], at: usize) -> Option<usize>
    requires inside { at ≤ length units.now }
    requires first { blank_first (drop at units.now) ≡ false }
    ensures { MatchOption result
        ((pairs : List Pair) (property : List ℕ) → Refuses units.now (Start pairs property) at (fault.BadStyle at))
        (λ end. IsValueAt units.now at end) }
{
    if at == units.len() {
        return None;
    }
    if !goes_on(units, at, at) {
        return None;
    }
    let mut end = at + 1;
    let mut place = at + 1;
    'value: while place < units.len() {
        if goes_on(units, at, place) {
            end = place + 1;
        } else if units[place] != SPACE {
            return Some(end);
        }
        place += 1;
    }
    Some(end)
}

/// The end of the value at a place, and the place of the next pair or of the end.
pub fn value_at(units: &[u16], at: usize) -> Result<(usize, usize), StyleFault>
    requires inside { at ≤ length units.now }
    requires first { blank_first (drop at units.now) ≡ false }
    ensures { MatchResult result
        (λ r. IsWhole units.now at r.0 r.1)
        (λ e. (pairs : List Pair) (property : List ℕ) → Refuses units.now (Start pairs property) at e) }
{
    let Some(end) = value_end(units, at) else {
        return Err(StyleFault::BadStyle { at });
    };
    let next = blanks_end(units, end);
    if next == units.len() {
        return Ok((end, next));
    }
    if !stands(units, next, SEMICOLON) {
        return Err(StyleFault::BadStyle { at: next });
    }
    Ok((end, blanks_end(units, next + 1)))
}

// A text of the units between two places.
fn text_of(alloc: Global, units: &[u16], from: usize, to: usize) -> Result<Text, Memory>
    requires order { from ≤ to }
    requires inside { to ≤ length units.now }
    ensures { IfOk result (λ text. text ≡ slice_range units.now from to) }
{
    Text::from_units(alloc, units[from..to].to_vec(alloc)?)
}

// The pairs that the units spell.
fn read_units(alloc: Global, units: &[u16]) -> Result<Vec<(Text, Text)>, StyleFault>
    ensures style { IfOk result (λ pairs. StyleSpells units.now pairs.items) }
    ensures only { (pairs : List Pair) → StyleSpells units.now pairs
        → MatchResult result (λ list. list.items ≡ pairs) (λ e. e ≡ fault.Memory) }
    ensures place { IfErr result (λ e. IsStyleFault units.now e) }
{
    let mut pairs = Vec::new(alloc);
    let mut used = none_used();
    let mut at = blanks_end(units, 0);
    'pairs: while at < units.len() {
        let (end, start) = property_at(units, at, &used)?;
        let (stop, next) = value_at(units, start)?;
        let property = text_of(alloc, units, at, end)?;
        let value = text_of(alloc, units, start, stop)?;
        pairs.push((property, value))?;
        mark(&mut used, &units[at..end]);
        at = next;
    }
    Ok(pairs)
}

/// The pairs of property and value of a style.
///
/// `BadStyle` tells that the text is no style, with the exact place; `Memory` that there was no
/// memory for the pairs.
pub fn read_style(alloc: Global, text: &Text) -> Result<Vec<(Text, Text)>, StyleFault>
    // The pairs are those that the text spells.
    ensures style { IfOk result (λ pairs. StyleSpells text.now pairs.items) }
    // Where it spells pairs, they are read, unless memory runs out.
    ensures only { (pairs : List Pair) → StyleSpells text.now pairs
        → MatchResult result (λ list. list.items ≡ pairs) (λ e. e ≡ fault.Memory) }
    // The place of a refusal is exact.
    ensures place { IfErr result (λ e. IsStyleFault text.now e) }
{
    read_units(alloc, text.units())
}
