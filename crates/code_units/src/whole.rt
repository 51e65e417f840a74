//! Whole numbers as texts, and texts as whole numbers.

ghost use Rattle.std.specs.Prelude.{◌≡◌, ◌^◌, ◌<◌, ◌≤◌, ◌⊎◌, ℕ, List, ◌∷◌, ◌++◌, length, slice_index, nat_lt, ◌||◌, unsigned_abs, pos, neg_ℤ, true, false, if◌then◌else◌, min, drop, IfOk, MatchOption};
ghost use Rattle.std.specs.Char.{is_digit};
ghost use Rattle.std.specs.List.{list_all};
ghost use Rattle.std.specs.Fmt.{signed_decimal};
ghost use Rattle.std.specs.Str.{byte};
ghost use Rattle.std.specs.Str.Parse.{AllDigits, digits_value, without_leading_sign};
ghost use Rattle.code_units.specs.Whole.{trimmed, trimmed_start, trimmed_end, bounded, is_numeral, is_point, is_exponent, is_fraction, is_hexadecimal, number_of, number_in};
ghost use Rattle.code_units.specs.Runs.{is_of};
ghost use Rattle.code_units.specs.Readings.{Gives};

use crate::digit::digit_value;
use crate::memory::Memory;
use crate::runs::{Kind, run, without_run};
use crate::text::Text;
use crate::word::spells;
use itoa::Buffer;
use std::alloc::{AllocError, Global};

const PLUS: u16 = b'+' as u16;

const MINUS: u16 = b'-' as u16;

const POINT: u16 = b'.' as u16;

const ZERO: u16 = b'0' as u16;

const SMALL_E: u16 = b'e' as u16;

const CAPITAL_E: u16 = b'E' as u16;

const SMALL_X: u16 = b'x' as u16;

const CAPITAL_X: u16 = b'X' as u16;

// The first number past the numbers.
const LIMIT: u64 = 1 << 53;

/// The decimal digits of a number, after `-` where it is negative.
pub fn whole_text(alloc: Global, n: i64) -> Result<Text, Memory>
    ensures digits { IfOk result (λ t. t ≡ signed_decimal n) }
    ensures back { IfOk result (λ t. unsigned_abs n < 2 ^ 53 → number_in t ≡ WholeRead.Whole n) }
{
    let units = decimal_units(alloc, n)?;
    Text::from_units(alloc, units)
}

fn decimal_units(alloc: Global, n: i64) -> Result<Vec<u16>, AllocError>
    ensures { IfOk result (λ units. units.items ≡ signed_decimal n) }
{
    let mut buffer = Buffer::new();
    buffer.format(n).bytes().map(u16::from).collect(alloc)
}

/// What a text gives as a number.
#[derive(Clone, Copy, PartialEq, Eq)]
pub enum WholeRead {
    /// A number from -(2^53-1) to 2^53-1.
    Whole(i64),
    /// The text spells no number.
    NotNumber,
    /// The text spells a number that is not whole, or too large.
    Left,
}

/// The number that a text spells, blanks at its two ends aside (ECMA-262 3rd edition, 9.3.1): the
/// blanks are space, tab, line feed, carriage return, vertical tab and form feed, and each decimal
/// literal with a point or an exponent is `Left`.
#[tactic(auto, unfolding(crate::specs::Whole::number_in))]
pub fn read_whole(text: &Text) -> WholeRead
    ensures value { result ≡ number_in text.now }
    ensures form { Gives (trimmed text.now) result }
{
    read_trimmed(trimmed(text.units()))
}

fn read_trimmed(units: &[u16]) -> WholeRead
    ensures { result ≡ number_of units.now }
{
    if units.is_empty() {
        return WholeRead::Whole(0);
    }
    let digits = without_sign(units);
    if let Some(n) = numeral(digits, 10) {
        return bounded(units[0] == MINUS, n);
    }
    if spells(digits, b"Infinity") || is_fraction(digits) {
        return WholeRead::Left;
    }
    match hexadecimal(units) {
        Some(n) => bounded(false, n),
        None => WholeRead::NotNumber,
    }
}

// The units without the blanks at the two ends.
#[tactic(auto, unfolding(crate::specs::Whole::trimmed))]
fn trimmed(units: &[u16]) -> &[u16]
    ensures { result.now ≡ trimmed units.now }
{
    trimmed_start(trimmed_end(units))
}

fn trimmed_end(units: &[u16]) -> &[u16]
    ensures { result.now ≡ trimmed_end units.now }
{
    &units[..without_run(units, Kind::Blank)]
}

fn trimmed_start(units: &[u16]) -> &[u16]
    ensures { result.now ≡ trimmed_start units.now }
{
    &units[run(units, Kind::Blank)..]
}

// The units without a leading sign.
fn without_sign(units: &[u16]) -> &[u16]
    ensures { result.now ≡ without_leading_sign units.now }
{
    match units.first() {
        Some(&(MINUS | PLUS)) => &units[1..],
        _ => units,
    }
}

// The number, where it is within the numbers.
fn bounded(negative: bool, n: u64) -> WholeRead
    requires { n ≤ 2 ^ 53 }
    ensures { result ≡ bounded (if negative then neg_ℤ (pos n) else pos n) }
{
    if n >= LIMIT {
        return WholeRead::Left;
    }
    let n = n as i64;
    WholeRead::Whole(if negative { -n } else { n })
}

// The number of a numeral, or the limit where it is larger. None where the units are no numeral.
#[inline]
pub(crate) fn numeral(units: &[u16], radix: u16) -> Option<u64>
    requires { (radix ≡ 10) ⊎ (radix ≡ 16) }
    ensures { MatchOption result (is_numeral radix units.now ≡ false)
        (λ n. (is_numeral radix units.now ≡ true) × (n ≡ min (digits_value radix units.now) (2 ^ 53))) }
{
    if units.is_empty() {
        return None;
    }
    let mut n = 0;
    for at in run(units, Kind::Zero)..units.len() {
        if n == LIMIT {
            if are_digits(&units[at..], radix) {
                return Some(LIMIT);
            }
            return None;
        }
        let digit = digit_value(units[at]);
        if digit >= radix {
            return None;
        }
        n = LIMIT.min(n * u64::from(radix) + u64::from(digit));
    }
    Some(n)
}

fn are_digits(units: &[u16], radix: u16) -> bool
    requires { (radix ≡ 10) ⊎ (radix ≡ 16) }
    ensures { result ≡ list_all (λ u. is_digit u radix) units.now }
{
    run(units, digits_of(radix)) == units.len()
}

// The digits of a radix.
fn digits_of(radix: u16) -> Kind
    requires { (radix ≡ 10) ⊎ (radix ≡ 16) }
    ensures { (u : ℕ) → is_of result u ≡ is_digit u radix }
{
    if radix == 10 {
        Kind::Digit
    } else {
        Kind::Hexadecimal
    }
}

// The number after `0x` or `0X`, or the limit where it is larger.
fn hexadecimal(units: &[u16]) -> Option<u64>
    ensures { MatchOption result (is_hexadecimal units.now ≡ false)
        (λ n. (is_hexadecimal units.now ≡ true) × (n ≡ min (digits_value 16 (drop 2 units.now)) (2 ^ 53))) }
{
    match units {
        [ZERO, SMALL_X | CAPITAL_X, digits @ ..] => numeral(digits, 16),
        _ => None,
    }
}

// A decimal literal that has a point or an exponent.
fn is_fraction(units: &[u16]) -> bool
    ensures { result ≡ is_fraction units.now }
{
    let whole = run(units, Kind::Digit);
    ends_fraction(&units[whole..], whole > 0)
}

// Whether units that begin with no digit, behind digits or behind none, make them a fraction.
fn ends_fraction(units: &[u16], behind_digits: bool) -> bool
    requires { is_digit (slice_index units.now 0) 10 ≡ false }
    ensures { (ds : List ℕ) → AllDigits 10 ds → behind_digits ≡ nat_lt 0 (length ds)
        → result ≡ is_fraction (ds ++ units.now) }
{
    if has_point(units) {
        return ends_behind_point(&units[1..], behind_digits);
    }
    behind_digits && is_exponent(units)
}

// Whether the first unit is a point.
fn has_point(units: &[u16]) -> bool
    ensures point { result ≡ is_point (slice_index units.now 0) }
    ensures some { result ≡ true → 0 < length units.now }
{
    !units.is_empty() && units[0] == POINT
}

// Whether units behind a point, behind digits or behind none, make them a fraction.
fn ends_behind_point(units: &[u16], behind_digits: bool) -> bool
    ensures { (ds : List ℕ) → AllDigits 10 ds → behind_digits ≡ nat_lt 0 (length ds)
        → result ≡ is_fraction (ds ++ byte "." ∷ units.now) }
{
    let part = run(units, Kind::Digit);
    let rest = &units[part..];
    some_digits(behind_digits, part) && (rest.is_empty() || is_exponent(rest))
}

fn some_digits(behind_digits: bool, part: usize) -> bool
    ensures { result ≡ (behind_digits || nat_lt 0 part) }
{
    behind_digits || part > 0
}

// `e` or `E`, an optional sign and digits.
fn is_exponent(units: &[u16]) -> bool
    ensures { result ≡ is_exponent units.now }
{
    match units {
        [SMALL_E | CAPITAL_E, power @ ..] => is_numeral(without_sign(power)),
        _ => false,
    }
}

fn is_numeral(units: &[u16]) -> bool
    ensures { result ≡ is_numeral 10 units.now }
{
    !units.is_empty() && are_digits(units, 10)
}
