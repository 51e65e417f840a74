//! What `parseInt` reads (ECMA-262 3rd edition, 15.1.2.2).
ghost use Rattle.std.specs.Prelude.{◌≡◌, ◌≤◌, ◌^◌, min, drop, pos, neg_ℤ, if◌then◌else◌, length};
ghost use Rattle.std.specs.Char.{digit_value};
ghost use Rattle.std.specs.Str.Parse.{digits_value, starts_with_minus, without_leading_sign};
ghost use Rattle.code_units.specs.Whole.{is_blank, trimmed_start};
ghost use Rattle.widget_meaning.specs.GlobalNatives as means;
ghost use Rattle.widget_meaning.specs.Operators.{number};
ghost use Rattle.js_values.specs.Operands.{meant_out};
ghost use Rattle.native_common.specs.Numbers.{IsSmallOut};

use js_values::OpOut;
use object_store::{Number, Value};

const PLUS: u16 = b'+' as u16;

const MINUS: u16 = b'-' as u16;

const ZERO: u16 = b'0' as u16;

const SMALL_X: u16 = b'x' as u16;

const CAPITAL_X: u16 = b'X' as u16;

// The first number past the numbers.
const LIMIT: u64 = 1 << 53;

/// The number that the units begin with, in the radix that is asked for.
pub fn parsed(units: &[u16], radix: i64) -> OpOut
    ensures value { meant_out result
        ≡ means.parsed (starts_with_minus (trimmed_start units.now))
        (without_leading_sign (trimmed_start units.now)) radix }
    ensures small { IsSmallOut result }
{
    let spelled = trimmed_start(units);
    let digits = without_sign(spelled);
    let radix = radix_of(digits, radix);
    run_value(
        starts_with_minus(spelled),
        radix,
        digit_run(without_0x(digits, radix), radix),
    )
}

// The units without the blanks at their start.
fn trimmed_start(units: &[u16]) -> &[u16]
    ensures { result.now ≡ trimmed_start units.now }
{
    let mut start = 0;
    while start < units.len() && is_blank(units[start]) {
        start += 1;
    }
    &units[start..]
}

fn is_blank(unit: u16) -> bool
    ensures { result ≡ is_blank unit }
{
    matches!(unit, 9..=13 | 32)
}

fn starts_with_minus(units: &[u16]) -> bool
    ensures { result ≡ starts_with_minus units.now }
{
    match units.first() {
        Some(unit) => *unit == MINUS,
        None => false,
    }
}

// The units without a leading sign.
fn without_sign(units: &[u16]) -> &[u16]
    ensures { result.now ≡ without_leading_sign units.now }
{
    match units.first() {
        Some(&(MINUS | PLUS)) => &units[1..],
        _ => units,
    }
}

fn has_0x(units: &[u16]) -> bool
    ensures { result ≡ means.has_0x units.now }
{
    match units {
        [ZERO, SMALL_X | CAPITAL_X, ..] => true,
        _ => false,
    }
}

// A radix of 0 means 16 after `0x`, else 10.
fn radix_of(units: &[u16], radix: i64) -> u64
    ensures { result ≡ means.radix_of units.now radix }
{
    if radix == 0 {
        return if has_0x(units) { 16 } else { 10 };
    }
    if radix < 0 {
        return 0;
    }
    radix as u64
}

// For 16 the `0x` is passed over.
fn without_0x(units: &[u16], radix: u64) -> &[u16]
    ensures { result.now ≡ means.without_0x radix units.now }
{
    if radix == 16 && has_0x(units) {
        return skipped(units);
    }
    units
}

// What stands behind two units.
fn skipped(units: &[u16]) -> &[u16]
    requires { 2 ≤ length units.now }
    ensures { result.now ≡ drop 2 units.now }
{
    &units[2..]
}

// The value of a unit as a digit or a letter, and 36 for any other.
fn digit_value(unit: u16) -> u16
    ensures { result ≡ digit_value unit }
{
    match unit {
        48..=57 => unit - 48,
        65..=90 => unit - 55,
        97..=122 => unit - 87,
        _ => 36,
    }
}

// The longest run of digits.
fn digit_run(units: &[u16], radix: u64) -> &[u16]
    ensures { result.now ≡ means.digit_run radix units.now }
{
    let mut end = 0;
    while end < units.len() && u64::from(digit_value(units[end])) < radix {
        end += 1;
    }
    &units[..end]
}

// The value of digits, or the limit where it is larger.
fn value_of(units: &[u16], radix: u64) -> u64
    requires { (2 ≤ radix) × (radix ≤ 36) }
    ensures { result ≡ min (digits_value radix units.now) (2 ^ 53) }
{
    let mut n = 0;
    for unit in units {
        n = LIMIT.min(n * radix + u64::from(digit_value(*unit)));
    }
    n
}

// A radix outside 2 to 36, and no digit, give NaN.
fn run_value(negative: bool, radix: u64, digits: &[u16]) -> OpOut
    ensures value { meant_out result ≡ means.run_value negative radix digits.now }
    ensures small { IsSmallOut result }
{
    if radix < 2 || radix > 36 || digits.is_empty() {
        return OpOut::Is(Value::Num(Number::NaN));
    }
    signed(negative, value_of(digits, radix))
}

// A number with its sign, where it is within the numbers.
fn signed(negative: bool, n: u64) -> OpOut
    requires { n ≤ 2 ^ 53 }
    ensures value { meant_out result ≡ number (if negative then neg_ℤ (pos n) else pos n) }
    ensures small { IsSmallOut result }
{
    if n >= LIMIT {
        return OpOut::Left;
    }
    let n = n as i64;
    OpOut::Is(Value::Num(Number::Whole(if negative { -n } else { n })))
}
