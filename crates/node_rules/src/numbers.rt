//! Number literals.
ghost use Rattle.std.specs.Prelude.{◌≡◌, ◌<◌, nat_lt};
ghost use Rattle.node_rules.specs.Numbers.{digit_value, value_to, is_hex, has_fraction, has_exponent, is_too_large, has_leading_zero, is_refused_number};

use crate::words::is_digit;
use code_units::Text;

/// The largest number that a script can hold.
const LARGEST: u64 = 9_007_199_254_740_991;

/// The value of a digit.
fn digit_value(unit: u16) -> u64
    ensures { result ≡ digit_value unit }
{
    let unit = u64::from(unit);
    if unit <= 57 {
        unit.saturating_sub(48)
    } else if unit <= 70 {
        unit - 55
    } else {
        unit.saturating_sub(87)
    }
}

/// Whether the digits have a value over the largest number.
fn is_over(base: u64, digits: &[u16]) -> bool
    requires { base < 17 }
    ensures { result ≡ nat_lt 9007199254740991 (value_to base digits.now) }
{
    let mut value = 0;
    'digits: for unit in digits {
        value = (value * base + digit_value(*unit)).min(LARGEST + 1);
    }
    value > LARGEST
}

fn is_hex(units: &[u16]) -> bool
    ensures { result ≡ is_hex units.now }
{
    units.starts_with(&[48, 120]) || units.starts_with(&[48, 88])
}

fn has_fraction(units: &[u16]) -> bool
    ensures { result ≡ has_fraction units.now }
{
    units.contains(&46)
}

fn has_exponent(units: &[u16]) -> bool
    ensures { result ≡ has_exponent units.now }
{
    !is_hex(units) && (units.contains(&101) || units.contains(&69))
}

fn is_too_large(units: &[u16]) -> bool
    ensures { result ≡ is_too_large units.now }
{
    if is_hex(units) {
        is_over(16, &units[2..])
    } else {
        is_over(10, units)
    }
}

fn has_leading_zero(units: &[u16]) -> bool
    ensures { result ≡ has_leading_zero units.now }
{
    units.len() >= 2 && (units[0] == 48 && is_digit(units[1]))
}

/// Whether a number literal has a form or a value that is refused.
#[tactic(auto, unfolding(crate::specs::Numbers::is_refused_number))]
pub fn is_refused_number(text: &Text) -> bool
    ensures { result ≡ is_refused_number text.now }
{
    let units = text.units();
    has_fraction(units) || (has_exponent(units) || (is_too_large(units) || has_leading_zero(units)))
}
