//! Numbers in a radix (ECMA-262 3rd edition, 15.7.4.2).
ghost use Rattle.std.specs.Prelude.{◌≡◌, ◌<◌, ◌≤◌, ◌++◌, [], false, IfOk, codes, unsigned_abs, if◌then◌else◌, reverse};
ghost use Rattle.std.specs.Fmt.{digit_glyph, digits};
ghost use Rattle.std.specs.Int.{is_negative};

use code_units::{Memory, Text};
use std::alloc::Global;

const MINUS: u16 = b'-' as u16;

/// The digits of a number in a radix, after `-` where it is negative.
pub(crate) fn radix_text(alloc: Global, z: i64, radix: u64) -> Result<Text, Memory>
    requires { (2 ≤ radix) × (radix ≤ 36) }
    ensures { IfOk result (λ t. t ≡ (if is_negative z then codes "-" else []) ++ digits radix false (unsigned_abs z)) }
{
    let mut units = reversed_digits(alloc, z.unsigned_abs(), radix)?;
    if z < 0 {
        units.push(MINUS)?;
    }
    units.as_mut_slice().reverse();
    Text::from_units(alloc, units)
}

// The digits of a number, the last first.
fn reversed_digits(alloc: Global, n: u64, radix: u64) -> Result<Vec<u16>, Memory>
    requires { (2 ≤ radix) × (radix ≤ 36) }
    ensures { IfOk result (λ units. units.items ≡ reverse (digits radix false n)) }
{
    let mut units = Vec::new(alloc);
    let mut rest = n;
    while rest >= radix {
        units.push(digit(rest % radix))?;
        rest /= radix;
    }
    units.push(digit(rest))?;
    Ok(units)
}

// The unit that writes a digit.
fn digit(n: u64) -> u16
    requires { n < 36 }
    ensures { result ≡ digit_glyph false n }
{
    if n < 10 { 48 + n as u16 } else { 87 + n as u16 }
}
