//! Powers of whole numbers (ECMA-262 3rd edition, 15.8.2.13).
ghost use Rattle.std.specs.Prelude.{◌≡◌, ◌<◌, ◌≤◌, unsigned_abs};
ghost use Rattle.std.specs.Int.{int_pow};
ghost use Rattle.widget_meaning.specs.MathNatives as means;
ghost use Rattle.widget_meaning.specs.Operators.{number};
ghost use Rattle.js_values.specs.Operands.{meant_out};
ghost use Rattle.native_common.specs.Numbers.{IsSmallOut};

use code_units::WholeRead;
use js_values::OpOut;
use object_store::{Number, Value};

// The first number past the numbers.
const LIMIT: u64 = 1 << 53;

// 2 to this power is past the numbers.
const HIGH: u64 = 53;

/// `pow` of two numbers: what leaves the numbers comes first; 1 for 0, NaN for another NaN, the power
/// for a positive number, and for a negative one only 1 and -1 stay within the numbers.
pub fn power(a: WholeRead, b: WholeRead) -> OpOut
    ensures value { meant_out result ≡ means.power a b }
    ensures small { IsSmallOut result }
{
    match (a, b) {
        (WholeRead::Left, _) => OpOut::Left,
        (_, WholeRead::Left) => OpOut::Left,
        (_, WholeRead::NotNumber) => OpOut::Is(Value::Num(Number::NaN)),
        (_, WholeRead::Whole(0)) => OpOut::Is(Value::Num(Number::Whole(1))),
        (WholeRead::NotNumber, _) => OpOut::Is(Value::Num(Number::NaN)),
        (WholeRead::Whole(x), WholeRead::Whole(y)) => whole_power(x, y),
    }
}

fn whole_power(x: i64, y: i64) -> OpOut
    requires { 0 < unsigned_abs y }
    ensures value { meant_out result ≡ means.power (WholeRead.Whole x) (WholeRead.Whole y) }
    ensures small { IsSmallOut result }
{
    let n = y.unsigned_abs();
    if y < 0 {
        inverse_power(x, n)
    } else {
        positive_power(x, n)
    }
}

// For a negative exponent only 1 and -1 stay within the numbers.
fn inverse_power(x: i64, n: u64) -> OpOut
    requires { 0 < n }
    ensures value { meant_out result ≡ means.inverse_power x n }
    ensures small { IsSmallOut result }
{
    if x.unsigned_abs() == 1 {
        return OpOut::Is(Value::Num(Number::Whole(unit_power(x, n))));
    }
    OpOut::Left
}

fn positive_power(x: i64, n: u64) -> OpOut
    requires { 0 < n }
    ensures value { meant_out result ≡ number (int_pow x n) }
    ensures small { IsSmallOut result }
{
    if x.unsigned_abs() <= 1 {
        return bounded(unit_power(x, n));
    }
    if n >= HIGH {
        return OpOut::Left;
    }
    match x.checked_pow(n as u32) {
        Some(z) => bounded(z),
        None => OpOut::Left,
    }
}

// A power of 0, 1 or -1.
fn unit_power(x: i64, n: u64) -> i64
    requires unit { unsigned_abs x ≤ 1 }
    requires positive { 0 < n }
    ensures { result ≡ int_pow x n }
{
    if n % 2 == 0 { x * x } else { x }
}

// A number where it is within the numbers.
fn bounded(z: i64) -> OpOut
    ensures value { meant_out result ≡ number z }
    ensures small { IsSmallOut result }
{
    if z.unsigned_abs() < LIMIT {
        OpOut::Is(Value::Num(Number::Whole(z)))
    } else {
        OpOut::Left
    }
}
