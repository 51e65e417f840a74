//! Where numbers end.
ghost use Rattle.js_tokens.specs.Cursor.{from, IsPlace, IsEnd};
ghost use Rattle.js_tokens.specs.Scan.{after_sign, after_exponent, after_fraction, after_decimal, after_number};

use crate::class::Run;
use crate::cursor::{begins, char_at, run_end};

fn sign_end(text: &str, at: usize) -> usize
    requires { IsPlace text.now at }
    ensures { IsEnd text.now at (after_sign (from text.now at)) result }
{
    match char_at(text, at) {
        Some(('+' | '-', next)) => next,
        _ => at,
    }
}

/// The place behind the exponent, if one stands there.
pub fn exponent_end(text: &str, at: usize) -> usize
    requires { IsPlace text.now at }
    ensures { IsEnd text.now at (after_exponent (from text.now at)) result }
{
    let Some(('e' | 'E', next)) = char_at(text, at) else {
        return at;
    };
    let digits = sign_end(text, next);
    if begins(text, digits, Run::Digits) {
        run_end(text, digits, Run::Digits)
    } else {
        at
    }
}

fn fraction_end(text: &str, at: usize) -> usize
    requires { IsPlace text.now at }
    ensures { IsEnd text.now at (after_fraction (from text.now at)) result }
{
    match char_at(text, at) {
        Some(('.', next)) => run_end(text, next, Run::Digits),
        _ => at,
    }
}

fn decimal_end(text: &str, at: usize) -> usize
    requires { IsPlace text.now at }
    ensures { IsEnd text.now at (after_decimal (from text.now at)) result }
{
    let whole = run_end(text, at, Run::Digits);
    let fraction = fraction_end(text, whole);
    exponent_end(text, fraction)
}

/// The place behind the number that this digit, which stands before `at`, begins.
pub fn number_end(text: &str, at: usize, first: char) -> usize
    requires { IsPlace text.now at }
    ensures { IsEnd text.now at (after_number first (from text.now at)) result }
{
    if first == '0'
        && let Some(('x' | 'X', digits)) = char_at(text, at)
        && begins(text, digits, Run::HexDigits)
    {
        return run_end(text, digits, Run::HexDigits);
    }
    decimal_end(text, at)
}
