//! Where strings end.
ghost use Rattle.std.specs.Prelude.{◌≡◌, false};
ghost use Rattle.js_tokens.specs.Lexes.{is_escape, two_digits, four_digits};
ghost use Rattle.js_tokens.specs.Cursor.{from, IsPlace};
ghost use Rattle.js_tokens.specs.Scan.{after_string, first_bad, noted};
ghost use Rattle.js_tokens.specs.Pieces.{IsPairEnd, IsStringEnd};

use crate::class::{Run, is_hex_digit, is_line_end};
use crate::cursor::{begins, char_at};

/// Where a string ends.
#[derive(Clone, Copy)]
pub enum StringEnd {
    /// No quote comes in this line.
    Open,
    /// Behind the closing quote.
    Closed(usize),
    /// The string is closed, and its first bad escape begins here.
    Bad(usize),
}

fn two_digits(text: &str, at: usize) -> bool
    requires { IsPlace text.now at }
    ensures { result ≡ two_digits (from text.now at) }
{
    let Some((first, next)) = char_at(text, at) else {
        return false;
    };
    let Some((second, _)) = char_at(text, next) else {
        return false;
    };
    is_hex_digit(first) && is_hex_digit(second)
}

fn four_digits(text: &str, at: usize) -> bool
    requires { IsPlace text.now at }
    ensures { result ≡ four_digits (from text.now at) }
{
    let Some((first, next)) = char_at(text, at) else {
        return false;
    };
    let Some((second, rest)) = char_at(text, next) else {
        return false;
    };
    is_hex_digit(first) && is_hex_digit(second) && two_digits(text, rest)
}

// Whether an escape stands there, behind its backslash.
fn is_escape(text: &str, at: usize) -> bool
    requires { IsPlace text.now at }
    ensures { result ≡ is_escape (from text.now at) }
{
    match char_at(text, at) {
        None => false,
        Some(('0', next)) => !begins(text, next, Run::Digits),
        Some(('1'..='9', _)) => false,
        Some(('x', next)) => two_digits(text, next),
        Some(('u', next)) => four_digits(text, next),
        Some((c, _)) => !is_line_end(c),
    }
}

// Behind the character after a backslash; none at the end and before a line end.
fn pair_end(text: &str, at: usize) -> Option<usize>
    requires { IsPlace text.now at }
    ensures { IsPairEnd text.now at result }
{
    match char_at(text, at) {
        Some((c, next)) if !is_line_end(c) => Some(next),
        _ => None,
    }
}

// The first bad escape, where `bad` is the first one before the backslash at `place`.
fn noted(bad: Option<usize>, text: &str, place: usize, next: usize) -> Option<usize>
    requires { IsPlace text.now next }
    ensures { result ≡ noted bad (is_escape (from text.now next)) place }
{
    if bad.is_none() && !is_escape(text, next) {
        Some(place)
    } else {
        bad
    }
}

/// Where the string with this quote ends, from behind the quote.
pub fn string_end(text: &str, at: usize, quote: char) -> StringEnd
    requires { IsPlace text.now at }
    ensures { IsStringEnd text.now at (after_string quote false (from text.now at))
        (first_bad quote false (from text.now at)) result }
{
    let mut place = at;
    let mut bad = None;
    'string: loop {
        let Some((c, next)) = char_at(text, place) else {
            return StringEnd::Open;
        };
        if c == quote {
            return bad.map_or(StringEnd::Closed(next), StringEnd::Bad);
        }
        if is_line_end(c) {
            return StringEnd::Open;
        }
        if c != '\\' {
            place = next;
            continue;
        }
        bad = noted(bad, text, place, next);
        match pair_end(text, next) {
            Some(after) => place = after,
            None => return StringEnd::Open,
        }
    }
}
