//! Where marks end.
ghost use Rattle.js_tokens.specs.Cursor.{from, IsPlace, IsEnd};
ghost use Rattle.js_tokens.specs.Scan.{after_assign, after_equals, after_double, after_less, after_shift, after_greater, after_mark};

use crate::cursor::char_at;

/// The place behind `=`, if it stands there.
pub fn assign_end(text: &str, at: usize) -> usize
    requires { IsPlace text.now at }
    ensures { IsEnd text.now at (after_assign (from text.now at)) result }
{
    match char_at(text, at) {
        Some(('=', next)) => next,
        _ => at,
    }
}

// Behind `=` or `!`.
fn equals_end(text: &str, at: usize) -> usize
    requires { IsPlace text.now at }
    ensures { IsEnd text.now at (after_equals (from text.now at)) result }
{
    match char_at(text, at) {
        Some(('=', next)) => assign_end(text, next),
        _ => at,
    }
}

// Behind `+`, `-`, `&` or `|`.
fn double_end(text: &str, at: usize, first: char) -> usize
    requires { IsPlace text.now at }
    ensures { IsEnd text.now at (after_double first (from text.now at)) result }
{
    match char_at(text, at) {
        Some((c, next)) if c == first => next,
        _ => assign_end(text, at),
    }
}

// Behind `<`.
fn less_end(text: &str, at: usize) -> usize
    requires { IsPlace text.now at }
    ensures { IsEnd text.now at (after_less (from text.now at)) result }
{
    match char_at(text, at) {
        Some(('<', next)) => assign_end(text, next),
        _ => assign_end(text, at),
    }
}

// Behind `>>`.
fn shift_end(text: &str, at: usize) -> usize
    requires { IsPlace text.now at }
    ensures { IsEnd text.now at (after_shift (from text.now at)) result }
{
    match char_at(text, at) {
        Some(('>', next)) => assign_end(text, next),
        _ => assign_end(text, at),
    }
}

// Behind `>`.
fn greater_end(text: &str, at: usize) -> usize
    requires { IsPlace text.now at }
    ensures { IsEnd text.now at (after_greater (from text.now at)) result }
{
    match char_at(text, at) {
        Some(('>', next)) => shift_end(text, next),
        _ => assign_end(text, at),
    }
}

/// The place behind the longest mark that this character, which stands before `at`, begins.
pub fn mark_end(text: &str, at: usize, first: char) -> usize
    requires { IsPlace text.now at }
    ensures { IsEnd text.now at (after_mark first (from text.now at)) result }
{
    match first {
        '=' | '!' => equals_end(text, at),
        '+' | '-' | '&' | '|' => double_end(text, at, first),
        '*' | '/' | '%' | '^' => assign_end(text, at),
        '<' => less_end(text, at),
        '>' => greater_end(text, at),
        _ => at,
    }
}
