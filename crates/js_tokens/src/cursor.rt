//! Reading the characters of a text at byte offsets.
ghost use Rattle.std.specs.Prelude.{◌≡◌, ◌+◌, [], MatchOption};
ghost use Rattle.js_tokens.specs.Characters.{Begins};
ghost use Rattle.js_tokens.specs.Cursor.{from, IsPlace, IsNext, IsEnd};
ghost use Rattle.js_tokens.specs.Runs.{passes};
ghost use Rattle.js_tokens.specs.Scan.{after_run};

use crate::class::{Run, passes};

// A character that is not ASCII, and the place behind it.
#[cold]
#[inline(never)]
fn wide_char(text: &str, at: usize) -> Option<(char, usize)>
    requires { IsPlace text.now at }
    ensures { MatchOption result (from text.now at ≡ []) (λ p. IsNext text.now at p.0 p.1) }
{
    let c = text[at..].chars().next()?;
    Some((c, at + c.len_utf8()))
}

/// The character at a place, and the place behind it; none at the end.
#[inline(always)]
pub fn char_at(text: &str, at: usize) -> Option<(char, usize)>
    requires { IsPlace text.now at }
    ensures { MatchOption result (from text.now at ≡ []) (λ p. IsNext text.now at p.0 p.1) }
{
    let bytes = text.as_bytes();
    if at < bytes.len() && bytes[at] < 0x80 {
        return Some((char::from(bytes[at]), at + 1));
    }
    wide_char(text, at)
}

/// Whether a character of the run stands at a place.
#[inline(always)]
pub fn begins(text: &str, at: usize, run: Run) -> bool
    requires { IsPlace text.now at }
    ensures { result ≡ Begins (passes run) (from text.now at) }
{
    match char_at(text, at) {
        Some((c, _)) => passes(run, c),
        None => false,
    }
}

/// The place behind the run that stands at a place.
#[inline(always)]
pub fn run_end(text: &str, at: usize, run: Run) -> usize
    requires { IsPlace text.now at }
    ensures { IsEnd text.now at (after_run (passes run) (from text.now at)) result }
{
    let mut place = at;
    'run: loop {
        let Some((c, next)) = char_at(text, place) else {
            return place;
        };
        if !passes(run, c) {
            return place;
        }
        place = next;
    }
}
