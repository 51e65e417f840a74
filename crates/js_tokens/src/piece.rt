//! What stands at a place.
ghost use Rattle.std.specs.Prelude.{◌≡◌, ◌<◌, false};
ghost use Rattle.js_tokens.specs.Characters.{class_of};
ghost use Rattle.js_tokens.specs.Cursor.{from, IsPlace, IsNext};
ghost use Rattle.js_tokens.specs.Scan.{found_number, found_string, found_point, found_slash, found, after_string, first_bad};
ghost use Rattle.js_tokens.specs.Pieces.{IsPiece};

use crate::class::{Class, Run, class_of};
use crate::comment::comment_end;
use crate::cursor::{begins, char_at, run_end};
use crate::mark::{assign_end, mark_end};
use crate::number::{exponent_end, number_end};
use crate::string::{StringEnd, string_end};
use crate::token::TokenKind;
use crate::word::is_reserved;

/// What stands at a place.
#[derive(Clone, Copy)]
pub enum Piece {
    /// The text has ended.
    End,
    /// A blank or a comment, up to here.
    Gap(usize),
    /// A token, up to here.
    Token(TokenKind, usize),
    /// Neither: this is the bad place.
    Bad(usize),
}

// A number, unless it is glued to a name.
fn number_piece(text: &str, at: usize, end: usize) -> Piece
    requires place { IsPlace text.now at }
    requires end { IsPlace text.now end }
    requires later { at < end }
    ensures { IsPiece text.now at (found_number (from text.now at) (from text.now end)) result }
{
    if begins(text, end, Run::Name) {
        Piece::Bad(at)
    } else {
        Piece::Token(TokenKind::Number, end)
    }
}

// A string from its quote, which stands before `next`.
fn string_piece(text: &str, at: usize, next: usize, quote: char) -> Piece
    requires place { IsPlace text.now at }
    requires quote { IsNext text.now at quote next }
    ensures { IsPiece text.now at (found_string (from text.now at) (after_string quote false (from text.now next))
        (first_bad quote false (from text.now next))) result }
{
    match string_end(text, next, quote) {
        StringEnd::Open => Piece::Bad(at),
        StringEnd::Closed(end) => Piece::Token(TokenKind::Str, end),
        StringEnd::Bad(place) => Piece::Bad(place),
    }
}

// What begins with a point.
fn point_piece(text: &str, at: usize, next: usize) -> Piece
    requires place { IsPlace text.now at }
    requires later { at < next }
    requires next { IsPlace text.now next }
    ensures { IsPiece text.now at (found_point (from text.now at) (from text.now next)) result }
{
    if begins(text, next, Run::Digits) {
        let digits = run_end(text, next, Run::Digits);
        number_piece(text, at, exponent_end(text, digits))
    } else {
        Piece::Token(TokenKind::Mark, next)
    }
}

// What begins with `/`.
fn slash_piece(text: &str, at: usize, next: usize) -> Piece
    requires place { IsPlace text.now at }
    requires later { at < next }
    requires next { IsPlace text.now next }
    ensures { IsPiece text.now at (found_slash (from text.now at) (from text.now next)) result }
{
    match char_at(text, next) {
        Some(('/', line)) => Piece::Gap(run_end(text, line, Run::Line)),
        Some(('*', comment)) => match comment_end(text, comment) {
            Some(end) => Piece::Gap(end),
            None => Piece::Bad(at),
        },
        _ => Piece::Token(TokenKind::Mark, assign_end(text, next)),
    }
}

// A name or a reserved word, whose first letter stands before `next`.
fn word_piece(text: &str, at: usize, next: usize, first: char) -> Piece
    requires place { IsPlace text.now at }
    requires first { IsNext text.now at first next }
    requires letter { class_of first ≡ Class.Letter }
    ensures { IsPiece text.now at (found (from text.now at)) result }
{
    let end = run_end(text, next, Run::Name);
    if is_reserved(&text.as_bytes()[at..end]) {
        Piece::Token(TokenKind::Reserved, end)
    } else {
        Piece::Token(TokenKind::Name, end)
    }
}

/// What stands at a place.
pub fn piece_at(text: &str, at: usize) -> Piece
    requires { IsPlace text.now at }
    ensures { IsPiece text.now at (found (from text.now at)) result }
{
    let Some((c, next)) = char_at(text, at) else {
        return Piece::End;
    };
    match class_of(c) {
        Class::Letter => word_piece(text, at, next, c),
        Class::Digit => number_piece(text, at, number_end(text, next, c)),
        Class::Blank => Piece::Gap(next),
        Class::Quote => string_piece(text, at, next, c),
        Class::Point => point_piece(text, at, next),
        Class::Slash => slash_piece(text, at, next),
        Class::Mark => Piece::Token(TokenKind::Mark, mark_end(text, next, c)),
        Class::Other => Piece::Bad(at),
    }
}
