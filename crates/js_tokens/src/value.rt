//! What tokens say.
ghost use Rattle.std.specs.Prelude.{◌≡◌, ◌<◌, ◌≤◌, ◌++◌, length, slice_range, IfOk, OnOk, IsUtf8, chars};
ghost use Rattle.std.specs.Char.Escape.{encode_utf16};
ghost use Rattle.js_tokens.specs.Lexes.{IsTokenOf};
ghost use Rattle.js_tokens.specs.Value.{hex_value, escaped, mode_after, units_at, string_value, text_of};
ghost use Rattle.js_tokens.specs.Modes.{IsFit};
ghost use Rattle.js_tokens.specs.Says.{StandsFor, between_quotes};

use crate::cursor::char_at;
use crate::token::{Token, TokenKind};
use code_units::{Memory, Text};
use std::alloc::{AllocError, Global};

/// Where a character stands in a string.
#[derive(Clone, Copy)]
pub enum Mode {
    Plain,
    /// Behind a backslash.
    Escape,
    /// At a hexadecimal digit: how many more come after it, and the value of those before it.
    Digits(u8, u16),
}

fn hex_value(c: char) -> u16
    ensures value { result ≡ hex_value c }
    ensures small { result < 16 }
{
    match c {
        '0'..='9' => (c as u32 - 48) as u16,
        'a'..='f' => (c as u32 - 87) as u16,
        'A'..='F' => (c as u32 - 55) as u16,
        _ => 0,
    }
}

fn escaped(c: char) -> char
    ensures { result ≡ escaped c }
{
    match c {
        'b' => '\u{8}',
        't' => '\t',
        'n' => '\n',
        'v' => '\u{B}',
        'f' => '\u{C}',
        'r' => '\r',
        '0' => '\0',
        _ => c,
    }
}

fn mode_after(mode: Mode, c: char) -> Mode
    requires { IsFit mode }
    ensures value { result ≡ mode_after mode c }
    ensures fit { IsFit result }
{
    match mode {
        Mode::Plain => { if c == '\\' { Mode::Escape } else { Mode::Plain } }
        Mode::Escape => match c {
            'x' => Mode::Digits(1, 0),
            'u' => Mode::Digits(3, 0),
            _ => Mode::Plain,
        },
        Mode::Digits(0, _) => Mode::Plain,
        Mode::Digits(more, value) => Mode::Digits(more - 1, 16 * value + hex_value(c)),
    }
}

fn push_char(units: &mut Vec<u16>, c: char) -> Result<(), AllocError>
    ensures { OnOk result (units.new.items ≡ units.old.items ++ encode_utf16 c) }
{
    units.extend_from_slice(c.encode_utf16(&mut [0; 2]))
}

fn push_units(units: &mut Vec<u16>, mode: Mode, c: char) -> Result<(), AllocError>
    requires { IsFit mode }
    ensures { OnOk result (units.new.items ≡ units.old.items ++ units_at mode c) }
{
    match mode {
        Mode::Plain if c == '\\' => Ok(()),
        Mode::Plain => push_char(units, c),
        Mode::Escape if c == 'x' || c == 'u' => Ok(()),
        Mode::Escape => push_char(units, escaped(c)),
        Mode::Digits(0, value) => {
            units.push(16 * value + hex_value(c))?;
            Ok(())
        }
        Mode::Digits(_, _) => Ok(()),
    }
}

// The units of what stands between the quotes of a string.
fn string_units(alloc: Global, text: &str) -> Result<Vec<u16>, AllocError>
    ensures { IfOk result (λ v. v.items ≡ string_value Mode.Plain (chars text.now)) }
{
    let mut units = Vec::with_capacity(alloc, text.len())?;
    let mut mode = Mode::Plain;
    let mut place = 0;
    'units: while let Some((c, next)) = char_at(text, place) {
        push_units(&mut units, mode, c)?;
        mode = mode_after(mode, c);
        place = next;
    }
    Ok(units)
}

fn byte_units(alloc: Global, bytes: &[u8]) -> Result<Vec<u16>, AllocError>
    ensures { IfOk result (λ v. v.items ≡ bytes.now) }
{
    bytes.iter().map(|b| u16::from(*b)).collect(alloc)
}

fn between(bytes: &[u8], from: usize, to: usize) -> &[u8]
    requires ordered { from ≤ to }
    requires within { to ≤ length bytes.now }
    ensures { result.now ≡ slice_range bytes.now from to }
{
    &bytes[from..to]
}

fn string_text(alloc: Global, bytes: &[u8]) -> Result<Vec<u16>, AllocError>
    requires { IsUtf8 bytes.now }
    ensures { IfOk result (λ v. v.items ≡ string_value Mode.Plain (chars bytes.now)) }
{
    match str::from_utf8(bytes) {
        Ok(text) => string_units(alloc, text),
        Err(_) => unreachable!(),
    }
}

/// What a token of these bytes says, as units: the name, the reserved word, the number or the mark, and the
/// value of a string (ECMA-262 3rd edition, 7.8.4).
pub fn token_text(alloc: Global, bytes: &[u8], token: &Token) -> Result<Text, Memory>
    requires { IsTokenOf bytes.now token.now }
    ensures units { IfOk result (λ t. t ≡ text_of bytes.now token.now) }
    ensures value { token.now.kind ≡ TokenKind.Str →
        IfOk result (λ t. StandsFor (between_quotes bytes.now token.now) t) }
{
    match token.kind {
        TokenKind::Str => {
            let inner = between(bytes, token.from + 1, token.to - 1);
            Text::from_units(alloc, string_text(alloc, inner)?)
        }
        _ => {
            let text = between(bytes, token.from, token.to);
            Text::from_units(alloc, byte_units(alloc, text)?)
        }
    }
}
