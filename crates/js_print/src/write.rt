//! Tokens as bytes. A refusal leaves a front of the token appended.
ghost use Rattle.std.specs.Prelude.{◌≡◌, ◌++◌, MatchResult};
ghost use Rattle.js_pieces.specs.Spelling.{unit_bytes, quoted_unit, name_bytes, string_bytes};
ghost use Rattle.js_print.specs.Walk.{space};
ghost use Rattle.js_print.specs.Writing.{AppendsFront};

use code_units::{Memory, Text, hex_digit};

// A refusal appends nothing.
fn push_unit(out: &mut Vec<u8>, unit: u16) -> Result<(), Memory>
    ensures { MatchResult result (λ _. out.new.items ≡ out.old.items ++ unit_bytes unit)
        (λ _. out.new.items ≡ out.old.items) }
{
    if 32 <= unit && unit <= 126 {
        out.push(unit as u8)?;
        return Ok(());
    }
    let escape = [
        b'\\',
        b'u',
        hex_digit(unit / 4096),
        hex_digit(unit / 256 % 16),
        hex_digit(unit / 16 % 16),
        hex_digit(unit % 16),
    ];
    out.extend_from_slice(&escape)?;
    Ok(())
}

fn push_quoted_unit(out: &mut Vec<u8>, before: u16, unit: u16) -> Result<(), Memory>
    ensures { MatchResult result (λ _. out.new.items ≡ out.old.items ++ quoted_unit before unit)
        (λ _. out.new.items ≡ out.old.items) }
{
    if unit == 34 || unit == 92 || unit == 47 && before == 60 {
        out.extend_from_slice(&[b'\\', unit as u8])?;
        return Ok(());
    }
    push_unit(out, unit)
}

// Appends a name or a number.
fn push_name(out: &mut Vec<u8>, text: &Text) -> Result<(), Memory>
    ensures { MatchResult result (λ _. out.new.items ≡ out.old.items ++ name_bytes text.now)
        (λ _. AppendsFront out.old.items out.new.items (name_bytes text.now)) }
{
    'units: for unit in text.units() {
        push_unit(out, *unit)?;
    }
    Ok(())
}

// Appends a string in its quotes.
fn push_quoted(out: &mut Vec<u8>, text: &Text) -> Result<(), Memory>
    ensures { MatchResult result (λ _. out.new.items ≡ out.old.items ++ string_bytes text.now)
        (λ _. AppendsFront out.old.items out.new.items (string_bytes text.now)) }
{
    out.push(b'"')?;
    let mut before = 0;
    'units: for unit in text.units() {
        push_quoted_unit(out, before, *unit)?;
        before = *unit;
    }
    out.push(b'"')?;
    Ok(())
}

// A refusal appends nothing.
fn push_space(out: &mut Vec<u8>, begun: bool) -> Result<(), Memory>
    ensures { MatchResult result (λ _. out.new.items ≡ out.old.items ++ space begun)
        (λ _. out.new.items ≡ out.old.items) }
{
    if begun {
        out.push(b' ')?;
    }
    Ok(())
}

/// Appends a mark or a word, after a space where a token came before.
pub fn write_mark(out: &mut Vec<u8>, begun: bool, text: &str) -> Result<(), Memory>
    ensures { MatchResult result (λ _. out.new.items ≡ out.old.items ++ (space begun ++ text.now))
        (λ _. AppendsFront out.old.items out.new.items (space begun ++ text.now)) }
{
    push_space(out, begun)?;
    out.extend_from_slice(text.as_bytes())?;
    Ok(())
}

/// Appends a name or a number likewise.
pub fn write_name(out: &mut Vec<u8>, begun: bool, text: &Text) -> Result<(), Memory>
    ensures { MatchResult result (λ _. out.new.items ≡ out.old.items ++ (space begun ++ name_bytes text.now))
        (λ _. AppendsFront out.old.items out.new.items (space begun ++ name_bytes text.now)) }
{
    push_space(out, begun)?;
    push_name(out, text)
}

/// Appends a string likewise.
pub fn write_quoted(out: &mut Vec<u8>, begun: bool, text: &Text) -> Result<(), Memory>
    ensures { MatchResult result (λ _. out.new.items ≡ out.old.items ++ (space begun ++ string_bytes text.now))
        (λ _. AppendsFront out.old.items out.new.items (space begun ++ string_bytes text.now)) }
{
    push_space(out, begun)?;
    push_quoted(out, text)
}
