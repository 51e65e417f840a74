//! A source line with a mark below a place in it.
use code_units::{Memory, Place};
use std::alloc::Global;
use unicode_width::UnicodeWidthChar;

/// How many characters are shown before the place, and from it on.
const BEFORE: usize = 60;

const BEHIND: usize = 60;

/// What stands for characters that are left out, and for one that a terminal must not be sent.
const MORE: char = '…';

const HIDDEN: char = '\u{FFFD}';

/// Appends the line of a place, and below it a mark under the place. A tab stays one, in both lines;
/// other characters take the columns of a terminal. Of a long line a piece is shown. What is no
/// UTF-8, and what would move the cursor or turn the text, stands as U+FFFD.
pub fn push_source(
    alloc: Global,
    source: &[u8],
    at: Place,
    out: &mut Vec<u8>,
) -> Result<(), Memory> {
    let line = line_at(source, at.line);
    let column = (at.column as usize).saturating_sub(1).min(line.len());
    let before = String::from_utf8_lossy(alloc, &line[..column])?;
    let behind = String::from_utf8_lossy(alloc, &line[column..])?;
    push_line(before.as_str(), behind.as_str(), out)
}

// The line of a number, counted from 1, without its line feed; the last one where there are fewer.
fn line_at(source: &[u8], number: u32) -> &[u8] {
    let mut rest = source;
    'lines: for _ in 1..number {
        rest = behind_line(rest);
    }
    first_line(rest)
}

// What stands behind the first line feed.
fn behind_line(source: &[u8]) -> &[u8] {
    match source.iter().position(|byte| *byte == b'\n') {
        Some(end) => &source[end + 1..],
        None => source,
    }
}

// What stands before the first line feed.
fn first_line(source: &[u8]) -> &[u8] {
    match source.iter().position(|byte| *byte == b'\n') {
        Some(end) => &source[..end],
        None => source,
    }
}

// Appends a line and the mark below it, by what stands before the place and from it on.
fn push_line(before: &str, behind: &str, out: &mut Vec<u8>) -> Result<(), Memory> {
    let left_out = before.chars().count().saturating_sub(BEFORE);
    if left_out > 0 {
        push_char(MORE, out)?;
    }
    push_shown(before, left_out, BEFORE, out)?;
    push_shown(behind, 0, BEHIND, out)?;
    if behind.chars().count() > BEHIND {
        push_char(MORE, out)?;
    }
    out.extend_from_slice(b"\n")?;
    if left_out > 0 {
        out.extend_from_slice(b" ")?;
    }
    push_gaps(before, left_out, out)?;
    Ok(out.extend_from_slice(b"^\n")?)
}

// Appends characters of a text, as they are shown: at most so many, behind those that are left out.
fn push_shown(text: &str, left_out: usize, most: usize, out: &mut Vec<u8>) -> Result<(), Memory> {
    'characters: for c in text.chars().skip(left_out).take(most) {
        push_char(shown(c), out)?;
    }
    Ok(())
}

// Appends as many columns as these characters take.
fn push_gaps(text: &str, left_out: usize, out: &mut Vec<u8>) -> Result<(), Memory> {
    'characters: for c in text.chars().skip(left_out) {
        push_gap(shown(c), out)?;
    }
    Ok(())
}

// Appends as many columns as a character takes.
fn push_gap(c: char, out: &mut Vec<u8>) -> Result<(), Memory> {
    let gap = if c == '\t' {
        "\t"
    } else {
        match c.width() {
            Some(0) => "",
            Some(2) => "  ",
            Some(3) => "   ",
            _ => " ",
        }
    };
    Ok(out.extend_from_slice(gap.as_bytes())?)
}

// Appends a character.
fn push_char(c: char, out: &mut Vec<u8>) -> Result<(), Memory> {
    let mut buffer = [0; 4];
    Ok(out.extend_from_slice(c.encode_utf8(&mut buffer).as_bytes())?)
}

// A character as it is shown.
fn shown(c: char) -> char {
    if c == '\t' {
        return c;
    }
    if c.width().is_none() || turns_text(c) {
        return HIDDEN;
    }
    c
}

// Whether a character changes the direction in which a terminal shows what follows.
fn turns_text(c: char) -> bool {
    matches!(c, '\u{200E}' | '\u{200F}' | '\u{061C}' | '\u{202A}'..='\u{202E}' | '\u{2066}'..='\u{2069}')
}
