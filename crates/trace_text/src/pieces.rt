//! Pieces of a line, appended in order.
ghost use Rattle.std.specs.Prelude.{◌≡◌, ◌++◌, OnOk, OnErr, decimal};
ghost use Rattle.std.specs.List.{flat_map};
ghost use Rattle.trace_text.specs.Report.{escape, escaped, text_inside, quoted, next_quoted, quoted_list, until_member, AppendsPart};
ghost use Rattle.trace_text.specs.Pieces.{piece_text};

use code_units::{Memory, Text, hex_digit, push_utf8};
use itoa::Buffer;

const BACKSPACE: u8 = 8;

const FORM_FEED: u8 = 12;

/// A piece of a line.
#[derive(Clone, Copy)]
pub enum Piece<'a> {
    /// Bytes that stand as they are.
    Plain(&'a str),
    /// UTF-8 bytes of which each is escaped.
    Escaped(&'a [u8]),
    /// A text, escaped.
    Units(&'a Text),
    /// Texts in quotes, with commas between.
    Texts(&'a [Text]),
    /// The position of the swap that ended a life, where one did.
    Until(Option<u32>),
    /// A number, in decimal digits.
    Number(u64),
}

// Appends a byte of a text between quotes.
fn push_escape(byte: u8, out: &mut Vec<u8>) -> Result<(), Memory>
    ensures ok { OnOk result (out.new.items ≡ out.old.items ++ escape byte) }
    ensures err { OnErr result (out.new.items ≡ out.old.items) }
    ensures part { AppendsPart out.old.items out.new.items (escape byte) }
{
    let pushed = match byte {
        b'"' => out.extend_from_slice(b"\\\""),
        b'\\' => out.extend_from_slice(b"\\\\"),
        BACKSPACE => out.extend_from_slice(b"\\b"),
        b'\t' => out.extend_from_slice(b"\\t"),
        b'\n' => out.extend_from_slice(b"\\n"),
        FORM_FEED => out.extend_from_slice(b"\\f"),
        b'\r' => out.extend_from_slice(b"\\r"),
        0..=31 => out.extend_from_slice(&[
            b'\\',
            b'u',
            b'0',
            b'0',
            hex_digit(u16::from(byte / 16)),
            hex_digit(u16::from(byte % 16)),
        ]),
        _ => out.extend_from_slice(&[byte]),
    };
    Ok(pushed?)
}

fn push_escaped(bytes: &[u8], out: &mut Vec<u8>) -> Result<(), Memory>
    ensures ok { OnOk result (out.new.items ≡ out.old.items ++ escaped bytes.now) }
    ensures part { AppendsPart out.old.items out.new.items (escaped bytes.now) }
{
    'bytes: for byte in bytes {
        push_escape(*byte, out)?;
    }
    Ok(())
}

// Appends a text, escaped. The buffer holds its UTF-8 meanwhile; the texts of a line share it.
fn push_units(text: &Text, buffer: &mut Vec<u8>, out: &mut Vec<u8>) -> Result<(), Memory>
    ensures ok { OnOk result (out.new.items ≡ out.old.items ++ text_inside text.now) }
    ensures part { AppendsPart out.old.items out.new.items (text_inside text.now) }
{
    buffer.clear();
    push_utf8(text, buffer)?;
    push_escaped(buffer, out)
}

fn push_quoted(text: &Text, buffer: &mut Vec<u8>, out: &mut Vec<u8>) -> Result<(), Memory>
    ensures ok { OnOk result (out.new.items ≡ out.old.items ++ quoted text.now) }
    ensures part { AppendsPart out.old.items out.new.items (quoted text.now) }
{
    out.extend_from_slice(b"\"")?;
    push_units(text, buffer, out)?;
    Ok(out.extend_from_slice(b"\"")?)
}

fn push_next(text: &Text, buffer: &mut Vec<u8>, out: &mut Vec<u8>) -> Result<(), Memory>
    ensures ok { OnOk result (out.new.items ≡ out.old.items ++ next_quoted text.now) }
    ensures part { AppendsPart out.old.items out.new.items (next_quoted text.now) }
{
    out.extend_from_slice(b",")?;
    push_quoted(text, buffer, out)
}

fn push_rest(texts: &[Text], buffer: &mut Vec<u8>, out: &mut Vec<u8>) -> Result<(), Memory>
    ensures ok { OnOk result (out.new.items ≡ out.old.items ++ flat_map next_quoted texts.now) }
    ensures part { AppendsPart out.old.items out.new.items (flat_map next_quoted texts.now) }
{
    'texts: for text in texts {
        push_next(text, buffer, out)?;
    }
    Ok(())
}

fn push_texts(texts: &[Text], buffer: &mut Vec<u8>, out: &mut Vec<u8>) -> Result<(), Memory>
    ensures ok { OnOk result (out.new.items ≡ out.old.items ++ quoted_list texts.now) }
    ensures part { AppendsPart out.old.items out.new.items (quoted_list texts.now) }
{
    let Some((first, rest)) = texts.split_first() else {
        return Ok(());
    };
    push_quoted(first, buffer, out)?;
    push_rest(rest, buffer, out)
}

fn push_number(n: u64, out: &mut Vec<u8>) -> Result<(), Memory>
    ensures ok { OnOk result (out.new.items ≡ out.old.items ++ decimal n) }
    ensures err { OnErr result (out.new.items ≡ out.old.items) }
{
    let mut buffer = Buffer::new();
    Ok(out.extend_from_slice(buffer.format(n).as_bytes())?)
}

fn push_until(until: Option<u32>, out: &mut Vec<u8>) -> Result<(), Memory>
    ensures ok { OnOk result (out.new.items ≡ out.old.items ++ until_member until) }
    ensures part { AppendsPart out.old.items out.new.items (until_member until) }
{
    let Some(n) = until else {
        return Ok(());
    };
    out.extend_from_slice(b",\"until\":")?;
    push_number(u64::from(n), out)
}

fn push_piece(piece: &Piece, buffer: &mut Vec<u8>, out: &mut Vec<u8>) -> Result<(), Memory>
    ensures ok { OnOk result (out.new.items ≡ out.old.items ++ piece_text piece.now) }
    ensures part { AppendsPart out.old.items out.new.items (piece_text piece.now) }
{
    match piece {
        Piece::Plain(text) => Ok(out.extend_from_slice(text.as_bytes())?),
        Piece::Escaped(bytes) => push_escaped(bytes, out),
        Piece::Units(text) => push_units(text, buffer, out),
        Piece::Texts(texts) => push_texts(texts, buffer, out),
        Piece::Until(until) => push_until(*until, out),
        Piece::Number(n) => push_number(*n, out),
    }
}

/// Appends the pieces in order, or a part of their text.
pub fn push_pieces(pieces: &[Piece], out: &mut Vec<u8>) -> Result<(), Memory>
    ensures ok { OnOk result (out.new.items ≡ out.old.items ++ flat_map piece_text pieces.now) }
    ensures part { AppendsPart out.old.items out.new.items (flat_map piece_text pieces.now) }
{
    let mut buffer = Vec::new(*out.allocator());
    'pieces: for piece in pieces {
        push_piece(piece, &mut buffer, out)?;
    }
    Ok(())
}
