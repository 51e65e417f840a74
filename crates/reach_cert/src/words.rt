//! The words of a line.
ghost use Rattle.std.specs.Prelude.{◌≡◌, ℕ, ◌<◌, ◌≤◌, ◌^◌, length, decimal, IfOk, IfSome, option_map};
ghost use Rattle.std.specs.List.{list_all, position};
ghost use Rattle.reach_cert.specs.Certs.{row_of};
ghost use Rattle.reach_cert.specs.Shape.{is_capital, is_name};
ghost use Rattle.reach_cert.specs.Words.{IsSlice, behind, is_space, is_colon, word_end, name_in, number_in, cell_at, ref_in, refs_in, kind_in, row_in, cell_behind};

use crate::cert::{CellRow, Ref, RowKind};
use code_units::{Memory, Text, spells};
use itoa::Buffer;
use std::alloc::Global;

// The bytes that the longest name has.
const LONGEST_NAME: usize = 32;

// The names of other widgets that are kept to be shared: as many as a certificate may have slots.
const MOST_KEPT: usize = 16;

// The first number past the numbers of cells.
const LIMIT: u64 = 1 << 32;

/// What stands behind a front, where the bytes begin with it.
pub fn behind<'a>(front: &[u8], bytes: &'a [u8]) -> Option<&'a [u8]>
    ensures { IsSlice (behind front.now bytes.now) result }
{
    bytes.strip_prefix(front)
}

fn is_space(byte: &u8) -> bool
    ensures { result ≡ is_space byte.now }
{
    *byte == b' '
}

fn is_colon(byte: &u8) -> bool
    ensures { result ≡ is_colon byte.now }
{
    *byte == b':'
}

fn is_capital(byte: &u8) -> bool
    ensures { result ≡ is_capital byte.now }
{
    (b'A'..=b'Z').contains(byte)
}

fn space_in(text: &[u8]) -> Option<usize>
    ensures { result ≡ position is_space text.now }
{
    text.iter().position(is_space)
}

/// Where the first word ends.
pub fn word_end(text: &[u8]) -> usize
    ensures end { result ≡ word_end text.now }
    ensures within { result ≤ length text.now }
{
    match space_in(text) {
        Some(end) => end,
        None => text.len(),
    }
}

/// Where the first colon stands.
pub fn colon_in(word: &[u8]) -> Option<usize>
    ensures { result ≡ position is_colon word.now }
{
    word.iter().position(is_colon)
}

fn are_capitals(word: &[u8]) -> bool
    ensures { result ≡ list_all is_capital word.now }
{
    word.iter().all(is_capital)
}

/// Whether the word is 1 to 31 letters from A to Z, and one `_`.
#[tactic(auto, unfolding(crate::specs::Shape::is_name))]
pub fn is_name(word: &[u8]) -> bool
    ensures { result ≡ is_name word.now }
{
    if word.len() < 2 || word.len() > LONGEST_NAME {
        return false;
    }
    let last = word.len() - 1;
    word[last] == b'_' && are_capitals(&word[..last])
}

/// The text of ASCII bytes.
pub fn text_of(alloc: Global, word: &[u8]) -> Result<Text, Memory>
    ensures { IfOk result (λ text. text ≡ word.now) }
{
    let units = word.iter().map(|byte| u16::from(*byte)).collect(alloc)?;
    Text::from_units(alloc, units)
}

// A kept name that the word is.
fn kept_name<'a>(names: &'a [Text], word: &[u8]) -> Option<&'a Text>
    ensures { IfSome result (λ name. name.now ≡ word.now) }
{
    'each: for name in names {
        if spells(name.units(), word) {
            return Some(name);
        }
    }
    None
}

// The name that a word is. The widget's own is shared, and so are the first other ones.
fn read_name(
    alloc: Global,
    own: &Text,
    others: &mut Vec<Text>,
    word: &[u8],
) -> Result<Option<Text>, Memory>
    ensures { IfOk result (λ name. name ≡ name_in word.now) }
{
    if !is_name(word) {
        return Ok(None);
    }
    if spells(own.units(), word) {
        return Ok(Some(own.share()?));
    }
    if let Some(name) = kept_name(others, word) {
        return Ok(Some(name.share()?));
    }
    let name = text_of(alloc, word)?;
    if others.len() < MOST_KEPT {
        others.push(name.share()?)?;
    }
    Ok(Some(name))
}

// The value of decimal digits, or the limit where it is larger; for other bytes any number.
fn value_of(word: &[u8]) -> u64
    ensures { (n : ℕ) → n < 2 ^ 32 → decimal n ≡ word.now → result ≡ n }
{
    let mut value = 0;
    'each: for byte in word {
        value = LIMIT.min(value * 10 + u64::from(byte.saturating_sub(b'0')));
    }
    value
}

/// The number below 2^32 whose decimal text the word is.
pub fn number_in(word: &[u8]) -> Option<u32>
    ensures { result ≡ number_in word.now }
{
    let n = value_of(word);
    if word == Buffer::new().format(n).as_bytes() && n < LIMIT {
        Some(n as u32)
    } else {
        None
    }
}

fn read_cell(
    alloc: Global,
    own: &Text,
    others: &mut Vec<Text>,
    word: &[u8],
) -> Result<Option<Ref>, Memory>
    ensures { IfOk result (λ target. target ≡ cell_at word.now (position is_colon word.now)) }
{
    let Some(colon) = colon_in(word) else {
        return Ok(None);
    };
    let Some(name) = read_name(alloc, own, others, &word[..colon])? else {
        return Ok(None);
    };
    match number_in(&word[colon + 1..]) {
        Some(number) => Ok(Some(Ref::Cell { name, number })),
        None => Ok(None),
    }
}

#[tactic(auto, unfolding(crate::specs::Words::ref_in))]
fn read_ref(
    alloc: Global,
    own: &Text,
    others: &mut Vec<Text>,
    word: &[u8],
) -> Result<Option<Ref>, Memory>
    ensures { IfOk result (λ target. target ≡ ref_in word.now) }
{
    if word == b"host".as_slice() {
        return Ok(Some(Ref::Host));
    }
    if word == b"raw".as_slice() {
        return Ok(Some(Ref::Raw));
    }
    if word == b"global".as_slice() {
        return Ok(Some(Ref::Global));
    }
    read_cell(alloc, own, others, word)
}

fn space_count(text: &[u8]) -> usize {
    text.iter().filter(|byte| is_space(byte)).count()
}

/// The references of a text in which a space stands before each. The widget's own name is shared, and
/// so are the names of others, of which the first are kept.
pub fn read_refs(
    alloc: Global,
    own: &Text,
    others: &mut Vec<Text>,
    text: &[u8],
) -> Result<Option<Vec<Ref>>, Memory>
    ensures { IfOk result (λ refs. option_map (λ v. v.items) refs ≡ refs_in text.now) }
{
    let mut refs = Vec::with_capacity(alloc, space_count(text))?;
    let mut rest = text;
    'each: while let Some(more) = behind(b" ", rest) {
        let end = word_end(more);
        let Some(target) = read_ref(alloc, own, others, &more[..end])? else {
            return Ok(None);
        };
        refs.push(target)?;
        rest = &more[end..];
    }
    if !rest.is_empty() {
        return Ok(None);
    }
    Ok(Some(refs))
}

/// The kind that the word is.
pub fn kind_in(word: &[u8]) -> Option<RowKind>
    ensures { result ≡ kind_in word.now }
{
    if word == b"object".as_slice() {
        return Some(RowKind::Object);
    }
    if word == b"array".as_slice() {
        return Some(RowKind::Array);
    }
    if word == b"function".as_slice() {
        return Some(RowKind::Function);
    }
    if word == b"bunch".as_slice() {
        return Some(RowKind::Bunch);
    }
    None
}

/// The row of a text that begins with its kind.
#[tactic(auto, unfolding(crate::specs::Words::row_in))]
pub fn read_row(
    alloc: Global,
    own: &Text,
    others: &mut Vec<Text>,
    text: &[u8],
) -> Result<Option<CellRow>, Memory>
    ensures { IfOk result (λ row. option_map row_of row ≡ row_in text.now) }
{
    let end = word_end(text);
    let Some(kind) = kind_in(&text[..end]) else {
        return Ok(None);
    };
    match read_refs(alloc, own, others, &text[end..])? {
        Some(refs) => Ok(Some(CellRow { kind, refs })),
        None => Ok(None),
    }
}

/// What stands in the line of a cell behind its number, where it is the line of this number.
#[tactic(auto, unfolding(crate::specs::Words::cell_behind))]
pub fn cell_behind(number: usize, text: &[u8]) -> Option<&[u8]>
    ensures { IsSlice (cell_behind number text.now) result }
{
    let number = u32::try_from(number).ok()?;
    let rest = behind(b"c ", text)?;
    let rest = behind(Buffer::new().format(number).as_bytes(), rest)?;
    behind(b" ", rest)
}
