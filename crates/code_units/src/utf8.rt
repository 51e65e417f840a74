//! Texts from UTF-8 and back.

ghost use Rattle.std.specs.Prelude.{◌≡◌, ℕ, List, false, ◌+◌, ◌*◌, MatchOption, IfSome, unwrap_or, slice_index, IfOk, IfErr, OnOk, OnErr, ◌∷◌, ◌++◌, ◌<◌, ◌≤◌, length, take, drop, IsUtf8, encode_utf8};
ghost use Rattle.std.specs.Vec.{vec_len};
ghost use Rattle.std.specs.Char.Utf16.{has_unpaired_surrogate, utf16_lossy_chars, lone_unit_char, surrogate_pair_char};
ghost use Rattle.code_units.specs.declared.utf8.TextFault.TheVariants.{Memory as out_of_memory};
ghost use Rattle.code_units.specs.Utf8.{units_of, utf8_of, IsSurrogatePair, IsTextFault};

use crate::grown::{push_ascii, push_bytes, push_char};
use crate::memory::Memory;
use crate::runs::{Kind, ascii_len, run};
use crate::text::Text;
use std::alloc::{AllocError, Global};
use thiserror::Error;

// How many bytes or units are taken one character at a time before ASCII is looked for again.
const MOST: usize = 16;

/// Why bytes gave no text.
#[derive(Clone, Copy, PartialEq, Eq, Debug, Drop, Error)]
pub enum TextFault {
    /// The bytes are no UTF-8. `at` is the first byte of the first ill-formed sequence.
    #[error("no UTF-8 at byte {at}")]
    NotUtf8 { at: usize },
    /// There was no memory for the text.
    #[error("out of memory")]
    Memory,
}

impl From<Memory> for TextFault {
    ghost from_gives = { λ _ e. e ≡ out_of_memory };

    fn from(_: Memory) -> TextFault {
        TextFault::Memory
    }
}

/// The text of UTF-8 bytes: one unit for each code point below 65536 and two surrogates for each
/// above (ECMA-262 3rd edition, 8.4). `NotUtf8` comes exactly where the bytes are no UTF-8.
pub fn from_utf8_bytes(alloc: Global, bytes: &[u8]) -> Result<Text, TextFault>
    ensures ok { IfOk result (λ t. IsUtf8 bytes.now × (t ≡ units_of bytes.now)) }
    ensures back { IfOk result (λ t. utf8_of t ≡ bytes.now) }
    ensures err { IfErr result (IsTextFault bytes.now) }
{
    match str::from_utf8(bytes) {
        Ok(text) => Ok(Text::from_str(alloc, text)?),
        Err(fault) => Err(TextFault::NotUtf8 {
            at: fault.valid_up_to(),
        }),
    }
}

impl Text {
    /// The text of a string: one unit for each code point below 65536 and two surrogates for each
    /// above.
    pub fn from_str(alloc: Global, text: &str) -> Result<Text, Memory>
        ensures { IfOk result (λ t. t ≡ units_of text.now) }
    {
        // A byte gives no more than one unit.
        let mut units = Vec::with_capacity(alloc, text.len())?;
        push_units(&mut units, text)?;
        Text::from_units(alloc, units)
    }
}

// Appends the units of a text.
fn push_units(units: &mut Vec<u16>, text: &str) -> Result<(), Memory>
    ensures { OnOk result (units.new.items ≡ units.old.items ++ units_of text.now) }
{
    let mut at = 0;
    while at < text.len() {
        at = push_units_at(units, text, at)?;
    }
    Ok(())
}

// Appends the units of the ASCII at a place and of some characters more, and gives where they end.
fn push_units_at(units: &mut Vec<u16>, text: &str, at: usize) -> Result<usize, Memory>
    requires within { at < length text.now }
    requires place { IsUtf8 (drop at text.now) }
    ensures next { IfOk result (λ next. (at < next) × (next ≤ length text.now)) }
    ensures place { IfOk result (λ next. IsUtf8 (drop next text.now)) }
    ensures units { IfOk result (λ next.
        units.new.items ++ units_of (drop next text.now) ≡ units.old.items ++ units_of (drop at text.now)) }
{
    let bytes = text.as_bytes();
    let end = at + ascii_len(&bytes[at..]);
    push_ascii(units, &bytes[at..end])?;
    push_chars(units, text, end)
}

// Appends the units of the first characters from a place on, and gives where they end.
fn push_chars(units: &mut Vec<u16>, text: &str, from: usize) -> Result<usize, Memory>
    requires within { from ≤ length text.now }
    requires place { IsUtf8 (drop from text.now) }
    ensures next { IfOk result
        (λ next. (from ≤ next) × (next ≤ length text.now) × (from < length text.now → from < next)) }
    ensures place { IfOk result (λ next. IsUtf8 (drop next text.now)) }
    ensures units { IfOk result (λ next.
        units.new.items ++ units_of (drop next text.now) ≡ units.old.items ++ units_of (drop from text.now)) }
{
    let mut at = from;
    while at < text.len() && at - from < MOST {
        let Some(c) = text[at..].chars().next() else {
            return Ok(at);
        };
        push_char(units, c)?;
        at += c.len_utf8();
    }
    Ok(at)
}

/// Appends the text in UTF-8, each lone surrogate as U+FFFD. A refusal leaves `out` as it was.
pub fn push_utf8(text: &Text, out: &mut Vec<u8>) -> Result<(), Memory>
    ensures ok { OnOk result (out.new.items ≡ out.old.items ++ utf8_of text.now) }
    ensures err { OnErr result (out.new.items ≡ out.old.items) }

    // What was appended is UTF-8, and reads as the text where no surrogate in it is lone.
    ensures valid { IsUtf8 (utf8_of text.now) }
    ensures back { has_unpaired_surrogate text.now ≡ false → units_of (utf8_of text.now) ≡ text.now }
{
    let before = out.len();
    match push_encoded(text.units(), out) {
        Ok(()) => Ok(()),
        Err(_) => {
            out.truncate(before);
            Err(Memory)
        }
    }
}

/// How many bytes `push_utf8` appends for the text.
pub fn utf8_len(text: &Text) -> usize
    ensures { result ≡ length (utf8_of text.now) }
{
    encoded_len(text.units())
}

// How many bytes units take in UTF-8.
fn encoded_len(units: &[u16]) -> usize
    ensures { result ≡ length (utf8_of units.now) }
{
    let mut at = 0;
    let mut bytes = 0;
    while at < units.len() {
        let (more, next) = encoded_len_at(units, at);
        bytes += more;
        at = next;
    }
    bytes
}

// How many bytes the ASCII at a place takes, or the code point where none stands there, and where it ends.
fn encoded_len_at(units: &[u16], at: usize) -> (usize, usize)
    requires { at < length units.now }
    ensures next { (at < result.1) × (result.1 ≤ length units.now) }
    ensures most { result.0 + 4 * at ≤ 4 * result.1 }
    ensures len { result.0 + length (utf8_of (drop result.1 units.now)) ≡ length (utf8_of (drop at units.now)) }
{
    let ascii = run(&units[at..], Kind::Ascii);
    if ascii > 0 {
        return (ascii, at + ascii);
    }
    let (c, next) = char_at(units, at);
    (c.len_utf8(), next)
}

// Appends units in UTF-8. Where memory runs out, some of the bytes may have been appended.
fn push_encoded(units: &[u16], out: &mut Vec<u8>) -> Result<(), AllocError>
    ensures ok { OnOk result (out.new.items ≡ out.old.items ++ utf8_of units.now) }
    ensures err { OnErr result (take (vec_len out.old) out.new.items ≡ out.old.items) }
    ensures valid { IsUtf8 (utf8_of units.now) }
    ensures back { has_unpaired_surrogate units.now ≡ false → units_of (utf8_of units.now) ≡ units.now }
{
    let mut at = 0;
    while at < units.len() {
        at = push_encoded_at(units, at, out)?;
    }
    Ok(())
}

// Appends the ASCII at a place and some code points more in UTF-8, and gives where they end. Where memory
// runs out, some of the bytes may have been appended.
fn push_encoded_at(units: &[u16], at: usize, out: &mut Vec<u8>) -> Result<usize, AllocError>
    requires { at < length units.now }
    ensures next { IfOk result (λ next. (at < next) × (next ≤ length units.now)) }
    ensures ok { IfOk result
        (λ next. out.new.items ++ utf8_of (drop next units.now) ≡ out.old.items ++ utf8_of (drop at units.now)) }
    ensures front { (more : List ℕ) × (out.new.items ≡ out.old.items ++ more) }
{
    let end = at + run(&units[at..], Kind::Ascii);
    push_bytes(out, &units[at..end])?;
    push_code_points(units, end, out)
}

// Appends the first code points from a place on in UTF-8, and gives where they end.
fn push_code_points(units: &[u16], from: usize, out: &mut Vec<u8>) -> Result<usize, AllocError>
    requires { from ≤ length units.now }
    ensures next { IfOk result
        (λ next. (from ≤ next) × (next ≤ length units.now) × (from < length units.now → from < next)) }
    ensures ok { IfOk result
        (λ next. out.new.items ++ utf8_of (drop next units.now) ≡ out.old.items ++ utf8_of (drop from units.now)) }
    ensures front { (more : List ℕ) × (out.new.items ≡ out.old.items ++ more) }
{
    let mut at = from;
    while at < units.len() && at - from < MOST {
        let (c, next) = char_at(units, at);
        push_code_point(out, c)?;
        at = next;
    }
    Ok(at)
}

// Appends a code point in UTF-8.
fn push_code_point(out: &mut Vec<u8>, c: char) -> Result<(), AllocError>
    ensures ok { OnOk result (out.new.items ≡ out.old.items ++ encode_utf8 c) }
    ensures err { OnErr result (out.new.items ≡ out.old.items) }
{
    if c.is_ascii() {
        out.push(c as u8)?;
        return Ok(());
    }
    out.extend_from_slice(c.encode_utf8(&mut [0; 4]).as_bytes())
}

// The code point whose units begin at the place, U+FFFD for a lone surrogate, and where the next begins.
fn char_at(units: &[u16], at: usize) -> (char, usize)
    requires { at < length units.now }
    ensures next { (at < result.1) × (result.1 ≤ length units.now) }
    ensures first { utf16_lossy_chars (drop at units.now) ≡ result.0 ∷ utf16_lossy_chars (drop result.1 units.now) }
{
    match pair_at(units, at) {
        Some(code) => (char_or_replacement(code), at + 2),
        None => (char_or_replacement(u32::from(units[at])), at + 1),
    }
}

// The code point of the two surrogates at the place, if two stand there.
fn pair_at(units: &[u16], at: usize) -> Option<u32>
    requires { at < length units.now }
    ensures within { IfSome result (λ code. at + 1 < length units.now) }
    ensures pair { let u = slice_index units.now at in let v = slice_index units.now (at + 1) in
        MatchOption result (¬ (IsSurrogatePair u v)) (λ code. IsSurrogatePair u v × (code ≡ surrogate_pair_char u v)) }
{
    let high = u32::from(units[at]);
    let low = u32::from(*units.get(at + 1)?);
    if high < 0xD800 || 0xDC00 <= high || low < 0xDC00 || 0xE000 <= low {
        return None;
    }
    Some(0x1_0000 + (high - 0xD800) * 0x400 + (low - 0xDC00))
}

// The code point, or U+FFFD for a surrogate.
fn char_or_replacement(code: u32) -> char
    requires { code < 0x11_0000 }
    ensures { result ≡ unwrap_or (lone_unit_char code) 0xFFFD }
{
    char::from_u32(code).unwrap_or(char::REPLACEMENT_CHARACTER)
}
