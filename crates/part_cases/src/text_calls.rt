//! Calls on texts and names.
use crate::answer::{Answer, text_answer};
use crate::cases::bytes_of;
use crate::keys;
use code_units::{Text, TextFault, WholeRead, from_utf8_bytes, push_utf8, read_whole, whole_text};
use keyed_names::Names;
use serde_json::Value;
use std::alloc::Global;

/// What a call on the text of a case gives.
pub fn answer_of_text(alloc: Global, call: &str, case: &Value) -> Option<Answer> {
    match call {
        "units" => units_of(alloc, &bytes_of(alloc, case)?),
        "number" => number_in(alloc, &bytes_of(alloc, case)?),
        "share" => shared(alloc, &bytes_of(alloc, case)?),
        "bytes of the unit d800" => bytes_of_unit(alloc, 0xd800),
        "text of -7" => units_line(alloc, &whole_text(alloc, -7).ok()?),
        "intern a, b and a, and look for c" => numbers_of_names(alloc),
        _ => None,
    }
}

// The units of UTF-8, or its first bad byte.
fn units_of(alloc: Global, bytes: &[u8]) -> Option<Answer> {
    match from_utf8_bytes(alloc, bytes) {
        Ok(text) => units_line(alloc, &text),
        Err(TextFault::NotUtf8 { at }) => Some(Answer::At("bad", at)),
        Err(TextFault::Memory) => None,
    }
}

fn units_line(alloc: Global, text: &Text) -> Option<Answer> {
    let units = text.units().to_vec(alloc).ok()?;
    Some(Answer::Text(format!(in alloc; "{units:?}\n").ok()?))
}

// The number that a text is.
fn number_in(alloc: Global, bytes: &[u8]) -> Option<Answer> {
    match read_whole(&from_utf8_bytes(alloc, bytes).ok()?) {
        WholeRead::Whole(number) => Some(Answer::Text(format!(in alloc; "{number}\n").ok()?)),
        WholeRead::NotNumber => Some(Answer::Word("no number")),
        WholeRead::Left => Some(Answer::Word("outside the numbers")),
    }
}

// A text, and the same one for a second holder.
fn shared(alloc: Global, bytes: &[u8]) -> Option<Answer> {
    let text = from_utf8_bytes(alloc, bytes).ok()?;
    let second = text.share().ok()?;
    let mut line = Vec::new(alloc);
    push_utf8(&text, &mut line).ok()?;
    line.push(b' ').ok()?;
    push_utf8(&second, &mut line).ok()?;
    line.push(b'\n').ok()?;
    text_answer(line)
}

fn bytes_of_unit(alloc: Global, unit: u16) -> Option<Answer> {
    let text = Text::from_units(alloc, vec![in alloc; unit].ok()?).ok()?;
    let mut bytes = Vec::new(alloc);
    push_utf8(&text, &mut bytes).ok()?;
    Some(Answer::Text(format!(in alloc; "{bytes:?}\n").ok()?))
}

fn numbers_of_names(alloc: Global) -> Option<Answer> {
    interned(alloc, &mut Names::new(alloc, keys()).ok()?)
}

// The numbers of a, b and a again, and that of c, which is not interned.
fn interned(alloc: Global, names: &mut Names) -> Option<Answer> {
    let a = intern(alloc, names, "a")?;
    let b = intern(alloc, names, "b")?;
    let again = intern(alloc, names, "a")?;
    let c = names.number(&Text::from_str(alloc, "c").ok()?);
    Some(Answer::Text(format!(in alloc; "{a} {b} {again} {c:?}\n").ok()?))
}

fn intern(alloc: Global, names: &mut Names, name: &str) -> Option<u32> {
    let name = Text::from_str(alloc, name).ok()?;
    if names.len() >= 1 << 31 {
        return None;
    }
    names.intern(&name).ok()
}
