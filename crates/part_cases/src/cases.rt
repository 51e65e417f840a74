//! What a case of a table holds: a JSON object, a line long, and the bytes that it names. Nothing is answered
//! where a case is of another form, or for want of memory.

use serde_json::Value;
use std::alloc::Global;

/// The text that a case has under a key.
pub fn text_at<'a>(case: &'a Value, key: &str) -> Option<&'a str> {
    case.get(key)?.as_str()
}

/// The list that a case has under a key.
pub fn list_at<'a>(case: &'a Value, key: &str) -> Option<&'a Vec<Value>> {
    case.get(key)?.as_array()
}

/// The bytes of a text of a case. It is a string, whose bytes are its UTF-8, or an object with one of
/// three keys: `text`, a string; `hex`, two digits a byte, where the bytes are no UTF-8; `parts`, a
/// list of `[text, times]`, each text so many times, one after the other.
pub fn bytes_of(alloc: Global, text: &Value) -> Option<Vec<u8>> {
    if let Some(words) = text.as_str().or(text_at(text, "text")) {
        return words.as_bytes().to_vec(alloc).ok();
    }
    if let Some(digits) = text_at(text, "hex") {
        return hex::decode(alloc, digits).ok();
    }
    let mut bytes = Vec::new(alloc);
    for part in list_at(text, "parts")? {
        push_part(part, &mut bytes)?;
    }
    Some(bytes)
}

fn push_part(part: &Value, bytes: &mut Vec<u8>) -> Option<()> {
    let words = part.get(0usize)?.as_str()?;
    for _ in 0..part.get(1usize)?.as_u64()? {
        bytes.extend_from_slice(words.as_bytes()).ok()?;
    }
    Some(())
}
