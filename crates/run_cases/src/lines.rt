//! Lines of which a case says some members alone.
use serde_json::Value;
use std::alloc::Global;

/// Whether a text is made of just so many lines, each a JSON object with the members that are wanted of
/// it. A page is wanted by a part of its text.
pub fn has_lines(alloc: Global, text: &str, wanted: &[Value]) -> Option<bool> {
    let mut lines = text.lines();
    for members in wanted {
        let Some(line) = lines.next() else {
            return Some(false);
        };
        if !has_members(&Value::from_str(alloc, line).ok()?, members)? {
            return Some(false);
        }
    }
    Some(lines.next().is_none())
}

// Whether an object has these members.
fn has_members(line: &Value, wanted: &Value) -> Option<bool> {
    for (key, value) in wanted.as_object()? {
        if !is_member(key.as_str(), line.get(key.as_str()), value) {
            return Some(false);
        }
    }
    Some(true)
}

fn is_member(key: &str, found: Option<&Value>, wanted: &Value) -> bool {
    let Some(found) = found else {
        return false;
    };
    match (key, found.as_str(), wanted.as_str()) {
        ("page", Some(page), Some(part)) => page.contains(part),
        _ => found == wanted,
    }
}
