//! Manifests and traces: whether they are read, or at which item they are refused.
use crate::answer::Answer;
use crate::cases::{bytes_of, list_at};
use code_units::{Text, from_utf8_bytes};
use manifest_reader::read_manifest;
use serde_json::Value;
use std::alloc::Global;
use trace_reader::{ShapeFault, read_trace};

/// What comes of reading a manifest.
pub fn answer_of_manifest(alloc: Global, text: &[u8]) -> Option<Answer> {
    shape(read_manifest(alloc, text).err())
}

/// What comes of reading a trace for the slots that the case names.
pub fn answer_of_trace(alloc: Global, text: &[u8], case: &Value) -> Option<Answer> {
    let names = names_of(alloc, list_at(case, "names")?)?;
    if names.len() > 16 {
        return None;
    }
    shape(read_trace(alloc, text, &names).err())
}

fn shape(fault: Option<ShapeFault>) -> Option<Answer> {
    match fault {
        None => Some(Answer::Word("read")),
        Some(ShapeFault::NotJson) => Some(Answer::Word("NotJson")),
        Some(ShapeFault::BadShape { item }) => Some(Answer::At("BadShape", item as usize)),
        Some(ShapeFault::TooMany { items }) => Some(Answer::At("TooMany", items)),
        Some(ShapeFault::Memory) => None,
    }
}

// The texts of a list of strings.
fn names_of(alloc: Global, list: &[Value]) -> Option<Vec<Text>> {
    let mut names = Vec::new(alloc);
    for name in list {
        names
            .push(from_utf8_bytes(alloc, &bytes_of(alloc, name)?).ok()?)
            .ok()?;
    }
    Some(names)
}
