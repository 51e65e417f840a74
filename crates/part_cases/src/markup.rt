//! Markup, styles and queries: the printed text of markup as a JSON string, the printed text of a
//! style and its pairs, whether a query is read; or the place of the refusal.
use crate::answer::{Answer, text_answer};
use code_units::{Text, from_utf8_bytes, push_utf8};
use markup_reader::{MarkupFault, read_markup};
use page_output::print_plain;
use plain_tree::Plain;
use query_text::{QueryFault, read_query};
use serde_json::Value;
use std::alloc::Global;
use style_text::{StyleFault, print_style, read_style};

/// The printed text of markup.
pub fn answer_of_markup(alloc: Global, text: &[u8]) -> Option<Answer> {
    match read_markup(alloc, text) {
        Ok(nodes) => printed(alloc, &nodes),
        Err(MarkupFault::BadMarkup { at }) => Some(Answer::At("bad", at)),
        Err(MarkupFault::Memory) => None,
    }
}

// The printed text of trees as a JSON string.
fn printed(alloc: Global, nodes: &[Plain]) -> Option<Answer> {
    let mut text = Vec::new(alloc);
    for node in nodes {
        print_plain(alloc, node, &mut text).ok()?;
    }
    quoted(alloc, String::from_utf8(text).ok()?)
}

fn quoted(alloc: Global, text: String) -> Option<Answer> {
    let mut line = Value::String(text).to_string(alloc).ok()?;
    line.push_str("\n").ok()?;
    Some(Answer::Text(line))
}

/// The printed text of a style, and each of its pairs.
pub fn answer_of_style(alloc: Global, text: &[u8]) -> Option<Answer> {
    match read_style(alloc, &from_utf8_bytes(alloc, text).ok()?) {
        Ok(pairs) => style_line(alloc, &pairs),
        Err(StyleFault::BadStyle { at }) => Some(Answer::At("bad", at)),
        Err(StyleFault::Memory) => None,
    }
}

fn style_line(alloc: Global, pairs: &[(Text, Text)]) -> Option<Answer> {
    let mut line = Vec::new(alloc);
    push_utf8(&print_style(alloc, pairs).ok()?, &mut line).ok()?;
    'pairs: for (property, value) in pairs {
        line.extend_from_slice(b" | ").ok()?;
        push_utf8(property, &mut line).ok()?;
        line.extend_from_slice(b" = ").ok()?;
        push_utf8(value, &mut line).ok()?;
    }
    line.push(b'\n').ok()?;
    text_answer(line)
}

/// Whether a query is read.
pub fn answer_of_query(alloc: Global, text: &[u8]) -> Option<Answer> {
    match read_query(alloc, &from_utf8_bytes(alloc, text).ok()?) {
        Ok(_) => Some(Answer::Word("ok")),
        Err(QueryFault::BadQuery { at }) => Some(Answer::At("bad", at)),
        Err(QueryFault::Memory) => None,
    }
}
