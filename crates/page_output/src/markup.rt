//! Markup as it is printed.
ghost use Rattle.std.specs.Prelude.{◌≡◌, ◌<◌, ◌++◌, map, length, OnErr, OnOk};
ghost use Rattle.plain_tree.specs.Trees.{unmarked};
ghost use Rattle.plain_tree.specs.Plains.{attribute_of, unplaced};
ghost use Rattle.plain_tree.specs.Print.{written, closing};
ghost use Rattle.page_tree.specs.Entries.{tree};
ghost use Rattle.page_tree.specs.Pages.{nodes};
ghost use Rattle.page_output.specs.Printing.{Prints, PrintsAttribute, PrintsOpening, PrintsPart};

use crate::escape::{push_text, push_value};
use crate::style::LastStyle;
use code_units::{Memory, Text, is_word, push_utf8};
use page_tree::{Content, NodeId, Page};
use plain_tree::{Attr, Plain, is_void};
use std::alloc::Global;

// Appends ` name="value"`.
fn push_written(alloc: Global, name: &Text, value: &Text, out: &mut Vec<u8>) -> Result<(), Memory>
    ensures { OnOk result (out.new.items ≡ out.old.items ++ written name.now value.now) }
{
    out.extend_from_slice(b" ")?;
    push_utf8(name, out)?;
    out.extend_from_slice(b"=\"")?;
    push_value(alloc, value, out)?;
    out.extend_from_slice(b"\"")?;
    Ok(())
}

// Appends an attribute, a style in its printed form. An empty style is left out.
fn push_attribute(
    alloc: Global,
    name: &Text,
    value: &Text,
    last: &mut LastStyle,
    out: &mut Vec<u8>,
) -> Result<(), Memory>
    ensures { OnOk result (PrintsAttribute (name.now, value.now) out.old.items out.new.items) }
{
    if !is_word(name, b"style") {
        return push_written(alloc, name, value, out);
    }
    let style = last.form_of(alloc, value)?;
    if style.units().is_empty() {
        return Ok(());
    }
    push_written(alloc, name, &style, out)
}

// Writes the start tag of a plain tree.
fn write_opening(
    alloc: Global,
    tag: &Text,
    attrs: &Vec<Attr>,
    last: &mut LastStyle,
    out: &mut Vec<u8>,
) -> Result<(), Memory>
    ensures { OnOk result (PrintsOpening tag.now (map attribute_of attrs.now.items) out.old.items out.new.items) }
{
    out.extend_from_slice(b"<")?;
    push_utf8(tag, out)?;
    'each: for attr in attrs {
        push_attribute(alloc, &attr.name, &attr.value, last, out)?;
    }
    out.extend_from_slice(b">")?;
    Ok(())
}

// Writes the start tag of a node.
fn write_node_opening(
    alloc: Global,
    tag: &Text,
    attributes: &Vec<(Text, Text)>,
    last: &mut LastStyle,
    out: &mut Vec<u8>,
) -> Result<(), Memory>
    ensures { OnOk result (PrintsOpening tag.now attributes.now.items out.old.items out.new.items) }
{
    out.extend_from_slice(b"<")?;
    push_utf8(tag, out)?;
    'each: for attribute in attributes {
        push_attribute(alloc, &attribute.0, &attribute.1, last, out)?;
    }
    out.extend_from_slice(b">")?;
    Ok(())
}

// Writes an end tag.
fn write_closing(tag: &Text, out: &mut Vec<u8>) -> Result<(), Memory>
    ensures { OnOk result (out.new.items ≡ out.old.items ++ closing tag.now) }
{
    out.extend_from_slice(b"</")?;
    push_utf8(tag, out)?;
    out.extend_from_slice(b">")?;
    Ok(())
}

// Appends the start tag of a plain tree, whole or not at all.
fn push_opening(
    alloc: Global,
    tag: &Text,
    attrs: &Vec<Attr>,
    last: &mut LastStyle,
    out: &mut Vec<u8>,
) -> Result<(), Memory>
    ensures ok { OnOk result (PrintsOpening tag.now (map attribute_of attrs.now.items) out.old.items out.new.items) }
    ensures err { OnErr result (out.new.items ≡ out.old.items) }
{
    let mut bytes = Vec::new(alloc);
    write_opening(alloc, tag, attrs, last, &mut bytes)?;
    out.extend_from_slice(&bytes)?;
    Ok(())
}

// Appends the start tag of a node, whole or not at all.
fn push_node_opening(
    alloc: Global,
    tag: &Text,
    attributes: &Vec<(Text, Text)>,
    last: &mut LastStyle,
    out: &mut Vec<u8>,
) -> Result<(), Memory>
    ensures ok { OnOk result (PrintsOpening tag.now attributes.now.items out.old.items out.new.items) }
    ensures err { OnErr result (out.new.items ≡ out.old.items) }
{
    let mut bytes = Vec::new(alloc);
    write_node_opening(alloc, tag, attributes, last, &mut bytes)?;
    out.extend_from_slice(&bytes)?;
    Ok(())
}

// Appends an end tag, whole or not at all.
fn push_closing(alloc: Global, tag: &Text, out: &mut Vec<u8>) -> Result<(), Memory>
    ensures ok { OnOk result (out.new.items ≡ out.old.items ++ closing tag.now) }
    ensures err { OnErr result (out.new.items ≡ out.old.items) }
{
    let mut bytes = Vec::new(alloc);
    write_closing(tag, &mut bytes)?;
    out.extend_from_slice(&bytes)?;
    Ok(())
}

// Appends the printed text of a plain tree.
fn push_plain(
    alloc: Global,
    plain: &Plain,
    last: &mut LastStyle,
    out: &mut Vec<u8>,
) -> Result<(), Memory>
    ensures ok { OnOk result (Prints (unplaced plain.now) out.old.items out.new.items) }
    ensures part { OnErr result (PrintsPart (unplaced plain.now) out.old.items out.new.items) }
{
    match plain {
        Plain::Text { text, .. } => push_text(alloc, text, out),
        Plain::Element {
            tag,
            attrs,
            children,
            ..
        } => {
            push_opening(alloc, tag, attrs, last, out)?;
            if is_void(tag) {
                return Ok(());
            }
            'each: for child in children {
                push_plain(alloc, child, last, out)?;
            }
            push_closing(alloc, tag, out)
        }
    }
}

// Appends the printed text of a node.
fn push_node(
    alloc: Global,
    page: &Page,
    node: NodeId,
    last: &mut LastStyle,
    out: &mut Vec<u8>,
) -> Result<(), Memory>
    requires { node < length (nodes page.now) }
    ensures ok { OnOk result (Prints (unmarked (tree (nodes page.now) node)) out.old.items out.new.items) }
    ensures part { OnErr result (PrintsPart (unmarked (tree (nodes page.now) node)) out.old.items out.new.items) }
{
    match page.content(node) {
        Content::Text(text) => push_text(alloc, text, out),
        Content::Element(tag, attributes) => {
            push_node_opening(alloc, tag, attributes, last, out)?;
            if is_void(tag) {
                return Ok(());
            }
            'each: for child in page.children(node) {
                push_node(alloc, page, *child, last, out)?;
            }
            push_closing(alloc, tag, out)
        }
    }
}

/// Appends the printed text of a plain tree. A refusal leaves a beginning of it appended.
pub fn print_plain(alloc: Global, plain: &Plain, out: &mut Vec<u8>) -> Result<(), Memory>
    ensures ok { OnOk result (Prints (unplaced plain.now) out.old.items out.new.items) }
    ensures part { OnErr result (PrintsPart (unplaced plain.now) out.old.items out.new.items) }
{
    let mut last = LastStyle::empty(alloc)?;
    push_plain(alloc, plain, &mut last, out)
}

/// Appends the printed text of a node. A refusal leaves a beginning of it appended.
pub fn print(alloc: Global, page: &Page, node: NodeId, out: &mut Vec<u8>) -> Result<(), Memory>
    requires { node < length (nodes page.now) }
    ensures ok { OnOk result (Prints (unmarked (tree (nodes page.now) node)) out.old.items out.new.items) }
    ensures part { OnErr result (PrintsPart (unmarked (tree (nodes page.now) node)) out.old.items out.new.items) }
{
    let mut last = LastStyle::empty(alloc)?;
    push_node(alloc, page, node, &mut last, out)
}
