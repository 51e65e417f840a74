//! What nodes are made of, as parts of plain trees.
ghost use Rattle.std.specs.Prelude.{◌≡◌, ◌<◌, ◌≤◌, ◌+◌, [], ℕ, true, map, IfOk, MatchOption, MatchBool};
ghost use Rattle.std.specs.List.{filter};
ghost use Rattle.tree_ops.specs.Labels.{is_text};
ghost use Rattle.page_nodes.specs.Copies.{is_taken, taken_label};
ghost use Rattle.page_nodes.specs.Entries.{label_of};
ghost use Rattle.plain_tree.specs.Trees.{ElementOf, End, Node, size, height};
ghost use Rattle.plain_tree.specs.Plains.{attribute_of, unplaced, unplaced_all};

use crate::rows::Content;
use code_units::{Memory, Text, is_word};
use plain_tree::{Attr, Plain};
use std::alloc::Global;

// Attributes as those of a plain tree, with or without an `id`.
fn attributes_of(
    alloc: Global,
    attributes: &Vec<(Text, Text)>,
    ids: bool,
) -> Result<Vec<Attr>, Memory>
    ensures { IfOk result (λ attrs. map attribute_of attrs.items ≡ filter (is_taken ids) attributes.now.items) }
{
    let mut attrs = Vec::new(alloc);
    'each: for attribute in attributes {
        if ids || !is_word(&attribute.0, b"id") {
            attrs.push(Attr {
                name: attribute.0.share()?,
                value: attribute.1.share()?,
                at: 0,
                value_at: 0,
            })?;
        }
    }
    Ok(attrs)
}

/// The plain tree of a node by its children's.
pub fn plain_with(
    alloc: Global,
    content: &Content,
    ids: bool,
    children: Vec<Plain>,
) -> Result<Plain, Memory>
    requires { is_text (label_of content.now) ≡ true → children.items ≡ [] }
    ensures { IfOk result (λ plain.
        unplaced plain ≡ Node tt (taken_label ids (label_of content.now)) (unplaced_all children.items) End) }
{
    match content {
        Content::Text(text) => Ok(Plain::Text {
            text: text.share()?,
            at: 0,
        }),
        Content::Element(tag, attributes) => Ok(Plain::Element {
            tag: tag.share()?,
            attrs: attributes_of(alloc, attributes, ids)?,
            children,
            at: 0,
        }),
    }
}

// The attributes of a plain tree as those of a node.
fn pairs_of(alloc: Global, attrs: &Vec<Attr>) -> Result<Vec<(Text, Text)>, Memory>
    ensures { IfOk result (λ attributes. attributes.items ≡ map attribute_of attrs.now.items) }
{
    let mut attributes = Vec::new(alloc);
    'each: for attr in attrs {
        attributes.push((attr.name.share()?, attr.value.share()?))?;
    }
    Ok(attributes)
}

/// An element by its parts.
pub fn element_of(alloc: Global, tag: &Text, attrs: &Vec<Attr>) -> Result<Content, Memory>
    ensures { IfOk result (λ content. label_of content ≡ ElementOf tag.now (map attribute_of attrs.now.items)) }
{
    Ok(Content::Element(tag.share()?, pairs_of(alloc, attrs)?))
}

/// How much room is left when a plain tree's nodes have taken theirs, none exactly where there is
/// too little.
pub fn room_after(plain: &Plain, room: u32) -> Option<u32>
    ensures { MatchOption result
        (room < size (unplaced plain.now))
        (λ left. left + size (unplaced plain.now) ≡ room) }
{
    if room == 0 {
        return None;
    }
    let mut left = room - 1;
    if let Plain::Element { children, .. } = plain {
        'each: for child in children {
            left = room_after(child, left)?;
        }
    }
    Some(left)
}

/// Whether a plain tree has no more than so many nodes one above the other.
pub fn is_low(plain: &Plain, most: u32) -> bool
    ensures { MatchBool result (height (unplaced plain.now) ≤ most) (most < height (unplaced plain.now)) }
{
    if most == 0 {
        return false;
    }
    if let Plain::Element { children, .. } = plain {
        'each: for child in children {
            if !is_low(child, most - 1) {
                return false;
            }
        }
    }
    true
}
