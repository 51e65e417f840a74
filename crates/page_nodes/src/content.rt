//! What a node is, read and changed.
ghost use Rattle.std.specs.Prelude.{◌≡◌, ◌<◌, ◌≤◌, ℕ, length, true, false, codes, slice_get, option_copied, OnOk, OnErr, Some, None, MatchResult};
ghost use Rattle.std.specs.Str.{bytes_eq};
ghost use Rattle.tree_ops.specs.Labels.{tag_of, text_of, attribute_of, with_value, without_value, with_attribute, is_text};
ghost use Rattle.page_nodes.specs.Contents.{IsNamed};
ghost use Rattle.page_nodes.specs.Entries.{label_of};
ghost use Rattle.plain_tree.specs.Trees.{value_of};

use crate::rows::Content;
use code_units::{Memory, Text, is_word};

/// The tag of an element.
pub fn tag_of(content: &Content) -> Option<&Text>
    ensures { option_copied result ≡ tag_of (label_of content.now) }
{
    match content {
        Content::Element(tag, _) => Some(tag),
        Content::Text(_) => None,
    }
}

/// The text of a text node.
pub fn text_of(content: &Content) -> Option<&Text>
    ensures { option_copied result ≡ text_of (label_of content.now) }
{
    match content {
        Content::Element(_, _) => None,
        Content::Text(text) => Some(text),
    }
}

// The value of the first attribute with a name.
fn value_of<'a>(attributes: &'a Vec<(Text, Text)>, name: &[u16]) -> Option<&'a Text>
    ensures { option_copied result ≡ value_of name.now attributes.now.items }
{
    'each: for attribute in attributes {
        if attribute.0.units() == name {
            return Some(&attribute.1);
        }
    }
    None
}

/// The value of an attribute.
pub fn attribute_of<'a>(content: &'a Content, name: &[u16]) -> Option<&'a Text>
    ensures { option_copied result ≡ attribute_of name.now (label_of content.now) }
{
    match content {
        Content::Element(_, attributes) => value_of(attributes, name),
        Content::Text(_) => None,
    }
}

// The value of the first attribute whose name is an ASCII word.
fn value_of_word<'a>(attributes: &'a Vec<(Text, Text)>, word: &[u8]) -> Option<&'a Text>
    ensures { option_copied result ≡ value_of word.now attributes.now.items }
{
    'each: for attribute in attributes {
        if is_word(&attribute.0, word) {
            return Some(&attribute.1);
        }
    }
    None
}

/// The value of an attribute whose name is an ASCII word.
pub fn attribute_of_word<'a>(content: &'a Content, word: &[u8]) -> Option<&'a Text>
    ensures { option_copied result ≡ attribute_of word.now (label_of content.now) }
{
    match content {
        Content::Element(_, attributes) => value_of_word(attributes, word),
        Content::Text(_) => None,
    }
}

/// The `id` of an element, none for a text node.
pub fn id_of(content: &Content) -> Option<&Text>
    ensures { option_copied result ≡ attribute_of (codes "id") (label_of content.now) }
{
    attribute_of_word(content, b"id")
}

// The place of the first attribute with a name, or their number.
fn place_of(attributes: &[(Text, Text)], name: &Text) -> usize
    ensures bound { result ≤ length attributes.now }
    ensures found { result < length attributes.now → IsNamed name.now attributes.now result true }
    ensures first { (j : ℕ) → j < result → IsNamed name.now attributes.now j false }
{
    let mut place = 0;
    'each: while place < attributes.len() && attributes[place].0 != *name {
        place += 1;
    }
    place
}

// Puts a value under a name: in its place, or else last.
fn put_value(attributes: &mut Vec<(Text, Text)>, name: &Text, value: Text) -> Result<(), Memory>
    ensures { MatchResult result
        (λ _. attributes.new.items ≡ with_value name.now value attributes.old.items)
        (λ _. attributes.new.items ≡ attributes.old.items) }
{
    let place = place_of(attributes, name);
    if place < attributes.len() {
        attributes[place].1 = value;
        return Ok(());
    }
    attributes.push((name.share()?, value))?;
    Ok(())
}

// Takes out what stands under a name.
fn drop_value(attributes: &mut Vec<(Text, Text)>, name: &Text)
    ensures { attributes.new.items ≡ without_value name.now attributes.old.items }
{
    attributes.retain(|attribute| attribute.0 != *name);
}

/// Puts a value under a name of an element, or takes out what stands under it. A refusal changes
/// nothing.
pub fn set_attribute(content: &mut Content, name: &Text, value: Option<Text>) -> Result<(), Memory>
    requires { is_text (label_of content.old) ≡ false }
    ensures { MatchResult result
        (λ _. label_of content.new ≡ with_attribute name.now value (label_of content.old))
        (λ _. label_of content.new ≡ label_of content.old) }
{
    match content {
        Content::Element(_, attributes) => match value {
            Some(value) => put_value(attributes, name, value),
            None => {
                drop_value(attributes, name);
                Ok(())
            }
        },
        Content::Text(_) => unreachable!(),
    }
}
