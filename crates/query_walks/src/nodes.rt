//! Whether a filter keeps a node.
ghost use Rattle.std.specs.Prelude.{◌≡◌, ◌==◌, ◌+◌, ◌<◌, ◌≤◌, length, drop, is_some};
ghost use Rattle.std.specs.List.{list_any, position_or_len};
ghost use Rattle.std.specs.Str.{bytes_eq};
ghost use Rattle.page_tree.specs.Pages.{nodes};
ghost use Rattle.query_walks.specs.Finds.{is_tagged};
ghost use Rattle.query_walks.specs.Nodes.{look, is_element, passes};
ghost use Rattle.query_grammar.specs.Filters.{is_equal, has_tag, is_input, is_field, seen_value, seen, words, has_class};
ghost use Rattle.query_grammar.specs.Finds.{has_focus};

use code_units::{Text, is_word, spells};
use page_tree::{NodeId, Page, is_number};
use query_grammar::Filter;
use style_text::prints_as;

const SPACE: u16 = 0x20;

/// Whether a node is an element.
pub fn is_element(page: &Page, node: NodeId) -> bool
    requires { node < length (nodes page.now) }
    ensures { result ≡ is_element (nodes page.now) node }
{
    page.tag(node).is_some()
}

/// Whether a node is an element with a tag.
pub fn is_tagged(page: &Page, node: NodeId, tag: &Text) -> bool
    requires { node < length (nodes page.now) }
    ensures { result ≡ is_tagged (nodes page.now) tag.now node }
{
    match page.tag(node) {
        Some(text) => *text == *tag,
        None => false,
    }
}

// Whether a node has a tag that is an ASCII word.
fn has_word_tag(page: &Page, node: NodeId, tag: &[u8]) -> bool
    requires { node < length (nodes page.now) }
    ensures { result ≡ has_tag (look (nodes page.now) node) tag.now }
{
    match page.tag(node) {
        Some(text) => is_word(text, tag),
        None => false,
    }
}

fn is_input(page: &Page, node: NodeId) -> bool
    requires { node < length (nodes page.now) }
    ensures { result ≡ is_input (look (nodes page.now) node) }
{
    has_word_tag(page, node, b"input")
}

// Whether a node can be disabled.
fn is_field(page: &Page, node: NodeId) -> bool
    requires { node < length (nodes page.now) }
    ensures { result ≡ is_field (look (nodes page.now) node) }
{
    is_input(page, node)
        || has_word_tag(page, node, b"button")
        || has_word_tag(page, node, b"textarea")
        || has_word_tag(page, node, b"select")
        || has_word_tag(page, node, b"option")
}

/// Whether a node has an attribute with a value. The name is an ASCII word.
pub fn has_value(page: &Page, node: NodeId, name: &[u8], value: &[u16]) -> bool
    requires { node < length (nodes page.now) }
    ensures { result ≡ is_equal ((look (nodes page.now) node).attribute name.now) value.now }
{
    match page.attr_of_word(node, name) {
        Some(found) => found.units() == value,
        None => false,
    }
}

// Whether a node has an attribute. The name is an ASCII word.
fn has_word_attr(page: &Page, node: NodeId, name: &[u8]) -> bool
    requires { node < length (nodes page.now) }
    ensures { result ≡ is_some ((look (nodes page.now) node).attribute name.now) }
{
    page.attr_of_word(node, name).is_some()
}

/// The place of the first space, or the length.
pub fn word_end(units: &[u16]) -> usize
    ensures end { result ≡ position_or_len (λ unit. unit == 32) units.now }
    ensures inside { result ≤ length units.now }
{
    'units: for (i, unit) in units.iter().enumerate() {
        if *unit == SPACE {
            return i;
        }
    }
    units.len()
}

/// The units behind a place.
pub fn units_behind(units: &[u16], at: usize) -> &[u16]
    requires { at < length units.now }
    ensures { result.now ≡ drop (at + 1) units.now }
{
    &units[at + 1..]
}

// Whether a word is among the words between spaces.
fn has_word(units: &[u16], word: &[u16]) -> bool
    ensures { result ≡ list_any (bytes_eq word.now) (words units.now) }
{
    let mut rest = units;
    'words: loop {
        let end = word_end(rest);
        if word == &rest[..end] {
            return true;
        }
        if end == rest.len() {
            return false;
        }
        rest = units_behind(rest, end);
    }
}

fn has_class(page: &Page, node: NodeId, word: &[u16]) -> bool
    requires { node < length (nodes page.now) }
    ensures { result ≡ has_class (look (nodes page.now) node) word.now }
{
    match page.attr_of_word(node, b"class") {
        Some(classes) => has_word(classes.units(), word),
        None => false,
    }
}

// Whether an attribute's value is a text, where that of `style` counts in its printed form.
fn is_seen(name: &[u16], found: &Text, value: &[u16]) -> bool
    ensures { result ≡ bytes_eq (seen_value name.now found.now) value.now }
{
    if spells(name, b"style") {
        prints_as(found, value)
    } else {
        found.units() == value
    }
}

fn equals(page: &Page, node: NodeId, name: &[u16], value: &[u16]) -> bool
    requires { node < length (nodes page.now) }
    ensures { result ≡ is_equal (seen (look (nodes page.now) node) name.now) value.now }
{
    match page.attr(node, name) {
        Some(found) => is_seen(name, found, value),
        None => false,
    }
}

// Whether the node has the focus.
fn has_focus(focus: Option<NodeId>, node: NodeId) -> bool
    ensures { result ≡ has_focus focus node }
{
    is_number(node, focus)
}

/// Whether a filter keeps a node of a widget, which has the focus at this node or nowhere. An
/// attribute `style` is compared in its printed form. It takes no memory.
pub fn test(page: &Page, focus: Option<NodeId>, node: NodeId, filter: &Filter) -> bool
    requires { node < length (nodes page.now) }
    ensures { result ≡ passes (nodes page.now) focus filter.now node }
{
    match filter {
        Filter::Class(word) => has_class(page, node, word.units()),
        Filter::Name(word) => has_value(page, node, b"name", word.units()),
        Filter::Kind(word) => has_value(page, node, b"type", word.units()),
        Filter::Has(name) => page.attr(node, name.units()).is_some(),
        Filter::Equals(name, value) => equals(page, node, name.units(), value.units()),
        Filter::Checked => is_input(page, node) && has_word_attr(page, node, b"checked"),
        Filter::Unchecked => is_input(page, node) && !has_word_attr(page, node, b"checked"),
        Filter::Enabled => is_field(page, node) && !has_word_attr(page, node, b"disabled"),
        Filter::Disabled => is_field(page, node) && has_word_attr(page, node, b"disabled"),
        Filter::Focus => has_focus(focus, node),
    }
}
