//! What stands among siblings, blank texts aside.
ghost use Rattle.std.specs.Prelude.{◌≡◌, [], ◌&&◌, ◌||◌, not, codes, MatchOption, is_some, if◌then◌else◌};
ghost use Rattle.first_breach.specs.Breaches.{Nothing};
ghost use Rattle.first_breach.specs.Narrowing.{Narrows};
ghost use Rattle.plain_tree.specs.Trees.{Trees};
ghost use Rattle.plain_tree.specs.Plains.{Places, placed, placed_all, element_node};
ghost use Rattle.markup_rules.specs.Elements.{items, is_blank_unit, is_blank, is_script, first_named};
ghost use Rattle.markup_rules.specs.Parts.{IsSeen};
ghost use Rattle.markup_rules.specs.Rows.{misrooted, unended, Followed};

use crate::rule_numbers::M05;
use code_units::{Text, is_word};
use first_breach::{Breach, offer};
use plain_tree::{Attr, Plain};

/// A node that is no blank text, as far as its siblings are judged by it.
#[derive(Clone, Copy, Drop)]
struct Seen {
    at: usize,
    is_div: bool,
    is_script: bool,
    is_own_script: bool,
}

fn is_blank_unit(unit: u16) -> bool
    ensures { result ≡ is_blank_unit unit }
{
    matches!(unit, 0x20 | 0x09 | 0x0D | 0x0A)
}

fn is_blank(text: &Text) -> bool
    ensures { result ≡ is_blank text.now }
{
    text.units().iter().all(|unit| is_blank_unit(*unit))
}

/// The first attribute with a name.
pub fn first_named<'a>(attrs: &'a [Attr], word: &[u8]) -> Option<&'a Attr>
    ensures { MatchOption result (first_named word.now attrs.now ≡ None)
        (λ a. first_named word.now attrs.now ≡ Some a.now) }
{
    'attrs: for attr in attrs {
        if is_word(&attr.name, word) {
            return Some(attr);
        }
    }
    None
}

/// Whether there is an attribute with a name.
pub fn has_named(attrs: &[Attr], word: &[u8]) -> bool
    ensures { result ≡ is_some (first_named word.now attrs.now) }
{
    first_named(attrs, word).is_some()
}

// Whether an element is a script without a `src`.
fn is_own_script(tag: &Text, attrs: &[Attr]) -> bool
    ensures { result ≡ (is_script tag.now && not (is_some (first_named (codes "src") attrs.now))) }
{
    is_word(tag, b"script") && !has_named(attrs, b"src")
}

// What an element is to its siblings.
fn element_seen(tag: &Text, attrs: &[Attr], at: usize) -> Seen
    ensures { (kids : Trees Places) → IsSeen result (items (element_node tag.now attrs.now kids at)) }
{
    let is_div = is_word(tag, b"div");
    let is_script = is_word(tag, b"script");
    let is_own_script = is_own_script(tag, attrs);
    Seen {
        at,
        is_div,
        is_script,
        is_own_script,
    }
}

// What a node is to its siblings, none exactly where it is a blank text.
fn glance(plain: &Plain) -> Option<Seen>
    ensures { MatchOption result (items (placed plain.now) ≡ []) (λ s. IsSeen s (items (placed plain.now))) }
{
    match plain {
        Plain::Text { text, at } => {
            if is_blank(text) {
                return None;
            }
            Some(Seen {
                at: *at,
                is_div: false,
                is_script: false,
                is_own_script: false,
            })
        }
        Plain::Element { tag, attrs, at, .. } => Some(element_seen(tag, attrs, *at)),
    }
}

/// Where the nodes are not one `div`, blank texts aside.
pub fn misrooted(content: &[Plain]) -> Option<usize>
    ensures { result ≡ misrooted (items (placed_all content.now)) }
{
    let mut rooted = false;
    'nodes: for plain in content {
        if let Some(item) = glance(plain) {
            if rooted {
                return Some(item.at);
            }
            if !item.is_div {
                return Some(item.at);
            }
            rooted = true;
        }
    }
    if rooted { None } else { Some(0) }
}

// Where an element is not ended by the item.
fn ending(item: &Seen) -> Option<usize>
    ensures { result ≡ (if item.now.is_own_script then None else Some item.now.at) }
{
    if item.is_own_script {
        None
    } else {
        Some(item.at)
    }
}

/// Where an element at this place is not ended by a script without `src`.
pub fn unended(children: &[Plain], at: usize) -> Option<usize>
    ensures { result ≡ unended at (items (placed_all children.now)) }
{
    let mut place = Some(at);
    'nodes: for plain in children {
        if let Some(item) = glance(plain) {
            place = ending(&item);
        }
    }
    place
}

// Whether an item is a script with content behind it.
fn is_followed(item: &Seen, content_behind: bool) -> bool
    ensures { result ≡ (item.now.is_script && content_behind) }
{
    item.is_script && content_behind
}

// Whether there is content from an item on.
fn has_content(item: &Seen, content_behind: bool) -> bool
    ensures { result ≡ (content_behind || not item.now.is_script) }
{
    content_behind || !item.is_script
}

/// The scripts among siblings that are followed by what is no script: M05.
pub fn followed(nodes: &[Plain], best: Option<Breach>) -> Option<Breach>
    ensures { Narrows (Followed (items (placed_all nodes.now))) best Nothing result }
{
    let mut least = best;
    let mut content_behind = false;
    let mut i = nodes.len();
    'nodes: while i > 0 {
        i -= 1;
        if let Some(item) = glance(&nodes[i]) {
            least = offer(least, is_followed(&item, content_behind), M05, item.at);
            content_behind = has_content(&item, content_behind);
        }
    }
    least
}
