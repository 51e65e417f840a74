//! The elements of a file, one after another.
ghost use Rattle.std.specs.Prelude.{◌≡◌, ◌++◌, [], ◌∷◌, map, filter, OnOk, IfOk, MatchOption};
ghost use Rattle.plain_tree.specs.Plains.{placed, placed_all};
ghost use Rattle.markup_rules.specs.Elements.{elements, others, roots, tops, is_script_element, scripts};
ghost use Rattle.markup_rules.specs.Parts.{element_of, IsText, IsElement, IsRootPlace};

use code_units::{Memory, Text, is_word};
use plain_tree::{Attr, Plain};
use std::alloc::Global;

/// An element where it stands.
#[derive(Clone, Copy, Drop)]
pub struct Part<'a> {
    pub tag: &'a Text,
    pub attrs: &'a [Attr],
    pub children: &'a [Plain],
    pub at: usize,
}

/// The element that a tree is, none exactly where it is a text.
pub fn part_of(plain: &Plain) -> Option<Part>
    ensures { MatchOption result (IsText (placed plain.now)) (λ p. IsElement p (placed plain.now)) }
{
    match plain {
        Plain::Element {
            tag,
            attrs,
            children,
            at,
        } => Some(Part {
            tag,
            attrs,
            children,
            at: *at,
        }),
        Plain::Text { .. } => None,
    }
}

/// Appends the elements of a tree, each before those below it.
fn list_elements<'a>(plain: &'a Plain, found: &mut Vec<Part<'a>>) -> Result<(), Memory>
    ensures { OnOk result (map element_of found.new.items
        ≡ map element_of found.old.items ++ elements (placed plain.now)) }
{
    if let Plain::Element {
        tag,
        attrs,
        children,
        at,
    } = plain
    {
        found.push(Part {
            tag,
            attrs,
            children,
            at: *at,
        })?;
        'each: for child in children {
            list_elements(child, found)?;
        }
    }
    Ok(())
}

/// The elements of trees, each before those below it.
pub fn all_elements(alloc: Global, content: &[Plain]) -> Result<Vec<Part>, Memory>
    ensures { IfOk result (λ v. map element_of v.items ≡ elements (placed_all content.now)) }
{
    let mut found = Vec::new(alloc);
    'each: for plain in content {
        list_elements(plain, &mut found)?;
    }
    Ok(found)
}

// Appends the elements below one.
fn list_below<'a>(part: &Part<'a>, found: &mut Vec<Part<'a>>) -> Result<(), Memory>
    ensures { OnOk result (map element_of found.new.items
        ≡ map element_of found.old.items ++ elements (placed_all part.now.children.now)) }
{
    'each: for child in part.children {
        list_elements(child, found)?;
    }
    Ok(())
}

/// The place of the root among the trees: the first `div`.
pub fn root_place(content: &[Plain]) -> Option<usize>
    ensures { MatchOption result (roots (placed_all content.now) ≡ []) (λ i. IsRootPlace content.now i) }
{
    'nodes: for (i, plain) in content.iter().enumerate() {
        if let Some(part) = part_of(plain) {
            if is_word(part.tag, b"div") {
                return Some(i);
            }
        }
    }
    None
}

/// The root, if there is one.
pub fn root_of(content: &[Plain]) -> Option<Part>
    ensures { MatchOption result (roots (placed_all content.now) ≡ [])
        (λ p. roots (placed_all content.now) ≡ element_of p ∷ []) }
{
    'nodes: for plain in content {
        if let Some(part) = part_of(plain) {
            if is_word(part.tag, b"div") {
                return Some(part);
            }
        }
    }
    None
}

/// The elements of trees other than the root.
pub fn other_elements(alloc: Global, content: &[Plain]) -> Result<Vec<Part>, Memory>
    ensures { IfOk result (λ v. map element_of v.items ≡ others (placed_all content.now)) }
{
    let mut found = Vec::new(alloc);
    let mut rooted = false;
    'each: for plain in content {
        match part_of(plain) {
            Some(part) if !rooted && is_word(part.tag, b"div") => {
                rooted = true;
                list_below(&part, &mut found)?;
            }
            _ => list_elements(plain, &mut found)?,
        }
    }
    Ok(found)
}

// Appends the tree where it is a script.
fn list_script<'a>(plain: &'a Plain, found: &mut Vec<Part<'a>>) -> Result<(), Memory>
    ensures { OnOk result (map element_of found.new.items
        ≡ map element_of found.old.items ++ filter is_script_element (tops (placed plain.now))) }
{
    match part_of(plain) {
        Some(part) if is_word(part.tag, b"script") => {
            found.push(part)?;
            Ok(())
        }
        _ => Ok(()),
    }
}

/// The scripts among siblings.
pub fn scripts_of(alloc: Global, children: &[Plain]) -> Result<Vec<Part>, Memory>
    ensures { IfOk result (λ v. map element_of v.items ≡ filter is_script_element (tops (placed_all children.now))) }
{
    let mut found = Vec::new(alloc);
    'each: for plain in children {
        list_script(plain, &mut found)?;
    }
    Ok(found)
}
