//! What an element breaks, rule by rule.
ghost use Rattle.std.specs.Prelude.{◌≡◌, ◌&&◌, map, not, codes, IfOk};
ghost use Rattle.std.specs.List.{list_any};
ghost use Rattle.std.specs.Str.{bytes_eq};
ghost use Rattle.first_breach.specs.Breaches.{Nothing, Each};
ghost use Rattle.first_breach.specs.Narrowing.{Narrows};
ghost use Rattle.markup_rules.specs.Elements.{is_named};
ghost use Rattle.markup_rules.specs.Parts.{element_of};
ghost use Rattle.markup_rules.specs.Words.{is_own_id};
ghost use Rattle.markup_rules.specs.Rows.{is_allowed, is_unsafe, is_foreign, Unstyled, AttributeRows, MarkupRows, SlotAttributeRows, SlotRows, OtherRows, IdRow, InsideRow, name_of};

use crate::items::followed;
use crate::part::{Part, scripts_of};
use crate::repeats::{Saying, repeated};
use crate::rule_numbers::{M05, M06, M07, M08, M09, M10, M11};
use crate::words::{
    has_word, is_address, is_listed_attribute, is_own_id, is_script_attribute, is_wordy,
};
use code_units::{Memory, Text, is_word};
use first_breach::{Breach, offer};
use plain_tree::{Attr, Plain, plain_words, tag_listed};
use std::alloc::Global;
use style_text::{StyleFault, read_style};

/// The slot whose file is judged.
#[derive(Clone, Copy, Drop)]
pub struct Slot<'a> {
    pub name: &'a Text,
    pub libs: &'a [Text],
}

// Whether an attribute with this name may stand.
fn is_allowed(of_script: bool, name: &Text) -> bool
    ensures { result ≡ is_allowed of_script name.now }
{
    if of_script {
        is_script_attribute(name)
    } else {
        is_listed_attribute(name)
    }
}

// Words with another character, or an address that says `javascript:`.
fn is_unsafe(attr: &Attr) -> bool
    ensures { result ≡ is_unsafe attr.now }
{
    if is_wordy(&attr.name) && !plain_words(&attr.value) {
        return true;
    }
    is_address(&attr.name) && has_word(b"javascript:", &attr.value)
}

// M10: a `style` is no list of styles.
fn unstyled(alloc: Global, attr: &Attr, best: Option<Breach>) -> Result<Option<Breach>, Memory>
    ensures { IfOk result (Narrows (Unstyled attr.now) best Nothing) }
{
    if !is_word(&attr.name, b"style") {
        return Ok(best);
    }
    match read_style(alloc, &attr.value) {
        Ok(_) => Ok(best),
        Err(StyleFault::BadStyle { .. }) => Ok(offer(best, true, M10, attr.value_at)),
        Err(StyleFault::Memory) => Err(Memory),
    }
}

// M07, M09 and M10 of an attribute.
fn attribute_rows(
    alloc: Global,
    of_script: bool,
    attr: &Attr,
    best: Option<Breach>,
) -> Result<Option<Breach>, Memory>
    ensures { IfOk result (Narrows (AttributeRows of_script attr.now) best Nothing) }
{
    let best = offer(best, !is_allowed(of_script, &attr.name), M07, attr.at);
    let best = offer(best, is_unsafe(attr), M09, attr.value_at);
    unstyled(alloc, attr, best)
}

// The same of all attributes.
fn all_attribute_rows(
    alloc: Global,
    of_script: bool,
    attrs: &[Attr],
    best: Option<Breach>,
) -> Result<Option<Breach>, Memory>
    ensures { IfOk result (Narrows (Each (AttributeRows of_script) attrs.now) best Nothing) }
{
    let mut least = best;
    'attrs: for attr in attrs {
        least = attribute_rows(alloc, of_script, attr, least)?;
    }
    Ok(least)
}

// What attributes say by their names.
fn names_of(alloc: Global, attrs: &[Attr]) -> Result<Vec<Saying>, Memory>
    ensures { IfOk result (λ v. v.items ≡ map name_of attrs.now) }
{
    let mut names = Vec::new(alloc);
    'attrs: for attr in attrs {
        names.push(Saying {
            text: attr.name.share()?,
            at: attr.at,
        })?;
    }
    Ok(names)
}

// A tag that is not listed.
fn is_foreign(tag: &Text) -> bool
    ensures { result ≡ is_foreign tag.now }
{
    !is_word(tag, b"script") && !tag_listed(tag)
}

// M06, M07, M09 and M10 of an element.
fn markup_rows(alloc: Global, part: &Part, best: Option<Breach>) -> Result<Option<Breach>, Memory>
    ensures { IfOk result (Narrows (MarkupRows (element_of part.now)) best Nothing) }
{
    let best = offer(best, is_foreign(part.tag), M06, part.at);
    let names = names_of(alloc, part.attrs)?;
    let best = repeated(alloc, &names, M07, best)?;
    let of_script = is_word(part.tag, b"script");
    all_attribute_rows(alloc, of_script, part.attrs, best)
}

/// M06, M07, M09 and M10 of elements.
pub fn all_markup_rows(
    alloc: Global,
    parts: &[Part],
    best: Option<Breach>,
) -> Result<Option<Breach>, Memory>
    ensures { IfOk result (Narrows (Each MarkupRows (map element_of parts.now)) best Nothing) }
{
    let mut least = best;
    'parts: for part in parts {
        least = markup_rows(alloc, part, least)?;
    }
    Ok(least)
}

// Whether a text is one of these.
fn is_among(texts: &[Text], text: &Text) -> bool
    ensures { result ≡ list_any (bytes_eq text.now) texts.now }
{
    texts.iter().any(|other| text == other)
}

// Whether an attribute with this name has another value than an `id` of the slot.
fn is_stray(name: &Text, attr: &Attr, word: &[u8]) -> bool
    ensures { result ≡ (is_named word.now attr.now && not (is_own_id name.now attr.now.value)) }
{
    is_word(&attr.name, word) && !is_own_id(name, &attr.value)
}

// Whether the attribute is the `src` of a script, and no library.
fn is_missing(libs: &[Text], of_script: bool, attr: &Attr) -> bool
    ensures { result ≡ (of_script && is_named (codes "src") attr.now && not
        (list_any (bytes_eq attr.now.value) libs.now)) }
{
    of_script && is_word(&attr.name, b"src") && !is_among(libs, &attr.value)
}

// M08 of a `for` and M11 of the `src` of a script.
fn slot_attribute_rows(
    slot: &Slot,
    of_script: bool,
    attr: &Attr,
    best: Option<Breach>,
) -> Option<Breach>
    ensures { Narrows (SlotAttributeRows slot.now.name.now slot.now.libs.now of_script attr.now) best Nothing result }
{
    let best = offer(best, is_stray(slot.name, attr, b"for"), M08, attr.value_at);
    offer(
        best,
        is_missing(slot.libs, of_script, attr),
        M11,
        attr.value_at,
    )
}

// The same of all attributes.
fn all_slot_attribute_rows(
    slot: &Slot,
    of_script: bool,
    attrs: &[Attr],
    best: Option<Breach>,
) -> Option<Breach>
    ensures { Narrows (Each (SlotAttributeRows slot.now.name.now slot.now.libs.now of_script) attrs.now) best Nothing
        result }
{
    let mut least = best;
    'attrs: for attr in attrs {
        least = slot_attribute_rows(slot, of_script, attr, least);
    }
    least
}

/// M05 among the children of elements, M08 of a `for` and M11.
pub fn all_slot_rows(slot: &Slot, parts: &[Part], best: Option<Breach>) -> Option<Breach>
    ensures { Narrows (Each (SlotRows slot.now.name.now slot.now.libs.now)
        (map element_of parts.now)) best Nothing result }
{
    let mut least = best;
    'parts: for part in parts {
        least = followed(part.children, least);
        let of_script = is_word(part.tag, b"script");
        least = all_slot_attribute_rows(slot, of_script, part.attrs, least);
    }
    least
}

// M08 of an `id` below the root.
fn id_rows(name: &Text, attrs: &[Attr], best: Option<Breach>) -> Option<Breach>
    ensures { Narrows (Each (IdRow name.now) attrs.now) best Nothing result }
{
    let mut least = best;
    'attrs: for attr in attrs {
        least = offer(least, is_stray(name, attr, b"id"), M08, attr.value_at);
    }
    least
}

// M05 of scripts in another element than the root.
fn inside_rows(scripts: &[Part], best: Option<Breach>) -> Option<Breach>
    ensures { Narrows (Each InsideRow (map element_of scripts.now)) best Nothing result }
{
    let mut least = best;
    'scripts: for script in scripts {
        least = offer(least, true, M05, script.at);
    }
    least
}

/// M05 of scripts in other elements than the root, and M08 of their `id`s.
pub fn all_other_rows(
    alloc: Global,
    name: &Text,
    parts: &[Part],
    best: Option<Breach>,
) -> Result<Option<Breach>, Memory>
    ensures { IfOk result (Narrows (Each (OtherRows name.now) (map element_of parts.now)) best Nothing) }
{
    let mut least = best;
    'parts: for part in parts {
        let scripts = scripts_of(alloc, part.children)?;
        least = inside_rows(&scripts, least);
        least = id_rows(name, part.attrs, least);
    }
    Ok(least)
}
