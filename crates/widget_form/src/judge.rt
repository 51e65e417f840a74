//! The first broken rule of a file.
ghost use Rattle.std.specs.Prelude.{◌≡◌, ◌++◌, None, map, filter, codes, IfOk, OnOk};
ghost use Rattle.first_breach.specs.Breaches.{Nothing, Each};
ghost use Rattle.first_breach.specs.Narrowing.{Narrows};
ghost use Rattle.plain_tree.specs.Plains.{placed_all};
ghost use Rattle.markup_rules.specs.Elements.{elements, roots, is_named};
ghost use Rattle.markup_rules.specs.Parts.{element_of};
ghost use Rattle.markup_rules.specs.Rows.{value_of, ids, FileRows, RootRows, Breaks};

use code_units::{Memory, Text, is_word};
use first_breach::Breach;
use markup_rules::items::{followed, misrooted};
use markup_rules::part::{Part, all_elements, other_elements, root_of};
use markup_rules::repeats::{Saying, repeated};
use markup_rules::root::{offer_at, root_rows};
use markup_rules::rows::{Slot, all_markup_rows, all_other_rows, all_slot_rows};
use markup_rules::rule_numbers::{M02, M08};
use plain_tree::{Attr, Plain};
use std::alloc::Global;

// Appends what the `id`s among attributes say.
fn list_ids(attrs: &[Attr], found: &mut Vec<Saying>) -> Result<(), Memory>
    ensures { OnOk result (found.new.items
        ≡ found.old.items ++ map value_of (filter (is_named (codes "id")) attrs.now)) }
{
    'attrs: for attr in attrs {
        if is_word(&attr.name, b"id") {
            found.push(Saying {
                text: attr.value.share()?,
                at: attr.value_at,
            })?;
        }
    }
    Ok(())
}

// What the `id`s of elements say.
fn ids_of(alloc: Global, parts: &[Part]) -> Result<Vec<Saying>, Memory>
    ensures { IfOk result (λ v. v.items ≡ ids (map element_of parts.now)) }
{
    let mut found = Vec::new(alloc);
    'parts: for part in parts {
        list_ids(part.attrs, &mut found)?;
    }
    Ok(found)
}

// M02, M05 beside the root, and M08 of an `id` that stands twice.
fn file_rows(
    alloc: Global,
    content: &[Plain],
    all: &[Part],
    best: Option<Breach>,
) -> Result<Option<Breach>, Memory>
    requires { map element_of all.now ≡ elements (placed_all content.now) }
    ensures { IfOk result (Narrows (FileRows (placed_all content.now)) best Nothing) }
{
    let best = offer_at(best, M02, misrooted(content));
    let best = followed(content, best);
    let ids = ids_of(alloc, all)?;
    repeated(alloc, &ids, M08, best)
}

// What the root breaks, if there is one.
fn all_root_rows(
    alloc: Global,
    name: &Text,
    content: &[Plain],
    best: Option<Breach>,
) -> Result<Option<Breach>, Memory>
    ensures { IfOk result (Narrows (Each (RootRows name.now) (roots (placed_all content.now))) best Nothing) }
{
    match root_of(content) {
        Some(root) => root_rows(alloc, name, &root, best),
        None => Ok(best),
    }
}

/// The first broken rule of a file, of M02 to M12.
pub fn judge(alloc: Global, slot: &Slot, content: &[Plain]) -> Result<Option<Breach>, Memory>
    ensures { IfOk result (Narrows (Breaks slot.now.name.now slot.now.libs.now (placed_all content.now)) None Nothing) }
{
    let all = all_elements(alloc, content)?;
    let others = other_elements(alloc, content)?;
    let best = file_rows(alloc, content, &all, None)?;
    let best = all_root_rows(alloc, slot.name, content, best)?;
    let best = all_other_rows(alloc, slot.name, &others, best)?;
    let best = all_markup_rows(alloc, &all, best)?;
    Ok(all_slot_rows(slot, &all, best))
}
