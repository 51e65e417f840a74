//! Markup of the page beside the slots.
ghost use Rattle.std.specs.Prelude.{◌≡◌, ◌↔◌, ◌&&◌, not, is_some, codes, map, IsTrue, IfOk};
ghost use Rattle.std.specs.List.{list_all};
ghost use Rattle.plain_tree.specs.Plains.{placed_all};
ghost use Rattle.markup_rules.specs.Elements.{first_named};
ghost use Rattle.markup_rules.specs.Parts.{element_of};
ghost use Rattle.markup_rules.specs.Rows.{is_free, IsHostMarkup};

use code_units::{Memory, is_word};
use markup_rules::items::has_named;
use markup_rules::part::{Part, all_elements};
use markup_rules::rows::all_markup_rows;
use plain_tree::{Attr, Plain};
use std::alloc::Global;

// Whether there is neither an `id` nor a `for`.
fn is_nameless(attrs: &[Attr]) -> bool
    ensures { result ≡ (not (is_some (first_named (codes "id") attrs.now)) && not
        (is_some (first_named (codes "for") attrs.now))) }
{
    !has_named(attrs, b"id") && !has_named(attrs, b"for")
}

// Whether an element is no script and has neither an `id` nor a `for`.
fn is_free(part: &Part) -> bool
    ensures { result ≡ is_free (element_of part.now) }
{
    !is_word(part.tag, b"script") && is_nameless(part.attrs)
}

fn are_free(parts: &[Part]) -> bool
    ensures { result ≡ list_all is_free (map element_of parts.now) }
{
    'parts: for part in parts {
        if !is_free(part) {
            return false;
        }
    }
    true
}

/// Whether content may stand in the page beside the slots: it breaks none of M06, M07, M09 and M10,
/// and has no script, no `id` and no `for` (`docs/RULES.md`).
pub fn host_markup(alloc: Global, content: &[Plain]) -> Result<bool, Memory>
    ensures { IfOk result (λ b. IsTrue b ↔ IsHostMarkup (placed_all content.now)) }
{
    let all = all_elements(alloc, content)?;
    if !are_free(&all) {
        return Ok(false);
    }
    match all_markup_rows(alloc, &all, None)? {
        Some(_) => Ok(false),
        None => Ok(true),
    }
}
