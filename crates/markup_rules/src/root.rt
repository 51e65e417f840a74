//! What the root breaks.
ghost use Rattle.std.specs.Prelude.{◌≡◌, ◌+◌, ◌-◌, ◌<◌, length, take, true, codes, if◌then◌else◌, not, map, IfOk, MatchOption, MatchBool, nat_lt};
ghost use Rattle.first_breach.specs.Breaches.{Nothing};
ghost use Rattle.first_breach.specs.Narrowing.{Narrows};
ghost use Rattle.plain_tree.specs.Trees.{size};
ghost use Rattle.plain_tree.specs.Plains.{placed, placed_all};
ghost use Rattle.markup_rules.specs.Elements.{first_named, is_sourced, before_scripts};
ghost use Rattle.markup_rules.specs.Parts.{element_of, StaysInBody, EndsBody};
ghost use Rattle.markup_rules.specs.Rows.{Perhaps, misnamed, Disordered, node_limit, RootRows};

use crate::items::{first_named, has_named, unended};
use crate::part::{Part, part_of, scripts_of};
use crate::rule_numbers::{M03, M04, M05, M12};
use code_units::{Memory, Text, is_word};
use first_breach::{Breach, offer};
use plain_tree::Plain;
use std::alloc::Global;

/// The nodes that a widget may have.
const NODE_LIMIT: u32 = 16_384;

/// The earlier of the best breach so far and that of the rule at a place, if there is one.
pub fn offer_at(best: Option<Breach>, rule: u8, place: Option<usize>) -> Option<Breach>
    ensures { Narrows (Perhaps rule place) best Nothing result }
{
    match place {
        Some(at) => offer(best, true, rule, at),
        None => best,
    }
}

// Where the `id` of the root is not the slot's name.
fn misnamed(name: &Text, root: &Part) -> Option<usize>
    ensures { result ≡ misnamed name.now root.now.at (first_named (codes "id") root.now.attrs.now) }
{
    match first_named(root.attrs, b"id") {
        None => Some(root.at),
        Some(id) => {
            if id.value == *name {
                None
            } else {
                Some(id.value_at)
            }
        }
    }
}

// Whether a script before the last is out of order.
fn is_misplaced(script: &Part, is_first: bool) -> bool
    ensures { result ≡ (if is_first then is_sourced (element_of script.now) else not
        (is_sourced (element_of script.now))) }
{
    let is_sourced = has_named(script.attrs, b"src");
    if is_first { is_sourced } else { !is_sourced }
}

// The scripts before the last.
fn before_last<'a>(scripts: &'a [Part<'a>]) -> &'a [Part<'a>]
    ensures { result.now ≡ take (length scripts.now - 1) scripts.now }
{
    &scripts[..scripts.len().saturating_sub(1)]
}

// M05 of the scripts before the last.
fn disordered(scripts: &[Part], best: Option<Breach>) -> Option<Breach>
    ensures { Narrows (Disordered true (map element_of scripts.now)) best Nothing result }
{
    let mut least = best;
    let mut is_first = true;
    'scripts: for script in scripts {
        least = offer(least, is_misplaced(script, is_first), M05, script.at);
        is_first = false;
    }
    least
}

/// How much room is left when a tree's nodes have taken theirs, none exactly where there is too
/// little.
pub fn room_after(plain: &Plain, room: u32) -> Option<u32>
    ensures { MatchOption result
        (room < size (placed plain.now))
        (λ left. left + size (placed plain.now) ≡ room) }
{
    if room == 0 {
        return None;
    }
    let mut left = room - 1;
    if let Plain::Element { children, .. } = plain {
        'each: for child in children {
            match room_after(child, left) {
                Some(rest) => left = rest,
                None => return None,
            }
        }
    }
    Some(left)
}

// Whether a tree is a script.
pub fn is_script(plain: &Plain) -> bool
    ensures { MatchBool result (EndsBody (placed plain.now)) (StaysInBody (placed plain.now)) }
{
    match part_of(plain) {
        Some(part) => is_word(part.tag, b"script"),
        None => false,
    }
}

// Whether an element with these children has, with what stands before its scripts, too many nodes.
fn is_crowded(children: &[Plain]) -> bool
    ensures { result ≡ nat_lt node_limit (size (before_scripts (placed_all children.now)) + 1) }
{
    let mut left = NODE_LIMIT - 1;
    'nodes: for plain in children {
        if is_script(plain) {
            return false;
        }
        match room_after(plain, left) {
            Some(rest) => left = rest,
            None => return true,
        }
    }
    false
}

/// M03, M04, M05 of the order of its scripts, and M12 of the root.
pub fn root_rows(
    alloc: Global,
    name: &Text,
    root: &Part,
    best: Option<Breach>,
) -> Result<Option<Breach>, Memory>
    ensures { IfOk result (Narrows (RootRows name.now (element_of root.now)) best Nothing) }
{
    let best = offer_at(best, M03, misnamed(name, root));
    let best = offer_at(best, M04, unended(root.children, root.at));
    let scripts = scripts_of(alloc, root.children)?;
    let best = disordered(before_last(&scripts), best);
    Ok(offer(best, is_crowded(root.children), M12, root.at))
}
