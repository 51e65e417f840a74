//! What was found of the files of the lives of a page.
ghost use Rattle.std.specs.Prelude.{◌≡◌, ◌<◌, ◌≤◌, ◌+◌, ◌^◌, ◌++◌, ◌∷◌, [], length, map, IfOk, OnOk, IfSome};
ghost use Rattle.std.specs.List.{list_any};
ghost use Rattle.trace_reader.specs.Said.{said};
ghost use Rattle.page_play.specs.Findings.{AreEven, found_after, is_refused, lasts_told, ended_told, found_refused};
ghost use Rattle.page_play.specs.Swaps.{swap_slots, swap_positions, last_swap};

use code_units::{Memory, Text};
use slot_check::Refusal;
use std::alloc::Global;
use trace_reader::TraceItem;

/// The swaps of a trace in order: the number of the slot of each, and its position among the items,
/// counted from 1.
#[derive(Drop)]
pub struct Swaps {
    pub slots: Vec<u32>,
    pub positions: Vec<u32>,
}

/// The slots of a page by their names, the swaps of its trace, and the first rule that each file
/// breaks, where it breaks one: the own file of each slot, and the one that each swap brings.
#[derive(Drop)]
pub struct Findings {
    pub names: Vec<Text>,
    pub refusals: Vec<Option<Refusal>>,
    pub swaps: Swaps,
    pub brought: Vec<Option<Refusal>>,
}

/// The swaps among at most 4,294,967,295 items.
pub fn find_swaps(alloc: Global, items: &[TraceItem]) -> Result<Swaps, Memory>
    requires { length items.now < 2 ^ 32 }
    ensures slots { IfOk result (λ swaps. swaps.slots.items ≡ swap_slots (map said items.now)) }
    ensures positions { IfOk result (λ swaps. swaps.positions.items ≡ swap_positions 0 (map said items.now)) }
{
    let mut slots = Vec::new(alloc);
    let mut positions = Vec::new(alloc);
    'items: for (i, item) in items.iter().enumerate() {
        push_swap(i as u32, item, &mut slots, &mut positions)?;
    }
    Ok(Swaps { slots, positions })
}

// Appends an item that is a swap, with so many items before it.
fn push_swap(
    before: u32,
    item: &TraceItem,
    slots: &mut Vec<u32>,
    positions: &mut Vec<u32>,
) -> Result<(), Memory>
    requires { before + 1 < 2 ^ 32 }
    ensures slots { OnOk result (slots.new.items ≡ slots.old.items ++ swap_slots (said item.now ∷ [])) }
    ensures positions { OnOk result (positions.new.items
        ≡ positions.old.items ++ swap_positions before (said item.now ∷ [])) }
{
    if let TraceItem::Swap { to, .. } = item {
        slots.push(*to)?;
        positions.push(before + 1)?;
    }
    Ok(())
}

// The last of swaps of these slots that is one of slot w, by its number.
fn last_swap(slots: &[u32], w: u32) -> Option<usize>
    ensures value { result ≡ last_swap w slots.now }
    ensures within { IfSome result (λ i. i < length slots.now) }
{
    let mut last = None;
    'slots: for (i, to) in slots.iter().enumerate() {
        if *to == w {
            last = Some(i);
        }
    }
    last
}

impl Findings {
    // What was found of the file of the last life of a slot, when so many swaps were taken.
    pub(crate) fn after(&self, w: u32, count: usize) -> &Option<Refusal>
        requires even { AreEven self.now }
        requires slot { w < length self.now.names.items }
        requires count { count ≤ length self.now.swaps.slots.items }
        ensures { result.now ≡ found_after self.now w count }
    {
        match last_swap(&self.swaps.slots[..count], w) {
            None => &self.refusals[w as usize],
            Some(i) => &self.brought[i],
        }
    }

    // What was found of the file of the last life of a slot, when all swaps were taken.
    pub(crate) fn last(&self, w: u32) -> &Option<Refusal>
        requires even { AreEven self.now }
        requires slot { w < length self.now.names.items }
        ensures { result.now ≡ found_after self.now w (length self.now.swaps.slots.items) }
    {
        self.after(w, self.swaps.slots.len())
    }

    // Whether the file of the last life of some slot breaks a rule.
    fn some_last_refused(&self) -> bool
        requires { AreEven self.now }
        ensures { result ≡ list_any is_refused (lasts_told self.now) }
    {
        'slots: for w in 0..self.names.len() {
            if self.last(w as u32).is_some() {
                return true;
            }
        }
        false
    }

    // Whether that of some life does that a swap ended.
    fn some_ended_refused(&self) -> bool
        requires { AreEven self.now }
        ensures { result ≡ list_any is_refused (ended_told self.now) }
    {
        'swaps: for (i, to) in self.swaps.slots.iter().enumerate() {
            if self.after(*to, i).is_some() {
                return true;
            }
        }
        false
    }
}

/// Whether some life of a page is refused.
pub fn some_refused(findings: &Findings) -> bool
    requires { AreEven findings.now }
    ensures { result ≡ found_refused findings.now }
{
    findings.some_last_refused() || findings.some_ended_refused()
}
