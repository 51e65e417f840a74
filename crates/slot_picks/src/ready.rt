//! The slots that are ready.
ghost use Rattle.std.specs.Prelude.{◌≡◌, ℕ, ◌<◌, ◌++◌, [], ◌∷◌, IfOk, OnOk, Some, if◌then◌else◌, length, slice_get};
ghost use Rattle.life_laws.specs.Life.{ready};
ghost use Rattle.life_laws.specs.Journal.{ready_from};
ghost use Rattle.life_laws.specs.Settled.{slot_flags};
ghost use Rattle.life_laws.specs.Slots.{Each, slot_ready};
ghost use Rattle.life_queue.specs.Lives.{life_seen};
ghost use Rattle.native_image.specs.declared.handed.Shared.{Shared as SharedOf};
ghost use Rattle.slot_picks.specs.declared.slots.Slot.{Slot as SlotOf};
ghost use Rattle.slot_picks.specs.Lives.{AreHoused, chains_of, seens_of};
ghost use Rattle.slot_picks.specs.Places.{seen_at, seens_from};

use crate::lives::{Lives, Place};
use crate::slots::{Slot, present};
use code_units::Memory;
use life_queue::Life;
use std::alloc::Global;

// Whether a turn of a life is in progress, or something is queued.
fn is_busy(life: &Life) -> bool
    ensures { (h : SharedOf) (w : ℕ) → result ≡ ready (life_seen h w life.now) }
{
    life.turn.is_some() || !life.queue.is_empty()
}

// Whether there is something to do in a place.
fn is_ready(place: &Place) -> bool
    ensures { (h : SharedOf) (w : ℕ) → result ≡ ready (seen_at h w place.now) }
{
    place.life.accepted && is_busy(&place.life)
}

// Whether a slot with these lives is ready.
fn slot_is_ready(places: &[Place], slot: &[u32]) -> bool
    requires some { 0 < length slot.now }
    requires there { Each (λ v. v < length places.now) slot.now }
    ensures { (h : SharedOf) → result ≡ slot_ready (seens_from h 0 places.now) slot.now }
{
    if slot.len() > 1 {
        return true;
    }
    let v = present(slot);
    is_ready(&places[v as usize])
}

// Whether this slot is ready.
fn is_ready_at(lives: &Lives, slots: &[Slot], w: usize) -> bool
    requires there { w < length slots.now }
    requires housed { (born : ℕ) × AreHoused born lives.now slots.now }
    ensures { (s : SlotOf) → slice_get slots.now w ≡ Some s → result ≡ slot_ready (seens_of lives.now) s.lives.items }
{
    slot_is_ready(&lives.places, &slots[w].lives)
}

// A number that is ready is kept.
fn note_ready(ready: &mut Vec<u32>, w: u32, is: bool) -> Result<(), Memory>
    ensures { OnOk result (ready.new.items ≡ (if is then ready.old.items ++ w ∷ [] else ready.old.items)) }
{
    if is {
        ready.push(w)?;
    }
    Ok(())
}

/// Fills a list anew with the slots that are ready, in rising order.
pub(crate) fn fill_ready(ready: &mut Vec<u32>, lives: &Lives, slots: &[Slot]) -> Result<(), Memory>
    requires housed { (born : ℕ) × AreHoused born lives.now slots.now }
    ensures { OnOk result (ready.new.items ≡ ready_from 0 (slot_flags (seens_of lives.now) (chains_of slots.now))) }
{
    ready.clear();
    'slots: for w in 0..slots.len() {
        let is = is_ready_at(lives, slots, w);
        note_ready(ready, w as u32, is)?;
    }
    Ok(())
}

/// The slots that are ready, in rising order: the present life of each has a turn in progress or a queue
/// that is not empty, or a swap waits.
pub fn ready_slots(alloc: Global, lives: &Lives, slots: &[Slot]) -> Result<Vec<u32>, Memory>
    requires housed { (born : ℕ) × AreHoused born lives.now slots.now }
    ensures { IfOk result (λ v. v.items ≡ ready_from 0 (slot_flags (seens_of lives.now) (chains_of slots.now))) }
{
    let mut ready = Vec::new(alloc);
    fill_ready(&mut ready, lives, slots)?;
    Ok(ready)
}
