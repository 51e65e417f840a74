//! Picks of slots, until none is ready.
ghost use Rattle.std.specs.Prelude.{◌≡◌, ℕ, ◌<◌, IfOk, OnErr, OnOk, [], ◌∷◌, false, is_ok, map, Some, slice_get};
ghost use Rattle.life_laws.specs.Life.{due, image};
ghost use Rattle.life_laws.specs.Journal.{ready_from};
ghost use Rattle.life_laws.specs.Chains.{PickedIn, last_life};
ghost use Rattle.life_laws.specs.Settled.{SettledSlots, slot_flags};
ghost use Rattle.slot_picks.specs.Lives.{AreHoused, AreStanding, FewLives, KeepsSlots, PicksUntil, chains_of, seens_of};
ghost use Rattle.slot_picks.specs.Places.{homes_of};

use crate::lives::Lives;
use crate::ready::{fill_ready, ready_slots};
use crate::slots::{Slot, pick_slot};
use code_units::Memory;
use life_laws::Picked;
use std::alloc::Global;
use turn_sched::Chooser;

// One of the slots that are ready is picked, and the list is of those that are ready then: where the turn is
// not over they are the same.
fn pick_ready(
    alloc: Global,
    lives: &mut Lives,
    slots: &mut Vec<Slot>,
    ready: &mut Vec<u32>,
    w: u32,
    k: u32,
) -> Result<Picked, Memory>
    requires slice { 0 < k }
    requires housed { (born : ℕ) × AreHoused born lives.old slots.old.items }
    requires standing { AreStanding lives.old slots.old.items }
    requires list { ready.old.items ≡ ready_from 0 (slot_flags (seens_of lives.old) (chains_of slots.old.items)) }
    requires ready { (at : ℕ) × (slice_get ready.old.items at ≡ Some w) }
    ensures picked { IfOk result
        (λ r. PickedIn w k r (chains_of slots.old.items) (chains_of slots.new.items) (seens_of lives.old)
        (seens_of lives.new) lives.old.journal.items lives.new.journal.items) }
    ensures list { OnOk result (ready.new.items
        ≡ ready_from 0 (slot_flags (seens_of lives.new) (chains_of slots.new.items))) }
    ensures housed { OnOk result ((born : ℕ) → AreHoused born lives.old slots.old.items
        → AreHoused born lives.new slots.new.items) }
    ensures few { OnOk result ((n : ℕ) → FewLives n lives.old → FewLives n lives.new) }
    ensures stops { OnErr result (PicksUntil k lives.old slots.old false lives.new slots.new) }
    ensures stays { KeepsSlots lives.old lives.new slots.old.items slots.new.items }
{
    let picked = pick_slot(alloc, lives, slots, w, k)?;
    if let Picked::Unfinished { .. } = picked {
        return Ok(picked);
    }
    fill_ready(ready, lives, slots)?;
    Ok(picked)
}

/// Slots are picked with this slice until none is ready, each by the chooser's answer to which of the ready
/// ones is next. No swap waits then, and each life has done all that it had to do. `Memory` leaves the journal, and
/// beside one slot all, as the picks before left it.
pub fn settle_slots<C: Chooser>(
    alloc: Global,
    lives: &mut Lives,
    slots: &mut Vec<Slot>,
    chooser: &mut C,
    slice: u32,
) -> Result<(), Memory>
    requires slice { 0 < slice }
    requires housed { (born : ℕ) × AreHoused born lives.old slots.old.items }
    requires standing { AreStanding lives.old slots.old.items }
    ensures settled { OnOk result
        (SettledSlots slice (homes_of lives.old.places.items) (chains_of slots.old.items) (chains_of slots.new.items)
        (seens_of lives.old) (seens_of lives.new) lives.old.journal.items lives.new.journal.items
        (C.asks chooser.old) (C.room chooser.old) (C.asks chooser.new) (C.room chooser.new)) }
    ensures passes { PicksUntil slice lives.old slots.old (is_ok result) lives.new slots.new }
    ensures done { OnOk result (map image (seens_of lives.new) ≡ map due (seens_of lives.old)) }
    ensures quiet { OnOk result (ready_from 0 (slot_flags (seens_of lives.new) (chains_of slots.new.items)) ≡ []) }
    ensures lasts { OnOk result (chains_of slots.new.items ≡ map (λ c. last_life c ∷ []) (chains_of slots.old.items)) }
    ensures housed { OnOk result ((born : ℕ) → AreHoused born lives.old slots.old.items
        → AreHoused born lives.new slots.new.items) }
    ensures few { OnOk result ((n : ℕ) → FewLives n lives.old → FewLives n lives.new) }
    ensures stays { KeepsSlots lives.old lives.new slots.old.items slots.new.items }
{
    let mut ready = ready_slots(alloc, lives, slots)?;
    'picks: loop {
        if ready.is_empty() {
            return Ok(());
        }
        let at = chooser.next(&ready);
        let w = ready[at];
        pick_ready(alloc, lives, slots, &mut ready, w, slice)?;
    }
}
