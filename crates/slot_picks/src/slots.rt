//! The lives of a slot, and a pick of one slot.
ghost use Rattle.std.specs.Prelude.{◌≡◌, ℕ, ◌<◌, IfOk, OnErr, OnOk, Some, length, slice_get, nat_lt, drop};
ghost use Rattle.life_laws.specs.Journal.{on_at};
ghost use Rattle.life_laws.specs.Chains.{PickedIn};
ghost use Rattle.slot_picks.specs.declared.slots.Slot.{Slot as SlotOf};
ghost use Rattle.slot_picks.specs.Lives.{AreHoused, AreStanding, FewLives, FineLives, KeepsBeside, KeepsSlots, chains_of, seens_of};

use crate::lives::{Lives, pick_kept};
use code_units::{Memory, Text};
use life_laws::Picked;
use page_build::swap_stands;
use std::alloc::Global;

/// A slot: its name, the fuel of each turn of its lives, and its lives, the present one first, then those
/// whose swap waits.
#[derive(Drop)]
pub struct Slot {
    pub name: Text,
    pub fuel: u32,
    pub lives: Vec<u32>,
}

/// The life that is present.
pub fn present(lives: &[u32]) -> u32
    requires { 0 < length lives.now }
    ensures { slice_get lives.now 0 ≡ Some result }
{
    lives[0]
}

// A swap waits.
fn waits(lives: &[u32]) -> bool
    ensures { result ≡ nat_lt 1 (length lives.now) }
{
    lives.len() > 1
}

// The present life of a slot ends.
fn end_present(slot: &mut Slot) -> u32
    requires { 0 < length slot.old.lives.items }
    ensures ended { slice_get slot.old.lives.items 0 ≡ Some result }
    ensures lives { slot.new.lives.items ≡ drop 1 slot.old.lives.items }
    ensures name { slot.new.name ≡ slot.old.name }
    ensures fuel { slot.new.fuel ≡ slot.old.fuel }
{
    slot.lives.remove(0)
}

// The present life of a slot ends, and the one whose swap waits is present: its node comes in the place of
// the old one. Nothing is seen of it in any life.
fn take_swap(lives: &mut Lives, slots: &mut Vec<Slot>, w: u32)
    requires there { w < length slots.old.items }
    requires waits { (s : SlotOf) → slice_get slots.old.items w ≡ Some s → 1 < length s.lives.items }
    requires fine { FineLives lives.old }
    requires standing { AreStanding lives.old slots.old.items }
    ensures seens { seens_of lives.new ≡ seens_of lives.old }
    ensures journal { lives.new.journal.items ≡ lives.old.journal.items }
    ensures chains { chains_of slots.new.items ≡ on_at w (drop 1) (chains_of slots.old.items) }
    ensures fine { FineLives lives.new }
    ensures few { (n : ℕ) → FewLives n lives.old → FewLives n lives.new }
    ensures stays { KeepsSlots lives.old lives.new slots.old.items slots.new.items }
{
    let ended = end_present(&mut slots[w as usize]);
    let next = present(&slots[w as usize].lives);
    let old = lives.places[ended as usize].root;
    let new = lives.places[next as usize].root;
    swap_stands(&mut lives.shared.page, old, new);
}

/// Carries on the turn of a slot, or the first that the queues of its lives begin, until the units are
/// spent or the turn is over. Swaps that wait are taken where a life has nothing left; no memory is wanted
/// for that. `Memory` leaves the journal, and beside the slot all, as it was.
pub fn pick_slot(
    alloc: Global,
    lives: &mut Lives,
    slots: &mut Vec<Slot>,
    w: u32,
    k: u32,
) -> Result<Picked, Memory>
    requires there { w < length slots.old.items }
    requires slice { 0 < k }
    requires housed { (born : ℕ) × AreHoused born lives.old slots.old.items }
    requires standing { AreStanding lives.old slots.old.items }
    ensures picked { IfOk result
        (λ r. PickedIn w k r (chains_of slots.old.items) (chains_of slots.new.items) (seens_of lives.old)
        (seens_of lives.new) lives.old.journal.items lives.new.journal.items) }
    ensures housed { OnOk result ((born : ℕ) → AreHoused born lives.old slots.old.items
        → AreHoused born lives.new slots.new.items) }
    ensures few { OnOk result ((n : ℕ) → FewLives n lives.old → FewLives n lives.new) }
    ensures beside { KeepsBeside w lives.old lives.new slots.old.items slots.new.items }
    ensures still { OnErr result (lives.new.journal.items ≡ lives.old.journal.items) }
    ensures stays { KeepsSlots lives.old lives.new slots.old.items slots.new.items }
{
    'swaps: loop {
        let v = present(&slots[w as usize].lives);
        let picked = pick_kept(alloc, lives, v, k)?;
        let Picked::Idle = picked else {
            return Ok(picked);
        };
        if !waits(&slots[w as usize].lives) {
            return Ok(picked);
        }
        take_swap(lives, slots, w);
    }
}
