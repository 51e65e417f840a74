//! A slot gets another file: its next life is born, and waits for its turn in the slot.
ghost use Rattle.std.specs.Prelude.{◌≡◌, ◌<◌, ℕ, IsErr, List, OnErr, OnOk, Some, false, length, map, slice_get, true};
ghost use Rattle.page_plan.specs.Loadable.{IsSwapLoadable};
ghost use Rattle.life_laws.specs.Journal.{on_at};
ghost use Rattle.life_laws.specs.Chains.{joins};
ghost use Rattle.slot_picks.specs.declared.slots.Slot.{Slot as SlotOf};
ghost use Rattle.slot_picks.specs.Lives.{chains_of};
ghost use Rattle.widget_host.specs.Housed.{BearsLife, GivesSwap, IsApart, IsHoused, IsWhole, KeepsOthers, chains, given, libraries, marked, names, swaps};

use crate::giving::last_of;
use crate::host::Host;
use code_units::Memory;
use page_load::{Coming, add_life};
use page_plan::SlotContent;
use slot_picks::Slot;
use std::alloc::Global;

// A life waits behind those of a slot.
fn join(slots: &mut Vec<Slot>, w: usize, v: u32) -> Result<(), Memory>
    requires { w < length slots.old.items }
    ensures joins { OnOk result (chains_of slots.new.items ≡ on_at w (joins v) (chains_of slots.old.items)) }
    ensures same { OnErr result (chains_of slots.new.items ≡ chains_of slots.old.items) }
    ensures names { map (λ (s : SlotOf). s.name) slots.new.items ≡ map (λ (s : SlotOf). s.name) slots.old.items }
    ensures fuels { map (λ (s : SlotOf). s.fuel) slots.new.items ≡ map (λ (s : SlotOf). s.fuel) slots.old.items }
{
    slots[w].lives.push(v)?;
    Ok(())
}

impl Host {
    // The life of a swap is born, behind the last one of its slot.
    fn bear(&mut self, alloc: Global, to: u32, content: SlotContent) -> Result<(), Memory>
        requires apart { IsApart self.old }
        requires whole { IsWhole self.old }
        requires there { to < length (chains self.old) }
        requires few { swaps self.old < 4 }
        ensures life { OnOk result (BearsLife to content self.old self.new) }
        ensures whole { OnOk result (IsWhole self.new) }
        ensures stays { KeepsOthers self.old self.new }
        ensures apart { IsApart self.new }
        ensures given { given self.new ≡ given self.old }
        ensures marked { marked self.new ≡ marked self.old }
    {
        let v = 16 + self.ends.len() as u32;
        let last = last_of(&self.slots[to as usize].lives);
        let slot = &self.slots[to as usize];
        let coming = Coming { to, v, content };
        add_life(alloc, self.keys, &mut self.lives, &self.libs, slot, coming)?;
        self.ends.push(last)?;
        join(&mut self.slots, to as usize, v)
    }

    /// A swap is queued for a slot: from then on what is given to the slot is for a life of this content, which
    /// waits until the one before it has nothing left to do. Its nodes, its cells and its load turns are made now, so
    /// that no memory is wanted when it takes its place. Where the content is refused the slot is refused then. It is
    /// one that `load` would take for the slot, over the libraries that were loaded. `Memory` drops it and marks the
    /// host.
    pub fn give_swap(&mut self, alloc: Global, to: u32, content: SlotContent) -> Result<(), Memory>
        requires housed { IsHoused self.old }
        requires there { to < length (chains self.old) }
        requires room { given self.old < 4096 }
        requires few { swaps self.old < 4 }
        requires loadable { (name : List ℕ) → slice_get (names self.old) to ≡ Some name
            → IsSwapLoadable (length (libraries self.old)) name content }
        ensures gives { OnOk result (GivesSwap to content self.old self.new) }
        ensures stays { KeepsOthers self.old self.new }
        ensures housed { IsHoused self.new }
        ensures marked { marked self.old ≡ true → IsErr result × (self.new ≡ self.old) }
        ensures mark { OnErr result (marked self.new ≡ true) }
        ensures unmarked { OnOk result (marked self.new ≡ false) }
    {
        if self.marked {
            return Err(Memory);
        }
        match self.bear(alloc, to, content) {
            Ok(()) => {
                self.given += 1;
                Ok(())
            }
            Err(fault) => {
                self.marked = true;
                Err(fault)
            }
        }
    }
}
