//! Picks of slots, and picks until no slot is ready.
#![tactic(auto, unfolding(crate::specs::Housed::IsHoused, crate::specs::Housed::chains, crate::specs::Housed::given, crate::specs::Housed::homes, crate::specs::Housed::journal, crate::specs::Housed::marked, crate::specs::Housed::seens, crate::specs::Housed::shared, crate::specs::Housed::told))]

ghost use Rattle.std.specs.Prelude.{◌≡◌, ◌+◌, ◌<◌, ◌∷◌, [], IfOk, IsErr, OnErr, OnOk, false, true, is_ok, length, map};
ghost use Rattle.life_laws.specs.Life.{due, image};
ghost use Rattle.life_laws.specs.Journal.{ready_from};
ghost use Rattle.life_laws.specs.Chains.{PickedIn, last_life};
ghost use Rattle.life_laws.specs.Settled.{SettledSlots, slot_flags};
ghost use Rattle.widget_host.specs.declared.host.Host.{Host as HostOf};
ghost use Rattle.widget_host.specs.Housed.{GivesItem, IsHoused, IsItem, ItemPasses, KeepsBeside, KeepsHost, PassesUntil, chains, dues_after, given, homes, journal, marked, seens, told};

use crate::host::Host;
use crate::items::HostItem;
use code_units::Memory;
use life_laws::Picked;
use slot_picks::{pick_slot, settle_slots};
use std::alloc::Global;
use turn_sched::Chooser;

impl Host {
    /// Carries on the turn of a slot, or the first that the queues of its lives begin, until the units are
    /// spent or the turn is over. Swaps that wait are taken where a life has nothing left. `Memory` leaves the journal,
    /// and beside the slot all, as it was.
    pub fn pick(&mut self, alloc: Global, w: u32, k: u32) -> Result<Picked, Memory>
        requires housed { IsHoused self.old }
        requires there { w < length (chains self.old) }
        requires slice { 0 < k }
        ensures picked { IfOk result
            (λ r. PickedIn w k r (chains self.old) (chains self.new) (seens self.old) (seens self.new)
            (journal self.old) (journal self.new)) }
        ensures beside { KeepsBeside w self.old self.new }
        ensures journal { OnErr result (journal self.new ≡ journal self.old) }
        ensures given { OnOk result (given self.new ≡ given self.old) }
        ensures told { told self.new ≡ told self.old }
        ensures stays { KeepsHost self.old self.new }
        ensures housed { IsHoused self.new }
        ensures marked { marked self.old ≡ true → IsErr result × (self.new ≡ self.old) }
        ensures mark { OnErr result (marked self.new ≡ true) }
        ensures unmarked { OnOk result (marked self.new ≡ false) }
    {
        if self.marked {
            return Err(Memory);
        }
        match pick_slot(alloc, &mut self.lives, &mut self.slots, w, k) {
            Ok(picked) => Ok(picked),
            Err(fault) => {
                self.marked = true;
                Err(fault)
            }
        }
    }

    /// Picks are made until no slot is ready: of the slots that are, the one that the chooser takes. `Memory`
    /// leaves the journal, and beside one slot all, as the picks before left it.
    pub fn settle<C: Chooser>(
        &mut self,
        alloc: Global,
        chooser: &mut C,
        slice: u32,
    ) -> Result<(), Memory>
        requires housed { IsHoused self.old }
        requires slice { 0 < slice }
        ensures settled { OnOk result
            (SettledSlots slice (homes self.old) (chains self.old) (chains self.new) (seens self.old)
            (seens self.new) (journal self.old) (journal self.new) (C.asks chooser.old) (C.room chooser.old)
            (C.asks chooser.new) (C.room chooser.new)) }
        ensures passes { PassesUntil slice self.old (is_ok result) self.new }
        ensures done { OnOk result (map image (seens self.new) ≡ map due (seens self.old)) }
        ensures quiet { OnOk result (ready_from 0 (slot_flags (seens self.new) (chains self.new)) ≡ []) }
        ensures chains { OnOk result (chains self.new ≡ map (λ c. last_life c ∷ []) (chains self.old)) }
        ensures given { OnOk result (given self.new ≡ given self.old) }
        ensures told { told self.new ≡ told self.old }
        ensures stays { KeepsHost self.old self.new }
        ensures housed { IsHoused self.new }
        ensures marked { marked self.old ≡ true → IsErr result × (self.new ≡ self.old) × (chooser.new ≡ chooser.old) }
        ensures mark { OnErr result (marked self.new ≡ true) }
        ensures unmarked { OnOk result (marked self.new ≡ false) }
    {
        if self.marked {
            return Err(Memory);
        }
        match settle_slots(alloc, &mut self.lives, &mut self.slots, chooser, slice) {
            Ok(()) => Ok(()),
            Err(fault) => {
                self.marked = true;
                Err(fault)
            }
        }
    }

    /// An item is given, and then picks are made until no slot is ready: each life shows what was due to it, with
    /// the item where it is for it. `Memory` is told as by `give`, or as by `settle`.
    pub fn item<C: Chooser>(
        &mut self,
        alloc: Global,
        item: HostItem,
        chooser: &mut C,
        slice: u32,
    ) -> Result<(), Memory>
        requires housed { IsHoused self.old }
        requires room { given self.old < 4096 }
        requires shape { IsItem item (length (chains self.old)) }
        requires slice { 0 < slice }
        ensures done { OnOk result (map image (seens self.new)
            ≡ dues_after self.old item 0 (map due (seens self.old))) }
        ensures settled { OnOk result ((mid : HostOf) × GivesItem item self.old mid
            × SettledSlots slice (homes mid) (chains mid) (chains self.new) (seens mid) (seens self.new)
            (journal mid) (journal self.new) (C.asks chooser.old) (C.room chooser.old) (C.asks chooser.new)
            (C.room chooser.new)) }
        ensures passes { ItemPasses slice item self.old (is_ok result) self.new }
        ensures quiet { OnOk result (ready_from 0 (slot_flags (seens self.new) (chains self.new)) ≡ []) }
        ensures chains { OnOk result (chains self.new ≡ map (λ c. last_life c ∷ []) (chains self.old)) }
        ensures given { OnOk result (given self.new ≡ given self.old + 1) }
        ensures told { OnOk result (told self.new ≡ told self.old) }
        ensures stays { KeepsHost self.old self.new }
        ensures housed { IsHoused self.new }
        ensures marked { marked self.old ≡ true → IsErr result × (self.new ≡ self.old) × (chooser.new ≡ chooser.old) }
        ensures mark { OnErr result (marked self.new ≡ true) }
        ensures unmarked { OnOk result (marked self.new ≡ false) }
    {
        self.give(item)?;
        self.settle(alloc, chooser, slice)
    }
}
