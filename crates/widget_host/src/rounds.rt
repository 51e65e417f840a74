//! Rounds of posts.
#![tactic(auto, unfolding(crate::specs::Housed::IsHoused, crate::specs::Housed::chains, crate::specs::Housed::given, crate::specs::Housed::homes, crate::specs::Housed::journal, crate::specs::Housed::marked, crate::specs::Housed::names, crate::specs::Housed::seens, crate::specs::Housed::shared, crate::specs::Housed::told))]

ghost use Rattle.std.specs.Prelude.{◌≡◌, ◌≢◌, ◌<◌, ℕ, List, [], ◌∷◌, IfOk, IsErr, OnErr, OnOk, Option, Some, false, is_ok, map, option_map, slice_get, true};
ghost use Rattle.life_laws.specs.Life.{Seen, due, image};
ghost use Rattle.life_laws.specs.Journal.{ready_from};
ghost use Rattle.life_laws.specs.Fed.{Fed, RoundsTo, state};
ghost use Rattle.life_laws.specs.Chains.{last_life};
ghost use Rattle.life_laws.specs.Settled.{SettledSlots, slot_flags};
ghost use Rattle.slot_picks.specs.Feeding.{Delivers, HaveDone, is_last, sum_of};
ghost use Rattle.widget_host.specs.Given.{AreEnded, AreRetired};
ghost use Rattle.widget_host.specs.Housed.{AreShown, HoldAll, IsApart, IsHoused, IsWhole, KeepsHost, chains, channels, ends, given, homes, journal, marked, names, seens, told};
ghost use Rattle.widget_host.specs.Rounds.{AreFed, PassesRoundsUntil};

use crate::host::Host;
use code_units::Memory;
use slot_picks::deliver_posts;
use std::alloc::Global;
use turn_sched::Chooser;

impl Host {
    // Each post of the last life of a slot that no round has taken, to a slot to which a channel leads from it, is
    // queued there as an event for the last life. Whether there was one; if not, nothing changes.
    fn deliver(&mut self, alloc: Global) -> Result<bool, Memory>
        requires apart { IsApart self.old }
        requires whole { IsWhole self.old }
        requires unmarked { marked self.old ≡ false }
        ensures delivers { IfOk result (λ delivered. (fs : List (Option Fed)) → AreFed self.old fs
            → HaveDone (seens self.old)
            → Delivers delivered (channels self.old) (names self.old) fs (AreFed self.new)) }
        ensures still { IfOk result (λ delivered. delivered ≡ false
            → (seens self.new ≡ seens self.old) × (told self.new ≡ told self.old)) }
        ensures more { IfOk result (λ delivered. delivered ≡ true → sum_of (told self.old) < sum_of (told self.new)) }
        ensures listed { IfOk result (λ delivered. delivered ≡ true → channels self.old ≢ []) }
        ensures images { map image (seens self.new) ≡ map image (seens self.old) }
        ensures others { (v : ℕ) → is_last v (chains self.old) ≡ false
            → slice_get (seens self.new) v ≡ slice_get (seens self.old) v }
        ensures chains { chains self.new ≡ chains self.old }
        ensures journal { journal self.new ≡ journal self.old }
        ensures given { given self.new ≡ given self.old }
        ensures holds { HoldAll self.new }
        ensures stays { KeepsHost self.old self.new }
        ensures apart { IsApart self.new }
        ensures whole { OnOk result (IsWhole self.new) }
        ensures mark { OnErr result (marked self.new ≡ true) }
        ensures unmarked { OnOk result (marked self.new ≡ false) }
    {
        match deliver_posts(alloc, &mut self.lives.places, &self.slots, &self.channels) {
            Ok(delivered) => Ok(delivered),
            Err(fault) => {
                self.marked = true;
                Err(fault)
            }
        }
    }

    /// Picks are made until no slot is ready, and then rounds of posts follow: each post of the last life of a slot
    /// that no round has taken, to a slot to which a channel leads from it, is an event for the last life there, by
    /// the sender's slot and then in the order of posting; and picks are made again. The rounds end with the first
    /// that delivers nothing. Their events are not counted as given. `Memory` leaves the journal as the picks before
    /// left it, and beside one slot all, or in a round what each life did.
    pub fn rounds<C: Chooser>(
        &mut self,
        alloc: Global,
        chooser: &mut C,
        slice: u32,
    ) -> Result<(), Memory>
        requires housed { IsHoused self.old }
        requires slice { 0 < slice }
        ensures rounds { OnOk result ((fs : List (Option Fed)) → AreFed self.old fs
            → (gs : List (Option Fed)) × RoundsTo (channels self.old) (names self.old) fs gs × AreFed self.new gs
            × AreShown self.new (chains self.new) (map (option_map state) gs)) }
        ensures retired { OnOk result ((es : List (Option Fed)) → AreEnded self.old (ends self.old) es
            → AreRetired self.new (ends self.new) (map (option_map state) es)) }
        ensures ended { OnOk result ((v : ℕ) (s t : Seen) → is_last v (chains self.old) ≡ false
            → slice_get (seens self.old) v ≡ Some s → slice_get (seens self.new) v ≡ Some t → image t ≡ due s) }
        ensures settled { OnOk result (channels self.old ≡ []
            → SettledSlots slice (homes self.old) (chains self.old) (chains self.new) (seens self.old)
            (seens self.new) (journal self.old) (journal self.new) (C.asks chooser.old) (C.room chooser.old)
            (C.asks chooser.new) (C.room chooser.new)) }
        ensures passes { PassesRoundsUntil slice self.old (is_ok result) self.new }
        ensures quiet { OnOk result (ready_from 0 (slot_flags (seens self.new) (chains self.new)) ≡ []) }
        ensures chains { OnOk result (chains self.new ≡ map (λ c. last_life c ∷ []) (chains self.old)) }
        ensures given { OnOk result (given self.new ≡ given self.old) }
        ensures stays { KeepsHost self.old self.new }
        ensures housed { IsHoused self.new }
        ensures marked { marked self.old ≡ true → IsErr result × (self.new ≡ self.old) × (chooser.new ≡ chooser.old) }
        ensures mark { OnErr result (marked self.new ≡ true) }
        ensures unmarked { OnOk result (marked self.new ≡ false) }
    {
        'rounds: loop {
            self.settle(alloc, chooser, slice)?;
            if !self.deliver(alloc)? {
                return Ok(());
            }
        }
    }
}
