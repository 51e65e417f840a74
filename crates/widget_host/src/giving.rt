//! An item goes to the lives that it is for.
ghost use Rattle.std.specs.Prelude.{◌≡◌, ℕ, ◌<◌, ◌≤◌, IsErr, OnErr, OnOk, false, length, map, nat_eq, true};
ghost use Rattle.std.specs.List.{list_any};
ghost use Rattle.life_laws.specs.Life.{image};
ghost use Rattle.slot_picks.specs.life.Work.TheVariants as work;
ghost use Rattle.life_laws.specs.Chains.{Chains, last_life};
ghost use Rattle.slot_picks.specs.Lives.{chains_of};
ghost use Rattle.slot_picks.specs.Places.{homes_of};
ghost use Rattle.widget_host.specs.Feeding.{AreFed, AreSame, IsFed, IsSame, work_of};
ghost use Rattle.widget_host.specs.Housed.{GivesItem, IsHoused, IsItem, KeepsHost, chains, given, is_for, journal, marked, seens, shared, told};

use crate::host::Host;
use crate::items::HostItem;
use code_units::Memory;
use slot_picks::{Place, Slot, Work};

/// The life that is last in a slot.
pub(crate) fn last_of(slot: &[u32]) -> u32
    requires { 0 < length slot.now }
    ensures { result ≡ last_life slot.now }
{
    slot[slot.len() - 1]
}

// A life whose file was accepted has this work more in its queue.
fn feed(place: &mut Place, work: Work) -> Result<(), Memory>
    ensures fed { OnOk result (IsFed place.old.life.accepted work place.old place.new) }
    ensures same { IsSame place.old place.new }
{
    if !place.life.accepted {
        return Ok(());
    }
    place.life.queue.push_back(work)?;
    Ok(())
}

// The last life of a slot has this work more in its queue.
fn feed_last(places: &mut Vec<Place>, slot: &[u32], work: Work) -> Result<(), Memory>
    requires some { 0 < length slot.now }
    requires there { last_life slot.now < length places.old.items }
    ensures fed { OnOk result (AreFed (nat_eq (last_life slot.now)) work 0 places.old.items places.new.items) }
    ensures same { AreSame places.old.items places.new.items }
{
    let v = last_of(slot);
    feed(&mut places[v as usize], work)
}

// The last life of each slot has this advance more in its queue.
fn feed_all(places: &mut Vec<Place>, slots: &[Slot], ms: u32) -> Result<(), Memory>
    requires born { (born : ℕ) × (born ≤ length places.old.items)
        × Chains (homes_of places.old.items) born 0 (chains_of slots.now) }
    ensures fed { OnOk result (AreFed
        (λ v. list_any (λ c. nat_eq (last_life c) v) (chains_of slots.now))
        (work.Advance ms) 0 places.old.items places.new.items) }
    ensures same { AreSame places.old.items places.new.items }
{
    'slots: for slot in slots {
        feed_last(places, &slot.lives, Work::Advance(ms))?;
    }
    Ok(())
}

// The lives that an item is for have it in their queues.
fn feed_item(places: &mut Vec<Place>, slots: &[Slot], item: HostItem) -> Result<(), Memory>
    requires shape { IsItem item (length slots.now) }
    requires born { (born : ℕ) × (born ≤ length places.old.items)
        × Chains (homes_of places.old.items) born 0 (chains_of slots.now) }
    ensures fed { OnOk result
        (AreFed (is_for (chains_of slots.now) item) (work_of item) 0 places.old.items places.new.items) }
    ensures same { AreSame places.old.items places.new.items }
{
    match item {
        HostItem::Event { to, event } => {
            feed_last(places, &slots[to as usize].lives, Work::Event(event))
        }
        HostItem::Advance(ms) => feed_all(places, slots, ms),
    }
}

impl Host {
    /// An item is queued: an event for the last life of its slot, an advance for the last life of each
    /// slot. A life whose file was refused is given nothing.
    pub fn give(&mut self, item: HostItem) -> Result<(), Memory>
        requires housed { IsHoused self.old }
        requires room { given self.old < 4096 }
        requires shape { IsItem item (length (chains self.old)) }
        ensures gives { OnOk result (GivesItem item self.old self.new) }
        ensures images { map image (seens self.new) ≡ map image (seens self.old) }
        ensures told { told self.new ≡ told self.old }
        ensures chains { chains self.new ≡ chains self.old }
        ensures journal { journal self.new ≡ journal self.old }
        ensures same { shared self.new ≡ shared self.old }
        ensures stays { KeepsHost self.old self.new }
        ensures housed { IsHoused self.new }
        ensures marked { marked self.old ≡ true → IsErr result × (self.new ≡ self.old) }
        ensures mark { OnErr result (marked self.new ≡ true) }
        ensures unmarked { OnOk result (marked self.new ≡ false) }
    {
        if self.marked {
            return Err(Memory);
        }
        match feed_item(&mut self.lives.places, &self.slots, item) {
            Ok(()) => {
                self.given += 1;
                Ok(())
            }
            Err(fault) => {
                self.marked = true;
                Err(fault)
            }
        }
    }
}
