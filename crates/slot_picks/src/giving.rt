//! The events of a round go to the last lives of slots.
ghost use Rattle.std.specs.Prelude.{◌≡◌, ◌+◌, ◌<◌, ◌≤◌, ◌^◌, ℕ, [], OnOk, Some, codes, false, if◌then◌else◌, length, map, nat_eq, slice_get};
ghost use Rattle.post_rounds.specs.Events.{values};
ghost use Rattle.life_laws.specs.Chains.{Chains, last_life};
ghost use Rattle.slot_picks.specs.Lives.{chains_of};
ghost use Rattle.slot_picks.specs.Places.{homes_of, told_of};
ghost use Rattle.slot_picks.specs.Feeding.{counts_for, events_for, is_last, sum_of};
ghost use Rattle.slot_picks.specs.declared.lives.Place.{Place as PlaceOf};
ghost use Rattle.slot_picks.specs.Posting.{AreAlike, HasEvents, HasRound, HaveRound, IsAlike};

use crate::lives::Place;
use crate::posting::event_of;
use crate::slots::Slot;
use code_units::{Memory, Text};
use life_queue::Work;
use post_rounds::{Post, PostEvent};
use std::alloc::Global;
use std::collections::VecDeque;

// A queue has these events more.
fn queue_events(
    alloc: Global,
    queue: &mut VecDeque<Work>,
    kind: &Text,
    events: &[PostEvent],
) -> Result<(), Memory>
    requires kind { kind.now ≡ codes "post" }
    ensures { OnOk result (HasEvents (values events.now) queue.old.items queue.new.items) }
{
    'events: for event in events {
        queue.push_back(Work::Event(event_of(alloc, kind, event)?))?;
    }
    Ok(())
}

// A life has these events more, unless its file was refused, and so many more of its posts are taken.
fn give_place(
    alloc: Global,
    place: &mut Place,
    kind: &Text,
    events: &[PostEvent],
    taken: u32,
) -> Result<(), Memory>
    requires kind { kind.now ≡ codes "post" }
    requires room { place.old.told + taken < 2 ^ 32 }
    ensures given { OnOk result
        (HasRound (if place.old.life.accepted then values events.now else []) taken place.old place.new) }
    ensures alike { IsAlike place.old place.new }
{
    place.told += taken;
    if !place.life.accepted {
        return Ok(());
    }
    queue_events(alloc, &mut place.life.queue, kind, events)
}

// The life that is last in a slot.
pub(crate) fn last_of(slot: &[u32]) -> u32
    requires { 0 < length slot.now }
    ensures { result ≡ last_life slot.now }
{
    slot[slot.len() - 1]
}

// The last life of a slot has these events more, and so many more of its posts are taken.
fn give_slot(
    alloc: Global,
    places: &mut Vec<Place>,
    slot: &[u32],
    kind: &Text,
    events: &[PostEvent],
    taken: u32,
) -> Result<(), Memory>
    requires kind { kind.now ≡ codes "post" }
    requires some { 0 < length slot.now }
    requires there { last_life slot.now < length places.old.items }
    requires room { (p : PlaceOf) → slice_get places.old.items (last_life slot.now) ≡ Some p → p.told + taken < 2 ^ 32 }
    ensures given { OnOk result (HaveRound (λ u. if nat_eq (last_life slot.now) u then values events.now else [])
        (λ u. if nat_eq (last_life slot.now) u then taken else 0) 0 places.old.items places.new.items) }
    ensures alike { AreAlike places.old.items places.new.items }
    ensures others { (v : ℕ) → nat_eq (last_life slot.now) v ≡ false
        → slice_get places.new.items v ≡ slice_get places.old.items v }
{
    let v = last_of(slot);
    give_place(alloc, &mut places[v as usize], kind, events, taken)
}

// The last life of each slot has the events of its slot more, and its fresh posts are taken.
pub(crate) fn give_slots(
    alloc: Global,
    places: &mut Vec<Place>,
    slots: &[Slot],
    kind: &Text,
    events: &[Vec<PostEvent>],
    fresh: &[Vec<Post>],
) -> Result<(), Memory>
    requires kind { kind.now ≡ codes "post" }
    requires born { (born : ℕ) × (born ≤ length places.old.items)
        × Chains (homes_of places.old.items) born 0 (chains_of slots.now) }
    requires events { length events.now ≡ length slots.now }
    requires fresh { length fresh.now ≡ length slots.now }
    requires room { (v n : ℕ) → slice_get (told_of places.old.items) v ≡ Some n
        → n + sum_of (map (λ x. length x.items) fresh.now) < 2 ^ 32 }
    ensures given { OnOk result
        (HaveRound (events_for (chains_of slots.now) (map (λ x. values x.items) events.now))
        (counts_for (chains_of slots.now) (map
        (λ x. length x.items) fresh.now)) 0 places.old.items places.new.items) }
    ensures alike { AreAlike places.old.items places.new.items }
    ensures others { (v : ℕ) → is_last v (chains_of slots.now) ≡ false
        → slice_get places.new.items v ≡ slice_get places.old.items v }
{
    'slots: for w in 0..slots.len() {
        let taken = fresh[w].len() as u32;
        give_slot(alloc, places, &slots[w].lives, kind, &events[w], taken)?;
    }
    Ok(())
}
