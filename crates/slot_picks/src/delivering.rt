//! One round of posts.
ghost use Rattle.std.specs.Prelude.{◌≡◌, ◌<◌, ◌≤◌, ℕ, IfOk, OnOk, Some, false, length, map, slice_get, true};
ghost use Rattle.std.specs.List.{IsDistinct};
ghost use Rattle.std.specs.Str.{bytes_eq};
ghost use Rattle.life_laws.specs.Life.{image};
ghost use Rattle.life_laws.specs.Chains.{Chains};
ghost use Rattle.slot_picks.specs.Lives.{chains_of};
ghost use Rattle.slot_picks.specs.Places.{homes_of, seens_from, told_of};
ghost use Rattle.slot_picks.specs.declared.slots.Slot.{Slot as SlotOf};
ghost use Rattle.native_image.specs.declared.handed.Shared.{Shared};
ghost use Rattle.widget_meaning.specs.Limits.{max_posts};
ghost use Rattle.slot_picks.specs.Feeding.{is_last, sum_of};
ghost use Rattle.slot_picks.specs.Posting.{AreAlike, GivesRound, IsRound};

use crate::giving::give_slots;
use crate::lives::Place;
use crate::posting::{all_fresh, all_names, is_quiet, post_kind};
use crate::slots::Slot;
use code_units::Memory;
use post_rounds::round;
use std::alloc::Global;

/// One round: each post of the last life of a slot that no round has taken, to a slot to which a channel leads from
/// it, is an event for the last life there, behind all that waits; then all these posts are taken. A life whose file
/// was refused makes no post and is told of none. Answers whether a life was told of a post; if not, nothing changes.
/// The channels are pairs of numbers of slots, sender first. `Memory` leaves events in some queues of last lives, and
/// posts taken of some; what lives did stays, and all of one that is the last of no slot.
pub fn deliver_posts(
    alloc: Global,
    places: &mut Vec<Place>,
    slots: &[Slot],
    channels: &[(u32, u32)],
) -> Result<bool, Memory>
    requires born { (born : ℕ) × (born ≤ length places.old.items)
        × Chains (homes_of places.old.items) born 0 (chains_of slots.now) }
    requires few { length slots.now ≤ 16 }
    requires apart { IsDistinct bytes_eq (map (λ (s : SlotOf). s.name) slots.now) }
    requires told { (v n : ℕ) → slice_get (told_of places.old.items) v ≡ Some n → n ≤ max_posts }
    ensures round { IfOk result
        (λ delivered. IsRound delivered channels.now (map
        (λ (s : SlotOf). s.name) slots.now) (chains_of slots.now) places.old.items places.new.items) }
    ensures given { IfOk result
        (λ delivered. GivesRound delivered channels.now (map
        (λ (s : SlotOf). s.name) slots.now) (chains_of slots.now) places.old.items places.new.items) }
    ensures kept { OnOk result ((v n : ℕ) → slice_get (told_of places.new.items) v ≡ Some n → n ≤ max_posts) }
    ensures more { IfOk result (λ delivered. delivered ≡ true
        → sum_of (told_of places.old.items) < sum_of (told_of places.new.items)) }
    ensures alike { AreAlike places.old.items places.new.items }
    ensures images { (h : Shared)
        → map image (seens_from h 0 places.new.items) ≡ map image (seens_from h 0 places.old.items) }
    ensures others { (v : ℕ) → is_last v (chains_of slots.now) ≡ false
        → slice_get places.new.items v ≡ slice_get places.old.items v }
{
    let fresh = all_fresh(alloc, places, slots)?;
    let names = all_names(alloc, slots)?;
    let events = round(alloc, channels, &names, &fresh)?;
    if is_quiet(places, slots, &events) {
        return Ok(false);
    }
    let kind = post_kind(alloc)?;
    give_slots(alloc, places, slots, &kind, &events, &fresh)?;
    Ok(true)
}
