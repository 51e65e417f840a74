//! Posts that lives have made become events.
ghost use Rattle.std.specs.Prelude.{◌≡◌, ◌≢◌, ◌<◌, ◌≤◌, ℕ, [], IfOk, Some, codes, drop, false, length, map, take, true};
ghost use Rattle.widget_meaning.specs.Limits.{max_posts};
ghost use Rattle.post_rounds.specs.Events.{values};
ghost use Rattle.life_laws.specs.Chains.{Chains, last_life};
ghost use Rattle.slot_picks.specs.Lives.{chains_of};
ghost use Rattle.slot_picks.specs.Places.{homes_of, is_accepted};
ghost use Rattle.slot_picks.specs.declared.slots.Slot.{Slot as SlotOf};
ghost use Rattle.slot_picks.specs.Feeding.{AreStill};
ghost use Rattle.slot_picks.specs.Posting.{fresh_in, fresh_of_lasts, post_in};

use crate::giving::last_of;
use crate::lives::Place;
use crate::slots::Slot;
use code_units::{Memory, Text, push_ascii};
use event_loop::Event;
use post_rounds::{Post, PostEvent};
use std::alloc::Global;

// The most posts that a life keeps.
const KEPT: usize = 256;

// Of kept posts those that no round has taken.
fn untold(kept: &[(Text, Text)], told: u32) -> &[(Text, Text)]
    ensures { result.now ≡ drop told (take max_posts kept.now) }
{
    let end = kept.len().min(KEPT);
    let start = end.min(told as usize);
    &kept[start..end]
}

// A kept post, its texts shared.
fn post_of(kept: &(Text, Text)) -> Result<Post, Memory>
    ensures { IfOk result (λ p. p ≡ post_in kept.now) }
{
    Ok(Post {
        to: kept.0.share()?,
        text: kept.1.share()?,
    })
}

// The posts that no round has taken.
pub(crate) fn fresh_posts(
    alloc: Global,
    kept: &[(Text, Text)],
    told: u32,
) -> Result<Vec<Post>, Memory>
    ensures { IfOk result (λ v. v.items ≡ drop told (map post_in (take max_posts kept.now))) }
{
    let untold = untold(kept, told);
    let mut fresh = Vec::new(alloc);
    'posts: for post in untold {
        fresh.push(post_of(post)?)?;
    }
    Ok(fresh)
}

// The type of events that posts become.
pub(crate) fn post_kind(alloc: Global) -> Result<Text, Memory>
    ensures { IfOk result (λ t. t ≡ codes "post") }
{
    let mut units = Vec::new(alloc);
    push_ascii(&mut units, b"post")?;
    Text::from_units(alloc, units)
}

// An event of a round as a life is told of it, at its root; its text is shared.
pub(crate) fn event_of(alloc: Global, kind: &Text, event: &PostEvent) -> Result<Event, Memory>
    ensures { IfOk result (λ e. (e.kind ≡ kind.now) × (e.path.items ≡ []) × (e.value ≡ Some event.now.value)) }
{
    Ok(Event {
        kind: kind.share()?,
        path: Vec::new(alloc),
        value: Some(event.value.share()?),
    })
}

// The posts of a life that no round has taken; of one that was refused none.
fn fresh_of(alloc: Global, place: &Place) -> Result<Vec<Post>, Memory>
    ensures { IfOk result (λ v. v.items ≡ fresh_in place.now) }
{
    if !place.life.accepted {
        return Ok(Vec::new(alloc));
    }
    fresh_posts(alloc, &place.life.widget.posts, place.told)
}

// Those of the last life of each slot.
pub(crate) fn all_fresh(
    alloc: Global,
    places: &[Place],
    slots: &[Slot],
) -> Result<Vec<Vec<Post>>, Memory>
    requires born { (born : ℕ) × (born ≤ length places.now)
        × Chains (homes_of places.now) born 0 (chains_of slots.now) }
    ensures { IfOk result (λ v. map (λ x. x.items) v.items ≡ fresh_of_lasts places.now (chains_of slots.now)) }
{
    let mut all = Vec::new(alloc);
    'slots: for slot in slots {
        let v = last_of(&slot.lives);
        all.push(fresh_of(alloc, &places[v as usize])?)?;
    }
    Ok(all)
}

// The name of each slot.
pub(crate) fn all_names(alloc: Global, slots: &[Slot]) -> Result<Vec<Text>, Memory>
    ensures { IfOk result (λ v. v.items ≡ map (λ (s : SlotOf). s.name) slots.now) }
{
    let mut names = Vec::new(alloc);
    'slots: for slot in slots {
        names.push(slot.name.share()?)?;
    }
    Ok(names)
}

// The last life of a slot was accepted, and has an event.
fn is_told(places: &[Place], slot: &[u32], events: &[PostEvent]) -> bool
    requires some { 0 < length slot.now }
    requires there { last_life slot.now < length places.now }
    ensures told { result ≡ true → (is_accepted places.now (last_life slot.now) ≡ true) × (values events.now ≢ []) }
    ensures untold { result ≡ false → is_accepted places.now (last_life slot.now) ≡ true → values events.now ≡ [] }
{
    let v = last_of(slot);
    places[v as usize].life.accepted && !events.is_empty()
}

// No last life that was accepted has an event.
pub(crate) fn is_quiet(places: &[Place], slots: &[Slot], events: &[Vec<PostEvent>]) -> bool
    requires born { (born : ℕ) × (born ≤ length places.now)
        × Chains (homes_of places.now) born 0 (chains_of slots.now) }
    requires events { length events.now ≡ length slots.now }
    ensures quiet { result ≡ true
        → AreStill (is_accepted places.now) (chains_of slots.now) (map (λ x. values x.items) events.now) }
    ensures loud { result ≡ false
        → AreStill (is_accepted places.now) (chains_of slots.now) (map (λ x. values x.items) events.now) → ⊥ }
{
    'slots: for w in 0..slots.len() {
        if is_told(places, &slots[w].lives, &events[w]) {
            return false;
        }
    }
    true
}
