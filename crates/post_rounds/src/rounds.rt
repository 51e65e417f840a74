//! A round of posts.
ghost use Rattle.std.specs.Prelude.{◌≡◌, ◌<◌, ◌++◌, ◌∷◌, ℕ, [], OnOk, IfOk, IfSome, map, length, position, replicate, slice_set, slice_index_or};
ghost use Rattle.std.specs.List.{IsDistinct};
ghost use Rattle.std.specs.Str.{bytes_eq};
ghost use Rattle.post_rounds.specs.News.{all_news, is_declared};
ghost use Rattle.post_rounds.specs.Events.{is_at, is_named, is_received, sent, values};

use crate::posts::{Post, PostEvent};
use code_units::{Memory, Text};
use std::alloc::Global;

/// The events of a round, for each slot: each fresh post whose sender and receiver are the pair of a
/// channel is one event for its receiver, by the sender's number and then in the order of posting. The
/// channels are pairs of numbers of slots, sender first; `fresh` has the posts that each slot made
/// since the round before.
pub fn round(
    alloc: Global,
    channels: &[(u32, u32)],
    names: &[Text],
    fresh: &[Vec<Post>],
) -> Result<Vec<Vec<PostEvent>>, Memory>
    requires apart { IsDistinct bytes_eq names.now }
    requires slots { length fresh.now ≡ length names.now }
    ensures { IfOk result (λ events. map (λ v. values v.items) events.items
        ≡ all_news channels.now names.now (map (λ v. v.items) fresh.now)) }
{
    let mut events = no_events(alloc, names.len())?;
    'senders: for (sender, posts) in fresh.iter().enumerate() {
        deliver(alloc, channels, names, sender, posts, &mut events)?;
    }
    Ok(events)
}

// No event for any of so many slots.
fn no_events(alloc: Global, slots: usize) -> Result<Vec<Vec<PostEvent>>, Memory>
    ensures { IfOk result (λ events. map (λ v. values v.items) events.items ≡ replicate slots []) }
{
    let mut events = Vec::with_capacity(alloc, slots)?;
    'slots: for _ in 0..slots {
        events.push(Vec::new(alloc))?;
    }
    Ok(events)
}

// Adds the events of one sender's posts.
fn deliver(
    alloc: Global,
    channels: &[(u32, u32)],
    names: &[Text],
    sender: usize,
    posts: &[Post],
    events: &mut Vec<Vec<PostEvent>>,
) -> Result<(), Memory>
    requires apart { IsDistinct bytes_eq names.now }
    requires slots { length events.old.items ≡ length names.now }
    requires sender { sender < length names.now }
    ensures slots { length events.new.items ≡ length events.old.items }
    ensures news { OnOk result ((w : ℕ) → w < length names.now →
        slice_index_or (map (λ v. values v.items) events.new.items) w []
        ≡ slice_index_or (map (λ v. values v.items) events.old.items) w [] ++ sent channels.now names.now sender w
        posts.now) }
{
    'posts: for post in posts {
        if let Some(receiver) = receiver_of(channels, names, sender, &post.to) {
            let value = value_text(alloc, &names[sender], &post.text)?;
            push_event(events, receiver, PostEvent { value })?;
        }
    }
    Ok(())
}

// One event more for a slot.
fn push_event(
    events: &mut Vec<Vec<PostEvent>>,
    receiver: usize,
    event: PostEvent,
) -> Result<(), Memory>
    requires { receiver < length events.old.items }
    ensures slots { length events.new.items ≡ length events.old.items }
    ensures news { OnOk result (map (λ v. values v.items) events.new.items
        ≡ slice_set (map (λ v. values v.items) events.old.items) receiver
        (slice_index_or (map (λ v. values v.items) events.old.items) receiver [] ++ event.value ∷ [])) }
{
    Ok(events[receiver].push(event)?)
}

// The slot that gets a sender's post to this name.
#[tactic(auto, using(crate::proofs::Receiving::unnamed, crate::proofs::Receiving::within))]
fn receiver_of(channels: &[(u32, u32)], names: &[Text], sender: usize, to: &Text) -> Option<usize>
    requires { IsDistinct bytes_eq names.now }
    ensures within { IfSome result (λ w. w < length names.now) }
    ensures receiver { (w : ℕ) → w < length names.now
        → is_received channels.now names.now sender w to.now ≡ is_at result w }
{
    let receiver = place_of(names, to)?;
    if is_channel(channels, sender, receiver) {
        Some(receiver)
    } else {
        None
    }
}

// The slot of this name.
fn place_of(names: &[Text], to: &Text) -> Option<usize>
    ensures { result ≡ position (is_named to.now) names.now }
{
    names.iter().position(|name| *name == *to)
}

// The pair of these slots is a channel.
fn is_channel(channels: &[(u32, u32)], sender: usize, receiver: usize) -> bool
    ensures { result ≡ is_declared channels.now sender receiver }
{
    channels.iter().any(|channel| channel.0 as usize == sender && channel.1 as usize == receiver)
}

// The value of an event: the sender's name, a space and the text.
fn value_text(alloc: Global, name: &Text, text: &Text) -> Result<Text, Memory>
    ensures { IfOk result (λ value. value ≡ name.now ++ 32 ∷ text.now) }
{
    let mut units = Vec::new(alloc);
    units.extend_from_slice(name.units())?;
    units.push(u16::from(b' '))?;
    units.extend_from_slice(text.units())?;
    Text::from_units(alloc, units)
}
