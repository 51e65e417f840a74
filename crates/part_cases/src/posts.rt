//! What each slot gets of a round of posts, as the units of its events; and the lives of each slot.
ghost use Rattle.std.specs.Prelude.{◌≡◌, IfOk};

use crate::answer::Answer;
use code_units::{Memory, Text, push_ascii};
use life_split::{LifeItem, lives};
use post_rounds::{Post, PostEvent, round};
use std::alloc::Global;

/// What a call gives.
pub fn answer_of_posts(alloc: Global, call: &str) -> Option<Answer> {
    match call {
        "round" => Some(Answer::Text(one_round(alloc).ok()?)),
        "lives" => three_lives(alloc),
        _ => None,
    }
}

// The lives of two slots, the first of which is swapped.
fn three_lives(alloc: Global) -> Option<Answer> {
    let lives = lives(
        alloc,
        2,
        &[LifeItem::To(0), LifeItem::Swap(0), LifeItem::All],
    )
    .ok()?;
    Some(Answer::Text(format!(in alloc; "{lives:?}\n").ok()?))
}

// Slot 0 posts `hi` to slot 1, and the one channel leads from 0 to 1.
fn one_round(alloc: Global) -> Result<String, Memory> {
    let names = vec![in alloc; text_of(alloc, b"S_")?, text_of(alloc, b"R_")?]?;
    let post = Post {
        to: text_of(alloc, b"R_")?,
        text: text_of(alloc, b"hi")?,
    };
    let fresh = vec![in alloc; vec![in alloc; post]?, Vec::new(alloc)]?;
    let events = round(alloc, &[(0, 1)], &names, &fresh)?;
    written(alloc, &events)
}

// The units of the events of each slot, a line each.
fn written(alloc: Global, events: &[Vec<PostEvent>]) -> Result<String, Memory> {
    let mut text = String::new(alloc);
    for list in events {
        for event in list {
            write!(text, "{:?}", event.value.units())?;
        }
        text.push_str("\n")?;
    }
    Ok(text)
}

// A text of ASCII bytes.
fn text_of(alloc: Global, bytes: &[u8]) -> Result<Text, Memory>
    ensures { IfOk result (λ text. text ≡ bytes.now) }
{
    let mut units = Vec::new(alloc);
    push_ascii(&mut units, bytes)?;
    Text::from_units(alloc, units)
}
