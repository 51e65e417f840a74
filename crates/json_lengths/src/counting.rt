//! The length of a list on a tape, which holds the tokens of a text.
ghost use Rattle.std.specs.Prelude.{◌≡◌, IfSome, Some};
ghost use Rattle.json.specs.Find.{BeginsWith, InItems, get};
ghost use Rattle.json.specs.Json as grammar;
ghost use Rattle.json_lengths.specs.Lengths.{items_length};

use json::{Items, Tape};

/// The length of the list under a key. Of a key that stands twice the last value counts.
pub(crate) fn length_in(tape: &Tape<'_>, key: &str) -> Option<usize>
    ensures { IfSome result (λ length. (j : grammar.Json) → BeginsWith tape.now j →
        (js : grammar.Items) × (get key.now j ≡ Some (grammar.array js)) × (length ≡ items_length js)) }
{
    let list = tape.root().get(key)?;
    let items = list.items()?;
    let length = count(items)?;
    Some(length)
}

fn count(items: Items<'_, '_>) -> Option<usize>
    ensures { IfSome result (λ length. (js : grammar.Items) → InItems items.entry js → length ≡ items_length js) }
{
    let mut items = items;
    let mut length = 0_usize;
    'items: while let Some(_) = items.next() {
        length = length.checked_add(1)?;
    }
    Some(length)
}
