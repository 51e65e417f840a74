//! The names with which a certificate has the cells of lives.
ghost use Rattle.std.specs.Prelude.{◌≡◌, IfOk, option_copied};
ghost use Rattle.life_laws.specs.Chains.{last_life};
ghost use Rattle.slot_reach.specs.Lasts.{name_in, names_before};

use code_units::{Memory, Text};
use slot_picks::Slot;
use std::alloc::Global;

/// The last life of a slot.
pub(crate) fn last_of(lives: &[u32]) -> u32
    ensures { result ≡ last_life lives.now }
{
    if lives.is_empty() {
        return 0;
    }
    lives[lives.len() - 1]
}

// The name of the slot in which a life is the last one.
fn name_in(slots: &[Slot], v: u32) -> Option<&Text>
    ensures { option_copied result ≡ name_in slots.now v }
{
    'each: for slot in slots {
        if last_of(&slot.lives) == v {
            return Some(&slot.name);
        }
    }
    None
}

// The same name for a second holder.
fn shared(name: Option<&Text>) -> Result<Option<Text>, Memory>
    ensures { IfOk result (λ r. r ≡ option_copied name.entry) }
{
    match name {
        Some(name) => Ok(Some(name.share()?)),
        None => Ok(None),
    }
}

/// The names of the first so many lives.
pub(crate) fn name_all(
    alloc: Global,
    slots: &[Slot],
    count: u32,
) -> Result<Vec<Option<Text>>, Memory>
    ensures { IfOk result (λ names. names.items ≡ names_before slots.now count) }
{
    let mut names = Vec::new(alloc);
    'lives: for v in 0..count {
        names.push(shared(name_in(slots, v))?)?;
    }
    Ok(names)
}
