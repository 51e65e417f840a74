//! A page becomes what its host begins with.
ghost use Rattle.std.specs.Prelude.{◌≡◌, ◌≤◌, ◌∷◌, [], IfOk, length, map};
ghost use Rattle.slot_picks.specs.declared.slots.Slot.{Slot as SlotOf};
ghost use Rattle.slot_picks.specs.Fine.{most_fuel};
ghost use Rattle.slot_picks.specs.Lives.{chains_of};
ghost use Rattle.page_load.specs.Homes.{fuels_of, names_of};
ghost use Rattle.page_load.specs.Loads.{HaveFewFuel, LoadsPage, singles};

use crate::codes::{library_codes, starts_of};
use crate::laying::{Base, lay_pieces};
use crate::lives::{MOST_FUEL, places_of};
use code_units::Memory;
use js_names::Code;
use keyed_names::Keys;
use native_image::Shared;
use page_plan::{PageSpec, SlotSpec};
use slot_picks::{Lives, Slot};
use std::alloc::Global;
use std::collections::VecDeque;

/// What a host begins with.
#[derive(Drop)]
pub struct Loaded {
    /// The store and the page, and twenty places, each with the life whose number it is: the first life of each slot in
    /// order, with the trees of its own scripts, and behind them the rest, which are not accepted. No trees are
    /// shared, and no pick was made.
    pub lives: Lives,
    /// The slots in order, each with its first life.
    pub slots: Vec<Slot>,
    /// The trees of the libraries, for the scripts of lives that come later.
    pub libs: Vec<Code>,
    /// The pairs of slots between which posts go.
    pub channels: Vec<(u32, u32)>,
}

// A slot with one life.
fn slot_of(alloc: Global, slot: &SlotSpec, life: u32) -> Result<Slot, Memory>
    ensures name { IfOk result (λ s. s.name ≡ slot.now.name) }
    ensures fuel { IfOk result (λ s. s.fuel ≡ slot.now.fuel) }
    ensures few { IfOk result (λ s. s.fuel ≤ most_fuel) }
    ensures lives { IfOk result (λ s. s.lives.items ≡ life ∷ []) }
{
    if slot.fuel > MOST_FUEL {
        return Err(Memory);
    }
    let mut lives = Vec::new(alloc);
    lives.push(life)?;
    Ok(Slot {
        name: slot.name.share()?,
        fuel: slot.fuel,
        lives,
    })
}

// The slots, each with the life of its number.
fn slots_of(alloc: Global, specs: &[SlotSpec]) -> Result<Vec<Slot>, Memory>
    requires few { length specs.now ≤ 16 }
    ensures names { IfOk result (λ slots. map (λ (s : SlotOf). s.name) slots.items ≡ names_of specs.now) }
    ensures fuels { IfOk result (λ slots. map (λ (s : SlotOf). s.fuel) slots.items ≡ fuels_of specs.now) }
    ensures few { IfOk result (λ slots. HaveFewFuel slots.items) }
    ensures chains { IfOk result (λ slots. chains_of slots.items ≡ singles 0 (length specs.now)) }
{
    let mut slots = Vec::with_capacity(alloc, specs.len())?;
    'slots: for w in 0..specs.len() {
        slots.push(slot_of(alloc, &specs[w], w as u32)?)?;
    }
    Ok(slots)
}

/// Builds the page, piece by piece, and gives each accepted widget the object `lib`, the trees of its own
/// scripts, of which those of libraries stand once for all widgets, and the queue of its load turns: one for
/// each of its libraries in the order of its scripts, and that of the `go` function. All tables hash by these
/// keys. What no judged page has is answered like want of memory: more than 16 slots, a slot that does not
/// stand once among the pieces, in order, a library that is not there, more fuel than a turn may have.
pub fn load_page(alloc: Global, keys: Keys, spec: PageSpec) -> Result<Loaded, Memory>
    ensures { IfOk result (LoadsPage spec) }
{
    if spec.slots.len() > 16 {
        return Err(Memory);
    }
    let Base { store, page, roots } = lay_pieces(alloc, keys, &spec.pieces, &spec.slots)?;
    let slots = slots_of(alloc, &spec.slots)?;
    let libs = library_codes(alloc, spec.libs)?;
    let starts = starts_of(alloc, &libs, spec.slots)?;
    let mut shared = Shared {
        alloc,
        store,
        page,
        codes: Vec::new(alloc),
    };
    let places = places_of(alloc, keys, &mut shared, &roots, starts)?;
    Ok(Loaded {
        lives: Lives {
            shared,
            places,
            journal: VecDeque::new(alloc),
        },
        slots,
        libs,
        channels: spec.channels,
    })
}
