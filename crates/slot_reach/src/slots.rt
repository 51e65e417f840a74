//! The blocks of all slots.
ghost use Rattle.std.specs.Prelude.{◌≡◌, ◌<◌, IfOk, length, map};
ghost use Rattle.reach_cert.specs.Certs.{cert_lines, plain, slot_of};
ghost use Rattle.reach_cert.specs.Shape.{IsCert, slot_name};
ghost use Rattle.reach_cert.specs.Walks.{IsConfined};
ghost use Rattle.slot_picks.specs.Lives.{AreStanding, OwnLives};
ghost use Rattle.slot_reach.specs.Lasts.{AreFew, AreNames, life_read, names_of, reached, slot_read, states};
ghost use Rattle.slot_reach.specs.States.{cert_of_states};

use crate::blocks::read_block;
use crate::few::cells_are_few;
use crate::names::{last_of, name_all};
use crate::state_laws::{names_all_differ, states_are_read};
use crate::store_laws::own_stays;
use code_units::{Memory, Text};
use native_image::Shared;
use reach_cert::{Block, Cert, confined_has_shape, each_slot_keeps_in};
use slot_picks::{Lives, Place, Slot};
use std::alloc::Global;

// The block of a life, of a slot with this name.
fn read_life(
    alloc: Global,
    shared: &Shared,
    names: &[Option<Text>],
    name: &Text,
    v: u32,
    place: &Place,
) -> Result<Block, Memory>
    ensures { IfOk result (λ b. slot_of b ≡ life_read names.now shared.now name.now v place.now) }
{
    if !place.life.accepted {
        return Ok(Block::Refused(name.share()?));
    }
    read_block(
        alloc,
        &shared.store,
        names,
        name,
        v,
        &shared.page,
        &place.life.widget.around,
    )
}

// The block of a slot.
fn read_slot(
    alloc: Global,
    lives: &Lives,
    names: &[Option<Text>],
    slot: &Slot,
) -> Result<Block, Memory>
    ensures { IfOk result (λ b. slot_of b ≡ slot_read names.now lives.now slot.now) }
{
    let v = last_of(&slot.lives);
    match lives.places.get(v as usize) {
        Some(place) => read_life(alloc, &lives.shared, names, &slot.name, v, place),
        None => Ok(Block::Refused(slot.name.share()?)),
    }
}

// The blocks of all slots.
fn read_slots(
    alloc: Global,
    lives: &Lives,
    names: &[Option<Text>],
    slots: &[Slot],
) -> Result<Vec<Block>, Memory>
    ensures { IfOk result (λ blocks. map slot_of blocks.items ≡ map (slot_read names.now lives.now) slots.now) }
{
    let mut blocks = Vec::new(alloc);
    'each: for slot in slots {
        blocks.push(read_slot(alloc, lives, names, slot)?)?;
    }
    Ok(blocks)
}

// How many lives there are places for.
fn count(lives: &Lives) -> Result<u32, Memory>
    ensures { IfOk result (λ n. n ≡ length lives.now.places.items) }
{
    match u32::try_from(lives.places.len()) {
        Ok(many) => Ok(many),
        Err(_) => Err(Memory),
    }
}

/// The certificate of reach of all slots, read off the store, the page and what lives hold beside them: each
/// slot with its last life. Each reference is told by the cell to which it leads, whoever that belongs to.
/// Where each life holds its own, this is the certificate of the own states of these lives, and it is confined.
/// Of at most 16 slots it has few lines; and it is of the stated shape where the slots have names of slots, so
/// that its text is read as it.
pub fn reach(alloc: Global, lives: &Lives, slots: &[Slot]) -> Result<Cert, Memory>
    ensures read { IfOk result (λ cert. plain cert ≡ reached lives.now slots.now) }
    ensures states { IfOk result (λ cert. OwnLives lives.now → AreStanding lives.now slots.now
        → plain cert ≡ cert_of_states (states lives.now slots.now)) }
    ensures confined { IfOk result (λ cert. OwnLives lives.now → AreStanding lives.now slots.now
        → IsConfined (plain cert)) }
    ensures names { IfOk result (λ cert. map slot_name (plain cert) ≡ names_of slots.now) }
    ensures few { IfOk result (λ cert. AreStanding lives.now slots.now → AreFew lives.now slots.now
        → length (cert_lines (plain cert)) < 4294967295) }
    ensures shape { IfOk result (λ cert. OwnLives lives.now → AreStanding lives.now slots.now
        → AreFew lives.now slots.now → AreNames (names_of slots.now) → IsCert (plain cert)) }
{
    names_all_differ(&lives.shared.store)?;
    states_are_read(&lives.shared.store);
    own_stays(&lives.shared.store);
    cells_are_few(&lives.shared.store);
    each_slot_keeps_in();
    confined_has_shape();
    let names = name_all(alloc, slots, count(lives)?)?;
    let blocks = read_slots(alloc, lives, &names, slots)?;
    Ok(Cert { blocks })
}
