//! A life comes to a host that was loaded, and waits for its swap.
ghost use Rattle.std.specs.Prelude.{ℕ, ◌<◌, ◌≤◌, OnErr, OnOk, map};
ghost use Rattle.js_names.specs.Code.{tree_in};
ghost use Rattle.plain_tree.specs.Plains.{unplaced};
ghost use Rattle.page_build.specs.Homes.{HaveRaws};
ghost use Rattle.slot_picks.specs.Fine.{most_fuel};
ghost use Rattle.slot_picks.specs.Lives.{FineLives};
ghost use Rattle.page_load.specs.declared.codes.Scripts.{Scripts as ScriptsOf};
ghost use Rattle.page_load.specs.Joining.{Comes, HasSeat, IsFree, KeepsRest};
ghost use Rattle.page_load.specs.Lives.{IsReady};
ghost use Rattle.page_load.specs.Seating.{SeatsDiv, SeatsLife};

use crate::codes::scripts_with;
use crate::lives::{make_lib, no_place, waiting_place};
use code_units::Memory;
use js_names::Code;
use keyed_names::Keys;
use page_build::{add_spare_div, add_spare_root};
use page_plan::SlotContent;
use plain_tree::Plain;
use slot_picks::{Lives, Place, Slot};
use std::alloc::Global;

/// A life that comes: the slot that it is of, its number, and what its file gives.
#[derive(Drop)]
pub struct Coming {
    pub to: u32,
    pub v: u32,
    pub content: SlotContent,
}

// A life that is ready comes into its place, with this tree.
fn add_accepted(
    alloc: Global,
    lives: &mut Lives,
    v: u32,
    place: Place,
    body: &Plain,
) -> Result<(), Memory>
    requires number { v < 20 }
    requires free { IsFree v lives.old }
    requires fine { FineLives lives.old }
    requires raws { HaveRaws lives.old.shared.store lives.old.shared.page }
    requires ready { (fuel : ℕ) × (s : ScriptsOf) × (fuel ≤ most_fuel) × IsReady v fuel s place }
    ensures comes { OnOk result (SeatsLife v (unplaced body.now) place lives.old lives.new) }
    ensures seat { OnErr result (HasSeat v lives.old lives.new) }
    ensures keeps { KeepsRest v lives.old lives.new }
{
    let mut place = place;
    place.root = add_spare_root(
        alloc,
        &mut lives.shared.store,
        &mut lives.shared.page,
        v,
        body,
    )?;
    match make_lib(alloc, &mut lives.shared.store, v) {
        Ok(lib) => {
            place.life.lib = lib;
            lives.places[v as usize] = place;
            Ok(())
        }
        Err(fault) => {
            lives.places[v as usize] = place;
            Err(fault)
        }
    }
}

// A life whose file was refused comes into its place.
fn add_refused(
    alloc: Global,
    keys: Keys,
    lives: &mut Lives,
    slot: &Slot,
    to: u32,
    v: u32,
) -> Result<(), Memory>
    requires number { v < 20 }
    requires free { IsFree v lives.old }
    requires fine { FineLives lives.old }
    requires raws { HaveRaws lives.old.shared.store lives.old.shared.page }
    ensures comes { OnOk result (SeatsDiv v to slot.now.name lives.old lives.new) }
    ensures seat { OnErr result (HasSeat v lives.old lives.new) }
    ensures keeps { KeepsRest v lives.old lives.new }
{
    let mut place = no_place(alloc, keys, v)?;
    place.life.slot = to;
    place.root = add_spare_div(
        alloc,
        &mut lives.shared.store,
        &mut lives.shared.page,
        &slot.name,
    )?;
    lives.places[v as usize] = place;
    Ok(())
}

/// A life of a slot comes and waits: its root stands under nothing, it has the trees of its own scripts, over
/// the libraries of the page, the object `lib`, and the queue of its load turns. Where its file was refused it
/// is not accepted, and an empty `div` with the slot's name as `id` stands under nothing. Want of memory leaves
/// the place free, or the life without the object `lib`; so it is also answered where a library is not there,
/// which no judged content has.
pub fn add_life(
    alloc: Global,
    keys: Keys,
    lives: &mut Lives,
    libs: &[Code],
    slot: &Slot,
    coming: Coming,
) -> Result<(), Memory>
    requires number { coming.v < 20 }
    requires free { IsFree coming.v lives.old }
    requires fuel { slot.now.fuel ≤ most_fuel }
    requires fine { FineLives lives.old }
    requires raws { HaveRaws lives.old.shared.store lives.old.shared.page }
    ensures comes { OnOk result (Comes (map tree_in libs.now) slot.now coming lives.old lives.new) }
    ensures seat { OnErr result (HasSeat coming.v lives.old lives.new) }
    ensures keeps { KeepsRest coming.v lives.old lives.new }
{
    let Coming { to, v, content } = coming;
    match content {
        SlotContent::Runs {
            body,
            libs: places,
            script,
        } => {
            let scripts = scripts_with(alloc, libs, &places, script)?;
            let mut place = waiting_place(alloc, keys, v, slot.fuel, scripts)?;
            place.life.slot = to;
            add_accepted(alloc, lives, v, place, &body)
        }
        SlotContent::Refused => add_refused(alloc, keys, lives, slot, to, v),
    }
}
