//! A pick of a life.
ghost use Rattle.std.specs.Prelude.{◌≡◌, ◌<◌, ◌≤◌, IfOk, None, OnErr, OnOk, is_some, true};
ghost use Rattle.widget_meaning.specs.OwnState.{State};
ghost use Rattle.widget_meaning.specs.Turns.{end_turn};
ghost use Rattle.life_queue.specs.Lives.{own_of};
ghost use Rattle.life_queue.specs.Fine.{FineLife, KeepsLife};
ghost use Rattle.turn_steps.specs.Turning.{FineEnd, end_of};
ghost use Rattle.life_picks.specs.Picking.{PicksLife, spent_to};

use crate::notes::note;
use code_units::Memory;
use js_flow::Completion;
use life_laws::Picked;
use life_queue::{Life, Turn, begin_turn};
use native_image::Shared;
use std::alloc::Global;
use turn_steps::{Ran, TurnEnd, run_turn};

// The end of a turn: what it spent is counted, a throw that was not caught is noted, and a stop is kept.
fn close(
    alloc: Global,
    shared: &mut Shared,
    life: &mut Life,
    how: TurnEnd,
    left: u32,
) -> Result<(), Memory>
    requires rest { life.old.turn ≡ None }
    requires left { left ≤ life.old.grant }
    requires fine { FineLife shared.old life.old.widget.id.index (spent_to left life.old) }
    requires held { FineEnd life.old.widget.id.index shared.old.store.cells how }
    ensures own { OnOk result ((s : State) → s.own ≡ own_of shared.old life.old.widget.id.index life.old
        → own_of shared.new life.old.widget.id.index life.new
        ≡ end_turn (end_of life.old.widget.id.index shared.old.store.cells how) s
        (own_of shared.old life.old.widget.id.index (spent_to left life.old))) }
    ensures fine { OnOk result (FineLife shared.new life.old.widget.id.index life.new) }
    ensures kept { KeepsLife life.old.widget.id.index shared.old shared.new life.old life.new }
    ensures rest { life.new.turn ≡ None }
    ensures queue { life.new.queue ≡ life.old.queue }
{
    life.records.spent += u64::from(life.grant - left);
    let id = life.widget.id;
    match how {
        TurnEnd::Over(Completion::Throw(value)) => note(alloc, shared, id, life, &value),
        TurnEnd::Over(_) => Ok(()),
        TurnEnd::Stop(stop) => {
            life.records.stop = Some(stop);
            Ok(())
        }
    }
}

// A turn that is over, or that cannot go on, is dropped.
fn drop_turn(place: &mut Option<Turn>)
    ensures { place.new ≡ None }
{
    *place = None;
}

// The turn of a life is carried on in its place, for so many units.
fn go_on(alloc: Global, shared: &mut Shared, life: &mut Life, units: u32) -> Result<Picked, Memory>
    requires units { 0 < units }
    requires running { is_some life.old.turn ≡ true }
    requires fine { FineLife shared.old life.old.widget.id.index life.old }
    ensures picked { IfOk result
        (λ r. PicksLife shared.old shared.new life.old.widget.id.index units r life.old life.new) }
    ensures kept { KeepsLife life.old.widget.id.index shared.old shared.new life.old life.new }
    ensures none { OnErr result (life.new.turn ≡ None) }
{
    let Some(turn) = &mut life.turn else {
        unreachable!()
    };
    let came = run_turn(shared, &mut life.widget, turn, units);
    let left = turn.left;
    let Ok(ran) = came else {
        drop_turn(&mut life.turn);
        return Err(Memory);
    };
    match ran {
        Ran::Cut => {
            let spent = life.records.spent + u64::from(life.grant - left);
            Ok(Picked::Unfinished { spent })
        }
        Ran::Ended(how, left) => {
            drop_turn(&mut life.turn);
            close(alloc, shared, life, how, left)?;
            Ok(Picked::Ended)
        }
    }
}

/// Carries the turn of a life on, or the first that its queue begins, until the units are spent or the
/// turn is over. `Idle` exactly where no turn is in progress and the queue begins none; `Unfinished`
/// exactly where the turn is not over and spent at least so many units; else `Ended`. After want of memory
/// the turn is dropped.
pub fn pick_life(
    alloc: Global,
    shared: &mut Shared,
    life: &mut Life,
    units: u32,
) -> Result<Picked, Memory>
    requires units { 0 < units }
    requires fine { FineLife shared.old life.old.widget.id.index life.old }
    ensures picked { IfOk result
        (λ r. PicksLife shared.old shared.new life.old.widget.id.index units r life.old life.new) }
    ensures kept { KeepsLife life.old.widget.id.index shared.old shared.new life.old life.new }
    ensures none { OnErr result (life.new.turn ≡ None) }
{
    if life.turn.is_some() {
        return go_on(alloc, shared, life, units);
    }
    let id = life.widget.id;
    let begun = begin_turn(alloc, shared, id, life)?;
    if begun {
        return go_on(alloc, shared, life, units);
    }
    Ok(Picked::Idle)
}
