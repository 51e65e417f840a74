//! The queue of a life, until a turn begins.
ghost use Rattle.std.specs.Prelude.{◌≡◌, ◌+◌, ◌<◌, ◌^◌, IfOk, None, OnErr, OnOk};
ghost use Rattle.life_laws.specs.Life.{potential};
ghost use Rattle.life_queue.specs.Lives.{trees_in, work_of};
ghost use Rattle.life_queue.specs.Fine.{FineLife, FineWork, KeepsLife, tally};
ghost use Rattle.life_queue.specs.Taken.{BeginsTurn, Takes};

use crate::events::take_event;
use crate::life::{Life, Work};
use crate::works::{take_advance, take_go, take_library, take_until};
use code_units::Memory;
use native_image::{Shared, WidgetId};
use std::alloc::Global;

// One work.
fn take_work(
    alloc: Global,
    shared: &mut Shared,
    id: WidgetId,
    life: &mut Life,
    work: Work,
) -> Result<(), Memory>
    requires rests { life.old.turn ≡ None }
    requires fine { FineLife shared.old id.index life.old }
    requires script { FineWork (trees_in shared.old) work }
    requires room { tally shared.old id.index life.old + potential (work_of (trees_in shared.old) work) < 2 ^ 32 }
    ensures taken { OnOk result (Takes shared.old shared.new id.index work life.old life.new) }
    ensures kept { KeepsLife id.index shared.old shared.new life.old life.new }
    ensures none { OnErr result (life.new.turn ≡ None) }
{
    match work {
        Work::Library(script) => take_library(alloc, shared, id, life, &script),
        Work::Go(script) => take_go(alloc, shared, id, life, &script),
        Work::Event(event) => take_event(alloc, shared, id, life, event),
        Work::Advance(ms) => take_advance(alloc, shared, id, life, ms),
        Work::Until(turns, limit) => take_until(alloc, shared, id, life, (turns, limit)),
    }
}

/// Works leave the queue of a life between turns until one begins a turn. It answers whether one did;
/// else the queue is empty.
pub fn begin_turn(
    alloc: Global,
    shared: &mut Shared,
    id: WidgetId,
    life: &mut Life,
) -> Result<bool, Memory>
    requires rests { life.old.turn ≡ None }
    requires fine { FineLife shared.old id.index life.old }
    ensures begun { IfOk result (λ b. BeginsTurn shared.old shared.new id.index b life.old life.new) }
    ensures kept { KeepsLife id.index shared.old shared.new life.old life.new }
    ensures none { OnErr result (life.new.turn ≡ None) }
{
    'queue: while let Some(work) = life.queue.pop_front() {
        take_work(alloc, shared, id, life, work)?;
        if life.turn.is_some() {
            return Ok(true);
        }
    }
    Ok(false)
}
