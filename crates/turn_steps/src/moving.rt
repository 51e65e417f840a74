//! A turn goes on: a task takes its steps, a native is carried out, or a dispatch begins.
ghost use Rattle.std.specs.Prelude.{◌≡◌, ◌<◌, ◌≤◌, IfOk, List, OnOk, false, length, true};
ghost use Rattle.std.specs.Global.{Box as BoxOf};
ghost use Rattle.js_tree.specs.Forest.{Forest};
ghost use Rattle.js_image.specs.declared.outcome.StopCause.{StopCause};
ghost use Rattle.turn_dispatch.specs.Ending.{FineEnd};
ghost use Rattle.js_flow.specs.Todo.{Follows};
ghost use Rattle.turn_dispatch.specs.Answered.{IsFineAfter, machine};
ghost use Rattle.turn_dispatch.specs.Task.{Task as TaskOf};
ghost use Rattle.native_image.specs.Sound.{IsSound};
ghost use Rattle.turn_dispatch.specs.Held.{FineDoing};
ghost use Rattle.turn_dispatch.specs.declared.level.Doing.TheVariants as doing;
ghost use Rattle.turn_dispatch.specs.Took.{StaysSound};
ghost use Rattle.turn_dispatch.specs.Waiting.{FineLevels};
ghost use Rattle.turn_steps.specs.Keeping.{Keeps};
ghost use Rattle.turn_steps.specs.Steps.{IsBegun, IsFollowed, IsGiven, IsMoved, IsStepped, is_open, is_short, runs};
ghost use Rattle.turn_steps.specs.Turning.{FineTurn, FineWidget, forests};

use crate::carrying::carry;
use code_units::Memory;
use js_flow::Completion;
use js_values::Meter;
use native_image::{Shared, Widget, WidgetId};
use object_store::Store;
use std::alloc::Global;
use std::mem;
use turn_dispatch::{
    Calls, Doing, Hearing, Level, Site, Stepped, Stop, Task, Turn, call_handler, give, stride,
};

/// What a turn does after a step, and whether the step wanted fuel that is not there.
#[derive(Drop)]
pub(crate) struct Moved {
    pub doing: Doing,
    pub is_short: bool,
}

// Whether what a task is at wants fuel that is not there: the units are used up, or all that was left.
fn is_short(stepped: &Stepped) -> bool
    ensures { result ≡ is_short stepped.now }
{
    matches!(stepped, Stepped::Went | Stepped::Stop(Stop::Fuel))
}

// What a turn does is taken out.
pub(crate) fn take(place: &mut Doing) -> Doing
    ensures { result ≡ place.old }
{
    mem::replace(place, Doing::Over(Completion::Normal))
}

// What a turn does next. The old one was taken out, so there is nothing to end.
fn put(place: &mut Doing, doing: Doing)
    ensures { place.new ≡ doing }
{
    mem::forget(mem::replace(place, doing));
}

// The task of a turn is taken out.
fn take_task(place: &mut Doing) -> Box<Task>
    requires { runs place.old ≡ true }
    ensures { (t : BoxOf TaskOf) → place.old ≡ doing.Runs t → result ≡ t }
{
    match take(place) {
        Doing::Runs(task) => task,
        _ => unreachable!(),
    }
}

// How a call ended is given to what waits.
fn give_on(
    alloc: Global,
    store: &mut Store,
    site: &Site,
    calls: &mut Calls,
    how: Completion,
) -> Result<Doing, Memory>
    requires sound { IsSound site.now.id.index store.old site.now.page.now site.now.around.now }
    requires levels { (fs : List Forest)
        × FineLevels fs site.now.id.index store.old.cells site.now.page.now calls.old.levels.items }
    requires how { FineEnd site.now.id.index store.old.cells how }
    ensures given { IfOk result
        (IsGiven site.now.id.index site.now.page.now site.now.around.now store.old store.new calls.old calls.new how) }
    ensures kept { StaysSound site.now.id.index site.now.page.now store.old store.new }
{
    let doing = give(alloc, store, site, calls, how)?;
    Ok(doing)
}

// What a stop comes to: where fuel is wanting the task is as it was.
fn stopped(task: Box<Task>, stop: Stop) -> Doing
    ensures due { (c : StopCause) → stop ≡ Stop.Due c → result ≡ doing.Stop c }
    ensures fuel { stop ≡ Stop.Fuel → result ≡ doing.Runs task }
{
    match stop {
        Stop::Due(cause) => Doing::Stop(cause),
        Stop::Fuel => Doing::Runs(task),
    }
}

/// What an answer of a task comes to.
pub(crate) fn follow(
    alloc: Global,
    store: &mut Store,
    site: &Site,
    calls: &mut Calls,
    task: Box<Task>,
    stepped: Stepped,
) -> Result<Doing, Memory>
    requires sound { IsSound site.now.id.index store.old site.now.page.now site.now.around.now }
    requires levels { (fs : List Forest)
        × FineLevels fs site.now.id.index store.old.cells site.now.page.now calls.old.levels.items
        × IsFineAfter fs site.now.id.index store.old task.value stepped }
    requires follows { Follows (machine stepped) task.value.control }
    ensures followed { IfOk result
        (IsFollowed site.now.id.index site.now.page.now site.now.around.now store.old store.new calls.old calls.new
        task.value stepped) }
    ensures kept { StaysSound site.now.id.index site.now.page.now store.old store.new }
{
    match stepped {
        Stepped::Went => Ok(Doing::Runs(task)),
        Stepped::Native(native) => Ok(Doing::Native(task, native)),
        Stepped::Done(value) => give_on(alloc, store, site, calls, Completion::Is(value)),
        Stepped::Threw(value) => give_on(alloc, store, site, calls, Completion::Throw(value)),
        Stepped::Stop(stop) => Ok(stopped(task, stop)),
    }
}

// Whether a task takes steps.
fn runs(doing: &Doing) -> bool
    ensures { result ≡ runs doing.now }
{
    matches!(doing, Doing::Runs(_))
}

// A task is carried on in its place, for so many units of the turn's fuel; where it waits or is over, that is followed.
fn run_task(
    shared: &mut Shared,
    widget: &Widget,
    turn: &mut Turn,
    units: u32,
) -> Result<bool, Memory>
    requires widget { FineWidget shared.old widget.now }
    requires runs { runs turn.old.doing ≡ true }
    requires turn { FineTurn shared.old widget.now.id.index turn.old }
    ensures stepped { IfOk result (IsStepped units shared.old shared.new widget.now widget.now turn.old turn.new) }
    ensures fine { OnOk result (FineWidget shared.new widget.now) }
    ensures kept { Keeps shared.old shared.new widget.now widget.now }
{
    let Doing::Runs(task) = &mut turn.doing else {
        unreachable!()
    };
    let mut meter = Meter::new(turn.left, 0);
    let stepped = stride(
        shared.alloc,
        &shared.codes,
        &mut shared.store,
        task,
        &mut meter,
        units,
    )?;
    turn.left = meter.left();
    if is_short(&stepped) {
        return Ok(true);
    }
    let task = take_task(&mut turn.doing);
    let site = Site {
        id: widget.id,
        page: &shared.page,
        around: &widget.around,
    };
    let doing = follow(
        shared.alloc,
        &mut shared.store,
        &site,
        &mut turn.calls,
        task,
        stepped,
    )?;
    put(&mut turn.doing, doing);
    Ok(false)
}

// The first handler of a dispatch is called; the unit of the dispatch is that of the call.
fn begin(
    alloc: Global,
    w: WidgetId,
    calls: &mut Calls,
    hearing: Box<Hearing>,
) -> Result<Doing, Memory>
    requires { 0 < length hearing.value.handlers.items }
    ensures { IfOk result (IsBegun w.index calls.old calls.new hearing.value) }
{
    let task = call_handler(alloc, w, &hearing, 0)?;
    calls.levels.push(Level::Hears(hearing, 1))?;
    Ok(Doing::Runs(task))
}

// A native is carried out, or the first handler of a dispatch is called.
fn advance(
    shared: &mut Shared,
    widget: &mut Widget,
    calls: &mut Calls,
    doing: Doing,
    meter: &mut Meter,
) -> Result<Moved, Memory>
    requires widget { FineWidget shared.old widget.old }
    requires open { is_open doing ≡ true }
    requires other { runs doing ≡ false }
    requires doing { FineDoing (forests shared.old) widget.old.id.index shared.old.store shared.old.page doing }
    requires levels { FineLevels
        (forests shared.old) widget.old.id.index shared.old.store.cells shared.old.page calls.old.levels.items }
    ensures moved { IfOk result
        (IsMoved shared.old shared.new widget.old widget.new calls.old calls.new meter.old meter.new doing) }
    ensures fine { OnOk result (FineWidget shared.new widget.new) }
    ensures kept { Keeps shared.old shared.new widget.old widget.new }
{
    match doing {
        Doing::Native(task, native) => carry(shared, widget, calls, (task, native), meter),
        Doing::Hears(hearing) => {
            let doing = begin(shared.alloc, widget.id, calls, hearing)?;
            Ok(Moved {
                doing,
                is_short: false,
            })
        }
        Doing::Runs(_) => unreachable!(),
        Doing::Over(_) => unreachable!(),
        Doing::Stop(_) => unreachable!(),
    }
}

// What a native may take: what is left, or nothing where the units are used up.
fn granted(left: u32, units: u32) -> u32
    ensures none { units ≡ 0 → result ≡ 0 }
    ensures all { 0 < units → result ≡ left }
    ensures less { result ≤ left }
{
    if units == 0 {
        return 0;
    }
    left
}

// A turn in which no task takes steps, and that is not over, goes on.
fn pass_on(
    shared: &mut Shared,
    widget: &mut Widget,
    turn: &mut Turn,
    units: u32,
) -> Result<bool, Memory>
    requires widget { FineWidget shared.old widget.old }
    requires open { is_open turn.old.doing ≡ true }
    requires other { runs turn.old.doing ≡ false }
    requires turn { FineTurn shared.old widget.old.id.index turn.old }
    ensures stepped { IfOk result (IsStepped units shared.old shared.new widget.old widget.new turn.old turn.new) }
    ensures fine { OnOk result (FineWidget shared.new widget.new) }
    ensures kept { Keeps shared.old shared.new widget.old widget.new }
{
    let had = granted(turn.left, units);
    let mut meter = Meter::new(had, 0);
    let doing = take(&mut turn.doing);
    let moved = advance(shared, widget, &mut turn.calls, doing, &mut meter)?;
    put(&mut turn.doing, moved.doing);
    turn.left -= had - meter.left();
    Ok(moved.is_short)
}

/// A turn that is not over goes on, with what is left of its grant, so that each charge begins within so
/// many units; where they are used up, only by what costs nothing. Whether what is next wants fuel that is
/// not there.
pub(crate) fn move_on(
    shared: &mut Shared,
    widget: &mut Widget,
    turn: &mut Turn,
    units: u32,
) -> Result<bool, Memory>
    requires widget { FineWidget shared.old widget.old }
    requires open { is_open turn.old.doing ≡ true }
    requires turn { FineTurn shared.old widget.old.id.index turn.old }
    ensures stepped { IfOk result (IsStepped units shared.old shared.new widget.old widget.new turn.old turn.new) }
    ensures fine { OnOk result (FineWidget shared.new widget.new) }
    ensures kept { Keeps shared.old shared.new widget.old widget.new }
{
    if runs(&turn.doing) {
        return run_task(shared, widget, turn, units);
    }
    pass_on(shared, widget, turn, units)
}
