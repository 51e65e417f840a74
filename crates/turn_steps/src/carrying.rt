//! A native that a turn carries out, and what its answer comes to.
ghost use Rattle.std.specs.Prelude.{◌≡◌, false, IfOk, None, OnOk, reverse, drop};
ghost use Rattle.plan_ends.specs.Ends.{ByValue};
ghost use Rattle.turn_dispatch.specs.Ending.{Awaits};
ghost use Rattle.js_flow.specs.Fine.{FineFrames, FineNative};
ghost use Rattle.js_values.specs.Answers.{IsCarried, IsFineOut};
ghost use Rattle.native_image.specs.Image.{beside, dispatches_of};
ghost use Rattle.native_image.specs.Refines.{FiresAtOwn};
ghost use Rattle.native_image.specs.Sound.{KeepsAll};
ghost use Rattle.js_values.specs.declared.outcome.NativeOut.TheVariants as native_out;
ghost use Rattle.js_values.specs.declared.outcome.Plan.TheVariants as native_calls;
ghost use Rattle.turn_dispatch.specs.Held.{FineDoing};
ghost use Rattle.turn_dispatch.specs.declared.level.Doing.TheVariants as doing;
ghost use Rattle.turn_dispatch.specs.Turns.{bubbled_of};
ghost use Rattle.turn_dispatch.specs.Waiting.{FineFiring, FineLevels};
ghost use Rattle.turn_steps.specs.Keeping.{Keeps};
ghost use Rattle.turn_steps.specs.Carrying.{IsAnswered, IsPerformed, is_fire, is_wanting};
ghost use Rattle.turn_steps.specs.Steps.{IsMoved};
ghost use Rattle.turn_steps.specs.Turning.{FineWidget, forests};

use crate::moving::{Moved, follow};
use code_units::Memory;
use js_flow::{Completion, Control, NativeCall};
use js_values::{Meter, NativeOut, Plan};
use native_image::{Shared, Widget};
use natives::call;
use object_store::Value;
use turn_dispatch::{Calls, Doing, Firing, Level, Site, Task, give, resume};

// Whether `bubble` was called in the innermost open dispatch, if one is open.
fn innermost(dispatches: &Vec<bool>) -> Option<bool>
    ensures { result ≡ bubbled_of dispatches.now.items }
{
    match dispatches.last() {
        Some(bubbled) => Some(*bubbled),
        None => None,
    }
}

// Puts the innermost open dispatch back, with whether `bubble` was called in it.
fn put_innermost(dispatches: &mut Vec<bool>, bubbled: Option<bool>) -> Result<(), Memory>
    ensures { OnOk result (reverse dispatches.new.items
        ≡ dispatches_of bubbled (drop 1 (reverse dispatches.old.items))) }
{
    dispatches.pop();
    match bubbled {
        Some(bubbled) => dispatches.push(bubbled)?,
        None => dispatches.clear(),
    }
    Ok(())
}

// Whether an answer is that fuel is wanting.
fn is_wanting(out: &NativeOut) -> bool
    ensures { result ≡ is_wanting out.now }
{
    matches!(out, NativeOut::OutOfFuel)
}

// Carries a native out, in the innermost of the open dispatches.
fn perform(
    shared: &mut Shared,
    widget: &mut Widget,
    dispatches: &mut Vec<bool>,
    native: &NativeCall,
    meter: &mut Meter,
) -> Result<NativeOut, Memory>
    requires widget { FineWidget shared.old widget.old }
    requires native { FineNative widget.old.id.index shared.old.store.cells native.now }
    ensures carried { IfOk result
        (IsPerformed shared.old shared.new widget.old widget.new dispatches.old.items dispatches.new.items meter.old
        meter.new native.now) }
    ensures fine { OnOk result (FineWidget shared.new widget.new) }
    ensures kept { KeepsAll widget.old.id.index shared.old.store shared.new.store shared.old.page shared.new.page
        widget.new.around }
    ensures number { widget.new.id.index ≡ widget.old.id.index }
    ensures codes { shared.new.codes ≡ shared.old.codes }
{
    widget.bubbled = innermost(dispatches);
    let out = call(native, shared, meter, widget)?;
    put_innermost(dispatches, widget.bubbled)?;
    Ok(out)
}

// Whether an answer asks for handlers.
fn is_fire(out: &NativeOut) -> bool
    ensures { result ≡ is_fire out.now }
{
    matches!(out, NativeOut::Call(Plan::Fire { .. }))
}

// The handlers that a native asks for are called at each node in turn: the task waits for them.
fn fire(
    shared: &mut Shared,
    widget: &Widget,
    calls: &mut Calls,
    task: Box<Task>,
    firing: Firing,
) -> Result<Doing, Memory>
    requires widget { FineWidget shared.old widget.now }
    requires firing { FineFiring widget.now.id.index shared.old.store.cells shared.old.page firing }
    requires task { task.value.widget ≡ widget.now.id.index }
    requires frames { FineFrames
        (forests shared.old) widget.now.id.index shared.old.store.cells task.value.frames.list.items }
    requires awaits { Awaits (forests shared.old) widget.now.id.index shared.old.store.cells ByValue
        task.value.frames.list.items }
    requires levels { FineLevels
        (forests shared.old) widget.now.id.index shared.old.store.cells shared.old.page calls.old.levels.items }
    ensures answered { IfOk result
        (IsAnswered shared.old shared.new widget.now calls.old calls.new task.value firing.depth
        (native_out.Call (native_calls.Fire firing.kind firing.nodes firing.last))) }
    ensures fine { OnOk result (FineWidget shared.new widget.now) }
    ensures kept { Keeps shared.old shared.new widget.now widget.now }
{
    let firing = Box::new(shared.alloc, firing)?;
    calls.levels.push(Level::Waits(task))?;
    calls.levels.push(Level::Fires(firing, 0))?;
    let site = Site {
        id: widget.id,
        page: &shared.page,
        around: &widget.around,
    };
    let how = Completion::Is(Value::Undefined);
    let doing = give(shared.alloc, &mut shared.store, &site, calls, how)?;
    Ok(doing)
}

// A task waits for a native that a caller at this depth asked for.
fn wait(task: &mut Task, depth: u32)
    ensures { task.new ≡ record task.old { control = Control.Waits depth } }
{
    task.control = Control::Waits(depth);
}

// The task that waits for a native goes on with its answer.
fn resume_task(
    shared: &mut Shared,
    widget: &Widget,
    calls: &mut Calls,
    task: Box<Task>,
    answer: (u32, NativeOut),
) -> Result<Doing, Memory>
    requires widget { FineWidget shared.old widget.now }
    requires out { IsFineOut widget.now.id.index shared.old.store.cells answer.1 × IsCarried answer.1 }
    requires task { task.value.widget ≡ widget.now.id.index }
    requires frames { FineFrames
        (forests shared.old) widget.now.id.index shared.old.store.cells task.value.frames.list.items }
    requires awaits { Awaits (forests shared.old) widget.now.id.index shared.old.store.cells ByValue
        task.value.frames.list.items }
    requires levels { FineLevels
        (forests shared.old) widget.now.id.index shared.old.store.cells shared.old.page calls.old.levels.items }
    ensures answered { IfOk result
        (IsAnswered shared.old shared.new widget.now calls.old calls.new task.value answer.0 answer.1) }
    ensures fine { OnOk result (FineWidget shared.new widget.now) }
    ensures kept { Keeps shared.old shared.new widget.now widget.now }
{
    let mut task = task;
    let (depth, out) = answer;
    wait(&mut task, depth);
    let stepped = resume(
        shared.alloc,
        &shared.codes,
        &mut shared.store,
        &mut task,
        out,
    )?;
    let site = Site {
        id: widget.id,
        page: &shared.page,
        around: &widget.around,
    };
    let doing = follow(shared.alloc, &mut shared.store, &site, calls, task, stepped)?;
    Ok(doing)
}

// What a native gave comes to: its calls are made, or the task that waits for it goes on.
fn answer(
    shared: &mut Shared,
    widget: &Widget,
    calls: &mut Calls,
    task: Box<Task>,
    answer: (u32, NativeOut),
) -> Result<Doing, Memory>
    requires widget { FineWidget shared.old widget.now }
    requires out { IsFineOut widget.now.id.index shared.old.store.cells answer.1 }
    requires paid { is_wanting answer.1 ≡ false }
    requires fires { FiresAtOwn widget.now.id.index
        (beside shared.old.store shared.old.page widget.now.around None) answer.1 }
    requires task { task.value.widget ≡ widget.now.id.index }
    requires frames { FineFrames
        (forests shared.old) widget.now.id.index shared.old.store.cells task.value.frames.list.items }
    requires awaits { Awaits (forests shared.old) widget.now.id.index shared.old.store.cells ByValue
        task.value.frames.list.items }
    requires levels { FineLevels
        (forests shared.old) widget.now.id.index shared.old.store.cells shared.old.page calls.old.levels.items }
    ensures answered { IfOk result
        (IsAnswered shared.old shared.new widget.now calls.old calls.new task.value answer.0 answer.1) }
    ensures fine { OnOk result (FineWidget shared.new widget.now) }
    ensures kept { Keeps shared.old shared.new widget.now widget.now }
{
    if !is_fire(&answer.1) {
        return resume_task(shared, widget, calls, task, answer);
    }
    let (depth, out) = answer;
    match out {
        NativeOut::Call(Plan::Fire { kind, nodes, last }) => {
            let firing = Firing {
                kind,
                nodes,
                last,
                depth,
            };
            fire(shared, widget, calls, task, firing)
        }
        _ => unreachable!(),
    }
}

/// Carries out a native for the task that waits for it, and goes on with what it gave. Where fuel is
/// wanting the turn is as it was.
pub(crate) fn carry(
    shared: &mut Shared,
    widget: &mut Widget,
    calls: &mut Calls,
    at: (Box<Task>, Box<NativeCall>),
    meter: &mut Meter,
) -> Result<Moved, Memory>
    requires widget { FineWidget shared.old widget.old }
    requires native { FineDoing (forests shared.old) widget.old.id.index shared.old.store shared.old.page
        (doing.Native at.0 at.1) }
    requires levels { FineLevels
        (forests shared.old) widget.old.id.index shared.old.store.cells shared.old.page calls.old.levels.items }
    ensures moved { IfOk result
        (IsMoved shared.old shared.new widget.old widget.new calls.old calls.new meter.old meter.new
        (doing.Native at.0 at.1)) }
    ensures fine { OnOk result (FineWidget shared.new widget.new) }
    ensures kept { Keeps shared.old shared.new widget.old widget.new }
{
    let (task, native) = at;
    let out = perform(shared, widget, &mut calls.dispatches, &native, meter)?;
    if is_wanting(&out) {
        return Ok(Moved {
            doing: Doing::Native(task, native),
            is_short: true,
        });
    }
    let doing = answer(shared, widget, calls, task, (native.depth, out))?;
    Ok(Moved {
        doing,
        is_short: false,
    })
}
