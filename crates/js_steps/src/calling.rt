//! Whole calls: how they begin, what natives give them, and how they end.
ghost use Rattle.std.specs.Prelude.{◌≡◌, ℕ, ◌+◌, ◌*◌, ◌-◌, ◌<◌, ◌≤◌, IfOk, List, None};
ghost use Rattle.js_tree.specs.Forest.{Forest};
ghost use Rattle.store_cells.specs.Cells.{Cells};
ghost use Rattle.widget_meaning.specs.Values as meaning;
ghost use Rattle.widget_meaning.specs.Plan as plan;
ghost use Rattle.widget_meaning.specs.Plan.{Ret, and_then};
ghost use Rattle.widget_meaning.specs.Meaning.{run_plan};
ghost use Rattle.js_image.specs.Image.{Rest, all_seen, image, seen};
ghost use Rattle.js_image.specs.Held.{AreFine, IsConfined, IsFine, IsHeld, Kept};
ghost use Rattle.js_values.specs.Answers.{IsCarried, IsFineOut, out_of_fuel};
ghost use Rattle.js_names.specs.Code.{trees_of};
ghost use Rattle.js_calls.specs.Called.{given};
ghost use Rattle.js_flow.specs.Frames.{rest};
ghost use Rattle.js_flow.specs.Fine.{FineControl, FineFrames, FineStepped};
ghost use Rattle.js_flow.specs.Free.{free};
ghost use Rattle.js_steps.specs.Answered.{IsFineAfter, IsFineTask, IsFuelStop, IsWent, machine, remaining, remaining_after};
ghost use Rattle.js_steps.specs.Ending.{EndsCall, EndsSo};
ghost use Rattle.js_flow.specs.Todo.{Follows, IsGoing, Moves, Strides, IfOutOfFuel, IsOver, IsWaiting, after_step, todo};

use crate::answer::{Stepped, answered};
use crate::machine::{cost, put, put_halted, set, settle, step_for, take_control, take_flow};
use crate::stack::Frames;
use crate::strides::{FEW, carry_on, is_used, resumed};
use crate::task::Task;
use code_units::Memory;
use js_calls::answer;
use js_flow::{Args, Call, Completion, Control, Job, Stepped as Moved};
use js_names::Code;
use js_values::{Meter, NativeOut};
use object_store::{CellId, Store, Value};
use std::alloc::Global;

/// A call of a function by the host for a widget, by a caller at this depth. It charges nothing.
pub fn begin(
    alloc: Global,
    widget: u32,
    func: CellId,
    args: &[Value],
    depth: u32,
) -> Result<Task, Memory>
    ensures plan { IfOk result (λ t. (fs : List Forest) (w : ℕ) (s : Cells) (r : Rest)
        → remaining fs w s t r ≡ plan.Do
        (plan.Call (seen w s.cells (Value.Ref func)) None (all_seen w s.cells args.now) depth) (image fs r w s) Ret) }
    ensures held { IfOk result (λ t. (fs : List Forest) (w : ℕ) (s : Cells) → IsHeld w s.cells func
        → AreFine w s.cells args.now → IsFineTask fs w s t) }
    ensures going { IfOk result (λ t. IsGoing t.control) }
    ensures widget { IfOk result (λ t. t.widget ≡ widget) }
{
    let call = Box::new(
        alloc,
        Call {
            func: Value::Ref(func),
            this: None,
            args: shared(alloc, args)?,
            depth,
        },
    )?;
    Ok(Task {
        widget,
        control: Control::Do(Job::Call(call)),
        frames: Frames::new(alloc),
    })
}

// The same values for a second holder.
fn shared(alloc: Global, values: &[Value]) -> Result<Args, Memory>
    ensures { IfOk result (λ args. args.items ≡ values.now) }
{
    let mut args = Args::new(alloc);
    for value in values {
        args.push(value.share()?)?;
    }
    Ok(args)
}

/// The depth of the caller of the native for which a task waits.
pub fn depth(task: &Task) -> u32
    requires waits { IsWaiting task.now.control }
    ensures { task.now.control ≡ Control.Waits result }
{
    match &task.control {
        Control::Waits(depth) => *depth,
        _ => unreachable!(),
    }
}

/// What a native gave goes on. It charges nothing, and a stop changes nothing in the store.
pub fn resume(
    alloc: Global,
    codes: &Vec<Code>,
    store: &mut Store,
    task: &mut Task,
    out: NativeOut,
) -> Result<Stepped, Memory>
    requires waits { IsWaiting task.old.control }
    requires widget { task.old.widget < 32 }
    requires confined { IsConfined (trees_of codes.now.items) task.old.widget store.old }
    requires held { IsFineTask (trees_of codes.now.items) task.old.widget store.old task.old }
    requires out { IsFineOut task.old.widget store.old.cells out × IsCarried out }
    ensures plan { let F = trees_of codes.now.items in let w = task.old.widget in
        IfOk result (λ k. (r : Rest) (node : ℕ → ℕ) (d : ℕ) → task.old.control ≡ Control.Waits d
        → remaining_after F w store.new task.new k r
        ≡ and_then (given w store.old.cells node d out
        (image F r w store.old)) (rest F w store.old.cells task.old.frames.list.items)) }
    ensures stop { IfOk result (λ k. IsFuelStop k → ⊥) }
    ensures follows { IfOk result (λ k. Follows (machine k) task.new.control) }
    ensures near { IfOk result (λ k. free task.new.control task.new.frames.list.items
        < free task.old.control task.old.frames.list.items) }
    ensures held { IfOk result (IsFineAfter (trees_of codes.now.items) task.old.widget store.new task.new) }
    ensures widget { task.new.widget ≡ task.old.widget }
    ensures kept { Kept (trees_of codes.now.items) task.old.widget store.old store.new }
{
    let at = depth(task);
    let w = task.widget;
    let mut flow = take_flow(alloc, task);
    answer(&mut flow, alloc, w, codes, store, out, at)?;
    settle(&mut flow, alloc, w, codes, store)?;
    let step = put(task, flow);
    Ok(answered(step))
}

/// The native for which a task waits threw this value. It charges nothing.
pub fn raise(task: &mut Task, value: Value)
    requires waits { IsWaiting task.old.control }
    ensures plan { (fs : List Forest) (w : ℕ) (s : Cells) (r : Rest)
        → remaining fs w s task.new r ≡ and_then (Ret (meaning.Throw (seen w s.cells value)) (image fs r w s))
        (rest fs w s.cells task.old.frames.list.items) }
    ensures held { (fs : List Forest) (w : ℕ) (s : Cells) → IsFine w s.cells value → IsFineTask fs w s task.old
        → IsFineTask fs w s task.new }
    ensures going { IsGoing task.new.control }
    ensures widget { task.new.widget ≡ task.old.widget }
{
    set(task, Control::Give(Completion::Throw(value)));
}

/// One step: a charge where there is one, before all else, and then what costs nothing.
/// After `Stop(Fuel)` all is as it was, and the step may be asked again.
pub fn step(
    alloc: Global,
    codes: &Vec<Code>,
    store: &mut Store,
    task: &mut Task,
    meter: &mut Meter,
) -> Result<Stepped, Memory>
    requires going { IsGoing task.old.control }
    requires widget { task.old.widget < 32 }
    requires confined { IsConfined (trees_of codes.now.items) task.old.widget store.old }
    requires held { IsFineTask (trees_of codes.now.items) task.old.widget store.old task.old }
    ensures moves { let F = trees_of codes.now.items in let w = task.old.widget in
        IfOk result (λ k. (r : Rest) → Moves (meter.old.left - meter.new.left) (image F r w store.old)
        (remaining F w store.old task.old r) (remaining_after F w store.new task.new k r)) }
    ensures fuel { let F = trees_of codes.now.items in let w = task.old.widget in
        IfOk result (λ k. IsFuelStop k → (task.new ≡ task.old) × (store.new ≡ store.old) × (meter.new ≡ meter.old)
        × ((r : Rest) → run_plan meter.old.left (remaining F w store.old task.old r)
        ≡ out_of_fuel (image F r w store.old) meter.old.left)) }
    ensures near { IfOk result (λ k. (IsFuelStop k → ⊥)
        → 32 * meter.new.left + free task.new.control task.new.frames.list.items
        < 32 * meter.old.left + free task.old.control task.old.frames.list.items) }
    ensures follows { IfOk result (λ k. Follows (machine k) task.new.control) }
    ensures held { IfOk result (IsFineAfter (trees_of codes.now.items) task.old.widget store.new task.new) }
    ensures spends { (meter.new.left ≤ meter.old.left)
        × (meter.new.left + meter.new.spent ≡ meter.old.left + meter.old.spent) }
    ensures widget { task.new.widget ≡ task.old.widget }
    ensures kept { Kept (trees_of codes.now.items) task.old.widget store.old store.new }
{
    let step = step_for(alloc, task.widget, codes, store, task, meter)?;
    Ok(answered(step))
}

/// Steps whose charges begin below so many units, and all that costs nothing behind them. `Went` is
/// answered exactly where these units are used up and what is next costs fuel. After `Stop(Fuel)` the
/// rest may be asked again.
pub fn stride(
    alloc: Global,
    codes: &Vec<Code>,
    store: &mut Store,
    task: &mut Task,
    meter: &mut Meter,
    units: u32,
) -> Result<Stepped, Memory>
    requires going { IsGoing task.old.control }
    requires widget { task.old.widget < 32 }
    requires confined { IsConfined (trees_of codes.now.items) task.old.widget store.old }
    requires held { IsFineTask (trees_of codes.now.items) task.old.widget store.old task.old }
    ensures strides { let F = trees_of codes.now.items in let w = task.old.widget in
        IfOk result (λ k. (r : Rest) → Strides units (meter.old.left - meter.new.left)
        (remaining F w store.old task.old r) (remaining_after F w store.new task.new k r)) }
    ensures cut { let F = trees_of codes.now.items in let w = task.old.widget in
        IfOk result (λ k. IsWent k → (units ≤ meter.old.left - meter.new.left)
        × ((r : Rest) → run_plan 0 (remaining F w store.new task.new r) ≡ out_of_fuel (image F r w store.new) 0)) }
    ensures fuel { let F = trees_of codes.now.items in let w = task.old.widget in
        IfOk result (λ k. IsFuelStop k → (meter.old.left - meter.new.left < units)
        × ((r : Rest) → run_plan meter.new.left (remaining F w store.new task.new r)
        ≡ out_of_fuel (image F r w store.new) meter.new.left)) }
    ensures near { IfOk result (λ k. IsOver (machine k) → (IsFuelStop k → ⊥)
        → 32 * meter.new.left + free task.new.control task.new.frames.list.items
        < 32 * meter.old.left + free task.old.control task.old.frames.list.items) }
    ensures follows { IfOk result (λ k. Follows (machine k) task.new.control) }
    ensures held { IfOk result (IsFineAfter (trees_of codes.now.items) task.old.widget store.new task.new) }
    ensures spends { (meter.new.left ≤ meter.old.left)
        × (meter.new.left + meter.new.spent ≡ meter.old.left + meter.old.spent) }
    ensures widget { task.new.widget ≡ task.old.widget }
    ensures kept { Kept (trees_of codes.now.items) task.old.widget store.old store.new }
{
    if units < FEW {
        stride_by_steps(alloc, codes, store, task, meter, units)
    } else {
        stride_on_flow(alloc, codes, store, task, meter, units)
    }
}

// The same by steps, each of which takes the frames of the task and puts them back.
fn stride_by_steps(
    alloc: Global,
    codes: &Vec<Code>,
    store: &mut Store,
    task: &mut Task,
    meter: &mut Meter,
    units: u32,
) -> Result<Stepped, Memory>
    requires going { IsGoing task.old.control }
    requires widget { task.old.widget < 32 }
    requires confined { IsConfined (trees_of codes.now.items) task.old.widget store.old }
    requires held { IsFineTask (trees_of codes.now.items) task.old.widget store.old task.old }
    ensures strides { let F = trees_of codes.now.items in let w = task.old.widget in
        IfOk result (λ k. (r : Rest) → Strides units (meter.old.left - meter.new.left)
        (remaining F w store.old task.old r) (remaining_after F w store.new task.new k r)) }
    ensures cut { let F = trees_of codes.now.items in let w = task.old.widget in
        IfOk result (λ k. IsWent k → (units ≤ meter.old.left - meter.new.left)
        × ((r : Rest) → run_plan 0 (remaining F w store.new task.new r) ≡ out_of_fuel (image F r w store.new) 0)) }
    ensures fuel { let F = trees_of codes.now.items in let w = task.old.widget in
        IfOk result (λ k. IsFuelStop k → (meter.old.left - meter.new.left < units)
        × ((r : Rest) → run_plan meter.new.left (remaining F w store.new task.new r)
        ≡ out_of_fuel (image F r w store.new) meter.new.left)) }
    ensures near { IfOk result (λ k. IsOver (machine k) → (IsFuelStop k → ⊥)
        → 32 * meter.new.left + free task.new.control task.new.frames.list.items
        < 32 * meter.old.left + free task.old.control task.old.frames.list.items) }
    ensures follows { IfOk result (λ k. Follows (machine k) task.new.control) }
    ensures held { IfOk result (IsFineAfter (trees_of codes.now.items) task.old.widget store.new task.new) }
    ensures spends { (meter.new.left ≤ meter.old.left)
        × (meter.new.left + meter.new.spent ≡ meter.old.left + meter.old.spent) }
    ensures widget { task.new.widget ≡ task.old.widget }
    ensures kept { Kept (trees_of codes.now.items) task.old.widget store.old store.new }
{
    let w = task.widget;
    let start = meter.left();
    'steps: while !is_used(cost(&task.control), start - meter.left(), units) {
        match step_for(alloc, w, codes, store, task, meter)? {
            Moved::Went => {}
            answer => return Ok(answered(answer)),
        }
    }
    Ok(Stepped::Went)
}

// The same on one flow over all steps, in place where that can be.
#[inline(never)]
fn stride_on_flow(
    alloc: Global,
    codes: &Vec<Code>,
    store: &mut Store,
    task: &mut Task,
    meter: &mut Meter,
    units: u32,
) -> Result<Stepped, Memory>
    requires going { IsGoing task.old.control }
    requires widget { task.old.widget < 32 }
    requires confined { IsConfined (trees_of codes.now.items) task.old.widget store.old }
    requires held { IsFineTask (trees_of codes.now.items) task.old.widget store.old task.old }
    ensures strides { let F = trees_of codes.now.items in let w = task.old.widget in
        IfOk result (λ k. (r : Rest) → Strides units (meter.old.left - meter.new.left)
        (remaining F w store.old task.old r) (remaining_after F w store.new task.new k r)) }
    ensures cut { let F = trees_of codes.now.items in let w = task.old.widget in
        IfOk result (λ k. IsWent k → (units ≤ meter.old.left - meter.new.left)
        × ((r : Rest) → run_plan 0 (remaining F w store.new task.new r) ≡ out_of_fuel (image F r w store.new) 0)) }
    ensures fuel { let F = trees_of codes.now.items in let w = task.old.widget in
        IfOk result (λ k. IsFuelStop k → (meter.old.left - meter.new.left < units)
        × ((r : Rest) → run_plan meter.new.left (remaining F w store.new task.new r)
        ≡ out_of_fuel (image F r w store.new) meter.new.left)) }
    ensures near { IfOk result (λ k. IsOver (machine k) → (IsFuelStop k → ⊥)
        → 32 * meter.new.left + free task.new.control task.new.frames.list.items
        < 32 * meter.old.left + free task.old.control task.old.frames.list.items) }
    ensures follows { IfOk result (λ k. Follows (machine k) task.new.control) }
    ensures held { IfOk result (IsFineAfter (trees_of codes.now.items) task.old.widget store.new task.new) }
    ensures spends { (meter.new.left ≤ meter.old.left)
        × (meter.new.left + meter.new.spent ≡ meter.old.left + meter.old.spent) }
    ensures widget { task.new.widget ≡ task.old.widget }
    ensures kept { Kept (trees_of codes.now.items) task.old.widget store.old store.new }
{
    let w = task.widget;
    let mut flow = take_flow(alloc, task);
    let control = take_control(task);
    resumed(&mut flow, alloc, w, codes, store, control)?;
    let halt = carry_on(&mut flow, alloc, w, codes, store, meter, units)?;
    let step = put_halted(task, flow, halt);
    Ok(answered(step))
}

/// Steps up to a native, an end or a stop: what is left to do then is what the meaning makes of the
/// call with the fuel that was there.
pub fn run(
    alloc: Global,
    codes: &Vec<Code>,
    store: &mut Store,
    task: &mut Task,
    meter: &mut Meter,
) -> Result<Stepped, Memory>
    requires going { IsGoing task.old.control }
    requires widget { task.old.widget < 32 }
    requires confined { IsConfined (trees_of codes.now.items) task.old.widget store.old }
    requires held { IsFineTask (trees_of codes.now.items) task.old.widget store.old task.old }
    ensures meaning { let F = trees_of codes.now.items in let w = task.old.widget in
        IfOk result (λ k. (r : Rest) → run_plan meter.old.left (remaining F w store.old task.old r)
        ≡ run_plan meter.new.left (remaining_after F w store.new task.new k r)) }
    ensures fuel { let F = trees_of codes.now.items in let w = task.old.widget in
        IfOk result (λ k. IsFuelStop k → (r : Rest) → run_plan meter.old.left (remaining F w store.old task.old r)
        ≡ out_of_fuel (image F r w store.new) meter.new.left) }
    ensures ends { IfOk result (λ k. IsOver (machine k)) }
    ensures follows { IfOk result (λ k. Follows (machine k) task.new.control) }
    ensures held { IfOk result (IsFineAfter (trees_of codes.now.items) task.old.widget store.new task.new) }
    ensures spends { (meter.new.left ≤ meter.old.left)
        × (meter.new.left + meter.new.spent ≡ meter.old.left + meter.old.spent) }
    ensures widget { task.new.widget ≡ task.old.widget }
    ensures kept { Kept (trees_of codes.now.items) task.old.widget store.old store.new }
{
    let step = run_for(alloc, task.widget, codes, store, task, meter)?;
    Ok(answered(step))
}

// Steps up to a native, an end, a stop or want of fuel: what is left to do then is what the meaning
// makes of the call with the fuel that was there.
fn run_for(
    alloc: Global,
    w: u32,
    codes: &Vec<Code>,
    store: &mut Store,
    task: &mut Task,
    meter: &mut Meter,
) -> Result<Moved, Memory>
    requires going { IsGoing task.old.control }
    requires widget { w < 32 }
    requires confined { IsConfined (trees_of codes.now.items) w store.old }
    requires held { FineControl (trees_of codes.now.items) w store.old.cells task.old.control
        × FineFrames (trees_of codes.now.items) w store.old.cells task.old.frames.list.items }
    requires call { EndsCall (trees_of codes.now.items) w store.old task.old.control task.old.frames.list.items }
    ensures meaning { let F = trees_of codes.now.items in IfOk result (λ k. (r : Rest)
        → run_plan meter.old.left (todo F w store.old.cells task.old.control task.old.frames.list.items
        (image F r w store.old))
        ≡ run_plan meter.new.left (after_step F w store.new.cells k task.new.control task.new.frames.list.items
        (image F r w store.new))) }
    ensures ends { IfOk result IsOver }
    ensures fuel { let F = trees_of codes.now.items in IfOk result (λ k. IfOutOfFuel k ((r : Rest)
        → run_plan meter.old.left (todo F w store.old.cells task.old.control task.old.frames.list.items
        (image F r w store.old))
        ≡ out_of_fuel (image F r w store.new) meter.new.left)) }
    ensures spends { (meter.new.left ≤ meter.old.left)
        × (meter.new.left + meter.new.spent ≡ meter.old.left + meter.old.spent) }
    ensures follows { IfOk result (λ k. Follows k task.new.control) }
    ensures held { let F = trees_of codes.now.items in IfOk result
        (λ k. FineControl F w store.new.cells task.new.control
        × FineFrames F w store.new.cells task.new.frames.list.items × FineStepped F w store.new.cells k) }
    ensures call { IfOk result
        (λ k. EndsCall (trees_of codes.now.items) w store.new task.new.control task.new.frames.list.items
        × EndsSo k) }
    ensures kept { Kept (trees_of codes.now.items) w store.old store.new }
    ensures widget { task.new.widget ≡ task.old.widget }
{
    loop {
        match step_for(alloc, w, codes, store, task, meter)? {
            Moved::Went => {}
            answer => return Ok(answer),
        }
    }
}
