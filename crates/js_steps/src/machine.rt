//! The machine: one step, with its frames and its fuel.
ghost use Rattle.std.specs.Prelude.{◌≡◌, ℕ, ◌+◌, ◌*◌, ◌-◌, ◌<◌, ◌≤◌, IfOk, IsFalse, IsTrue, List, OnOk, true, length};
ghost use Rattle.js_tree.specs.Forest.{Forest};
ghost use Rattle.store_cells.specs.Cells.{Cells, PlainCell};
ghost use Rattle.widget_meaning.specs.OwnState.{State};
ghost use Rattle.widget_meaning.specs.Plan.{and_then};
ghost use Rattle.widget_meaning.specs.Meaning.{run_plan};
ghost use Rattle.js_image.specs.Image.{Rest, image};
ghost use Rattle.js_image.specs.Held.{IsConfined, IsPlaceScope, Kept};
ghost use Rattle.js_values.specs.Answers.{out_of_fuel};
ghost use Rattle.js_names.specs.Code.{trees_of};
ghost use Rattle.js_flow.specs.Left.{IsSettled, all_frames, is_free_next};
ghost use Rattle.js_flow.specs.Parts.{IsBlock, forest_at};
ghost use Rattle.js_flow.specs.Statements.{block_at};
ghost use Rattle.js_flow.specs.Frames.{flow_plan, rest};
ghost use Rattle.js_flow.specs.Fine.{FineCompletion, FineControl, FineFlow, FineFrames, FineJob, FineStepped};
ghost use Rattle.js_steps.specs.Charges.{after_charge, charge_of, starts_in_place};
ghost use Rattle.js_flow.specs.Free.{control_free, flow_free, free, frames_free, job_weight, native_free};
ghost use Rattle.js_steps.specs.Ending.{EndsCall, EndsSo, IfNative, IsNative};
ghost use Rattle.js_steps.specs.Tolls.{Answers, EndsFlow, IsHalted, IsRunning};
ghost use Rattle.js_flow.specs.Todo.{Follows, IfOutOfFuel, IsGoing, IsNotFuel, IsOver, Moves, after_step, todo};

use crate::jobs::{begin_ids, begin_job, is_of_ids, take};
use crate::stack::leave;
use crate::strides::Toll;
use crate::task::Task;
use code_units::Memory;
use js_flow::{Block, Completion, Control, Flow, Frame, Job, Next, Place, Stepped};
use js_names::Code;
use js_statements::begin_block;
use js_values::Meter;
use object_store::Store;
use std::alloc::Global;
use std::mem;

// What the task is at. The old one was taken out or owns nothing, so there is nothing to end.
pub(crate) fn set(task: &mut Task, control: Control)
    ensures control { task.new.control ≡ control }
    ensures frames { task.new.frames ≡ task.old.frames }
    ensures widget { task.new.widget ≡ task.old.widget }
{
    mem::forget(mem::replace(&mut task.control, control));
}

pub(crate) fn take_control(task: &mut Task) -> Control
    ensures result { result ≡ task.old.control }
    ensures control { task.new.control ≡ Control.Over }
    ensures frames { task.new.frames ≡ task.old.frames }
    ensures widget { task.new.widget ≡ task.old.widget }
{
    mem::replace(&mut task.control, Control::Over)
}

/// The frames of the task, for the forms that run.
#[tactic(auto, using(crate::proofs::Settled::all_new))]
pub(crate) fn take_flow(alloc: Global, task: &mut Task) -> Flow
    ensures frames { all_frames result ≡ task.old.frames.list.items }
    ensures control { task.new.control ≡ task.old.control }
    ensures widget { task.new.widget ≡ task.old.widget }
{
    let empty = Vec::new(alloc);
    let frames = mem::replace(&mut task.frames.list, empty);
    Flow::new(frames)
}

// The frames of the task. The list that a flow left has none, so there is nothing to end.
fn put_frames(task: &mut Task, frames: Vec<Frame>)
    ensures frames { task.new.frames.list.items ≡ frames.items }
    ensures control { task.new.control ≡ task.old.control }
    ensures widget { task.new.widget ≡ task.old.widget }
{
    mem::forget(mem::replace(&mut task.frames.list, frames));
}

/// The frames go back to the task, and what is next is what it is at.
pub(crate) fn put(task: &mut Task, flow: Flow) -> Stepped
    requires settled { IsSettled flow flow.next }
    ensures plan { (fs : List Forest) (w : ℕ) (cells : List PlainCell) (s : State)
        → after_step fs w cells result task.new.control task.new.frames.list.items s ≡ flow_plan fs w cells flow s }
    ensures fine { (fs : List Forest) (w : ℕ) (cells : List PlainCell) → FineFlow fs w cells flow
        → FineControl fs w cells task.new.control × FineFrames fs w cells task.new.frames.list.items
        × FineStepped fs w cells result }
    ensures follows { Follows result task.new.control × IsNotFuel result }
    ensures near { free task.new.control task.new.frames.list.items ≤ flow_free flow }
    ensures widget { task.new.widget ≡ task.old.widget }
    ensures light { control_free task.new.control ≤ native_free }
    ensures native { IfNative result (IsNative flow.next × (task.new.frames.list.items ≡ all_frames flow)) }
    ensures went { IsRunning flow.next → result ≡ Stepped.Went }
    ensures over { (IsRunning flow.next → ⊥) → IsOver result }
{
    let (frames, next) = flow.into_parts();
    put_frames(task, frames);
    match next {
        Next::Go(job) => {
            set(task, Control::Do(job));
            Stepped::Went
        }
        Next::Pay(units) => {
            set(task, Control::Pay(units));
            Stepped::Went
        }
        Next::Native(native) => {
            set(task, Control::Waits(native.depth));
            Stepped::Native(native)
        }
        Next::Stop(cause) => {
            set(task, Control::Over);
            Stepped::Stop(cause)
        }
        Next::Done(how) => {
            set(task, Control::Over);
            Stepped::Done(how)
        }
        _ => unreachable!(),
    }
}

/// The same of a flow on which no more steps are taken: want of fuel is answered where it ended them.
pub(crate) fn put_halted(task: &mut Task, flow: Flow, halt: Toll) -> Stepped
    requires settled { IsSettled flow flow.next }
    requires halted { IsHalted flow.next halt }
    ensures answers { Answers halt result }
    ensures plan { (fs : List Forest) (w : ℕ) (cells : List PlainCell) (s : State)
        → after_step fs w cells result task.new.control task.new.frames.list.items s ≡ flow_plan fs w cells flow s }
    ensures todo { IsRunning flow.next → (fs : List Forest) (w : ℕ) (cells : List PlainCell) (s : State)
        → todo fs w cells task.new.control task.new.frames.list.items s ≡ flow_plan fs w cells flow s }
    ensures fine { (fs : List Forest) (w : ℕ) (cells : List PlainCell) → FineFlow fs w cells flow
        → FineControl fs w cells task.new.control × FineFrames fs w cells task.new.frames.list.items
        × FineStepped fs w cells result }
    ensures follows { Follows result task.new.control }
    ensures near { free task.new.control task.new.frames.list.items ≤ flow_free flow }
    ensures widget { task.new.widget ≡ task.old.widget }
    ensures call { (fs : List Forest) (w : ℕ) (s : Cells) → EndsFlow fs w s flow
        → EndsCall fs w s task.new.control task.new.frames.list.items × EndsSo result }
{
    let step = put(task, flow);
    match halt {
        Toll::Short => {
            mem::forget(step);
            Stepped::OutOfFuel
        }
        _ => step,
    }
}

/// Whether so many units are there, which are then taken.
pub(crate) fn pay(meter: &mut Meter, units: usize) -> bool
    ensures yes { IsTrue result → (units ≤ meter.old.left) × (meter.new.left + units ≡ meter.old.left)
        × (meter.new.spent ≡ meter.old.spent + units) }
    ensures no { IsFalse result → (meter.old.left < units) × (meter.new ≡ meter.old) }
{
    let left = meter.left();
    if units > left as usize {
        return false;
    }
    meter.take(units as u32).is_ok()
}

/// What a task is at costs this.
pub(crate) fn cost(control: &Control) -> usize
    ensures { result ≡ charge_of control.now }
{
    match control {
        Control::Do(_) => 1,
        Control::Pay(units) => *units,
        _ => 0,
    }
}

/// A job that has its unit.
pub(crate) fn begin(
    flow: &mut Flow,
    alloc: Global,
    w: u32,
    codes: &Vec<Code>,
    store: &mut Store,
    job: Job,
) -> Result<(), Memory>
    requires widget { w < 32 }
    requires confined { IsConfined (trees_of codes.now.items) w store.old }
    requires held { FineJob (trees_of codes.now.items) w store.old.cells job
        × FineFrames (trees_of codes.now.items) w store.old.cells (all_frames flow.old) }
    ensures plan { let F = trees_of codes.now.items in OnOk result ((r : Rest)
        → flow_plan F w store.new.cells flow.new (image F r w store.new)
        ≡ todo F w store.old.cells (Control.Begin job) (all_frames flow.old) (image F r w store.old)) }
    ensures fine { OnOk result (FineFlow (trees_of codes.now.items) w store.new.cells flow.new) }
    ensures near { OnOk result (flow_free flow.new < free (Control.Begin job) (all_frames flow.old)) }
    ensures native { OnOk result (IsNative flow.new.next → (native_free ≤ job_weight job)
        × (all_frames flow.new ≡ all_frames flow.old)) }
    ensures kept { Kept (trees_of codes.now.items) w store.old store.new }
{
    begin_job(flow, alloc, w, codes, store, job)?;
    Ok(())
}

/// The statements of a block.
pub(crate) fn run(
    flow: &mut Flow,
    codes: &Vec<Code>,
    block: Block,
    place: Place,
) -> Result<(), Memory>
    requires code { place.code < length (trees_of codes.now.items) }
    requires block { IsBlock (forest_at (trees_of codes.now.items) place.code) block }
    ensures plan { OnOk result ((w : ℕ) (cells : List PlainCell) (s : State)
        → flow_plan (trees_of codes.now.items) w cells flow.new s
        ≡ and_then (block_at (trees_of codes.now.items) w cells block 0 place s)
        (rest (trees_of codes.now.items) w cells (all_frames flow.old))) }
    ensures fine { OnOk result ((w : ℕ) (cells : List PlainCell) → IsPlaceScope w cells place.scope
        → FineFrames (trees_of codes.now.items) w cells (all_frames flow.old)
        → FineFlow (trees_of codes.now.items) w cells flow.new) }
    ensures near { OnOk result (flow_free flow.new < 2 + frames_free (all_frames flow.old)) }
    ensures native { OnOk result (IsNative flow.new.next → ⊥) }
{
    begin_block(flow, codes, block, place)?;
    Ok(())
}

/// An end goes to the last frame, once those that pass it on are gone.
pub(crate) fn give(
    flow: &mut Flow,
    alloc: Global,
    w: u32,
    codes: &Vec<Code>,
    store: &mut Store,
    how: Completion,
) -> Result<(), Memory>
    requires widget { w < 32 }
    requires confined { IsConfined (trees_of codes.now.items) w store.old }
    requires held { FineCompletion w store.old.cells how
        × FineFrames (trees_of codes.now.items) w store.old.cells (all_frames flow.old) }
    ensures plan { let F = trees_of codes.now.items in OnOk result ((r : Rest)
        → flow_plan F w store.new.cells flow.new (image F r w store.new)
        ≡ todo F w store.old.cells (Control.Give how) (all_frames flow.old) (image F r w store.old)) }
    ensures fine { OnOk result (FineFlow (trees_of codes.now.items) w store.new.cells flow.new) }
    ensures near { OnOk result (flow_free flow.new < free (Control.Give how) (all_frames flow.old)) }
    ensures native { OnOk result (IsNative flow.new.next → ⊥) }
    ensures kept { Kept (trees_of codes.now.items) w store.old store.new }
{
    leave(flow, &how);
    match flow.pop() {
        None => Ok(flow.end(how)),
        Some(frame) => {
            take(flow, alloc, w, codes, store, frame, how)?;
            Ok(())
        }
    }
}

// What a task is at, once its charge was taken.
fn start(
    flow: &mut Flow,
    alloc: Global,
    w: u32,
    codes: &Vec<Code>,
    store: &mut Store,
    task: &mut Task,
) -> Result<(), Memory>
    requires going { IsGoing task.old.control }
    requires widget { w < 32 }
    requires confined { IsConfined (trees_of codes.now.items) w store.old }
    requires held { FineControl (trees_of codes.now.items) w store.old.cells task.old.control
        × FineFrames (trees_of codes.now.items) w store.old.cells (all_frames flow.old) }
    ensures plan { let F = trees_of codes.now.items in OnOk result ((r : Rest)
        → flow_plan F w store.new.cells flow.new (image F r w store.new)
        ≡ todo F w store.old.cells (after_charge task.old.control) (all_frames flow.old) (image F r w store.old)) }
    ensures fine { OnOk result (FineFlow (trees_of codes.now.items) w store.new.cells flow.new) }
    ensures near { OnOk result (flow_free flow.new < free (after_charge task.old.control) (all_frames flow.old)) }
    ensures native { OnOk result (IsNative flow.new.next
        → (native_free < control_free (after_charge task.old.control)) × (all_frames flow.new ≡ all_frames flow.old)) }
    ensures kept { Kept (trees_of codes.now.items) w store.old store.new }
    ensures widget { task.new.widget ≡ task.old.widget }
{
    if starts_in_place(&task.control) {
        return start_in_place(flow, alloc, w, codes, store, &task.control);
    }
    let control = take_control(task);
    start_taken(flow, alloc, w, codes, store, control)
}

// A job of ids alone is not moved.
fn start_in_place(
    flow: &mut Flow,
    alloc: Global,
    w: u32,
    codes: &Vec<Code>,
    store: &mut Store,
    control: &Control,
) -> Result<(), Memory>
    requires plain { starts_in_place control.now ≡ true }
    requires widget { w < 32 }
    requires confined { IsConfined (trees_of codes.now.items) w store.old }
    requires held { FineControl (trees_of codes.now.items) w store.old.cells control.now
        × FineFrames (trees_of codes.now.items) w store.old.cells (all_frames flow.old) }
    ensures plan { let F = trees_of codes.now.items in OnOk result ((r : Rest)
        → flow_plan F w store.new.cells flow.new (image F r w store.new)
        ≡ todo F w store.old.cells (after_charge control.now) (all_frames flow.old) (image F r w store.old)) }
    ensures fine { OnOk result (FineFlow (trees_of codes.now.items) w store.new.cells flow.new) }
    ensures near { OnOk result (flow_free flow.new < free (after_charge control.now) (all_frames flow.old)) }
    ensures native { OnOk result (IsNative flow.new.next → (native_free < control_free (after_charge control.now))
        × (all_frames flow.new ≡ all_frames flow.old)) }
    ensures kept { Kept (trees_of codes.now.items) w store.old store.new }
{
    match control {
        Control::Do(job) => {
            begin_ids(flow, alloc, w, codes, store, job)?;
            Ok(())
        }
        _ => unreachable!(),
    }
}

// Whether it is a job of ids alone.
fn starts_in_place(control: &Control) -> bool
    ensures { result ≡ starts_in_place control.now }
{
    match control {
        Control::Do(job) => is_of_ids(job),
        _ => false,
    }
}

// The same where it is taken out.
fn start_taken(
    flow: &mut Flow,
    alloc: Global,
    w: u32,
    codes: &Vec<Code>,
    store: &mut Store,
    control: Control,
) -> Result<(), Memory>
    requires going { IsGoing control }
    requires widget { w < 32 }
    requires confined { IsConfined (trees_of codes.now.items) w store.old }
    requires held { FineControl (trees_of codes.now.items) w store.old.cells control
        × FineFrames (trees_of codes.now.items) w store.old.cells (all_frames flow.old) }
    ensures plan { let F = trees_of codes.now.items in OnOk result ((r : Rest)
        → flow_plan F w store.new.cells flow.new (image F r w store.new)
        ≡ todo F w store.old.cells (after_charge control) (all_frames flow.old) (image F r w store.old)) }
    ensures fine { OnOk result (FineFlow (trees_of codes.now.items) w store.new.cells flow.new) }
    ensures near { OnOk result (flow_free flow.new < free (after_charge control) (all_frames flow.old)) }
    ensures native { OnOk result (IsNative flow.new.next → (native_free < control_free (after_charge control))
        × (all_frames flow.new ≡ all_frames flow.old)) }
    ensures kept { Kept (trees_of codes.now.items) w store.old store.new }
{
    match control {
        Control::Do(job) => begin(flow, alloc, w, codes, store, job),
        Control::Begin(job) => begin(flow, alloc, w, codes, store, job),
        Control::Give(how) => give(flow, alloc, w, codes, store, how),
        Control::Pay(_) => give(flow, alloc, w, codes, store, Completion::Normal),
        _ => unreachable!(),
    }
}

// What is next is done, where it costs nothing.
fn go_on(
    flow: &mut Flow,
    alloc: Global,
    w: u32,
    codes: &Vec<Code>,
    store: &mut Store,
) -> Result<(), Memory>
    requires free { is_free_next flow.old.next ≡ true }
    requires widget { w < 32 }
    requires confined { IsConfined (trees_of codes.now.items) w store.old }
    requires held { FineFlow (trees_of codes.now.items) w store.old.cells flow.old }
    ensures plan { let F = trees_of codes.now.items in OnOk result ((r : Rest)
        → flow_plan F w store.new.cells flow.new (image F r w store.new)
        ≡ flow_plan F w store.old.cells flow.old (image F r w store.old)) }
    ensures fine { OnOk result (FineFlow (trees_of codes.now.items) w store.new.cells flow.new) }
    ensures near { OnOk result (flow_free flow.new < flow_free flow.old) }
    ensures native { OnOk result (IsNative flow.new.next → ⊥) }
    ensures kept { Kept (trees_of codes.now.items) w store.old store.new }
{
    match flow.take_next() {
        Next::Give(how) => give(flow, alloc, w, codes, store, how),
        Next::Run(block, place) => run(flow, codes, block, place),
        Next::Begin(job) => begin(flow, alloc, w, codes, store, job),
        _ => unreachable!(),
    }
}

// What costs nothing is done, up to a charge, a native or an end.
pub(crate) fn settle(
    flow: &mut Flow,
    alloc: Global,
    w: u32,
    codes: &Vec<Code>,
    store: &mut Store,
) -> Result<(), Memory>
    requires widget { w < 32 }
    requires confined { IsConfined (trees_of codes.now.items) w store.old }
    requires held { FineFlow (trees_of codes.now.items) w store.old.cells flow.old }
    ensures plan { let F = trees_of codes.now.items in OnOk result ((r : Rest)
        → flow_plan F w store.new.cells flow.new (image F r w store.new)
        ≡ flow_plan F w store.old.cells flow.old (image F r w store.old)) }
    ensures fine { OnOk result (FineFlow (trees_of codes.now.items) w store.new.cells flow.new) }
    ensures near { OnOk result (flow_free flow.new ≤ flow_free flow.old) }
    ensures settled { OnOk result (IsSettled flow.new flow.new.next) }
    ensures native { OnOk result (IsNative flow.new.next → IsNative flow.old.next
        × (all_frames flow.new ≡ all_frames flow.old)) }
    ensures kept { Kept (trees_of codes.now.items) w store.old store.new }
{
    'down: while flow.is_free() {
        go_on(flow, alloc, w, codes, store)?;
    }
    Ok(())
}

// A step whose charge was taken.
fn paid_step(
    alloc: Global,
    w: u32,
    codes: &Vec<Code>,
    store: &mut Store,
    task: &mut Task,
) -> Result<Stepped, Memory>
    requires going { IsGoing task.old.control }
    requires widget { w < 32 }
    requires confined { IsConfined (trees_of codes.now.items) w store.old }
    requires held { FineControl (trees_of codes.now.items) w store.old.cells task.old.control
        × FineFrames (trees_of codes.now.items) w store.old.cells task.old.frames.list.items }
    ensures plan { let F = trees_of codes.now.items in IfOk result (λ k. (r : Rest)
        → after_step F w store.new.cells k task.new.control task.new.frames.list.items (image F r w store.new)
        ≡ todo F w store.old.cells (after_charge task.old.control) task.old.frames.list.items (image F r w store.old)) }
    ensures follows { IfOk result (λ k. Follows k task.new.control × IsNotFuel k) }
    ensures held { let F = trees_of codes.now.items in IfOk result
        (λ k. FineControl F w store.new.cells task.new.control
        × FineFrames F w store.new.cells task.new.frames.list.items × FineStepped F w store.new.cells k) }
    ensures kept { Kept (trees_of codes.now.items) w store.old store.new }
    ensures near { IfOk result (λ k. free task.new.control task.new.frames.list.items
        < free (after_charge task.old.control) task.old.frames.list.items) }
    ensures widget { task.new.widget ≡ task.old.widget }
    ensures light { IfOk result (λ k. control_free task.new.control ≤ native_free) }
    ensures native { IfOk result (λ k. IfNative k ((native_free < control_free (after_charge task.old.control))
        × (task.new.frames.list.items ≡ task.old.frames.list.items))) }
{
    let mut flow = take_flow(alloc, task);
    start(&mut flow, alloc, w, codes, store, task)?;
    settle(&mut flow, alloc, w, codes, store)?;
    Ok(put(task, flow))
}

/// One step: a charge where there is one, before all else, and then what costs nothing.
pub(crate) fn step_for(
    alloc: Global,
    w: u32,
    codes: &Vec<Code>,
    store: &mut Store,
    task: &mut Task,
    meter: &mut Meter,
) -> Result<Stepped, Memory>
    requires going { IsGoing task.old.control }
    requires widget { w < 32 }
    requires confined { IsConfined (trees_of codes.now.items) w store.old }
    requires held { FineControl (trees_of codes.now.items) w store.old.cells task.old.control
        × FineFrames (trees_of codes.now.items) w store.old.cells task.old.frames.list.items }
    requires call { EndsCall (trees_of codes.now.items) w store.old task.old.control task.old.frames.list.items }
    ensures moves { let F = trees_of codes.now.items in IfOk result (λ k. (r : Rest)
        → Moves (meter.old.left - meter.new.left) (image F r w store.old)
        (todo F w store.old.cells task.old.control task.old.frames.list.items (image F r w store.old))
        (after_step F w store.new.cells k task.new.control task.new.frames.list.items (image F r w store.new))) }
    ensures follows { IfOk result (λ k. Follows k task.new.control) }
    ensures held { let F = trees_of codes.now.items in IfOk result
        (λ k. FineControl F w store.new.cells task.new.control
        × FineFrames F w store.new.cells task.new.frames.list.items × FineStepped F w store.new.cells k) }
    ensures kept { Kept (trees_of codes.now.items) w store.old store.new }
    ensures fuel { let F = trees_of codes.now.items in IfOk result (λ k. IfOutOfFuel k ((task.new ≡ task.old)
        × (store.new ≡ store.old) × (meter.new ≡ meter.old) × ((r : Rest) → run_plan meter.old.left
        (todo F w store.old.cells task.old.control task.old.frames.list.items (image F r w store.old))
        ≡ out_of_fuel (image F r w store.old) meter.old.left))) }
    ensures short { IfOk result (λ k. IfOutOfFuel k (meter.old.left < charge_of task.old.control)) }
    ensures charge { IfOk result (λ k. meter.old.left - meter.new.left ≤ charge_of task.old.control) }
    ensures spends { (meter.new.left ≤ meter.old.left)
        × (meter.new.left + meter.new.spent ≡ meter.old.left + meter.old.spent) }
    ensures near { IfOk result (λ k. IsNotFuel k
        → 32 * meter.new.left + free task.new.control task.new.frames.list.items
        < 32 * meter.old.left + free task.old.control task.old.frames.list.items) }
    ensures widget { task.new.widget ≡ task.old.widget }
    ensures call { IfOk result
        (λ k. EndsCall (trees_of codes.now.items) w store.new task.new.control task.new.frames.list.items
        × EndsSo k) }
{
    let units = cost(&task.control);
    if !pay(meter, units) {
        return Ok(Stepped::OutOfFuel);
    }
    paid_step(alloc, w, codes, store, task)
}
