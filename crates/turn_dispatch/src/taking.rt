//! What becomes of how a call ended, by what waits for it.
ghost use Rattle.std.specs.Prelude.{◌≡◌, ℕ, ◌<◌, [], ◌∷◌, List, Option, IfOk, IfSome, None, get_or, length};
ghost use Rattle.js_tree.specs.Forest.{Forest};
ghost use Rattle.store_cells.specs.Cells.{Cells, PlainCell};
ghost use Rattle.widget_meaning.specs.Costs as costs;
ghost use Rattle.widget_meaning.specs.OwnState.{State};
ghost use Rattle.widget_meaning.specs.Properties as properties;
ghost use Rattle.widget_meaning.specs.Dispatch as meaning;
ghost use Rattle.widget_meaning.specs.Dispatch.{bubble_on};
ghost use Rattle.widget_meaning.specs.Plan as plan;
ghost use Rattle.widget_meaning.specs.Plan.{Do, Ret, after};
ghost use Rattle.widget_meaning.specs.Values.{Own, Undefined};
ghost use Rattle.page_image.specs.Image.{number};
ghost use Rattle.page_tree.specs.declared.page.Page.{Page as PageTree};
ghost use Rattle.js_image.specs.Held.{IsFine, IsHeld, Kept};
ghost use Rattle.js_image.specs.Plans.{meant_fault};
ghost use Rattle.js_image.specs.Image.{Rest, image as store_image, seen};
ghost use Rattle.js_flow.specs.Free.{free};
ghost use Rattle.js_flow.specs.Views.{completion_of};
ghost use Rattle.native_image.specs.Sound.{IsSound};
ghost use Rattle.js_steps.specs.Answered.{remaining};
ghost use Rattle.js_steps.specs.Ending.{FineEnd};
ghost use Rattle.turn_dispatch.specs.Held.{FineHeard, FineHearing, FineTask};
ghost use Rattle.turn_dispatch.specs.Waiting.{FineFiring, FineLevel};
ghost use Rattle.turn_dispatch.specs.Levels.{functions_of, hearing_of, level_taken, searched_plan};
ghost use Rattle.turn_dispatch.specs.Took.{FineTook, IsNext, IsStored, StaysSound, took_plan};
ghost use Rattle.turn_dispatch.specs.Weights.{level_free, took_free};
ghost use Rattle.turn_dispatch.specs.declared.level.Level.TheVariants as level;

use crate::calls::Took;
use crate::level::{Dispatch, Firing, Heard, Hearing};
use crate::searching::search;
use crate::site::Site;
use code_units::{Memory, Text};
use js_flow::{Args, Call, Completion, Control, Job};
use js_image::{Fault, Made, Written, make_fault, put};
use js_steps::{Frames, Task};
use native_image::WidgetId;
use object_store::{CellId, Store, Value};
use page_image::parent;
use std::alloc::Global;

// The value of a library's function is kept in `lib`, under the library's name.
pub(crate) fn keeps(
    alloc: Global,
    store: &mut Store,
    w: WidgetId,
    lib: CellId,
    name: &Text,
    how: Completion,
) -> Result<Took, Memory>
    requires lib { IsHeld w.index store.old.cells lib }
    requires how { FineEnd w.index store.old.cells how }
    ensures next { IfOk result (IsStored w.index store.old store.new
        (after (λ v s. properties.put (seen w.index store.old.cells (Value.Ref lib)) name.now v s (costs.give Undefined))
        (completion_of w.index store.old.cells how))) }
    ensures kept { (fs : List Forest) → Kept fs w.index store.old store.new }
{
    match how {
        Completion::Is(value) => keep(alloc, store, w, lib, name, value),
        other => Ok(Took::Gives(other)),
    }
}

// A value is kept in `lib`.
fn keep(
    alloc: Global,
    store: &mut Store,
    w: WidgetId,
    lib: CellId,
    name: &Text,
    value: Value,
) -> Result<Took, Memory>
    requires lib { IsHeld w.index store.old.cells lib }
    requires value { IsFine w.index store.old.cells value }
    ensures next { IfOk result (IsStored w.index store.old store.new
        (λ s. properties.put (seen w.index store.old.cells (Value.Ref lib)) name.now (seen w.index store.old.cells value) s
        (costs.give Undefined))) }
    ensures kept { (fs : List Forest) → Kept fs w.index store.old store.new }
{
    match put(store, w.index, &Value::Ref(lib), name, value)? {
        Written::Done => Ok(Took::Gives(Completion::Is(Value::Undefined))),
        Written::Stop(cause) => Ok(Took::Stops(cause)),
        Written::Throw(fault) => throw(alloc, store, w, fault),
    }
}

// A fault is thrown as a new object.
fn throw(alloc: Global, store: &mut Store, w: WidgetId, fault: Fault) -> Result<Took, Memory>
    ensures next { IfOk result (IsStored w.index store.old store.new (costs.throw (meant_fault fault))) }
    ensures kept { (fs : List Forest) → Kept fs w.index store.old store.new }
{
    match make_fault(alloc, store, w.index, fault)? {
        Made::Cell(cell) => Ok(Took::Gives(Completion::Throw(Value::Ref(cell)))),
        Made::Stop(cause) => Ok(Took::Stops(cause)),
    }
}

// A task that waits for a native goes on with how it ended.
pub(crate) fn waits(task: Box<Task>, how: Completion) -> Took
    ensures plan { (fs : List Forest) (w : ℕ) (cells : List PlainCell) (p : PageTree) (s : State)
        → level_taken fs w cells p (level.Waits task) (completion_of w cells how) s ≡ took_plan fs w cells p result s }
    ensures fine { (fs : List Forest) (w : ℕ) (s : Cells) (p : PageTree)
        → FineLevel fs w s.cells p (level.Waits task) → FineEnd w s.cells how → FineTook fs w s p result }
    ensures near { took_free result ≡ level_free (level.Waits task) }
{
    let mut task = task;
    set(&mut task, Control::Give(how));
    Took::Runs(task)
}

fn set(task: &mut Task, control: Control)
    ensures control { task.new.control ≡ control }
    ensures frames { task.new.frames ≡ task.old.frames }
    ensures widget { task.new.widget ≡ task.old.widget }
{
    task.control = control;
}

// The event object as the one argument.
fn event_args(alloc: Global, event: CellId) -> Result<Args, Memory>
    ensures { IfOk result (λ args. args.items ≡ Value.Ref event ∷ []) }
{
    let mut args = Args::new(alloc);
    args.push(Value::Ref(event))?;
    Ok(args)
}

/// The handler of a dispatch with a number is called next. What is called has yet to take its first unit.
pub fn call_handler(
    alloc: Global,
    w: WidgetId,
    hearing: &Hearing,
    next: usize,
) -> Result<Box<Task>, Memory>
    requires { next < length hearing.now.handlers.items }
    ensures plan { IfOk result (λ t. (fs : List Forest) (s : Cells) (p : PageTree) (r : Rest)
        → FineHearing w.index s.cells p hearing.now
        → remaining fs w.index s t.value r
        ≡ Do (plan.Call (Own (get_or (functions_of w.index s.cells p hearing.now) next 0)) None
        ((hearing_of w.index s.cells p hearing.now).event ∷ []) hearing.now.dispatch.depth) (store_image fs r w.index s) Ret) }
    ensures fine { IfOk result (λ t. (fs : List Forest) (s : Cells) (p : PageTree)
        → FineHearing w.index s.cells p hearing.now → FineTask fs w.index s p t.value) }
    ensures free { IfOk result (λ t. free t.value.control t.value.frames.list.items ≡ 0) }
{
    let call = Call {
        func: Value::Ref(hearing.handlers[next]),
        this: None,
        args: event_args(alloc, hearing.event)?,
        depth: hearing.dispatch.depth,
    };
    let task = Task {
        widget: w.index,
        control: Control::Do(Job::Call(Box::new(alloc, call)?)),
        frames: Frames::new(alloc),
    };
    Ok(Box::new(alloc, task)?)
}

// A dispatch is over: where `bubble` was called in it, the search goes on from the node's parent.
#[tactic(auto, using(crate::proofs::Kept::sound_same))]
pub(crate) fn end_dispatch(
    alloc: Global,
    store: &mut Store,
    site: &Site,
    hearing: Box<Hearing>,
    bubbled: bool,
) -> Result<Took, Memory>
    requires sound { IsSound site.now.id.index store.old site.now.page.now site.now.around.now }
    requires hearing { FineHearing site.now.id.index store.old.cells site.now.page.now hearing.value }
    ensures next { let w = site.now.id.index in let p = site.now.page.now in
        IfOk result (IsNext w p site.now.around.now store.old store.new
        (bubble_on bubbled (hearing_of w store.old.cells p hearing.value))) }
    ensures kept { StaysSound site.now.id.index site.now.page.now store.old store.new }
{
    if !bubbled {
        return Ok(Took::Gives(Completion::Is(Value::Undefined)));
    }
    let from = parent(site.page, site.id.index, hearing.node);
    let dispatch = again(&hearing.dispatch)?;
    let found = search(alloc, store, site, dispatch, from)?;
    Ok(took_of(found))
}

// The same dispatch for a second node.
fn again(dispatch: &Dispatch) -> Result<Dispatch, Memory>
    ensures { IfOk result (λ d. d ≡ dispatch.now) }
{
    Ok(Dispatch {
        kind: dispatch.kind.share()?,
        target: dispatch.target,
        value: dispatch.value.share()?,
        depth: dispatch.depth,
    })
}

// What is done next with what was found; where nobody listens, nothing.
fn took_of(found: Option<Heard>) -> Took
    ensures plan { (fs : List Forest) (w : ℕ) (cells : List PlainCell) (p : PageTree) (s : State)
        → searched_plan w cells p found s ≡ took_plan fs w cells p result s }
    ensures fine { (fs : List Forest) (w : ℕ) (s : Cells) (p : PageTree)
        → IfSome found (FineHeard w s.cells p) → FineTook fs w s p result }
    ensures near { took_free result ≡ 0 }
{
    match found {
        None => Took::Gives(Completion::Is(Value::Undefined)),
        Some(Heard::Calls(hearing)) => Took::Hears(hearing),
        Some(Heard::Stop(cause)) => Took::Stops(cause),
    }
}

// The event is fired at the node with a number.
#[tactic(auto, using(crate::proofs::Kept::sound_same))]
pub(crate) fn fire(
    alloc: Global,
    store: &mut Store,
    site: &Site,
    firing: &Firing,
    next: usize,
) -> Result<Took, Memory>
    requires sound { IsSound site.now.id.index store.old site.now.page.now site.now.around.now }
    requires firing { FineFiring site.now.id.index store.old.cells site.now.page.now firing.now }
    requires there { next < length firing.now.nodes.items }
    ensures next { let w = site.now.id.index in let p = site.now.page.now in let f = firing.now in
        IfOk result (IsNext w p site.now.around.now store.old store.new
        (meaning.dispatch f.kind (number p w (get_or f.nodes.items next 0)) Undefined f.depth)) }
    ensures kept { StaysSound site.now.id.index site.now.page.now store.old store.new }
{
    let node = firing.nodes[next];
    let dispatch = Dispatch {
        kind: firing.kind.share()?,
        target: node,
        value: Value::Undefined,
        depth: firing.depth,
    };
    let found = search(alloc, store, site, dispatch, Some(node))?;
    Ok(took_of(found))
}
