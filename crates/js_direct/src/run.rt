//! What forms share while they are carried out, and how they end.
ghost use Rattle.std.specs.Prelude.{OnOk, ◌≡◌, ℕ, ◌+◌, ◌<◌, ◌++◌, ◌∷◌, [], IfOk, IsFalse, IsTrue, List, MatchOption, option_copied, unwrap_or};
ghost use Rattle.js_tree.specs.Forest.{Forest};
ghost use Rattle.store_cells.specs.Cells.{Cells};
ghost use Rattle.widget_meaning.specs.OwnState.{State};
ghost use Rattle.widget_meaning.specs.Plan.{Do, Halt, Plan, Ret};
ghost use Rattle.widget_meaning.specs.Costs as costs;
ghost use Rattle.js_image.specs.Held.{Kept};
ghost use Rattle.js_image.specs.Plans.{meant_cause, meant_fault};
ghost use Rattle.js_names.specs.Code.{trees_of};
ghost use Rattle.js_flow.specs.Fine.{FineCompletion, FineFrames, FineJob, FineLeft};
ghost use Rattle.js_flow.specs.Frames.{Plans, before, next_plan};
ghost use Rattle.js_flow.specs.Free.{frames_free, left_free, native_free, next_free};
ghost use Rattle.js_flow.specs.Views.{completion_of, job_of};
ghost use Rattle.js_direct.specs.Comes.{Comes, FineWith, IsEnd, IsReady, ended_as};

use code_units::Memory;
use js_flow::{Completion, Flow, Frame, Job, Next, Place};
use js_image::{Fault, Made, StopCause, make_fault};
use js_names::Code;
use js_tree::Tree;
use object_store::{Store, Value};
use std::alloc::Global;
use std::mem;

/// How many forms may stand in each other before they are left to frames.
pub(crate) const DEEP: u32 = 64;

/// Where forms are carried out: what stays the same while they run.
#[derive(Drop)]
pub(crate) struct Site<'a> {
    pub alloc: Global,
    pub widget: u32,
    pub codes: &'a Vec<Code>,
}

/// Where a form stands.
#[derive(Drop)]
pub(crate) struct Here<'a> {
    pub site: &'a Site<'a>,
    /// The tree of the place's code.
    pub tree: &'a Tree,
    /// Its code, scope and depth, as frames hold them.
    pub at: Place,
}

/// What is left to run with, and what is suspended.
#[derive(Drop)]
pub(crate) struct Run {
    /// The units that may still be taken.
    pub units: u32,
    /// The frames of forms that are suspended, the innermost first.
    pub waits: Vec<Frame>,
    /// What is next, where a form is suspended.
    pub next: Next,
}

/// How a form ended; its value is at the place that its caller gave.
#[derive(Clone, Copy, PartialEq, Eq, Drop)]
pub(crate) enum Ended {
    Normal,
    Is,
    Return,
    Break,
    Continue,
    Threw,
    /// It is suspended.
    Left,
}

/// A value at a place that owns nothing.
#[inline(always)]
pub(crate) fn set_value(out: &mut Value, value: Value)
    ensures { out.new ≡ value }
{
    mem::forget(mem::replace(out, value));
}

/// What was found, for a second holder, at a place that owns nothing: `undefined` where nothing was.
#[inline(always)]
pub(crate) fn share_to(found: Option<&Value>, out: &mut Value) -> Result<(), Memory>
    ensures { OnOk result (out.new ≡ unwrap_or (option_copied found.entry) Value.Undefined) }
{
    match found {
        None => set_value(out, Value::Undefined),
        Some(Value::Num(z)) => set_value(out, Value::Num(*z)),
        Some(Value::Ref(cell)) => set_value(out, Value::Ref(*cell)),
        Some(value) => return share_any(value, out),
    }
    Ok(())
}

// The same of any value.
#[inline(never)]
fn share_any(value: &Value, out: &mut Value) -> Result<(), Memory>
    ensures { OnOk result (out.new ≡ value.now) }
{
    set_value(out, value.share()?);
    Ok(())
}

/// The value of a place, which then has none.
#[inline(always)]
pub(crate) fn take_value(out: &mut Value) -> Value
    ensures taken { result ≡ out.old }
    ensures left { out.new ≡ Value.Undefined }
{
    mem::replace(out, Value::Undefined)
}

/// No value at a place.
#[inline(always)]
pub(crate) fn clear(out: &mut Value)
    ensures { out.new ≡ Value.Undefined }
{
    *out = Value::Undefined;
}

/// What is next, whatever was: it owned nothing, or was taken out.
#[inline(always)]
pub(crate) fn set_next(run: &mut Run, next: Next)
    ensures next { run.new.next ≡ next }
    ensures waits { run.new.waits ≡ run.old.waits }
    ensures units { run.new.units ≡ run.old.units }
{
    mem::forget(mem::replace(&mut run.next, next));
}

// A frame is put last, without a copy.
#[inline(always)]
fn push_frame(frames: &mut Vec<Frame>, frame: Frame) -> Result<(), Memory>
    ensures items { OnOk result (frames.new.items ≡ frames.old.items ++ frame ∷ []) }
{
    frames.reserve(1)?;
    frames.push_reserved(frame);
    Ok(())
}

/// One frame more waits.
#[cold]
#[inline(never)]
pub(crate) fn wait(run: &mut Run, frame: Frame) -> Result<Ended, Memory>
    ensures left { IfOk result (λ how. how ≡ Ended.Left) }
    ensures waits { IfOk result (λ how. run.new.waits.items ≡ run.old.waits.items ++ frame ∷ []) }
    ensures next { IfOk result (λ how. run.new.next ≡ run.old.next) }
    ensures units { IfOk result (λ how. run.new.units ≡ run.old.units) }
{
    push_frame(&mut run.waits, frame)?;
    Ok(Ended::Left)
}

/// A job is next.
#[cold]
#[inline(never)]
pub(crate) fn leave_job(run: &mut Run, job: Job) -> Result<Ended, Memory>
    requires waits { run.old.waits.items ≡ [] }
    ensures comes { IfOk result (λ how. (fs : List Forest) (w : ℕ) (s : Cells) (v : Value)
        → FineJob fs w s.cells job → Comes fs w s s 0 (λ t. Do (job_of fs w s.cells job) t Ret) run.old run.new how v) }
    ensures left { IfOk result (λ how. how ≡ Ended.Left) }
    ensures units { IfOk result (λ how. run.new.units ≡ run.old.units) }
{
    set_next(run, Next::Go(job));
    Ok(Ended::Left)
}

/// The call stops.
#[cold]
#[inline(never)]
pub(crate) fn stop(run: &mut Run, cause: StopCause) -> Result<Ended, Memory>
    requires waits { run.old.waits.items ≡ [] }
    ensures comes { IfOk result (λ how. (fs : List Forest) (w : ℕ) (s : Cells) (v : Value)
        → Comes fs w s s 0 (λ t. Halt (meant_cause cause) t) run.old run.new how v) }
    ensures left { IfOk result (λ how. how ≡ Ended.Left) }
    ensures units { IfOk result (λ how. run.new.units ≡ run.old.units) }
{
    set_next(run, Next::Stop(cause));
    Ok(Ended::Left)
}

/// A fault is thrown.
#[cold]
#[inline(never)]
pub(crate) fn throw(
    site: &Site,
    run: &mut Run,
    store: &mut Store,
    fault: Fault,
    out: &mut Value,
) -> Result<Ended, Memory>
    requires ready { IsReady (trees_of site.now.codes.now.items) site.now.widget store.old run.old }
    ensures comes { IfOk result (λ how. Comes (trees_of site.now.codes.now.items) site.now.widget store.old store.new 1
        (costs.throw (meant_fault fault)) run.old run.new how out.new) }
    ensures thrown { IfOk result (λ how. how ≡ Ended.Is → ⊥) }
    ensures kept { Kept (trees_of site.now.codes.now.items) site.now.widget store.old store.new }
{
    match make_fault(site.alloc, store, site.widget, fault)? {
        Made::Cell(cell) => {
            *out = Value::Ref(cell);
            Ok(Ended::Threw)
        }
        Made::Stop(cause) => stop(run, cause),
    }
}

/// What a form left on a flow of its own: how it ended, or else what waits.
#[cold]
#[inline(never)]
pub(crate) fn handed(run: &mut Run, flow: Flow, out: &mut Value) -> Result<Ended, Memory>
    requires below { flow.below ≡ [] }
    requires waits { run.old.waits.items ≡ [] }
    ensures comes { IfOk result (λ how. (fs : List Forest) (w : ℕ) (old s : Cells) (p : State → Plan)
        → Plans fs w old s p flow → FineLeft fs w s.cells flow → left_free flow < native_free
        → Comes fs w old s (left_free flow) p run.old run.new how out.new) }
    ensures units { IfOk result (λ how. run.new.units ≡ run.old.units) }
{
    let (frames, next) = flow.into_parts();
    if is_none(&frames) {
        return Ok(given(run, next, out));
    }
    suspended(run, frames, next)
}

// Whether there are no frames.
fn is_none(frames: &Vec<Frame>) -> bool
    ensures { IsTrue result → frames.now.items ≡ [] }
{
    frames.is_empty()
}

// What is next where no frame waits: an end, or else what is suspended.
fn given(run: &mut Run, next: Next, out: &mut Value) -> Ended
    requires waits { run.old.waits.items ≡ [] }
    ensures comes { (fs : List Forest) (w : ℕ) (s : Cells) → FineWith fs w s.cells next
        → Comes fs w s s (next_free next) (next_plan fs w s.cells next) run.old run.new result out.new }
    ensures units { run.new.units ≡ run.old.units }
{
    match next {
        Next::Give(how) => given_end(run, how, out),
        next => {
            set_next(run, next);
            Ended::Left
        }
    }
}

// An end as a form tells it; a reference is left to frames.
fn given_end(run: &mut Run, how: Completion, out: &mut Value) -> Ended
    requires waits { run.old.waits.items ≡ [] }
    ensures comes { (fs : List Forest) (w : ℕ) (s : Cells) → FineCompletion w s.cells how
        → Comes fs w s s 1 (λ t. Ret (completion_of w s.cells how) t) run.old run.new result out.new }
    ensures units { run.new.units ≡ run.old.units }
{
    match how {
        Completion::Is(value) => {
            *out = value;
            Ended::Is
        }
        Completion::Return(value) => {
            *out = value;
            Ended::Return
        }
        Completion::Throw(value) => {
            *out = value;
            Ended::Threw
        }
        Completion::Normal => Ended::Normal,
        Completion::Break => Ended::Break,
        Completion::Continue => Ended::Continue,
        Completion::Refers(of) => {
            set_next(run, Next::Give(Completion::Refers(of)));
            Ended::Left
        }
    }
}

/// The last frame is taken out; none where there is none.
pub(crate) fn last(frames: &mut Vec<Frame>) -> Option<Frame>
    ensures { MatchOption result ((frames.old.items ≡ []) × (frames.new.items ≡ []))
        (λ f. frames.old.items ≡ frames.new.items ++ f ∷ []) }
{
    frames.pop()
}

// Frames wait, of which the last is given to first.
fn suspended(run: &mut Run, frames: Vec<Frame>, next: Next) -> Result<Ended, Memory>
    requires waits { run.old.waits.items ≡ [] }
    ensures comes { IfOk result (λ how. (fs : List Forest) (w : ℕ) (s : Cells) (v : Value)
        → FineWith fs w s.cells next → FineFrames fs w s.cells frames.items
        → Comes fs w s s (frames_free frames.items + next_free next)
        (λ t. before fs w s.cells frames.items (next_plan fs w s.cells next t)) run.old run.new how v) }
    ensures units { IfOk result (λ how. run.new.units ≡ run.old.units) }
{
    let mut frames = frames;
    set_next(run, next);
    'frames: while let Some(frame) = last(&mut frames) {
        push_frame(&mut run.waits, frame)?;
    }
    Ok(Ended::Left)
}

/// How a form ended, as frames take it.
pub(crate) fn completion(how: Ended, out: Value) -> Completion
    requires { IsEnd how }
    ensures { result ≡ ended_as how out }
{
    match how {
        Ended::Normal => Completion::Normal,
        Ended::Is => Completion::Is(out),
        Ended::Return => Completion::Return(out),
        Ended::Break => Completion::Break,
        Ended::Continue => Completion::Continue,
        Ended::Threw => Completion::Throw(out),
        Ended::Left => unreachable!(),
    }
}

/// Whether a charge is there, which is then taken; else it is next. A charge of no units is left to frames.
pub(crate) fn is_paid(run: &mut Run, units: usize) -> bool
    ensures yes { IsTrue result → (0 < units) × (run.new.units + units ≡ run.old.units)
        × (run.new.waits ≡ run.old.waits) }
    ensures no { IsFalse result → (run.new.next ≡ Next.Pay units) × (run.new.waits ≡ run.old.waits)
        × (run.new.units ≡ run.old.units) }
{
    if 0 < units && units <= run.units as usize {
        run.units -= units as u32;
        return true;
    }
    set_next(run, Next::Pay(units));
    false
}
