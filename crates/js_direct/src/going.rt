//! What is next on a flow, carried out in place.
ghost use Rattle.std.specs.Prelude.{◌≡◌, ℕ, ◌+◌, ◌*◌, ◌-◌, ◌<◌, ◌≤◌, IfOk, List, OnOk, true};
ghost use Rattle.js_tree.specs.Forest.{Forest};
ghost use Rattle.store_cells.specs.Cells.{Cells, PlainCell};
ghost use Rattle.widget_meaning.specs.OwnState.{State};
ghost use Rattle.widget_meaning.specs.Values as meaning;
ghost use Rattle.widget_meaning.specs.Plan.{Do, Plan, Ret, and_then};
ghost use Rattle.js_image.specs.Image.{Rest, image};
ghost use Rattle.js_image.specs.Held.{IsConfined, Kept};
ghost use Rattle.js_names.specs.Code.{trees_of};
ghost use Rattle.js_flow.specs.Fine.{FineCall, FineFlow, FineFrames, FineJob, FineNext, IsBlockAt, IsExprAt, IsStmtAt};
ghost use Rattle.js_flow.specs.Frames.{flow_plan, next_plan, rest};
ghost use Rattle.js_flow.specs.Free.{flow_free, frames_free, next_free};
ghost use Rattle.js_flow.specs.Left.{all_frames};
ghost use Rattle.js_flow.specs.Statements.{block_at};
ghost use Rattle.js_flow.specs.Views.{job_of};
ghost use Rattle.js_direct.specs.Comes.{Comes, ComesTo, FineCame, FineWith, IsNative, IsReady, Reaches, came, came_free, outward};
ghost use Rattle.js_direct.specs.Going.{end_of, how_of, is_direct, is_direct_job};
ghost use Rattle.js_direct.specs.Reduces.{Reduces};

use crate::blocks::block_on;
use crate::entering::invoke_on;
use crate::forms::eval_on;
use crate::looping::passes_on;
use crate::run::{DEEP, Ended, Here, Run, Site, completion, last};
use crate::statements::exec_on;
use crate::targets::target_on;
use code_units::Memory;
use js_flow::{Block, Call, Completion, Flow, Frame, Job, Next, Place, Reference};
use js_names::{Code, tree_at};
use js_tree::{ExprId, StmtId};
use object_store::{Store, Value};
use std::alloc::Global;

/// Whether what is next can be carried out in place: a job of ids, a call or a block.
pub fn is_direct(next: &Next) -> bool
    ensures { result ≡ is_direct next.now }
{
    match next {
        Next::Go(job) => is_direct_job(job),
        Next::Run(_, _) => true,
        _ => false,
    }
}

// The same of a job.
fn is_direct_job(job: &Job) -> bool
    ensures { result ≡ is_direct_job job.now }
{
    match job {
        Job::Eval(_, _) => true,
        Job::Target(_, _) => true,
        Job::Exec(_, _) => true,
        Job::Pass(_, _) => true,
        Job::Call(_) => true,
        _ => false,
    }
}

// An end as frames take it; none where the form is suspended.
fn came(how: Ended, out: Value) -> Option<Completion>
    ensures { (fs : List Forest) (w : ℕ) (s t : Cells) (n : ℕ) (p : State → Plan) (had has : Run)
        → Comes fs w s t n p had has how out → ComesTo fs w s t n p had has (how_of result) (end_of result) }
{
    match how {
        Ended::Left => None,
        how => Some(completion(how, out)),
    }
}

// The same of a target.
fn reached(how: Ended, of: Reference, out: Value) -> Option<Completion>
    ensures { (fs : List Forest) (w : ℕ) (s t : Cells) (n : ℕ) (p : State → Plan) (had has : Run)
        → Reaches fs w s t n p had has how of out → ComesTo fs w s t n p had has (how_of result) (end_of result) }
{
    match how {
        Ended::Left => None,
        Ended::Is => Some(Completion::Refers(of)),
        how => Some(completion(how, out)),
    }
}

// An expression.
fn run_form(
    site: &Site,
    run: &mut Run,
    store: &mut Store,
    id: ExprId,
    place: Place,
) -> Result<Option<Completion>, Memory>
    requires ready { IsReady (trees_of site.now.codes.now.items) site.now.widget store.old run.old }
    requires held { IsExprAt (trees_of site.now.codes.now.items) site.now.widget store.old.cells id place }
    ensures comes { let F = trees_of site.now.codes.now.items in let w = site.now.widget in
        IfOk result (λ o. ComesTo F w store.old store.new 0
        (λ s. Do (job_of F w store.old.cells (Job.Eval id place)) s Ret) run.old run.new (how_of o) (end_of o)) }
    ensures paid { IfOk result (λ o. 0 < run.old.units → run.new.units < run.old.units) }
    ensures kept { Kept (trees_of site.now.codes.now.items) site.now.widget store.old store.new }
{
    let mut out = Value::Undefined;
    let here = Here {
        site,
        tree: tree_at(site.codes, place.code),
        at: place,
    };
    let how = eval_on(&here, run, store, id, DEEP, &mut out)?;
    Ok(came(how, out))
}

// A target.
fn run_target(
    site: &Site,
    run: &mut Run,
    store: &mut Store,
    id: ExprId,
    place: Place,
) -> Result<Option<Completion>, Memory>
    requires ready { IsReady (trees_of site.now.codes.now.items) site.now.widget store.old run.old }
    requires held { IsExprAt (trees_of site.now.codes.now.items) site.now.widget store.old.cells id place }
    ensures comes { let F = trees_of site.now.codes.now.items in let w = site.now.widget in
        IfOk result (λ o. ComesTo F w store.old store.new 0
        (λ s. Do (job_of F w store.old.cells (Job.Target id place)) s Ret) run.old run.new (how_of o) (end_of o)) }
    ensures paid { IfOk result (λ o. 0 < run.old.units → run.new.units < run.old.units) }
    ensures kept { Kept (trees_of site.now.codes.now.items) site.now.widget store.old store.new }
{
    let mut out = Value::Undefined;
    let mut of = Reference::Found(Value::Undefined);
    let here = Here {
        site,
        tree: tree_at(site.codes, place.code),
        at: place,
    };
    let how = target_on(&here, run, store, id, DEEP, &mut of, &mut out)?;
    Ok(reached(how, of, out))
}

// A statement.
fn run_statement(
    site: &Site,
    run: &mut Run,
    store: &mut Store,
    id: StmtId,
    place: Place,
) -> Result<Option<Completion>, Memory>
    requires ready { IsReady (trees_of site.now.codes.now.items) site.now.widget store.old run.old }
    requires held { IsStmtAt (trees_of site.now.codes.now.items) site.now.widget store.old.cells id place }
    ensures comes { let F = trees_of site.now.codes.now.items in let w = site.now.widget in
        IfOk result (λ o. ComesTo F w store.old store.new 0
        (λ s. Do (job_of F w store.old.cells (Job.Exec id place)) s Ret) run.old run.new (how_of o) (end_of o)) }
    ensures paid { IfOk result (λ o. 0 < run.old.units → run.new.units < run.old.units) }
    ensures kept { Kept (trees_of site.now.codes.now.items) site.now.widget store.old store.new }
{
    let mut out = Value::Undefined;
    let here = Here {
        site,
        tree: tree_at(site.codes, place.code),
        at: place,
    };
    let how = exec_on(&here, run, store, id, DEEP, &mut out)?;
    Ok(came(how, out))
}

// Passes of a loop.
fn run_passes(
    site: &Site,
    run: &mut Run,
    store: &mut Store,
    id: StmtId,
    place: Place,
) -> Result<Option<Completion>, Memory>
    requires ready { IsReady (trees_of site.now.codes.now.items) site.now.widget store.old run.old }
    requires held { IsStmtAt (trees_of site.now.codes.now.items) site.now.widget store.old.cells id place }
    ensures comes { let F = trees_of site.now.codes.now.items in let w = site.now.widget in
        IfOk result (λ o. ComesTo F w store.old store.new 0
        (λ s. Do (job_of F w store.old.cells (Job.Pass id place)) s Ret) run.old run.new (how_of o) (end_of o)) }
    ensures paid { IfOk result (λ o. 0 < run.old.units → run.new.units < run.old.units) }
    ensures kept { Kept (trees_of site.now.codes.now.items) site.now.widget store.old store.new }
{
    let mut out = Value::Undefined;
    let here = Here {
        site,
        tree: tree_at(site.codes, place.code),
        at: place,
    };
    let how = passes_on(&here, run, store, id, DEEP, &mut out)?;
    Ok(came(how, out))
}

// A call.
fn run_call(
    site: &Site,
    run: &mut Run,
    store: &mut Store,
    call: Box<Call>,
) -> Result<Option<Completion>, Memory>
    requires ready { IsReady (trees_of site.now.codes.now.items) site.now.widget store.old run.old }
    requires held { FineCall site.now.widget store.old.cells call.value }
    requires units { 0 < run.old.units }
    ensures comes { let F = trees_of site.now.codes.now.items in let w = site.now.widget in
        IfOk result (λ o. ComesTo F w store.old store.new 0
        (λ s. Do (job_of F w store.old.cells (Job.Call call)) s Ret) run.old run.new (how_of o) (end_of o)) }
    ensures paid { IfOk result (λ o. 0 < run.old.units → run.new.units < run.old.units) }
    ensures kept { Kept (trees_of site.now.codes.now.items) site.now.widget store.old store.new }
{
    run.units -= 1;
    let mut out = Value::Undefined;
    let how = invoke_on(site, run, store, Box::into_inner(call), DEEP, &mut out)?;
    Ok(came(how, out))
}

// A block.
fn run_block(
    site: &Site,
    run: &mut Run,
    store: &mut Store,
    block: Block,
    place: Place,
) -> Result<Option<Completion>, Memory>
    requires ready { IsReady (trees_of site.now.codes.now.items) site.now.widget store.old run.old }
    requires held { IsBlockAt (trees_of site.now.codes.now.items) site.now.widget store.old.cells block place }
    ensures comes { let F = trees_of site.now.codes.now.items in let w = site.now.widget in
        IfOk result (λ o. ComesTo F w store.old store.new 1
        (block_at F w store.old.cells block 0 place) run.old run.new (how_of o) (end_of o)) }
    ensures kept { Kept (trees_of site.now.codes.now.items) site.now.widget store.old store.new }
{
    let mut out = Value::Undefined;
    let here = Here {
        site,
        tree: tree_at(site.codes, place.code),
        at: place,
    };
    let how = block_on(&here, run, store, block, DEEP, &mut out)?;
    Ok(came(how, out))
}

// A job.
fn run_job(
    site: &Site,
    run: &mut Run,
    store: &mut Store,
    job: Job,
) -> Result<Option<Completion>, Memory>
    requires ready { IsReady (trees_of site.now.codes.now.items) site.now.widget store.old run.old }
    requires held { FineJob (trees_of site.now.codes.now.items) site.now.widget store.old.cells job }
    requires units { 0 < run.old.units }
    requires direct { is_direct_job job ≡ true }
    ensures comes { let F = trees_of site.now.codes.now.items in let w = site.now.widget in
        IfOk result (λ o. ComesTo F w store.old store.new 0
        (λ s. Do (job_of F w store.old.cells (job)) s Ret) run.old run.new (how_of o) (end_of o)) }
    ensures paid { IfOk result (λ o. 0 < run.old.units → run.new.units < run.old.units) }
    ensures kept { Kept (trees_of site.now.codes.now.items) site.now.widget store.old store.new }
{
    match job {
        Job::Eval(id, place) => run_form(site, run, store, id, place),
        Job::Target(id, place) => run_target(site, run, store, id, place),
        Job::Exec(id, place) => run_statement(site, run, store, id, place),
        Job::Pass(id, place) => run_passes(site, run, store, id, place),
        Job::Call(call) => run_call(site, run, store, call),
        _ => unreachable!(),
    }
}

// What is next.
fn run_next(
    site: &Site,
    run: &mut Run,
    store: &mut Store,
    next: Next,
) -> Result<Option<Completion>, Memory>
    requires ready { IsReady (trees_of site.now.codes.now.items) site.now.widget store.old run.old }
    requires held { FineNext (trees_of site.now.codes.now.items) site.now.widget store.old.cells next }
    requires units { 0 < run.old.units }
    requires direct { is_direct next ≡ true }
    ensures comes { let F = trees_of site.now.codes.now.items in let w = site.now.widget in
        IfOk result (λ o. ComesTo F w store.old store.new 1 (next_plan F w store.old.cells next) run.old run.new
        (how_of o) (end_of o)) }
    ensures near { IfOk result (λ o. came_free (trees_of site.now.codes.now.items) site.now.widget
        (how_of o) run.new + 32 * run.new.units
        < 32 * run.old.units + next_free next) }
    ensures kept { Kept (trees_of site.now.codes.now.items) site.now.widget store.old store.new }
{
    match next {
        Next::Go(job) => run_job(site, run, store, job),
        Next::Run(block, place) => run_block(site, run, store, block, place),
        _ => unreachable!(),
    }
}

// Frames that wait go onto the flow, the innermost last.
fn put_frames(flow: &mut Flow, waits: Vec<Frame>) -> Result<(), Memory>
    ensures plan { OnOk result ((fs : List Forest) (w : ℕ) (cells : List PlainCell) (o : meaning.Completion) (s : State)
        → rest fs w cells (all_frames flow.new) o s ≡ and_then (outward fs w cells waits.items o s)
        (rest fs w cells (all_frames flow.old))) }
    ensures fine { OnOk result ((fs : List Forest) (w : ℕ) (cells : List PlainCell) → FineFrames fs w cells waits.items
        → FineFrames fs w cells (all_frames flow.old) → FineFrames fs w cells (all_frames flow.new)) }
    ensures free { OnOk result (frames_free (all_frames flow.new) ≡ frames_free
        (all_frames flow.old) + frames_free waits.items) }
{
    let mut waits = waits;
    'frames: while let Some(frame) = last(&mut waits) {
        flow.push_pay(frame, 0)?;
    }
    Ok(())
}

// The same, and this is next.
fn put_waits(flow: &mut Flow, waits: Vec<Frame>, next: Next) -> Result<(), Memory>
    ensures plan { OnOk result ((fs : List Forest) (w : ℕ) (cells : List PlainCell) (s : State)
        → flow_plan fs w cells flow.new s ≡ and_then (and_then (next_plan fs w cells next s)
        (outward fs w cells waits.items))
        (rest fs w cells (all_frames flow.old))) }
    ensures fine { OnOk result ((fs : List Forest) (w : ℕ) (cells : List PlainCell) → FineWith fs w cells next
        → FineFrames fs w cells waits.items → FineFrames fs w cells (all_frames flow.old)
        → FineFlow fs w cells flow.new) }
    ensures free { OnOk result (flow_free flow.new ≡ frames_free
        (all_frames flow.old) + frames_free waits.items + next_free next) }
    ensures next { OnOk result (flow.new.next ≡ next) }
{
    put_frames(flow, waits)?;
    Ok(flow.leave(next))
}

// What a form came to is left on the flow.
fn put_run(flow: &mut Flow, run: Run, how: Option<Completion>) -> Result<(), Memory>
    ensures plan { OnOk result ((fs : List Forest) (w : ℕ) (cells : List PlainCell) (s : State)
        → flow_plan fs w cells flow.new s ≡ and_then (came fs w cells (how_of how) (end_of how) run s)
        (rest fs w cells (all_frames flow.old))) }
    ensures fine { OnOk result ((fs : List Forest) (w : ℕ) (cells : List PlainCell) → FineCame fs w cells (how_of how)
        (end_of how) run
        → FineFrames fs w cells (all_frames flow.old) → FineFlow fs w cells flow.new) }
    ensures free { OnOk result ((fs : List Forest) (w : ℕ) → flow_free flow.new ≡ frames_free
        (all_frames flow.old) + came_free fs w (how_of how) run) }
    ensures native { OnOk result ((fs : List Forest) (w : ℕ) (cells : List PlainCell) → FineCame fs w cells
        (how_of how) (end_of how) run → IsNative flow.new.next → ⊥) }
{
    match how {
        Some(how) => Ok(flow.give(how)),
        None => {
            let Run { waits, next, .. } = run;
            put_waits(flow, waits, next)
        }
    }
}

/// What is next is carried out, by no more than these units; those that are left. What is suspended stands
/// on the flow then.
pub fn go(
    flow: &mut Flow,
    alloc: Global,
    w: u32,
    codes: &Vec<Code>,
    store: &mut Store,
    units: u32,
) -> Result<u32, Memory>
    requires widget { w < 32 }
    requires confined { IsConfined (trees_of codes.now.items) w store.old }
    requires held { FineFlow (trees_of codes.now.items) w store.old.cells flow.old }
    requires direct { is_direct flow.old.next ≡ true }
    requires units { 0 < units }
    ensures left { IfOk result (λ left. left ≤ units) }
    ensures reduces { let F = trees_of codes.now.items in IfOk result (λ left. (r : Rest) → Reduces (units - left)
        (flow_plan F w store.old.cells flow.old (image F r w store.old))
        (flow_plan F w store.new.cells flow.new (image F r w store.new))) }
    ensures fine { IfOk result (λ left. FineFlow (trees_of codes.now.items) w store.new.cells flow.new) }
    ensures near { IfOk result (λ left. 32 * left + flow_free flow.new < 32 * units + flow_free flow.old) }
    ensures native { IfOk result (λ left. IsNative flow.new.next → ⊥) }
    ensures kept { Kept (trees_of codes.now.items) w store.old store.new }
{
    let site = Site {
        alloc,
        widget: w,
        codes,
    };
    let mut run = Run {
        units,
        waits: Vec::new(alloc),
        next: Next::Nothing,
    };
    let next = flow.take_next();
    let how = run_next(&site, &mut run, store, next)?;
    let left = run.units;
    put_run(flow, run, how)?;
    Ok(left)
}
