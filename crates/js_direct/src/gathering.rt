//! A function that is called with each item of a list, in place.
ghost use Rattle.std.specs.Prelude.{◌≡◌, ℕ, List, [], ◌∷◌, None, IfOk, length, pos};
ghost use Rattle.js_tree.specs.Forest.{Forest};
ghost use Rattle.store_cells.specs.Cells.{Cells};
ghost use Rattle.widget_meaning.specs.Plan as plan;
ghost use Rattle.widget_meaning.specs.Plan.{Do, Ret};
ghost use Rattle.widget_meaning.specs.Values.{Num};
ghost use Rattle.js_image.specs.Image.{all_seen, seen};
ghost use Rattle.js_image.specs.Held.{AreFine, IsFine, IsHeld, Kept};
ghost use Rattle.js_names.specs.Code.{trees_of};
ghost use Rattle.js_calls.specs.Called.{gather_left};
ghost use Rattle.js_flow.specs.Fine.{FineGathering};
ghost use Rattle.js_direct.specs.Comes.{Comes, IsReady};
ghost use Rattle.js_direct.specs.Gathered.{IsMore};

use crate::entering::value_far;
use crate::run::{Ended, Run, Site, handed, leave_job, take_value, wait};
use code_units::Memory;
use js_calls::{gather, next_item};
use js_flow::{Args, Call, CallFrame, Flow, Frame, Gathering, Job};
use object_store::{CellId, Number, Store, Value};
use std::alloc::Global;

/// Calls a function with each item that has no result yet, and gives what is kept of all calls.
#[cycle(direct)]
pub(crate) fn gather_on(
    site: &Site,
    run: &mut Run,
    store: &mut Store,
    g: Box<Gathering>,
    deep: u32,
    out: &mut Value,
) -> Result<Ended, Memory>
    requires ready { IsReady (trees_of site.now.codes.now.items) site.now.widget store.old run.old }
    requires held { FineGathering site.now.widget store.old.cells g.value }
    ensures comes { let F = trees_of site.now.codes.now.items in let w = site.now.widget in
        IfOk result (λ how. Comes F w store.old store.new 15 (gather_left w store.old.cells g.value)
        run.old run.new how out.new) }
    ensures kept { Kept (trees_of site.now.codes.now.items) site.now.widget store.old store.new }
{
    let mut g = g;
    'items: while let Some(item) = next_item(&g)? {
        match item_on(site, run, store, &g, item, deep, out)? {
            Ended::Is => {
                let more = with_result(g, take_value(out))?;
                g = more;
            }
            Ended::Left => return wait(run, Frame::Call(CallFrame::Gather(g))),
            how => return Ok(how),
        }
    }
    gathered_on(site, run, store, g, out)
}

// The same with one result more.
fn with_result(g: Box<Gathering>, value: Value) -> Result<Box<Gathering>, Memory>
    ensures { IfOk result (λ h. IsMore g.value h.value value) }
{
    let mut g = g;
    g.results.push(value)?;
    Ok(g)
}

// A call with an item and its index, before its unit.
#[inline(always)]
#[cycle(direct)]
fn item_on(
    site: &Site,
    run: &mut Run,
    store: &mut Store,
    g: &Gathering,
    item: Value,
    deep: u32,
    out: &mut Value,
) -> Result<Ended, Memory>
    requires ready { IsReady (trees_of site.now.codes.now.items) site.now.widget store.old run.old }
    requires held { IsHeld site.now.widget store.old.cells g.now.func
        × IsFine site.now.widget store.old.cells item }
    ensures comes { let F = trees_of site.now.codes.now.items in let w = site.now.widget in
        IfOk result (λ how. Comes F w store.old store.new 0
        (λ s. Do (plan.Call (seen w store.old.cells (Value.Ref g.now.func)) None
        (seen w store.old.cells item ∷ (Num (pos (length g.now.results.items)) ∷ [])) g.now.depth) s Ret)
        run.old run.new how out.new) }
    ensures kept { Kept (trees_of site.now.codes.now.items) site.now.widget store.old store.new }
{
    let mut args = item_args(site.alloc, item, &g.results)?;
    if run.units == 0 || deep == 0 {
        return call_far(site.alloc, run, g.func, args, g.depth);
    }
    run.units -= 1;
    let func = Value::Ref(g.func);
    let mut this = None;
    value_far(
        site,
        run,
        store,
        &func,
        &mut this,
        &mut args,
        g.depth,
        deep - 1,
        out,
    )
}

// An item and its index, as arguments.
fn item_args(alloc: Global, item: Value, results: &Vec<Value>) -> Result<Args, Memory>
    ensures { IfOk result (λ args. args.items
        ≡ item ∷ (Value.Num (Number.Whole (pos (length results.now.items))) ∷ [])) }
{
    let mut args = Args::new(alloc);
    args.push(item)?;
    args.push(count_of(results))?;
    Ok(args)
}

// How many there are, as a value.
#[inline(always)]
fn count_of(values: &Vec<Value>) -> Value
    ensures { result ≡ Value.Num (Number.Whole (pos (length values.now.items))) }
{
    Value::Num(Number::Whole(values.len() as i64))
}

// The job of a plain call is left.
#[cold]
#[inline(never)]
fn call_far(
    alloc: Global,
    run: &mut Run,
    func: CellId,
    args: Args,
    depth: u32,
) -> Result<Ended, Memory>
    requires waits { run.old.waits.items ≡ [] }
    ensures comes { IfOk result (λ how. (fs : List Forest) (w : ℕ) (s : Cells) (v : Value)
        → IsHeld w s.cells func → AreFine w s.cells args.items → Comes fs w s s 0
        (λ t. Do (plan.Call (seen w s.cells (Value.Ref func)) None (all_seen w s.cells args.items) depth) t Ret)
        run.old run.new how v) }
{
    let call = Call {
        func: Value::Ref(func),
        this: None,
        args,
        depth,
    };
    leave_job(run, Job::Call(Box::new(alloc, call)?))
}

// What is kept, where each item has its result.
fn gathered_on(
    site: &Site,
    run: &mut Run,
    store: &mut Store,
    g: Box<Gathering>,
    out: &mut Value,
) -> Result<Ended, Memory>
    requires ready { IsReady (trees_of site.now.codes.now.items) site.now.widget store.old run.old }
    requires held { FineGathering site.now.widget store.old.cells g.value }
    ensures comes { let F = trees_of site.now.codes.now.items in let w = site.now.widget in
        IfOk result (λ how. Comes F w store.old store.new 15 (gather_left w store.old.cells g.value)
        run.old run.new how out.new) }
    ensures kept { Kept (trees_of site.now.codes.now.items) site.now.widget store.old store.new }
{
    let mut flow = Flow::new(Vec::new(site.alloc));
    gather(&mut flow, site.alloc, site.widget, site.codes, store, g)?;
    handed(run, flow, out)
}
