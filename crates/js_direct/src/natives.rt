//! Natives that are carried out in place, where the units that are left suffice.
ghost use Rattle.std.specs.Prelude.{◌≡◌, ℕ, List, [], IfOk, IfSome};
ghost use Rattle.std.specs.Option.{option_map};
ghost use Rattle.js_tree.specs.Forest.{Forest};
ghost use Rattle.store_cells.specs.Cells.{Cells};
ghost use Rattle.widget_meaning.specs.Plan.{Do, Ret, RunNative};
ghost use Rattle.js_image.specs.Image.{all_seen, seen};
ghost use Rattle.js_image.specs.Held.{AreFine, IsFine, Kept};
ghost use Rattle.js_names.specs.Code.{trees_of};
ghost use Rattle.js_values.specs.Answers.{AreFineCalls, IsCarried, IsFineOut, IsNoFire, called};
ghost use Rattle.js_calls.specs.Called.{given, kept_as};
ghost use Rattle.js_direct.specs.Comes.{Comes, IsReady};

use crate::gathering::gather_on;
use crate::run::{Ended, Run, Site, handed, leave_job, set_value};
use code_units::Memory;
use js_calls::answer;
use js_flow::{Args, Flow, Gathering, Job, Keep, NativeCall};
use js_values::{Keep as Keeps, Meter, NativeOut, Plan};
use object_store::{NativeId, Store, Value};
use std::alloc::Global;
use std::mem;
use store_natives::call;

/// A native, which takes a unit of its own. One that needs the page or keeps a note, and one for which the
/// units that are left do not suffice, is left to frames.
#[inline(never)]
#[cycle(direct)]
pub(crate) fn native_on(
    site: &Site,
    run: &mut Run,
    store: &mut Store,
    this: &mut Option<Value>,
    args: &mut Args,
    depth: u32,
    which: NativeId,
    deep: u32,
    out: &mut Value,
) -> Result<Ended, Memory>
    requires ready { IsReady (trees_of site.now.codes.now.items) site.now.widget store.old run.old }
    requires held { IfSome this.old (IsFine site.now.widget store.old.cells)
        × AreFine site.now.widget store.old.cells args.old.items }
    ensures comes { let F = trees_of site.now.codes.now.items in let w = site.now.widget in
        IfOk result (λ how. Comes F w store.old store.new 0
        (λ t. Do (RunNative which (option_map (seen w store.old.cells) this.old)
        (all_seen w store.old.cells args.old.items) depth) t Ret)
        run.old run.new how out.new) }
    ensures kept { Kept (trees_of site.now.codes.now.items) site.now.widget store.old store.new }
{
    if run.units == 0 {
        return native_far(site.alloc, run, this, args, depth, which);
    }
    let mut meter = Meter::new(run.units - 1, 0);
    let found = call(
        site.alloc,
        site.widget,
        which,
        &*this,
        args.as_slice(),
        store,
        &mut meter,
    )?;
    match found {
        None => native_far(site.alloc, run, this, args, depth, which),
        Some(found) => {
            run.units = meter.left();
            given_on(site, run, store, found, depth, deep, out)
        }
    }
}

// What a native answered, which was called by a caller at this depth.
#[inline(always)]
#[cycle(direct)]
fn given_on(
    site: &Site,
    run: &mut Run,
    store: &mut Store,
    found: NativeOut,
    depth: u32,
    deep: u32,
    out: &mut Value,
) -> Result<Ended, Memory>
    requires ready { IsReady (trees_of site.now.codes.now.items) site.now.widget store.old run.old }
    requires held { IsFineOut site.now.widget store.old.cells found × IsCarried found }
    ensures comes { let F = trees_of site.now.codes.now.items in let w = site.now.widget in
        IfOk result (λ how. (node : ℕ → ℕ) → Comes F w store.old store.new 15
        (given w store.old.cells node depth found) run.old run.new how out.new) }
    ensures kept { Kept (trees_of site.now.codes.now.items) site.now.widget store.old store.new }
{
    match found {
        NativeOut::Value(value) => {
            set_value(out, value);
            Ok(Ended::Is)
        }
        NativeOut::Call(plan) => called_on(site, run, store, plan, depth, deep, out),
        found => given_by_frames(site, run, store, found, depth, out),
    }
}

// The calls that a native asks for: those with each item of a list are carried out in place.
#[inline(never)]
#[cycle(direct)]
fn called_on(
    site: &Site,
    run: &mut Run,
    store: &mut Store,
    plan: Plan,
    depth: u32,
    deep: u32,
    out: &mut Value,
) -> Result<Ended, Memory>
    requires ready { IsReady (trees_of site.now.codes.now.items) site.now.widget store.old run.old }
    requires held { AreFineCalls site.now.widget store.old.cells plan × IsNoFire plan }
    ensures comes { let F = trees_of site.now.codes.now.items in let w = site.now.widget in
        IfOk result (λ how. (node : ℕ → ℕ) → Comes F w store.old store.new 15
        (called (seen w store.old.cells) node depth plan) run.old run.new how out.new) }
    ensures kept { Kept (trees_of site.now.codes.now.items) site.now.widget store.old store.new }
{
    match plan {
        Plan::Gather { func, items, keep } => {
            let g = Gathering {
                func,
                items,
                results: Vec::new(site.alloc),
                keep: kept(keep),
                depth,
            };
            gather_on(site, run, store, Box::new(site.alloc, g)?, deep, out)
        }
        plan => given_by_frames(site, run, store, NativeOut::Call(plan), depth, out),
    }
}

// What is kept of calls, as frames have it.
fn kept(keep: Keeps) -> Keep
    ensures { result ≡ kept_as keep }
{
    match keep {
        Keeps::Nothing => Keep::Nothing,
        Keeps::Results => Keep::Results,
        Keeps::Passing => Keep::Passing,
    }
}

// The same of a fault, of a stop, and of calls, by frames.
#[cold]
#[inline(never)]
fn given_by_frames(
    site: &Site,
    run: &mut Run,
    store: &mut Store,
    found: NativeOut,
    depth: u32,
    out: &mut Value,
) -> Result<Ended, Memory>
    requires ready { IsReady (trees_of site.now.codes.now.items) site.now.widget store.old run.old }
    requires held { IsFineOut site.now.widget store.old.cells found × IsCarried found }
    ensures comes { let F = trees_of site.now.codes.now.items in let w = site.now.widget in
        IfOk result (λ how. (node : ℕ → ℕ) → Comes F w store.old store.new 15
        (given w store.old.cells node depth found) run.old run.new how out.new) }
    ensures kept { Kept (trees_of site.now.codes.now.items) site.now.widget store.old store.new }
{
    let mut flow = Flow::new(Vec::new(site.alloc));
    answer(
        &mut flow,
        site.alloc,
        site.widget,
        site.codes,
        store,
        found,
        depth,
    )?;
    handed(run, flow, out)
}

// The job of a native is left.
#[inline(never)]
fn native_far(
    alloc: Global,
    run: &mut Run,
    this: &mut Option<Value>,
    args: &mut Args,
    depth: u32,
    which: NativeId,
) -> Result<Ended, Memory>
    requires waits { run.old.waits.items ≡ [] }
    ensures comes { IfOk result (λ how. (fs : List Forest) (w : ℕ) (s : Cells) (v : Value)
        → IfSome this.old (IsFine w s.cells) → AreFine w s.cells args.old.items → Comes fs w s s 0
        (λ t. Do (RunNative which (option_map (seen w s.cells) this.old)
        (all_seen w s.cells args.old.items) depth) t Ret)
        run.old run.new how v) }
{
    let this = mem::replace(this, None);
    let args = mem::replace(args, Args::new(alloc));
    let native = NativeCall {
        which,
        this,
        args,
        depth,
    };
    leave_job(run, Job::RunNative(Box::new(alloc, native)?))
}
