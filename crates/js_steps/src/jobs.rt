//! What a job is after its unit, and what a frame does with how its part ended.
ghost use Rattle.std.specs.Prelude.{◌≡◌, ◌<◌, ◌≤◌, OnOk, true};
ghost use Rattle.widget_meaning.specs.Meaning.{body};
ghost use Rattle.js_image.specs.Held.{IsConfined, Kept};
ghost use Rattle.js_names.specs.Code.{trees_of};
ghost use Rattle.js_flow.specs.Views.{completion_of, job_of};
ghost use Rattle.js_flow.specs.Frames.{Plans, taken};
ghost use Rattle.js_flow.specs.Fine.{FineCompletion, FineFrame, FineJob, FineLeft};
ghost use Rattle.js_flow.specs.Free.{frame_free, job_weight, left_free};
ghost use Rattle.js_flow.specs.Left.{all_frames};
ghost use Rattle.js_steps.specs.Charges.{is_of_ids};

use code_units::Memory;
use js_calls::{call, take_call};
use js_expressions::{eval, take_form, target};
use js_flow::{Completion, Flow, Frame, Job};
use js_names::Code;
use js_statements::{exec, pass, pass_in, take_statement};
use object_store::Store;
use std::alloc::Global;

/// What a job is, after its one unit.
pub(crate) fn begin_job(
    flow: &mut Flow,
    alloc: Global,
    w: u32,
    codes: &Vec<Code>,
    store: &mut Store,
    job: Job,
) -> Result<(), Memory>
    requires widget { w < 32 }
    requires confined { IsConfined (trees_of codes.now.items) w store.old }
    requires held { FineJob (trees_of codes.now.items) w store.old.cells job }
    ensures plan { OnOk result
        (Plans (trees_of codes.now.items) w store.old store.new
        (body (job_of (trees_of codes.now.items) w store.old.cells job)) flow.new) }
    ensures fine { OnOk result (FineLeft (trees_of codes.now.items) w store.new.cells flow.new) }
    ensures near { OnOk result (left_free flow.new ≤ job_weight job) }
    ensures kept { Kept (trees_of codes.now.items) w store.old store.new }
    ensures below { OnOk result (flow.new.below ≡ all_frames flow.old) }
{
    match job {
        Job::Eval(id, place) => eval(flow, alloc, w, codes, store, id, place),
        Job::Target(id, place) => target(flow, alloc, w, codes, store, id, place),
        Job::Exec(id, place) => exec(flow, codes, id, place),
        Job::Pass(id, place) => pass(flow, codes, id, place),
        Job::PassIn(names, place) => pass_in(flow, alloc, w, codes, store, names, place),
        Job::Call(parts) => call(flow, alloc, w, codes, store, parts),
        Job::RunNative(native) => Ok(flow.call_native(native)),
    }
}

/// The same of a job of ids alone, which is not moved.
pub(crate) fn begin_ids(
    flow: &mut Flow,
    alloc: Global,
    w: u32,
    codes: &Vec<Code>,
    store: &mut Store,
    job: &Job,
) -> Result<(), Memory>
    requires ids { is_of_ids job.now ≡ true }
    requires widget { w < 32 }
    requires confined { IsConfined (trees_of codes.now.items) w store.old }
    requires held { FineJob (trees_of codes.now.items) w store.old.cells job.now }
    ensures plan { OnOk result
        (Plans (trees_of codes.now.items) w store.old store.new
        (body (job_of (trees_of codes.now.items) w store.old.cells job.now)) flow.new) }
    ensures fine { OnOk result (FineLeft (trees_of codes.now.items) w store.new.cells flow.new) }
    ensures near { OnOk result (left_free flow.new ≤ job_weight job.now) }
    ensures kept { Kept (trees_of codes.now.items) w store.old store.new }
    ensures below { OnOk result (flow.new.below ≡ all_frames flow.old) }
{
    match job {
        Job::Eval(id, place) => eval(flow, alloc, w, codes, store, *id, *place),
        Job::Target(id, place) => target(flow, alloc, w, codes, store, *id, *place),
        Job::Exec(id, place) => exec(flow, codes, *id, *place),
        Job::Pass(id, place) => pass(flow, codes, *id, *place),
        _ => unreachable!(),
    }
}

/// Whether a job holds ids alone.
pub(crate) fn is_of_ids(job: &Job) -> bool
    ensures { result ≡ is_of_ids job.now }
{
    matches!(
        job,
        Job::Eval(_, _) | Job::Target(_, _) | Job::Exec(_, _) | Job::Pass(_, _)
    )
}

/// What a frame does with how its part ended.
#[inline(always)]
pub(crate) fn take(
    flow: &mut Flow,
    alloc: Global,
    w: u32,
    codes: &Vec<Code>,
    store: &mut Store,
    frame: Frame,
    how: Completion,
) -> Result<(), Memory>
    requires widget { w < 32 }
    requires confined { IsConfined (trees_of codes.now.items) w store.old }
    requires held { FineFrame (trees_of codes.now.items) w store.old.cells frame
        × FineCompletion w store.old.cells how }
    ensures plan { OnOk result
        (Plans (trees_of codes.now.items) w store.old store.new
        (taken (trees_of codes.now.items) w store.old.cells frame (completion_of w store.old.cells how)) flow.new) }
    ensures fine { OnOk result (FineLeft (trees_of codes.now.items) w store.new.cells flow.new) }
    ensures near { OnOk result (left_free flow.new ≤ frame_free frame) }
    ensures kept { Kept (trees_of codes.now.items) w store.old store.new }
    ensures below { OnOk result (flow.new.below ≡ all_frames flow.old) }
{
    match frame {
        Frame::Form(frame) => take_form(flow, alloc, w, codes, store, &frame, how),
        Frame::Statement(frame) => take_statement(flow, alloc, w, codes, store, frame, how),
        Frame::Call(frame) => take_call(flow, alloc, w, codes, store, frame, how),
    }
}
