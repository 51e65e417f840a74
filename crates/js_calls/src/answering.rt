//! What a native answers, and the calls that it asks for.
ghost use Rattle.js_flow.specs.declared.job.Next.{Next};
ghost use Rattle.std.specs.Prelude.{◌≡◌, ℕ, ◌<◌, ◌≤◌, OnOk, [], ◌∷◌};
ghost use Rattle.js_image.specs.Image.{seen};
ghost use Rattle.js_image.specs.Held.{IsConfined, Kept};
ghost use Rattle.js_names.specs.Code.{trees_of};
ghost use Rattle.js_values.specs.Answers.{AreFineCalls, IsCarried, IsFineOut, IsNoFire, called};
ghost use Rattle.js_flow.specs.Fine.{FineLeft};
ghost use Rattle.js_flow.specs.Frames.{Plans};
ghost use Rattle.js_flow.specs.Free.{left_free};
ghost use Rattle.js_calls.specs.Called.{given, kept_as};
ghost use Rattle.js_flow.specs.Left.{Leaves, all_frames};

use crate::invoking::throw;
use crate::repeating::{each, gather};
use code_units::Memory;
use js_flow::{CallFrame, Calling, Completion, Flow, Frame, Gathering, Keep};
use js_names::Code;
use js_values::{Keep as Keeps, NativeOut, Plan};
use object_store::{CellId, Store, Value};
use std::alloc::Global;

/// The answer of a native that was called by a caller at a depth. A `Fire` is carried out by the
/// host, and does not come here.
pub fn answer(
    flow: &mut Flow,
    alloc: Global,
    w: u32,
    codes: &Vec<Code>,
    store: &mut Store,
    out: NativeOut,
    depth: u32,
) -> Result<(), Memory>
    requires widget { w < 32 }
    requires confined { IsConfined (trees_of codes.now.items) w store.old }
    requires held { IsFineOut w store.old.cells out }
    requires carried { IsCarried out }
    ensures plan { OnOk result ((node : ℕ → ℕ)
        → Plans (trees_of codes.now.items) w store.old store.new (given w store.old.cells node depth out) flow.new) }
    ensures fine { OnOk result (FineLeft (trees_of codes.now.items) w store.new.cells flow.new) }
    ensures near { OnOk result (left_free flow.new ≤ 15) }
    ensures kept { Kept (trees_of codes.now.items) w store.old store.new }
    ensures below { OnOk result (flow.new.below ≡ all_frames flow.old) }
{
    match out {
        NativeOut::Value(v) => Ok(flow.give(Completion::Is(v))),
        NativeOut::Throw(fault) => throw(flow, alloc, w, codes, store, fault),
        NativeOut::Call(plan) => calls(flow, alloc, w, codes, store, plan, depth),
        NativeOut::Stop(cause) => Ok(flow.stop(cause)),
        NativeOut::OutOfFuel => unreachable!(),
    }
}

// The calls that a native asks for.
fn calls(
    flow: &mut Flow,
    alloc: Global,
    w: u32,
    codes: &Vec<Code>,
    store: &mut Store,
    plan: Plan,
    depth: u32,
) -> Result<(), Memory>
    requires widget { w < 32 }
    requires held { AreFineCalls w store.old.cells plan }
    requires carried { IsNoFire plan }
    ensures plan { OnOk result ((node : ℕ → ℕ)
        → Plans (trees_of codes.now.items) w store.old store.new
        (called (seen w store.old.cells) node depth plan) flow.new) }
    ensures fine { OnOk result (FineLeft (trees_of codes.now.items) w store.new.cells flow.new) }
    ensures near { OnOk result (left_free flow.new ≤ 15) }
    ensures kept { Kept (trees_of codes.now.items) w store.old store.new }
    ensures below { OnOk result (flow.new.below ≡ all_frames flow.old) }
{
    match plan {
        Plan::ToText(cell) => text_of(flow, cell, depth),
        Plan::Each { func, items, last } => {
            let next = 0;
            let calling = Calling {
                func,
                items,
                next,
                last,
                depth,
            };
            each(flow, alloc, w, codes, store, Box::new(alloc, calling)?)
        }
        Plan::Gather { func, items, keep } => {
            let gathering = Gathering {
                func,
                items,
                results: Vec::new(alloc),
                keep: kept(keep),
                depth,
            };
            gather(flow, alloc, w, codes, store, Box::new(alloc, gathering)?)
        }
        Plan::Fire { .. } => unreachable!(),
    }
}

// The text of an object, by its `toString`.
fn text_of(flow: &mut Flow, cell: CellId, depth: u32) -> Result<(), Memory>
    ensures { OnOk result (Leaves flow.old flow.new
        (Frame.Call CallFrame.TextOf ∷ Frame.Call (CallFrame.ToPrimitive depth) ∷ [])
        (Next.Give (Completion.Is (Value.Ref cell)))) }
{
    flow.push_given(
        Frame::Call(CallFrame::TextOf),
        Frame::Call(CallFrame::ToPrimitive(depth)),
        Completion::Is(Value::Ref(cell)),
    )
}

// What is kept of calls, as frames have it.
fn kept(keep: Keeps) -> Keep
    ensures { result ≡ kept_as keep }
{
    match keep {
        Keeps::Nothing => Keep::Nothing,
        Keeps::Results => Keep::Results,
        Keeps::Passing => Keep::Passing,
    }
}
