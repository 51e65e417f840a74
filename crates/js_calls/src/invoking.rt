//! Calls of functions and natives.
ghost use Rattle.std.specs.Prelude.{◌≡◌, ℕ, suc, ◌<◌, ◌≤◌, List, IfOk, OnOk};
ghost use Rattle.std.specs.Option.{option_map};
ghost use Rattle.js_tree.specs.Forest.{Forest};
ghost use Rattle.store_cells.specs.Cells.{PlainCell};
ghost use Rattle.object_store.specs.Owned.{scope_number};
ghost use Rattle.widget_meaning.specs.OwnState as state;
ghost use Rattle.widget_meaning.specs.OwnState.{State};
ghost use Rattle.widget_meaning.specs.Plan as meaning;
ghost use Rattle.widget_meaning.specs.Plan.{Do, Ret};
ghost use Rattle.widget_meaning.specs.Calls as calls;
ghost use Rattle.widget_meaning.specs.Costs as costs;
ghost use Rattle.js_image.specs.Image.{Rest, all_seen, function_in, image, seen};
ghost use Rattle.js_image.specs.Held.{AreFine, IsConfined, IsFine, IsFunOf, IsPlaceScope, Kept};
ghost use Rattle.js_image.specs.Plans.{meant_fault};
ghost use Rattle.js_names.specs.Code.{trees_of};
ghost use Rattle.js_flow.specs.Fine.{FineCall, FineLeft};
ghost use Rattle.js_flow.specs.Frames.{Plans, planned};
ghost use Rattle.js_flow.specs.Free.{left_free};
ghost use Rattle.js_calls.specs.Called.{FineEntry, entry_plan, invoked};
ghost use Rattle.js_flow.specs.Left.{all_frames};

use crate::declaring::{Entered, Entry, declare};
use crate::scoping::open_scope;
use code_units::Memory;
use js_flow::{Block, Call, CallFrame, Completion, Flow, Frame, Job, NativeCall};
use js_image::{Callee, Fault, Made, StopCause, callee, make_fault};
use js_names::{Code, code_at};
use object_store::{FunParts, NativeId, Store, Value};
use std::alloc::Global;

/// A call that a conversion, a native or the host makes, after its unit.
pub fn call(
    flow: &mut Flow,
    alloc: Global,
    w: u32,
    codes: &Vec<Code>,
    store: &mut Store,
    call: Box<Call>,
) -> Result<(), Memory>
    requires widget { w < 32 }
    requires confined { IsConfined (trees_of codes.now.items) w store.old }
    requires held { FineCall w store.old.cells call.value }
    ensures plan { OnOk result
        (Plans (trees_of codes.now.items) w store.old store.new (invoked w store.old.cells call.value) flow.new) }
    ensures fine { OnOk result (FineLeft (trees_of codes.now.items) w store.new.cells flow.new) }
    ensures near { OnOk result (left_free flow.new ≤ 4) }
    ensures kept { Kept (trees_of codes.now.items) w store.old store.new }
    ensures below { OnOk result (flow.new.below ≡ all_frames flow.old) }
{
    invoke(flow, alloc, w, codes, store, Box::into_inner(call))
}

/// The same, where a form makes the call.
pub fn invoke(
    flow: &mut Flow,
    alloc: Global,
    w: u32,
    codes: &Vec<Code>,
    store: &mut Store,
    call: Call,
) -> Result<(), Memory>
    requires widget { w < 32 }
    requires confined { IsConfined (trees_of codes.now.items) w store.old }
    requires held { FineCall w store.old.cells call }
    ensures plan { OnOk result
        (Plans (trees_of codes.now.items) w store.old store.new (invoked w store.old.cells call) flow.new) }
    ensures fine { OnOk result (FineLeft (trees_of codes.now.items) w store.new.cells flow.new) }
    ensures near { OnOk result (left_free flow.new ≤ 4) }
    ensures kept { Kept (trees_of codes.now.items) w store.old store.new }
    ensures below { OnOk result (flow.new.below ≡ all_frames flow.old) }
{
    match callee(store, &call.func) {
        Callee::Function(parts) => enter(flow, alloc, w, codes, store, call, parts),
        Callee::Native(which) => native(flow, alloc, call, which),
        Callee::Nothing => throw(flow, alloc, w, codes, store, Fault::E2),
    }
}

// A native takes a unit of its own.
fn native(flow: &mut Flow, alloc: Global, call: Call, which: NativeId) -> Result<(), Memory>
    ensures plan { OnOk result ((fs : List Forest) (w : ℕ) (cells : List PlainCell) (s : State)
        → planned fs w cells flow.new s
        ≡ Do (meaning.RunNative which (option_map (seen w cells) call.this)
        (all_seen w cells call.args.items) call.depth) s Ret) }
    ensures fine { OnOk result ((fs : List Forest) (w : ℕ) (cells : List PlainCell) → FineCall w cells call
        → FineLeft fs w cells flow.new) }
    ensures near { OnOk result (left_free flow.new ≤ 4) }
    ensures below { OnOk result (flow.new.below ≡ all_frames flow.old) }
{
    let Call {
        this,
        args,
        depth,
        ..
    } = call;
    let native = NativeCall {
        which,
        this,
        args,
        depth,
    };
    Ok(flow.go(Job::RunNative(Box::new(alloc, native)?)))
}

// A function of the widget, which runs one deeper.
fn enter(
    flow: &mut Flow,
    alloc: Global,
    w: u32,
    codes: &Vec<Code>,
    store: &mut Store,
    call: Call,
    parts: FunParts,
) -> Result<(), Memory>
    requires widget { w < 32 }
    requires confined { IsConfined (trees_of codes.now.items) w store.old }
    requires fun { IsFunOf (trees_of codes.now.items) parts × IsPlaceScope w store.old.cells parts.scope }
    requires held { FineCall w store.old.cells call }
    ensures plan { OnOk result (Plans (trees_of codes.now.items) w store.old store.new
        (calls.enter (state.Function (function_in (trees_of codes.now.items) parts.code parts.fun parts.declared)
        (option_map (scope_number w store.old.cells) parts.scope))
        (seen w store.old.cells call.func) (all_seen w store.old.cells call.args.items) (suc call.depth)) flow.new) }
    ensures fine { OnOk result (FineLeft (trees_of codes.now.items) w store.new.cells flow.new) }
    ensures near { OnOk result (left_free flow.new ≤ 4) }
    ensures kept { Kept (trees_of codes.now.items) w store.old store.new }
    ensures below { OnOk result (flow.new.below ≡ all_frames flow.old) }
{
    let called = Called {
        func: &call.func,
        args: call.args.as_slice(),
        depth: call.depth,
    };
    match entered(alloc, w, codes, store, &called, parts)? {
        Entry::Stop(cause) => Ok(flow.stop(cause)),
        Entry::Body(place) => flow.push_run(
            Frame::Call(CallFrame::CallEnd),
            Block::Body(parts.fun),
            place,
        ),
    }
}

/// A function that is called with its arguments, by a caller at a depth.
#[derive(Clone, Copy, Drop)]
pub struct Called<'a> {
    pub func: &'a Value,
    pub args: &'a [Value],
    pub depth: u32,
}

/// A function of the widget is entered: its scope is made, and then its declared functions. It runs one deeper than
/// its caller; a stop for depth comes before its scope.
#[inline(always)]
pub fn entered(
    alloc: Global,
    w: u32,
    codes: &Vec<Code>,
    store: &mut Store,
    call: &Called,
    parts: FunParts,
) -> Result<Entry, Memory>
    requires widget { w < 32 }
    requires confined { IsConfined (trees_of codes.now.items) w store.old }
    requires fun { IsFunOf (trees_of codes.now.items) parts × IsPlaceScope w store.old.cells parts.scope }
    requires held { IsFine w store.old.cells call.now.func.now × AreFine w store.old.cells call.now.args.now }
    ensures plan { IfOk result (λ e. (r : Rest)
        → entry_plan (trees_of codes.now.items) w store.new.cells parts.fun e
        (image (trees_of codes.now.items) r w store.new)
        ≡ calls.enter (state.Function (function_in (trees_of codes.now.items) parts.code parts.fun parts.declared)
        (option_map (scope_number w store.old.cells) parts.scope))
        (seen w store.old.cells call.now.func.now) (all_seen w store.old.cells call.now.args.now)
        (suc call.now.depth) (image (trees_of codes.now.items) r w store.old)) }
    ensures fine { IfOk result (FineEntry (trees_of codes.now.items) w store.new.cells parts.fun) }
    ensures kept { Kept (trees_of codes.now.items) w store.old store.new }
{
    let depth = call.depth;
    if depth >= 200 {
        return Ok(Entry::Stop(StopCause::Depth));
    }
    match open_scope(alloc, w, store, code_at(codes, parts.code), parts, call)? {
        Made::Stop(cause) => Ok(Entry::Stop(cause)),
        Made::Cell(scope) => {
            let entered = Entered {
                code: parts.code,
                fun: parts.fun,
                scope,
                depth: depth + 1,
            };
            declare(alloc, w, codes, store, entered)
        }
    }
}

/// A fault is thrown.
pub fn throw(
    flow: &mut Flow,
    alloc: Global,
    w: u32,
    codes: &Vec<Code>,
    store: &mut Store,
    fault: Fault,
) -> Result<(), Memory>
    requires widget { w < 32 }
    ensures plan { OnOk result
        (Plans (trees_of codes.now.items) w store.old store.new (costs.throw (meant_fault fault)) flow.new) }
    ensures fine { OnOk result (FineLeft (trees_of codes.now.items) w store.new.cells flow.new) }
    ensures near { OnOk result (left_free flow.new ≤ 1) }
    ensures kept { Kept (trees_of codes.now.items) w store.old store.new }
    ensures below { OnOk result (flow.new.below ≡ all_frames flow.old) }
{
    match make_fault(alloc, store, w, fault)? {
        Made::Cell(cell) => Ok(flow.give(Completion::Throw(Value::Ref(cell)))),
        Made::Stop(cause) => Ok(flow.stop(cause)),
    }
}
