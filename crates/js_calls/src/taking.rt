//! What a frame of a call does with how its part ended.
ghost use Rattle.std.specs.Prelude.{◌≡◌, ℕ, ◌<◌, ◌≤◌, List, OnOk};
ghost use Rattle.js_tree.specs.Forest.{expr_at};
ghost use Rattle.store_cells.specs.Cells.{PlainCell};
ghost use Rattle.widget_meaning.specs.Values as meaning;
ghost use Rattle.widget_meaning.specs.OwnState.{State};
ghost use Rattle.widget_meaning.specs.Plan.{Ret, on_normal};
ghost use Rattle.widget_meaning.specs.Calls as calls;
ghost use Rattle.widget_meaning.specs.Costs as costs;
ghost use Rattle.widget_meaning.specs.Expressions as expressions;
ghost use Rattle.js_image.specs.Image.{seen};
ghost use Rattle.js_image.specs.Held.{IsConfined, IsFine, Kept};
ghost use Rattle.js_names.specs.Code.{trees_of};
ghost use Rattle.js_flow.specs.Calls.{call_taken};
ghost use Rattle.js_flow.specs.Fine.{FineCallFrame, FineCompletion, FineLeft, IsExprAt, IsOther};
ghost use Rattle.js_flow.specs.Frames.{Plans};
ghost use Rattle.js_flow.specs.Free.{call_free, left_free};
ghost use Rattle.js_flow.specs.Parts.{arguments_of, forest_at};
ghost use Rattle.js_flow.specs.Views.{completion_of, place_of};
ghost use Rattle.js_flow.specs.Left.{all_frames};

use crate::arguments::{argument, arguments_of};
use crate::converting::{make_text, primitive, text_of, to_primitive};
use crate::repeating::{each, gathered};
use code_units::{Memory, Text};
use js_flow::{CallFrame, Completion, Flow, Place};
use js_names::Code;
use js_tree::ExprId;
use object_store::{Store, Value};
use std::alloc::Global;

/// What a frame of a call does with how its part ended.
pub fn take_call(
    flow: &mut Flow,
    alloc: Global,
    w: u32,
    codes: &Vec<Code>,
    store: &mut Store,
    frame: CallFrame,
    how: Completion,
) -> Result<(), Memory>
    requires widget { w < 32 }
    requires confined { IsConfined (trees_of codes.now.items) w store.old }
    requires held { FineCallFrame (trees_of codes.now.items) w store.old.cells frame
        × FineCompletion w store.old.cells how }
    ensures plan { OnOk result (Plans (trees_of codes.now.items) w store.old store.new
        (call_taken (trees_of codes.now.items) w store.old.cells frame
        (completion_of w store.old.cells how)) flow.new) }
    ensures fine { OnOk result (FineLeft (trees_of codes.now.items) w store.new.cells flow.new) }
    ensures near { OnOk result (left_free flow.new ≤ call_free frame) }
    ensures kept { Kept (trees_of codes.now.items) w store.old store.new }
    ensures below { OnOk result (flow.new.below ≡ all_frames flow.old) }
{
    match how {
        Completion::Is(value) => take_value(flow, alloc, w, codes, store, frame, value),
        how => take_other(flow, alloc, w, codes, store, frame, how),
    }
}

// A frame that is given a value.
fn take_value(
    flow: &mut Flow,
    alloc: Global,
    w: u32,
    codes: &Vec<Code>,
    store: &mut Store,
    frame: CallFrame,
    value: Value,
) -> Result<(), Memory>
    requires widget { w < 32 }
    requires confined { IsConfined (trees_of codes.now.items) w store.old }
    requires held { FineCallFrame (trees_of codes.now.items) w store.old.cells frame × IsFine w store.old.cells value }
    ensures plan { OnOk result (Plans (trees_of codes.now.items) w store.old store.new
        (call_taken (trees_of codes.now.items) w store.old.cells frame
        (meaning.Is (seen w store.old.cells value))) flow.new) }
    ensures fine { OnOk result (FineLeft (trees_of codes.now.items) w store.new.cells flow.new) }
    ensures near { OnOk result (left_free flow.new ≤ call_free frame) }
    ensures kept { Kept (trees_of codes.now.items) w store.old store.new }
    ensures below { OnOk result (flow.new.below ≡ all_frames flow.old) }
{
    match frame {
        CallFrame::Argument(a) => argument(flow, alloc, w, codes, store, a, value),
        CallFrame::CallEnd => Ok(flow.give(Completion::Is(Value::Undefined))),
        CallFrame::ToPrimitive(depth) => to_primitive(flow, alloc, w, codes, store, value, depth),
        CallFrame::Primitive => primitive(flow, alloc, w, codes, store, value),
        CallFrame::TextOf => text_of(flow, alloc, w, codes, store, value),
        CallFrame::Each(c) => each(flow, alloc, w, codes, store, c),
        CallFrame::Gather(g) => gathered(flow, alloc, w, codes, store, g, value),
        CallFrame::Callee(_, _) => Ok(flow.give(Completion::Is(value))),
        CallFrame::MakeText(_) => Ok(flow.give(Completion::Is(value))),
    }
}

// A frame that is given anything else.
fn take_other(
    flow: &mut Flow,
    alloc: Global,
    w: u32,
    codes: &Vec<Code>,
    store: &mut Store,
    frame: CallFrame,
    how: Completion,
) -> Result<(), Memory>
    requires widget { w < 32 }
    requires confined { IsConfined (trees_of codes.now.items) w store.old }
    requires held { FineCallFrame (trees_of codes.now.items) w store.old.cells frame
        × FineCompletion w store.old.cells how }
    requires other { IsOther how }
    ensures plan { OnOk result (Plans (trees_of codes.now.items) w store.old store.new
        (call_taken (trees_of codes.now.items) w store.old.cells frame
        (completion_of w store.old.cells how)) flow.new) }
    ensures fine { OnOk result (FineLeft (trees_of codes.now.items) w store.new.cells flow.new) }
    ensures near { OnOk result (left_free flow.new ≤ call_free frame) }
    ensures kept { Kept (trees_of codes.now.items) w store.old store.new }
    ensures below { OnOk result (flow.new.below ≡ all_frames flow.old) }
{
    match frame {
        CallFrame::Callee(id, place) => take_callee(flow, alloc, w, codes, store, (id, place), how),
        CallFrame::CallEnd => Ok(flow.give(call_end(how))),
        CallFrame::MakeText(text) => take_text(flow, w, codes, store, text, how),
        _ => Ok(flow.give(how)),
    }
}

// After the target of a call.
fn take_callee(
    flow: &mut Flow,
    alloc: Global,
    w: u32,
    codes: &Vec<Code>,
    store: &mut Store,
    call: (ExprId, Place),
    how: Completion,
) -> Result<(), Memory>
    requires widget { w < 32 }
    requires confined { IsConfined (trees_of codes.now.items) w store.old }
    requires held { IsExprAt (trees_of codes.now.items) w store.old.cells call.0 call.1
        × FineCompletion w store.old.cells how }
    ensures plan { OnOk result (Plans (trees_of codes.now.items) w store.old store.new
        (expressions.callee (arguments_of (expr_at (forest_at (trees_of codes.now.items) call.1.code) call.0))
        (place_of w store.old.cells call.1) (completion_of w store.old.cells how)) flow.new) }
    ensures fine { OnOk result (FineLeft (trees_of codes.now.items) w store.new.cells flow.new) }
    ensures near { OnOk result (left_free flow.new ≤ 4) }
    ensures kept { Kept (trees_of codes.now.items) w store.old store.new }
    ensures below { OnOk result (flow.new.below ≡ all_frames flow.old) }
{
    match how {
        Completion::Refers(of) => arguments_of(flow, alloc, w, codes, store, of, call),
        how => Ok(flow.give(how)),
    }
}

// After the charge for a text that is made.
fn take_text(
    flow: &mut Flow,
    w: u32,
    codes: &Vec<Code>,
    store: &mut Store,
    text: Text,
    how: Completion,
) -> Result<(), Memory>
    requires widget { w < 32 }
    requires held { FineCompletion w store.old.cells how }
    ensures plan { OnOk result (Plans (trees_of codes.now.items) w store.old store.new
        (λ s. on_normal (completion_of w store.old.cells how) s
        (costs.make_text text s (costs.give (meaning.Text text)))) flow.new) }
    ensures fine { OnOk result (FineLeft (trees_of codes.now.items) w store.new.cells flow.new) }
    ensures near { OnOk result (left_free flow.new ≤ 1) }
    ensures kept { Kept (trees_of codes.now.items) w store.old store.new }
    ensures below { OnOk result (flow.new.below ≡ all_frames flow.old) }
{
    match how {
        Completion::Normal => make_text(flow, w, codes, store, text),
        how => Ok(flow.give(how)),
    }
}

// How a call ends, by how its body ended.
fn call_end(how: Completion) -> Completion
    ensures end { (w : ℕ) (cells : List PlainCell) (s : State)
        → Ret (completion_of w cells result) s ≡ calls.call_end (completion_of w cells how) s }
    ensures fine { (w : ℕ) (cells : List PlainCell) → FineCompletion w cells how → FineCompletion w cells result }
{
    match how {
        Completion::Return(value) => Completion::Is(value),
        Completion::Throw(value) => Completion::Throw(value),
        _ => Completion::Is(Value::Undefined),
    }
}
