//! Conversions of objects by their `toString`.
ghost use Rattle.std.specs.Prelude.{◌≡◌, ℕ, ◌<◌, ◌≤◌, List, length, OnOk};
ghost use Rattle.js_tree.specs.Forest.{Forest};
ghost use Rattle.store_cells.specs.Cells.{PlainCell};
ghost use Rattle.store_cells.specs.Shape.{IsRefWithin};
ghost use Rattle.widget_meaning.specs.Values as meaning;
ghost use Rattle.widget_meaning.specs.OwnState.{State};
ghost use Rattle.widget_meaning.specs.Plan.{charge};
ghost use Rattle.widget_meaning.specs.Calls as calls;
ghost use Rattle.widget_meaning.specs.Costs as costs;
ghost use Rattle.widget_meaning.specs.GlobalNatives as natives;
ghost use Rattle.widget_meaning.specs.Properties.{is_function};
ghost use Rattle.js_image.specs.Image.{Rest, image, seen};
ghost use Rattle.js_image.specs.Held.{IsConfined, IsFine, Kept};
ghost use Rattle.js_names.specs.Code.{trees_of};
ghost use Rattle.js_flow.specs.Fine.{FineLeft};
ghost use Rattle.js_flow.specs.Frames.{Plans, planned};
ghost use Rattle.js_flow.specs.Free.{left_free};
ghost use Rattle.js_flow.specs.Left.{all_frames};

use crate::invoking::throw;
use code_units::{Memory, Text};
use js_flow::{Args, Call, CallFrame, Completion, Flow, Frame, Job};
use js_image::{Callee, Fault, Paid, callee, get, pay_text, word};
use js_names::Code;
use js_values::to_text;
use object_store::{Store, Value};
use std::alloc::Global;

/// A value as a primitive, by a caller at a depth: of an object `toString` is called.
pub fn to_primitive(
    flow: &mut Flow,
    alloc: Global,
    w: u32,
    codes: &Vec<Code>,
    store: &mut Store,
    value: Value,
    depth: u32,
) -> Result<(), Memory>
    requires widget { w < 32 }
    requires confined { IsConfined (trees_of codes.now.items) w store.old }
    requires held { IsFine w store.old.cells value }
    ensures plan { OnOk result
        (Plans (trees_of codes.now.items) w store.old store.new
        (calls.to_primitive (seen w store.old.cells value) depth) flow.new) }
    ensures fine { OnOk result (FineLeft (trees_of codes.now.items) w store.new.cells flow.new) }
    ensures near { OnOk result (left_free flow.new ≤ 1) }
    ensures kept { Kept (trees_of codes.now.items) w store.old store.new }
    ensures below { OnOk result (flow.new.below ≡ all_frames flow.old) }
{
    if !is_object(&value) {
        return Ok(flow.give(Completion::Is(value)));
    }
    let name = word(alloc, b"toString")?;
    let func = get(store, &value, &name)?;
    if !is_called(store, &func) {
        return throw(flow, alloc, w, codes, store, Fault::E6);
    }
    let call = Call {
        func,
        this: Some(value),
        args: Args::new(alloc),
        depth,
    };
    flow.push(
        Frame::Call(CallFrame::Primitive),
        Job::Call(Box::new(alloc, call)?),
    )
}

/// What a `toString` gave: a text or another plain value; an object is a fault.
pub fn primitive(
    flow: &mut Flow,
    alloc: Global,
    w: u32,
    codes: &Vec<Code>,
    store: &mut Store,
    value: Value,
) -> Result<(), Memory>
    requires widget { w < 32 }
    requires held { IsFine w store.old.cells value }
    ensures plan { OnOk result
        (Plans (trees_of codes.now.items) w store.old store.new
        (calls.primitive_result (meaning.Is (seen w store.old.cells value))) flow.new) }
    ensures fine { OnOk result (FineLeft (trees_of codes.now.items) w store.new.cells flow.new) }
    ensures near { OnOk result (left_free flow.new ≤ 1) }
    ensures kept { Kept (trees_of codes.now.items) w store.old store.new }
    ensures below { OnOk result (flow.new.below ≡ all_frames flow.old) }
{
    if is_object(&value) {
        return throw(flow, alloc, w, codes, store, Fault::E6);
    }
    Ok(flow.give(Completion::Is(value)))
}

/// The text of a primitive; one that is made is charged first.
pub fn text_of(
    flow: &mut Flow,
    alloc: Global,
    w: u32,
    codes: &Vec<Code>,
    store: &Store,
    value: Value,
) -> Result<(), Memory>
    requires held { IsFine w store.now.cells value }
    ensures plan { OnOk result
        (Plans (trees_of codes.now.items) w store.now store.now
        (natives.text_of_primitive (seen w store.now.cells value)) flow.new) }
    ensures fine { OnOk result (FineLeft (trees_of codes.now.items) w store.now.cells flow.new) }
    ensures near { OnOk result (left_free flow.new ≤ 4) }
    ensures below { OnOk result (flow.new.below ≡ all_frames flow.old) }
{
    match value {
        Value::Text(t) => Ok(flow.give(Completion::Is(Value::Text(t)))),
        Value::Ref(_) => made(flow, Text::from_units(alloc, Vec::new(alloc))?),
        value => made(flow, to_text(alloc, &value)?),
    }
}

// A text that is made.
fn made(flow: &mut Flow, t: Text) -> Result<(), Memory>
    ensures plan { OnOk result ((fs : List Forest) (w : ℕ) (cells : List PlainCell) (s : State)
        → planned fs w cells flow.new s ≡ charge (length t) s (costs.make_text t s (costs.give (meaning.Text t)))) }
    ensures fine { OnOk result ((fs : List Forest) (w : ℕ) (cells : List PlainCell) → FineLeft fs w cells flow.new) }
    ensures near { OnOk result (left_free flow.new ≤ 3) }
    ensures below { OnOk result (flow.new.below ≡ all_frames flow.old) }
{
    let units = t.units().len();
    flow.push_pay(Frame::Call(CallFrame::MakeText(t)), units)
}

/// A text is paid for and given.
pub fn make_text(
    flow: &mut Flow,
    w: u32,
    codes: &Vec<Code>,
    store: &mut Store,
    text: Text,
) -> Result<(), Memory>
    requires widget { w < 32 }
    ensures plan { OnOk result (Plans (trees_of codes.now.items) w store.old store.new
        (λ s. costs.make_text text s (costs.give (meaning.Text text))) flow.new) }
    ensures fine { OnOk result (FineLeft (trees_of codes.now.items) w store.new.cells flow.new) }
    ensures near { OnOk result (left_free flow.new ≤ 1) }
    ensures kept { Kept (trees_of codes.now.items) w store.old store.new }
    ensures below { OnOk result (flow.new.below ≡ all_frames flow.old) }
{
    match pay_text(store, w, &text) {
        Paid::Done => Ok(flow.give(Completion::Is(Value::Text(text)))),
        Paid::Stop(cause) => Ok(flow.stop(cause)),
    }
}

/// Whether a value is an object.
pub fn is_object(v: &Value) -> bool
    ensures { (w : ℕ) (cells : List PlainCell) → result ≡ meaning.is_object (seen w cells v.now) }
{
    match v {
        Value::Ref(_) => true,
        _ => false,
    }
}

// Whether a value can be called.
fn is_called(store: &Store, v: &Value) -> bool
    requires { IsRefWithin (length store.now.cells) v.now }
    ensures { (fs : List Forest) (r : Rest) (w : ℕ) → IsFine w store.now.cells v.now
        → result ≡ is_function (image fs r w store.now) (seen w store.now.cells v.now) }
{
    match callee(store, v) {
        Callee::Function(_) => true,
        Callee::Native(_) => true,
        Callee::Nothing => false,
    }
}
