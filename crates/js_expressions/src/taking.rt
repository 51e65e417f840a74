//! What a frame of an expression or a target does with how its part ended.
ghost use Rattle.std.specs.Prelude.{◌≡◌, ℕ, ◌<◌, ◌≤◌, List, IfOk, OnOk};
ghost use Rattle.js_tree.specs.Forest.{Forest};
ghost use Rattle.store_cells.specs.Cells.{PlainCell};
ghost use Rattle.widget_meaning.specs.Values as meaning;
ghost use Rattle.widget_meaning.specs.OwnState.{State};
ghost use Rattle.widget_meaning.specs.Operators as operators;
ghost use Rattle.widget_meaning.specs.Expressions as expressions;
ghost use Rattle.js_image.specs.Image.{seen};
ghost use Rattle.js_image.specs.Held.{IsConfined, IsFine, Kept};
ghost use Rattle.js_values.specs.Operands.{IsPrimitive};
ghost use Rattle.js_names.specs.Code.{trees_of};
ghost use Rattle.js_expressions.specs.Simple.{GoesOn, IsConversion};
ghost use Rattle.js_flow.specs.Views.{completion_of, reference_of};
ghost use Rattle.js_flow.specs.Forms.{form_taken};
ghost use Rattle.js_flow.specs.Frames.{Plans, planned};
ghost use Rattle.js_flow.specs.Fine.{FineCompletion, FineForm, FineLeft, FineReference};
ghost use Rattle.js_flow.specs.Free.{form_free, left_free};
ghost use Rattle.js_flow.specs.Left.{all_frames};

use crate::assigning::{assign_target, assign_with, step_number, step_target};
use crate::handing::{evaluate, give, give_reference, go, pass_on};
use crate::literals::{element, property};
use crate::operating::{
    computed, convert_right, converted_prefix, delete, is_object, operate, prefix,
};
use crate::reading::{read, refer, write};
use code_units::{Memory, Text};
use js_flow::{Completion, Flow, FormFrame, Reference};
use js_names::Code;
use js_tree::BinOp;
use js_values::{is_true, to_text};
use object_store::{Store, Value};
use std::alloc::Global;

/// What a frame of an expression or a target does with how its part ended.
pub fn take_form(
    flow: &mut Flow,
    alloc: Global,
    w: u32,
    codes: &Vec<Code>,
    store: &mut Store,
    frame: &FormFrame,
    how: Completion,
) -> Result<(), Memory>
    requires widget { w < 32 }
    requires confined { IsConfined (trees_of codes.now.items) w store.old }
    requires held { FineForm (trees_of codes.now.items) w store.old.cells frame.now
        × FineCompletion w store.old.cells how }
    ensures plan { OnOk result (Plans (trees_of codes.now.items) w store.old store.new
        (form_taken (trees_of codes.now.items) w store.old.cells frame.now (completion_of w store.old.cells how))
        flow.new) }
    ensures fine { OnOk result (FineLeft (trees_of codes.now.items) w store.new.cells flow.new) }
    ensures near { OnOk result (left_free flow.new ≤ form_free frame.now) }
    ensures kept { Kept (trees_of codes.now.items) w store.old store.new }
    ensures below { OnOk result (flow.new.below ≡ all_frames flow.old) }
{
    match how {
        Completion::Is(value) => take_value(flow, alloc, w, codes, store, frame, value),
        Completion::Refers(of) => take_reference(flow, alloc, w, codes, store, frame, of),
        how => pass_on(flow, how),
    }
}

// A frame that is given a value.
fn take_value(
    flow: &mut Flow,
    alloc: Global,
    w: u32,
    codes: &Vec<Code>,
    store: &mut Store,
    frame: &FormFrame,
    value: Value,
) -> Result<(), Memory>
    requires widget { w < 32 }
    requires confined { IsConfined (trees_of codes.now.items) w store.old }
    requires held { FineForm (trees_of codes.now.items) w store.old.cells frame.now × IsFine w store.old.cells value }
    ensures plan { OnOk result (Plans (trees_of codes.now.items) w store.old store.new
        (form_taken (trees_of codes.now.items) w store.old.cells frame.now
        (meaning.Is (seen w store.old.cells value))) flow.new) }
    ensures fine { OnOk result (FineLeft (trees_of codes.now.items) w store.new.cells flow.new) }
    ensures near { OnOk result (left_free flow.new ≤ form_free frame.now) }
    ensures kept { Kept (trees_of codes.now.items) w store.old store.new }
    ensures below { OnOk result (flow.new.below ≡ all_frames flow.old) }
{
    match frame {
        FormFrame::Dot(name) => read(flow, alloc, w, codes, store, &value, name),
        FormFrame::TargetDot(name) => refer(flow, alloc, w, codes, store, value, name.share()?),
        FormFrame::Sub(base) => {
            let name = name_of(alloc, &value)?;
            read(flow, alloc, w, codes, store, base, &name)
        }
        FormFrame::TargetSub(base) => {
            let name = name_of(alloc, &value)?;
            refer(flow, alloc, w, codes, store, base.share()?, name)
        }
        FormFrame::Element(array, id, n, place) => {
            let at = (*array, *id, *n, *place);
            element(flow, alloc, w, codes, store, at, value)
        }
        FormFrame::Property(object, id, n, place) => {
            let at = (*object, *id, *n, *place);
            property(flow, alloc, w, codes, store, at, value)
        }
        FormFrame::Operate(op, left, depth) => {
            operate(flow, alloc, w, codes, store, (*op, *depth), left, &value)
        }
        FormFrame::Prefix(op, place) => prefix(flow, alloc, w, codes, store, (*op, *place), value),
        FormFrame::ConvertedLeft(_, _, _) => converted(flow, alloc, w, codes, store, frame, &value),
        FormFrame::ConvertedRight(_, _) => converted(flow, alloc, w, codes, store, frame, &value),
        FormFrame::ConvertedPrefix(_) => converted(flow, alloc, w, codes, store, frame, &value),
        FormFrame::StepConverted(_, _, _) => converted(flow, alloc, w, codes, store, frame, &value),
        FormFrame::AssignWith(assigning) => assign_with(
            flow, alloc, w, codes, store, assigning, value,
        ),
        FormFrame::Write(of, place) => {
            let given = value.share()?;
            write(flow, alloc, w, codes, store, of, *place, (value, given))
        }
        frame => go_on(flow, frame, value),
    }
}

// A frame that goes on with a value and leaves the store as it is.
fn go_on(flow: &mut Flow, frame: &FormFrame, value: Value) -> Result<(), Memory>
    requires simple { GoesOn frame.now }
    ensures plan { OnOk result ((fs : List Forest) (w : ℕ) (cells : List PlainCell) (s : State)
        → planned fs w cells flow.new s ≡ form_taken fs w cells frame.now (meaning.Is (seen w cells value)) s) }
    ensures fine { OnOk result ((fs : List Forest) (w : ℕ) (cells : List PlainCell)
        → FineForm fs w cells frame.now → IsFine w cells value → FineLeft fs w cells flow.new) }
    ensures near { OnOk result (left_free flow.new ≤ form_free frame.now) }
    ensures below { OnOk result (flow.new.below ≡ all_frames flow.old) }
{
    match frame {
        FormFrame::SubBase(e, place) => evaluate(flow, FormFrame::Sub(value), *e, *place),
        FormFrame::TargetSubBase(e, place) => {
            let waits = FormFrame::TargetSub(value);
            evaluate(flow, waits, *e, *place)
        }
        FormFrame::Found => give_reference(flow, Reference::Found(value)),
        FormFrame::Right(op, e, place) => {
            let waits = FormFrame::Operate(*op, value, place.depth);
            evaluate(flow, waits, *e, *place)
        }
        FormFrame::And(e, place) => {
            if is_true(&value) {
                go(flow, *e, *place)
            } else {
                give(flow, value)
            }
        }
        FormFrame::Or(e, place) => {
            if is_true(&value) {
                give(flow, value)
            } else {
                go(flow, *e, *place)
            }
        }
        FormFrame::Choose(a, b, place) => {
            if is_true(&value) {
                go(flow, *a, *place)
            } else {
                go(flow, *b, *place)
            }
        }
        FormFrame::Delete => give(flow, value),
        FormFrame::StepTarget(_, _) => give(flow, value),
        FormFrame::AssignTarget(_, _, _) => give(flow, value),
        _ => unreachable!(),
    }
}

// The name of a property by its subscript; an object has no text.
fn name_of(alloc: Global, value: &Value) -> Result<Text, Memory>
    ensures { IfOk result (λ t. (w : ℕ) (cells : List PlainCell) → t ≡ meaning.to_text (seen w cells value.now)) }
{
    match value {
        Value::Ref(_) => Text::from_units(alloc, Vec::new(alloc)),
        _ => to_text(alloc, value),
    }
}

// A frame that is given an operand after its conversion; no object is given.
fn converted(
    flow: &mut Flow,
    alloc: Global,
    w: u32,
    codes: &Vec<Code>,
    store: &mut Store,
    frame: &FormFrame,
    value: &Value,
) -> Result<(), Memory>
    requires widget { w < 32 }
    requires confined { IsConfined (trees_of codes.now.items) w store.old }
    requires waits { IsConversion frame.now }
    requires held { FineForm (trees_of codes.now.items) w store.old.cells frame.now
        × IsFine w store.old.cells value.now }
    ensures plan { OnOk result (Plans (trees_of codes.now.items) w store.old store.new
        (form_taken (trees_of codes.now.items) w store.old.cells frame.now
        (meaning.Is (seen w store.old.cells value.now))) flow.new) }
    ensures fine { OnOk result (FineLeft (trees_of codes.now.items) w store.new.cells flow.new) }
    ensures near { OnOk result (left_free flow.new ≤ form_free frame.now) }
    ensures kept { Kept (trees_of codes.now.items) w store.old store.new }
    ensures below { OnOk result (flow.new.below ≡ all_frames flow.old) }
{
    if is_object(value) {
        return Err(Memory);
    }
    match frame {
        FormFrame::ConvertedLeft(op, right, depth) => {
            convert_right(flow, alloc, w, codes, store, (*op, *depth), value, right)
        }
        FormFrame::ConvertedRight(op, left) => {
            converted_right(flow, alloc, w, codes, store, *op, left, value)
        }
        FormFrame::ConvertedPrefix(op) => converted_prefix(flow, w, codes, store, *op, value),
        FormFrame::StepConverted(op, of, place) => {
            step_number(flow, alloc, w, codes, store, (*op, *place), of, value)
        }
        _ => unreachable!(),
    }
}

// An operator on two operands after their conversion.
fn converted_right(
    flow: &mut Flow,
    alloc: Global,
    w: u32,
    codes: &Vec<Code>,
    store: &mut Store,
    op: BinOp,
    left: &Value,
    right: &Value,
) -> Result<(), Memory>
    requires widget { w < 32 }
    requires held { IsFine w store.old.cells left.now × IsFine w store.old.cells right.now }
    requires right { IsPrimitive right.now }
    ensures plan { OnOk result (Plans (trees_of codes.now.items) w store.old store.new
        (expressions.result (operators.binary op (seen w store.old.cells left.now)
        (seen w store.old.cells right.now))) flow.new) }
    ensures fine { OnOk result (FineLeft (trees_of codes.now.items) w store.new.cells flow.new) }
    ensures near { OnOk result (left_free flow.new ≤ 1) }
    ensures kept { Kept (trees_of codes.now.items) w store.old store.new }
    ensures below { OnOk result (flow.new.below ≡ all_frames flow.old) }
{
    if is_object(left) {
        return Err(Memory);
    }
    computed(flow, alloc, w, codes, store, op, left, right)
}

// A frame that is given a reference.
fn take_reference(
    flow: &mut Flow,
    alloc: Global,
    w: u32,
    codes: &Vec<Code>,
    store: &mut Store,
    frame: &FormFrame,
    of: Reference,
) -> Result<(), Memory>
    requires widget { w < 32 }
    requires confined { IsConfined (trees_of codes.now.items) w store.old }
    requires held { FineForm (trees_of codes.now.items) w store.old.cells frame.now
        × FineReference w store.old.cells of }
    ensures plan { OnOk result (Plans (trees_of codes.now.items) w store.old store.new
        (form_taken (trees_of codes.now.items) w store.old.cells frame.now
        (meaning.Refers (reference_of w store.old.cells of))) flow.new) }
    ensures fine { OnOk result (FineLeft (trees_of codes.now.items) w store.new.cells flow.new) }
    ensures near { OnOk result (left_free flow.new ≤ form_free frame.now) }
    ensures kept { Kept (trees_of codes.now.items) w store.old store.new }
    ensures below { OnOk result (flow.new.below ≡ all_frames flow.old) }
{
    match frame {
        FormFrame::Delete => delete(flow, alloc, w, codes, store, of),
        FormFrame::StepTarget(op, place) => {
            step_target(flow, alloc, w, codes, store, (*op, *place), of)
        }
        FormFrame::AssignTarget(op, e, place) => {
            assign_target(flow, alloc, w, codes, store, *op, (*e, *place), of)
        }
        _ => give_reference(flow, of),
    }
}
