//! Assignments and steps.
ghost use Rattle.std.specs.Prelude.{◌≡◌, ℕ, ◌<◌, ◌≤◌, IfOk, OnOk};
ghost use Rattle.js_tree.specs.Forest.{expr_at};
ghost use Rattle.widget_meaning.specs.Values as meaning;
ghost use Rattle.widget_meaning.specs.OwnState.{State};
ghost use Rattle.widget_meaning.specs.Costs as costs;
ghost use Rattle.widget_meaning.specs.Expressions as expressions;
ghost use Rattle.std.specs.Option.{option_map_or};
ghost use Rattle.js_image.specs.Image.{seen};
ghost use Rattle.js_image.specs.Held.{IsConfined, IsFine, Kept};
ghost use Rattle.js_values.specs.Operands.{IsPlainOut, IsPrimitive, meant_out, plain};
ghost use Rattle.js_names.specs.Code.{trees_of};
ghost use Rattle.js_flow.specs.Parts.{forest_at};
ghost use Rattle.js_flow.specs.Views.{place_of, reference_of};
ghost use Rattle.js_flow.specs.Frames.{Plans};
ghost use Rattle.js_flow.specs.Fine.{FineAssigning, FineLeft, FineReference, IsExprAt, IsPlace};
ghost use Rattle.js_flow.specs.Free.{left_free};
ghost use Rattle.js_flow.specs.Left.{all_frames};

use crate::handing::{convert, evaluate};
use crate::operating::{is_object, operate};
use crate::reading::{referred, shared, write};
use code_units::{Memory, WholeRead};
use js_flow::{Assigning, Completion, Flow, FormFrame, Frame, Place, Reference};
use js_image::StopCause;
use js_names::Code;
use js_tree::{AssignOp, BinOp, ExprId, StepOp};
use js_values::{OpOut, binary, number_of};
use object_store::{Number, Store, Value};
use std::alloc::Global;

/// After the target of an assignment: its right side. What the target has is read first, where the
/// assignment computes.
pub(crate) fn assign_target(
    flow: &mut Flow,
    alloc: Global,
    w: u32,
    codes: &Vec<Code>,
    store: &Store,
    op: AssignOp,
    right: (ExprId, Place),
    of: Reference,
) -> Result<(), Memory>
    requires confined { IsConfined (trees_of codes.now.items) w store.now }
    requires held { FineReference w store.now.cells of
        × IsExprAt (trees_of codes.now.items) w store.now.cells right.0 right.1 }
    ensures plan { OnOk result (Plans (trees_of codes.now.items) w store.now store.now
        (expressions.assign_target op (expr_at (forest_at (trees_of codes.now.items) right.1.code) right.0)
        (place_of w store.now.cells right.1) (meaning.Refers (reference_of w store.now.cells of))) flow.new) }
    ensures fine { OnOk result (FineLeft (trees_of codes.now.items) w store.now.cells flow.new) }
    ensures near { OnOk result (left_free flow.new ≤ 12) }
    ensures below { OnOk result (flow.new.below ≡ all_frames flow.old) }
{
    let (e, place) = right;
    match op {
        AssignOp::Assign => evaluate(flow, FormFrame::Write(of, place), e, place),
        _ => {
            let has = referred(w, codes, store, &of, place)?;
            let assigning = Assigning { op, of, has, place };
            evaluate(
                flow,
                FormFrame::AssignWith(Box::new(alloc, assigning)?),
                e,
                place,
            )
        }
    }
}

// The operator of an assignment that computes.
fn operator(op: AssignOp) -> Option<BinOp>
    ensures { (v w : meaning.Value) (d : ℕ) (s : State) → expressions.compound op v w d s
        ≡ option_map_or (λ b. expressions.operate b v w d s) result (costs.give w s) }
{
    match op {
        AssignOp::Add => Some(BinOp::Add),
        AssignOp::Sub => Some(BinOp::Sub),
        AssignOp::Mul => Some(BinOp::Mul),
        AssignOp::Div => Some(BinOp::Div),
        AssignOp::Rem => Some(BinOp::Rem),
        _ => None,
    }
}

/// After the right side of an assignment, with what its target had.
pub(crate) fn assign_with(
    flow: &mut Flow,
    alloc: Global,
    w: u32,
    codes: &Vec<Code>,
    store: &mut Store,
    to: &Assigning,
    value: Value,
) -> Result<(), Memory>
    requires widget { w < 32 }
    requires confined { IsConfined (trees_of codes.now.items) w store.old }
    requires held { FineAssigning (trees_of codes.now.items) w store.old.cells to.now × IsFine w store.old.cells value }
    ensures plan { OnOk result (Plans (trees_of codes.now.items) w store.old store.new
        (expressions.assign_with to.now.op (reference_of w store.old.cells to.now.of)
        (seen w store.old.cells to.now.has) (place_of w store.old.cells to.now.place)
        (meaning.Is (seen w store.old.cells value))) flow.new) }
    ensures fine { OnOk result (FineLeft (trees_of codes.now.items) w store.new.cells flow.new) }
    ensures near { OnOk result (left_free flow.new ≤ 12) }
    ensures kept { Kept (trees_of codes.now.items) w store.old store.new }
    ensures below { OnOk result (flow.new.below ≡ all_frames flow.old) }
{
    match operator(to.op) {
        Some(op) => {
            let of = shared(&to.of)?;
            let had = to.has.share()?;
            flow.push_given(
                Frame::Form(FormFrame::Write(of, to.place)),
                Frame::Form(FormFrame::Operate(op, had, to.place.depth)),
                Completion::Is(value),
            )
        }
        None => {
            let given = value.share()?;
            write(
                flow,
                alloc,
                w,
                codes,
                store,
                &to.of,
                to.place,
                (value, given),
            )
        }
    }
}

/// After the target of a step: what it has is converted.
pub(crate) fn step_target(
    flow: &mut Flow,
    alloc: Global,
    w: u32,
    codes: &Vec<Code>,
    store: &mut Store,
    op: (StepOp, Place),
    of: Reference,
) -> Result<(), Memory>
    requires widget { w < 32 }
    requires confined { IsConfined (trees_of codes.now.items) w store.old }
    requires held { FineReference w store.old.cells of × IsPlace (trees_of codes.now.items) w store.old.cells op.1 }
    ensures plan { OnOk result (Plans (trees_of codes.now.items) w store.old store.new
        (expressions.step_target op.0 (place_of w store.old.cells op.1)
        (meaning.Refers (reference_of w store.old.cells of))) flow.new) }
    ensures fine { OnOk result (FineLeft (trees_of codes.now.items) w store.new.cells flow.new) }
    ensures near { OnOk result (left_free flow.new ≤ 4) }
    ensures kept { Kept (trees_of codes.now.items) w store.old store.new }
    ensures below { OnOk result (flow.new.below ≡ all_frames flow.old) }
{
    let (op, place) = op;
    let has = referred(w, codes, store, &of, place)?;
    if is_object(&has) {
        let converted = FormFrame::StepConverted(op, Box::new(alloc, of)?, place);
        return convert(flow, converted, place.depth, has);
    }
    step_number(flow, alloc, w, codes, store, (op, place), &of, &has)
}

/// A step of what a target had, where that is a primitive.
pub(crate) fn step_number(
    flow: &mut Flow,
    alloc: Global,
    w: u32,
    codes: &Vec<Code>,
    store: &mut Store,
    op: (StepOp, Place),
    of: &Reference,
    had: &Value,
) -> Result<(), Memory>
    requires widget { w < 32 }
    requires confined { IsConfined (trees_of codes.now.items) w store.old }
    requires held { FineReference w store.old.cells of.now × IsPlace (trees_of codes.now.items) w store.old.cells op.1 }
    requires primitive { IsPrimitive had.now }
    ensures plan { OnOk result (Plans (trees_of codes.now.items) w store.old store.new
        (expressions.step_number (meaning.to_number (seen w store.old.cells had.now)) op.0
        (reference_of w store.old.cells of.now) (place_of w store.old.cells op.1)) flow.new) }
    ensures fine { OnOk result (FineLeft (trees_of codes.now.items) w store.new.cells flow.new) }
    ensures near { OnOk result (left_free flow.new ≤ 1) }
    ensures kept { Kept (trees_of codes.now.items) w store.old store.new }
    ensures below { OnOk result (flow.new.below ≡ all_frames flow.old) }
{
    match number_of(had) {
        WholeRead::Whole(z) => {
            let out = stepped(alloc, op.0, z)?;
            step_write(
                flow,
                alloc,
                w,
                codes,
                store,
                op,
                of,
                (out, Number::Whole(z)),
            )
        }
        WholeRead::NotNumber => {
            let out = OpOut::Is(Value::Num(Number::NaN));
            step_write(flow, alloc, w, codes, store, op, of, (out, Number::NaN))
        }
        WholeRead::Left => Ok(flow.stop(StopCause::Number)),
    }
}

// The number after a step.
fn stepped(alloc: Global, op: StepOp, z: i64) -> Result<OpOut, Memory>
    ensures value { IfOk result (λ o. meant_out o ≡ expressions.stepped op z) }
    ensures plain { IfOk result IsPlainOut }
{
    let one = whole(1);
    let number = whole(z);
    match op {
        StepOp::PreInc => binary(alloc, BinOp::Add, &number, &one),
        StepOp::PostInc => binary(alloc, BinOp::Add, &number, &one),
        StepOp::PreDec => binary(alloc, BinOp::Sub, &number, &one),
        StepOp::PostDec => binary(alloc, BinOp::Sub, &number, &one),
    }
}

fn whole(z: i64) -> Value
    ensures { result ≡ Value.Num (Number.Whole z) }
{
    Value::Num(Number::Whole(z))
}

// Whether a step gives the number before it.
fn is_post(op: StepOp) -> bool
    ensures { result ≡ expressions.is_post op }
{
    match op {
        StepOp::PostInc => true,
        StepOp::PostDec => true,
        StepOp::PreInc => false,
        StepOp::PreDec => false,
    }
}

// The new number is written, and the one before or after it is given.
fn step_write(
    flow: &mut Flow,
    alloc: Global,
    w: u32,
    codes: &Vec<Code>,
    store: &mut Store,
    op: (StepOp, Place),
    of: &Reference,
    numbers: (OpOut, Number),
) -> Result<(), Memory>
    requires widget { w < 32 }
    requires confined { IsConfined (trees_of codes.now.items) w store.old }
    requires held { FineReference w store.old.cells of.now × IsPlace (trees_of codes.now.items) w store.old.cells op.1 }
    requires plain { IsPlainOut numbers.0 }
    ensures plan { OnOk result (Plans (trees_of codes.now.items) w store.old store.new
        (expressions.step_write (meant_out numbers.0) op.0 (plain (Value.Num numbers.1))
        (reference_of w store.old.cells of.now) (place_of w store.old.cells op.1)) flow.new) }
    ensures fine { OnOk result (FineLeft (trees_of codes.now.items) w store.new.cells flow.new) }
    ensures near { OnOk result (left_free flow.new ≤ 1) }
    ensures kept { Kept (trees_of codes.now.items) w store.old store.new }
    ensures below { OnOk result (flow.new.below ≡ all_frames flow.old) }
{
    let (op, place) = op;
    let (out, before) = numbers;
    match out {
        OpOut::Is(value) => {
            let given = if is_post(op) {
                Value::Num(before)
            } else {
                value.share()?
            };
            write(flow, alloc, w, codes, store, of, place, (value, given))
        }
        OpOut::Left => Ok(flow.stop(StopCause::Number)),
        OpOut::LongText => Ok(flow.stop(StopCause::LongText)),
    }
}
