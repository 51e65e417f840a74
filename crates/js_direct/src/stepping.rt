//! Steps, carried out in place.
ghost use Rattle.std.specs.Prelude.{◌≡◌, ℕ, ◌<◌, ◌+ℤ◌, ◌-ℤ◌, pos, [], if◌then◌else◌, IfOk, List, nat_lt, unsigned_abs, ℤ, true};
ghost use Rattle.js_tree.specs.Trees.{trees};
ghost use Rattle.js_tree.specs.Forest.{Forest};
ghost use Rattle.store_cells.specs.Cells.{Cells, PlainCell};
ghost use Rattle.widget_meaning.specs.Limits.{past_numbers};
ghost use Rattle.widget_meaning.specs.Values as meaning;
ghost use Rattle.widget_meaning.specs.Calls as calls;
ghost use Rattle.widget_meaning.specs.Expressions as expressions;
ghost use Rattle.widget_meaning.specs.Operators as operators;
ghost use Rattle.widget_meaning.specs.Plan.{Do, and_then};
ghost use Rattle.js_image.specs.Image.{seen};
ghost use Rattle.js_image.specs.Held.{IsFine, Kept};
ghost use Rattle.js_values.specs.Operands.{IsPlainOut, IsPrimitive, meant_out, plain};
ghost use Rattle.js_names.specs.Code.{trees_of};
ghost use Rattle.js_flow.specs.Parts.{forest_at};
ghost use Rattle.js_flow.specs.Fine.{FineReference, IsExprAt, IsPlace};
ghost use Rattle.js_flow.specs.Forms.{form_taken};
ghost use Rattle.js_flow.specs.Frames.{taken};
ghost use Rattle.js_flow.specs.Views.{job_of, place_of, reference_of};
ghost use Rattle.js_direct.specs.Hands.{HandsOn};
ghost use Rattle.js_direct.specs.Comes.{Comes, IsReady};

use crate::operators::is_object;
use crate::run::{Ended, Here, Run, set_next, set_value, stop, take_value, wait};
use crate::targets::{referred, take_reference, target_on};
use crate::writing::write_on;
use code_units::{Memory, Text, WholeRead};
use js_flow::{CallFrame, Completion, FormFrame, Frame, Job, Next, Place, Reference};
use js_image::{StopCause, add_to, variable};
use js_tree::{Expr, ExprId, StepOp};
use js_values::{OpOut, number_of};
use object_store::{Number, Store, Value};

/// A step, after its unit.
#[inline(never)]
#[cycle(direct)]
pub(crate) fn step_on(
    here: &Here,
    run: &mut Run,
    store: &mut Store,
    op: StepOp,
    to: ExprId,
    deep: u32,
    out: &mut Value,
) -> Result<Ended, Memory>
    requires ready { IsReady (trees_of here.now.site.now.codes.now.items) here.now.site.now.widget store.old run.old }
    requires held { IsExprAt (trees_of here.now.site.now.codes.now.items) here.now.site.now.widget store.old.cells to
        here.now.at }
    requires tree { trees here.now.tree.now ≡ forest_at (trees_of here.now.site.now.codes.now.items) here.now.at.code }
    ensures comes { let F = trees_of here.now.site.now.codes.now.items in let w = here.now.site.now.widget in
        IfOk result (λ how. Comes F w store.old store.new 30
        (λ s. Do (job_of F w store.old.cells (Job.Target to here.now.at)) s
        (taken F w store.old.cells (Frame.Form (FormFrame.StepTarget op here.now.at))))
        run.old run.new how out.new) }
    ensures kept { Kept (trees_of here.now.site.now.codes.now.items) here.now.site.now.widget store.old store.new }
{
    if run.units == 0 {
        return step_any(here, run, store, op, to, deep, out);
    }
    match here.tree.expr(to) {
        Expr::Name(name) => {
            run.units -= 1;
            step_name(here, run, store, op, name, out)
        }
        _ => step_any(here, run, store, op, to, deep, out),
    }
}

// A step of any target.
#[inline(never)]
#[cycle(direct)]
fn step_any(
    here: &Here,
    run: &mut Run,
    store: &mut Store,
    op: StepOp,
    to: ExprId,
    deep: u32,
    out: &mut Value,
) -> Result<Ended, Memory>
    requires ready { IsReady (trees_of here.now.site.now.codes.now.items) here.now.site.now.widget store.old run.old }
    requires held { IsExprAt (trees_of here.now.site.now.codes.now.items) here.now.site.now.widget store.old.cells to
        here.now.at }
    requires tree { trees here.now.tree.now ≡ forest_at (trees_of here.now.site.now.codes.now.items) here.now.at.code }
    ensures comes { let F = trees_of here.now.site.now.codes.now.items in let w = here.now.site.now.widget in
        IfOk result (λ how. Comes F w store.old store.new 30
        (λ s. Do (job_of F w store.old.cells (Job.Target to here.now.at)) s
        (form_taken F w store.old.cells (FormFrame.StepTarget op here.now.at)))
        run.old run.new how out.new) }
    ensures kept { Kept (trees_of here.now.site.now.codes.now.items) here.now.site.now.widget store.old store.new }
{
    let mut of = Reference::Found(Value::Undefined);
    step_reached(here, run, store, op, to, deep, &mut of, out)
}

// The same with a place for the reference of the target.
#[cycle(direct)]
fn step_reached(
    here: &Here,
    run: &mut Run,
    store: &mut Store,
    op: StepOp,
    to: ExprId,
    deep: u32,
    of: &mut Reference,
    out: &mut Value,
) -> Result<Ended, Memory>
    requires ready { IsReady (trees_of here.now.site.now.codes.now.items) here.now.site.now.widget store.old run.old }
    requires held { IsExprAt (trees_of here.now.site.now.codes.now.items) here.now.site.now.widget store.old.cells to
        here.now.at }
    requires tree { trees here.now.tree.now ≡ forest_at (trees_of here.now.site.now.codes.now.items) here.now.at.code }
    ensures comes { let F = trees_of here.now.site.now.codes.now.items in let w = here.now.site.now.widget in
        IfOk result (λ how. Comes F w store.old store.new 30
        (λ s. Do (job_of F w store.old.cells (Job.Target to here.now.at)) s
        (form_taken F w store.old.cells (FormFrame.StepTarget op here.now.at)))
        run.old run.new how out.new) }
    ensures kept { Kept (trees_of here.now.site.now.codes.now.items) here.now.site.now.widget store.old store.new }
{
    match target_on(here, run, store, to, deep, of, out)? {
        Ended::Is => step_target(here, run, store, op, of, out),
        other => hand_step(run, other, op, &here.at),
    }
}

// The end of the target that is no reference.
#[cold]
#[inline(never)]
fn hand_step(run: &mut Run, how: Ended, op: StepOp, place: &Place) -> Result<Ended, Memory>
    ensures { IfOk result (λ h. HandsOn run.old run.new how h (Frame.Form (FormFrame.StepTarget op place.now))) }
{
    match how {
        Ended::Left => wait(run, Frame::Form(FormFrame::StepTarget(op, *place))),
        how => Ok(how),
    }
}

// A step of a variable, whose target has its unit: most have whole numbers.
#[inline(always)]
fn step_name(
    here: &Here,
    run: &mut Run,
    store: &mut Store,
    op: StepOp,
    name: &Text,
    out: &mut Value,
) -> Result<Ended, Memory>
    requires ready { IsReady (trees_of here.now.site.now.codes.now.items) here.now.site.now.widget store.old run.old }
    requires held { IsPlace (trees_of here.now.site.now.codes.now.items) here.now.site.now.widget store.old.cells
        here.now.at }
    ensures comes { let F = trees_of here.now.site.now.codes.now.items in let w = here.now.site.now.widget in
        IfOk result (λ how. Comes F w store.old store.new 4
        (form_taken F w store.old.cells (FormFrame.StepTarget op here.now.at)
        (meaning.Refers (meaning.Variable name.now)))
        run.old run.new how out.new) }
    ensures kept { Kept (trees_of here.now.site.now.codes.now.items) here.now.site.now.widget store.old store.new }
{
    let by = by_one(op);
    match add_to(store, here.site.widget, here.at.scope, name, by) {
        Some(z) => {
            set_value(out, given_sum(op, z, by));
            Ok(Ended::Is)
        }
        None => step_other(here, run, store, op, name, out),
    }
}

// What a step adds.
#[inline(always)]
fn by_one(op: StepOp) -> i64
    ensures { (z : ℤ) → expressions.stepped op z ≡ operators.number (z +ℤ result) }
{
    match op {
        StepOp::PreInc => 1,
        StepOp::PostInc => 1,
        StepOp::PreDec => -1,
        StepOp::PostDec => -1,
    }
}

// What a step of a whole number gives, which was added to.
#[inline(always)]
fn given_sum(op: StepOp, z: i64, by: i64) -> Value
    requires within { nat_lt (unsigned_abs (z +ℤ by)) past_numbers ≡ true }
    ensures value { (w : ℕ) (cells : List PlainCell) → seen w cells result
        ≡ (if expressions.is_post op then meaning.Num z else meaning.Num (z +ℤ by)) }
    ensures fine { (w : ℕ) (cells : List PlainCell) → IsFine w cells result }
{
    if is_post(op) {
        Value::Num(Number::Whole(z))
    } else {
        Value::Num(Number::Whole(z + by))
    }
}

// A step of a variable that has no whole number, or none that may be added to.
#[cold]
#[inline(never)]
fn step_other(
    here: &Here,
    run: &mut Run,
    store: &mut Store,
    op: StepOp,
    name: &Text,
    out: &mut Value,
) -> Result<Ended, Memory>
    requires ready { IsReady (trees_of here.now.site.now.codes.now.items) here.now.site.now.widget store.old run.old }
    requires held { IsPlace (trees_of here.now.site.now.codes.now.items) here.now.site.now.widget store.old.cells
        here.now.at }
    ensures comes { let F = trees_of here.now.site.now.codes.now.items in let w = here.now.site.now.widget in
        IfOk result (λ how. Comes F w store.old store.new 4
        (form_taken F w store.old.cells (FormFrame.StepTarget op here.now.at)
        (meaning.Refers (meaning.Variable name.now)))
        run.old run.new how out.new) }
    ensures kept { Kept (trees_of here.now.site.now.codes.now.items) here.now.site.now.widget store.old store.new }
{
    let has = variable(store, here.at.scope, name)?;
    set_value(out, has);
    let mut of = Reference::Variable(name.share()?);
    step_has(here, run, store, op, &mut of, out)
}

// A step of a reference: what it has is converted.
fn step_target(
    here: &Here,
    run: &mut Run,
    store: &mut Store,
    op: StepOp,
    of: &mut Reference,
    out: &mut Value,
) -> Result<Ended, Memory>
    requires ready { IsReady (trees_of here.now.site.now.codes.now.items) here.now.site.now.widget store.old run.old }
    requires held { FineReference here.now.site.now.widget store.old.cells of.old
        × IsPlace (trees_of here.now.site.now.codes.now.items) here.now.site.now.widget store.old.cells here.now.at }
    ensures comes { let F = trees_of here.now.site.now.codes.now.items in let w = here.now.site.now.widget in
        IfOk result (λ how. Comes F w store.old store.new 4
        (form_taken F w store.old.cells (FormFrame.StepTarget op here.now.at)
        (meaning.Refers (reference_of w store.old.cells of.old)))
        run.old run.new how out.new) }
    ensures kept { Kept (trees_of here.now.site.now.codes.now.items) here.now.site.now.widget store.old store.new }
{
    let has = referred(here, store, of)?;
    set_value(out, has);
    step_has(here, run, store, op, of, out)
}

// A step of a reference that has the value at the place.
fn step_has(
    here: &Here,
    run: &mut Run,
    store: &mut Store,
    op: StepOp,
    of: &mut Reference,
    out: &mut Value,
) -> Result<Ended, Memory>
    requires ready { IsReady (trees_of here.now.site.now.codes.now.items) here.now.site.now.widget store.old run.old }
    requires held { FineReference here.now.site.now.widget store.old.cells of.old
        × IsPlace (trees_of here.now.site.now.codes.now.items) here.now.site.now.widget store.old.cells here.now.at }
    requires value { IsFine here.now.site.now.widget store.old.cells out.old }
    ensures comes { let F = trees_of here.now.site.now.codes.now.items in let w = here.now.site.now.widget in
        IfOk result (λ how. Comes F w store.old store.new 4
        (λ s. and_then (calls.to_primitive (seen w store.old.cells out.old) here.now.at.depth s)
        (expressions.step_converted op (reference_of w store.old.cells of.old)
        (place_of w store.old.cells here.now.at)))
        run.old run.new how out.new) }
    ensures kept { Kept (trees_of here.now.site.now.codes.now.items) here.now.site.now.widget store.old store.new }
{
    if is_object(out) {
        return convert_step(here, run, op, of, out);
    }
    step_number(here, run, store, op, of, out)
}

// An object is converted before the step.
#[cold]
#[inline(never)]
fn convert_step(
    here: &Here,
    run: &mut Run,
    op: StepOp,
    of: &mut Reference,
    out: &mut Value,
) -> Result<Ended, Memory>
    requires { run.old.waits.items ≡ [] }
    ensures { IfOk result (λ how. (fs : List Forest) (w : ℕ) (s : Cells) → IsFine w s.cells out.old
        → FineReference w s.cells of.old → IsPlace fs w s.cells here.now.at → Comes fs w s s 4
        (λ t. and_then (calls.to_primitive (seen w s.cells out.old) here.now.at.depth t)
        (expressions.step_converted op (reference_of w s.cells of.old) (place_of w s.cells here.now.at)))
        run.old run.new how out.new) }
{
    let value = take_value(out);
    let boxed = Box::new(here.site.alloc, take_reference(of))?;
    set_next(run, Next::Give(Completion::Is(value)));
    wait(run, Frame::Call(CallFrame::ToPrimitive(here.at.depth)))?;
    wait(
        run,
        Frame::Form(FormFrame::StepConverted(op, boxed, here.at)),
    )
}

// A step of the primitive at the place.
#[inline(never)]
fn step_number(
    here: &Here,
    run: &mut Run,
    store: &mut Store,
    op: StepOp,
    of: &Reference,
    out: &mut Value,
) -> Result<Ended, Memory>
    requires ready { IsReady (trees_of here.now.site.now.codes.now.items) here.now.site.now.widget store.old run.old }
    requires held { FineReference here.now.site.now.widget store.old.cells of.now
        × IsPlace (trees_of here.now.site.now.codes.now.items) here.now.site.now.widget store.old.cells here.now.at }
    requires primitive { IsPrimitive out.old }
    ensures comes { let F = trees_of here.now.site.now.codes.now.items in let w = here.now.site.now.widget in
        IfOk result (λ how. Comes F w store.old store.new 1
        (expressions.step_number (meaning.to_number (seen w store.old.cells out.old)) op
        (reference_of w store.old.cells of.now) (place_of w store.old.cells here.now.at))
        run.old run.new how out.new) }
    ensures kept { Kept (trees_of here.now.site.now.codes.now.items) here.now.site.now.widget store.old store.new }
{
    match number_of(out) {
        WholeRead::Whole(z) => {
            let sum = stepped(op, z);
            step_write(here, run, store, op, of, (sum, Number::Whole(z)), out)
        }
        WholeRead::NotNumber => {
            let sum = OpOut::Is(Value::Num(Number::NaN));
            step_write(here, run, store, op, of, (sum, Number::NaN), out)
        }
        WholeRead::Left => stop(run, StopCause::Number),
    }
}

// The number after a step.
fn stepped(op: StepOp, z: i64) -> OpOut
    ensures value { meant_out result ≡ expressions.stepped op z }
    ensures plain { IsPlainOut result }
{
    match op {
        StepOp::PreInc => one_more(z),
        StepOp::PostInc => one_more(z),
        StepOp::PreDec => one_less(z),
        StepOp::PostDec => one_less(z),
    }
}

fn one_more(z: i64) -> OpOut
    ensures value { meant_out result ≡ operators.number (z +ℤ pos 1) }
    ensures plain { IsPlainOut result }
{
    match z.checked_add(1) {
        Some(next) => {
            if next.unsigned_abs() < LIMIT {
                OpOut::Is(Value::Num(Number::Whole(next)))
            } else {
                OpOut::Left
            }
        }
        None => OpOut::Left,
    }
}

fn one_less(z: i64) -> OpOut
    ensures value { meant_out result ≡ operators.number (z -ℤ pos 1) }
    ensures plain { IsPlainOut result }
{
    match z.checked_sub(1) {
        Some(next) => {
            if next.unsigned_abs() < LIMIT {
                OpOut::Is(Value::Num(Number::Whole(next)))
            } else {
                OpOut::Left
            }
        }
        None => OpOut::Left,
    }
}

// The first number past the numbers.
const LIMIT: u64 = 1 << 53;

// Whether a step gives the number before it.
fn is_post(op: StepOp) -> bool
    ensures { result ≡ expressions.is_post op }
{
    match op {
        StepOp::PostInc => true,
        StepOp::PostDec => true,
        StepOp::PreInc => false,
        StepOp::PreDec => false,
    }
}

// What a step gives: the number before it or the one after it.
fn given_number(op: StepOp, before: Number, after: &Value) -> Result<Value, Memory>
    requires { IsPrimitive after.now }
    ensures value { IfOk result (λ v. plain v
        ≡ (if expressions.is_post op then plain (Value.Num before) else plain after.now)) }
    ensures plain { IfOk result IsPrimitive }
{
    if is_post(op) {
        Ok(Value::Num(before))
    } else {
        after.share()
    }
}

// The new number is written, and the one before or after it is given.
fn step_write(
    here: &Here,
    run: &mut Run,
    store: &mut Store,
    op: StepOp,
    of: &Reference,
    numbers: (OpOut, Number),
    out: &mut Value,
) -> Result<Ended, Memory>
    requires ready { IsReady (trees_of here.now.site.now.codes.now.items) here.now.site.now.widget store.old run.old }
    requires held { FineReference here.now.site.now.widget store.old.cells of.now
        × IsPlace (trees_of here.now.site.now.codes.now.items) here.now.site.now.widget store.old.cells here.now.at }
    requires plain { IsPlainOut numbers.0 }
    ensures comes { let F = trees_of here.now.site.now.codes.now.items in let w = here.now.site.now.widget in
        IfOk result (λ how. Comes F w store.old store.new 1
        (expressions.step_write (meant_out numbers.0) op (plain (Value.Num numbers.1))
        (reference_of w store.old.cells of.now) (place_of w store.old.cells here.now.at))
        run.old run.new how out.new) }
    ensures kept { Kept (trees_of here.now.site.now.codes.now.items) here.now.site.now.widget store.old store.new }
{
    let (sum, before) = numbers;
    match sum {
        OpOut::Is(value) => {
            let given = given_number(op, before, &value)?;
            *out = given;
            write_on(here, run, store, of, value, out)
        }
        OpOut::Left => stop(run, StopCause::Number),
        OpOut::LongText => stop(run, StopCause::LongText),
    }
}
