//! Operators, and choices by the truth of a first part.
ghost use Rattle.std.specs.Prelude.{◌≡◌, ℕ, ◌<◌, List, IfOk, false, true};
ghost use Rattle.js_tree.specs.Trees.{trees};
ghost use Rattle.store_cells.specs.Cells.{PlainCell};
ghost use Rattle.widget_meaning.specs.Expressions as expressions;
ghost use Rattle.widget_meaning.specs.Operators as operators;
ghost use Rattle.widget_meaning.specs.Values as meaning;
ghost use Rattle.widget_meaning.specs.Plan.{Do};
ghost use Rattle.js_image.specs.Image.{seen};
ghost use Rattle.js_image.specs.Held.{IsFine, Kept};
ghost use Rattle.js_values.specs.Operands.{IsOperand, IsPlainOut, IsPrefixed, IsPrimitive, meant_out, plain};
ghost use Rattle.js_names.specs.Code.{trees_of};
ghost use Rattle.js_flow.specs.Parts.{forest_at};
ghost use Rattle.js_flow.specs.Fine.{FineForm, IsExprAt, IsPlace};
ghost use Rattle.js_flow.specs.Free.{form_free, native_free};
ghost use Rattle.js_flow.specs.Frames.{taken};
ghost use Rattle.js_flow.specs.Views.{job_of};
ghost use Rattle.js_direct.specs.Hands.{HandsOn};
ghost use Rattle.js_direct.specs.Comes.{Comes, IsReady};
ghost use Rattle.js_direct.specs.Prefixes.{is_plain_prefix};

use crate::forms::{condition_on, operand_on};
use crate::run::{Ended, Here, Run, Site, clear, handed, set_value, stop, take_value, wait};
use crate::summing::computed;
use crate::wholes::{of_whole, of_wholes};
use code_units::Memory;
use js_expressions::take_form;
use js_flow::{Completion, Flow, FormFrame, Frame, Job, Place};
use js_image::{Paid, StopCause, pay_text};
use js_tree::{BinOp, ExprId, UnOp};
use js_values::{OpOut, binary, is_true, unary};
use object_store::{Store, Value};

/// An operator on two expressions.
#[inline(never)]
#[cycle(direct)]
pub(crate) fn binary_on(
    here: &Here,
    run: &mut Run,
    store: &mut Store,
    op: BinOp,
    parts: (ExprId, ExprId),
    deep: u32,
    out: &mut Value,
) -> Result<Ended, Memory>
    requires ready { IsReady (trees_of here.now.site.now.codes.now.items) here.now.site.now.widget store.old run.old }
    requires held { IsExprAt (trees_of here.now.site.now.codes.now.items) here.now.site.now.widget store.old.cells
        parts.0 here.now.at
        × IsExprAt (trees_of here.now.site.now.codes.now.items) here.now.site.now.widget store.old.cells parts.1
        here.now.at }
    requires tree { trees here.now.tree.now ≡ forest_at (trees_of here.now.site.now.codes.now.items) here.now.at.code }
    ensures comes { let F = trees_of here.now.site.now.codes.now.items in let w = here.now.site.now.widget in
        IfOk result (λ how. Comes F w store.old store.new 30
        (λ s. Do (job_of F w store.old.cells (Job.Eval parts.0 here.now.at)) s
        (taken F w store.old.cells (Frame.Form (FormFrame.Right op parts.1 here.now.at))))
        run.old run.new how out.new) }
    ensures kept { Kept (trees_of here.now.site.now.codes.now.items) here.now.site.now.widget store.old store.new }
{
    if let Some(value) = computed(here, store, op, parts, run.units) {
        run.units -= 2;
        set_value(out, value);
        return Ok(Ended::Is);
    }
    let mut left = Value::Undefined;
    binary_with(here, run, store, op, parts, deep, &mut left, out)
}

// The same with a place for the left operand.
#[inline(always)]
#[cycle(direct)]
fn binary_with(
    here: &Here,
    run: &mut Run,
    store: &mut Store,
    op: BinOp,
    parts: (ExprId, ExprId),
    deep: u32,
    left: &mut Value,
    out: &mut Value,
) -> Result<Ended, Memory>
    requires ready { IsReady (trees_of here.now.site.now.codes.now.items) here.now.site.now.widget store.old run.old }
    requires held { IsExprAt (trees_of here.now.site.now.codes.now.items) here.now.site.now.widget store.old.cells
        parts.0 here.now.at
        × IsExprAt (trees_of here.now.site.now.codes.now.items) here.now.site.now.widget store.old.cells parts.1
        here.now.at }
    requires tree { trees here.now.tree.now ≡ forest_at (trees_of here.now.site.now.codes.now.items) here.now.at.code }
    ensures comes { let F = trees_of here.now.site.now.codes.now.items in let w = here.now.site.now.widget in
        IfOk result (λ how. Comes F w store.old store.new 30
        (λ s. Do (job_of F w store.old.cells (Job.Eval parts.0 here.now.at)) s
        (taken F w store.old.cells (Frame.Form (FormFrame.Right op parts.1 here.now.at))))
        run.old run.new how out.new) }
    ensures kept { Kept (trees_of here.now.site.now.codes.now.items) here.now.site.now.widget store.old store.new }
{
    match operand_on(here, run, store, parts.0, deep, left)? {
        Ended::Is => right_on(here, run, store, op, parts.1, deep, left, out),
        how => hand_right(run, how, op, parts.1, &here.at, left, out),
    }
}

// The end of the left operand that is no value; what it threw is at the place then.
#[cold]
#[inline(never)]
fn hand_right(
    run: &mut Run,
    how: Ended,
    op: BinOp,
    e: ExprId,
    place: &Place,
    left: &mut Value,
    out: &mut Value,
) -> Result<Ended, Memory>
    ensures hands { IfOk result (λ h. HandsOn run.old run.new how h (Frame.Form (FormFrame.Right op e place.now))) }
    ensures value { IfOk result (λ h. out.new ≡ left.old) }
{
    *out = take_value(left);
    match how {
        Ended::Left => wait(run, Frame::Form(FormFrame::Right(op, e, *place))),
        how => Ok(how),
    }
}

// The right operand of a left one.
#[inline(always)]
#[cycle(direct)]
fn right_on(
    here: &Here,
    run: &mut Run,
    store: &mut Store,
    op: BinOp,
    e: ExprId,
    deep: u32,
    left: &mut Value,
    out: &mut Value,
) -> Result<Ended, Memory>
    requires ready { IsReady (trees_of here.now.site.now.codes.now.items) here.now.site.now.widget store.old run.old }
    requires held { IsExprAt (trees_of here.now.site.now.codes.now.items) here.now.site.now.widget store.old.cells e
        here.now.at × IsFine here.now.site.now.widget store.old.cells left.old }
    requires tree { trees here.now.tree.now ≡ forest_at (trees_of here.now.site.now.codes.now.items) here.now.at.code }
    ensures comes { let F = trees_of here.now.site.now.codes.now.items in let w = here.now.site.now.widget in
        IfOk result (λ how. Comes F w store.old store.new 8
        (taken F w store.old.cells (Frame.Form (FormFrame.Right op e here.now.at))
        (meaning.Is (seen w store.old.cells left.old)))
        run.old run.new how out.new) }
    ensures kept { Kept (trees_of here.now.site.now.codes.now.items) here.now.site.now.widget store.old store.new }
{
    match operand_on(here, run, store, e, deep, out)? {
        Ended::Is => operate_on(here.site, run, store, op, left, here.at.depth, out),
        how => hand_operate(run, how, op, left, here.at.depth),
    }
}

// The end of the right operand that is no value.
#[cold]
#[inline(never)]
fn hand_operate(
    run: &mut Run,
    how: Ended,
    op: BinOp,
    left: &mut Value,
    depth: u32,
) -> Result<Ended, Memory>
    ensures { IfOk result (λ h. HandsOn run.old run.new how h (Frame.Form (FormFrame.Operate op left.old depth))) }
{
    match how {
        Ended::Left => wait(
            run,
            Frame::Form(FormFrame::Operate(op, take_value(left), depth)),
        ),
        how => Ok(how),
    }
}

/// An operator on a left value and the one at the place.
#[inline(always)]
pub(crate) fn operate_on(
    site: &Site,
    run: &mut Run,
    store: &mut Store,
    op: BinOp,
    left: &Value,
    depth: u32,
    out: &mut Value,
) -> Result<Ended, Memory>
    requires ready { IsReady (trees_of site.now.codes.now.items) site.now.widget store.old run.old }
    requires held { IsFine site.now.widget store.old.cells left.now
        × IsFine site.now.widget store.old.cells out.old }
    ensures comes { let F = trees_of site.now.codes.now.items in let w = site.now.widget in
        IfOk result (λ how. Comes F w store.old store.new 8
        (expressions.operate op (seen w store.old.cells left.now) (seen w store.old.cells out.old) depth)
        run.old run.new how out.new) }
    ensures kept { Kept (trees_of site.now.codes.now.items) site.now.widget store.old store.new }
{
    if let Some(value) = of_wholes(op, left, out) {
        *out = value;
        return Ok(Ended::Is);
    }
    operate_any(site, run, store, op, left, depth, out)
}

// The same of any values.
#[inline(never)]
fn operate_any(
    site: &Site,
    run: &mut Run,
    store: &mut Store,
    op: BinOp,
    left: &Value,
    depth: u32,
    out: &mut Value,
) -> Result<Ended, Memory>
    requires ready { IsReady (trees_of site.now.codes.now.items) site.now.widget store.old run.old }
    requires held { IsFine site.now.widget store.old.cells left.now
        × IsFine site.now.widget store.old.cells out.old }
    ensures comes { let F = trees_of site.now.codes.now.items in let w = site.now.widget in
        IfOk result (λ how. Comes F w store.old store.new 8
        (expressions.operate op (seen w store.old.cells left.now) (seen w store.old.cells out.old) depth)
        run.old run.new how out.new) }
    ensures kept { Kept (trees_of site.now.codes.now.items) site.now.widget store.old store.new }
{
    if is_ready(op, left, out) {
        let found = binary(site.alloc, op, left, out)?;
        return result_on(site, run, store, found, out);
    }
    operate_by_frames(site, run, store, op, left, depth, out)
}

// The same by frames, where an object is converted.
#[cold]
#[inline(never)]
fn operate_by_frames(
    site: &Site,
    run: &mut Run,
    store: &mut Store,
    op: BinOp,
    left: &Value,
    depth: u32,
    out: &mut Value,
) -> Result<Ended, Memory>
    requires ready { IsReady (trees_of site.now.codes.now.items) site.now.widget store.old run.old }
    requires held { IsFine site.now.widget store.old.cells left.now
        × IsFine site.now.widget store.old.cells out.old }
    ensures comes { let F = trees_of site.now.codes.now.items in let w = site.now.widget in
        IfOk result (λ how. Comes F w store.old store.new 8
        (expressions.operate op (seen w store.old.cells left.now) (seen w store.old.cells out.old) depth)
        run.old run.new how out.new) }
    ensures kept { Kept (trees_of site.now.codes.now.items) site.now.widget store.old store.new }
{
    let frame = FormFrame::Operate(op, left.share()?, depth);
    taken_by_frames(site, run, store, &frame, out)
}

/// What a frame does with the value at the place, by frames.
#[cold]
#[inline(never)]
pub(crate) fn taken_by_frames(
    site: &Site,
    run: &mut Run,
    store: &mut Store,
    frame: &FormFrame,
    out: &mut Value,
) -> Result<Ended, Memory>
    requires ready { IsReady (trees_of site.now.codes.now.items) site.now.widget store.old run.old }
    requires held { FineForm (trees_of site.now.codes.now.items) site.now.widget store.old.cells frame.now
        × IsFine site.now.widget store.old.cells out.old }
    requires light { form_free frame.now < native_free }
    ensures comes { let F = trees_of site.now.codes.now.items in let w = site.now.widget in
        IfOk result (λ how. Comes F w store.old store.new (form_free frame.now)
        (taken F w store.old.cells (Frame.Form frame.now) (meaning.Is (seen w store.old.cells out.old)))
        run.old run.new how out.new) }
    ensures kept { Kept (trees_of site.now.codes.now.items) site.now.widget store.old store.new }
{
    let value = take_value(out);
    let mut flow = Flow::new(Vec::new(site.alloc));
    take_form(
        &mut flow,
        site.alloc,
        site.widget,
        site.codes,
        store,
        frame,
        Completion::Is(value),
    )?;
    handed(run, flow, out)
}

// Whether no operand is converted.
fn is_ready(op: BinOp, left: &Value, right: &Value) -> bool
    ensures { result ≡ true → IsOperand op left.now × IsOperand op right.now }
{
    match op {
        BinOp::Same => true,
        BinOp::NotSame => true,
        _ => !is_object(left) && !is_object(right),
    }
}

/// Whether a value is an object.
pub(crate) fn is_object(value: &Value) -> bool
    ensures object { (w : ℕ) (cells : List PlainCell) → result ≡ meaning.is_object (seen w cells value.now) }
    ensures primitive { result ≡ false → IsPrimitive value.now }
{
    match value {
        Value::Ref(_) => true,
        _ => false,
    }
}

// What an operator gives.
fn result_on(
    site: &Site,
    run: &mut Run,
    store: &mut Store,
    found: OpOut,
    out: &mut Value,
) -> Result<Ended, Memory>
    requires ready { IsReady (trees_of site.now.codes.now.items) site.now.widget store.old run.old }
    requires plain { IsPlainOut found }
    ensures comes { let F = trees_of site.now.codes.now.items in let w = site.now.widget in
        IfOk result (λ how. Comes F w store.old store.new 1
        (expressions.result (meant_out found))
        run.old run.new how out.new) }
    ensures kept { Kept (trees_of site.now.codes.now.items) site.now.widget store.old store.new }
{
    match found {
        OpOut::Is(value) => made_on(site, run, store, value, out),
        OpOut::Left => stop(run, StopCause::Number),
        OpOut::LongText => stop(run, StopCause::LongText),
    }
}

// What an operator made: a text costs its units.
fn made_on(
    site: &Site,
    run: &mut Run,
    store: &mut Store,
    value: Value,
    out: &mut Value,
) -> Result<Ended, Memory>
    requires ready { IsReady (trees_of site.now.codes.now.items) site.now.widget store.old run.old }
    requires plain { IsPrimitive value }
    ensures comes { let F = trees_of site.now.codes.now.items in let w = site.now.widget in
        IfOk result (λ how. Comes F w store.old store.new 1
        (expressions.result (operators.Gives (plain value)))
        run.old run.new how out.new) }
    ensures kept { Kept (trees_of site.now.codes.now.items) site.now.widget store.old store.new }
{
    match value {
        Value::Text(t) => match pay_text(store, site.widget, &t) {
            Paid::Done => {
                *out = Value::Text(t);
                Ok(Ended::Is)
            }
            Paid::Stop(cause) => stop(run, cause),
        },
        value => {
            *out = value;
            Ok(Ended::Is)
        }
    }
}

/// `&&`.
#[inline(never)]
#[cycle(direct)]
pub(crate) fn and_on(
    here: &Here,
    run: &mut Run,
    store: &mut Store,
    parts: (ExprId, ExprId),
    deep: u32,
    out: &mut Value,
) -> Result<Ended, Memory>
    requires ready { IsReady (trees_of here.now.site.now.codes.now.items) here.now.site.now.widget store.old run.old }
    requires held { IsExprAt (trees_of here.now.site.now.codes.now.items) here.now.site.now.widget store.old.cells
        parts.0 here.now.at
        × IsExprAt (trees_of here.now.site.now.codes.now.items) here.now.site.now.widget store.old.cells parts.1
        here.now.at }
    requires tree { trees here.now.tree.now ≡ forest_at (trees_of here.now.site.now.codes.now.items) here.now.at.code }
    ensures comes { let F = trees_of here.now.site.now.codes.now.items in let w = here.now.site.now.widget in
        IfOk result (λ how. Comes F w store.old store.new 30
        (λ s. Do (job_of F w store.old.cells (Job.Eval parts.0 here.now.at)) s
        (taken F w store.old.cells (Frame.Form (FormFrame.And parts.1 here.now.at))))
        run.old run.new how out.new) }
    ensures kept { Kept (trees_of here.now.site.now.codes.now.items) here.now.site.now.widget store.old store.new }
{
    match operand_on(here, run, store, parts.0, deep, out)? {
        Ended::Is => and_right(here, run, store, parts.1, deep, out),
        how => hand_and(run, how, parts.1, &here.at),
    }
}

// The end of the left of `&&` that is no value.
#[cold]
#[inline(never)]
fn hand_and(run: &mut Run, how: Ended, e: ExprId, place: &Place) -> Result<Ended, Memory>
    ensures { IfOk result (λ h. HandsOn run.old run.new how h (Frame.Form (FormFrame.And e place.now))) }
{
    match how {
        Ended::Left => wait(run, Frame::Form(FormFrame::And(e, *place))),
        how => Ok(how),
    }
}

// The right of `&&`, where the left one, which is at the place, does not decide.
#[cycle(direct)]
fn and_right(
    here: &Here,
    run: &mut Run,
    store: &mut Store,
    e: ExprId,
    deep: u32,
    out: &mut Value,
) -> Result<Ended, Memory>
    requires ready { IsReady (trees_of here.now.site.now.codes.now.items) here.now.site.now.widget store.old run.old }
    requires held { IsExprAt (trees_of here.now.site.now.codes.now.items) here.now.site.now.widget store.old.cells e
        here.now.at
        × IsFine here.now.site.now.widget store.old.cells out.old }
    requires tree { trees here.now.tree.now ≡ forest_at (trees_of here.now.site.now.codes.now.items) here.now.at.code }
    ensures comes { let F = trees_of here.now.site.now.codes.now.items in let w = here.now.site.now.widget in
        IfOk result (λ how. Comes F w store.old store.new 1
        (taken F w store.old.cells (Frame.Form (FormFrame.And e here.now.at))
        (meaning.Is (seen w store.old.cells out.old)))
        run.old run.new how out.new) }
    ensures kept { Kept (trees_of here.now.site.now.codes.now.items) here.now.site.now.widget store.old store.new }
{
    if !is_true(out) {
        return Ok(Ended::Is);
    }
    clear(out);
    operand_on(here, run, store, e, deep, out)
}

/// `||`.
#[inline(never)]
#[cycle(direct)]
pub(crate) fn or_on(
    here: &Here,
    run: &mut Run,
    store: &mut Store,
    parts: (ExprId, ExprId),
    deep: u32,
    out: &mut Value,
) -> Result<Ended, Memory>
    requires ready { IsReady (trees_of here.now.site.now.codes.now.items) here.now.site.now.widget store.old run.old }
    requires held { IsExprAt (trees_of here.now.site.now.codes.now.items) here.now.site.now.widget store.old.cells
        parts.0 here.now.at
        × IsExprAt (trees_of here.now.site.now.codes.now.items) here.now.site.now.widget store.old.cells parts.1
        here.now.at }
    requires tree { trees here.now.tree.now ≡ forest_at (trees_of here.now.site.now.codes.now.items) here.now.at.code }
    ensures comes { let F = trees_of here.now.site.now.codes.now.items in let w = here.now.site.now.widget in
        IfOk result (λ how. Comes F w store.old store.new 30
        (λ s. Do (job_of F w store.old.cells (Job.Eval parts.0 here.now.at)) s
        (taken F w store.old.cells (Frame.Form (FormFrame.Or parts.1 here.now.at))))
        run.old run.new how out.new) }
    ensures kept { Kept (trees_of here.now.site.now.codes.now.items) here.now.site.now.widget store.old store.new }
{
    match operand_on(here, run, store, parts.0, deep, out)? {
        Ended::Is => or_right(here, run, store, parts.1, deep, out),
        how => hand_or(run, how, parts.1, &here.at),
    }
}

// The end of the left of `||` that is no value.
#[cold]
#[inline(never)]
fn hand_or(run: &mut Run, how: Ended, e: ExprId, place: &Place) -> Result<Ended, Memory>
    ensures { IfOk result (λ h. HandsOn run.old run.new how h (Frame.Form (FormFrame.Or e place.now))) }
{
    match how {
        Ended::Left => wait(run, Frame::Form(FormFrame::Or(e, *place))),
        how => Ok(how),
    }
}

// The right of `||`, where the left one, which is at the place, does not decide.
#[cycle(direct)]
fn or_right(
    here: &Here,
    run: &mut Run,
    store: &mut Store,
    e: ExprId,
    deep: u32,
    out: &mut Value,
) -> Result<Ended, Memory>
    requires ready { IsReady (trees_of here.now.site.now.codes.now.items) here.now.site.now.widget store.old run.old }
    requires held { IsExprAt (trees_of here.now.site.now.codes.now.items) here.now.site.now.widget store.old.cells e
        here.now.at
        × IsFine here.now.site.now.widget store.old.cells out.old }
    requires tree { trees here.now.tree.now ≡ forest_at (trees_of here.now.site.now.codes.now.items) here.now.at.code }
    ensures comes { let F = trees_of here.now.site.now.codes.now.items in let w = here.now.site.now.widget in
        IfOk result (λ how. Comes F w store.old store.new 1
        (taken F w store.old.cells (Frame.Form (FormFrame.Or e here.now.at))
        (meaning.Is (seen w store.old.cells out.old)))
        run.old run.new how out.new) }
    ensures kept { Kept (trees_of here.now.site.now.codes.now.items) here.now.site.now.widget store.old store.new }
{
    if is_true(out) {
        return Ok(Ended::Is);
    }
    clear(out);
    operand_on(here, run, store, e, deep, out)
}

/// `? :`.
#[inline(never)]
#[cycle(direct)]
pub(crate) fn choose_on(
    here: &Here,
    run: &mut Run,
    store: &mut Store,
    parts: (ExprId, ExprId, ExprId),
    deep: u32,
    out: &mut Value,
) -> Result<Ended, Memory>
    requires ready { IsReady (trees_of here.now.site.now.codes.now.items) here.now.site.now.widget store.old run.old }
    requires held { IsExprAt (trees_of here.now.site.now.codes.now.items) here.now.site.now.widget store.old.cells
        parts.0 here.now.at
        × IsExprAt (trees_of here.now.site.now.codes.now.items) here.now.site.now.widget store.old.cells parts.1
        here.now.at
        × IsExprAt (trees_of here.now.site.now.codes.now.items) here.now.site.now.widget store.old.cells parts.2
        here.now.at }
    requires tree { trees here.now.tree.now ≡ forest_at (trees_of here.now.site.now.codes.now.items) here.now.at.code }
    ensures comes { let F = trees_of here.now.site.now.codes.now.items in let w = here.now.site.now.widget in
        IfOk result (λ how. Comes F w store.old store.new 30
        (λ s. Do (job_of F w store.old.cells (Job.Eval parts.0 here.now.at)) s
        (taken F w store.old.cells (Frame.Form (FormFrame.Choose parts.1 parts.2 here.now.at))))
        run.old run.new how out.new) }
    ensures kept { Kept (trees_of here.now.site.now.codes.now.items) here.now.site.now.widget store.old store.new }
{
    match condition_on(here, run, store, parts.0, deep, out)? {
        Ended::Is => chosen_on(here, run, store, (parts.1, parts.2), deep, out),
        how => hand_choose(run, how, (parts.1, parts.2), &here.at),
    }
}

// The end of the condition that is no value.
#[cold]
#[inline(never)]
fn hand_choose(
    run: &mut Run,
    how: Ended,
    parts: (ExprId, ExprId),
    place: &Place,
) -> Result<Ended, Memory>
    ensures { IfOk result (λ h. HandsOn run.old run.new how h
        (Frame.Form (FormFrame.Choose parts.0 parts.1 place.now))) }
{
    match how {
        Ended::Left => wait(
            run,
            Frame::Form(FormFrame::Choose(parts.0, parts.1, *place)),
        ),
        how => Ok(how),
    }
}

// What the condition that is at the place chooses.
#[cycle(direct)]
fn chosen_on(
    here: &Here,
    run: &mut Run,
    store: &mut Store,
    parts: (ExprId, ExprId),
    deep: u32,
    out: &mut Value,
) -> Result<Ended, Memory>
    requires ready { IsReady (trees_of here.now.site.now.codes.now.items) here.now.site.now.widget store.old run.old }
    requires held { IsExprAt (trees_of here.now.site.now.codes.now.items) here.now.site.now.widget store.old.cells
        parts.0 here.now.at
        × IsExprAt (trees_of here.now.site.now.codes.now.items) here.now.site.now.widget store.old.cells parts.1
        here.now.at
        × IsFine here.now.site.now.widget store.old.cells out.old }
    requires tree { trees here.now.tree.now ≡ forest_at (trees_of here.now.site.now.codes.now.items) here.now.at.code }
    ensures comes { let F = trees_of here.now.site.now.codes.now.items in let w = here.now.site.now.widget in
        IfOk result (λ how. Comes F w store.old store.new 1
        (taken F w store.old.cells (Frame.Form (FormFrame.Choose parts.0 parts.1 here.now.at))
        (meaning.Is (seen w store.old.cells out.old)))
        run.old run.new how out.new) }
    ensures kept { Kept (trees_of here.now.site.now.codes.now.items) here.now.site.now.widget store.old store.new }
{
    if is_true(out) {
        clear(out);
        return operand_on(here, run, store, parts.0, deep, out);
    }
    clear(out);
    operand_on(here, run, store, parts.1, deep, out)
}

/// A prefix operator that takes a value.
#[cycle(direct)]
pub(crate) fn unary_on(
    here: &Here,
    run: &mut Run,
    store: &mut Store,
    op: UnOp,
    e: ExprId,
    deep: u32,
    out: &mut Value,
) -> Result<Ended, Memory>
    requires ready { IsReady (trees_of here.now.site.now.codes.now.items) here.now.site.now.widget store.old run.old }
    requires held { IsExprAt (trees_of here.now.site.now.codes.now.items) here.now.site.now.widget store.old.cells e
        here.now.at }
    requires tree { trees here.now.tree.now ≡ forest_at (trees_of here.now.site.now.codes.now.items) here.now.at.code }
    ensures comes { let F = trees_of here.now.site.now.codes.now.items in let w = here.now.site.now.widget in
        IfOk result (λ how. Comes F w store.old store.new 30
        (λ s. Do (job_of F w store.old.cells (Job.Eval e here.now.at)) s
        (taken F w store.old.cells (Frame.Form (FormFrame.Prefix op here.now.at))))
        run.old run.new how out.new) }
    ensures kept { Kept (trees_of here.now.site.now.codes.now.items) here.now.site.now.widget store.old store.new }
{
    match operand_on(here, run, store, e, deep, out)? {
        Ended::Is => prefix_on(here, run, store, op, out),
        how => hand_prefix(run, how, op, &here.at),
    }
}

// The end of the operand that is no value.
#[cold]
#[inline(never)]
fn hand_prefix(run: &mut Run, how: Ended, op: UnOp, place: &Place) -> Result<Ended, Memory>
    ensures { IfOk result (λ h. HandsOn run.old run.new how h (Frame.Form (FormFrame.Prefix op place.now))) }
{
    match how {
        Ended::Left => wait(run, Frame::Form(FormFrame::Prefix(op, *place))),
        how => Ok(how),
    }
}

// A prefix operator on the value at the place.
fn prefix_on(
    here: &Here,
    run: &mut Run,
    store: &mut Store,
    op: UnOp,
    out: &mut Value,
) -> Result<Ended, Memory>
    requires ready { IsReady (trees_of here.now.site.now.codes.now.items) here.now.site.now.widget store.old run.old }
    requires held { IsPlace (trees_of here.now.site.now.codes.now.items) here.now.site.now.widget store.old.cells
        here.now.at
        × IsFine here.now.site.now.widget store.old.cells out.old }
    ensures comes { let F = trees_of here.now.site.now.codes.now.items in let w = here.now.site.now.widget in
        IfOk result (λ how. Comes F w store.old store.new 4
        (taken F w store.old.cells (Frame.Form (FormFrame.Prefix op here.now.at))
        (meaning.Is (seen w store.old.cells out.old)))
        run.old run.new how out.new) }
    ensures kept { Kept (trees_of here.now.site.now.codes.now.items) here.now.site.now.widget store.old store.new }
{
    if let Some(value) = of_whole(op, out) {
        set_value(out, value);
        return Ok(Ended::Is);
    }
    prefix_any(here, run, store, op, out)
}

// The same of any value.
#[inline(never)]
fn prefix_any(
    here: &Here,
    run: &mut Run,
    store: &mut Store,
    op: UnOp,
    out: &mut Value,
) -> Result<Ended, Memory>
    requires ready { IsReady (trees_of here.now.site.now.codes.now.items) here.now.site.now.widget store.old run.old }
    requires held { IsPlace (trees_of here.now.site.now.codes.now.items) here.now.site.now.widget store.old.cells
        here.now.at
        × IsFine here.now.site.now.widget store.old.cells out.old }
    ensures comes { let F = trees_of here.now.site.now.codes.now.items in let w = here.now.site.now.widget in
        IfOk result (λ how. Comes F w store.old store.new 4
        (taken F w store.old.cells (Frame.Form (FormFrame.Prefix op here.now.at))
        (meaning.Is (seen w store.old.cells out.old)))
        run.old run.new how out.new) }
    ensures kept { Kept (trees_of here.now.site.now.codes.now.items) here.now.site.now.widget store.old store.new }
{
    if is_prefix_ready(op, out) {
        let found = unary(op, out)?;
        return result_on(here.site, run, store, found, out);
    }
    taken_by_frames(here.site, run, store, &FormFrame::Prefix(op, here.at), out)
}

// Whether `!`, `+` or `-` is on an operand that is not converted.
fn is_prefix_ready(op: UnOp, value: &Value) -> bool
    ensures { result ≡ true → (is_plain_prefix op ≡ true) × IsPrefixed op value.now }
{
    match op {
        UnOp::Not => true,
        UnOp::Plus => !is_object(value),
        UnOp::Minus => !is_object(value),
        _ => false,
    }
}
