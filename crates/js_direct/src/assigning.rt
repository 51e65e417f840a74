//! Assignments, carried out in place.
ghost use Rattle.std.specs.Prelude.{◌≡◌, ℕ, ◌<◌, ◌++◌, [], ◌∷◌, IfOk};
ghost use Rattle.std.specs.Option.{option_map_or};
ghost use Rattle.js_tree.specs.Trees.{trees};
ghost use Rattle.widget_meaning.specs.Values as meaning;
ghost use Rattle.widget_meaning.specs.OwnState.{State};
ghost use Rattle.widget_meaning.specs.Costs as costs;
ghost use Rattle.widget_meaning.specs.Expressions as expressions;
ghost use Rattle.widget_meaning.specs.Plan.{Do, and_then};
ghost use Rattle.js_image.specs.Image.{seen};
ghost use Rattle.js_image.specs.Held.{IsFine, Kept};
ghost use Rattle.js_names.specs.Code.{trees_of};
ghost use Rattle.js_flow.specs.Parts.{forest_at};
ghost use Rattle.js_flow.specs.Fine.{FineReference, IsExprAt, IsPlace};
ghost use Rattle.js_flow.specs.Forms.{form_taken};
ghost use Rattle.js_flow.specs.Frames.{taken};
ghost use Rattle.js_flow.specs.Views.{job_of, place_of, reference_of};
ghost use Rattle.js_direct.specs.Hands.{HandsOn};
ghost use Rattle.js_direct.specs.Comes.{Comes, IsReady};

use crate::forms::operand_on;
use crate::operators::operate_on;
use crate::run::{Ended, Here, Run, set_value, share_to, take_value, wait};
use crate::summing::added;
use crate::targets::{referred, take_reference, target_on};
use crate::writing::{wait_written, write_value};
use code_units::{Memory, Text};
use js_flow::{Assigning, FormFrame, Frame, Job, Place, Reference};
use js_image::{assign, variable_at};
use js_tree::{AssignOp, BinOp, Expr, ExprId};
use object_store::{Number, Store, Value};

/// An assignment, after its unit.
#[inline(never)]
#[cycle(direct)]
pub(crate) fn assign_on(
    here: &Here,
    run: &mut Run,
    store: &mut Store,
    op: AssignOp,
    parts: (ExprId, ExprId),
    deep: u32,
    out: &mut Value,
) -> Result<Ended, Memory>
    requires ready { IsReady (trees_of here.now.site.now.codes.now.items) here.now.site.now.widget store.old run.old }
    requires held { IsExprAt (trees_of here.now.site.now.codes.now.items) here.now.site.now.widget store.old.cells
        parts.0 here.now.at
        × IsExprAt (trees_of here.now.site.now.codes.now.items) here.now.site.now.widget store.old.cells parts.1
        here.now.at }
    requires tree { trees here.now.tree.now ≡ forest_at (trees_of here.now.site.now.codes.now.items) here.now.at.code }
    ensures comes { let F = trees_of here.now.site.now.codes.now.items in let w = here.now.site.now.widget in
        IfOk result (λ how. Comes F w store.old store.new 30
        (λ s. Do (job_of F w store.old.cells (Job.Target parts.0 here.now.at)) s
        (taken F w store.old.cells (Frame.Form (FormFrame.AssignTarget op parts.1 here.now.at))))
        run.old run.new how out.new) }
    ensures kept { Kept (trees_of here.now.site.now.codes.now.items) here.now.site.now.widget store.old store.new }
{
    match op {
        AssignOp::Assign => assign_plain(here, run, store, parts, deep, out),
        _ => assign_by(here, run, store, op, parts, deep, out),
    }
}

// An assignment that computes.
#[inline(always)]
#[cycle(direct)]
fn assign_by(
    here: &Here,
    run: &mut Run,
    store: &mut Store,
    op: AssignOp,
    parts: (ExprId, ExprId),
    deep: u32,
    out: &mut Value,
) -> Result<Ended, Memory>
    requires ready { IsReady (trees_of here.now.site.now.codes.now.items) here.now.site.now.widget store.old run.old }
    requires held { IsExprAt (trees_of here.now.site.now.codes.now.items) here.now.site.now.widget store.old.cells
        parts.0 here.now.at
        × IsExprAt (trees_of here.now.site.now.codes.now.items) here.now.site.now.widget store.old.cells parts.1
        here.now.at }
    requires tree { trees here.now.tree.now ≡ forest_at (trees_of here.now.site.now.codes.now.items) here.now.at.code }
    ensures comes { let F = trees_of here.now.site.now.codes.now.items in let w = here.now.site.now.widget in
        IfOk result (λ how. Comes F w store.old store.new 30
        (λ s. Do (job_of F w store.old.cells (Job.Target parts.0 here.now.at)) s
        (form_taken F w store.old.cells (FormFrame.AssignTarget op parts.1 here.now.at)))
        run.old run.new how out.new) }
    ensures kept { Kept (trees_of here.now.site.now.codes.now.items) here.now.site.now.widget store.old store.new }
{
    if run.units == 0 {
        return assign_any(here, run, store, op, parts, deep, out);
    }
    match here.tree.expr(parts.0) {
        Expr::Name(name) => {
            run.units -= 1;
            compute_name(here, run, store, name, (op, parts.1), deep, out)
        }
        _ => assign_any(here, run, store, op, parts, deep, out),
    }
}

// An assignment to a variable that computes; its target has its unit.
#[inline(always)]
#[cycle(direct)]
fn compute_name(
    here: &Here,
    run: &mut Run,
    store: &mut Store,
    name: &Text,
    by: (AssignOp, ExprId),
    deep: u32,
    out: &mut Value,
) -> Result<Ended, Memory>
    requires ready { IsReady (trees_of here.now.site.now.codes.now.items) here.now.site.now.widget store.old run.old }
    requires held { IsExprAt (trees_of here.now.site.now.codes.now.items) here.now.site.now.widget store.old.cells
        by.1 here.now.at }
    requires tree { trees here.now.tree.now ≡ forest_at (trees_of here.now.site.now.codes.now.items) here.now.at.code }
    ensures comes { let F = trees_of here.now.site.now.codes.now.items in let w = here.now.site.now.widget in
        IfOk result (λ how. Comes F w store.old store.new 12
        (form_taken F w store.old.cells (FormFrame.AssignTarget by.0 by.1 here.now.at)
        (meaning.Refers (reference_of w store.old.cells (Reference.Variable name.now))))
        run.old run.new how out.new) }
    ensures kept { Kept (trees_of here.now.site.now.codes.now.items) here.now.site.now.widget store.old store.new }
{
    if run.units == 0 {
        return compute_any(here, run, store, name, by, deep, out);
    }
    match added(here, store, name, by) {
        Some(z) => {
            run.units -= 1;
            set_value(out, Value::Num(Number::Whole(z)));
            Ok(Ended::Is)
        }
        None => compute_any(here, run, store, name, by, deep, out),
    }
}

// The same of any right side. What the variable has is read first.
#[inline(always)]
#[cycle(direct)]
fn compute_any(
    here: &Here,
    run: &mut Run,
    store: &mut Store,
    name: &Text,
    by: (AssignOp, ExprId),
    deep: u32,
    out: &mut Value,
) -> Result<Ended, Memory>
    requires ready { IsReady (trees_of here.now.site.now.codes.now.items) here.now.site.now.widget store.old run.old }
    requires held { IsExprAt (trees_of here.now.site.now.codes.now.items) here.now.site.now.widget store.old.cells
        by.1 here.now.at }
    requires tree { trees here.now.tree.now ≡ forest_at (trees_of here.now.site.now.codes.now.items) here.now.at.code }
    ensures comes { let F = trees_of here.now.site.now.codes.now.items in let w = here.now.site.now.widget in
        IfOk result (λ how. Comes F w store.old store.new 12
        (form_taken F w store.old.cells (FormFrame.AssignTarget by.0 by.1 here.now.at)
        (meaning.Refers (reference_of w store.old.cells (Reference.Variable name.now))))
        run.old run.new how out.new) }
    ensures kept { Kept (trees_of here.now.site.now.codes.now.items) here.now.site.now.widget store.old store.new }
{
    let mut has = Value::Undefined;
    share_to(variable_at(store, here.at.scope, name), &mut has)?;
    compute_with(here, run, store, name, by, deep, &mut has, out)
}

// The right side, with what the variable has.
#[inline(always)]
#[cycle(direct)]
fn compute_with(
    here: &Here,
    run: &mut Run,
    store: &mut Store,
    name: &Text,
    by: (AssignOp, ExprId),
    deep: u32,
    has: &mut Value,
    out: &mut Value,
) -> Result<Ended, Memory>
    requires ready { IsReady (trees_of here.now.site.now.codes.now.items) here.now.site.now.widget store.old run.old }
    requires held { IsExprAt (trees_of here.now.site.now.codes.now.items) here.now.site.now.widget store.old.cells
        by.1 here.now.at
        × IsFine here.now.site.now.widget store.old.cells has.old }
    requires tree { trees here.now.tree.now ≡ forest_at (trees_of here.now.site.now.codes.now.items) here.now.at.code }
    ensures comes { let F = trees_of here.now.site.now.codes.now.items in let w = here.now.site.now.widget in
        IfOk result (λ how. Comes F w store.old store.new 12
        (λ s. Do (job_of F w store.old.cells (Job.Eval by.1 here.now.at)) s
        (expressions.assign_with by.0 (reference_of w store.old.cells (Reference.Variable name.now))
        (seen w store.old.cells has.old) (place_of w store.old.cells here.now.at)))
        run.old run.new how out.new) }
    ensures kept { Kept (trees_of here.now.site.now.codes.now.items) here.now.site.now.widget store.old store.new }
{
    match operand_on(here, run, store, by.1, deep, out)? {
        Ended::Is => computed_name(here, run, store, by.0, name, has, out),
        Ended::Left => {
            let boxed = pending_name(here, by.0, name, has)?;
            wait(run, Frame::Form(FormFrame::AssignWith(boxed)))
        }
        other => Ok(other),
    }
}

// The assignment to a variable, as it waits for its right side.
#[cold]
#[inline(never)]
fn pending_name(
    here: &Here,
    op: AssignOp,
    name: &Text,
    has: &mut Value,
) -> Result<Box<Assigning>, Memory>
    ensures { IfOk result (λ a. a.value
        ≡ record { op = op; of = Reference.Variable name.now; has = has.old; place = here.now.at }) }
{
    let a = Assigning {
        op,
        of: Reference::Variable(name.share()?),
        has: take_value(has),
        place: here.at,
    };
    Ok(Box::new(here.site.alloc, a)?)
}

// What the assignment computes of what the variable had and the value at the place, and the write of it.
#[inline(always)]
fn computed_name(
    here: &Here,
    run: &mut Run,
    store: &mut Store,
    op: AssignOp,
    name: &Text,
    has: &Value,
    out: &mut Value,
) -> Result<Ended, Memory>
    requires ready { IsReady (trees_of here.now.site.now.codes.now.items) here.now.site.now.widget store.old run.old }
    requires place { IsPlace (trees_of here.now.site.now.codes.now.items) here.now.site.now.widget store.old.cells
        here.now.at }
    requires held { IsFine here.now.site.now.widget store.old.cells has.now
        × IsFine here.now.site.now.widget store.old.cells out.old }
    ensures comes { let F = trees_of here.now.site.now.codes.now.items in let w = here.now.site.now.widget in
        IfOk result (λ how. Comes F w store.old store.new 12
        (expressions.assign_with op (reference_of w store.old.cells (Reference.Variable name.now))
        (seen w store.old.cells has.now) (place_of w store.old.cells here.now.at)
        (meaning.Is (seen w store.old.cells out.old)))
        run.old run.new how out.new) }
    ensures kept { Kept (trees_of here.now.site.now.codes.now.items) here.now.site.now.widget store.old store.new }
{
    match operator(op) {
        Some(by) => computed_by(here, run, store, by, name, has, out),
        None => write_name(here, run, store, name, out),
    }
}

// The same by its operator.
#[inline(always)]
fn computed_by(
    here: &Here,
    run: &mut Run,
    store: &mut Store,
    op: BinOp,
    name: &Text,
    has: &Value,
    out: &mut Value,
) -> Result<Ended, Memory>
    requires ready { IsReady (trees_of here.now.site.now.codes.now.items) here.now.site.now.widget store.old run.old }
    requires place { IsPlace (trees_of here.now.site.now.codes.now.items) here.now.site.now.widget store.old.cells
        here.now.at }
    requires held { IsFine here.now.site.now.widget store.old.cells has.now
        × IsFine here.now.site.now.widget store.old.cells out.old }
    ensures comes { let F = trees_of here.now.site.now.codes.now.items in let w = here.now.site.now.widget in
        IfOk result (λ how. Comes F w store.old store.new 12
        (λ s. and_then (expressions.operate op (seen w store.old.cells has.now) (seen w store.old.cells out.old)
        here.now.at.depth s) (form_taken F w store.old.cells
        (FormFrame.Write (Reference.Variable name.now) here.now.at)))
        run.old run.new how out.new) }
    ensures kept { Kept (trees_of here.now.site.now.codes.now.items) here.now.site.now.widget store.old store.new }
{
    match operate_on(here.site, run, store, op, has, here.at.depth, out)? {
        Ended::Is => write_name(here, run, store, name, out),
        other => hand_write(run, other, name, &here.at),
    }
}

// An assignment that computes nothing.
#[inline(always)]
#[cycle(direct)]
fn assign_plain(
    here: &Here,
    run: &mut Run,
    store: &mut Store,
    parts: (ExprId, ExprId),
    deep: u32,
    out: &mut Value,
) -> Result<Ended, Memory>
    requires ready { IsReady (trees_of here.now.site.now.codes.now.items) here.now.site.now.widget store.old run.old }
    requires held { IsExprAt (trees_of here.now.site.now.codes.now.items) here.now.site.now.widget store.old.cells
        parts.0 here.now.at
        × IsExprAt (trees_of here.now.site.now.codes.now.items) here.now.site.now.widget store.old.cells parts.1
        here.now.at }
    requires tree { trees here.now.tree.now ≡ forest_at (trees_of here.now.site.now.codes.now.items) here.now.at.code }
    ensures comes { let F = trees_of here.now.site.now.codes.now.items in let w = here.now.site.now.widget in
        IfOk result (λ how. Comes F w store.old store.new 30
        (λ s. Do (job_of F w store.old.cells (Job.Target parts.0 here.now.at)) s
        (form_taken F w store.old.cells (FormFrame.AssignTarget AssignOp.Assign parts.1 here.now.at)))
        run.old run.new how out.new) }
    ensures kept { Kept (trees_of here.now.site.now.codes.now.items) here.now.site.now.widget store.old store.new }
{
    if run.units == 0 {
        return assign_any(here, run, store, AssignOp::Assign, parts, deep, out);
    }
    match here.tree.expr(parts.0) {
        Expr::Name(name) => {
            run.units -= 1;
            assign_name(here, run, store, name, parts.1, deep, out)
        }
        _ => assign_any(here, run, store, AssignOp::Assign, parts, deep, out),
    }
}

// An assignment to a variable, whose target has its unit.
#[inline(always)]
#[cycle(direct)]
fn assign_name(
    here: &Here,
    run: &mut Run,
    store: &mut Store,
    name: &Text,
    e: ExprId,
    deep: u32,
    out: &mut Value,
) -> Result<Ended, Memory>
    requires ready { IsReady (trees_of here.now.site.now.codes.now.items) here.now.site.now.widget store.old run.old }
    requires held { IsExprAt (trees_of here.now.site.now.codes.now.items) here.now.site.now.widget store.old.cells e
        here.now.at }
    requires tree { trees here.now.tree.now ≡ forest_at (trees_of here.now.site.now.codes.now.items) here.now.at.code }
    ensures comes { let F = trees_of here.now.site.now.codes.now.items in let w = here.now.site.now.widget in
        IfOk result (λ how. Comes F w store.old store.new 1
        (λ s. Do (job_of F w store.old.cells (Job.Eval e here.now.at)) s
        (form_taken F w store.old.cells (FormFrame.Write (Reference.Variable name.now) here.now.at)))
        run.old run.new how out.new) }
    ensures kept { Kept (trees_of here.now.site.now.codes.now.items) here.now.site.now.widget store.old store.new }
{
    match operand_on(here, run, store, e, deep, out)? {
        Ended::Is => write_name(here, run, store, name, out),
        other => hand_write(run, other, name, &here.at),
    }
}

// The end of the value of a variable that is no value.
#[cold]
#[inline(never)]
fn hand_write(run: &mut Run, how: Ended, name: &Text, place: &Place) -> Result<Ended, Memory>
    ensures { IfOk result (λ h. HandsOn run.old run.new how h
        (Frame.Form (FormFrame.Write (Reference.Variable name.now) place.now))) }
{
    match how {
        Ended::Left => wait_write(run, name, place),
        how => Ok(how),
    }
}

// A write to a variable waits.
#[cold]
#[inline(never)]
fn wait_write(run: &mut Run, name: &Text, place: &Place) -> Result<Ended, Memory>
    ensures left { IfOk result (λ how. how ≡ Ended.Left) }
    ensures waits { IfOk result (λ how. run.new.waits.items
        ≡ run.old.waits.items ++ Frame.Form (FormFrame.Write (Reference.Variable name.now) place.now) ∷ []) }
    ensures next { IfOk result (λ how. run.new.next ≡ run.old.next) }
    ensures units { IfOk result (λ how. run.new.units ≡ run.old.units) }
{
    let of = Reference::Variable(name.share()?);
    wait(run, Frame::Form(FormFrame::Write(of, *place)))
}

// The value at the place is written to a variable.
#[inline(always)]
fn write_name(
    here: &Here,
    run: &Run,
    store: &mut Store,
    name: &Text,
    out: &Value,
) -> Result<Ended, Memory>
    requires ready { IsReady (trees_of here.now.site.now.codes.now.items) here.now.site.now.widget store.old run.now }
    requires to { IsPlace (trees_of here.now.site.now.codes.now.items) here.now.site.now.widget store.old.cells
        here.now.at }
    requires value { IsFine here.now.site.now.widget store.old.cells out.now }
    ensures comes { let F = trees_of here.now.site.now.codes.now.items in let w = here.now.site.now.widget in
        IfOk result (λ how. Comes F w store.old store.new 1
        (form_taken F w store.old.cells (FormFrame.Write (Reference.Variable name.now) here.now.at)
        (meaning.Is (seen w store.old.cells out.now)))
        run.now run.now how out.now) }
    ensures kept { Kept (trees_of here.now.site.now.codes.now.items) here.now.site.now.widget store.old store.new }
{
    let mut value = Value::Undefined;
    share_to(Some(out), &mut value)?;
    assign(store, here.site.widget, here.at.scope, name, value);
    Ok(Ended::Is)
}

// An assignment to any target.
#[inline(never)]
#[cycle(direct)]
fn assign_any(
    here: &Here,
    run: &mut Run,
    store: &mut Store,
    op: AssignOp,
    parts: (ExprId, ExprId),
    deep: u32,
    out: &mut Value,
) -> Result<Ended, Memory>
    requires ready { IsReady (trees_of here.now.site.now.codes.now.items) here.now.site.now.widget store.old run.old }
    requires held { IsExprAt (trees_of here.now.site.now.codes.now.items) here.now.site.now.widget store.old.cells
        parts.0 here.now.at
        × IsExprAt (trees_of here.now.site.now.codes.now.items) here.now.site.now.widget store.old.cells parts.1
        here.now.at }
    requires tree { trees here.now.tree.now ≡ forest_at (trees_of here.now.site.now.codes.now.items) here.now.at.code }
    ensures comes { let F = trees_of here.now.site.now.codes.now.items in let w = here.now.site.now.widget in
        IfOk result (λ how. Comes F w store.old store.new 30
        (λ s. Do (job_of F w store.old.cells (Job.Target parts.0 here.now.at)) s
        (form_taken F w store.old.cells (FormFrame.AssignTarget op parts.1 here.now.at)))
        run.old run.new how out.new) }
    ensures kept { Kept (trees_of here.now.site.now.codes.now.items) here.now.site.now.widget store.old store.new }
{
    let mut of = Reference::Found(Value::Undefined);
    assign_reached(here, run, store, op, parts, deep, &mut of, out)
}

// The same with a place for the reference of the target.
#[cycle(direct)]
fn assign_reached(
    here: &Here,
    run: &mut Run,
    store: &mut Store,
    op: AssignOp,
    parts: (ExprId, ExprId),
    deep: u32,
    of: &mut Reference,
    out: &mut Value,
) -> Result<Ended, Memory>
    requires ready { IsReady (trees_of here.now.site.now.codes.now.items) here.now.site.now.widget store.old run.old }
    requires held { IsExprAt (trees_of here.now.site.now.codes.now.items) here.now.site.now.widget store.old.cells
        parts.0 here.now.at
        × IsExprAt (trees_of here.now.site.now.codes.now.items) here.now.site.now.widget store.old.cells parts.1
        here.now.at }
    requires tree { trees here.now.tree.now ≡ forest_at (trees_of here.now.site.now.codes.now.items) here.now.at.code }
    ensures comes { let F = trees_of here.now.site.now.codes.now.items in let w = here.now.site.now.widget in
        IfOk result (λ how. Comes F w store.old store.new 30
        (λ s. Do (job_of F w store.old.cells (Job.Target parts.0 here.now.at)) s
        (form_taken F w store.old.cells (FormFrame.AssignTarget op parts.1 here.now.at)))
        run.old run.new how out.new) }
    ensures kept { Kept (trees_of here.now.site.now.codes.now.items) here.now.site.now.widget store.old store.new }
{
    match target_on(here, run, store, parts.0, deep, of, out)? {
        Ended::Is => assign_value(here, run, store, op, parts.1, deep, of, out),
        Ended::Left => wait_target(run, op, parts.1, &here.at),
        other => Ok(other),
    }
}

// The right side waits for the target.
#[cold]
#[inline(never)]
fn wait_target(run: &mut Run, op: AssignOp, e: ExprId, place: &Place) -> Result<Ended, Memory>
    ensures left { IfOk result (λ how. how ≡ Ended.Left) }
    ensures waits { IfOk result (λ how. run.new.waits.items
        ≡ run.old.waits.items ++ Frame.Form (FormFrame.AssignTarget op e place.now) ∷ []) }
    ensures next { IfOk result (λ how. run.new.next ≡ run.old.next) }
    ensures units { IfOk result (λ how. run.new.units ≡ run.old.units) }
{
    wait(run, Frame::Form(FormFrame::AssignTarget(op, e, *place)))
}

// The right side of an assignment to a reference.
#[cycle(direct)]
fn assign_value(
    here: &Here,
    run: &mut Run,
    store: &mut Store,
    op: AssignOp,
    e: ExprId,
    deep: u32,
    of: &mut Reference,
    out: &mut Value,
) -> Result<Ended, Memory>
    requires ready { IsReady (trees_of here.now.site.now.codes.now.items) here.now.site.now.widget store.old run.old }
    requires held { IsExprAt (trees_of here.now.site.now.codes.now.items) here.now.site.now.widget store.old.cells e
        here.now.at
        × FineReference here.now.site.now.widget store.old.cells of.old }
    requires tree { trees here.now.tree.now ≡ forest_at (trees_of here.now.site.now.codes.now.items) here.now.at.code }
    ensures comes { let F = trees_of here.now.site.now.codes.now.items in let w = here.now.site.now.widget in
        IfOk result (λ how. Comes F w store.old store.new 12
        (form_taken F w store.old.cells (FormFrame.AssignTarget op e here.now.at)
        (meaning.Refers (reference_of w store.old.cells of.old)))
        run.old run.new how out.new) }
    ensures kept { Kept (trees_of here.now.site.now.codes.now.items) here.now.site.now.widget store.old store.new }
{
    match op {
        AssignOp::Assign => assign_written(here, run, store, e, deep, of, out),
        _ => assign_computed(here, run, store, op, e, deep, of, out),
    }
}

// The right side, which is written as it is.
#[cycle(direct)]
fn assign_written(
    here: &Here,
    run: &mut Run,
    store: &mut Store,
    e: ExprId,
    deep: u32,
    of: &mut Reference,
    out: &mut Value,
) -> Result<Ended, Memory>
    requires ready { IsReady (trees_of here.now.site.now.codes.now.items) here.now.site.now.widget store.old run.old }
    requires held { IsExprAt (trees_of here.now.site.now.codes.now.items) here.now.site.now.widget store.old.cells e
        here.now.at
        × FineReference here.now.site.now.widget store.old.cells of.old }
    requires tree { trees here.now.tree.now ≡ forest_at (trees_of here.now.site.now.codes.now.items) here.now.at.code }
    ensures comes { let F = trees_of here.now.site.now.codes.now.items in let w = here.now.site.now.widget in
        IfOk result (λ how. Comes F w store.old store.new 1
        (λ s. Do (job_of F w store.old.cells (Job.Eval e here.now.at)) s
        (form_taken F w store.old.cells (FormFrame.Write of.old here.now.at)))
        run.old run.new how out.new) }
    ensures kept { Kept (trees_of here.now.site.now.codes.now.items) here.now.site.now.widget store.old store.new }
{
    match operand_on(here, run, store, e, deep, out)? {
        Ended::Is => write_value(here, run, store, of, out),
        Ended::Left => wait_written(run, of, &here.at),
        other => Ok(other),
    }
}

// The right side of an assignment that computes: what the target has is read first.
#[inline(never)]
#[cycle(direct)]
fn assign_computed(
    here: &Here,
    run: &mut Run,
    store: &mut Store,
    op: AssignOp,
    e: ExprId,
    deep: u32,
    of: &mut Reference,
    out: &mut Value,
) -> Result<Ended, Memory>
    requires ready { IsReady (trees_of here.now.site.now.codes.now.items) here.now.site.now.widget store.old run.old }
    requires held { IsExprAt (trees_of here.now.site.now.codes.now.items) here.now.site.now.widget store.old.cells e
        here.now.at
        × FineReference here.now.site.now.widget store.old.cells of.old }
    requires tree { trees here.now.tree.now ≡ forest_at (trees_of here.now.site.now.codes.now.items) here.now.at.code }
    ensures comes { let F = trees_of here.now.site.now.codes.now.items in let w = here.now.site.now.widget in
        IfOk result (λ how. Comes F w store.old store.new 12
        (form_taken F w store.old.cells (FormFrame.AssignTarget op e here.now.at)
        (meaning.Refers (reference_of w store.old.cells of.old)))
        run.old run.new how out.new) }
    ensures kept { Kept (trees_of here.now.site.now.codes.now.items) here.now.site.now.widget store.old store.new }
{
    let mut has = referred(here, store, of)?;
    assign_with(here, run, store, (op, e), deep, of, &mut has, out)
}

// The right side, with what the target has.
#[cycle(direct)]
fn assign_with(
    here: &Here,
    run: &mut Run,
    store: &mut Store,
    by: (AssignOp, ExprId),
    deep: u32,
    of: &mut Reference,
    has: &mut Value,
    out: &mut Value,
) -> Result<Ended, Memory>
    requires ready { IsReady (trees_of here.now.site.now.codes.now.items) here.now.site.now.widget store.old run.old }
    requires held { IsExprAt (trees_of here.now.site.now.codes.now.items) here.now.site.now.widget store.old.cells
        by.1 here.now.at
        × FineReference here.now.site.now.widget store.old.cells of.old
        × IsFine here.now.site.now.widget store.old.cells has.old }
    requires tree { trees here.now.tree.now ≡ forest_at (trees_of here.now.site.now.codes.now.items) here.now.at.code }
    ensures comes { let F = trees_of here.now.site.now.codes.now.items in let w = here.now.site.now.widget in
        IfOk result (λ how. Comes F w store.old store.new 12
        (λ s. Do (job_of F w store.old.cells (Job.Eval by.1 here.now.at)) s
        (expressions.assign_with by.0 (reference_of w store.old.cells of.old)
        (seen w store.old.cells has.old) (place_of w store.old.cells here.now.at)))
        run.old run.new how out.new) }
    ensures kept { Kept (trees_of here.now.site.now.codes.now.items) here.now.site.now.widget store.old store.new }
{
    match operand_on(here, run, store, by.1, deep, out)? {
        Ended::Is => compute_on(here, run, store, by.0, of, has, out),
        Ended::Left => {
            let boxed = pending(here, by.0, of, has)?;
            wait(run, Frame::Form(FormFrame::AssignWith(boxed)))
        }
        other => Ok(other),
    }
}

// The assignment, as it waits for its right side.
#[cold]
#[inline(never)]
fn pending(
    here: &Here,
    op: AssignOp,
    of: &mut Reference,
    has: &mut Value,
) -> Result<Box<Assigning>, Memory>
    ensures { IfOk result (λ a. a.value ≡ record { op = op; of = of.old; has = has.old; place = here.now.at }) }
{
    let a = Assigning {
        op,
        of: take_reference(of),
        has: take_value(has),
        place: here.at,
    };
    Ok(Box::new(here.site.alloc, a)?)
}

// What the assignment computes of what its target had and the value at the place, and the write of it.
fn compute_on(
    here: &Here,
    run: &mut Run,
    store: &mut Store,
    op: AssignOp,
    of: &mut Reference,
    has: &Value,
    out: &mut Value,
) -> Result<Ended, Memory>
    requires ready { IsReady (trees_of here.now.site.now.codes.now.items) here.now.site.now.widget store.old run.old }
    requires place { IsPlace (trees_of here.now.site.now.codes.now.items) here.now.site.now.widget store.old.cells
        here.now.at }
    requires held { FineReference here.now.site.now.widget store.old.cells of.old
        × IsFine here.now.site.now.widget store.old.cells has.now
        × IsFine here.now.site.now.widget store.old.cells out.old }
    ensures comes { let F = trees_of here.now.site.now.codes.now.items in let w = here.now.site.now.widget in
        IfOk result (λ how. Comes F w store.old store.new 12
        (expressions.assign_with op (reference_of w store.old.cells of.old)
        (seen w store.old.cells has.now) (place_of w store.old.cells here.now.at)
        (meaning.Is (seen w store.old.cells out.old)))
        run.old run.new how out.new) }
    ensures kept { Kept (trees_of here.now.site.now.codes.now.items) here.now.site.now.widget store.old store.new }
{
    match operator(op) {
        Some(op) => compute_by(here, run, store, op, of, has, out),
        None => write_value(here, run, store, of, out),
    }
}

// The operator of an assignment that computes.
#[inline(always)]
fn operator(op: AssignOp) -> Option<BinOp>
    ensures { (v w : meaning.Value) (d : ℕ) (s : State) → expressions.compound op v w d s
        ≡ option_map_or (λ b. expressions.operate b v w d s) result (costs.give w s) }
{
    match op {
        AssignOp::Add => Some(BinOp::Add),
        AssignOp::Sub => Some(BinOp::Sub),
        AssignOp::Mul => Some(BinOp::Mul),
        AssignOp::Div => Some(BinOp::Div),
        AssignOp::Rem => Some(BinOp::Rem),
        _ => None,
    }
}

// The same by its operator.
fn compute_by(
    here: &Here,
    run: &mut Run,
    store: &mut Store,
    op: BinOp,
    of: &mut Reference,
    has: &Value,
    out: &mut Value,
) -> Result<Ended, Memory>
    requires ready { IsReady (trees_of here.now.site.now.codes.now.items) here.now.site.now.widget store.old run.old }
    requires place { IsPlace (trees_of here.now.site.now.codes.now.items) here.now.site.now.widget store.old.cells
        here.now.at }
    requires held { FineReference here.now.site.now.widget store.old.cells of.old
        × IsFine here.now.site.now.widget store.old.cells has.now
        × IsFine here.now.site.now.widget store.old.cells out.old }
    ensures comes { let F = trees_of here.now.site.now.codes.now.items in let w = here.now.site.now.widget in
        IfOk result (λ how. Comes F w store.old store.new 12
        (λ s. and_then (expressions.operate op (seen w store.old.cells has.now) (seen w store.old.cells out.old)
        here.now.at.depth s) (form_taken F w store.old.cells (FormFrame.Write of.old here.now.at)))
        run.old run.new how out.new) }
    ensures kept { Kept (trees_of here.now.site.now.codes.now.items) here.now.site.now.widget store.old store.new }
{
    match operate_on(here.site, run, store, op, has, here.at.depth, out)? {
        Ended::Is => write_value(here, run, store, of, out),
        Ended::Left => wait_written(run, of, &here.at),
        other => Ok(other),
    }
}
