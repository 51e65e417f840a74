//! Expressions, carried out in place.
ghost use Rattle.std.specs.Prelude.{◌≡◌, ◌<◌, IfOk, false, true};
ghost use Rattle.js_tree.specs.Trees.{trees};
ghost use Rattle.js_tree.specs.Forest.{expr_at};
ghost use Rattle.js_tree.specs.Plain.{Expr as Tree};
ghost use Rattle.widget_meaning.specs.OwnState.{State};
ghost use Rattle.widget_meaning.specs.Plan as plan;
ghost use Rattle.widget_meaning.specs.Expressions as expressions;
ghost use Rattle.widget_meaning.specs.Plan.{Do, Ret};
ghost use Rattle.widget_meaning.specs.Meaning.{body};
ghost use Rattle.js_image.specs.Held.{Kept};
ghost use Rattle.js_names.specs.Code.{trees_of};
ghost use Rattle.js_flow.specs.Fine.{IsExprAt};
ghost use Rattle.js_flow.specs.Parts.{forest_at};
ghost use Rattle.js_flow.specs.Views.{job_of, place_of};
ghost use Rattle.js_direct.specs.Comes.{Comes, IsReady};

use crate::arrays::array_on;
use crate::assigning::assign_on;
use crate::calls::call_on;
use crate::leaves::{name_on, number_on, text_on, word_on};
use crate::literals::function_on;
use crate::objects::object_on;
use crate::operators::{and_on, binary_on, choose_on, or_on, unary_on};
use crate::properties::{dot_on, sub_on};
use crate::run::{Ended, Here, Run, clear, leave_job, set_value};
use crate::stepping::step_on;
use crate::summing::{compared, counted};
use crate::targets::delete_on;
use code_units::Memory;
use js_flow::{Job, Place};
use js_tree::{Expr, ExprId, UnOp};
use object_store::{Number, Store, Value};

/// An expression, before its unit.
#[cycle(direct)]
pub(crate) fn eval_on(
    here: &Here,
    run: &mut Run,
    store: &mut Store,
    id: ExprId,
    deep: u32,
    out: &mut Value,
) -> Result<Ended, Memory>
    requires ready { IsReady (trees_of here.now.site.now.codes.now.items) here.now.site.now.widget store.old run.old }
    requires held { IsExprAt (trees_of here.now.site.now.codes.now.items) here.now.site.now.widget store.old.cells id
        here.now.at }
    requires tree { trees here.now.tree.now ≡ forest_at (trees_of here.now.site.now.codes.now.items) here.now.at.code }
    ensures comes { let F = trees_of here.now.site.now.codes.now.items in let w = here.now.site.now.widget in
        IfOk result (λ how. Comes F w store.old store.new 0
        (λ s. Do (job_of F w store.old.cells (Job.Eval id here.now.at)) s Ret)
        run.old run.new how out.new) }
    ensures paid { IfOk result (λ how. 0 < run.old.units → 0 < deep → run.new.units < run.old.units) }
    ensures kept { Kept (trees_of here.now.site.now.codes.now.items) here.now.site.now.widget store.old store.new }
{
    if run.units == 0 || deep == 0 {
        return leave_job(run, Job::Eval(id, here.at));
    }
    run.units -= 1;
    form_on(here, run, store, id, deep - 1, out)
}

/// The same, where most are names and numbers: these are read in place, `+` of one too, and operators, properties,
/// calls and assignments begun here.
#[inline(always)]
#[cycle(direct)]
pub(crate) fn operand_on(
    here: &Here,
    run: &mut Run,
    store: &mut Store,
    id: ExprId,
    deep: u32,
    out: &mut Value,
) -> Result<Ended, Memory>
    requires ready { IsReady (trees_of here.now.site.now.codes.now.items) here.now.site.now.widget store.old run.old }
    requires held { IsExprAt (trees_of here.now.site.now.codes.now.items) here.now.site.now.widget
        store.old.cells id here.now.at }
    requires tree { trees here.now.tree.now ≡ forest_at (trees_of here.now.site.now.codes.now.items) here.now.at.code }
    ensures comes { let F = trees_of here.now.site.now.codes.now.items in let w = here.now.site.now.widget in
        IfOk result (λ how. Comes F w store.old store.new 0
        (λ s. Do (job_of F w store.old.cells (Job.Eval id here.now.at)) s Ret)
        run.old run.new how out.new) }
    ensures kept { Kept (trees_of here.now.site.now.codes.now.items) here.now.site.now.widget store.old store.new }
{
    if run.units == 0 {
        return leave_job(run, Job::Eval(id, here.at));
    }
    match here.tree.expr(id) {
        Expr::Name(name) => {
            run.units -= 1;
            name_on(here, store, name, out)
        }
        Expr::Num(numeral) => {
            run.units -= 1;
            number_on(here, store, numeral, out)
        }
        Expr::Binary(op, a, b) if deep > 0 => {
            run.units -= 1;
            binary_on(here, run, store, *op, (*a, *b), deep - 1, out)
        }
        Expr::Sub(e, index) if deep > 0 => {
            run.units -= 1;
            sub_on(here, run, store, (*e, *index), deep - 1, out)
        }
        Expr::Dot(e, name) if deep > 0 => {
            run.units -= 1;
            dot_on(here, run, store, *e, name, deep - 1, out)
        }
        Expr::Call(callee, _) if deep > 0 => {
            run.units -= 1;
            call_on(here, run, store, id, *callee, deep - 1, out)
        }
        Expr::Assign(op, to, e) if deep > 0 => {
            run.units -= 1;
            assign_on(here, run, store, *op, (*to, *e), deep - 1, out)
        }
        Expr::Unary(op, e) => match counted(here, store, *op, *e, run.units) {
            Some(y) => {
                run.units -= 2;
                set_value(out, Value::Num(Number::Whole(y)));
                Ok(Ended::Is)
            }
            None => eval_on(here, run, store, id, deep, out),
        },
        _ => eval_on(here, run, store, id, deep, out),
    }
}

/// The same of a condition: most compare variables and numbers, which is told in place.
#[inline(always)]
#[cycle(direct)]
pub(crate) fn condition_on(
    here: &Here,
    run: &mut Run,
    store: &mut Store,
    id: ExprId,
    deep: u32,
    out: &mut Value,
) -> Result<Ended, Memory>
    requires ready { IsReady (trees_of here.now.site.now.codes.now.items) here.now.site.now.widget store.old run.old }
    requires held { IsExprAt (trees_of here.now.site.now.codes.now.items) here.now.site.now.widget
        store.old.cells id here.now.at }
    requires tree { trees here.now.tree.now ≡ forest_at (trees_of here.now.site.now.codes.now.items) here.now.at.code }
    ensures comes { let F = trees_of here.now.site.now.codes.now.items in let w = here.now.site.now.widget in
        IfOk result (λ how. Comes F w store.old store.new 0
        (λ s. Do (job_of F w store.old.cells (Job.Eval id here.now.at)) s Ret)
        run.old run.new how out.new) }
    ensures kept { Kept (trees_of here.now.site.now.codes.now.items) here.now.site.now.widget store.old store.new }
{
    match compared(here, store, id, run.units) {
        Some(told) => {
            run.units -= 3;
            set_value(out, Value::Bool(told));
            Ok(Ended::Is)
        }
        None => operand_on(here, run, store, id, deep, out),
    }
}

/// An expression, after its unit.
#[inline(always)]
#[cycle(direct)]
pub(crate) fn form_on(
    here: &Here,
    run: &mut Run,
    store: &mut Store,
    id: ExprId,
    deep: u32,
    out: &mut Value,
) -> Result<Ended, Memory>
    requires ready { IsReady (trees_of here.now.site.now.codes.now.items) here.now.site.now.widget store.old run.old }
    requires held { IsExprAt (trees_of here.now.site.now.codes.now.items) here.now.site.now.widget store.old.cells id
        here.now.at }
    requires tree { trees here.now.tree.now ≡ forest_at (trees_of here.now.site.now.codes.now.items) here.now.at.code }
    ensures comes { let F = trees_of here.now.site.now.codes.now.items in let w = here.now.site.now.widget in
        IfOk result (λ how. Comes F w store.old store.new 30
        (body (job_of F w store.old.cells (Job.Eval id here.now.at)))
        run.old run.new how out.new) }
    ensures kept { Kept (trees_of here.now.site.now.codes.now.items) here.now.site.now.widget store.old store.new }
{
    match here.tree.expr(id) {
        Expr::Name(name) => name_on(here, store, name, out),
        Expr::Num(numeral) => number_on(here, store, numeral, out),
        Expr::Str(text) => text_on(here, store, text, out),
        Expr::Word(word) => word_on(here, store, *word, out),
        Expr::Dot(e, name) => dot_on(here, run, store, *e, name, deep, out),
        Expr::Binary(op, a, b) => binary_on(here, run, store, *op, (*a, *b), deep, out),
        Expr::Call(callee, _) => call_on(here, run, store, id, *callee, deep, out),
        Expr::Assign(op, to, e) => assign_on(here, run, store, *op, (*to, *e), deep, out),
        Expr::Step(op, to) => step_on(here, run, store, *op, *to, deep, out),
        Expr::Sub(e, index) => sub_on(here, run, store, (*e, *index), deep, out),
        Expr::Unary(op, e) => unary_form(here, run, store, id, (*op, *e), deep, out),
        Expr::And(a, b) => and_on(here, run, store, (*a, *b), deep, out),
        Expr::Or(a, b) => or_on(here, run, store, (*a, *b), deep, out),
        Expr::Cond(a, b, c) => choose_on(here, run, store, (*a, *b, *c), deep, out),
        Expr::Function(fun) => function_on(here, run, store, *fun, out),
        Expr::Array(_) => array_on(here, run, store, id, deep, out),
        Expr::Object(_) => object_on(here, run, store, id, deep, out),
        // No accepted tree has the others.
        Expr::New(_, _) => Ok(no_form(out)),
        Expr::Comma(_, _) => Ok(no_form(out)),
    }
}

// A prefix operator: `delete` takes a target.
#[inline(never)]
#[cycle(direct)]
fn unary_form(
    here: &Here,
    run: &mut Run,
    store: &mut Store,
    id: ExprId,
    parts: (UnOp, ExprId),
    deep: u32,
    out: &mut Value,
) -> Result<Ended, Memory>
    requires ready { IsReady (trees_of here.now.site.now.codes.now.items) here.now.site.now.widget store.old run.old }
    requires held { IsExprAt (trees_of here.now.site.now.codes.now.items) here.now.site.now.widget store.old.cells id
        here.now.at
        × IsExprAt (trees_of here.now.site.now.codes.now.items) here.now.site.now.widget store.old.cells parts.1
        here.now.at }
    requires same { let F = trees_of here.now.site.now.codes.now.items in let w = here.now.site.now.widget in
        body (job_of F w store.old.cells (Job.Eval id here.now.at))
        ≡ expressions.prefix_form parts.0 (expr_at (forest_at F here.now.at.code) parts.1)
        (place_of w store.old.cells here.now.at) }
    requires tree { trees here.now.tree.now ≡ forest_at (trees_of here.now.site.now.codes.now.items) here.now.at.code }
    ensures comes { let F = trees_of here.now.site.now.codes.now.items in let w = here.now.site.now.widget in
        IfOk result (λ how. Comes F w store.old store.new 30
        (body (job_of F w store.old.cells (Job.Eval id here.now.at)))
        run.old run.new how out.new) }
    ensures kept { Kept (trees_of here.now.site.now.codes.now.items) here.now.site.now.widget store.old store.new }
{
    let (op, e) = parts;
    if takes_target(op) {
        return delete_on(here, run, store, e, deep, out);
    }
    unary_on(here, run, store, op, e, deep, out)
}

// Whether a prefix operator takes a target.
fn takes_target(op: UnOp) -> bool
    ensures yes { result ≡ true → (e : Tree) (p : plan.Place) (s : State) → expressions.prefix_form op e p s
        ≡ Do (plan.Target e p) s expressions.delete_target }
    ensures no { result ≡ false → (e : Tree) (p : plan.Place) (s : State) → expressions.prefix_form op e p s
        ≡ Do (plan.Eval e p) s (plan.after (λ v t. expressions.unary_on op v p t)) }
{
    match op {
        UnOp::Delete => true,
        UnOp::Void => false,
        UnOp::TypeOf => false,
        UnOp::Plus => false,
        UnOp::Minus => false,
        UnOp::BitNot => false,
        UnOp::Not => false,
    }
}

// What a form gives that no accepted tree has.
fn no_form(out: &mut Value) -> Ended
    ensures how { result ≡ Ended.Is }
    ensures value { out.new ≡ Value.Undefined }
{
    clear(out);
    Ended::Is
}
