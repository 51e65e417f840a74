//! Sums of variables and whole numbers, in one look-up, and other operators on variables and literals.
ghost use Rattle.std.specs.Prelude.{◌≡◌, ◌≤◌, IfNone, IfSome, Some, option_copied, unwrap_or};
ghost use Rattle.js_tree.specs.Trees.{trees};
ghost use Rattle.js_tree.specs.Forest.{expr_at};
ghost use Rattle.widget_meaning.specs.Expressions.{prefix_form};
ghost use Rattle.widget_meaning.specs.Meaning.{body};
ghost use Rattle.widget_meaning.specs.Plan.{Do, Ret};
ghost use Rattle.widget_meaning.specs.Values as meaning;
ghost use Rattle.js_image.specs.Image.{Rest, image, seen};
ghost use Rattle.js_image.specs.Held.{IsConfined, IsFine, IsPlaceScope, Kept};
ghost use Rattle.js_names.specs.Code.{trees_of};
ghost use Rattle.js_flow.specs.Fine.{IsExprAt};
ghost use Rattle.js_flow.specs.Forms.{form_taken};
ghost use Rattle.js_flow.specs.Frames.{taken};
ghost use Rattle.js_flow.specs.Parts.{forest_at};
ghost use Rattle.js_flow.specs.Views.{job_of, place_of};
ghost use Rattle.js_direct.specs.Adds.{Added, Adds};
ghost use Rattle.js_direct.specs.Reduces.{Reduces};

use crate::run::Here;
use crate::wholes::on_wholes;
use code_units::{Text, WholeRead};
use js_flow::{FormFrame, Frame, Job};
use js_image::{add_to, variable_at};
use js_tree::{AssignOp, BinOp, Expr, ExprId, UnOp};
use object_store::{Number, Store, Value};

/// Adds a right side to a variable, where the variable has a whole number and the right side is one, or a variable
/// that has one: the sum, which is written, for one unit. None where it is not so; then
/// nothing changes.
#[inline(always)]
pub(crate) fn added(
    here: &Here,
    store: &mut Store,
    name: &Text,
    by: (AssignOp, ExprId),
) -> Option<i64>
    requires confined { IsConfined (trees_of here.now.site.now.codes.now.items) here.now.site.now.widget store.old }
    requires held { IsExprAt (trees_of here.now.site.now.codes.now.items) here.now.site.now.widget store.old.cells by.1
        here.now.at }
    requires tree { trees here.now.tree.now ≡ forest_at (trees_of here.now.site.now.codes.now.items) here.now.at.code }
    ensures paid { let F = trees_of here.now.site.now.codes.now.items in let w = here.now.site.now.widget in
        IfSome result (λ z. (r : Rest) → Reduces 1
        (form_taken F w store.old.cells (FormFrame.AssignTarget by.0 by.1 here.now.at)
        (meaning.Refers (meaning.Variable name.now)) (image F r w store.old))
        (Ret (meaning.Is (meaning.Num z)) (image F r w store.new))) }
    ensures none { IfNone result (store.new ≡ store.old) }
    ensures kept { Kept (trees_of here.now.site.now.codes.now.items) here.now.site.now.widget store.old store.new }
{
    let y = right_side(here, store, by.1)?;
    let more = signed(by.0, y)?;
    sum_at(here, store, name, more)
}

/// What an operator gives whose operands are variables or number literals, where both are whole numbers and the
/// result is soon found: for the two units of the operands, where so many are there. None where it is looked for
/// otherwise.
#[inline(always)]
pub(crate) fn computed(
    here: &Here,
    store: &Store,
    op: BinOp,
    parts: (ExprId, ExprId),
    units: u32,
) -> Option<Value>
    requires confined { IsConfined (trees_of here.now.site.now.codes.now.items) here.now.site.now.widget store.now }
    requires held { IsExprAt (trees_of here.now.site.now.codes.now.items) here.now.site.now.widget store.now.cells
        parts.0 here.now.at
        × IsExprAt (trees_of here.now.site.now.codes.now.items) here.now.site.now.widget store.now.cells parts.1
        here.now.at }
    requires tree { trees here.now.tree.now ≡ forest_at (trees_of here.now.site.now.codes.now.items) here.now.at.code }
    ensures units { IfSome result (λ v. 2 ≤ units) }
    ensures paid { let F = trees_of here.now.site.now.codes.now.items in let w = here.now.site.now.widget in
        IfSome result (λ v. (r : Rest) → Reduces 2
        (Do (job_of F w store.now.cells (Job.Eval parts.0 here.now.at)) (image F r w store.now)
        (taken F w store.now.cells (Frame.Form (FormFrame.Right op parts.1 here.now.at))))
        (Ret (meaning.Is (seen w store.now.cells v)) (image F r w store.now))) }
    ensures fine { IfSome result (IsFine here.now.site.now.widget store.now.cells) }
{
    if units < 2 {
        return None;
    }
    if !is_read(here.tree.expr(parts.1)) {
        return None;
    }
    let x = right_side(here, store, parts.0)?;
    let y = right_side(here, store, parts.1)?;
    on_wholes(op, x, y)
}

/// What an operator tells whose operands are variables or number literals, where it compares whole numbers: for its
/// unit and those of its operands, where so many are there. None where it is looked for otherwise.
#[inline(never)]
pub(crate) fn compared(here: &Here, store: &Store, e: ExprId, units: u32) -> Option<bool>
    requires confined { IsConfined (trees_of here.now.site.now.codes.now.items) here.now.site.now.widget store.now }
    requires held { IsExprAt (trees_of here.now.site.now.codes.now.items) here.now.site.now.widget store.now.cells e
        here.now.at }
    requires tree { trees here.now.tree.now ≡ forest_at (trees_of here.now.site.now.codes.now.items) here.now.at.code }
    ensures units { IfSome result (λ b. 3 ≤ units) }
    ensures paid { let F = trees_of here.now.site.now.codes.now.items in let w = here.now.site.now.widget in
        IfSome result (λ b. (r : Rest) → Reduces 3
        (Do (job_of F w store.now.cells (Job.Eval e here.now.at)) (image F r w store.now) Ret)
        (Ret (meaning.Is (meaning.Truth b)) (image F r w store.now))) }
{
    if units < 3 {
        return None;
    }
    match here.tree.expr(e) {
        Expr::Binary(op, a, b) => told(&computed(here, store, *op, (*a, *b), units - 1)),
        _ => None,
    }
}

// The truth value that was found.
#[inline(always)]
fn told(found: &Option<Value>) -> Option<bool>
    ensures { IfSome result (λ b. found.now ≡ Some (Value.Bool b)) }
{
    match found {
        Some(Value::Bool(b)) => Some(*b),
        _ => None,
    }
}

// Whether an expression is a variable or a number literal.
#[inline(always)]
fn is_read(e: &Expr) -> bool {
    matches!(e, Expr::Num(_) | Expr::Name(_))
}

/// What `+` gives whose operand is a variable or a number literal that is a whole number: for the unit of the
/// operand, where that and its own are there. None where it is looked for otherwise.
#[inline(never)]
pub(crate) fn counted(here: &Here, store: &Store, op: UnOp, e: ExprId, units: u32) -> Option<i64>
    requires confined { IsConfined (trees_of here.now.site.now.codes.now.items) here.now.site.now.widget store.now }
    requires held { IsExprAt (trees_of here.now.site.now.codes.now.items) here.now.site.now.widget store.now.cells e
        here.now.at }
    requires tree { trees here.now.tree.now ≡ forest_at (trees_of here.now.site.now.codes.now.items) here.now.at.code }
    ensures units { IfSome result (λ y. 2 ≤ units) }
    ensures paid { let F = trees_of here.now.site.now.codes.now.items in let w = here.now.site.now.widget in
        IfSome result (λ y. (r : Rest) → Reduces 1
        (prefix_form op (expr_at (forest_at F here.now.at.code) e) (place_of w store.now.cells here.now.at)
        (image F r w store.now))
        (Ret (meaning.Is (meaning.Num y)) (image F r w store.now))) }
{
    if units < 2 {
        return None;
    }
    match op {
        UnOp::Plus => right_side(here, store, e),
        _ => None,
    }
}

// The sum of what a variable has and a number, which is written.
#[inline(always)]
fn sum_at(here: &Here, store: &mut Store, name: &Text, by: i64) -> Option<i64>
    requires confined { IsConfined (trees_of here.now.site.now.codes.now.items) here.now.site.now.widget store.old }
    requires place { IsPlaceScope here.now.site.now.widget store.old.cells here.now.at.scope }
    ensures sum { let F = trees_of here.now.site.now.codes.now.items in let w = here.now.site.now.widget in
        IfSome result (λ sum. (r : Rest) → Added (place_of w store.old.cells here.now.at) name.now by sum
        (image F r w store.old) (image F r w store.new)) }
    ensures none { IfNone result (store.new ≡ store.old) }
    ensures kept { Kept (trees_of here.now.site.now.codes.now.items) here.now.site.now.widget store.old store.new }
{
    let z = add_to(store, here.site.widget, here.at.scope, name, by)?;
    Some(z + by)
}

// The whole number of a right side, as far as that is a literal or a variable that has one.
#[inline(always)]
fn right_side(here: &Here, store: &Store, e: ExprId) -> Option<i64>
    requires confined { IsConfined (trees_of here.now.site.now.codes.now.items) here.now.site.now.widget store.now }
    requires held { IsExprAt (trees_of here.now.site.now.codes.now.items) here.now.site.now.widget store.now.cells e
        here.now.at }
    requires tree { trees here.now.tree.now ≡ forest_at (trees_of here.now.site.now.codes.now.items) here.now.at.code }
    ensures { let F = trees_of here.now.site.now.codes.now.items in let w = here.now.site.now.widget in
        IfSome result (λ y. (r : Rest)
        → body (job_of F w store.now.cells (Job.Eval e here.now.at)) (image F r w store.now)
        ≡ Ret (meaning.Is (meaning.Num y)) (image F r w store.now)) }
{
    match here.tree.expr(e) {
        Expr::Num(numeral) => whole_read(numeral.number()),
        Expr::Name(name) => whole_at(variable_at(store, here.at.scope, name)),
        _ => None,
    }
}

// The whole number that a literal is.
#[inline(always)]
fn whole_read(read: WholeRead) -> Option<i64>
    ensures { IfSome result (λ z. read ≡ WholeRead.Whole z) }
{
    match read {
        WholeRead::Whole(z) => Some(z),
        _ => None,
    }
}

// The whole number that a value is which was found.
#[inline(always)]
fn whole_at(found: Option<&Value>) -> Option<i64>
    ensures { IfSome result (λ y. unwrap_or (option_copied found.entry) Value.Undefined ≡ Value.Num (Number.Whole y)) }
{
    match found {
        Some(Value::Num(Number::Whole(y))) => Some(*y),
        _ => None,
    }
}

// What an assignment that computes adds, whose right side is a number; none where it does not add.
#[inline(always)]
fn signed(op: AssignOp, y: i64) -> Option<i64>
    ensures { IfSome result (λ by. Adds op y by) }
{
    match op {
        AssignOp::Add => Some(y),
        AssignOp::Sub => 0_i64.checked_sub(y),
        _ => None,
    }
}
