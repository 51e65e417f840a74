//! Expressions taken apart, by the rows of the grammar.
ghost use Rattle.std.specs.Prelude.{false, ◌+◌, ◌<◌, Bool, OnOk, All, [], ◌∷◌};
ghost use Rattle.js_tree.specs.Forest.{Forest, IsExpr, expr_at, exprs_at, plain_form, AreExprParts};
ghost use Rattle.js_tree.specs.Plain.{Dot, Sub, Call, New, Step, Cond, Assign};
ghost use Rattle.js_tree.specs.Trees.{trees};
ghost use Rattle.js_pieces.specs.Tidy.{flat, mark, expr_tokens};
ghost use Rattle.js_pieces.specs.Costs.{total, expr_cost};
ghost use Rattle.js_pieces.specs.Todo.{Pushes, PushesForm};

use crate::levels::{
    AND, ASSIGNMENT, CHAIN, OR, PRIMARY, UNARY, WHOLE, assign_text, binary_text, is_enclosed,
    operator_level, unary_text, word_text,
};
use crate::work::{Work, push_all, push_inside};
use code_units::{Memory, Text};
use js_tree::{AssignOp, Expr, ExprId, StepOp, Tree};

// A property by its name.
#[tactic(auto, unfolding(crate::specs::Tidy::form_tokens, crate::specs::Costs::form_cost))]
fn expand_dot<'t>(
    object: ExprId,
    name: &'t Text,
    first: bool,
    work: &mut Vec<Work<'t>>,
) -> Result<(), Memory>
    ensures { (f : Forest) → IsExpr f object →
        OnOk result (PushesForm f first (Dot (expr_at f object) name.now) work.old.items work.new.items) }
{
    push_all(
        work,
        &[
            Work::Expr(object, CHAIN, first),
            Work::Mark("."),
            Work::Name(name),
        ],
    )
}

// A property by its key.
#[tactic(auto, unfolding(crate::specs::Tidy::form_tokens, crate::specs::Costs::form_cost))]
fn expand_sub(object: ExprId, key: ExprId, first: bool, work: &mut Vec<Work>) -> Result<(), Memory>
    ensures { (f : Forest) → IsExpr f object → IsExpr f key →
        OnOk result (PushesForm f first (Sub (expr_at f object) (expr_at f key)) work.old.items work.new.items) }
{
    push_all(
        work,
        &[
            Work::Expr(object, CHAIN, first),
            Work::Mark("["),
            Work::Expr(key, WHOLE, false),
            Work::Mark("]"),
        ],
    )
}

#[tactic(auto, unfolding(crate::specs::Tidy::form_tokens, crate::specs::Costs::form_cost))]
fn expand_call<'t>(
    function: ExprId,
    arguments: &'t [ExprId],
    first: bool,
    work: &mut Vec<Work<'t>>,
) -> Result<(), Memory>
    ensures { (f : Forest) → IsExpr f function → All (IsExpr f) arguments.now →
        OnOk result (PushesForm f first (Call (expr_at f function) (exprs_at f arguments.now)) work.old.items
        work.new.items) }
{
    push_all(
        work,
        &[
            Work::Expr(function, CHAIN, first),
            Work::Mark("("),
            Work::Exprs(arguments, false),
            Work::Mark(")"),
        ],
    )
}

#[tactic(auto, unfolding(crate::specs::Tidy::form_tokens, crate::specs::Costs::form_cost))]
fn expand_new<'t>(
    function: ExprId,
    arguments: &'t [ExprId],
    work: &mut Vec<Work<'t>>,
) -> Result<(), Memory>
    ensures { (f : Forest) (first : Bool) → IsExpr f function → All (IsExpr f) arguments.now →
        OnOk result (PushesForm f first (New (expr_at f function) (exprs_at f arguments.now)) work.old.items
        work.new.items) }
{
    push_all(
        work,
        &[
            Work::Mark("new"),
            Work::Expr(function, PRIMARY, false),
            Work::Mark("("),
            Work::Exprs(arguments, false),
            Work::Mark(")"),
        ],
    )
}

#[tactic(auto, unfolding(crate::specs::Tidy::form_tokens, crate::specs::Costs::form_cost))]
fn expand_step(op: StepOp, e: ExprId, first: bool, work: &mut Vec<Work>) -> Result<(), Memory>
    ensures { (f : Forest) → IsExpr f e →
        OnOk result (PushesForm f first (Step op (expr_at f e)) work.old.items work.new.items) }
{
    match op {
        StepOp::PreInc => push_all(work, &[Work::Mark("++"), Work::Expr(e, UNARY, false)]),
        StepOp::PreDec => push_all(work, &[Work::Mark("--"), Work::Expr(e, UNARY, false)]),
        StepOp::PostInc => push_all(work, &[Work::Expr(e, CHAIN, first), Work::Mark("++")]),
        StepOp::PostDec => push_all(work, &[Work::Expr(e, CHAIN, first), Work::Mark("--")]),
    }
}

// An operator of this level: what stands behind it binds tighter.
fn expand_infix<'t>(
    left: ExprId,
    operator: &'t str,
    right: ExprId,
    level: u8,
    first: bool,
    work: &mut Vec<Work<'t>>,
) -> Result<(), Memory>
    requires { level < PRIMARY }
    ensures { (f : Forest) → IsExpr f left → IsExpr f right →
        OnOk result (Pushes f (flat (expr_tokens first level (expr_at f left) ∷ mark operator.now ∷ expr_tokens
        false (level + 1) (expr_at f right) ∷ []))
        (total ((1 + expr_cost (expr_at f left)) ∷ 2 ∷ (1 + expr_cost (expr_at f right)) ∷ [])) work.old.items
        work.new.items) }
{
    push_all(
        work,
        &[
            Work::Expr(left, level, first),
            Work::Mark(operator),
            Work::Expr(right, level + 1, false),
        ],
    )
}

#[tactic(auto, unfolding(crate::specs::Tidy::form_tokens, crate::specs::Costs::form_cost))]
fn expand_cond(
    test: ExprId,
    then: ExprId,
    other: ExprId,
    first: bool,
    work: &mut Vec<Work>,
) -> Result<(), Memory>
    ensures { (f : Forest) → IsExpr f test → IsExpr f then → IsExpr f other →
        OnOk result (PushesForm f first (Cond (expr_at f test) (expr_at f then) (expr_at f other)) work.old.items
        work.new.items) }
{
    push_all(
        work,
        &[
            Work::Expr(test, OR, first),
            Work::Mark("?"),
            Work::Expr(then, ASSIGNMENT, false),
            Work::Mark(":"),
            Work::Expr(other, ASSIGNMENT, false),
        ],
    )
}

#[tactic(auto, unfolding(crate::specs::Tidy::form_tokens, crate::specs::Costs::form_cost))]
fn expand_assign(
    op: AssignOp,
    target: ExprId,
    value: ExprId,
    first: bool,
    work: &mut Vec<Work>,
) -> Result<(), Memory>
    ensures { (f : Forest) → IsExpr f target → IsExpr f value →
        OnOk result (PushesForm f first (Assign op (expr_at f target) (expr_at f value)) work.old.items
        work.new.items) }
{
    push_all(
        work,
        &[
            Work::Expr(target, CHAIN, first),
            Work::Mark(assign_text(op)),
            Work::Expr(value, ASSIGNMENT, false),
        ],
    )
}

// An expression without its parentheses.
#[tactic(auto, unfolding(crate::specs::Tidy::form_tokens, crate::specs::Costs::form_cost))]
fn expand_form<'t>(node: &'t Expr, first: bool, work: &mut Vec<Work<'t>>) -> Result<(), Memory>
    ensures { (f : Forest) → AreExprParts f node.now →
        OnOk result (PushesForm f first (plain_form f node.now) work.old.items work.new.items) }
{
    match node {
        Expr::Num(numeral) => push_all(work, &[Work::Name(numeral.text())]),
        Expr::Str(text) => push_all(work, &[Work::Quoted(text)]),
        Expr::Name(text) => push_all(work, &[Work::Name(text)]),
        Expr::Word(word) => push_all(work, &[Work::Mark(word_text(*word))]),
        Expr::Array(ids) => push_inside("[", Work::Exprs(ids, false), "]", work),
        Expr::Object(ps) => push_inside("{", Work::Properties(ps, false), "}", work),
        Expr::Function(id) => push_all(work, &[Work::Fun(*id)]),
        Expr::Dot(e, text) => expand_dot(*e, text, first, work),
        Expr::Sub(a, b) => expand_sub(*a, *b, first, work),
        Expr::Call(e, ids) => expand_call(*e, ids, first, work),
        Expr::New(e, ids) => expand_new(*e, ids, work),
        Expr::Step(op, e) => expand_step(*op, *e, first, work),
        Expr::Unary(op, e) => push_all(
            work,
            &[Work::Mark(unary_text(*op)), Work::Expr(*e, UNARY, false)],
        ),
        Expr::Binary(op, a, b) => {
            let level = operator_level(*op);
            expand_infix(*a, binary_text(*op), *b, level, first, work)
        }
        Expr::And(a, b) => expand_infix(*a, "&&", *b, AND, first, work),
        Expr::Or(a, b) => expand_infix(*a, "||", *b, OR, first, work),
        Expr::Cond(a, b, c) => expand_cond(*a, *b, *c, first, work),
        Expr::Assign(op, a, b) => expand_assign(*op, *a, *b, first, work),
        Expr::Comma(a, b) => expand_infix(*a, ",", *b, WHOLE, first, work),
    }
}

/// An expression where this level is asked for, in parentheses or not.
pub fn expand_expr<'t>(
    tree: &'t Tree,
    id: ExprId,
    level: u8,
    first: bool,
    work: &mut Vec<Work<'t>>,
) -> Result<(), Memory>
    requires { IsExpr (trees tree.now) id }
    ensures { OnOk result (Pushes (trees tree.now) (expr_tokens first level (expr_at (trees tree.now) id))
        (expr_cost (expr_at (trees tree.now) id)) work.old.items work.new.items) }
{
    let node = tree.expr(id);
    if is_enclosed(node, level, first) {
        push_all(work, &[Work::Mark(")")])?;
        expand_form(node, false, work)?;
        return push_all(work, &[Work::Mark("(")]);
    }
    expand_form(node, first, work)
}
