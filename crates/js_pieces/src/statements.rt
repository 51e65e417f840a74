//! Statements taken apart, by the rows of the grammar.
ghost use Rattle.std.specs.Prelude.{false, ◌+◌, OnOk, All, [], ◌∷◌, codes};
ghost use Rattle.js_tree.specs.Forest.{Forest, IsExpr, IsStmt, IsOptional, expr_at, optional_at, plain_stmt_form, exprs_at, stmts_at, clauses_at, init_at, catch_at, block_at, AreStmtParts, AreInit, AreClauseParts, AreCatch, AreBlock};
ghost use Rattle.js_tree.specs.Plain.{If, DoWhile, For, ForIn, Switch, Try};
ghost use Rattle.js_pieces.specs.Tidy.{enclosed, braced, flat, mark, expr_tokens, stmts_tokens};
ghost use Rattle.js_pieces.specs.Costs.{total, enclosed_cost, expr_cost, stmts_cost};
ghost use Rattle.js_pieces.specs.Todo.{IsWork, Pushes, PushesStmt, work_tokens, work_cost};

use crate::levels::WHOLE;
use crate::work::{Work, push_all};
use code_units::{Memory, Text};
use js_tree::{Clause, ExprId, ForInit, Stmt, StmtId};

// A word, one piece and a semicolon.
fn expand_simple<'t>(word: &'t str, piece: Work<'t>, work: &mut Vec<Work<'t>>) -> Result<(), Memory>
    ensures { (f : Forest) → IsWork f piece.entry →
        OnOk result (Pushes f (flat (mark word.now ∷ work_tokens f piece.entry ∷ mark (codes ";") ∷ []))
        (total (2 ∷ work_cost f piece.entry ∷ 2 ∷ [])) work.old.items work.new.items) }
{
    push_all(work, &[Work::Mark(word), piece, Work::Mark(";")])
}

// A word, an expression in parentheses and a block.
fn expand_headed<'t>(
    word: &'t str,
    head: ExprId,
    body: &'t [StmtId],
    work: &mut Vec<Work<'t>>,
) -> Result<(), Memory>
    ensures { (f : Forest) → IsExpr f head → All (IsStmt f) body.now →
        OnOk result (Pushes f (flat (mark word.now ∷ enclosed (expr_tokens false WHOLE (expr_at f head)) ∷ braced
        (stmts_tokens (stmts_at f body.now)) ∷ []))
        (total (2 ∷ (1 + enclosed_cost (expr_cost (expr_at f head))) ∷
        (1 + enclosed_cost (stmts_cost (stmts_at f body.now))) ∷ [])) work.old.items work.new.items) }
{
    push_all(
        work,
        &[Work::Mark(word), Work::Head(head), Work::Block(body)],
    )
}

#[tactic(auto, unfolding(crate::specs::Tidy::stmt_form_tokens, crate::specs::Costs::stmt_form_cost))]
fn expand_if<'t>(
    test: ExprId,
    then: &'t [StmtId],
    other: &'t [StmtId],
    work: &mut Vec<Work<'t>>,
) -> Result<(), Memory>
    ensures { (f : Forest) → IsExpr f test → All (IsStmt f) then.now → All (IsStmt f) other.now →
        OnOk result (PushesStmt f (If (expr_at f test) (stmts_at f then.now) (stmts_at f other.now)) work.old.items
        work.new.items) }
{
    push_all(
        work,
        &[
            Work::Mark("if"),
            Work::Head(test),
            Work::Block(then),
            Work::Else(other),
        ],
    )
}

#[tactic(auto, unfolding(crate::specs::Tidy::stmt_form_tokens, crate::specs::Costs::stmt_form_cost))]
fn expand_do<'t>(test: ExprId, body: &'t [StmtId], work: &mut Vec<Work<'t>>) -> Result<(), Memory>
    ensures { (f : Forest) → IsExpr f test → All (IsStmt f) body.now →
        OnOk result (PushesStmt f (DoWhile (expr_at f test) (stmts_at f body.now)) work.old.items work.new.items) }
{
    push_all(
        work,
        &[
            Work::Mark("do"),
            Work::Block(body),
            Work::Mark("while"),
            Work::Head(test),
            Work::Mark(";"),
        ],
    )
}

#[tactic(auto, unfolding(crate::specs::Tidy::stmt_form_tokens, crate::specs::Costs::stmt_form_cost))]
fn expand_for<'t>(
    init: &'t ForInit,
    test: Option<ExprId>,
    steps: &'t [ExprId],
    body: &'t [StmtId],
    work: &mut Vec<Work<'t>>,
) -> Result<(), Memory>
    ensures { (f : Forest) → AreInit f init.now → IsOptional f test → All (IsExpr f) steps.now →
        All (IsStmt f) body.now → OnOk result
        (PushesStmt f (For (init_at f init.now) (optional_at f test) (exprs_at f steps.now) (stmts_at f body.now))
        work.old.items work.new.items) }
{
    push_all(
        work,
        &[
            Work::Mark("for"),
            Work::Mark("("),
            Work::Init(init),
            Work::Mark(";"),
            Work::Optional(test),
            Work::Mark(";"),
            Work::Exprs(steps, false),
            Work::Mark(")"),
            Work::Block(body),
        ],
    )
}

#[tactic(auto, unfolding(crate::specs::Tidy::stmt_form_tokens, crate::specs::Costs::stmt_form_cost))]
fn expand_for_in<'t>(
    declared: bool,
    variable: &'t Text,
    object: ExprId,
    body: &'t [StmtId],
    work: &mut Vec<Work<'t>>,
) -> Result<(), Memory>
    ensures { (f : Forest) → IsExpr f object → All (IsStmt f) body.now →
        OnOk result (PushesStmt f (ForIn declared variable.now (expr_at f object) (stmts_at f body.now))
        work.old.items work.new.items) }
{
    push_all(
        work,
        &[
            Work::Mark("for"),
            Work::Mark("("),
            Work::Declared(declared),
            Work::Name(variable),
            Work::Mark("in"),
            Work::Expr(object, WHOLE, false),
            Work::Mark(")"),
            Work::Block(body),
        ],
    )
}

#[tactic(auto, unfolding(crate::specs::Tidy::stmt_form_tokens, crate::specs::Costs::stmt_form_cost))]
fn expand_switch<'t>(
    value: ExprId,
    clauses: &'t [Clause],
    work: &mut Vec<Work<'t>>,
) -> Result<(), Memory>
    ensures { (f : Forest) → IsExpr f value → All (AreClauseParts f) clauses.now →
        OnOk result (PushesStmt f (Switch (expr_at f value) (clauses_at f clauses.now)) work.old.items
        work.new.items) }
{
    push_all(
        work,
        &[
            Work::Mark("switch"),
            Work::Head(value),
            Work::Mark("{"),
            Work::Clauses(clauses),
            Work::Mark("}"),
        ],
    )
}

#[tactic(auto, unfolding(crate::specs::Tidy::stmt_form_tokens, crate::specs::Costs::stmt_form_cost))]
fn expand_try<'t>(
    body: &'t [StmtId],
    caught: &'t Option<(Text, Vec<StmtId>)>,
    last: &'t Option<Vec<StmtId>>,
    work: &mut Vec<Work<'t>>,
) -> Result<(), Memory>
    ensures { (f : Forest) → All (IsStmt f) body.now → AreCatch f caught.now → AreBlock f last.now →
        OnOk result (PushesStmt f (Try (stmts_at f body.now) (catch_at f caught.now) (block_at f last.now))
        work.old.items work.new.items) }
{
    push_all(
        work,
        &[
            Work::Mark("try"),
            Work::Block(body),
            Work::Catch(caught),
            Work::Last(last),
        ],
    )
}

/// A statement.
#[tactic(auto, unfolding(crate::specs::Tidy::stmt_form_tokens, crate::specs::Costs::stmt_form_cost))]
pub fn expand_stmt<'t>(node: &'t Stmt, work: &mut Vec<Work<'t>>) -> Result<(), Memory>
    ensures { (f : Forest) → AreStmtParts f node.now →
        OnOk result (PushesStmt f (plain_stmt_form f node.now) work.old.items work.new.items) }
{
    match node {
        Stmt::Var(ds) => expand_simple("var", Work::Decls(ds, false), work),
        Stmt::Expr(e) => push_all(work, &[Work::Expr(*e, WHOLE, true), Work::Mark(";")]),
        Stmt::If(e, a, b) => expand_if(*e, a, b, work),
        Stmt::While(e, body) => expand_headed("while", *e, body, work),
        Stmt::DoWhile(e, body) => expand_do(*e, body, work),
        Stmt::For(init, test, next, body) => expand_for(init, *test, next, body, work),
        Stmt::ForIn(declared, text, e, body) => expand_for_in(*declared, text, *e, body, work),
        Stmt::Continue(label) => expand_simple("continue", Work::Label(label), work),
        Stmt::Break(label) => expand_simple("break", Work::Label(label), work),
        Stmt::Return(e) => expand_simple("return", Work::Optional(*e), work),
        Stmt::Throw(e) => expand_simple("throw", Work::Expr(*e, WHOLE, false), work),
        Stmt::With(e, body) => expand_headed("with", *e, body, work),
        Stmt::Switch(e, clauses) => expand_switch(*e, clauses, work),
        Stmt::Try(body, caught, last) => expand_try(body, caught, last, work),
        Stmt::Label(text, s) => push_all(
            work,
            &[Work::Name(text), Work::Mark(":"), Work::Stmt(*s)],
        ),
    }
}
