//! What a statement has, by its node.
ghost use Rattle.std.specs.Prelude.{◌≡◌, ◌+◌, ◌<◌, ◌^◌, IfOk, IsTrue, IsFalse, MatchOption, drop};
ghost use Rattle.js_tree.specs.Trees.{trees};
ghost use Rattle.js_tree.specs.Forest.{IsExpr, IsStmt, expr_at, stmt_at};
ghost use Rattle.js_tree.specs.Plain as plain;
ghost use Rattle.widget_meaning.specs.OwnState.{State};
ghost use Rattle.widget_meaning.specs.Values.{Normal};
ghost use Rattle.widget_meaning.specs.Plan as plan;
ghost use Rattle.widget_meaning.specs.Plan.{Do, Eval, Pass, Ret, after};
ghost use Rattle.widget_meaning.specs.Statements as statements;
ghost use Rattle.js_flow.specs.Parts.{catch_body, catch_of, decls_of, finally_body, finally_of, loop_of, variable_of};
ghost use Rattle.js_flow.specs.Statements.{declared, loop_again};

use code_units::{Memory, Text};
use js_flow::declaration_at;
use js_tree::{ExprId, Stmt, StmtId, Tree};
use std::alloc::Global;

/// A declaration that has a first value, by its number in its list.
#[derive(Clone, Copy, Drop)]
pub(crate) struct Valued {
    pub at: usize,
    pub init: ExprId,
}

/// The first declaration from a number on that has a first value.
pub(crate) fn first_value(tree: &Tree, id: StmtId, from: usize) -> Option<Valued>
    requires { IsStmt (trees tree.now) id }
    ensures { MatchOption result
        ((p : plan.Place) (s : State)
        → statements.declarations (drop from (decls_of (stmt_at (trees tree.now) id))) p s ≡ Ret Normal s)
        (λ v. IsExpr (trees tree.now) v.init × (v.at + 1 < 2 ^ 64)
        × ((p : plan.Place) (s : State)
        → statements.declarations (drop from (decls_of (stmt_at (trees tree.now) id))) p s
        ≡ Do (Eval (expr_at (trees tree.now) v.init) p) s (after
        (λ u t. declared (drop v.at (decls_of (stmt_at (trees tree.now) id))) p u t)))) }
{
    let mut at = from;
    'each: while let Some(decl) = declaration_at(tree, id, at) {
        if let Some(init) = decl.init {
            return Some(Valued { at, init });
        }
        at += 1;
    }
    None
}

/// The test of a loop, if it has one.
pub(crate) fn test_at(tree: &Tree, id: StmtId) -> Option<ExprId>
    requires { IsStmt (trees tree.now) id }
    ensures { let l = loop_of (stmt_at (trees tree.now) id) in MatchOption result
        ((p : plan.Place) (s : State) → loop_again l p Normal s ≡ Do (Pass l p) s Ret)
        (λ e. IsExpr (trees tree.now) e
        × ((p : plan.Place) (s : State)
        → loop_again l p Normal s ≡ Do (Eval (expr_at (trees tree.now) e) p) s (statements.loop_test l p))) }
{
    match tree.stmt(id) {
        Stmt::While(test, _) | Stmt::DoWhile(test, _) => Some(*test),
        Stmt::For(_, test, _, _) => *test,
        _ => None,
    }
}

/// The name of the `catch` of a `try`, none where it has no `catch`.
pub(crate) fn catch_name(tree: &Tree, id: StmtId) -> Option<&Text>
    requires { IsStmt (trees tree.now) id }
    ensures { MatchOption result
        (catch_of (stmt_at (trees tree.now) id) ≡ plain.NoCatch)
        (λ x. catch_of (stmt_at (trees tree.now) id)
        ≡ plain.CatchAs x.now (catch_body (catch_of (stmt_at (trees tree.now) id)))) }
{
    match tree.stmt(id) {
        Stmt::Try(_, Some(caught), _) => Some(&caught.0),
        _ => None,
    }
}

/// Whether a `try` has a `finally`.
pub(crate) fn has_finally(tree: &Tree, id: StmtId) -> bool
    requires { IsStmt (trees tree.now) id }
    ensures yes { IsTrue result
        → finally_of (stmt_at (trees tree.now) id)
        ≡ plain.SomeBlock (finally_body (finally_of (stmt_at (trees tree.now) id))) }
    ensures no { IsFalse result → finally_of (stmt_at (trees tree.now) id) ≡ plain.NoBlock }
{
    matches!(tree.stmt(id), Stmt::Try(_, _, Some(_)))
}

/// The variable of a `for-in`; another statement has the empty name.
pub(crate) fn variable_at(alloc: Global, tree: &Tree, id: StmtId) -> Result<Text, Memory>
    requires { IsStmt (trees tree.now) id }
    ensures { IfOk result (λ x. x ≡ variable_of (stmt_at (trees tree.now) id)) }
{
    match tree.stmt(id) {
        Stmt::ForIn(_, name, _, _) => name.share(),
        _ => Text::from_units(alloc, Vec::new(alloc)),
    }
}
