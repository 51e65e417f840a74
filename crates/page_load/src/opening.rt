//! The call with which a script hands over its function.
ghost use Rattle.std.specs.Prelude.{◌≡◌, All, IfOk, MatchOption, None, Some, option_copied};
ghost use Rattle.js_tree.specs.Forest.{IsExpr, IsFun, IsStmt, expr_at, exprs_at, fun_at, stmt_at};
ghost use Rattle.js_tree.specs.Trees.{program_of, trees};
ghost use Rattle.widget_meaning.specs.Alone.{call_parts};
ghost use Rattle.page_load.specs.Opening.{IsHanded, arguments_parts, both, expression_parts, function_of, statement_parts, text_of};

use code_units::{Memory, Text};
use js_tree::{Expr, ExprId, FunId, Stmt, StmtId, Tree};

/// A function that a script hands over, under this name.
#[derive(Drop)]
pub(crate) struct Opening {
    pub(crate) name: Text,
    pub(crate) fun: FunId,
}

// The text that an expression is.
fn text_of(tree: &Tree, id: ExprId) -> Option<&Text>
    requires { IsExpr (trees tree.now) id }
    ensures { option_copied result ≡ text_of (expr_at (trees tree.now) id) }
{
    match tree.expr(id) {
        Expr::Str(text) => Some(text),
        _ => None,
    }
}

// The function that an expression is.
fn function_of(tree: &Tree, id: ExprId) -> Option<FunId>
    requires { IsExpr (trees tree.now) id }
    ensures { MatchOption result (function_of (expr_at (trees tree.now) id) ≡ None)
        (λ g. IsFun (trees tree.now) g
        × (function_of (expr_at (trees tree.now) id) ≡ Some (fun_at (trees tree.now) g))) }
{
    match tree.expr(id) {
        Expr::Function(fun) => Some(*fun),
        _ => None,
    }
}

// What a text and a function as arguments hand over.
#[tactic(auto, using(crate::proofs::Handing::both_none, crate::proofs::Handing::both_some))]
fn handed_by(tree: &Tree, text: ExprId, function: ExprId) -> Result<Option<Opening>, Memory>
    requires text { IsExpr (trees tree.now) text }
    requires function { IsExpr (trees tree.now) function }
    ensures { IfOk result (IsHanded (trees tree.now)
        (both (text_of (expr_at (trees tree.now) text)) (function_of (expr_at (trees tree.now) function)))) }
{
    let Some(fun) = function_of(tree, function) else {
        return Ok(None);
    };
    match text_of(tree, text) {
        Some(name) => Ok(Some(Opening {
            name: name.share()?,
            fun,
        })),
        None => Ok(None),
    }
}

// What these arguments hand over.
fn handed_by_arguments(tree: &Tree, args: &[ExprId]) -> Result<Option<Opening>, Memory>
    requires { All (IsExpr (trees tree.now)) args.now }
    ensures { IfOk result (IsHanded (trees tree.now) (arguments_parts (exprs_at (trees tree.now) args.now))) }
{
    if args.len() != 2 {
        return Ok(None);
    }
    handed_by(tree, args[0], args[1])
}

// What an expression hands over.
fn handed_by_expression(tree: &Tree, id: ExprId) -> Result<Option<Opening>, Memory>
    requires { IsExpr (trees tree.now) id }
    ensures { IfOk result (IsHanded (trees tree.now) (expression_parts (expr_at (trees tree.now) id))) }
{
    match tree.expr(id) {
        Expr::Call(_, args) => handed_by_arguments(tree, args),
        _ => Ok(None),
    }
}

// What a statement hands over.
fn handed_by_statement(tree: &Tree, id: StmtId) -> Result<Option<Opening>, Memory>
    requires { IsStmt (trees tree.now) id }
    ensures { IfOk result (IsHanded (trees tree.now) (statement_parts (stmt_at (trees tree.now) id))) }
{
    match tree.stmt(id) {
        Stmt::Expr(e) => handed_by_expression(tree, *e),
        _ => Ok(None),
    }
}

/// The function that a script hands over by its one statement, a call with a text and a function; none
/// where it hands over none.
pub(crate) fn handed(tree: &Tree) -> Result<Option<Opening>, Memory>
    ensures { IfOk result (IsHanded (trees tree.now) (call_parts (program_of tree.now))) }
{
    let program = tree.program();
    if program.len() != 1 {
        return Ok(None);
    }
    handed_by_statement(tree, program[0])
}
