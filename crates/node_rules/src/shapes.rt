//! The forms of expressions and statements of a tree.
ghost use Rattle.std.specs.Prelude.{◌≡◌, [], ◌∷◌, MatchOption};
ghost use Rattle.js_tree.specs.Plain.{expr_place};
ghost use Rattle.js_tree.specs.Forest.{IsExpr, expr_at, plain_stmt_form, AreStmtParts};
ghost use Rattle.js_tree.specs.Trees.{trees};
ghost use Rattle.node_rules.specs.Names.{named, literal, variable};
ghost use Rattle.node_rules.specs.Forms.{is_name, is_subscript, is_act, is_idle, is_target, is_property};

use crate::words::is_word;
use code_units::Text;
use js_tree::{BinOp, Expr, ExprId, Stmt, Tree, UnOp};

/// A string literal.
pub fn literal(tree: &Tree, id: ExprId) -> Option<&Text>
    requires { IsExpr (trees tree.now) id }
    ensures { let e = expr_at (trees tree.now) id in MatchOption result (literal e ≡ [])
        (λ t. literal e ≡ named t.now (expr_place e) ∷ []) }
{
    match tree.expr(id) {
        Expr::Str(text) => Some(text),
        _ => None,
    }
}

/// A name as an expression.
pub fn variable(tree: &Tree, id: ExprId) -> Option<&Text>
    requires { IsExpr (trees tree.now) id }
    ensures { let e = expr_at (trees tree.now) id in MatchOption result (variable e ≡ [])
        (λ t. variable e ≡ named t.now (expr_place e) ∷ []) }
{
    match tree.expr(id) {
        Expr::Name(text) => Some(text),
        _ => None,
    }
}

/// Whether the expression is the name.
pub fn is_name(tree: &Tree, id: ExprId, word: &[u8]) -> bool
    requires { IsExpr (trees tree.now) id }
    ensures { result ≡ is_name word.now (expr_at (trees tree.now) id) }
{
    match tree.expr(id) {
        Expr::Name(text) => is_word(text, word),
        _ => false,
    }
}

/// Whether a subscript may have this form.
pub fn is_subscript(tree: &Tree, id: ExprId) -> bool
    requires { IsExpr (trees tree.now) id }
    ensures { result ≡ is_subscript (expr_at (trees tree.now) id) }
{
    match tree.expr(id) {
        Expr::Num(_) | Expr::Str(_) | Expr::Step(_, _) => true,
        Expr::Unary(op, _) => matches!(op, UnOp::Plus | UnOp::Minus),
        Expr::Binary(op, _, _) => {
            matches!(op, BinOp::Sub | BinOp::Mul | BinOp::Div | BinOp::Rem)
        }
        _ => false,
    }
}

/// Whether the expression may stand as a statement.
pub fn is_act(tree: &Tree, id: ExprId) -> bool
    requires { IsExpr (trees tree.now) id }
    ensures { result ≡ is_act (expr_at (trees tree.now) id) }
{
    match tree.expr(id) {
        Expr::Assign(_, _, _) | Expr::Call(_, _) | Expr::Step(_, _) => true,
        Expr::Unary(op, _) => matches!(op, UnOp::Delete),
        _ => false,
    }
}

/// Whether the expression may be assigned or stepped.
pub fn is_target(tree: &Tree, id: ExprId) -> bool
    requires { IsExpr (trees tree.now) id }
    ensures { result ≡ is_target (expr_at (trees tree.now) id) }
{
    matches!(
        tree.expr(id),
        Expr::Name(_) | Expr::Dot(_, _) | Expr::Sub(_, _)
    )
}

/// Whether the expression may be deleted.
pub fn is_property(tree: &Tree, id: ExprId) -> bool
    requires { IsExpr (trees tree.now) id }
    ensures { result ≡ is_property (expr_at (trees tree.now) id) }
{
    matches!(tree.expr(id), Expr::Dot(_, _) | Expr::Sub(_, _))
}

/// An expression statement that may not stand: A18.
pub fn is_idle(tree: &Tree, node: &Stmt) -> bool
    requires { AreStmtParts (trees tree.now) node.now }
    ensures { result ≡ is_idle (plain_stmt_form (trees tree.now) node.now) }
{
    match node {
        Stmt::Expr(e) => !is_act(tree, *e),
        _ => false,
    }
}
