//! The call with which a text begins (A02).
ghost use Rattle.std.specs.Str.{bytes_eq};
ghost use Rattle.std.specs.Prelude.{◌≡◌, [], ◌∷◌, All, MatchOption, false};
ghost use Rattle.js_tree.specs.Trees.{trees};
ghost use Rattle.js_tree.specs.Forest.{IsExpr, IsStmt, IsFun, expr_at, stmt_at, fun_at, exprs_at};
ghost use Rattle.js_tree.specs.Parts.{AStmt, AFun, exprs_spots};
ghost use Rattle.node_rules.specs.Names.{literal};
ghost use Rattle.node_rules.specs.Forms.{is_string};
ghost use Rattle.adsafe_rules.specs.Openings.{AreListed};
ghost use Rattle.adsafe_rules.specs.Program.{opening_word, is_opening_name, is_plain_fun, is_plain_function, are_arguments, is_adsafe_dot, is_opening_call, is_opening, call_arguments, first_string, function_of, second_function, opening_names, opening_functions};

use crate::scope::Scope;
use code_units::Text;
use js_tree::{Expr, ExprId, FunId, Stmt, StmtId, Tree};
use node_rules::shapes::is_name;
use node_rules::words::{is_library_name, is_word};
use std::cmp::PartialEq;

/// Whether the call may hand over this name.
pub fn is_opening_name(scope: &Scope, name: &Text) -> bool
    ensures { result ≡ is_opening_name scope.now name.now }
{
    match scope {
        Scope::Id(slot) => name == slot,
        Scope::Lib => is_library_name(name),
        Scope::Go(slot) => name == slot,
    }
}

fn is_opening_word(scope: &Scope, word: &Text) -> bool
    ensures { result ≡ bytes_eq word.now (opening_word scope.now) }
{
    match scope {
        Scope::Id(_) => is_word(word, b"id"),
        Scope::Lib => is_word(word, b"lib"),
        Scope::Go(_) => is_word(word, b"go"),
    }
}

fn is_string(tree: &Tree, id: ExprId) -> bool
    requires { IsExpr (trees tree.now) id }
    ensures { result ≡ is_string (expr_at (trees tree.now) id) }
{
    matches!(tree.expr(id), Expr::Str(_))
}

fn is_plain_fun(tree: &Tree, id: FunId, most: usize) -> bool
    requires { IsFun (trees tree.now) id }
    ensures { result ≡ is_plain_fun most (fun_at (trees tree.now) id) }
{
    let node = tree.fun(id);
    match &node.name {
        Some(_) => false,
        None => node.params.len() <= most,
    }
}

fn is_plain_function(tree: &Tree, id: ExprId, most: usize) -> bool
    requires { IsExpr (trees tree.now) id }
    ensures { result ≡ is_plain_function most (expr_at (trees tree.now) id) }
{
    match tree.expr(id) {
        Expr::Function(fun) => is_plain_fun(tree, *fun, most),
        _ => false,
    }
}

fn is_adsafe_dot(tree: &Tree, scope: &Scope, id: ExprId) -> bool
    requires { IsExpr (trees tree.now) id }
    ensures { result ≡ is_adsafe_dot (opening_word scope.now) (expr_at (trees tree.now) id) }
{
    match tree.expr(id) {
        Expr::Dot(e, name) => is_name(tree, *e, b"ADSAFE") && is_opening_word(scope, name),
        _ => false,
    }
}

/// The arguments of a call.
#[derive(Clone, Copy, Drop)]
enum Arguments {
    None,
    One(ExprId),
    Two(ExprId, ExprId),
    More(ExprId, ExprId),
}

#[tactic(auto, using(crate::proofs::Openings::list_none, crate::proofs::Openings::list_one, crate::proofs::Openings::list_two, crate::proofs::Openings::list_more))]
fn list_arguments(args: &[ExprId]) -> Arguments
    ensures { AreListed result args.now }
{
    if args.is_empty() {
        return Arguments::None;
    }
    if args.len() == 1 {
        return Arguments::One(args[0]);
    }
    if args.len() == 2 {
        return Arguments::Two(args[0], args[1]);
    }
    Arguments::More(args[0], args[1])
}

fn are_arguments(tree: &Tree, scope: &Scope, args: &[ExprId]) -> bool
    requires { All (IsExpr (trees tree.now)) args.now }
    ensures { result ≡ are_arguments scope.now (exprs_spots (exprs_at (trees tree.now) args.now)) }
{
    match list_arguments(args) {
        Arguments::None => false,
        Arguments::More(_, _) => false,
        Arguments::One(a) => match scope {
            Scope::Id(_) => is_string(tree, a),
            _ => false,
        },
        Arguments::Two(a, g) => match scope {
            Scope::Id(_) => false,
            Scope::Lib => is_string(tree, a) && is_plain_function(tree, g, 1),
            Scope::Go(_) => is_string(tree, a) && is_plain_function(tree, g, 2),
        },
    }
}

fn is_opening_call(tree: &Tree, scope: &Scope, id: ExprId) -> bool
    requires { IsExpr (trees tree.now) id }
    ensures { result ≡ is_opening_call scope.now (expr_at (trees tree.now) id) }
{
    match tree.expr(id) {
        Expr::Call(e, args) => is_adsafe_dot(tree, scope, *e) && are_arguments(tree, scope, args),
        _ => false,
    }
}

/// Whether the statement is the call that the scope asks for.
pub fn is_opening(tree: &Tree, scope: &Scope, id: StmtId) -> bool
    requires { IsStmt (trees tree.now) id }
    ensures { result ≡ is_opening scope.now (AStmt (stmt_at (trees tree.now) id)) }
{
    match tree.stmt(id) {
        Stmt::Expr(e) => is_opening_call(tree, scope, *e),
        _ => false,
    }
}

/// The first argument of a call.
fn first_argument(tree: &Tree, id: ExprId) -> Option<ExprId>
    requires { IsExpr (trees tree.now) id }
    ensures { MatchOption result (first_string (call_arguments (expr_at (trees tree.now) id)) ≡ [])
        (λ a. IsExpr (trees tree.now) a
        × (first_string (call_arguments (expr_at (trees tree.now) id)) ≡ literal (expr_at (trees tree.now) a))) }
{
    match tree.expr(id) {
        Expr::Call(_, args) => match list_arguments(args) {
            Arguments::None => None,
            Arguments::One(a) => Some(a),
            Arguments::Two(a, _) => Some(a),
            Arguments::More(a, _) => Some(a),
        },
        _ => None,
    }
}

/// The second argument of a call.
fn second_argument(tree: &Tree, id: ExprId) -> Option<ExprId>
    requires { IsExpr (trees tree.now) id }
    ensures { MatchOption result (second_function (call_arguments (expr_at (trees tree.now) id)) ≡ [])
        (λ a. IsExpr (trees tree.now) a
        × (second_function (call_arguments (expr_at (trees tree.now) id))
        ≡ function_of (expr_at (trees tree.now) a))) }
{
    match tree.expr(id) {
        Expr::Call(_, args) => match list_arguments(args) {
            Arguments::None => None,
            Arguments::One(_) => None,
            Arguments::Two(_, b) => Some(b),
            Arguments::More(_, b) => Some(b),
        },
        _ => None,
    }
}

/// A function expression's function.
fn function_of(tree: &Tree, id: ExprId) -> Option<FunId>
    requires { IsExpr (trees tree.now) id }
    ensures { MatchOption result (function_of (expr_at (trees tree.now) id) ≡ [])
        (λ g. IsFun (trees tree.now) g
        × (function_of (expr_at (trees tree.now) id) ≡ AFun (fun_at (trees tree.now) g) ∷ [])) }
{
    match tree.expr(id) {
        Expr::Function(fun) => Some(*fun),
        _ => None,
    }
}

/// The function that a statement hands over as the second argument of a call.
pub fn opening_function(tree: &Tree, id: StmtId) -> Option<FunId>
    requires { IsStmt (trees tree.now) id }
    ensures { MatchOption result (opening_functions (AStmt (stmt_at (trees tree.now) id)) ≡ [])
        (λ g. IsFun (trees tree.now) g
        × (opening_functions (AStmt (stmt_at (trees tree.now) id)) ≡ AFun (fun_at (trees tree.now) g) ∷ [])) }
{
    match tree.stmt(id) {
        Stmt::Expr(e) => match second_argument(tree, *e) {
            Some(a) => function_of(tree, a),
            None => None,
        },
        _ => None,
    }
}

/// The string that a statement hands over as the first argument of a call.
pub fn opening_string(tree: &Tree, id: StmtId) -> Option<ExprId>
    requires { IsStmt (trees tree.now) id }
    ensures { MatchOption result (opening_names (AStmt (stmt_at (trees tree.now) id)) ≡ [])
        (λ a. IsExpr (trees tree.now) a
        × (opening_names (AStmt (stmt_at (trees tree.now) id)) ≡ literal (expr_at (trees tree.now) a))) }
{
    match tree.stmt(id) {
        Stmt::Expr(e) => first_argument(tree, *e),
        _ => None,
    }
}
