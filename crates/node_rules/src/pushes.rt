//! The parts of nodes, as they are put on the stack of the walk.
ghost use Rattle.std.specs.Prelude.{◌≡◌, ◌++◌, List, map, All, OnOk};
ghost use Rattle.js_tree.specs.Forest.{IsExpr, IsStmt, expr_at, stmt_at, AreExprParts, AreFunParts};
ghost use Rattle.js_tree.specs.Parts.{init_parts};
ghost use Rattle.js_tree.specs.Trees.{trees};
ghost use Rattle.node_rules.specs.Forms.{is_allowed_callee, is_text, is_directive};
ghost use Rattle.node_rules.specs.Work.{at_depth, expr_ids, stmt_ids, fun_ids, value_ids, option_ids, decl_ids, test_ids, body_ids, expr_work, outer_work, inner_work, body_work, fun_work};

use crate::shapes::is_name;
use crate::words::{is_callable, is_word};
use code_units::{Memory, Text};
use js_tree::{Clause, Decl, Expr, ExprId, ForInit, Fun, FunId, Part, Stmt, StmtId, Tree};

/// A node that is still to be visited, and how many nodes enclose it.
#[derive(Clone, Copy, Drop)]
pub struct Work {
    pub part: Part,
    pub depth: usize,
}

fn push_exprs(work: &mut Vec<Work>, ids: &[ExprId], depth: usize) -> Result<(), Memory>
    ensures { OnOk result (work.new.items ≡ work.old.items ++ map (at_depth depth) (expr_ids ids.now)) }
{
    'ids: for id in ids {
        work.push(Work {
            part: Part::Expr(*id),
            depth,
        })?;
    }
    Ok(())
}

pub fn push_stmts(work: &mut Vec<Work>, ids: &[StmtId], depth: usize) -> Result<(), Memory>
    ensures { OnOk result (work.new.items ≡ work.old.items ++ map (at_depth depth) (stmt_ids ids.now)) }
{
    'ids: for id in ids {
        work.push(Work {
            part: Part::Stmt(*id),
            depth,
        })?;
    }
    Ok(())
}

fn push_funs(work: &mut Vec<Work>, ids: &[FunId], depth: usize) -> Result<(), Memory>
    ensures { OnOk result (work.new.items ≡ work.old.items ++ map (at_depth depth) (fun_ids ids.now)) }
{
    'ids: for id in ids {
        work.push(Work {
            part: Part::Fun(*id),
            depth,
        })?;
    }
    Ok(())
}

fn push_values(work: &mut Vec<Work>, list: &[(Text, ExprId)], depth: usize) -> Result<(), Memory>
    ensures { OnOk result (work.new.items ≡ work.old.items ++ map (at_depth depth) (value_ids list.now)) }
{
    'list: for (_, id) in list {
        work.push(Work {
            part: Part::Expr(*id),
            depth,
        })?;
    }
    Ok(())
}

fn push_option(work: &mut Vec<Work>, id: Option<ExprId>, depth: usize) -> Result<(), Memory>
    ensures { OnOk result (work.new.items ≡ work.old.items ++ map (at_depth depth) (option_ids id)) }
{
    match id {
        Some(id) => push_exprs(work, &[id], depth),
        None => Ok(()),
    }
}

fn push_decls(work: &mut Vec<Work>, list: &[Decl], depth: usize) -> Result<(), Memory>
    ensures { OnOk result (work.new.items ≡ work.old.items ++ map (at_depth depth) (decl_ids list.now)) }
{
    'list: for decl in list {
        push_option(work, decl.init, depth)?;
    }
    Ok(())
}

fn push_tests(work: &mut Vec<Work>, list: &[Clause], depth: usize) -> Result<(), Memory>
    ensures { OnOk result (work.new.items ≡ work.old.items ++ map (at_depth depth) (test_ids list.now)) }
{
    'list: for clause in list {
        push_option(work, clause.test, depth)?;
    }
    Ok(())
}

fn push_bodies(work: &mut Vec<Work>, list: &[Clause], depth: usize) -> Result<(), Memory>
    ensures { OnOk result (work.new.items ≡ work.old.items ++ map (at_depth depth) (body_ids list.now)) }
{
    'list: for clause in list {
        push_stmts(work, &clause.body, depth)?;
    }
    Ok(())
}

fn push_first(work: &mut Vec<Work>, first: &ForInit, depth: usize) -> Result<(), Memory>
    ensures { OnOk result (work.new.items ≡ work.old.items ++ map (at_depth depth) (init_parts first.now)) }
{
    match first {
        ForInit::Var(decls) => push_decls(work, decls, depth),
        ForInit::List(ids) => push_exprs(work, ids, depth),
    }
}

/// Whether A09 allows a call of the expression.
fn is_allowed_callee(tree: &Tree, id: ExprId) -> bool
    requires { IsExpr (trees tree.now) id }
    ensures { result ≡ is_allowed_callee (expr_at (trees tree.now) id) }
{
    match tree.expr(id) {
        Expr::Dot(e, name) => is_name(tree, *e, b"ADSAFE") && is_callable(name),
        _ => false,
    }
}

/// Whether the expression is the string.
fn is_text(tree: &Tree, id: ExprId, word: &[u8]) -> bool
    requires { IsExpr (trees tree.now) id }
    ensures { result ≡ is_text word.now (expr_at (trees tree.now) id) }
{
    match tree.expr(id) {
        Expr::Str(text) => is_word(text, word),
        _ => false,
    }
}

/// Whether the statement is `"use strict";`.
fn is_directive(tree: &Tree, id: StmtId) -> bool
    requires { IsStmt (trees tree.now) id }
    ensures { result ≡ is_directive (stmt_at (trees tree.now) id) }
{
    match tree.stmt(id) {
        Stmt::Expr(e) => is_text(tree, *e, b"use strict"),
        _ => false,
    }
}

/// Puts the parts of an expression on the stack.
pub fn push_expr_parts(
    work: &mut Vec<Work>,
    tree: &Tree,
    node: &Expr,
    depth: usize,
) -> Result<(), Memory>
    requires { AreExprParts (trees tree.now) node.now }
    ensures { OnOk result (work.new.items
        ≡ work.old.items ++ map (at_depth depth) (expr_work (trees tree.now) node.now)) }
{
    match node {
        Expr::Array(ids) => push_exprs(work, ids, depth),
        Expr::Object(list) => push_values(work, list, depth),
        Expr::Function(id) => push_funs(work, &[*id], depth),
        Expr::Call(e, args) => {
            if !is_allowed_callee(tree, *e) {
                push_exprs(work, &[*e], depth)?;
            }
            push_exprs(work, args, depth)
        }
        Expr::New(e, args) => {
            push_exprs(work, &[*e], depth)?;
            push_exprs(work, args, depth)
        }
        Expr::Dot(e, _) | Expr::Step(_, e) | Expr::Unary(_, e) => push_exprs(work, &[*e], depth),
        Expr::Sub(a, b)
        | Expr::Binary(_, a, b)
        | Expr::And(a, b)
        | Expr::Or(a, b)
        | Expr::Assign(_, a, b)
        | Expr::Comma(a, b) => push_exprs(work, &[*a, *b], depth),
        Expr::Cond(a, b, c) => push_exprs(work, &[*a, *b, *c], depth),
        _ => Ok(()),
    }
}

/// Puts the parts of a statement that stand outside what it opens on the stack.
pub fn push_outer(work: &mut Vec<Work>, node: &Stmt, depth: usize) -> Result<(), Memory>
    ensures { OnOk result (work.new.items ≡ work.old.items ++ map (at_depth depth) (outer_work node.now)) }
{
    match node {
        Stmt::Var(decls) => push_decls(work, decls, depth),
        Stmt::Expr(e) | Stmt::While(e, _) | Stmt::DoWhile(e, _) | Stmt::ForIn(_, _, e, _) => {
            push_exprs(work, &[*e], depth)
        }
        Stmt::If(e, a, b) => {
            push_exprs(work, &[*e], depth)?;
            push_stmts(work, a, depth)?;
            push_stmts(work, b, depth)
        }
        Stmt::For(first, test, next, _) => {
            push_first(work, first, depth)?;
            push_option(work, *test, depth)?;
            push_exprs(work, next, depth)
        }
        Stmt::Return(e) => push_option(work, *e, depth),
        Stmt::Throw(e) => push_exprs(work, &[*e], depth),
        Stmt::With(e, body) => {
            push_exprs(work, &[*e], depth)?;
            push_stmts(work, body, depth)
        }
        Stmt::Switch(e, clauses) => {
            push_exprs(work, &[*e], depth)?;
            push_tests(work, clauses, depth)
        }
        Stmt::Try(body, _, last) => {
            push_stmts(work, body, depth)?;
            match last {
                Some(block) => push_stmts(work, block, depth),
                None => Ok(()),
            }
        }
        Stmt::Label(_, s) => push_stmts(work, &[*s], depth),
        _ => Ok(()),
    }
}

/// Puts the parts of a statement that stand inside what it opens on the stack.
pub fn push_inner(work: &mut Vec<Work>, node: &Stmt, depth: usize) -> Result<(), Memory>
    ensures { OnOk result (work.new.items ≡ work.old.items ++ map (at_depth depth) (inner_work node.now)) }
{
    match node {
        Stmt::While(_, body)
        | Stmt::DoWhile(_, body)
        | Stmt::For(_, _, _, body)
        | Stmt::ForIn(_, _, _, body) => push_stmts(work, body, depth),
        Stmt::Switch(_, clauses) => push_bodies(work, clauses, depth),
        Stmt::Try(_, Some((_, block)), _) => push_stmts(work, block, depth),
        _ => Ok(()),
    }
}

/// The statements of a function without its directive.
fn body_work<'a>(tree: &Tree, body: &'a [StmtId]) -> &'a [StmtId]
    requires { All (IsStmt (trees tree.now)) body.now }
    ensures { result.now ≡ body_work (trees tree.now) body.now }
{
    match body.first() {
        Some(id) => {
            if is_directive(tree, *id) {
                &body[1..]
            } else {
                body
            }
        }
        None => body,
    }
}

/// Puts the parts of a function on the stack.
pub fn push_fun_parts(
    work: &mut Vec<Work>,
    tree: &Tree,
    node: &Fun,
    depth: usize,
) -> Result<(), Memory>
    requires { AreFunParts (trees tree.now) node.now }
    ensures { OnOk result (work.new.items
        ≡ work.old.items ++ map (at_depth depth) (fun_work (trees tree.now) node.now)) }
{
    push_funs(work, &node.funs, depth)?;
    push_stmts(work, body_work(tree, &node.body), depth)
}
