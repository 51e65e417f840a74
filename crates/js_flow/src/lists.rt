//! The lists of parts of nodes, element by element.
ghost use Rattle.std.specs.Prelude.{◌≡◌, ℕ, ◌+◌, ◌<◌, ◌^◌, List, [], ◌∷◌, IfSome, IsFalse, IsTrue, MatchOption, drop, length, option_copied, slice_get};
ghost use Rattle.js_tree.specs.Trees.{trees};
ghost use Rattle.js_tree.specs.Lists.{stmt_list};
ghost use Rattle.js_tree.specs.Plain as plain;
ghost use Rattle.js_tree.specs.Forest.{AreBlock, AreCatch, AreClauseParts, AreInit, Forest, IsExpr, IsFun, IsOptional, IsStmt, block_at, catch_at, expr_at, fun_at, init_at, optional_at, stmt_at, stmts_at};
ghost use Rattle.widget_meaning.specs.Calls.{without_directive};
ghost use Rattle.widget_meaning.specs.Statements.{bodies, from_default};
ghost use Rattle.js_flow.specs.Parts.{HasExpr, HasListed, HasStmt, IsBlock, arguments_of, block_list, body_of, catch_body, catch_of, clauses_of, decls_of, elements_of, else_of, finally_body, finally_of, first_of, init_decls, init_exprs, last_of, loop_body, properties_of, then_of, try_of};

use crate::job::{Block, Listed};
use code_units::{Text, is_word};
use js_tree::{Clause, Decl, Expr, ExprId, ForInit, FunId, Stmt, StmtId, Tree, lists_agree};

// The expression at a place of a list.
fn expr_id(list: &Vec<ExprId>, n: usize) -> Option<ExprId>
    ensures value { result ≡ slice_get list.now.items n }
    ensures room { IfSome result (λ e. n + 1 < 2 ^ 64) }
{
    if n < list.len() { Some(list[n]) } else { None }
}

// The statement at a place of a list.
fn stmt_id(list: &Vec<StmtId>, n: usize) -> Option<StmtId>
    ensures value { result ≡ slice_get list.now.items n }
    ensures room { IfSome result (λ i. n + 1 < 2 ^ 64) }
{
    if n < list.len() { Some(list[n]) } else { None }
}

/// The element of an array literal at a place, none from its end on.
pub fn element_at(tree: &Tree, array: ExprId, n: usize) -> Option<ExprId>
    requires { IsExpr (trees tree.now) array }
    ensures { let f = trees tree.now in HasExpr f (elements_of (expr_at f array)) n result }
{
    lists_agree();
    match tree.expr(array) {
        Expr::Array(list) => expr_id(list, n),
        _ => None,
    }
}

/// The argument of a call at a place, none from its end on.
pub fn argument_at(tree: &Tree, call: ExprId, n: usize) -> Option<ExprId>
    requires { IsExpr (trees tree.now) call }
    ensures { let f = trees tree.now in HasExpr f (arguments_of (expr_at f call)) n result }
{
    lists_agree();
    match tree.expr(call) {
        Expr::Call(_, list) => expr_id(list, n),
        _ => None,
    }
}

/// The key and the value of an object literal at a place, none from its end on.
pub fn property_at(tree: &Tree, object: ExprId, n: usize) -> Option<&(Text, ExprId)>
    requires { IsExpr (trees tree.now) object }
    ensures { let f = trees tree.now in let l = properties_of (expr_at f object) in
        MatchOption (option_copied result) (drop n l ≡ [])
        (λ q. IsExpr f q.1 × (n + 1 < 2 ^ 64) × (drop n l ≡ (q.0, expr_at f q.1) ∷ drop (n + 1) l)) }
{
    lists_agree();
    match tree.expr(object) {
        Expr::Object(list) => property_in(list, n),
        _ => None,
    }
}

fn property_in(list: &Vec<(Text, ExprId)>, n: usize) -> Option<&(Text, ExprId)>
    ensures value { option_copied result ≡ slice_get list.now.items n }
    ensures room { IfSome (option_copied result) (λ q. n + 1 < 2 ^ 64) }
{
    if n < list.len() { Some(&list[n]) } else { None }
}

/// The declaration of a `var`, also in a `for`, at a place, none from its end on.
pub fn declaration_at(tree: &Tree, id: StmtId, n: usize) -> Option<&Decl>
    requires { IsStmt (trees tree.now) id }
    ensures { let f = trees tree.now in let l = decls_of (stmt_at f id) in
        MatchOption (option_copied result) (drop n l ≡ [])
        (λ d. IsOptional f d.init × (n + 1 < 2 ^ 64) × (drop n l ≡ (d.name, optional_at f d.init) ∷ drop (n + 1) l)) }
{
    lists_agree();
    match tree.stmt(id) {
        Stmt::Var(list) => decl_in(list, n),
        Stmt::For(init, _, _, _) => init_decl(init, n),
        _ => None,
    }
}

// A declaration of the first part of a `for`.
fn init_decl(init: &ForInit, n: usize) -> Option<&Decl>
    ensures { (f : Forest) → AreInit f init.now → let l = init_decls (init_at f init.now) in
        MatchOption (option_copied result) (drop n l ≡ [])
        (λ d. IsOptional f d.init × (n + 1 < 2 ^ 64) × (drop n l ≡ (d.name, optional_at f d.init) ∷ drop (n + 1) l)) }
{
    lists_agree();
    match init {
        ForInit::Var(list) => decl_in(list, n),
        _ => None,
    }
}

// An expression of the first part of a `for`.
fn init_expr(init: &ForInit, n: usize) -> Option<ExprId>
    ensures { (f : Forest) → AreInit f init.now → HasExpr f (init_exprs (init_at f init.now)) n result }
{
    lists_agree();
    match init {
        ForInit::List(list) => expr_id(list, n),
        _ => None,
    }
}

fn decl_in(list: &Vec<Decl>, n: usize) -> Option<&Decl>
    ensures value { option_copied result ≡ slice_get list.now.items n }
    ensures room { IfSome (option_copied result) (λ d. n + 1 < 2 ^ 64) }
{
    if n < list.len() { Some(&list[n]) } else { None }
}

/// The expression of the first part of a `for` at a place, none from its end on.
pub fn first_at(tree: &Tree, id: StmtId, n: usize) -> Option<ExprId>
    requires { IsStmt (trees tree.now) id }
    ensures { let f = trees tree.now in HasExpr f (first_of (stmt_at f id)) n result }
{
    match tree.stmt(id) {
        Stmt::For(init, _, _, _) => init_expr(init, n),
        _ => None,
    }
}

/// The expression of the last part of a `for` at a place, none from its end on.
pub fn last_at(tree: &Tree, id: StmtId, n: usize) -> Option<ExprId>
    requires { IsStmt (trees tree.now) id }
    ensures { let f = trees tree.now in HasExpr f (last_of (stmt_at f id)) n result }
{
    lists_agree();
    match tree.stmt(id) {
        Stmt::For(_, _, list, _) => expr_id(list, n),
        _ => None,
    }
}

// The branches of an `if`.
fn then_at(tree: &Tree, id: StmtId, n: usize) -> Option<StmtId>
    requires { IsStmt (trees tree.now) id }
    ensures { let f = trees tree.now in HasStmt f (stmt_list (then_of (stmt_at f id))) n result }
{
    lists_agree();
    match tree.stmt(id) {
        Stmt::If(_, list, _) => stmt_id(list, n),
        _ => None,
    }
}

fn else_at(tree: &Tree, id: StmtId, n: usize) -> Option<StmtId>
    requires { IsStmt (trees tree.now) id }
    ensures { let f = trees tree.now in HasStmt f (stmt_list (else_of (stmt_at f id))) n result }
{
    lists_agree();
    match tree.stmt(id) {
        Stmt::If(_, _, list) => stmt_id(list, n),
        _ => None,
    }
}

// The body of a loop.
fn loop_at(tree: &Tree, id: StmtId, n: usize) -> Option<StmtId>
    requires { IsStmt (trees tree.now) id }
    ensures { let f = trees tree.now in HasStmt f (stmt_list (loop_body (stmt_at f id))) n result }
{
    lists_agree();
    match tree.stmt(id) {
        Stmt::While(_, list) => stmt_id(list, n),
        Stmt::DoWhile(_, list) => stmt_id(list, n),
        Stmt::For(_, _, _, list) => stmt_id(list, n),
        Stmt::ForIn(_, _, _, list) => stmt_id(list, n),
        _ => None,
    }
}

// The parts of a `try`.
fn try_at(tree: &Tree, id: StmtId, n: usize) -> Option<StmtId>
    requires { IsStmt (trees tree.now) id }
    ensures { let f = trees tree.now in HasStmt f (stmt_list (try_of (stmt_at f id))) n result }
{
    lists_agree();
    match tree.stmt(id) {
        Stmt::Try(list, _, _) => stmt_id(list, n),
        _ => None,
    }
}

fn catch_at(tree: &Tree, id: StmtId, n: usize) -> Option<StmtId>
    requires { IsStmt (trees tree.now) id }
    ensures { let f = trees tree.now in HasStmt f (stmt_list (catch_body (catch_of (stmt_at f id)))) n result }
{
    match tree.stmt(id) {
        Stmt::Try(_, caught, _) => caught_id(caught, n),
        _ => None,
    }
}

fn finally_at(tree: &Tree, id: StmtId, n: usize) -> Option<StmtId>
    requires { IsStmt (trees tree.now) id }
    ensures { let f = trees tree.now in HasStmt f (stmt_list (finally_body (finally_of (stmt_at f id)))) n result }
{
    match tree.stmt(id) {
        Stmt::Try(_, _, last) => last_id(last, n),
        _ => None,
    }
}

fn caught_id(caught: &Option<(Text, Vec<StmtId>)>, n: usize) -> Option<StmtId>
    ensures { (f : Forest) → AreCatch f caught.now
        → HasStmt f (stmt_list (catch_body (catch_at f caught.now))) n result }
{
    lists_agree();
    match caught {
        Some(part) => stmt_id(&part.1, n),
        None => None,
    }
}

fn last_id(last: &Option<Vec<StmtId>>, n: usize) -> Option<StmtId>
    ensures { (f : Forest) → AreBlock f last.now → HasStmt f (stmt_list (finally_body (block_at f last.now))) n result }
{
    lists_agree();
    match last {
        Some(list) => stmt_id(list, n),
        None => None,
    }
}

// The body of a function.
fn body_at(tree: &Tree, id: FunId, n: usize) -> Option<StmtId>
    requires { IsFun (trees tree.now) id }
    ensures { let f = trees tree.now in HasStmt f (stmt_list (body_of (fun_at f id))) n result }
{
    lists_agree();
    stmt_id(&tree.fun(id).body, n)
}

/// Whether the body of a function begins with its directive, which is no statement of it then (`"use strict";`).
#[inline(always)]
pub fn has_directive(tree: &Tree, id: FunId) -> bool
    requires { IsFun (trees tree.now) id }
    ensures yes { IsTrue result
        → let l = stmt_list (body_of (fun_at (trees tree.now) id)) in without_directive l ≡ drop 1 l }
    ensures no { IsFalse result → let l = stmt_list (body_of (fun_at (trees tree.now) id)) in without_directive l ≡ l }
{
    match body_at(tree, id, 0) {
        None => false,
        Some(first) => is_directive(tree, first),
    }
}

// Whether a statement is the directive.
fn is_directive(tree: &Tree, id: StmtId) -> bool
    requires { IsStmt (trees tree.now) id }
    ensures yes { IsTrue result → (l : List plain.Stmt) → without_directive (stmt_at (trees tree.now) id ∷ l) ≡ l }
    ensures no { IsFalse result → (l : List plain.Stmt)
        → without_directive (stmt_at (trees tree.now) id ∷ l) ≡ stmt_at (trees tree.now) id ∷ l }
{
    match tree.stmt(id) {
        Stmt::Expr(e) => is_strict(tree, *e),
        _ => false,
    }
}

// Whether an expression is the text of the directive.
fn is_strict(tree: &Tree, e: ExprId) -> bool
    requires { IsExpr (trees tree.now) e }
    ensures yes { IsTrue result → (at : ℕ) (names : List ℕ) (l : List plain.Stmt)
        → without_directive (plain.StmtAt at names (plain.Only (expr_at (trees tree.now) e)) ∷ l) ≡ l }
    ensures no { IsFalse result → (at : ℕ) (names : List ℕ) (l : List plain.Stmt)
        → without_directive (plain.StmtAt at names (plain.Only (expr_at (trees tree.now) e)) ∷ l)
        ≡ plain.StmtAt at names (plain.Only (expr_at (trees tree.now) e)) ∷ l }
{
    match tree.expr(e) {
        Expr::Str(t) => is_word(t, b"use strict"),
        _ => false,
    }
}

/// The clause of a `switch` at a place, none from its end on.
pub fn clause_at(tree: &Tree, id: StmtId, n: usize) -> Option<&Clause>
    requires { IsStmt (trees tree.now) id }
    ensures { let f = trees tree.now in let l = clauses_of (stmt_at f id) in
        MatchOption (option_copied result) (drop n l ≡ [])
        (λ c. AreClauseParts f c × (n + 1 < 2 ^ 64)
        × (drop n l ≡ (optional_at f c.test, stmt_list (stmts_at f c.body.items)) ∷ drop (n + 1) l)) }
{
    lists_agree();
    match tree.stmt(id) {
        Stmt::Switch(_, list) => clause_in(list, n),
        _ => None,
    }
}

fn clause_in(list: &Vec<Clause>, n: usize) -> Option<&Clause>
    ensures value { option_copied result ≡ slice_get list.now.items n }
    ensures room { IfSome (option_copied result) (λ c. n + 1 < 2 ^ 64) }
{
    if n < list.len() { Some(&list[n]) } else { None }
}

/// The number of the clause `default` of a `switch`, or how many clauses there are.
pub fn default_at(tree: &Tree, id: StmtId) -> usize
    requires { IsStmt (trees tree.now) id }
    ensures { let l = clauses_of (stmt_at (trees tree.now) id) in from_default l l ≡ bodies (drop result l) }
{
    let mut n = 0;
    while let Some(clause) = clause_at(tree, id, n) {
        if clause.test.is_none() {
            return n;
        }
        n += 1;
    }
    n
}

fn count(list: &Vec<StmtId>) -> usize
    ensures { result ≡ length list.now.items }
{
    list.len()
}

// A statement of the clauses of a `switch` from one on, each falling through to the next.
fn clauses_at(tree: &Tree, id: StmtId, from: usize, at: usize) -> Option<Listed>
    requires { IsStmt (trees tree.now) id }
    ensures { HasListed (trees tree.now) (Block.Clauses id from) at result }
{
    lists_agree();
    let mut n = from;
    let mut k = at;
    while let Some(clause) = clause_at(tree, id, n) {
        let len = count(&clause.body);
        if let Some(i) = stmt_id(&clause.body, k) {
            return Some(Listed {
                id: i,
                block: Block::Clauses(id, n),
                next: k + 1,
            });
        }
        k -= len;
        n += 1;
    }
    None
}

// The same statement of a list of this block.
fn listed(found: Option<StmtId>, block: Block, n: usize) -> Option<Listed>
    requires { IfSome found (λ i. n + 1 < 2 ^ 64) }
    ensures { (f : Forest) → IsBlock f block → HasStmt f (block_list f block) n found → HasListed f block n result }
{
    match found {
        None => None,
        Some(id) => Some(Listed {
            id,
            block,
            next: n + 1,
        }),
    }
}

/// The statement of a block at a place, none from its end on. The directive of a body is left out.
pub fn statement_at(tree: &Tree, block: Block, n: usize) -> Option<Listed>
    requires { IsBlock (trees tree.now) block }
    ensures { HasListed (trees tree.now) block n result }
{
    match block {
        Block::Then(id) => listed(then_at(tree, id, n), block, n),
        Block::Else(id) => listed(else_at(tree, id, n), block, n),
        Block::Loop(id) => listed(loop_at(tree, id, n), block, n),
        Block::Try(id) => listed(try_at(tree, id, n), block, n),
        Block::Catch(id) => listed(catch_at(tree, id, n), block, n),
        Block::Finally(id) => listed(finally_at(tree, id, n), block, n),
        Block::Clauses(id, from) => clauses_at(tree, id, from, n),
        Block::Whole(id) => listed(body_at(tree, id, n), block, n),
        Block::Body(id) => first_at_body(tree, id, n),
    }
}

// A statement of the body of a function, behind its directive.
fn first_at_body(tree: &Tree, id: FunId, n: usize) -> Option<Listed>
    requires { IsFun (trees tree.now) id }
    ensures { HasListed (trees tree.now) (Block.Body id) n result }
{
    if has_directive(tree, id) {
        behind_directive(tree, id, n)
    } else {
        listed(body_at(tree, id, n), Block::Whole(id), n)
    }
}

// The statement of a body one further on.
fn behind_directive(tree: &Tree, id: FunId, n: usize) -> Option<Listed>
    requires { IsFun (trees tree.now) id }
    ensures { let f = trees tree.now in let l = drop n (drop 1 (stmt_list (body_of (fun_at f id)))) in
        MatchOption result (l ≡ [])
        (λ r. IsStmt f r.id × IsBlock f r.block × (l ≡ stmt_at f r.id ∷ drop r.next (block_list f r.block))) }
{
    match body_at(tree, id, n) {
        None => None,
        Some(_) => listed(body_at(tree, id, n + 1), Block::Whole(id), n + 1),
    }
}
