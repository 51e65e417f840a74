//! A piece of work taken apart, by the rows of the grammar.
ghost use Rattle.std.specs.Prelude.{false, ◌+◌, ◌≡◌, ℕ, List, OnOk, All, Option, [], ◌∷◌, codes, map};
ghost use Rattle.js_tree.specs.Forest.{Forest, IsExpr, IsStmt, IsFun, IsOptional, expr_at, optional_at, plain_stmt, plain_fun, exprs_at, stmts_at, funs_at, properties_at, decls_at, clauses_at, init_at, catch_at, block_at, AreFunParts, AreDecls, AreInit, AreClauseParts, AreCatch, AreBlock};
ghost use Rattle.js_tree.specs.Trees.{trees};
ghost use Rattle.js_pieces.specs.Tidy.{enclosed, braced, flat, mark, name, is_if, label_tokens, var_tokens, optional_tokens, value_tokens, test_tokens, expr_tokens, exprs_tokens, properties_tokens, decls_tokens, stmts_tokens, funs_tokens, clauses_tokens, fun_tokens, init_tokens, catch_tokens, last_tokens, else_tokens};
ghost use Rattle.js_pieces.specs.Costs.{enclosed_cost, label_cost, names_cost, expr_cost, exprs_cost, properties_cost, decls_cost, value_cost, optional_cost, init_cost, stmts_cost, catch_cost, last_cost, clauses_cost, test_cost, fun_cost, funs_cost};
ghost use Rattle.js_pieces.specs.Todo.{IsToken, inner_cost, work_tokens, IsWork, Pushes, between};

use crate::expressions::expand_expr;
use crate::levels::{ASSIGNMENT, WHOLE};
use crate::statements::expand_stmt;
use crate::work::{Work, push_all, push_comma, push_inside};
use code_units::{Memory, Text};
use js_tree::{Clause, Decl, ExprId, ForInit, Fun, FunId, Stmt, StmtId, Tree};

#[tactic(auto, unfolding(crate::specs::Tidy::fun_tokens, crate::specs::Costs::fun_cost))]
fn expand_fun<'t>(node: &'t Fun, work: &mut Vec<Work<'t>>) -> Result<(), Memory>
    ensures { (f : Forest) (names : List ℕ) → AreFunParts f node.now →
        OnOk result (Pushes f (fun_tokens (plain_fun f node.now names)) (fun_cost (plain_fun f node.now names))
        work.old.items work.new.items) }
{
    push_all(
        work,
        &[
            Work::Mark("function"),
            Work::Label(&node.name),
            Work::Mark("("),
            Work::Names(&node.params, false),
            Work::Mark(")"),
            Work::Mark("{"),
            Work::Funs(&node.funs),
            Work::Stmts(&node.body),
            Work::Mark("}"),
        ],
    )
}

fn expand_head(id: ExprId, work: &mut Vec<Work>) -> Result<(), Memory>
    ensures { (f : Forest) → IsExpr f id →
        OnOk result (Pushes f (enclosed (expr_tokens false WHOLE (expr_at f id)))
        (enclosed_cost (expr_cost (expr_at f id))) work.old.items work.new.items) }
{
    push_inside("(", Work::Expr(id, WHOLE, false), ")", work)
}

fn expand_block<'t>(ids: &'t [StmtId], work: &mut Vec<Work<'t>>) -> Result<(), Memory>
    ensures { (f : Forest) → All (IsStmt f) ids.now →
        OnOk result (Pushes f (braced (stmts_tokens (stmts_at f ids.now)))
        (enclosed_cost (stmts_cost (stmts_at f ids.now))) work.old.items work.new.items) }
{
    push_inside("{", Work::Stmts(ids), "}", work)
}

fn expand_exprs<'t>(ids: &'t [ExprId], begun: bool, work: &mut Vec<Work<'t>>) -> Result<(), Memory>
    ensures { (f : Forest) → All (IsExpr f) ids.now →
        OnOk result (Pushes f (between begun (exprs_tokens (exprs_at f ids.now))) (exprs_cost (exprs_at f ids.now))
        work.old.items work.new.items) }
{
    match ids {
        [] => Ok(()),
        [id, rest @ ..] => {
            push_all(
                work,
                &[Work::Expr(*id, ASSIGNMENT, false), Work::Exprs(rest, true)],
            )?;
            push_comma(begun, work)
        }
    }
}

fn expand_properties<'t>(
    properties: &'t [(Text, ExprId)],
    begun: bool,
    work: &mut Vec<Work<'t>>,
) -> Result<(), Memory>
    ensures { (f : Forest) → All (λ p. IsExpr f p.1) properties.now →
        OnOk result (Pushes f (between begun (properties_tokens (properties_at f properties.now)))
        (properties_cost (properties_at f properties.now)) work.old.items work.new.items) }
{
    match properties {
        [] => Ok(()),
        [property, rest @ ..] => {
            push_all(
                work,
                &[
                    Work::Quoted(&property.0),
                    Work::Mark(":"),
                    Work::Expr(property.1, ASSIGNMENT, false),
                    Work::Properties(rest, true),
                ],
            )?;
            push_comma(begun, work)
        }
    }
}

fn expand_decls<'t>(decls: &'t [Decl], begun: bool, work: &mut Vec<Work<'t>>) -> Result<(), Memory>
    ensures { (f : Forest) → AreDecls f decls.now →
        OnOk result (Pushes f (between begun (decls_tokens (decls_at f decls.now)))
        (decls_cost (decls_at f decls.now)) work.old.items work.new.items) }
{
    match decls {
        [] => Ok(()),
        [decl, rest @ ..] => {
            push_all(
                work,
                &[
                    Work::Name(&decl.name),
                    Work::Value(decl.init),
                    Work::Decls(rest, true),
                ],
            )?;
            push_comma(begun, work)
        }
    }
}

fn expand_names<'t>(texts: &'t [Text], begun: bool, work: &mut Vec<Work<'t>>) -> Result<(), Memory>
    ensures { (f : Forest) → OnOk result (Pushes f (between begun (map name texts.now)) (names_cost texts.now)
        work.old.items work.new.items) }
{
    match texts {
        [] => Ok(()),
        [text, rest @ ..] => {
            push_all(work, &[Work::Name(text), Work::Names(rest, true)])?;
            push_comma(begun, work)
        }
    }
}

fn expand_stmts<'t>(ids: &'t [StmtId], work: &mut Vec<Work<'t>>) -> Result<(), Memory>
    ensures { (f : Forest) → All (IsStmt f) ids.now →
        OnOk result (Pushes f (stmts_tokens (stmts_at f ids.now)) (stmts_cost (stmts_at f ids.now)) work.old.items
        work.new.items) }
{
    match ids {
        [] => Ok(()),
        [id, rest @ ..] => push_all(work, &[Work::Stmt(*id), Work::Stmts(rest)]),
    }
}

fn expand_funs<'t>(ids: &'t [FunId], work: &mut Vec<Work<'t>>) -> Result<(), Memory>
    ensures { (f : Forest) → All (IsFun f) ids.now →
        OnOk result (Pushes f (funs_tokens (funs_at f ids.now)) (funs_cost (funs_at f ids.now)) work.old.items
        work.new.items) }
{
    match ids {
        [] => Ok(()),
        [id, rest @ ..] => push_all(work, &[Work::Fun(*id), Work::Funs(rest)]),
    }
}

fn expand_clauses<'t>(clauses: &'t [Clause], work: &mut Vec<Work<'t>>) -> Result<(), Memory>
    ensures { (f : Forest) → All (AreClauseParts f) clauses.now →
        OnOk result (Pushes f (clauses_tokens (clauses_at f clauses.now)) (clauses_cost (clauses_at f clauses.now))
        work.old.items work.new.items) }
{
    match clauses {
        [] => Ok(()),
        [clause, rest @ ..] => push_all(
            work,
            &[
                Work::Test(clause.test),
                Work::Mark(":"),
                Work::Stmts(&clause.body),
                Work::Clauses(rest),
            ],
        ),
    }
}

fn is_if(node: &Stmt) -> bool
    ensures { (f : Forest) (at : ℕ) (names : List ℕ) → result ≡ is_if (plain_stmt f node.now at names) }
{
    matches!(node, Stmt::If(_, _, _))
}

fn push_else<'t>(ids: &'t [StmtId], work: &mut Vec<Work<'t>>) -> Result<(), Memory>
    ensures { (f : Forest) → All (IsStmt f) ids.now →
        OnOk result (Pushes f (flat (mark (codes "else") ∷ braced (stmts_tokens (stmts_at f ids.now)) ∷ []))
        (8 + stmts_cost (stmts_at f ids.now)) work.old.items work.new.items) }
{
    push_all(work, &[Work::Mark("else"), Work::Block(ids)])
}

fn expand_else<'t>(tree: &Tree, ids: &'t [StmtId], work: &mut Vec<Work<'t>>) -> Result<(), Memory>
    requires { All (IsStmt (trees tree.now)) ids.now }
    ensures { OnOk result (Pushes (trees tree.now)
        (else_tokens (stmts_at (trees tree.now) ids.now) (stmts_tokens (stmts_at (trees tree.now) ids.now)))
        (8 + stmts_cost (stmts_at (trees tree.now) ids.now)) work.old.items work.new.items) }
{
    match ids {
        [] => Ok(()),
        [id] => {
            if is_if(tree.stmt(*id)) {
                return push_all(work, &[Work::Mark("else"), Work::Stmt(*id)]);
            }
            push_else(ids, work)
        }
        [_, _, ..] => push_else(ids, work),
    }
}

#[tactic(auto, unfolding(crate::specs::Tidy::init_tokens, crate::specs::Costs::init_cost))]
fn expand_init<'t>(init: &'t ForInit, work: &mut Vec<Work<'t>>) -> Result<(), Memory>
    ensures { (f : Forest) → AreInit f init.now →
        OnOk result (Pushes f (init_tokens (init_at f init.now)) (init_cost (init_at f init.now)) work.old.items
        work.new.items) }
{
    match init {
        ForInit::Var(ds) => push_all(work, &[Work::Mark("var"), Work::Decls(ds, false)]),
        ForInit::List(ids) => push_all(work, &[Work::Exprs(ids, false)]),
    }
}

#[tactic(auto, unfolding(crate::specs::Tidy::optional_tokens, crate::specs::Costs::optional_cost))]
fn expand_optional(e: Option<ExprId>, work: &mut Vec<Work>) -> Result<(), Memory>
    ensures { (f : Forest) → IsOptional f e →
        OnOk result (Pushes f (optional_tokens (optional_at f e)) (optional_cost (optional_at f e)) work.old.items
        work.new.items) }
{
    match e {
        None => Ok(()),
        Some(id) => push_all(work, &[Work::Expr(id, WHOLE, false)]),
    }
}

#[tactic(auto, unfolding(crate::specs::Tidy::value_tokens, crate::specs::Costs::value_cost))]
fn expand_value(e: Option<ExprId>, work: &mut Vec<Work>) -> Result<(), Memory>
    ensures { (f : Forest) → IsOptional f e →
        OnOk result (Pushes f (value_tokens (optional_at f e)) (value_cost (optional_at f e)) work.old.items
        work.new.items) }
{
    match e {
        None => Ok(()),
        Some(id) => push_all(work, &[Work::Mark("="), Work::Expr(id, ASSIGNMENT, false)]),
    }
}

#[tactic(auto, unfolding(crate::specs::Tidy::test_tokens, crate::specs::Costs::test_cost))]
fn expand_test(e: Option<ExprId>, work: &mut Vec<Work>) -> Result<(), Memory>
    ensures { (f : Forest) → IsOptional f e →
        OnOk result (Pushes f (test_tokens (optional_at f e)) (test_cost (optional_at f e)) work.old.items
        work.new.items) }
{
    match e {
        None => push_all(work, &[Work::Mark("default")]),
        Some(id) => push_all(work, &[Work::Mark("case"), Work::Expr(id, WHOLE, false)]),
    }
}

fn expand_declared(declared: bool, work: &mut Vec<Work>) -> Result<(), Memory>
    ensures { (f : Forest) → OnOk result (Pushes f (var_tokens declared) 2 work.old.items work.new.items) }
{
    if declared {
        return push_all(work, &[Work::Mark("var")]);
    }
    Ok(())
}

fn expand_label<'t>(label: &'t Option<Text>, work: &mut Vec<Work<'t>>) -> Result<(), Memory>
    ensures { (f : Forest) → OnOk result (Pushes f (label_tokens label.now) (label_cost label.now) work.old.items
        work.new.items) }
{
    match label {
        None => Ok(()),
        Some(text) => push_all(work, &[Work::Name(text)]),
    }
}

#[tactic(auto, unfolding(crate::specs::Tidy::catch_tokens, crate::specs::Costs::catch_cost))]
fn expand_catch<'t>(
    caught: &'t Option<(Text, Vec<StmtId>)>,
    work: &mut Vec<Work<'t>>,
) -> Result<(), Memory>
    ensures { (f : Forest) → AreCatch f caught.now →
        OnOk result (Pushes f (catch_tokens (catch_at f caught.now)) (catch_cost (catch_at f caught.now))
        work.old.items work.new.items) }
{
    match caught {
        None => Ok(()),
        Some(part) => push_all(
            work,
            &[
                Work::Mark("catch"),
                Work::Mark("("),
                Work::Name(&part.0),
                Work::Mark(")"),
                Work::Block(&part.1),
            ],
        ),
    }
}

#[tactic(auto, unfolding(crate::specs::Tidy::last_tokens, crate::specs::Costs::last_cost))]
fn expand_last<'t>(last: &'t Option<Vec<StmtId>>, work: &mut Vec<Work<'t>>) -> Result<(), Memory>
    ensures { (f : Forest) → AreBlock f last.now →
        OnOk result (Pushes f (last_tokens (block_at f last.now)) (last_cost (block_at f last.now)) work.old.items
        work.new.items) }
{
    match last {
        None => Ok(()),
        Some(body) => push_all(work, &[Work::Mark("finally"), Work::Block(body)]),
    }
}

/// Takes a piece that is no token apart: its pieces stand on the stack in its place.
pub fn expand<'t>(tree: &'t Tree, piece: Work<'t>, work: &mut Vec<Work<'t>>) -> Result<(), Memory>
    requires parts { IsWork (trees tree.now) piece }
    requires whole { ¬ IsToken piece }
    ensures { OnOk result (Pushes (trees tree.now) (work_tokens (trees tree.now) piece.entry)
        (inner_cost (trees tree.now) piece.entry) work.old.items work.new.items) }
{
    match piece {
        Work::Mark(_) | Work::Name(_) | Work::Quoted(_) => unreachable!(),
        Work::Expr(id, level, first) => expand_expr(tree, id, level, first, work),
        Work::Head(id) => expand_head(id, work),
        Work::Block(ids) => expand_block(ids, work),
        Work::Stmt(id) => expand_stmt(tree.stmt(id), work),
        Work::Fun(id) => expand_fun(tree.fun(id), work),
        Work::Exprs(ids, begun) => expand_exprs(ids, begun, work),
        Work::Properties(ps, begun) => expand_properties(ps, begun, work),
        Work::Decls(ds, begun) => expand_decls(ds, begun, work),
        Work::Names(texts, begun) => expand_names(texts, begun, work),
        Work::Stmts(ids) => expand_stmts(ids, work),
        Work::Funs(ids) => expand_funs(ids, work),
        Work::Clauses(cs) => expand_clauses(cs, work),
        Work::Else(ids) => expand_else(tree, ids, work),
        Work::Init(init) => expand_init(init, work),
        Work::Optional(e) => expand_optional(e, work),
        Work::Value(e) => expand_value(e, work),
        Work::Test(e) => expand_test(e, work),
        Work::Declared(declared) => expand_declared(declared, work),
        Work::Label(label) => expand_label(label, work),
        Work::Catch(caught) => expand_catch(caught, work),
        Work::Last(last) => expand_last(last, work),
    }
}
