//! Statements, carried out in place.
ghost use Rattle.std.specs.Prelude.{◌≡◌, ℕ, ◌<◌, ◌+◌, ◌^◌, IfOk, List, MatchOption, drop, false, true, [], ◌∷◌, ◌++◌};
ghost use Rattle.js_tree.specs.Trees.{trees};
ghost use Rattle.js_tree.specs.Forest.{AreStmtParts, Forest, IsExpr, IsStmt, expr_at, init_at, plain_stmt, plain_stmt_form, stmt_at};
ghost use Rattle.js_tree.specs.Plain.{stmt_names, stmt_place};
ghost use Rattle.store_cells.specs.Cells.{PlainCell};
ghost use Rattle.widget_meaning.specs.OwnState.{State};
ghost use Rattle.widget_meaning.specs.Values as meaning;
ghost use Rattle.widget_meaning.specs.Plan as plan;
ghost use Rattle.widget_meaning.specs.Plan.{Do, Eval, Ret, after, and_then};
ghost use Rattle.widget_meaning.specs.Meaning.{body};
ghost use Rattle.widget_meaning.specs.Statements as statements;
ghost use Rattle.js_image.specs.Image.{Rest, image, seen};
ghost use Rattle.js_image.specs.Held.{IsConfined, IsFine, Kept};
ghost use Rattle.js_names.specs.Code.{trees_of};
ghost use Rattle.js_flow.specs.Fine.{FineCompletion, IsExprAt, IsStmtAt};
ghost use Rattle.js_flow.specs.Frames.{taken};
ghost use Rattle.js_flow.specs.Parts.{decls_of, forest_at};
ghost use Rattle.js_flow.specs.Statements.{declared};
ghost use Rattle.js_flow.specs.Views.{completion_of, job_of, place_of};
ghost use Rattle.js_direct.specs.Hands.{HandsOn};
ghost use Rattle.js_direct.specs.Comes.{Comes, IsEnd, IsReady, ended_as};
ghost use Rattle.js_direct.specs.Towards.{IsDecls, IsExprs, frame_after, part_of};

use crate::blocks::block_on;
use crate::catching::try_on;
use crate::choosing::switch_on;
use crate::forms::{condition_on, eval_on, operand_on};
use crate::looping::{again_on, expressions_on, passes_on, wait_again};
use crate::names::for_in_on;
use crate::run::{Ended, Here, Run, clear, leave_job, take_value, wait};
use code_units::Memory;
use js_flow::{Block, Frame, Job, Place, StatementFrame, declaration_at};
use js_image::assign;
use js_tree::{ExprId, ForInit, Stmt, StmtId, Tree};
use js_values::is_true;
use object_store::{Store, Value};

/// What a statement does with the value of its expression.
#[derive(Clone, Copy, PartialEq, Eq, Drop)]
pub(crate) enum After {
    Nothing,
    Return,
    Throw,
}

/// The first part of a `for`, or its last.
#[derive(Clone, Copy, PartialEq, Eq, Drop)]
pub(crate) enum Part {
    First,
    Last,
}

/// A statement, before its unit.
#[cycle(direct)]
pub(crate) fn exec_on(
    here: &Here,
    run: &mut Run,
    store: &mut Store,
    id: StmtId,
    deep: u32,
    out: &mut Value,
) -> Result<Ended, Memory>
    requires ready { IsReady (trees_of here.now.site.now.codes.now.items) here.now.site.now.widget store.old run.old }
    requires held { IsStmtAt (trees_of here.now.site.now.codes.now.items) here.now.site.now.widget store.old.cells id
        here.now.at }
    requires tree { trees here.now.tree.now ≡ forest_at (trees_of here.now.site.now.codes.now.items) here.now.at.code }
    ensures comes { let F = trees_of here.now.site.now.codes.now.items in let w = here.now.site.now.widget in
        IfOk result (λ how. Comes F w store.old store.new 0
        (λ s. Do (job_of F w store.old.cells (Job.Exec id here.now.at)) s Ret)
        run.old run.new how out.new) }
    ensures paid { IfOk result (λ how. 0 < run.old.units → 0 < deep → run.new.units < run.old.units) }
    ensures kept { Kept (trees_of here.now.site.now.codes.now.items) here.now.site.now.widget store.old store.new }
{
    if run.units == 0 || deep == 0 {
        return leave_job(run, Job::Exec(id, here.at));
    }
    run.units -= 1;
    begun_on(here, run, store, id, deep - 1, out)
}

// The same, which has its unit.
#[inline(always)]
#[cycle(direct)]
fn begun_on(
    here: &Here,
    run: &mut Run,
    store: &mut Store,
    id: StmtId,
    deep: u32,
    out: &mut Value,
) -> Result<Ended, Memory>
    requires ready { IsReady (trees_of here.now.site.now.codes.now.items) here.now.site.now.widget store.old run.old }
    requires held { IsStmtAt (trees_of here.now.site.now.codes.now.items) here.now.site.now.widget store.old.cells id
        here.now.at }
    requires tree { trees here.now.tree.now ≡ forest_at (trees_of here.now.site.now.codes.now.items) here.now.at.code }
    ensures comes { let F = trees_of here.now.site.now.codes.now.items in let w = here.now.site.now.widget in
        IfOk result (λ how. Comes F w store.old store.new 30
        (body (job_of F w store.old.cells (Job.Exec id here.now.at)))
        run.old run.new how out.new) }
    ensures kept { Kept (trees_of here.now.site.now.codes.now.items) here.now.site.now.widget store.old store.new }
{
    let node = here.tree.stmt(id);
    statement_on(here, run, store, id, node, deep, out)
}

// The same by its node.
#[inline(always)]
#[cycle(direct)]
fn statement_on(
    here: &Here,
    run: &mut Run,
    store: &mut Store,
    id: StmtId,
    node: &Stmt,
    deep: u32,
    out: &mut Value,
) -> Result<Ended, Memory>
    requires ready { IsReady (trees_of here.now.site.now.codes.now.items) here.now.site.now.widget store.old run.old }
    requires held { IsStmtAt (trees_of here.now.site.now.codes.now.items) here.now.site.now.widget store.old.cells id
        here.now.at }
    requires node { let f = forest_at (trees_of here.now.site.now.codes.now.items) here.now.at.code in
        plain_stmt f node.now (stmt_place (stmt_at f id)) (stmt_names (stmt_at f id)) ≡ stmt_at f id }
    requires parts { AreStmtParts (forest_at (trees_of here.now.site.now.codes.now.items) here.now.at.code) node.now }
    requires tree { trees here.now.tree.now ≡ forest_at (trees_of here.now.site.now.codes.now.items) here.now.at.code }
    ensures comes { let F = trees_of here.now.site.now.codes.now.items in let w = here.now.site.now.widget in
        IfOk result (λ how. Comes F w store.old store.new 30
        (statements.statement (plain_stmt_form (forest_at F here.now.at.code) node.now)
        (place_of w store.old.cells here.now.at))
        run.old run.new how out.new) }
    ensures kept { Kept (trees_of here.now.site.now.codes.now.items) here.now.site.now.widget store.old store.new }
{
    match node {
        Stmt::Expr(e) => ending_on(here, run, store, *e, After::Nothing, deep, out),
        Stmt::Return(Some(e)) => ending_on(here, run, store, *e, After::Return, deep, out),
        Stmt::Throw(e) => ending_on(here, run, store, *e, After::Throw, deep, out),
        Stmt::Var(_) => declarations_on(here, run, store, id, deep, out),
        Stmt::If(e, _, _) => if_on(here, run, store, id, *e, deep, out),
        Stmt::While(_, _) => again_on(here, run, store, id, node, deep, out),
        Stmt::DoWhile(_, _) => passes_on(here, run, store, id, deep, out),
        Stmt::For(first, _, _, _) => {
            if declares(first) {
                return declared_on(here, run, store, id, node, deep, out);
            }
            listed_on(here, run, store, id, node, deep, out)
        }
        Stmt::Continue(_) => Ok(Ended::Continue),
        Stmt::Break(_) => Ok(Ended::Break),
        Stmt::Return(None) => Ok(returned(out)),
        Stmt::ForIn(_, _, e, _) => for_in_on(here, run, store, id, *e, deep, out),
        Stmt::Switch(e, _) => switch_on(here, run, store, id, *e, deep, out),
        Stmt::Try(_, _, _) => try_on(here, run, store, id, deep, out),
        // No accepted tree has the others.
        Stmt::With(_, _) => Ok(Ended::Normal),
        Stmt::Label(_, _) => Ok(Ended::Normal),
    }
}

// Whether the first part of a `for` is a list of declarations.
#[inline(always)]
fn declares(first: &ForInit) -> bool
    ensures yes { result ≡ true → (f : Forest) → IsDecls (init_at f first.now) }
    ensures no { result ≡ false → (f : Forest) → IsExprs (init_at f first.now) }
{
    match first {
        ForInit::Var(_) => true,
        ForInit::List(_) => false,
    }
}

// A `return` without a value.
fn returned(out: &mut Value) -> Ended
    ensures how { result ≡ Ended.Return }
    ensures value { out.new ≡ Value.Undefined }
{
    clear(out);
    Ended::Return
}

// An expression, with whose value a statement ends.
#[inline(always)]
#[cycle(direct)]
fn ending_on(
    here: &Here,
    run: &mut Run,
    store: &mut Store,
    e: ExprId,
    after: After,
    deep: u32,
    out: &mut Value,
) -> Result<Ended, Memory>
    requires ready { IsReady (trees_of here.now.site.now.codes.now.items) here.now.site.now.widget store.old run.old }
    requires held { IsExprAt (trees_of here.now.site.now.codes.now.items) here.now.site.now.widget store.old.cells e
        here.now.at }
    requires tree { trees here.now.tree.now ≡ forest_at (trees_of here.now.site.now.codes.now.items) here.now.at.code }
    ensures comes { let F = trees_of here.now.site.now.codes.now.items in let w = here.now.site.now.widget in
        IfOk result (λ how. Comes F w store.old store.new 30
        (λ s. Do (job_of F w store.old.cells (Job.Eval e here.now.at)) s
        (taken F w store.old.cells (Frame.Statement (frame_after after))))
        run.old run.new how out.new) }
    ensures kept { Kept (trees_of here.now.site.now.codes.now.items) here.now.site.now.widget store.old store.new }
{
    match operand_on(here, run, store, e, deep, out)? {
        Ended::Is => Ok(ended_after(after, out)),
        how => hand_ending(run, how, after),
    }
}

// The end of its expression that is no value.
#[cold]
#[inline(never)]
fn hand_ending(run: &mut Run, how: Ended, after: After) -> Result<Ended, Memory>
    ensures { IfOk result (λ h. HandsOn run.old run.new how h (Frame.Statement (frame_after after))) }
{
    match how {
        Ended::Left => wait(run, Frame::Statement(waiting(after))),
        how => Ok(how),
    }
}

// The frame that waits for the value.
fn waiting(after: After) -> StatementFrame
    ensures { result ≡ frame_after after }
{
    match after {
        After::Nothing => StatementFrame::Only,
        After::Return => StatementFrame::ToReturn,
        After::Throw => StatementFrame::ToThrow,
    }
}

// How the statement ends, with its value at the place.
#[inline(always)]
fn ended_after(after: After, out: &mut Value) -> Ended
    ensures how { IsEnd result }
    ensures plan { (fs : List Forest) (w : ℕ) (cells : List PlainCell) (s : State)
        → taken fs w cells (Frame.Statement (frame_after after)) (meaning.Is (seen w cells out.old)) s
        ≡ Ret (completion_of w cells (ended_as result out.new)) s }
    ensures fine { (w : ℕ) (cells : List PlainCell) → IsFine w cells out.old → FineCompletion w cells
        (ended_as result out.new) }
{
    match after {
        After::Nothing => {
            clear(out);
            Ended::Normal
        }
        After::Return => Ended::Return,
        After::Throw => Ended::Threw,
    }
}

// An `if`.
#[inline(never)]
#[cycle(direct)]
fn if_on(
    here: &Here,
    run: &mut Run,
    store: &mut Store,
    id: StmtId,
    e: ExprId,
    deep: u32,
    out: &mut Value,
) -> Result<Ended, Memory>
    requires ready { IsReady (trees_of here.now.site.now.codes.now.items) here.now.site.now.widget store.old run.old }
    requires held { IsStmtAt (trees_of here.now.site.now.codes.now.items) here.now.site.now.widget store.old.cells id
        here.now.at
        × IsExpr (forest_at (trees_of here.now.site.now.codes.now.items) here.now.at.code) e }
    requires tree { trees here.now.tree.now ≡ forest_at (trees_of here.now.site.now.codes.now.items) here.now.at.code }
    ensures comes { let F = trees_of here.now.site.now.codes.now.items in let w = here.now.site.now.widget in
        IfOk result (λ how. Comes F w store.old store.new 30
        (λ s. Do (job_of F w store.old.cells (Job.Eval e here.now.at)) s
        (taken F w store.old.cells (Frame.Statement (StatementFrame.Branch id here.now.at))))
        run.old run.new how out.new) }
    ensures kept { Kept (trees_of here.now.site.now.codes.now.items) here.now.site.now.widget store.old store.new }
{
    match condition_on(here, run, store, e, deep, out)? {
        Ended::Is => branch_on(here, run, store, id, deep, out),
        how => hand_branch(run, how, id, &here.at),
    }
}

// The end of its condition that is no value.
#[cold]
#[inline(never)]
fn hand_branch(run: &mut Run, how: Ended, id: StmtId, place: &Place) -> Result<Ended, Memory>
    ensures { IfOk result (λ h. HandsOn run.old run.new how h (Frame.Statement (StatementFrame.Branch id place.now))) }
{
    match how {
        Ended::Left => wait(run, Frame::Statement(StatementFrame::Branch(id, *place))),
        how => Ok(how),
    }
}

// A branch, by the value at the place.
#[cycle(direct)]
fn branch_on(
    here: &Here,
    run: &mut Run,
    store: &mut Store,
    id: StmtId,
    deep: u32,
    out: &mut Value,
) -> Result<Ended, Memory>
    requires ready { IsReady (trees_of here.now.site.now.codes.now.items) here.now.site.now.widget store.old run.old }
    requires held { IsStmtAt (trees_of here.now.site.now.codes.now.items) here.now.site.now.widget store.old.cells id
        here.now.at }
    requires tree { trees here.now.tree.now ≡ forest_at (trees_of here.now.site.now.codes.now.items) here.now.at.code }
    ensures comes { let F = trees_of here.now.site.now.codes.now.items in let w = here.now.site.now.widget in
        IfOk result (λ how. Comes F w store.old store.new 1
        (taken F w store.old.cells (Frame.Statement (StatementFrame.Branch id here.now.at))
        (meaning.Is (seen w store.old.cells out.old)))
        run.old run.new how out.new) }
    ensures kept { Kept (trees_of here.now.site.now.codes.now.items) here.now.site.now.widget store.old store.new }
{
    let block = if is_true(out) {
        Block::Then(id)
    } else {
        Block::Else(id)
    };
    clear(out);
    block_on(here, run, store, block, deep, out)
}

// A `for` whose first part declares variables.
#[cycle(direct)]
fn declared_on(
    here: &Here,
    run: &mut Run,
    store: &mut Store,
    id: StmtId,
    node: &Stmt,
    deep: u32,
    out: &mut Value,
) -> Result<Ended, Memory>
    requires ready { IsReady (trees_of here.now.site.now.codes.now.items) here.now.site.now.widget store.old run.old }
    requires held { IsStmtAt (trees_of here.now.site.now.codes.now.items) here.now.site.now.widget store.old.cells id
        here.now.at }
    requires tree { trees here.now.tree.now ≡ forest_at (trees_of here.now.site.now.codes.now.items) here.now.at.code }
    requires node { let f = forest_at (trees_of here.now.site.now.codes.now.items) here.now.at.code in
        plain_stmt f node.now (stmt_place (stmt_at f id)) (stmt_names (stmt_at f id)) ≡ stmt_at f id }
    requires parts { AreStmtParts (forest_at (trees_of here.now.site.now.codes.now.items) here.now.at.code) node.now }
    ensures comes { let F = trees_of here.now.site.now.codes.now.items in let w = here.now.site.now.widget in
        IfOk result (λ how. Comes F w store.old store.new 30
        (λ s. and_then (statements.declarations (decls_of (stmt_at (forest_at F here.now.at.code) id))
        (place_of w store.old.cells here.now.at) s)
        (taken F w store.old.cells (Frame.Statement (StatementFrame.ForAgain id here.now.at))))
        run.old run.new how out.new) }
    ensures kept { Kept (trees_of here.now.site.now.codes.now.items) here.now.site.now.widget store.old store.new }
{
    match declarations_on(here, run, store, id, deep, out)? {
        Ended::Normal => again_on(here, run, store, id, node, deep, out),
        Ended::Left => wait_again(run, id, &here.at),
        how => Ok(how),
    }
}

// A `for` whose first part is a list of expressions.
#[cycle(direct)]
fn listed_on(
    here: &Here,
    run: &mut Run,
    store: &mut Store,
    id: StmtId,
    node: &Stmt,
    deep: u32,
    out: &mut Value,
) -> Result<Ended, Memory>
    requires ready { IsReady (trees_of here.now.site.now.codes.now.items) here.now.site.now.widget store.old run.old }
    requires held { IsStmtAt (trees_of here.now.site.now.codes.now.items) here.now.site.now.widget store.old.cells id
        here.now.at }
    requires tree { trees here.now.tree.now ≡ forest_at (trees_of here.now.site.now.codes.now.items) here.now.at.code }
    requires node { let f = forest_at (trees_of here.now.site.now.codes.now.items) here.now.at.code in
        plain_stmt f node.now (stmt_place (stmt_at f id)) (stmt_names (stmt_at f id)) ≡ stmt_at f id }
    requires parts { AreStmtParts (forest_at (trees_of here.now.site.now.codes.now.items) here.now.at.code) node.now }
    ensures comes { let F = trees_of here.now.site.now.codes.now.items in let w = here.now.site.now.widget in
        IfOk result (λ how. Comes F w store.old store.new 30
        (λ s. and_then (statements.expressions (part_of Part.First (stmt_at (forest_at F here.now.at.code) id))
        (place_of w store.old.cells here.now.at) s)
        (taken F w store.old.cells (Frame.Statement (StatementFrame.ForAgain id here.now.at))))
        run.old run.new how out.new) }
    ensures kept { Kept (trees_of here.now.site.now.codes.now.items) here.now.site.now.widget store.old store.new }
{
    match expressions_on(here, run, store, id, node, Part::First, deep, out)? {
        Ended::Normal => again_on(here, run, store, id, node, deep, out),
        Ended::Left => wait_again(run, id, &here.at),
        how => Ok(how),
    }
}

// Declarations, of which those with a first value get it.
#[inline(never)]
#[cycle(direct)]
fn declarations_on(
    here: &Here,
    run: &mut Run,
    store: &mut Store,
    id: StmtId,
    deep: u32,
    out: &mut Value,
) -> Result<Ended, Memory>
    requires ready { IsReady (trees_of here.now.site.now.codes.now.items) here.now.site.now.widget store.old run.old }
    requires held { IsStmtAt (trees_of here.now.site.now.codes.now.items) here.now.site.now.widget store.old.cells id
        here.now.at }
    requires tree { trees here.now.tree.now ≡ forest_at (trees_of here.now.site.now.codes.now.items) here.now.at.code }
    ensures comes { let F = trees_of here.now.site.now.codes.now.items in let w = here.now.site.now.widget in
        IfOk result (λ how. Comes F w store.old store.new 1
        (statements.declarations (decls_of (stmt_at (forest_at F here.now.at.code) id))
        (place_of w store.old.cells here.now.at))
        run.old run.new how out.new) }
    ensures kept { Kept (trees_of here.now.site.now.codes.now.items) here.now.site.now.widget store.old store.new }
{
    let mut n = 0;
    'list: while let Some(valued) = first_value(here.tree, id, n) {
        n = valued.at + 1;
        match eval_on(here, run, store, valued.init, deep, out)? {
            Ended::Is => declare(here, store, id, valued.at, take_value(out)),
            Ended::Left => return wait_declared(run, id, valued.at, &here.at),
            how => return Ok(how),
        }
    }
    Ok(Ended::Normal)
}

// The first value of a declaration is waited for.
#[cold]
#[inline(never)]
fn wait_declared(run: &mut Run, id: StmtId, at: usize, place: &Place) -> Result<Ended, Memory>
    ensures left { IfOk result (λ how. how ≡ Ended.Left) }
    ensures waits { IfOk result (λ how. run.new.waits.items
        ≡ run.old.waits.items ++ Frame.Statement (StatementFrame.Declared id at place.now) ∷ []) }
    ensures next { IfOk result (λ how. run.new.next ≡ run.old.next) }
    ensures units { IfOk result (λ how. run.new.units ≡ run.old.units) }
{
    wait(
        run,
        Frame::Statement(StatementFrame::Declared(id, at, *place)),
    )
}

// A declaration that has a first value, by its number in its list.
#[derive(Clone, Copy, Drop)]
struct Valued {
    at: usize,
    init: ExprId,
}

// The first declaration from a number on that has a first value.
fn first_value(tree: &Tree, id: StmtId, from: usize) -> Option<Valued>
    requires { IsStmt (trees tree.now) id }
    ensures { MatchOption result
        ((p : plan.Place) (s : State) → statements.declarations
        (drop from (decls_of (stmt_at (trees tree.now) id))) p s ≡ Ret meaning.Normal s)
        (λ v. IsExpr (trees tree.now) v.init × (v.at + 1 < 2 ^ 64)
        × ((p : plan.Place) (s : State) → statements.declarations
        (drop from (decls_of (stmt_at (trees tree.now) id))) p s
        ≡ Do (Eval (expr_at (trees tree.now) v.init) p) s
        (after (λ u t. declared (drop v.at (decls_of (stmt_at (trees tree.now) id))) p u t)))) }
{
    let mut at = from;
    'each: while let Some(decl) = declaration_at(tree, id, at) {
        if let Some(init) = decl.init {
            return Some(Valued { at, init });
        }
        at += 1;
    }
    None
}

// The declared variable with a number gets its first value.
fn declare(here: &Here, store: &mut Store, id: StmtId, at: usize, value: Value)
    requires confined { IsConfined (trees_of here.now.site.now.codes.now.items) here.now.site.now.widget store.old }
    requires held { IsStmtAt (trees_of here.now.site.now.codes.now.items) here.now.site.now.widget store.old.cells id
        here.now.at × IsFine here.now.site.now.widget store.old.cells value }
    requires tree { trees here.now.tree.now ≡ forest_at (trees_of here.now.site.now.codes.now.items) here.now.at.code }
    ensures plan { let F = trees_of here.now.site.now.codes.now.items in let w = here.now.site.now.widget in
        let ds = decls_of (stmt_at (forest_at F here.now.at.code) id) in (r : Rest)
        → declared (drop at ds) (place_of w store.old.cells here.now.at) (seen w store.old.cells value)
        (image F r w store.old)
        ≡ statements.declarations (drop (at + 1) ds) (place_of w store.new.cells here.now.at) (image F r w store.new) }
    ensures kept { Kept (trees_of here.now.site.now.codes.now.items) here.now.site.now.widget store.old store.new }
{
    if let Some(decl) = declaration_at(here.tree, id, at) {
        assign(store, here.site.widget, here.at.scope, &decl.name, value);
    }
}
