//! Loops, carried out in place.
ghost use Rattle.std.specs.Prelude.{◌≡◌, ℕ, ◌<◌, ◌+◌, ◌^◌, IfOk, List, MatchOption, true, false, [], ◌∷◌, ◌++◌, slice_get, IfSome};
ghost use Rattle.js_tree.specs.Trees.{trees};
ghost use Rattle.js_tree.specs.Forest.{AreStmtParts, IsExpr, IsStmt, expr_at, plain_stmt, stmt_at};
ghost use Rattle.js_tree.specs.Plain.{stmt_names, stmt_place};
ghost use Rattle.store_cells.specs.Cells.{PlainCell};
ghost use Rattle.widget_meaning.specs.OwnState.{State};
ghost use Rattle.widget_meaning.specs.Values as meaning;
ghost use Rattle.widget_meaning.specs.Plan as plan;
ghost use Rattle.widget_meaning.specs.Plan.{Do, Eval, Pass, Ret, and_then};
ghost use Rattle.widget_meaning.specs.Statements as statements;
ghost use Rattle.js_image.specs.Image.{seen};
ghost use Rattle.js_image.specs.Held.{Kept};
ghost use Rattle.js_names.specs.Code.{trees_of};
ghost use Rattle.js_flow.specs.Fine.{IsStmtAt};
ghost use Rattle.js_flow.specs.Frames.{taken};
ghost use Rattle.js_flow.specs.Parts.{HasExpr, forest_at, loop_of, last_of};
ghost use Rattle.js_flow.specs.Statements.{block_at, loop_again};
ghost use Rattle.js_flow.specs.Views.{job_of, place_of};
ghost use Rattle.js_direct.specs.Hands.{HandsOn};
ghost use Rattle.js_direct.specs.Comes.{Comes, IsReady};
ghost use Rattle.js_direct.specs.Towards.{Passes, frame_in, part_of};

use crate::blocks::{block_on, list_on, loop_list};
use crate::forms::{condition_on, operand_on};
use crate::run::{Ended, Here, Run, clear, leave_job, wait};
use crate::statements::Part;
use code_units::Memory;
use js_flow::{Block, Frame, Job, Place, StatementFrame, first_at};
use js_tree::{ExprId, Stmt, StmtId, Tree, lists_agree};
use js_values::is_true;
use object_store::{Store, Value};

/// The test of a loop, and then its passes.
#[cycle(direct)]
pub(crate) fn again_on(
    here: &Here,
    run: &mut Run,
    store: &mut Store,
    id: StmtId,
    node: &Stmt,
    deep: u32,
    out: &mut Value,
) -> Result<Ended, Memory>
    requires ready { IsReady (trees_of here.now.site.now.codes.now.items) here.now.site.now.widget store.old run.old }
    requires held { IsStmtAt (trees_of here.now.site.now.codes.now.items) here.now.site.now.widget store.old.cells id
        here.now.at }
    requires tree { trees here.now.tree.now ≡ forest_at (trees_of here.now.site.now.codes.now.items) here.now.at.code }
    requires node { let f = forest_at (trees_of here.now.site.now.codes.now.items) here.now.at.code in
        plain_stmt f node.now (stmt_place (stmt_at f id)) (stmt_names (stmt_at f id)) ≡ stmt_at f id }
    requires parts { AreStmtParts (forest_at (trees_of here.now.site.now.codes.now.items) here.now.at.code) node.now }
    ensures comes { let F = trees_of here.now.site.now.codes.now.items in let w = here.now.site.now.widget in
        IfOk result (λ how. Comes F w store.old store.new 1
        (taken F w store.old.cells (Frame.Statement (StatementFrame.ForAgain id here.now.at)) meaning.Normal)
        run.old run.new how out.new) }
    ensures kept { Kept (trees_of here.now.site.now.codes.now.items) here.now.site.now.widget store.old store.new }
{
    match test_on(here, run, store, id, node, deep, out)? {
        None => passes_by(here, run, store, id, node, deep, out),
        Some(how) => Ok(how),
    }
}

// The test of a loop: none where another pass is next.
#[inline(always)]
#[cycle(direct)]
fn test_on(
    here: &Here,
    run: &mut Run,
    store: &mut Store,
    id: StmtId,
    node: &Stmt,
    deep: u32,
    out: &mut Value,
) -> Result<Option<Ended>, Memory>
    requires ready { IsReady (trees_of here.now.site.now.codes.now.items) here.now.site.now.widget store.old run.old }
    requires held { IsStmtAt (trees_of here.now.site.now.codes.now.items) here.now.site.now.widget store.old.cells id
        here.now.at }
    requires tree { trees here.now.tree.now ≡ forest_at (trees_of here.now.site.now.codes.now.items) here.now.at.code }
    requires node { let f = forest_at (trees_of here.now.site.now.codes.now.items) here.now.at.code in
        plain_stmt f node.now (stmt_place (stmt_at f id)) (stmt_names (stmt_at f id)) ≡ stmt_at f id }
    requires parts { AreStmtParts (forest_at (trees_of here.now.site.now.codes.now.items) here.now.at.code) node.now }
    ensures passes { let F = trees_of here.now.site.now.codes.now.items in let w = here.now.site.now.widget in
        IfOk result (λ o. Passes F w store.old store.new 1
        (taken F w store.old.cells (Frame.Statement (StatementFrame.ForAgain id here.now.at)) meaning.Normal)
        (λ s. Do (job_of F w store.new.cells (Job.Pass id here.now.at)) s Ret)
        run.old run.new o out.new) }
    ensures kept { Kept (trees_of here.now.site.now.codes.now.items) here.now.site.now.widget store.old store.new }
{
    match test_at(here.tree, id, node) {
        None => Ok(None),
        Some(e) => tested_on(here, run, store, id, e, deep, out),
    }
}

// The test of a loop, if it has one.
#[inline(always)]
fn test_at(tree: &Tree, id: StmtId, node: &Stmt) -> Option<ExprId>
    requires stmt { IsStmt (trees tree.now) id }
    requires node { let f = trees tree.now in
        plain_stmt f node.now (stmt_place (stmt_at f id)) (stmt_names (stmt_at f id)) ≡ stmt_at f id }
    requires parts { AreStmtParts (trees tree.now) node.now }
    ensures { let l = loop_of (stmt_at (trees tree.now) id) in MatchOption result
        ((p : plan.Place) (s : State) → loop_again l p meaning.Normal s ≡ Do (Pass l p) s Ret)
        (λ e. IsExpr (trees tree.now) e
        × ((p : plan.Place) (s : State) → loop_again l p meaning.Normal s ≡ Do (Eval (expr_at (trees tree.now) e) p) s
        (statements.loop_test l p))) }
{
    match node {
        Stmt::While(test, _) | Stmt::DoWhile(test, _) => Some(*test),
        Stmt::For(_, test, _, _) => *test,
        _ => None,
    }
}

// The same of a test.
#[inline(always)]
#[cycle(direct)]
fn tested_on(
    here: &Here,
    run: &mut Run,
    store: &mut Store,
    id: StmtId,
    e: ExprId,
    deep: u32,
    out: &mut Value,
) -> Result<Option<Ended>, Memory>
    requires ready { IsReady (trees_of here.now.site.now.codes.now.items) here.now.site.now.widget store.old run.old }
    requires held { IsStmtAt (trees_of here.now.site.now.codes.now.items) here.now.site.now.widget store.old.cells id
        here.now.at
        × IsExpr (forest_at (trees_of here.now.site.now.codes.now.items) here.now.at.code) e }
    requires tree { trees here.now.tree.now ≡ forest_at (trees_of here.now.site.now.codes.now.items) here.now.at.code }
    ensures passes { let F = trees_of here.now.site.now.codes.now.items in let w = here.now.site.now.widget in
        IfOk result (λ o. Passes F w store.old store.new 1
        (λ s. Do (job_of F w store.old.cells (Job.Eval e here.now.at)) s
        (taken F w store.old.cells (Frame.Statement (StatementFrame.Test id here.now.at))))
        (λ s. Do (job_of F w store.new.cells (Job.Pass id here.now.at)) s Ret)
        run.old run.new o out.new) }
    ensures kept { Kept (trees_of here.now.site.now.codes.now.items) here.now.site.now.widget store.old store.new }
{
    match condition_on(here, run, store, e, deep, out)? {
        Ended::Is => Ok(over(out)),
        how => Ok(Some(hand_test(run, how, id, &here.at)?)),
    }
}

// The end of its test that is no value.
#[cold]
#[inline(never)]
fn hand_test(run: &mut Run, how: Ended, id: StmtId, place: &Place) -> Result<Ended, Memory>
    ensures { IfOk result (λ h. HandsOn run.old run.new how h (Frame.Statement (StatementFrame.Test id place.now))) }
{
    match how {
        Ended::Left => wait(run, Frame::Statement(StatementFrame::Test(id, *place))),
        how => Ok(how),
    }
}

// How a loop ends by the value of its test, which is at the place: none where it goes on.
#[inline(always)]
fn over(out: &mut Value) -> Option<Ended>
    ensures { (w : ℕ) (cells : List PlainCell) → MatchOption result (meaning.is_true (seen w cells out.old) ≡ true)
        (λ how. (how ≡ Ended.Normal) × (meaning.is_true (seen w cells out.old) ≡ false)) }
{
    let goes_on = is_true(out);
    clear(out);
    if goes_on { None } else { Some(Ended::Normal) }
}

/// Passes of a loop, before the unit of the first.
#[cycle(direct)]
pub(crate) fn passes_on(
    here: &Here,
    run: &mut Run,
    store: &mut Store,
    id: StmtId,
    deep: u32,
    out: &mut Value,
) -> Result<Ended, Memory>
    requires ready { IsReady (trees_of here.now.site.now.codes.now.items) here.now.site.now.widget store.old run.old }
    requires held { IsStmtAt (trees_of here.now.site.now.codes.now.items) here.now.site.now.widget store.old.cells id
        here.now.at }
    requires tree { trees here.now.tree.now ≡ forest_at (trees_of here.now.site.now.codes.now.items) here.now.at.code }
    ensures comes { let F = trees_of here.now.site.now.codes.now.items in let w = here.now.site.now.widget in
        IfOk result (λ how. Comes F w store.old store.new 0
        (λ s. Do (job_of F w store.old.cells (Job.Pass id here.now.at)) s Ret)
        run.old run.new how out.new) }
    ensures paid { IfOk result (λ how. 0 < run.old.units → 0 < deep → run.new.units < run.old.units) }
    ensures kept { Kept (trees_of here.now.site.now.codes.now.items) here.now.site.now.widget store.old store.new }
{
    let node = here.tree.stmt(id);
    passes_by(here, run, store, id, node, deep, out)
}

// The same by its node.
#[cycle(direct)]
fn passes_by(
    here: &Here,
    run: &mut Run,
    store: &mut Store,
    id: StmtId,
    node: &Stmt,
    deep: u32,
    out: &mut Value,
) -> Result<Ended, Memory>
    requires ready { IsReady (trees_of here.now.site.now.codes.now.items) here.now.site.now.widget store.old run.old }
    requires held { IsStmtAt (trees_of here.now.site.now.codes.now.items) here.now.site.now.widget store.old.cells id
        here.now.at }
    requires tree { trees here.now.tree.now ≡ forest_at (trees_of here.now.site.now.codes.now.items) here.now.at.code }
    requires node { let f = forest_at (trees_of here.now.site.now.codes.now.items) here.now.at.code in
        plain_stmt f node.now (stmt_place (stmt_at f id)) (stmt_names (stmt_at f id)) ≡ stmt_at f id }
    requires parts { AreStmtParts (forest_at (trees_of here.now.site.now.codes.now.items) here.now.at.code) node.now }
    ensures comes { let F = trees_of here.now.site.now.codes.now.items in let w = here.now.site.now.widget in
        IfOk result (λ how. Comes F w store.old store.new 0
        (λ s. Do (job_of F w store.old.cells (Job.Pass id here.now.at)) s Ret)
        run.old run.new how out.new) }
    ensures paid { IfOk result (λ how. 0 < run.old.units → 0 < deep → run.new.units < run.old.units) }
    ensures kept { Kept (trees_of here.now.site.now.codes.now.items) here.now.site.now.widget store.old store.new }
{
    'passes: while run.units > 0 {
        if let Some(how) = pass_on(here, run, store, id, node, deep, out)? {
            return Ok(how);
        }
    }
    leave_job(run, Job::Pass(id, here.at))
}

// A pass: none where another one is next.
#[inline(always)]
#[cycle(direct)]
fn pass_on(
    here: &Here,
    run: &mut Run,
    store: &mut Store,
    id: StmtId,
    node: &Stmt,
    deep: u32,
    out: &mut Value,
) -> Result<Option<Ended>, Memory>
    requires ready { IsReady (trees_of here.now.site.now.codes.now.items) here.now.site.now.widget store.old run.old }
    requires held { IsStmtAt (trees_of here.now.site.now.codes.now.items) here.now.site.now.widget store.old.cells id
        here.now.at }
    requires unit { 0 < run.old.units }
    requires tree { trees here.now.tree.now ≡ forest_at (trees_of here.now.site.now.codes.now.items) here.now.at.code }
    requires node { let f = forest_at (trees_of here.now.site.now.codes.now.items) here.now.at.code in
        plain_stmt f node.now (stmt_place (stmt_at f id)) (stmt_names (stmt_at f id)) ≡ stmt_at f id }
    requires parts { AreStmtParts (forest_at (trees_of here.now.site.now.codes.now.items) here.now.at.code) node.now }
    ensures passes { let F = trees_of here.now.site.now.codes.now.items in let w = here.now.site.now.widget in
        IfOk result (λ o. Passes F w store.old store.new 0
        (λ s. Do (job_of F w store.old.cells (Job.Pass id here.now.at)) s Ret)
        (λ s. Do (job_of F w store.new.cells (Job.Pass id here.now.at)) s Ret)
        run.old run.new o out.new) }
    ensures paid { IfOk result (λ o. run.new.units < run.old.units) }
    ensures kept { Kept (trees_of here.now.site.now.codes.now.items) here.now.site.now.widget store.old store.new }
{
    run.units -= 1;
    match looped_on(here, run, store, id, node, deep, out)? {
        Ended::Normal | Ended::Continue => next_on(here, run, store, id, node, deep, out),
        Ended::Break => Ok(Some(Ended::Normal)),
        Ended::Left => Ok(Some(wait_next(run, id, &here.at)?)),
        how => Ok(Some(how)),
    }
}

// The body of a loop.
#[inline(always)]
#[cycle(direct)]
fn looped_on(
    here: &Here,
    run: &mut Run,
    store: &mut Store,
    id: StmtId,
    node: &Stmt,
    deep: u32,
    out: &mut Value,
) -> Result<Ended, Memory>
    requires ready { IsReady (trees_of here.now.site.now.codes.now.items) here.now.site.now.widget store.old run.old }
    requires held { IsStmtAt (trees_of here.now.site.now.codes.now.items) here.now.site.now.widget store.old.cells id
        here.now.at }
    requires tree { trees here.now.tree.now ≡ forest_at (trees_of here.now.site.now.codes.now.items) here.now.at.code }
    requires node { let f = forest_at (trees_of here.now.site.now.codes.now.items) here.now.at.code in
        plain_stmt f node.now (stmt_place (stmt_at f id)) (stmt_names (stmt_at f id)) ≡ stmt_at f id }
    requires parts { AreStmtParts (forest_at (trees_of here.now.site.now.codes.now.items) here.now.at.code) node.now }
    ensures comes { let F = trees_of here.now.site.now.codes.now.items in let w = here.now.site.now.widget in
        IfOk result (λ how. Comes F w store.old store.new 1
        (block_at F w store.old.cells (Block.Loop id) 0 here.now.at)
        run.old run.new how out.new) }
    ensures kept { Kept (trees_of here.now.site.now.codes.now.items) here.now.site.now.widget store.old store.new }
{
    match loop_list(here.tree, id, node) {
        Some(list) => list_on(here, run, store, list, Block::Loop(id), deep, out),
        None => block_on(here, run, store, Block::Loop(id), deep, out),
    }
}

// The last part of a loop waits for its body.
#[cold]
#[inline(never)]
fn wait_next(run: &mut Run, id: StmtId, place: &Place) -> Result<Ended, Memory>
    ensures left { IfOk result (λ how. how ≡ Ended.Left) }
    ensures waits { IfOk result (λ how. run.new.waits.items
        ≡ run.old.waits.items ++ Frame.Statement (StatementFrame.LoopNext id place.now) ∷ []) }
    ensures next { IfOk result (λ how. run.new.next ≡ run.old.next) }
    ensures units { IfOk result (λ how. run.new.units ≡ run.old.units) }
{
    wait(run, Frame::Statement(StatementFrame::LoopNext(id, *place)))
}

/// The test of a loop waits.
#[cold]
#[inline(never)]
pub(crate) fn wait_again(run: &mut Run, id: StmtId, place: &Place) -> Result<Ended, Memory>
    ensures left { IfOk result (λ how. how ≡ Ended.Left) }
    ensures waits { IfOk result (λ how. run.new.waits.items
        ≡ run.old.waits.items ++ Frame.Statement (StatementFrame.ForAgain id place.now) ∷ []) }
    ensures next { IfOk result (λ how. run.new.next ≡ run.old.next) }
    ensures units { IfOk result (λ how. run.new.units ≡ run.old.units) }
{
    wait(run, Frame::Statement(StatementFrame::ForAgain(id, *place)))
}

// The last part of a loop, and then its test; a `while` and a `do` have no last part.
#[inline(always)]
#[cycle(direct)]
fn next_on(
    here: &Here,
    run: &mut Run,
    store: &mut Store,
    id: StmtId,
    node: &Stmt,
    deep: u32,
    out: &mut Value,
) -> Result<Option<Ended>, Memory>
    requires ready { IsReady (trees_of here.now.site.now.codes.now.items) here.now.site.now.widget store.old run.old }
    requires held { IsStmtAt (trees_of here.now.site.now.codes.now.items) here.now.site.now.widget store.old.cells id
        here.now.at }
    requires tree { trees here.now.tree.now ≡ forest_at (trees_of here.now.site.now.codes.now.items) here.now.at.code }
    requires node { let f = forest_at (trees_of here.now.site.now.codes.now.items) here.now.at.code in
        plain_stmt f node.now (stmt_place (stmt_at f id)) (stmt_names (stmt_at f id)) ≡ stmt_at f id }
    requires parts { AreStmtParts (forest_at (trees_of here.now.site.now.codes.now.items) here.now.at.code) node.now }
    ensures passes { let F = trees_of here.now.site.now.codes.now.items in let w = here.now.site.now.widget in
        IfOk result (λ o. Passes F w store.old store.new 2
        (λ s. and_then (statements.expressions (part_of Part.Last (stmt_at (forest_at F here.now.at.code) id))
        (place_of w store.old.cells here.now.at) s)
        (taken F w store.old.cells (Frame.Statement (StatementFrame.ForAgain id here.now.at))))
        (λ s. Do (job_of F w store.new.cells (Job.Pass id here.now.at)) s Ret)
        run.old run.new o out.new) }
    ensures kept { Kept (trees_of here.now.site.now.codes.now.items) here.now.site.now.widget store.old store.new }
{
    match expressions_on(here, run, store, id, node, Part::Last, deep, out)? {
        Ended::Normal => test_on(here, run, store, id, node, deep, out),
        Ended::Left => Ok(Some(wait_again(run, id, &here.at)?)),
        how => Ok(Some(how)),
    }
}

/// The expressions of a part of a `for`.
#[inline(always)]
#[cycle(direct)]
pub(crate) fn expressions_on(
    here: &Here,
    run: &mut Run,
    store: &mut Store,
    id: StmtId,
    node: &Stmt,
    part: Part,
    deep: u32,
    out: &mut Value,
) -> Result<Ended, Memory>
    requires ready { IsReady (trees_of here.now.site.now.codes.now.items) here.now.site.now.widget store.old run.old }
    requires held { IsStmtAt (trees_of here.now.site.now.codes.now.items) here.now.site.now.widget store.old.cells id
        here.now.at }
    requires tree { trees here.now.tree.now ≡ forest_at (trees_of here.now.site.now.codes.now.items) here.now.at.code }
    requires node { let f = forest_at (trees_of here.now.site.now.codes.now.items) here.now.at.code in
        plain_stmt f node.now (stmt_place (stmt_at f id)) (stmt_names (stmt_at f id)) ≡ stmt_at f id }
    requires parts { AreStmtParts (forest_at (trees_of here.now.site.now.codes.now.items) here.now.at.code) node.now }
    ensures comes { let F = trees_of here.now.site.now.codes.now.items in let w = here.now.site.now.widget in
        IfOk result (λ how. Comes F w store.old store.new 1
        (statements.expressions (part_of part (stmt_at (forest_at F here.now.at.code) id))
        (place_of w store.old.cells here.now.at))
        run.old run.new how out.new) }
    ensures kept { Kept (trees_of here.now.site.now.codes.now.items) here.now.site.now.widget store.old store.new }
{
    let mut n = 0;
    'list: while let Some(e) = expression_at(here.tree, id, node, part, n) {
        n += 1;
        match operand_on(here, run, store, e, deep, out)? {
            Ended::Is => clear(out),
            Ended::Left => return wait_part(run, part, id, n, &here.at),
            how => return Ok(how),
        }
    }
    Ok(Ended::Normal)
}

// The expression of a part at a place, none from its end on.
#[inline(always)]
fn expression_at(tree: &Tree, id: StmtId, node: &Stmt, part: Part, n: usize) -> Option<ExprId>
    requires stmt { IsStmt (trees tree.now) id }
    requires node { let f = trees tree.now in
        plain_stmt f node.now (stmt_place (stmt_at f id)) (stmt_names (stmt_at f id)) ≡ stmt_at f id }
    requires parts { AreStmtParts (trees tree.now) node.now }
    ensures { let f = trees tree.now in HasExpr f (part_of part (stmt_at f id)) n result }
{
    match part {
        Part::First => first_at(tree, id, n),
        Part::Last => last_in(tree, id, node, n),
    }
}

// An expression of the last part of a `for`.
#[inline(always)]
fn last_in(tree: &Tree, id: StmtId, node: &Stmt, n: usize) -> Option<ExprId>
    requires node { let f = trees tree.now in
        plain_stmt f node.now (stmt_place (stmt_at f id)) (stmt_names (stmt_at f id)) ≡ stmt_at f id }
    requires parts { AreStmtParts (trees tree.now) node.now }
    ensures { let f = trees tree.now in HasExpr f (last_of (stmt_at f id)) n result }
{
    lists_agree();
    match node {
        Stmt::For(_, _, list, _) => expression_in(list, n),
        _ => None,
    }
}

// The expression at a place of a list, none from its end on.
#[inline(always)]
fn expression_in(list: &Vec<ExprId>, n: usize) -> Option<ExprId>
    ensures value { result ≡ slice_get list.now.items n }
    ensures room { IfSome result (λ e. n + 1 < 2 ^ 64) }
{
    if n < list.len() { Some(list[n]) } else { None }
}

// The rest of a part waits for an expression.
#[cold]
#[inline(never)]
fn wait_part(
    run: &mut Run,
    part: Part,
    id: StmtId,
    n: usize,
    place: &Place,
) -> Result<Ended, Memory>
    ensures left { IfOk result (λ how. how ≡ Ended.Left) }
    ensures waits { IfOk result (λ how. run.new.waits.items
        ≡ run.old.waits.items ++ Frame.Statement (frame_in part id n place.now) ∷ []) }
    ensures next { IfOk result (λ how. run.new.next ≡ run.old.next) }
    ensures units { IfOk result (λ how. run.new.units ≡ run.old.units) }
{
    wait(run, Frame::Statement(waiting_in(part, id, n, place)))
}

// The frame after an expression of a part.
fn waiting_in(part: Part, id: StmtId, n: usize, place: &Place) -> StatementFrame
    ensures { result ≡ frame_in part id n place.now }
{
    match part {
        Part::First => StatementFrame::First(id, n, *place),
        Part::Last => StatementFrame::Last(id, n, *place),
    }
}
