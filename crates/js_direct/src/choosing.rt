//! `switch`, carried out in place: the clause that is chosen, and those after it.
ghost use Rattle.std.specs.Prelude.{◌≡◌, ◌+◌, ◌<◌, ◌^◌, ℕ, if◌then◌else◌, IfOk, List, MatchOption, drop};
ghost use Rattle.js_tree.specs.Trees.{trees};
ghost use Rattle.js_tree.specs.Forest.{IsExpr, IsStmt, expr_at, stmt_at};
ghost use Rattle.store_cells.specs.Cells.{PlainCell};
ghost use Rattle.widget_meaning.specs.OwnState.{State};
ghost use Rattle.widget_meaning.specs.Values as meaning;
ghost use Rattle.widget_meaning.specs.Operators as operators;
ghost use Rattle.widget_meaning.specs.Plan as plan;
ghost use Rattle.widget_meaning.specs.Plan.{Do, Eval, Ret};
ghost use Rattle.widget_meaning.specs.Calls as calls;
ghost use Rattle.widget_meaning.specs.Statements as statements;
ghost use Rattle.js_image.specs.Image.{seen};
ghost use Rattle.js_image.specs.Held.{IsFine, Kept};
ghost use Rattle.js_names.specs.Code.{trees_of};
ghost use Rattle.js_flow.specs.Fine.{FineCompletion, IsStmtAt};
ghost use Rattle.js_flow.specs.Frames.{taken};
ghost use Rattle.js_flow.specs.Parts.{clauses_of, forest_at};
ghost use Rattle.js_flow.specs.Statements.{clause_tested};
ghost use Rattle.js_flow.specs.Views.{completion_of, job_of, place_of};
ghost use Rattle.js_direct.specs.Comes.{Comes, IsEnd, IsReady, ended_as};
ghost use Rattle.js_direct.specs.Hands.{HandsOn};

use crate::blocks::any_on;
use crate::forms::{eval_on, operand_on};
use crate::run::{Ended, Here, Run, clear, take_value, wait};
use code_units::Memory;
use js_flow::{Block, Frame, Job, Place, StatementFrame, clause_at, default_at};
use js_tree::{ExprId, StmtId, Tree};
use js_values::is_same;
use object_store::{Store, Value};

/// A `switch`, after its unit: its value, and then its clauses.
#[inline(never)]
#[cycle(direct)]
pub(crate) fn switch_on(
    here: &Here,
    run: &mut Run,
    store: &mut Store,
    id: StmtId,
    e: ExprId,
    deep: u32,
    out: &mut Value,
) -> Result<Ended, Memory>
    requires ready { IsReady (trees_of here.now.site.now.codes.now.items) here.now.site.now.widget store.old run.old }
    requires held { IsStmtAt (trees_of here.now.site.now.codes.now.items) here.now.site.now.widget store.old.cells id
        here.now.at
        × IsExpr (forest_at (trees_of here.now.site.now.codes.now.items) here.now.at.code) e }
    requires tree { trees here.now.tree.now ≡ forest_at (trees_of here.now.site.now.codes.now.items) here.now.at.code }
    ensures comes { let F = trees_of here.now.site.now.codes.now.items in let w = here.now.site.now.widget in
        IfOk result (λ how. Comes F w store.old store.new 30
        (λ s. Do (job_of F w store.old.cells (Job.Eval e here.now.at)) s
        (taken F w store.old.cells (Frame.Statement (StatementFrame.Switch id here.now.at))))
        run.old run.new how out.new) }
    ensures kept { Kept (trees_of here.now.site.now.codes.now.items) here.now.site.now.widget store.old store.new }
{
    match operand_on(here, run, store, e, deep, out)? {
        Ended::Is => valued_on(here, run, store, id, deep, out),
        how => hand_switch(run, how, id, &here.at),
    }
}

// The end of its value that is no value.
#[cold]
#[inline(never)]
fn hand_switch(run: &mut Run, how: Ended, id: StmtId, place: &Place) -> Result<Ended, Memory>
    ensures { IfOk result (λ h. HandsOn run.old run.new how h (Frame.Statement (StatementFrame.Switch id place.now))) }
{
    match how {
        Ended::Left => wait(run, Frame::Statement(StatementFrame::Switch(id, *place))),
        how => Ok(how),
    }
}

/// A `switch` of the value at the place.
#[cycle(direct)]
pub(crate) fn valued_on(
    here: &Here,
    run: &mut Run,
    store: &mut Store,
    id: StmtId,
    deep: u32,
    out: &mut Value,
) -> Result<Ended, Memory>
    requires ready { IsReady (trees_of here.now.site.now.codes.now.items) here.now.site.now.widget store.old run.old }
    requires held { IsStmtAt (trees_of here.now.site.now.codes.now.items) here.now.site.now.widget store.old.cells id
        here.now.at × IsFine here.now.site.now.widget store.old.cells out.old }
    requires tree { trees here.now.tree.now ≡ forest_at (trees_of here.now.site.now.codes.now.items) here.now.at.code }
    ensures comes { let F = trees_of here.now.site.now.codes.now.items in let w = here.now.site.now.widget in
        IfOk result (λ how. Comes F w store.old store.new 4
        (taken F w store.old.cells (Frame.Statement (StatementFrame.Switch id here.now.at))
        (meaning.Is (seen w store.old.cells out.old)))
        run.old run.new how out.new) }
    ensures kept { Kept (trees_of here.now.site.now.codes.now.items) here.now.site.now.widget store.old store.new }
{
    let mut value = take_value(out);
    match clauses_on(here, run, store, (id, 0), &mut value, deep, out)? {
        Ended::Left => wait(run, Frame::Statement(StatementFrame::SwitchEnd)),
        how => Ok(switch_end(how)),
    }
}

/// A `break` ends a switch.
pub(crate) fn switch_end(how: Ended) -> Ended
    requires { IsEnd how }
    ensures end { IsEnd result }
    ensures plan { (w : ℕ) (cells : List PlainCell) (v : Value) (s : State)
        → Ret (completion_of w cells (ended_as result v)) s
        ≡ statements.switch_end (completion_of w cells (ended_as how v)) s }
    ensures fine { (w : ℕ) (cells : List PlainCell) (v : Value) → FineCompletion w cells (ended_as how v)
        → FineCompletion w cells (ended_as result v) }
{
    match how {
        Ended::Break => Ended::Normal,
        how => how,
    }
}

// A clause that has a test, by its number.
#[derive(Clone, Copy, Drop)]
struct Tested {
    at: usize,
    test: ExprId,
}

// The first clause from a number on that has a test.
fn next_test(tree: &Tree, id: StmtId, from: usize) -> Option<Tested>
    requires { IsStmt (trees tree.now) id }
    ensures { let all = clauses_of (stmt_at (trees tree.now) id) in MatchOption result
        ((v : meaning.Value) (p : plan.Place) (s : State)
        → statements.choose_case v all (drop from all) p s ≡ calls.statements (statements.from_default all all) p s)
        (λ c. IsExpr (trees tree.now) c.test × (c.at + 1 < 2 ^ 64)
        × ((v : meaning.Value) (p : plan.Place) (s : State) → statements.choose_case v all (drop from all) p s
        ≡ Do (Eval (expr_at (trees tree.now) c.test) p) s (clause_tested v all (drop c.at all) p))
        × ((v u : meaning.Value) (p : plan.Place) (s : State) → clause_tested v all (drop c.at all) p (meaning.Is u) s
        ≡ (if operators.is_same v u then calls.statements (statements.bodies (drop c.at all)) p s
        else statements.choose_case v all (drop (c.at + 1) all) p s))) }
{
    let mut at = from;
    'each: while let Some(clause) = clause_at(tree, id, at) {
        if let Some(test) = clause.test {
            return Some(Tested { at, test });
        }
        at += 1;
    }
    None
}

/// The tests of the clauses from a number on, and then the clauses from the chosen one on.
#[cycle(direct)]
pub(crate) fn clauses_on(
    here: &Here,
    run: &mut Run,
    store: &mut Store,
    from: (StmtId, usize),
    value: &mut Value,
    deep: u32,
    out: &mut Value,
) -> Result<Ended, Memory>
    requires ready { IsReady (trees_of here.now.site.now.codes.now.items) here.now.site.now.widget store.old run.old }
    requires held { IsStmtAt (trees_of here.now.site.now.codes.now.items) here.now.site.now.widget store.old.cells
        from.0 here.now.at × IsFine here.now.site.now.widget store.old.cells value.old }
    requires tree { trees here.now.tree.now ≡ forest_at (trees_of here.now.site.now.codes.now.items) here.now.at.code }
    ensures comes { let F = trees_of here.now.site.now.codes.now.items in let w = here.now.site.now.widget in
        let all = clauses_of (stmt_at (forest_at F here.now.at.code) from.0) in
        IfOk result (λ how. Comes F w store.old store.new 2
        (statements.choose_case (seen w store.old.cells value.old) all (drop from.1 all)
        (place_of w store.old.cells here.now.at))
        run.old run.new how out.new) }
    ensures kept { Kept (trees_of here.now.site.now.codes.now.items) here.now.site.now.widget store.old store.new }
{
    let (id, mut n) = from;
    'tests: while let Some(next) = next_test(here.tree, id, n) {
        match eval_on(here, run, store, next.test, deep, out)? {
            Ended::Is => {}
            how => return hand_case(run, how, (id, next.at), value, &here.at),
        }
        if is_chosen(value, out) {
            return any_on(
                here,
                run,
                store,
                (Block::Clauses(id, next.at), 0),
                deep,
                out,
            );
        }
        n = next.at + 1;
    }
    let last = default_at(here.tree, id);
    any_on(here, run, store, (Block::Clauses(id, last), 0), deep, out)
}

// The end of a test that is no value; a clause that waits takes the value of the switch along.
#[cold]
#[inline(never)]
fn hand_case(
    run: &mut Run,
    how: Ended,
    at: (StmtId, usize),
    value: &mut Value,
    place: &Place,
) -> Result<Ended, Memory>
    ensures { IfOk result (λ h. HandsOn run.old run.new how h
        (Frame.Statement (StatementFrame.Case value.old at.0 at.1 place.now))) }
{
    match how {
        Ended::Left => {
            let value = take_value(value);
            wait(
                run,
                Frame::Statement(StatementFrame::Case(value, at.0, at.1, *place)),
            )
        }
        how => Ok(how),
    }
}

// Whether the value at the place, which goes, is that of the switch.
fn is_chosen(value: &Value, out: &mut Value) -> bool
    ensures same { (w : ℕ) (cells : List PlainCell) → IsFine w cells value.now → IsFine w cells out.old
        → result ≡ operators.is_same (seen w cells value.now) (seen w cells out.old) }
    ensures left { out.new ≡ Value.Undefined }
{
    let same = is_same(value, out);
    clear(out);
    same
}
