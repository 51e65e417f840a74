//! What a statement and a pass of a loop are, after their unit.
ghost use Rattle.js_flow.specs.declared.job.Next.{Next};
ghost use Rattle.std.specs.Prelude.{◌≡◌, ℕ, ◌<◌, ◌≤◌, List, drop, length, OnOk, [], ◌∷◌};
ghost use Rattle.store_cells.specs.Cells.{PlainCell};
ghost use Rattle.js_tree.specs.Forest.{AreStmtParts, IsStmt, plain_stmt, plain_stmt_form, stmt_at};
ghost use Rattle.js_tree.specs.Plain.{stmt_names, stmt_place};
ghost use Rattle.widget_meaning.specs.OwnState.{State};
ghost use Rattle.widget_meaning.specs.Meaning.{body};
ghost use Rattle.widget_meaning.specs.Plan.{and_then};
ghost use Rattle.widget_meaning.specs.Statements as statements;
ghost use Rattle.js_image.specs.Held.{IsPlaceScope};
ghost use Rattle.js_names.specs.Code.{trees_of};
ghost use Rattle.js_flow.specs.Parts.{decls_of, first_of, forest_at};
ghost use Rattle.js_flow.specs.Views.{job_of, place_of};
ghost use Rattle.js_flow.specs.Frames.{planned, taken};
ghost use Rattle.js_flow.specs.Fine.{FineLeft};
ghost use Rattle.js_flow.specs.Free.{job_free, left_free};
ghost use Rattle.js_flow.specs.Left.{Leaves, all_frames};

use crate::looping::again;
use crate::parts::first_value;
use code_units::Memory;
use js_flow::{Block, Completion, Flow, Frame, Job, Place, StatementFrame, first_at};
use js_names::{Code, tree_at};
use js_tree::{ExprId, ForInit, Stmt, StmtId};
use object_store::Value;

/// What a statement is after its unit.
pub fn exec(flow: &mut Flow, codes: &Vec<Code>, id: StmtId, place: Place) -> Result<(), Memory>
    requires code { place.code < length (trees_of codes.now.items) }
    requires stmt { IsStmt (forest_at (trees_of codes.now.items) place.code) id }
    ensures plan { OnOk result ((w : ℕ) (cells : List PlainCell) (s : State)
        → planned (trees_of codes.now.items) w cells flow.new s
        ≡ body (job_of (trees_of codes.now.items) w cells (Job.Exec id place)) s) }
    ensures fine { OnOk result ((w : ℕ) (cells : List PlainCell) → IsPlaceScope w cells place.scope
        → FineLeft (trees_of codes.now.items) w cells flow.new) }
    ensures near { OnOk result (left_free flow.new ≤ job_free) }
    ensures below { OnOk result (flow.new.below ≡ all_frames flow.old) }
{
    let node = tree_at(codes, place.code).stmt(id);
    statement(flow, codes, node, id, place)
}

// The same by its node.
fn statement(
    flow: &mut Flow,
    codes: &Vec<Code>,
    node: &Stmt,
    id: StmtId,
    place: Place,
) -> Result<(), Memory>
    requires code { place.code < length (trees_of codes.now.items) }
    requires stmt { IsStmt (forest_at (trees_of codes.now.items) place.code) id }
    requires node { let f = forest_at (trees_of codes.now.items) place.code in
        plain_stmt f node.now (stmt_place (stmt_at f id)) (stmt_names (stmt_at f id)) ≡ stmt_at f id }
    requires parts { AreStmtParts (forest_at (trees_of codes.now.items) place.code) node.now }
    ensures plan { OnOk result ((w : ℕ) (cells : List PlainCell) (s : State)
        → planned (trees_of codes.now.items) w cells flow.new s
        ≡ statements.statement (plain_stmt_form (forest_at (trees_of codes.now.items) place.code) node.now)
        (place_of w cells place) s) }
    ensures fine { OnOk result ((w : ℕ) (cells : List PlainCell) → IsPlaceScope w cells place.scope
        → FineLeft (trees_of codes.now.items) w cells flow.new) }
    ensures near { OnOk result (left_free flow.new ≤ job_free) }
    ensures below { OnOk result (flow.new.below ≡ all_frames flow.old) }
{
    match node {
        Stmt::Var(_) => declarations(flow, codes, id, 0, place),
        Stmt::Expr(e) => push(flow, StatementFrame::Only, *e, place),
        Stmt::If(e, _, _) => push(flow, StatementFrame::Branch(id, place), *e, place),
        Stmt::While(e, _) => push(flow, StatementFrame::Test(id, place), *e, place),
        Stmt::DoWhile(_, _) => Ok(flow.go(Job::Pass(id, place))),
        Stmt::For(ForInit::Var(_), _, _, _) => declared_first(flow, codes, id, place),
        Stmt::For(ForInit::List(_), _, _, _) => listed_first(flow, codes, id, place),
        Stmt::ForIn(_, _, e, _) => push(flow, StatementFrame::ForInOver(id, place), *e, place),
        Stmt::Continue(_) => give(flow, Completion::Continue),
        Stmt::Break(_) => give(flow, Completion::Break),
        Stmt::Return(None) => give(flow, Completion::Return(Value::Undefined)),
        Stmt::Return(Some(e)) => push(flow, StatementFrame::ToReturn, *e, place),
        Stmt::Throw(e) => push(flow, StatementFrame::ToThrow, *e, place),
        Stmt::Switch(e, _) => push(flow, StatementFrame::Switch(id, place), *e, place),
        Stmt::Try(_, _, _) => flow.push_both(
            Frame::Statement(StatementFrame::Finally(id, place)),
            Frame::Statement(StatementFrame::Caught(id, place)),
            Block::Try(id),
            place,
        ),
        // No accepted tree has the others.
        Stmt::With(_, _) => give(flow, Completion::Normal),
        Stmt::Label(_, _) => give(flow, Completion::Normal),
    }
}

// An expression, and the frame that waits for it.
fn push(flow: &mut Flow, frame: StatementFrame, e: ExprId, place: Place) -> Result<(), Memory>
    ensures { OnOk result (Leaves flow.old flow.new (Frame.Statement frame ∷ []) (Next.Go (Job.Eval e place))) }
{
    flow.push(Frame::Statement(frame), Job::Eval(e, place))
}

// How a statement ends at once.
fn give(flow: &mut Flow, how: Completion) -> Result<(), Memory>
    ensures { OnOk result (Leaves flow.old flow.new [] (Next.Give how)) }
{
    Ok(flow.give(how))
}

/// Declarations from a number of their list on, up to the first that has a first value.
pub(crate) fn declarations(
    flow: &mut Flow,
    codes: &Vec<Code>,
    id: StmtId,
    from: usize,
    place: Place,
) -> Result<(), Memory>
    requires code { place.code < length (trees_of codes.now.items) }
    requires stmt { IsStmt (forest_at (trees_of codes.now.items) place.code) id }
    ensures plan { OnOk result ((w : ℕ) (cells : List PlainCell) (s : State)
        → planned (trees_of codes.now.items) w cells flow.new s
        ≡ statements.declarations
        (drop from (decls_of (stmt_at (forest_at (trees_of codes.now.items) place.code) id)))
        (place_of w cells place) s) }
    ensures fine { OnOk result ((w : ℕ) (cells : List PlainCell) → IsPlaceScope w cells place.scope
        → FineLeft (trees_of codes.now.items) w cells flow.new) }
    ensures near { OnOk result (left_free flow.new ≤ 1) }
    ensures below { OnOk result (flow.new.below ≡ all_frames flow.old) }
{
    match first_value(tree_at(codes, place.code), id, from) {
        Some(valued) => flow.push(
            Frame::Statement(StatementFrame::Declared(id, valued.at, place)),
            Job::Eval(valued.init, place),
        ),
        None => Ok(flow.give(Completion::Normal)),
    }
}

// A `for` whose first part declares variables.
fn declared_first(
    flow: &mut Flow,
    codes: &Vec<Code>,
    id: StmtId,
    place: Place,
) -> Result<(), Memory>
    requires code { place.code < length (trees_of codes.now.items) }
    requires stmt { IsStmt (forest_at (trees_of codes.now.items) place.code) id }
    ensures plan { OnOk result ((w : ℕ) (cells : List PlainCell) (s : State)
        → planned (trees_of codes.now.items) w cells flow.new s
        ≡ and_then (statements.declarations (decls_of (stmt_at (forest_at (trees_of codes.now.items) place.code) id))
        (place_of w cells place) s)
        (taken (trees_of codes.now.items) w cells (Frame.Statement (StatementFrame.ForAgain id place)))) }
    ensures fine { OnOk result ((w : ℕ) (cells : List PlainCell) → IsPlaceScope w cells place.scope
        → FineLeft (trees_of codes.now.items) w cells flow.new) }
    ensures near { OnOk result (left_free flow.new ≤ 2) }
    ensures below { OnOk result (flow.new.below ≡ all_frames flow.old) }
{
    match first_value(tree_at(codes, place.code), id, 0) {
        Some(valued) => flow.push_two(
            Frame::Statement(StatementFrame::ForAgain(id, place)),
            Frame::Statement(StatementFrame::Declared(id, valued.at, place)),
            Job::Eval(valued.init, place),
        ),
        None => again(flow, codes, id, place),
    }
}

// A `for` whose first part is a list of expressions.
fn listed_first(flow: &mut Flow, codes: &Vec<Code>, id: StmtId, place: Place) -> Result<(), Memory>
    requires code { place.code < length (trees_of codes.now.items) }
    requires stmt { IsStmt (forest_at (trees_of codes.now.items) place.code) id }
    ensures plan { OnOk result ((w : ℕ) (cells : List PlainCell) (s : State)
        → planned (trees_of codes.now.items) w cells flow.new s
        ≡ and_then (statements.expressions (first_of (stmt_at (forest_at (trees_of codes.now.items) place.code) id))
        (place_of w cells place) s)
        (taken (trees_of codes.now.items) w cells (Frame.Statement (StatementFrame.ForAgain id place)))) }
    ensures fine { OnOk result ((w : ℕ) (cells : List PlainCell) → IsPlaceScope w cells place.scope
        → FineLeft (trees_of codes.now.items) w cells flow.new) }
    ensures near { OnOk result (left_free flow.new ≤ 2) }
    ensures below { OnOk result (flow.new.below ≡ all_frames flow.old) }
{
    match first_at(tree_at(codes, place.code), id, 0) {
        Some(e) => flow.push_two(
            Frame::Statement(StatementFrame::ForAgain(id, place)),
            Frame::Statement(StatementFrame::First(id, 1, place)),
            Job::Eval(e, place),
        ),
        None => again(flow, codes, id, place),
    }
}

/// A pass of a `while`, a `do` or a `for`, after its unit: the body, and then what comes after it.
pub fn pass(flow: &mut Flow, codes: &Vec<Code>, id: StmtId, place: Place) -> Result<(), Memory>
    requires code { place.code < length (trees_of codes.now.items) }
    requires stmt { IsStmt (forest_at (trees_of codes.now.items) place.code) id }
    ensures plan { OnOk result ((w : ℕ) (cells : List PlainCell) (s : State)
        → planned (trees_of codes.now.items) w cells flow.new s
        ≡ body (job_of (trees_of codes.now.items) w cells (Job.Pass id place)) s) }
    ensures fine { OnOk result ((w : ℕ) (cells : List PlainCell) → IsPlaceScope w cells place.scope
        → FineLeft (trees_of codes.now.items) w cells flow.new) }
    ensures near { OnOk result (left_free flow.new ≤ job_free) }
    ensures below { OnOk result (flow.new.below ≡ all_frames flow.old) }
{
    flow.push_run(
        Frame::Statement(StatementFrame::LoopNext(id, place)),
        Block::Loop(id),
        place,
    )
}
