//! Loops: tests, and what comes after a body.
ghost use Rattle.std.specs.Prelude.{◌≡◌, ℕ, ◌<◌, ◌≤◌, List, drop, length, OnOk};
ghost use Rattle.store_cells.specs.Cells.{PlainCell};
ghost use Rattle.js_tree.specs.Forest.{Forest, IsStmt, stmt_at};
ghost use Rattle.widget_meaning.specs.OwnState.{State};
ghost use Rattle.widget_meaning.specs.Values as meaning;
ghost use Rattle.widget_meaning.specs.Plan.{and_then};
ghost use Rattle.widget_meaning.specs.Statements as statements;
ghost use Rattle.js_image.specs.Held.{IsPlaceScope};
ghost use Rattle.js_image.specs.Image.{seen};
ghost use Rattle.js_names.specs.Code.{trees_of};
ghost use Rattle.js_flow.specs.Parts.{first_of, forest_at, last_of};
ghost use Rattle.js_flow.specs.Views.{completion_of, place_of};
ghost use Rattle.js_flow.specs.Frames.{planned, taken};
ghost use Rattle.js_flow.specs.Fine.{FineCompletion, FineLeft, IsStmtAt};
ghost use Rattle.js_flow.specs.Free.{left_free};
ghost use Rattle.js_flow.specs.Left.{all_frames};

use crate::parts::test_at;
use code_units::Memory;
use js_flow::{Completion, Flow, Frame, Job, Place, StatementFrame, first_at, last_at};
use js_names::{Code, tree_at};
use js_tree::StmtId;
use js_values::is_true;
use object_store::Value;

/// After the first part or the last part of a loop: its test. Without one it goes on.
pub(crate) fn again(
    flow: &mut Flow,
    codes: &Vec<Code>,
    id: StmtId,
    place: Place,
) -> Result<(), Memory>
    requires code { place.code < length (trees_of codes.now.items) }
    requires stmt { IsStmt (forest_at (trees_of codes.now.items) place.code) id }
    ensures plan { OnOk result ((w : ℕ) (cells : List PlainCell) (s : State)
        → planned (trees_of codes.now.items) w cells flow.new s
        ≡ taken (trees_of codes.now.items) w cells
        (Frame.Statement (StatementFrame.ForAgain id place)) meaning.Normal s) }
    ensures fine { OnOk result ((w : ℕ) (cells : List PlainCell) → IsPlaceScope w cells place.scope
        → FineLeft (trees_of codes.now.items) w cells flow.new) }
    ensures near { OnOk result (left_free flow.new ≤ 1) }
    ensures below { OnOk result (flow.new.below ≡ all_frames flow.old) }
{
    match test_at(tree_at(codes, place.code), id) {
        Some(test) => flow.push(
            Frame::Statement(StatementFrame::Test(id, place)),
            Job::Eval(test, place),
        ),
        None => Ok(flow.go(Job::Pass(id, place))),
    }
}

/// After the test of a loop, by its value: another pass, or the end.
pub(crate) fn after_test(
    flow: &mut Flow,
    id: StmtId,
    value: &Value,
    place: Place,
) -> Result<(), Memory>
    ensures plan { OnOk result ((fs : List Forest) (w : ℕ) (cells : List PlainCell) (s : State)
        → planned fs w cells flow.new s
        ≡ taken fs w cells (Frame.Statement (StatementFrame.Test id place)) (meaning.Is (seen w cells value.now)) s) }
    ensures fine { OnOk result ((fs : List Forest) (w : ℕ) (cells : List PlainCell) → IsStmtAt fs w cells id place
        → FineLeft fs w cells flow.new) }
    ensures near { OnOk result (left_free flow.new ≤ 1) }
    ensures below { OnOk result (flow.new.below ≡ all_frames flow.old) }
{
    if is_true(value) {
        Ok(flow.go(Job::Pass(id, place)))
    } else {
        Ok(flow.give(Completion::Normal))
    }
}

/// After the body of a loop: a `while` and a `do` go on with their test, a `for` with its last part.
pub(crate) fn after_body(
    flow: &mut Flow,
    codes: &Vec<Code>,
    id: StmtId,
    place: Place,
    how: Completion,
) -> Result<(), Memory>
    requires code { place.code < length (trees_of codes.now.items) }
    requires stmt { IsStmt (forest_at (trees_of codes.now.items) place.code) id }
    ensures plan { OnOk result ((w : ℕ) (cells : List PlainCell) (s : State)
        → planned (trees_of codes.now.items) w cells flow.new s
        ≡ taken (trees_of codes.now.items) w cells (Frame.Statement (StatementFrame.LoopNext id place))
        (completion_of w cells how) s) }
    ensures fine { OnOk result ((w : ℕ) (cells : List PlainCell) → IsPlaceScope w cells place.scope
        → FineCompletion w cells how
        → FineLeft (trees_of codes.now.items) w cells flow.new) }
    ensures near { OnOk result (left_free flow.new ≤ 2) }
    ensures below { OnOk result (flow.new.below ≡ all_frames flow.old) }
{
    match how {
        Completion::Normal => next_pass(flow, codes, id, place),
        Completion::Continue => next_pass(flow, codes, id, place),
        Completion::Break => Ok(flow.give(Completion::Normal)),
        how => Ok(flow.give(how)),
    }
}

// The last part of a loop, and then its test; a `while` and a `do` have no last part.
fn next_pass(flow: &mut Flow, codes: &Vec<Code>, id: StmtId, place: Place) -> Result<(), Memory>
    requires code { place.code < length (trees_of codes.now.items) }
    requires stmt { IsStmt (forest_at (trees_of codes.now.items) place.code) id }
    ensures plan { OnOk result ((w : ℕ) (cells : List PlainCell) (s : State)
        → planned (trees_of codes.now.items) w cells flow.new s
        ≡ and_then (statements.expressions (last_of (stmt_at (forest_at (trees_of codes.now.items) place.code) id))
        (place_of w cells place) s)
        (taken (trees_of codes.now.items) w cells (Frame.Statement (StatementFrame.ForAgain id place)))) }
    ensures fine { OnOk result ((w : ℕ) (cells : List PlainCell) → IsPlaceScope w cells place.scope
        → FineLeft (trees_of codes.now.items) w cells flow.new) }
    ensures near { OnOk result (left_free flow.new ≤ 2) }
    ensures below { OnOk result (flow.new.below ≡ all_frames flow.old) }
{
    match last_at(tree_at(codes, place.code), id, 0) {
        Some(e) => flow.push_two(
            Frame::Statement(StatementFrame::ForAgain(id, place)),
            Frame::Statement(StatementFrame::Last(id, 1, place)),
            Job::Eval(e, place),
        ),
        None => again(flow, codes, id, place),
    }
}

/// The expressions of the first part of a `for` from a number on.
pub(crate) fn first_from(
    flow: &mut Flow,
    codes: &Vec<Code>,
    id: StmtId,
    n: usize,
    place: Place,
) -> Result<(), Memory>
    requires code { place.code < length (trees_of codes.now.items) }
    requires stmt { IsStmt (forest_at (trees_of codes.now.items) place.code) id }
    ensures plan { OnOk result ((w : ℕ) (cells : List PlainCell) (s : State)
        → planned (trees_of codes.now.items) w cells flow.new s
        ≡ statements.expressions (drop n (first_of (stmt_at (forest_at (trees_of codes.now.items) place.code) id)))
        (place_of w cells place) s) }
    ensures fine { OnOk result ((w : ℕ) (cells : List PlainCell) → IsPlaceScope w cells place.scope
        → FineLeft (trees_of codes.now.items) w cells flow.new) }
    ensures near { OnOk result (left_free flow.new ≤ 1) }
    ensures below { OnOk result (flow.new.below ≡ all_frames flow.old) }
{
    match first_at(tree_at(codes, place.code), id, n) {
        Some(e) => flow.push(
            Frame::Statement(StatementFrame::First(id, n + 1, place)),
            Job::Eval(e, place),
        ),
        None => Ok(flow.give(Completion::Normal)),
    }
}

/// The expressions of the last part of a `for` from a number on.
pub(crate) fn last_from(
    flow: &mut Flow,
    codes: &Vec<Code>,
    id: StmtId,
    n: usize,
    place: Place,
) -> Result<(), Memory>
    requires code { place.code < length (trees_of codes.now.items) }
    requires stmt { IsStmt (forest_at (trees_of codes.now.items) place.code) id }
    ensures plan { OnOk result ((w : ℕ) (cells : List PlainCell) (s : State)
        → planned (trees_of codes.now.items) w cells flow.new s
        ≡ statements.expressions (drop n (last_of (stmt_at (forest_at (trees_of codes.now.items) place.code) id)))
        (place_of w cells place) s) }
    ensures fine { OnOk result ((w : ℕ) (cells : List PlainCell) → IsPlaceScope w cells place.scope
        → FineLeft (trees_of codes.now.items) w cells flow.new) }
    ensures near { OnOk result (left_free flow.new ≤ 1) }
    ensures below { OnOk result (flow.new.below ≡ all_frames flow.old) }
{
    match last_at(tree_at(codes, place.code), id, n) {
        Some(e) => flow.push(
            Frame::Statement(StatementFrame::Last(id, n + 1, place)),
            Job::Eval(e, place),
        ),
        None => Ok(flow.give(Completion::Normal)),
    }
}
