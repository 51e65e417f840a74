//! `switch`: the clause that is chosen.
ghost use Rattle.std.specs.Prelude.{◌≡◌, ◌+◌, ◌<◌, ◌≤◌, ℕ, List, MatchOption, drop, length, OnOk};
ghost use Rattle.store_cells.specs.Cells.{PlainCell};
ghost use Rattle.js_tree.specs.Trees.{trees};
ghost use Rattle.js_tree.specs.Forest.{IsExpr, IsStmt, expr_at, stmt_at};
ghost use Rattle.widget_meaning.specs.OwnState.{State};
ghost use Rattle.widget_meaning.specs.Values as meaning;
ghost use Rattle.widget_meaning.specs.Plan as plan;
ghost use Rattle.widget_meaning.specs.Plan.{Do, Eval};
ghost use Rattle.widget_meaning.specs.Calls as calls;
ghost use Rattle.widget_meaning.specs.Statements as statements;
ghost use Rattle.js_image.specs.Held.{IsFine, IsPlaceScope};
ghost use Rattle.js_image.specs.Image.{seen};
ghost use Rattle.js_names.specs.Code.{trees_of};
ghost use Rattle.js_flow.specs.Parts.{clauses_of, forest_at};
ghost use Rattle.js_flow.specs.Statements.{clause_tested};
ghost use Rattle.js_flow.specs.Views.{place_of};
ghost use Rattle.js_flow.specs.Frames.{planned, taken};
ghost use Rattle.js_flow.specs.Fine.{FineLeft};
ghost use Rattle.js_flow.specs.Free.{left_free};
ghost use Rattle.js_flow.specs.Left.{all_frames};

use code_units::Memory;
use js_flow::{Block, Completion, Flow, Frame, Job, Place, StatementFrame, clause_at, default_at};
use js_names::{Code, tree_at};
use js_tree::{ExprId, StmtId, Tree};
use js_values::is_same;
use object_store::Value;

// A clause that has a test, by its number.
#[derive(Clone, Copy, Drop)]
struct Tested {
    at: usize,
    test: ExprId,
}

// The first clause from a number on that has a test.
fn next_test(tree: &Tree, id: StmtId, from: usize) -> Option<Tested>
    requires { IsStmt (trees tree.now) id }
    ensures { let all = clauses_of (stmt_at (trees tree.now) id) in MatchOption result
        ((v : meaning.Value) (p : plan.Place) (s : State)
        → statements.choose_case v all (drop from all) p s ≡ calls.statements (statements.from_default all all) p s)
        (λ c. IsExpr (trees tree.now) c.test
        × ((v : meaning.Value) (p : plan.Place) (s : State) → statements.choose_case v all (drop from all) p s
        ≡ Do (Eval (expr_at (trees tree.now) c.test) p) s (clause_tested v all (drop c.at all) p))) }
{
    let mut at = from;
    'each: while let Some(clause) = clause_at(tree, id, at) {
        if let Some(test) = clause.test {
            return Some(Tested { at, test });
        }
        at += 1;
    }
    None
}

/// After the value of a `switch`: the test of its first clause that has one.
pub(crate) fn begin_choice(
    flow: &mut Flow,
    codes: &Vec<Code>,
    id: StmtId,
    value: Value,
    place: Place,
) -> Result<(), Memory>
    requires code { place.code < length (trees_of codes.now.items) }
    requires stmt { IsStmt (forest_at (trees_of codes.now.items) place.code) id }
    ensures plan { OnOk result ((w : ℕ) (cells : List PlainCell) (s : State)
        → planned (trees_of codes.now.items) w cells flow.new s
        ≡ taken (trees_of codes.now.items) w cells (Frame.Statement (StatementFrame.Switch id place))
        (meaning.Is (seen w cells value)) s) }
    ensures fine { OnOk result ((w : ℕ) (cells : List PlainCell) → IsPlaceScope w cells place.scope
        → IsFine w cells value
        → FineLeft (trees_of codes.now.items) w cells flow.new) }
    ensures near { OnOk result (left_free flow.new ≤ 3) }
    ensures below { OnOk result (flow.new.below ≡ all_frames flow.old) }
{
    let tree = tree_at(codes, place.code);
    match next_test(tree, id, 0) {
        Some(next) => flow.push_two(
            Frame::Statement(StatementFrame::SwitchEnd),
            Frame::Statement(StatementFrame::Case(value, id, next.at, place)),
            Job::Eval(next.test, place),
        ),
        None => flow.push_run(
            Frame::Statement(StatementFrame::SwitchEnd),
            Block::Clauses(id, default_at(tree, id)),
            place,
        ),
    }
}

/// After the test of a clause, by its value: the clause is chosen where both are the same, or else
/// the next test comes, or `default`.
pub(crate) fn after_case(
    flow: &mut Flow,
    codes: &Vec<Code>,
    id: StmtId,
    n: usize,
    value: Value,
    test: Value,
    place: Place,
) -> Result<(), Memory>
    requires code { place.code < length (trees_of codes.now.items) }
    requires stmt { IsStmt (forest_at (trees_of codes.now.items) place.code) id }
    ensures plan { OnOk result ((w : ℕ) (cells : List PlainCell) (s : State) → IsFine w cells value
        → IsFine w cells test
        → planned (trees_of codes.now.items) w cells flow.new s
        ≡ taken (trees_of codes.now.items) w cells (Frame.Statement (StatementFrame.Case value id n place))
        (meaning.Is (seen w cells test)) s) }
    ensures fine { OnOk result ((w : ℕ) (cells : List PlainCell) → IsPlaceScope w cells place.scope
        → IsFine w cells value → IsFine w cells test
        → FineLeft (trees_of codes.now.items) w cells flow.new) }
    ensures near { OnOk result (left_free flow.new ≤ 2) }
    ensures below { OnOk result (flow.new.below ≡ all_frames flow.old) }
{
    match clause_at(tree_at(codes, place.code), id, n) {
        None => Ok(flow.give(Completion::Is(test))),
        Some(_) if is_same(&value, &test) => Ok(flow.run(Block::Clauses(id, n), place)),
        Some(_) => other_case(flow, codes, id, n + 1, value, place),
    }
}

// The next clause from a number on, or else `default`.
fn other_case(
    flow: &mut Flow,
    codes: &Vec<Code>,
    id: StmtId,
    n: usize,
    value: Value,
    place: Place,
) -> Result<(), Memory>
    requires code { place.code < length (trees_of codes.now.items) }
    requires stmt { IsStmt (forest_at (trees_of codes.now.items) place.code) id }
    ensures plan { OnOk result ((w : ℕ) (cells : List PlainCell) (s : State)
        → let all = clauses_of (stmt_at (forest_at (trees_of codes.now.items) place.code) id) in
        planned (trees_of codes.now.items) w cells flow.new s
        ≡ statements.choose_case (seen w cells value) all (drop n all) (place_of w cells place) s) }
    ensures fine { OnOk result ((w : ℕ) (cells : List PlainCell) → IsPlaceScope w cells place.scope
        → IsFine w cells value
        → FineLeft (trees_of codes.now.items) w cells flow.new) }
    ensures near { OnOk result (left_free flow.new ≤ 2) }
    ensures below { OnOk result (flow.new.below ≡ all_frames flow.old) }
{
    let tree = tree_at(codes, place.code);
    match next_test(tree, id, n) {
        Some(next) => flow.push(
            Frame::Statement(StatementFrame::Case(value, id, next.at, place)),
            Job::Eval(next.test, place),
        ),
        None => Ok(flow.run(Block::Clauses(id, default_at(tree, id)), place)),
    }
}
