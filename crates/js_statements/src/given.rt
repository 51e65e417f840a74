//! What a frame of a statement does with how its part ended.
ghost use Rattle.js_flow.specs.declared.job.Next.{Next};
ghost use Rattle.std.specs.Prelude.{◌≡◌, ◌<◌, ◌≤◌, ℕ, List, Ok, length, OnOk, []};
ghost use Rattle.store_cells.specs.Cells.{PlainCell};
ghost use Rattle.js_tree.specs.Forest.{Forest, IsStmt};
ghost use Rattle.widget_meaning.specs.OwnState.{State};
ghost use Rattle.widget_meaning.specs.Plan.{Ret};
ghost use Rattle.widget_meaning.specs.Statements as statements;
ghost use Rattle.widget_meaning.specs.Values as meaning;
ghost use Rattle.widget_meaning.specs.Costs as costs;
ghost use Rattle.js_image.specs.Held.{IsConfined, IsFine, IsPlaceScope, Kept};
ghost use Rattle.js_image.specs.Image.{seen};
ghost use Rattle.js_image.specs.Plans.{meant_fault};
ghost use Rattle.js_names.specs.Code.{trees_of};
ghost use Rattle.js_flow.specs.Parts.{IsBlock, forest_at};
ghost use Rattle.js_flow.specs.Statements.{block_at};
ghost use Rattle.js_flow.specs.Views.{completion_of};
ghost use Rattle.js_flow.specs.Frames.{Plans, planned, taken};
ghost use Rattle.js_flow.specs.Fine.{FineCompletion, FineLeft, FineStatement, IsOther, IsStmtAt};
ghost use Rattle.js_flow.specs.Free.{left_free, statement_free};
ghost use Rattle.js_statements.specs.Goes.{GoesOn};
ghost use Rattle.js_flow.specs.Left.{Leaves, all_frames};

use crate::catching::{after_catch, after_finally, after_try};
use crate::choosing::{after_case, begin_choice};
use crate::forms::declarations;
use crate::looping::{after_body, after_test, again, first_from, last_from};
use crate::names::{after_object, after_pass};
use code_units::Memory;
use js_flow::{
    Block, Completion, Flow, Frame, Job, Place, StatementFrame, declaration_at, statement_at,
};
use js_image::{Fault, Made, assign, make_fault};
use js_names::{Code, tree_at};
use js_tree::StmtId;
use js_values::is_true;
use object_store::{Store, Value};
use std::alloc::Global;

/// What a frame of a statement does with how its part ended.
pub fn take_statement(
    flow: &mut Flow,
    alloc: Global,
    w: u32,
    codes: &Vec<Code>,
    store: &mut Store,
    frame: StatementFrame,
    how: Completion,
) -> Result<(), Memory>
    requires widget { w < 32 }
    requires confined { IsConfined (trees_of codes.now.items) w store.old }
    requires frame { FineStatement (trees_of codes.now.items) w store.old.cells frame }
    requires how { FineCompletion w store.old.cells how }
    ensures plan { OnOk result (Plans (trees_of codes.now.items) w store.old store.new
        (taken (trees_of codes.now.items) w store.old.cells (Frame.Statement frame)
        (completion_of w store.old.cells how)) flow.new) }
    ensures fine { OnOk result (FineLeft (trees_of codes.now.items) w store.new.cells flow.new) }
    ensures near { OnOk result (left_free flow.new ≤ statement_free frame) }
    ensures kept { Kept (trees_of codes.now.items) w store.old store.new }
    ensures below { OnOk result (flow.new.below ≡ all_frames flow.old) }
{
    match how {
        Completion::Is(value) => take_value(flow, alloc, w, codes, store, frame, value),
        how => take_other(flow, alloc, w, codes, store, frame, how),
    }
}

// A frame that is given a value.
fn take_value(
    flow: &mut Flow,
    alloc: Global,
    w: u32,
    codes: &Vec<Code>,
    store: &mut Store,
    frame: StatementFrame,
    value: Value,
) -> Result<(), Memory>
    requires widget { w < 32 }
    requires confined { IsConfined (trees_of codes.now.items) w store.old }
    requires frame { FineStatement (trees_of codes.now.items) w store.old.cells frame }
    requires value { IsFine w store.old.cells value }
    ensures plan { OnOk result (Plans (trees_of codes.now.items) w store.old store.new
        (taken (trees_of codes.now.items) w store.old.cells (Frame.Statement frame)
        (meaning.Is (seen w store.old.cells value))) flow.new) }
    ensures fine { OnOk result (FineLeft (trees_of codes.now.items) w store.new.cells flow.new) }
    ensures near { OnOk result (left_free flow.new ≤ statement_free frame) }
    ensures kept { Kept (trees_of codes.now.items) w store.old store.new }
    ensures below { OnOk result (flow.new.below ≡ all_frames flow.old) }
{
    match frame {
        StatementFrame::Declared(id, n, place) => {
            after_declaration(flow, w, codes, store, (id, n, place), value)
        }
        StatementFrame::ForInOver(id, place) => {
            after_object(flow, alloc, w, codes, store, (id, place), value)
        }
        StatementFrame::Finally(id, place) => {
            after_catch(flow, alloc, codes, id, place, Completion::Is(value))
        }
        frame => go_on(flow, w, codes, store, frame, value),
    }
}

// A frame that goes on with a value and leaves the store as it is.
fn go_on(
    flow: &mut Flow,
    w: u32,
    codes: &Vec<Code>,
    store: &Store,
    frame: StatementFrame,
    value: Value,
) -> Result<(), Memory>
    requires frame { FineStatement (trees_of codes.now.items) w store.now.cells frame }
    requires value { IsFine w store.now.cells value }
    requires goes { GoesOn frame }
    ensures plan { OnOk result (Plans (trees_of codes.now.items) w store.now store.now
        (taken (trees_of codes.now.items) w store.now.cells (Frame.Statement frame)
        (meaning.Is (seen w store.now.cells value))) flow.new) }
    ensures fine { OnOk result (FineLeft (trees_of codes.now.items) w store.now.cells flow.new) }
    ensures near { OnOk result (left_free flow.new ≤ statement_free frame) }
    ensures below { OnOk result (flow.new.below ≡ all_frames flow.old) }
{
    match frame {
        StatementFrame::Only => give(flow, Completion::Normal),
        StatementFrame::First(id, n, place) => first_from(flow, codes, id, n, place),
        StatementFrame::Last(id, n, place) => last_from(flow, codes, id, n, place),
        StatementFrame::Branch(id, place) => branch(flow, id, &value, place),
        StatementFrame::Test(id, place) => after_test(flow, id, &value, place),
        StatementFrame::ToReturn => give(flow, Completion::Return(value)),
        StatementFrame::ToThrow => give(flow, Completion::Throw(value)),
        StatementFrame::Switch(id, place) => begin_choice(flow, codes, id, value, place),
        StatementFrame::Case(of, id, n, place) => after_case(flow, codes, id, n, of, value, place),
        // The others pass a value on.
        _ => give(flow, Completion::Is(value)),
    }
}

// A frame that is given something else than a value.
fn take_other(
    flow: &mut Flow,
    alloc: Global,
    w: u32,
    codes: &Vec<Code>,
    store: &mut Store,
    frame: StatementFrame,
    how: Completion,
) -> Result<(), Memory>
    requires widget { w < 32 }
    requires confined { IsConfined (trees_of codes.now.items) w store.old }
    requires frame { FineStatement (trees_of codes.now.items) w store.old.cells frame }
    requires how { FineCompletion w store.old.cells how }
    requires other { IsOther how }
    ensures plan { OnOk result (Plans (trees_of codes.now.items) w store.old store.new
        (taken (trees_of codes.now.items) w store.old.cells (Frame.Statement frame)
        (completion_of w store.old.cells how)) flow.new) }
    ensures fine { OnOk result (FineLeft (trees_of codes.now.items) w store.new.cells flow.new) }
    ensures near { OnOk result (left_free flow.new ≤ statement_free frame) }
    ensures kept { Kept (trees_of codes.now.items) w store.old store.new }
    ensures below { OnOk result (flow.new.below ≡ all_frames flow.old) }
{
    match frame {
        StatementFrame::Seq(block, n, place) => after_statement(flow, codes, block, n, place, how),
        StatementFrame::LoopNext(id, place) => after_body(flow, codes, id, place, how),
        StatementFrame::ForAgain(id, place) => after_part(flow, codes, id, place, how),
        StatementFrame::ForInNext(names, place) => {
            after_pass(flow, codes, w, store, names, place, how)
        }
        StatementFrame::SwitchEnd => pass_on(flow, after_switch(how)),
        StatementFrame::Caught(id, place) => after_try(
            flow,
            alloc,
            w,
            codes,
            store,
            (id, place),
            how,
        ),
        StatementFrame::Finally(id, place) => after_catch(flow, alloc, codes, id, place, how),
        StatementFrame::LastEnd(before) => pass_on(
            flow,
            after_finally(Box::into_inner(before), how),
        ),
        // The others wait for a value, and pass all else on.
        _ => pass_on(flow, how),
    }
}

// How a form ended.
fn give(flow: &mut Flow, how: Completion) -> Result<(), Memory>
    ensures { OnOk result (Leaves flow.old flow.new [] (Next.Give how)) }
{
    Ok(flow.give(how))
}

// How a part ended, passed on.
fn pass_on(flow: &mut Flow, how: Completion) -> Result<(), Memory>
    ensures { OnOk result (Leaves flow.old flow.new [] (Next.Give how)) }
{
    Ok(flow.give(how))
}

// After a statement of a block: those from a number on.
fn after_statement(
    flow: &mut Flow,
    codes: &Vec<Code>,
    block: Block,
    n: usize,
    place: Place,
    how: Completion,
) -> Result<(), Memory>
    requires code { place.code < length (trees_of codes.now.items) }
    requires block { IsBlock (forest_at (trees_of codes.now.items) place.code) block }
    ensures plan { OnOk result ((w : ℕ) (cells : List PlainCell) (s : State)
        → planned (trees_of codes.now.items) w cells flow.new s
        ≡ taken (trees_of codes.now.items) w cells (Frame.Statement (StatementFrame.Seq block n place))
        (completion_of w cells how) s) }
    ensures fine { OnOk result ((w : ℕ) (cells : List PlainCell) → IsPlaceScope w cells place.scope
        → FineCompletion w cells how
        → FineLeft (trees_of codes.now.items) w cells flow.new) }
    ensures near { OnOk result (left_free flow.new ≤ 1) }
    ensures below { OnOk result (flow.new.below ≡ all_frames flow.old) }
{
    match how {
        Completion::Normal => statements_from(flow, codes, block, n, place),
        how => Ok(flow.give(how)),
    }
}

/// The statements of a block, which costs nothing.
pub fn begin_block(
    flow: &mut Flow,
    codes: &Vec<Code>,
    block: Block,
    place: Place,
) -> Result<(), Memory>
    requires code { place.code < length (trees_of codes.now.items) }
    requires block { IsBlock (forest_at (trees_of codes.now.items) place.code) block }
    ensures plan { OnOk result ((w : ℕ) (cells : List PlainCell) (s : State)
        → planned (trees_of codes.now.items) w cells flow.new s
        ≡ block_at (trees_of codes.now.items) w cells block 0 place s) }
    ensures fine { OnOk result ((w : ℕ) (cells : List PlainCell) → IsPlaceScope w cells place.scope
        → FineLeft (trees_of codes.now.items) w cells flow.new) }
    ensures near { OnOk result (left_free flow.new ≤ 1) }
    ensures below { OnOk result (flow.new.below ≡ all_frames flow.old) }
{
    statements_from(flow, codes, block, 0, place)
}

fn statements_from(
    flow: &mut Flow,
    codes: &Vec<Code>,
    block: Block,
    n: usize,
    place: Place,
) -> Result<(), Memory>
    requires code { place.code < length (trees_of codes.now.items) }
    requires block { IsBlock (forest_at (trees_of codes.now.items) place.code) block }
    ensures plan { OnOk result ((w : ℕ) (cells : List PlainCell) (s : State)
        → planned (trees_of codes.now.items) w cells flow.new s
        ≡ block_at (trees_of codes.now.items) w cells block n place s) }
    ensures fine { OnOk result ((w : ℕ) (cells : List PlainCell) → IsPlaceScope w cells place.scope
        → FineLeft (trees_of codes.now.items) w cells flow.new) }
    ensures near { OnOk result (left_free flow.new ≤ 1) }
    ensures below { OnOk result (flow.new.below ≡ all_frames flow.old) }
{
    match statement_at(tree_at(codes, place.code), block, n) {
        Some(listed) => flow.push(
            Frame::Statement(StatementFrame::Seq(listed.block, listed.next, place)),
            Job::Exec(listed.id, place),
        ),
        None => Ok(flow.give(Completion::Normal)),
    }
}

// After the first value of a declaration: it is written, and the next ones come.
fn after_declaration(
    flow: &mut Flow,
    w: u32,
    codes: &Vec<Code>,
    store: &mut Store,
    at: (StmtId, usize, Place),
    value: Value,
) -> Result<(), Memory>
    requires confined { IsConfined (trees_of codes.now.items) w store.old }
    requires place { IsStmtAt (trees_of codes.now.items) w store.old.cells at.0 at.2 }
    requires value { IsFine w store.old.cells value }
    ensures plan { OnOk result (Plans (trees_of codes.now.items) w store.old store.new
        (taken (trees_of codes.now.items) w store.old.cells
        (Frame.Statement (StatementFrame.Declared at.0 at.1 at.2))
        (meaning.Is (seen w store.old.cells value))) flow.new) }
    ensures fine { OnOk result (FineLeft (trees_of codes.now.items) w store.new.cells flow.new) }
    ensures near { OnOk result (left_free flow.new ≤ 1) }
    ensures kept { Kept (trees_of codes.now.items) w store.old store.new }
    ensures below { OnOk result (flow.new.below ≡ all_frames flow.old) }
{
    let (id, n, place) = at;
    match declaration_at(tree_at(codes, place.code), id, n) {
        None => Ok(flow.give(Completion::Normal)),
        Some(decl) => {
            assign(store, w, place.scope, &decl.name, value);
            declarations(flow, codes, id, n + 1, place)
        }
    }
}

// After the condition of an `if`.
fn branch(flow: &mut Flow, id: StmtId, value: &Value, place: Place) -> Result<(), Memory>
    ensures plan { OnOk result ((fs : List Forest) (w : ℕ) (cells : List PlainCell) (s : State)
        → planned fs w cells flow.new s
        ≡ taken fs w cells (Frame.Statement (StatementFrame.Branch id place)) (meaning.Is (seen w cells value.now)) s) }
    ensures fine { OnOk result ((fs : List Forest) (w : ℕ) (cells : List PlainCell) → IsStmtAt fs w cells id place
        → FineLeft fs w cells flow.new) }
    ensures near { OnOk result (left_free flow.new ≤ 2) }
    ensures below { OnOk result (flow.new.below ≡ all_frames flow.old) }
{
    let block = if is_true(value) {
        Block::Then(id)
    } else {
        Block::Else(id)
    };
    Ok(flow.run(block, place))
}

// After the first part or the last part of a `for`.
fn after_part(
    flow: &mut Flow,
    codes: &Vec<Code>,
    id: StmtId,
    place: Place,
    how: Completion,
) -> Result<(), Memory>
    requires code { place.code < length (trees_of codes.now.items) }
    requires stmt { IsStmt (forest_at (trees_of codes.now.items) place.code) id }
    ensures plan { OnOk result ((w : ℕ) (cells : List PlainCell) (s : State)
        → planned (trees_of codes.now.items) w cells flow.new s
        ≡ taken (trees_of codes.now.items) w cells (Frame.Statement (StatementFrame.ForAgain id place))
        (completion_of w cells how) s) }
    ensures fine { OnOk result ((w : ℕ) (cells : List PlainCell) → IsPlaceScope w cells place.scope
        → FineCompletion w cells how
        → FineLeft (trees_of codes.now.items) w cells flow.new) }
    ensures near { OnOk result (left_free flow.new ≤ 1) }
    ensures below { OnOk result (flow.new.below ≡ all_frames flow.old) }
{
    match how {
        Completion::Normal => again(flow, codes, id, place),
        how => Ok(flow.give(how)),
    }
}

// A `break` ends a switch.
fn after_switch(how: Completion) -> Completion
    ensures plan { (w : ℕ) (cells : List PlainCell) (s : State)
        → Ret (completion_of w cells result) s ≡ statements.switch_end (completion_of w cells how) s }
    ensures fine { (w : ℕ) (cells : List PlainCell) → FineCompletion w cells how → FineCompletion w cells result }
{
    match how {
        Completion::Break => Completion::Normal,
        how => how,
    }
}

/// A fault is thrown.
pub(crate) fn throw(
    flow: &mut Flow,
    alloc: Global,
    w: u32,
    codes: &Vec<Code>,
    store: &mut Store,
    fault: Fault,
) -> Result<(), Memory>
    requires widget { w < 32 }
    ensures plan { OnOk result
        (Plans (trees_of codes.now.items) w store.old store.new (costs.throw (meant_fault fault)) flow.new) }
    ensures fine { OnOk result (FineLeft (trees_of codes.now.items) w store.new.cells flow.new) }
    ensures near { OnOk result (left_free flow.new ≤ 1) }
    ensures kept { Kept (trees_of codes.now.items) w store.old store.new }
    ensures below { OnOk result (flow.new.below ≡ all_frames flow.old) }
{
    match make_fault(alloc, store, w, fault)? {
        Made::Cell(cell) => Ok(flow.give(Completion::Throw(Value::Ref(cell)))),
        Made::Stop(cause) => Ok(flow.stop(cause)),
    }
}
