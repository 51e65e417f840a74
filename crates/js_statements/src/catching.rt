//! `try`: its `catch` and its `finally`.
ghost use Rattle.std.specs.Prelude.{◌≡◌, ◌<◌, ◌≤◌, ℕ, List, length, OnOk};
ghost use Rattle.store_cells.specs.Cells.{PlainCell};
ghost use Rattle.js_tree.specs.Forest.{IsStmt};
ghost use Rattle.widget_meaning.specs.OwnState.{State};
ghost use Rattle.widget_meaning.specs.Plan.{Ret};
ghost use Rattle.widget_meaning.specs.Statements as statements;
ghost use Rattle.js_image.specs.Held.{IsFine, IsPlaceScope, Kept};
ghost use Rattle.js_image.specs.Image.{seen};
ghost use Rattle.js_names.specs.Code.{trees_of};
ghost use Rattle.js_flow.specs.Parts.{block_list, forest_at};
ghost use Rattle.js_flow.specs.Views.{completion_of, place_of};
ghost use Rattle.js_flow.specs.Frames.{Plans, planned, taken};
ghost use Rattle.js_flow.specs.Fine.{FineCompletion, FineLeft, IsStmtAt};
ghost use Rattle.js_flow.specs.Free.{left_free};
ghost use Rattle.js_flow.specs.Left.{all_frames};

use crate::parts::{catch_name, has_finally};
use code_units::{Memory, Text};
use js_flow::{Block, Completion, Flow, Frame, Place, StatementFrame};
use js_image::{Made, make_scope};
use js_names::{Code, tree_at};
use js_tree::StmtId;
use object_store::{Store, Value};
use std::alloc::Global;

/// After the block of a `try`: its `catch` of what was thrown.
pub(crate) fn after_try(
    flow: &mut Flow,
    alloc: Global,
    w: u32,
    codes: &Vec<Code>,
    store: &mut Store,
    at: (StmtId, Place),
    how: Completion,
) -> Result<(), Memory>
    requires widget { w < 32 }
    requires place { IsStmtAt (trees_of codes.now.items) w store.old.cells at.0 at.1 }
    requires how { FineCompletion w store.old.cells how }
    ensures plan { OnOk result (Plans (trees_of codes.now.items) w store.old store.new
        (taken (trees_of codes.now.items) w store.old.cells (Frame.Statement (StatementFrame.Caught at.0 at.1))
        (completion_of w store.old.cells how)) flow.new) }
    ensures fine { OnOk result (FineLeft (trees_of codes.now.items) w store.new.cells flow.new) }
    ensures near { OnOk result (left_free flow.new ≤ 2) }
    ensures kept { Kept (trees_of codes.now.items) w store.old store.new }
    ensures below { OnOk result (flow.new.below ≡ all_frames flow.old) }
{
    let (id, place) = at;
    match how {
        Completion::Throw(value) => {
            match catch_name(tree_at(codes, place.code), id) {
                None => Ok(flow.give(Completion::Throw(value))),
                Some(name) => in_catch(
                    flow,
                    alloc,
                    w,
                    codes,
                    store,
                    (id, place),
                    (name.share()?, value),
                ),
            }
        }
        how => Ok(flow.give(how)),
    }
}

// The `catch` of a thrown value, in a scope with its one name.
fn in_catch(
    flow: &mut Flow,
    alloc: Global,
    w: u32,
    codes: &Vec<Code>,
    store: &mut Store,
    at: (StmtId, Place),
    caught: (Text, Value),
) -> Result<(), Memory>
    requires widget { w < 32 }
    requires place { IsStmtAt (trees_of codes.now.items) w store.old.cells at.0 at.1 }
    requires value { IsFine w store.old.cells caught.1 }
    ensures plan { OnOk result (Plans (trees_of codes.now.items) w store.old store.new
        (statements.in_catch caught.0
        (block_list (forest_at (trees_of codes.now.items) at.1.code) (Block.Catch at.0))
        (seen w store.old.cells caught.1) (place_of w store.old.cells at.1)) flow.new) }
    ensures fine { OnOk result (FineLeft (trees_of codes.now.items) w store.new.cells flow.new) }
    ensures near { OnOk result (left_free flow.new ≤ 2) }
    ensures kept { Kept (trees_of codes.now.items) w store.old store.new }
    ensures below { OnOk result (flow.new.below ≡ all_frames flow.old) }
{
    let (id, place) = at;
    let pairs = vec![in alloc; caught]?;
    match make_scope(alloc, store, w, place.scope, pairs)? {
        Made::Stop(cause) => Ok(flow.stop(cause)),
        Made::Cell(scope) => Ok(flow.run(
            Block::Catch(id),
            Place {
                code: place.code,
                scope: Some(scope),
                depth: place.depth,
            },
        )),
    }
}

/// After the block and the `catch` of a `try`: its `finally`.
pub(crate) fn after_catch(
    flow: &mut Flow,
    alloc: Global,
    codes: &Vec<Code>,
    id: StmtId,
    place: Place,
    how: Completion,
) -> Result<(), Memory>
    requires code { place.code < length (trees_of codes.now.items) }
    requires stmt { IsStmt (forest_at (trees_of codes.now.items) place.code) id }
    ensures plan { OnOk result ((w : ℕ) (cells : List PlainCell) (s : State)
        → planned (trees_of codes.now.items) w cells flow.new s
        ≡ taken (trees_of codes.now.items) w cells (Frame.Statement (StatementFrame.Finally id place))
        (completion_of w cells how) s) }
    ensures fine { OnOk result ((w : ℕ) (cells : List PlainCell) → IsPlaceScope w cells place.scope
        → FineCompletion w cells how
        → FineLeft (trees_of codes.now.items) w cells flow.new) }
    ensures near { OnOk result (left_free flow.new ≤ 3) }
    ensures below { OnOk result (flow.new.below ≡ all_frames flow.old) }
{
    if has_finally(tree_at(codes, place.code), id) {
        flow.push_run(
            Frame::Statement(StatementFrame::LastEnd(Box::new(alloc, how)?)),
            Block::Finally(id),
            place,
        )
    } else {
        Ok(flow.give(how))
    }
}

/// After a `finally`: its own end replaces the earlier one where it is abrupt.
pub(crate) fn after_finally(before: Completion, how: Completion) -> Completion
    ensures plan { (w : ℕ) (cells : List PlainCell) (s : State)
        → Ret (completion_of w cells result) s
        ≡ statements.last_end (completion_of w cells before) (completion_of w cells how) s }
    ensures fine { (w : ℕ) (cells : List PlainCell) → FineCompletion w cells before → FineCompletion w cells how
        → FineCompletion w cells result }
{
    match how {
        Completion::Normal => before,
        how => how,
    }
}
