//! `for-in`: the names of an object, one pass for each that is still found.
ghost use Rattle.std.specs.Prelude.{◌≡◌, ◌+◌, ◌<◌, ◌≤◌, ℕ, suc, List, IfOk, MatchOption, drop, length, false, OnOk};
ghost use Rattle.js_tree.specs.Forest.{Forest};
ghost use Rattle.store_cells.specs.Shape.{IsRefWithin};
ghost use Rattle.widget_meaning.specs.Values as meaning;
ghost use Rattle.widget_meaning.specs.Plan as plan;
ghost use Rattle.widget_meaning.specs.Plan.{Do, Pass, Ret};
ghost use Rattle.js_tree.specs.Plain.{Stmt};
ghost use Rattle.widget_meaning.specs.Meaning.{body};
ghost use Rattle.widget_meaning.specs.Statements as statements;
ghost use Rattle.js_image.specs.Held.{IsConfined, IsFine, Kept};
ghost use Rattle.js_image.specs.Image.{Rest, image, seen};
ghost use Rattle.js_names.specs.Code.{trees_of};
ghost use Rattle.js_flow.specs.Views.{completion_of, job_of, name_at};
ghost use Rattle.js_flow.specs.Frames.{Plans, taken};
ghost use Rattle.js_flow.specs.Fine.{FineCompletion, FineNames, FineLeft, IsStmtAt};
ghost use Rattle.js_flow.specs.Free.{job_free, left_free};
ghost use Rattle.js_flow.specs.Left.{all_frames};

use crate::given::throw;
use crate::parts::variable_at;
use code_units::{Memory, Text};
use js_flow::{Block, Completion, Flow, ForInNames, Frame, Job, Place, StatementFrame};
use js_image::{Fault, assign, for_in_names, is_found};
use js_names::{Code, tree_at};
use js_tree::StmtId;
use object_store::{Store, Value};
use std::alloc::Global;

/// After the object of a `for-in`: its names are listed, and each is charged.
pub(crate) fn after_object(
    flow: &mut Flow,
    alloc: Global,
    w: u32,
    codes: &Vec<Code>,
    store: &mut Store,
    at: (StmtId, Place),
    object: Value,
) -> Result<(), Memory>
    requires widget { w < 32 }
    requires confined { IsConfined (trees_of codes.now.items) w store.old }
    requires place { IsStmtAt (trees_of codes.now.items) w store.old.cells at.0 at.1 }
    requires object { IsFine w store.old.cells object }
    ensures plan { OnOk result (Plans (trees_of codes.now.items) w store.old store.new
        (taken (trees_of codes.now.items) w store.old.cells (Frame.Statement (StatementFrame.ForInOver at.0 at.1))
        (meaning.Is (seen w store.old.cells object))) flow.new) }
    ensures fine { OnOk result (FineLeft (trees_of codes.now.items) w store.new.cells flow.new) }
    ensures near { OnOk result (left_free flow.new ≤ 3) }
    ensures kept { Kept (trees_of codes.now.items) w store.old store.new }
    ensures below { OnOk result (flow.new.below ≡ all_frames flow.old) }
{
    match object {
        Value::Undefined => throw(flow, alloc, w, codes, store, Fault::E1),
        Value::Null => throw(flow, alloc, w, codes, store, Fault::E1),
        object => over_names(flow, alloc, w, codes, store, at, object),
    }
}

// The names of a value that has some.
fn over_names(
    flow: &mut Flow,
    alloc: Global,
    w: u32,
    codes: &Vec<Code>,
    store: &Store,
    at: (StmtId, Place),
    object: Value,
) -> Result<(), Memory>
    requires confined { IsConfined (trees_of codes.now.items) w store.now }
    requires place { IsStmtAt (trees_of codes.now.items) w store.now.cells at.0 at.1 }
    requires object { IsFine w store.now.cells object }
    requires some { meaning.is_nothing (seen w store.now.cells object) ≡ false }
    ensures plan { OnOk result (Plans (trees_of codes.now.items) w store.now store.now
        (taken (trees_of codes.now.items) w store.now.cells (Frame.Statement (StatementFrame.ForInOver at.0 at.1))
        (meaning.Is (seen w store.now.cells object))) flow.new) }
    ensures fine { OnOk result (FineLeft (trees_of codes.now.items) w store.now.cells flow.new) }
    ensures near { OnOk result (left_free flow.new ≤ 3) }
    ensures below { OnOk result (flow.new.below ≡ all_frames flow.old) }
{
    let (id, place) = at;
    let names = for_in_names(alloc, store, &object)?;
    let count = names.len();
    let listed = Box::new(
        alloc,
        ForInNames {
            object,
            names,
            at: 0,
            id,
        },
    )?;
    flow.push_pay(
        Frame::Statement(StatementFrame::ForInNext(listed, place)),
        count,
    )
}

// The first name from a place on that is still found.
fn next_name(store: &Store, names: &ForInNames) -> Option<usize>
    requires { IsRefWithin (length store.now.cells) names.now.object }
    ensures { (fs : List Forest) (r : Rest) (w : ℕ) (x : List ℕ) (b : List Stmt) (p : plan.Place)
        → IsConfined fs w store.now → IsFine w store.now.cells names.now.object
        → let v = seen w store.now.cells names.now.object in let ys = names.now.names.items in let s = image fs r w
        store.now in
        MatchOption result
        (statements.for_in v x (drop names.now.at ys) b p s ≡ Ret meaning.Normal s)
        (λ n. (n < length ys) × (statements.for_in v x (drop names.now.at ys) b p s
        ≡ Do (Pass (plan.ForInLoop v x (name_at ys n) (drop (suc n) ys) b) p) s Ret)) }
{
    let mut at = names.at;
    'each: while let Some(name) = names.names.get(at) {
        if is_found(store, &names.object, name) {
            return Some(at);
        }
        at += 1;
    }
    None
}

/// After the body of a `for-in`, or before its first pass: the next name.
pub(crate) fn after_pass(
    flow: &mut Flow,
    codes: &Vec<Code>,
    w: u32,
    store: &Store,
    names: Box<ForInNames>,
    place: Place,
    how: Completion,
) -> Result<(), Memory>
    requires confined { IsConfined (trees_of codes.now.items) w store.now }
    requires names { FineNames (trees_of codes.now.items) w store.now.cells names.value place }
    requires how { FineCompletion w store.now.cells how }
    ensures plan { OnOk result (Plans (trees_of codes.now.items) w store.now store.now
        (taken (trees_of codes.now.items) w store.now.cells (Frame.Statement (StatementFrame.ForInNext names place))
        (completion_of w store.now.cells how)) flow.new) }
    ensures fine { OnOk result (FineLeft (trees_of codes.now.items) w store.now.cells flow.new) }
    ensures near { OnOk result (left_free flow.new ≤ 1) }
    ensures below { OnOk result (flow.new.below ≡ all_frames flow.old) }
{
    match how {
        Completion::Normal => next_pass(flow, codes, w, store, names, place),
        Completion::Continue => next_pass(flow, codes, w, store, names, place),
        Completion::Break => Ok(flow.give(Completion::Normal)),
        how => Ok(flow.give(how)),
    }
}

fn next_pass(
    flow: &mut Flow,
    codes: &Vec<Code>,
    w: u32,
    store: &Store,
    names: Box<ForInNames>,
    place: Place,
) -> Result<(), Memory>
    requires confined { IsConfined (trees_of codes.now.items) w store.now }
    requires names { FineNames (trees_of codes.now.items) w store.now.cells names.value place }
    ensures plan { OnOk result (Plans (trees_of codes.now.items) w store.now store.now
        (taken (trees_of codes.now.items) w store.now.cells
        (Frame.Statement (StatementFrame.ForInNext names place)) meaning.Normal) flow.new) }
    ensures fine { OnOk result (FineLeft (trees_of codes.now.items) w store.now.cells flow.new) }
    ensures near { OnOk result (left_free flow.new ≤ 1) }
    ensures below { OnOk result (flow.new.below ≡ all_frames flow.old) }
{
    match next_name(store, &names) {
        None => Ok(flow.give(Completion::Normal)),
        Some(at) => Ok(flow.go(Job::PassIn(at_name(names, at), place))),
    }
}

// The same names at another place.
fn at_name(names: Box<ForInNames>, at: usize) -> Box<ForInNames>
    ensures { result.value ≡ record names.value { at = at } }
{
    let mut names = names;
    names.at = at;
    names
}

/// A pass of a `for-in`, after its unit: its variable gets the name, and the body runs.
pub fn pass_in(
    flow: &mut Flow,
    alloc: Global,
    w: u32,
    codes: &Vec<Code>,
    store: &mut Store,
    names: Box<ForInNames>,
    place: Place,
) -> Result<(), Memory>
    requires confined { IsConfined (trees_of codes.now.items) w store.old }
    requires names { FineNames (trees_of codes.now.items) w store.old.cells names.value place }
    requires name { names.value.at < length names.value.names.items }
    ensures plan { OnOk result (Plans (trees_of codes.now.items) w store.old store.new
        (body (job_of (trees_of codes.now.items) w store.old.cells (Job.PassIn names place))) flow.new) }
    ensures fine { OnOk result (FineLeft (trees_of codes.now.items) w store.new.cells flow.new) }
    ensures near { OnOk result (left_free flow.new ≤ job_free) }
    ensures kept { Kept (trees_of codes.now.items) w store.old store.new }
    ensures below { OnOk result (flow.new.below ≡ all_frames flow.old) }
{
    let id = names.id;
    let variable = variable_at(alloc, tree_at(codes, place.code), id)?;
    let name = name_of(alloc, &names)?;
    assign(store, w, place.scope, &variable, Value::Text(name));
    flow.push_run(
        Frame::Statement(StatementFrame::ForInNext(behind(names), place)),
        Block::Loop(id),
        place,
    )
}

// The name at the place; from the end on the empty one.
fn name_of(alloc: Global, names: &ForInNames) -> Result<Text, Memory>
    ensures { IfOk result (λ x. x ≡ name_at names.now.names.items names.now.at) }
{
    match names.names.get(names.at) {
        Some(name) => name.share(),
        None => Text::from_units(alloc, Vec::new(alloc)),
    }
}

// The same names at the next place.
fn behind(names: Box<ForInNames>) -> Box<ForInNames>
    requires { names.value.at < length names.value.names.items }
    ensures { result.value ≡ record names.value { at = suc names.value.at } }
{
    let next = names.at + 1;
    at_name(names, next)
}
