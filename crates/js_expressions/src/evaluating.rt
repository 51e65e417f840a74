//! What each expression and each target does after its unit.
ghost use Rattle.std.specs.Prelude.{◌≡◌, ℕ, ◌<◌, ◌≤◌, List, OnOk};
ghost use Rattle.js_tree.specs.Forest.{Forest, AreExprParts, plain_form};
ghost use Rattle.js_tree.specs.Plain as node;
ghost use Rattle.store_cells.specs.Cells.{PlainCell};
ghost use Rattle.widget_meaning.specs.OwnState.{State};
ghost use Rattle.widget_meaning.specs.Expressions as expressions;
ghost use Rattle.widget_meaning.specs.Meaning.{body};
ghost use Rattle.js_image.specs.Held.{IsConfined, Kept};
ghost use Rattle.js_names.specs.Code.{trees_of};
ghost use Rattle.js_expressions.specs.Simple.{IsSimple};
ghost use Rattle.js_flow.specs.Parts.{forest_at};
ghost use Rattle.js_flow.specs.Views.{job_of, place_of};
ghost use Rattle.js_flow.specs.Frames.{Plans, planned};
ghost use Rattle.js_flow.specs.Fine.{FineJob, FineLeft, IsPlace};
ghost use Rattle.js_flow.specs.Free.{job_free, left_free};
ghost use Rattle.js_flow.specs.Left.{all_frames};

use crate::handing::{evaluate, find, give, give_reference, reach, reach_callee};
use crate::literals::{array, function, number, object, word_value};
use code_units::{Memory, Text};
use js_flow::{Completion, Flow, FormFrame, Job, Place, Reference};
use js_image::variable;
use js_names::{Code, tree_at};
use js_tree::{Expr, ExprId, UnOp};
use object_store::{Store, Value};
use std::alloc::Global;

/// What an expression does after its unit.
pub fn eval(
    flow: &mut Flow,
    alloc: Global,
    w: u32,
    codes: &Vec<Code>,
    store: &mut Store,
    id: ExprId,
    place: Place,
) -> Result<(), Memory>
    requires widget { w < 32 }
    requires confined { IsConfined (trees_of codes.now.items) w store.old }
    requires held { FineJob (trees_of codes.now.items) w store.old.cells (Job.Eval id place) }
    ensures plan { OnOk result (Plans (trees_of codes.now.items) w store.old store.new
        (body (job_of (trees_of codes.now.items) w store.old.cells (Job.Eval id place))) flow.new) }
    ensures fine { OnOk result (FineLeft (trees_of codes.now.items) w store.new.cells flow.new) }
    ensures near { OnOk result (left_free flow.new ≤ job_free) }
    ensures kept { Kept (trees_of codes.now.items) w store.old store.new }
    ensures below { OnOk result (flow.new.below ≡ all_frames flow.old) }
{
    match tree_at(codes, place.code).expr(id) {
        Expr::Array(_) => array(flow, alloc, w, codes, store, id, place),
        Expr::Object(_) => object(flow, alloc, w, codes, store, id, place),
        Expr::Function(fun) => function(flow, alloc, w, codes, store, *fun, place),
        Expr::Name(name) => name_value(flow, w, codes, store, name, place),
        Expr::Call(callee, _) => reach_callee(flow, id, *callee, place),
        node => simple(flow, node, place),
    }
}

// The value of a name.
fn name_value(
    flow: &mut Flow,
    w: u32,
    codes: &Vec<Code>,
    store: &Store,
    name: &Text,
    place: Place,
) -> Result<(), Memory>
    requires confined { IsConfined (trees_of codes.now.items) w store.now }
    requires place { IsPlace (trees_of codes.now.items) w store.now.cells place }
    ensures plan { OnOk result (Plans (trees_of codes.now.items) w store.now store.now
        (expressions.expression (node.Name name.now) (place_of w store.now.cells place)) flow.new) }
    ensures fine { OnOk result (FineLeft (trees_of codes.now.items) w store.now.cells flow.new) }
    ensures near { OnOk result (left_free flow.new ≤ 1) }
    ensures below { OnOk result (flow.new.below ≡ all_frames flow.old) }
{
    Ok(flow.give(Completion::Is(variable(store, place.scope, name)?)))
}

// An expression that leaves the store as it is, and does not name itself.
fn simple(flow: &mut Flow, node: &Expr, place: Place) -> Result<(), Memory>
    requires simple { IsSimple node.now }
    ensures plan { OnOk result ((w : ℕ) (cells : List PlainCell) (s : State) (fs : List Forest)
        → planned fs w cells flow.new s ≡ expressions.expression (plain_form (forest_at fs place.code) node.now)
        (place_of w cells place) s) }
    ensures fine { OnOk result ((w : ℕ) (cells : List PlainCell) (fs : List Forest)
        → IsPlace fs w cells place → AreExprParts (forest_at fs place.code) node.now → FineLeft fs w cells flow.new) }
    ensures near { OnOk result (left_free flow.new ≤ 12) }
    ensures below { OnOk result (flow.new.below ≡ all_frames flow.old) }
{
    match node {
        Expr::Num(numeral) => give(flow, number(numeral)),
        Expr::Str(text) => give(flow, Value::Text(text.share()?)),
        Expr::Word(word) => give(flow, word_value(*word)),
        Expr::Dot(e, name) => evaluate(flow, FormFrame::Dot(name.share()?), *e, place),
        Expr::Sub(e, index) => evaluate(flow, FormFrame::SubBase(*index, place), *e, place),
        Expr::Step(op, e) => reach(flow, FormFrame::StepTarget(*op, place), *e, place),
        Expr::Unary(UnOp::Delete, e) => reach(flow, FormFrame::Delete, *e, place),
        Expr::Unary(op, e) => evaluate(flow, FormFrame::Prefix(*op, place), *e, place),
        Expr::Binary(op, a, b) => evaluate(flow, FormFrame::Right(*op, *b, place), *a, place),
        Expr::And(a, b) => evaluate(flow, FormFrame::And(*b, place), *a, place),
        Expr::Or(a, b) => evaluate(flow, FormFrame::Or(*b, place), *a, place),
        Expr::Cond(a, b, c) => evaluate(flow, FormFrame::Choose(*b, *c, place), *a, place),
        Expr::Assign(op, to, e) => reach(flow, FormFrame::AssignTarget(*op, *e, place), *to, place),
        Expr::New(_, _) => give(flow, Value::Undefined),
        Expr::Comma(_, _) => give(flow, Value::Undefined),
        _ => unreachable!(),
    }
}

/// What a target does after its unit.
pub fn target(
    flow: &mut Flow,
    alloc: Global,
    w: u32,
    codes: &Vec<Code>,
    store: &mut Store,
    id: ExprId,
    place: Place,
) -> Result<(), Memory>
    requires widget { w < 32 }
    requires confined { IsConfined (trees_of codes.now.items) w store.old }
    requires held { FineJob (trees_of codes.now.items) w store.old.cells (Job.Target id place) }
    ensures plan { OnOk result (Plans (trees_of codes.now.items) w store.old store.new
        (body (job_of (trees_of codes.now.items) w store.old.cells (Job.Target id place))) flow.new) }
    ensures fine { OnOk result (FineLeft (trees_of codes.now.items) w store.new.cells flow.new) }
    ensures near { OnOk result (left_free flow.new ≤ 17) }
    ensures kept { Kept (trees_of codes.now.items) w store.old store.new }
    ensures below { OnOk result (flow.new.below ≡ all_frames flow.old) }
{
    match tree_at(codes, place.code).expr(id) {
        Expr::Name(name) => give_reference(flow, Reference::Variable(name.share()?)),
        Expr::Dot(e, name) => evaluate(flow, FormFrame::TargetDot(name.share()?), *e, place),
        Expr::Sub(e, index) => evaluate(flow, FormFrame::TargetSubBase(*index, place), *e, place),
        _ => find(flow, id, place),
    }
}
