//! The arguments of a call from left to right, and then the call.
ghost use Rattle.std.specs.Prelude.{◌≡◌, ℕ, ◌+◌, ◌^◌, ◌<◌, ◌≤◌, [], List, IfOk, IfSome, length, OnOk};
ghost use Rattle.std.specs.Option.{option_map};
ghost use Rattle.js_tree.specs.Forest.{Forest, IsExpr, expr_at};
ghost use Rattle.store_cells.specs.Cells.{PlainCell};
ghost use Rattle.widget_meaning.specs.Values as meaning;
ghost use Rattle.widget_meaning.specs.OwnState.{State};
ghost use Rattle.widget_meaning.specs.Plan.{Do, Eval};
ghost use Rattle.widget_meaning.specs.Expressions as expressions;
ghost use Rattle.js_image.specs.Image.{Rest, all_seen, image, seen};
ghost use Rattle.js_image.specs.Held.{IsConfined, IsFine, Kept};
ghost use Rattle.js_names.specs.Code.{trees_of};
ghost use Rattle.js_flow.specs.Fine.{FineArgument, FineLeft, FineReference, IsExprAt, IsPlace};
ghost use Rattle.js_flow.specs.Calls.{argument_taken};
ghost use Rattle.js_flow.specs.Frames.{Plans, planned};
ghost use Rattle.js_flow.specs.Free.{left_free};
ghost use Rattle.js_flow.specs.Parts.{HasExpr, arguments_of, forest_at};
ghost use Rattle.js_flow.specs.Views.{place_of, reference_of};
ghost use Rattle.js_calls.specs.Called.{arguments_left};
ghost use Rattle.js_flow.specs.Left.{all_frames};

use crate::invoking::invoke;
use code_units::Memory;
use js_flow::{Args, Argument, Call, CallFrame, Flow, Frame, Job, Place, Reference, argument_at};
use js_image::{get, indexed_value, variable};
use js_names::{Code, tree_at};
use js_tree::ExprId;
use object_store::{Store, Value};
use std::alloc::Global;

/// After the target of a call: its arguments.
pub fn arguments_of(
    flow: &mut Flow,
    alloc: Global,
    w: u32,
    codes: &Vec<Code>,
    store: &mut Store,
    of: Reference,
    call: (ExprId, Place),
) -> Result<(), Memory>
    requires widget { w < 32 }
    requires confined { IsConfined (trees_of codes.now.items) w store.old }
    requires held { FineReference w store.old.cells of
        × IsExprAt (trees_of codes.now.items) w store.old.cells call.0 call.1 }
    ensures plan { OnOk result (Plans (trees_of codes.now.items) w store.old store.new
        (expressions.arguments_then (reference_of w store.old.cells of) []
        (arguments_of (expr_at (forest_at (trees_of codes.now.items) call.1.code) call.0))
        (place_of w store.old.cells call.1)) flow.new) }
    ensures fine { OnOk result (FineLeft (trees_of codes.now.items) w store.new.cells flow.new) }
    ensures near { OnOk result (left_free flow.new ≤ 4) }
    ensures kept { Kept (trees_of codes.now.items) w store.old store.new }
    ensures below { OnOk result (flow.new.below ≡ all_frames flow.old) }
{
    let a = Argument {
        of,
        args: Args::new(alloc),
        call: call.0,
        next: 0,
        place: call.1,
    };
    arguments(flow, alloc, w, codes, store, Box::new(alloc, a)?)
}

/// After an argument: those after it.
pub fn argument(
    flow: &mut Flow,
    alloc: Global,
    w: u32,
    codes: &Vec<Code>,
    store: &mut Store,
    a: Box<Argument>,
    value: Value,
) -> Result<(), Memory>
    requires widget { w < 32 }
    requires confined { IsConfined (trees_of codes.now.items) w store.old }
    requires held { FineArgument (trees_of codes.now.items) w store.old.cells a.value × IsFine w store.old.cells value }
    ensures plan { OnOk result (Plans (trees_of codes.now.items) w store.old store.new
        (argument_taken (trees_of codes.now.items) w store.old.cells a.value
        (meaning.Is (seen w store.old.cells value))) flow.new) }
    ensures fine { OnOk result (FineLeft (trees_of codes.now.items) w store.new.cells flow.new) }
    ensures near { OnOk result (left_free flow.new ≤ 4) }
    ensures kept { Kept (trees_of codes.now.items) w store.old store.new }
    ensures below { OnOk result (flow.new.below ≡ all_frames flow.old) }
{
    let mut a = a;
    a.args.push(value)?;
    arguments(flow, alloc, w, codes, store, a)
}

// The arguments that are left, and then the call.
fn arguments(
    flow: &mut Flow,
    alloc: Global,
    w: u32,
    codes: &Vec<Code>,
    store: &mut Store,
    a: Box<Argument>,
) -> Result<(), Memory>
    requires widget { w < 32 }
    requires confined { IsConfined (trees_of codes.now.items) w store.old }
    requires held { FineArgument (trees_of codes.now.items) w store.old.cells a.value }
    ensures plan { OnOk result
        (Plans (trees_of codes.now.items) w store.old store.new
        (arguments_left (trees_of codes.now.items) w store.old.cells a.value) flow.new) }
    ensures fine { OnOk result (FineLeft (trees_of codes.now.items) w store.new.cells flow.new) }
    ensures near { OnOk result (left_free flow.new ≤ 4) }
    ensures kept { Kept (trees_of codes.now.items) w store.old store.new }
    ensures below { OnOk result (flow.new.below ≡ all_frames flow.old) }
{
    match argument_left(codes, &a) {
        Some(e) => pushed(flow, next_of(a), e),
        None => called(flow, alloc, w, codes, store, Box::into_inner(a)),
    }
}

// The next argument of a call, none where all are there.
fn argument_left(codes: &Vec<Code>, a: &Argument) -> Option<ExprId>
    requires code { a.now.place.code < length (trees_of codes.now.items) }
    requires call { IsExpr (forest_at (trees_of codes.now.items) a.now.place.code) a.now.call }
    ensures { let f = forest_at (trees_of codes.now.items) a.now.place.code in HasExpr f
        (arguments_of (expr_at f a.now.call)) a.now.next result }
{
    argument_at(tree_at(codes, a.place.code), a.call, a.next)
}

// An argument, and what waits for it.
fn pushed(flow: &mut Flow, a: Box<Argument>, e: ExprId) -> Result<(), Memory>
    ensures plan { OnOk result ((fs : List Forest) (w : ℕ) (cells : List PlainCell) (s : State)
        → planned fs w cells flow.new s
        ≡ Do (Eval (expr_at (forest_at fs a.value.place.code) e) (place_of w cells a.value.place)) s
        (argument_taken fs w cells a.value)) }
    ensures fine { OnOk result ((fs : List Forest) (w : ℕ) (cells : List PlainCell) → FineArgument fs w cells a.value
        → IsExprAt fs w cells e a.value.place → FineLeft fs w cells flow.new) }
    ensures near { OnOk result (left_free flow.new ≤ 4) }
    ensures below { OnOk result (flow.new.below ≡ all_frames flow.old) }
{
    let place = a.place;
    flow.push(Frame::Call(CallFrame::Argument(a)), Job::Eval(e, place))
}

// The same call, at its next argument.
fn next_of(a: Box<Argument>) -> Box<Argument>
    requires { a.value.next + 1 < 2 ^ 64 }
    ensures { result.value ≡ record (a.value) { next = a.value.next + 1 } }
{
    let mut a = a;
    a.next += 1;
    a
}

// All arguments are there: the function is read and called.
fn called(
    flow: &mut Flow,
    alloc: Global,
    w: u32,
    codes: &Vec<Code>,
    store: &mut Store,
    a: Argument,
) -> Result<(), Memory>
    requires widget { w < 32 }
    requires confined { IsConfined (trees_of codes.now.items) w store.old }
    requires held { FineArgument (trees_of codes.now.items) w store.old.cells a }
    ensures plan { OnOk result (Plans (trees_of codes.now.items) w store.old store.new
        (expressions.arguments_then (reference_of w store.old.cells a.of)
        (all_seen w store.old.cells a.args.items) [] (place_of w store.old.cells a.place)) flow.new) }
    ensures fine { OnOk result (FineLeft (trees_of codes.now.items) w store.new.cells flow.new) }
    ensures near { OnOk result (left_free flow.new ≤ 4) }
    ensures kept { Kept (trees_of codes.now.items) w store.old store.new }
    ensures below { OnOk result (flow.new.below ≡ all_frames flow.old) }
{
    let Argument {
        of,
        args,
        place,
        ..
    } = a;
    let func = referred(w, codes, store, &of, place)?;
    let call = Call {
        func,
        this: base_of(of),
        args,
        depth: place.depth,
    };
    invoke(flow, alloc, w, codes, store, call)
}

// What a reference has.
fn referred(
    w: u32,
    codes: &Vec<Code>,
    store: &Store,
    of: &Reference,
    place: Place,
) -> Result<Value, Memory>
    requires confined { IsConfined (trees_of codes.now.items) w store.now }
    requires held { FineReference w store.now.cells of.now
        × IsPlace (trees_of codes.now.items) w store.now.cells place }
    ensures found { IfOk result (λ v. (r : Rest) → seen w store.now.cells v
        ≡ expressions.referred (reference_of w store.now.cells of.now) (place_of w store.now.cells place)
        (image (trees_of codes.now.items) r w store.now)) }
    ensures fine { IfOk result (IsFine w store.now.cells) }
{
    match of {
        Reference::Variable(x) => variable(store, place.scope, x),
        Reference::Property(base, x) => get(store, base, x),
        Reference::Element(cell, i) => indexed_value(store, *cell, *i),
        Reference::Found(v) => v.share(),
    }
}

// What a call of a reference is a method of.
fn base_of(of: Reference) -> Option<Value>
    ensures base { (w : ℕ) (cells : List PlainCell)
        → option_map (seen w cells) result ≡ expressions.base_of (reference_of w cells of) }
    ensures fine { (w : ℕ) (cells : List PlainCell) → FineReference w cells of → IfSome result (IsFine w cells) }
{
    match of {
        Reference::Property(base, _) => Some(base),
        Reference::Element(cell, _) => Some(Value::Ref(cell)),
        _ => None,
    }
}
