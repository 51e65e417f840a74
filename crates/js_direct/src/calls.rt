//! Calls, carried out in place: what is called, and the arguments.
ghost use Rattle.std.specs.Prelude.{◌≡◌, ℕ, ◌+◌, ◌++◌, ◌∷◌, [], IfOk, IfSome, OnOk, length};
ghost use Rattle.std.specs.Option.{option_map};
ghost use Rattle.js_tree.specs.Trees.{trees};
ghost use Rattle.js_tree.specs.Forest.{IsExpr, expr_at};
ghost use Rattle.store_cells.specs.Cells.{Cells};
ghost use Rattle.widget_meaning.specs.Expressions as expressions;
ghost use Rattle.widget_meaning.specs.Plan.{Do};
ghost use Rattle.widget_meaning.specs.Values as values;
ghost use Rattle.js_image.specs.Image.{all_seen, seen};
ghost use Rattle.js_image.specs.Held.{AreFine, IsFine, Kept};
ghost use Rattle.js_names.specs.Code.{trees_of};
ghost use Rattle.js_flow.specs.Fine.{FineReference, IsExprAt, IsPlace};
ghost use Rattle.js_flow.specs.Frames.{taken};
ghost use Rattle.js_flow.specs.Parts.{HasExpr, arguments_of, forest_at};
ghost use Rattle.js_flow.specs.Views.{job_of, place_of, reference_of};
ghost use Rattle.js_direct.specs.Argues.{Argues, HandsArgument, WaitsFor};
ghost use Rattle.js_direct.specs.Hands.{HandsOn};
ghost use Rattle.js_direct.specs.Comes.{Comes, IsReady};

use crate::entering::{value_far, value_on};
use crate::forms::operand_on;
use crate::run::{Ended, Here, Run, share_to, take_value, wait};
use crate::targets::{referred, target_on};
use code_units::{Memory, Text};
use js_flow::{Args, Argument, CallFrame, Frame, Job, Place, Reference, argument_at};
use js_image::variable_at;
use js_tree::{Expr, ExprId};
use object_store::{Store, Value};
use std::alloc::Global;
use std::mem;

/// A call, after its unit.
#[inline(never)]
#[cycle(direct)]
pub(crate) fn call_on(
    here: &Here,
    run: &mut Run,
    store: &mut Store,
    id: ExprId,
    to: ExprId,
    deep: u32,
    out: &mut Value,
) -> Result<Ended, Memory>
    requires ready { IsReady (trees_of here.now.site.now.codes.now.items) here.now.site.now.widget store.old run.old }
    requires held { IsExprAt (trees_of here.now.site.now.codes.now.items) here.now.site.now.widget store.old.cells id
        here.now.at
        × IsExprAt (trees_of here.now.site.now.codes.now.items) here.now.site.now.widget store.old.cells to
        here.now.at }
    requires tree { trees here.now.tree.now ≡ forest_at (trees_of here.now.site.now.codes.now.items) here.now.at.code }
    ensures comes { let F = trees_of here.now.site.now.codes.now.items in let w = here.now.site.now.widget in
        IfOk result (λ how. Comes F w store.old store.new 30
        (λ s. Do (job_of F w store.old.cells (Job.Target to here.now.at)) s
        (taken F w store.old.cells (Frame.Call (CallFrame.Callee id here.now.at))))
        run.old run.new how out.new) }
    ensures kept { Kept (trees_of here.now.site.now.codes.now.items) here.now.site.now.widget store.old store.new }
{
    if run.units == 0 {
        return call_any(here, run, store, id, to, deep, out);
    }
    match here.tree.expr(to) {
        Expr::Name(name) => {
            run.units -= 1;
            call_name(here, run, store, id, name, deep, out)
        }
        _ => call_any(here, run, store, id, to, deep, out),
    }
}

// A call of a variable, whose target has its unit: it is read when the arguments are there.
#[inline(always)]
#[cycle(direct)]
fn call_name(
    here: &Here,
    run: &mut Run,
    store: &mut Store,
    id: ExprId,
    name: &Text,
    deep: u32,
    out: &mut Value,
) -> Result<Ended, Memory>
    requires ready { IsReady (trees_of here.now.site.now.codes.now.items) here.now.site.now.widget store.old run.old }
    requires held { IsExprAt (trees_of here.now.site.now.codes.now.items) here.now.site.now.widget store.old.cells id
        here.now.at }
    requires tree { trees here.now.tree.now ≡ forest_at (trees_of here.now.site.now.codes.now.items) here.now.at.code }
    ensures comes { let F = trees_of here.now.site.now.codes.now.items in let w = here.now.site.now.widget in
        IfOk result (λ how. Comes F w store.old store.new 5
        (expressions.arguments_then (values.Variable name.now) []
        (arguments_of (expr_at (forest_at F here.now.at.code) id)) (place_of w store.old.cells here.now.at))
        run.old run.new how out.new) }
    ensures kept { Kept (trees_of here.now.site.now.codes.now.items) here.now.site.now.widget store.old store.new }
{
    let mut func = Value::Undefined;
    let mut args = Args::new(here.site.alloc);
    called_name(here, run, store, id, name, &mut func, &mut args, deep, out)
}

// The same with places for the function and its arguments: what owns these has one exit.
#[inline(always)]
#[cycle(direct)]
fn called_name(
    here: &Here,
    run: &mut Run,
    store: &mut Store,
    id: ExprId,
    name: &Text,
    func: &mut Value,
    args: &mut Args,
    deep: u32,
    out: &mut Value,
) -> Result<Ended, Memory>
    requires ready { IsReady (trees_of here.now.site.now.codes.now.items) here.now.site.now.widget store.old run.old }
    requires held { IsExprAt (trees_of here.now.site.now.codes.now.items) here.now.site.now.widget store.old.cells id
        here.now.at }
    requires tree { trees here.now.tree.now ≡ forest_at (trees_of here.now.site.now.codes.now.items) here.now.at.code }
    requires none { args.old.items ≡ [] }
    ensures comes { let F = trees_of here.now.site.now.codes.now.items in let w = here.now.site.now.widget in
        IfOk result (λ how. Comes F w store.old store.new 5
        (expressions.arguments_then (values.Variable name.now) []
        (arguments_of (expr_at (forest_at F here.now.at.code) id)) (place_of w store.old.cells here.now.at))
        run.old run.new how out.new) }
    ensures kept { Kept (trees_of here.now.site.now.codes.now.items) here.now.site.now.widget store.old store.new }
{
    match arguments_on(here, run, store, id, args, deep, out)? {
        Ended::Is => variable_on(here, run, store, name, func, args, deep, out),
        how => hand_named(here, run, how, name, args, id),
    }
}

// A call of any target.
#[inline(never)]
#[cycle(direct)]
fn call_any(
    here: &Here,
    run: &mut Run,
    store: &mut Store,
    id: ExprId,
    to: ExprId,
    deep: u32,
    out: &mut Value,
) -> Result<Ended, Memory>
    requires ready { IsReady (trees_of here.now.site.now.codes.now.items) here.now.site.now.widget store.old run.old }
    requires held { IsExprAt (trees_of here.now.site.now.codes.now.items) here.now.site.now.widget store.old.cells id
        here.now.at
        × IsExprAt (trees_of here.now.site.now.codes.now.items) here.now.site.now.widget store.old.cells to
        here.now.at }
    requires tree { trees here.now.tree.now ≡ forest_at (trees_of here.now.site.now.codes.now.items) here.now.at.code }
    ensures comes { let F = trees_of here.now.site.now.codes.now.items in let w = here.now.site.now.widget in
        IfOk result (λ how. Comes F w store.old store.new 30
        (λ s. Do (job_of F w store.old.cells (Job.Target to here.now.at)) s
        (taken F w store.old.cells (Frame.Call (CallFrame.Callee id here.now.at))))
        run.old run.new how out.new) }
    ensures kept { Kept (trees_of here.now.site.now.codes.now.items) here.now.site.now.widget store.old store.new }
{
    let mut of = Reference::Found(Value::Undefined);
    called_any(here, run, store, id, to, &mut of, deep, out)
}

// The same with a place for its reference.
#[inline(always)]
#[cycle(direct)]
fn called_any(
    here: &Here,
    run: &mut Run,
    store: &mut Store,
    id: ExprId,
    to: ExprId,
    of: &mut Reference,
    deep: u32,
    out: &mut Value,
) -> Result<Ended, Memory>
    requires ready { IsReady (trees_of here.now.site.now.codes.now.items) here.now.site.now.widget store.old run.old }
    requires held { IsExprAt (trees_of here.now.site.now.codes.now.items) here.now.site.now.widget store.old.cells id
        here.now.at
        × IsExprAt (trees_of here.now.site.now.codes.now.items) here.now.site.now.widget store.old.cells to
        here.now.at }
    requires tree { trees here.now.tree.now ≡ forest_at (trees_of here.now.site.now.codes.now.items) here.now.at.code }
    ensures comes { let F = trees_of here.now.site.now.codes.now.items in let w = here.now.site.now.widget in
        IfOk result (λ how. Comes F w store.old store.new 30
        (λ s. Do (job_of F w store.old.cells (Job.Target to here.now.at)) s
        (taken F w store.old.cells (Frame.Call (CallFrame.Callee id here.now.at))))
        run.old run.new how out.new) }
    ensures kept { Kept (trees_of here.now.site.now.codes.now.items) here.now.site.now.widget store.old store.new }
{
    match target_on(here, run, store, to, deep, of, out)? {
        Ended::Is => reached_on(here, run, store, id, of, deep, out),
        how => hand_callee(run, how, id, &here.at),
    }
}

// The end of a target that is no reference.
#[cold]
#[inline(never)]
fn hand_callee(run: &mut Run, how: Ended, id: ExprId, place: &Place) -> Result<Ended, Memory>
    ensures { IfOk result (λ h. HandsOn run.old run.new how h (Frame.Call (CallFrame.Callee id place.now))) }
{
    match how {
        Ended::Left => wait(run, Frame::Call(CallFrame::Callee(id, *place))),
        how => Ok(how),
    }
}

// The arguments of a call of a reference, which has its value when they are there.
#[inline(always)]
#[cycle(direct)]
fn reached_on(
    here: &Here,
    run: &mut Run,
    store: &mut Store,
    id: ExprId,
    of: &mut Reference,
    deep: u32,
    out: &mut Value,
) -> Result<Ended, Memory>
    requires ready { IsReady (trees_of here.now.site.now.codes.now.items) here.now.site.now.widget store.old run.old }
    requires held { IsExprAt (trees_of here.now.site.now.codes.now.items) here.now.site.now.widget store.old.cells id
        here.now.at
        × FineReference here.now.site.now.widget store.old.cells of.old }
    requires tree { trees here.now.tree.now ≡ forest_at (trees_of here.now.site.now.codes.now.items) here.now.at.code }
    ensures comes { let F = trees_of here.now.site.now.codes.now.items in let w = here.now.site.now.widget in
        IfOk result (λ how. Comes F w store.old store.new 5
        (expressions.arguments_then (reference_of w store.old.cells of.old) []
        (arguments_of (expr_at (forest_at F here.now.at.code) id)) (place_of w store.old.cells here.now.at))
        run.old run.new how out.new) }
    ensures kept { Kept (trees_of here.now.site.now.codes.now.items) here.now.site.now.widget store.old store.new }
{
    let mut args = Args::new(here.site.alloc);
    method_on(here, run, store, id, of, &mut args, deep, out)
}

// The same with a place for them.
#[inline(always)]
#[cycle(direct)]
fn method_on(
    here: &Here,
    run: &mut Run,
    store: &mut Store,
    id: ExprId,
    of: &mut Reference,
    args: &mut Args,
    deep: u32,
    out: &mut Value,
) -> Result<Ended, Memory>
    requires ready { IsReady (trees_of here.now.site.now.codes.now.items) here.now.site.now.widget store.old run.old }
    requires held { IsExprAt (trees_of here.now.site.now.codes.now.items) here.now.site.now.widget store.old.cells id
        here.now.at
        × FineReference here.now.site.now.widget store.old.cells of.old }
    requires tree { trees here.now.tree.now ≡ forest_at (trees_of here.now.site.now.codes.now.items) here.now.at.code }
    requires none { args.old.items ≡ [] }
    ensures comes { let F = trees_of here.now.site.now.codes.now.items in let w = here.now.site.now.widget in
        IfOk result (λ how. Comes F w store.old store.new 5
        (expressions.arguments_then (reference_of w store.old.cells of.old) []
        (arguments_of (expr_at (forest_at F here.now.at.code) id)) (place_of w store.old.cells here.now.at))
        run.old run.new how out.new) }
    ensures kept { Kept (trees_of here.now.site.now.codes.now.items) here.now.site.now.widget store.old store.new }
{
    match arguments_on(here, run, store, id, args, deep, out)? {
        Ended::Is => referred_on(here, run, store, of, args, deep, out),
        how => hand_argument(here, run, how, of, args, id),
    }
}

// The arguments of a call from left to right, whatever is called.
#[inline(always)]
#[cycle(direct)]
fn arguments_on(
    here: &Here,
    run: &mut Run,
    store: &mut Store,
    id: ExprId,
    args: &mut Args,
    deep: u32,
    out: &mut Value,
) -> Result<Ended, Memory>
    requires ready { IsReady (trees_of here.now.site.now.codes.now.items) here.now.site.now.widget store.old run.old }
    requires held { IsExprAt (trees_of here.now.site.now.codes.now.items) here.now.site.now.widget store.old.cells id
        here.now.at }
    requires tree { trees here.now.tree.now ≡ forest_at (trees_of here.now.site.now.codes.now.items) here.now.at.code }
    requires none { args.old.items ≡ [] }
    ensures comes { let F = trees_of here.now.site.now.codes.now.items in let w = here.now.site.now.widget in
        IfOk result (λ how. Argues F w (arguments_of (expr_at (forest_at F here.now.at.code) id))
        (place_of w store.old.cells here.now.at) store.old store.new args.new.items run.old run.new how out.new) }
    ensures kept { Kept (trees_of here.now.site.now.codes.now.items) here.now.site.now.widget store.old store.new }
{
    let mut n = 0;
    'arguments: while let Some(e) = argument_left(here, id, n) {
        n += 1;
        match operand_on(here, run, store, e, deep, out)? {
            Ended::Is => put_argument(args, out)?,
            other => return Ok(other),
        }
    }
    Ok(Ended::Is)
}

// An argument of a call, none where all are there.
#[inline(always)]
fn argument_left(here: &Here, call: ExprId, n: usize) -> Option<ExprId>
    requires call { IsExpr (forest_at (trees_of here.now.site.now.codes.now.items) here.now.at.code) call }
    requires tree { trees here.now.tree.now ≡ forest_at (trees_of here.now.site.now.codes.now.items) here.now.at.code }
    ensures { let f = forest_at (trees_of here.now.site.now.codes.now.items) here.now.at.code in HasExpr f
        (arguments_of (expr_at f call)) n result }
{
    argument_at(here.tree, call, n)
}

// One argument more.
#[inline(always)]
fn put_argument(args: &mut Args, out: &mut Value) -> Result<(), Memory>
    ensures { OnOk result (args.new.items ≡ args.old.items ++ out.old ∷ []) }
{
    args.reserve(1)?;
    args.push_reserved(take_value(out));
    Ok(())
}

// A call waits for an argument behind those that are there, which it takes along.
#[cold]
#[inline(never)]
fn wait_argument(
    alloc: Global,
    run: &mut Run,
    of: &mut Reference,
    args: &mut Args,
    id: ExprId,
    place: &Place,
) -> Result<Ended, Memory>
    ensures { IfOk result (λ how. WaitsFor run.old run.new how (record {
      of = of.old;
      args = args.old;
      call = id;
      next = length args.old.items + 1;
      place = place.now;
    })) }
{
    let of = mem::replace(of, Reference::Found(Value::Undefined));
    let args = mem::replace(args, Args::new(alloc));
    let Some(next) = args.len().checked_add(1) else {
        return Err(Memory);
    };
    let a = Argument {
        of,
        args,
        call: id,
        next,
        place: *place,
    };
    wait(run, Frame::Call(CallFrame::Argument(Box::new(alloc, a)?)))
}

// The end of an argument that is no value.
#[cold]
#[inline(never)]
fn hand_argument(
    here: &Here,
    run: &mut Run,
    how: Ended,
    of: &mut Reference,
    args: &mut Args,
    id: ExprId,
) -> Result<Ended, Memory>
    ensures { IfOk result (λ h. HandsArgument run.old run.new how h (record {
      of = of.old;
      args = args.old;
      call = id;
      next = length args.old.items + 1;
      place = here.now.at;
    })) }
{
    match how {
        Ended::Left => wait_argument(here.site.alloc, run, of, args, id, &here.at),
        how => Ok(how),
    }
}

// The same in a call of a variable.
#[cold]
#[inline(never)]
fn hand_named(
    here: &Here,
    run: &mut Run,
    how: Ended,
    name: &Text,
    args: &mut Args,
    id: ExprId,
) -> Result<Ended, Memory>
    ensures { IfOk result (λ h. HandsArgument run.old run.new how h (record {
      of = Reference.Variable name.now;
      args = args.old;
      call = id;
      next = length args.old.items + 1;
      place = here.now.at;
    })) }
{
    match how {
        Ended::Left => wait_named(here, run, name, args, id),
        how => Ok(how),
    }
}

// A call of a variable waits for an argument.
fn wait_named(
    here: &Here,
    run: &mut Run,
    name: &Text,
    args: &mut Args,
    id: ExprId,
) -> Result<Ended, Memory>
    ensures { IfOk result (λ how. WaitsFor run.old run.new how (record {
      of = Reference.Variable name.now;
      args = args.old;
      call = id;
      next = length args.old.items + 1;
      place = here.now.at;
    })) }
{
    let mut of = Reference::Variable(name.share()?);
    wait_argument(here.site.alloc, run, &mut of, args, id, &here.at)
}

// A variable is called: its arguments are there.
#[inline(always)]
#[cycle(direct)]
fn variable_on(
    here: &Here,
    run: &mut Run,
    store: &mut Store,
    name: &Text,
    func: &mut Value,
    args: &mut Args,
    deep: u32,
    out: &mut Value,
) -> Result<Ended, Memory>
    requires ready { IsReady (trees_of here.now.site.now.codes.now.items) here.now.site.now.widget store.old run.old }
    requires held { IsPlace (trees_of here.now.site.now.codes.now.items) here.now.site.now.widget store.old.cells
        here.now.at
        × AreFine here.now.site.now.widget store.old.cells args.old.items }
    ensures comes { let F = trees_of here.now.site.now.codes.now.items in let w = here.now.site.now.widget in
        IfOk result (λ how. Comes F w store.old store.new 4
        (expressions.arguments_then (values.Variable name.now) (all_seen w store.old.cells args.old.items) []
        (place_of w store.old.cells here.now.at))
        run.old run.new how out.new) }
    ensures kept { Kept (trees_of here.now.site.now.codes.now.items) here.now.site.now.widget store.old store.new }
{
    share_to(variable_at(store, here.at.scope, name), func)?;
    let mut this = None;
    value_on(
        here.site,
        run,
        store,
        func,
        &mut this,
        args,
        here.at.depth,
        deep,
        out,
    )
}

// What a reference has is called: its arguments are there.
#[inline(always)]
#[cycle(direct)]
fn referred_on(
    here: &Here,
    run: &mut Run,
    store: &mut Store,
    of: &mut Reference,
    args: &mut Args,
    deep: u32,
    out: &mut Value,
) -> Result<Ended, Memory>
    requires ready { IsReady (trees_of here.now.site.now.codes.now.items) here.now.site.now.widget store.old run.old }
    requires held { IsPlace (trees_of here.now.site.now.codes.now.items) here.now.site.now.widget store.old.cells
        here.now.at
        × FineReference here.now.site.now.widget store.old.cells of.old
        × AreFine here.now.site.now.widget store.old.cells args.old.items }
    ensures comes { let F = trees_of here.now.site.now.codes.now.items in let w = here.now.site.now.widget in
        IfOk result (λ how. Comes F w store.old store.new 4
        (expressions.arguments_then (reference_of w store.old.cells of.old)
        (all_seen w store.old.cells args.old.items) [] (place_of w store.old.cells here.now.at))
        run.old run.new how out.new) }
    ensures kept { Kept (trees_of here.now.site.now.codes.now.items) here.now.site.now.widget store.old store.new }
{
    let func = referred(here, store, of)?;
    let mut this = take_base(of);
    value_far(
        here.site,
        run,
        store,
        &func,
        &mut this,
        args,
        here.at.depth,
        deep,
        out,
    )
}

// What a call of a reference is a method of.
#[inline(always)]
fn take_base(of: &mut Reference) -> Option<Value>
    ensures base { (w : ℕ) (s : Cells) → option_map (seen w s.cells) result ≡ expressions.base_of
        (reference_of w s.cells of.old) }
    ensures fine { (w : ℕ) (s : Cells) → FineReference w s.cells of.old → IfSome result (IsFine w s.cells) }
{
    match mem::replace(of, Reference::Found(Value::Undefined)) {
        Reference::Property(base, _) => Some(base),
        Reference::Element(cell, _) => Some(Value::Ref(cell)),
        _ => None,
    }
}
