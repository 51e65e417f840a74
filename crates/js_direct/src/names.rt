//! `for-in`, carried out in place: the names of an object, one pass for each that is still found.
ghost use Rattle.std.specs.Prelude.{◌≡◌, ◌<◌, ℕ, suc, List, IfOk, MatchOption, drop, false, length};
ghost use Rattle.js_tree.specs.Trees.{trees};
ghost use Rattle.js_tree.specs.Forest.{Forest, IsExpr, IsStmt, stmt_at};
ghost use Rattle.js_tree.specs.Lists.{stmt_list};
ghost use Rattle.js_tree.specs.Plain.{Stmt as Plain};
ghost use Rattle.store_cells.specs.Shape.{IsRefWithin};
ghost use Rattle.widget_meaning.specs.Values as meaning;
ghost use Rattle.widget_meaning.specs.Plan as plan;
ghost use Rattle.widget_meaning.specs.Plan.{Do, Pass, Ret};
ghost use Rattle.widget_meaning.specs.Calls as calls;
ghost use Rattle.widget_meaning.specs.Scopes as scopes;
ghost use Rattle.widget_meaning.specs.Statements as statements;
ghost use Rattle.js_image.specs.Image.{Rest, image, seen};
ghost use Rattle.js_image.specs.Held.{IsConfined, IsFine, Kept};
ghost use Rattle.js_names.specs.Code.{trees_of};
ghost use Rattle.js_flow.specs.Fine.{FineNames, IsStmtAt};
ghost use Rattle.js_flow.specs.Frames.{taken};
ghost use Rattle.js_flow.specs.Parts.{forest_at, loop_body, variable_of};
ghost use Rattle.js_flow.specs.Views.{job_of, name_at, place_of};
ghost use Rattle.js_direct.specs.Comes.{Comes, IsReady};
ghost use Rattle.js_direct.specs.Hands.{HandsOn};

use crate::blocks::block_on;
use crate::forms::operand_on;
use crate::properties::is_nothing;
use crate::run::{Ended, Here, Run, is_paid, leave_job, take_value, throw, wait};
use code_units::{Memory, Text};
use js_flow::{Block, ForInNames, Frame, Job, Place, StatementFrame};
use js_image::{Fault, assign, for_in_names, is_found};
use js_tree::{ExprId, Stmt, StmtId, Tree};
use object_store::{Store, Value};
use std::alloc::Global;

/// A `for-in`, after its unit: its object, and then its passes.
#[inline(never)]
#[cycle(direct)]
pub(crate) fn for_in_on(
    here: &Here,
    run: &mut Run,
    store: &mut Store,
    id: StmtId,
    e: ExprId,
    deep: u32,
    out: &mut Value,
) -> Result<Ended, Memory>
    requires ready { IsReady (trees_of here.now.site.now.codes.now.items) here.now.site.now.widget store.old run.old }
    requires held { IsStmtAt (trees_of here.now.site.now.codes.now.items) here.now.site.now.widget store.old.cells id
        here.now.at
        × IsExpr (forest_at (trees_of here.now.site.now.codes.now.items) here.now.at.code) e }
    requires tree { trees here.now.tree.now ≡ forest_at (trees_of here.now.site.now.codes.now.items) here.now.at.code }
    ensures comes { let F = trees_of here.now.site.now.codes.now.items in let w = here.now.site.now.widget in
        IfOk result (λ how. Comes F w store.old store.new 30
        (λ s. Do (job_of F w store.old.cells (Job.Eval e here.now.at)) s
        (taken F w store.old.cells (Frame.Statement (StatementFrame.ForInOver id here.now.at))))
        run.old run.new how out.new) }
    ensures kept { Kept (trees_of here.now.site.now.codes.now.items) here.now.site.now.widget store.old store.new }
{
    match operand_on(here, run, store, e, deep, out)? {
        Ended::Is => over_on(here, run, store, id, deep, out),
        how => hand_object(run, how, id, &here.at),
    }
}

// The end of its object that is no value.
#[cold]
#[inline(never)]
fn hand_object(run: &mut Run, how: Ended, id: StmtId, place: &Place) -> Result<Ended, Memory>
    ensures { IfOk result (λ h. HandsOn run.old run.new how h
        (Frame.Statement (StatementFrame.ForInOver id place.now))) }
{
    match how {
        Ended::Left => wait(run, Frame::Statement(StatementFrame::ForInOver(id, *place))),
        how => Ok(how),
    }
}

/// A `for-in` over the value at the place; undefined and null have no names.
#[cycle(direct)]
pub(crate) fn over_on(
    here: &Here,
    run: &mut Run,
    store: &mut Store,
    id: StmtId,
    deep: u32,
    out: &mut Value,
) -> Result<Ended, Memory>
    requires ready { IsReady (trees_of here.now.site.now.codes.now.items) here.now.site.now.widget store.old run.old }
    requires held { IsStmtAt (trees_of here.now.site.now.codes.now.items) here.now.site.now.widget store.old.cells id
        here.now.at × IsFine here.now.site.now.widget store.old.cells out.old }
    requires tree { trees here.now.tree.now ≡ forest_at (trees_of here.now.site.now.codes.now.items) here.now.at.code }
    ensures comes { let F = trees_of here.now.site.now.codes.now.items in let w = here.now.site.now.widget in
        IfOk result (λ how. Comes F w store.old store.new 4
        (taken F w store.old.cells (Frame.Statement (StatementFrame.ForInOver id here.now.at))
        (meaning.Is (seen w store.old.cells out.old)))
        run.old run.new how out.new) }
    ensures kept { Kept (trees_of here.now.site.now.codes.now.items) here.now.site.now.widget store.old store.new }
{
    if is_nothing(out) {
        return throw(here.site, run, store, Fault::E1, out);
    }
    let object = take_value(out);
    listed_on(here, run, store, id, object, deep, out)
}

// The names of a value that has some: each is charged.
#[cycle(direct)]
fn listed_on(
    here: &Here,
    run: &mut Run,
    store: &mut Store,
    id: StmtId,
    object: Value,
    deep: u32,
    out: &mut Value,
) -> Result<Ended, Memory>
    requires ready { IsReady (trees_of here.now.site.now.codes.now.items) here.now.site.now.widget store.old run.old }
    requires held { IsStmtAt (trees_of here.now.site.now.codes.now.items) here.now.site.now.widget store.old.cells id
        here.now.at × IsFine here.now.site.now.widget store.old.cells object }
    requires some { meaning.is_nothing (seen here.now.site.now.widget store.old.cells object) ≡ false }
    requires tree { trees here.now.tree.now ≡ forest_at (trees_of here.now.site.now.codes.now.items) here.now.at.code }
    ensures comes { let F = trees_of here.now.site.now.codes.now.items in let w = here.now.site.now.widget in
        IfOk result (λ how. Comes F w store.old store.new 4
        (taken F w store.old.cells (Frame.Statement (StatementFrame.ForInOver id here.now.at))
        (meaning.Is (seen w store.old.cells object)))
        run.old run.new how out.new) }
    ensures kept { Kept (trees_of here.now.site.now.codes.now.items) here.now.site.now.widget store.old store.new }
{
    let names = for_in_names(here.site.alloc, store, &object)?;
    let count = names.len();
    let listed = Box::new(
        here.site.alloc,
        ForInNames {
            object,
            names,
            at: 0,
            id,
        },
    )?;
    if is_paid(run, count) {
        return names_on(here, run, store, listed, deep, out);
    }
    wait(
        run,
        Frame::Statement(StatementFrame::ForInNext(listed, here.at)),
    )
}

// The first name from a place on that is still found.
fn next_name(store: &Store, names: &ForInNames) -> Option<usize>
    requires { IsRefWithin (length store.now.cells) names.now.object }
    ensures { (fs : List Forest) (r : Rest) (w : ℕ) (x : List ℕ) (b : List Plain) (p : plan.Place)
        → IsConfined fs w store.now → IsFine w store.now.cells names.now.object
        → let v = seen w store.now.cells names.now.object in let ys = names.now.names.items in let s = image fs r w
        store.now in
        MatchOption result
        (statements.for_in v x (drop names.now.at ys) b p s ≡ Ret meaning.Normal s)
        (λ n. (n < length ys) × (statements.for_in v x (drop names.now.at ys) b p s
        ≡ Do (Pass (plan.ForInLoop v x (name_at ys n) (drop (suc n) ys) b) p) s Ret)) }
{
    let mut at = names.at;
    'each: while let Some(name) = names.names.get(at) {
        if is_found(store, &names.object, name) {
            return Some(at);
        }
        at += 1;
    }
    None
}

/// The passes from the place among the names on.
#[cycle(direct)]
pub(crate) fn names_on(
    here: &Here,
    run: &mut Run,
    store: &mut Store,
    names: Box<ForInNames>,
    deep: u32,
    out: &mut Value,
) -> Result<Ended, Memory>
    requires ready { IsReady (trees_of here.now.site.now.codes.now.items) here.now.site.now.widget store.old run.old }
    requires held { FineNames (trees_of here.now.site.now.codes.now.items) here.now.site.now.widget store.old.cells
        names.value here.now.at }
    requires tree { trees here.now.tree.now ≡ forest_at (trees_of here.now.site.now.codes.now.items) here.now.at.code }
    ensures comes { let F = trees_of here.now.site.now.codes.now.items in let w = here.now.site.now.widget in
        IfOk result (λ how. Comes F w store.old store.new 1
        (taken F w store.old.cells (Frame.Statement (StatementFrame.ForInNext names here.now.at)) meaning.Normal)
        run.old run.new how out.new) }
    ensures kept { Kept (trees_of here.now.site.now.codes.now.items) here.now.site.now.widget store.old store.new }
{
    let mut names = names;
    'passes: while let Some(at) = next_name(store, &names) {
        names = at_name(names, at);
        if run.units == 0 {
            return leave_job(run, Job::PassIn(names, here.at));
        }
        run.units -= 1;
        let how = pass_in_on(here, run, store, &names, deep, out)?;
        names = behind(names);
        match how {
            Ended::Normal | Ended::Continue => {}
            Ended::Break => return Ok(Ended::Normal),
            how => return hand_names(run, how, names, &here.at),
        }
    }
    Ok(Ended::Normal)
}

// The same names at another place.
fn at_name(names: Box<ForInNames>, at: usize) -> Box<ForInNames>
    ensures { result.value ≡ record names.value { at = at } }
{
    let mut names = names;
    names.at = at;
    names
}

// The same names at the next place.
fn behind(names: Box<ForInNames>) -> Box<ForInNames>
    requires { names.value.at < length names.value.names.items }
    ensures { result.value ≡ record names.value { at = suc names.value.at } }
{
    let next = names.at + 1;
    at_name(names, next)
}

// The end of a body after which no pass is next; names that are left wait for it.
#[cold]
#[inline(never)]
fn hand_names(
    run: &mut Run,
    how: Ended,
    names: Box<ForInNames>,
    place: &Place,
) -> Result<Ended, Memory>
    ensures { IfOk result (λ h. HandsOn run.old run.new how h
        (Frame.Statement (StatementFrame.ForInNext names place.now))) }
{
    match how {
        Ended::Left => wait(
            run,
            Frame::Statement(StatementFrame::ForInNext(names, *place)),
        ),
        how => Ok(how),
    }
}

// A pass, after its unit: the variable gets the name, and the body runs.
#[cycle(direct)]
fn pass_in_on(
    here: &Here,
    run: &mut Run,
    store: &mut Store,
    names: &ForInNames,
    deep: u32,
    out: &mut Value,
) -> Result<Ended, Memory>
    requires ready { IsReady (trees_of here.now.site.now.codes.now.items) here.now.site.now.widget store.old run.old }
    requires held { FineNames (trees_of here.now.site.now.codes.now.items) here.now.site.now.widget store.old.cells
        names.now here.now.at × (names.now.at < length names.now.names.items) }
    requires tree { trees here.now.tree.now ≡ forest_at (trees_of here.now.site.now.codes.now.items) here.now.at.code }
    ensures comes { let F = trees_of here.now.site.now.codes.now.items in let w = here.now.site.now.widget in
        let i = stmt_at (forest_at F here.now.at.code) names.now.id in
        IfOk result (λ how. Comes F w store.old store.new 1
        (λ s. calls.statements (stmt_list (loop_body i)) (place_of w store.old.cells here.now.at)
        (scopes.assign s (place_of w store.old.cells here.now.at) (variable_of i)
        (meaning.Text (name_at names.now.names.items names.now.at))))
        run.old run.new how out.new) }
    ensures kept { Kept (trees_of here.now.site.now.codes.now.items) here.now.site.now.widget store.old store.new }
{
    let id = names.id;
    let variable = variable_at(here.site.alloc, here.tree, id)?;
    let name = name_of(here.site.alloc, names)?;
    assign(
        store,
        here.site.widget,
        here.at.scope,
        &variable,
        Value::Text(name),
    );
    block_on(here, run, store, Block::Loop(id), deep, out)
}

// The variable of a `for-in`; another statement has the empty name.
fn variable_at(alloc: Global, tree: &Tree, id: StmtId) -> Result<Text, Memory>
    requires { IsStmt (trees tree.now) id }
    ensures { IfOk result (λ t. t ≡ variable_of (stmt_at (trees tree.now) id)) }
{
    match tree.stmt(id) {
        Stmt::ForIn(_, name, _, _) => name.share(),
        _ => Text::from_units(alloc, Vec::new(alloc)),
    }
}

// The name at the place; from the end on the empty one.
fn name_of(alloc: Global, names: &ForInNames) -> Result<Text, Memory>
    ensures { IfOk result (λ t. t ≡ name_at names.now.names.items names.now.at) }
{
    match names.names.get(names.at) {
        Some(name) => name.share(),
        None => Text::from_units(alloc, Vec::new(alloc)),
    }
}
