//! `try`, carried out in place: its block, its `catch` and its `finally`.
ghost use Rattle.std.specs.Prelude.{◌≡◌, IfOk, IsFalse, IsTrue, MatchOption, Some, option_copied};
ghost use Rattle.js_tree.specs.Trees.{trees};
ghost use Rattle.js_tree.specs.Forest.{IsStmt, stmt_at};
ghost use Rattle.js_tree.specs.Plain as plain;
ghost use Rattle.widget_meaning.specs.Values as meaning;
ghost use Rattle.widget_meaning.specs.Plan.{and_then};
ghost use Rattle.widget_meaning.specs.Statements as statements;
ghost use Rattle.js_image.specs.Image.{seen};
ghost use Rattle.js_image.specs.Held.{IsFine, IsPlaceScope, Kept};
ghost use Rattle.js_names.specs.Code.{trees_of};
ghost use Rattle.js_flow.specs.Fine.{FineCompletion, IsStmtAt};
ghost use Rattle.js_flow.specs.Frames.{taken};
ghost use Rattle.js_flow.specs.Parts.{block_list, catch_body, catch_of, finally_body, finally_of, forest_at};
ghost use Rattle.js_flow.specs.Statements.{block_at};
ghost use Rattle.js_flow.specs.Views.{completion_of, place_of};
ghost use Rattle.js_direct.specs.Comes.{Comes, IsEnd, IsReady, ended_as};
ghost use Rattle.js_direct.specs.Hands.{WaitsToEnd};

use crate::blocks::block_on;
use crate::run::{Ended, Here, Run, completion, set_value, stop, take_value, wait};
use code_units::{Memory, Text};
use js_flow::{Block, Completion, Frame, Place, StatementFrame};
use js_image::{Made, make_scope};
use js_tree::{Stmt, StmtId, Tree};
use object_store::{CellId, Store, Value};

/// A `try`, after its unit.
#[inline(never)]
#[cycle(direct)]
pub(crate) fn try_on(
    here: &Here,
    run: &mut Run,
    store: &mut Store,
    id: StmtId,
    deep: u32,
    out: &mut Value,
) -> Result<Ended, Memory>
    requires ready { IsReady (trees_of here.now.site.now.codes.now.items) here.now.site.now.widget store.old run.old }
    requires held { IsStmtAt (trees_of here.now.site.now.codes.now.items) here.now.site.now.widget store.old.cells id
        here.now.at }
    requires tree { trees here.now.tree.now ≡ forest_at (trees_of here.now.site.now.codes.now.items) here.now.at.code }
    ensures comes { let F = trees_of here.now.site.now.codes.now.items in let w = here.now.site.now.widget in
        IfOk result (λ how. Comes F w store.old store.new 30
        (λ s. and_then (and_then (block_at F w store.old.cells (Block.Try id) 0 here.now.at s)
        (taken F w store.old.cells (Frame.Statement (StatementFrame.Caught id here.now.at))))
        (taken F w store.old.cells (Frame.Statement (StatementFrame.Finally id here.now.at))))
        run.old run.new how out.new) }
    ensures kept { Kept (trees_of here.now.site.now.codes.now.items) here.now.site.now.widget store.old store.new }
{
    match tried_on(here, run, store, id, deep, out)? {
        Ended::Left => wait(run, Frame::Statement(StatementFrame::Finally(id, here.at))),
        how => finally_on(here, run, store, id, how, deep, out),
    }
}

// The block of a `try`, and its `catch`.
#[cycle(direct)]
fn tried_on(
    here: &Here,
    run: &mut Run,
    store: &mut Store,
    id: StmtId,
    deep: u32,
    out: &mut Value,
) -> Result<Ended, Memory>
    requires ready { IsReady (trees_of here.now.site.now.codes.now.items) here.now.site.now.widget store.old run.old }
    requires held { IsStmtAt (trees_of here.now.site.now.codes.now.items) here.now.site.now.widget store.old.cells id
        here.now.at }
    requires tree { trees here.now.tree.now ≡ forest_at (trees_of here.now.site.now.codes.now.items) here.now.at.code }
    ensures comes { let F = trees_of here.now.site.now.codes.now.items in let w = here.now.site.now.widget in
        IfOk result (λ how. Comes F w store.old store.new 3
        (λ s. and_then (block_at F w store.old.cells (Block.Try id) 0 here.now.at s)
        (taken F w store.old.cells (Frame.Statement (StatementFrame.Caught id here.now.at))))
        run.old run.new how out.new) }
    ensures kept { Kept (trees_of here.now.site.now.codes.now.items) here.now.site.now.widget store.old store.new }
{
    match block_on(here, run, store, Block::Try(id), deep, out)? {
        Ended::Left => wait(run, Frame::Statement(StatementFrame::Caught(id, here.at))),
        how => caught_on(here, run, store, id, how, deep, out),
    }
}

// The name of the `catch` of a `try`, none where it has no `catch`.
fn catch_name(tree: &Tree, id: StmtId) -> Option<&Text>
    requires { IsStmt (trees tree.now) id }
    ensures { let c = catch_of (stmt_at (trees tree.now) id) in
        MatchOption (option_copied result) (c ≡ plain.NoCatch)
        (λ x. c ≡ plain.CatchAs x (catch_body c)) }
{
    match tree.stmt(id) {
        Stmt::Try(_, Some(caught), _) => Some(&caught.0),
        _ => None,
    }
}

// Whether a `try` has a `finally`.
fn has_finally(tree: &Tree, id: StmtId) -> bool
    requires { IsStmt (trees tree.now) id }
    ensures yes { IsTrue result
        → let b = finally_of (stmt_at (trees tree.now) id) in b ≡ plain.SomeBlock (finally_body b) }
    ensures no { IsFalse result → finally_of (stmt_at (trees tree.now) id) ≡ plain.NoBlock }
{
    matches!(tree.stmt(id), Stmt::Try(_, _, Some(_)))
}

/// After the block of a `try`: its `catch` of what was thrown, which is at the place.
#[cycle(direct)]
pub(crate) fn caught_on(
    here: &Here,
    run: &mut Run,
    store: &mut Store,
    id: StmtId,
    how: Ended,
    deep: u32,
    out: &mut Value,
) -> Result<Ended, Memory>
    requires ready { IsReady (trees_of here.now.site.now.codes.now.items) here.now.site.now.widget store.old run.old }
    requires held { IsStmtAt (trees_of here.now.site.now.codes.now.items) here.now.site.now.widget store.old.cells id
        here.now.at }
    requires tree { trees here.now.tree.now ≡ forest_at (trees_of here.now.site.now.codes.now.items) here.now.at.code }
    requires end { IsEnd how × FineCompletion here.now.site.now.widget store.old.cells (ended_as how out.old) }
    ensures comes { let F = trees_of here.now.site.now.codes.now.items in let w = here.now.site.now.widget in
        IfOk result (λ h. Comes F w store.old store.new 2
        (taken F w store.old.cells (Frame.Statement (StatementFrame.Caught id here.now.at))
        (completion_of w store.old.cells (ended_as how out.old)))
        run.old run.new h out.new) }
    ensures kept { Kept (trees_of here.now.site.now.codes.now.items) here.now.site.now.widget store.old store.new }
{
    match how {
        Ended::Threw => thrown_on(here, run, store, id, deep, out),
        how => Ok(how),
    }
}

// The same of what was thrown.
#[cycle(direct)]
fn thrown_on(
    here: &Here,
    run: &mut Run,
    store: &mut Store,
    id: StmtId,
    deep: u32,
    out: &mut Value,
) -> Result<Ended, Memory>
    requires ready { IsReady (trees_of here.now.site.now.codes.now.items) here.now.site.now.widget store.old run.old }
    requires held { IsStmtAt (trees_of here.now.site.now.codes.now.items) here.now.site.now.widget store.old.cells id
        here.now.at × IsFine here.now.site.now.widget store.old.cells out.old }
    requires tree { trees here.now.tree.now ≡ forest_at (trees_of here.now.site.now.codes.now.items) here.now.at.code }
    ensures comes { let F = trees_of here.now.site.now.codes.now.items in let w = here.now.site.now.widget in
        IfOk result (λ how. Comes F w store.old store.new 2
        (taken F w store.old.cells (Frame.Statement (StatementFrame.Caught id here.now.at))
        (meaning.Throw (seen w store.old.cells out.old)))
        run.old run.new how out.new) }
    ensures kept { Kept (trees_of here.now.site.now.codes.now.items) here.now.site.now.widget store.old store.new }
{
    match catch_name(here.tree, id) {
        None => Ok(Ended::Threw),
        Some(name) => catch_on(here, run, store, id, name, deep, out),
    }
}

// The `catch` of the value at the place, in a scope with its one name.
#[cycle(direct)]
fn catch_on(
    here: &Here,
    run: &mut Run,
    store: &mut Store,
    id: StmtId,
    name: &Text,
    deep: u32,
    out: &mut Value,
) -> Result<Ended, Memory>
    requires ready { IsReady (trees_of here.now.site.now.codes.now.items) here.now.site.now.widget store.old run.old }
    requires held { IsStmtAt (trees_of here.now.site.now.codes.now.items) here.now.site.now.widget store.old.cells id
        here.now.at × IsFine here.now.site.now.widget store.old.cells out.old }
    requires tree { trees here.now.tree.now ≡ forest_at (trees_of here.now.site.now.codes.now.items) here.now.at.code }
    ensures comes { let F = trees_of here.now.site.now.codes.now.items in let w = here.now.site.now.widget in
        IfOk result (λ how. Comes F w store.old store.new 1
        (statements.in_catch name.now (block_list (forest_at F here.now.at.code) (Block.Catch id))
        (seen w store.old.cells out.old) (place_of w store.old.cells here.now.at))
        run.old run.new how out.new) }
    ensures kept { Kept (trees_of here.now.site.now.codes.now.items) here.now.site.now.widget store.old store.new }
{
    let alloc = here.site.alloc;
    let shared = name.share()?;
    let value = take_value(out);
    let pairs = vec![in alloc; (shared, value)]?;
    match make_scope(alloc, store, here.site.widget, here.at.scope, pairs)? {
        Made::Stop(cause) => stop(run, cause),
        Made::Cell(scope) => catch_in(here, run, store, id, scope, deep, out),
    }
}

// The block of a `catch` in its scope.
#[cycle(direct)]
fn catch_in(
    here: &Here,
    run: &mut Run,
    store: &mut Store,
    id: StmtId,
    scope: CellId,
    deep: u32,
    out: &mut Value,
) -> Result<Ended, Memory>
    requires ready { IsReady (trees_of here.now.site.now.codes.now.items) here.now.site.now.widget store.old run.old }
    requires held { IsStmtAt (trees_of here.now.site.now.codes.now.items) here.now.site.now.widget store.old.cells id
        here.now.at × IsPlaceScope here.now.site.now.widget store.old.cells (Some scope) }
    requires tree { trees here.now.tree.now ≡ forest_at (trees_of here.now.site.now.codes.now.items) here.now.at.code }
    ensures comes { let F = trees_of here.now.site.now.codes.now.items in let w = here.now.site.now.widget in
        IfOk result (λ how. Comes F w store.old store.new 1
        (block_at F w store.old.cells (Block.Catch id) 0 (record here.now.at { scope = Some scope }))
        run.old run.new how out.new) }
    ensures kept { Kept (trees_of here.now.site.now.codes.now.items) here.now.site.now.widget store.old store.new }
{
    let inner = Here {
        site: &*here.site,
        tree: &*here.tree,
        at: Place {
            code: here.at.code,
            scope: Some(scope),
            depth: here.at.depth,
        },
    };
    block_on(&inner, run, store, Block::Catch(id), deep, out)
}

/// After the block and the `catch` of a `try`: its `finally`, whose own end replaces the earlier one where it is
/// abrupt.
#[cycle(direct)]
pub(crate) fn finally_on(
    here: &Here,
    run: &mut Run,
    store: &mut Store,
    id: StmtId,
    how: Ended,
    deep: u32,
    out: &mut Value,
) -> Result<Ended, Memory>
    requires ready { IsReady (trees_of here.now.site.now.codes.now.items) here.now.site.now.widget store.old run.old }
    requires held { IsStmtAt (trees_of here.now.site.now.codes.now.items) here.now.site.now.widget store.old.cells id
        here.now.at }
    requires tree { trees here.now.tree.now ≡ forest_at (trees_of here.now.site.now.codes.now.items) here.now.at.code }
    requires end { IsEnd how × FineCompletion here.now.site.now.widget store.old.cells (ended_as how out.old) }
    ensures comes { let F = trees_of here.now.site.now.codes.now.items in let w = here.now.site.now.widget in
        IfOk result (λ h. Comes F w store.old store.new 4
        (taken F w store.old.cells (Frame.Statement (StatementFrame.Finally id here.now.at))
        (completion_of w store.old.cells (ended_as how out.old)))
        run.old run.new h out.new) }
    ensures kept { Kept (trees_of here.now.site.now.codes.now.items) here.now.site.now.widget store.old store.new }
{
    if !has_finally(here.tree, id) {
        return Ok(how);
    }
    let before = take_value(out);
    match block_on(here, run, store, Block::Finally(id), deep, out)? {
        Ended::Normal => {
            set_value(out, before);
            Ok(how)
        }
        Ended::Left => wait_last(here, run, completion(how, before)),
        last => Ok(last),
    }
}

// An end waits for a `finally`.
#[cold]
#[inline(never)]
fn wait_last(here: &Here, run: &mut Run, how: Completion) -> Result<Ended, Memory>
    ensures { IfOk result (λ h. WaitsToEnd run.old run.new h how) }
{
    let boxed = Box::new(here.site.alloc, how)?;
    wait(run, Frame::Statement(StatementFrame::LastEnd(boxed)))
}
