//! The statements of blocks, carried out in place.
ghost use Rattle.std.specs.Prelude.{◌≡◌, ◌<◌, ◌+◌, ◌^◌, IfOk, [], ◌∷◌, ◌++◌, IfSome, option_copied, slice_get};
ghost use Rattle.js_tree.specs.Plain.{stmt_place, stmt_names};
ghost use Rattle.js_tree.specs.Trees.{trees};
ghost use Rattle.js_tree.specs.Forest.{IsStmt, stmt_at, IsFun, AreStmtParts, plain_stmt};
ghost use Rattle.widget_meaning.specs.Meaning.{body};
ghost use Rattle.js_image.specs.Held.{Kept};
ghost use Rattle.js_names.specs.Code.{trees_of};
ghost use Rattle.js_flow.specs.Fine.{IsBlockAt};
ghost use Rattle.js_flow.specs.Parts.{forest_at, IsBlock};
ghost use Rattle.js_flow.specs.Statements.{block_at};
ghost use Rattle.js_direct.specs.Listed.{IsListOf};
ghost use Rattle.js_direct.specs.Hands.{HandsOn};
ghost use Rattle.js_direct.specs.Comes.{Comes, IsReady};

use crate::run::{Ended, Here, Run, wait};
use crate::statements::exec_on;
use code_units::Memory;
use js_flow::{Block, Frame, Place, StatementFrame, has_directive, statement_at};
use js_tree::{FunId, Stmt, StmtId, Tree, lists_agree};
use object_store::{Store, Value};

/// The statements of a block, which costs nothing.
#[inline(always)]
#[cycle(direct)]
pub(crate) fn block_on(
    here: &Here,
    run: &mut Run,
    store: &mut Store,
    block: Block,
    deep: u32,
    out: &mut Value,
) -> Result<Ended, Memory>
    requires ready { IsReady (trees_of here.now.site.now.codes.now.items) here.now.site.now.widget store.old run.old }
    requires held { IsBlockAt (trees_of here.now.site.now.codes.now.items) here.now.site.now.widget store.old.cells
        block here.now.at }
    requires tree { trees here.now.tree.now ≡ forest_at (trees_of here.now.site.now.codes.now.items) here.now.at.code }
    ensures comes { let F = trees_of here.now.site.now.codes.now.items in let w = here.now.site.now.widget in
        IfOk result (λ how. Comes F w store.old store.new 1
        (block_at F w store.old.cells block 0 here.now.at)
        run.old run.new how out.new) }
    ensures kept { Kept (trees_of here.now.site.now.codes.now.items) here.now.site.now.widget store.old store.new }
{
    match list_of(here.tree, block) {
        Some(list) => list_on(here, run, store, list, block, deep, out),
        None => any_on(here, run, store, (block, 0), deep, out),
    }
}

// The statements of a block, where they are one list that is read without a look at the block.
#[inline(always)]
fn list_of(tree: &Tree, block: Block) -> Option<&Vec<StmtId>>
    requires { IsBlock (trees tree.now) block }
    ensures { IfSome (option_copied result) (λ l. IsListOf (trees tree.now) block l.items) }
{
    match block {
        Block::Then(id) => then_list(tree, id),
        Block::Else(id) => else_list(tree, id),
        Block::Body(id) => body_list(tree, id),
        _ => None,
    }
}

// The branches of an `if`.
#[inline(always)]
fn then_list(tree: &Tree, id: StmtId) -> Option<&Vec<StmtId>>
    requires { IsStmt (trees tree.now) id }
    ensures { IfSome (option_copied result) (λ l. IsListOf (trees tree.now) (Block.Then id) l.items) }
{
    lists_agree();
    match tree.stmt(id) {
        Stmt::If(_, list, _) => Some(list),
        _ => None,
    }
}

#[inline(always)]
fn else_list(tree: &Tree, id: StmtId) -> Option<&Vec<StmtId>>
    requires { IsStmt (trees tree.now) id }
    ensures { IfSome (option_copied result) (λ l. IsListOf (trees tree.now) (Block.Else id) l.items) }
{
    lists_agree();
    match tree.stmt(id) {
        Stmt::If(_, _, list) => Some(list),
        _ => None,
    }
}

/// The body of a loop, by its node.
#[inline(always)]
pub(crate) fn loop_list<'a>(tree: &Tree, id: StmtId, node: &'a Stmt) -> Option<&'a Vec<StmtId>>
    requires node { let f = trees tree.now in
        plain_stmt f node.now (stmt_place (stmt_at f id)) (stmt_names (stmt_at f id)) ≡ stmt_at f id }
    requires parts { AreStmtParts (trees tree.now) node.now }
    ensures { IfSome (option_copied result) (λ l. IsListOf (trees tree.now) (Block.Loop id) l.items) }
{
    lists_agree();
    match node {
        Stmt::While(_, list) => Some(list),
        Stmt::DoWhile(_, list) => Some(list),
        Stmt::For(_, _, _, list) => Some(list),
        _ => None,
    }
}

// The body of a function, where it has no directive.
#[inline(always)]
fn body_list(tree: &Tree, id: FunId) -> Option<&Vec<StmtId>>
    requires { IsFun (trees tree.now) id }
    ensures { IfSome (option_copied result) (λ l. IsListOf (trees tree.now) (Block.Body id) l.items) }
{
    lists_agree();
    let list = &tree.fun(id).body;
    if has_directive(tree, id) {
        None
    } else {
        Some(list)
    }
}

// The statement at a place of a list, none from its end on.
#[inline(always)]
fn statement_in(list: &Vec<StmtId>, n: usize) -> Option<StmtId>
    ensures value { result ≡ slice_get list.now.items n }
    ensures room { IfSome result (λ i. n + 1 < 2 ^ 64) }
{
    if n < list.len() { Some(list[n]) } else { None }
}

/// The statements of a list, which is that of a block.
#[inline(always)]
#[cycle(direct)]
pub(crate) fn list_on(
    here: &Here,
    run: &mut Run,
    store: &mut Store,
    list: &Vec<StmtId>,
    block: Block,
    deep: u32,
    out: &mut Value,
) -> Result<Ended, Memory>
    requires ready { IsReady (trees_of here.now.site.now.codes.now.items) here.now.site.now.widget store.old run.old }
    requires held { IsBlockAt (trees_of here.now.site.now.codes.now.items) here.now.site.now.widget store.old.cells
        block here.now.at }
    requires tree { trees here.now.tree.now ≡ forest_at (trees_of here.now.site.now.codes.now.items) here.now.at.code }
    requires list { let f = forest_at (trees_of here.now.site.now.codes.now.items) here.now.at.code in
        IsListOf f block list.now.items }
    ensures comes { let F = trees_of here.now.site.now.codes.now.items in let w = here.now.site.now.widget in
        IfOk result (λ how. Comes F w store.old store.new 1
        (block_at F w store.old.cells block 0 here.now.at)
        run.old run.new how out.new) }
    ensures kept { Kept (trees_of here.now.site.now.codes.now.items) here.now.site.now.widget store.old store.new }
{
    let mut n = 0;
    'list: while let Some(id) = statement_in(list, n) {
        n += 1;
        match exec_on(here, run, store, id, deep, out)? {
            Ended::Normal => {}
            Ended::Return => return Ok(Ended::Return),
            how => return hand_rest(run, how, block, n, &here.at),
        }
    }
    Ok(Ended::Normal)
}

// The end of a statement after which the others are not reached at once.
#[inline(never)]
fn hand_rest(
    run: &mut Run,
    how: Ended,
    block: Block,
    n: usize,
    place: &Place,
) -> Result<Ended, Memory>
    ensures { IfOk result (λ h. HandsOn run.old run.new how h
        (Frame.Statement (StatementFrame.Seq block n place.now))) }
{
    match how {
        Ended::Left => wait_rest(run, block, n, place),
        how => Ok(how),
    }
}

// The statements after one wait for it.
#[cold]
#[inline(never)]
fn wait_rest(run: &mut Run, block: Block, n: usize, place: &Place) -> Result<Ended, Memory>
    ensures left { IfOk result (λ how. how ≡ Ended.Left) }
    ensures waits { IfOk result (λ how. run.new.waits.items
        ≡ run.old.waits.items ++ Frame.Statement (StatementFrame.Seq block n place.now) ∷ []) }
    ensures next { IfOk result (λ how. run.new.next ≡ run.old.next) }
    ensures units { IfOk result (λ how. run.new.units ≡ run.old.units) }
{
    wait(run, Frame::Statement(StatementFrame::Seq(block, n, *place)))
}

/// The statements of any block from a number on.
#[inline(never)]
#[cycle(direct)]
pub(crate) fn any_on(
    here: &Here,
    run: &mut Run,
    store: &mut Store,
    from: (Block, usize),
    deep: u32,
    out: &mut Value,
) -> Result<Ended, Memory>
    requires ready { IsReady (trees_of here.now.site.now.codes.now.items) here.now.site.now.widget store.old run.old }
    requires held { IsBlockAt (trees_of here.now.site.now.codes.now.items) here.now.site.now.widget store.old.cells
        from.0 here.now.at }
    requires tree { trees here.now.tree.now ≡ forest_at (trees_of here.now.site.now.codes.now.items) here.now.at.code }
    ensures comes { let F = trees_of here.now.site.now.codes.now.items in let w = here.now.site.now.widget in
        IfOk result (λ how. Comes F w store.old store.new 1
        (block_at F w store.old.cells from.0 from.1 here.now.at)
        run.old run.new how out.new) }
    ensures kept { Kept (trees_of here.now.site.now.codes.now.items) here.now.site.now.widget store.old store.new }
{
    let (mut at, mut n) = from;
    'list: while let Some(listed) = statement_at(here.tree, at, n) {
        at = listed.block;
        n = listed.next;
        match exec_on(here, run, store, listed.id, deep, out)? {
            Ended::Normal => {}
            Ended::Left => return wait_rest(run, at, n, &here.at),
            how => return Ok(how),
        }
    }
    Ok(Ended::Normal)
}
