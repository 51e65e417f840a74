//! Calls that have their function and their arguments, carried out in place.
ghost use Rattle.std.specs.Prelude.{◌≡◌, ℕ, suc, ◌+◌, ◌++◌, ◌∷◌, [], IfOk, IfSome};
ghost use Rattle.std.specs.Option.{option_map};
ghost use Rattle.js_tree.specs.Trees.{trees};
ghost use Rattle.js_tree.specs.Forest.{fun_at};
ghost use Rattle.store_cells.specs.Cells.{Cells};
ghost use Rattle.object_store.specs.Owned.{scope_number};
ghost use Rattle.widget_meaning.specs.Calls as calls;
ghost use Rattle.widget_meaning.specs.OwnState as state;
ghost use Rattle.widget_meaning.specs.OwnState.{State};
ghost use Rattle.widget_meaning.specs.Plan.{Ret};
ghost use Rattle.js_image.specs.Image.{all_seen, function_in, seen};
ghost use Rattle.js_image.specs.Held.{AreFine, IsFine, IsFunOf, IsPlaceScope, Kept};
ghost use Rattle.js_names.specs.Code.{trees_of};
ghost use Rattle.js_calls.specs.Called.{invoked};
ghost use Rattle.js_flow.specs.Fine.{FineCall, FineCompletion, IsBlockAt};
ghost use Rattle.js_flow.specs.Parts.{body_of, forest_at};
ghost use Rattle.js_flow.specs.Views.{completion_of, place_of};
ghost use Rattle.js_direct.specs.Comes.{Comes, IsEnd, IsReady, ended_as};

use crate::blocks::block_on;
use crate::natives::native_on;
use crate::run::{Ended, Here, Run, Site, clear, stop, throw, wait};
use code_units::Memory;
use js_calls::{Called, Entry, entered};
use js_flow::{Args, Block, Call, CallFrame, Frame};
use js_image::{Callee, Fault, callee};
use js_names::tree_at;
use js_tree::FunId;
use object_store::{FunParts, Store, Value};

/// A call that has its function and its arguments, after its unit.
pub(crate) fn invoke_on(
    site: &Site,
    run: &mut Run,
    store: &mut Store,
    call: Call,
    deep: u32,
    out: &mut Value,
) -> Result<Ended, Memory>
    requires ready { IsReady (trees_of site.now.codes.now.items) site.now.widget store.old run.old }
    requires held { FineCall site.now.widget store.old.cells call }
    ensures comes { let F = trees_of site.now.codes.now.items in let w = site.now.widget in
        IfOk result (λ how. Comes F w store.old store.new 4
        (invoked w store.old.cells call)
        run.old run.new how out.new) }
    ensures kept { Kept (trees_of site.now.codes.now.items) site.now.widget store.old store.new }
{
    let mut call = call;
    value_far(
        site,
        run,
        store,
        &call.func,
        &mut call.this,
        &mut call.args,
        call.depth,
        deep,
        out,
    )
}

/// The same as `value_on`, apart.
#[inline(never)]
#[cycle(direct)]
pub(crate) fn value_far(
    site: &Site,
    run: &mut Run,
    store: &mut Store,
    func: &Value,
    this: &mut Option<Value>,
    args: &mut Args,
    depth: u32,
    deep: u32,
    out: &mut Value,
) -> Result<Ended, Memory>
    requires ready { IsReady (trees_of site.now.codes.now.items) site.now.widget store.old run.old }
    requires held { IsFine site.now.widget store.old.cells func.now
        × IfSome this.old (IsFine site.now.widget store.old.cells)
        × AreFine site.now.widget store.old.cells args.old.items }
    ensures comes { let F = trees_of site.now.codes.now.items in let w = site.now.widget in
        IfOk result (λ how. Comes F w store.old store.new 4
        (calls.invoke (seen w store.old.cells func.now) (option_map (seen w store.old.cells) this.old)
        (all_seen w store.old.cells args.old.items) depth)
        run.old run.new how out.new) }
    ensures kept { Kept (trees_of site.now.codes.now.items) site.now.widget store.old store.new }
{
    value_on(site, run, store, func, this, args, depth, deep, out)
}

/// A value is called, which may be a method of another one, with its arguments. A native takes these along.
#[inline(always)]
#[cycle(direct)]
pub(crate) fn value_on(
    site: &Site,
    run: &mut Run,
    store: &mut Store,
    func: &Value,
    this: &mut Option<Value>,
    args: &mut Args,
    depth: u32,
    deep: u32,
    out: &mut Value,
) -> Result<Ended, Memory>
    requires ready { IsReady (trees_of site.now.codes.now.items) site.now.widget store.old run.old }
    requires held { IsFine site.now.widget store.old.cells func.now
        × IfSome this.old (IsFine site.now.widget store.old.cells)
        × AreFine site.now.widget store.old.cells args.old.items }
    ensures comes { let F = trees_of site.now.codes.now.items in let w = site.now.widget in
        IfOk result (λ how. Comes F w store.old store.new 4
        (calls.invoke (seen w store.old.cells func.now) (option_map (seen w store.old.cells) this.old)
        (all_seen w store.old.cells args.old.items) depth)
        run.old run.new how out.new) }
    ensures kept { Kept (trees_of site.now.codes.now.items) site.now.widget store.old store.new }
{
    match callee(store, func) {
        Callee::Function(parts) => {
            let call = Called {
                func: &*func,
                args: args.as_slice(),
                depth,
            };
            enter_on(site, run, store, &call, parts, deep, out)
        }
        Callee::Native(which) => native_on(site, run, store, this, args, depth, which, deep, out),
        Callee::Nothing => throw(site, run, store, Fault::E2, out),
    }
}

// A function of the widget, which runs one deeper.
#[inline(always)]
#[cycle(direct)]
fn enter_on(
    site: &Site,
    run: &mut Run,
    store: &mut Store,
    call: &Called,
    parts: FunParts,
    deep: u32,
    out: &mut Value,
) -> Result<Ended, Memory>
    requires ready { IsReady (trees_of site.now.codes.now.items) site.now.widget store.old run.old }
    requires fun { IsFunOf (trees_of site.now.codes.now.items) parts
        × IsPlaceScope site.now.widget store.old.cells parts.scope }
    requires held { IsFine site.now.widget store.old.cells call.now.func.now
        × AreFine site.now.widget store.old.cells call.now.args.now }
    ensures comes { let F = trees_of site.now.codes.now.items in let w = site.now.widget in
        IfOk result (λ how. Comes F w store.old store.new 4
        (calls.enter (state.Function (function_in F parts.code parts.fun parts.declared)
        (option_map (scope_number w store.old.cells) parts.scope))
        (seen w store.old.cells call.now.func.now) (all_seen w store.old.cells call.now.args.now)
        (suc call.now.depth))
        run.old run.new how out.new) }
    ensures kept { Kept (trees_of site.now.codes.now.items) site.now.widget store.old store.new }
{
    match entered(site.alloc, site.widget, site.codes, store, call, parts)? {
        Entry::Stop(cause) => stop(run, cause),
        Entry::Body(place) => {
            let here = Here {
                site: &*site,
                tree: tree_at(site.codes, place.code),
                at: place,
            };
            body_on(&here, run, store, parts.fun, deep, out)
        }
    }
}

// The body of a function that was entered.
#[inline(always)]
#[cycle(direct)]
fn body_on(
    here: &Here,
    run: &mut Run,
    store: &mut Store,
    fun: FunId,
    deep: u32,
    out: &mut Value,
) -> Result<Ended, Memory>
    requires ready { IsReady (trees_of here.now.site.now.codes.now.items) here.now.site.now.widget store.old run.old }
    requires held { IsBlockAt (trees_of here.now.site.now.codes.now.items) here.now.site.now.widget store.old.cells
        (Block.Body fun) here.now.at }
    requires tree { trees here.now.tree.now ≡ forest_at (trees_of here.now.site.now.codes.now.items) here.now.at.code }
    ensures comes { let F = trees_of here.now.site.now.codes.now.items in let w = here.now.site.now.widget in
        IfOk result (λ how. Comes F w store.old store.new 4
        (calls.call_body (body_of (fun_at (forest_at F here.now.at.code) fun)) (place_of w store.old.cells here.now.at))
        run.old run.new how out.new) }
    ensures kept { Kept (trees_of here.now.site.now.codes.now.items) here.now.site.now.widget store.old store.new }
{
    match block_on(here, run, store, Block::Body(fun), deep, out)? {
        Ended::Left => wait_end(run),
        how => Ok(call_end(how, out)),
    }
}

// A call waits for the end of its body.
#[cold]
#[inline(never)]
fn wait_end(run: &mut Run) -> Result<Ended, Memory>
    ensures left { IfOk result (λ how. how ≡ Ended.Left) }
    ensures waits { IfOk result (λ how. run.new.waits.items
        ≡ run.old.waits.items ++ Frame.Call CallFrame.CallEnd ∷ []) }
    ensures next { IfOk result (λ how. run.new.next ≡ run.old.next) }
    ensures units { IfOk result (λ how. run.new.units ≡ run.old.units) }
{
    wait(run, Frame::Call(CallFrame::CallEnd))
}

// How a call ends, by how its body ended.
#[inline(always)]
fn call_end(how: Ended, out: &mut Value) -> Ended
    requires { IsEnd how }
    ensures ended { IsEnd result }
    ensures end { (w : ℕ) (s : Cells) (t : State) → calls.call_end (completion_of w s.cells (ended_as how out.old)) t
        ≡ Ret (completion_of w s.cells (ended_as result out.new)) t }
    ensures fine { (w : ℕ) (s : Cells) → FineCompletion w s.cells (ended_as how out.old) → FineCompletion w s.cells
        (ended_as result out.new) }
{
    match how {
        Ended::Threw => Ended::Threw,
        Ended::Return => Ended::Is,
        _ => {
            clear(out);
            Ended::Is
        }
    }
}
