//! The declared functions of a function are made in the scope of its call.
ghost use Rattle.std.specs.Prelude.{◌≡◌, ℕ, ◌<◌, List, All, IfOk, Some, length, map, option_to_list, slice_get};
ghost use Rattle.std.specs.List.{flat_map};
ghost use Rattle.js_tree.specs.Forest.{Forest, IsFun, fun_at};
ghost use Rattle.js_tree.specs.Lists.{fun_list};
ghost use Rattle.object_store.specs.Owned.{scope_number};
ghost use Rattle.widget_meaning.specs.OwnState.{State, new_function};
ghost use Rattle.widget_meaning.specs.Plan.{Plan};
ghost use Rattle.widget_meaning.specs.Costs as costs;
ghost use Rattle.widget_meaning.specs.Calls as calls;
ghost use Rattle.widget_meaning.specs.Scopes.{fun_name, without_name};
ghost use Rattle.js_image.specs.Image.{Rest, image, seen};
ghost use Rattle.js_image.specs.Held.{IsConfined, IsFine, IsOwnScope, Kept};
ghost use Rattle.js_image.specs.Plans.{paid_plan};
ghost use Rattle.js_names.specs.Code.{trees_of};
ghost use Rattle.js_names.specs.Hoisting.{fun_texts};
ghost use Rattle.js_flow.specs.Parts.{body_of, forest_at, funs_of};
ghost use Rattle.js_calls.specs.Called.{AreNamed, FineEntry, IfDone, IsNamed, entry_plan};

use code_units::{Memory, Text};
use js_flow::Place;
use js_image::{Made, Paid, StopCause, assign, make};
use js_names::{Code, tree_at};
use js_tree::{FunId, lists_agree};
use object_store::{CellId, NewCell, Store, Value};
use std::alloc::Global;

/// A function in the new scope of its call.
#[derive(Clone, Copy, Drop)]
pub struct Entered {
    pub code: u32,
    pub fun: FunId,
    pub scope: CellId,
    pub depth: u32,
}

/// What comes when a function was entered.
#[derive(Clone, Copy, Drop)]
pub enum Entry {
    /// Its body, which runs here.
    Body(Place),
    Stop(StopCause),
}

// Where its body runs.
#[inline(always)]
fn place_in(e: Entered) -> Place
    ensures { result ≡ record { code = e.code; scope = Some e.scope; depth = e.depth } }
{
    Place {
        code: e.code,
        scope: Some(e.scope),
        depth: e.depth,
    }
}

/// Its declared functions are made in order of the text. What comes then is its body.
#[inline(always)]
pub fn declare(
    alloc: Global,
    w: u32,
    codes: &Vec<Code>,
    store: &mut Store,
    e: Entered,
) -> Result<Entry, Memory>
    requires widget { w < 32 }
    requires confined { IsConfined (trees_of codes.now.items) w store.old }
    requires code { e.code < length (trees_of codes.now.items) }
    requires fun { IsFun (forest_at (trees_of codes.now.items) e.code) e.fun }
    requires scope { IsOwnScope w store.old.cells e.scope }
    requires named { AreNamed w store.old e.scope
        (flat_map fun_name (fun_list (funs_of (fun_at (forest_at (trees_of codes.now.items) e.code) e.fun)))) }
    ensures plan { IfOk result (λ p. (r : Rest)
        → entry_plan (trees_of codes.now.items) w store.new.cells e.fun p
        (image (trees_of codes.now.items) r w store.new)
        ≡ calls.declare (fun_list (funs_of (fun_at (forest_at (trees_of codes.now.items) e.code) e.fun)))
        (scope_number w store.old.cells e.scope) (image (trees_of codes.now.items) r w store.old)
        (calls.call_body (body_of (fun_at (forest_at (trees_of codes.now.items) e.code) e.fun))
        (record { scope = Some (scope_number w store.old.cells e.scope); depth = e.depth }))) }
    ensures fine { IfOk result (FineEntry (trees_of codes.now.items) w store.new.cells e.fun) }
    ensures kept { Kept (trees_of codes.now.items) w store.old store.new }
{
    lists_agree();
    let tree = tree_at(codes, e.code);
    let node = tree.fun(e.fun);
    if node.funs.len() == 0 {
        return Ok(Entry::Body(place_in(e)));
    }
    match declare_all(alloc, w, codes, store, &node.funs, e)? {
        Paid::Stop(cause) => Ok(Entry::Stop(cause)),
        Paid::Done => Ok(Entry::Body(place_in(e))),
    }
}

// Functions one after the other.
#[inline(never)]
fn declare_all(
    alloc: Global,
    w: u32,
    codes: &Vec<Code>,
    store: &mut Store,
    list: &Vec<FunId>,
    e: Entered,
) -> Result<Paid, Memory>
    requires widget { w < 32 }
    requires confined { IsConfined (trees_of codes.now.items) w store.old }
    requires code { e.code < length (trees_of codes.now.items) }
    requires funs { All (IsFun (forest_at (trees_of codes.now.items) e.code)) list.now.items }
    requires scope { IsOwnScope w store.old.cells e.scope }
    requires named { AreNamed w store.old e.scope
        (fun_texts (forest_at (trees_of codes.now.items) e.code) list.now.items) }
    ensures plan { IfOk result (λ p. (r : Rest) (k : State → Plan)
        → calls.declare (map (fun_at (forest_at (trees_of codes.now.items) e.code)) list.now.items)
        (scope_number w store.old.cells e.scope) (image (trees_of codes.now.items) r w store.old) k
        ≡ paid_plan p k (image (trees_of codes.now.items) r w store.new)) }
    ensures kept { Kept (trees_of codes.now.items) w store.old store.new }
{
    'list: for n in 0..list.len() {
        let inner = id_at(list, n);
        match declare_one(alloc, w, codes, store, inner, e)? {
            Paid::Done => {}
            Paid::Stop(cause) => return Ok(Paid::Stop(cause)),
        }
    }
    Ok(Paid::Done)
}

// The function at a place of a list.
#[tactic(auto, using(crate::proofs::Declared::at_default))]
fn id_at(list: &Vec<FunId>, n: usize) -> FunId
    requires { n < length list.now.items }
    ensures { slice_get list.now.items n ≡ Some result }
{
    list[n]
}

// A declared function is made, and is the value of its name.
fn declare_one(
    alloc: Global,
    w: u32,
    codes: &Vec<Code>,
    store: &mut Store,
    inner: FunId,
    e: Entered,
) -> Result<Paid, Memory>
    requires widget { w < 32 }
    requires confined { IsConfined (trees_of codes.now.items) w store.old }
    requires code { e.code < length (trees_of codes.now.items) }
    requires fun { IsFun (forest_at (trees_of codes.now.items) e.code) inner }
    requires scope { IsOwnScope w store.old.cells e.scope }
    requires named { AreNamed w store.old e.scope
        (fun_name (fun_at (forest_at (trees_of codes.now.items) e.code) inner)) }
    ensures plan { IfOk result (λ p. (r : Rest) (k : State → Plan)
        → costs.make (new_function (without_name (fun_at (forest_at (trees_of codes.now.items) e.code) inner))
        (Some (scope_number w store.old.cells e.scope))) 0 (image (trees_of codes.now.items) r w store.old)
        (λ v t. k (calls.with_variable t (scope_number w store.old.cells e.scope)
        (fun_name (fun_at (forest_at (trees_of codes.now.items) e.code) inner)) v))
        ≡ paid_plan p k (image (trees_of codes.now.items) r w store.new)) }
    ensures names { IfOk result
        (λ p. IfDone p ((x : List ℕ) → IsNamed w store.old e.scope x → IsNamed w store.new e.scope x)) }
    ensures kept { Kept (trees_of codes.now.items) w store.old store.new }
{
    let tree = tree_at(codes, e.code);
    let node = tree.fun(inner);
    let cell = NewCell::Function {
        code: e.code,
        fun: inner,
        declared: true,
        scope: Some(e.scope),
    };
    match make(alloc, store, w, cell)? {
        Made::Stop(cause) => Ok(Paid::Stop(cause)),
        Made::Cell(id) => {
            set_name(w, store, e.scope, &node.name, Value::Ref(id));
            Ok(Paid::Done)
        }
    }
}

// A value under a name that the scope has.
fn set_name(w: u32, store: &mut Store, scope: CellId, name: &Option<Text>, value: Value)
    requires scope { IsOwnScope w store.old.cells scope }
    requires named { AreNamed w store.old scope (option_to_list name.now) }
    requires value { IsFine w store.old.cells value }
    ensures plan { (fs : List Forest) (r : Rest) → IsConfined fs w store.old
        → image fs r w store.new ≡ calls.with_variable (image fs r w store.old)
        (scope_number w store.old.cells scope) (option_to_list name.now) (seen w store.old.cells value) }
    ensures kept { (fs : List Forest) → IsConfined fs w store.old → Kept fs w store.old store.new }
{
    match name {
        Some(x) => assign(store, w, Some(scope), x, value),
        None => {}
    }
}
