//! The scope of a call, with the names of its function and their first values.
ghost use Rattle.std.specs.Prelude.{◌≡◌, ℕ, ◌<◌, ◌++◌, List, Option, None, IfOk, length, map, option_to_list};
ghost use Rattle.std.specs.List.{IsDistinct};
ghost use Rattle.std.specs.Str.{bytes_eq};
ghost use Rattle.js_tree.specs.Forest.{Forest, IsFun};
ghost use Rattle.widget_meaning.specs.Costs as costs;
ghost use Rattle.widget_meaning.specs.OwnState.{State, with_new_scope};
ghost use Rattle.widget_meaning.specs.Plan.{Plan};
ghost use Rattle.js_image.specs.Image.{Rest, image};
ghost use Rattle.js_image.specs.Held.{AreFine, IsFine, IsPlaceScope, Kept};
ghost use Rattle.js_image.specs.Plans.{IsScopeMade, scope_plan};
ghost use Rattle.js_names.specs.Code.{code_trees};
ghost use Rattle.js_calls.specs.Called.{named_scope, own_called, scope_called};

use crate::invoking::Called;
use code_units::{Memory, Text};
use js_image::{Made, make_call_scope};
use js_names::{Code, FunNames, fun_names, scopes_of_calls};
use object_store::{FirstNames, FunParts, Store};
use std::alloc::Global;

/// The scope of a call is made in that of its function: the names of the function, each once, with their first values.
#[inline(always)]
pub fn open_scope(
    alloc: Global,
    w: u32,
    store: &mut Store,
    code: &Code,
    parts: FunParts,
    call: &Called,
) -> Result<Made, Memory>
    requires widget { w < 32 }
    requires fun { IsFun (code_trees code.now) parts.fun }
    requires outer { IsPlaceScope w store.old.cells parts.scope }
    requires held { IsFine w store.old.cells call.now.func.now × AreFine w store.old.cells call.now.args.now }
    ensures plan { IfOk result (λ m. (fs : List Forest) (r : Rest) (k : ℕ → State → Plan)
        → let c = scope_called w store.old.cells (code_trees code.now) parts call.now in
        costs.pay (costs.scope_cost c) (image fs r w store.old) (λ t. k (length t.own.scopes) (with_new_scope t c))
        ≡ scope_plan w store.new.cells m k (image fs r w store.new)) }
    ensures fine { IfOk result (IsScopeMade w store.new.cells) }
    ensures kept { (fs : List Forest) → Kept fs w store.old store.new }
{
    scopes_of_calls();
    match code.names(parts.fun) {
        Some(names) => scope_with(alloc, w, store, names, parts, call),
        None => found_scope(alloc, w, store, code, parts, call),
    }
}

// The same where the names of the function are not kept.
#[cold]
#[inline(never)]
fn found_scope(
    alloc: Global,
    w: u32,
    store: &mut Store,
    code: &Code,
    parts: FunParts,
    call: &Called,
) -> Result<Made, Memory>
    requires widget { w < 32 }
    requires fun { IsFun (code_trees code.now) parts.fun }
    requires outer { IsPlaceScope w store.old.cells parts.scope }
    requires held { IsFine w store.old.cells call.now.func.now × AreFine w store.old.cells call.now.args.now }
    ensures plan { IfOk result (λ m. (fs : List Forest) (r : Rest) (k : ℕ → State → Plan)
        → let c = scope_called w store.old.cells (code_trees code.now) parts call.now in
        costs.pay (costs.scope_cost c) (image fs r w store.old) (λ t. k (length t.own.scopes) (with_new_scope t c))
        ≡ scope_plan w store.new.cells m k (image fs r w store.new)) }
    ensures fine { IfOk result (IsScopeMade w store.new.cells) }
    ensures kept { (fs : List Forest) → Kept fs w store.old store.new }
{
    scopes_of_calls();
    let names = fun_names(alloc, code.tree(), parts.fun)?;
    scope_with(alloc, w, store, &names, parts, call)
}

// The same by the names of the function.
#[inline(always)]
fn scope_with(
    alloc: Global,
    w: u32,
    store: &mut Store,
    names: &FunNames,
    parts: FunParts,
    call: &Called,
) -> Result<Made, Memory>
    requires widget { w < 32 }
    requires names { IsDistinct bytes_eq (map (λ x. x.text) names.now.names.items ++ option_to_list names.now.own) }
    requires outer { IsPlaceScope w store.old.cells parts.scope }
    requires held { IsFine w store.old.cells call.now.func.now × AreFine w store.old.cells call.now.args.now }
    ensures plan { IfOk result (λ m. (fs : List Forest) (r : Rest) (k : ℕ → State → Plan)
        → let c = named_scope w store.old.cells names.now parts call.now in
        costs.pay (costs.scope_cost c) (image fs r w store.old) (λ t. k (length t.own.scopes) (with_new_scope t c))
        ≡ scope_plan w store.new.cells m k (image fs r w store.new)) }
    ensures fine { IfOk result (IsScopeMade w store.new.cells) }
    ensures kept { (fs : List Forest) → Kept fs w store.old store.new }
{
    let none = None;
    let first = FirstNames {
        names: &names.names,
        own: own_name(names, parts.declared, &none),
        func: call.func,
        args: call.args,
    };
    make_call_scope(alloc, store, w, parts.scope, &first)
}

// The own name of a function that its calls have: a declared one has none.
#[inline(always)]
fn own_name<'a>(names: &'a FunNames, declared: bool, none: &'a Option<Text>) -> &'a Option<Text>
    requires { none.now ≡ None }
    ensures { result.now ≡ own_called declared names.now.own }
{
    if declared { none } else { &names.own }
}
