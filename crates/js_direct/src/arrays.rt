//! Array literals, which are born before their elements.
ghost use Rattle.std.specs.Prelude.{◌≡◌, ◌+◌, ◌<◌, [], ◌∷◌, drop, IfOk};
ghost use Rattle.js_tree.specs.Trees.{trees};
ghost use Rattle.js_tree.specs.Forest.{expr_at};
ghost use Rattle.widget_meaning.specs.OwnState.{State, new_array};
ghost use Rattle.widget_meaning.specs.Plan.{Plan};
ghost use Rattle.widget_meaning.specs.Costs as costs;
ghost use Rattle.widget_meaning.specs.Properties as properties;
ghost use Rattle.widget_meaning.specs.Expressions as expressions;
ghost use Rattle.js_image.specs.Image.{Rest, image, seen};
ghost use Rattle.js_image.specs.Held.{IsFine, IsHeld, Kept};
ghost use Rattle.js_names.specs.Code.{trees_of};
ghost use Rattle.js_flow.specs.Fine.{IsExprAt};
ghost use Rattle.js_flow.specs.Parts.{elements_of, forest_at};
ghost use Rattle.js_flow.specs.Views.{place_of};
ghost use Rattle.js_direct.specs.Comes.{Comes, IsReady};
ghost use Rattle.js_direct.specs.Goes.{GoesOn};

use crate::forms::operand_on;
use crate::run::{Ended, Here, Run, Site, stop, take_value, throw, wait};
use code_units::Memory;
use js_flow::{FormFrame, Frame, element_at};
use js_image::{Made, Written, make, put_at};
use js_tree::ExprId;
use object_store::{CellId, NewCell, Store, Value};

/// An array literal.
#[inline(never)]
#[cycle(direct)]
pub(crate) fn array_on(
    here: &Here,
    run: &mut Run,
    store: &mut Store,
    id: ExprId,
    deep: u32,
    out: &mut Value,
) -> Result<Ended, Memory>
    requires ready { IsReady (trees_of here.now.site.now.codes.now.items) here.now.site.now.widget store.old run.old }
    requires held { IsExprAt (trees_of here.now.site.now.codes.now.items) here.now.site.now.widget store.old.cells id
        here.now.at }
    requires tree { trees here.now.tree.now ≡ forest_at (trees_of here.now.site.now.codes.now.items) here.now.at.code }
    ensures comes { let F = trees_of here.now.site.now.codes.now.items in let w = here.now.site.now.widget in
        IfOk result (λ how. Comes F w store.old store.new 30
        (λ s. costs.make (new_array 0 []) 0 s (λ a t. expressions.array_parts a 0
        (elements_of (expr_at (forest_at F here.now.at.code) id)) (place_of w store.old.cells here.now.at) t))
        run.old run.new how out.new) }
    ensures kept { Kept (trees_of here.now.site.now.codes.now.items) here.now.site.now.widget store.old store.new }
{
    match make(here.site.alloc, store, here.site.widget, NewCell::Array)? {
        Made::Cell(array) => elements_on(here, run, store, array, id, deep, out),
        Made::Stop(cause) => stop(run, cause),
    }
}

// The elements of an array that is there.
#[cycle(direct)]
fn elements_on(
    here: &Here,
    run: &mut Run,
    store: &mut Store,
    array: CellId,
    id: ExprId,
    deep: u32,
    out: &mut Value,
) -> Result<Ended, Memory>
    requires ready { IsReady (trees_of here.now.site.now.codes.now.items) here.now.site.now.widget store.old run.old }
    requires held { IsHeld here.now.site.now.widget store.old.cells array
        × IsExprAt (trees_of here.now.site.now.codes.now.items) here.now.site.now.widget store.old.cells id
        here.now.at }
    requires tree { trees here.now.tree.now ≡ forest_at (trees_of here.now.site.now.codes.now.items) here.now.at.code }
    ensures comes { let F = trees_of here.now.site.now.codes.now.items in let w = here.now.site.now.widget in
        IfOk result (λ how. Comes F w store.old store.new 1
        (expressions.array_parts (seen w store.old.cells (Value.Ref array)) 0
        (elements_of (expr_at (forest_at F here.now.at.code) id)) (place_of w store.old.cells here.now.at))
        run.old run.new how out.new) }
    ensures kept { Kept (trees_of here.now.site.now.codes.now.items) here.now.site.now.widget store.old store.new }
{
    let mut n = 0;
    'elements: while let Some(e) = element_at(here.tree, id, n) {
        match element_on(here, run, store, (array, id, n, e), deep, out)? {
            Ended::Is => n += 1,
            how => return Ok(how),
        }
    }
    *out = Value::Ref(array);
    Ok(Ended::Is)
}

// One element: where it is a value, it is put into the array.
#[cycle(direct)]
fn element_on(
    here: &Here,
    run: &mut Run,
    store: &mut Store,
    at: (CellId, ExprId, usize, ExprId),
    deep: u32,
    out: &mut Value,
) -> Result<Ended, Memory>
    requires ready { IsReady (trees_of here.now.site.now.codes.now.items) here.now.site.now.widget store.old run.old }
    requires held { IsHeld here.now.site.now.widget store.old.cells at.0
        × IsExprAt (trees_of here.now.site.now.codes.now.items) here.now.site.now.widget store.old.cells at.1
        here.now.at
        × IsExprAt (trees_of here.now.site.now.codes.now.items) here.now.site.now.widget store.old.cells at.3
        here.now.at }
    requires there { let f = forest_at (trees_of here.now.site.now.codes.now.items) here.now.at.code in
        drop at.2 (elements_of (expr_at f at.1)) ≡ expr_at f at.3 ∷ drop (at.2 + 1) (elements_of (expr_at f at.1)) }
    requires tree { trees here.now.tree.now ≡ forest_at (trees_of here.now.site.now.codes.now.items) here.now.at.code }
    ensures goes { let F = trees_of here.now.site.now.codes.now.items in let w = here.now.site.now.widget in
        let list = elements_of (expr_at (forest_at F here.now.at.code) at.1) in
        IfOk result (λ how. how ≡ Ended.Is → GoesOn F w store.old store.new
        (expressions.array_parts (seen w store.old.cells (Value.Ref at.0)) at.2 (drop at.2 list)
        (place_of w store.old.cells here.now.at))
        (expressions.array_parts (seen w store.new.cells (Value.Ref at.0)) (at.2 + 1) (drop (at.2 + 1) list)
        (place_of w store.new.cells here.now.at)) run.old run.new) }
    ensures comes { let F = trees_of here.now.site.now.codes.now.items in let w = here.now.site.now.widget in
        let list = elements_of (expr_at (forest_at F here.now.at.code) at.1) in
        IfOk result (λ how. (how ≡ Ended.Is → ⊥) → Comes F w store.old store.new 1
        (expressions.array_parts (seen w store.old.cells (Value.Ref at.0)) at.2 (drop at.2 list)
        (place_of w store.old.cells here.now.at))
        run.old run.new how out.new) }
    ensures kept { Kept (trees_of here.now.site.now.codes.now.items) here.now.site.now.widget store.old store.new }
{
    let (array, id, n, e) = at;
    match operand_on(here, run, store, e, deep, out)? {
        Ended::Is => put_element(here.site, run, store, array, n, out),
        Ended::Left => wait(run, Frame::Form(FormFrame::Element(array, id, n, here.at))),
        how => Ok(how),
    }
}

// The value at the place is put into an array; it is a value where nothing is thrown and nothing stops.
fn put_element(
    site: &Site,
    run: &mut Run,
    store: &mut Store,
    array: CellId,
    n: usize,
    out: &mut Value,
) -> Result<Ended, Memory>
    requires ready { IsReady (trees_of site.now.codes.now.items) site.now.widget store.old run.old }
    requires held { IsHeld site.now.widget store.old.cells array × IsFine site.now.widget store.old.cells out.old }
    ensures done { let F = trees_of site.now.codes.now.items in let w = site.now.widget in
        IfOk result (λ how. how ≡ Ended.Is → (run.new ≡ run.old) × ((r : Rest) (k : State → Plan)
        → properties.put (seen w store.old.cells (Value.Ref array)) (properties.index_name n)
        (seen w store.old.cells out.old)
        (image F r w store.old) k ≡ k (image F r w store.new))) }
    ensures comes { let F = trees_of site.now.codes.now.items in let w = site.now.widget in
        IfOk result (λ how. (how ≡ Ended.Is → ⊥) → (k : State → Plan) → Comes F w store.old store.new 1
        (λ s. properties.put (seen w store.old.cells (Value.Ref array)) (properties.index_name n)
        (seen w store.old.cells out.old) s k) run.old run.new how out.new) }
    ensures kept { Kept (trees_of site.now.codes.now.items) site.now.widget store.old store.new }
{
    let Ok(index) = u32::try_from(n) else {
        return Err(Memory);
    };
    if index >= 1_073_741_824 {
        return Err(Memory);
    }
    let value = take_value(out);
    match put_at(store, site.widget, array, index, value)? {
        Written::Done => Ok(Ended::Is),
        Written::Throw(fault) => throw(site, run, store, fault, out),
        Written::Stop(cause) => stop(run, cause),
    }
}
