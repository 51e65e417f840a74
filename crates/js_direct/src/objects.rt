//! Object literals, which are born before their properties.
ghost use Rattle.std.specs.Prelude.{◌≡◌, ◌+◌, ◌<◌, [], ◌∷◌, drop, IfOk};
ghost use Rattle.js_tree.specs.Trees.{trees};
ghost use Rattle.js_tree.specs.Forest.{expr_at};
ghost use Rattle.widget_meaning.specs.OwnState.{State, plain_object};
ghost use Rattle.widget_meaning.specs.Plan.{Plan};
ghost use Rattle.widget_meaning.specs.Costs as costs;
ghost use Rattle.widget_meaning.specs.Properties as properties;
ghost use Rattle.widget_meaning.specs.Expressions as expressions;
ghost use Rattle.js_image.specs.Image.{Rest, image, seen};
ghost use Rattle.js_image.specs.Held.{IsFine, IsHeld, Kept};
ghost use Rattle.js_image.specs.Laws.{AreLawful};
ghost use Rattle.js_names.specs.Code.{trees_of};
ghost use Rattle.js_flow.specs.Fine.{IsExprAt};
ghost use Rattle.js_flow.specs.Parts.{forest_at, properties_of};
ghost use Rattle.js_flow.specs.Views.{place_of};
ghost use Rattle.js_direct.specs.Comes.{Comes, IsReady};
ghost use Rattle.js_direct.specs.Goes.{GoesOn};

use crate::forms::operand_on;
use crate::run::{Ended, Here, Run, Site, stop, take_value, throw, wait};
use code_units::{Memory, Text};
use js_flow::{FormFrame, Frame, property_at};
use js_image::{Made, Written, make, put};
use js_tree::ExprId;
use object_store::{CellId, HostEntry, NewCell, Store, Value};

/// An object literal.
#[inline(never)]
#[cycle(direct)]
pub(crate) fn object_on(
    here: &Here,
    run: &mut Run,
    store: &mut Store,
    id: ExprId,
    deep: u32,
    out: &mut Value,
) -> Result<Ended, Memory>
    requires ready { IsReady (trees_of here.now.site.now.codes.now.items) here.now.site.now.widget store.old run.old }
    requires held { IsExprAt (trees_of here.now.site.now.codes.now.items) here.now.site.now.widget store.old.cells id
        here.now.at }
    requires tree { trees here.now.tree.now ≡ forest_at (trees_of here.now.site.now.codes.now.items) here.now.at.code }
    ensures comes { let F = trees_of here.now.site.now.codes.now.items in let w = here.now.site.now.widget in
        IfOk result (λ how. Comes F w store.old store.new 30
        (λ s. costs.make (plain_object []) 0 s (λ a t. expressions.object_parts a
        (properties_of (expr_at (forest_at F here.now.at.code) id)) (place_of w store.old.cells here.now.at) t))
        run.old run.new how out.new) }
    ensures kept { Kept (trees_of here.now.site.now.codes.now.items) here.now.site.now.widget store.old store.new }
{
    lawful(store);
    let proto = store.host(HostEntry::ObjectPrototype);
    match make(
        here.site.alloc,
        store,
        here.site.widget,
        NewCell::Object(proto),
    )? {
        Made::Cell(object) => properties_on(here, run, store, object, id, deep, out),
        Made::Stop(cause) => stop(run, cause),
    }
}

// The properties of an object that is there.
#[cycle(direct)]
fn properties_on(
    here: &Here,
    run: &mut Run,
    store: &mut Store,
    object: CellId,
    id: ExprId,
    deep: u32,
    out: &mut Value,
) -> Result<Ended, Memory>
    requires ready { IsReady (trees_of here.now.site.now.codes.now.items) here.now.site.now.widget store.old run.old }
    requires held { IsHeld here.now.site.now.widget store.old.cells object
        × IsExprAt (trees_of here.now.site.now.codes.now.items) here.now.site.now.widget store.old.cells id
        here.now.at }
    requires tree { trees here.now.tree.now ≡ forest_at (trees_of here.now.site.now.codes.now.items) here.now.at.code }
    ensures comes { let F = trees_of here.now.site.now.codes.now.items in let w = here.now.site.now.widget in
        IfOk result (λ how. Comes F w store.old store.new 1
        (expressions.object_parts (seen w store.old.cells (Value.Ref object))
        (properties_of (expr_at (forest_at F here.now.at.code) id)) (place_of w store.old.cells here.now.at))
        run.old run.new how out.new) }
    ensures kept { Kept (trees_of here.now.site.now.codes.now.items) here.now.site.now.widget store.old store.new }
{
    let mut n = 0;
    'properties: while let Some(part) = property_at(here.tree, id, n) {
        match property_part_on(here, run, store, (object, id, n), part, deep, out)? {
            Ended::Is => n += 1,
            how => return Ok(how),
        }
    }
    *out = Value::Ref(object);
    Ok(Ended::Is)
}

// One property: where it is a value, it is put into the object.
#[cycle(direct)]
fn property_part_on(
    here: &Here,
    run: &mut Run,
    store: &mut Store,
    at: (CellId, ExprId, usize),
    part: &(Text, ExprId),
    deep: u32,
    out: &mut Value,
) -> Result<Ended, Memory>
    requires ready { IsReady (trees_of here.now.site.now.codes.now.items) here.now.site.now.widget store.old run.old }
    requires held { IsHeld here.now.site.now.widget store.old.cells at.0
        × IsExprAt (trees_of here.now.site.now.codes.now.items) here.now.site.now.widget store.old.cells at.1
        here.now.at
        × IsExprAt (trees_of here.now.site.now.codes.now.items) here.now.site.now.widget store.old.cells part.now.1
        here.now.at }
    requires there { let f = forest_at (trees_of here.now.site.now.codes.now.items) here.now.at.code in
        drop at.2 (properties_of (expr_at f at.1))
        ≡ (part.now.0, expr_at f part.now.1) ∷ drop (at.2 + 1) (properties_of (expr_at f at.1)) }
    requires tree { trees here.now.tree.now ≡ forest_at (trees_of here.now.site.now.codes.now.items) here.now.at.code }
    ensures goes { let F = trees_of here.now.site.now.codes.now.items in let w = here.now.site.now.widget in
        let list = properties_of (expr_at (forest_at F here.now.at.code) at.1) in
        IfOk result (λ how. how ≡ Ended.Is → GoesOn F w store.old store.new
        (expressions.object_parts (seen w store.old.cells (Value.Ref at.0)) (drop at.2 list)
        (place_of w store.old.cells here.now.at))
        (expressions.object_parts (seen w store.new.cells (Value.Ref at.0)) (drop (at.2 + 1) list)
        (place_of w store.new.cells here.now.at)) run.old run.new) }
    ensures comes { let F = trees_of here.now.site.now.codes.now.items in let w = here.now.site.now.widget in
        let list = properties_of (expr_at (forest_at F here.now.at.code) at.1) in
        IfOk result (λ how. (how ≡ Ended.Is → ⊥) → Comes F w store.old store.new 1
        (expressions.object_parts (seen w store.old.cells (Value.Ref at.0)) (drop at.2 list)
        (place_of w store.old.cells here.now.at))
        run.old run.new how out.new) }
    ensures kept { Kept (trees_of here.now.site.now.codes.now.items) here.now.site.now.widget store.old store.new }
{
    let (object, id, n) = at;
    match operand_on(here, run, store, part.1, deep, out)? {
        Ended::Is => put_property(here.site, run, store, object, &part.0, out),
        Ended::Left => wait(
            run,
            Frame::Form(FormFrame::Property(object, id, n, here.at)),
        ),
        how => Ok(how),
    }
}

// The value at the place is put into an object; it is a value where nothing is thrown and nothing stops.
fn put_property(
    site: &Site,
    run: &mut Run,
    store: &mut Store,
    object: CellId,
    name: &Text,
    out: &mut Value,
) -> Result<Ended, Memory>
    requires ready { IsReady (trees_of site.now.codes.now.items) site.now.widget store.old run.old }
    requires held { IsHeld site.now.widget store.old.cells object × IsFine site.now.widget store.old.cells out.old }
    ensures done { let F = trees_of site.now.codes.now.items in let w = site.now.widget in
        IfOk result (λ how. how ≡ Ended.Is → (run.new ≡ run.old) × ((r : Rest) (k : State → Plan)
        → properties.put (seen w store.old.cells (Value.Ref object)) name.now (seen w store.old.cells out.old)
        (image F r w store.old) k ≡ k (image F r w store.new))) }
    ensures comes { let F = trees_of site.now.codes.now.items in let w = site.now.widget in
        IfOk result (λ how. (how ≡ Ended.Is → ⊥) → (k : State → Plan) → Comes F w store.old store.new 1
        (λ s. properties.put (seen w store.old.cells (Value.Ref object)) name.now
        (seen w store.old.cells out.old) s k) run.old run.new how out.new) }
    ensures kept { Kept (trees_of site.now.codes.now.items) site.now.widget store.old store.new }
{
    let value = take_value(out);
    match put(store, site.widget, &Value::Ref(object), name, value)? {
        Written::Done => Ok(Ended::Is),
        Written::Throw(fault) => throw(site, run, store, fault, out),
        Written::Stop(cause) => stop(run, cause),
    }
}

// A law: what every store keeps.
fn lawful(store: &Store)
    ensures { AreLawful store.now.cells }
{
    store.links_are_older();
    store.permitted_leads_on();
    store.host_stays();
    store.arrays_have_length();
    store.cells_have_prototypes();
}
