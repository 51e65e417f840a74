//! Writes to references, carried out in place.
ghost use Rattle.std.specs.Prelude.{◌≡◌, ◌<◌, ◌++◌, [], ◌∷◌, IfOk};
ghost use Rattle.std.specs.Fmt.{decimal};
ghost use Rattle.widget_meaning.specs.Values as meaning;
ghost use Rattle.widget_meaning.specs.Costs as costs;
ghost use Rattle.widget_meaning.specs.Properties as properties;
ghost use Rattle.widget_meaning.specs.Expressions as expressions;
ghost use Rattle.js_image.specs.Image.{seen};
ghost use Rattle.js_image.specs.Held.{IsFine, Kept};
ghost use Rattle.js_names.specs.Code.{trees_of};
ghost use Rattle.js_flow.specs.Fine.{FineReference, IsPlace};
ghost use Rattle.js_flow.specs.Forms.{form_taken};
ghost use Rattle.js_flow.specs.Views.{place_of, reference_of};
ghost use Rattle.js_direct.specs.Comes.{Comes, IsReady};

use crate::run::{Ended, Here, Run, Site, stop, throw, wait};
use crate::targets::take_reference;
use code_units::{Memory, Text};
use js_flow::{FormFrame, Frame, Place, Reference};
use js_image::{Written, assign, put, put_at};
use object_store::{CellId, Store, Value};

/// A value is written to a reference; then the value at the place is given.
pub(crate) fn write_on(
    here: &Here,
    run: &mut Run,
    store: &mut Store,
    of: &Reference,
    value: Value,
    out: &mut Value,
) -> Result<Ended, Memory>
    requires ready { IsReady (trees_of here.now.site.now.codes.now.items) here.now.site.now.widget store.old run.old }
    requires to { FineReference here.now.site.now.widget store.old.cells of.now
        × IsPlace (trees_of here.now.site.now.codes.now.items) here.now.site.now.widget store.old.cells here.now.at }
    requires values { IsFine here.now.site.now.widget store.old.cells value
        × IsFine here.now.site.now.widget store.old.cells out.old }
    ensures comes { let F = trees_of here.now.site.now.codes.now.items in let w = here.now.site.now.widget in
        IfOk result (λ how. Comes F w store.old store.new 1
        (λ s. expressions.write (reference_of w store.old.cells of.now) (place_of w store.old.cells here.now.at)
        (seen w store.old.cells value) s (costs.give (seen w store.old.cells out.old)))
        run.old run.new how out.new) }
    ensures kept { Kept (trees_of here.now.site.now.codes.now.items) here.now.site.now.widget store.old store.new }
{
    match of {
        Reference::Variable(x) => {
            assign(store, here.site.widget, here.at.scope, x, value);
            Ok(Ended::Is)
        }
        Reference::Property(base, x) => put_on(here.site, run, store, base, x, value, out),
        Reference::Element(cell, i) => put_at_on(here.site, run, store, *cell, *i, value, out),
        Reference::Found(_) => Ok(Ended::Is),
    }
}

// A value is written to a property; then the value at the place is given.
fn put_on(
    site: &Site,
    run: &mut Run,
    store: &mut Store,
    base: &Value,
    name: &Text,
    value: Value,
    out: &mut Value,
) -> Result<Ended, Memory>
    requires ready { IsReady (trees_of site.now.codes.now.items) site.now.widget store.old run.old }
    requires to { IsFine site.now.widget store.old.cells base.now }
    requires values { IsFine site.now.widget store.old.cells value × IsFine site.now.widget store.old.cells out.old }
    ensures comes { let F = trees_of site.now.codes.now.items in let w = site.now.widget in
        IfOk result (λ how. Comes F w store.old store.new 1
        (λ s. properties.put (seen w store.old.cells base.now) name.now (seen w store.old.cells value) s
        (costs.give (seen w store.old.cells out.old)))
        run.old run.new how out.new) }
    ensures kept { Kept (trees_of site.now.codes.now.items) site.now.widget store.old store.new }
{
    match put(store, site.widget, base, name, value)? {
        Written::Done => Ok(Ended::Is),
        Written::Throw(fault) => throw(site, run, store, fault, out),
        Written::Stop(cause) => stop(run, cause),
    }
}

// A value is written to the property of a cell under an index; then the value at the place is given.
fn put_at_on(
    site: &Site,
    run: &mut Run,
    store: &mut Store,
    cell: CellId,
    i: u32,
    value: Value,
    out: &mut Value,
) -> Result<Ended, Memory>
    requires ready { IsReady (trees_of site.now.codes.now.items) site.now.widget store.old run.old }
    requires to { IsFine site.now.widget store.old.cells (Value.Ref cell) × (i < 1073741824) }
    requires values { IsFine site.now.widget store.old.cells value × IsFine site.now.widget store.old.cells out.old }
    ensures comes { let F = trees_of site.now.codes.now.items in let w = site.now.widget in
        IfOk result (λ how. Comes F w store.old store.new 1
        (λ s. properties.put (seen w store.old.cells (Value.Ref cell)) (decimal i) (seen w store.old.cells value) s
        (costs.give (seen w store.old.cells out.old)))
        run.old run.new how out.new) }
    ensures kept { Kept (trees_of site.now.codes.now.items) site.now.widget store.old store.new }
{
    match put_at(store, site.widget, cell, i, value)? {
        Written::Done => Ok(Ended::Is),
        Written::Throw(fault) => throw(site, run, store, fault, out),
        Written::Stop(cause) => stop(run, cause),
    }
}

/// A write to a reference waits.
#[cold]
#[inline(never)]
pub(crate) fn wait_written(
    run: &mut Run,
    of: &mut Reference,
    place: &Place,
) -> Result<Ended, Memory>
    ensures left { IfOk result (λ how. how ≡ Ended.Left) }
    ensures waits { IfOk result (λ how. run.new.waits.items
        ≡ run.old.waits.items ++ Frame.Form (FormFrame.Write of.old place.now) ∷ []) }
    ensures next { IfOk result (λ how. run.new.next ≡ run.old.next) }
    ensures units { IfOk result (λ how. run.new.units ≡ run.old.units) }
{
    let reference = take_reference(of);
    wait(run, Frame::Form(FormFrame::Write(reference, *place)))
}

/// The value at the place is written to a reference.
pub(crate) fn write_value(
    here: &Here,
    run: &mut Run,
    store: &mut Store,
    of: &Reference,
    out: &mut Value,
) -> Result<Ended, Memory>
    requires ready { IsReady (trees_of here.now.site.now.codes.now.items) here.now.site.now.widget store.old run.old }
    requires to { FineReference here.now.site.now.widget store.old.cells of.now
        × IsPlace (trees_of here.now.site.now.codes.now.items) here.now.site.now.widget store.old.cells here.now.at }
    requires value { IsFine here.now.site.now.widget store.old.cells out.old }
    ensures comes { let F = trees_of here.now.site.now.codes.now.items in let w = here.now.site.now.widget in
        IfOk result (λ how. Comes F w store.old store.new 1
        (form_taken F w store.old.cells (FormFrame.Write of.now here.now.at)
        (meaning.Is (seen w store.old.cells out.old)))
        run.old run.new how out.new) }
    ensures kept { Kept (trees_of here.now.site.now.codes.now.items) here.now.site.now.widget store.old store.new }
{
    let value = out.share()?;
    write_on(here, run, store, of, value, out)
}
