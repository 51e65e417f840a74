//! Properties: a base, its subscript, and the read.
ghost use Rattle.std.specs.Prelude.{◌≡◌, ℕ, ◌<◌, List, IfOk, IfSome, MatchOption, pos};
ghost use Rattle.js_tree.specs.Trees.{trees};
ghost use Rattle.store_cells.specs.Cells.{PlainCell};
ghost use Rattle.widget_meaning.specs.Properties as properties;
ghost use Rattle.widget_meaning.specs.Values as meaning;
ghost use Rattle.widget_meaning.specs.Plan.{Do};
ghost use Rattle.js_image.specs.Image.{seen};
ghost use Rattle.js_image.specs.Held.{IsFine, Kept};
ghost use Rattle.js_names.specs.Code.{trees_of};
ghost use Rattle.js_flow.specs.Parts.{forest_at};
ghost use Rattle.js_flow.specs.Fine.{IsExprAt};
ghost use Rattle.js_flow.specs.Frames.{taken};
ghost use Rattle.js_flow.specs.Views.{job_of};
ghost use Rattle.js_direct.specs.Hands.{HandsOn};
ghost use Rattle.js_direct.specs.Comes.{Comes, IsReady};

use crate::forms::operand_on;
use crate::run::{Ended, Here, Run, Site, clear, share_to, take_value, throw, wait};
use code_units::{Memory, Text};
use js_flow::{FormFrame, Frame, Job, Place};
use js_image::{Fault, get, indexed_at, property_at};
use js_tree::ExprId;
use js_values::to_text;
use object_store::{CellId, Number, Store, Value};
use std::alloc::Global;

/// A property by its name.
#[inline(never)]
#[cycle(direct)]
pub(crate) fn dot_on(
    here: &Here,
    run: &mut Run,
    store: &mut Store,
    e: ExprId,
    name: &Text,
    deep: u32,
    out: &mut Value,
) -> Result<Ended, Memory>
    requires ready { IsReady (trees_of here.now.site.now.codes.now.items) here.now.site.now.widget store.old run.old }
    requires held { IsExprAt (trees_of here.now.site.now.codes.now.items) here.now.site.now.widget store.old.cells e
        here.now.at }
    requires tree { trees here.now.tree.now ≡ forest_at (trees_of here.now.site.now.codes.now.items) here.now.at.code }
    ensures comes { let F = trees_of here.now.site.now.codes.now.items in let w = here.now.site.now.widget in
        IfOk result (λ how. Comes F w store.old store.new 30
        (λ s. Do (job_of F w store.old.cells (Job.Eval e here.now.at)) s
        (taken F w store.old.cells (Frame.Form (FormFrame.Dot name.now))))
        run.old run.new how out.new) }
    ensures kept { Kept (trees_of here.now.site.now.codes.now.items) here.now.site.now.widget store.old store.new }
{
    match operand_on(here, run, store, e, deep, out)? {
        Ended::Is => read_on(here.site, run, store, name, out),
        how => hand_dot(run, how, name),
    }
}

// The end of the base that is no value.
#[cold]
#[inline(never)]
fn hand_dot(run: &mut Run, how: Ended, name: &Text) -> Result<Ended, Memory>
    ensures { IfOk result (λ h. HandsOn run.old run.new how h (Frame.Form (FormFrame.Dot name.now))) }
{
    match how {
        Ended::Left => wait(run, Frame::Form(FormFrame::Dot(name.share()?))),
        how => Ok(how),
    }
}

// A property of the value at the place.
#[inline(always)]
fn read_on(
    site: &Site,
    run: &mut Run,
    store: &mut Store,
    name: &Text,
    out: &mut Value,
) -> Result<Ended, Memory>
    requires ready { IsReady (trees_of site.now.codes.now.items) site.now.widget store.old run.old }
    requires held { IsFine site.now.widget store.old.cells out.old }
    ensures comes { let F = trees_of site.now.codes.now.items in let w = site.now.widget in
        IfOk result (λ how. Comes F w store.old store.new 1
        (properties.read (seen w store.old.cells out.old) name.now)
        run.old run.new how out.new) }
    ensures kept { Kept (trees_of site.now.codes.now.items) site.now.widget store.old store.new }
{
    match cell_at(out) {
        Some(cell) => {
            share_to(property_at(store, cell, name), out)?;
            Ok(Ended::Is)
        }
        None => read_any(site, run, store, name, out),
    }
}

// The cell that a value is.
#[inline(always)]
fn cell_at(value: &Value) -> Option<CellId>
    ensures { MatchOption result ((i : ℕ) → value.now ≡ Value.Ref i → ⊥) (λ i. value.now ≡ Value.Ref i) }
{
    match value {
        Value::Ref(cell) => Some(*cell),
        _ => None,
    }
}

// A property of any value at the place.
#[inline(never)]
fn read_any(
    site: &Site,
    run: &mut Run,
    store: &mut Store,
    name: &Text,
    out: &mut Value,
) -> Result<Ended, Memory>
    requires ready { IsReady (trees_of site.now.codes.now.items) site.now.widget store.old run.old }
    requires held { IsFine site.now.widget store.old.cells out.old }
    ensures comes { let F = trees_of site.now.codes.now.items in let w = site.now.widget in
        IfOk result (λ how. Comes F w store.old store.new 1
        (properties.read (seen w store.old.cells out.old) name.now)
        run.old run.new how out.new) }
    ensures kept { Kept (trees_of site.now.codes.now.items) site.now.widget store.old store.new }
{
    let base = take_value(out);
    property_on(site, run, store, &base, name, out)
}

// A property of a value; undefined and null have none. The place owns nothing.
fn property_on(
    site: &Site,
    run: &mut Run,
    store: &mut Store,
    base: &Value,
    name: &Text,
    out: &mut Value,
) -> Result<Ended, Memory>
    requires ready { IsReady (trees_of site.now.codes.now.items) site.now.widget store.old run.old }
    requires held { IsFine site.now.widget store.old.cells base.now }
    ensures comes { let F = trees_of site.now.codes.now.items in let w = site.now.widget in
        IfOk result (λ how. Comes F w store.old store.new 1
        (properties.read (seen w store.old.cells base.now) name.now)
        run.old run.new how out.new) }
    ensures kept { Kept (trees_of site.now.codes.now.items) site.now.widget store.old store.new }
{
    match base {
        Value::Undefined => throw(site, run, store, Fault::E1, out),
        Value::Null => throw(site, run, store, Fault::E1, out),
        Value::Ref(cell) => {
            share_to(property_at(store, *cell, name), out)?;
            Ok(Ended::Is)
        }
        _ => {
            *out = get(store, base, name)?;
            Ok(Ended::Is)
        }
    }
}

/// A property by a subscript.
#[inline(never)]
#[cycle(direct)]
pub(crate) fn sub_on(
    here: &Here,
    run: &mut Run,
    store: &mut Store,
    parts: (ExprId, ExprId),
    deep: u32,
    out: &mut Value,
) -> Result<Ended, Memory>
    requires ready { IsReady (trees_of here.now.site.now.codes.now.items) here.now.site.now.widget store.old run.old }
    requires held { IsExprAt (trees_of here.now.site.now.codes.now.items) here.now.site.now.widget store.old.cells
        parts.0 here.now.at
        × IsExprAt (trees_of here.now.site.now.codes.now.items) here.now.site.now.widget store.old.cells parts.1
        here.now.at }
    requires tree { trees here.now.tree.now ≡ forest_at (trees_of here.now.site.now.codes.now.items) here.now.at.code }
    ensures comes { let F = trees_of here.now.site.now.codes.now.items in let w = here.now.site.now.widget in
        IfOk result (λ how. Comes F w store.old store.new 30
        (λ s. Do (job_of F w store.old.cells (Job.Eval parts.0 here.now.at)) s
        (taken F w store.old.cells (Frame.Form (FormFrame.SubBase parts.1 here.now.at))))
        run.old run.new how out.new) }
    ensures kept { Kept (trees_of here.now.site.now.codes.now.items) here.now.site.now.widget store.old store.new }
{
    let mut base = Value::Undefined;
    sub_with(here, run, store, parts, deep, &mut base, out)
}

// The same with a place for the base.
#[inline(always)]
#[cycle(direct)]
fn sub_with(
    here: &Here,
    run: &mut Run,
    store: &mut Store,
    parts: (ExprId, ExprId),
    deep: u32,
    base: &mut Value,
    out: &mut Value,
) -> Result<Ended, Memory>
    requires ready { IsReady (trees_of here.now.site.now.codes.now.items) here.now.site.now.widget store.old run.old }
    requires held { IsExprAt (trees_of here.now.site.now.codes.now.items) here.now.site.now.widget store.old.cells
        parts.0 here.now.at
        × IsExprAt (trees_of here.now.site.now.codes.now.items) here.now.site.now.widget store.old.cells parts.1
        here.now.at }
    requires tree { trees here.now.tree.now ≡ forest_at (trees_of here.now.site.now.codes.now.items) here.now.at.code }
    ensures comes { let F = trees_of here.now.site.now.codes.now.items in let w = here.now.site.now.widget in
        IfOk result (λ how. Comes F w store.old store.new 30
        (λ s. Do (job_of F w store.old.cells (Job.Eval parts.0 here.now.at)) s
        (taken F w store.old.cells (Frame.Form (FormFrame.SubBase parts.1 here.now.at))))
        run.old run.new how out.new) }
    ensures kept { Kept (trees_of here.now.site.now.codes.now.items) here.now.site.now.widget store.old store.new }
{
    match operand_on(here, run, store, parts.0, deep, base)? {
        Ended::Is => subscript_on(here, run, store, parts.1, deep, base, out),
        how => hand_base(run, how, parts.1, &here.at, base, out),
    }
}

// The end of the base that is no value, where a subscript follows; what it threw is at the place then.
#[cold]
#[inline(never)]
fn hand_base(
    run: &mut Run,
    how: Ended,
    e: ExprId,
    place: &Place,
    base: &mut Value,
    out: &mut Value,
) -> Result<Ended, Memory>
    ensures hands { IfOk result (λ h. HandsOn run.old run.new how h (Frame.Form (FormFrame.SubBase e place.now))) }
    ensures value { IfOk result (λ h. out.new ≡ base.old) }
{
    *out = take_value(base);
    match how {
        Ended::Left => wait(run, Frame::Form(FormFrame::SubBase(e, *place))),
        how => Ok(how),
    }
}

// The subscript of a base.
#[inline(always)]
#[cycle(direct)]
fn subscript_on(
    here: &Here,
    run: &mut Run,
    store: &mut Store,
    index: ExprId,
    deep: u32,
    base: &mut Value,
    out: &mut Value,
) -> Result<Ended, Memory>
    requires ready { IsReady (trees_of here.now.site.now.codes.now.items) here.now.site.now.widget store.old run.old }
    requires held { IsExprAt (trees_of here.now.site.now.codes.now.items) here.now.site.now.widget store.old.cells
        index here.now.at
        × IsFine here.now.site.now.widget store.old.cells base.old }
    requires tree { trees here.now.tree.now ≡ forest_at (trees_of here.now.site.now.codes.now.items) here.now.at.code }
    ensures comes { let F = trees_of here.now.site.now.codes.now.items in let w = here.now.site.now.widget in
        IfOk result (λ how. Comes F w store.old store.new 1
        (taken F w store.old.cells (Frame.Form (FormFrame.SubBase index here.now.at))
        (meaning.Is (seen w store.old.cells base.old)))
        run.old run.new how out.new) }
    ensures kept { Kept (trees_of here.now.site.now.codes.now.items) here.now.site.now.widget store.old store.new }
{
    match operand_on(here, run, store, index, deep, out)? {
        Ended::Is => named_on(here.site, run, store, base, out),
        how => hand_sub(run, how, base),
    }
}

// The end of the subscript that is no value.
#[cold]
#[inline(never)]
fn hand_sub(run: &mut Run, how: Ended, base: &mut Value) -> Result<Ended, Memory>
    ensures { IfOk result (λ h. HandsOn run.old run.new how h (Frame.Form (FormFrame.Sub base.old))) }
{
    match how {
        Ended::Left => wait(run, Frame::Form(FormFrame::Sub(take_value(base)))),
        how => Ok(how),
    }
}

/// The index of a cell that a base and its subscript are.
#[derive(Clone, Copy, Drop)]
pub(crate) struct AtIndex {
    pub cell: CellId,
    pub index: u32,
}

/// The index of a cell that a base and its subscript are, where that is below 2^30, as most are; else none.
#[inline(always)]
pub(crate) fn indexed(base: &Value, subscript: &Value) -> Option<AtIndex>
    ensures { IfSome result (λ at. (base.now ≡ Value.Ref at.cell)
        × (subscript.now ≡ Value.Num (Number.Whole (pos at.index))) × (at.index < 1073741824)) }
{
    let cell = cell_at(base)?;
    let index = index_in(subscript)?;
    Some(AtIndex { cell, index })
}

// The index below 2^30 that a value is.
#[inline(always)]
fn index_in(value: &Value) -> Option<u32>
    ensures { IfSome result (λ i. (value.now ≡ Value.Num (Number.Whole (pos i))) × (i < 1073741824)) }
{
    match value {
        Value::Num(Number::Whole(z)) => below_bound(*z),
        _ => None,
    }
}

// A number as an index below 2^30.
#[inline(always)]
fn below_bound(z: i64) -> Option<u32>
    ensures { IfSome result (λ i. (z ≡ pos i) × (i < 1073741824)) }
{
    match u32::try_from(z) {
        Ok(i) => { if i < 1_073_741_824 { Some(i) } else { None } }
        Err(_) => None,
    }
}

// A property of a base, by the subscript at the place.
#[inline(always)]
fn named_on(
    site: &Site,
    run: &mut Run,
    store: &mut Store,
    base: &Value,
    out: &mut Value,
) -> Result<Ended, Memory>
    requires ready { IsReady (trees_of site.now.codes.now.items) site.now.widget store.old run.old }
    requires held { IsFine site.now.widget store.old.cells base.now
        × IsFine site.now.widget store.old.cells out.old }
    ensures comes { let F = trees_of site.now.codes.now.items in let w = site.now.widget in
        IfOk result (λ how. Comes F w store.old store.new 1
        (taken F w store.old.cells (Frame.Form (FormFrame.Sub base.now)) (meaning.Is (seen w store.old.cells out.old)))
        run.old run.new how out.new) }
    ensures kept { Kept (trees_of site.now.codes.now.items) site.now.widget store.old store.new }
{
    match indexed(base, out) {
        Some(at) => {
            share_to(indexed_at(store, at.cell, at.index), out)?;
            Ok(Ended::Is)
        }
        None => named_any(site, run, store, base, out),
    }
}

// The same by the name of the subscript.
#[inline(never)]
fn named_any(
    site: &Site,
    run: &mut Run,
    store: &mut Store,
    base: &Value,
    out: &mut Value,
) -> Result<Ended, Memory>
    requires ready { IsReady (trees_of site.now.codes.now.items) site.now.widget store.old run.old }
    requires held { IsFine site.now.widget store.old.cells base.now
        × IsFine site.now.widget store.old.cells out.old }
    ensures comes { let F = trees_of site.now.codes.now.items in let w = site.now.widget in
        IfOk result (λ how. Comes F w store.old store.new 1
        (taken F w store.old.cells (Frame.Form (FormFrame.Sub base.now)) (meaning.Is (seen w store.old.cells out.old)))
        run.old run.new how out.new) }
    ensures kept { Kept (trees_of site.now.codes.now.items) site.now.widget store.old store.new }
{
    let name = name_of(site.alloc, out)?;
    clear(out);
    property_on(site, run, store, base, &name, out)
}

/// The name of a property by its subscript; an object has no text.
pub(crate) fn name_of(alloc: Global, value: &Value) -> Result<Text, Memory>
    ensures { IfOk result (λ t. (w : ℕ) (cells : List PlainCell) → t ≡ meaning.to_text (seen w cells value.now)) }
{
    match value {
        Value::Ref(_) => Text::from_units(alloc, Vec::new(alloc)),
        _ => to_text(alloc, value),
    }
}

/// Whether a value has no properties.
pub(crate) fn is_nothing(value: &Value) -> bool
    ensures { (w : ℕ) (cells : List PlainCell) → result ≡ meaning.is_nothing (seen w cells value.now) }
{
    matches!(value, Value::Undefined | Value::Null)
}
