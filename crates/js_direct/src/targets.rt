//! Targets, carried out in place.
ghost use Rattle.std.specs.Prelude.{◌≡◌, ◌<◌, IfOk};
ghost use Rattle.js_tree.specs.Trees.{trees};
ghost use Rattle.widget_meaning.specs.Values as meaning;
ghost use Rattle.widget_meaning.specs.Expressions as expressions;
ghost use Rattle.widget_meaning.specs.Meaning.{body};
ghost use Rattle.widget_meaning.specs.Plan.{Do, Ret, and_then};
ghost use Rattle.js_image.specs.Image.{Rest, image, seen};
ghost use Rattle.js_image.specs.Held.{IsConfined, IsFine, Kept};
ghost use Rattle.js_names.specs.Code.{trees_of};
ghost use Rattle.js_flow.specs.Parts.{forest_at};
ghost use Rattle.js_flow.specs.Fine.{FineReference, IsExprAt, IsPlace};
ghost use Rattle.js_flow.specs.Forms.{form_taken};
ghost use Rattle.js_flow.specs.Views.{job_of, place_of, reference_of};
ghost use Rattle.js_direct.specs.Hands.{HandsOn};
ghost use Rattle.js_direct.specs.Comes.{Comes, IsReady, Reaches};

use crate::forms::{form_on, operand_on};
use crate::properties::{indexed, is_nothing, name_of};
use crate::run::{Ended, Here, Run, Site, leave_job, take_value, throw, wait};
use code_units::{Memory, Text, whole_text};
use js_flow::{FormFrame, Frame, Job, Place, Reference};
use js_image::{Fault, Removed, get, indexed_value, remove, variable};
use js_tree::{Expr, ExprId};
use object_store::{Store, Value};
use std::mem;

/// A target, before its unit: its reference at a place.
#[cycle(direct)]
pub(crate) fn target_on(
    here: &Here,
    run: &mut Run,
    store: &mut Store,
    id: ExprId,
    deep: u32,
    of: &mut Reference,
    out: &mut Value,
) -> Result<Ended, Memory>
    requires ready { IsReady (trees_of here.now.site.now.codes.now.items) here.now.site.now.widget store.old run.old }
    requires held { IsExprAt (trees_of here.now.site.now.codes.now.items) here.now.site.now.widget store.old.cells id
        here.now.at }
    requires tree { trees here.now.tree.now ≡ forest_at (trees_of here.now.site.now.codes.now.items) here.now.at.code }
    ensures comes { let F = trees_of here.now.site.now.codes.now.items in let w = here.now.site.now.widget in
        IfOk result (λ how. Reaches F w store.old store.new 0
        (λ s. Do (job_of F w store.old.cells (Job.Target id here.now.at)) s Ret)
        run.old run.new how of.new out.new) }
    ensures paid { IfOk result (λ how. 0 < run.old.units → 0 < deep → run.new.units < run.old.units) }
    ensures kept { Kept (trees_of here.now.site.now.codes.now.items) here.now.site.now.widget store.old store.new }
{
    if run.units == 0 || deep == 0 {
        return leave_job(run, Job::Target(id, here.at));
    }
    run.units -= 1;
    target_of(here, run, store, id, deep - 1, of, out)
}

// The same, which has its unit.
#[cycle(direct)]
fn target_of(
    here: &Here,
    run: &mut Run,
    store: &mut Store,
    id: ExprId,
    deep: u32,
    of: &mut Reference,
    out: &mut Value,
) -> Result<Ended, Memory>
    requires ready { IsReady (trees_of here.now.site.now.codes.now.items) here.now.site.now.widget store.old run.old }
    requires held { IsExprAt (trees_of here.now.site.now.codes.now.items) here.now.site.now.widget store.old.cells id
        here.now.at }
    requires tree { trees here.now.tree.now ≡ forest_at (trees_of here.now.site.now.codes.now.items) here.now.at.code }
    ensures comes { let F = trees_of here.now.site.now.codes.now.items in let w = here.now.site.now.widget in
        IfOk result (λ how. Reaches F w store.old store.new 31
        (body (job_of F w store.old.cells (Job.Target id here.now.at)))
        run.old run.new how of.new out.new) }
    ensures kept { Kept (trees_of here.now.site.now.codes.now.items) here.now.site.now.widget store.old store.new }
{
    match here.tree.expr(id) {
        Expr::Name(name) => name_target(name, of),
        Expr::Dot(e, name) => dot_target(here, run, store, *e, name, deep, of, out),
        Expr::Sub(e, index) => sub_target(here, run, store, (*e, *index), deep, of, out),
        _ => found_target(here, run, store, id, deep, of, out),
    }
}

// A variable.
fn name_target(name: &Text, of: &mut Reference) -> Result<Ended, Memory>
    ensures is { IfOk result (λ how. how ≡ Ended.Is) }
    ensures place { IfOk result (λ how. of.new ≡ Reference.Variable name.now) }
{
    let name = name.share()?;
    set_reference(of, Reference::Variable(name));
    Ok(Ended::Is)
}

// A reference at a place that owns nothing.
#[inline(always)]
fn set_reference(of: &mut Reference, reference: Reference)
    ensures { of.new ≡ reference }
{
    mem::forget(mem::replace(of, reference));
}

/// The reference of a place, which then has none.
#[inline(always)]
pub(crate) fn take_reference(of: &mut Reference) -> Reference
    ensures { result ≡ of.old }
{
    mem::replace(of, Reference::Found(Value::Undefined))
}

// A property by its name: the base is evaluated.
#[cycle(direct)]
fn dot_target(
    here: &Here,
    run: &mut Run,
    store: &mut Store,
    e: ExprId,
    name: &Text,
    deep: u32,
    of: &mut Reference,
    out: &mut Value,
) -> Result<Ended, Memory>
    requires ready { IsReady (trees_of here.now.site.now.codes.now.items) here.now.site.now.widget store.old run.old }
    requires held { IsExprAt (trees_of here.now.site.now.codes.now.items) here.now.site.now.widget store.old.cells e
        here.now.at }
    requires tree { trees here.now.tree.now ≡ forest_at (trees_of here.now.site.now.codes.now.items) here.now.at.code }
    ensures comes { let F = trees_of here.now.site.now.codes.now.items in let w = here.now.site.now.widget in
        IfOk result (λ how. Reaches F w store.old store.new 31
        (λ s. Do (job_of F w store.old.cells (Job.Eval e here.now.at)) s
        (form_taken F w store.old.cells (FormFrame.TargetDot name.now)))
        run.old run.new how of.new out.new) }
    ensures kept { Kept (trees_of here.now.site.now.codes.now.items) here.now.site.now.widget store.old store.new }
{
    match operand_on(here, run, store, e, deep, out)? {
        Ended::Is => refer_on(here.site, run, store, name.share()?, of, out),
        other => hand_dot(run, other, name),
    }
}

// The end of the base that is no value, where a name follows.
#[cold]
#[inline(never)]
fn hand_dot(run: &mut Run, how: Ended, name: &Text) -> Result<Ended, Memory>
    ensures { IfOk result (λ h. HandsOn run.old run.new how h (Frame.Form (FormFrame.TargetDot name.now))) }
{
    match how {
        Ended::Left => wait(run, Frame::Form(FormFrame::TargetDot(name.share()?))),
        how => Ok(how),
    }
}

// The property of the base at the place; undefined and null have none.
fn refer_on(
    site: &Site,
    run: &mut Run,
    store: &mut Store,
    name: Text,
    of: &mut Reference,
    out: &mut Value,
) -> Result<Ended, Memory>
    requires ready { IsReady (trees_of site.now.codes.now.items) site.now.widget store.old run.old }
    requires held { IsFine site.now.widget store.old.cells out.old }
    ensures comes { let F = trees_of site.now.codes.now.items in let w = site.now.widget in
        IfOk result (λ how. Reaches F w store.old store.new 1
        (expressions.refer (seen w store.old.cells out.old) name) run.old run.new how of.new out.new) }
    ensures kept { Kept (trees_of site.now.codes.now.items) site.now.widget store.old store.new }
{
    if is_nothing(out) {
        return throw(site, run, store, Fault::E1, out);
    }
    let base = take_value(out);
    let reference = Reference::Property(base, name);
    set_reference(of, reference);
    Ok(Ended::Is)
}

// A property by its subscript: the base is evaluated, and then the subscript.
#[cycle(direct)]
fn sub_target(
    here: &Here,
    run: &mut Run,
    store: &mut Store,
    parts: (ExprId, ExprId),
    deep: u32,
    of: &mut Reference,
    out: &mut Value,
) -> Result<Ended, Memory>
    requires ready { IsReady (trees_of here.now.site.now.codes.now.items) here.now.site.now.widget store.old run.old }
    requires held { IsExprAt (trees_of here.now.site.now.codes.now.items) here.now.site.now.widget store.old.cells
        parts.0 here.now.at
        × IsExprAt (trees_of here.now.site.now.codes.now.items) here.now.site.now.widget store.old.cells parts.1
        here.now.at }
    requires tree { trees here.now.tree.now ≡ forest_at (trees_of here.now.site.now.codes.now.items) here.now.at.code }
    ensures comes { let F = trees_of here.now.site.now.codes.now.items in let w = here.now.site.now.widget in
        IfOk result (λ how. Reaches F w store.old store.new 31
        (λ s. Do (job_of F w store.old.cells (Job.Eval parts.0 here.now.at)) s
        (form_taken F w store.old.cells (FormFrame.TargetSubBase parts.1 here.now.at)))
        run.old run.new how of.new out.new) }
    ensures kept { Kept (trees_of here.now.site.now.codes.now.items) here.now.site.now.widget store.old store.new }
{
    match operand_on(here, run, store, parts.0, deep, out)? {
        Ended::Is => index_target(here, run, store, parts.1, deep, of, out),
        other => hand_base(run, other, parts.1, &here.at),
    }
}

// The end of the base that is no value.
#[cold]
#[inline(never)]
fn hand_base(run: &mut Run, how: Ended, e: ExprId, place: &Place) -> Result<Ended, Memory>
    ensures { IfOk result (λ h. HandsOn run.old run.new how h (Frame.Form (FormFrame.TargetSubBase e place.now))) }
{
    match how {
        Ended::Left => wait(run, Frame::Form(FormFrame::TargetSubBase(e, *place))),
        how => Ok(how),
    }
}

// The subscript of the base at the place.
#[cycle(direct)]
fn index_target(
    here: &Here,
    run: &mut Run,
    store: &mut Store,
    index: ExprId,
    deep: u32,
    of: &mut Reference,
    out: &mut Value,
) -> Result<Ended, Memory>
    requires ready { IsReady (trees_of here.now.site.now.codes.now.items) here.now.site.now.widget store.old run.old }
    requires held { IsExprAt (trees_of here.now.site.now.codes.now.items) here.now.site.now.widget store.old.cells
        index here.now.at
        × IsFine here.now.site.now.widget store.old.cells out.old }
    requires tree { trees here.now.tree.now ≡ forest_at (trees_of here.now.site.now.codes.now.items) here.now.at.code }
    ensures comes { let F = trees_of here.now.site.now.codes.now.items in let w = here.now.site.now.widget in
        IfOk result (λ how. Reaches F w store.old store.new 1
        (λ s. Do (job_of F w store.old.cells (Job.Eval index here.now.at)) s
        (form_taken F w store.old.cells (FormFrame.TargetSub out.old)))
        run.old run.new how of.new out.new) }
    ensures kept { Kept (trees_of here.now.site.now.codes.now.items) here.now.site.now.widget store.old store.new }
{
    let mut base = take_value(out);
    index_of_target(here, run, store, index, deep, &mut base, of, out)
}

// The same with the base at a place of its own.
#[cycle(direct)]
fn index_of_target(
    here: &Here,
    run: &mut Run,
    store: &mut Store,
    index: ExprId,
    deep: u32,
    base: &mut Value,
    of: &mut Reference,
    out: &mut Value,
) -> Result<Ended, Memory>
    requires ready { IsReady (trees_of here.now.site.now.codes.now.items) here.now.site.now.widget store.old run.old }
    requires held { IsExprAt (trees_of here.now.site.now.codes.now.items) here.now.site.now.widget store.old.cells
        index here.now.at
        × IsFine here.now.site.now.widget store.old.cells base.old }
    requires tree { trees here.now.tree.now ≡ forest_at (trees_of here.now.site.now.codes.now.items) here.now.at.code }
    ensures comes { let F = trees_of here.now.site.now.codes.now.items in let w = here.now.site.now.widget in
        IfOk result (λ how. Reaches F w store.old store.new 1
        (λ s. Do (job_of F w store.old.cells (Job.Eval index here.now.at)) s
        (form_taken F w store.old.cells (FormFrame.TargetSub base.old)))
        run.old run.new how of.new out.new) }
    ensures kept { Kept (trees_of here.now.site.now.codes.now.items) here.now.site.now.widget store.old store.new }
{
    match operand_on(here, run, store, index, deep, out)? {
        Ended::Is => refer_by(here.site, run, store, base, of, out),
        Ended::Left => wait(run, Frame::Form(FormFrame::TargetSub(take_value(base)))),
        other => Ok(other),
    }
}

// The property of a base by the subscript at the place.
fn refer_by(
    site: &Site,
    run: &mut Run,
    store: &mut Store,
    base: &mut Value,
    of: &mut Reference,
    out: &mut Value,
) -> Result<Ended, Memory>
    requires ready { IsReady (trees_of site.now.codes.now.items) site.now.widget store.old run.old }
    requires held { IsFine site.now.widget store.old.cells base.old }
    ensures comes { let F = trees_of site.now.codes.now.items in let w = site.now.widget in
        IfOk result (λ how. Reaches F w store.old store.new 1
        (expressions.refer (seen w store.old.cells base.old) (meaning.to_text (seen w store.old.cells out.old)))
        run.old run.new how of.new out.new) }
    ensures kept { Kept (trees_of site.now.codes.now.items) site.now.widget store.old store.new }
{
    match indexed(base, out) {
        Some(at) => {
            set_reference(of, Reference::Element(at.cell, at.index));
            Ok(Ended::Is)
        }
        None => refer_named(site, run, store, base, of, out),
    }
}

// The same by the name of the subscript.
#[inline(never)]
fn refer_named(
    site: &Site,
    run: &mut Run,
    store: &mut Store,
    base: &mut Value,
    of: &mut Reference,
    out: &mut Value,
) -> Result<Ended, Memory>
    requires ready { IsReady (trees_of site.now.codes.now.items) site.now.widget store.old run.old }
    requires held { IsFine site.now.widget store.old.cells base.old }
    ensures comes { let F = trees_of site.now.codes.now.items in let w = site.now.widget in
        IfOk result (λ how. Reaches F w store.old store.new 1
        (expressions.refer (seen w store.old.cells base.old) (meaning.to_text (seen w store.old.cells out.old)))
        run.old run.new how of.new out.new) }
    ensures kept { Kept (trees_of site.now.codes.now.items) site.now.widget store.old store.new }
{
    let name = name_of(site.alloc, out)?;
    *out = take_value(base);
    refer_on(site, run, store, name, of, out)
}

// An expression that stands where a target may be; it has the unit of the target.
#[inline(never)]
#[cycle(direct)]
fn found_target(
    here: &Here,
    run: &mut Run,
    store: &mut Store,
    id: ExprId,
    deep: u32,
    of: &mut Reference,
    out: &mut Value,
) -> Result<Ended, Memory>
    requires ready { IsReady (trees_of here.now.site.now.codes.now.items) here.now.site.now.widget store.old run.old }
    requires held { IsExprAt (trees_of here.now.site.now.codes.now.items) here.now.site.now.widget store.old.cells id
        here.now.at }
    requires tree { trees here.now.tree.now ≡ forest_at (trees_of here.now.site.now.codes.now.items) here.now.at.code }
    ensures comes { let F = trees_of here.now.site.now.codes.now.items in let w = here.now.site.now.widget in
        IfOk result (λ how. Reaches F w store.old store.new 31
        (λ s. and_then (body (job_of F w store.old.cells (Job.Eval id here.now.at)) s)
        (form_taken F w store.old.cells FormFrame.Found))
        run.old run.new how of.new out.new) }
    ensures kept { Kept (trees_of here.now.site.now.codes.now.items) here.now.site.now.widget store.old store.new }
{
    match form_on(here, run, store, id, deep, out)? {
        Ended::Is => {
            set_reference(of, Reference::Found(take_value(out)));
            Ok(Ended::Is)
        }
        Ended::Left => wait(run, Frame::Form(FormFrame::Found)),
        other => Ok(other),
    }
}

/// What a reference has.
pub(crate) fn referred(here: &Here, store: &Store, of: &Reference) -> Result<Value, Memory>
    requires confined { IsConfined (trees_of here.now.site.now.codes.now.items) here.now.site.now.widget store.now }
    requires held { FineReference here.now.site.now.widget store.now.cells of.now
        × IsPlace (trees_of here.now.site.now.codes.now.items) here.now.site.now.widget store.now.cells here.now.at }
    ensures found { let F = trees_of here.now.site.now.codes.now.items in let w = here.now.site.now.widget in
        IfOk result (λ v. (r : Rest) → seen w store.now.cells v
        ≡ expressions.referred (reference_of w store.now.cells of.now) (place_of w store.now.cells here.now.at)
        (image F r w store.now)) }
    ensures fine { IfOk result (IsFine here.now.site.now.widget store.now.cells) }
{
    match of {
        Reference::Variable(x) => variable(store, here.at.scope, x),
        Reference::Property(base, x) => get(store, base, x),
        Reference::Element(cell, i) => indexed_value(store, *cell, *i),
        Reference::Found(v) => v.share(),
    }
}

/// `delete`, after its unit: its target, and then the property is taken out.
#[inline(never)]
#[cycle(direct)]
pub(crate) fn delete_on(
    here: &Here,
    run: &mut Run,
    store: &mut Store,
    e: ExprId,
    deep: u32,
    out: &mut Value,
) -> Result<Ended, Memory>
    requires ready { IsReady (trees_of here.now.site.now.codes.now.items) here.now.site.now.widget store.old run.old }
    requires held { IsExprAt (trees_of here.now.site.now.codes.now.items) here.now.site.now.widget store.old.cells e
        here.now.at }
    requires tree { trees here.now.tree.now ≡ forest_at (trees_of here.now.site.now.codes.now.items) here.now.at.code }
    ensures comes { let F = trees_of here.now.site.now.codes.now.items in let w = here.now.site.now.widget in
        IfOk result (λ how. Comes F w store.old store.new 30
        (λ s. Do (job_of F w store.old.cells (Job.Target e here.now.at)) s
        (form_taken F w store.old.cells FormFrame.Delete))
        run.old run.new how out.new) }
    ensures kept { Kept (trees_of here.now.site.now.codes.now.items) here.now.site.now.widget store.old store.new }
{
    let mut of = Reference::Found(Value::Undefined);
    deleted_on(here, run, store, e, deep, &mut of, out)
}

// The same with a place for the reference of its target.
#[cycle(direct)]
fn deleted_on(
    here: &Here,
    run: &mut Run,
    store: &mut Store,
    e: ExprId,
    deep: u32,
    of: &mut Reference,
    out: &mut Value,
) -> Result<Ended, Memory>
    requires ready { IsReady (trees_of here.now.site.now.codes.now.items) here.now.site.now.widget store.old run.old }
    requires held { IsExprAt (trees_of here.now.site.now.codes.now.items) here.now.site.now.widget store.old.cells e
        here.now.at }
    requires tree { trees here.now.tree.now ≡ forest_at (trees_of here.now.site.now.codes.now.items) here.now.at.code }
    ensures comes { let F = trees_of here.now.site.now.codes.now.items in let w = here.now.site.now.widget in
        IfOk result (λ how. Comes F w store.old store.new 30
        (λ s. Do (job_of F w store.old.cells (Job.Target e here.now.at)) s
        (form_taken F w store.old.cells FormFrame.Delete))
        run.old run.new how out.new) }
    ensures kept { Kept (trees_of here.now.site.now.codes.now.items) here.now.site.now.widget store.old store.new }
{
    match target_on(here, run, store, e, deep, of, out)? {
        Ended::Is => remove_on(here.site, run, store, of, out),
        other => hand_delete(run, other),
    }
}

// The end of its target that is no reference.
#[cold]
#[inline(never)]
fn hand_delete(run: &mut Run, how: Ended) -> Result<Ended, Memory>
    ensures { IfOk result (λ h. HandsOn run.old run.new how h (Frame.Form FormFrame.Delete)) }
{
    match how {
        Ended::Left => wait(run, Frame::Form(FormFrame::Delete)),
        how => Ok(how),
    }
}

/// A property is taken out; what else is referred to stays.
pub(crate) fn remove_on(
    site: &Site,
    run: &mut Run,
    store: &mut Store,
    of: &Reference,
    out: &mut Value,
) -> Result<Ended, Memory>
    requires ready { IsReady (trees_of site.now.codes.now.items) site.now.widget store.old run.old }
    requires held { FineReference site.now.widget store.old.cells of.now }
    ensures comes { let F = trees_of site.now.codes.now.items in let w = site.now.widget in
        IfOk result (λ how. Comes F w store.old store.new 1
        (expressions.delete_at (reference_of w store.old.cells of.now))
        run.old run.new how out.new) }
    ensures kept { Kept (trees_of site.now.codes.now.items) site.now.widget store.old store.new }
{
    match of {
        Reference::Property(base, x) => remove_named(site, run, store, base, x, out),
        Reference::Element(cell, i) => {
            let name = whole_text(site.alloc, i64::from(*i))?;
            remove_named(site, run, store, &Value::Ref(*cell), &name, out)
        }
        Reference::Variable(_) => {
            *out = Value::Bool(true);
            Ok(Ended::Is)
        }
        Reference::Found(_) => {
            *out = Value::Bool(true);
            Ok(Ended::Is)
        }
    }
}

// A property is taken out by its name.
fn remove_named(
    site: &Site,
    run: &mut Run,
    store: &mut Store,
    base: &Value,
    name: &Text,
    out: &mut Value,
) -> Result<Ended, Memory>
    requires ready { IsReady (trees_of site.now.codes.now.items) site.now.widget store.old run.old }
    requires held { IsFine site.now.widget store.old.cells base.now }
    ensures comes { let F = trees_of site.now.codes.now.items in let w = site.now.widget in
        IfOk result (λ how. Comes F w store.old store.new 1
        (expressions.delete_at (meaning.Property (seen w store.old.cells base.now) name.now))
        run.old run.new how out.new) }
    ensures kept { Kept (trees_of site.now.codes.now.items) site.now.widget store.old store.new }
{
    match remove(store, site.widget, base, name) {
        Removed::Done(answer) => {
            *out = Value::Bool(answer);
            Ok(Ended::Is)
        }
        Removed::Throw(fault) => throw(site, run, store, fault, out),
    }
}
