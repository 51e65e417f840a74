//! The root of a widget: `dom.append`, and nodes that are not the root.
ghost use Rattle.std.specs.Prelude.{◌≡◌, ℕ, [], ◌∷◌, Bool, Option, true, IfOk, map};
ghost use Rattle.std.specs.List.{list_all};
ghost use Rattle.query_grammar.specs.Finds.{has_number};
ghost use Rattle.widget_meaning.specs.BunchWrites as writes;
ghost use Rattle.widget_meaning.specs.DomNatives as means;
ghost use Rattle.permitted_table.specs.declared.native.DomNative.TheVariants as names;
ghost use Rattle.widget_meaning.specs.Values.{Value as Meant};
ghost use Rattle.event_loop.specs.declared.around.Loop.{Loop};
ghost use Rattle.js_image.specs.Held.{IsFine};
ghost use Rattle.js_image.specs.Image.{seen};
ghost use Rattle.page_image.specs.Image.{HasRoot, number, owns};
ghost use Rattle.native_image.specs.Image.{beside};
ghost use Rattle.native_image.specs.Refines.{EndsAt, RefinesAt};
ghost use Rattle.native_image.specs.Sound.{IsSound, KeepsAll};
ghost use Rattle.bunch_trees.specs.Appends.{root_paid, root_plan};

use crate::copying::put_under;
use crate::measuring::measure_all;
use code_units::{Memory, Owner};
use js_image::Fault;
use js_values::{Meter, NativeOut};
use native_common::{WidgetId, take};
use native_image::{Bill, bunch_of, bunch_of_node, settle, weigh};
use object_store::{Store, Value};
use page_image::{is_root, may_append};
use page_tree::{NodeId, Page};
use std::alloc::Global;

/// Whether none of these nodes is the root.
pub fn none_root(list: &[NodeId], w: WidgetId, page: &Page) -> bool
    requires home { HasRoot page.now w.index }
    requires own { (n : ℕ) → has_number list.now n ≡ true → owns page.now w.index n ≡ true }
    ensures { result ≡ list_all writes.is_no_root (map (number page.now w.index) list.now) }
{
    'each: for node in list {
        if is_root(page, w.index, *node) {
            return false;
        }
    }
    true
}

// The root of a widget.
fn root_of(w: WidgetId, page: &Page) -> NodeId
    requires { HasRoot page.now w.index }
    ensures own { owns page.now w.index result ≡ true }
    ensures first { number page.now w.index result ≡ 0 }
{
    match page.root_of(Owner::Widget(w.index)) {
        Some(root) => root,
        None => unreachable!(),
    }
}

// The cost is weighed, the nodes come under the root, and a new Bunch of it is given.
fn under_root(
    alloc: Global,
    news: &[NodeId],
    root: NodeId,
    store: &mut Store,
    w: WidgetId,
    page: &mut Page,
) -> Result<NativeOut, Memory>
    requires own { owns page.old w.index root ≡ true }
    requires first { number page.old w.index root ≡ 0 }
    requires news { (n : ℕ) → has_number news.now n ≡ true → owns page.old w.index n ≡ true }
    requires sound { (l : Loop) × IsSound w.index store.old page.old l }
    ensures ends { (l : Loop) (b : Option Bool) → IsSound w.index store.old page.old l → IfOk result (λ o.
        EndsAt w.index (beside store.old page.old l b) (beside store.new page.new l b)
        (λ d s. root_paid (map (number page.old w.index) news.now) s) o) }
    ensures kept { (l : Loop) → IsSound w.index store.old page.old l → KeepsAll w.index store.old store.new page.old page.new l }
{
    let bill = Bill {
        units: 0,
        cells: 1,
        slots: 2,
        nodes: 0,
    };
    match weigh(store, page, w, bill) {
        Ok(due) => {
            put_under(page, w, root, news)?;
            let value = bunch_of_node(alloc, store, w, page, root)?;
            settle(store, page, w, due)?;
            Ok(NativeOut::Value(value))
        }
        Err(cause) => Ok(NativeOut::Stop(cause)),
    }
}

// Appends nodes of the widget to its root.
fn append_to_root(
    alloc: Global,
    news: &[NodeId],
    store: &mut Store,
    meter: &mut Meter,
    w: WidgetId,
    page: &mut Page,
) -> Result<NativeOut, Memory>
    requires news { (n : ℕ) → has_number news.now n ≡ true → owns page.old w.index n ≡ true }
    requires sound { (l : Loop) × IsSound w.index store.old page.old l }
    ensures native { (l : Loop) (b : Option Bool) → IsSound w.index store.old page.old l → IfOk result (λ o.
        RefinesAt w.index (beside store.old page.old l b) (beside store.new page.new l b) meter.old meter.new
        (λ d s. root_plan (map (number page.old w.index) news.now) s) o) }
    ensures kept { (l : Loop) → IsSound w.index store.old page.old l → KeepsAll w.index store.old store.new page.old page.new l }
{
    let root = root_of(w, page);
    if !may_append(page, w.index, root, news) {
        return Ok(NativeOut::Throw(Fault::E10));
    }
    let extent = measure_all(news, w, page);
    match take(meter, extent.nodes) {
        Ok(()) => under_root(alloc, news, root, store, w, page),
        Err(_) => Ok(NativeOut::OutOfFuel),
    }
}

/// `dom.append(b)`: the nodes of b become the last children of the root, and a new Bunch of it is
/// given.
pub fn dom_append(
    alloc: Global,
    other: &Value,
    store: &mut Store,
    meter: &mut Meter,
    w: WidgetId,
    page: &mut Page,
) -> Result<NativeOut, Memory>
    requires other { IsFine w.index store.old.cells other.now }
    requires sound { (l : Loop) × IsSound w.index store.old page.old l }
    ensures native { (l : Loop) (b : Option Bool) (this : Option Meant) → IsSound w.index store.old page.old l
        → IfOk result (λ o.
        RefinesAt w.index (beside store.old page.old l b) (beside store.new page.new l b) meter.old meter.new
        (λ d s. means.dom_native names.DomAppend this (seen w.index store.old.cells other.now ∷ []) d s) o) }
    ensures kept { (l : Loop) → IsSound w.index store.old page.old l → KeepsAll w.index store.old store.new page.old page.new l }
{
    match bunch_of(alloc, store, w, page, other)? {
        Some(news) => append_to_root(alloc, &news, store, meter, w, page),
        None => Ok(NativeOut::Throw(Fault::E4)),
    }
}
