//! `append`.
ghost use Rattle.std.specs.Prelude.{◌≡◌, ℕ, [], ◌∷◌, Bool, Option, true, IfOk, map};
ghost use Rattle.std.specs.List.{list_all};
ghost use Rattle.plain_tree.specs.Trees.{size};
ghost use Rattle.query_grammar.specs.Finds.{has_number};
ghost use Rattle.permitted_table.specs.declared.native.WriteNative.TheVariants as names;
ghost use Rattle.widget_meaning.specs.PageForms.{tree_units};
ghost use Rattle.event_loop.specs.declared.around.Loop.{Loop};
ghost use Rattle.js_image.specs.Held.{IsFine, IsHeld};
ghost use Rattle.js_image.specs.Image.{seen};
ghost use Rattle.native_common.specs.Numbers.{counted};
ghost use Rattle.page_image.specs.Copies.{trees_at};
ghost use Rattle.page_image.specs.Image.{HasRoot, forest, number, owns};
ghost use Rattle.page_image.specs.Targets.{takes};
ghost use Rattle.native_image.specs.Handed.{IsBunchOf, IsSoundIn, Runs, Writes, numbers, sees};
ghost use Rattle.native_image.specs.Image.{beside};
ghost use Rattle.native_image.specs.Refines.{EndsAt};
ghost use Rattle.native_image.specs.Sound.{AreNodes, IsSound, KeepsAll};
ghost use Rattle.bunch_trees.specs.Appends.{append_nodes, append_paid};

use crate::copying::append_all;
use crate::measuring::{Extent, measure_all};
use crate::rooted::none_root;
use crate::target::Target;
use code_units::{Memory, Owner};
use js_image::Fault;
use js_values::{Meter, NativeOut};
use native_common::{WidgetId, take};
use native_image::{Bill, Receiver, Shared, Widget, bunch_of, pay_judged, settle, weigh};
use object_store::{Store, Value};
use page_tree::{NodeId, Page};
use std::alloc::Global;

// Whether each target takes all of these nodes.
fn all_take(
    alloc: Global,
    targets: &[NodeId],
    news: &[NodeId],
    w: WidgetId,
    page: &Page,
) -> Result<bool, Memory>
    requires home { HasRoot page.now w.index }
    requires targets { (n : ℕ) → has_number targets.now n ≡ true → owns page.now w.index n ≡ true }
    requires news { (n : ℕ) → has_number news.now n ≡ true → owns page.now w.index n ≡ true }
    ensures { IfOk result (λ b. b ≡
        list_all (takes (forest page.now w.index) (map (number page.now w.index) news.now)) (map (number page.now w.index) targets.now)) }
{
    let mut in_order = news.to_vec(alloc)?;
    in_order.sort_unstable();
    Ok(page.may_append_to(Owner::Widget(w.index), targets, news, &in_order))
}

// The cost is weighed, the nodes are appended, and the Bunch is given back.
fn append_weighed(
    alloc: Global,
    bunch: &Target,
    news: &[NodeId],
    extent: Extent,
    store: &mut Store,
    page: &mut Page,
) -> Result<NativeOut, Memory>
    requires nodes { AreNodes page.old bunch.now.w.index bunch.now.nodes.now }
    requires held { IsHeld bunch.now.w.index store.old.cells bunch.now.cell }
    requires news { (n : ℕ) → has_number news.now n ≡ true → owns page.old bunch.now.w.index n ≡ true }
    requires size { extent.nodes ≡ counted (size (trees_at page.old bunch.now.w.index news.now)) }
    requires units { extent.units ≡ counted (tree_units (trees_at page.old bunch.now.w.index news.now)) }
    requires sound { (l : Loop) × IsSound bunch.now.w.index store.old page.old l }
    ensures ends { (l : Loop) (b : Option Bool) → IsSound bunch.now.w.index store.old page.old l → IfOk result (λ o.
        EndsAt bunch.now.w.index (beside store.old page.old l b) (beside store.new page.new l b)
        (λ d s. append_paid (map (number page.old bunch.now.w.index) bunch.now.nodes.now)
        (map (number page.old bunch.now.w.index) news.now)
        (seen bunch.now.w.index store.old.cells (Value.Ref bunch.now.cell)) s) o) }
    ensures kept { (l : Loop) → IsSound bunch.now.w.index store.old page.old l
        → KeepsAll bunch.now.w.index store.old store.new page.old page.new l }
{
    let copies = bunch.nodes.len().saturating_sub(1);
    let units = copies.saturating_mul(extent.units);
    let bill = Bill {
        units,
        cells: 0,
        slots: 0,
        nodes: copies.saturating_mul(extent.nodes),
    };
    match weigh(store, page, bunch.w, bill) {
        Ok(due) => {
            pay_judged(store, bunch.w, units as u32)?;
            append_all(alloc, store, page, bunch.w, bunch.nodes, news)?;
            settle(store, page, bunch.w, due)?;
            Ok(NativeOut::Value(Value::Ref(bunch.cell)))
        }
        Err(cause) => Ok(NativeOut::Stop(cause)),
    }
}

// Appends nodes of the widget.
fn append_nodes(
    bunch: &Receiver,
    news: &[NodeId],
    shared: &mut Shared,
    meter: &mut Meter,
    widget: &Widget,
) -> Result<NativeOut, Memory>
    requires bunch { IsBunchOf shared.old widget.now bunch.now.cell bunch.now.nodes.now }
    requires news { (n : ℕ) → has_number news.now n ≡ true → owns shared.old.page widget.now.id.index n ≡ true }
    requires sound { IsSoundIn shared.old widget.now }
    ensures { Writes shared.old shared.new widget.now widget.now meter.old meter.new (λ d s. append_nodes
        (numbers shared.old widget.now bunch.now.nodes.now) (numbers shared.old widget.now news.now)
        (sees shared.old widget.now (Value.Ref bunch.now.cell)) s) result }
{
    let takes = all_take(shared.alloc, bunch.nodes, news, widget.id, &shared.page)?;
    if !takes {
        return Ok(NativeOut::Throw(Fault::E10));
    }
    if !none_root(news, widget.id, &shared.page) {
        return Ok(NativeOut::Throw(Fault::E10));
    }
    let extent = measure_all(news, widget.id, &shared.page);
    let target = Target {
        w: widget.id,
        cell: bunch.cell,
        nodes: bunch.nodes,
    };
    match take(meter, bunch.nodes.len().saturating_mul(extent.nodes)) {
        Ok(()) => append_weighed(
            shared.alloc,
            &target,
            news,
            extent,
            &mut shared.store,
            &mut shared.page,
        ),
        Err(_) => Ok(NativeOut::OutOfFuel),
    }
}

/// `append(b)`: the nodes of b become the last children of the last node of the Bunch, and copies of
/// them those of the others.
pub fn append(
    bunch: &Receiver,
    other: &Value,
    shared: &mut Shared,
    meter: &mut Meter,
    widget: &Widget,
) -> Result<NativeOut, Memory>
    requires bunch { IsBunchOf shared.old widget.now bunch.now.cell bunch.now.nodes.now }
    requires other { IsFine widget.now.id.index shared.old.store.cells other.now }
    requires sound { IsSoundIn shared.old widget.now }
    ensures { Runs shared.old shared.new widget.now widget.now meter.old meter.new names.Append
        bunch.now.cell bunch.now.nodes.now (other.now ∷ []) result }
{
    match bunch_of(shared.alloc, &shared.store, widget.id, &shared.page, other)? {
        Some(news) => append_nodes(bunch, &news, shared, meter, widget),
        None => Ok(NativeOut::Throw(Fault::E4)),
    }
}
