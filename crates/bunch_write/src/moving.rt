//! Nodes that are taken out of their places, or put into others.
ghost use Rattle.std.specs.Prelude.{◌≡◌, ℕ, [], ◌∷◌, Some, true, OnOk, map};
ghost use Rattle.std.specs.List.{fold};
ghost use Rattle.query_grammar.specs.Finds.{has_number};
ghost use Rattle.permitted_table.specs.declared.native.WriteNative.TheVariants as names;
ghost use Rattle.js_image.specs.Held.{IsFine, IsHeld};
ghost use Rattle.page_image.specs.Image.{HasRoot, forest, number, owns};
ghost use Rattle.page_image.specs.Stays.{HostStays, KeepsNodes, OthersStay};
ghost use Rattle.native_image.specs.Handed.{IsBunchOf, IsSoundIn, Runs, Writes, numbers, sees};
ghost use Rattle.page_image.specs.Targets.{may_come};
ghost use Rattle.widget_meaning.specs.Trees.{detached, moved, parent};
ghost use Rattle.bunch_write.specs.Trees.{emptied_in, may_take, replace_plan};

use bunch_attributes::has_node;
use bunch_trees::none_root;
use code_units::Memory;
use js_image::Fault;
use js_values::{Meter, NativeOut};
use native_common::WidgetId;
use native_image::{Cost, Receiver, Shared, Widget, begin, bunch_of};
use object_store::{CellId, Value};
use page_image::{detach_all, may_append, parent};
use page_tree::{NodeId, Page};

/// `remove()`.
pub(crate) fn remove(
    bunch: &Receiver,
    shared: &mut Shared,
    meter: &mut Meter,
    widget: &Widget,
) -> Result<NativeOut, Memory>
    requires bunch { IsBunchOf shared.old widget.now bunch.now.cell bunch.now.nodes.now }
    requires sound { IsSoundIn shared.old widget.now }
    ensures { Runs shared.old shared.new widget.now widget.now meter.old meter.new names.Remove
        bunch.now.cell bunch.now.nodes.now [] result }
{
    if !none_root(bunch.nodes, widget.id, &shared.page) {
        return Ok(NativeOut::Throw(Fault::E10));
    }
    let nodes = Vec::from_slice(shared.alloc, bunch.nodes)?;
    match begin(
        &mut shared.store,
        meter,
        widget.id,
        bunch.nodes.len(),
        Cost::Nothing,
    ) {
        Ok(()) => {
            detach_all(&mut shared.page, widget.id.index, nodes);
            Ok(NativeOut::Value(Value::Ref(bunch.cell)))
        }
        Err(out) => Ok(out),
    }
}

// Takes all children from nodes of a widget.
fn empty_all(list: &[NodeId], w: WidgetId, page: &mut Page)
    requires home { HasRoot page.old w.index }
    requires own { (n : ℕ) → has_number list.now n ≡ true → owns page.old w.index n ≡ true }
    ensures image { forest page.new w.index ≡ fold emptied_in (forest page.old w.index) (map (number page.old w.index) list.now) }
    ensures kept { KeepsNodes page.old page.new }
    ensures others { OthersStay page.old page.new w.index }
    ensures host { HostStays page.old page.new }
{
    'each: for node in list {
        page_image::empty(page, w.index, *node);
    }
}

/// `empty()`.
pub(crate) fn empty(
    bunch: &Receiver,
    shared: &mut Shared,
    meter: &mut Meter,
    widget: &Widget,
) -> NativeOut
    requires bunch { IsBunchOf shared.old widget.now bunch.now.cell bunch.now.nodes.now }
    requires sound { IsSoundIn shared.old widget.now }
    ensures { Runs shared.old shared.new widget.now widget.now meter.old meter.new names.Empty
        bunch.now.cell bunch.now.nodes.now [] (Ok result) }
{
    match begin(
        &mut shared.store,
        meter,
        widget.id,
        bunch.nodes.len(),
        Cost::Nothing,
    ) {
        Ok(()) => {
            empty_all(bunch.nodes, widget.id, &mut shared.page);
            NativeOut::Value(Value::Ref(bunch.cell))
        }
        Err(out) => out,
    }
}

// Whether nodes may come below a node in the place of another, which is none of them.
fn may_take(above: NodeId, node: NodeId, news: &[NodeId], w: WidgetId, page: &Page) -> bool
    requires home { HasRoot page.now w.index }
    requires above { owns page.now w.index above ≡ true }
    requires own { owns page.now w.index node ≡ true }
    requires news { (n : ℕ) → has_number news.now n ≡ true → owns page.now w.index n ≡ true }
    ensures { result ≡ may_take (forest page.now w.index) (map (number page.now w.index) news.now) (number page.now w.index node)
        (number page.now w.index above) }
{
    if has_node(news, node) {
        return false;
    }
    may_append(page, w.index, above, news)
}

// Whether nodes may come in the place of a node: it has a parent that takes them, and is none of
// them.
fn may_replace(node: NodeId, news: &[NodeId], w: WidgetId, page: &Page) -> bool
    requires home { HasRoot page.now w.index }
    requires own { owns page.now w.index node ≡ true }
    requires news { (n : ℕ) → has_number news.now n ≡ true → owns page.now w.index n ≡ true }
    ensures { result ≡ may_come (forest page.now w.index) (map (number page.now w.index) news.now) (number page.now w.index node) }
{
    match parent(page, w.index, node) {
        Some(above) => may_take(above, node, news, w, page),
        None => false,
    }
}

// Puts nodes in the place of another, which was judged before. A refusal is answered like want of
// memory.
fn put_in_place(page: &mut Page, w: WidgetId, node: NodeId, news: &[NodeId]) -> Result<(), Memory>
    requires home { HasRoot page.old w.index }
    requires own { owns page.old w.index node ≡ true }
    requires news { (n : ℕ) → has_number news.now n ≡ true → owns page.old w.index n ≡ true }
    ensures image { OnOk result ((p : ℕ) → parent (number page.old w.index node) (forest page.old w.index) ≡ Some p →
        forest page.new w.index ≡ detached
        (fold (moved p (Some (number page.old w.index node))) (forest page.old w.index) (map (number page.old w.index) news.now))
        (number page.old w.index node)) }
    ensures kept { KeepsNodes page.old page.new }
    ensures others { OthersStay page.old page.new w.index }
    ensures host { HostStays page.old page.new }
{
    match page_image::replace(page, w.index, node, news) {
        Ok(()) => Ok(()),
        Err(_) => Err(Memory),
    }
}

// Nodes come in the place of one, and the Bunch of it is given back.
fn replace_by(
    node: NodeId,
    news: &[NodeId],
    this: CellId,
    shared: &mut Shared,
    meter: &mut Meter,
    widget: &Widget,
) -> Result<NativeOut, Memory>
    requires own { owns shared.old.page widget.now.id.index node ≡ true }
    requires news { (n : ℕ) → has_number news.now n ≡ true → owns shared.old.page widget.now.id.index n ≡ true }
    requires held { IsHeld widget.now.id.index shared.old.store.cells this }
    requires sound { IsSoundIn shared.old widget.now }
    ensures { Writes shared.old shared.new widget.now widget.now meter.old meter.new (λ d s. replace_plan
        (number shared.old.page widget.now.id.index node) (numbers shared.old widget.now news.now)
        (sees shared.old widget.now (Value.Ref this)) s) result }
{
    if !may_replace(node, news, widget.id, &shared.page) {
        return Ok(NativeOut::Throw(Fault::E10));
    }
    match begin(&mut shared.store, meter, widget.id, 1, Cost::Nothing) {
        Ok(()) => {
            put_in_place(&mut shared.page, widget.id, node, news)?;
            Ok(NativeOut::Value(Value::Ref(this)))
        }
        Err(out) => Ok(out),
    }
}

/// `replace(b)`.
pub(crate) fn replace(
    bunch: &Receiver,
    other: &Value,
    shared: &mut Shared,
    meter: &mut Meter,
    widget: &Widget,
) -> Result<NativeOut, Memory>
    requires bunch { IsBunchOf shared.old widget.now bunch.now.cell bunch.now.nodes.now }
    requires other { IsFine widget.now.id.index shared.old.store.cells other.now }
    requires sound { IsSoundIn shared.old widget.now }
    ensures { Runs shared.old shared.new widget.now widget.now meter.old meter.new names.Replace
        bunch.now.cell bunch.now.nodes.now (other.now ∷ []) result }
{
    let list = bunch.nodes;
    if list.len() != 1 {
        return Ok(NativeOut::Throw(Fault::E4));
    }
    match bunch_of(shared.alloc, &shared.store, widget.id, &shared.page, other)? {
        Some(news) => replace_by(list[0], &news, bunch.cell, shared, meter, widget),
        None => Ok(NativeOut::Throw(Fault::E4)),
    }
}
