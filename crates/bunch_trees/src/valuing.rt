//! `value`.
ghost use Rattle.std.specs.Prelude.{◌≡◌, ◌≤◌, ℕ, [], ◌∷◌, Bool, Option, true, codes, cond, IfOk, map};
ghost use Rattle.std.specs.List.{count_by, list_all};
ghost use Rattle.query_grammar.specs.Finds.{has_number};
ghost use Rattle.widget_meaning.specs.BunchWrites as means;
ghost use Rattle.permitted_table.specs.declared.native.WriteNative.TheVariants as names;
ghost use Rattle.widget_meaning.specs.OwnState.{State};
ghost use Rattle.widget_meaning.specs.PageForms.{is_tag};
ghost use Rattle.event_loop.specs.declared.around.Loop.{Loop};
ghost use Rattle.js_image.specs.Held.{IsHeld};
ghost use Rattle.js_image.specs.Image.{seen};
ghost use Rattle.page_image.specs.Image.{forest, number, owns};
ghost use Rattle.native_image.specs.Handed.{IsBunchOf, IsSoundIn, Runs, Writes, numbers, sees};
ghost use Rattle.native_image.specs.Image.{beside};
ghost use Rattle.native_image.specs.Refines.{EndsAt};
ghost use Rattle.native_image.specs.Sound.{AreNodes, IsSound, KeepsAll};
ghost use Rattle.bunch_trees.specs.Values.{is_closed_tag, value_paid};

use crate::target::Target;
use crate::writing::{Given, give_all};
use bunch_attributes::{is_input, is_text_node};
use code_units::{Memory, Text, is_word};
use js_image::{Fault, word};
use js_values::{Meter, NativeOut};
use native_common::{WidgetId, is_object, read_text, take, text_len};
use native_image::{Bill, Receiver, Shared, Widget, pay_judged, settle, weigh};
use object_store::{Store, Value};
use page_image::{depth, tag};
use page_tree::{NodeId, Page};
use std::alloc::Global;

// Whether elements of a tag take no value.
fn is_closed_tag(name: &Text) -> bool
    ensures { result ≡ is_closed_tag name.now }
{
    is_word(name, b"br") || is_word(name, b"hr") || is_word(name, b"img")
}

// Whether a node takes no value, whatever it is.
fn is_closed(node: NodeId, w: WidgetId, page: &Page) -> bool
    requires { owns page.now w.index node ≡ true }
    ensures { (s : State) → s.own.forest ≡ forest page.now w.index
        → result ≡ is_tag (codes "br" ∷ codes "hr" ∷ codes "img" ∷ []) s (number page.now w.index node) }
{
    match tag(page, w.index, node) {
        Some(name) => is_closed_tag(name),
        None => false,
    }
}

// Whether a node gets a new text node for a value.
fn gets_text(node: NodeId, text: &Text, w: WidgetId, page: &Page) -> bool
    requires { owns page.now w.index node ≡ true }
    ensures { (s : State) → s.own.forest ≡ forest page.now w.index
        → result ≡ means.has_new_text s text.now (number page.now w.index node) }
{
    if text.units().is_empty() {
        return false;
    }
    !is_text_node(node, w, page) && !is_input(node, w, page)
}

// Whether a node takes a value.
fn takes_value(node: NodeId, text: &Text, w: WidgetId, page: &Page) -> bool
    requires { owns page.now w.index node ≡ true }
    ensures { (s : State) → s.own.forest ≡ forest page.now w.index
        → result ≡ means.is_value_target s text.now (number page.now w.index node) }
{
    if is_closed(node, w, page) {
        return false;
    }
    if !gets_text(node, text, w, page) {
        return true;
    }
    depth(page, w.index, node) < 200
}

// Whether each node takes a value.
fn all_take(nodes: &[NodeId], text: &Text, w: WidgetId, page: &Page) -> bool
    requires { (n : ℕ) → has_number nodes.now n ≡ true → owns page.now w.index n ≡ true }
    ensures { (s : State) → s.own.forest ≡ forest page.now w.index
        → result ≡ list_all (means.is_value_target s text.now) (map (number page.now w.index) nodes.now) }
{
    'each: for node in nodes {
        if !takes_value(*node, text, w, page) {
            return false;
        }
    }
    true
}

// How many new text nodes a node gets.
fn new_text(node: NodeId, text: &Text, w: WidgetId, page: &Page) -> usize
    requires { owns page.now w.index node ≡ true }
    ensures one { (s : State) → s.own.forest ≡ forest page.now w.index
        → result ≡ cond (means.has_new_text s text.now (number page.now w.index node)) 1 0 }
    ensures few { result ≤ 1 }
{
    if gets_text(node, text, w, page) { 1 } else { 0 }
}

// How many there will be.
fn new_texts(nodes: &[NodeId], text: &Text, w: WidgetId, page: &Page) -> usize
    requires { (n : ℕ) → has_number nodes.now n ≡ true → owns page.now w.index n ≡ true }
    ensures { (s : State) → s.own.forest ≡ forest page.now w.index
        → result ≡ count_by (means.has_new_text s text.now) (map (number page.now w.index) nodes.now) }
{
    let mut many: usize = 0;
    'each: for node in nodes {
        many += new_text(*node, text, w, page);
    }
    many
}

// The cost is weighed, the nodes get their value, and the Bunch is given back.
fn value_weighed(
    alloc: Global,
    bunch: &Target,
    text: Text,
    store: &mut Store,
    page: &mut Page,
) -> Result<NativeOut, Memory>
    requires nodes { AreNodes page.old bunch.now.w.index bunch.now.nodes.now }
    requires held { IsHeld bunch.now.w.index store.old.cells bunch.now.cell }
    requires sound { (l : Loop) × IsSound bunch.now.w.index store.old page.old l }
    ensures ends { (l : Loop) (b : Option Bool) → IsSound bunch.now.w.index store.old page.old l → IfOk result (λ o.
        EndsAt bunch.now.w.index (beside store.old page.old l b) (beside store.new page.new l b)
        (λ d s. value_paid (map (number page.old bunch.now.w.index) bunch.now.nodes.now) text
        (seen bunch.now.w.index store.old.cells (Value.Ref bunch.now.cell)) s) o) }
    ensures kept { (l : Loop) → IsSound bunch.now.w.index store.old page.old l
        → KeepsAll bunch.now.w.index store.old store.new page.old page.new l }
{
    let units = bunch.nodes.len().saturating_mul(text_len(&text));
    let bill = Bill {
        units,
        cells: 0,
        slots: 0,
        nodes: new_texts(bunch.nodes, &text, bunch.w, page),
    };
    match weigh(store, page, bunch.w, bill) {
        Ok(due) => {
            pay_judged(store, bunch.w, units as u32)?;
            let name = word(alloc, b"value")?;
            let given = Given { name, text };
            give_all(alloc, store, page, bunch.w, bunch.nodes, &given)?;
            settle(store, page, bunch.w, due)?;
            Ok(NativeOut::Value(Value::Ref(bunch.cell)))
        }
        Err(cause) => Ok(NativeOut::Stop(cause)),
    }
}

// Gives a value to all nodes.
fn give_value(
    bunch: &Receiver,
    text: Text,
    shared: &mut Shared,
    meter: &mut Meter,
    widget: &Widget,
) -> Result<NativeOut, Memory>
    requires bunch { IsBunchOf shared.old widget.now bunch.now.cell bunch.now.nodes.now }
    requires sound { IsSoundIn shared.old widget.now }
    ensures { Writes shared.old shared.new widget.now widget.now meter.old meter.new (λ d s. means.set_value
        (numbers shared.old widget.now bunch.now.nodes.now) text
        (sees shared.old widget.now (Value.Ref bunch.now.cell)) s) result }
{
    if !all_take(bunch.nodes, &text, widget.id, &shared.page) {
        return Ok(NativeOut::Throw(Fault::E10));
    }
    let target = Target {
        w: widget.id,
        cell: bunch.cell,
        nodes: bunch.nodes,
    };
    match take(meter, bunch.nodes.len()) {
        Ok(()) => value_weighed(
            shared.alloc,
            &target,
            text,
            &mut shared.store,
            &mut shared.page,
        ),
        Err(_) => Ok(NativeOut::OutOfFuel),
    }
}

/// `value(v)`.
pub fn set_value(
    bunch: &Receiver,
    value: &Value,
    shared: &mut Shared,
    meter: &mut Meter,
    widget: &Widget,
) -> Result<NativeOut, Memory>
    requires bunch { IsBunchOf shared.old widget.now bunch.now.cell bunch.now.nodes.now }
    requires sound { IsSoundIn shared.old widget.now }
    ensures { Runs shared.old shared.new widget.now widget.now meter.old meter.new names.SetValue
        bunch.now.cell bunch.now.nodes.now (value.now ∷ []) result }
{
    if is_object(value) {
        return Ok(NativeOut::Throw(Fault::E4));
    }
    let text = read_text(shared.alloc, value)?;
    give_value(bunch, text, shared, meter, widget)
}
