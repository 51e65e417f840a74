//! The values of nodes: an `input` has its attribute `value` or the empty text, a text node its text, another
//! element its
//! text content, which is its text nodes in document order.
ghost use Rattle.std.specs.Prelude.{◌≡◌, ◌≤◌, ◌++◌, ℕ, List, Some, true, IfOk, OnOk, length, map, sum_by};
ghost use Rattle.std.specs.List.{list_any};
ghost use Rattle.plain_tree.specs.Trees.{Label};
ghost use Rattle.js_tree.specs.Forest.{Forest};
ghost use Rattle.tree_ops.specs.Trees.{subtree};
ghost use Rattle.query_grammar.specs.Finds.{has_number};
ghost use Rattle.store_cells.specs.Cells.{PlainCell};
ghost use Rattle.permitted_table.specs.declared.native.ReadNative.TheVariants.{GetValue};
ghost use Rattle.widget_meaning.specs.BunchReads as means;
ghost use Rattle.widget_meaning.specs.OwnState.{State};
ghost use Rattle.widget_meaning.specs.NativeForms as forms;
ghost use Rattle.widget_meaning.specs.PageForms.{is_input, texts_of};
ghost use Rattle.js_image.specs.Held.{AreFine, Kept};
ghost use Rattle.native_common.specs.Refines.{Ends};
ghost use Rattle.native_common.specs.Numbers.{counted};
ghost use Rattle.page_image.specs.Image.{forest, label_at, number, owns};
ghost use Rattle.native_image.specs.Handed.{AreIts, IsSoundIn, Reads, numbers};
ghost use Rattle.native_image.specs.Image.{Parts};
ghost use Rattle.native_image.specs.Refines.{FiresAtOwn};
ghost use Rattle.bunch_read.specs.Values.{all_units, is_long, own_text, value_plan};

use crate::attributes::text_or_empty;
use code_units::{Memory, Text, is_word};
use js_image::{Made, StopCause, make_array};
use js_values::{Meter, NativeOut};
use native_common::{WidgetId, take, text_len};
use native_image::{Shared, Widget, make_text};
use object_store::{Store, Value};
use page_image::{attr_of_word, children, content, tag};
use page_tree::{Content, NodeId, Page};
use std::alloc::Global;

// Whether a node is an `input`.
fn is_input(node: NodeId, w: u32, page: &Page) -> bool
    requires { owns page.now w node ≡ true }
    ensures { (s : State) → s.own.forest ≡ forest page.now w → result ≡ is_input s (number page.now w node) }
{
    match tag(page, w, node) {
        Some(name) => is_word(name, b"input"),
        None => false,
    }
}

// What a node has by itself: a text node its units, an element none.
fn own_units(node: NodeId, w: u32, page: &Page) -> &[u16]
    requires { owns page.now w node ≡ true }
    ensures { (l : Label) → label_at page.now w node ≡ Some l → result.now ≡ own_text l }
{
    match content(page, w, node) {
        Content::Text(text) => text.units(),
        Content::Element(_, _) => &[],
    }
}

// How many units that are.
fn own_len(node: NodeId, w: u32, page: &Page) -> usize
    requires { owns page.now w node ≡ true }
    ensures { (l : Label) → label_at page.now w node ≡ Some l → result ≡ counted (length (own_text l)) }
{
    match content(page, w, node) {
        Content::Text(text) => text_len(text),
        Content::Element(_, _) => 0,
    }
}

// How many units the text content of a node has.
fn content_len(node: NodeId, w: u32, page: &Page) -> usize
    requires { owns page.now w node ≡ true }
    ensures { result ≡ counted (length (texts_of (subtree (number page.now w node) (forest page.now w)))) }
{
    let mut len = own_len(node, w, page);
    'each: for child in children(page, w, node) {
        len = len.saturating_add(content_len(*child, w, page));
    }
    len
}

// Appends the text content of a node.
fn push_content(units: &mut Vec<u16>, node: NodeId, w: u32, page: &Page) -> Result<(), Memory>
    requires { owns page.now w node ≡ true }
    ensures { OnOk result (units.new.items
        ≡ units.old.items ++ texts_of (subtree (number page.now w node) (forest page.now w))) }
{
    units.extend_from_slice(own_units(node, w, page))?;
    'each: for child in children(page, w, node) {
        push_content(units, *child, w, page)?;
    }
    Ok(())
}

// How many units the value of a node has.
fn value_len(node: NodeId, w: u32, page: &Page) -> usize
    requires { owns page.now w node ≡ true }
    ensures { (s : State) → s.own.forest ≡ forest page.now w
        → result ≡ counted (length (means.value_of s (number page.now w node))) }
{
    if !is_input(node, w, page) {
        return content_len(node, w, page);
    }
    match attr_of_word(page, w, node, b"value") {
        Some(value) => text_len(value),
        None => 0,
    }
}

// The value of a node.
fn value_of(alloc: Global, node: NodeId, w: u32, page: &Page) -> Result<Text, Memory>
    requires { owns page.now w node ≡ true }
    ensures { (s : State) → s.own.forest ≡ forest page.now w
        → IfOk result (λ t. t ≡ means.value_of s (number page.now w node)) }
{
    if is_input(node, w, page) {
        return text_or_empty(alloc, attr_of_word(page, w, node, b"value"));
    }
    if let Content::Text(text) = content(page, w, node) {
        return text.share();
    }
    let mut units = Vec::new(alloc);
    push_content(&mut units, node, w, page)?;
    Text::from_units(alloc, units)
}

// Gives the value of a node, at a charge for so many nodes.
fn give_value(
    node: NodeId,
    count: usize,
    shared: &mut Shared,
    meter: &mut Meter,
    widget: &Widget,
) -> Result<NativeOut, Memory>
    requires own { owns shared.old.page widget.now.id.index node ≡ true }
    requires few { count ≤ 16384 }
    requires sound { IsSoundIn shared.old widget.now }
    ensures { Reads shared.old shared.new widget.now meter.old meter.new (λ d s. value_plan count
        (means.value_of s (number shared.old.page widget.now.id.index node)) s) result }
{
    let w = widget.id.index;
    let extra = count.saturating_add(value_len(node, w, &shared.page));
    match take(meter, extra) {
        Ok(()) => {
            let text = value_of(shared.alloc, node, w, &shared.page)?;
            Ok(make_text(&mut shared.store, widget.id, text))
        }
        Err(_) => Ok(NativeOut::OutOfFuel),
    }
}

/// `getValue()`.
pub(crate) fn get_value(
    list: &[NodeId],
    shared: &mut Shared,
    meter: &mut Meter,
    widget: &Widget,
) -> Result<NativeOut, Memory>
    requires nodes { AreIts shared.old widget.now list.now }
    requires sound { IsSoundIn shared.old widget.now }
    ensures { Reads shared.old shared.new widget.now meter.old meter.new
        (λ d s. means.show GetValue (numbers shared.old widget.now list.now) s) result }
{
    match list.first() {
        Some(node) => give_value(*node, list.len(), shared, meter, widget),
        None => Ok(NativeOut::Value(Value::Undefined)),
    }
}

// How many units the values of nodes have together.
fn values_len(list: &[NodeId], w: u32, page: &Page) -> usize
    requires { (n : ℕ) → has_number list.now n ≡ true → owns page.now w n ≡ true }
    ensures { (s : State) → s.own.forest ≡ forest page.now w
        → result ≡ counted (all_units s (map (number page.now w) list.now)) }
{
    let mut len = 0usize;
    'each: for node in list {
        len = len.saturating_add(value_len(*node, w, page));
    }
    len
}

// The values of nodes.
fn values_of(alloc: Global, list: &[NodeId], w: u32, page: &Page) -> Result<Vec<Value>, Memory>
    requires { (n : ℕ) → has_number list.now n ≡ true → owns page.now w n ≡ true }
    ensures texts { (s : State) → s.own.forest ≡ forest page.now w
        → IfOk result (λ vs. vs.items ≡ map Value.Text (map (means.value_of s) (map (number page.now w) list.now))) }
    ensures fine { IfOk result (λ vs. (u : ℕ) (cells : List PlainCell) → AreFine u cells vs.items) }
{
    let mut values = Vec::new(alloc);
    'each: for node in list {
        values.push(Value::Text(value_of(alloc, *node, w, page)?))?;
    }
    Ok(values)
}

// Whether a value is a text that is longer than a text can be.
fn is_long(v: &Value) -> bool
    ensures { result ≡ is_long v.now }
{
    match v {
        Value::Text(t) => t.units().len() > 65536,
        _ => false,
    }
}

// Whether one of these is.
fn any_long(values: &[Value]) -> bool
    ensures { result ≡ list_any is_long values.now }
{
    for v in values {
        if is_long(v) {
            return true;
        }
    }
    false
}

// An array of texts that are made for it, which have so many units together.
fn give_texts(
    alloc: Global,
    store: &mut Store,
    w: WidgetId,
    values: Vec<Value>,
    units: u32,
) -> Result<NativeOut, Memory>
    requires { AreFine w.index store.old.cells values.items }
    ensures ends { IfOk result (λ o. (ts : List (List ℕ)) → values.items ≡ map Value.Text ts → units ≡ sum_by length ts
        → Ends w.index store.old store.new (λ d s. forms.give_texts ts s) o) }
    ensures fires { IfOk result (λ o. (v : ℕ) (h : Parts) → FiresAtOwn v h o) }
    ensures kept { (fs : List Forest) → Kept fs w.index store.old store.new }
{
    if any_long(&values) {
        return Ok(NativeOut::Stop(StopCause::LongText));
    }
    match make_array(alloc, store, w.index, values, units)? {
        Made::Cell(id) => Ok(NativeOut::Value(Value::Ref(id))),
        Made::Stop(cause) => Ok(NativeOut::Stop(cause)),
    }
}

/// `getValues()`.
pub(crate) fn get_values(
    list: &[NodeId],
    shared: &mut Shared,
    meter: &mut Meter,
    widget: &Widget,
) -> Result<NativeOut, Memory>
    requires nodes { AreIts shared.old widget.now list.now }
    requires sound { IsSoundIn shared.old widget.now }
    ensures { Reads shared.old shared.new widget.now meter.old meter.new
        (λ d s. means.get_values (numbers shared.old widget.now list.now) s) result }
{
    let w = widget.id.index;
    let units = values_len(list, w, &shared.page);

    // A charge that is taken is at most what was left, so the units fit.
    let _left = meter.left();
    match take(meter, list.len().saturating_add(units)) {
        Ok(()) => {
            let values = values_of(shared.alloc, list, w, &shared.page)?;
            give_texts(
                shared.alloc,
                &mut shared.store,
                widget.id,
                values,
                units as u32,
            )
        }
        Err(_) => Ok(NativeOut::OutOfFuel),
    }
}
