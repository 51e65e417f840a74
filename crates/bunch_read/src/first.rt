//! What else is read of the first node, and how many there are.
ghost use Rattle.std.specs.Prelude.{◌≡◌, ◌≤◌, ℕ, Ok, true, IfOk, codes, length, map, pos, if◌then◌else◌};
ghost use Rattle.widget_meaning.specs.BunchReads as means;
ghost use Rattle.widget_meaning.specs.Costs.{give};
ghost use Rattle.widget_meaning.specs.PageForms as forms;
ghost use Rattle.widget_meaning.specs.OwnState.{State};
ghost use Rattle.widget_meaning.specs.Plan.{charge};
ghost use Rattle.widget_meaning.specs.Values.{Num, Truth};
ghost use Rattle.page_image.specs.Around.{Shows};
ghost use Rattle.page_image.specs.Image.{forest, number, owns};
ghost use Rattle.native_image.specs.Handed.{AreIts, IsSoundIn, Reads, numbers};
ghost use Rattle.native_image.specs.Sound.{AreNodes};

use crate::attributes::{first_found, text_or_empty};
use code_units::{Memory, Text};
use event_loop::Loop;
use js_image::word;
use js_values::{Meter, NativeOut};
use native_image::{Shared, Widget, give_plain};
use object_store::{Number, Value};
use page_image::{mark, tag};
use page_tree::{NodeId, Page};
use std::alloc::Global;

// How many nodes these are, as a number.
fn count_value(list: &[NodeId]) -> Value
    requires { length list.now ≤ 16384 }
    ensures { result ≡ Value.Num (Number.Whole (pos (length list.now))) }
{
    Value::Num(Number::Whole(list.len() as i64))
}

/// `count()`.
pub(crate) fn count(
    list: &[NodeId],
    shared: &Shared,
    meter: &mut Meter,
    widget: &Widget,
) -> NativeOut
    requires nodes { AreIts shared.now widget.now list.now }
    requires sound { IsSoundIn shared.now widget.now }
    ensures { Reads shared.now shared.now widget.now meter.old meter.new (λ d t. charge
        (length (numbers shared.now widget.now list.now)) t
        (give (Num (pos (length (numbers shared.now widget.now list.now)))) t)) (Ok result) }
{
    let value = count_value(list);
    give_plain(meter, list.len(), value)
}

// Whether the first node has the attribute `checked`.
fn is_checked(list: &[NodeId], w: u32, page: &Page) -> bool
    requires { AreNodes page.now w list.now }
    ensures { (s : State) → s.own.forest ≡ forest page.now w
        → result ≡ means.is_checked s (map (number page.now w) list.now) }
{
    first_found(list, b"checked", w, page).is_some()
}

/// `getCheck()`.
pub(crate) fn get_check(
    list: &[NodeId],
    shared: &Shared,
    meter: &mut Meter,
    widget: &Widget,
) -> NativeOut
    requires nodes { AreIts shared.now widget.now list.now }
    requires sound { IsSoundIn shared.now widget.now }
    ensures { Reads shared.now shared.now widget.now meter.old meter.new (λ d t. charge
        (length (numbers shared.now widget.now list.now)) t
        (give (Truth (means.is_checked t (numbers shared.now widget.now list.now))) t)) (Ok result) }
{
    give_plain(
        meter,
        list.len(),
        Value::Bool(is_checked(list, widget.id.index, &shared.page)),
    )
}

// The tag of a node, `#text` of a text node.
fn tag_name(alloc: Global, node: NodeId, w: u32, page: &Page) -> Result<Text, Memory>
    requires { owns page.now w node ≡ true }
    ensures { (s : State) → s.own.forest ≡ forest page.now w → IfOk result (λ t. t ≡
        (if forms.is_text_node s (number page.now w node) then codes "#text" else forms.tag_of s
        (number page.now w node))) }
{
    match tag(page, w, node) {
        Some(t) => t.share(),
        None => word(alloc, b"#text"),
    }
}

// The tag of the first node, `#text` of a text node.
pub(crate) fn first_tag(
    alloc: Global,
    list: &[NodeId],
    w: u32,
    page: &Page,
) -> Result<Option<Text>, Memory>
    requires { AreNodes page.now w list.now }
    ensures { (s : State) → s.own.forest ≡ forest page.now w
        → IfOk result (λ t. t ≡ means.first_tag s (map (number page.now w) list.now)) }
{
    match list.first() {
        Some(node) => Ok(Some(tag_name(alloc, *node, w, page)?)),
        None => Ok(None),
    }
}

// The mark of the first node, or the empty text.
pub(crate) fn first_mark(
    alloc: Global,
    list: &[NodeId],
    w: u32,
    page: &Page,
    around: &Loop,
) -> Result<Text, Memory>
    requires { AreNodes page.now w list.now }
    ensures { (g : ℕ → ℕ) (s : State) → Shows page.now w g around.now s.own
        → IfOk result (λ t. t ≡ means.first_mark s (map (number page.now w) list.now)) }
{
    match list.first() {
        Some(node) => text_or_empty(alloc, mark(around, page, w, *node)),
        None => word(alloc, b""),
    }
}
