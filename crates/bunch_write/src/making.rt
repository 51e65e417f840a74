//! `dom.tag` and `dom.text`: new nodes, each given in a Bunch.
ghost use Rattle.std.specs.Prelude.{◌≡◌, ℕ, List, [], ◌∷◌, Bool, Option, codes, IfOk, length, map, option_copied, option_to_list, sum_by};
ghost use Rattle.plain_tree.specs.Plains.{unplaced};
ghost use Rattle.plain_tree.specs.Trees.{ElementOf, End, Node};
ghost use Rattle.bunch_write.specs.Tags.{may_make};
ghost use Rattle.widget_meaning.specs.DomNatives as means;
ghost use Rattle.permitted_table.specs.declared.native.DomNative.TheVariants as names;
ghost use Rattle.widget_meaning.specs.Values.{Value as Meant};
ghost use Rattle.event_loop.specs.declared.around.Loop.{Loop};
ghost use Rattle.js_image.specs.Image.{seen};
ghost use Rattle.js_values.specs.Fuel.{Fuel};
ghost use Rattle.native_common.specs.Numbers.{counted};
ghost use Rattle.native_image.specs.Image.{beside};
ghost use Rattle.native_image.specs.Refines.{RefinesAt};
ghost use Rattle.native_image.specs.Sound.{IsSound, KeepsAll};
ghost use Rattle.store_cells.specs.Cells.{PlainCell};

use bunch_attributes::is_undefined;
use bunch_trees::text_tree;
use code_units::{Memory, Text};
use js_image::{Fault, word};
use js_values::NativeOut;
use native_common::{WidgetId, either_object, is_object, read_text};
use native_image::give_node;
use object_store::{Store, Value};
use page_tree::Page;
use plain_tree::{Attr, Plain, plain_words, tag_listed};
use std::alloc::Global;

/// `dom.text(v)`.
pub(crate) fn dom_text(
    alloc: Global,
    value: &Value,
    store: &mut Store,
    w: WidgetId,
    page: &mut Page,
) -> Result<NativeOut, Memory>
    requires { (l : Loop) × IsSound w.index store.old page.old l }
    ensures native { (l : Loop) (b : Option Bool) (f : Fuel) (this : Option Meant) → IsSound w.index store.old page.old l
        → IfOk result (λ o. RefinesAt w.index (beside store.old page.old l b) (beside store.new page.new l b) f f
        (λ d s. means.dom_native names.DomText this (seen w.index store.old.cells value.now ∷ []) d s) o) }
    ensures kept { (l : Loop) → IsSound w.index store.old page.old l → KeepsAll w.index store.old store.new page.old page.new l }
{
    if is_object(value) {
        return Ok(NativeOut::Throw(Fault::E4));
    }
    let text = read_text(alloc, value)?;
    let units = text_units(&text);
    let plain = text_tree(text);
    give_node(alloc, store, page, w, &plain, units)
}

// The text of an argument that may be absent.
fn given_text(alloc: Global, value: &Value) -> Result<Option<Text>, Memory>
    ensures { IfOk result (λ o. (w : ℕ) (cells : List PlainCell)
        → option_to_list o ≡ means.given_text (seen w cells value.now)) }
{
    if is_undefined(value) {
        return Ok(None);
    }
    Ok(Some(read_text(alloc, value)?))
}

// Whether a tag is listed, and the `type` that is given has plain words.
fn may_make(tag: &Text, given: Option<&Text>) -> bool
    ensures { result ≡ may_make tag.now (option_copied given.entry) }
{
    match given {
        Some(kind) => tag_listed(tag) && plain_words(kind),
        None => tag_listed(tag),
    }
}

// How many units a text has.
fn text_units(text: &Text) -> usize
    ensures { result ≡ counted (length text.now) }
{
    text.units().len()
}

// An element with the `type` that is given.
fn tag_tree(alloc: Global, tag: Text, given: Option<Text>) -> Result<Plain, Memory>
    ensures { IfOk result (λ p. unplaced p
        ≡ Node tt (ElementOf tag (map (λ t. (codes "type", t)) (option_to_list given))) End End) }
{
    let mut attrs = Vec::new(alloc);
    if let Some(value) = given {
        let name = word(alloc, b"type")?;
        attrs.push(Attr {
            name,
            value,
            at: 0,
            value_at: 0,
        })?;
    }
    Ok(Plain::Element {
        tag,
        attrs,
        children: Vec::new(alloc),
        at: 0,
    })
}

// How many units a text has, if it is there.
fn units_of(given: Option<&Text>) -> usize
    ensures { result ≡ counted (sum_by length (option_to_list (option_copied given.entry))) }
{
    match given {
        Some(text) => text.units().len(),
        None => 0,
    }
}

/// `dom.tag(name, type)`.
pub(crate) fn dom_tag(
    alloc: Global,
    name: &Value,
    kind: &Value,
    store: &mut Store,
    w: WidgetId,
    page: &mut Page,
) -> Result<NativeOut, Memory>
    requires { (l : Loop) × IsSound w.index store.old page.old l }
    ensures native { (l : Loop) (b : Option Bool) (f : Fuel) (this : Option Meant) → IsSound w.index store.old page.old l
        → IfOk result (λ o. RefinesAt w.index (beside store.old page.old l b) (beside store.new page.new l b) f f
        (λ d s. means.dom_native names.DomTag this
        (seen w.index store.old.cells name.now ∷ seen w.index store.old.cells kind.now ∷ []) d s) o) }
    ensures kept { (l : Loop) → IsSound w.index store.old page.old l → KeepsAll w.index store.old store.new page.old page.new l }
{
    if either_object(name, kind) {
        return Ok(NativeOut::Throw(Fault::E4));
    }
    let tag = read_text(alloc, name)?;
    let given = given_text(alloc, kind)?;
    if !may_make(&tag, given.as_ref()) {
        return Ok(NativeOut::Throw(Fault::E4));
    }
    let units = units_of(given.as_ref());
    let plain = tag_tree(alloc, tag, given)?;
    give_node(alloc, store, page, w, &plain, units)
}
