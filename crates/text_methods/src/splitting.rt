//! `split` (ECMA-262 3rd edition, 15.5.4.14, without expressions and limit).
ghost use Rattle.std.specs.Prelude.{◌≡◌, ◌<◌, ◌++◌, ◌∷◌, [], List, IfOk, OnErr, OnOk, length, map, sum_by};
ghost use Rattle.js_tree.specs.Forest.{Forest};
ghost use Rattle.widget_meaning.specs.TextNatives as means;
ghost use Rattle.widget_meaning.specs.Values.{Undefined};
ghost use Rattle.js_image.specs.Image.{seen};
ghost use Rattle.js_image.specs.Held.{Kept};
ghost use Rattle.native_common.specs.Refines.{Refines};
ghost use Rattle.native_common.specs.Numbers.{counted};

use code_units::{Memory, Text};
use js_values::{Fault, Meter, NativeOut};
use native_common::{WidgetId, give_array, give_texts, is_object, read_text, take, text_len};
use object_store::{Store, Value};
use std::alloc::Global;
use text_search::Needle;

/// `split(s)`: the pieces of a text between those that are `s`, from the left; an absent `s` gives the
/// text itself, the empty one the units one by one.
pub(crate) fn split(
    alloc: Global,
    t: &Text,
    x: &Value,
    store: &mut Store,
    meter: &mut Meter,
    w: WidgetId,
) -> Result<NativeOut, Memory>
    ensures native { IfOk result (λ o. Refines w.index store.old store.new meter.old meter.new
        (λ d s. means.split t.now (seen w.index store.old.cells x.now) s) o) }
    ensures memory { OnErr result ((fs : List Forest) → Kept fs w.index store.old store.new) }
{
    match x {
        Value::Undefined => whole(alloc, t, store, meter, w),
        _ => split_by(alloc, t, x, store, meter, w),
    }
}

// The text alone, which is handed on.
fn whole(
    alloc: Global,
    t: &Text,
    store: &mut Store,
    meter: &mut Meter,
    w: WidgetId,
) -> Result<NativeOut, Memory>
    ensures native { IfOk result (λ o. Refines w.index store.old store.new meter.old meter.new
        (λ d s. means.split t.now Undefined s) o) }
    ensures memory { OnErr result ((fs : List Forest) → Kept fs w.index store.old store.new) }
{
    let mut values = Vec::new(alloc);
    values.push(Value::Text(t.share()?))?;
    match take(meter, text_len(t)) {
        Ok(()) => give_array(alloc, store, w, values, 0),
        Err(_) => Ok(NativeOut::OutOfFuel),
    }
}

// The pieces.
fn split_by(
    alloc: Global,
    t: &Text,
    x: &Value,
    store: &mut Store,
    meter: &mut Meter,
    w: WidgetId,
) -> Result<NativeOut, Memory>
    requires { x.now ≡ Value.Undefined → ⊥ }
    ensures native { IfOk result (λ o. Refines w.index store.old store.new meter.old meter.new
        (λ d s. means.split t.now (seen w.index store.old.cells x.now) s) o) }
    ensures memory { OnErr result ((fs : List Forest) → Kept fs w.index store.old store.new) }
{
    if is_object(x) {
        return Ok(NativeOut::Throw(Fault::E4));
    }
    let separator = read_text(alloc, x)?;
    let read = text_len(t).saturating_add(text_len(&separator));
    let parts = pieces(alloc, t.units(), separator)?;
    let made = units_in(&parts);
    let extra = read.saturating_add(made);
    // Fuel that is left fits 32 bits, and so do the units that are paid by it.
    let _left = meter.left();
    match take(meter, extra) {
        Ok(()) => give_texts(alloc, store, w, parts, made as u32),
        Err(_) => Ok(NativeOut::OutOfFuel),
    }
}

// How many units these texts have.
fn units_in(parts: &[Text]) -> usize
    ensures { result ≡ counted (sum_by length parts.now) }
{
    let mut n: usize = 0;
    for part in parts {
        n = n.saturating_add(text_len(part));
    }
    n
}

// The pieces of a text between those that are another.
fn pieces(alloc: Global, t: &[u16], x: Text) -> Result<Vec<Text>, Memory>
    ensures { IfOk result (λ parts. parts.items ≡ means.pieces x t.now) }
{
    if text_len(&x) == 0 {
        return one_by_one(alloc, t);
    }
    pieces_between(alloc, t, x)
}

// The units one by one.
fn one_by_one(alloc: Global, t: &[u16]) -> Result<Vec<Text>, Memory>
    ensures { IfOk result (λ parts. parts.items ≡ map (λ u. u ∷ []) t.now) }
{
    let mut parts = Vec::with_capacity(alloc, t.len())?;
    for i in 0..t.len() {
        push_piece(alloc, &mut parts, &t[i..i + 1])?;
    }
    Ok(parts)
}

// The pieces between the occurrences of a text that is not empty.
fn pieces_between(alloc: Global, t: &[u16], x: Text) -> Result<Vec<Text>, Memory>
    requires { 0 < length x }
    ensures { IfOk result (λ parts. parts.items ≡ means.pieces_from x 0 t.now) }
{
    let len = text_len(&x);
    let needle = Needle::new(alloc, x)?;
    let mut parts = Vec::new(alloc);
    let mut start = 0;
    while let Some(at) = needle.first_from(t, start) {
        push_piece(alloc, &mut parts, &t[start..at])?;
        start = at + len;
    }
    push_piece(alloc, &mut parts, &t[start..])?;
    Ok(parts)
}

fn push_piece(alloc: Global, parts: &mut Vec<Text>, units: &[u16]) -> Result<(), Memory>
    ensures { OnOk result (parts.new.items ≡ parts.old.items ++ units.now ∷ []) }
{
    let text = Text::from_units(alloc, Vec::from_slice(alloc, units)?)?;
    Ok(parts.push(text)?)
}
