//! Texts that are made and given.
ghost use Rattle.std.specs.Prelude.{◌≡◌, ℕ, List, IfOk, OnErr, length, map, sum_by};
ghost use Rattle.std.specs.List.{list_any};
ghost use Rattle.js_tree.specs.Forest.{Forest};
ghost use Rattle.widget_meaning.specs.Values.{Text as Meant};
ghost use Rattle.widget_meaning.specs.Costs as costs;
ghost use Rattle.widget_meaning.specs.NativeForms as forms;
ghost use Rattle.js_image.specs.Held.{AreFine, Kept};
ghost use Rattle.js_image.specs.Image.{all_seen};
ghost use Rattle.native_common.specs.Refines.{Ends, Refines};
ghost use Rattle.native_common.specs.Numbers.{counted};

use crate::arguments::text_len;
use crate::charging::take;
use crate::widget_id::WidgetId;
use code_units::{Memory, Text};
use js_image::{Made, Paid, make_array, pay_text};
use js_values::{Meter, NativeOut, StopCause};
use object_store::{Store, Value};
use std::alloc::Global;

/// A text that is made costs its units, and is given.
pub fn make_text(store: &mut Store, w: WidgetId, text: Text) -> NativeOut
    ensures { Ends w.index store.old store.new (λ d s. costs.make_text text s (costs.give (Meant text))) result }
{
    match pay_text(store, w.index, &text) {
        Paid::Done => NativeOut::Value(Value::Text(text)),
        Paid::Stop(cause) => NativeOut::Stop(cause),
    }
}

/// The extra, which counts the units made too, and then the text that is made and given.
pub fn give_text(
    store: &mut Store,
    meter: &mut Meter,
    w: WidgetId,
    extra: usize,
    text: Text,
) -> NativeOut
    ensures { (n : ℕ) → extra ≡ counted n
        → Refines w.index store.old store.new meter.old meter.new (λ d s. forms.give_text n text s) result }
{
    match take(meter, extra.saturating_add(text.units().len())) {
        Ok(()) => make_text(store, w, text),
        Err(_) => NativeOut::OutOfFuel,
    }
}

/// The same for these units.
pub fn give_units(
    alloc: Global,
    store: &mut Store,
    meter: &mut Meter,
    w: WidgetId,
    extra: usize,
    units: &[u16],
) -> Result<NativeOut, Memory>
    ensures native { IfOk result (λ o. (n : ℕ) → extra ≡ counted n
        → Refines w.index store.old store.new meter.old meter.new (λ d s. forms.give_text n units.now s) o) }
    ensures memory { OnErr result ((fs : List Forest) → Kept fs w.index store.old store.new) }
{
    let text = Text::from_units(alloc, Vec::from_slice(alloc, units)?)?;
    Ok(give_text(store, meter, w, extra, text))
}

/// A new array of these elements, and of so many units of texts that are made for it, is given.
pub fn give_array(
    alloc: Global,
    store: &mut Store,
    w: WidgetId,
    values: Vec<Value>,
    units: u32,
) -> Result<NativeOut, Memory>
    requires { AreFine w.index store.old.cells values.items }
    ensures native { IfOk result
        (λ o. Ends w.index store.old store.new
        (λ d s. forms.make_array (all_seen w.index store.old.cells values.items) units s costs.give) o) }
    ensures memory { OnErr result ((fs : List Forest) → Kept fs w.index store.old store.new) }
{
    match make_array(alloc, store, w.index, values, units)? {
        Made::Cell(id) => Ok(NativeOut::Value(Value::Ref(id))),
        Made::Stop(cause) => Ok(NativeOut::Stop(cause)),
    }
}

/// A new array of texts that are all made for it, and have so many units together, is given: it stops
/// where one of them is too long.
pub fn give_texts(
    alloc: Global,
    store: &mut Store,
    w: WidgetId,
    parts: Vec<Text>,
    units: u32,
) -> Result<NativeOut, Memory>
    requires { units ≡ sum_by length parts.items }
    ensures native { IfOk result (λ o. Ends w.index store.old store.new (λ d s. forms.give_texts parts.items s) o) }
    ensures memory { OnErr result ((fs : List Forest) → Kept fs w.index store.old store.new) }
{
    if any_long(&parts) {
        return Ok(NativeOut::Stop(StopCause::LongText));
    }
    let values = text_values(alloc, parts)?;
    give_array(alloc, store, w, values, units)
}

// Whether one of them is longer than a text can be.
fn any_long(parts: &[Text]) -> bool
    ensures { result ≡ list_any forms.is_too_long parts.now }
{
    for part in parts {
        if text_len(part) > LONGEST {
            return true;
        }
    }
    false
}

const LONGEST: usize = 65536;

// The texts as values.
fn text_values(alloc: Global, parts: Vec<Text>) -> Result<Vec<Value>, Memory>
    ensures { IfOk result (λ vs. vs.items ≡ map Value.Text parts.items) }
{
    Ok(parts.into_iter().map(Value::Text).collect(alloc)?)
}
