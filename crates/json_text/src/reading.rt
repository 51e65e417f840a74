//! The value that is read in a text.
ghost use Rattle.std.specs.Prelude.{◌≡◌, ℕ, List, IfErr, IfOk, IsUtf8, OnErr, OnOk};
ghost use Rattle.js_tree.specs.Forest.{Forest};
ghost use Rattle.serde_json.specs.View.{view};
ghost use Rattle.widget_meaning.specs.Costs as costs;
ghost use Rattle.widget_meaning.specs.Costs.{units_cost, with_counts};
ghost use Rattle.widget_meaning.specs.JsonValues as means;
ghost use Rattle.widget_meaning.specs.OwnState.{State};
ghost use Rattle.widget_meaning.specs.Plan.{Halt, Plan};
ghost use Rattle.js_image.specs.Held.{Kept};
ghost use Rattle.js_image.specs.Image.{Rest, image, seen};
ghost use Rattle.js_image.specs.Plans.{meant_cause};
ghost use Rattle.native_common.specs.Refines.{Ends, Refines};
ghost use Rattle.native_common.specs.Numbers.{counted};
ghost use Rattle.json_text.specs.Reading.{IsMade, Parses, born_plan, read_plan, weight_cost};
ghost use Rattle.json_text.specs.Weights.{weight};

use crate::building::build;
use crate::weighing::{NO_WEIGHT, Weight, weigh};
use code_units::{Memory, Owner, Text, push_utf8};
use js_image::{Fault, Paid, StopCause, pay_units};
use js_values::{Meter, NativeOut};
use json_judge::Verdict;
use json_shapes::{ShapeFault, read_json};
use native_common::{WidgetId, take, text_len};
use object_store::{CELL_LIMIT, SLOT_LIMIT, Store, UNIT_LIMIT, Value};
use serde_json::Value as Json;
use std::alloc::Global;

/// `fromJson(t)`: the value that a text spells.
pub fn from_json(
    alloc: Global,
    store: &mut Store,
    meter: &mut Meter,
    w: WidgetId,
    v: &Value,
) -> Result<NativeOut, Memory>
    ensures native { IfOk result (λ o. Refines w.index store.old store.new meter.old meter.new
        (λ d s. means.from_json (seen w.index store.old.cells v.now) s) o) }
    ensures memory { OnErr result ((fs : List Forest) → Kept fs w.index store.old store.new) }
{
    let Value::Text(text) = v else {
        return Ok(NativeOut::Throw(Fault::E4));
    };
    match parsed(alloc, store, text)? {
        Found::NotJson => Ok(NativeOut::Throw(Fault::E4)),
        Found::Refused => Ok(NativeOut::Throw(Fault::E8)),
        Found::Value(json) => read_value(alloc, store, meter, w, text_len(text), &json),
    }
}

/// What a text is found to be: no JSON, a value with a name that is not permitted, or a value.
#[derive(Drop)]
pub enum Found {
    NotJson,
    Refused,
    Value(Json),
}

// A text is judged first, so that what throws is not made.
fn parsed(alloc: Global, store: &mut Store, text: &Text) -> Result<Found, Memory>
    ensures found { IfOk result (Parses text.now) }
    ensures same { store.new ≡ store.old }
{
    match store.json_verdict(alloc, text)? {
        Verdict::NotJson => Ok(Found::NotJson),
        Verdict::Refused => Ok(Found::Refused),
        Verdict::Passed => read_text(alloc, text),
    }
}

// The value of a text.
fn read_text(alloc: Global, text: &Text) -> Result<Found, Memory>
    ensures { IfOk result (Parses text.now) }
{
    let mut bytes = Vec::new(alloc);
    push_utf8(text, &mut bytes)?;
    made(alloc, &bytes)
}

// The value of UTF-8.
fn made(alloc: Global, bytes: &[u8]) -> Result<Found, Memory>
    requires { IsUtf8 bytes.now }
    ensures { IfOk result (IsMade bytes.now) }
{
    match read_json(alloc, bytes) {
        Ok(json) => Ok(Found::Value(json)),
        Err(ShapeFault::NotJson) => Ok(Found::NotJson),
        Err(_) => Err(Memory),
    }
}

// What was read is made: its names first, then the extra, which is the units of the text.
fn read_value(
    alloc: Global,
    store: &mut Store,
    meter: &mut Meter,
    w: WidgetId,
    extra: usize,
    json: &Json,
) -> Result<NativeOut, Memory>
    ensures native { IfOk result (λ o. (n : ℕ) → extra ≡ counted n
        → Refines w.index store.old store.new meter.old meter.new
        (λ d s. read_plan n (view json.now) s) o) }
    ensures memory { OnErr result ((fs : List Forest) → Kept fs w.index store.old store.new) }
{
    let mut sum = NO_WEIGHT;
    weigh(alloc, json, &mut sum)?;
    if !sum.named {
        return Ok(NativeOut::Throw(Fault::E8));
    }
    match take(meter, extra) {
        Err(_) => Ok(NativeOut::OutOfFuel),
        Ok(()) => bear(alloc, store, w, &sum, json),
    }
}

// The stops, the cost, and then all is made.
fn bear(
    alloc: Global,
    store: &mut Store,
    w: WidgetId,
    sum: &Weight,
    json: &Json,
) -> Result<NativeOut, Memory>
    requires { sum.now ≡ weight (view json.now) }
    ensures ends { IfOk result (λ o. Ends w.index store.old store.new (λ d s. born_plan (view json.now) s) o) }
    ensures memory { OnErr result ((fs : List Forest) → Kept fs w.index store.old store.new) }
{
    if !sum.whole {
        return Ok(NativeOut::Stop(StopCause::Number));
    }
    if !sum.short {
        return Ok(NativeOut::Stop(StopCause::LongText));
    }
    match afford(store, w, sum) {
        Err(cause) => Ok(NativeOut::Stop(cause)),
        Ok(units) => {
            pay(store, w, units)?;
            Ok(NativeOut::Value(build(alloc, store, w, json)?))
        }
    }
}

// The units of a cost that a widget can pay, or the stop: units, cells and slots are judged in this
// order.
fn afford(store: &Store, w: WidgetId, sum: &Weight) -> Result<u32, StopCause>
    ensures stop { IfErr result (λ c. (fs : List Forest) (r : Rest) (k : State → Plan)
        → costs.pay (weight_cost sum.now) (image fs r w.index store.now) k
        ≡ Halt (meant_cause c) (image fs r w.index store.now)) }
    ensures units { IfOk result (λ n. (n ≡ sum.now.units) × ((fs : List Forest) (r : Rest) (k : State → Plan)
        → costs.pay (weight_cost sum.now) (image fs r w.index store.now) k
        ≡ k (with_counts (image fs r w.index store.now)
        (costs.sum (image fs r w.index store.now).own.counts (weight_cost sum.now))))) }
{
    let paid = store.counts(Owner::Widget(w.index));
    if sum.units > (UNIT_LIMIT - paid.units) as usize {
        return Err(StopCause::Units);
    }
    if sum.cells > (CELL_LIMIT - paid.cells) as usize {
        return Err(StopCause::Cells);
    }
    if sum.slots > (SLOT_LIMIT - paid.slots) as usize {
        return Err(StopCause::Slots);
    }
    Ok(sum.units as u32)
}

// Units are paid; that they can be is known before.
fn pay(store: &mut Store, w: WidgetId, units: u32) -> Result<(), Memory>
    ensures paid { OnOk result ((fs : List Forest) (r : Rest) (k : State → Plan)
        → costs.pay (units_cost units) (image fs r w.index store.old) k ≡ k (image fs r w.index store.new)) }
    ensures kept { (fs : List Forest) → Kept fs w.index store.old store.new }
{
    match pay_units(store, w.index, units) {
        Paid::Done => Ok(()),
        Paid::Stop(_) => Err(Memory),
    }
}
