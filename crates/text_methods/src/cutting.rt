//! Parts of a text (ECMA-262 3rd edition, 15.5.4.4, 15.5.4.5, 15.5.4.13, 15.5.4.15).
ghost use Rattle.std.specs.Prelude.{◌≡◌, ◌≤◌, ℕ, List, IfOk, OnErr, length, pos, slice_range};
ghost use Rattle.js_tree.specs.Forest.{Forest};
ghost use Rattle.store_cells.specs.Cells.{Cells};
ghost use Rattle.widget_meaning.specs.TextNatives as means;
ghost use Rattle.js_image.specs.Image.{seen};
ghost use Rattle.js_image.specs.Held.{Kept};
ghost use Rattle.js_values.specs.Operands.{plain};
ghost use Rattle.native_common.specs.Refines.{Refines};
ghost use Rattle.native_common.specs.Numbers.{IsSmall};
ghost use Rattle.text_methods.specs.Choices.{cut, part};

use code_units::{Memory, Text};
use js_values::{Fault, Meter, NativeOut, StopCause};
use native_common::{
    WidgetId, charged, clamped, either_object, from_end, give_units, is_object, number_or,
    optional_number, text_len,
};
use object_store::{Number, Store, Value};
use std::alloc::Global;

/// `charAt(i)`: the unit at a position as a text, and nothing outside.
pub(crate) fn char_at(
    alloc: Global,
    t: &Text,
    i: &Value,
    store: &mut Store,
    meter: &mut Meter,
    w: WidgetId,
) -> Result<NativeOut, Memory>
    ensures native { IfOk result (λ o. Refines w.index store.old store.new meter.old meter.new
        (λ d s. means.char_at t.now (seen w.index store.old.cells i.now) s) o) }
    ensures memory { OnErr result ((fs : List Forest) → Kept fs w.index store.old store.new) }
{
    if is_object(i) {
        return Ok(NativeOut::Throw(Fault::E4));
    }
    let len = text_len(t);
    match number_or(i, 0) {
        Some(z) => give_units(alloc, store, meter, w, len, unit_at(t.units(), z)),
        None => Ok(charged(meter, len, NativeOut::Stop(StopCause::Number))),
    }
}

// The unit at a position, and nothing outside.
fn unit_at(units: &[u16], z: i64) -> &[u16]
    ensures { result.now ≡ means.unit_at units.now z }
{
    if z < 0 || z as usize >= units.len() {
        return &[];
    }
    let at = z as usize;
    &units[at..at + 1]
}

/// `charCodeAt(i)`: the unit at a position as a number, NaN outside.
pub(crate) fn char_code_at(t: &Text, i: &Value, meter: &mut Meter) -> NativeOut
    ensures { (w : ℕ) (s : Cells) → Refines w s s meter.old meter.new
        (λ d x. means.char_code_at t.now (seen w s.cells i.now) x) result }
{
    if is_object(i) {
        return NativeOut::Throw(Fault::E4);
    }
    let len = text_len(t);
    match number_or(i, 0) {
        Some(z) => charged(
            meter,
            len,
            NativeOut::Value(first_code(unit_at(t.units(), z))),
        ),
        None => charged(meter, len, NativeOut::Stop(StopCause::Number)),
    }
}

// The first unit as a number, NaN where there is none.
fn first_code(units: &[u16]) -> Value
    ensures value { plain result ≡ means.first_code units.now }
    ensures small { IsSmall result }
{
    match units.first() {
        Some(unit) => Value::Num(Number::Whole(i64::from(*unit))),
        None => Value::Num(Number::NaN),
    }
}

/// `slice(a, b)`, or `substring(a, b)`.
pub(crate) fn cut(
    alloc: Global,
    t: &Text,
    slice: bool,
    a: &Value,
    b: &Value,
    store: &mut Store,
    meter: &mut Meter,
    w: WidgetId,
) -> Result<NativeOut, Memory>
    ensures native { IfOk result (λ o. Refines w.index store.old store.new meter.old meter.new
        (λ d s. cut slice t.now (seen w.index store.old.cells a.now) (seen w.index store.old.cells b.now) s) o) }
    ensures memory { OnErr result ((fs : List Forest) → Kept fs w.index store.old store.new) }
{
    if either_object(a, b) {
        return Ok(NativeOut::Throw(Fault::E4));
    }
    let len = text_len(t);
    let Some(x) = number_or(a, 0) else {
        return Ok(charged(meter, len, NativeOut::Stop(StopCause::Number)));
    };
    match optional_number(b, end_of(t)) {
        Some(y) => give_units(alloc, store, meter, w, len, part(t.units(), slice, x, y)),
        None => Ok(charged(meter, len, NativeOut::Stop(StopCause::Number))),
    }
}

/// The position of the end of a text.
pub(crate) fn end_of(t: &Text) -> i64
    ensures { result ≡ pos (length t.now) }
{
    t.units().len() as i64
}

// What `slice`, or `substring`, gives of some units.
fn part(units: &[u16], slice: bool, x: i64, y: i64) -> &[u16]
    ensures { result.now ≡ part slice units.now x y }
{
    let len = units.len();
    if slice {
        return between(units, from_end(len, x), from_end(len, y));
    }
    let i = clamped(len, x);
    let j = clamped(len, y);
    between(units, i.min(j), i.max(j))
}

// The units from one position to another, nothing where that is not past it.
fn between(units: &[u16], from: usize, to: usize) -> &[u16]
    requires { to ≤ length units.now }
    ensures { result.now ≡ slice_range units.now from to }
{
    if from >= to {
        return &[];
    }
    &units[from..to]
}
