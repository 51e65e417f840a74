//! Texts in texts (ECMA-262 3rd edition, 15.5.4.7 and 15.5.4.8).
ghost use Rattle.std.specs.Prelude.{◌≡◌, ◌<◌, ◌^◌, ℕ, IfOk, IfSome};
ghost use Rattle.store_cells.specs.Cells.{Cells};
ghost use Rattle.widget_meaning.specs.TextNatives as means;
ghost use Rattle.js_image.specs.Image.{seen};
ghost use Rattle.js_values.specs.Operands.{plain};
ghost use Rattle.native_common.specs.Refines.{Refines};
ghost use Rattle.native_common.specs.Numbers.{IsSmall};

use crate::cutting::end_of;
use code_units::{Memory, Text};
use js_values::{Fault, Meter, NativeOut, StopCause};
use native_common::{charged, clamped, either_object, number_or, read_text, text_len};
use object_store::{Number, Value};
use std::alloc::Global;
use text_search::Needle;

/// `indexOf(s, from)`: the least position at or after `from`, or -1.
pub(crate) fn index_of(
    alloc: Global,
    t: &Text,
    x: &Value,
    from: &Value,
    meter: &mut Meter,
) -> Result<NativeOut, Memory>
    ensures { IfOk result (λ o. (w : ℕ) (s : Cells) → Refines w s s meter.old meter.new
        (λ d r. means.index_of t.now (seen w s.cells x.now) (seen w s.cells from.now) r) o) }
{
    if either_object(x, from) {
        return Ok(NativeOut::Throw(Fault::E4));
    }
    let text = read_text(alloc, x)?;
    let extra = text_len(t).saturating_add(text_len(&text));
    let Some(z) = number_or(from, 0) else {
        return Ok(charged(meter, extra, NativeOut::Stop(StopCause::Number)));
    };
    let start = clamped(text_len(t), z);
    let needle = Needle::new(alloc, text)?;
    let first = needle.first_from(t.units(), start);
    Ok(charged(meter, extra, NativeOut::Value(found(first))))
}

/// `lastIndexOf(s, from)`: the greatest position at or before `from`, which for NaN is the end, or -1.
pub(crate) fn last_index_of(
    alloc: Global,
    t: &Text,
    x: &Value,
    from: &Value,
    meter: &mut Meter,
) -> Result<NativeOut, Memory>
    ensures { IfOk result (λ o. (w : ℕ) (s : Cells) → Refines w s s meter.old meter.new
        (λ d r. means.last_index_of t.now (seen w s.cells x.now) (seen w s.cells from.now) r) o) }
{
    if either_object(x, from) {
        return Ok(NativeOut::Throw(Fault::E4));
    }
    let text = read_text(alloc, x)?;
    let len = text_len(t);
    let extra = len.saturating_add(text_len(&text));
    let Some(z) = number_or(from, end_of(t)) else {
        return Ok(charged(meter, extra, NativeOut::Stop(StopCause::Number)));
    };
    let end = clamped(len, z);
    let needle = Needle::new(alloc, text)?;
    let last = needle.last_to(t.units(), end);
    Ok(charged(meter, extra, NativeOut::Value(found(last))))
}

// A position as a number, and -1 for none.
fn found(at: Option<usize>) -> Value
    requires { IfSome at (λ i. i < 2 ^ 63) }
    ensures value { plain result ≡ means.found at }
    ensures small { IsSmall result }
{
    match at {
        Some(i) => Value::Num(Number::Whole(i as i64)),
        None => Value::Num(Number::Whole(-1)),
    }
}
