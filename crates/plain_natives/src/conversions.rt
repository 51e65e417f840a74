//! The natives among the listed globals (ECMA-262 3rd edition, 15.1.2, 15.5.1 to 15.5.3, 15.6.1 and
//! 15.7.1).
ghost use Rattle.std.specs.Prelude.{◌≡◌, ℕ, List, IfOk, OnErr, None};
ghost use Rattle.js_tree.specs.Forest.{Forest};
ghost use Rattle.store_cells.specs.Cells.{Cells};
ghost use Rattle.widget_meaning.specs.GlobalNatives as means;
ghost use Rattle.widget_meaning.specs.Operators as operators;
ghost use Rattle.js_image.specs.Image.{all_seen, seen};
ghost use Rattle.js_image.specs.Held.{AreFine, IsFine, Kept};
ghost use Rattle.js_values.specs.Operands.{meant_out};
ghost use Rattle.native_common.specs.Refines.{Refines};
ghost use Rattle.native_common.specs.Numbers.{IsSmallOut};

use crate::codes::from_char_code;
use crate::numerals::parsed;
use code_units::{Memory, Text, WholeRead};
use js_values::{Fault, Meter, NativeOut, OpOut, Plan, StopCause, is_true};
use native_common::{
    WidgetId, charged, either_object, give_text, given, is_object, nth, number_or, read_number,
    read_text, text_len, units_read,
};
use object_store::{GlobalNative, Number, Store, Value};
use std::alloc::Global;

/// A native among the globals; it ignores its receiver.
pub fn global_native(
    alloc: Global,
    which: GlobalNative,
    args: &[Value],
    store: &mut Store,
    meter: &mut Meter,
    w: WidgetId,
) -> Result<NativeOut, Memory>
    requires { AreFine w.index store.old.cells args.now }
    ensures native { IfOk result (λ o. Refines w.index store.old store.new meter.old meter.new
        (means.global_native which None (all_seen w.index store.old.cells args.now)) o) }
    ensures memory { OnErr result ((fs : List Forest) → Kept fs w.index store.old store.new) }
{
    let absent = Value::Undefined;
    let first = nth(args, 0, &absent);
    let second = nth(args, 1, &absent);
    match which {
        GlobalNative::BooleanOf => Ok(boolean(first, meter)),
        GlobalNative::NumberOf => Ok(number_native(args, meter)),
        GlobalNative::StringOf => string_native(alloc, args, store, meter, w),
        GlobalNative::IsNaN => Ok(nan_or_not(first, true, meter)),
        GlobalNative::IsFinite => Ok(nan_or_not(first, false, meter)),
        GlobalNative::ParseInt => parse_int(alloc, first, second, meter),
        GlobalNative::FromCharCode => from_char_code(alloc, args, store, meter, w),
    }
}

// `Boolean(v)`
fn boolean(v: &Value, meter: &mut Meter) -> NativeOut
    ensures { (w : ℕ) (s : Cells)
        → Refines w s s meter.old meter.new (λ d t. means.boolean_of (seen w s.cells v.now) t) result }
{
    charged(
        meter,
        units_read(v),
        NativeOut::Value(Value::Bool(is_true(v))),
    )
}

// `Number(v)`; absent gives 0.
fn number_native(args: &[Value], meter: &mut Meter) -> NativeOut
    ensures { (w : ℕ) (s : Cells)
        → Refines w s s meter.old meter.new (λ d t. means.number_of (all_seen w s.cells args.now) t) result }
{
    match args.first() {
        Some(v) => number(v, meter),
        None => NativeOut::Value(Value::Num(Number::Whole(0))),
    }
}

// The number of a value.
fn number(v: &Value, meter: &mut Meter) -> NativeOut
    ensures { (w : ℕ) (s : Cells) → Refines w s s meter.old meter.new
        (λ d t. means.of_number (seen w s.cells v.now) (λ r. operators.as_number r (λ z. z)) t) result }
{
    if is_object(v) {
        return NativeOut::Throw(Fault::E4);
    }
    charged(meter, units_read(v), given(as_number(read_number(v))))
}

/// A number that is given.
pub fn as_number(r: WholeRead) -> OpOut
    ensures value { meant_out result ≡ operators.as_number r (λ z. z) }
    ensures small { IsSmallOut result }
{
    match r {
        WholeRead::Whole(z) => OpOut::Is(Value::Num(Number::Whole(z))),
        WholeRead::NotNumber => OpOut::Is(Value::Num(Number::NaN)),
        WholeRead::Left => OpOut::Left,
    }
}

// `isNaN(v)`, or `isFinite(v)`.
fn nan_or_not(v: &Value, nan: bool, meter: &mut Meter) -> NativeOut
    ensures { (w : ℕ) (s : Cells) → Refines w s s meter.old meter.new
        (λ d t. means.of_number (seen w s.cells v.now) (means.nan_or_not nan) t) result }
{
    if is_object(v) {
        return NativeOut::Throw(Fault::E4);
    }
    charged(meter, units_read(v), given(truth_of(read_number(v), nan)))
}

// Whether it is NaN, or is not.
fn truth_of(r: WholeRead, nan: bool) -> OpOut
    ensures value { meant_out result ≡ means.nan_or_not nan r }
    ensures small { IsSmallOut result }
{
    match r {
        WholeRead::Whole(_) => OpOut::Is(Value::Bool(!nan)),
        WholeRead::NotNumber => OpOut::Is(Value::Bool(nan)),
        WholeRead::Left => OpOut::Left,
    }
}

// `String(v)`; absent gives the empty text.
fn string_native(
    alloc: Global,
    args: &[Value],
    store: &mut Store,
    meter: &mut Meter,
    w: WidgetId,
) -> Result<NativeOut, Memory>
    requires { AreFine w.index store.old.cells args.now }
    ensures native { IfOk result (λ o. Refines w.index store.old store.new meter.old meter.new
        (λ d s. means.string_native (all_seen w.index store.old.cells args.now) d s) o) }
    ensures memory { OnErr result ((fs : List Forest) → Kept fs w.index store.old store.new) }
{
    match args.first() {
        Some(v) => string(alloc, v, store, meter, w),
        None => {
            let text = Text::from_units(alloc, Vec::new(alloc))?;
            Ok(give_text(store, meter, w, 0, text))
        }
    }
}

// The text of a value: of an object by its `toString`; a text is handed on.
fn string(
    alloc: Global,
    v: &Value,
    store: &mut Store,
    meter: &mut Meter,
    w: WidgetId,
) -> Result<NativeOut, Memory>
    requires { IsFine w.index store.old.cells v.now }
    ensures native { IfOk result (λ o. Refines w.index store.old store.new meter.old meter.new
        (λ d s. means.string_of (seen w.index store.old.cells v.now) d s) o) }
    ensures memory { OnErr result ((fs : List Forest) → Kept fs w.index store.old store.new) }
{
    match v {
        Value::Ref(i) => Ok(NativeOut::Call(Plan::ToText(*i))),
        Value::Text(t) => {
            let text = t.share()?;
            Ok(charged(meter, text_len(t), NativeOut::Value(Value::Text(text))))
        }
        _ => {
            let text = read_text(alloc, v)?;
            Ok(give_text(store, meter, w, 0, text))
        }
    }
}

// `parseInt(s, radix)`
fn parse_int(
    alloc: Global,
    v: &Value,
    radix: &Value,
    meter: &mut Meter,
) -> Result<NativeOut, Memory>
    ensures { IfOk result (λ o. (w : ℕ) (s : Cells) → Refines w s s meter.old meter.new
        (λ d t. means.parse_int (seen w s.cells v.now) (seen w s.cells radix.now) t) o) }
{
    if either_object(v, radix) {
        return Ok(NativeOut::Throw(Fault::E4));
    }
    let text = read_text(alloc, v)?;
    let extra = text_len(&text).saturating_add(units_read(radix));
    match number_or(radix, 0) {
        Some(z) => Ok(charged(meter, extra, given(parsed(text.units(), z)))),
        None => Ok(charged(meter, extra, NativeOut::Stop(StopCause::Number))),
    }
}
