//! The `toString` of objects, functions, texts, numbers and truth values (ECMA-262 3rd edition, 15.2.4.2,
//! 15.3.4.2, 15.5.4.2, 15.6.4.2 and 15.7.4.2).
ghost use Rattle.std.specs.Prelude.{◌≡◌, ◌≤◌, ℕ, List, IfOk, OnErr, MatchOption, codes, false, pos, true};
ghost use Rattle.js_tree.specs.Forest.{Forest};
ghost use Rattle.widget_meaning.specs.Costs.{give};
ghost use Rattle.widget_meaning.specs.NativeForms.{on_object, on_text};
ghost use Rattle.widget_meaning.specs.PrototypeNatives as means;
ghost use Rattle.widget_meaning.specs.Values.{Text as Words};
ghost use Rattle.store_cells.specs.Cells.{Cells};
ghost use Rattle.js_image.specs.Image.{all_seen, seen};
ghost use Rattle.js_image.specs.Held.{Kept};
ghost use Rattle.js_values.specs.Operands.{plain};
ghost use Rattle.native_common.specs.Refines.{Ends, Refines};
ghost use Rattle.native_common.specs.Receivers.{IsReceiver, receiver};
ghost use Rattle.text_methods.specs.Part.{is_here};

use crate::radix::radix_text;
use code_units::{Memory, Text};
use js_image::{Callee, callee, word};
use js_values::{Fault, Meter, NativeOut, StopCause};
use native_common::{
    WidgetId, charged, is_object, is_plain_call, make_text, nth, optional_number, read_text,
};
use object_store::{Number, PrototypeNative, Store, Value};
use std::alloc::Global;

/// A `toString`, for any receiver.
pub(crate) fn prototype_native(
    alloc: Global,
    which: PrototypeNative,
    this: &Value,
    args: &[Value],
    store: &mut Store,
    meter: &mut Meter,
    w: WidgetId,
) -> Result<NativeOut, Memory>
    requires receiver { IsReceiver w.index store.old.cells this.now }
    requires here { is_here which ≡ true }
    ensures native { IfOk result (λ o. Refines w.index store.old store.new meter.old meter.new
        (means.prototype_native which (receiver w.index store.old.cells this.now)
        (all_seen w.index store.old.cells args.now)) o) }
    ensures memory { OnErr result ((fs : List Forest) → Kept fs w.index store.old store.new) }
{
    let absent = Value::Undefined;
    match which {
        PrototypeNative::ObjectToString => object_to_string(alloc, this, store, w),
        PrototypeNative::FunctionToString => function_to_string(alloc, this, store, w),
        PrototypeNative::NumberToString => {
            number_to_string(alloc, this, nth(args, 0, &absent), store, meter, w)
        }
        PrototypeNative::BooleanToString => boolean_to_string(alloc, this, store, w),
        PrototypeNative::TextToString => text_to_string(this),
        _ => unreachable!(),
    }
}

// A text as receiver is given.
fn text_to_string(this: &Value) -> Result<NativeOut, Memory>
    ensures { IfOk result (λ o. (w : ℕ) (s : Cells) → Ends w s s
        (λ d u. on_text (receiver w s.cells this.now) u (λ t. give (Words t) u)) o) }
{
    match this {
        Value::Text(t) => {
            let same = t.share()?;
            Ok(NativeOut::Value(Value::Text(same)))
        }
        _ => Ok(NativeOut::Throw(Fault::E3)),
    }
}

// An object as receiver gives one text.
fn object_to_string(
    alloc: Global,
    this: &Value,
    store: &mut Store,
    w: WidgetId,
) -> Result<NativeOut, Memory>
    ensures native { IfOk result (λ o. Ends w.index store.old store.new
        (λ d s. on_object (receiver w.index store.old.cells this.now) s
        (λ v. means.give_made (codes "[object Object]") s)) o) }
    ensures memory { OnErr result ((fs : List Forest) → Kept fs w.index store.old store.new) }
{
    if is_plain_call(this) || !is_object(this) {
        return Ok(NativeOut::Throw(Fault::E3));
    }
    let text = word(alloc, b"[object Object]")?;
    Ok(make_text(store, w, text))
}

// So does what can be called.
fn function_to_string(
    alloc: Global,
    this: &Value,
    store: &mut Store,
    w: WidgetId,
) -> Result<NativeOut, Memory>
    requires { IsReceiver w.index store.old.cells this.now }
    ensures native { IfOk result (λ o. Ends w.index store.old store.new
        (λ d s. means.function_to_string (receiver w.index store.old.cells this.now) s) o) }
    ensures memory { OnErr result ((fs : List Forest) → Kept fs w.index store.old store.new) }
{
    if is_plain_call(this) {
        return Ok(NativeOut::Throw(Fault::E3));
    }
    match callee(store, this) {
        Callee::Nothing => Ok(NativeOut::Throw(Fault::E3)),
        _ => {
            let text = word(alloc, b"[function]")?;
            Ok(make_text(store, w, text))
        }
    }
}

// A number as receiver gives its text in a radix.
fn number_to_string(
    alloc: Global,
    this: &Value,
    radix: &Value,
    store: &mut Store,
    meter: &mut Meter,
    w: WidgetId,
) -> Result<NativeOut, Memory>
    ensures native { IfOk result (λ o. Refines w.index store.old store.new meter.old meter.new
        (λ d s. means.number_to_string (receiver w.index store.old.cells this.now)
        (seen w.index store.old.cells radix.now) s) o) }
    ensures memory { OnErr result ((fs : List Forest) → Kept fs w.index store.old store.new) }
{
    match this {
        Value::Num(n) => in_radix(alloc, *n, radix, store, meter, w),
        _ => Ok(NativeOut::Throw(Fault::E3)),
    }
}

// 10 where the radix is absent; one outside 2 to 36 throws.
fn in_radix(
    alloc: Global,
    n: Number,
    radix: &Value,
    store: &mut Store,
    meter: &mut Meter,
    w: WidgetId,
) -> Result<NativeOut, Memory>
    ensures native { IfOk result (λ o. Refines w.index store.old store.new meter.old meter.new
        (λ d s. means.in_radix (plain (Value.Num n)) (seen w.index store.old.cells radix.now) s) o) }
    ensures memory { OnErr result ((fs : List Forest) → Kept fs w.index store.old store.new) }
{
    if is_object(radix) {
        return Ok(NativeOut::Throw(Fault::E4));
    }
    let Some(r) = optional_number(radix, 10) else {
        return Ok(charged(meter, 0, NativeOut::Stop(StopCause::Number)));
    };
    match valid_radix(r) {
        Some(base) => {
            let text = number_text(alloc, n, base)?;
            Ok(make_text(store, w, text))
        }
        None => Ok(NativeOut::Throw(Fault::E7)),
    }
}

// A radix from 2 to 36.
fn valid_radix(r: i64) -> Option<u64>
    ensures { MatchOption result (means.is_radix r ≡ false)
        (λ n. (means.is_radix r ≡ true) × (pos n ≡ r) × (2 ≤ n) × (n ≤ 36)) }
{
    if r < 2 || r > 36 {
        return None;
    }
    Some(r as u64)
}

// The text of a number in a radix; NaN has one text.
fn number_text(alloc: Global, n: Number, radix: u64) -> Result<Text, Memory>
    requires few { (2 ≤ radix) × (radix ≤ 36) }
    ensures { IfOk result (λ t. t ≡ means.number_text (plain (Value.Num n)) (pos radix)) }
{
    match n {
        Number::NaN => word(alloc, b"NaN"),
        Number::Whole(z) => radix_text(alloc, z, radix),
    }
}

// A truth value as receiver gives its text.
fn boolean_to_string(
    alloc: Global,
    this: &Value,
    store: &mut Store,
    w: WidgetId,
) -> Result<NativeOut, Memory>
    ensures native { IfOk result (λ o. Ends w.index store.old store.new
        (λ d s. means.boolean_to_string (receiver w.index store.old.cells this.now) s) o) }
    ensures memory { OnErr result ((fs : List Forest) → Kept fs w.index store.old store.new) }
{
    match this {
        Value::Bool(_) => {
            let text = read_text(alloc, this)?;
            Ok(make_text(store, w, text))
        }
        _ => Ok(NativeOut::Throw(Fault::E3)),
    }
}
