//! The natives of `Math` (ECMA-262 3rd edition, 15.8.2).
ghost use Rattle.std.specs.Prelude.{◌≡◌, ◌<◌, ℕ, List, IfOk, None, drop, length, map, slice_get, unwrap_or};
ghost use Rattle.std.specs.List.{fold};
ghost use Rattle.store_cells.specs.Cells.{Cells, PlainCell};
ghost use Rattle.widget_meaning.specs.Values.{to_number};
ghost use Rattle.widget_meaning.specs.MathNatives as means;
ghost use Rattle.widget_meaning.specs.Operators as operators;
ghost use Rattle.widget_meaning.specs.Operators.{of_numbers};
ghost use Rattle.js_image.specs.Image.{all_seen, seen};
ghost use Rattle.js_values.specs.Operands.{meant_out};
ghost use Rattle.native_common.specs.Refines.{Refines};
ghost use Rattle.native_common.specs.Numbers.{IsSmallOut};
ghost use Rattle.plain_natives.specs.Choices.{better, changed};

use crate::conversions::as_number;
use crate::powers::power;
use code_units::{Memory, WholeRead};
use js_values::{Fault, Meter, NativeOut, OpOut};
use native_common::{any_object, charged, either_object, given, is_object, nth, read_number};
use object_store::{MathNative, Number, Value};

/// A native of `Math`; it ignores its receiver. `Memory` comes alone for the magnitude of a number
/// that no widget has.
pub fn math_native(
    which: MathNative,
    args: &[Value],
    meter: &mut Meter,
) -> Result<NativeOut, Memory>
    ensures { IfOk result (λ o. (w : ℕ) (s : Cells) → Refines w s s meter.old meter.new
        (means.math_native which None (all_seen w s.cells args.now)) o) }
{
    let absent = Value::Undefined;
    let first = nth(args, 0, &absent);
    let second = nth(args, 1, &absent);
    match which {
        MathNative::Abs => of_one(args, first, true, meter),
        MathNative::Ceil => of_one(args, first, false, meter),
        MathNative::Floor => of_one(args, first, false, meter),
        MathNative::Round => of_one(args, first, false, meter),
        MathNative::Max => Ok(of_all(args, true, meter)),
        MathNative::Min => Ok(of_all(args, false, meter)),
        MathNative::Pow => Ok(pow(first, second, args.len(), meter)),
    }
}

// A function of one number: the magnitude, or the number.
fn of_one(
    args: &[Value],
    first: &Value,
    magnitude: bool,
    meter: &mut Meter,
) -> Result<NativeOut, Memory>
    requires { first.now ≡ unwrap_or (slice_get args.now 0) Value.Undefined }
    ensures { IfOk result (λ o. (w : ℕ) (s : Cells) → Refines w s s meter.old meter.new
        (λ d t. means.of_one (all_seen w s.cells args.now) (changed magnitude) t) o) }
{
    if is_object(first) {
        return Ok(NativeOut::Throw(Fault::E4));
    }
    let out = number_out(read_number(first), magnitude)?;
    Ok(charged(meter, args.len(), given(out)))
}

// The number that is given.
fn number_out(r: WholeRead, magnitude: bool) -> Result<OpOut, Memory>
    ensures value { IfOk result (λ o. meant_out o ≡ operators.as_number r (changed magnitude)) }
    ensures small { IfOk result (λ o. IsSmallOut o) }
{
    match r {
        WholeRead::Whole(z) => Ok(OpOut::Is(Value::Num(Number::Whole(changed(z, magnitude)?)))),
        WholeRead::NotNumber => Ok(OpOut::Is(Value::Num(Number::NaN))),
        WholeRead::Left => Ok(OpOut::Left),
    }
}

// The magnitude of a number, or the number.
fn changed(z: i64, magnitude: bool) -> Result<i64, Memory>
    ensures { IfOk result (λ n. n ≡ changed magnitude z) }
{
    if !magnitude {
        return Ok(z);
    }
    match i64::try_from(z.unsigned_abs()) {
        Ok(n) => Ok(n),
        Err(_) => Err(Memory),
    }
}

// `max`, or `min`.
fn of_all(args: &[Value], max: bool, meter: &mut Meter) -> NativeOut
    ensures { (w : ℕ) (s : Cells) → Refines w s s meter.old meter.new
        (λ d t. means.of_all (all_seen w s.cells args.now) (better max) t) result }
{
    if any_object(args) {
        return NativeOut::Throw(Fault::E4);
    }
    charged(meter, args.len(), given(as_number(best(args, max))))
}

// The best of all; none leaves the numbers.
fn best(args: &[Value], max: bool) -> WholeRead
    ensures { (w : ℕ) (cells : List PlainCell) → result ≡ means.best (better max) (all_seen w cells args.now) }
{
    match args.first() {
        Some(first) => best_of(read_number(first), rest_of(args), max),
        None => WholeRead::Left,
    }
}

// What stands behind the first.
fn rest_of(args: &[Value]) -> &[Value]
    requires { 0 < length args.now }
    ensures { result.now ≡ drop 1 args.now }
{
    &args[1..]
}

// The best of one and all of these.
fn best_of(first: WholeRead, rest: &[Value], max: bool) -> WholeRead
    ensures { (w : ℕ) (cells : List PlainCell)
        → result ≡ fold (of_numbers WholeRead.Left WholeRead.NotNumber
        (λ x y. WholeRead.Whole (better max x y))) first (map to_number (all_seen w cells rest.now)) }
{
    let mut found = first;
    for v in rest {
        found = better_of(found, read_number(v), max);
    }
    found
}

// The better of two.
fn better_of(a: WholeRead, b: WholeRead, max: bool) -> WholeRead
    ensures { result ≡ of_numbers WholeRead.Left WholeRead.NotNumber (λ x y. WholeRead.Whole (better max x y)) a b }
{
    match (a, b) {
        (WholeRead::Left, _) => WholeRead::Left,
        (_, WholeRead::Left) => WholeRead::Left,
        (WholeRead::Whole(x), WholeRead::Whole(y)) => WholeRead::Whole(better(x, y, max)),
        _ => WholeRead::NotNumber,
    }
}

fn better(x: i64, y: i64, max: bool) -> i64
    ensures { result ≡ better max x y }
{
    if max { x.max(y) } else { x.min(y) }
}

// `pow(a, b)`
fn pow(a: &Value, b: &Value, n: usize, meter: &mut Meter) -> NativeOut
    ensures { (w : ℕ) (s : Cells) → Refines w s s meter.old meter.new
        (λ d t. means.pow (seen w s.cells a.now) (seen w s.cells b.now) n t) result }
{
    if either_object(a, b) {
        return NativeOut::Throw(Fault::E4);
    }
    charged(meter, n, given(power(read_number(a), read_number(b))))
}
