//! The arguments of natives.
ghost use Rattle.std.specs.Prelude.{◌≡◌, ℕ, List, [], ◌∷◌, IfOk, false, length, sum_by, unwrap_or, slice_get};
ghost use Rattle.std.specs.List.{list_any};
ghost use Rattle.store_cells.specs.Cells.{PlainCell};
ghost use Rattle.widget_meaning.specs.Values as meaning;
ghost use Rattle.widget_meaning.specs.GlobalNatives as globals;
ghost use Rattle.widget_meaning.specs.NativeForms as forms;
ghost use Rattle.js_image.specs.Image.{all_seen, seen};
ghost use Rattle.js_values.specs.Operands.{IsPrimitive};
ghost use Rattle.native_common.specs.Numbers as numbers;
ghost use Rattle.native_common.specs.Receivers.{is_plain_call};

use code_units::{Memory, Text, WholeRead};
use js_values::{number_of, to_text};
use object_store::{CellId, Value};
use std::alloc::Global;

/// Whether a value is an object.
pub fn is_object(v: &Value) -> bool
    ensures object { (w : ℕ) (cells : List PlainCell) → result ≡ meaning.is_object (seen w cells v.now) }
    ensures primitive { result ≡ false → IsPrimitive v.now }
{
    match v {
        Value::Ref(_) => true,
        _ => false,
    }
}

/// Whether one of two values is an object.
pub fn either_object(a: &Value, b: &Value) -> bool
    ensures { (w : ℕ) (cells : List PlainCell)
        → result ≡ list_any meaning.is_object (seen w cells a.now ∷ seen w cells b.now ∷ []) }
{
    is_object(a) || is_object(b)
}

/// Whether one of these is an object.
pub fn any_object(vs: &[Value]) -> bool
    ensures { (w : ℕ) (cells : List PlainCell) → result ≡ list_any meaning.is_object (all_seen w cells vs.now) }
{
    for v in vs {
        if is_object(v) {
            return true;
        }
    }
    false
}

/// The argument at a place, from 0, or the value for an absent one.
pub fn nth<'a>(args: &'a [Value], n: usize, absent: &'a Value) -> &'a Value
    ensures { result.now ≡ unwrap_or (slice_get args.now n) absent.now }
{
    match args.get(n) {
        Some(v) => v,
        None => absent,
    }
}

/// The text of a primitive; an object has none, and gives the empty one.
pub fn read_text(alloc: Global, v: &Value) -> Result<Text, Memory>
    ensures { IfOk result (λ t. (w : ℕ) (cells : List PlainCell) → t ≡ meaning.to_text (seen w cells v.now)) }
{
    if is_object(v) {
        return Text::from_units(alloc, Vec::new(alloc));
    }
    to_text(alloc, v)
}

/// The number that a primitive reads as; an object reads as none.
pub fn read_number(v: &Value) -> WholeRead
    ensures { (w : ℕ) (cells : List PlainCell) → result ≡ meaning.to_number (seen w cells v.now) }
{
    if is_object(v) {
        return WholeRead::NotNumber;
    }
    number_of(v)
}

/// The number of an argument, where NaN stands for this one; none where it leaves the numbers.
pub fn number_or(v: &Value, z: i64) -> Option<i64>
    ensures { (w : ℕ) (cells : List PlainCell) → result ≡ numbers.number_or z (meaning.to_number (seen w cells v.now)) }
{
    match read_number(v) {
        WholeRead::Whole(n) => Some(n),
        WholeRead::NotNumber => Some(z),
        WholeRead::Left => None,
    }
}

/// The number of an argument that may be absent, which then is this one; NaN is 0.
pub fn optional_number(v: &Value, z: i64) -> Option<i64>
    ensures { (w : ℕ) (cells : List PlainCell) → result ≡ numbers.optional_number z (seen w cells v.now) }
{
    match v {
        Value::Undefined => Some(z),
        _ => number_or(v, 0),
    }
}

/// The units that are read of an argument: those of a text.
pub fn units_read(v: &Value) -> usize
    ensures { (w : ℕ) (cells : List PlainCell) → result ≡ numbers.counted (globals.units_read (seen w cells v.now)) }
{
    match v {
        Value::Text(t) => text_len(t),
        _ => 0,
    }
}

/// The units that are read of all arguments.
pub fn all_units_read(vs: &[Value]) -> usize
    ensures { (w : ℕ) (cells : List PlainCell)
        → result ≡ numbers.counted (sum_by globals.units_read (all_seen w cells vs.now)) }
{
    let mut n: usize = 0;
    for v in vs {
        n = n.saturating_add(units_read(v));
    }
    n
}

/// How many units a text has.
pub fn text_len(t: &Text) -> usize
    ensures exact { result ≡ length t.now }
    ensures counted { result ≡ numbers.counted (length t.now) }
{
    t.units().len()
}

/// A position in what has so many places: below 0 it is 0, past the end it is the end.
pub fn clamped(len: usize, z: i64) -> usize
    ensures { result ≡ forms.clamped len z }
{
    match usize::try_from(z) {
        Ok(n) => n.min(len),
        Err(_) => 0,
    }
}

/// The same, where one below 0 is counted from the end.
pub fn from_end(len: usize, z: i64) -> usize
    ensures { result ≡ forms.from_end len z }
{
    match usize::try_from(z) {
        Ok(n) => n.min(len),
        Err(_) => len.saturating_sub(z.unsigned_abs() as usize),
    }
}

/// Whether a receiver is the Global cell, which a plain call passes for none.
pub fn is_plain_call(this: &Value) -> bool
    ensures { result ≡ is_plain_call this.now }
{
    match this {
        Value::Ref(i) => *i == GLOBAL,
        _ => false,
    }
}

// The place of the Global cell.
const GLOBAL: CellId = 0;
