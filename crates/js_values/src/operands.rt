//! Primitives as truth values, numbers and texts (ECMA-262 3rd edition, 9), and the names of types (11.4.3).
ghost use Rattle.std.specs.Prelude.{◌≡◌, ◌++◌, ℕ, List, IfOk, OnOk};
ghost use Rattle.js_tree.specs.declared.nodes.UnOp.TheVariants as un;
ghost use Rattle.store_cells.specs.Cells.{PlainCell};
ghost use Rattle.widget_meaning.specs.Operators as operators;
ghost use Rattle.widget_meaning.specs.Values as meaning;
ghost use Rattle.js_image.specs.Image.{seen};
ghost use Rattle.js_values.specs.Operands.{IsPlainOut, IsPrimitive, meant_out, plain};

use crate::outcome::OpOut;
use code_units::{Memory, Text, WholeRead, push_ascii, read_whole, whole_text};
use itoa::Buffer;
use js_image::word;
use object_store::{Number, Value};
use std::alloc::Global;

/// Whether a value is true.
pub fn is_true(v: &Value) -> bool
    ensures { (w : ℕ) (cells : List PlainCell) → result ≡ meaning.is_true (seen w cells v.now) }
{
    match v {
        Value::Undefined => false,
        Value::Null => false,
        Value::Bool(b) => *b,
        Value::Num(Number::NaN) => false,
        Value::Num(Number::Whole(n)) => *n != 0,
        Value::Text(t) => t.units().len() != 0,
        Value::Ref(_) => true,
    }
}

/// The text of a primitive. A text is shared.
pub fn to_text(alloc: Global, v: &Value) -> Result<Text, Memory>
    requires primitive { IsPrimitive v.now }
    ensures { IfOk result (λ t. t ≡ meaning.to_text (plain v.now)) }
{
    match v {
        Value::Undefined => word(alloc, b"undefined"),
        Value::Null => word(alloc, b"null"),
        Value::Bool(true) => word(alloc, b"true"),
        Value::Bool(false) => word(alloc, b"false"),
        Value::Num(Number::NaN) => word(alloc, b"NaN"),
        Value::Num(Number::Whole(n)) => whole_text(alloc, *n),
        Value::Text(t) => t.share(),
        Value::Ref(_) => unreachable!(),
    }
}

// Appends the text of a primitive.
pub(crate) fn push_text(units: &mut Vec<u16>, v: &Value) -> Result<(), Memory>
    requires primitive { IsPrimitive v.now }
    ensures { OnOk result (units.new.items ≡ units.old.items ++ meaning.to_text (plain v.now)) }
{
    match v {
        Value::Undefined => push_ascii(units, b"undefined"),
        Value::Null => push_ascii(units, b"null"),
        Value::Bool(true) => push_ascii(units, b"true"),
        Value::Bool(false) => push_ascii(units, b"false"),
        Value::Num(Number::NaN) => push_ascii(units, b"NaN"),
        Value::Num(Number::Whole(n)) => push_ascii(units, Buffer::new().format(*n).as_bytes()),
        Value::Text(t) => Ok(units.extend_from_slice(t.units())?),
        Value::Ref(_) => unreachable!(),
    }
}

/// The number that a primitive reads as: a whole number, none, or one that leaves the numbers. It
/// takes no memory.
pub fn number_of(v: &Value) -> WholeRead
    requires primitive { IsPrimitive v.now }
    ensures { result ≡ meaning.to_number (plain v.now) }
{
    match v {
        Value::Undefined => WholeRead::NotNumber,
        Value::Null => WholeRead::Whole(0),
        Value::Bool(true) => WholeRead::Whole(1),
        Value::Bool(false) => WholeRead::Whole(0),
        Value::Num(Number::NaN) => WholeRead::NotNumber,
        Value::Num(Number::Whole(n)) => WholeRead::Whole(*n),
        Value::Text(t) => read_whole(t),
        Value::Ref(_) => unreachable!(),
    }
}

/// The number of a primitive as a value, as the prefix `+` gives it: `Left` exactly where it is
/// outside the numbers. It takes no memory.
pub fn to_number(v: &Value) -> OpOut
    requires primitive { IsPrimitive v.now }
    ensures value { meant_out result ≡ operators.unary un.Plus (plain v.now) }
    ensures plain { IsPlainOut result }
{
    match number_of(v) {
        WholeRead::Whole(n) => OpOut::Is(Value::Num(Number::Whole(n))),
        WholeRead::NotNumber => OpOut::Is(Value::Num(Number::NaN)),
        WholeRead::Left => OpOut::Left,
    }
}

/// The name of a value's type, as `typeof` gives it. Whether an object is a function the caller
/// knows by its cell.
pub fn type_name(alloc: Global, v: &Value, function: bool) -> Result<Text, Memory>
    ensures { IfOk result (λ t. (w : ℕ) (cells : List PlainCell)
        → t ≡ operators.type_name function (seen w cells v.now)) }
{
    word(alloc, type_word(v, function))
}

fn type_word(v: &Value, function: bool) -> &'static [u8]
    ensures { (w : ℕ) (cells : List PlainCell) → result.now ≡ operators.type_name function (seen w cells v.now) }
{
    match v {
        Value::Undefined => b"undefined",
        Value::Null => b"object",
        Value::Bool(_) => b"boolean",
        Value::Num(Number::NaN) => b"number",
        Value::Num(Number::Whole(_)) => b"number",
        Value::Text(_) => b"string",
        Value::Ref(_) => { if function { b"function" } else { b"object" } }
    }
}
