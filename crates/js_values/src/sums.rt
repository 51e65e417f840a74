//! `+`, `-` and `*` on primitives (ECMA-262 3rd edition, 11.5.1 and 11.6).
ghost use Rattle.std.specs.Prelude.{◌≡◌, ◌+ℤ◌, ◌-ℤ◌, ◌*ℤ◌, ◌++◌, ◌≤◌, IfOk, length};
ghost use Rattle.js_tree.specs.declared.nodes.BinOp.TheVariants as bin;
ghost use Rattle.widget_meaning.specs.Operators as operators;
ghost use Rattle.widget_meaning.specs.Values as meaning;
ghost use Rattle.js_values.specs.Operands.{IsPlainOut, IsPrimitive, meant_out, plain};

use crate::operands::{number_of, push_text};
use crate::outcome::OpOut;
use code_units::{Memory, Text, WholeRead};
use object_store::{Number, Value};
use std::alloc::Global;

/// `+` on two primitives: the texts are joined where either is a text, else the numbers are added.
/// Two whole numbers take no memory.
pub(crate) fn plus(alloc: Global, a: &Value, b: &Value) -> Result<OpOut, Memory>
    requires left { IsPrimitive a.now }
    requires right { IsPrimitive b.now }
    ensures value { IfOk result (λ o. meant_out o ≡ operators.binary bin.Add (plain a.now) (plain b.now)) }
    ensures plain { IfOk result (λ o. IsPlainOut o) }
{
    if is_text(a) || is_text(b) {
        return join(alloc, a, b);
    }
    match (number_of(a), number_of(b)) {
        (WholeRead::Left, _) => Ok(OpOut::Left),
        (_, WholeRead::Left) => Ok(OpOut::Left),
        (WholeRead::Whole(x), WholeRead::Whole(y)) => Ok(sum(x, y)),
        _ => Ok(OpOut::Is(Value::Num(Number::NaN))),
    }
}

/// `-` on two primitives. It takes no memory.
pub(crate) fn minus(a: &Value, b: &Value) -> OpOut
    requires left { IsPrimitive a.now }
    requires right { IsPrimitive b.now }
    ensures value { meant_out result ≡ operators.binary bin.Sub (plain a.now) (plain b.now) }
    ensures plain { IsPlainOut result }
{
    match (number_of(a), number_of(b)) {
        (WholeRead::Left, _) => OpOut::Left,
        (_, WholeRead::Left) => OpOut::Left,
        (WholeRead::Whole(x), WholeRead::Whole(y)) => difference(x, y),
        _ => OpOut::Is(Value::Num(Number::NaN)),
    }
}

/// `*` on two primitives. It takes no memory.
pub(crate) fn times(a: &Value, b: &Value) -> OpOut
    requires left { IsPrimitive a.now }
    requires right { IsPrimitive b.now }
    ensures value { meant_out result ≡ operators.binary bin.Mul (plain a.now) (plain b.now) }
    ensures plain { IsPlainOut result }
{
    match (number_of(a), number_of(b)) {
        (WholeRead::Left, _) => OpOut::Left,
        (_, WholeRead::Left) => OpOut::Left,
        (WholeRead::Whole(x), WholeRead::Whole(y)) => product(x, y),
        _ => OpOut::Is(Value::Num(Number::NaN)),
    }
}

fn is_text(v: &Value) -> bool
    requires { IsPrimitive v.now }
    ensures { result ≡ operators.is_text (plain v.now) }
{
    match v {
        Value::Text(_) => true,
        _ => false,
    }
}

// The sum of two numbers.
fn sum(x: i64, y: i64) -> OpOut
    ensures value { meant_out result ≡ operators.number (x +ℤ y) }
    ensures plain { IsPlainOut result }
{
    match x.checked_add(y) {
        Some(z) => {
            if z.unsigned_abs() < LIMIT {
                OpOut::Is(Value::Num(Number::Whole(z)))
            } else {
                OpOut::Left
            }
        }
        None => OpOut::Left,
    }
}

// The difference of two numbers.
fn difference(x: i64, y: i64) -> OpOut
    ensures value { meant_out result ≡ operators.number (x -ℤ y) }
    ensures plain { IsPlainOut result }
{
    match x.checked_sub(y) {
        Some(z) => {
            if z.unsigned_abs() < LIMIT {
                OpOut::Is(Value::Num(Number::Whole(z)))
            } else {
                OpOut::Left
            }
        }
        None => OpOut::Left,
    }
}

// The product of two numbers.
fn product(x: i64, y: i64) -> OpOut
    ensures value { meant_out result ≡ operators.number (x *ℤ y) }
    ensures plain { IsPlainOut result }
{
    match x.checked_mul(y) {
        Some(z) => {
            if z.unsigned_abs() < LIMIT {
                OpOut::Is(Value::Num(Number::Whole(z)))
            } else {
                OpOut::Left
            }
        }
        None => OpOut::Left,
    }
}

const LIMIT: u64 = 1 << 53;

const LONGEST: usize = 65536;

// The texts of two primitives, joined.
fn join(alloc: Global, a: &Value, b: &Value) -> Result<OpOut, Memory>
    requires left { IsPrimitive a.now }
    requires right { IsPrimitive b.now }
    ensures value { IfOk result
        (λ o. meant_out o ≡ operators.text (meaning.to_text (plain a.now) ++ meaning.to_text (plain b.now))) }
    ensures plain { IfOk result (λ o. IsPlainOut o) }
{
    let left = least_len(a);
    let right = least_len(b);
    if left > LONGEST || right > LONGEST - left {
        return Ok(OpOut::LongText);
    }
    let mut units = Vec::with_capacity(alloc, left + right + SPARE)?;
    push_text(&mut units, a)?;
    push_text(&mut units, b)?;
    if units.len() > LONGEST {
        return Ok(OpOut::LongText);
    }
    Ok(OpOut::Is(Value::Text(Text::from_units(alloc, units)?)))
}

// How many units the text of a primitive has: of a text exactly, of another at least.
fn least_len(v: &Value) -> usize
    requires { IsPrimitive v.now }
    ensures { result ≤ length (meaning.to_text (plain v.now)) }
{
    match v {
        Value::Text(t) => t.units().len(),
        _ => 0,
    }
}

// Room for the text of a primitive that is no text.
const SPARE: usize = 20;
