//! Comparisons (ECMA-262 3rd edition, 11.8 and 11.9.6).
ghost use Rattle.std.specs.Prelude.{◌≡◌, ℕ, List, Some, true};
ghost use Rattle.std.specs.Option.{is_some};
ghost use Rattle.js_tree.specs.declared.nodes.BinOp.{BinOp};
ghost use Rattle.store_cells.specs.Cells.{PlainCell};
ghost use Rattle.widget_meaning.specs.Operators as operators;
ghost use Rattle.js_image.specs.Held.{IsFine};
ghost use Rattle.js_image.specs.Image.{seen};
ghost use Rattle.js_values.specs.Comparing.{holds, is_comparison, number_order, order, text_order};
ghost use Rattle.js_values.specs.Operands.{IsPlainOut, IsPrimitive, is_equal, meant_out, plain};

use crate::operands::number_of;
use crate::outcome::{Compared, OpOut};
use code_units::WholeRead;
use js_tree::BinOp;
use object_store::{Number, Value};
use std::cmp::Ordering;

/// How two primitives stand to each other: two texts by their units, else by their numbers, which
/// do not leave the numbers. It takes no memory.
pub fn compare(a: &Value, b: &Value) -> Compared
    requires left { IsPrimitive a.now }
    requires right { IsPrimitive b.now }
    requires within { is_some (order (plain a.now) (plain b.now)) ≡ true }
    ensures order { order (plain a.now) (plain b.now) ≡ Some result }
    ensures means { (op : BinOp) → is_comparison op ≡ true
        → operators.binary op (plain a.now) (plain b.now) ≡ operators.truth (holds op result) }
{
    match order(a, b) {
        Some(compared) => compared,
        None => unreachable!(),
    }
}

/// `<`, `>`, `<=` or `>=` on two primitives.
pub(crate) fn comparison(op: BinOp, a: &Value, b: &Value) -> OpOut
    requires comparison { is_comparison op ≡ true }
    requires left { IsPrimitive a.now }
    requires right { IsPrimitive b.now }
    ensures value { meant_out result ≡ operators.binary op (plain a.now) (plain b.now) }
    ensures plain { IsPlainOut result }
{
    match order(a, b) {
        Some(compared) => OpOut::Is(Value::Bool(holds(op, compared))),
        None => OpOut::Left,
    }
}

/// `===` on any two values of a widget: type and value, texts by their units, objects by identity;
/// NaN equals nothing. It takes no memory.
pub fn is_same(a: &Value, b: &Value) -> bool
    ensures { (w : ℕ) (cells : List PlainCell) → IsFine w cells a.now → IsFine w cells b.now
        → result ≡ operators.is_same (seen w cells a.now) (seen w cells b.now) }
{
    is_equal(a, b)
}

fn is_equal(a: &Value, b: &Value) -> bool
    ensures { result ≡ is_equal a.now b.now }
{
    match (a, b) {
        (Value::Undefined, Value::Undefined) => true,
        (Value::Null, Value::Null) => true,
        (Value::Bool(x), Value::Bool(y)) => x == y,
        (Value::Num(Number::Whole(x)), Value::Num(Number::Whole(y))) => x == y,
        (Value::Text(t), Value::Text(u)) => t == u,
        (Value::Ref(i), Value::Ref(j)) => i == j,
        _ => false,
    }
}

// None where a number leaves the numbers.
fn order(a: &Value, b: &Value) -> Option<Compared>
    requires left { IsPrimitive a.now }
    requires right { IsPrimitive b.now }
    ensures { result ≡ order (plain a.now) (plain b.now) }
{
    if let (Value::Text(t), Value::Text(u)) = (a, b) {
        return Some(text_order(t.units(), u.units()));
    }
    match (number_of(a), number_of(b)) {
        (WholeRead::Left, _) => None,
        (_, WholeRead::Left) => None,
        (WholeRead::Whole(x), WholeRead::Whole(y)) => Some(number_order(x, y)),
        _ => Some(Compared::Unordered),
    }
}

fn text_order(t: &[u16], u: &[u16]) -> Compared
    ensures { result ≡ text_order t.now u.now }
{
    match t.cmp(u) {
        Ordering::Less => Compared::Less,
        Ordering::Equal => Compared::Same,
        Ordering::Greater => Compared::More,
    }
}

fn number_order(x: i64, y: i64) -> Compared
    ensures { result ≡ number_order x y }
{
    if x < y {
        return Compared::Less;
    }
    if y < x {
        return Compared::More;
    }
    Compared::Same
}

// What a comparison answers.
fn holds(op: BinOp, compared: Compared) -> bool
    ensures { result ≡ holds op compared }
{
    match (op, compared) {
        (BinOp::Less, Compared::Less) => true,
        (BinOp::Greater, Compared::More) => true,
        (BinOp::LessEqual, Compared::Less | Compared::Same) => true,
        (BinOp::GreaterEqual, Compared::More | Compared::Same) => true,
        _ => false,
    }
}
