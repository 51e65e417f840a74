//! Operators on two whole numbers, as most operands are: their results are made here, without the type that
//! tells every outcome.
ghost use Rattle.std.specs.Prelude.{◌≡◌, ◌+ℤ◌, ◌-ℤ◌, ◌*ℤ◌, ℕ, List, IfSome, int_rem};
ghost use Rattle.store_cells.specs.Cells.{PlainCell};
ghost use Rattle.widget_meaning.specs.OwnState.{State};
ghost use Rattle.widget_meaning.specs.Operators as operators;
ghost use Rattle.widget_meaning.specs.Expressions as expressions;
ghost use Rattle.js_tree.specs.declared.nodes.UnOp.TheVariants as un;
ghost use Rattle.widget_meaning.specs.Plan as plan;
ghost use Rattle.widget_meaning.specs.Plan.{Ret};
ghost use Rattle.widget_meaning.specs.Values as meaning;
ghost use Rattle.js_image.specs.Image.{seen};
ghost use Rattle.js_image.specs.Held.{IsFine};

use js_tree::{BinOp, UnOp};
use object_store::{Number, Value};

// Past the largest number of the language.
const LIMIT: u64 = 1 << 53;

/// What an operator gives on two whole numbers, where it is a number or a truth value that is soon found;
/// none where it is looked for otherwise.
#[inline(always)]
pub(crate) fn of_wholes(op: BinOp, left: &Value, right: &Value) -> Option<Value>
    ensures gives { IfSome result (λ v. (w : ℕ) (cells : List PlainCell) (d : ℕ) (s : State)
        → expressions.operate op (seen w cells left.now) (seen w cells right.now) d s
        ≡ Ret (meaning.Is (seen w cells v)) s) }
    ensures fine { IfSome result (λ v. (w : ℕ) (cells : List PlainCell) → IsFine w cells v) }
{
    let x = whole_in(left)?;
    let y = whole_in(right)?;
    on_wholes(op, x, y)
}

/// What `+` gives on a whole number, and `!` on a truth value; none where it is looked for otherwise.
#[inline(always)]
pub(crate) fn of_whole(op: UnOp, value: &Value) -> Option<Value>
    ensures gives { IfSome result (λ v. (w : ℕ) (cells : List PlainCell) (p : plan.Place) (s : State)
        → expressions.unary_on op (seen w cells value.now) p s ≡ Ret (meaning.Is (seen w cells v)) s) }
    ensures fine { IfSome result (λ v. (w : ℕ) (cells : List PlainCell) → IsFine w cells v) }
{
    match op {
        UnOp::Plus => same_number(value),
        UnOp::Not => other_truth(value),
        _ => None,
    }
}

// `+` of a whole number.
#[inline(always)]
fn same_number(value: &Value) -> Option<Value>
    ensures gives { IfSome result (λ v. (w : ℕ) (cells : List PlainCell) (p : plan.Place) (s : State)
        → expressions.unary_on un.Plus (seen w cells value.now) p s ≡ Ret (meaning.Is (seen w cells v)) s) }
    ensures fine { IfSome result (λ v. (w : ℕ) (cells : List PlainCell) → IsFine w cells v) }
{
    match value {
        Value::Num(Number::Whole(z)) => Some(Value::Num(Number::Whole(*z))),
        _ => None,
    }
}

// `!` of a truth value.
#[inline(always)]
fn other_truth(value: &Value) -> Option<Value>
    ensures gives { IfSome result (λ v. (w : ℕ) (cells : List PlainCell) (p : plan.Place) (s : State)
        → expressions.unary_on un.Not (seen w cells value.now) p s ≡ Ret (meaning.Is (seen w cells v)) s) }
    ensures fine { IfSome result (λ v. (w : ℕ) (cells : List PlainCell) → IsFine w cells v) }
{
    match value {
        Value::Bool(b) => Some(Value::Bool(!*b)),
        _ => None,
    }
}

// The whole number that a value is.
#[inline(always)]
fn whole_in(value: &Value) -> Option<i64>
    ensures { IfSome result (λ z. value.now ≡ Value.Num (Number.Whole z)) }
{
    match value {
        Value::Num(Number::Whole(z)) => Some(*z),
        _ => None,
    }
}

/// The same on two whole numbers themselves.
#[inline(always)]
pub(crate) fn on_wholes(op: BinOp, x: i64, y: i64) -> Option<Value>
    ensures gives { IfSome result (λ v. (w : ℕ) (cells : List PlainCell) (d : ℕ) (s : State)
        → expressions.operate op (meaning.Num x) (meaning.Num y) d s ≡ Ret (meaning.Is (seen w cells v)) s) }
    ensures fine { IfSome result (λ v. (w : ℕ) (cells : List PlainCell) → IsFine w cells v) }
{
    match op {
        BinOp::Add => sum(x, y),
        BinOp::Sub => difference(x, y),
        BinOp::Mul => product(x, y),
        BinOp::Rem => remainder(x, y),
        BinOp::Less => Some(Value::Bool(x < y)),
        BinOp::Greater => Some(Value::Bool(y < x)),
        BinOp::LessEqual => Some(Value::Bool(!(y < x))),
        BinOp::GreaterEqual => Some(Value::Bool(!(x < y))),
        BinOp::Same => Some(Value::Bool(x == y)),
        BinOp::NotSame => Some(Value::Bool(x != y)),
        _ => None,
    }
}

// The sum of two numbers, where it is a number.
#[inline(always)]
fn sum(x: i64, y: i64) -> Option<Value>
    ensures { IfSome result (λ v. (v ≡ Value.Num (Number.Whole (x +ℤ y)))
        × (operators.number (x +ℤ y) ≡ operators.Gives (meaning.Num (x +ℤ y)))) }
{
    match x.checked_add(y) {
        Some(z) => {
            if z.unsigned_abs() < LIMIT {
                Some(Value::Num(Number::Whole(z)))
            } else {
                None
            }
        }
        None => None,
    }
}

// The difference of two numbers, where it is a number.
#[inline(always)]
fn difference(x: i64, y: i64) -> Option<Value>
    ensures { IfSome result (λ v. (v ≡ Value.Num (Number.Whole (x -ℤ y)))
        × (operators.number (x -ℤ y) ≡ operators.Gives (meaning.Num (x -ℤ y)))) }
{
    match x.checked_sub(y) {
        Some(z) => {
            if z.unsigned_abs() < LIMIT {
                Some(Value::Num(Number::Whole(z)))
            } else {
                None
            }
        }
        None => None,
    }
}

// The product of two numbers, where it is a number.
#[inline(always)]
fn product(x: i64, y: i64) -> Option<Value>
    ensures { IfSome result (λ v. (v ≡ Value.Num (Number.Whole (x *ℤ y)))
        × (operators.number (x *ℤ y) ≡ operators.Gives (meaning.Num (x *ℤ y)))) }
{
    match x.checked_mul(y) {
        Some(z) => {
            if z.unsigned_abs() < LIMIT {
                Some(Value::Num(Number::Whole(z)))
            } else {
                None
            }
        }
        None => None,
    }
}

// The remainder of two numbers of the language, where the right is not 0.
#[inline(always)]
fn remainder(x: i64, y: i64) -> Option<Value>
    ensures { IfSome result (λ v. (v ≡ Value.Num (Number.Whole (int_rem x y)))
        × (operators.remainder x y ≡ operators.Gives (meaning.Num (int_rem x y)))) }
{
    if x.unsigned_abs() >= LIMIT {
        return None;
    }
    if y == 0 {
        return None;
    }
    Some(Value::Num(Number::Whole(x % y)))
}
