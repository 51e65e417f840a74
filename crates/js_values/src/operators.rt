//! The operators, each as the meaning has it (ECMA-262 3rd edition, 11.4 to 11.9).
ghost use Rattle.std.specs.Prelude.{◌≡◌, ℕ, List, IfOk, OnErr, ◌||◌, true, false};
ghost use Rattle.js_tree.specs.declared.nodes.UnOp.TheVariants as un;
ghost use Rattle.store_cells.specs.Cells.{PlainCell};
ghost use Rattle.widget_meaning.specs.Operators as operators;
ghost use Rattle.js_image.specs.Held.{IsFine};
ghost use Rattle.js_image.specs.Image.{seen};
ghost use Rattle.js_values.specs.Operands.{IsOperand, IsPlainOut, IsPrefixed, IsPrimitive, is_adding, meant_out, plain, reads_outside};

use crate::comparing::{comparison, is_same};
use crate::operands::{is_true, number_of, to_number};
use crate::outcome::OpOut;
use crate::quotients::{divided, is_outside, modulo};
use crate::sums::{minus, plus, times};
use code_units::{Memory, WholeRead};
use js_tree::{BinOp, UnOp};
use object_store::{Number, Value};
use std::alloc::Global;

/// An operator on two primitives, `===` and `!==` on any two values of a widget: `Left` exactly
/// where the result is outside the numbers, `LongText` exactly where it has over 65,536 units. Only
/// a joined text takes memory; `/` and `%` answer a number outside the language's, which no widget
/// has, with `Memory`. No accepted tree has the operators that have no result.
pub fn binary(alloc: Global, op: BinOp, a: &Value, b: &Value) -> Result<OpOut, Memory>
    requires left { IsOperand op a.now }
    requires right { IsOperand op b.now }
    ensures value { IfOk result (λ o. (w : ℕ) (cells : List PlainCell) → IsFine w cells a.now → IsFine w cells b.now
        → meant_out o ≡ operators.binary op (seen w cells a.now) (seen w cells b.now)) }
    ensures plain { IfOk result (λ o. IsPlainOut o) }
    ensures outside { is_adding op ≡ false → OnErr result ((reads_outside a.now || reads_outside b.now) ≡ true) }
{
    match op {
        BinOp::Add => plus(alloc, a, b),
        BinOp::Sub => Ok(minus(a, b)),
        BinOp::Mul => Ok(times(a, b)),
        BinOp::Div => divided(a, b),
        BinOp::Rem => modulo(a, b),
        BinOp::Less => Ok(comparison(BinOp::Less, a, b)),
        BinOp::Greater => Ok(comparison(BinOp::Greater, a, b)),
        BinOp::LessEqual => Ok(comparison(BinOp::LessEqual, a, b)),
        BinOp::GreaterEqual => Ok(comparison(BinOp::GreaterEqual, a, b)),
        BinOp::Same => Ok(OpOut::Is(Value::Bool(is_same(a, b)))),
        BinOp::NotSame => Ok(OpOut::Is(Value::Bool(!is_same(a, b)))),
        BinOp::ShiftLeft => Ok(OpOut::Is(Value::Undefined)),
        BinOp::ShiftRight => Ok(OpOut::Is(Value::Undefined)),
        BinOp::ShiftRightZero => Ok(OpOut::Is(Value::Undefined)),
        BinOp::InstanceOf => Ok(OpOut::Is(Value::Undefined)),
        BinOp::In => Ok(OpOut::Is(Value::Undefined)),
        BinOp::Equal => Ok(OpOut::Is(Value::Undefined)),
        BinOp::NotEqual => Ok(OpOut::Is(Value::Undefined)),
        BinOp::BitAnd => Ok(OpOut::Is(Value::Undefined)),
        BinOp::BitXor => Ok(OpOut::Is(Value::Undefined)),
        BinOp::BitOr => Ok(OpOut::Is(Value::Undefined)),
    }
}

/// A prefix operator: `+` and `-` on a primitive, `!` on any value; `Left` exactly where the number
/// is outside the numbers. It takes no memory; `-` answers a number outside the language's, which no widget
/// has, with `Memory`. `typeof` is `type_name`, `delete` a call of the store, and no accepted tree has the
/// others.
pub fn unary(op: UnOp, v: &Value) -> Result<OpOut, Memory>
    requires operand { IsPrefixed op v.now }
    ensures value { IfOk result (λ o. (w : ℕ) (cells : List PlainCell)
        → meant_out o ≡ operators.unary op (seen w cells v.now)) }
    ensures plain { IfOk result (λ o. IsPlainOut o) }
    ensures outside { OnErr result (reads_outside v.now ≡ true) }
{
    match op {
        UnOp::Plus => Ok(to_number(v)),
        UnOp::Minus => negative(v),
        UnOp::Not => Ok(OpOut::Is(Value::Bool(!is_true(v)))),
        UnOp::Delete => Ok(OpOut::Is(Value::Undefined)),
        UnOp::Void => Ok(OpOut::Is(Value::Undefined)),
        UnOp::TypeOf => Ok(OpOut::Is(Value::Undefined)),
        UnOp::BitNot => Ok(OpOut::Is(Value::Undefined)),
    }
}

// The negative of the number of a primitive.
fn negative(v: &Value) -> Result<OpOut, Memory>
    requires primitive { IsPrimitive v.now }
    ensures value { IfOk result (λ o. meant_out o ≡ operators.unary un.Minus (plain v.now)) }
    ensures plain { IfOk result (λ o. IsPlainOut o) }
    ensures outside { OnErr result (reads_outside v.now ≡ true) }
{
    match number_of(v) {
        WholeRead::Whole(n) => {
            if is_outside(n) {
                return Err(Memory);
            }
            Ok(OpOut::Is(Value::Num(Number::Whole(-n))))
        }
        WholeRead::NotNumber => Ok(OpOut::Is(Value::Num(Number::NaN))),
        WholeRead::Left => Ok(OpOut::Left),
    }
}
