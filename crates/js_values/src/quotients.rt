//! `/` and `%` on primitives (ECMA-262 3rd edition, 11.5.2 and 11.5.3).
ghost use Rattle.std.specs.Prelude.{◌≡◌, ◌<◌, ◌||◌, IfOk, OnErr, nat_lt, not, true, unsigned_abs};
ghost use Rattle.js_tree.specs.declared.nodes.BinOp.TheVariants as bin;
ghost use Rattle.widget_meaning.specs.Limits.{past_numbers};
ghost use Rattle.widget_meaning.specs.Operators as operators;
ghost use Rattle.js_values.specs.Operands.{IsPlainOut, IsPrimitive, meant_out, plain, reads_outside};

use crate::operands::number_of;
use crate::outcome::OpOut;
use code_units::{Memory, WholeRead};
use object_store::{Number, Value};

/// `/` on two primitives: exact, or it leaves the numbers.
pub(crate) fn divided(a: &Value, b: &Value) -> Result<OpOut, Memory>
    requires left { IsPrimitive a.now }
    requires right { IsPrimitive b.now }
    ensures value { IfOk result (λ o. meant_out o ≡ operators.binary bin.Div (plain a.now) (plain b.now)) }
    ensures plain { IfOk result (λ o. IsPlainOut o) }
    ensures outside { OnErr result ((reads_outside a.now || reads_outside b.now) ≡ true) }
{
    match (number_of(a), number_of(b)) {
        (WholeRead::Left, _) => Ok(OpOut::Left),
        (_, WholeRead::Left) => Ok(OpOut::Left),
        (WholeRead::Whole(x), WholeRead::Whole(y)) => {
            if is_outside(x) || is_outside(y) {
                return Err(Memory);
            }
            Ok(quotient(x, y))
        }
        _ => Ok(OpOut::Is(Value::Num(Number::NaN))),
    }
}

/// `%` on two primitives.
pub(crate) fn modulo(a: &Value, b: &Value) -> Result<OpOut, Memory>
    requires left { IsPrimitive a.now }
    requires right { IsPrimitive b.now }
    ensures value { IfOk result (λ o. meant_out o ≡ operators.binary bin.Rem (plain a.now) (plain b.now)) }
    ensures plain { IfOk result (λ o. IsPlainOut o) }
    ensures outside { OnErr result ((reads_outside a.now || reads_outside b.now) ≡ true) }
{
    match (number_of(a), number_of(b)) {
        (WholeRead::Left, _) => Ok(OpOut::Left),
        (_, WholeRead::Left) => Ok(OpOut::Left),
        (WholeRead::Whole(x), WholeRead::Whole(y)) => {
            if is_outside(x) || is_outside(y) {
                return Err(Memory);
            }
            Ok(remainder(x, y))
        }
        _ => Ok(OpOut::Is(Value::Num(Number::NaN))),
    }
}

// Whether a number is none of the language's. No widget has one.
pub(crate) fn is_outside(n: i64) -> bool
    ensures { result ≡ not (nat_lt (unsigned_abs n) past_numbers) }
{
    n.unsigned_abs() >= LIMIT
}

// The first number past the numbers.
const LIMIT: u64 = 1 << 53;

// The quotient of two numbers, where the right is not 0 and divides the left.
fn quotient(x: i64, y: i64) -> OpOut
    requires left { unsigned_abs x < past_numbers }
    ensures value { meant_out result ≡ operators.quotient x y }
    ensures plain { IsPlainOut result }
{
    if y == 0 {
        if x == 0 {
            return OpOut::Is(Value::Num(Number::NaN));
        }
        return OpOut::Left;
    }
    if x % y != 0 {
        return OpOut::Left;
    }
    OpOut::Is(Value::Num(Number::Whole(x / y)))
}

// The remainder of two numbers: it has the sign of the left, and is NaN by 0.
fn remainder(x: i64, y: i64) -> OpOut
    requires left { unsigned_abs x < past_numbers }
    requires right { unsigned_abs y < past_numbers }
    ensures value { meant_out result ≡ operators.remainder x y }
    ensures plain { IsPlainOut result }
{
    if y == 0 {
        return OpOut::Is(Value::Num(Number::NaN));
    }
    OpOut::Is(Value::Num(Number::Whole(x % y)))
}
