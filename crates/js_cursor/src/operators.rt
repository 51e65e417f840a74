//! What a sign is among operators.
ghost use Rattle.std.specs.Prelude.{◌≡◌, ◌<◌, ◌≤◌, true, Some, MatchOption};
ghost use Rattle.js_grammar.specs.declared.Infix.{Infix};
ghost use Rattle.js_grammar.specs.Tables.{infix_of, level_of, prefix_of, step_of, assign_of};

use js_grammar::{Infix, Prefix, Sign};
use js_tree::{AssignOp, BinOp, StepOp, UnOp};

/// The operator before its operand.
pub fn prefix(sign: Sign) -> Option<Prefix>
    ensures { result ≡ prefix_of sign }
{
    match sign {
        Sign::Delete => Some(Prefix::Unary(UnOp::Delete)),
        Sign::Void => Some(Prefix::Unary(UnOp::Void)),
        Sign::TypeOf => Some(Prefix::Unary(UnOp::TypeOf)),
        Sign::Plus => Some(Prefix::Unary(UnOp::Plus)),
        Sign::Minus => Some(Prefix::Unary(UnOp::Minus)),
        Sign::BitNot => Some(Prefix::Unary(UnOp::BitNot)),
        Sign::Not => Some(Prefix::Unary(UnOp::Not)),
        Sign::PlusPlus => Some(Prefix::Step(StepOp::PreInc)),
        Sign::MinusMinus => Some(Prefix::Step(StepOp::PreDec)),
        _ => None,
    }
}

/// The step behind its operand.
pub fn postfix(sign: Sign) -> Option<StepOp>
    ensures { result ≡ step_of sign }
{
    match sign {
        Sign::PlusPlus => Some(StepOp::PostInc),
        Sign::MinusMinus => Some(StepOp::PostDec),
        _ => None,
    }
}

/// The assignment operator.
pub fn assigning(sign: Sign) -> Option<AssignOp>
    ensures { result ≡ assign_of sign }
{
    match sign {
        Sign::Assign => Some(AssignOp::Assign),
        Sign::PlusAssign => Some(AssignOp::Add),
        Sign::MinusAssign => Some(AssignOp::Sub),
        Sign::StarAssign => Some(AssignOp::Mul),
        Sign::SlashAssign => Some(AssignOp::Div),
        Sign::PercentAssign => Some(AssignOp::Rem),
        Sign::ShiftLeftAssign => Some(AssignOp::ShiftLeft),
        Sign::ShiftRightAssign => Some(AssignOp::ShiftRight),
        Sign::ShiftRightZeroAssign => Some(AssignOp::ShiftRightZero),
        Sign::BitAndAssign => Some(AssignOp::BitAnd),
        Sign::BitOrAssign => Some(AssignOp::BitOr),
        Sign::BitXorAssign => Some(AssignOp::BitXor),
        _ => None,
    }
}

// The operator between two operands, but for `in`.
fn infix_without_in(sign: Sign) -> Option<Infix>
    ensures { result ≡ infix_of sign true }
{
    match sign {
        Sign::Star => Some(Infix::Binary(BinOp::Mul)),
        Sign::Slash => Some(Infix::Binary(BinOp::Div)),
        Sign::Percent => Some(Infix::Binary(BinOp::Rem)),
        Sign::Plus => Some(Infix::Binary(BinOp::Add)),
        Sign::Minus => Some(Infix::Binary(BinOp::Sub)),
        Sign::ShiftLeft => Some(Infix::Binary(BinOp::ShiftLeft)),
        Sign::ShiftRight => Some(Infix::Binary(BinOp::ShiftRight)),
        Sign::ShiftRightZero => Some(Infix::Binary(BinOp::ShiftRightZero)),
        Sign::Less => Some(Infix::Binary(BinOp::Less)),
        Sign::Greater => Some(Infix::Binary(BinOp::Greater)),
        Sign::LessEqual => Some(Infix::Binary(BinOp::LessEqual)),
        Sign::GreaterEqual => Some(Infix::Binary(BinOp::GreaterEqual)),
        Sign::InstanceOf => Some(Infix::Binary(BinOp::InstanceOf)),
        Sign::Equal => Some(Infix::Binary(BinOp::Equal)),
        Sign::NotEqual => Some(Infix::Binary(BinOp::NotEqual)),
        Sign::Same => Some(Infix::Binary(BinOp::Same)),
        Sign::NotSame => Some(Infix::Binary(BinOp::NotSame)),
        Sign::BitAnd => Some(Infix::Binary(BinOp::BitAnd)),
        Sign::BitXor => Some(Infix::Binary(BinOp::BitXor)),
        Sign::BitOr => Some(Infix::Binary(BinOp::BitOr)),
        Sign::AndAnd => Some(Infix::And),
        Sign::OrOr => Some(Infix::Or),
        _ => None,
    }
}

// The operator between two operands; with `no_in`, `in` is none.
fn infix(sign: Sign, no_in: bool) -> Option<Infix>
    ensures { result ≡ infix_of sign no_in }
{
    match sign {
        Sign::In => {
            if no_in {
                None
            } else {
                Some(Infix::Binary(BinOp::In))
            }
        }
        _ => infix_without_in(sign),
    }
}

/// How loosely the operator binds, from 0 for `*` to 9 for `||`.
pub fn level(operator: Infix) -> u32
    ensures value { result ≡ level_of operator }
    ensures small { result < 10 }
{
    match operator {
        Infix::Binary(BinOp::Mul | BinOp::Div | BinOp::Rem) => 0,
        Infix::Binary(BinOp::Add | BinOp::Sub) => 1,
        Infix::Binary(BinOp::ShiftLeft | BinOp::ShiftRight | BinOp::ShiftRightZero) => 2,
        Infix::Binary(
            BinOp::Less
            | BinOp::Greater
            | BinOp::LessEqual
            | BinOp::GreaterEqual
            | BinOp::InstanceOf
            | BinOp::In,
        ) => 3,
        Infix::Binary(BinOp::Equal | BinOp::NotEqual | BinOp::Same | BinOp::NotSame) => 4,
        Infix::Binary(BinOp::BitAnd) => 5,
        Infix::Binary(BinOp::BitXor) => 6,
        Infix::Binary(BinOp::BitOr) => 7,
        Infix::And => 8,
        Infix::Or => 9,
    }
}

/// The operator, where it binds tighter than the limit.
pub fn infix_below(sign: Sign, no_in: bool, limit: u32) -> Option<Infix>
    ensures { MatchOption result
        ((o : Infix) → infix_of sign no_in ≡ Some o → limit ≤ level_of o)
        (λ o. (infix_of sign no_in ≡ Some o) × (level_of o < limit)) }
{
    let operator = infix(sign, no_in)?;
    if level(operator) < limit {
        Some(operator)
    } else {
        None
    }
}
