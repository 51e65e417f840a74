//! What the rules ask of the form of one node.
ghost use Rattle.std.specs.Prelude.{◌≡◌, not};
ghost use Rattle.js_tree.specs.Forest.{Forest, plain_form, plain_stmt_form};
ghost use Rattle.node_rules.specs.Forms.{is_this, is_adsafe, is_with, is_loose_equality, is_bitwise, is_typed, is_dropping, is_wrong_number};
ghost use Rattle.node_rules.specs.Binding.{stmt_jumps, is_stray};

use crate::enclosing::Jumps;
use crate::numbers::is_refused_number;
use crate::words::is_word;
use js_tree::{AssignOp, BinOp, Expr, Stmt, UnOp, Word};

/// `this`.
pub fn is_this(node: &Expr) -> bool
    ensures { (f : Forest) → result ≡ is_this (plain_form f node.now) }
{
    matches!(node, Expr::Word(Word::This))
}

/// The name `ADSAFE`.
pub fn is_adsafe(node: &Expr) -> bool
    ensures { (f : Forest) → result ≡ is_adsafe (plain_form f node.now) }
{
    match node {
        Expr::Name(name) => is_word(name, b"ADSAFE"),
        _ => false,
    }
}

/// `==` or `!=`.
pub fn is_loose_equality(node: &Expr) -> bool
    ensures { (f : Forest) → result ≡ is_loose_equality (plain_form f node.now) }
{
    matches!(node, Expr::Binary(BinOp::Equal | BinOp::NotEqual, _, _))
}

/// A bitwise operator, a shift, or an assignment with one.
pub fn is_bitwise(node: &Expr) -> bool
    ensures { (f : Forest) → result ≡ is_bitwise (plain_form f node.now) }
{
    match node {
        Expr::Unary(op, _) => matches!(op, UnOp::BitNot),
        Expr::Binary(op, _, _) => matches!(
            op,
            BinOp::ShiftLeft
                | BinOp::ShiftRight
                | BinOp::ShiftRightZero
                | BinOp::BitAnd
                | BinOp::BitXor
                | BinOp::BitOr
        ),
        Expr::Assign(op, _, _) => matches!(
            op,
            AssignOp::ShiftLeft
                | AssignOp::ShiftRight
                | AssignOp::ShiftRightZero
                | AssignOp::BitAnd
                | AssignOp::BitXor
                | AssignOp::BitOr
        ),
        _ => false,
    }
}

/// `new`, `instanceof` or the operator `in`.
pub fn is_typed(node: &Expr) -> bool
    ensures { (f : Forest) → result ≡ is_typed (plain_form f node.now) }
{
    matches!(
        node,
        Expr::New(_, _) | Expr::Binary(BinOp::InstanceOf | BinOp::In, _, _)
    )
}

/// `void` or a comma operator.
pub fn is_dropping(node: &Expr) -> bool
    ensures { (f : Forest) → result ≡ is_dropping (plain_form f node.now) }
{
    matches!(node, Expr::Unary(UnOp::Void, _) | Expr::Comma(_, _))
}

/// A number literal that is refused.
pub fn is_wrong_number(node: &Expr) -> bool
    ensures { (f : Forest) → result ≡ is_wrong_number (plain_form f node.now) }
{
    match node {
        Expr::Num(numeral) => is_refused_number(numeral.text()),
        _ => false,
    }
}

/// `with`.
pub fn is_with(node: &Stmt) -> bool
    ensures { (f : Forest) → result ≡ is_with (plain_stmt_form f node.now) }
{
    matches!(node, Stmt::With(_, _))
}

/// A label, a jump to one, or a jump that may not stand here.
pub fn is_stray(around: Jumps, node: &Stmt) -> bool
    ensures { (f : Forest) → result ≡ is_stray around (plain_stmt_form f node.now) }
{
    match node {
        Stmt::Label(_, _) | Stmt::Break(Some(_)) | Stmt::Continue(Some(_)) => true,
        Stmt::Break(None) => !around.breaks,
        Stmt::Continue(None) => !around.continues,
        _ => false,
    }
}

/// Which jumps may stand in the node.
pub fn stmt_jumps(around: Jumps, node: &Stmt) -> Jumps
    ensures { (f : Forest) → result ≡ stmt_jumps around (plain_stmt_form f node.now) }
{
    match node {
        Stmt::While(_, _) | Stmt::DoWhile(_, _) | Stmt::For(_, _, _, _) | Stmt::ForIn(_, _, _, _) =>
            Jumps {
                breaks: true,
                continues: true,
            },
        Stmt::Switch(_, _) => Jumps {
            breaks: true,
            continues: around.continues,
        },
        _ => around,
    }
}
