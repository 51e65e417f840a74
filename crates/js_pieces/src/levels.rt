//! How tight the forms of an expression bind, from the loosest.
ghost use Rattle.std.specs.Prelude.{◌≡◌, ◌≤◌};
ghost use Rattle.js_tree.specs.Forest.{Forest, plain_form};
ghost use Rattle.js_pieces.specs.Spelling.{word_bytes, unary_bytes, binary_bytes, assign_bytes};
ghost use Rattle.js_pieces.specs.Tidy.{operator_level, step_level, binary_level, level_of, is_opening, is_enclosed};

use js_tree::{AssignOp, BinOp, Expr, StepOp, UnOp, Word};

/// Below every level that is asked for, so that an operator `in` has parentheses everywhere.
pub const LOOSE: u8 = 0;
/// A whole expression: `a, b`.
pub const WHOLE: u8 = 1;
/// `a = b` and `a ? b : c`.
pub const ASSIGNMENT: u8 = 2;
/// `a || b`.
pub const OR: u8 = 3;
/// `a && b`.
pub const AND: u8 = 4;
/// `a | b`.
pub const BIT_OR: u8 = 5;
/// `a ^ b`.
pub const BIT_XOR: u8 = 6;
/// `a & b`.
pub const BIT_AND: u8 = 7;
/// `a == b` and its kin.
pub const EQUALITY: u8 = 8;
/// `a < b` and its kin.
pub const RELATION: u8 = 9;
/// `a << b` and its kin.
pub const SHIFT: u8 = 10;
/// `a + b` and `a - b`.
pub const SUM: u8 = 11;
/// `a * b`, `a / b` and `a % b`.
pub const PRODUCT: u8 = 12;
/// `-a` and its kin, and `++a`.
pub const UNARY: u8 = 13;
/// `a++` and `a--`.
pub const STEP: u8 = 14;
/// `a.b`, `a[b]`, `a(b)` and `new a(b)`.
pub const CHAIN: u8 = 15;
/// A name, a literal, or parentheses.
pub const PRIMARY: u8 = 16;

/// How tight an operator binds its operands.
pub fn operator_level(op: BinOp) -> u8
    ensures level { result ≡ operator_level op }
    ensures most { result ≤ PRODUCT }
{
    match op {
        BinOp::Mul | BinOp::Div | BinOp::Rem => PRODUCT,
        BinOp::Add | BinOp::Sub => SUM,
        BinOp::ShiftLeft | BinOp::ShiftRight | BinOp::ShiftRightZero => SHIFT,
        BinOp::Less
        | BinOp::Greater
        | BinOp::LessEqual
        | BinOp::GreaterEqual
        | BinOp::InstanceOf
        | BinOp::In => RELATION,
        BinOp::Equal | BinOp::NotEqual | BinOp::Same | BinOp::NotSame => EQUALITY,
        BinOp::BitAnd => BIT_AND,
        BinOp::BitXor => BIT_XOR,
        BinOp::BitOr => BIT_OR,
    }
}

fn step_level(op: StepOp) -> u8
    ensures { result ≡ step_level op }
{
    match op {
        StepOp::PreInc | StepOp::PreDec => UNARY,
        StepOp::PostInc | StepOp::PostDec => STEP,
    }
}

fn binary_level(op: BinOp) -> u8
    ensures { result ≡ binary_level op }
{
    match op {
        BinOp::In => LOOSE,
        _ => operator_level(op),
    }
}

fn level_of(node: &Expr) -> u8
    ensures { (f : Forest) → result ≡ level_of (plain_form f node.now) }
{
    match node {
        Expr::Dot(_, _) | Expr::Sub(_, _) | Expr::Call(_, _) | Expr::New(_, _) => CHAIN,
        Expr::Step(op, _) => step_level(*op),
        Expr::Unary(_, _) => UNARY,
        Expr::Binary(op, _, _) => binary_level(*op),
        Expr::And(_, _) => AND,
        Expr::Or(_, _) => OR,
        Expr::Cond(_, _, _) | Expr::Assign(_, _, _) => ASSIGNMENT,
        Expr::Comma(_, _) => WHOLE,
        _ => PRIMARY,
    }
}

fn is_opening(node: &Expr) -> bool
    ensures { (f : Forest) → result ≡ is_opening (plain_form f node.now) }
{
    matches!(node, Expr::Object(_) | Expr::Function(_))
}

/// Whether parentheses stand round an expression where this level is asked for, or a statement
/// begins.
pub fn is_enclosed(node: &Expr, level: u8, first: bool) -> bool
    ensures { (f : Forest) → result ≡ is_enclosed first level (plain_form f node.now) }
{
    level_of(node) < level || first && is_opening(node)
}

/// A reserved word.
pub fn word_text(word: Word) -> &'static str
    ensures { result.now ≡ word_bytes word }
{
    match word {
        Word::This => "this",
        Word::Null => "null",
        Word::True => "true",
        Word::False => "false",
    }
}

/// A prefix operator.
pub fn unary_text(op: UnOp) -> &'static str
    ensures { result.now ≡ unary_bytes op }
{
    match op {
        UnOp::Delete => "delete",
        UnOp::Void => "void",
        UnOp::TypeOf => "typeof",
        UnOp::Plus => "+",
        UnOp::Minus => "-",
        UnOp::BitNot => "~",
        UnOp::Not => "!",
    }
}

/// An operator between two operands.
pub fn binary_text(op: BinOp) -> &'static str
    ensures { result.now ≡ binary_bytes op }
{
    match op {
        BinOp::Mul => "*",
        BinOp::Div => "/",
        BinOp::Rem => "%",
        BinOp::Add => "+",
        BinOp::Sub => "-",
        BinOp::ShiftLeft => "<<",
        BinOp::ShiftRight => ">>",
        BinOp::ShiftRightZero => ">>>",
        BinOp::Less => "<",
        BinOp::Greater => ">",
        BinOp::LessEqual => "<=",
        BinOp::GreaterEqual => ">=",
        BinOp::InstanceOf => "instanceof",
        BinOp::In => "in",
        BinOp::Equal => "==",
        BinOp::NotEqual => "!=",
        BinOp::Same => "===",
        BinOp::NotSame => "!==",
        BinOp::BitAnd => "&",
        BinOp::BitXor => "^",
        BinOp::BitOr => "|",
    }
}

/// An assignment operator.
pub fn assign_text(op: AssignOp) -> &'static str
    ensures { result.now ≡ assign_bytes op }
{
    match op {
        AssignOp::Assign => "=",
        AssignOp::Add => "+=",
        AssignOp::Sub => "-=",
        AssignOp::Mul => "*=",
        AssignOp::Div => "/=",
        AssignOp::Rem => "%=",
        AssignOp::ShiftLeft => "<<=",
        AssignOp::ShiftRight => ">>=",
        AssignOp::ShiftRightZero => ">>>=",
        AssignOp::BitAnd => "&=",
        AssignOp::BitOr => "|=",
        AssignOp::BitXor => "^=",
    }
}
