//! The nodes of the tree, whose parts are named by number.
use crate::numerals::Numeral;
use code_units::Text;

/// The number of an expression.
#[derive(Clone, Copy, PartialEq, Eq, Drop)]
pub struct ExprId(pub u32);

/// The number of a statement.
#[derive(Clone, Copy, PartialEq, Eq, Drop)]
pub struct StmtId(pub u32);

/// The number of a function.
#[derive(Clone, Copy, PartialEq, Eq, Drop)]
pub struct FunId(pub u32);

/// A reserved word that is an expression.
#[derive(Clone, Copy, PartialEq, Eq, Drop)]
pub enum Word {
    This,
    Null,
    True,
    False,
}

/// An operator that steps a variable.
#[derive(Clone, Copy, PartialEq, Eq, Drop)]
pub enum StepOp {
    PreInc,
    PreDec,
    PostInc,
    PostDec,
}

/// A prefix operator: `delete void typeof + - ~ !`.
#[derive(Clone, Copy, PartialEq, Eq, Drop)]
pub enum UnOp {
    Delete,
    Void,
    TypeOf,
    Plus,
    Minus,
    BitNot,
    Not,
}

/// An operator between two operands.
#[derive(Clone, Copy, PartialEq, Eq, Drop)]
pub enum BinOp {
    Mul,
    Div,
    Rem,
    Add,
    Sub,
    ShiftLeft,
    ShiftRight,
    ShiftRightZero,
    Less,
    Greater,
    LessEqual,
    GreaterEqual,
    InstanceOf,
    In,
    Equal,
    NotEqual,
    Same,
    NotSame,
    BitAnd,
    BitXor,
    BitOr,
}

/// An assignment operator.
#[derive(Clone, Copy, PartialEq, Eq, Drop)]
pub enum AssignOp {
    Assign,
    Add,
    Sub,
    Mul,
    Div,
    Rem,
    ShiftLeft,
    ShiftRight,
    ShiftRightZero,
    BitAnd,
    BitOr,
    BitXor,
}

/// An expression (ECMA-262 3rd edition, section 11).
#[derive(Drop)]
pub enum Expr {
    Num(Numeral),
    Str(Text),
    Name(Text),
    Word(Word),
    Array(Vec<ExprId>),
    Object(Vec<(Text, ExprId)>),
    Function(FunId),
    Dot(ExprId, Text),
    Sub(ExprId, ExprId),
    Call(ExprId, Vec<ExprId>),
    New(ExprId, Vec<ExprId>),
    Step(StepOp, ExprId),
    Unary(UnOp, ExprId),
    Binary(BinOp, ExprId, ExprId),
    And(ExprId, ExprId),
    Or(ExprId, ExprId),
    Cond(ExprId, ExprId, ExprId),
    Assign(AssignOp, ExprId, ExprId),
    Comma(ExprId, ExprId),
}

/// A declared variable, with the place of its name.
#[derive(Drop)]
pub struct Decl {
    pub name: Text,
    pub at: usize,
    pub init: Option<ExprId>,
}

/// The first part of a `for`.
#[derive(Drop)]
pub enum ForInit {
    Var(Vec<Decl>),
    List(Vec<ExprId>),
}

/// A clause of a `switch`; `default` has no test.
#[derive(Drop)]
pub struct Clause {
    pub test: Option<ExprId>,
    pub body: Vec<StmtId>,
}

/// A statement (ECMA-262 3rd edition, section 12).
#[derive(Drop)]
pub enum Stmt {
    Var(Vec<Decl>),
    Expr(ExprId),
    If(ExprId, Vec<StmtId>, Vec<StmtId>),
    While(ExprId, Vec<StmtId>),
    DoWhile(ExprId, Vec<StmtId>),
    For(ForInit, Option<ExprId>, Vec<ExprId>, Vec<StmtId>),
    ForIn(bool, Text, ExprId, Vec<StmtId>),
    Continue(Option<Text>),
    Break(Option<Text>),
    Return(Option<ExprId>),
    Throw(ExprId),
    With(ExprId, Vec<StmtId>),
    Switch(ExprId, Vec<Clause>),
    Try(Vec<StmtId>, Option<(Text, Vec<StmtId>)>, Option<Vec<StmtId>>),
    Label(Text, StmtId),
}

/// A function (ECMA-262 3rd edition, section 13), with the place of its first token.
#[derive(Drop)]
pub struct Fun {
    pub name: Option<Text>,
    pub params: Vec<Text>,
    pub body: Vec<StmtId>,
    pub funs: Vec<FunId>,
    pub at: usize,
}

/// A name of the scope of a call (ECMA-262 3rd edition, 10.1.3), with the place of the argument that is its
/// first value.
#[derive(Drop)]
pub struct ScopeName {
    pub text: Text,
    pub argument: Option<usize>,
}

/// A node of any kind, by its number.
#[derive(Clone, Copy, PartialEq, Eq, Drop)]
pub enum Part {
    Expr(ExprId),
    Stmt(StmtId),
    Fun(FunId),
}
