//! Frames: the places at which the meaning waits for a part.

use crate::job::{Args, Block, Completion, Place, Reference};
use code_units::Text;
use js_tree::{AssignOp, BinOp, ExprId, StepOp, StmtId, UnOp};
use object_store::{CellId, Value};

/// A place at which the meaning waits for a part.
#[derive(Drop)]
pub enum Frame {
    Form(FormFrame),
    Statement(StatementFrame),
    Call(CallFrame),
}

/// Of an expression or a target.
#[derive(Drop)]
pub enum FormFrame {
    /// After the base of a property, and after the base of one as a target.
    Dot(Text),
    TargetDot(Text),
    /// After the base of a subscript, which is next, and after the subscript of this base.
    SubBase(ExprId, Place),
    Sub(Value),
    TargetSubBase(ExprId, Place),
    TargetSub(Value),
    /// After an expression that stands where a target may be.
    Found,
    /// After an element of an array literal, by its index, and after a property of an object literal.
    Element(CellId, ExprId, usize, Place),
    Property(CellId, ExprId, usize, Place),
    /// After the left operand, with the right; after the right one, with the left.
    Right(BinOp, ExprId, Place),
    Operate(BinOp, Value, u32),
    /// After the conversion of the left operand, with the right; after that of the right one.
    ConvertedLeft(BinOp, Value, u32),
    ConvertedRight(BinOp, Value),
    /// After the operand of a prefix operator, and after its conversion.
    Prefix(UnOp, Place),
    ConvertedPrefix(UnOp),
    /// After the target of `delete`.
    Delete,
    /// After the target of a step, and after the conversion of what it has.
    StepTarget(StepOp, Place),
    StepConverted(StepOp, Box<Reference>, Place),
    /// After the target of an assignment, with its right side; after that, with what the target has;
    /// after what the assignment computes.
    AssignTarget(AssignOp, ExprId, Place),
    AssignWith(Box<Assigning>),
    Write(Reference, Place),
    /// After the left of `&&` and of `||`, with the right, and after the condition of `? :`.
    And(ExprId, Place),
    Or(ExprId, Place),
    Choose(ExprId, ExprId, Place),
}

/// Of a statement.
#[derive(Drop)]
pub enum StatementFrame {
    /// After a statement of a block: those from a number on.
    Seq(Block, usize, Place),
    /// After an expression as a statement.
    Only,
    /// After the first value of a declaration of `var`, by its number.
    Declared(StmtId, usize, Place),
    /// After an expression of the first part of a `for`, and of its last part: those from a number on.
    First(StmtId, usize, Place),
    Last(StmtId, usize, Place),
    /// After the condition of an `if`.
    Branch(StmtId, Place),
    /// After the test of a loop, and after its body.
    Test(StmtId, Place),
    LoopNext(StmtId, Place),
    /// After the first part or the last part of a `for`.
    ForAgain(StmtId, Place),
    /// After the object of a `for-in`, and after its body: the names from the place of its list on.
    ForInOver(StmtId, Place),
    ForInNext(Box<ForInNames>, Place),
    /// After the values of `return` and `throw`.
    ToReturn,
    ToThrow,
    /// After the value of a `switch`, after the test of its clause with a number, and after its end.
    Switch(StmtId, Place),
    Case(Value, StmtId, usize, Place),
    SwitchEnd,
    /// After the block of a `try`, after that and its `catch`, and after its `finally`.
    Caught(StmtId, Place),
    Finally(StmtId, Place),
    LastEnd(Box<Completion>),
}

/// Of a call, a conversion or a native.
#[derive(Drop)]
pub enum CallFrame {
    /// After the target of a call, and after an argument.
    Callee(ExprId, Place),
    Argument(Box<Argument>),
    /// After the body of a function.
    CallEnd,
    /// After a value that is converted, by a caller at a depth, and after the call of its `toString`.
    ToPrimitive(u32),
    Primitive,
    /// After the conversion of an object whose text is made, and after the charge for its units.
    TextOf,
    MakeText(Text),
    /// After a call of a function with one of these items.
    Each(Box<Calling>),
    Gather(Box<Gathering>),
}

/// An assignment that computes, whose right side is evaluated, with what its target has.
#[derive(Drop)]
pub struct Assigning {
    pub op: AssignOp,
    pub of: Reference,
    pub has: Value,
    pub place: Place,
}

/// A call whose arguments are evaluated: those that are there, and those from a number on.
#[derive(Drop)]
pub struct Argument {
    pub of: Reference,
    pub args: Args,
    pub call: ExprId,
    pub next: usize,
    pub place: Place,
}

/// The names of the object of a `for-in`, and the place among them.
#[derive(Drop)]
pub struct ForInNames {
    pub object: Value,
    pub names: Vec<Text>,
    pub at: usize,
    pub id: StmtId,
}

/// A function that is called with each item from a number on; then the result is `last`.
#[derive(Drop)]
pub struct Calling {
    pub func: CellId,
    pub items: Vec<Value>,
    pub next: usize,
    pub last: Value,
    pub depth: u32,
}

/// A function that is called with each item and its index, with the results so far.
#[derive(Drop)]
pub struct Gathering {
    pub func: CellId,
    pub items: Vec<Value>,
    pub results: Vec<Value>,
    pub keep: Keep,
    pub depth: u32,
}

/// What is kept of calls: of `forEach` nothing, of `map` the results, of `filter` the items with a true result.
#[derive(Clone, Copy, PartialEq, Eq, Drop)]
pub enum Keep {
    Nothing,
    Results,
    Passing,
}
