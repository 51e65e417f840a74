//! Jobs, how they end, and what is next.

use crate::frame::ForInNames;
use code_units::Text;
use js_image::StopCause;
use js_tree::{ExprId, FunId, StmtId};
use object_store::{CellId, NativeId, Value};
use smallvec::SmallVec;

/// A list of arguments, of which four lie in place.
pub type Args = SmallVec<Value, 4>;

/// Where a form is evaluated: the number of its tree, its innermost scope, and the call depth.
#[derive(Clone, Copy, Drop)]
pub struct Place {
    pub code: u32,
    pub scope: Option<CellId>,
    pub depth: u32,
}

/// A list of statements, by the node that has it.
#[derive(Clone, Copy, Drop)]
pub enum Block {
    /// The two branches of an `if`.
    Then(StmtId),
    Else(StmtId),
    /// The body of a loop of any kind.
    Loop(StmtId),
    /// The parts of a `try`.
    Try(StmtId),
    Catch(StmtId),
    Finally(StmtId),
    /// The clauses of a `switch` from a number on, each falling through to the next.
    Clauses(StmtId, usize),
    /// The body of a function without its directive, and with it.
    Body(FunId),
    Whole(FunId),
}

/// A statement of a block, and where the statements after it are.
#[derive(Clone, Copy, Drop)]
pub struct Listed {
    pub id: StmtId,
    pub block: Block,
    pub next: usize,
}

/// What stands left of an assignment or before the arguments of a call.
#[derive(Drop)]
pub enum Reference {
    Variable(Text),
    Property(Value, Text),
    /// The property of a cell under the name of an index below 2^30, of which no text is made.
    Element(CellId, u32),
    Found(Value),
}

/// How a form ends: an expression by a value or a throw, a target by a reference.
#[derive(Drop)]
pub enum Completion {
    Normal,
    Is(Value),
    Refers(Reference),
    Return(Value),
    Break,
    Continue,
    Throw(Value),
}

/// A call that a conversion, a native or the host makes, by a caller at a depth.
#[derive(Drop)]
pub struct Call {
    pub func: Value,
    pub this: Option<Value>,
    pub args: Args,
    pub depth: u32,
}

/// A native with its receiver, which a plain call has none of, by a caller at a depth.
#[derive(Drop)]
pub struct NativeCall {
    pub which: NativeId,
    pub this: Option<Value>,
    pub args: Args,
    pub depth: u32,
}

/// What costs one unit before it begins.
#[derive(Drop)]
pub enum Job {
    Eval(ExprId, Place),
    Target(ExprId, Place),
    Exec(StmtId, Place),
    /// A pass of a `while`, a `do` or a `for`.
    Pass(StmtId, Place),
    /// A pass of a `for-in`, with the name at the place of its list.
    PassIn(Box<ForInNames>, Place),
    Call(Box<Call>),
    RunNative(Box<NativeCall>),
}

/// What is next, as a form leaves it. What waits for it are the frames that the form put on a `Flow`.
#[derive(Drop)]
pub enum Next {
    /// No form left anything yet.
    Nothing,
    Go(Job),
    /// A job that has its unit.
    Begin(Job),
    /// The statements of a block.
    Run(Block, Place),
    /// How the form ended.
    Give(Completion),
    /// A charge, after which what waits goes on.
    Pay(usize),
    /// A native, which has its unit.
    Native(Box<NativeCall>),
    Stop(StopCause),
    /// How the last form ended: no frame is left.
    Done(Completion),
}
