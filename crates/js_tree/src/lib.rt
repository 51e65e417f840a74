//! The parse tree: an arena of expressions, statements and functions.
#![tactic(auto)]

mod laws;
mod nodes;
mod numerals;
mod tree;

pub use laws::{lists_agree, parts_agree, parts_are_in, sizes_fall};
pub use nodes::{
    AssignOp, BinOp, Clause, Decl, Expr, ExprId, ForInit, Fun, FunId, Part, ScopeName, StepOp,
    Stmt, StmtId, UnOp, Word,
};
pub use numerals::Numeral;
pub use tree::Tree;
