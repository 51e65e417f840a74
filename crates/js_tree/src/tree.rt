//! The tree: nodes refer to older nodes by their numbers.
ghost use Rattle.std.specs.Prelude.{◌≡◌, ◌<◌, ◌^◌, length, All, MatchResult, IfOk};
ghost use Rattle.js_tree.specs.Plain.{NoStmts, expr_place, stmt_place, expr_names, stmt_names, fun_names};
ghost use Rattle.js_tree.specs.Forest.{no_trees, IsExpr, IsStmt, IsFun, expr_at, stmt_at, fun_at, stmts_at, plain_expr, plain_stmt, plain_fun, AreExprParts, AreStmtParts, AreFunParts, AddsExpr, AddsStmt, AddsFun};
ghost use Rattle.js_tree.specs.Arena.{names_of, IsWithin, IsArena};

use crate::nodes::{Expr, ExprId, Fun, FunId, Stmt, StmtId};
use code_units::Memory;
use std::alloc::Global;

// Where the places of a node's own names stand in the list of the tree.
#[derive(Clone, Copy, Drop)]
struct Span {
    from: usize,
    to: usize,
}

#[derive(Drop)]
struct ExprEntry {
    node: Expr,
    at: usize,
    names: Span,
}

#[derive(Drop)]
struct StmtEntry {
    node: Stmt,
    at: usize,
    names: Span,
}

// A function has its place itself.
#[derive(Drop)]
struct FunEntry {
    node: Fun,
    names: Span,
}

#[derive(Clone, Copy, Drop)]
enum Kind {
    Expr,
    Stmt,
    Fun,
}

/// The parse tree of a text: expressions, statements and functions under numbers of their kind.
#[derive(Drop)]
pub struct Tree {
    exprs: Vec<ExprEntry>,
    stmts: Vec<StmtEntry>,
    funs: Vec<FunEntry>,
    // the kinds of all nodes in the order of birth, by which each part is older than its node
    births: Vec<Kind>,
    // the places of the own names of all nodes
    names: Vec<usize>,
    program: Vec<StmtId>,
    ghost arena: { IsArena names.items births.items exprs.items stmts.items funs.items program.items },
}

impl Tree {
    ghost use Rattle.js_tree.specs.Trees.{trees, program_of};

    /// A tree without nodes, which keeps the allocator.
    pub fn new(alloc: Global) -> Tree
        ensures nodes { trees result ≡ no_trees }
        ensures program { program_of result ≡ NoStmts }
    {
        Tree {
            exprs: Vec::new(alloc),
            stmts: Vec::new(alloc),
            funs: Vec::new(alloc),
            births: Vec::new(alloc),
            names: Vec::new(alloc),
            program: Vec::new(alloc),
        }
    }

    /// Sets the program, whose statements are in the tree.
    pub fn set_program(&mut self, list: Vec<StmtId>)
        requires { All (IsStmt (trees self.old)) list.items }
        ensures program { program_of self.new ≡ stmts_at (trees self.old) list.items }
        ensures nodes { trees self.new ≡ trees self.old }
    {
        self.program = list;
    }

    /// Adds an expression with its place and the places of its own names. It gets the next number
    /// of an expression.
    pub fn add_expr(&mut self, node: Expr, at: usize, names: Vec<usize>) -> Result<ExprId, Memory>
        requires parts { AreExprParts (trees self.old) node }
        requires room { length (trees self.old).exprs < 2 ^ 31 }
        ensures added { MatchResult result
            (λ id. AddsExpr (trees self.old) (trees self.new) (plain_expr (trees self.old) node at names.items) id)
            (λ _. trees self.new ≡ trees self.old) }
        ensures program { program_of self.new ≡ program_of self.old }
    {
        let id = self.exprs.len() as u32;
        let names = self.add_names(&names)?;
        self.births.push(Kind::Expr)?;
        match self.exprs.push(ExprEntry { node, at, names }) {
            Ok(()) => Ok(ExprId(id)),
            Err(e) => {
                let _ = self.births.pop();
                Err(Memory::from(e))
            }
        }
    }

    /// Adds a statement with its place and the places of its own names. It gets the next number of
    /// a statement.
    pub fn add_stmt(&mut self, node: Stmt, at: usize, names: Vec<usize>) -> Result<StmtId, Memory>
        requires parts { AreStmtParts (trees self.old) node }
        requires room { length (trees self.old).stmts < 2 ^ 31 }
        ensures added { MatchResult result
            (λ id. AddsStmt (trees self.old) (trees self.new) (plain_stmt (trees self.old) node at names.items) id)
            (λ _. trees self.new ≡ trees self.old) }
        ensures program { program_of self.new ≡ program_of self.old }
    {
        let id = self.stmts.len() as u32;
        let names = self.add_names(&names)?;
        self.births.push(Kind::Stmt)?;
        match self.stmts.push(StmtEntry { node, at, names }) {
            Ok(()) => Ok(StmtId(id)),
            Err(e) => {
                let _ = self.births.pop();
                Err(Memory::from(e))
            }
        }
    }

    /// Adds a function with the places of its name and its parameters. It gets the next number of
    /// a function.
    pub fn add_fun(&mut self, node: Fun, names: Vec<usize>) -> Result<FunId, Memory>
        requires parts { AreFunParts (trees self.old) node }
        requires room { length (trees self.old).funs < 2 ^ 31 }
        ensures added { MatchResult result
            (λ id. AddsFun (trees self.old) (trees self.new) (plain_fun (trees self.old) node names.items) id)
            (λ _. trees self.new ≡ trees self.old) }
        ensures program { program_of self.new ≡ program_of self.old }
    {
        let id = self.funs.len() as u32;
        let names = self.add_names(&names)?;
        self.births.push(Kind::Fun)?;
        match self.funs.push(FunEntry { node, names }) {
            Ok(()) => Ok(FunId(id)),
            Err(e) => {
                let _ = self.births.pop();
                Err(Memory::from(e))
            }
        }
    }

    // Adds the places of the own names of the next node.
    fn add_names(&mut self, names: &[usize]) -> Result<Span, Memory>
        ensures added { IfOk result (λ span. names_of self.new.names.items span ≡ names.now) }
        ensures within { IfOk result (IsWithin self.new.names.items) }
        ensures nodes { trees self.new ≡ trees self.old }
        ensures program { program_of self.new ≡ program_of self.old }
    {
        let from = self.names.len();
        self.names.extend_from_slice(names)?;
        let to = self.names.len();
        Ok(Span { from, to })
    }

    fn names_in(&self, span: Span) -> &[usize]
        requires { IsWithin self.now.names.items span }
        ensures { result.now ≡ names_of self.now.names.items span }
    {
        &self.names[span.from..span.to]
    }

    /// The expression with a number of the tree.
    pub fn expr(&self, id: ExprId) -> &Expr
        requires { IsExpr (trees self.now) id }
        ensures same { let e = expr_at (trees self.now) id in
            plain_expr (trees self.now) result.now (expr_place e) (expr_names e) ≡ e }
        ensures parts { AreExprParts (trees self.now) result.now }
    {
        &self.exprs[id.0 as usize].node
    }

    /// The place of an expression: the byte at which its first token begins.
    pub fn expr_at(&self, id: ExprId) -> usize
        requires { IsExpr (trees self.now) id }
        ensures { result ≡ expr_place (expr_at (trees self.now) id) }
    {
        self.exprs[id.0 as usize].at
    }

    /// The places of an expression's own names, in the order of the text.
    pub fn expr_names(&self, id: ExprId) -> &[usize]
        requires { IsExpr (trees self.now) id }
        ensures { result.now ≡ expr_names (expr_at (trees self.now) id) }
    {
        self.names_in(self.exprs[id.0 as usize].names)
    }

    /// The statement with a number of the tree.
    pub fn stmt(&self, id: StmtId) -> &Stmt
        requires { IsStmt (trees self.now) id }
        ensures same { let s = stmt_at (trees self.now) id in
            plain_stmt (trees self.now) result.now (stmt_place s) (stmt_names s) ≡ s }
        ensures parts { AreStmtParts (trees self.now) result.now }
    {
        &self.stmts[id.0 as usize].node
    }

    /// The place of a statement: the byte at which its first token begins.
    pub fn stmt_at(&self, id: StmtId) -> usize
        requires { IsStmt (trees self.now) id }
        ensures { result ≡ stmt_place (stmt_at (trees self.now) id) }
    {
        self.stmts[id.0 as usize].at
    }

    /// The places of a statement's own names, in the order of the text.
    pub fn stmt_names(&self, id: StmtId) -> &[usize]
        requires { IsStmt (trees self.now) id }
        ensures { result.now ≡ stmt_names (stmt_at (trees self.now) id) }
    {
        self.names_in(self.stmts[id.0 as usize].names)
    }

    /// The function with a number of the tree.
    pub fn fun(&self, id: FunId) -> &Fun
        requires { IsFun (trees self.now) id }
        ensures same { let g = fun_at (trees self.now) id in
            plain_fun (trees self.now) result.now (fun_names g) ≡ g }
        ensures parts { AreFunParts (trees self.now) result.now }
    {
        &self.funs[id.0 as usize].node
    }

    /// The places of a function's own name, where it has one, and of its parameters.
    pub fn fun_names(&self, id: FunId) -> &[usize]
        requires { IsFun (trees self.now) id }
        ensures { result.now ≡ fun_names (fun_at (trees self.now) id) }
    {
        self.names_in(self.funs[id.0 as usize].names)
    }

    /// The statements of the program.
    pub fn program(&self) -> &[StmtId]
        ensures same { stmts_at (trees self.now) result.now ≡ program_of self.now }
        ensures parts { All (IsStmt (trees self.now)) result.now }
    {
        self.program.as_slice()
    }
}
