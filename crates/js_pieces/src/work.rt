//! What has still to be printed: pieces on a stack, the next one on top.
ghost use Rattle.std.specs.Prelude.{OnOk, if◌then◌else◌, [], ◌∷◌, codes};
ghost use Rattle.js_tree.specs.Forest.{Forest};
ghost use Rattle.js_pieces.specs.Tidy.{flat, mark};
ghost use Rattle.js_pieces.specs.Costs.{enclosed_cost};
ghost use Rattle.js_pieces.specs.Todo.{inner_cost, row_cost, work_tokens, IsWork, row, AreWork, Pushes};

use code_units::{Memory, Text};
use js_tree::{Clause, Decl, ExprId, ForInit, FunId, StmtId};

/// A piece of the text that is to come. The `bool` of a list says whether some of it stood before,
/// so that a comma comes first.
#[derive(Clone, Copy)]
pub enum Work<'t> {
    /// A mark or a word, as `(` or `while`.
    Mark(&'t str),
    /// A name or a number.
    Name(&'t Text),
    /// A string in its quotes.
    Quoted(&'t Text),
    /// An expression: the level that is asked for, and whether a statement begins with it.
    Expr(ExprId, u8, bool),
    /// An expression in parentheses: `(a)`.
    Head(ExprId),
    /// Statements in braces: `{a; b;}`.
    Block(&'t [StmtId]),
    /// A statement.
    Stmt(StmtId),
    /// A function: `function f(a) {..}`.
    Fun(FunId),
    /// Expressions: `a, b`.
    Exprs(&'t [ExprId], bool),
    /// Keys and values: `"a": b, "c": d`.
    Properties(&'t [(Text, ExprId)], bool),
    /// Declared variables: `a = b, c`.
    Decls(&'t [Decl], bool),
    /// Parameters: `a, b`.
    Names(&'t [Text], bool),
    /// Statements: `a; b;`.
    Stmts(&'t [StmtId]),
    /// Function declarations: `function f() {..} function g() {..}`.
    Funs(&'t [FunId]),
    /// The clauses of a `switch`: `case a: b; default: c;`.
    Clauses(&'t [Clause]),
    /// An `else` part, where there is one: `else {a;}`, or `else if (a) {b;}`.
    Else(&'t [StmtId]),
    /// The first part of a `for`: `var a = b`, or `a, b`.
    Init(&'t ForInit),
    /// An expression, where there is one: `a`.
    Optional(Option<ExprId>),
    /// The value of a declared variable, where it has one: `= a`.
    Value(Option<ExprId>),
    /// The front of a clause: `case a`, or `default`.
    Test(Option<ExprId>),
    /// `var`, where the variable of a `for-in` is declared there.
    Declared(bool),
    /// A name, where there is one, as in `break a`.
    Label(&'t Option<Text>),
    /// A `catch` part, where there is one: `catch (a) {b;}`.
    Catch(&'t Option<(Text, Vec<StmtId>)>),
    /// A `finally` part, where there is one: `finally {a;}`.
    Last(&'t Option<Vec<StmtId>>),
}

/// Pieces in the order of the text.
pub fn push_all<'t>(work: &mut Vec<Work<'t>>, pieces: &[Work<'t>]) -> Result<(), Memory>
    ensures { (f : Forest) → AreWork f pieces.now →
        OnOk result (Pushes f (row f pieces.now) (row_cost f pieces.now) work.old.items work.new.items) }
{
    let mut left = pieces.len();
    'pieces: while left > 0 {
        left -= 1;
        work.push(pieces[left])?;
    }
    Ok(())
}

/// A comma, where some of a list stood before.
pub fn push_comma(begun: bool, work: &mut Vec<Work>) -> Result<(), Memory>
    ensures { (f : Forest) → OnOk result (Pushes f (if begun then codes "," ∷ [] else []) 2 work.old.items
        work.new.items) }
{
    if begun {
        return push_all(work, &[Work::Mark(",")]);
    }
    Ok(())
}

/// A piece between two marks.
pub fn push_inside<'t>(
    before: &'t str,
    piece: Work<'t>,
    after: &'t str,
    work: &mut Vec<Work<'t>>,
) -> Result<(), Memory>
    ensures { (f : Forest) → IsWork f piece.entry →
        OnOk result (Pushes f (flat (mark before.now ∷ work_tokens f piece.entry ∷ mark after.now ∷ []))
        (enclosed_cost (inner_cost f piece.entry)) work.old.items work.new.items) }
{
    push_all(work, &[Work::Mark(before), piece, Work::Mark(after)])
}
