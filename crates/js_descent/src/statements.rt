//! Statements: each function reads one row of the grammar (ECMA-262 3rd edition, sections 12 and 13).
//! Its contract says, for whatever is to come after the row, how the grammar's machine goes on.
ghost use Rattle.std.specs.Prelude.{◌≡◌, ◌≢◌, suc, ◌+◌, ◌<◌, ◌≤◌, ◌∷◌, length, MatchResult};
ghost use Rattle.js_tree.specs.Plain.{Expr as PlainExpr, Stmts, NoStmts, Funs, NoFuns, Decls, NoDecls};
ghost use Rattle.js_tree.specs.Trees.{trees};
ghost use Rattle.js_grammar.specs.Grammar.{Lexeme};
ghost use Rattle.js_grammar.specs.Machine.{Frame, Wants, FunOpen, InBody, Statement, InBlock, BlockAt, Test, AfterIf, VarName, VarTail, whole as whole_frames};
ghost use Rattle.js_grammar.specs.declared.Sign.TheVariants as sign;
ghost use Rattle.js_cursor.specs.Reads.{lexeme_at, Next, Refuses};
ghost use Rattle.js_cursor.specs.Named.{IsOwn, own_at, IsUnlabelled};
ghost use Rattle.js_descent.specs.Rows.{IsReady, ReadsOne, ReadsFun, ReadsDecl, ReadsBody};
ghost use Rattle.js_descent.specs.Walks.{OnlyAt, OnlyBlock, ends_list, ReadsMarked, ReadsStatements, ReadsBlock, ReadsElse, ReadsDecls, ReadsInit, BeginsOnly};

use crate::branches::{break_statement, continue_statement, try_statement};
use crate::expressions::{assignment, whole};
use crate::for_loops::for_statement;
use crate::switches::switch_statement;
use code_units::{Memory, Text};
use js_cursor::names::{Parameters, labels, name_place, name_text, params};
use js_cursor::refusal::Refusal;
use js_cursor::script::Script;
use js_cursor::steps::{add_named, add_statement, deeper, expect};
use js_grammar::Sign;
use js_tree::{Decl, ExprId, Fun, FunId, Stmt, StmtId, Tree};

// No statement begins with the sign: a block ends, a clause, or the text.
fn ends_list(sign: Sign) -> bool
    ensures { result ≡ ends_list sign }
{
    matches!(
        sign,
        Sign::CloseBrace | Sign::Case | Sign::Default | Sign::End
    )
}

/// An expression, and the mark after it.
#[cycle(parser)]
pub fn marked(
    script: &Script,
    tree: &mut Tree,
    at: usize,
    depth: u32,
    mark: Sign,
) -> Result<(ExprId, usize), Refusal>
    requires ready { IsReady script.now at depth (trees tree.old) }
    requires no_end { mark ≢ sign.End }
    ensures { MatchResult result
        (λ x. ReadsMarked mark (λ k. Wants (whole_frames depth k))
        script.now at (trees tree.old) (trees tree.new) x.0 x.1)
        (λ e. (f : Frame) → OnlyAt mark f → Refuses (λ k. Wants (whole_frames depth (f ∷ k))) script.now at e) }
{
    let (id, last) = whole(script, tree, at, depth)?;
    let next = expect(script, last, mark)?;
    Ok((id, next))
}

/// An expression in brackets.
#[cycle(parser)]
pub fn test(
    script: &Script,
    tree: &mut Tree,
    at: usize,
    depth: u32,
) -> Result<(ExprId, usize), Refusal>
    requires { IsReady script.now at depth (trees tree.old) }
    ensures { MatchResult result
        (λ x. (suc depth ≤ 200) × ReadsMarked sign.Close (λ k. Wants (Test depth ∷ k)) script.now at
        (trees tree.old) (trees tree.new) x.0 x.1)
        (λ e. (f : Frame) → OnlyAt sign.Close f → Refuses (λ k. Wants (Test depth ∷ f ∷ k)) script.now at e) }
{
    let first = expect(script, at, Sign::Open)?;
    let inner = deeper(depth, at)?;
    marked(script, tree, first, inner, Sign::Close)
}

/// Statements, up to what ends them.
#[cycle(parser)]
pub fn statements(
    script: &Script,
    tree: &mut Tree,
    at: usize,
    depth: u32,
) -> Result<(Vec<StmtId>, usize), Refusal>
    requires { IsReady script.now at depth (trees tree.old) }
    ensures { MatchResult result
        (λ x. ReadsStatements depth script.now at (trees tree.old) (trees tree.new) x.0.items x.1)
        (λ e. Refuses (λ k. Wants (InBlock depth NoStmts ∷ k)) script.now at e) }
{
    let mut list = Vec::new(script.alloc());
    let mut place = at;
    'list: loop {
        if ends_list(script.peek(place)) {
            return Ok((list, place));
        }
        let (id, next) = statement(script, tree, place, depth)?;
        list.push(id)?;
        place = next;
    }
}

/// Statements in braces.
#[cycle(parser)]
pub fn block(
    script: &Script,
    tree: &mut Tree,
    at: usize,
    depth: u32,
) -> Result<(Vec<StmtId>, usize), Refusal>
    requires { IsReady script.now at depth (trees tree.old) }
    ensures { MatchResult result
        (λ x. ReadsBlock depth script.now at (trees tree.old) (trees tree.new) x.0.items x.1)
        (λ e. (f : Frame) → OnlyBlock f → Refuses (λ k. Wants (BlockAt depth ∷ f ∷ k)) script.now at e) }
{
    let first = expect(script, at, Sign::OpenBrace)?;
    let inner = deeper(depth, at)?;
    let (list, last) = statements(script, tree, first, inner)?;
    let next = expect(script, last, Sign::CloseBrace)?;
    Ok((list, next))
}

#[cycle(parser)]
fn statement(
    script: &Script,
    tree: &mut Tree,
    at: usize,
    depth: u32,
) -> Result<(StmtId, usize), Refusal>
    requires { IsReady script.now at depth (trees tree.old) }
    ensures { ReadsOne (λ k. Wants (Statement depth ∷ k)) script.now at (trees tree.old) (trees tree.new) result }
{
    let (mut labels, first) = labels(script, at)?;
    let (mut id, next) = unlabelled(script, tree, first, depth)?;
    'labels: while let Some(name) = labels.pop() {
        let label = Stmt::Label(script.text(name)?, id);
        let (outer, _) = add_named(script, tree, label, name, name, next)?;
        id = outer;
    }
    Ok((id, next))
}

#[cycle(parser)]
fn unlabelled(
    script: &Script,
    tree: &mut Tree,
    at: usize,
    depth: u32,
) -> Result<(StmtId, usize), Refusal>
    requires ready { IsReady script.now at depth (trees tree.old) }
    requires unlabelled { IsUnlabelled script.now at }
    ensures { ReadsOne (λ k. Wants (Statement depth ∷ k)) script.now at (trees tree.old) (trees tree.new) result }
{
    match script.peek(at) {
        Sign::Var => var_statement(script, tree, at, depth),
        Sign::If => if_statement(script, tree, at, depth),
        Sign::While => while_statement(script, tree, at, depth),
        Sign::Do => do_statement(script, tree, at, depth),
        Sign::For => for_statement(script, tree, at, depth),
        Sign::Continue => continue_statement(script, tree, at, depth),
        Sign::Break => break_statement(script, tree, at, depth),
        Sign::Return => return_statement(script, tree, at, depth),
        Sign::Throw => throw_statement(script, tree, at, depth),
        Sign::With => with_statement(script, tree, at, depth),
        Sign::Switch => switch_statement(script, tree, at, depth),
        Sign::Try => try_statement(script, tree, at, depth),
        Sign::OpenBrace | Sign::Function => Err(Refusal::Syntax(at)),
        _ => expression_statement(script, tree, at, depth),
    }
}

#[cycle(parser)]
fn while_statement(
    script: &Script,
    tree: &mut Tree,
    at: usize,
    depth: u32,
) -> Result<(StmtId, usize), Refusal>
    requires ready { IsReady script.now at depth (trees tree.old) }
    requires here { Next script.now at sign.While }
    requires inside { at + 1 < length script.now }
    ensures { ReadsOne (λ k. Wants (Statement depth ∷ k)) script.now at (trees tree.old) (trees tree.new) result }
{
    let (test, first) = test(script, tree, at + 1, depth)?;
    let (body, next) = block(script, tree, first, depth)?;
    add_statement(script, tree, Stmt::While(test, body), at, next)
}

#[cycle(parser)]
fn with_statement(
    script: &Script,
    tree: &mut Tree,
    at: usize,
    depth: u32,
) -> Result<(StmtId, usize), Refusal>
    requires ready { IsReady script.now at depth (trees tree.old) }
    requires here { Next script.now at sign.With }
    requires inside { at + 1 < length script.now }
    ensures { ReadsOne (λ k. Wants (Statement depth ∷ k)) script.now at (trees tree.old) (trees tree.new) result }
{
    let (object, first) = test(script, tree, at + 1, depth)?;
    let (body, next) = block(script, tree, first, depth)?;
    add_statement(script, tree, Stmt::With(object, body), at, next)
}

#[cycle(parser)]
fn do_statement(
    script: &Script,
    tree: &mut Tree,
    at: usize,
    depth: u32,
) -> Result<(StmtId, usize), Refusal>
    requires ready { IsReady script.now at depth (trees tree.old) }
    requires here { Next script.now at sign.Do }
    requires inside { at + 1 < length script.now }
    ensures { ReadsOne (λ k. Wants (Statement depth ∷ k)) script.now at (trees tree.old) (trees tree.new) result }
{
    let (body, last) = block(script, tree, at + 1, depth)?;
    let first = expect(script, last, Sign::While)?;
    let (test, end) = test(script, tree, first, depth)?;
    let next = expect(script, end, Sign::Semicolon)?;
    add_statement(script, tree, Stmt::DoWhile(test, body), at, next)
}

#[cycle(parser)]
fn if_statement(
    script: &Script,
    tree: &mut Tree,
    at: usize,
    depth: u32,
) -> Result<(StmtId, usize), Refusal>
    requires ready { IsReady script.now at depth (trees tree.old) }
    requires here { Next script.now at sign.If }
    requires inside { at + 1 < length script.now }
    ensures { ReadsOne (λ k. Wants (Statement depth ∷ k)) script.now at (trees tree.old) (trees tree.new) result }
{
    let (test, first) = test(script, tree, at + 1, depth)?;
    let (then, end) = block(script, tree, first, depth)?;
    let (other, next) = else_part(script, tree, end, depth)?;
    add_statement(script, tree, Stmt::If(test, then, other), at, next)
}

// What stands behind `else`, where it is there.
#[cycle(parser)]
fn else_part(
    script: &Script,
    tree: &mut Tree,
    at: usize,
    depth: u32,
) -> Result<(Vec<StmtId>, usize), Refusal>
    requires { IsReady script.now at depth (trees tree.old) }
    ensures { MatchResult result
        (λ x. ReadsElse depth script.now at (trees tree.old) (trees tree.new) x.0.items x.1)
        (λ e. (w : Lexeme) (e' : PlainExpr) (ss : Stmts) →
        Refuses (λ k. Wants (AfterIf depth w e' ss ∷ k)) script.now at e) }
{
    let Sign::Else = script.peek(at) else {
        return Ok((Vec::new(script.alloc()), at));
    };
    let Sign::If = script.peek(at + 1) else {
        return block(script, tree, at + 1, depth);
    };
    let inner = deeper(depth, at + 1)?;
    let (id, next) = if_statement(script, tree, at + 1, inner)?;
    let mut list = Vec::new(script.alloc());
    list.push(id)?;
    Ok((list, next))
}

#[cycle(parser)]
fn throw_statement(
    script: &Script,
    tree: &mut Tree,
    at: usize,
    depth: u32,
) -> Result<(StmtId, usize), Refusal>
    requires ready { IsReady script.now at depth (trees tree.old) }
    requires here { Next script.now at sign.Throw }
    requires inside { at + 1 < length script.now }
    ensures { ReadsOne (λ k. Wants (Statement depth ∷ k)) script.now at (trees tree.old) (trees tree.new) result }
{
    let (id, next) = marked(script, tree, at + 1, depth, Sign::Semicolon)?;
    add_statement(script, tree, Stmt::Throw(id), at, next)
}

#[cycle(parser)]
fn return_statement(
    script: &Script,
    tree: &mut Tree,
    at: usize,
    depth: u32,
) -> Result<(StmtId, usize), Refusal>
    requires ready { IsReady script.now at depth (trees tree.old) }
    requires here { Next script.now at sign.Return }
    requires inside { at + 1 < length script.now }
    ensures { ReadsOne (λ k. Wants (Statement depth ∷ k)) script.now at (trees tree.old) (trees tree.new) result }
{
    let first = at + 1;
    if let Sign::Semicolon = script.peek(first) {
        return add_statement(script, tree, Stmt::Return(None), at, first + 1);
    }
    let (id, next) = marked(script, tree, first, depth, Sign::Semicolon)?;
    add_statement(script, tree, Stmt::Return(Some(id)), at, next)
}

#[cycle(parser)]
fn var_statement(
    script: &Script,
    tree: &mut Tree,
    at: usize,
    depth: u32,
) -> Result<(StmtId, usize), Refusal>
    requires ready { IsReady script.now at depth (trees tree.old) }
    requires here { Next script.now at sign.Var }
    requires inside { at + 1 < length script.now }
    ensures { ReadsOne (λ k. Wants (Statement depth ∷ k)) script.now at (trees tree.old) (trees tree.new) result }
{
    let (decls, last) = declarations(script, tree, at + 1, depth, false)?;
    let next = expect(script, last, Sign::Semicolon)?;
    add_statement(script, tree, Stmt::Var(decls), at, next)
}

#[cycle(parser)]
fn expression_statement(
    script: &Script,
    tree: &mut Tree,
    at: usize,
    depth: u32,
) -> Result<(StmtId, usize), Refusal>
    requires ready { IsReady script.now at depth (trees tree.old) }
    requires begins { BeginsOnly script.now at }
    ensures { ReadsOne (λ k. Wants (Statement depth ∷ k)) script.now at (trees tree.old) (trees tree.new) result }
{
    let (id, next) = marked(script, tree, at, depth, Sign::Semicolon)?;
    add_statement(script, tree, Stmt::Expr(id), at, next)
}

/// Declared variables, up to what ends them.
#[cycle(parser)]
pub fn declarations(
    script: &Script,
    tree: &mut Tree,
    at: usize,
    depth: u32,
    no_in: bool,
) -> Result<(Vec<Decl>, usize), Refusal>
    requires { IsReady script.now at depth (trees tree.old) }
    ensures { MatchResult result
        (λ x. ReadsDecls no_in depth script.now at (trees tree.old) (trees tree.new) x.0.items x.1)
        (λ e. Refuses (λ k. Wants (VarName no_in depth NoDecls ∷ k)) script.now at e) }
{
    let mut list = Vec::new(script.alloc());
    let mut place = at;
    'list: loop {
        let after = expect(script, place, Sign::Name)?;
        let (init, next) = initial(script, tree, after, depth, no_in)?;
        let name = script.text(place)?;
        list.push(Decl {
            name,
            at: script.place(place),
            init,
        })?;
        let Sign::Comma = script.peek(next) else {
            return Ok((list, next));
        };
        place = next + 1;
    }
}

// The value of a declared variable, where it has one.
#[cycle(parser)]
fn initial(
    script: &Script,
    tree: &mut Tree,
    at: usize,
    depth: u32,
    no_in: bool,
) -> Result<(Option<ExprId>, usize), Refusal>
    requires { IsReady script.now at depth (trees tree.old) }
    ensures { MatchResult result
        (λ x. ReadsInit no_in depth script.now at (trees tree.old) (trees tree.new) x.0 x.1)
        (λ e. (ds : Decls) (x : Lexeme) → Refuses (λ k. Wants (VarTail no_in depth ds x ∷ k)) script.now at e) }
{
    let Sign::Assign = script.peek(at) else {
        return Ok((None, at));
    };
    let (id, next) = assignment(script, tree, at + 1, depth, no_in)?;
    Ok((Some(id), next))
}

/// A function from its `(` on, where `word` is the place of its word.
#[cycle(parser)]
pub fn code(
    script: &Script,
    tree: &mut Tree,
    at: usize,
    depth: u32,
    word: usize,
    own: Option<usize>,
) -> Result<(FunId, usize), Refusal>
    requires ready { IsReady script.now at depth (trees tree.old) }
    requires word { word < length script.now }
    requires own { IsOwn script.now own }
    ensures { MatchResult result
        (λ x. ReadsFun (λ k. Wants (FunOpen depth (lexeme_at script.now word) (own_at script.now own) ∷ k))
        (lexeme_at script.now word) depth script.now at (trees tree.old) (trees tree.new) x.0 x.1)
        (λ e. Refuses (λ k. Wants (FunOpen depth (lexeme_at script.now word) (own_at script.now own) ∷ k))
        script.now at e) }
{
    let open = expect(script, at, Sign::Open)?;
    let inner = deeper(depth, at)?;
    let places = name_place(script, own)?;
    let (params, brace) = params(script, open, depth, places)?;
    let first = expect(script, brace, Sign::OpenBrace)?;
    let (body, funs, end) = body(script, tree, first, inner)?;
    let name = name_text(script, own)?;
    let Parameters { texts, places } = params;
    let node = Fun {
        name,
        params: texts,
        body,
        funs,
        at: script.place(word),
    };
    let fun = tree.add_fun(node, places)?;
    Ok((fun, end + 1))
}

#[cycle(parser)]
fn declaration(
    script: &Script,
    tree: &mut Tree,
    at: usize,
    depth: u32,
) -> Result<(FunId, usize), Refusal>
    requires ready { IsReady script.now at depth (trees tree.old) }
    requires here { Next script.now at sign.Function }
    requires inside { at + 1 < length script.now }
    ensures { MatchResult result
        (λ x. ReadsDecl depth script.now at (trees tree.old) (trees tree.new) x.0 x.1)
        (λ e. (ss : Stmts) (fs : Funs) → Refuses (λ k. Wants (InBody depth ss fs ∷ k)) script.now at e) }
{
    let name = at + 1;
    let open = expect(script, name, Sign::Name)?;
    code(script, tree, open, depth, at, Some(name))
}

// The statements and the declarations of a function, and the place of its closing brace.
#[cycle(parser)]
fn body(
    script: &Script,
    tree: &mut Tree,
    at: usize,
    depth: u32,
) -> Result<(Vec<StmtId>, Vec<FunId>, usize), Refusal>
    requires { IsReady script.now at depth (trees tree.old) }
    ensures { MatchResult result
        (λ x. ReadsBody depth script.now at (trees tree.old) (trees tree.new) x.0.items x.1.items x.2)
        (λ e. Refuses (λ k. Wants (InBody depth NoStmts NoFuns ∷ k)) script.now at e) }
{
    let mut list = Vec::new(script.alloc());
    let mut funs = Vec::new(script.alloc());
    let mut place = at;
    'body: loop {
        match script.peek(place) {
            Sign::CloseBrace => return Ok((list, funs, place)),
            Sign::Function => {
                let (id, next) = declaration(script, tree, place, depth)?;
                funs.push(id)?;
                place = next;
            }
            _ => {
                let (id, next) = statement(script, tree, place, depth)?;
                list.push(id)?;
                place = next;
            }
        }
    }
}
