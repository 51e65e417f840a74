//! Statements that leave their place: jumps, and `try` with what catches.
ghost use Rattle.std.specs.Prelude.{◌+◌, ◌<◌, ◌∷◌, length, MatchResult};
ghost use Rattle.js_tree.specs.Plain.{Stmts};
ghost use Rattle.js_tree.specs.Trees.{trees};
ghost use Rattle.js_grammar.specs.Grammar.{Lexeme};
ghost use Rattle.js_grammar.specs.Machine.{Wants, Statement, CatchOpen};
ghost use Rattle.js_grammar.specs.declared.Sign.TheVariants as sign;
ghost use Rattle.js_cursor.specs.Reads.{Next, Refuses};
ghost use Rattle.js_descent.specs.Rows.{IsReady, ReadsOne};
ghost use Rattle.js_descent.specs.Walks.{ReadsCaught};

use crate::statements::block;
use js_cursor::names::jump_label;
use js_cursor::refusal::Refusal;
use js_cursor::script::Script;
use js_cursor::steps::{add_named, add_statement, deeper, expect};
use js_grammar::Sign;
use js_tree::{Stmt, StmtId, Tree};

/// `continue`, with or without a label.
pub fn continue_statement(
    script: &Script,
    tree: &mut Tree,
    at: usize,
    depth: u32,
) -> Result<(StmtId, usize), Refusal>
    requires ready { IsReady script.now at depth (trees tree.old) }
    requires here { Next script.now at sign.Continue }
    requires inside { at + 1 < length script.now }
    ensures { ReadsOne (λ k. Wants (Statement depth ∷ k)) script.now at (trees tree.old) (trees tree.new) result }
{
    let (label, next) = jump_label(script, at + 1)?;
    let Some(name) = label else {
        return add_statement(script, tree, Stmt::Continue(None), at, next);
    };
    let text = script.text(name)?;
    add_named(script, tree, Stmt::Continue(Some(text)), at, name, next)
}

/// `break`, with or without a label.
pub fn break_statement(
    script: &Script,
    tree: &mut Tree,
    at: usize,
    depth: u32,
) -> Result<(StmtId, usize), Refusal>
    requires ready { IsReady script.now at depth (trees tree.old) }
    requires here { Next script.now at sign.Break }
    requires inside { at + 1 < length script.now }
    ensures { ReadsOne (λ k. Wants (Statement depth ∷ k)) script.now at (trees tree.old) (trees tree.new) result }
{
    let (label, next) = jump_label(script, at + 1)?;
    let Some(name) = label else {
        return add_statement(script, tree, Stmt::Break(None), at, next);
    };
    let text = script.text(name)?;
    add_named(script, tree, Stmt::Break(Some(text)), at, name, next)
}

// The place of the name and the block of a `catch`, after its word.
#[cycle(parser)]
fn catch_part(
    script: &Script,
    tree: &mut Tree,
    at: usize,
    depth: u32,
) -> Result<(usize, Vec<StmtId>, usize), Refusal>
    requires { IsReady script.now at depth (trees tree.old) }
    ensures { MatchResult result
        (λ x. ReadsCaught depth script.now at (trees tree.old) (trees tree.new) x.0 x.1.items x.2)
        (λ e. (w : Lexeme) (ss : Stmts) → Refuses (λ k. Wants (CatchOpen depth w ss ∷ k)) script.now at e) }
{
    let name = expect(script, at, Sign::Open)?;
    deeper(depth, at)?;
    let close = expect(script, name, Sign::Name)?;
    let first = expect(script, close, Sign::Close)?;
    let (list, next) = block(script, tree, first, depth)?;
    Ok((name, list, next))
}

/// `try`, with `catch`, `finally` or both.
#[cycle(parser)]
pub fn try_statement(
    script: &Script,
    tree: &mut Tree,
    at: usize,
    depth: u32,
) -> Result<(StmtId, usize), Refusal>
    requires ready { IsReady script.now at depth (trees tree.old) }
    requires here { Next script.now at sign.Try }
    requires inside { at + 1 < length script.now }
    ensures { ReadsOne (λ k. Wants (Statement depth ∷ k)) script.now at (trees tree.old) (trees tree.new) result }
{
    let (body, first) = block(script, tree, at + 1, depth)?;
    match script.peek(first) {
        Sign::Catch => {
            let (name, caught, end) = catch_part(script, tree, first + 1, depth)?;
            let text = script.text(name)?;
            let Sign::Finally = script.peek(end) else {
                let node = Stmt::Try(body, Some((text, caught)), None);
                return add_named(script, tree, node, at, name, end);
            };
            let (last, next) = block(script, tree, end + 1, depth)?;
            let node = Stmt::Try(body, Some((text, caught)), Some(last));
            add_named(script, tree, node, at, name, next)
        }
        Sign::Finally => {
            let (last, next) = block(script, tree, first + 1, depth)?;
            let node = Stmt::Try(body, None, Some(last));
            add_statement(script, tree, node, at, next)
        }
        _ => Err(Refusal::Syntax(first)),
    }
}
