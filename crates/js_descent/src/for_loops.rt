//! `for` in its forms (ECMA-262 3rd edition, 12.6.3 and 12.6.4).
ghost use Rattle.std.specs.Prelude.{false, None, suc, ◌+◌, ◌<◌, ◌∷◌, length, MatchResult};
ghost use Rattle.js_tree.specs.Plain.{ForInit as PlainInit, OptionalExpr};
ghost use Rattle.js_tree.specs.Trees.{trees};
ghost use Rattle.js_grammar.specs.Grammar.{Lexeme};
ghost use Rattle.js_grammar.specs.Machine.{Wants, Statement, ForFirst, ForTest, ForEnd, ItemsAt, ForOver, whole as whole_frames};
ghost use Rattle.js_grammar.specs.declared.Sign.TheVariants as sign;
ghost use Rattle.js_cursor.specs.Reads.{lexeme_at, Next, Refuses};
ghost use Rattle.js_cursor.specs.Named.{IsForIn};
ghost use Rattle.js_descent.specs.Rows.{IsReady, ReadsOne};
ghost use Rattle.js_descent.specs.Walks.{ReadsFirst, ReadsSecond, ReadsThird};

use crate::expressions::items;
use crate::statements::{block, declarations, marked};
use js_cursor::names::for_in;
use js_cursor::refusal::Refusal;
use js_cursor::script::Script;
use js_cursor::steps::{add_named, add_statement, deeper, expect};
use js_grammar::Sign;
use js_tree::{ExprId, ForInit, Stmt, StmtId, Tree};

/// `for`, and `for-in`.
#[cycle(parser)]
pub fn for_statement(
    script: &Script,
    tree: &mut Tree,
    at: usize,
    depth: u32,
) -> Result<(StmtId, usize), Refusal>
    requires ready { IsReady script.now at depth (trees tree.old) }
    requires here { Next script.now at sign.For }
    requires inside { at + 1 < length script.now }
    ensures { ReadsOne (λ k. Wants (Statement depth ∷ k)) script.now at (trees tree.old) (trees tree.new) result }
{
    let first = expect(script, at + 1, Sign::Open)?;
    let inner = deeper(depth, at + 1)?;
    match for_in(script, first) {
        Some((declared, name)) => for_in_statement(script, tree, at, depth, declared, name),
        None => for_loop(script, tree, at, depth, first),
    }
}

// A `for-in` from behind its `in`; its variable stands at `name`.
#[cycle(parser)]
fn for_in_statement(
    script: &Script,
    tree: &mut Tree,
    at: usize,
    depth: u32,
    declared: bool,
    name: usize,
) -> Result<(StmtId, usize), Refusal>
    requires ready { IsReady script.now (name + 2) (suc depth) (trees tree.old) }
    requires before { at < name }
    ensures { ReadsOne (λ k. Wants (whole_frames (suc depth)
        (ForOver depth (lexeme_at script.now at) declared (lexeme_at script.now name) ∷ k))) script.now (name + 2)
        (trees tree.old) (trees tree.new) result }
{
    let (object, first) = marked(script, tree, name + 2, depth + 1, Sign::Close)?;
    let (body, next) = block(script, tree, first, depth)?;
    let text = script.text(name)?;
    let node = Stmt::ForIn(declared, text, object, body);
    add_named(script, tree, node, at, name, next)
}

// Another `for`, from behind its bracket.
#[cycle(parser)]
fn for_loop(
    script: &Script,
    tree: &mut Tree,
    at: usize,
    depth: u32,
    first: usize,
) -> Result<(StmtId, usize), Refusal>
    requires ready { IsReady script.now first (suc depth) (trees tree.old) }
    requires before { at < first }
    requires other { IsForIn script.now first None }
    ensures { ReadsOne (λ k. Wants (ForFirst depth (lexeme_at script.now at) ∷ k))
        script.now first (trees tree.old) (trees tree.new) result }
{
    let (init, second) = first_part(script, tree, first, depth)?;
    let (test, third) = second_part(script, tree, second, depth)?;
    let (steps, brace) = third_part(script, tree, third, depth)?;
    let (body, next) = block(script, tree, brace, depth)?;
    add_statement(script, tree, Stmt::For(init, test, steps, body), at, next)
}

#[cycle(parser)]
fn first_part(
    script: &Script,
    tree: &mut Tree,
    at: usize,
    depth: u32,
) -> Result<(ForInit, usize), Refusal>
    requires ready { IsReady script.now at (suc depth) (trees tree.old) }
    requires other { IsForIn script.now at None }
    ensures { MatchResult result
        (λ x. ReadsFirst depth script.now at (trees tree.old) (trees tree.new) x.0 x.1)
        (λ e. (w : Lexeme) → Refuses (λ k. Wants (ForFirst depth w ∷ k)) script.now at e) }
{
    if let Sign::Var = script.peek(at) {
        let (decls, last) = declarations(script, tree, at + 1, depth + 1, true)?;
        let after = expect(script, last, Sign::Semicolon)?;
        return Ok((ForInit::Var(decls), after));
    }
    let (list, last) = items(script, tree, at, depth + 1, true)?;
    let next = expect(script, last, Sign::Semicolon)?;
    Ok((ForInit::List(list), next))
}

#[cycle(parser)]
fn second_part(
    script: &Script,
    tree: &mut Tree,
    at: usize,
    depth: u32,
) -> Result<(Option<ExprId>, usize), Refusal>
    requires { IsReady script.now at (suc depth) (trees tree.old) }
    ensures { MatchResult result
        (λ x. ReadsSecond depth script.now at (trees tree.old) (trees tree.new) x.0 x.1)
        (λ e. (w : Lexeme) (i : PlainInit) → Refuses (λ k. Wants (ForTest depth w i ∷ k)) script.now at e) }
{
    if let Sign::Semicolon = script.peek(at) {
        return Ok((None, at + 1));
    }
    let (id, next) = marked(script, tree, at, depth + 1, Sign::Semicolon)?;
    Ok((Some(id), next))
}

#[cycle(parser)]
fn third_part(
    script: &Script,
    tree: &mut Tree,
    at: usize,
    depth: u32,
) -> Result<(Vec<ExprId>, usize), Refusal>
    requires { IsReady script.now at (suc depth) (trees tree.old) }
    ensures { MatchResult result
        (λ x. ReadsThird depth script.now at (trees tree.old) (trees tree.new) x.0.items x.1)
        (λ e. (w : Lexeme) (i : PlainInit) (test : OptionalExpr) →
        Refuses (λ k. Wants (ItemsAt false (suc depth) ∷ ForEnd depth w i test ∷ k)) script.now at e) }
{
    let (list, last) = items(script, tree, at, depth + 1, false)?;
    let next = expect(script, last, Sign::Close)?;
    Ok((list, next))
}
