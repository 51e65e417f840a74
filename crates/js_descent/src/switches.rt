//! `switch` (ECMA-262 3rd edition, 12.11).
ghost use Rattle.std.specs.Prelude.{◌+◌, ◌<◌, ◌∷◌, length, MatchResult};
ghost use Rattle.js_tree.specs.Trees.{trees};
ghost use Rattle.js_grammar.specs.Machine.{Wants, Statement, FirstCase};
ghost use Rattle.js_grammar.specs.declared.Sign.TheVariants as sign;
ghost use Rattle.js_cursor.specs.Reads.{Next, Refuses};
ghost use Rattle.js_descent.specs.Rows.{IsReady, ReadsOne};
ghost use Rattle.js_descent.specs.Walks.{ReadsCases};

use crate::statements::{marked, statements, test};
use js_cursor::refusal::Refusal;
use js_cursor::script::Script;
use js_cursor::steps::{add_statement, deeper, expect};
use js_grammar::Sign;
use js_tree::{Clause, Stmt, StmtId, Tree};

/// `switch`, with its clauses.
#[cycle(parser)]
pub fn switch_statement(
    script: &Script,
    tree: &mut Tree,
    at: usize,
    depth: u32,
) -> Result<(StmtId, usize), Refusal>
    requires ready { IsReady script.now at depth (trees tree.old) }
    requires here { Next script.now at sign.Switch }
    requires inside { at + 1 < length script.now }
    ensures { ReadsOne (λ k. Wants (Statement depth ∷ k)) script.now at (trees tree.old) (trees tree.new) result }
{
    let (value, brace) = test(script, tree, at + 1, depth)?;
    let first = expect(script, brace, Sign::OpenBrace)?;
    let inner = deeper(depth, brace)?;
    let (list, last) = clauses(script, tree, first, inner)?;
    let next = expect(script, last, Sign::CloseBrace)?;
    add_statement(script, tree, Stmt::Switch(value, list), at, next)
}

// The clauses of a `switch`, up to what ends them.
#[cycle(parser)]
fn clauses(
    script: &Script,
    tree: &mut Tree,
    at: usize,
    depth: u32,
) -> Result<(Vec<Clause>, usize), Refusal>
    requires { IsReady script.now at depth (trees tree.old) }
    ensures { MatchResult result
        (λ x. ReadsCases depth script.now at (trees tree.old) (trees tree.new) x.0.items x.1)
        (λ e. Refuses (λ k. Wants (FirstCase depth ∷ k)) script.now at e) }
{
    let mut list = Vec::new(script.alloc());
    let mut default = false;
    let mut place = at;
    'clauses: loop {
        match script.peek(place) {
            Sign::Case => {
                let (id, first) = marked(script, tree, place + 1, depth, Sign::Colon)?;
                let (body, next) = statements(script, tree, first, depth)?;
                let test = Some(id);
                list.push(Clause { test, body })?;
                place = next;
            }
            Sign::Default => {
                if default {
                    return Err(Refusal::Syntax(place));
                }
                let first = expect(script, place + 1, Sign::Colon)?;
                let (body, next) = statements(script, tree, first, depth)?;
                list.push(Clause { test: None, body })?;
                default = true;
                place = next;
            }
            _ => return Ok((list, place)),
        }
    }
}
