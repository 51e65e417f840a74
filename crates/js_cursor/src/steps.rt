//! What each function of a descent uses: one token, one link deeper, one statement.
ghost use Rattle.std.specs.Prelude.{◌≡◌, ◌≢◌, suc, ◌+◌, ◌<◌, ◌≤◌, ◌^◌, [], ◌∷◌, length, MatchResult};
ghost use Rattle.js_tree.specs.Forest.{size, AreStmtParts, plain_stmt};
ghost use Rattle.js_tree.specs.Trees.{trees};
ghost use Rattle.js_grammar.specs.declared.Sign.TheVariants as sign;
ghost use Rattle.js_cursor.specs.Reads.{lexeme_at, Next, IsOther, MadeStmt};
ghost use Rattle.js_cursor.specs.declared.refusal.Refusal.TheVariants as refusal;

use crate::refusal::Refusal;
use crate::script::Script;
use js_grammar::Sign;
use js_tree::{Stmt, StmtId, Tree};

/// The deepest link.
pub const LIMIT: u32 = 200;

/// One link deeper, at the token that opens it.
pub fn deeper(depth: u32, at: usize) -> Result<u32, Refusal>
    requires { depth ≤ 200 }
    ensures { MatchResult result
        (λ inner. (inner ≡ suc depth) × (inner ≤ 200))
        (λ e. (e ≡ refusal.TooDeep at) × (depth ≡ 200)) }
{
    if depth == LIMIT {
        return Err(Refusal::TooDeep(at));
    }
    Ok(depth + 1)
}

/// The place after the token, which is of the wanted sign.
pub fn expect(script: &Script, at: usize, want: Sign) -> Result<usize, Refusal>
    requires in_text { at < length script.now }
    requires no_end { want ≢ sign.End }
    ensures { MatchResult result
        (λ next. (next ≡ at + 1) × Next script.now at want × (next < length script.now))
        (λ e. (e ≡ refusal.Syntax at) × IsOther script.now at want) }
{
    let found = script.peek(at);
    if found == want {
        return Ok(at + 1);
    }
    Err(Refusal::Syntax(at))
}

/// Adds a statement without names that begins at a token; `next` is the place after it.
pub fn add_statement(
    script: &Script,
    tree: &mut Tree,
    node: Stmt,
    at: usize,
    next: usize,
) -> Result<(StmtId, usize), Refusal>
    requires in_text { at < length script.now }
    requires parts { AreStmtParts (trees tree.old) node }
    requires room { size (trees tree.old) < 2 ^ 31 }
    ensures { MadeStmt (trees tree.old) (trees tree.new)
        (plain_stmt (trees tree.old) node (lexeme_at script.now at).at []) next result }
{
    let id = tree.add_stmt(node, script.place(at), Vec::new(script.alloc()))?;
    Ok((id, next))
}

/// Adds a statement with one name, which stands at `name`.
pub fn add_named(
    script: &Script,
    tree: &mut Tree,
    node: Stmt,
    at: usize,
    name: usize,
    next: usize,
) -> Result<(StmtId, usize), Refusal>
    requires in_text { at < length script.now }
    requires named { name < length script.now }
    requires parts { AreStmtParts (trees tree.old) node }
    requires room { size (trees tree.old) < 2 ^ 31 }
    ensures { MadeStmt (trees tree.old) (trees tree.new)
        (plain_stmt (trees tree.old) node (lexeme_at script.now at).at ((lexeme_at script.now name).at ∷ []))
        next result }
{
    let mut names = Vec::new(script.alloc());
    names.push(script.place(name))?;
    let id = tree.add_stmt(node, script.place(at), names)?;
    Ok((id, next))
}
