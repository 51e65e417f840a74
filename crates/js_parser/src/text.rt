//! The whole text.
ghost use Rattle.std.specs.Prelude.{◌≡◌, ◌<◌, ◌≤◌, ◌^◌, length, All, MatchResult, IfOk, IfErr};
ghost use Rattle.exact_refusals.specs.Judge.Outcome.{Read};
ghost use Rattle.exact_refusals.specs.Places.{HasTree};
ghost use Rattle.js_tree.specs.Plain.{Stmts};
ghost use Rattle.js_tree.specs.Forest.{IsStmt, no_trees, stmts_at};
ghost use Rattle.js_tree.specs.Trees.{program_of, trees};
ghost use Rattle.js_tokens.specs.Lexes.{Lexes};
ghost use Rattle.js_grammar.specs.Grammar.{IsProgram};
ghost use Rattle.js_grammar.specs.Machine.{begin};
ghost use Rattle.js_cursor.specs.Signs.{input};
ghost use Rattle.js_cursor.specs.Reads.{goes};
ghost use Rattle.js_parser.specs.Parse.{IsRefusal, IsSaid, IsPlaced, Stops};
ghost use Rattle.js_parser.specs.declared.ParseFault.TheVariants as fault;

use super::ParseFault;
use js_cursor::refusal::Refusal;
use js_cursor::script::Script;
use js_descent::statements::statements;
use js_grammar::Sign;
use js_tokens::Token;
use js_tree::{StmtId, Tree};
use std::alloc::Global;

// The statements of the whole text.
fn program(script: &Script, tree: &mut Tree) -> Result<Vec<StmtId>, Refusal>
    requires some { 0 < length script.now }
    requires short { length script.now ≤ 2 ^ 31 }
    requires none { trees tree.old ≡ no_trees }
    ensures { MatchResult result
        (λ list. All (IsStmt (trees tree.new)) list.items ×
        (goes script.now begin 0 ≡ Read (stmts_at (trees tree.new) list.items)))
        (λ e. Stops script.now e) }
{
    let (list, last) = statements(script, tree, 0, 0)?;
    let Sign::End = script.peek(last) else {
        return Err(Refusal::Syntax(last));
    };
    Ok(list)
}

// The fault of a refusal, with its place in the bytes.
fn fault_of(script: &Script, refusal: Refusal) -> ParseFault
    requires { IsPlaced script.now refusal }
    ensures { IsSaid script.now refusal result }
{
    match refusal {
        Refusal::Syntax(token) => ParseFault::Syntax {
            at: script.place(token),
        },
        Refusal::TooDeep(token) => ParseFault::TooDeep {
            at: script.place(token),
        },
        Refusal::Memory => ParseFault::Memory,
    }
}

/// The tree of the tokens of these bytes.
///
/// The tokens are those of the bytes, and fewer than 2^31.
///
/// `Syntax` at the first token with which no program begins, `TooDeep` at the token that opens the
/// 201st link, `Memory` where there was none.
pub fn parse(alloc: Global, bytes: &[u8], tokens: &[Token]) -> Result<Tree, ParseFault>
    requires tokens { Lexes bytes.now tokens.now }
    requires short { length tokens.now < 2 ^ 31 }
    // The tree is one that the tokens spell, with none of them too deep.
    ensures tree { IfOk result (λ tree. HasTree IsProgram 200 (input bytes.now tokens.now) (program_of tree)) }
    // Where they spell one, it is read, unless memory runs out.
    ensures only { (program : Stmts) → HasTree IsProgram 200 (input bytes.now tokens.now) program →
        MatchResult result (λ tree. program_of tree ≡ program) (λ e. e ≡ fault.Memory) }
    // The place of a refusal is exact.
    ensures place { IfErr result (λ e. IsRefusal (input bytes.now tokens.now) e) }
{
    let script = Script::new(alloc, bytes, tokens)?;
    let mut tree = Tree::new(alloc);
    match program(&script, &mut tree) {
        Ok(list) => {
            tree.set_program(list);
            Ok(tree)
        }
        Err(refusal) => Err(fault_of(&script, refusal)),
    }
}
