//! The verdict on the bytes of a script: its tokens, its tree, and the rules.
ghost use Rattle.std.specs.Prelude.{◌<◌, ◌^◌, IfOk, IfErr, length};
ghost use Rattle.js_tree.specs.Trees.{program_of};
ghost use Rattle.script_check.specs.Verdict.{HasProgram, IsAccepted, IsTextFault, IsScriptFault};

use crate::fault::ScriptFault;
use adsafe_rules::{Accepted, Scope, check};
use js_parser::parse;
use js_tokens::tokens;
use js_tree::Tree;
use std::alloc::Global;

/// Judges a script at its position, by docs/RULES.md.
///
/// # Errors
/// `Broken` exactly where a rule of A01 to A20 is broken, with the first of them and the byte.
pub fn judge_script(alloc: Global, scope: &Scope, bytes: &[u8]) -> Result<Accepted, ScriptFault>
    requires { length bytes.now < 2 ^ 31 }
    ensures accepted { IfOk result (IsAccepted bytes.now scope.now) }
    ensures refused { IfErr result (IsScriptFault bytes.now scope.now) }
{
    let tree = read_tree(alloc, bytes)?;
    Ok(check(alloc, tree, scope)?)
}

// The tree of a script. A01 and A20, by which there is none, come before the other rules.
#[tactic(auto, using(crate::proofs::Counts::few_tokens))]
fn read_tree(alloc: Global, bytes: &[u8]) -> Result<Tree, ScriptFault>
    requires { length bytes.now < 2 ^ 31 }
    ensures read { IfOk result (λ tree. HasProgram bytes.now (program_of tree)) }
    ensures refused { IfErr result (IsTextFault bytes.now) }
{
    let lexed = tokens(alloc, bytes)?;
    Ok(parse(alloc, bytes, &lexed)?)
}
