//! The walk that prints a tree.
ghost use Rattle.std.specs.Prelude.{◌≡◌, ◌++◌, MatchResult};
ghost use Rattle.js_tree.specs.Trees.{trees, program_of};
ghost use Rattle.js_pieces.specs.Tidy.{tidy, spaced};
ghost use Rattle.js_pieces.specs.Todo.{work_tokens, work_cost, IsWork, AreWork, todo};
ghost use Rattle.js_print.specs.Walk.{Steps};
ghost use Rattle.js_print.specs.Writing.{AppendsFront};

use crate::write::{write_mark, write_name, write_quoted};
use code_units::Memory;
use js_pieces::expand::expand;
use js_pieces::work::Work;
use js_tree::Tree;
use std::alloc::Global;

// Writes a token, or takes another piece apart; and says whether a token came before.
fn step<'t>(
    tree: &'t Tree,
    piece: Work<'t>,
    begun: bool,
    work: &mut Vec<Work<'t>>,
    out: &mut Vec<u8>,
) -> Result<bool, Memory>
    requires piece { IsWork (trees tree.now) piece }
    requires stack { AreWork (trees tree.now) work.old.items }
    ensures { MatchResult result
        (λ now. Steps (trees tree.now) (work_tokens (trees tree.now) piece.entry)
        (work_cost (trees tree.now) piece.entry) begun now work.old.items work.new.items out.old.items
        out.new.items)
        (λ _. AppendsFront out.old.items out.new.items
        (spaced begun (work_tokens (trees tree.now) piece.entry ++ todo (trees tree.now) work.old.items))) }
{
    match piece {
        Work::Mark(text) => {
            write_mark(out, begun, text)?;
            Ok(true)
        }
        Work::Name(text) => {
            write_name(out, begun, text)?;
            Ok(true)
        }
        Work::Quoted(text) => {
            write_quoted(out, begun, text)?;
            Ok(true)
        }
        _ => {
            expand(tree, piece, work)?;
            Ok(begun)
        }
    }
}

/// Appends the one spelling of the tree's program: its tokens with one space between two, and a
/// line feed. A refusal leaves a front of it appended.
pub fn print_tree(alloc: Global, tree: &Tree, out: &mut Vec<u8>) -> Result<(), Memory>
    ensures { MatchResult result
        (λ _. out.new.items ≡ out.old.items ++ tidy (program_of tree.now))
        (λ _. AppendsFront out.old.items out.new.items (tidy (program_of tree.now))) }
{
    let mut work = Vec::new(alloc);
    work.push(Work::Stmts(tree.program()))?;
    let mut begun = false;
    'walk: while let Some(piece) = work.pop() {
        begun = step(tree, piece, begun, &mut work, out)?;
    }
    out.push(b'\n')?;
    Ok(())
}
