//! The names that statements declare by `var`.
ghost use Rattle.std.specs.Prelude.{◌≡◌, ◌++◌, All, OnOk, reverse};
ghost use Rattle.js_tree.specs.Forest.{IsStmt, stmts_at};
ghost use Rattle.js_tree.specs.Trees.{trees};
ghost use Rattle.widget_meaning.specs.Scopes.{stmts_vars};
ghost use Rattle.js_names.specs.Hoisting.{block_ids, catch_ids, clause_bodies, decl_texts, init_texts, last_ids, own_texts};

use code_units::{Memory, Text};
use js_tree::{Clause, Decl, ForInit, Stmt, StmtId, Tree};
use std::alloc::Global;

/// Puts the `var` names of a body, in order of the text, behind the names that are there.
pub fn hoist(
    alloc: Global,
    tree: &Tree,
    body: &[StmtId],
    names: &mut Vec<Text>,
) -> Result<(), Memory>
    requires { All (IsStmt (trees tree.now)) body.now }
    ensures { OnOk result (names.new.items ≡ names.old.items ++ stmts_vars (stmts_at (trees tree.now) body.now)) }
{
    // The statements that are left stand with the next one last.
    let mut left = Vec::new(alloc);
    push_reversed(alloc, &mut left, body)?;
    'left: while let Some(id) = left.pop() {
        hoist_one(alloc, tree.stmt(id), &mut left, names)?;
    }
    Ok(())
}

fn push_reversed(alloc: Global, left: &mut Vec<StmtId>, ids: &[StmtId]) -> Result<(), Memory>
    ensures { OnOk result (left.new.items ≡ left.old.items ++ reverse ids.now) }
{
    let turned: Vec<StmtId> = ids.iter().rev().copied().collect(alloc)?;
    left.extend_from_slice(&turned)?;
    Ok(())
}

// Gathers what one statement declares itself, and leaves the statements of its blocks.
fn hoist_one(
    alloc: Global,
    node: &Stmt,
    left: &mut Vec<StmtId>,
    names: &mut Vec<Text>,
) -> Result<(), Memory>
    ensures left { OnOk result (left.new.items ≡ left.old.items ++ reverse (block_ids node.now)) }
    ensures names { OnOk result (names.new.items ≡ names.old.items ++ own_texts node.now) }
{
    let mut blocks = Vec::new(alloc);
    add_blocks(&mut blocks, node)?;
    push_reversed(alloc, left, &blocks)?;
    add_own(names, node)
}

// The statements of a statement's blocks, in order of the text.
fn add_blocks(blocks: &mut Vec<StmtId>, node: &Stmt) -> Result<(), Memory>
    ensures { OnOk result (blocks.new.items ≡ blocks.old.items ++ block_ids node.now) }
{
    match node {
        Stmt::If(_, a, b) => {
            blocks.extend_from_slice(a)?;
            blocks.extend_from_slice(b)?;
            Ok(())
        }
        Stmt::While(_, body)
        | Stmt::DoWhile(_, body)
        | Stmt::With(_, body)
        | Stmt::For(_, _, _, body)
        | Stmt::ForIn(_, _, _, body) => {
            blocks.extend_from_slice(body)?;
            Ok(())
        }
        Stmt::Switch(_, clauses) => add_bodies(blocks, clauses),
        Stmt::Try(body, caught, last) => {
            blocks.extend_from_slice(body)?;
            add_caught(blocks, caught)?;
            add_last(blocks, last)
        }
        Stmt::Label(_, s) => {
            blocks.push(*s)?;
            Ok(())
        }
        _ => Ok(()),
    }
}

fn add_bodies(blocks: &mut Vec<StmtId>, list: &[Clause]) -> Result<(), Memory>
    ensures { OnOk result (blocks.new.items ≡ blocks.old.items ++ clause_bodies list.now) }
{
    'list: for clause in list {
        blocks.extend_from_slice(&clause.body)?;
    }
    Ok(())
}

fn add_caught(blocks: &mut Vec<StmtId>, caught: &Option<(Text, Vec<StmtId>)>) -> Result<(), Memory>
    ensures { OnOk result (blocks.new.items ≡ blocks.old.items ++ catch_ids caught.now) }
{
    match caught {
        Some((_, block)) => {
            blocks.extend_from_slice(block)?;
            Ok(())
        }
        None => Ok(()),
    }
}

fn add_last(blocks: &mut Vec<StmtId>, last: &Option<Vec<StmtId>>) -> Result<(), Memory>
    ensures { OnOk result (blocks.new.items ≡ blocks.old.items ++ last_ids last.now) }
{
    match last {
        Some(block) => {
            blocks.extend_from_slice(block)?;
            Ok(())
        }
        None => Ok(()),
    }
}

// The names that a statement declares itself.
fn add_own(names: &mut Vec<Text>, node: &Stmt) -> Result<(), Memory>
    ensures { OnOk result (names.new.items ≡ names.old.items ++ own_texts node.now) }
{
    match node {
        Stmt::Var(decls) => add_decls(names, decls),
        Stmt::For(first, _, _, _) => add_first(names, first),
        Stmt::ForIn(declared, name, _, _) => {
            if *declared {
                names.push(name.share()?)?;
            }
            Ok(())
        }
        _ => Ok(()),
    }
}

fn add_first(names: &mut Vec<Text>, first: &ForInit) -> Result<(), Memory>
    ensures { OnOk result (names.new.items ≡ names.old.items ++ init_texts first.now) }
{
    match first {
        ForInit::Var(decls) => add_decls(names, decls),
        ForInit::List(_) => Ok(()),
    }
}

fn add_decls(names: &mut Vec<Text>, list: &[Decl]) -> Result<(), Memory>
    ensures { OnOk result (names.new.items ≡ names.old.items ++ decl_texts list.now) }
{
    'list: for decl in list {
        names.push(decl.name.share()?)?;
    }
    Ok(())
}
