//! The names that a node binds.
ghost use Rattle.std.specs.Prelude.{◌≡◌, ℕ, ◌++◌, ◌↔◌, ◌⊎◌, List, option_to_list, All, IfOk, OnOk};
ghost use Rattle.first_breach.specs.Lists.{In};
ghost use Rattle.js_tree.specs.Forest.{IsStmt, IsFun, fun_at};
ghost use Rattle.js_tree.specs.Parts.{AFun};
ghost use Rattle.js_tree.specs.Trees.{trees};
ghost use Rattle.node_rules.specs.Binding.{Binds, own_name};
ghost use Rattle.node_rules.specs.Hoisting.{AnyDeclares, block_ids, catch_ids, last_ids, clause_bodies, decl_texts, init_texts, own_texts, fun_texts, caught_texts, bound_texts};

use code_units::{Memory, Text};
use js_tree::{Clause, Decl, ForInit, FunId, Stmt, StmtId, Tree};
use std::alloc::Global;

/// The names that a function binds.
pub fn names_of_fun(alloc: Global, tree: &Tree, id: FunId) -> Result<Vec<Text>, Memory>
    requires { IsFun (trees tree.now) id }
    ensures { IfOk result (λ v. (q : List ℕ) → In q v.items ↔ Binds (AFun (fun_at (trees tree.now) id)) q) }
{
    let node = tree.fun(id);
    let mut names = Vec::new(alloc);
    add_option(&mut names, &node.name)?;
    add_all(&mut names, &node.params)?;
    add_funs(&mut names, tree, &node.funs)?;
    hoist(alloc, tree, &node.body, &mut names)?;
    Ok(names)
}

/// The names that a statement binds in its scope: that of a catch.
pub fn names_of_stmt(alloc: Global, node: &Stmt) -> Result<Vec<Text>, Memory>
    ensures { IfOk result (λ v. v.items ≡ bound_texts node.now) }
{
    match node {
        Stmt::Try(_, caught, _) => names_of_catch(alloc, caught),
        _ => Ok(Vec::new(alloc)),
    }
}

fn names_of_catch(alloc: Global, caught: &Option<(Text, Vec<StmtId>)>) -> Result<Vec<Text>, Memory>
    ensures { IfOk result (λ v. v.items ≡ caught_texts caught.now) }
{
    let mut names = Vec::new(alloc);
    match caught {
        Some((name, _)) => {
            names.push(name.share()?)?;
            Ok(names)
        }
        None => Ok(names),
    }
}

fn add_option(names: &mut Vec<Text>, name: &Option<Text>) -> Result<(), Memory>
    ensures { OnOk result (names.new.items ≡ names.old.items ++ option_to_list name.now) }
{
    match name {
        Some(name) => {
            names.push(name.share()?)?;
            Ok(())
        }
        None => Ok(()),
    }
}

fn add_all(names: &mut Vec<Text>, list: &[Text]) -> Result<(), Memory>
    ensures { OnOk result (names.new.items ≡ names.old.items ++ list.now) }
{
    'list: for name in list {
        names.push(name.share()?)?;
    }
    Ok(())
}

fn add_decls(names: &mut Vec<Text>, list: &[Decl]) -> Result<(), Memory>
    ensures { OnOk result (names.new.items ≡ names.old.items ++ decl_texts list.now) }
{
    'list: for decl in list {
        names.push(decl.name.share()?)?;
    }
    Ok(())
}

fn add_funs(names: &mut Vec<Text>, tree: &Tree, list: &[FunId]) -> Result<(), Memory>
    requires { All (IsFun (trees tree.now)) list.now }
    ensures { OnOk result (names.new.items ≡ names.old.items ++ fun_texts (trees tree.now) list.now) }
{
    'list: for id in list {
        add_fun(names, tree, *id)?;
    }
    Ok(())
}

fn add_fun(names: &mut Vec<Text>, tree: &Tree, id: FunId) -> Result<(), Memory>
    requires { IsFun (trees tree.now) id }
    ensures { OnOk result (names.new.items ≡ names.old.items ++ own_name (fun_at (trees tree.now) id)) }
{
    add_option(names, &tree.fun(id).name)
}

/// Adds the names that the statements declare.
fn hoist(alloc: Global, tree: &Tree, body: &[StmtId], names: &mut Vec<Text>) -> Result<(), Memory>
    requires { All (IsStmt (trees tree.now)) body.now }
    ensures { OnOk result ((q : List ℕ)
        → In q names.new.items ↔ (In q names.old.items ⊎ AnyDeclares (trees tree.now) body.now q)) }
{
    let mut left: Vec<StmtId> = Vec::new(alloc);
    left.extend_from_slice(body)?;
    'left: while let Some(id) = left.pop() {
        let node = tree.stmt(id);
        add_own(names, node)?;
        add_blocks(&mut left, node)?;
    }
    Ok(())
}

// Adds statements to what is left.
fn add_stmts(left: &mut Vec<StmtId>, ids: &[StmtId]) -> Result<(), Memory>
    ensures { OnOk result (left.new.items ≡ left.old.items ++ ids.now) }
{
    left.extend_from_slice(ids)?;
    Ok(())
}

// Adds what stands in the blocks of the statement to what is left.
fn add_blocks(left: &mut Vec<StmtId>, node: &Stmt) -> Result<(), Memory>
    ensures { OnOk result (left.new.items ≡ left.old.items ++ block_ids node.now) }
{
    match node {
        Stmt::If(_, a, b) => {
            add_stmts(left, a)?;
            add_stmts(left, b)
        }
        Stmt::While(_, body)
        | Stmt::DoWhile(_, body)
        | Stmt::With(_, body)
        | Stmt::For(_, _, _, body)
        | Stmt::ForIn(_, _, _, body) => add_stmts(left, body),
        Stmt::Switch(_, clauses) => add_bodies(left, clauses),
        Stmt::Try(body, caught, last) => {
            add_stmts(left, body)?;
            add_caught(left, caught)?;
            add_last(left, last)
        }
        Stmt::Label(_, s) => add_stmts(left, &[*s]),
        _ => Ok(()),
    }
}

// Adds the names that the statement itself declares.
fn add_own(names: &mut Vec<Text>, node: &Stmt) -> Result<(), Memory>
    ensures { OnOk result (names.new.items ≡ names.old.items ++ own_texts node.now) }
{
    match node {
        Stmt::Var(decls) => add_decls(names, decls),
        Stmt::For(first, _, _, _) => add_first(names, first),
        Stmt::ForIn(declared, name, _, _) => {
            if *declared {
                names.push(name.share()?)?;
            }
            Ok(())
        }
        _ => Ok(()),
    }
}

fn add_first(names: &mut Vec<Text>, first: &ForInit) -> Result<(), Memory>
    ensures { OnOk result (names.new.items ≡ names.old.items ++ init_texts first.now) }
{
    match first {
        ForInit::Var(decls) => add_decls(names, decls),
        ForInit::List(_) => Ok(()),
    }
}

fn add_bodies(left: &mut Vec<StmtId>, list: &[Clause]) -> Result<(), Memory>
    ensures { OnOk result (left.new.items ≡ left.old.items ++ clause_bodies list.now) }
{
    'list: for clause in list {
        add_stmts(left, &clause.body)?;
    }
    Ok(())
}

fn add_caught(left: &mut Vec<StmtId>, caught: &Option<(Text, Vec<StmtId>)>) -> Result<(), Memory>
    ensures { OnOk result (left.new.items ≡ left.old.items ++ catch_ids caught.now) }
{
    match caught {
        Some((_, block)) => add_stmts(left, block),
        None => Ok(()),
    }
}

fn add_last(left: &mut Vec<StmtId>, last: &Option<Vec<StmtId>>) -> Result<(), Memory>
    ensures { OnOk result (left.new.items ≡ left.old.items ++ last_ids last.now) }
{
    match last {
        Some(block) => add_stmts(left, block),
        None => Ok(()),
    }
}
