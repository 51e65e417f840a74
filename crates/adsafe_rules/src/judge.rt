//! The first broken rule of a text.
ghost use Rattle.std.specs.Prelude.{◌≡◌, All, map, drop, option_to_list, IfSome, true, IfOk, IfErr, OnOk, None};
ghost use Rattle.first_breach.specs.Breaches.{Nothing, Each};
ghost use Rattle.first_breach.specs.Narrowing.{Narrows};
ghost use Rattle.js_tree.specs.Trees.{trees, program_of};
ghost use Rattle.js_tree.specs.Forest.{IsExpr, IsStmt, IsFun, expr_at, stmt_at, fun_at};
ghost use Rattle.js_tree.specs.Parts.{AStmt, AFun};
ghost use Rattle.node_rules.specs.Names.{literal};
ghost use Rattle.node_rules.specs.Hoisting.{stmt_spot};
ghost use Rattle.adsafe_rules.specs.Program.{is_opening, opening_names, opening_functions, opened_names, opened_functions, lib_names, tops, Breaks, IsClean};
ghost use Rattle.adsafe_rules.specs.Openings.{NameRow, OpeningRows, SecondRow, ProgramRows};
ghost use Rattle.adsafe_rules.specs.Walk.{Pushes};
ghost use Rattle.adsafe_rules.specs.Accepting.{IsFault};
ghost use Rattle.adsafe_rules.specs.Accepts.{Accepts};

use crate::accepted::Accepted;
use crate::opening::{is_opening, is_opening_name, opening_function, opening_string};
use crate::scope::{CheckFault, Scope};
use crate::walk::visit;
use code_units::{Memory, Text};
use first_breach::{Breach, offer};
use js_tree::{ExprId, FunId, Part, StmtId, Tree};
use node_rules::enclosing::Enclosing;
use node_rules::pushes::{Work, push_stmts};
use node_rules::rule_numbers::A02;
use node_rules::shapes::literal;
use std::alloc::Global;

// A02 of a string that is handed over.
#[tactic(auto, using(first_breach::proofs::Narrowing::each_none, first_breach::proofs::Narrowing::each_one))]
fn name_rule(tree: &Tree, scope: &Scope, id: ExprId, best: Option<Breach>) -> Option<Breach>
    requires { IsExpr (trees tree.now) id }
    ensures { Narrows (Each (NameRow scope.now) (literal (expr_at (trees tree.now) id))) best Nothing result }
{
    match literal(tree, id) {
        Some(text) => {
            let wrong = !is_opening_name(scope, text);
            offer(best, wrong, A02, tree.expr_at(id))
        }
        None => best,
    }
}

// A02 of the names of a call.
#[tactic(auto, using(first_breach::proofs::Narrowing::each_none))]
fn names_rule(tree: &Tree, scope: &Scope, id: StmtId, best: Option<Breach>) -> Option<Breach>
    requires { IsStmt (trees tree.now) id }
    ensures { Narrows (Each (NameRow scope.now)
        (opening_names (AStmt (stmt_at (trees tree.now) id)))) best Nothing result }
{
    match opening_string(tree, id) {
        Some(a) => name_rule(tree, scope, a, best),
        None => best,
    }
}

// A02 of the first statement.
fn opening_rule(tree: &Tree, scope: &Scope, id: StmtId, best: Option<Breach>) -> Option<Breach>
    requires { IsStmt (trees tree.now) id }
    ensures { Narrows (OpeningRows scope.now (AStmt (stmt_at (trees tree.now) id))) best Nothing result }
{
    if is_opening(tree, scope, id) {
        names_rule(tree, scope, id, best)
    } else {
        offer(best, true, A02, tree.stmt_at(id))
    }
}

// A02 of a second statement.
fn second_rule(tree: &Tree, list: &[StmtId], best: Option<Breach>) -> Option<Breach>
    requires { All (IsStmt (trees tree.now)) list.now }
    ensures { Narrows (SecondRow (map (stmt_spot (trees tree.now)) (drop 1 list.now))) best Nothing result }
{
    if list.len() < 2 {
        return best;
    }
    offer(best, true, A02, tree.stmt_at(list[1]))
}

// A02.
fn program_rule(tree: &Tree, scope: &Scope, list: &[StmtId]) -> Option<Breach>
    requires { All (IsStmt (trees tree.now)) list.now }
    ensures { Narrows (ProgramRows scope.now (map (stmt_spot (trees tree.now)) list.now)) None Nothing result }
{
    if list.len() == 0 {
        return offer(None, true, A02, 0);
    }
    let best = opening_rule(tree, scope, list[0], None);
    second_rule(tree, list, best)
}

/// Puts what the other rules judge on the stack.
fn push_tops(
    work: &mut Vec<Work>,
    tree: &Tree,
    scope: &Scope,
    list: &[StmtId],
) -> Result<(), Memory>
    requires { All (IsStmt (trees tree.now)) list.now }
    ensures { OnOk result (Pushes (trees tree.now) 0
        (tops scope.now (map (stmt_spot (trees tree.now)) list.now)) work.old.items work.new.items) }
{
    if list.len() == 0 {
        return Ok(());
    }
    if is_opening(tree, scope, list[0]) {
        push_opening(work, tree, list[0])?;
        push_stmts(work, &list[1..], 0)?;
        Ok(())
    } else {
        push_stmts(work, list, 0)?;
        Ok(())
    }
}

/// Puts the function of the call on the stack.
fn push_opening(work: &mut Vec<Work>, tree: &Tree, id: StmtId) -> Result<(), Memory>
    requires { IsStmt (trees tree.now) id }
    ensures { OnOk result (Pushes (trees tree.now) 0
        (opening_functions (AStmt (stmt_at (trees tree.now) id))) work.old.items work.new.items) }
{
    match opening_function(tree, id) {
        Some(fun) => {
            work.push(Work {
                part: Part::Fun(fun),
                depth: 0,
            })?;
            Ok(())
        }
        None => Ok(()),
    }
}

/// The first breach of a text.
fn search(alloc: Global, tree: &Tree, scope: &Scope) -> Result<Option<Breach>, Memory>
    ensures { IfOk result (λ b. Narrows (Breaks (program_of tree.now) scope.now) None Nothing b) }
{
    let list = tree.program();
    let mut best = program_rule(tree, scope, list);
    let mut work = Vec::new(alloc);
    push_tops(&mut work, tree, scope, list)?;
    let mut enclosing = Enclosing::new(alloc);
    'walk: while let Some(next) = work.pop() {
        best = visit(alloc, tree, next, &mut work, &mut enclosing, best)?;
    }
    Ok(best)
}

/// The name of a library that a text declares.
fn lib_name_in(tree: &Tree, scope: &Scope, list: &[StmtId]) -> Result<Option<Text>, Memory>
    requires { All (IsStmt (trees tree.now)) list.now }
    ensures { IfOk result (λ x. map (λ n. n.text) (lib_names scope.now (map (stmt_spot (trees tree.now)) list.now))
        ≡ option_to_list x) }
{
    match scope {
        Scope::Lib => first_name(tree, list),
        _ => Ok(None),
    }
}

/// The string that the first statement hands over.
fn first_name(tree: &Tree, list: &[StmtId]) -> Result<Option<Text>, Memory>
    requires { All (IsStmt (trees tree.now)) list.now }
    ensures { IfOk result (λ x. map (λ n. n.text) (opened_names (map (stmt_spot (trees tree.now)) list.now))
        ≡ option_to_list x) }
{
    if list.len() == 0 {
        return Ok(None);
    }
    match opening_string(tree, list[0]) {
        Some(a) => shared_literal(tree, a),
        None => Ok(None),
    }
}

/// The value of a string literal.
fn shared_literal(tree: &Tree, id: ExprId) -> Result<Option<Text>, Memory>
    requires { IsExpr (trees tree.now) id }
    ensures { IfOk result (λ x. map (λ n. n.text) (literal (expr_at (trees tree.now) id)) ≡ option_to_list x) }
{
    match literal(tree, id) {
        Some(text) => Ok(Some(text.share()?)),
        None => Ok(None),
    }
}

/// The function that the first statement hands over.
fn first_function(tree: &Tree, list: &[StmtId]) -> Option<FunId>
    requires { All (IsStmt (trees tree.now)) list.now }
    ensures same { opened_functions (map (stmt_spot (trees tree.now)) list.now)
        ≡ map (λ g. AFun (fun_at (trees tree.now) g)) (option_to_list result) }
    ensures inside { IfSome result (IsFun (trees tree.now)) }
{
    if list.len() == 0 {
        return None;
    }
    opening_function(tree, list[0])
}

/// What an accepted text holds.
fn accept(tree: Tree, scope: &Scope) -> Result<Accepted, Memory>
    requires { IsClean (program_of tree) scope.now }
    ensures { IfOk result (Accepts tree scope.now) }
{
    let fun = first_function(&tree, tree.program());
    let lib_name = lib_name_in(&tree, scope, tree.program())?;
    let position = scope.share()?;
    Ok(Accepted {
        tree,
        scope: position,
        fun,
        lib_name,
    })
}

/// Judges a tree at its position by the rules A02 to A19. A refused tree is dropped.
///
/// # Errors
/// `Broken` exactly where the tree has a first broken rule, with its number and place.
pub fn check(alloc: Global, tree: Tree, scope: &Scope) -> Result<Accepted, CheckFault>
    ensures accepts { IfOk result (Accepts tree scope.now) }
    ensures refuses { IfErr result (IsFault (program_of tree) scope.now) }
{
    match search(alloc, &tree, scope)? {
        Some(b) => Err(CheckFault::Broken {
            rule: b.rule,
            at: b.at,
        }),
        None => Ok(accept(tree, scope)?),
    }
}
