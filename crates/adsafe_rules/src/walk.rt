//! The walk over a tree.
ghost use Rattle.std.specs.Prelude.{◌≡◌, ◌<◌, [], ◌∷◌, ◌++◌, false, length, IfOk, OnOk};
ghost use Rattle.first_breach.specs.Breaches.{Nothing};
ghost use Rattle.first_breach.specs.Narrowing.{Narrows};
ghost use Rattle.js_tree.specs.Trees.{trees};
ghost use Rattle.js_tree.specs.Forest.{IsStmt, IsFun, stmt_at, fun_at};
ghost use Rattle.js_tree.specs.Parts.{AStmt, AFun, spot_at, IsIn};
ghost use Rattle.node_rules.specs.Parts.{outer};
ghost use Rattle.node_rules.specs.Enclosing.{IsEnclosing, env_of};
ghost use Rattle.node_rules.specs.Work.{inner_work};
ghost use Rattle.adsafe_rules.specs.Rows.{Broken};
ghost use Rattle.adsafe_rules.specs.Walk.{Pushes, Opens, IsGoing, Left, load};

use crate::rows::{expr_rules, fun_rules, stmt_rules};
use code_units::Memory;
use first_breach::Breach;
use js_tree::{FunId, Part, Stmt, StmtId, Tree};
use node_rules::binding::{names_of_fun, names_of_stmt};
use node_rules::enclosing::{Enclosing, Jumps};
use node_rules::forms::stmt_jumps;
use node_rules::pushes::{Work, push_expr_parts, push_fun_parts, push_inner, push_outer};
use std::alloc::Global;

/// What a node itself breaks.
fn own_rules(tree: &Tree, part: Part, enclosing: &Enclosing, best: Option<Breach>) -> Option<Breach>
    requires inside { IsIn (trees tree.now) part }
    requires enclosing { IsEnclosing (trees tree.now) enclosing.now }
    ensures { Narrows (Broken (env_of (trees tree.now) enclosing.now.stack.items)
        (spot_at (trees tree.now) part)) best Nothing result }
{
    match part {
        Part::Expr(id) => expr_rules(tree, id, enclosing, best),
        Part::Stmt(id) => stmt_rules(tree, id, enclosing, best),
        Part::Fun(id) => fun_rules(tree, id, best),
    }
}

/// Puts the parts that stand outside what a node opens on the stack.
fn push_outside(work: &mut Vec<Work>, tree: &Tree, next: Work) -> Result<(), Memory>
    requires { IsIn (trees tree.now) next.part }
    ensures { OnOk result (Pushes (trees tree.now) next.depth
        (outer (spot_at (trees tree.now) next.part)) work.old.items work.new.items) }
{
    match next.part {
        Part::Expr(id) => {
            push_expr_parts(work, tree, tree.expr(id), next.depth)?;
            Ok(())
        }
        Part::Stmt(id) => {
            push_outer(work, tree.stmt(id), next.depth)?;
            Ok(())
        }
        Part::Fun(_) => Ok(()),
    }
}

/// Whether something may stand inside what the statement opens.
fn opens(node: &Stmt) -> bool
    ensures { result ≡ false → inner_work node.now ≡ [] }
{
    match node {
        Stmt::While(_, _)
        | Stmt::DoWhile(_, _)
        | Stmt::For(_, _, _, _)
        | Stmt::ForIn(_, _, _, _)
        | Stmt::Switch(_, _)
        | Stmt::Try(_, Some(_), _) => true,
        _ => false,
    }
}

fn open_stmt(
    alloc: Global,
    tree: &Tree,
    id: StmtId,
    depth: usize,
    work: &mut Vec<Work>,
    enclosing: &mut Enclosing,
) -> Result<(), Memory>
    requires inside { IsStmt (trees tree.now) id }
    requires depth { length enclosing.old.stack.items ≡ depth }
    requires enclosing { IsEnclosing (trees tree.now) enclosing.old }
    ensures { OnOk result (Opens (trees tree.now) depth
        (AStmt (stmt_at (trees tree.now) id)) enclosing.old enclosing.new work.old.items work.new.items) }
{
    let node = tree.stmt(id);
    if !opens(node) {
        return Ok(());
    }
    let names = names_of_stmt(alloc, node)?;
    let jumps = stmt_jumps(enclosing.jumps(), node);
    enclosing.enter(Part::Stmt(id), names, jumps)?;
    push_inner(work, node, depth + 1)?;
    Ok(())
}

fn open_fun(
    alloc: Global,
    tree: &Tree,
    id: FunId,
    depth: usize,
    work: &mut Vec<Work>,
    enclosing: &mut Enclosing,
) -> Result<(), Memory>
    requires inside { IsFun (trees tree.now) id }
    requires depth { length enclosing.old.stack.items ≡ depth }
    requires enclosing { IsEnclosing (trees tree.now) enclosing.old }
    ensures { OnOk result (Opens (trees tree.now) depth
        (AFun (fun_at (trees tree.now) id)) enclosing.old enclosing.new work.old.items work.new.items) }
{
    let names = names_of_fun(alloc, tree, id)?;
    let jumps = Jumps {
        breaks: false,
        continues: false,
    };
    enclosing.enter(Part::Fun(id), names, jumps)?;
    push_fun_parts(work, tree, tree.fun(id), depth + 1)?;
    Ok(())
}

/// Opens what a node opens, and puts the parts that stand inside it on the stack.
fn push_inside(
    alloc: Global,
    tree: &Tree,
    next: Work,
    work: &mut Vec<Work>,
    enclosing: &mut Enclosing,
) -> Result<(), Memory>
    requires inside { IsIn (trees tree.now) next.part }
    requires depth { length enclosing.old.stack.items ≡ next.depth }
    requires enclosing { IsEnclosing (trees tree.now) enclosing.old }
    ensures { OnOk result (Opens (trees tree.now) next.depth
        (spot_at (trees tree.now) next.part) enclosing.old enclosing.new work.old.items work.new.items) }
{
    match next.part {
        Part::Expr(_) => Ok(()),
        Part::Stmt(id) => {
            open_stmt(alloc, tree, id, next.depth, work, enclosing)?;
            Ok(())
        }
        Part::Fun(id) => {
            open_fun(alloc, tree, id, next.depth, work, enclosing)?;
            Ok(())
        }
    }
}

/// Visits a node: keeps the least breach, and puts the parts on the stack.
pub fn visit(
    alloc: Global,
    tree: &Tree,
    next: Work,
    work: &mut Vec<Work>,
    enclosing: &mut Enclosing,
    best: Option<Breach>,
) -> Result<Option<Breach>, Memory>
    requires { IsGoing (trees tree.now) enclosing.old (work.old.items ++ next ∷ []) }
    ensures going { OnOk result (IsGoing (trees tree.now) enclosing.new work.new.items) }
    ensures narrows { IfOk result
        (λ new. Narrows (Left (trees tree.now) (env_of (trees tree.now) enclosing.old.stack.items)
        (work.old.items ++ next ∷ [])) best
        (Left (trees tree.now) (env_of (trees tree.now) enclosing.new.stack.items) work.new.items) new) }
    ensures lighter { OnOk result
        (load (trees tree.now) work.new.items < load (trees tree.now) (work.old.items ++ next ∷ [])) }
{
    enclosing.leave_to(next.depth);
    let least = own_rules(tree, next.part, enclosing, best);
    push_outside(work, tree, next)?;
    push_inside(alloc, tree, next, work, enclosing)?;
    Ok(least)
}
