//! What a node breaks, rule by rule.
ghost use Rattle.std.specs.Prelude.{◌≡◌, ℕ, List, [], ◌∷◌, map, drop, slice_index_or, if◌then◌else◌};
ghost use Rattle.first_breach.specs.Breaches.{Nothing, One, If, Each};
ghost use Rattle.first_breach.specs.Narrowing.{Narrows};
ghost use Rattle.js_tree.specs.Plain.{ExprAt, StmtAt, expr_place};
ghost use Rattle.js_tree.specs.Forest.{Forest, IsExpr, expr_at, plain_form, plain_stmt_form, init_at, AreExprParts};
ghost use Rattle.js_tree.specs.Parts.{AnExpr, AStmt};
ghost use Rattle.js_tree.specs.Trees.{trees};
ghost use Rattle.node_rules.specs.Names.{named, placed, literal, variable, uses, binders, properties, targets, decl_name, first_names};
ghost use Rattle.node_rules.specs.Forms.{is_of_math, is_target, is_property, wrong_subscripts, wrong_targets};
ghost use Rattle.node_rules.specs.Enclosing.{IsCounted, AreKnown, env_of};
ghost use Rattle.node_rules.specs.Sets.{Unbound, UseRow, BinderRow, TargetRow, PropertyRow, RandomRow, FormRows};

use crate::enclosing::Enclosing;
use crate::forms::{
    is_adsafe, is_bitwise, is_dropping, is_loose_equality, is_this, is_typed, is_wrong_number,
};
use crate::rule_numbers::{A03, A04, A05, A06, A07, A08, A09, A10, A12, A13, A14, A15, A17, A19};
use crate::shapes::{is_name, is_property, is_subscript, is_target, literal, variable};
use crate::words::{is_global, is_reaching, is_word};
use code_units::{Text, has_edge_underscore, is_banned};
use first_breach::{Breach, offer};
use js_tree::{Decl, Expr, ExprId, ForInit, Stmt, Tree, UnOp};

// A06 of a name that is used.
fn unbound(name: &Text, at: usize, enclosing: &Enclosing, best: Option<Breach>) -> Option<Breach>
    requires { IsCounted enclosing.now }
    ensures { (f : Forest) → AreKnown f enclosing.now.stack.items
        → Narrows (Unbound (env_of f enclosing.now.stack.items) (named name.now at)) best Nothing result }
{
    if enclosing.binds(name) {
        return best;
    }
    if is_global(name) {
        return best;
    }
    offer(best, true, A06, at)
}

/// A name that is used: A03, A05 and A06.
fn used(name: &Text, at: usize, enclosing: &Enclosing, best: Option<Breach>) -> Option<Breach>
    requires { IsCounted enclosing.now }
    ensures { (f : Forest) → AreKnown f enclosing.now.stack.items
        → Narrows (UseRow (env_of f enclosing.now.stack.items) (named name.now at)) best Nothing result }
{
    let best = offer(best, has_edge_underscore(name), A03, at);
    let best = offer(best, is_reaching(name), A05, at);
    unbound(name, at, enclosing, best)
}

/// A name that is bound: A03, A05 and A08.
pub fn bound(name: &Text, at: usize, best: Option<Breach>) -> Option<Breach>
    ensures { Narrows (BinderRow (named name.now at)) best Nothing result }
{
    let best = offer(best, has_edge_underscore(name), A03, at);
    let best = offer(best, is_reaching(name), A05, at);
    offer(best, is_global(name), A08, at)
}

/// A name that is written to: A08.
fn written(name: &Text, at: usize, best: Option<Breach>) -> Option<Breach>
    ensures { Narrows (TargetRow (named name.now at)) best Nothing result }
{
    offer(best, is_global(name), A08, at)
}

/// A property: A03 and A05.
pub fn property(name: &Text, at: usize, best: Option<Breach>) -> Option<Breach>
    ensures { Narrows (PropertyRow (named name.now at)) best Nothing result }
{
    let best = offer(best, has_edge_underscore(name), A03, at);
    offer(best, is_banned(name), A05, at)
}

/// The rules of an expression that its form alone decides.
pub fn form_rules(node: &Expr, at: usize, best: Option<Breach>) -> Option<Breach>
    ensures { (f : Forest) → Narrows (FormRows at (plain_form f node.now)) best Nothing result }
{
    let best = offer(best, is_this(node), A04, at);
    let best = offer(best, is_adsafe(node), A09, at);
    let best = offer(best, is_loose_equality(node), A12, at);
    let best = offer(best, is_bitwise(node), A13, at);
    let best = offer(best, is_typed(node), A14, at);
    let best = offer(best, is_dropping(node), A15, at);
    offer(best, is_wrong_number(node), A17, at)
}

/// The place of one of a node's names.
pub fn place_at(places: &[usize], i: usize, at: usize) -> usize
    ensures { result ≡ slice_index_or places.now i at }
{
    places.get(i).copied().unwrap_or(at)
}

/// The names of a function's parameters.
pub fn bound_names(
    list: &[Text],
    places: &[usize],
    at: usize,
    best: Option<Breach>,
) -> Option<Breach>
    ensures { Narrows (Each BinderRow (placed at places.now list.now)) best Nothing result }
{
    let mut least = best;
    'names: for (i, name) in list.iter().enumerate() {
        least = bound(name, place_at(places, i, at), least);
    }
    least
}

/// Declared variables.
fn bound_decls(list: &[Decl], best: Option<Breach>) -> Option<Breach>
    ensures { Narrows (Each BinderRow (map decl_name list.now)) best Nothing result }
{
    let mut least = best;
    'decls: for decl in list {
        least = bound(&decl.name, decl.at, least);
    }
    least
}

/// The keys of an object literal.
pub fn key_names(
    list: &[(Text, ExprId)],
    places: &[usize],
    at: usize,
    best: Option<Breach>,
) -> Option<Breach>
    ensures { Narrows (Each PropertyRow (placed at places.now (map (λ p. p.0) list.now))) best Nothing result }
{
    let mut least = best;
    'keys: for (i, (key, _)) in list.iter().enumerate() {
        least = property(key, place_at(places, i, at), least);
    }
    least
}

// A name as an expression: A03, A05 and A06.
#[tactic(auto, using(first_breach::proofs::Narrowing::each_none, first_breach::proofs::Narrowing::each_one))]
pub fn used_name(
    node: &Expr,
    at: usize,
    enclosing: &Enclosing,
    best: Option<Breach>,
) -> Option<Breach>
    requires { IsCounted enclosing.now }
    ensures { (f : Forest) (names : List ℕ) → AreKnown f enclosing.now.stack.items
        → Narrows (Each (UseRow (env_of f enclosing.now.stack.items))
        (uses (AnExpr (ExprAt at names (plain_form f node.now))))) best Nothing result }
{
    match node {
        Expr::Name(name) => used(name, at, enclosing, best),
        _ => best,
    }
}

// A10 of a property of `Math`.
fn random(name: &Text, at: usize, best: Option<Breach>) -> Option<Breach>
    ensures { Narrows (RandomRow (named name.now at)) best Nothing result }
{
    offer(best, is_word(name, b"random"), A10, at)
}

// A10.
#[tactic(auto, using(first_breach::proofs::Narrowing::each_none, first_breach::proofs::Narrowing::each_one, first_breach::proofs::Narrowing::narrows_if, first_breach::proofs::Narrowing::narrows_if_not))]
pub fn random_rule(
    tree: &Tree,
    node: &Expr,
    at: usize,
    places: &[usize],
    best: Option<Breach>,
) -> Option<Breach>
    requires { AreExprParts (trees tree.now) node.now }
    ensures { Narrows (If (is_of_math (plain_form (trees tree.now) node.now))
        (Each RandomRow (properties
        (AnExpr (ExprAt at places.now (plain_form (trees tree.now) node.now)))))) best Nothing result }
{
    match node {
        Expr::Dot(e, name) => {
            if is_name(tree, *e, b"Math") {
                random(name, place_at(places, 0, at), best)
            } else {
                best
            }
        }
        Expr::Sub(e, key) => {
            if is_name(tree, *e, b"Math") {
                random_literal(tree, *key, best)
            } else {
                best
            }
        }
        _ => best,
    }
}

#[tactic(auto, using(first_breach::proofs::Narrowing::each_none, first_breach::proofs::Narrowing::each_one))]
fn random_literal(tree: &Tree, id: ExprId, best: Option<Breach>) -> Option<Breach>
    requires { IsExpr (trees tree.now) id }
    ensures { Narrows (Each RandomRow (literal (expr_at (trees tree.now) id))) best Nothing result }
{
    match literal(tree, id) {
        Some(text) => random(text, tree.expr_at(id), best),
        None => best,
    }
}

// A08 of what an assignment or a step writes to.
#[tactic(auto, using(first_breach::proofs::Narrowing::each_none, first_breach::proofs::Narrowing::each_one))]
pub fn target_rule(tree: &Tree, node: &Expr, best: Option<Breach>) -> Option<Breach>
    requires { AreExprParts (trees tree.now) node.now }
    ensures { (at : ℕ) (names : List ℕ)
        → Narrows (Each TargetRow
        (targets (AnExpr (ExprAt at names (plain_form (trees tree.now) node.now))))) best Nothing result }
{
    match node {
        Expr::Assign(_, a, _) => written_variable(tree, *a, best),
        Expr::Step(_, a) => written_variable(tree, *a, best),
        _ => best,
    }
}

#[tactic(auto, using(first_breach::proofs::Narrowing::each_none, first_breach::proofs::Narrowing::each_one))]
fn written_variable(tree: &Tree, id: ExprId, best: Option<Breach>) -> Option<Breach>
    requires { IsExpr (trees tree.now) id }
    ensures { Narrows (Each TargetRow (variable (expr_at (trees tree.now) id))) best Nothing result }
{
    match variable(tree, id) {
        Some(name) => written(name, tree.expr_at(id), best),
        None => best,
    }
}

// A07.
#[tactic(auto, using(first_breach::proofs::Narrowing::each_none, first_breach::proofs::Narrowing::each_one))]
pub fn subscript_rule(tree: &Tree, node: &Expr, best: Option<Breach>) -> Option<Breach>
    requires { AreExprParts (trees tree.now) node.now }
    ensures { Narrows (Each (One A07) (wrong_subscripts (plain_form (trees tree.now) node.now))) best Nothing result }
{
    match node {
        Expr::Sub(_, key) => {
            if is_subscript(tree, *key) {
                best
            } else {
                offer(best, true, A07, tree.expr_at(*key))
            }
        }
        _ => best,
    }
}

// A19.
#[tactic(auto, using(first_breach::proofs::Narrowing::each_none, first_breach::proofs::Narrowing::each_one))]
pub fn wrong_target_rule(tree: &Tree, node: &Expr, best: Option<Breach>) -> Option<Breach>
    requires { AreExprParts (trees tree.now) node.now }
    ensures { Narrows (Each (One A19) (wrong_targets (plain_form (trees tree.now) node.now))) best Nothing result }
{
    match node {
        Expr::Assign(_, a, _) => assigned(tree, *a, best),
        Expr::Step(_, a) => assigned(tree, *a, best),
        Expr::Unary(UnOp::Delete, a) => deleted(tree, *a, best),
        _ => best,
    }
}

#[tactic(auto, using(first_breach::proofs::Narrowing::each_none, first_breach::proofs::Narrowing::each_one))]
fn assigned(tree: &Tree, id: ExprId, best: Option<Breach>) -> Option<Breach>
    requires { IsExpr (trees tree.now) id }
    ensures { let a = expr_at (trees tree.now) id in Narrows
        (Each (One A19) (if is_target a then [] else expr_place a ∷ [])) best Nothing result }
{
    if is_target(tree, id) {
        best
    } else {
        offer(best, true, A19, tree.expr_at(id))
    }
}

#[tactic(auto, using(first_breach::proofs::Narrowing::each_none, first_breach::proofs::Narrowing::each_one))]
fn deleted(tree: &Tree, id: ExprId, best: Option<Breach>) -> Option<Breach>
    requires { IsExpr (trees tree.now) id }
    ensures { let a = expr_at (trees tree.now) id in Narrows
        (Each (One A19) (if is_property a then [] else expr_place a ∷ [])) best Nothing result }
{
    if is_property(tree, id) {
        best
    } else {
        offer(best, true, A19, tree.expr_at(id))
    }
}

// The variable of a `for-in` without `var`: A03, A05 and A06.
#[tactic(auto, using(first_breach::proofs::Narrowing::each_none, first_breach::proofs::Narrowing::each_one))]
pub fn used_variable(
    node: &Stmt,
    at: usize,
    places: &[usize],
    enclosing: &Enclosing,
    best: Option<Breach>,
) -> Option<Breach>
    requires { IsCounted enclosing.now }
    ensures { (f : Forest) → AreKnown f enclosing.now.stack.items
        → Narrows (Each (UseRow (env_of f enclosing.now.stack.items))
        (uses (AStmt (StmtAt at places.now (plain_stmt_form f node.now))))) best Nothing result }
{
    match node {
        Stmt::ForIn(declared, name, _, _) => {
            if *declared {
                best
            } else {
                used(name, place_at(places, 0, at), enclosing, best)
            }
        }
        _ => best,
    }
}

// The variables that the first part of a `for` declares.
#[tactic(auto, using(first_breach::proofs::Narrowing::each_none))]
fn bound_first(first: &ForInit, best: Option<Breach>) -> Option<Breach>
    ensures { (f : Forest) → Narrows (Each BinderRow (first_names (init_at f first.now))) best Nothing result }
{
    match first {
        ForInit::Var(decls) => bound_decls(decls, best),
        ForInit::List(_) => best,
    }
}

// The names that a statement binds itself: A03, A05 and A08.
#[tactic(auto, using(first_breach::proofs::Narrowing::each_none, first_breach::proofs::Narrowing::each_one))]
pub fn bound_variables(
    node: &Stmt,
    at: usize,
    places: &[usize],
    best: Option<Breach>,
) -> Option<Breach>
    ensures { (f : Forest) → Narrows
        (Each BinderRow (binders (AStmt (StmtAt at places.now (plain_stmt_form f node.now))))) best Nothing result }
{
    match node {
        Stmt::Var(decls) => bound_decls(decls, best),
        Stmt::For(first, _, _, _) => bound_first(first, best),
        Stmt::ForIn(declared, name, _, _) => {
            if *declared {
                bound(name, place_at(places, 0, at), best)
            } else {
                best
            }
        }
        Stmt::Try(_, Some((name, _)), _) => bound(name, place_at(places, 0, at), best),
        _ => best,
    }
}

// The variable of a `for-in` without `var`: A08.
#[tactic(auto, using(first_breach::proofs::Narrowing::each_none, first_breach::proofs::Narrowing::each_one))]
pub fn written_loop_variable(
    node: &Stmt,
    at: usize,
    places: &[usize],
    best: Option<Breach>,
) -> Option<Breach>
    ensures { (f : Forest) → Narrows
        (Each TargetRow (targets (AStmt (StmtAt at places.now (plain_stmt_form f node.now))))) best Nothing result }
{
    match node {
        Stmt::ForIn(declared, name, _, _) => {
            if *declared {
                best
            } else {
                written(name, place_at(places, 0, at), best)
            }
        }
        _ => best,
    }
}

// The places of all names but the first.
pub fn after_first(places: &[usize]) -> &[usize]
    ensures { result.now ≡ drop 1 places.now }
{
    if places.is_empty() {
        places
    } else {
        &places[1..]
    }
}
