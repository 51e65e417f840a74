//! What a node breaks itself: its rows, one after the other.
ghost use Rattle.std.specs.Prelude.{List};
ghost use Rattle.first_breach.specs.Breaches.{Nothing, Each};
ghost use Rattle.first_breach.specs.Narrowing.{Narrows};
ghost use Rattle.js_tree.specs.Plain.{ExprAt};
ghost use Rattle.js_tree.specs.Forest.{IsExpr, IsStmt, IsFun, expr_at, stmt_at, fun_at, plain_form, AreExprParts};
ghost use Rattle.js_tree.specs.Parts.{Spot, AnExpr, AStmt, AFun};
ghost use Rattle.js_tree.specs.Trees.{trees};
ghost use Rattle.node_rules.specs.Names.{properties};
ghost use Rattle.node_rules.specs.Enclosing.{IsEnclosing, env_of};
ghost use Rattle.node_rules.specs.Sets.{PropertyRow};
ghost use Rattle.adsafe_rules.specs.Rows.{Broken};

use first_breach::{Breach, offer};
use js_tree::{Expr, ExprId, FunId, StmtId, Tree};
use node_rules::enclosing::Enclosing;
use node_rules::forms::{is_stray, is_with};
use node_rules::rows::{
    after_first, bound, bound_names, bound_variables, form_rules, key_names, place_at, property,
    random_rule, subscript_rule, target_rule, used_name, used_variable, written_loop_variable,
    wrong_target_rule,
};
use node_rules::rule_numbers::{A11, A16, A18};
use node_rules::shapes::{is_idle, literal};

// The names of properties in an expression: A03 and A05.
#[tactic(auto, using(first_breach::proofs::Narrowing::each_none, first_breach::proofs::Narrowing::each_one))]
fn property_rules(
    tree: &Tree,
    node: &Expr,
    at: usize,
    places: &[usize],
    best: Option<Breach>,
) -> Option<Breach>
    requires { AreExprParts (trees tree.now) node.now }
    ensures { Narrows (Each PropertyRow
        (properties (AnExpr (ExprAt at places.now (plain_form (trees tree.now) node.now))))) best Nothing result }
{
    match node {
        Expr::Dot(_, name) => property(name, place_at(places, 0, at), best),
        Expr::Object(list) => key_names(list, places, at, best),
        Expr::Sub(_, key) => match literal(tree, *key) {
            Some(text) => property(text, tree.expr_at(*key), best),
            None => best,
        },
        _ => best,
    }
}

/// What an expression itself breaks.
pub fn expr_rules(
    tree: &Tree,
    id: ExprId,
    enclosing: &Enclosing,
    best: Option<Breach>,
) -> Option<Breach>
    requires inside { IsExpr (trees tree.now) id }
    requires enclosing { IsEnclosing (trees tree.now) enclosing.now }
    ensures { Narrows (Broken (env_of (trees tree.now) enclosing.now.stack.items)
        (AnExpr (expr_at (trees tree.now) id))) best Nothing result }
{
    let node = tree.expr(id);
    let at = tree.expr_at(id);
    let places = tree.expr_names(id);
    let best = form_rules(node, at, best);
    let best = used_name(node, at, enclosing, best);
    let best = property_rules(tree, node, at, places, best);
    let best = random_rule(tree, node, at, places, best);
    let best = target_rule(tree, node, best);
    let best = subscript_rule(tree, node, best);
    wrong_target_rule(tree, node, best)
}

/// What a statement itself breaks.
pub fn stmt_rules(
    tree: &Tree,
    id: StmtId,
    enclosing: &Enclosing,
    best: Option<Breach>,
) -> Option<Breach>
    requires inside { IsStmt (trees tree.now) id }
    requires enclosing { IsEnclosing (trees tree.now) enclosing.now }
    ensures { Narrows (Broken (env_of (trees tree.now) enclosing.now.stack.items)
        (AStmt (stmt_at (trees tree.now) id))) best Nothing result }
{
    let node = tree.stmt(id);
    let at = tree.stmt_at(id);
    let places = tree.stmt_names(id);
    let best = offer(best, is_with(node), A11, at);
    let best = offer(best, is_stray(enclosing.jumps(), node), A16, at);
    let best = offer(best, is_idle(tree, node), A18, at);
    let best = used_variable(node, at, places, enclosing, best);
    let best = bound_variables(node, at, places, best);
    written_loop_variable(node, at, places, best)
}

/// What a function itself breaks.
pub fn fun_rules(tree: &Tree, id: FunId, best: Option<Breach>) -> Option<Breach>
    requires inside { IsFun (trees tree.now) id }
    ensures { (env : List Spot) → Narrows (Broken env (AFun (fun_at (trees tree.now) id))) best Nothing result }
{
    let node = tree.fun(id);
    let places = tree.fun_names(id);
    match &node.name {
        Some(name) => {
            let best = bound(name, place_at(places, 0, node.at), best);
            bound_names(&node.params, after_first(places), node.at, best)
        }
        None => bound_names(&node.params, places, node.at, best),
    }
}
