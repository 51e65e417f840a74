//! What the definitions mean, as the contracts of functions that do nothing.
ghost use Rattle.std.specs.Prelude.{◌≡◌, ◌⊎◌, ℕ, List, true};
ghost use Rattle.js_tree.specs.Plain.{Expr, Stmt, Stmts};
ghost use Rattle.js_tree.specs.Parts.{Spot, AnExpr, AStmt};
ghost use Rattle.adsafe_rules.specs.declared.scope.Scope.{Scope};
ghost use Rattle.node_rules.specs.declared.rule_numbers.TheConstants.{A09, A18};
ghost use Rattle.node_rules.specs.Forms.{is_allowed_callee, is_directive};
ghost use Rattle.node_rules.specs.Parts.{Stands};
ghost use Rattle.adsafe_rules.specs.Rows.{Broken, AnyFound};
ghost use Rattle.adsafe_rules.specs.Program.{First, IsClean, is_opening, opening_functions};

/// A text has at most one first broken rule, and breaks none where it has no first.
pub fn one_first()
    ensures one { (program : Stmts) (scope : Scope) (r p s q : ℕ) → First program scope r p → First program scope s q
        → (r ≡ s) × (p ≡ q) }
    ensures some { (program : Stmts) (scope : Scope) → ((r p : ℕ) → ¬ First program scope r p) → IsClean program scope }
{}

/// The callee of a call that A09 allows is passed over: it breaks no other rule.
pub fn callee_breaks()
    ensures { (env around : List Spot) (e : Expr) (m : Spot) (r p : ℕ) → is_allowed_callee e ≡ true
        → Stands env (AnExpr e) around m → Broken around m r p → r ≡ A09 }
{}

/// A function's `"use strict";` is passed over: it breaks no rule but A18, which exempts it.
pub fn directive_breaks()
    ensures { (env around : List Spot) (s : Stmt) (m : Spot) (r p : ℕ) → is_directive s ≡ true
        → Stands env (AStmt s) around m → Broken around m r p → r ≡ A18 }
{}

/// The call with which a text begins is passed over, but for its function: it breaks no rule but A09, which exempts it.
pub fn opening_breaks()
    ensures { (scope : Scope) (env around : List Spot) (s m : Spot) (r p : ℕ) → is_opening scope s ≡ true
        → Stands env s around m → Broken around m r p → (r ≡ A09) ⊎ AnyFound env (opening_functions s) r p }
{}
