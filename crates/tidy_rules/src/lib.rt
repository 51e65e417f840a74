//! Laws on the rules of a text, and of its tidied text.
//!
//! The functions do nothing: their contracts are the laws.
#![tactic(auto)]

ghost use Rattle.std.specs.Prelude.{◌≡◌, ℕ, List};
ghost use Rattle.js_grammar.specs.Unplaced.{unplaced_stmts};
ghost use Rattle.js_tree.specs.Plain.{Stmts};
ghost use Rattle.adsafe_rules.specs.declared.scope.Scope.{Scope};
ghost use Rattle.adsafe_rules.specs.Program.{IsClean};
ghost use Rattle.js_print.specs.Tidy.{tidy};
ghost use Rattle.script_check.specs.Script.{IsScript, ScriptFirst};
ghost use Rattle.tidy_rules.specs.Stays.{StaysClean};
ghost use Rattle.tidy_laws.specs.Laws.{IsTidied};
ghost use Rattle.tidy_laws.specs.Tame.{TameStmts};

/// In a program that breaks no rule neither `new` nor the operator `in` stands. So the tidied text
/// of a script that breaks no rule is read as its program, apart from places, with no token deeper
/// than 200 links.
pub fn accepted_is_tame()
    ensures tame { (p : Stmts) (scope : Scope) → IsClean p scope → TameStmts p }
    ensures no_deeper { (bytes : List ℕ) (scope : Scope) (p : Stmts) → IsScript bytes scope p → IsTidied 200 p }
{}

/// The rules do not look at places: of two programs that agree apart from places, one breaks no
/// rule where the other breaks none.
pub fn rules_ignore_places()
    ensures { (p q : Stmts) (scope : Scope) → unplaced_stmts q ≡ unplaced_stmts p → IsClean p scope → IsClean q scope }
{}

/// The tidied text of a script that breaks no rule breaks none at the same position, as a library's
/// does: its program is the same, apart from places, and tidied once more it stays as it is.
pub fn tidied_breaks_no_rule()
    ensures clean { (bytes : List ℕ) (scope : Scope) (p : Stmts) → IsScript bytes scope p → StaysClean scope p }
    ensures no_rule { (bytes : List ℕ) (scope : Scope) (p : Stmts) (rule at : ℕ) → IsScript bytes scope p
        → ScriptFirst (tidy p) scope rule at → ⊥ }
{}
