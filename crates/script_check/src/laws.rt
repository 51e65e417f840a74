//! Laws above the definitions.
ghost use Rattle.std.specs.Prelude.{◌≡◌, ◌↔◌, ℕ, List, Bool};
ghost use Rattle.adsafe_rules.specs.declared.scope.Scope.{Scope};
ghost use Rattle.script_check.specs.Script.{ScriptFirst, IsCleanScript};
ghost use Rattle.script_check.specs.Line.{IsLine, IsTidied};

/// A script breaks at most one rule first, at one byte, and is clean exactly where it breaks none
/// first; a library has one line, and one tidied text.
pub fn one_verdict()
    ensures first { (bytes : List ℕ) (scope : Scope) (rule at other place : ℕ) → ScriptFirst bytes scope rule at
        → ScriptFirst bytes scope other place → (rule ≡ other) × (at ≡ place) }
    ensures clean { (bytes : List ℕ) (scope : Scope)
        → IsCleanScript bytes scope ↔ ((rule at : ℕ) → ¬ ScriptFirst bytes scope rule at) }
    ensures line { (name file b c : List ℕ) (r s : Bool) → IsLine name file r b → IsLine name file s c
        → (r ≡ s) × (b ≡ c) }
    ensures some_line { (name file : List ℕ) → ¬ ((r : Bool) (b : List ℕ) → ¬ IsLine name file r b) }
    ensures tidied { (name file b c : List ℕ) (r s : Bool) → IsTidied name file r b → IsTidied name file s c
        → (r ≡ s) × (b ≡ c) }
    ensures some_tidied { (name file : List ℕ) → ¬ ((r : Bool) (b : List ℕ) → ¬ IsTidied name file r b) }
{}
