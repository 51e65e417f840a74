//! What the names of a function are for.
ghost use Rattle.std.specs.Prelude.{◌≡◌, ℕ, ◌++◌, List, Option, map, option_to_list};
ghost use Rattle.std.specs.List.{IsDistinct};
ghost use Rattle.std.specs.Str.{bytes_eq};
ghost use Rattle.js_tree.specs.Plain.{Fun};
ghost use Rattle.widget_meaning.specs.Values.{Value};
ghost use Rattle.widget_meaning.specs.Scopes.{call_scope, without_name};
ghost use Rattle.js_names.specs.declared.names.FunNames.{FunNames};
ghost use Rattle.js_names.specs.Names.{AreNames, first_pairs, own_pairs};

/// The scope of a call has the names with their first values: the arguments at their places, and the
/// function itself under its own name, which a declared one has not.
pub fn scopes_of_calls()
    ensures named { (g : Fun) (n : FunNames) (o : Option ℕ) (f : Value) (vs : List Value) → AreNames g n
        → call_scope g o f vs ≡ record { outer = o; pairs = first_pairs n.names.items vs ++ own_pairs n.own f } }
    ensures declared { (g : Fun) (n : FunNames) (o : Option ℕ) (f : Value) (vs : List Value) → AreNames g n
        → call_scope (without_name g) o f vs ≡ record { outer = o; pairs = first_pairs n.names.items vs } }
    ensures distinct { (g : Fun) (n : FunNames) → AreNames g n
        → IsDistinct bytes_eq (map (λ x. x.text) n.names.items ++ option_to_list n.own) }
{}
