//! Laws above the definitions.
ghost use Rattle.std.specs.Prelude.{◌≡◌, ℕ, List};
ghost use Rattle.plain_tree.specs.Trees.{Trees};
ghost use Rattle.plain_tree.specs.Plains.{Places};
ghost use Rattle.markup_rules.specs.Rows.{First, IsGood};
ghost use Rattle.widget_form.specs.Good.{IsWidgetFile};

/// A file has one first broken rule at most, and a good one has none.
pub fn one_first()
    ensures first { (name : List ℕ) (libs : List (List ℕ)) (file : Trees Places) (r p s q : ℕ)
        → First name libs file r p → First name libs file s q → (r ≡ s) × (p ≡ q) }
    ensures good { (name : List ℕ) (libs : List (List ℕ)) (file : Trees Places) (r p : ℕ) → First name libs file r p
        → IsGood name libs file → ⊥ }
{}

/// A good file is one `div` of the slot's name that ends in a script of its own. Its tags and
/// attributes are listed and say nothing unsafe, its scripts take libraries of the slot, and no
/// element below the root has a script or another's `id`.
pub fn good_file()
    ensures { (name : List ℕ) (libs : List (List ℕ)) (file : Trees Places) → IsGood name libs file
        → IsWidgetFile name libs file }
{}
