//! The meaning of scripts does not look at the places of their tokens.
//! There is no code here: the function that does nothing carries the law of the definitions.
#![tactic(auto)]

ghost use Rattle.std.specs.Prelude.{◌≡◌, ℕ, List};
ghost use Rattle.widget_meaning.specs.Items.{Item};
ghost use Rattle.widget_meaning.specs.Alone.{Content, alone};
ghost use Rattle.place_laws.specs.Bare.{bare_content, bare_own};

/// A widget whose programs have other places comes to the same, but for the places of its functions.
pub fn places_do_not_matter()
    ensures { (w : Content) (grant : ℕ) (items : List Item) →
        alone (bare_content w) grant items ≡ bare_own (alone w grant items) }
{}
