//! Laws on styles.
ghost use Rattle.std.specs.Prelude.{◌≡◌, ℕ, true, List};
ghost use Rattle.std.specs.List.{list_all};
ghost use Rattle.style_text.specs.Form.{style_form};
ghost use Rattle.style_text.specs.Styles.{Pair, StyleSpells, BadStylePlace, is_once, is_pair, print_style};

/// A text has one list of pairs at most, or one place at which it is refused.
pub fn one_answer()
    ensures one_style { (us : List ℕ) (pairs others : List Pair) → StyleSpells us pairs → StyleSpells us others
        → pairs ≡ others }
    ensures one_place { (us : List ℕ) (at other : ℕ) → BadStylePlace us at → BadStylePlace us other → at ≡ other }
    ensures no_style { (us : List ℕ) (at : ℕ) (pairs : List Pair) → BadStylePlace us at → StyleSpells us pairs → ⊥ }
{}

/// The pairs of a style are listed properties, each once, with spelled values.
pub fn read_is_spelled()
    ensures { (us : List ℕ) (pairs : List Pair) → StyleSpells us pairs
        → (list_all is_pair pairs ≡ true) × (is_once pairs ≡ true) }
{}

/// The printed text of listed properties, each once, with spelled values, is a style of these
/// pairs.
pub fn printed_is_read()
    ensures { (pairs : List Pair) → list_all is_pair pairs ≡ true → is_once pairs ≡ true
        → StyleSpells (print_style pairs) pairs }
{}

/// A style has its pairs in their one spelling as its printed form, and what is no style itself.
pub fn form_of_style()
    ensures spelled { (us : List ℕ) (pairs : List Pair) → StyleSpells us pairs → style_form us ≡ print_style pairs }
    ensures other { (us : List ℕ) → ((pairs : List Pair) → StyleSpells us pairs → ⊥) → style_form us ≡ us }
{}
