//! Laws on markup that is printed and read.
//!
//! The functions do nothing: their contracts are the laws.
ghost use Rattle.std.specs.Prelude.{◌≡◌, ℕ, true, List, []};
ghost use Rattle.std.specs.List.{list_all};
ghost use Rattle.page_output.specs.Printing.{IsStyleForm, Prints};
ghost use Rattle.plain_tree.specs.Print.{printed};
ghost use Rattle.plain_tree.specs.Trees.{PlainTrees};
ghost use Rattle.style_text.specs.Styles.{Pair, is_once, is_pair, print_style};
ghost use Rattle.slot_lives.specs.Reading.{IsReadable, ReadsAs};

/// Reading the printed text of normal trees gives these trees, where they have no script, no lone
/// surrogate, at most 200 nested elements, and each `style` is not empty and is in its printed
/// form: `text` for any printed form of styles, `output` for what a page prints.
pub fn printed_is_read()
    ensures text { (style : List ℕ → List ℕ) (trees : PlainTrees) → IsReadable style trees
        → ReadsAs (printed style trees) trees }
    ensures output { (trees : PlainTrees) (bytes : List ℕ)
        → ((style : List ℕ → List ℕ) → IsStyleForm style → IsReadable style trees) → Prints trees [] bytes
        → ReadsAs bytes trees }
{}

/// Styles have a printed form, and the printed text of pairs is in it.
pub fn styles_have_a_form()
    ensures form { (style : List ℕ → List ℕ) × IsStyleForm style }
    ensures stays { (style : List ℕ → List ℕ) → IsStyleForm style → (pairs : List Pair)
        → list_all is_pair pairs ≡ true → is_once pairs ≡ true → style (print_style pairs) ≡ print_style pairs }
{}
