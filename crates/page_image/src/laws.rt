//! Laws on the numbers of a widget's nodes. The functions do nothing.
ghost use Rattle.std.specs.Prelude.{◌≡◌, ◌≢◌, ℕ, ◌<◌, List, true, false, map, length, slice_index_or, slice_set};
ghost use Rattle.query_grammar.specs.Finds.{has_number};
ghost use Rattle.tree_ops.specs.Trees.{has};
ghost use Rattle.page_tree.specs.declared.page.Page.{Page};
ghost use Rattle.page_image.specs.Image.{owns, number, own, forest};
ghost use Rattle.page_image.specs.Stays.{Grows};

use page_tree::Page;

/// A law: the numbers of a widget's nodes tell them apart, keep the order of their birth and are
/// below how many it has made; each of its nodes stands in its trees, and is no other widget's.
pub fn numbers_agree(page: &Page)
    ensures apart { (w n m : ℕ) → owns page.now w n ≡ true → owns page.now w m ≡ true →
        number page.now w n ≡ number page.now w m → n ≡ m }
    ensures order { (w n m : ℕ) → owns page.now w n ≡ true → n < m → number page.now w n < number page.now w m }
    ensures low { (w n : ℕ) → owns page.now w n ≡ true → number page.now w n < length (own page.now w) }
    ensures stands { (w n : ℕ) → owns page.now w n ≡ true → has (number page.now w n) (forest page.now w) ≡ true }
    ensures one { (v w n : ℕ) → v ≢ w → owns page.now v n ≡ true → owns page.now w n ≡ false }
{}

/// A law: in a list of what is kept with each of a widget's nodes, by birth, that of a node stands
/// at its number; where that of one node is another, the list has another element there.
pub fn kept_by_number<Kept>(page: &Page)
    ensures there { (h : ℕ → Kept) (d : Kept) (w n : ℕ) → owns page.now w n ≡ true →
        slice_index_or (map h (own page.now w)) (number page.now w n) d ≡ h n }
    ensures set { (h g : ℕ → Kept) (w n : ℕ) → owns page.now w n ≡ true → ((x : ℕ) → x ≢ n → g x ≡ h x) →
        map g (own page.now w) ≡ slice_set (map h (own page.now w)) (number page.now w n) (g n) }
{}

/// A law: nodes that a widget holds keep their numbers as it gets others.
pub fn numbers_stay()
    ensures { (old new : Page) (w : ℕ) (news held : List ℕ) → Grows old new w news →
        ((n : ℕ) → has_number held n ≡ true → owns old w n ≡ true) → map (number new w) held ≡ map (number old w) held }
{}
