//! Trees whose nodes have numbers, and what is done to them: nodes are taken out, put in, copied and given
//! other labels.
//!
//! `specs/Trees.antt` and `specs/Labels.antt` have the definitions, on which the page and the meaning of widgets stand.
//! The functions do nothing: their contracts are laws that say of the definitions what they mean.
#![tactic(auto)]

ghost use Rattle.std.specs.Prelude.{◌≡◌, ℕ, List, [], ◌∷◌, ◌++◌, map, Option, None, false, not, ◌&&◌, ◌||◌, ◌==◌, nat_eq, is_some, if◌then◌else◌};
ghost use Rattle.std.specs.List.{filter, list_any, range_with_len, IsDistinct};
ghost use Rattle.std.specs.Str.{bytes_eq};
ghost use Rattle.plain_tree.specs.Trees.{Attribute, Label, Trees, beside, unmarked, size, value_of};
ghost use Rattle.tree_ops.specs.Labels.{is_text, attribute_of, with_value, with_attribute};
ghost use Rattle.tree_ops.specs.Trees.{numbers, has, subtree, without, relabelled, put_before, grafted, numbered, copied};

/// A number stands in trees where it is among their numbers.
pub fn has_its_numbers()
    ensures { (n : ℕ) (ts : Trees ℕ) → has n ts ≡ list_any (λ m. m == n) (numbers ts) }
{}

/// Without a node just the numbers are left that are not in its tree, in their order.
pub fn without_leaves_others()
    ensures { (n : ℕ) (ts : Trees ℕ) → IsDistinct nat_eq (numbers ts)
        → numbers (without n ts) ≡ filter (λ m. not (has m (subtree n ts))) (numbers ts) }
{}

/// Trees and what is grafted on them at a node have the numbers of both, where the node is there.
/// What is put before no number comes behind the last.
pub fn grafted_has_both()
    ensures last { (us ts : Trees ℕ) → put_before None us ts ≡ beside ts us }
    ensures both { (t : ℕ) (s : Option ℕ) (us ts : Trees ℕ) (n : ℕ)
        → has n (grafted t s us ts) ≡ (has n ts || (has t ts && has n us)) }
{}

/// Where a node is not there, nothing is taken, put in or given another label.
pub fn nothing_without_the_node()
    ensures without { (n : ℕ) (ts : Trees ℕ) → has n ts ≡ false → without n ts ≡ ts }
    ensures grafted { (t : ℕ) (s : Option ℕ) (us ts : Trees ℕ) → has t ts ≡ false → grafted t s us ts ≡ ts }
    ensures relabelled { (n : ℕ) (l : Label) (ts : Trees ℕ) → has n ts ≡ false → relabelled n l ts ≡ ts }
{}

/// A renumbering leaves labels and shape, and counts on in document order.
pub fn numbered_in_order<Mark>()
    ensures shape { (n : ℕ) (ts : Trees Mark) → unmarked (numbered n ts) ≡ unmarked ts }
    ensures order { (n : ℕ) (ts : Trees Mark) → numbers (numbered n ts) ≡ range_with_len n (size ts) }
{}

/// Another label, and a copy, leave the numbers.
pub fn numbers_stay()
    ensures relabelled { (n : ℕ) (l : Label) (ts : Trees ℕ) → numbers (relabelled n l ts) ≡ numbers ts }
    ensures copied { (ts : Trees ℕ) → numbers (copied ts) ≡ numbers ts }
{}

/// An attribute that is set has its value, and the others have theirs. A name that is there keeps
/// its place, and a new one stands last.
pub fn attribute_is_set()
    ensures value { (name other : List ℕ) (value : Option (List ℕ)) (l : Label) → is_text l ≡ false
        → attribute_of other (with_attribute name value l)
        ≡ (if bytes_eq name other then value else attribute_of other l) }
    ensures place { (name value : List ℕ) (attributes : List Attribute)
        → map (λ a. a.0) (with_value name value attributes)
        ≡ (if is_some (value_of name attributes) then map (λ a. a.0) attributes else map
        (λ a. a.0) attributes ++ name ∷ []) }
{}
