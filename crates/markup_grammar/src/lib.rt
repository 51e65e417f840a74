//! The grammar of markup: which bytes spell which trees.
//!
//! `specs/Grammar.antt` says it row by row, as a relation between characters with their places and trees with theirs.
//! `specs/Machine.antt` is its machine, which takes one character at a time: what a reader has read so far
//! leads the machine from one state to the next.
//! The functions that do nothing carry the laws of the two.
#![tactic(auto)]

ghost use Rattle.std.specs.Prelude.{◌≡◌, ℕ, List, ◌++◌, length};
ghost use Rattle.std.specs.Str.{IsUtf8, IsValidUpTo};
ghost use Rattle.markup_grammar.specs.Judge.{judged};
ghost use Rattle.markup_grammar.specs.Judge.Judged.{Read, Bad};
ghost use Rattle.markup_grammar.specs.Markup.{MarkupSpells, BadMarkupPlace};
ghost use Rattle.plain_tree.specs.Plains.{Places};
ghost use Rattle.plain_tree.specs.Trees.{Trees};

/// What the grammar sees of a character.
#[derive(Clone, Copy, PartialEq, Eq, Drop)]
pub enum Sign {
    Less,
    Greater,
    Slash,
    Equals,
    DoubleQuote,
    SingleQuote,
    Ampersand,
    Hash,
    Semicolon,
    Hyphen,
    /// Space, tab, LF and CR.
    Blank,
    /// `a` to `z`.
    Letter,
    Digit,
    Other,
}

/// UTF-8 bytes are read as the trees that they spell, or refused at the exact place.
pub fn texts_are_exact()
    ensures spelled { (bytes : List ℕ) (ts : Trees Places) → MarkupSpells bytes ts → judged bytes ≡ Read ts }
    ensures read { (bytes : List ℕ) (ts : Trees Places) → IsUtf8 bytes → judged bytes ≡ Read ts
        → MarkupSpells bytes ts }
    ensures bad { (bytes : List ℕ) (at : ℕ) → IsUtf8 bytes → judged bytes ≡ Bad at → BadMarkupPlace bytes at }
{}

/// Bytes that are no UTF-8 are refused at the exact place.
pub fn broken_bytes_are_exact()
    ensures { (bytes : List ℕ) (n at : ℕ) → IsValidUpTo bytes n → judged bytes ≡ Bad at → BadMarkupPlace bytes at }
{}

/// Bytes have one answer at most: the trees that they spell, or the place at which they are refused.
pub fn one_answer()
    ensures one_reading { (bytes : List ℕ) (ts us : Trees Places) → MarkupSpells bytes ts → MarkupSpells bytes us
        → ts ≡ us }
    ensures one_place { (bytes : List ℕ) (at other : ℕ) → BadMarkupPlace bytes at → BadMarkupPlace bytes other
        → at ≡ other }
    ensures one_kind { (bytes : List ℕ) (ts : Trees Places) (at : ℕ) → MarkupSpells bytes ts
        → BadMarkupPlace bytes at → ⊥ }
{}

/// Bytes that begin some content and are none are refused at their end.
pub fn cut_short()
    ensures { (front more : List ℕ) (ts : Trees Places) → MarkupSpells (front ++ more) ts
        → ((us : Trees Places) → MarkupSpells front us → ⊥) → BadMarkupPlace front (length front) }
{}
