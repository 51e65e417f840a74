//! Exact refusals, for readers that take one token at a time.
//!
//! A grammar is a relation between tokens with their depths and trees. Its machine takes one token at a time
//! and sees nothing of what follows.
//! Where the machine takes what the grammar spells and no more (complete and sound), and each state that it
//! reaches can be led to an end (closable), the token at which it stops is the exact place of the refusal.
//! A reader proves these three facts of its machine, and a fourth where it has a limit of depth: a token
//! opens at most one link. `proofs/Exact.antt` then has what its contract says of refusals.
//! A reader of texts that have no depth proves the three facts alone: for it `specs/Plain.antt` and
//! `proofs/Plain.antt` say the same without a limit.
//!
//! The functions do nothing: their contracts are the laws, of the texts that a machine itself takes.
#![tactic(auto)]

ghost use Rattle.std.specs.Prelude.{◌≡◌, ℕ, ◌+◌, ◌↔◌, List, Option, length};
ghost use Rattle.exact_refusals.specs.Places.{signs, HasTree, IsSyntaxAt, IsTooDeepAt};
ghost use Rattle.exact_refusals.specs.Judge.{Takes, IsClosable, OpensOne, judge};
ghost use Rattle.exact_refusals.specs.Plain.{outcome, Reads, EachCloses, IsRefusedAt};
ghost use Rattle.exact_refusals.specs.Judge.Outcome.{Read, Refused, Deeper};

/// The same tokens are taken in one way: at the same depths, and as the same tree.
pub fn one_tree<Token, State, Tree>()
    ensures { (step : State → Token → Option (ℕ × State)) (done : State → Option Tree) (begin : State)
        (ts us : List (Token × ℕ)) (p q : Tree) → Takes step done begin ts p → Takes step done begin us q →
        signs ts ≡ signs us → (ts ≡ us) × (p ≡ q) }
{}

/// A tree comes of a text exactly where the text has it within the limit.
pub fn tree_is_read<Token, State, Tree>()
    ensures { (step : State → Token → Option (ℕ × State)) (done : State → Option Tree) (begin : State)
        (limit : ℕ) (input : List Token) (p : Tree) →
        (judge step done limit begin input ≡ Read p) ↔ HasTree (Takes step done begin) limit input p }
{}

/// The token at which the machine is stuck is the place of the refusal.
pub fn stuck_is_syntax<Token, State, Tree>()
    ensures { (step : State → Token → Option (ℕ × State)) (done : State → Option Tree) (begin : State) →
        IsClosable step done begin → (limit : ℕ) (input : List Token) (left at : ℕ) →
        judge step done limit begin input ≡ Refused left → at + left ≡ length input →
        IsSyntaxAt (Takes step done begin) limit input at }
{}

/// Where each token opens at most one link, the first token beyond the limit is the place of the refusal.
pub fn beyond_is_too_deep<Token, State, Tree>()
    ensures { (step : State → Token → Option (ℕ × State)) (done : State → Option Tree) (begin : State) →
        IsClosable step done begin → OpensOne step begin → (limit : ℕ) (input : List Token) (left at : ℕ) →
        judge step done limit begin input ≡ Deeper left → at + left ≡ length input →
        IsTooDeepAt (Takes step done begin) limit input at }
{}

/// A text is refused at one place and for one cause, and has then no tree.
pub fn one_answer<Token, State, Tree>()
    ensures one_place { (step : State → Token → Option (ℕ × State)) (done : State → Option Tree)
        (begin : State) (limit : ℕ) (input : List Token) (at other : ℕ) →
        IsSyntaxAt (Takes step done begin) limit input at →
        IsSyntaxAt (Takes step done begin) limit input other → at ≡ other }
    ensures one_deep { (step : State → Token → Option (ℕ × State)) (done : State → Option Tree) (begin : State)
        (limit : ℕ) (input : List Token) (at other : ℕ) → IsTooDeepAt (Takes step done begin) limit input at →
        IsTooDeepAt (Takes step done begin) limit input other → at ≡ other }
    ensures one_cause { (step : State → Token → Option (ℕ × State)) (done : State → Option Tree)
        (begin : State) (limit : ℕ) (input : List Token) (at other : ℕ) →
        IsSyntaxAt (Takes step done begin) limit input at →
        ¬ IsTooDeepAt (Takes step done begin) limit input other }
    ensures no_tree { (step : State → Token → Option (ℕ × State)) (done : State → Option Tree) (begin : State)
        (limit : ℕ) (input : List Token) (at : ℕ) (p : Tree) →
        IsSyntaxAt (Takes step done begin) limit input at → ¬ HasTree (Takes step done begin) limit input p }
    ensures no_flat_tree { (step : State → Token → Option (ℕ × State)) (done : State → Option Tree)
        (begin : State) (limit : ℕ) (input : List Token) (at : ℕ) (p : Tree) →
        IsTooDeepAt (Takes step done begin) limit input at → ¬ HasTree (Takes step done begin) limit input p }
{}

/// Without depth: a text is refused at one place, and has then no tree.
pub fn one_refusal<Token, State, Tree>()
    ensures place { (step : State → Token → Option State) (done : State → Option Tree) (begin : State)
        (ts : List Token) (at other : ℕ) → IsRefusedAt (Reads step done begin) ts at →
        IsRefusedAt (Reads step done begin) ts other → at ≡ other }
    ensures no_tree { (step : State → Token → Option State) (done : State → Option Tree) (begin : State)
        (ts : List Token) (at : ℕ) (tree : Tree) → IsRefusedAt (Reads step done begin) ts at →
        ¬ Reads step done begin ts tree }
{}

/// Without depth: the token at which the machine is stuck is the place of the refusal.
pub fn stuck_is_refused<Token, State, Tree>()
    ensures { (step : State → Token → Option State) (done : State → Option Tree) (begin : State) →
        EachCloses step done begin → (input : List Token) (left at : ℕ) →
        outcome step done begin input ≡ Refused left → at + left ≡ length input →
        IsRefusedAt (Reads step done begin) input at }
{}
