//! The grammar of scripts (ECMA-262 3rd edition, sections 11 to 14): which tokens spell which tree.
//!
//! `specs/Grammar.antt` says which tokens spell which tree, row by row, as a relation between tokens with
//! their depths and plain trees.
//! `specs/Machine.antt` is its machine, which takes one token at a time: what a parser has read so far leads
//! the machine from one state to the next.
//! The functions that do nothing carry the laws of the two.
#![tactic(auto)]

ghost use Rattle.std.specs.Prelude.{◌≡◌, ℕ, suc, ◌<◌, ◌⊎◌, ◌↔◌, ◌+◌, List, [], ◌∷◌, ◌++◌, length, take};
ghost use Rattle.js_grammar.specs.declared.Sign.TheVariants as sign;
ghost use Rattle.js_grammar.specs.Grammar.{Lexeme, Token, Deep, IsProgram, Begins};
ghost use Rattle.js_grammar.specs.Machine.{judged};
ghost use Rattle.js_grammar.specs.Unplaced.{spellings, unplaced_stmts};
ghost use Rattle.js_tree.specs.Plain.{Stmts};
ghost use Rattle.exact_refusals.specs.Places.{signs, Within, HasTree, IsSyntaxAt, IsTooDeepAt};
ghost use Rattle.exact_refusals.specs.Judge.Outcome.{Read, Refused, Deeper};

use js_tree::{BinOp, StepOp, UnOp};

/// What the grammar sees of a token, beside its text and its place.
#[derive(Clone, Copy, PartialEq, Eq, Drop)]
pub enum Sign {
    Name,
    Number,
    Str,
    Break,
    Case,
    Catch,
    Continue,
    Default,
    Delete,
    Do,
    Else,
    Finally,
    For,
    Function,
    If,
    In,
    InstanceOf,
    New,
    Return,
    Switch,
    This,
    Throw,
    Try,
    TypeOf,
    Var,
    Void,
    While,
    With,
    Null,
    True,
    False,
    /// A reserved word that no row of the grammar has.
    Unused,
    OpenBrace,
    CloseBrace,
    Open,
    Close,
    OpenSquare,
    CloseSquare,
    Point,
    Semicolon,
    Comma,
    Less,
    Greater,
    LessEqual,
    GreaterEqual,
    Equal,
    NotEqual,
    Same,
    NotSame,
    Plus,
    Minus,
    Star,
    Slash,
    Percent,
    PlusPlus,
    MinusMinus,
    ShiftLeft,
    ShiftRight,
    ShiftRightZero,
    BitAnd,
    BitOr,
    BitXor,
    Not,
    BitNot,
    AndAnd,
    OrOr,
    Question,
    Colon,
    Assign,
    PlusAssign,
    MinusAssign,
    StarAssign,
    SlashAssign,
    PercentAssign,
    ShiftLeftAssign,
    ShiftRightAssign,
    ShiftRightZeroAssign,
    BitAndAssign,
    BitOrAssign,
    BitXorAssign,
    /// The end of the text.
    End,
}

/// An operator between two operands.
#[derive(Clone, Copy, PartialEq, Eq, Drop)]
pub enum Infix {
    Binary(BinOp),
    And,
    Or,
}

/// An operator before its operand.
#[derive(Clone, Copy, PartialEq, Eq, Drop)]
pub enum Prefix {
    Unary(UnOp),
    Step(StepOp),
}

/// The same tokens spell one program, with the same depths.
pub fn one_tree()
    ensures { (ts us : List Deep) (p q : Stmts) → IsProgram ts p → IsProgram us q → signs ts ≡ signs us →
        (ts ≡ us) × (p ≡ q) }
{}

/// Tokens with the same signs and texts, wherever they stand, spell the same program, places aside.
pub fn one_shape()
    ensures { (ts us : List Deep) (p q : Stmts) → IsProgram ts p → IsProgram us q → spellings ts ≡ spellings us →
        unplaced_stmts p ≡ unplaced_stmts q }
{}

/// Each text has one answer: a tree, a token that no program goes on with, or a token that is too deep.
pub fn one_answer()
    ensures some { (limit : ℕ) (input : List Token) →
        ((p : Stmts) × HasTree IsProgram limit input p) ⊎ ((at : ℕ) × IsSyntaxAt IsProgram limit input at) ⊎
        ((at : ℕ) × IsTooDeepAt IsProgram limit input at) }
    ensures one_place { (limit : ℕ) (input : List Token) (at other : ℕ) → IsSyntaxAt IsProgram limit input at →
        IsSyntaxAt IsProgram limit input other → at ≡ other }
    ensures one_deep { (limit : ℕ) (input : List Token) (at other : ℕ) → IsTooDeepAt IsProgram limit input at →
        IsTooDeepAt IsProgram limit input other → at ≡ other }
    ensures one_cause { (limit : ℕ) (input : List Token) (at other : ℕ) → IsSyntaxAt IsProgram limit input at →
        IsTooDeepAt IsProgram limit input other → ⊥ }
    ensures no_tree { (limit : ℕ) (input : List Token) (at : ℕ) (p : Stmts) → IsSyntaxAt IsProgram limit input at →
        HasTree IsProgram limit input p → ⊥ }
    ensures no_flat_tree { (limit : ℕ) (input : List Token) (at : ℕ) (p : Stmts) →
        IsTooDeepAt IsProgram limit input at → HasTree IsProgram limit input p → ⊥ }
{}

/// The machine's answer is the text's.
pub fn machine_is_exact()
    ensures tree { (limit : ℕ) (input : List Token) (p : Stmts) →
        (judged limit input ≡ Read p) ↔ HasTree IsProgram limit input p }
    ensures syntax { (limit : ℕ) (input : List Token) (left at : ℕ) → judged limit input ≡ Refused left →
        at + left ≡ length input → IsSyntaxAt IsProgram limit input at }
    ensures too_deep { (limit : ℕ) (input : List Token) (left at : ℕ) → judged limit input ≡ Deeper left →
        at + left ≡ length input → IsTooDeepAt IsProgram limit input at }
{}

/// The refused token is the first with which no program begins; one that is too deep still begins one.
pub fn refused_is_first()
    ensures begins { (limit : ℕ) (input : List Token) (at : ℕ) → IsSyntaxAt IsProgram limit input at →
        Begins (take at input) }
    ensures ends { (limit : ℕ) (input : List Token) (at : ℕ) → IsSyntaxAt IsProgram limit input at →
        at < length input → Begins (take (suc at) input) → ⊥ }
    ensures deep { (limit : ℕ) (input : List Token) (at : ℕ) → IsTooDeepAt IsProgram limit input at →
        Begins (take (suc at) input) }
{}

/// Tokens that begin a program and are none are refused at the end of the text.
pub fn cut_short()
    ensures { (limit : ℕ) (front more : List Deep) (p : Stmts) (end : Lexeme) → IsProgram (front ++ more) p →
        Within limit front → ((us : List Deep) (q : Stmts) → IsProgram us q →
        signs us ≡ signs front ++ (sign.End, end) ∷ [] → ⊥) →
        IsSyntaxAt IsProgram limit (signs front ++ (sign.End, end) ∷ []) (length front) }
{}
