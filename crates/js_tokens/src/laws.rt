//! What the definitions mean: the functions do nothing, and their contracts are the laws.
ghost use Rattle.std.specs.Prelude.{◌≡◌, ℕ, List, length};
ghost use Rattle.js_tokens.specs.Lexes.{Lexes, BadPlace, InOrder, IsTokenOf};
ghost use Rattle.js_tokens.specs.Says.{StandsFor, between_quotes};
ghost use Rattle.js_tokens.specs.Value.{text_of};
ghost use Rattle.js_tokens.specs.declared.token.Token.{Token};
ghost use Rattle.js_tokens.specs.declared.token.TokenKind.TheVariants as kind;

/// A text has at most one reading.
pub fn one_reading()
    ensures { (bytes : List ℕ) (ts us : List Token) → Lexes bytes ts → Lexes bytes us → ts ≡ us }
{}

/// A text has at most one bad place, and has then no reading.
pub fn one_bad_place()
    ensures one { (bytes : List ℕ) (at other : ℕ) → BadPlace bytes at → BadPlace bytes other → at ≡ other }
    ensures no_reading { (bytes : List ℕ) (at : ℕ) (ts : List Token) → BadPlace bytes at → Lexes bytes ts → ⊥ }
{}

/// The tokens of a text stand in order within it, and none is empty.
pub fn in_order()
    ensures { (bytes : List ℕ) (ts : List Token) → Lexes bytes ts → InOrder (length bytes) 0 ts }
{}

/// What stands between the quotes of a string has at most one value, and the text of a string is that value.
pub fn one_value()
    ensures one { (cs us vs : List ℕ) → StandsFor cs us → StandsFor cs vs → us ≡ vs }
    ensures found { (bytes : List ℕ) (token : Token) → IsTokenOf bytes token → token.kind ≡ kind.Str →
        StandsFor (between_quotes bytes token) (text_of bytes token) }
{}
