//! Laws on the tidied text of a tree.
//!
//! The functions do nothing: their contracts are the laws.
#![tactic(auto)]

ghost use Rattle.std.specs.Prelude.{◌≡◌, ℕ, List, false};
ghost use Rattle.exact_refusals.specs.Places.{Within, HasTree};
ghost use Rattle.js_grammar.specs.Grammar.{Deep, IsProgram};
ghost use Rattle.js_grammar.specs.Unplaced.{unplaced_stmts};
ghost use Rattle.js_parser.specs.Signs.{input};
ghost use Rattle.js_tokens.specs.declared.token.Token.{Token as Lexed};
ghost use Rattle.js_tokens.specs.Lexes.{Lexes};
ghost use Rattle.js_print.specs.Tidy.{Tokens, spaced, tidy};
ghost use Rattle.js_tree.specs.Plain.{Stmts};
ghost use Rattle.tidy_laws.specs.Laws.{Respells, IsReadAs, IsTidied};
ghost use Rattle.tidy_laws.specs.Proper.{IsProper, IsAny};
ghost use Rattle.tidy_laws.specs.Tame.{TameStmts};
ghost use Rattle.tidy_laws.specs.Told.{AnyDepth, AreFit, UpTo, Written};

/// Trees that agree apart from places have one tidied text.
pub fn one_text()
    ensures { (p q : Stmts) → unplaced_stmts p ≡ unplaced_stmts q → tidy p ≡ tidy q }
{}

/// Tokens with the bytes of a program's tidied text spell the program, apart from places; where
/// others that spell it have the texts that tokens of a script have, so have these. Where neither
/// `new` nor the operator `in` stands in the program, none is deeper than a limit that other
/// tokens keep to which spell it, apart from places.
pub fn respells()
    ensures spelled { (ts : List Deep) (p : Stmts) → IsProgram ts p → Respells AnyDepth IsAny p }
    ensures proper { (ts : List Deep) (p : Stmts) → IsProgram ts p → AreFit IsProper ts →
        Respells AnyDepth IsProper p }
    ensures no_deeper { (limit : ℕ) (ts : List Deep) (p q : Stmts) → IsProgram ts q → Within limit ts →
        unplaced_stmts q ≡ unplaced_stmts p → TameStmts p → Respells (UpTo limit) IsAny p }
    ensures proper_no_deeper { (limit : ℕ) (ts : List Deep) (p q : Stmts) → IsProgram ts q → Within limit ts →
        AreFit IsProper ts → unplaced_stmts q ≡ unplaced_stmts p → TameStmts p → Respells (UpTo limit) IsProper p }
{}

/// The text of tokens with such texts, with one space between two and a line feed, is read as
/// these tokens.
pub fn is_read_back()
    ensures { (words : Tokens) (ts rest : List Deep) → Written AnyDepth IsProper words ts rest →
        IsReadAs (spaced false words) ts rest }
{}

/// The tidied text of a text's program is read as the same program, apart from places; it is no
/// deeper than any text of the program, where neither `new` nor the operator `in` stands in it;
/// and tidied once more it stays as it is.
pub fn tidied_is_read()
    ensures read { (limit : ℕ) (bytes : List ℕ) (lexed : List Lexed) (p : Stmts) → Lexes bytes lexed →
        HasTree IsProgram limit (input bytes lexed) p → (depth : ℕ) × IsTidied depth p }
    ensures no_deeper { (limit : ℕ) (bytes : List ℕ) (lexed : List Lexed) (p q : Stmts) → Lexes bytes lexed →
        HasTree IsProgram limit (input bytes lexed) q → unplaced_stmts q ≡ unplaced_stmts p → TameStmts p →
        IsTidied limit p }
    ensures again { (limit : ℕ) (p : Stmts) (t : IsTidied limit p) → tidy t.tree ≡ tidy p }
{}
