//! Laws of the natives, and rows with them.
ghost use Rattle.std.specs.Prelude.{ℕ, List};
ghost use Rattle.widget_meaning.specs.OwnState.{State};
ghost use Rattle.widget_meaning.specs.JsonBack.{ReturnLaws};
ghost use Rattle.widget_meaning.specs.JsonLaws.{JsonLaws};
ghost use Rattle.widget_meaning.specs.NativeLaws.{SplitLaws, SortLaws};
ghost use Rattle.widget_meaning.specs.NativeRows.{NativeRows};
ghost use Rattle.query_grammar.specs.Renumbering.{IsWhole};
ghost use Rattle.query_grammar.specs.Steps.{Step};
ghost use Rattle.style_text.specs.Styles.{Pair};
ghost use Rattle.widget_meaning.specs.Queries.{QueryLaws, sight};
ghost use Rattle.widget_meaning.specs.Styles.{StyleLaws};
ghost use Rattle.widget_meaning.specs.Values.{Value};

/// The pieces that `split` gives, joined by what stood between them, are the text, which is cut as
/// early as can be.
#[tactic(auto, using(crate::proofs::NativeLawsHold::split_laws))]
pub fn split()
    ensures { SplitLaws }
{}

/// `sort` moves the elements, puts none before one that it comes before, and keeps the order of those
/// that tie.
pub fn sort()
    ensures { (vs : List Value) → SortLaws vs }
{}

/// What `toJson` writes is the JSON of the value's tree, and is read back as that tree; the objects
/// that `fromJson` makes of it have the same tree.
#[tactic(auto, using(crate::proofs::JsonHolds::json_laws, crate::proofs::JsonReturns::return_laws))]
pub fn json()
    ensures text { JsonLaws }
    ensures objects { ReturnLaws }
{}

/// What single widgets with natives do, computed from the definitions.
pub fn native_rows()
    ensures { NativeRows }
{}

/// The pairs of a style are those that `style_text` says that it spells; a text that spells none has
/// none.
#[tactic(auto, using(crate::proofs::TextsHold::style_laws))]
pub fn styles()
    ensures { (t : List ℕ) (pairs : List Pair) → StyleLaws t pairs }
{}

/// The steps of a query are those that `query_grammar` says that it spells; a text that spells none
/// has none. What a query sees of a widget's page has its links in it.
#[tactic(auto, using(crate::proofs::TextsHold::query_laws, crate::proofs::SightHolds::whole_sight))]
pub fn queries()
    ensures steps { (us : List ℕ) (steps : List Step) → QueryLaws us steps }
    ensures whole { (s : State) → IsWhole (sight s) }
{}
