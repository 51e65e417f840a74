//! Laws on queries.
ghost use Rattle.std.specs.Prelude.{◌≡◌, ◌⊎◌, ◌↔◌, ℕ, ◌+◌, ◌<◌, ◌≤◌, List, [], ◌++◌, length, map, drop, Option};
ghost use Rattle.exact_refusals.specs.Judge.Outcome.{Read, Refused};
ghost use Rattle.query_grammar.specs.declared.query.StepFilter.{StepFilter};
ghost use Rattle.query_grammar.specs.Filters.{Look};
ghost use Rattle.query_grammar.specs.Finds.{Sight, all_filtered, finds};
ghost use Rattle.query_grammar.specs.Machine.{judged};
ghost use Rattle.query_grammar.specs.Queries.{QuerySpells, BadQueryPlace, SpellsFilter, SpellsFilters};
ghost use Rattle.query_grammar.specs.Renumbering.{Stand, IsWhole, Renumbers};
ghost use Rattle.query_grammar.specs.Spelled.{filters_of, AreFilters, IsFirst, Thins};
ghost use Rattle.query_grammar.specs.Steps.{Step};

/// Each text has one answer: its query, or the place at which it is refused.
pub fn one_answer()
    ensures some { (us : List ℕ) → ((steps : List Step) × QuerySpells us steps) ⊎ ((at : ℕ) × BadQueryPlace us at) }
    ensures one_query { (us : List ℕ) (steps others : List Step) → QuerySpells us steps → QuerySpells us others
        → steps ≡ others }
    ensures one_place { (us : List ℕ) (at other : ℕ) → BadQueryPlace us at → BadQueryPlace us other → at ≡ other }
    ensures no_query { (us : List ℕ) (at : ℕ) (steps : List Step) → BadQueryPlace us at → QuerySpells us steps → ⊥ }
{}

/// The machine's answer is the text's: its query, or the place of the refusal.
pub fn machine_is_exact()
    ensures query { (us : List ℕ) (steps : List Step) → (judged us ≡ Read steps) ↔ QuerySpells us steps }
    ensures refused { (us : List ℕ) (left at : ℕ) → at + left ≡ length us
        → (judged us ≡ Refused left) ↔ BadQueryPlace us at }
{}

/// What a query finds does not depend on how nodes are numbered.
pub fn renumbering()
    ensures { (s t : Sight) (f : ℕ → ℕ) (starts : List ℕ) (query : List Step) → IsWhole s → Renumbers s t f
        → Stand s starts → finds t (map f starts) query ≡ map f (finds s starts query) }
{}

/// The filters of units are those that they spell, one behind the other; and the units of filters
/// spell the same without what stands behind them.
pub fn filters_as_units()
    ensures are { (us : List ℕ) (fs : List StepFilter) → SpellsFilters fs us [] → filters_of us ≡ fs }
    ensures alone { (fs : List StepFilter) (us rest : List ℕ) → SpellsFilters fs (us ++ rest) rest
        → SpellsFilters fs us [] }
    ensures first { (us : List ℕ) (f : StepFilter) (end : ℕ) → AreFilters us → 0 < end → end ≤ length us →
        SpellsFilter f us (drop end us) → IsFirst us f end }
{}

/// A filter on nodes that stood before keeps all nodes, also where filters on lists stand between.
pub fn filters_once()
    ensures { (look : ℕ → Look) (focus : Option ℕ) (fs gs : List StepFilter) (ns : List ℕ) →
        Thins [] fs gs → all_filtered look focus gs ns ≡ all_filtered look focus fs ns }
{}
