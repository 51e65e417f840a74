//! Laws of the definitions.
ghost use Rattle.std.specs.Prelude.{ℕ, List};
ghost use Rattle.widget_meaning.specs.OwnState.{OwnState};
ghost use Rattle.life_laws.specs.Life.{Work};
ghost use Rattle.life_laws.specs.LifeLaws.{WorkLaws, SameLaws, RunLaws, PickLaws};

/// What the first work of a queue does: it begins a turn, becomes another work, or is done with none.
/// All that there is to do stays the same.
#[tactic(auto, using(crate::proofs::LifeHolds::work_laws, crate::proofs::LifeHolds::same_laws))]
pub fn works()
    ensures works { (o : OwnState) (is : List Work) → WorkLaws o is }
    ensures steps { SameLaws }
{}

/// A turn as it is run, move by move. Its end stays the same.
#[tactic(auto, using(crate::proofs::LifeHolds::run_laws))]
pub fn turns()
    ensures { (k : ℕ) → RunLaws k }
{}

/// How a pick ends: there was nothing to do, the turn is cut, or it is over.
#[tactic(auto, using(crate::proofs::LifeHolds::pick_laws))]
pub fn picks()
    ensures { PickLaws }
{}
