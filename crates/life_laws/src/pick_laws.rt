//! Laws of the definitions.
ghost use Rattle.std.specs.Prelude.{ℕ};
ghost use Rattle.life_laws.specs.Life.{Work};
ghost use Rattle.life_laws.specs.PickLaws.{JournalLaws, SettleLaws, GiveLaws, OrderLaw};

/// A widget's kept picks follow on each other, and the last ends at what the widget has spent.
#[tactic(auto, using(crate::proofs::PicksHold::journal_laws))]
pub fn journal()
    ensures { JournalLaws }
{}

/// Picks one after the other, with their asks, until no widget is ready.
#[tactic(auto, using(crate::proofs::PicksHold::settle_laws))]
pub fn settles()
    ensures { (k : ℕ) → SettleLaws k }
{}

/// What is given to a widget, or to all, is due, and no image changes.
#[tactic(auto, using(crate::proofs::PicksHold::give_laws))]
pub fn gives()
    ensures { (x : Work) → GiveLaws x }
{}

/// Round robin picks the widgets that have picks left in their order.
pub fn order()
    ensures { OrderLaw }
{}
