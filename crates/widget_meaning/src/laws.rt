//! Laws of the definitions.
ghost use Rattle.std.specs.Prelude.{ℕ, List};
ghost use Rattle.widget_meaning.specs.Compositional.{ExpressionLaws, StatementLaws, CallLaws};
ghost use Rattle.widget_meaning.specs.OwnState.{Amounts, State};
ghost use Rattle.widget_meaning.specs.Plan.{Place, Plan};
ghost use Rattle.widget_meaning.specs.PlanLaws.{PlanLaws, CostLaws};
ghost use Rattle.widget_meaning.specs.Counts.{CountLaws};
ghost use Rattle.widget_meaning.specs.Items.{Item};
ghost use Rattle.widget_meaning.specs.Alone.{Content};
ghost use Rattle.widget_meaning.specs.NodeLaws.{NodeLaws, AncestorLaws};
ghost use Rattle.widget_meaning.specs.ScopeLaws.{ScopeLaws};
ghost use Rattle.widget_meaning.specs.Sums.{SumLaws};
ghost use Rattle.widget_meaning.specs.Laws.{FuelLaws, StopLaws, StoppedLaws, AloneLaws, TimerLaws};

/// The meaning of each form is made of the meanings of its parts: this is the direct recursive
/// meaning, form by form.
pub fn compositional()
    ensures expressions { (at : ℕ) (names : List ℕ) (p : Place) (s : State) (g : ℕ) → ExpressionLaws at names p s g }
    ensures statements { (at : ℕ) (names : List ℕ) (p : Place) (s : State) (g : ℕ) → StatementLaws at names p s g }
    ensures calls { (s : State) (g : ℕ) → CallLaws s g }
{}

/// Plans one after the other, charges and costs: what is there is taken, and the first that is not
/// stops.
#[tactic(auto, using(crate::proofs::PlansHold::plan_laws, crate::proofs::PlansHold::cost_laws))]
pub fn plans()
    ensures plans { PlanLaws }
    ensures costs { (a : Amounts) (s : State) (k : State → Plan) → CostLaws a s k }
{}

/// Fuel left never grows, and a turn spends what fell of its grant.
#[tactic(auto, using(crate::proofs::LawsHold::fuel_laws))]
pub fn fuel()
    ensures { FuelLaws }
{}

/// The four counts only rise, and stay within their limits.
#[tactic(auto, using(crate::proofs::CountsHold::count_laws))]
pub fn counts()
    ensures { CountLaws }
{}

/// Each scope stands in an older one, and each function was made in a scope that is there. So the bound
/// on the search for a name is never met.
#[tactic(auto, using(crate::proofs::ScopesHold::scope_laws))]
pub fn scopes_end()
    ensures { ScopeLaws }
{}

/// Each node of a widget's page has a number of its own, below how many nodes the widget has had.
#[tactic(auto, using(crate::proofs::NodesHold::node_laws))]
pub fn nodes_have_numbers()
    ensures { NodeLaws }
{}

/// Where no tree of a widget's page is higher than the limit, the bound on the way up from a node is
/// never met.
#[tactic(auto, using(crate::proofs::Ancestors::ancestor_laws))]
pub fn ancestors_end()
    ensures { AncestorLaws }
{}

/// What a whole run comes to at most, by its items: turns, units spent, events that no turn took, and
/// the clock.
#[tactic(auto, using(crate::proofs::SumsHold::sum_laws))]
pub fn sums()
    ensures { (w : Content) (grant : ℕ) (is : List Item) → SumLaws w grant is }
{}

/// No `catch` and no `finally` sees a stop.
#[tactic(auto, using(crate::proofs::LawsHold::stop_laws))]
pub fn stops()
    ensures { StopLaws }
{}

/// A stopped widget counts its events as gone, and nothing else of it changes.
#[tactic(auto, using(crate::proofs::LawsHold::stopped_laws))]
pub fn stopped()
    ensures { StoppedLaws }
{}

/// One widget on a longer list of items goes on from the shorter one, and its grant never changes.
#[tactic(auto, using(crate::proofs::LawsHold::alone_laws))]
pub fn alone()
    ensures { AloneLaws }
{}

/// At most 64 timers wait and none is due before the clock, and an advance takes all that are due:
/// its bound on their turns is never met.
#[tactic(auto, using(crate::proofs::TimersHold::timer_laws))]
pub fn timers()
    ensures { TimerLaws }
{}
