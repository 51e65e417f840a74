//! Laws of the definitions.
ghost use Rattle.std.specs.Prelude.{ℕ, List};
ghost use Rattle.widget_meaning.specs.Values.{Value};
ghost use Rattle.widget_meaning.specs.OwnState.{State};
ghost use Rattle.widget_meaning.specs.Plan.{Job, Plan};
ghost use Rattle.widget_meaning.specs.Meaning.{body, call, meaning, run_plan};
ghost use Rattle.plan_ends.specs.Ends.{ByValue, EndsAs, Way, Yields, way_of};

/// What each job is after its unit ends in the way of the job: an expression, a call and a native by a
/// value or a throw, a target by a reference too.
#[tactic(auto, using(crate::proofs::KeptRows::body_ends))]
pub fn yields()
    ensures { (j : Job) (s : State) → Yields (way_of j) (body j s) }
{}

/// A plan that ends in a way ends so with each fuel, where it ends at all.
#[tactic(auto, using(crate::proofs::Jobs::run_ends))]
pub fn plans()
    ensures { (way : Way) (p : Plan) (g : ℕ) → Yields way p → EndsAs way (run_plan g p).how }
{}

/// A job with its unit ends in its way with each fuel, and so does a call that the host makes: by a value or a
/// throw, by a stop, or for want of fuel.
#[tactic(auto, using(crate::proofs::Jobs::job_ends))]
pub fn ends()
    ensures jobs { (j : Job) (s : State) (g : ℕ) → EndsAs (way_of j) (meaning j s g).how }
    ensures calls { (f : Value) (vs : List Value) (d : ℕ) (s : State) (g : ℕ) → EndsAs ByValue (call f vs d s g).how }
{}
