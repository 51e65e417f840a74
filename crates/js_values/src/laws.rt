//! Laws of primitives, and of what natives answer.
ghost use Rattle.std.specs.Prelude.{◌≡◌, ◌+◌, ◌<◌, ℕ, List};
ghost use Rattle.store_cells.specs.declared.value.Value.{Value as StoreValue};
ghost use Rattle.store_cells.specs.Cells.{PlainCell};
ghost use Rattle.widget_meaning.specs.Values.{Completion, Value};
ghost use Rattle.widget_meaning.specs.OwnState.{State};
ghost use Rattle.widget_meaning.specs.Plan.{Plan, and_then, charge};
ghost use Rattle.widget_meaning.specs.Meaning.{run_plan};
ghost use Rattle.js_values.specs.declared.outcome.NativeOut.{NativeOut};
ghost use Rattle.js_values.specs.declared.outcome.NativeOut.TheVariants as native;
ghost use Rattle.js_image.specs.Held.{IsFine};
ghost use Rattle.js_image.specs.Image.{seen};
ghost use Rattle.js_values.specs.Answers.{Answers, Goes, Leaves};
ghost use Rattle.js_values.specs.Operands.{IsPrimitive, plain};

/// A law: a primitive is the same to every widget in every store, and each may hold it.
pub fn primitives()
    ensures seen { (w : ℕ) (cells : List PlainCell) (v : StoreValue) → IsPrimitive v → seen w cells v ≡ plain v }
    ensures fine { (w : ℕ) (cells : List PlainCell) (v : StoreValue) → IsPrimitive v → IsFine w cells v }
{}

/// A law: how the answer of a native follows from its plan. Before any charge it is what the plan
/// is; after a charge that is taken, what is left of the plan; a charge over what is left is
/// answered with want of fuel, and nothing is taken. What comes after the native goes on from what
/// is left.
pub fn answers()
    ensures free { (see : StoreValue → Value) (node : ℕ → ℕ)
        (d : ℕ) (s t : State) (o : NativeOut) (q : Plan) (before left : ℕ)
        → before ≡ left → Leaves see node d o t q → Answers see node d q s o t before left }
    ensures charged { (see : StoreValue → Value) (node : ℕ → ℕ)
        (d : ℕ) (s t : State) (o : NativeOut) (n : ℕ) (q : Plan) (before left : ℕ)
        → before ≡ n + left → Leaves see node d o t q → Answers see node d (charge n s q) s o t before left }
    ensures lacking { (see : StoreValue → Value) (node : ℕ → ℕ)
        (d : ℕ) (s t : State) (n : ℕ) (q : Plan) (before left : ℕ)
        → before < n → left ≡ before → Answers see node d (charge n s q) s native.OutOfFuel t before left }
    ensures after { (p q : Plan) (s : State) (c : ℕ) (k : Completion → State → Plan) → Goes p s c q
        → (g : ℕ) → run_plan (c + g) (and_then p k) ≡ run_plan g (and_then q k) }
{}
