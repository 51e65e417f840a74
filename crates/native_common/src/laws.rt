//! Laws of what natives answer.
ghost use Rattle.std.specs.Prelude.{◌≡◌, ◌+◌, ◌<◌, ℕ, List};
ghost use Rattle.js_tree.specs.Forest.{Forest};
ghost use Rattle.store_cells.specs.Cells.{Cells};
ghost use Rattle.widget_meaning.specs.OwnState.{State};
ghost use Rattle.widget_meaning.specs.Plan.{Plan, charge};
ghost use Rattle.js_image.specs.Image.{Rest, image};
ghost use Rattle.js_values.specs.Fuel.{Fuel};
ghost use Rattle.js_values.specs.declared.outcome.NativeOut.{NativeOut};
ghost use Rattle.js_values.specs.declared.outcome.NativeOut.TheVariants as native;
ghost use Rattle.native_common.specs.Refines.{Ends, Refines};

/// A law: how a native meets its plan. An answer before any charge ends the plan; after a charge
/// that is taken it ends what is left; a charge over what is left is answered with want of fuel. A
/// plan that is the same at the image is met alike.
pub fn refines()
    ensures free { (w : ℕ) (old new : Cells) (plan : ℕ → State → Plan) (o : NativeOut) (had : Fuel)
        → Ends w old new plan o → Refines w old new had had plan o }
    ensures charged { (w : ℕ) (old new : Cells) (n : ℕ) (plan : ℕ → State → Plan) (o : NativeOut) (had has : Fuel)
        → had.left ≡ n + has.left → has.spent ≡ had.spent + n → Ends w old new plan o
        → Refines w old new had has (λ d s. charge n s (plan d s)) o }
    ensures lacking { (w : ℕ) (old : Cells) (n : ℕ) (plan : ℕ → State → Plan) (had : Fuel)
        → had.left < n → Refines w old old had had (λ d s. charge n s (plan d s)) native.OutOfFuel }
    ensures same { (w : ℕ) (old new : Cells) (p q : ℕ → State → Plan) (o : NativeOut) (had has : Fuel)
        → ((fs : List Forest) (r : Rest) (d : ℕ) → p d (image fs r w old) ≡ q d (image fs r w old))
        → Refines w old new had has q o → Refines w old new had has p o }
{}
