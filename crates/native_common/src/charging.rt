//! Charges.
ghost use Rattle.std.specs.Prelude.{◌≡◌, ◌+◌, ◌<◌, ℕ, OnErr, OnOk};
ghost use Rattle.store_cells.specs.Cells.{Cells};
ghost use Rattle.widget_meaning.specs.OwnState.{State};
ghost use Rattle.widget_meaning.specs.Plan.{Plan, charge};
ghost use Rattle.widget_meaning.specs.Expressions as expressions;
ghost use Rattle.js_values.specs.Operands.{meant_out};
ghost use Rattle.native_common.specs.Refines.{Ends, Refines};
ghost use Rattle.native_common.specs.Numbers.{IsSmallOut, counted};

use js_values::{Meter, NativeOut, OpOut, OutOfFuel, StopCause};

/// Takes a charge of any size: one of 2^32 or more is over all fuel that can be left.
pub fn take(meter: &mut Meter, asked: usize) -> Result<(), OutOfFuel>
    ensures ok { OnOk result ((n : ℕ) → asked ≡ counted n
        → (meter.old.left ≡ n + meter.new.left) × (meter.new.spent ≡ meter.old.spent + n)) }
    ensures err { OnErr result ((n : ℕ) → asked ≡ counted n → meter.old.left < n) }
    ensures same { OnErr result (meter.new ≡ meter.old) }
{
    let left = meter.left();
    match u32::try_from(asked) {
        Ok(few) => meter.take(few),
        Err(_) => Err(OutOfFuel {
            left,
            asked: u32::MAX,
        }),
    }
}

/// What is given after a charge, where nothing is made.
pub fn charged(meter: &mut Meter, asked: usize, out: NativeOut) -> NativeOut
    ensures { (w : ℕ) (s : Cells) (plan : ℕ → State → Plan) (n : ℕ) → asked ≡ counted n → Ends w s s plan out
        → Refines w s s meter.old meter.new (λ d t. charge n t (plan d t)) result }
{
    match take(meter, asked) {
        Ok(()) => out,
        Err(_) => NativeOut::OutOfFuel,
    }
}

/// What an operator gives that joins no texts, as the answer of a native.
pub fn given(out: OpOut) -> NativeOut
    requires { IsSmallOut out }
    ensures { (w : ℕ) (s : Cells) → Ends w s s (λ d t. expressions.result (meant_out out) t) result }
{
    match out {
        OpOut::Is(v) => NativeOut::Value(v),
        OpOut::Left => NativeOut::Stop(StopCause::Number),
        OpOut::LongText => unreachable!(),
    }
}
