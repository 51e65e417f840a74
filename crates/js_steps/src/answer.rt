//! What a step answers its caller.
ghost use Rattle.std.specs.Prelude.{◌≡◌};
ghost use Rattle.js_flow.specs.declared.task.Stepped.TheVariants as moved;
ghost use Rattle.js_steps.specs.Answered.{machine};
ghost use Rattle.js_steps.specs.Ending.{EndsSo, IsCallEnd};

use js_flow::{Completion, NativeCall, Stepped as Moved};
use js_image::StopCause;
use object_store::Value;

/// What a step answers.
#[derive(Drop)]
pub enum Stepped {
    /// The task goes on.
    Went,
    /// A native, which has its unit: the task waits for what it gives.
    Native(Box<NativeCall>),
    /// The call gave this value; the task is over.
    Done(Value),
    /// The call threw this value; the task is over.
    Threw(Value),
    /// The call stops. The task is over, but after `Fuel` of a step all is as it was.
    Stop(Stop),
}

/// Why a call stops.
#[derive(Clone, Copy, PartialEq, Eq, Drop)]
pub enum Stop {
    Fuel,
    Due(StopCause),
}

/// What the machine answered.
pub(crate) fn answered(step: Moved) -> Stepped
    requires ends { EndsSo step }
    ensures { machine result ≡ step }
{
    match step {
        Moved::Went => Stepped::Went,
        Moved::Native(call) => Stepped::Native(call),
        Moved::Done(how) => ended(how),
        Moved::Stop(cause) => Stepped::Stop(Stop::Due(cause)),
        Moved::OutOfFuel => Stepped::Stop(Stop::Fuel),
    }
}

// How a call ended.
fn ended(how: Completion) -> Stepped
    requires end { IsCallEnd how }
    ensures { machine result ≡ moved.Done how }
{
    match how {
        Completion::Is(value) => Stepped::Done(value),
        Completion::Throw(value) => Stepped::Threw(value),
        _ => unreachable!(),
    }
}
