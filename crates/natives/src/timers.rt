//! The timer that `later` asks for.
ghost use Rattle.std.specs.Prelude.{◌≡◌, ◌++◌, None, OnErr, OnOk};
ghost use Rattle.event_loop.specs.Around.{SameButTimers, clock, timers};
ghost use Rattle.natives.specs.Asked.{asked_timers};

use code_units::Memory;
use event_loop::Loop;
use object_store::CellId;

/// Up to this time timers are started.
const LATEST: u64 = 4_611_686_018_427_387_904;

/// Starts the timer that is asked for, if one is. Where the loop takes no more, or its clock is past the
/// times at which timers are started, it is answered like want of memory.
pub(crate) fn start(around: &mut Loop, asked: Option<(CellId, i64)>) -> Result<(), Memory>
    ensures started { OnOk result (timers around.new ≡ timers around.old ++ asked_timers (clock around.old) asked) }
    ensures refused { OnErr result (timers around.new ≡ timers around.old) }
    ensures others { SameButTimers around.old around.new }
    ensures unasked { asked ≡ None → around.new ≡ around.old }
{
    let Some((func, ms)) = asked else {
        return Ok(());
    };
    if around.clock() >= LATEST {
        return Err(Memory);
    }
    match around.later(func, ms) {
        Ok(()) => Ok(()),
        Err(_) => Err(Memory),
    }
}
