//! How a turn of a life begins.
ghost use Rattle.std.specs.Prelude.{◌≡◌, ◌+◌, ◌<◌, ◌^◌};
ghost use Rattle.life_queue.specs.Lives.{begun_with};

use crate::life::Life;
use turn_dispatch::{Calls, Doing, Turn};

/// A turn begins: it counts, and has its whole grant.
pub(crate) fn begin(life: &mut Life, doing: Doing, calls: Calls)
    requires { life.old.records.turns + 1 < 2 ^ 32 }
    ensures { life.new ≡ begun_with life.old doing calls }
{
    life.records.turns += 1;
    life.turn = Some(Turn {
        doing,
        calls,
        left: life.grant,
    });
}
