//! A turn within the units of a pick.
ghost use Rattle.std.specs.Prelude.{◌≡◌, ◌-◌, ◌<◌, ◌≤◌, IfOk, OnOk, false};
ghost use Rattle.native_image.specs.Image.{Outside};
ghost use Rattle.life_laws.specs.Life.{Fixed};
ghost use Rattle.native_image.specs.declared.handed.Shared.{Shared as SharedBy};
ghost use Rattle.native_image.specs.declared.handed.Widget.{Widget as WidgetOf};
ghost use Rattle.turn_steps.specs.Moving.{FineRan, IsOut, RanTo};
ghost use Rattle.turn_steps.specs.Keeping.{Keeps};
ghost use Rattle.turn_steps.specs.Steps.{is_open};
ghost use Rattle.turn_steps.specs.Turning.{FineEnd, FineTurn, FineWidget};

use crate::moving::{move_on, take};
use crate::turn::{Ran, TurnEnd};
use code_units::Memory;
use native_image::{Shared, Widget};
use turn_dispatch::{Doing, Stop, Turn};

// Whether a turn is not over.
fn is_open(doing: &Doing) -> bool
    ensures { result ≡ is_open doing.now }
{
    !matches!(doing, Doing::Over(_) | Doing::Stop(_))
}

// The units of a pick that are left.
fn units_left(start: u32, left: u32, units: u32) -> u32
    requires less { left ≤ start }
    ensures { result ≡ units - (start - left) }
{
    units.saturating_sub(start - left)
}

// What came of a turn that wants fuel which is not there: where the units are used up it is cut, and else it stops.
fn short(start: u32, left: u32, units: u32) -> Ran
    requires less { left ≤ start }
    ensures cut { units ≤ start - left → result ≡ Ran.Cut }
    ensures stop { start - left < units → result ≡ Ran.Ended (TurnEnd.Stop Stop.Fuel) left }
{
    if units <= start - left {
        return Ran::Cut;
    }
    Ran::Ended(TurnEnd::Stop(Stop::Fuel), left)
}

// How a turn that is over ended.
fn ended(turn: &mut Turn) -> TurnEnd
    requires over { is_open turn.old.doing ≡ false }
    ensures out { (x : Outside) (h : SharedBy) (v : WidgetOf) → IsOut x h v turn.old result }
    ensures fine { (h : SharedBy) (v : WidgetOf) → FineTurn h v.id.index turn.old
        → FineEnd v.id.index h.store.cells result }
    ensures left { turn.new.left ≡ turn.old.left }
    ensures due { result ≡ TurnEnd.Stop Stop.Fuel → ⊥ }
{
    match take(&mut turn.doing) {
        Doing::Over(how) => TurnEnd::Over(how),
        Doing::Stop(cause) => TurnEnd::Stop(Stop::Due(cause)),
        _ => unreachable!(),
    }
}

/// Runs a turn in its place for the units of a pick. What costs fuel begins only below them; what costs
/// nothing is done behind them too. Where it is cut it is what is left of the turn. After want of memory it
/// is nothing that can be run.
pub fn run_turn(
    shared: &mut Shared,
    widget: &mut Widget,
    turn: &mut Turn,
    units: u32,
) -> Result<Ran, Memory>
    requires widget { FineWidget shared.old widget.old }
    requires turn { FineTurn shared.old widget.old.id.index turn.old }
    ensures ran { IfOk result (λ r. (f : Fixed) (x : Outside)
        → RanTo units shared.old shared.new widget.old widget.new turn.old turn.new f x r) }
    ensures fine { IfOk result (FineRan shared.new widget.new.id.index turn.new) }
    ensures sound { OnOk result (FineWidget shared.new widget.new) }
    ensures kept { Keeps shared.old shared.new widget.old widget.new }
{
    let start = turn.left;
    'steps: while is_open(&turn.doing) {
        let rest = units_left(start, turn.left, units);
        let is_short = move_on(shared, widget, turn, rest)?;
        if is_short {
            return Ok(short(start, turn.left, units));
        }
    }
    let how = ended(turn);
    Ok(Ran::Ended(how, turn.left))
}
