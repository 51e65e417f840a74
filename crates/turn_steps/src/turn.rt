//! How turns end.

use js_flow::Completion;
use turn_dispatch::Stop;

/// How a turn ended: by how its last call ended, or by a stop.
#[derive(Drop)]
pub enum TurnEnd {
    Over(Completion),
    Stop(Stop),
}

/// What came of a turn within the units of a pick.
#[derive(Drop)]
pub enum Ran {
    /// The units are used up, and what is next costs fuel.
    Cut,
    /// The turn is over, with the fuel that is left of its grant.
    Ended(TurnEnd, u32),
}
