//! A turn in progress.

use crate::calls::Calls;
use crate::level::Doing;

/// A turn in progress: what it does, what waits for that to end, and the fuel that is left of its grant.
#[derive(Drop)]
pub struct Turn {
    pub doing: Doing,
    pub calls: Calls,
    pub left: u32,
}
