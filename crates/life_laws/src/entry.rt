//! What a pick answers, and what is kept of it.

/// A pick that was not idle: the number of the widget, what it had spent before and after, and the
/// least number of units that the pick was to spend.
#[derive(Clone, Copy)]
pub struct PickEntry {
    pub widget: u32,
    pub before: u64,
    pub after: u64,
    pub slice: u32,
}

/// What a pick answers: there was nothing to do, the turn is not over and the widget has spent so
/// much, or the turn is over.
#[derive(Clone, Copy)]
pub enum Picked {
    Idle,
    Unfinished { spent: u64 },
    Ended,
}
