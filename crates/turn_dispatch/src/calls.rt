//! The calls of a turn that wait, and what comes next.

use crate::level::{Hearing, Level};
use js_flow::Completion;
use js_image::StopCause;
use js_steps::Task;

/// The calls of a turn that wait, the innermost last, and its open dispatches, the innermost last, each
/// with whether `bubble` was called in it.
#[derive(Drop)]
pub struct Calls {
    pub levels: Vec<Level>,
    pub dispatches: Vec<bool>,
}

/// What is done next, when a call has ended.
#[derive(Drop)]
pub enum Took {
    /// What waits below goes on with this.
    Gives(Completion),
    /// The widget stops.
    Stops(StopCause),
    /// The first handler of a dispatch is called.
    Hears(Box<Hearing>),
    /// A task takes steps.
    Runs(Box<Task>),
}
