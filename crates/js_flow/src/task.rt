//! What a task is at, and what a step answers.

use crate::job::{Completion, Job, NativeCall};
use js_image::StopCause;

/// What a task is at.
#[derive(Drop)]
pub enum Control {
    Do(Job),
    /// A job that has its unit.
    Begin(Job),
    Give(Completion),
    /// A charge, after which the frames go on.
    Pay(usize),
    /// A native, of a caller at this depth, that was handed out.
    Waits(u32),
    /// Nothing: the task is over.
    Over,
}

/// What a step answers.
#[derive(Drop)]
pub enum Stepped {
    Went,
    Native(Box<NativeCall>),
    Done(Completion),
    Stop(StopCause),
    OutOfFuel,
}
