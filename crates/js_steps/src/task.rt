//! A task.

use crate::stack::Frames;
use js_flow::Control;

/// One call that the host makes for a widget: what it is at, and the frames that wait for it.
#[derive(Drop)]
pub struct Task {
    pub widget: u32,
    pub control: Control,
    pub frames: Frames,
}
