//! Calls of the stack of frames.

use code_units::Memory;
use js_flow::{CallFrame, Completion, Frame};
use js_steps::{Frames, Unwound};
use object_store::Value;
use std::alloc::Global;

/// A frame that is pushed is taken out again, and none is left.
pub fn gives_pushed_frame(alloc: Global) -> Result<bool, Memory> {
    let mut frames = Frames::new(alloc);
    frames.push(Frame::Call(CallFrame::CallEnd))?;
    let pushed = frames.depth();
    let is_same = matches!(frames.pop(), Some(Frame::Call(CallFrame::CallEnd)));
    Ok(pushed == 1 && is_same && frames.depth() == 0)
}

/// A `return` unwinds a stack without frames: it is over, with that `return`.
pub fn unwinds_to_the_end(alloc: Global) -> bool {
    let mut frames = Frames::new(alloc);
    matches!(
        frames.unwind(Completion::Return(Value::Undefined)),
        Unwound::Over(Completion::Return(Value::Undefined))
    )
}
