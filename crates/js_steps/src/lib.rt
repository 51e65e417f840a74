//! One call that the host makes for a widget, step by step.
#![tactic(auto)]

mod answer;
mod calling;
mod jobs;
mod machine;
mod stack;
mod strides;
mod task;

pub use answer::{Stepped, Stop};
pub use calling::{begin, depth, raise, resume, run, step, stride};
pub use js_flow::{Args, NativeCall};
pub use stack::{Frames, Unwound};
pub use task::Task;
