//! What a task is doing, and what waits for it: jobs, frames and what is next.
#![tactic(auto)]

mod flow;
mod frame;
mod job;
mod lists;
mod task;

pub use flow::Flow;
pub use frame::{
    Argument, Assigning, CallFrame, Calling, ForInNames, FormFrame, Frame, Gathering, Keep,
    StatementFrame,
};
pub use job::{Args, Block, Call, Completion, Job, Listed, NativeCall, Next, Place, Reference};
pub use lists::{
    argument_at, clause_at, declaration_at, default_at, element_at, first_at, has_directive,
    last_at, property_at, statement_at,
};
pub use task::{Control, Stepped};
