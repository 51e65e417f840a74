//! Runs the command lines and the calls of hosts of a table of cases, and says of each whether it ends as is wanted.
//! And single calls of `js_steps`, which each say whether they give what is wanted: frames that are pushed, taken out
//! and unwound, and a call that waits for a native, which gives a value or throws one.
#![tactic(auto)]

mod answered;
mod calls;
mod commands;
mod frames;
mod hosts;
mod journals;
mod lines;

pub use answered::{Answer, ends_as_answered};
use calls::calls_as_wanted;
use commands::ends_as_wanted;
pub use frames::{gives_pushed_frame, unwinds_to_the_end};
use part_cases::text_at;
use serde_json::Value;
use std::alloc::Global;
use std::fmt::Write;

/// What is written of cases, each a line with a JSON object (crate `part_cases`): its name, and whether
/// it ends as is wanted. A case has the words of a command line, or calls of a host. Nothing is written
/// where a line is no case, or for want of memory.
pub fn answers(alloc: Global, cases: &str) -> Option<String> {
    let mut answers = String::new(alloc);
    for line in cases.lines() {
        push_answer(alloc, &Value::from_str(alloc, line).ok()?, &mut answers)?;
    }
    Some(answers)
}

// The name of a case, and what is written of it.
fn push_answer(alloc: Global, case: &Value, out: &mut String) -> Option<()> {
    let name = text_at(case, "name")?;
    let word = match is_as_wanted(alloc, case) {
        Some(true) => "as wanted",
        Some(false) => "otherwise",
        None => "no answer",
    };
    write!(out, "# {name}\n{word}\n").ok()
}

fn is_as_wanted(alloc: Global, case: &Value) -> Option<bool> {
    if case.get("words").is_none() {
        calls_as_wanted(alloc, case)
    } else {
        ends_as_wanted(alloc, case)
    }
}
