//! Cases of single parts: the tokens of scripts and their trees as text, the printed text of markup and
//! styles, whether queries, manifests and traces are read, and where each text is refused; what calls of
//! single parts give; and whether texts are certificates of reach, and confined. A case is a line with a
//! JSON object (module `cases`, which other tables read theirs by); its name stands before what is written of it.
#![tactic(auto)]

mod answer;
mod calls;
mod cases;
mod certificates;
mod choosers;
mod line_calls;
mod loop_calls;
mod markup;
mod page_calls;
mod posts;
mod scripts;
mod session;
mod shapes;
mod store_calls;
mod text_calls;

use answer::{Answer, push_answer};
use calls::answer_of_call;
pub use cases::{bytes_of, list_at, text_at};
pub use certificates::verdicts;
use keyed_names::Keys;
use markup::{answer_of_markup, answer_of_query, answer_of_style};
use scripts::{answer_of_parse, answer_of_tokens};
use serde_json::Value;
use shapes::{answer_of_manifest, answer_of_trace};
use std::alloc::Global;
use std::fmt::Write;

/// What is asked of a case: of its text, or of a call.
#[derive(Clone, Copy)]
pub enum Question {
    Tokens,
    Parse,
    Markup,
    Style,
    Query,
    Manifest,
    Trace,
    Call,
}

/// What is written of cases, a line each; nothing where a line is no case, or for want of memory.
pub fn answers(alloc: Global, question: Question, cases: &str) -> Option<String> {
    let mut answers = String::new(alloc);
    for line in cases.lines() {
        push_line(alloc, question, line, &mut answers)?;
    }
    Some(answers)
}

fn push_line(alloc: Global, question: Question, line: &str, out: &mut String) -> Option<()> {
    push_case(alloc, question, &Value::from_str(alloc, line).ok()?, out)
}

// The name of a case, and what is written of it.
fn push_case(alloc: Global, question: Question, case: &Value, out: &mut String) -> Option<()> {
    let name = text_at(case, "name")?;
    write!(out, "# {name}\n").ok()?;
    push_answer(&answer_to(alloc, question, case), out)
}

fn answer_to(alloc: Global, question: Question, case: &Value) -> Option<Answer> {
    if let Question::Call = question {
        return answer_of_call(alloc, case);
    }
    answer_on(alloc, question, case, &bytes_of(alloc, case)?)
}

// What comes of the text of a case.
fn answer_on(alloc: Global, question: Question, case: &Value, text: &[u8]) -> Option<Answer> {
    match question {
        Question::Tokens => answer_of_tokens(alloc, text),
        Question::Parse => answer_of_parse(alloc, text, text_at(case, "shows")),
        Question::Markup => answer_of_markup(alloc, text),
        Question::Style => answer_of_style(alloc, text),
        Question::Query => answer_of_query(alloc, text),
        Question::Manifest => answer_of_manifest(alloc, text),
        Question::Trace => answer_of_trace(alloc, text, case),
        Question::Call => None,
    }
}

// Keys of no files.
fn keys() -> Keys {
    Keys::of_files(&[])
}
