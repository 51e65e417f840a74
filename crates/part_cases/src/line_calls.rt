//! Report lines that no command line prints yet, with each kind of escape.
use crate::answer::{Answer, text_answer};
use code_units::{Text, from_utf8_bytes};
use std::alloc::Global;
use trace_text::{Line, RunText, State, report_line};

/// The line of this kind.
pub fn answer_of_line(alloc: Global, kind: &str) -> Option<Answer> {
    let mut out = Vec::new(alloc);
    report_line(&line_of(alloc, kind)?, &mut out).ok()?;
    text_answer(out)
}

fn line_of(alloc: Global, kind: &str) -> Option<Line> {
    match kind {
        "library" => Some(Line::LibAccepted {
            file: String::from_str(alloc, "\"\\\u{8}\t\n\u{c}\r\u{1f}\u{e9}").ok()?,
        }),
        "accepted slot" => Some(Line::Accepted {
            name: Text::from_units(alloc, vec![in alloc; 0xd800, 65].ok()?).ok()?,
            file: String::from_str(alloc, "m.js").ok()?,
        }),
        "life" => Some(Line::Ran(life(alloc, None)?)),
        "short life" => Some(Line::Short(life(alloc, Some(2))?)),
        "page" => Some(Line::Page {
            text: b"<p id=\"A_\"></p>\n".to_vec(alloc).ok()?,
        }),
        _ => None,
    }
}

// A live life with a text in its log.
fn life(alloc: Global, until: Option<u32>) -> Option<RunText> {
    Some(RunText {
        name: from_utf8_bytes(alloc, b"A_").ok()?,
        until,
        state: State::Live,
        turns: 2,
        spent: 70,
        missed: 1,
        gone: 3,
        log: vec![in alloc; from_utf8_bytes(alloc, b"clicks \"1\"").ok()?].ok()?,
        uncaught: Vec::new(alloc),
    })
}
