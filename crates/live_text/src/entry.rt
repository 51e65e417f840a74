//! What is written for a slot.
ghost use Rattle.std.specs.Prelude.{◌≡◌, ◌≤◌, ◌-◌, ◌++◌, length, take, drop, IfOk, OnOk};
ghost use Rattle.live_text.specs.Answer.{object_of, quoted, entry_text, shown};

use code_units::Memory;
use std::alloc::Global;
use trace_text::{Line, report_line};

/// What was written for a slot last.
#[derive(Drop)]
pub struct Entry {
    /// Its line of the report, without the line feed.
    pub line: Vec<u8>,
    /// The text of what stands in it, escaped, in quotes.
    pub root: Vec<u8>,
}

/// The bytes in front of the quoted text of a page line, `{"page":`.
const BEFORE_TEXT: usize = 8;

/// The bytes behind it, `}` and a line feed.
const BEHIND_TEXT: usize = 2;

/// A line of a report, without its line feed.
pub fn line_object(alloc: Global, line: &Line) -> Result<Vec<u8>, Memory>
    ensures { IfOk result (λ bytes. bytes.items ≡ object_of line.now) }
{
    let mut bytes = Vec::new(alloc);
    report_line(line, &mut bytes)?;
    let _ = bytes.pop();
    Ok(bytes)
}

/// A text of UTF-8 bytes, escaped as that of the page line is, in quotes.
#[tactic(auto, using(crate::proofs::Texts::page_long, crate::proofs::Texts::page_inside))]
pub fn root_value(alloc: Global, text: Vec<u8>) -> Result<Vec<u8>, Memory>
    ensures { IfOk result (λ bytes. bytes.items ≡ quoted text.items) }
{
    let mut line = Vec::new(alloc);
    let page = Line::Page { text };
    report_line(&page, &mut line)?;
    inside(alloc, &line)
}

// The quoted text of a page line.
fn inside(alloc: Global, line: &[u8]) -> Result<Vec<u8>, Memory>
    requires { 10 ≤ length line.now }
    ensures { IfOk result (λ bytes. bytes.items ≡ take (length line.now - 10) (drop 8 line.now)) }
{
    Ok(line[BEFORE_TEXT..line.len() - BEHIND_TEXT].to_vec(alloc)?)
}

/// Appends an entry: a JSON object without blanks (docs/LIVE.md, "Answers").
pub fn push_entry(entry: &Entry, out: &mut Vec<u8>) -> Result<(), Memory>
    ensures { OnOk result (out.new.items ≡ out.old.items ++ entry_text (shown entry.now)) }
{
    out.extend_from_slice(b"{\"line\":")?;
    out.extend_from_slice(&entry.line)?;
    out.extend_from_slice(b",\"root\":")?;
    out.extend_from_slice(&entry.root)?;
    Ok(out.extend_from_slice(b"}")?)
}
