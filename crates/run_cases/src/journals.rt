//! The picks that a host kept, as a text: a list of lists, of each pick its widget, what that had spent
//! before and after, and the slice.
use adhost_run::Host;
use serde_json::Value;
use std::alloc::Global;
use std::fmt::Write;

/// The picks that a host kept.
pub fn journal_of(alloc: Global, host: &Host) -> Option<String> {
    let mut text = String::from_str(alloc, "[").ok()?;
    for pick in host.journal() {
        let separator = if text.len() == 1 { "" } else { "," };
        let (widget, slice) = (pick.widget, pick.slice);
        let (before, after) = (pick.before, pick.after);
        write!(text, "{separator}[{widget},{before},{after},{slice}]").ok()?;
    }
    text.push_str("]").ok()?;
    Some(text)
}

/// The picks that a case says under `journal`; no text where it says none.
pub fn wanted_journal(alloc: Global, case: &Value) -> Option<String> {
    match case.get("journal") {
        Some(journal) => journal.to_string(alloc).ok(),
        None => Some(String::new(alloc)),
    }
}
