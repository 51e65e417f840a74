//! Calls of single parts.
use crate::answer::Answer;
use crate::cases::{bytes_of, text_at};
use crate::choosers::answer_of_chooser;
use crate::line_calls::answer_of_line;
use crate::loop_calls::answer_of_loop;
use crate::page_calls::answer_of_page;
use crate::posts::answer_of_posts;
use crate::session::answer_of_session;
use crate::store_calls::answer_of_store;
use crate::text_calls::answer_of_text;
use serde_json::Value;
use std::alloc::Global;

/// What comes of a call: `call` says what is called, and `of` on what. Else `markup` is a piece of a
/// page, and `call` a query on it.
pub fn answer_of_call(alloc: Global, case: &Value) -> Option<Answer> {
    let call = text_at(case, "call")?;
    match text_at(case, "of") {
        Some("store") => answer_of_store(alloc, call),
        Some("text") => answer_of_text(alloc, call, case),
        Some("page") | Some("nodes") => answer_of_page(alloc, call, None),
        Some("loop") => answer_of_loop(alloc, call),
        Some("line") => answer_of_line(alloc, call),
        Some("chooser") => answer_of_chooser(alloc, call),
        Some("posts") => answer_of_posts(alloc, call),
        Some("session") => answer_of_session(alloc, call, bytes_of(alloc, case)?),
        Some(_) => None,
        None => answer_of_page(alloc, call, Some(text_at(case, "markup")?)),
    }
}
