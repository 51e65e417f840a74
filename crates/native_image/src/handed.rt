//! What natives, steps and turns are handed.

use code_units::Text;
use event_loop::Loop;
use js_names::Code;
use native_common::WidgetId;
use object_store::{CellId, Store};
use page_tree::{NodeId, Page};
use std::alloc::Global;

/// What all widgets share: the store, the page, the trees of their code, and the allocator from which all grow.
#[derive(Drop)]
pub struct Shared {
    pub alloc: Global,
    pub store: Store,
    pub page: Page,
    pub codes: Vec<Code>,
}

/// A widget by its number, with what it has beside cells and nodes: what is kept for it, whether `bubble` was
/// called in its innermost open dispatch, if one is open, its log, and the posts that it has kept, each by
/// receiver and text.
#[derive(Drop)]
pub struct Widget {
    pub id: WidgetId,
    pub around: Loop,
    pub bubbled: Option<bool>,
    pub log: Vec<Text>,
    pub posts: Vec<(Text, Text)>,
}

/// A Bunch that a method is called on: its cell, and its nodes.
#[derive(Clone, Copy, Drop)]
pub struct Receiver<'a> {
    pub cell: CellId,
    pub nodes: &'a [NodeId],
}
