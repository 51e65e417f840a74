//! What a method of a Bunch works on.
use native_common::WidgetId;
use object_store::CellId;
use page_tree::NodeId;

/// A Bunch whose nodes are changed, with the widget whose it is.
#[derive(Clone, Copy, Drop)]
pub struct Target<'a> {
    pub w: WidgetId,
    pub cell: CellId,
    pub nodes: &'a [NodeId],
}
