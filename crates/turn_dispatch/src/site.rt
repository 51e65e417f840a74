//! Where a turn goes on.

use event_loop::Loop;
use native_image::WidgetId;
use page_tree::Page;

/// Where a turn goes on: a widget by its number, the page, and what is kept for the widget beside it.
#[derive(Drop)]
pub struct Site<'a> {
    pub id: WidgetId,
    pub page: &'a Page,
    pub around: &'a Loop,
}
