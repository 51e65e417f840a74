//! How far the markup of a page may be there, where its shape is out of order later.
ghost use Rattle.std.specs.Prelude.{◌≡◌, ◌<◌, ◌+◌, IfOk, IsErrOf, map};
ghost use Rattle.serde_json.specs.View.{view};
ghost use Rattle.plain_tree.specs.Trees.{Trees, size};
ghost use Rattle.plain_tree.specs.Plains.{Places};
ghost use Rattle.manifest_reader.specs.Html.{html_text, IsHtmlOf, IsLongestHtml};

use crate::html::{HtmlFault, NODE_LIMIT, read_html};
use code_units::Memory;
use json_shapes::text_at;
use serde_json::Value;
use std::alloc::Global;

// How many nodes may follow an entry.
fn room_behind(alloc: Global, value: &Value, room: u32) -> Result<u32, HtmlFault>
    ensures room { IfOk result
        (λ left. (trees : Trees Places) × IsHtmlOf (html_text (view value.now)) trees × (left + size trees ≡ room)) }
    ensures bad { IsErrOf result HtmlFault.Bad → (trees : Trees Places) →
        IsHtmlOf (html_text (view value.now)) trees → room < size trees }
{
    match text_at(value, "html") {
        Some(text) => Ok(read_html(alloc, text, room)?.1),
        None => Ok(room),
    }
}

/// How many entries stand before the first whose markup may not be there, alone or with that before it.
pub fn good_front(alloc: Global, page: &[Value]) -> Result<usize, Memory>
    ensures { IfOk result (IsLongestHtml (map html_text (map view page.now))) }
{
    let mut room = NODE_LIMIT;
    'page: for (place, value) in page.iter().enumerate() {
        match room_behind(alloc, value, room) {
            Ok(left) => room = left,
            Err(HtmlFault::Bad) => return Ok(place),
            Err(HtmlFault::Memory) => return Err(Memory),
        }
    }
    Ok(page.len())
}
