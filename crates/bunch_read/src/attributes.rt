//! Attributes of the first node.
ghost use Rattle.std.specs.Prelude.{◌≡◌, [], IfOk, map, option_copied, unwrap_or};
ghost use Rattle.widget_meaning.specs.BunchReads as means;
ghost use Rattle.widget_meaning.specs.OwnState.{State};
ghost use Rattle.page_image.specs.Image.{forest, number};
ghost use Rattle.native_image.specs.Sound.{AreNodes};

use code_units::{Memory, Text};
use js_image::word;
use page_image::attr_of_word;
use page_tree::{NodeId, Page};
use std::alloc::Global;

// A text for a second holder, or the empty one.
pub(crate) fn text_or_empty(alloc: Global, text: Option<&Text>) -> Result<Text, Memory>
    ensures { IfOk result (λ t. t ≡ unwrap_or (option_copied text.entry) []) }
{
    match text {
        Some(t) => t.share(),
        None => word(alloc, b""),
    }
}

// An attribute of the first node.
pub(crate) fn first_found<'a>(
    list: &[NodeId],
    name: &[u8],
    w: u32,
    page: &'a Page,
) -> Option<&'a Text>
    requires { AreNodes page.now w list.now }
    ensures { (s : State) → s.own.forest ≡ forest page.now w
        → option_copied result ≡ means.first_found s (map (number page.now w) list.now) name.now }
{
    match list.first() {
        Some(node) => attr_of_word(page, w, *node, name),
        None => None,
    }
}

// The same, or the empty text.
pub(crate) fn first_attribute(
    alloc: Global,
    list: &[NodeId],
    name: &[u8],
    w: u32,
    page: &Page,
) -> Result<Text, Memory>
    requires { AreNodes page.now w list.now }
    ensures { (s : State) → s.own.forest ≡ forest page.now w
        → IfOk result (λ t. t ≡ means.first_attribute s (map (number page.now w) list.now) name.now) }
{
    text_or_empty(alloc, first_found(list, name, w, page))
}
