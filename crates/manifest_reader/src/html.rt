//! Reads the markup of a page.
ghost use Rattle.std.specs.Prelude.{◌≡◌, ◌<◌, ◌+◌, IfOk, IsErrOf};
ghost use Rattle.plain_tree.specs.Trees.{Trees, size};
ghost use Rattle.plain_tree.specs.Plains.{Places, placed_all};
ghost use Rattle.manifest_reader.specs.Page.{IsPageMarkup};

use crate::count::room_after_all;
use code_units::Memory;
use markup_reader::{MarkupFault, read_markup};
use plain_tree::Plain;
use std::alloc::Global;
use widget_form::host_markup;

/// The most nodes that the markup of a page may have.
pub const NODE_LIMIT: u32 = 262_144;

/// Why a text gave no markup.
#[derive(Clone, Copy)]
pub enum HtmlFault {
    /// It is no markup that may be there, or has too many nodes.
    Bad,
    /// There was no memory.
    Memory,
}

impl From<Memory> for HtmlFault {
    ghost use Rattle.std.specs.Prelude.{◌≡◌};
    ghost use Rattle.manifest_reader.specs.declared.html.HtmlFault.TheVariants.{Memory as out_of_memory};

    ghost from_gives = { λ _ e. e ≡ out_of_memory };

    fn from(_: Memory) -> HtmlFault {
        HtmlFault::Memory
    }
}

/// The trees of a text, and how many nodes may still follow where so many may.
pub fn read_html(alloc: Global, text: &str, room: u32) -> Result<(Vec<Plain>, u32), HtmlFault>
    ensures markup { IfOk result (λ p. IsPageMarkup text.now (placed_all p.0.items)) }
    ensures room { IfOk result (λ p. p.1 + size (placed_all p.0.items) ≡ room) }
    ensures bad { IsErrOf result HtmlFault.Bad → (trees : Trees Places) →
        IsPageMarkup text.now trees → room < size trees }
{
    let content = match read_markup(alloc, text.as_bytes()) {
        Ok(content) => content,
        Err(MarkupFault::BadMarkup { .. }) => return Err(HtmlFault::Bad),
        Err(MarkupFault::Memory) => return Err(HtmlFault::Memory),
    };
    if !host_markup(alloc, &content)? {
        return Err(HtmlFault::Bad);
    }
    match room_after_all(&content, room) {
        Some(left) => Ok((content, left)),
        None => Err(HtmlFault::Bad),
    }
}
