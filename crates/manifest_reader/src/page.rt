//! Reads the markup of a page, and gives its slots their fuel.
ghost use Rattle.std.specs.Prelude.{◌≡◌, ◌<◌, ◌+◌, IfOk, IfErr, IsErrOf, map};
ghost use Rattle.plain_tree.specs.Trees.{Trees, size};
ghost use Rattle.plain_tree.specs.Plains.{Places};
ghost use Rattle.manifest_reader.specs.Page.{part_of, nodes_of, fuel_of, IsFilled, AreFilled};
ghost use Rattle.manifest_reader.specs.Html.{entry_text, IsHtmlOf, IsHtmlFault};

use crate::entry::Entry;
use crate::html::{HtmlFault, NODE_LIMIT, read_html};
use code_units::Memory;
use json_shapes::ShapeFault;
use manifest_shape::{PageEntry, SlotEntry};
use std::alloc::Global;

/// The fuel of a slot where the manifest gives none.
const USUAL_FUEL: u32 = 100_000;

fn fuel_of(own: Option<u32>, given: Option<u32>) -> u32
    ensures { result ≡ fuel_of own given }
{
    own.unwrap_or(given.unwrap_or(USUAL_FUEL))
}

fn read_slot(alloc: Global, slot: &SlotEntry, given: Option<u32>) -> Result<Entry, Memory>
    ensures { IfOk result (λ e. IsFilled given (PageEntry.Slot slot.now) (part_of e)) }
{
    Ok(Entry::Slot {
        name: slot.name.share()?,
        file: String::from_str(alloc, slot.file.as_str())?,
        fuel: fuel_of(slot.fuel, given),
    })
}

// An entry, and how many nodes may still follow where so many may.
fn read_entry(
    alloc: Global,
    entry: &PageEntry,
    given: Option<u32>,
    room: u32,
) -> Result<(Entry, u32), HtmlFault>
    ensures entry { IfOk result (λ p. IsFilled given entry.now (part_of p.0)) }
    ensures room { IfOk result (λ p. p.1 + nodes_of (part_of p.0) ≡ room) }
    ensures bad { IsErrOf result HtmlFault.Bad → (trees : Trees Places) →
        IsHtmlOf (entry_text entry.now) trees → room < size trees }
{
    match entry {
        PageEntry::Html(text) => {
            let (content, left) = read_html(alloc, text.as_str(), room)?;
            Ok((Entry::Html(content), left))
        }
        PageEntry::Slot(slot) => Ok((read_slot(alloc, slot, given)?, room)),
    }
}

/// The entries of a page by their shape, in a manifest that gives its slots this fuel. `BadShape`
/// has the number of entries before the first whose markup may not be there, alone or with that
/// before it.
pub fn read_entries(
    alloc: Global,
    entries: &[PageEntry],
    given: Option<u32>,
) -> Result<Vec<Entry>, ShapeFault>
    ensures filled { IfOk result (λ es. AreFilled given entries.now (map part_of es.items)) }
    ensures err { IfErr result (IsHtmlFault (map entry_text entries.now)) }
{
    let mut read = Vec::new(alloc);
    let mut room = NODE_LIMIT;
    'entries: for entry in entries {
        // No memory holds so many entries.
        if read.len() > u32::MAX as usize {
            return Err(ShapeFault::Memory);
        }
        let item = read.len() as u32;
        match read_entry(alloc, entry, given, room) {
            Ok((next, left)) => {
                room = left;
                read.push(next)?;
            }
            Err(HtmlFault::Bad) => return Err(ShapeFault::BadShape { item }),
            Err(HtmlFault::Memory) => return Err(ShapeFault::Memory),
        }
    }
    Ok(read)
}
