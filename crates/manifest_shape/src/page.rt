//! Reads the entries of a page.
ghost use Rattle.std.specs.Prelude.{◌≡◌, ◌++◌, ◌∷◌, [], IfOk, IfErr, OnOk, IsErrOf, IsTrue, false, map};
ghost use Rattle.std.specs.List.{list_any};
ghost use Rattle.std.specs.Str.{bytes_eq};
ghost use Rattle.serde_json.specs.View.{view};
ghost use Rattle.json_shapes.specs.Each.{Each};
ghost use Rattle.manifest_shape.specs.Slots.{IsEntry, entry_names, name_list, slot_name, names_in, are_slots};
ghost use Rattle.manifest_shape.specs.Manifest.{IsPageFault, BreaksOff};

use crate::slot::{PageEntry, read_entry};
use code_units::Text;
use json_shapes::{Misfit, ShapeFault};
use serde_json::Value;
use std::alloc::Global;

/// The slots that a page may have.
const MOST_SLOTS: usize = 16;

/// The entries of a page, and the names of its slots.
#[derive(Drop)]
pub struct Page {
    pub entries: Vec<PageEntry>,
    pub names: Vec<Text>,
}

fn is_among(names: &[Text], name: &Text) -> bool
    ensures { result ≡ list_any (λ n. bytes_eq n name.now) names.now }
{
    names.iter().any(|n| n == name)
}

// Adds the name of a slot.
fn add_slot(names: &mut Vec<Text>, name: &Text) -> Result<(), Misfit>
    requires { IsTrue (are_slots names.old.items) }
    ensures names { OnOk result (names.new.items ≡ names.old.items ++ name.now ∷ []) }
    ensures slots { OnOk result (IsTrue (are_slots names.new.items)) }
    ensures misfit { IsErrOf result Misfit.Shape → are_slots (names.old.items ++ name.now ∷ []) ≡ false }
{
    if names.len() >= MOST_SLOTS {
        return Err(Misfit::Shape);
    }
    if is_among(names, name) {
        return Err(Misfit::Shape);
    }
    names.push(name.share()?)?;
    Ok(())
}

// Adds the name of an entry that is a slot.
fn add_name(names: &mut Vec<Text>, entry: &PageEntry) -> Result<(), Misfit>
    requires { IsTrue (are_slots names.old.items) }
    ensures names { OnOk result (names.new.items ≡ names.old.items ++ entry_names entry.now) }
    ensures slots { OnOk result (IsTrue (are_slots names.new.items)) }
    ensures misfit { IsErrOf result Misfit.Shape → are_slots (names.old.items ++ entry_names entry.now) ≡ false }
{
    match entry {
        PageEntry::Html(_) => Ok(()),
        PageEntry::Slot(slot) => add_slot(names, &slot.name),
    }
}

// Reads an entry, and adds its name to those before it.
#[tactic(auto, using(crate::proofs::PageLemmas::named_entry))]
fn read_named(
    alloc: Global,
    version: u64,
    value: &Value,
    names: &mut Vec<Text>,
) -> Result<PageEntry, Misfit>
    requires { IsTrue (are_slots names.old.items) }
    ensures entry { IfOk result (λ e. IsEntry version (view value.now) e) }
    ensures names { OnOk result (names.new.items ≡ names.old.items ++ name_list (slot_name (view value.now))) }
    ensures slots { OnOk result (IsTrue (are_slots names.new.items)) }
    ensures misfit { IsErrOf result Misfit.Shape → BreaksOff version (view value.now) names.old.items }
{
    let entry = read_entry(alloc, version, value)?;
    add_name(names, &entry)?;
    Ok(entry)
}

/// Reads the entries of a page in a version.
pub fn read_page(alloc: Global, version: u64, page: &[Value]) -> Result<Page, ShapeFault>
    ensures each { IfOk result (λ p. Each (IsEntry version) (map view page.now) p.entries.items) }
    ensures names { IfOk result (λ p. p.names.items ≡ names_in (map view page.now)) }
    ensures slots { IfOk result (λ p. IsTrue (are_slots p.names.items)) }
    ensures err { IfErr result (IsPageFault version (map view page.now)) }
{
    let mut entries = Vec::new(alloc);
    let mut names = Vec::new(alloc);
    'entries: for value in page {
        // No memory holds so many entries.
        if entries.len() > u32::MAX as usize {
            return Err(ShapeFault::Memory);
        }
        let item = entries.len() as u32;
        match read_named(alloc, version, value, &mut names) {
            Ok(entry) => entries.push(entry)?,
            Err(Misfit::Shape) => return Err(ShapeFault::BadShape { item }),
            Err(Misfit::Memory) => return Err(ShapeFault::Memory),
        }
    }
    Ok(Page { entries, names })
}
