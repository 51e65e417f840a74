//! The entries of a page.
ghost use Rattle.std.specs.Prelude.{◌≡◌, ℕ, List, IfOk, IsErrOf, Option, codes, string_bytes};
ghost use Rattle.std.specs.List.{list_all};
ghost use Rattle.serde_json.specs.View.{view};
ghost use Rattle.serde_json.specs.Find.{get};
ghost use Rattle.json_shapes.specs.Keys.{has_only};
ghost use Rattle.manifest_shape.specs.Slots.{is_capital_letter, is_slot_name, slot_keys, IsFuel, IsHtml, IsSlot, IsEntry};

use code_units::Text;
use json_shapes::{Misfit, has_key, has_only, text_at};
use serde_json::Value;
use std::alloc::Global;

/// The units that the name of a slot may have: 31 letters and a `_`.
const LONGEST_NAME: usize = 32;

/// The fuel that a turn of a slot may have.
const MOST_FUEL: u32 = 1_000_000;

/// A slot as a manifest names it, with fuel of its own if it has some.
#[derive(Drop)]
pub struct SlotEntry {
    pub name: Text,
    pub file: String,
    pub fuel: Option<u32>,
}

/// An entry of a page.
#[derive(Drop)]
pub enum PageEntry {
    /// Markup of the page itself, as its text.
    Html(String),
    /// A place for a widget.
    Slot(SlotEntry),
}

fn is_capital_letter(unit: u16) -> bool
    ensures { result ≡ is_capital_letter unit }
{
    (u16::from(b'A')..=u16::from(b'Z')).contains(&unit)
}

fn are_capital_letters(units: &[u16]) -> bool
    ensures { result ≡ list_all is_capital_letter units.now }
{
    units.iter().all(|unit| is_capital_letter(*unit))
}

fn is_slot_name(units: &[u16]) -> bool
    ensures { result ≡ is_slot_name units.now }
{
    if units.len() < 2 || units.len() > LONGEST_NAME {
        return false;
    }
    let last = units.len() - 1;
    units[last] == u16::from(b'_') && are_capital_letters(&units[..last])
}

/// The fuel that an object gives, if it does.
pub fn read_fuel(value: &Value) -> Result<Option<u32>, Misfit>
    ensures ok { IfOk result (λ fuel. IsFuel (get (codes "fuel") (view value.now)) fuel) }
    ensures misfit { IsErrOf result Misfit.Shape → (fuel : Option ℕ) →
        ¬ IsFuel (get (codes "fuel") (view value.now)) fuel }
{
    let Some(found) = value.get("fuel") else {
        return Ok(None);
    };
    let Some(fuel) = found.as_u64() else {
        return Err(Misfit::Shape);
    };
    if fuel < 1 || fuel > u64::from(MOST_FUEL) {
        return Err(Misfit::Shape);
    }
    Ok(Some(fuel as u32))
}

fn read_html(alloc: Global, entry: &Value) -> Result<String, Misfit>
    ensures ok { IfOk result (λ text. IsHtml (view entry.now) (string_bytes text)) }
    ensures misfit { IsErrOf result Misfit.Shape → (text : List ℕ) → ¬ IsHtml (view entry.now) text }
{
    let Some(text) = text_at(entry, "html") else {
        return Err(Misfit::Shape);
    };
    if !has_only(entry, &["html"]) {
        return Err(Misfit::Shape);
    }
    Ok(String::from_str(alloc, text)?)
}

fn has_slot_keys(version: u64, entry: &Value) -> bool
    ensures { result ≡ has_only (slot_keys version) (view entry.now) }
{
    if version == 2 {
        has_only(entry, &["widget", "file", "fuel"])
    } else {
        has_only(entry, &["widget", "file"])
    }
}

fn read_slot(alloc: Global, version: u64, entry: &Value) -> Result<SlotEntry, Misfit>
    ensures ok { IfOk result (λ slot. IsSlot version (view entry.now) slot) }
    ensures misfit { IsErrOf result Misfit.Shape → (slot : SlotEntry) → ¬ IsSlot version (view entry.now) slot }
{
    if !has_slot_keys(version, entry) {
        return Err(Misfit::Shape);
    }
    let Some(name) = text_at(entry, "widget") else {
        return Err(Misfit::Shape);
    };
    let Some(file) = text_at(entry, "file") else {
        return Err(Misfit::Shape);
    };
    let name = Text::from_str(alloc, name)?;
    if !is_slot_name(name.units()) {
        return Err(Misfit::Shape);
    }
    let fuel = read_fuel(entry)?;
    let file = String::from_str(alloc, file)?;
    Ok(SlotEntry { name, file, fuel })
}

/// Reads one entry of a version.
pub fn read_entry(alloc: Global, version: u64, entry: &Value) -> Result<PageEntry, Misfit>
    ensures ok { IfOk result (λ e. IsEntry version (view entry.now) e) }
    ensures misfit { IsErrOf result Misfit.Shape → (e : PageEntry) → ¬ IsEntry version (view entry.now) e }
{
    if has_key(entry, "html") {
        return Ok(PageEntry::Html(read_html(alloc, entry)?));
    }
    Ok(PageEntry::Slot(read_slot(alloc, version, entry)?))
}
