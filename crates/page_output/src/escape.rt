//! Texts with references.
ghost use Rattle.std.specs.Prelude.{◌≡◌, ◌++◌, OnErr, OnOk};
ghost use Rattle.plain_tree.specs.Print.{escape, escape_in_value, printed_text, printed_value};

use code_units::{Memory, Text, push_ascii, push_utf8};
use std::alloc::Global;

const QUOTE: u16 = 0x22;

const AMPERSAND: u16 = 0x26;

const LESS: u16 = 0x3C;

const GREATER: u16 = 0x3E;

// Appends a unit, `&`, `<` and `>` as references.
fn push_unit(units: &mut Vec<u16>, unit: u16) -> Result<(), Memory>
    ensures { OnOk result (units.new.items ≡ units.old.items ++ escape unit) }
{
    match unit {
        AMPERSAND => push_ascii(units, b"&amp;"),
        LESS => push_ascii(units, b"&lt;"),
        GREATER => push_ascii(units, b"&gt;"),
        _ => Ok(units.push(unit)?),
    }
}

// Appends a unit of a value, `"` as a reference too.
fn push_value_unit(units: &mut Vec<u16>, unit: u16) -> Result<(), Memory>
    ensures { OnOk result (units.new.items ≡ units.old.items ++ escape_in_value unit) }
{
    if unit == QUOTE {
        return push_ascii(units, b"&quot;");
    }
    push_unit(units, unit)
}

/// Appends the printed form of a text. A refusal changes nothing.
pub fn push_text(alloc: Global, text: &Text, out: &mut Vec<u8>) -> Result<(), Memory>
    ensures ok { OnOk result (out.new.items ≡ out.old.items ++ printed_text text.now) }
    ensures err { OnErr result (out.new.items ≡ out.old.items) }
{
    let mut units = Vec::new(alloc);
    'each: for unit in text.units() {
        push_unit(&mut units, *unit)?;
    }
    push_utf8(&Text::from_units(alloc, units)?, out)
}

/// Appends the printed form of an attribute's value.
pub fn push_value(alloc: Global, text: &Text, out: &mut Vec<u8>) -> Result<(), Memory>
    ensures { OnOk result (out.new.items ≡ out.old.items ++ printed_value text.now) }
{
    let mut units = Vec::new(alloc);
    'each: for unit in text.units() {
        push_value_unit(&mut units, *unit)?;
    }
    push_utf8(&Text::from_units(alloc, units)?, out)
}
