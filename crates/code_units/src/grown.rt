//! Lists of units that grow.

ghost use Rattle.std.specs.Prelude.{◌≡◌, ℕ, ◌+◌, ◌<◌, ◌++◌, length, take, slice_index, OnOk, OnErr};
ghost use Rattle.std.specs.Char.Escape.{encode_utf16};

use crate::memory::Memory;
use std::alloc::AllocError;

/// Appends the units of a code point: one below 65536, and two surrogates above. A refusal
/// leaves `units` as they were.
pub fn push_char(units: &mut Vec<u16>, c: char) -> Result<(), Memory>
    ensures ok { OnOk result (units.new.items ≡ units.old.items ++ encode_utf16 c) }
    ensures err { OnErr result (units.new.items ≡ units.old.items) }
{
    Ok(units.extend_from_slice(c.encode_utf16(&mut [0; 2]))?)
}

/// Appends the units of ASCII bytes.
pub fn push_ascii(units: &mut Vec<u16>, text: &[u8]) -> Result<(), Memory>
    ensures { OnOk result (units.new.items ≡ units.old.items ++ text.now) }
{
    let before = units.len();
    units.resize(before + text.len(), 0)?;
    widen(units, before, text);
    Ok(())
}

// Writes bytes as units, from a place on.
fn widen(units: &mut [u16], from: usize, bytes: &[u8])
    requires { length units.old ≡ from + length bytes.now }
    ensures { units.new ≡ take from units.old ++ bytes.now }
{
    for i in 0..bytes.len() {
        units[from + i] = u16::from(bytes[i]);
    }
}

/// Appends units below 256 as bytes. A refusal leaves `bytes` as they were.
pub(crate) fn push_bytes(bytes: &mut Vec<u8>, units: &[u16]) -> Result<(), AllocError>
    requires { (k : ℕ) → slice_index units.now k < 256 }
    ensures ok { OnOk result (bytes.new.items ≡ bytes.old.items ++ units.now) }
    ensures err { OnErr result (bytes.new.items ≡ bytes.old.items) }
{
    let before = bytes.len();
    bytes.resize(before + units.len(), 0)?;
    narrow(bytes, before, units);
    Ok(())
}

// Writes units as bytes, from a place on.
fn narrow(bytes: &mut [u8], from: usize, units: &[u16])
    requires len { length bytes.old ≡ from + length units.now }
    requires small { (k : ℕ) → slice_index units.now k < 256 }
    ensures { bytes.new ≡ take from bytes.old ++ units.now }
{
    for i in 0..units.len() {
        bytes[from + i] = units[i] as u8;
    }
}
