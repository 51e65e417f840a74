//! Names that are indices of arrays.
ghost use Rattle.std.specs.Prelude.{◌≡◌, ℕ, Some, ◌<◌, IfSome};
ghost use Rattle.std.specs.Fmt.{decimal};
ghost use Rattle.code_units.specs.Indices.{index_of};

use crate::text::Text;
use crate::whole::numeral;
use crate::word::spells;
use itoa::Buffer;

/// The greatest length of an array; an index is less.
pub const MAX_LENGTH: u32 = u32::MAX;

/// The index that a name is (ECMA-262 3rd edition, 15.4), none exactly where it is the decimal text
/// of no number from 0 to 4294967294.
pub fn index_of(name: &Text) -> Option<u32>
    ensures index { result ≡ index_of name.now }
    ensures decimal { IfSome result (λ i. decimal i ≡ name.now) }
    ensures only { (i : ℕ) → i < MAX_LENGTH → decimal i ≡ name.now → result ≡ Some i }
    ensures small { IfSome result (λ i. i < MAX_LENGTH) }
{
    index_in(name.units())
}

fn index_in(units: &[u16]) -> Option<u32>
    ensures { result ≡ index_of units.now }
{
    let n = numeral(units, 10)?;
    if n < u64::from(MAX_LENGTH) && spells(units, Buffer::new().format(n).as_bytes()) {
        Some(n as u32)
    } else {
        None
    }
}
