//! Runs of units of one kind, sixteen units at a time.

ghost use Rattle.std.specs.Prelude.{◌≡◌, ℕ, ◌+◌, ◌-◌, ◌<◌, ◌≤◌, true, not, IsTrue, length, map, slice_index};
ghost use Rattle.std.specs.Char.{is_ascii};
ghost use Rattle.std.specs.List.{prefix_len, suffix_len};
ghost use Rattle.std.specs.Simd.Lanes.{mask_l};
ghost use Rattle.code_units.specs.Runs.{is_of};

use crate::digit::digit_value;
use std::simd::prelude::*;

/// The kinds of units that stand in runs.
#[derive(Clone, Copy)]
pub(crate) enum Kind {
    /// A decimal digit.
    Digit,
    /// A hexadecimal digit, small or capital.
    Hexadecimal,
    /// The digit 0.
    Zero,
    /// A blank.
    Blank,
    /// A unit below 128.
    Ascii,
}

// How many units are tested at once.
const LANES: usize = 16;

/// How many units of the kind the units begin with.
pub(crate) fn run(units: &[u16], kind: Kind) -> usize
    ensures len { result ≡ prefix_len (is_of kind) units.now }
    ensures within { result ≤ length units.now }
{
    let mut end = blocks(units, kind);
    while end < units.len() && is_of(units[end], kind) {
        end += 1;
    }
    end
}

/// How many units are left where a run of the kind is taken from their end.
pub(crate) fn without_run(units: &[u16], kind: Kind) -> usize
    ensures { result ≡ length units.now - suffix_len (is_of kind) units.now }
{
    let mut end = without_blocks(units, kind);
    while end > 0 && is_of(units[end - 1], kind) {
        end -= 1;
    }
    end
}

/// How many ASCII bytes the bytes begin with.
pub(crate) fn ascii_len(bytes: &[u8]) -> usize
    ensures len { result ≡ prefix_len is_ascii bytes.now }
    ensures within { result ≤ length bytes.now }
{
    let mut end = ascii_blocks(bytes);
    while end < bytes.len() && bytes[end] < 128 {
        end += 1;
    }
    end
}

// How many units whole blocks of the kind take at the start.
fn blocks(units: &[u16], kind: Kind) -> usize
    ensures within { result ≤ length units.now }
    ensures same { (k : ℕ) → k < result → is_of kind (slice_index units.now k) ≡ true }
{
    let mut end = 0;
    while units.len() - end >= LANES && is_block(units, end, kind) {
        end += LANES;
    }
    end
}

// How many units are left where whole blocks of the kind are taken from the end.
fn without_blocks(units: &[u16], kind: Kind) -> usize
    ensures within { result ≤ length units.now }
    ensures same { (k : ℕ) → result ≤ k → k < length units.now → is_of kind (slice_index units.now k) ≡ true }
{
    let mut end = units.len();
    while end >= LANES && is_block(units, end - LANES, kind) {
        end -= LANES;
    }
    end
}

// Whether the units of one block from the place on are of the kind.
#[inline]
fn is_block(units: &[u16], at: usize, kind: Kind) -> bool
    requires { at + LANES ≤ length units.now }
    ensures { IsTrue result → (k : ℕ) → at ≤ k → k < at + LANES → is_of kind (slice_index units.now k) ≡ true }
{
    others(u16x16::from_slice(&units[at..]), kind) == 0
}

// A bit for each lane that is not of the kind.
#[inline]
fn others(v: u16x16, kind: Kind) -> u64
    requires { length v ≡ LANES }
    ensures { result ≡ mask_l (map (λ u. not (is_of kind u)) v) }
{
    match kind {
        Kind::Digit => (v.simd_lt(u16x16::splat(48)) | v.simd_gt(u16x16::splat(57))).to_bitmask(),
        Kind::Hexadecimal => {
            let digits = v.simd_lt(u16x16::splat(48)) | v.simd_gt(u16x16::splat(57));
            let capitals = v.simd_lt(u16x16::splat(65)) | v.simd_gt(u16x16::splat(70));
            let smalls = v.simd_lt(u16x16::splat(97)) | v.simd_gt(u16x16::splat(102));
            (digits & capitals & smalls).to_bitmask()
        }
        Kind::Zero => v.simd_ne(u16x16::splat(48)).to_bitmask(),
        Kind::Blank => ((v.simd_lt(u16x16::splat(9)) | v.simd_gt(u16x16::splat(13)))
            & v.simd_ne(u16x16::splat(32))).to_bitmask(),
        Kind::Ascii => v.simd_gt(u16x16::splat(127)).to_bitmask(),
    }
}

fn is_of(unit: u16, kind: Kind) -> bool
    ensures { result ≡ is_of kind unit }
{
    match kind {
        Kind::Digit => digit_value(unit) < 10,
        Kind::Hexadecimal => digit_value(unit) < 16,
        Kind::Zero => unit == 48,
        Kind::Blank => matches!(unit, 9..=13 | 32),
        Kind::Ascii => unit < 128,
    }
}

// How many bytes whole blocks of ASCII take at the start.
fn ascii_blocks(bytes: &[u8]) -> usize
    ensures within { result ≤ length bytes.now }
    ensures same { (k : ℕ) → k < result → is_ascii (slice_index bytes.now k) ≡ true }
{
    let mut end = 0;
    while bytes.len() - end >= LANES && is_ascii_block(bytes, end) {
        end += LANES;
    }
    end
}

// Whether the bytes of one block from the place on are ASCII.
#[inline]
fn is_ascii_block(bytes: &[u8], at: usize) -> bool
    requires { at + LANES ≤ length bytes.now }
    ensures { IsTrue result → (k : ℕ) → at ≤ k → k < at + LANES → is_ascii (slice_index bytes.now k) ≡ true }
{
    let block = u8x16::from_slice(&bytes[at..]);
    block.simd_gt(u8x16::splat(127)).to_bitmask() == 0
}
