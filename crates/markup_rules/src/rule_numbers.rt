//! The rules on a widget's file by their numbers (`docs/RULES.md`).

/// Content of markup (`docs/MARKUP.md`).
pub const M01: u8 = 1;

/// One `div`.
pub const M02: u8 = 2;

/// The `div` has the slot's name as its `id`.
pub const M03: u8 = 3;

/// The `div` ends with a script without `src`.
pub const M04: u8 = 4;

/// Scripts stand in the `div` alone, at its end, and in their order.
pub const M05: u8 = 5;

/// Listed tags.
pub const M06: u8 = 6;

/// Listed attributes, each once, and on a script `src` and `type` alone.
pub const M07: u8 = 7;

/// An `id` or `for` is the slot's, and each `id` stands once.
pub const M08: u8 = 8;

/// Plain words, and no address that says `javascript:`.
pub const M09: u8 = 9;

/// A `style` is a list of styles.
pub const M10: u8 = 10;

/// A `src` of a script is a library of the slot.
pub const M11: u8 = 11;

/// At most 16,384 nodes.
pub const M12: u8 = 12;
