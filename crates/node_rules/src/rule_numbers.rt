//! The rules on scripts by their numbers (`docs/RULES.md`).

/// Tokens, and a program of the grammar.
pub const A01: u8 = 1;

/// The program is the one call that its position asks for.
pub const A02: u8 = 2;

/// No name begins or ends with `_`.
pub const A03: u8 = 3;

/// No `this`.
pub const A04: u8 = 4;

/// No banned property, no `arguments`, no `eval`.
pub const A05: u8 = 5;

/// No free name but the listed globals.
pub const A06: u8 = 6;

/// Subscripts of the listed forms.
pub const A07: u8 = 7;

/// No listed global is bound or written to.
pub const A08: u8 = 8;

/// `ADSAFE` in allowed calls alone.
pub const A09: u8 = 9;

/// No `Math.random`.
pub const A10: u8 = 10;

/// No `with`.
pub const A11: u8 = 11;

/// No `==`, no `!=`.
pub const A12: u8 = 12;

/// No bitwise operator, no shift.
pub const A13: u8 = 13;

/// No `new`, no `instanceof`, no operator `in`.
pub const A14: u8 = 14;

/// No `void`, no comma operator.
pub const A15: u8 = 15;

/// No label, and no jump that leaves its function.
pub const A16: u8 = 16;

/// Whole numbers, below 2^53.
pub const A17: u8 = 17;

/// No statement that does nothing.
pub const A18: u8 = 18;

/// What is assigned or deleted can be.
pub const A19: u8 = 19;

/// At most 200 links deep.
pub const A20: u8 = 20;
