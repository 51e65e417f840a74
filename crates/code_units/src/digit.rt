//! Digits as bytes and as units.
ghost use Rattle.std.specs.Prelude.{◌≡◌, ◌<◌, false};
ghost use Rattle.std.specs.Char.{digit_value};
ghost use Rattle.std.specs.Fmt.{digit_glyph};

/// The lower-case hexadecimal digit of a number below 16.
pub fn hex_digit(n: u16) -> u8
    requires { n < 16 }
    ensures { result ≡ digit_glyph false n }
{
    if n < 10 {
        b'0' + n as u8
    } else {
        b'a' - 10 + n as u8
    }
}

/// The value of a unit as a digit or a letter, and 36 for any other.
pub(crate) fn digit_value(unit: u16) -> u16
    ensures { result ≡ digit_value unit }
{
    match unit {
        48..=57 => unit - 48,
        65..=90 => unit - 55,
        97..=122 => unit - 87,
        _ => 36,
    }
}
