//! Characters as the grammar sees them.
ghost use Rattle.std.specs.Prelude.{◌≡◌};
ghost use Rattle.markup_grammar.specs.Signs.{sign_of, in_tag};
ghost use Rattle.markup_steps.specs.States.{IsInName};

use markup_grammar::Sign;

/// The character as the grammar sees it.
pub fn sign_of(c: char) -> Sign
    ensures { result ≡ sign_of c }
{
    match c {
        'a'..='z' => Sign::Letter,
        '0'..='9' => Sign::Digit,
        ' ' | '\t' | '\n' | '\r' => Sign::Blank,
        '<' => Sign::Less,
        '>' => Sign::Greater,
        '/' => Sign::Slash,
        '=' => Sign::Equals,
        '"' => Sign::DoubleQuote,
        '\'' => Sign::SingleQuote,
        '&' => Sign::Ampersand,
        '#' => Sign::Hash,
        ';' => Sign::Semicolon,
        '-' => Sign::Hyphen,
        _ => Sign::Other,
    }
}

/// Whether the character goes on in the name of a tag.
pub fn is_in_tag(sign: Sign) -> bool
    ensures { result ≡ in_tag sign }
{
    matches!(sign, Sign::Letter | Sign::Digit)
}

/// The unit of a character of a name.
pub fn name_unit(c: char) -> u16
    requires { IsInName (sign_of c) }
    ensures { result ≡ c }
{
    c as u16
}
