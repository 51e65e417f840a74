//! Classes of characters.
ghost use Rattle.std.specs.Prelude.{◌≡◌};
ghost use Rattle.js_tokens.specs.Characters.{is_line_end, is_letter, is_digit, is_hex_digit, is_part, is_blank, begins_mark, class_of};
ghost use Rattle.js_tokens.specs.Runs.{passes};

/// What a character begins, outside of strings and comments.
#[derive(Clone, Copy)]
pub enum Class {
    Letter,
    Digit,
    Blank,
    Quote,
    Point,
    Slash,
    Mark,
    Other,
}

/// The characters of which runs are made.
#[derive(Clone, Copy)]
pub enum Run {
    /// What goes on in a name.
    Name,
    Digits,
    HexDigits,
    /// What goes on in a line.
    Line,
    Blank,
}

pub fn is_line_end(c: char) -> bool
    ensures { result ≡ is_line_end c }
{
    c == '\n' || c == '\r' || c == '\u{2028}' || c == '\u{2029}'
}

fn is_letter(c: char) -> bool
    ensures { result ≡ is_letter c }
{
    (c >= 'a' && c <= 'z') || (c >= 'A' && c <= 'Z') || c == '_' || c == '$'
}

pub fn is_digit(c: char) -> bool
    ensures { result ≡ is_digit c }
{
    c >= '0' && c <= '9'
}

pub fn is_hex_digit(c: char) -> bool
    ensures { result ≡ is_hex_digit c }
{
    is_digit(c) || (c >= 'a' && c <= 'f') || (c >= 'A' && c <= 'F')
}

fn is_part(c: char) -> bool
    ensures { result ≡ is_part c }
{
    is_letter(c) || is_digit(c)
}

fn is_blank(c: char) -> bool
    ensures { result ≡ is_blank c }
{
    c == ' ' || (c >= '\t' && c <= '\r')
}

fn begins_mark(c: char) -> bool
    ensures { result ≡ begins_mark c }
{
    match c {
        '{'
        | '}'
        | '('
        | ')'
        | '['
        | ']'
        | ';'
        | ','
        | '<'
        | '>'
        | '='
        | '!'
        | '+'
        | '-'
        | '*'
        | '%'
        | '&'
        | '|'
        | '^'
        | '~'
        | '?'
        | ':' => true,
        _ => false,
    }
}

/// What a character begins.
pub fn class_of(c: char) -> Class
    ensures { result ≡ class_of c }
{
    if is_letter(c) {
        Class::Letter
    } else if is_digit(c) {
        Class::Digit
    } else if is_blank(c) {
        Class::Blank
    } else if c == '"' || c == '\'' {
        Class::Quote
    } else if c == '.' {
        Class::Point
    } else if c == '/' {
        Class::Slash
    } else if begins_mark(c) {
        Class::Mark
    } else {
        Class::Other
    }
}

/// Whether a character belongs to a run.
pub fn passes(run: Run, c: char) -> bool
    ensures { result ≡ passes run c }
{
    match run {
        Run::Name => is_part(c),
        Run::Digits => is_digit(c),
        Run::HexDigits => is_hex_digit(c),
        Run::Line => !is_line_end(c),
        Run::Blank => is_blank(c),
    }
}
