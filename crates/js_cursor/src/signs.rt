//! What the grammar sees of a token.
ghost use Rattle.std.specs.Prelude.{◌≡◌, [], ◌∷◌, map};
ghost use Rattle.js_tokens.specs.Lexes.{IsTokenOf};
ghost use Rattle.js_cursor.specs.Signs.{look_up, words, marks, sign_of};

use js_grammar::Sign;
use js_tokens::{Token, TokenKind};

// The reserved words of the grammar, the frequent ones first.
static WORDS: [(&[u8], Sign); 28] = [
    (b"var", Sign::Var),
    (b"function", Sign::Function),
    (b"return", Sign::Return),
    (b"if", Sign::If),
    (b"this", Sign::This),
    (b"else", Sign::Else),
    (b"for", Sign::For),
    (b"new", Sign::New),
    (b"true", Sign::True),
    (b"false", Sign::False),
    (b"null", Sign::Null),
    (b"typeof", Sign::TypeOf),
    (b"case", Sign::Case),
    (b"break", Sign::Break),
    (b"while", Sign::While),
    (b"in", Sign::In),
    (b"throw", Sign::Throw),
    (b"try", Sign::Try),
    (b"catch", Sign::Catch),
    (b"switch", Sign::Switch),
    (b"default", Sign::Default),
    (b"delete", Sign::Delete),
    (b"continue", Sign::Continue),
    (b"do", Sign::Do),
    (b"finally", Sign::Finally),
    (b"instanceof", Sign::InstanceOf),
    (b"void", Sign::Void),
    (b"with", Sign::With),
];

// The marks of more than one byte, the frequent ones first.
static LONG_MARKS: [(&[u8], Sign); 24] = [
    (b"===", Sign::Same),
    (b"++", Sign::PlusPlus),
    (b"&&", Sign::AndAnd),
    (b"||", Sign::OrOr),
    (b"!==", Sign::NotSame),
    (b"+=", Sign::PlusAssign),
    (b"<=", Sign::LessEqual),
    (b">=", Sign::GreaterEqual),
    (b"==", Sign::Equal),
    (b"!=", Sign::NotEqual),
    (b"--", Sign::MinusMinus),
    (b"-=", Sign::MinusAssign),
    (b"*=", Sign::StarAssign),
    (b"/=", Sign::SlashAssign),
    (b"%=", Sign::PercentAssign),
    (b"<<", Sign::ShiftLeft),
    (b">>", Sign::ShiftRight),
    (b">>>", Sign::ShiftRightZero),
    (b"<<=", Sign::ShiftLeftAssign),
    (b">>=", Sign::ShiftRightAssign),
    (b">>>=", Sign::ShiftRightZeroAssign),
    (b"&=", Sign::BitAndAssign),
    (b"|=", Sign::BitOrAssign),
    (b"^=", Sign::BitXorAssign),
];

// The sign of a spelling in a table.
fn sign_in(table: &[(&[u8], Sign)], spelling: &[u8]) -> Sign
    ensures { result ≡ look_up (map (λ row. (row.0.now, row.1)) table.now) spelling.now }
{
    for (word, sign) in table {
        if spelling == *word {
            return *sign;
        }
    }
    Sign::Unused
}

// The sign of a reserved word.
#[tactic(auto, unfolding(crate::specs::Signs::words))]
fn word_sign(spelling: &[u8]) -> Sign
    ensures { result ≡ look_up words spelling.now }
{
    sign_in(&WORDS, spelling)
}

// The sign of a mark of one byte.
#[tactic(auto, unfolding(crate::specs::Signs::marks))]
fn single_sign(byte: u8) -> Sign
    ensures { result ≡ look_up marks (byte ∷ []) }
{
    match byte {
        b'(' => Sign::Open,
        b')' => Sign::Close,
        b';' => Sign::Semicolon,
        b',' => Sign::Comma,
        b'.' => Sign::Point,
        b'{' => Sign::OpenBrace,
        b'}' => Sign::CloseBrace,
        b'=' => Sign::Assign,
        b'[' => Sign::OpenSquare,
        b']' => Sign::CloseSquare,
        b':' => Sign::Colon,
        b'+' => Sign::Plus,
        b'-' => Sign::Minus,
        b'<' => Sign::Less,
        b'>' => Sign::Greater,
        b'!' => Sign::Not,
        b'?' => Sign::Question,
        b'*' => Sign::Star,
        b'/' => Sign::Slash,
        b'%' => Sign::Percent,
        b'&' => Sign::BitAnd,
        b'|' => Sign::BitOr,
        b'^' => Sign::BitXor,
        b'~' => Sign::BitNot,
        _ => Sign::Unused,
    }
}

// The sign of a mark.
fn mark_sign(spelling: &[u8]) -> Sign
    ensures { result ≡ look_up marks spelling.now }
{
    if spelling.len() == 1 {
        return single_sign(spelling[0]);
    }
    sign_in(&LONG_MARKS, spelling)
}

/// What the grammar sees of a token of these bytes.
pub fn sign_of(bytes: &[u8], token: &Token) -> Sign
    requires { IsTokenOf bytes.now token.now }
    ensures { result ≡ sign_of bytes.now token.now }
{
    let spelling = &bytes[token.from..token.to];
    match token.kind {
        TokenKind::Name => Sign::Name,
        TokenKind::Number => Sign::Number,
        TokenKind::Str => Sign::Str,
        TokenKind::Reserved => word_sign(spelling),
        TokenKind::Mark => mark_sign(spelling),
    }
}
