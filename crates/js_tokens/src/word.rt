//! Reserved words.
ghost use Rattle.std.specs.Prelude.{◌≡◌};
ghost use Rattle.std.specs.List.{list_any};
ghost use Rattle.std.specs.Str.{bytes_eq};
ghost use Rattle.js_tokens.specs.Words.{is_reserved};

// The reserved words by their lengths.
static OF_TWO: [[u8; 2]; 3] = [*b"do", *b"if", *b"in"];

static OF_THREE: [[u8; 3]; 5] = [*b"for", *b"new", *b"try", *b"var", *b"int"];

static OF_FOUR: [[u8; 4]; 12] = [
    *b"case", *b"else", *b"this", *b"void", *b"with", *b"null", *b"true", *b"byte", *b"char",
    *b"enum", *b"goto", *b"long",
];

static OF_FIVE: [[u8; 5]; 11] = [
    *b"break", *b"catch", *b"throw", *b"while", *b"false", *b"class", *b"const", *b"final",
    *b"float", *b"short", *b"super",
];

static OF_SIX: [[u8; 6]; 11] = [
    *b"delete", *b"return", *b"switch", *b"typeof", *b"double", *b"export", *b"import", *b"native",
    *b"public", *b"static", *b"throws",
];

static OF_SEVEN: [[u8; 7]; 6] = [
    *b"default",
    *b"finally",
    *b"boolean",
    *b"extends",
    *b"package",
    *b"private",
];

static OF_EIGHT: [[u8; 8]; 5] = [
    *b"continue",
    *b"function",
    *b"abstract",
    *b"debugger",
    *b"volatile",
];

static OF_NINE: [[u8; 9]; 3] = [*b"interface", *b"protected", *b"transient"];

static OF_TEN: [[u8; 10]; 2] = [*b"instanceof", *b"implements"];

static OF_TWELVE: [[u8; 12]; 1] = [*b"synchronized"];

fn is_one_of<const N: usize>(word: &[u8], words: &[[u8; N]]) -> bool
    ensures { result ≡ list_any (bytes_eq word.now) words.now }
{
    'words: for w in words {
        if word == w.as_slice() {
            return true;
        }
    }
    false
}

/// Whether the word is reserved.
pub fn is_reserved(word: &[u8]) -> bool
    ensures { result ≡ is_reserved word.now }
{
    match word.len() {
        2 => is_one_of(word, &OF_TWO),
        3 => is_one_of(word, &OF_THREE),
        4 => is_one_of(word, &OF_FOUR),
        5 => is_one_of(word, &OF_FIVE),
        6 => is_one_of(word, &OF_SIX),
        7 => is_one_of(word, &OF_SEVEN),
        8 => is_one_of(word, &OF_EIGHT),
        9 => is_one_of(word, &OF_NINE),
        10 => is_one_of(word, &OF_TEN),
        12 => is_one_of(word, &OF_TWELVE),
        _ => false,
    }
}
