//! Places in a text of bytes, as reports give them.
ghost use Rattle.std.specs.Prelude.{◌≡◌, ℕ, ◌<◌, ◌≤◌, ◌^◌, length};
ghost use Rattle.code_units.specs.Places.{line_of, column_of, place_at, Precedes};

/// A line and a column, both counted from 1; the column counts bytes.
#[derive(Clone, Copy, PartialEq, Eq)]
pub struct Place {
    pub line: u32,
    pub column: u32,
}

/// The place of a byte offset: the line is 1 plus the line feeds before it, the column 1 plus
/// the bytes since the last line feed.
pub fn place_of(bytes: &[u8], offset: usize) -> Place
    requires within { offset ≤ length bytes.now }
    requires small { offset < 4294967295 }
    ensures line { result.line ≡ line_of bytes.now offset }
    ensures column { result.column ≡ column_of bytes.now offset }
    ensures order { (k : ℕ) → k < offset → Precedes (place_at bytes.now k) result }
{
    let mut line = 1;
    let mut column = 1;
    for byte in &bytes[..offset] {
        if *byte == b'\n' {
            line += 1;
            column = 1;
        } else {
            column += 1;
        }
    }
    Place { line, column }
}

/// The place of a byte offset; the end stands for what is past it.
#[tactic(auto, using(crate::proofs::Within::line_within, crate::proofs::Within::column_within))]
pub fn place_in(bytes: &[u8], offset: usize) -> Place
    requires { length bytes.now < 2 ^ 31 }
    ensures { result ≡ place_at bytes.now offset }
{
    place_of(bytes, offset.min(bytes.len()))
}
