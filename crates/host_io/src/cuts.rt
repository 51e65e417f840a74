//! Parts of lines.
ghost use Rattle.std.specs.Prelude.{◌≡◌, ◌≤◌, ◌<◌, ◌+◌, ◌-◌, ◌++◌, take, length, get_or, OnOk};
ghost use Rattle.host_io.specs.Lines.{IsLine};

use code_units::Memory;

/// What some bytes of a reader hold of a line.
#[derive(Clone, Copy, PartialEq, Eq)]
pub enum Seen {
    /// A part of it.
    More,
    /// The rest of it, and its line feed.
    Feed,
    /// Nothing: the reader is at its end.
    End,
}

/// How many bytes stand before the first line feed.
pub fn line_len(bytes: &[u8]) -> usize
    ensures within { result ≤ length bytes.now }
    ensures line { IsLine (take result bytes.now) }
    ensures feed { result < length bytes.now → get_or bytes.now result 0 ≡ 10 }
{
    let mut at = 0;
    'bytes: while at < bytes.len() {
        if bytes[at] == b'\n' {
            return at;
        }
        at += 1;
    }
    at
}

/// The first `max + 1` bytes, or all.
pub fn start_of(bytes: &[u8], max: usize) -> &[u8]
    ensures { result.now ≡ take (max + 1) bytes.now }
{
    if max < bytes.len() {
        &bytes[..max + 1]
    } else {
        bytes
    }
}

/// Appends what is left of `max + 1` bytes for a line.
pub fn push_start(part: &[u8], max: usize, line: &mut Vec<u8>) -> Result<(), Memory>
    ensures { OnOk result (line.new.items ≡ line.old.items ++ take (max + 1 - length line.old.items) part.now) }
{
    if line.len() > max {
        return Ok(());
    }
    let start = start_of(part, max - line.len());
    Ok(line.extend_from_slice(start)?)
}
