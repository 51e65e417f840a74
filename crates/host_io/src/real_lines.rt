//! Lines of a reader, as the standard input: the trusted edge. They are told where the reader tells its
//! bytes, which the standard input does not.
ghost use Rattle.std.specs.Prelude.{◌≡◌, ◌≢◌, ◌≤◌, ◌<◌, ◌+◌, ◌-◌, ◌++◌, List, [], ℕ, length, take, option_map, IfOk, MatchOption, min};
ghost use Rattle.host_io.specs.Lines.{lines_of, Took, IsLine, Gives};

use crate::Lines;
use crate::cuts::{Seen, line_len, push_start};
use crate::files::ReadFail;
use std::alloc::Global;
use std::io;
use std::io::{BufRead, ErrorKind};

/// The lines of a buffered reader.
#[derive(Drop)]
pub struct RealLines<R> {
    pub reader: R,
    pub faults: u64,
}

// How many of the bytes a line takes up, with its line feed.
fn taken(len: usize, bytes: &[u8]) -> usize
    ensures { result ≡ min (len + 1) (length bytes.now) }
{
    len.saturating_add(1).min(bytes.len())
}

// What some bytes hold of a line that goes on for so many of them.
fn seen_of(len: usize, all: usize) -> Seen
    ensures more { result ≡ Seen.More → all ≤ len }
    ensures feed { result ≡ Seen.Feed → len < all }
    ensures end { result ≡ Seen.End → all ≡ 0 }
{
    if len < all {
        return Seen::Feed;
    }
    if all == 0 { Seen::End } else { Seen::More }
}

fn is_interrupted(e: &io::Error) -> bool {
    e.kind() == ErrorKind::Interrupted
}

// Takes what is at hand of a line. An interrupted read goes on.
fn take_some<B: BufRead>(reader: &mut B, max: usize, line: &mut Vec<u8>) -> Result<Seen, ReadFail>
    ensures { IfOk result (λ seen. (part : List ℕ) × IsLine part
        × (line.new.items ≡ line.old.items ++ take (max + 1 - length line.old.items) part)
        × Took part seen (B.remaining reader.old) (B.remaining reader.new)) }
{
    let seen = match reader.fill_buf() {
        Ok(seen) => seen,
        Err(e) => {
            return if is_interrupted(&e) {
                Ok(Seen::More)
            } else {
                Err(ReadFail::Failed)
            };
        }
    };
    let len = line_len(seen);
    let all = seen.len();
    let Ok(()) = push_start(&seen[..len], max, line) else {
        return Err(ReadFail::Memory);
    };
    let count = taken(len, seen);
    reader.consume(count);
    Ok(seen_of(len, all))
}

// The line at the end of the input, if there is any of it.
fn last_line(line: Vec<u8>) -> Option<Vec<u8>>
    ensures { MatchOption result (line.items ≡ []) (λ l. (l.items ≡ line.items) × (line.items ≢ [])) }
{
    if line.is_empty() { None } else { Some(line) }
}

fn read_line<B: BufRead>(
    reader: &mut B,
    alloc: Global,
    max: usize,
) -> Result<Option<Vec<u8>>, ReadFail>
    ensures { IfOk result (λ next. Gives max (B.remaining reader.old) (B.remaining reader.new) (option_map
        (λ line. line.items) next)) }
{
    let mut line = Vec::new(alloc);
    'parts: for _ in 0..u64::MAX {
        match take_some(reader, max, &mut line)? {
            Seen::More => {}
            Seen::Feed => return Ok(Some(line)),
            Seen::End => return Ok(last_line(line)),
        }
    }
    Err(ReadFail::Failed)
}

impl<R: BufRead> Lines for RealLines<R> {
    ghost left = { λ l. option_map lines_of (R.remaining l.reader) };

    ghost calm = { λ _. ⊥ };

    ghost faults = { λ l. l.faults };

    ghost calm_tells = { λ l calm. absurd calm };

    fn next_line(&mut self, alloc: Global, max: usize) -> Result<Option<Vec<u8>>, ReadFail> {
        let next = read_line(&mut self.reader, alloc, max);
        if matches!(next, Err(ReadFail::Failed)) {
            self.faults = self.faults.saturating_add(1);
        }
        next
    }
}
