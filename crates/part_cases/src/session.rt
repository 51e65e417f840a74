//! What the lines of a session ask for.
ghost use Rattle.std.specs.Prelude.{◌<◌, ◌^◌, length};

use crate::answer::Answer;
use code_units::Text;
use host_io::{Lines, MemLines, RealLines};
use live_text::{Request, RequestFault, read_request};
use std::alloc::Global;
use std::fmt::Write;
use std::io::BufReader;

// The most bytes of a line.
const LINE_LIMIT: usize = 64;

// The bytes of a piece.
const PIECE: usize = 7;

/// What each line of a session asks for, of a page with one slot of this name: the same of lines in memory
/// and of a reader that gives them in pieces.
pub fn answer_of_session(alloc: Global, name: &str, bytes: Vec<u8>) -> Option<Answer> {
    let names = vec![in alloc; Text::from_str(alloc, name).ok()?].ok()?;
    let read = in_pieces(alloc, &bytes, &names)?;
    let mut lines = MemLines { bytes, at: 0 };
    if requests(alloc, &mut lines, &names)? != read {
        return None;
    }
    Some(Answer::Text(read))
}

fn in_pieces(alloc: Global, bytes: &[u8], names: &[Text]) -> Option<String>
    requires { length names.now < 2 ^ 32 }
{
    let reader = BufReader::with_capacity(alloc, PIECE, bytes).ok()?;
    let mut lines = RealLines { reader, faults: 0 };
    requests(alloc, &mut lines, names)
}

fn requests<L: Lines>(alloc: Global, lines: &mut L, names: &[Text]) -> Option<String>
    requires { length names.now < 2 ^ 32 }
{
    let mut words = String::new(alloc);
    'lines: for _ in 0..u64::MAX {
        match lines.next_line(alloc, LINE_LIMIT).ok()? {
            Some(line) => push_word(&mut words, word_of(alloc, &line, names)?)?,
            None => return Some(words),
        }
    }
    None
}

fn push_word(words: &mut String, word: &str) -> Option<()> {
    write!(words, "{word}\n").ok()
}

fn word_of(alloc: Global, line: &[u8], names: &[Text]) -> Option<&'static str>
    requires { length names.now < 2 ^ 32 }
{
    if line.len() > LINE_LIMIT {
        return Some("too long");
    }
    match read_request(alloc, line, names) {
        Ok(Request::Report) => Some("report"),
        Ok(Request::Item(_)) => Some("item"),
        Err(RequestFault::NotJson) => Some("no JSON"),
        Err(RequestFault::BadShape) => Some("out of shape"),
        Err(RequestFault::Memory) => None,
    }
}
