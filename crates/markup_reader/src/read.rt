//! From bytes to trees.
ghost use Rattle.std.specs.Prelude.{◌≡◌, IfOk, IfErr, MatchResult, drop};
ghost use Rattle.std.specs.Str.{IsValidUpTo, chars, valid_up_to, error_len};
ghost use Rattle.std.specs.Str.Lossy.{utf8_valid_len, utf8_error_len};
ghost use Rattle.markup_grammar.specs.Machine.{begin};
ghost use Rattle.markup_grammar.specs.Judge.{reads, judged, begun_len};
ghost use Rattle.markup_grammar.specs.Judge.Outcome.{Reached};
ghost use Rattle.markup_grammar.specs.Judge.Judged.{Read, Bad};
ghost use Rattle.markup_reader.specs.declared.fault.MarkupFault.TheVariants as fault;
ghost use Rattle.markup_grammar.specs.Markup.{MarkupSpells};
ghost use Rattle.markup_reader.specs.Faults.{IsMarkupFault, IsStuck, IsJudged};
ghost use Rattle.markup_steps.specs.States.{state_of};
ghost use Rattle.plain_tree.specs.Plains.{Places, placed_all};
ghost use Rattle.plain_tree.specs.Trees.{Trees};

use crate::fault::MarkupFault;
use markup_steps::reader::Reader;
use markup_steps::stop::Stop;
use plain_tree::Plain;
use std::alloc::Global;
use std::str::Utf8Error;

/// The trees that the bytes spell (`docs/MARKUP.md`). `BadMarkup` comes exactly where they spell
/// none, and gives the first byte with which no content begins, or the length.
pub fn read_markup(alloc: Global, bytes: &[u8]) -> Result<Vec<Plain>, MarkupFault>
    ensures read { IfOk result (λ v. MarkupSpells bytes.now (placed_all v.items)) }
    ensures only { (ts : Trees Places) → MarkupSpells bytes.now ts
        → MatchResult result (λ v. placed_all v.items ≡ ts) (λ e. e ≡ fault.Memory) }
    ensures place { IfErr result (IsMarkupFault bytes.now) }
{
    match str::from_utf8(bytes) {
        Ok(text) => read_whole(alloc, text),
        Err(fault) => Err(ill_formed(alloc, bytes, fault)),
    }
}

// The trees of a text.
#[tactic(auto, using(crate::proofs::Reading::whole_stuck))]
fn read_whole(alloc: Global, text: &str) -> Result<Vec<Plain>, MarkupFault>
    ensures { MatchResult result (λ v. judged text.now ≡ Read (placed_all v.items)) (IsJudged (judged text.now)) }
{
    let mut reader = read_text(alloc, text)?;
    match reader.finish() {
        Ok(nodes) => Ok(nodes),
        Err(Stop::Bad) => Err(MarkupFault::BadMarkup { at: text.len() }),
        Err(Stop::Memory) => Err(MarkupFault::Memory),
    }
}

// Why bytes are refused that are no UTF-8: for the text before the fault, or at the byte with which no
// character goes on.
fn ill_formed(alloc: Global, bytes: &[u8], fault: Utf8Error) -> MarkupFault
    requires place { IsValidUpTo bytes.now (valid_up_to fault) }
    requires valid { valid_up_to fault ≡ utf8_valid_len bytes.now }
    requires len { error_len fault ≡ utf8_error_len (drop (valid_up_to fault) bytes.now) }
    ensures { IsJudged (judged bytes.now) result }
{
    let at = fault.valid_up_to();
    let front = match str::from_utf8(&bytes[..at]) {
        Ok(front) => front,
        Err(_) => unreachable!(),
    };
    let mut reader = match read_text(alloc, front) {
        Ok(reader) => reader,
        Err(fault) => return fault,
    };
    match reader.take(char::REPLACEMENT_CHARACTER, at) {
        Ok(()) => MarkupFault::BadMarkup {
            at: at + begun_len(&bytes[at..], fault.error_len()),
        },
        Err(Stop::Bad) => MarkupFault::BadMarkup { at },
        Err(Stop::Memory) => MarkupFault::Memory,
    }
}

// How many bytes begin a character, of bytes that begin with none.
fn begun_len(tail: &[u8], error_len: Option<usize>) -> usize
    requires { error_len ≡ utf8_error_len tail.now }
    ensures value { result ≡ begun_len tail.now }
{
    match tail.first() {
        Some(0xC2..=0xF4) => error_len.unwrap_or(tail.len()),
        _ => 0,
    }
}

// Reads all characters of a text.
fn read_text(alloc: Global, text: &str) -> Result<Reader, MarkupFault>
    ensures { MatchResult result
        (λ r. reads begin 0 (chars text.now) ≡ Reached (state_of r)) (IsStuck (reads begin 0 (chars text.now))) }
{
    let mut reader = Reader::new(alloc)?;
    let mut at = 0;
    let mut left = text.chars();
    'reading: while let Some(c) = left.next() {
        match reader.take(c, at) {
            Ok(()) => at += c.len_utf8(),
            Err(Stop::Bad) => return Err(MarkupFault::BadMarkup { at }),
            Err(Stop::Memory) => return Err(MarkupFault::Memory),
        }
        let rest = left.as_str();
        let run = reader.take_raw(rest)?;
        at += run;
        left = rest[run..].chars();
    }
    Ok(reader)
}
