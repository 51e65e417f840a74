//! What is answered.
ghost use Rattle.std.specs.Prelude.{◌≡◌, ◌++◌, OnOk, map};
ghost use Rattle.std.specs.List.{flat_map};
ghost use Rattle.live_text.specs.Answer.{shown, slot_text, next_entry, entries_text, answer_text, cause_name, refusal, refused_text, full_text};

use crate::entry::{Entry, push_entry};
use code_units::Memory;
use itoa::Buffer;

/// Why a line is refused.
#[derive(Clone, Copy, PartialEq, Eq)]
pub enum Cause {
    /// Its bytes are no JSON.
    NotJson,
    /// The value is neither an item nor the request for a report, or a swap too many.
    BadShape,
    /// It has over 1,048,576 bytes.
    TooLong,
    /// The file of a swap could not be read.
    NoFile,
    /// The file of a swap has more bytes than its limit.
    TooLarge,
}

impl Cause {
    pub fn name(&self) -> &'static str
        ensures { result.now ≡ cause_name self.now }
    {
        match self {
            Cause::NotJson => "NotJson",
            Cause::BadShape => "BadShape",
            Cause::TooLong => "TooLong",
            Cause::NoFile => "NoFile",
            Cause::TooLarge => "TooLarge",
        }
    }
}

/// Appends the line of a slot as it stands before the first item.
pub fn push_slot(entry: &Entry, out: &mut Vec<u8>) -> Result<(), Memory>
    ensures { OnOk result (out.new.items ≡ out.old.items ++ slot_text (shown entry.now)) }
{
    push_entry(entry, out)?;
    Ok(out.extend_from_slice(b"\n")?)
}

fn push_next(entry: &Entry, out: &mut Vec<u8>) -> Result<(), Memory>
    ensures { OnOk result (out.new.items ≡ out.old.items ++ next_entry (shown entry.now)) }
{
    out.extend_from_slice(b",")?;
    push_entry(entry, out)
}

fn push_rest(entries: &[&Entry], out: &mut Vec<u8>) -> Result<(), Memory>
    ensures { OnOk result (out.new.items ≡ out.old.items ++ flat_map (λ e. next_entry (shown e.now)) entries.now) }
{
    'entries: for entry in entries {
        push_next(entry, out)?;
    }
    Ok(())
}

fn push_entries(entries: &[&Entry], out: &mut Vec<u8>) -> Result<(), Memory>
    ensures { OnOk result (out.new.items ≡ out.old.items ++ entries_text (map (λ e. shown e.now) entries.now)) }
{
    let Some((first, rest)) = entries.split_first() else {
        return Ok(());
    };
    push_entry(first, out)?;
    push_rest(rest, out)
}

/// Appends the answer to an item: its number, and the entries of the slots that changed.
pub fn push_answer(number: u32, entries: &[&Entry], out: &mut Vec<u8>) -> Result<(), Memory>
    ensures { OnOk result (out.new.items ≡ out.old.items ++ answer_text number (map (λ e. shown e.now) entries.now)) }
{
    let mut buffer = Buffer::new();
    out.extend_from_slice(b"{\"item\":")?;
    out.extend_from_slice(buffer.format(number).as_bytes())?;
    out.extend_from_slice(b",\"slots\":[")?;
    push_entries(entries, out)?;
    Ok(out.extend_from_slice(b"]}\n")?)
}

fn push_refusal(name: &str, out: &mut Vec<u8>) -> Result<(), Memory>
    ensures { OnOk result (out.new.items ≡ out.old.items ++ refusal name.now) }
{
    out.extend_from_slice(b"{\"refused\":\"")?;
    out.extend_from_slice(name.as_bytes())?;
    Ok(out.extend_from_slice(b"\"}\n")?)
}

/// Appends the answer to a line that is refused.
pub fn push_refused(cause: Cause, out: &mut Vec<u8>) -> Result<(), Memory>
    ensures { OnOk result (out.new.items ≡ out.old.items ++ refused_text cause) }
{
    push_refusal(cause.name(), out)
}

/// Appends what is written behind the answer to the last item that a page takes.
pub fn push_full(out: &mut Vec<u8>) -> Result<(), Memory>
    ensures { OnOk result (out.new.items ≡ out.old.items ++ full_text) }
{
    Ok(out.extend_from_slice(b"{\"full\":4096}\n")?)
}
