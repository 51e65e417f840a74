//! A line is answered.
ghost use Rattle.std.specs.Prelude.{◌≡◌, ◌<◌, ◌++◌, ℕ, List, OnOk, length, string_bytes};
ghost use Rattle.trace_reader.specs.Said.{a_swap, said};
ghost use Rattle.run_steps.specs.Items.{IsFor};
ghost use Rattle.live_text.specs.Answer.{refused_text};
ghost use Rattle.page_live.specs.Page.{IsAlive};
ghost use Rattle.live_lines.specs.Transcript.{Answered, Answers, AsksSwap, ReadFailed, Replies, ReportsOn, Stands};

use code_units::Memory;
use event_loop::Event;
use host_io::Files;
use live_text::{Cause, Request, RequestFault, one_request, push_refused, read_request};
use page_live::{HostItem, Session};
use run_steps::{FILE_LIMIT, NoReport, read_file};
use slot_check::SourceFile;
use std::alloc::Global;
use trace_reader::TraceItem;

/// The bytes that a line may have.
pub const LINE_LIMIT: usize = 1_048_576;

/// The swaps that a page may take.
const MOST_SWAPS: usize = 4;

/// Appends the answer to a line. A swap is answered with `NoFile` only where reading its file failed. The only error
/// is want of memory; then the session is of no use any more.
pub fn answer_line<F: Files>(
    alloc: Global,
    session: &mut Session,
    line: &[u8],
    files: &mut F,
    out: &mut Vec<u8>,
) -> Result<(), Memory>
    requires stands { Stands session.old }
    requires room { session.old.page.taken < 4096 }
    ensures answered { OnOk result (Answered (F.told files.old) (λ parts pairs runs m s bytes t.
        Answers F.told F.calm F.faults parts pairs runs m line.now s files.old bytes t files.new)
        session.old session.new out.old.items out.new.items) }
    ensures no_file { (file : List ℕ) → AsksSwap session.old.page.findings.names.items line.now file →
        OnOk result (out.new.items ≡ out.old.items ++ refused_text Cause.NoFile →
        ReadFailed F.told F.calm F.faults files.old files.new file) }
    ensures told { F.told files.new ≡ F.told files.old }
{
    one_request();
    if line.len() > LINE_LIMIT {
        return push_refused(Cause::TooLong, out);
    }
    match read_request(alloc, line, &session.page.findings.names) {
        Ok(Request::Item(item)) => answer_item(alloc, session, item, files, out),
        Ok(Request::Report) => answer_report(alloc, session, out),
        Err(RequestFault::NotJson) => push_refused(Cause::NotJson, out),
        Err(RequestFault::BadShape) => push_refused(Cause::BadShape, out),
        Err(RequestFault::Memory) => Err(Memory),
    }
}

// Appends the report.
fn answer_report(alloc: Global, session: &Session, out: &mut Vec<u8>) -> Result<(), Memory>
    requires alive { IsAlive session.now.page }
    ensures { OnOk result ((bytes : List ℕ) × (out.new.items ≡ out.old.items ++ bytes)
        × ReportsOn session.now.page bytes) }
{
    let bytes = session.page.report(alloc)?;
    out.extend_from_slice(&bytes)?;
    Ok(())
}

// Appends the answer to an item.
fn answer_item<F: Files>(
    alloc: Global,
    session: &mut Session,
    item: TraceItem,
    files: &mut F,
    out: &mut Vec<u8>,
) -> Result<(), Memory>
    requires stands { Stands session.old }
    requires room { session.old.page.taken < 4096 }
    requires shape { IsFor (length session.old.page.findings.names.items) (said item) }
    ensures answered { OnOk result (Answered (F.told files.old) (λ parts pairs runs m s bytes t.
        Replies F.told F.calm F.faults parts pairs runs m (said item) s files.old bytes t files.new)
        session.old session.new out.old.items out.new.items) }
    ensures no_file { (to : ℕ) (file : List ℕ) → said item ≡ a_swap to file →
        OnOk result (out.new.items ≡ out.old.items ++ refused_text Cause.NoFile →
        ReadFailed F.told F.calm F.faults files.old files.new file) }
    ensures told { F.told files.new ≡ F.told files.old }
{
    match item {
        TraceItem::Event { to, event } => {
            let event = Event {
                kind: event.kind,
                path: event.path,
                value: event.value,
            };
            session.take(alloc, HostItem::Event { to, event }, out)
        }
        TraceItem::Advance(ms) => session.take(alloc, HostItem::Advance(ms), out),
        TraceItem::Swap { to, file } => answer_swap(alloc, session, to, file, files, out),
    }
}

// Appends the answer to a swap.
fn answer_swap<F: Files>(
    alloc: Global,
    session: &mut Session,
    to: u32,
    name: String,
    files: &mut F,
    out: &mut Vec<u8>,
) -> Result<(), Memory>
    requires stands { Stands session.old }
    requires room { session.old.page.taken < 4096 }
    requires there { to < length session.old.page.findings.names.items }
    ensures answered { OnOk result (Answered (F.told files.old) (λ parts pairs runs m s bytes t.
        Replies F.told F.calm F.faults parts pairs runs m (a_swap to (string_bytes name)) s files.old bytes t files.new)
        session.old session.new out.old.items out.new.items) }
    ensures no_file { OnOk result (out.new.items ≡ out.old.items ++ refused_text Cause.NoFile →
        ReadFailed F.told F.calm F.faults files.old files.new (string_bytes name)) }
    ensures told { F.told files.new ≡ F.told files.old }
{
    if session.page.findings.swaps.slots.len() >= MOST_SWAPS {
        return push_refused(Cause::BadShape, out);
    }
    match read_file(alloc, name.as_str(), FILE_LIMIT, files) {
        Ok(bytes) => session.swap(alloc, to, &SourceFile { name, bytes }, out),
        Err(NoReport::TooLarge) => push_refused(Cause::TooLarge, out),
        Err(NoReport::ReadFault) => push_refused(Cause::NoFile, out),
        Err(_) => Err(Memory),
    }
}
