//! The call that the program makes: words, files and lines to answers and a status.
ghost use Rattle.std.specs.Prelude.{◌≡◌, ◌≤◌, ◌<◌, ◌↔◌, ◌⊎◌, true, All, IfOk, IfSome, IsSomeAnd};
ghost use Rattle.host_io.specs.Files.{Rose};
ghost use Rattle.run_steps.specs.Page.{texts};
ghost use Rattle.run_steps.specs.Reading.{HasPageFiles};
ghost use Rattle.run_steps.specs.Ends.{Stepped};
ghost use Rattle.page_live.specs.Findings.{found_refused};
ghost use Rattle.page_live.specs.Page.{IsAlive};
ghost use Rattle.live_lines.specs.Transcript.{Closed, ServedOn, Stands, ending};
ghost use Rattle.live_lines.specs.Outcome.{Ends, HasLiveFiles, IsLiveForm, IsOpened, IsSwapThere, LiveOutcome, NoPage, RanOn, is_early, none_failed};

use crate::answering::{LINE_LIMIT, answer_line};
use crate::asking::parse;
use host_io::{Files, Lines, ReadFail, Sink, write_whole};
use live_text::push_full;
use page_check::read_manifests_fit;
use page_live::{LivePage, Session, some_refused};
use run_steps::{NoReport, Status, files_of, manifest_in, slot_names, status_of};
use std::alloc::Global;

/// The items that a page may take.
const MOST_ITEMS: u32 = 4_096;

/// Loads the page of the manifest that the first of two words names, writes what it begins with, and then
/// the answer to each line (docs/LIVE.md); the second word is the slice. It ends with the lines, with as
/// many items as a page may take, or with a fault.
pub fn live<F: Files, L: Lines, S: Sink>(
    alloc: Global,
    words: &[String],
    files: &mut F,
    lines: &mut L,
    sink: &mut S,
) -> Status
    // Over files and lines that are told, what the sink holds behind what it held is what the words ask for.
    // The slice has no part in it.
    ensures outcome { IfSome (F.told files.old) (λ m. IfSome (L.left lines.old) (λ all.
        LiveOutcome F.told F.calm F.faults (texts words.now) m all files.old files.new
        (S.held sink.old) (S.held sink.new) result)) }
    ensures usage { (result ≡ Status.Usage) ↔ (¬ IsLiveForm (texts words.now)) }

    // Where the words are of no form, or there is no page, nothing is written.
    ensures still { is_early result ≡ true → sink.new ≡ sink.old }

    // A fault has its cause in the files, in the lines or in the sink. Over calm files that have those of the page,
    // and calm lines, no read fails.
    ensures unread { result ≡ Status.ReadFault →
        (Rose (F.faults files.old) (F.faults files.new) ⊎ Rose (L.faults lines.old) (L.faults lines.new)) }
    ensures unwritten { result ≡ Status.WriteFault → Rose (S.faults sink.old) (S.faults sink.new) }
    ensures calm { F.calm files.old → L.calm lines.old → IsSomeAnd (F.told files.old) (HasLiveFiles (texts words.now)) →
        ¬ (result ≡ Status.ReadFault) }

    // Over calm files that have those of the page and of each swap it is as where no read fails: no line is answered
    // with `NoFile`.
    ensures calm_swaps { F.calm files.old → IfSome (F.told files.old) (λ m. IfSome (L.left lines.old) (λ all.
        HasLiveFiles (texts words.now) m → All (IsSwapThere m) all →
        LiveOutcome F.told F.calm none_failed (texts words.now) m all files.old files.new
        (S.held sink.old) (S.held sink.new) result)) }
    ensures told { F.told files.new ≡ F.told files.old }
{
    let Some(asked) = parse(words) else {
        return Status::Usage;
    };
    match open(alloc, asked.manifest, asked.slice, files) {
        Ok(page) => run(alloc, page, files, lines, sink),
        Err(stop) => status_of(stop),
    }
}

// The page of the manifest of a name, loaded.
fn open<F: Files>(
    alloc: Global,
    name: &str,
    slice: u32,
    files: &mut F,
) -> Result<LivePage, NoReport>
    requires some { 1 ≤ slice }
    ensures alive { IfOk result IsAlive }
    ensures first { IfOk result (λ page. page.taken ≡ 0) }
    ensures step { Stepped F.told F.calm F.faults files.old files.new result
        (λ m page. IsOpened m name.now page) (λ m. NoPage m name.now) (λ m. HasPageFiles m name.now) }
{
    read_manifests_fit();
    let manifest = manifest_in(alloc, name, files)?;
    let sources = files_of(alloc, &manifest, files)?;
    let names = slot_names(alloc, &manifest.entries)?;
    let page = LivePage::load(alloc, manifest, sources, names, slice)?;
    Ok(page)
}

// Writes what a page begins with, and then the answer to each line.
fn run<F: Files, L: Lines, S: Sink>(
    alloc: Global,
    page: LivePage,
    files: &mut F,
    lines: &mut L,
    sink: &mut S,
) -> Status
    requires alive { IsAlive page }
    requires first { page.taken ≡ 0 }
    ensures ran { RanOn F.told F.calm F.faults (L.left lines.old) page files.old files.new (S.held sink.old)
        (S.held sink.new) result }
    ensures ends { Ends (L.calm lines.old) (L.faults lines.old) (L.faults lines.new) (S.faults sink.old)
        (S.faults sink.new) result }
    ensures told { F.told files.new ≡ F.told files.old }
{
    let mut out = Vec::new(alloc);
    let Ok(mut session) = Session::begin(alloc, page, &mut out) else {
        return Status::Memory;
    };
    let Ok(()) = write_whole(sink, &out) else {
        return Status::WriteFault;
    };
    serve(alloc, &mut session, files, lines, sink)
}

// Writes the answer to each line.
fn serve<F: Files, L: Lines, S: Sink>(
    alloc: Global,
    session: &mut Session,
    files: &mut F,
    lines: &mut L,
    sink: &mut S,
) -> Status
    requires stands { Stands session.old }
    requires room { session.old.page.taken < 4096 }
    ensures served { ServedOn F.told F.calm F.faults (L.left lines.old) session.old files.old files.new
        (S.held sink.old) (S.held sink.new) result }
    ensures ends { Ends (L.calm lines.old) (L.faults lines.old) (L.faults lines.new) (S.faults sink.old)
        (S.faults sink.new) result }
    ensures told { F.told files.new ≡ F.told files.old }
{
    'lines: for _ in 0..u64::MAX {
        let line = match lines.next_line(alloc, LINE_LIMIT) {
            Ok(Some(line)) => line,
            Ok(None) => return ending(session),
            Err(ReadFail::Failed) => return Status::ReadFault,
            Err(ReadFail::Memory) => return Status::Memory,
        };
        let mut out = Vec::new(alloc);
        let Ok(()) = answer_line(alloc, session, &line, files, &mut out) else {
            return Status::Memory;
        };
        let Ok(()) = write_whole(sink, &out) else {
            return Status::WriteFault;
        };
        if session.page.taken >= MOST_ITEMS {
            return close(alloc, session, sink);
        }
    }
    Status::Memory
}

// Says that the page takes no more items.
fn close<S: Sink>(alloc: Global, session: &Session, sink: &mut S) -> Status
    requires stands { Stands session.now }
    ensures closed { Closed session.now.page.findings (S.held sink.old) (S.held sink.new) result }
    ensures count { S.faults sink.old ≤ S.faults sink.new }
    ensures cause { result ≡ Status.WriteFault → Rose (S.faults sink.old) (S.faults sink.new) }
{
    let mut out = Vec::new(alloc);
    let Ok(()) = push_full(&mut out) else {
        return Status::Memory;
    };
    match write_whole(sink, &out) {
        Ok(()) => ending(session),
        Err(_) => Status::WriteFault,
    }
}

// The status at the end: whether some life was refused.
fn ending(session: &Session) -> Status
    requires stands { Stands session.now }
    ensures { result ≡ ending (found_refused session.now.page.findings) }
{
    if some_refused(&session.page.findings) {
        Status::Refused
    } else {
        Status::Ok
    }
}
