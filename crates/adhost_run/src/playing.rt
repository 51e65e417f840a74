//! A page with its widgets: it is judged and played, and then what became of it is told.
ghost use Rattle.std.specs.Prelude.{◌≡◌, ◌≤◌, ◌++◌, ℕ, List, Some, length, map, All, IfOk, IfErr, OnOk};
ghost use Rattle.keyed_names.specs.Keying.{AreKeysOf};
ghost use Rattle.manifest_reader.specs.declared.entry.Manifest.{Manifest as ManifestOf};
ghost use Rattle.trace_reader.specs.Said.{said};
ghost use Rattle.trace_reader.specs.declared.item.TraceItem.{TraceItem as TraceItemOf};
ghost use Rattle.slot_check.specs.Sources.{Source};
ghost use Rattle.slot_check.specs.Verdicts.{sources_of, IsSmall};
ghost use Rattle.page_check.specs.Fits.{IsFit};
ghost use Rattle.run_steps.specs.Page.{files_named, slot_names, swap_files};
ghost use Rattle.run_steps.specs.Items.{AreItems};
ghost use Rattle.page_play.specs.Findings.{found_refused};
ghost use Rattle.adhost_run.specs.Answer.{ending, PlayAnswer};
ghost use Rattle.adhost_run.specs.Ends.{IsConfinedText};
ghost use Rattle.adhost_run.specs.Ran.{IsRan, HasRun, IsLateStop};

use crate::reports::Report;
use code_units::{Memory, Text};
use keyed_names::Keys;
use manifest_reader::Manifest;
use page_check::{JudgedPage, JudgedSwaps, judge_page};
use page_play::{
    Findings, Host, certificate, find_swaps, play, plays_come_to, report, some_refused,
};
use run_steps::{CERT_LIMIT, NoReport};
use slot_check::SourceFile;
use std::alloc::Global;
use trace_reader::TraceItem;

/// What is written of a page that ran.
#[derive(Clone, Copy)]
pub enum Writes {
    /// The lines of its lives, and the page: `render` and `replay`.
    Report,
    /// The certificate of reach: `audit`.
    Certificate,
}

/// How a page runs: the slice of its picks, and what is written.
#[derive(Clone, Copy)]
pub struct Way {
    pub slice: u32,
    pub writes: Writes,
}

/// A page that ran, and what was found of its files.
#[derive(Drop)]
pub struct Ran {
    pub host: Host,
    pub findings: Findings,
}

/// The page of a manifest with its files, run on these items, whose swaps have these files.
pub fn play_page(
    alloc: Global,
    manifest: Manifest,
    sources: &[SourceFile],
    names: Vec<Text>,
    items: Vec<TraceItem>,
    swaps: &[SourceFile],
    slice: u32,
) -> Result<Ran, Memory>
    requires some { 1 ≤ slice }
    requires fit { IsFit manifest }
    requires items { AreItems (length names.items) (map said items.items) }
    requires many { length sources.now ≡ length (files_named manifest) }
    requires small { All IsSmall sources.now }
    requires swapped { length swaps.now ≡ length (swap_files items.items) }
    requires small_swaps { All IsSmall swaps.now }
    requires named { names.items ≡ slot_names manifest.entries.items }
    ensures { IfOk result (IsRan manifest (sources_of sources.now) items.items (sources_of swaps.now) slice) }
{
    plays_come_to();
    let (files, libs) = sources.split_at(names.len());
    let at = find_swaps(alloc, &items)?;
    let page = judge_page(alloc, manifest, files, libs, &at.slots, swaps)?;
    let JudgedPage {
        spec,
        refusals,
        swaps: brings,
        ..
    } = page;
    let JudgedSwaps {
        contents,
        refusals: brought,
    } = brings;
    let keys = keys_of(alloc, sources, swaps)?;
    let host = play(alloc, keys, spec, items, contents, slice)?;
    let findings = Findings {
        names,
        refusals,
        swaps: at,
        brought,
    };
    Ok(Ran { host, findings })
}

// The keys of the host's tables, from the files that were read.
fn keys_of(alloc: Global, sources: &[SourceFile], swaps: &[SourceFile]) -> Result<Keys, Memory>
    ensures { IfOk result (AreKeysOf (map (λ s. s.bytes) (sources_of sources.now ++ sources_of swaps.now))) }
{
    let mut files = Vec::new(alloc);
    push_bytes(sources, &mut files)?;
    push_bytes(swaps, &mut files)?;
    Ok(Keys::of_files(&files))
}

// Appends the bytes of files.
fn push_bytes<'a>(sources: &'a [SourceFile], files: &mut Vec<&'a [u8]>) -> Result<(), Memory>
    ensures { OnOk result (map (λ f. f.now) files.new.items
        ≡ map (λ f. f.now) files.old.items ++ map (λ s. s.bytes) (sources_of sources.now)) }
{
    'sources: for source in sources {
        files.push(source.bytes.as_slice())?;
    }
    Ok(())
}

/// The report on a page that ran: its lines and the page, or its certificate.
pub fn report_ran(alloc: Global, ran: Ran, writes: Writes) -> Result<Report, NoReport>
    requires { HasRun ran }
    ensures answer { IfOk result
        (λ r. (manifest : ManifestOf) (sources : List Source) (items : List TraceItemOf) (files : List Source)
        (slice : ℕ)
        → IsRan manifest sources items files slice ran
        → PlayAnswer writes manifest sources items files (ending r.refused) r.bytes.items) }
    ensures host { IfOk result (λ r. r.host ≡ Some ran.host) }
    ensures confined { writes ≡ Writes.Certificate → IfOk result (λ r. IsConfinedText r.bytes.items) }
    ensures stop { IfErr result (IsLateStop ran writes) }
{
    plays_come_to();
    let refused = some_refused(&ran.findings);
    let bytes = text_of(alloc, &ran, writes)?;
    Ok(Report {
        refused,
        bytes,
        host: Some(ran.host),
    })
}

// What is written of a page that ran.
fn text_of(alloc: Global, ran: &Ran, writes: Writes) -> Result<Vec<u8>, NoReport>
    requires { HasRun ran.now }
    ensures answer { IfOk result
        (λ bytes. (manifest : ManifestOf) (sources : List Source) (items : List TraceItemOf) (files : List Source)
        (slice : ℕ)
        → IsRan manifest sources items files slice ran.now
        → PlayAnswer writes manifest sources items files (ending (found_refused ran.now.findings)) bytes.items) }
    ensures confined { writes ≡ Writes.Certificate → IfOk result (λ bytes. IsConfinedText bytes.items) }
    ensures stop { IfErr result (IsLateStop ran.now writes) }
{
    match writes {
        Writes::Report => Ok(report(alloc, &ran.findings, &ran.host)?),
        Writes::Certificate => certificate_of(alloc, ran),
    }
}

// The certificate of a page that ran, if it is within the limit.
fn certificate_of(alloc: Global, ran: &Ran) -> Result<Vec<u8>, NoReport>
    requires { HasRun ran.now }
    ensures answer { IfOk result
        (λ bytes. (manifest : ManifestOf) (sources : List Source) (items : List TraceItemOf) (files : List Source)
        (slice : ℕ)
        → IsRan manifest sources items files slice ran.now
        → PlayAnswer Writes.Certificate manifest sources items files
        (ending (found_refused ran.now.findings)) bytes.items) }
    ensures confined { IfOk result (λ bytes. IsConfinedText bytes.items) }
    ensures stop { IfErr result (IsLateStop ran.now Writes.Certificate) }
{
    let bytes = certificate(alloc, &ran.host)?;
    if bytes.len() > CERT_LIMIT {
        return Err(NoReport::CertTooLarge);
    }
    Ok(bytes)
}
