//! The report of `render`, `replay` and `audit`: a page runs.
ghost use Rattle.std.specs.Prelude.{◌≡◌, ◌≤◌, length, map, option_copied, All, IfOk};
ghost use Rattle.slot_check.specs.Verdicts.{sources_of, IsSmall};
ghost use Rattle.trace_reader.specs.Said.{said};
ghost use Rattle.page_check.specs.Fits.{IsFit};
ghost use Rattle.run_steps.specs.Page.{file_limit, files_named, slot_names, swap_files};
ghost use Rattle.run_steps.specs.Items.{AreItems};
ghost use Rattle.run_steps.specs.Reading.{ComesThrough, HasRunFiles, HasSources, HasTraceFiles};
ghost use Rattle.adhost_run.specs.Answer.{FromItems, FromFiles, FromManifest, ReplayAnswer};
ghost use Rattle.adhost_run.specs.Ends.{Answered, IsConfinedText};
ghost use Rattle.adhost_run.specs.Stage.{LeftByPage, LeftByManifest, LeftByFiles, LeftByItems, IsLeft};

use crate::playing::{Way, Writes, play_page, report_ran};
use crate::reports::Report;
use code_units::Text;
use host_io::Files;
use manifest_reader::Manifest;
use page_check::read_manifests_fit;
use run_steps::{NoReport, files_of, items_of, manifest_in, slot_names, swaps_of};
use slot_check::SourceFile;
use std::alloc::Global;
use trace_reader::TraceItem;

/// The report on a page that runs on the items of a trace, where one is asked for: the lines of its
/// lives and the page, or its certificate.
pub fn run_page<F: Files>(
    alloc: Global,
    name: &str,
    trace: Option<&str>,
    way: Way,
    files: &mut F,
) -> Result<Report, NoReport>
    requires some { 1 ≤ way.slice }
    ensures answered { Answered F.told F.calm F.faults files.old files.new result
        (λ m. ReplayAnswer m name.now (option_copied trace.entry) way.writes)
        (λ m. HasRunFiles m name.now (option_copied trace.entry)) }
    ensures left { IsLeft (F.told files.old) result (λ m. LeftByPage m name.now (option_copied trace.entry) way.slice) }
    ensures confined { way.writes ≡ Writes.Certificate → IfOk result (λ r. IsConfinedText r.bytes.items) }
{
    read_manifests_fit();
    let manifest = manifest_in(alloc, name, files)?;
    run_manifest(alloc, manifest, trace, way, files)
}

// The report on the page of a manifest.
fn run_manifest<F: Files>(
    alloc: Global,
    manifest: Manifest,
    trace: Option<&str>,
    way: Way,
    files: &mut F,
) -> Result<Report, NoReport>
    requires some { 1 ≤ way.slice }
    requires fit { IsFit manifest }
    ensures answered { Answered F.told F.calm F.faults files.old files.new result
        (λ m. FromManifest m (option_copied trace.entry) way.writes manifest)
        (λ m. HasSources m (option_copied trace.entry) manifest) }
    ensures left { IsLeft (F.told files.old) result
        (λ m. LeftByManifest m (option_copied trace.entry) way.slice manifest) }
    ensures confined { way.writes ≡ Writes.Certificate → IfOk result (λ r. IsConfinedText r.bytes.items) }
{
    let sources = files_of(alloc, &manifest, files)?;
    run_sources(alloc, manifest, &sources, trace, way, files)
}

// The report on the page of a manifest with the files that it names.
fn run_sources<F: Files>(
    alloc: Global,
    manifest: Manifest,
    sources: &[SourceFile],
    trace: Option<&str>,
    way: Way,
    files: &mut F,
) -> Result<Report, NoReport>
    requires some { 1 ≤ way.slice }
    requires fit { IsFit manifest }
    requires many { length sources.now ≡ length (files_named manifest) }
    requires small { All IsSmall sources.now }
    ensures answered { Answered F.told F.calm F.faults files.old files.new result
        (λ m. FromFiles m (option_copied trace.entry) way.writes manifest (sources_of sources.now))
        (λ m. HasTraceFiles m (slot_names manifest.entries.items) (option_copied trace.entry)) }
    ensures left { IsLeft (F.told files.old) result
        (λ m. LeftByFiles m (option_copied trace.entry) way.slice manifest (sources_of sources.now)) }
    ensures confined { way.writes ≡ Writes.Certificate → IfOk result (λ r. IsConfinedText r.bytes.items) }
{
    let names = slot_names(alloc, &manifest.entries)?;
    let items = items_of(alloc, trace, &names, files)?;
    run_items(alloc, manifest, sources, names, items, way, files)
}

// The report on the page of a manifest with its files, and the items of a trace.
fn run_items<F: Files>(
    alloc: Global,
    manifest: Manifest,
    sources: &[SourceFile],
    names: Vec<Text>,
    items: Vec<TraceItem>,
    way: Way,
    files: &mut F,
) -> Result<Report, NoReport>
    requires some { 1 ≤ way.slice }
    requires fit { IsFit manifest }
    requires items { AreItems (length names.items) (map said items.items) }
    requires many { length sources.now ≡ length (files_named manifest) }
    requires small { All IsSmall sources.now }
    requires named { names.items ≡ slot_names manifest.entries.items }
    ensures answered { Answered F.told F.calm F.faults files.old files.new result
        (λ m. FromItems m way.writes manifest (sources_of sources.now) items.items)
        (λ m. ComesThrough m file_limit (swap_files items.items)) }
    ensures left { IsLeft (F.told files.old) result
        (λ m. LeftByItems m way.slice manifest (sources_of sources.now) items.items) }
    ensures confined { way.writes ≡ Writes.Certificate → IfOk result (λ r. IsConfinedText r.bytes.items) }
{
    let swaps = swaps_of(alloc, &items, files)?;
    let ran = play_page(alloc, manifest, sources, names, items, &swaps, way.slice)?;
    report_ran(alloc, ran, way.writes)
}
