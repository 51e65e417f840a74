//! The report of `check` on a page.
ghost use Rattle.std.specs.Prelude.{◌≡◌, length, All, IfOk, None};
ghost use Rattle.slot_check.specs.Verdicts.{sources_of, IsSmall};
ghost use Rattle.slot_check.specs.Line.{AreSlotLines};
ghost use Rattle.run_steps.specs.Page.{file_limit, files_named, slots_of};
ghost use Rattle.adhost_run.specs.Answer.{CheckAnswer, OfFiles, PageAnswer};
ghost use Rattle.adhost_run.specs.Ends.{Answered};
ghost use Rattle.run_steps.specs.Reading.{ComesThrough, HasPageFiles};

use crate::reports::Report;
use code_units::Memory;
use host_io::Files;
use manifest_reader::Manifest;
use run_steps::{NoReport, files_of, manifest_in, slot_names};
use slot_check::{SlotText, SourceFile, slot_lines};
use std::alloc::Global;

/// The report on a manifest: the lines of its slots.
pub fn check_page<F: Files>(alloc: Global, name: &str, files: &mut F) -> Result<Report, NoReport>
    ensures answered { Answered F.told F.calm F.faults files.old files.new result
        (λ m. PageAnswer m name.now) (λ m. HasPageFiles m name.now) }
    ensures no_host { IfOk result (λ r. r.host ≡ None) }
{
    let manifest = manifest_in(alloc, name, files)?;
    check_manifest(alloc, &manifest, files)
}

// The report on the files of this manifest.
fn check_manifest<F: Files>(
    alloc: Global,
    manifest: &Manifest,
    files: &mut F,
) -> Result<Report, NoReport>
    ensures answered { Answered F.told F.calm F.faults files.old files.new result
        (λ m. OfFiles m manifest.now (CheckAnswer manifest.now))
        (λ m. ComesThrough m file_limit (files_named manifest.now)) }
    ensures no_host { IfOk result (λ r. r.host ≡ None) }
{
    let sources = files_of(alloc, manifest, files)?;
    let text = page_lines(alloc, manifest, &sources)?;
    Ok(Report {
        refused: text.refused,
        bytes: text.bytes,
        host: None,
    })
}

// The lines of the slots of a manifest, with the files that it names.
fn page_lines(
    alloc: Global,
    manifest: &Manifest,
    sources: &[SourceFile],
) -> Result<SlotText, Memory>
    requires many { length sources.now ≡ length (files_named manifest.now) }
    requires small { All IsSmall sources.now }
    ensures { IfOk result (λ text.
        AreSlotLines (slots_of manifest.now (sources_of sources.now)) text.refused text.bytes.items) }
{
    let names = slot_names(alloc, &manifest.entries)?;
    let (files, libs) = sources.split_at(names.len());
    slot_lines(alloc, &names, files, libs)
}
