//! What is told of a page and of a library.
ghost use Rattle.std.specs.Prelude.{◌≡◌, ◌≤◌, length, option_copied, All, IfOk};
ghost use Rattle.slot_check.specs.Verdicts.{sources_of, IsSmall};
ghost use Rattle.run_steps.specs.Page.{file_limit, slot_names, files_named, slots_with, HasSlots};
ghost use Rattle.explain_run.specs.Request.{request_of};
ghost use Rattle.explain_run.specs.Steps.{NoFile, NoTraced, Stepped};
ghost use Rattle.explain_run.specs.Text.{IsToldOfSlots};
ghost use Rattle.explain_run.specs.Answer.{OfLibrary, OfSources, OfManifest, OfPage, NoSources, NoPage, Tells, Stops};

use crate::reading::{FILE_LIMIT, NotTold, read_file};
use crate::refusals::{Told, tell_library, tell_slots};
use crate::request::Request;
use crate::steps::{files_of, manifest_in, try_trace};
use code_units::{Memory, Text};
use host_io::Files;
use manifest_reader::Manifest;
use run_steps::slot_names;
use slot_check::SourceFile;
use std::alloc::Global;

/// What is told where no file stops the work.
pub fn tell<F: Files>(alloc: Global, request: &Request, files: &mut F) -> Result<Told, NotTold>
    ensures { Stepped F.told F.faults files.old files.new result
        (λ m t. Tells m (request_of request.now) t.refused t.bytes.items) (λ m. Stops m (request_of request.now)) }
{
    match request {
        Request::Library { file } => tell_of_library(alloc, file, files),
        Request::Page { manifest, trace } => tell_of_page(alloc, manifest, *trace, files),
    }
}

// What is told of the library of a name.
fn tell_of_library<F: Files>(alloc: Global, name: &str, files: &mut F) -> Result<Told, NotTold>
    ensures { Stepped F.told F.faults files.old files.new result
        (λ m t. OfLibrary m name.now t.refused t.bytes.items) (λ m. NoFile m file_limit name.now) }
{
    let bytes = read_file(alloc, name, FILE_LIMIT, files)?;
    Ok(tell_library(alloc, name, &bytes)?)
}

// What is told of the page of a manifest, and of a trace for it.
fn tell_of_page<F: Files>(
    alloc: Global,
    name: &str,
    trace: Option<&str>,
    files: &mut F,
) -> Result<Told, NotTold>
    ensures { Stepped F.told F.faults files.old files.new result
        (λ m t. OfPage m name.now (option_copied trace.entry) t.refused t.bytes.items)
        (λ m. NoPage m name.now (option_copied trace.entry)) }
{
    let manifest = manifest_in(alloc, name, files)?;
    tell_of_manifest(alloc, &manifest, trace, files)
}

// What is told of a manifest.
fn tell_of_manifest<F: Files>(
    alloc: Global,
    manifest: &Manifest,
    trace: Option<&str>,
    files: &mut F,
) -> Result<Told, NotTold>
    requires { HasSlots manifest.now }
    ensures { Stepped F.told F.faults files.old files.new result
        (λ m t. OfManifest m (option_copied trace.entry) manifest.now t.refused t.bytes.items)
        (λ m. NoSources m (option_copied trace.entry) manifest.now) }
{
    let sources = files_of(alloc, manifest, files)?;
    tell_of_sources(alloc, manifest, &sources, trace, files)
}

// What is told of a manifest with the files that it names.
fn tell_of_sources<F: Files>(
    alloc: Global,
    manifest: &Manifest,
    sources: &[SourceFile],
    trace: Option<&str>,
    files: &mut F,
) -> Result<Told, NotTold>
    requires slots { HasSlots manifest.now }
    requires many { length sources.now ≡ length (files_named manifest.now) }
    requires small { All IsSmall sources.now }
    ensures { Stepped F.told F.faults files.old files.new result
        (λ m t. OfSources m (option_copied trace.entry) manifest.now (sources_of sources.now) t.refused t.bytes.items)
        (λ m. NoTraced m (slot_names manifest.now.entries.items) (option_copied trace.entry)) }
{
    let names = slot_names(alloc, &manifest.entries)?;
    try_trace(alloc, trace, &names, files)?;
    Ok(tell_files(alloc, &names, sources)?)
}

// What is told of slots of these names with their files, behind which the libraries stand.
fn tell_files(alloc: Global, names: &[Text], sources: &[SourceFile]) -> Result<Told, Memory>
    requires within { length names.now ≤ length sources.now }
    requires small { All IsSmall sources.now }
    ensures { IfOk result (λ t. IsToldOfSlots (slots_with names.now (sources_of sources.now)) t.refused t.bytes.items) }
{
    let (slots, libs) = sources.split_at(names.len());
    tell_slots(alloc, names, slots, libs)
}
