//! The steps of the work that read: a manifest, the files that it names, a trace.
ghost use Rattle.std.specs.Prelude.{◌≡◌, ◌<◌, ◌^◌, length, option_copied, All, IfOk, IfErr};
ghost use Rattle.manifest_reader.specs.Manifest.{ReadsManifest};
ghost use Rattle.trace_reader.specs.Trace.{ReadsTrace};
ghost use Rattle.slot_check.specs.Verdicts.{sources_of, IsSmall};
ghost use Rattle.run_steps.specs.Page.{file_limit, files_named, HasSlots};
ghost use Rattle.explain_run.specs.Page.{AreRead, HasManifest, HasTrace};
ghost use Rattle.explain_run.specs.Steps.{NoManifest, NoFiles, NoTrace, IsTraced, NoTraced, Stepped, IsStopBy, IsNoManifest, IsNoTrace, IsMisshapen};

use crate::reading::{NotTold, Why, bad_file, read_file, read_files};
use code_units::Text;
use host_io::Files;
use json_shapes::ShapeFault;
use manifest_reader::{Manifest, read_manifest};
use run_steps::files_named;
use slot_check::SourceFile;
use std::alloc::Global;
use trace_reader::{TraceItem, read_trace};

/// The bytes that a manifest may have.
const MANIFEST_LIMIT: u32 = 1_048_576;

/// The bytes that a trace may have.
const TRACE_LIMIT: u32 = 1_048_576;

/// The manifest of a name.
pub fn manifest_in<F: Files>(alloc: Global, name: &str, files: &mut F) -> Result<Manifest, NotTold>
    ensures step { Stepped F.told F.faults files.old files.new result
        (λ m manifest. HasManifest m name.now manifest) (λ m. NoManifest m name.now) }
    ensures slots { IfOk result HasSlots }
{
    let bytes = read_file(alloc, name, MANIFEST_LIMIT, files)?;
    manifest_of(alloc, name, &bytes)
}

// The manifest that the bytes of a file are.
fn manifest_of(alloc: Global, name: &str, bytes: &[u8]) -> Result<Manifest, NotTold>
    ensures ok { IfOk result (ReadsManifest bytes.now) }
    ensures stop { IfErr result (IsStopBy (IsNoManifest bytes.now)) }
{
    match read_manifest(alloc, bytes) {
        Ok(manifest) => Ok(manifest),
        Err(fault) => Err(misshapen(alloc, name, fault, Why::Manifest(fault))),
    }
}

/// The files that a manifest names: those of its slots, and its libraries.
pub fn files_of<F: Files>(
    alloc: Global,
    manifest: &Manifest,
    files: &mut F,
) -> Result<Vec<SourceFile>, NotTold>
    ensures step { Stepped F.told F.faults files.old files.new result
        (λ m v. AreRead m file_limit (files_named manifest.now) (sources_of v.items))
        (λ m. NoFiles m (files_named manifest.now)) }
    ensures many { IfOk result (λ v. length v.items ≡ length (files_named manifest.now)) }
    ensures small { IfOk result (λ v. All IsSmall v.items) }
{
    let names = files_named(alloc, manifest)?;
    read_files(alloc, &names, files)
}

/// Reads a trace for slots of these names, where one is asked for.
pub fn try_trace<F: Files>(
    alloc: Global,
    trace: Option<&str>,
    names: &[Text],
    files: &mut F,
) -> Result<(), NotTold>
    requires { length names.now < 2 ^ 32 }
    ensures { Stepped F.told F.faults files.old files.new result
        (λ m _. IsTraced m names.now (option_copied trace.entry))
        (λ m. NoTraced m names.now (option_copied trace.entry)) }
{
    match trace {
        Some(name) => try_named(alloc, name, names, files),
        None => Ok(()),
    }
}

// Reads the trace of a name.
fn try_named<F: Files>(
    alloc: Global,
    name: &str,
    names: &[Text],
    files: &mut F,
) -> Result<(), NotTold>
    requires { length names.now < 2 ^ 32 }
    ensures { Stepped F.told F.faults files.old files.new result
        (λ m _. HasTrace m names.now name.now) (λ m. NoTrace m names.now name.now) }
{
    let bytes = read_file(alloc, name, TRACE_LIMIT, files)?;
    let items = trace_of(alloc, name, &bytes, names)?;
    drop(items);
    Ok(())
}

// The items that the bytes of a file are.
fn trace_of(
    alloc: Global,
    name: &str,
    bytes: &[u8],
    names: &[Text],
) -> Result<Vec<TraceItem>, NotTold>
    requires { length names.now < 2 ^ 32 }
    ensures ok { IfOk result (λ v. ReadsTrace bytes.now names.now v.items) }
    ensures stop { IfErr result (IsStopBy (IsNoTrace bytes.now names.now)) }
{
    match read_trace(alloc, bytes, names) {
        Ok(items) => Ok(items),
        Err(fault) => Err(misshapen(alloc, name, fault, Why::Trace(fault))),
    }
}

// What stops the work where the bytes of a file are out of shape.
fn misshapen(alloc: Global, name: &str, fault: ShapeFault, why: Why) -> NotTold
    ensures { IsMisshapen fault why result }
{
    match fault {
        ShapeFault::Memory => NotTold::Memory,
        ShapeFault::NotJson | ShapeFault::BadShape { .. } | ShapeFault::TooMany { .. } => {
            bad_file(alloc, name, why)
        }
    }
}
