//! The steps of the work that read: a manifest, the files that it names, a trace, the files of its swaps, and
//! a certificate.
ghost use Rattle.std.specs.Prelude.{◌≡◌, ◌++◌, ◌∷◌, [], ◌<◌, ◌≤◌, ◌^◌, length, map, option_copied, All, IsSome, IfOk, OnOk, IfErr};
ghost use Rattle.manifest_reader.specs.Manifest.{ReadsManifest};
ghost use Rattle.trace_reader.specs.Said.{said};
ghost use Rattle.trace_reader.specs.Trace.{ReadsTrace};
ghost use Rattle.slot_check.specs.Verdicts.{sources_of, IsSmall};
ghost use Rattle.run_steps.specs.Page.{texts, file_limit, cert_limit, AreRead, entry_name, entry_file, slot_names, slot_files, files_named, swap_file, swap_files, HasSlots, IsManifest, HasManifest, HasTrace, HasBytes};
ghost use Rattle.run_steps.specs.Items.{AreItems};
ghost use Rattle.run_steps.specs.Steps.{NoManifest, NoFiles, NoTrace, NoBytes, HasItems, NoItems, IsManifestStop, IsTraceStop, manifest_stop_of, trace_stop_of};
ghost use Rattle.run_steps.specs.Reading.{ComesThrough, IsTraceThere};
ghost use Rattle.run_steps.specs.Ends.{Stepped};

use crate::reading::{CERT_LIMIT, NoReport, read_file, read_files};
use code_units::{Memory, Text};
use host_io::Files;
use manifest_reader::{Entry, Manifest, read_manifest};
use slot_check::SourceFile;
use std::alloc::Global;
use trace_reader::{ShapeFault, TraceItem, read_trace};

/// The bytes that a manifest may have.
const MANIFEST_LIMIT: usize = 1_048_576;

/// The bytes that a trace may have.
const TRACE_LIMIT: usize = 1_048_576;

/// The manifest of a name.
pub fn manifest_in<F: Files>(alloc: Global, name: &str, files: &mut F) -> Result<Manifest, NoReport>
    ensures step { Stepped F.told F.calm F.faults files.old files.new result
        (λ m manifest. HasManifest m name.now manifest) (λ m. NoManifest m name.now) (λ m. IsSome (m name.now)) }
    ensures slots { IfOk result HasSlots }
    ensures reads { IfOk result IsManifest }
{
    let bytes = read_file(alloc, name, MANIFEST_LIMIT, files)?;
    manifest_of(alloc, &bytes)
}

// The manifest that the bytes are.
fn manifest_of(alloc: Global, bytes: &[u8]) -> Result<Manifest, NoReport>
    ensures ok { IfOk result (ReadsManifest bytes.now) }
    ensures stop { IfErr result (IsManifestStop bytes.now) }
{
    match read_manifest(alloc, bytes) {
        Ok(manifest) => Ok(manifest),
        Err(fault) => Err(manifest_stop_of(fault)),
    }
}

// What the work stops at where bytes are no manifest.
fn manifest_stop_of(fault: ShapeFault) -> NoReport
    ensures { result ≡ manifest_stop_of fault }
{
    match fault {
        ShapeFault::Memory => NoReport::Memory,
        ShapeFault::NotJson | ShapeFault::BadShape { .. } | ShapeFault::TooMany { .. } => {
            NoReport::BadManifest
        }
    }
}

/// The files that a manifest names: those of its slots, and its libraries.
pub fn files_of<F: Files>(
    alloc: Global,
    manifest: &Manifest,
    files: &mut F,
) -> Result<Vec<SourceFile>, NoReport>
    ensures step { Stepped F.told F.calm F.faults files.old files.new result
        (λ m v. AreRead m file_limit (files_named manifest.now) (sources_of v.items))
        (λ m. NoFiles m (files_named manifest.now)) (λ m. ComesThrough m file_limit (files_named manifest.now)) }
    ensures many { IfOk result (λ v. length v.items ≡ length (files_named manifest.now)) }
    ensures small { IfOk result (λ v. All IsSmall v.items) }
{
    let names = files_named(alloc, manifest)?;
    read_files(alloc, &names, files)
}

/// The items of a trace for slots of these names; none where no trace is asked for.
pub fn items_of<F: Files>(
    alloc: Global,
    trace: Option<&str>,
    names: &[Text],
    files: &mut F,
) -> Result<Vec<TraceItem>, NoReport>
    requires { length names.now < 2 ^ 32 }
    ensures step { Stepped F.told F.calm F.faults files.old files.new result
        (λ m v. HasItems m names.now (option_copied trace.entry) v.items)
        (λ m. NoItems m names.now (option_copied trace.entry))
        (λ m. IsTraceThere m (option_copied trace.entry)) }
    ensures items { IfOk result (λ v. AreItems (length names.now) (map said v.items)) }
{
    match trace {
        Some(name) => trace_in(alloc, name, names, files),
        None => Ok(Vec::new(alloc)),
    }
}

// The items of the trace of a name.
fn trace_in<F: Files>(
    alloc: Global,
    name: &str,
    names: &[Text],
    files: &mut F,
) -> Result<Vec<TraceItem>, NoReport>
    requires { length names.now < 2 ^ 32 }
    ensures step { Stepped F.told F.calm F.faults files.old files.new result
        (λ m v. HasTrace m names.now name.now v.items) (λ m. NoTrace m names.now name.now) (λ m. IsSome (m name.now)) }
    ensures items { IfOk result (λ v. AreItems (length names.now) (map said v.items)) }
{
    let bytes = read_file(alloc, name, TRACE_LIMIT, files)?;
    trace_of(alloc, &bytes, names)
}

// The items that the bytes are.
fn trace_of(alloc: Global, bytes: &[u8], names: &[Text]) -> Result<Vec<TraceItem>, NoReport>
    requires { length names.now < 2 ^ 32 }
    ensures ok { IfOk result (λ v. ReadsTrace bytes.now names.now v.items) }
    ensures stop { IfErr result (IsTraceStop bytes.now names.now) }
{
    match read_trace(alloc, bytes, names) {
        Ok(items) => Ok(items),
        Err(fault) => Err(trace_stop_of(fault)),
    }
}

// What the work stops at where bytes are no trace.
fn trace_stop_of(fault: ShapeFault) -> NoReport
    ensures { result ≡ trace_stop_of fault }
{
    match fault {
        ShapeFault::Memory => NoReport::Memory,
        ShapeFault::TooMany { .. } => NoReport::TooLarge,
        ShapeFault::NotJson | ShapeFault::BadShape { .. } => NoReport::BadTrace,
    }
}

/// The files of the swaps of a trace, in order of the swaps: one for each swap, also where two name one file.
pub fn swaps_of<F: Files>(
    alloc: Global,
    items: &[TraceItem],
    files: &mut F,
) -> Result<Vec<SourceFile>, NoReport>
    ensures step { Stepped F.told F.calm F.faults files.old files.new result
        (λ m v. AreRead m file_limit (swap_files items.now) (sources_of v.items))
        (λ m. NoFiles m (swap_files items.now)) (λ m. ComesThrough m file_limit (swap_files items.now)) }
    ensures many { IfOk result (λ v. length v.items ≡ length (swap_files items.now)) }
    ensures small { IfOk result (λ v. All IsSmall v.items) }
{
    let names = swap_files(alloc, items)?;
    read_files(alloc, &names, files)
}

/// The bytes of a certificate.
pub fn cert_in<F: Files>(alloc: Global, name: &str, files: &mut F) -> Result<Vec<u8>, NoReport>
    ensures step { Stepped F.told F.calm F.faults files.old files.new result
        (λ m v. HasBytes m cert_limit name.now v.items) (λ m. NoBytes m cert_limit name.now)
        (λ m. IsSome (m name.now)) }
    ensures within { IfOk result (λ v. length v.items ≤ cert_limit) }
{
    read_file(alloc, name, CERT_LIMIT, files)
}

/// The names of the files of a manifest, in the order in which they are read: those of its slots, and its libraries.
pub fn files_named(alloc: Global, manifest: &Manifest) -> Result<Vec<String>, Memory>
    ensures { IfOk result (λ names. texts names.items ≡ files_named manifest.now) }
{
    let mut names = slot_files(alloc, &manifest.entries)?;
    push_names(alloc, &manifest.libs, &mut names)?;
    Ok(names)
}

// The names of the files of the slots.
fn slot_files(alloc: Global, entries: &[Entry]) -> Result<Vec<String>, Memory>
    ensures { IfOk result (λ names. texts names.items ≡ slot_files entries.now) }
{
    let mut names = Vec::new(alloc);
    'entries: for entry in entries {
        push_file(alloc, entry, &mut names)?;
    }
    Ok(names)
}

// Appends the name of the file of an entry that is a slot.
fn push_file(alloc: Global, entry: &Entry, names: &mut Vec<String>) -> Result<(), Memory>
    ensures { OnOk result (texts names.new.items ≡ texts names.old.items ++ entry_file entry.now) }
{
    match entry {
        Entry::Html(_) => Ok(()),
        Entry::Slot { file, .. } => push_copy(alloc, file.as_str(), names),
    }
}

// The names of the files of the swaps.
fn swap_files(alloc: Global, items: &[TraceItem]) -> Result<Vec<String>, Memory>
    ensures { IfOk result (λ names. texts names.items ≡ swap_files items.now) }
{
    let mut names = Vec::new(alloc);
    'items: for item in items {
        push_swap(alloc, item, &mut names)?;
    }
    Ok(names)
}

// Appends the name of the file of an item that is a swap.
fn push_swap(alloc: Global, item: &TraceItem, names: &mut Vec<String>) -> Result<(), Memory>
    ensures { OnOk result (texts names.new.items ≡ texts names.old.items ++ swap_file (said item.now)) }
{
    match item {
        TraceItem::Event { .. } | TraceItem::Advance(_) => Ok(()),
        TraceItem::Swap { file, .. } => push_copy(alloc, file.as_str(), names),
    }
}

// Appends a copy of a name.
fn push_copy(alloc: Global, name: &str, names: &mut Vec<String>) -> Result<(), Memory>
    ensures { OnOk result (texts names.new.items ≡ texts names.old.items ++ name.now ∷ []) }
{
    names.push(String::from_str(alloc, name)?)?;
    Ok(())
}

// Appends copies of names.
fn push_names(alloc: Global, more: &[String], names: &mut Vec<String>) -> Result<(), Memory>
    ensures { OnOk result (texts names.new.items ≡ texts names.old.items ++ texts more.now) }
{
    'more: for name in more {
        push_copy(alloc, name.as_str(), names)?;
    }
    Ok(())
}

/// The names of the slots.
pub fn slot_names(alloc: Global, entries: &[Entry]) -> Result<Vec<Text>, Memory>
    ensures { IfOk result (λ names. names.items ≡ slot_names entries.now) }
{
    let mut names = Vec::new(alloc);
    'entries: for entry in entries {
        push_name(entry, &mut names)?;
    }
    Ok(names)
}

// Appends the name of an entry that is a slot.
fn push_name(entry: &Entry, names: &mut Vec<Text>) -> Result<(), Memory>
    ensures { OnOk result (names.new.items ≡ names.old.items ++ entry_name entry.now) }
{
    match entry {
        Entry::Html(_) => Ok(()),
        Entry::Slot { name, .. } => Ok(names.push(name.share()?)?),
    }
}
