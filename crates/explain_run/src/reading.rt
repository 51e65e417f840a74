//! Reading files within their limits.
ghost use Rattle.std.specs.Prelude.{◌≡◌, ◌≤◌, ◌<◌, length, All, IfOk};
ghost use Rattle.slot_check.specs.Verdicts.{source_of, sources_of, IsSmall};
ghost use Rattle.run_steps.specs.Page.{texts, file_limit};
ghost use Rattle.explain_run.specs.Page.{IsRead, AreRead, HasBytes};
ghost use Rattle.explain_run.specs.Steps.{NoFile, NoFiles, Stepped, IsBecause};

use code_units::Memory;
use host_io::{Files, ReadFail};
use json_shapes::ShapeFault;
use slot_check::SourceFile;
use std::alloc::{AllocError, AllocFailed, Global};

/// The bytes that a widget file or a library may have.
pub const FILE_LIMIT: u32 = 262_144;

/// What is wrong with a file.
#[derive(Clone, Copy)]
pub enum Why {
    /// Its bytes are no manifest.
    Manifest(ShapeFault),
    /// Its bytes are no trace for the page.
    Trace(ShapeFault),
    /// It has more bytes than this limit.
    TooLong(u32),
    /// It is missing, or could not be read.
    Unread,
}

/// Why no rule is judged.
#[derive(Drop)]
pub enum NotTold {
    /// Something is wrong with a file.
    Bad { file: String, why: Why },
    /// There was no memory.
    Memory,
}

impl From<Memory> for NotTold {
    ghost use Rattle.std.specs.Prelude.{◌≡◌};
    ghost use Rattle.explain_run.specs.declared.reading.NotTold.TheVariants as stops;

    ghost from_gives = { λ _ stop. stop ≡ stops.Memory };

    fn from(_: Memory) -> NotTold {
        NotTold::Memory
    }
}

impl From<AllocError> for NotTold {
    ghost use Rattle.std.specs.Prelude.{◌≡◌};
    ghost use Rattle.explain_run.specs.declared.reading.NotTold.TheVariants as stops;

    ghost from_gives = { λ _ stop. stop ≡ stops.Memory };

    fn from(_: AllocError) -> NotTold {
        NotTold::Memory
    }
}

impl<T: Drop> From<AllocFailed<T>> for NotTold {
    ghost use Rattle.std.specs.Prelude.{◌≡◌};
    ghost use Rattle.explain_run.specs.declared.reading.NotTold.TheVariants as stops;

    ghost from_gives = { λ _ stop. stop ≡ stops.Memory };

    fn from(_: AllocFailed<T>) -> NotTold {
        NotTold::Memory
    }
}

/// Tells that something is wrong with the file of a name.
pub fn bad_file(alloc: Global, file: &str, why: Why) -> NotTold
    ensures { IsBecause why result }
{
    match String::from_str(alloc, file) {
        Ok(file) => NotTold::Bad { file, why },
        Err(_) => NotTold::Memory,
    }
}

/// The whole file, which has at most `limit` bytes.
pub fn read_file<F: Files>(
    alloc: Global,
    name: &str,
    limit: u32,
    files: &mut F,
) -> Result<Vec<u8>, NotTold>
    ensures step { Stepped F.told F.faults files.old files.new result
        (λ m v. HasBytes m limit name.now v.items) (λ m. NoFile m limit name.now) }
    ensures within { IfOk result (λ v. length v.items ≤ limit) }
{
    match files.read(alloc, name, limit as usize) {
        Ok(bytes) => {
            if bytes.len() > limit as usize {
                Err(bad_file(alloc, name, Why::TooLong(limit)))
            } else {
                Ok(bytes)
            }
        }
        Err(ReadFail::Failed) => Err(bad_file(alloc, name, Why::Unread)),
        Err(ReadFail::Memory) => Err(NotTold::Memory),
    }
}

/// The files of these names, each within its limit. The first that is not decides.
pub fn read_files<F: Files>(
    alloc: Global,
    names: &[String],
    files: &mut F,
) -> Result<Vec<SourceFile>, NotTold>
    ensures step { Stepped F.told F.faults files.old files.new result
        (λ m v. AreRead m file_limit (texts names.now) (sources_of v.items)) (λ m. NoFiles m (texts names.now)) }
    ensures many { IfOk result (λ v. length v.items ≡ length names.now) }
    ensures small { IfOk result (λ v. All IsSmall v.items) }
{
    let mut sources = Vec::new(alloc);
    'names: for name in names {
        let source = read_source(alloc, name.as_str(), files)?;
        sources.push(source)?;
    }
    Ok(sources)
}

// The file of a name, under that name.
fn read_source<F: Files>(alloc: Global, name: &str, files: &mut F) -> Result<SourceFile, NotTold>
    ensures step { Stepped F.told F.faults files.old files.new result
        (λ m s. IsRead m file_limit name.now (source_of s)) (λ m. NoFile m file_limit name.now) }
    ensures small { IfOk result IsSmall }
{
    let bytes = read_file(alloc, name, FILE_LIMIT, files)?;
    let name = String::from_str(alloc, name)?;
    Ok(SourceFile { name, bytes })
}
