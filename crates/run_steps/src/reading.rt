//! Reading files within their limits.
ghost use Rattle.std.specs.Prelude.{◌≡◌, ◌≤◌, ◌<◌, ◌^◌, length, All, Some, IfSome, IsSomeAnd, IfOk, IfErr, IsErrOf};
ghost use Rattle.host_io.specs.Files.{IsThere};
ghost use Rattle.slot_check.specs.Verdicts.{source_of, sources_of, IsSmall};
ghost use Rattle.run_steps.specs.Page.{texts, file_limit, IsRead, AreRead, IsFirstLong};
ghost use Rattle.run_steps.specs.Reading.{ReadsFiles, IsLong, ComesThrough, IsReadStop};

use code_units::Memory;
use host_io::{Files, ReadFail};
use slot_check::SourceFile;
use std::alloc::{AllocError, AllocFailed, Global};

/// The bytes that a widget file, the file of a swap or a library may have.
pub const FILE_LIMIT: usize = 262_144;

/// The bytes that a certificate may have, written or read.
pub const CERT_LIMIT: usize = 16_777_216;

/// Why there is no report.
#[derive(Clone, Copy)]
pub enum NoReport {
    /// The bytes of the manifest are none.
    BadManifest,
    /// The bytes of the trace are none.
    BadTrace,
    /// A file has more bytes than its limit, or a trace too many items.
    TooLarge,
    /// A file could not be read.
    ReadFault,
    /// There was no memory.
    Memory,
    /// The certificate that would be written has more bytes than its limit.
    CertTooLarge,
    /// The bytes of the certificate are none.
    BadCert,
}

impl From<Memory> for NoReport {
    ghost use Rattle.std.specs.Prelude.{◌≡◌};
    ghost use Rattle.run_steps.specs.declared.reading.NoReport.TheVariants as stops;

    ghost from_gives = { λ _ stop. stop ≡ stops.Memory };

    fn from(_: Memory) -> NoReport {
        NoReport::Memory
    }
}

impl From<AllocError> for NoReport {
    ghost use Rattle.std.specs.Prelude.{◌≡◌};
    ghost use Rattle.run_steps.specs.declared.reading.NoReport.TheVariants as stops;

    ghost from_gives = { λ _ stop. stop ≡ stops.Memory };

    fn from(_: AllocError) -> NoReport {
        NoReport::Memory
    }
}

impl<T: Drop> From<AllocFailed<T>> for NoReport {
    ghost use Rattle.std.specs.Prelude.{◌≡◌};
    ghost use Rattle.run_steps.specs.declared.reading.NoReport.TheVariants as stops;

    ghost from_gives = { λ _ stop. stop ≡ stops.Memory };

    fn from(_: AllocFailed<T>) -> NoReport {
        NoReport::Memory
    }
}

/// The whole file, which has at most `limit` bytes.
pub fn read_file<F: Files>(
    alloc: Global,
    name: &str,
    limit: usize,
    files: &mut F,
) -> Result<Vec<u8>, NoReport>
    requires { limit < 2 ^ 32 }
    ensures ok { IfOk result (λ v. IfSome (F.told files.old) (λ m. m name.now ≡ Some v.items)) }
    ensures within { IfOk result (λ v. length v.items ≤ limit) }
    ensures large { IsErrOf result NoReport.TooLarge → IfSome (F.told files.old) (λ m. IsLong (m name.now) limit) }
    ensures stops { IfErr result IsReadStop }
    ensures reads { ReadsFiles F.told F.calm F.faults files.old files.new (IsErrOf result NoReport.ReadFault)
        (IsThere (F.told files.old) name.now) }
{
    match files.read(alloc, name, limit) {
        Ok(bytes) => {
            if bytes.len() > limit {
                Err(NoReport::TooLarge)
            } else {
                Ok(bytes)
            }
        }
        Err(ReadFail::Failed) => Err(NoReport::ReadFault),
        Err(ReadFail::Memory) => Err(NoReport::Memory),
    }
}

/// The files of these names, each within its limit. The first that is not decides.
pub fn read_files<F: Files>(
    alloc: Global,
    names: &[String],
    files: &mut F,
) -> Result<Vec<SourceFile>, NoReport>
    ensures ok { IfOk result (λ v. IfSome (F.told files.old) (λ m.
        AreRead m file_limit (texts names.now) (sources_of v.items))) }
    ensures many { IfOk result (λ v. length v.items ≡ length names.now) }
    ensures small { IfOk result (λ v. All IsSmall v.items) }
    ensures large { IsErrOf result NoReport.TooLarge →
        IfSome (F.told files.old) (λ m. IsFirstLong m file_limit (texts names.now)) }
    ensures stops { IfErr result IsReadStop }
    ensures reads { ReadsFiles F.told F.calm F.faults files.old files.new (IsErrOf result NoReport.ReadFault)
        (IsSomeAnd (F.told files.old) (λ m. ComesThrough m file_limit (texts names.now))) }
{
    let mut sources = Vec::new(alloc);
    'names: for name in names {
        let source = read_source(alloc, name.as_str(), files)?;
        sources.push(source)?;
    }
    Ok(sources)
}

// The file of a name, under that name.
#[tactic(auto, using(crate::proofs::Gathered::read_one))]
fn read_source<F: Files>(alloc: Global, name: &str, files: &mut F) -> Result<SourceFile, NoReport>
    ensures ok { IfOk result (λ s. IfSome (F.told files.old) (λ m. IsRead m file_limit name.now (source_of s))) }
    ensures small { IfOk result IsSmall }
    ensures large { IsErrOf result NoReport.TooLarge → IfSome (F.told files.old) (λ m. IsLong (m name.now) file_limit) }
    ensures stops { IfErr result IsReadStop }
    ensures reads { ReadsFiles F.told F.calm F.faults files.old files.new (IsErrOf result NoReport.ReadFault)
        (IsThere (F.told files.old) name.now) }
{
    let bytes = read_file(alloc, name, FILE_LIMIT, files)?;
    let name = String::from_str(alloc, name)?;
    Ok(SourceFile { name, bytes })
}
