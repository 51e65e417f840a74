//! The report, built whole before anything is written.
ghost use Rattle.std.specs.Prelude.{◌≡◌, ◌<◌, ◌^◌, length, true, IsSome, IfOk, None};
ghost use Rattle.run_steps.specs.Request.{request_of, IsSliced};
ghost use Rattle.adhost_run.specs.Answer.{IsText, LibraryAnswer, RequestAnswer};
ghost use Rattle.adhost_run.specs.Ends.{Answered, is_audit, IsConfinedText};
ghost use Rattle.run_steps.specs.Reading.{HasFilesFor};
ghost use Rattle.adhost_run.specs.Stage.{RequestLeaves, IsLeft};

use crate::audits::check_audit;
use crate::demos::demo;
use crate::pages::check_page;
use crate::playing::{Way, Writes};
use crate::runs::run_page;
use code_units::Memory;
use host_io::Files;
use page_play::Host;
use run_steps::{FILE_LIMIT, NoReport, Request, read_file};
use script_check::{LibraryText, library_line, tidied_library};
use std::alloc::Global;

/// How `render` runs a page.
const RENDERING: Way = Way {
    slice: 1_000_000,
    writes: Writes::Report,
};

/// What is written, whether it names a broken rule, and the host of a page that ran.
#[derive(Drop)]
pub struct Report {
    /// Whether a life or the library breaks a rule, or the certificate is not confined.
    pub refused: bool,
    /// The lines, the tidied text, or the certificate.
    pub bytes: Vec<u8>,
    /// The host, where a page ran.
    pub host: Option<Host>,
}

/// What is asked of a library.
#[derive(Clone, Copy)]
pub enum Asked {
    /// Its line: `check-lib`.
    Line,
    /// Its tidied text: `tidy`.
    Tidied,
}

/// The report that is asked for.
pub fn report_on<F: Files>(
    alloc: Global,
    request: &Request,
    files: &mut F,
) -> Result<Report, NoReport>
    requires { IsSliced (request_of request.now) }
    ensures answered { Answered F.told F.calm F.faults files.old files.new result
        (λ m. RequestAnswer m (request_of request.now)) (λ m. HasFilesFor m (request_of request.now)) }
    ensures left { IsLeft (F.told files.old) result (λ m. RequestLeaves m (request_of request.now)) }
    ensures confined { is_audit (request_of request.now) ≡ true → IfOk result (λ r. IsConfinedText r.bytes.items) }
{
    match request {
        Request::Check { manifest } => check_page(alloc, manifest, files),
        Request::CheckLib { file } => report_library(alloc, Asked::Line, file, files),
        Request::Tidy { file } => report_library(alloc, Asked::Tidied, file, files),
        Request::Render { manifest } => run_page(alloc, manifest, None, RENDERING, files),
        Request::Replay {
            manifest,
            trace,
            slice,
        } => run_page(alloc, manifest, Some(*trace), reporting(*slice), files),
        Request::Audit {
            manifest,
            trace,
            slice,
        } => run_page(alloc, manifest, Some(*trace), auditing(*slice), files),
        Request::CheckAudit { file } => check_audit(alloc, file, files),
        Request::Demo { count } => Ok(demo(alloc, *count)?),
    }
}

// How `replay` runs a page.
fn reporting(slice: u32) -> Way
    ensures { result ≡ record { slice = slice; writes = Writes.Report } }
{
    Way {
        slice,
        writes: Writes::Report,
    }
}

// How `audit` runs a page.
fn auditing(slice: u32) -> Way
    ensures { result ≡ record { slice = slice; writes = Writes.Certificate } }
{
    Way {
        slice,
        writes: Writes::Certificate,
    }
}

// The report on a library.
fn report_library<F: Files>(
    alloc: Global,
    asked: Asked,
    name: &str,
    files: &mut F,
) -> Result<Report, NoReport>
    ensures answered { Answered F.told F.calm F.faults files.old files.new result
        (λ m. LibraryAnswer m asked name.now) (λ m. IsSome (m name.now)) }
    ensures no_host { IfOk result (λ r. r.host ≡ None) }
{
    let bytes = read_file(alloc, name, FILE_LIMIT, files)?;
    let text = library_text(alloc, asked, name, &bytes)?;
    Ok(Report {
        refused: text.refused,
        bytes: text.bytes,
        host: None,
    })
}

// What is written of a library.
fn library_text(
    alloc: Global,
    asked: Asked,
    name: &str,
    library: &[u8],
) -> Result<LibraryText, Memory>
    requires { length library.now < 2 ^ 31 }
    ensures { IfOk result (λ text. IsText asked name.now library.now text.refused text.bytes.items) }
{
    match asked {
        Asked::Line => library_line(alloc, name, library),
        Asked::Tidied => tidied_library(alloc, name, library),
    }
}
