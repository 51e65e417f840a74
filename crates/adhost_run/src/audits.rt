//! The report of `check-audit`: whether a certificate is confined.
ghost use Rattle.std.specs.Prelude.{◌≡◌, ◌≤◌, List, length, IfOk, IfErr, IsSome, None, true, false};
ghost use Rattle.reach_cert.specs.Certs.{Slot, cert_text};
ghost use Rattle.reach_cert.specs.Shape.{IsCert};
ghost use Rattle.reach_cert.specs.Walks.{first_leak};
ghost use Rattle.run_steps.specs.Page.{cert_limit};
ghost use Rattle.adhost_run.specs.Answer.{ending, CertAnswer, CheckAuditAnswer, IsCertStop, confined_line, leak_line};
ghost use Rattle.adhost_run.specs.Ends.{Answered};

use crate::reports::Report;
use code_units::Memory;
use host_io::Files;
use itoa::Buffer;
use reach_cert::{CertFault, judge, one_answer};
use run_steps::{NoReport, cert_in};
use std::alloc::Global;

/// The report on the certificate of a name: whether it is confined, or else its first line that is not.
pub fn check_audit<F: Files>(alloc: Global, name: &str, files: &mut F) -> Result<Report, NoReport>
    ensures answered { Answered F.told F.calm F.faults files.old files.new result
        (λ m. CheckAuditAnswer m name.now) (λ m. IsSome (m name.now)) }
    ensures no_host { IfOk result (λ r. r.host ≡ None) }
{
    let bytes = cert_in(alloc, name, files)?;
    judge_cert(alloc, &bytes)
}

// The report on the bytes of a certificate.
fn judge_cert(alloc: Global, bytes: &[u8]) -> Result<Report, NoReport>
    requires { length bytes.now ≤ cert_limit }
    ensures ok { IfOk result (λ r. CertAnswer bytes.now (ending r.refused) r.bytes.items) }
    ensures no_host { IfOk result (λ r. r.host ≡ None) }
    ensures stop { IfErr result (IsCertStop bytes.now) }
{
    one_answer();
    match judge(alloc, bytes) {
        Ok(leak) => Ok(found_report(alloc, leak)?),
        Err(CertFault::BadCert { .. }) => Err(NoReport::BadCert),
        Err(CertFault::Memory) => Err(NoReport::Memory),
    }
}

// The report on a certificate, by its first line that is not confined.
fn found_report(alloc: Global, leak: Option<u32>) -> Result<Report, Memory>
    ensures answer { IfOk result (λ r. (slots : List Slot) → IsCert slots → leak ≡ first_leak slots →
        CertAnswer (cert_text slots) (ending r.refused) r.bytes.items) }
    ensures no_host { IfOk result (λ r. r.host ≡ None) }
{
    match leak {
        None => kept_report(alloc),
        Some(line) => leak_report(alloc, line),
    }
}

// The report on a certificate that is confined.
fn kept_report(alloc: Global) -> Result<Report, Memory>
    ensures { IfOk result (λ r. (r.bytes.items ≡ confined_line) × (r.refused ≡ false) × (r.host ≡ None)) }
{
    let mut bytes = Vec::new(alloc);
    bytes.extend_from_slice(b"{\"confined\":true}\n")?;
    Ok(Report {
        refused: false,
        bytes,
        host: None,
    })
}

// The report on a certificate whose first line that is not confined has this number.
fn leak_report(alloc: Global, line: u32) -> Result<Report, Memory>
    ensures { IfOk result (λ r. (r.bytes.items ≡ leak_line line) × (r.refused ≡ true) × (r.host ≡ None)) }
{
    let mut bytes = Vec::new(alloc);
    bytes.extend_from_slice(b"{\"confined\":false,\"line\":")?;
    bytes.extend_from_slice(Buffer::new().format(line).as_bytes())?;
    bytes.extend_from_slice(b"}\n")?;
    Ok(Report {
        refused: true,
        bytes,
        host: None,
    })
}
