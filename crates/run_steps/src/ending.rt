//! How a run ends.
ghost use Rattle.std.specs.Prelude.{◌≡◌};
ghost use Rattle.run_steps.specs.Numbers.{number_of};
ghost use Rattle.run_steps.specs.Ends.{status_of};

use crate::reading::NoReport;

/// The status of a run.
#[derive(Clone, Copy, PartialEq, Eq)]
pub enum Status {
    /// The report is written, no life or library of it breaks a rule, and the certificate is confined.
    Ok,
    /// The report is written, and a life or the library breaks a rule, or the certificate is not confined.
    Refused,
    /// The words are no form of the command line.
    Usage,
    /// The bytes of the manifest are none.
    BadManifest,
    /// The bytes of the trace are none.
    BadTrace,
    /// A file has more bytes than its limit, or a trace too many items.
    TooLarge,
    /// A file could not be read.
    ReadFault,
    /// The report could not be written whole.
    WriteFault,
    /// There was no memory; a run has then written nothing, a live page what it answered before.
    Memory,
    /// The certificate that would be written has more bytes than its limit.
    CertTooLarge,
    /// The bytes of the certificate are none.
    BadCert,
}

impl Status {
    /// The exit status of the program.
    pub fn number(&self) -> u8
        ensures { result ≡ number_of self.now }
    {
        match self {
            Status::Ok => 0,
            Status::Refused => 1,
            Status::Usage => 2,
            Status::BadManifest => 3,
            Status::BadTrace => 4,
            Status::TooLarge => 5,
            Status::ReadFault => 6,
            Status::WriteFault => 7,
            Status::Memory => 8,
            Status::CertTooLarge => 10,
            Status::BadCert => 11,
        }
    }
}

/// The status that a stop ends with.
pub fn status_of(stop: NoReport) -> Status
    ensures { result ≡ status_of stop }
{
    match stop {
        NoReport::BadManifest => Status::BadManifest,
        NoReport::BadTrace => Status::BadTrace,
        NoReport::TooLarge => Status::TooLarge,
        NoReport::ReadFault => Status::ReadFault,
        NoReport::Memory => Status::Memory,
        NoReport::CertTooLarge => Status::CertTooLarge,
        NoReport::BadCert => Status::BadCert,
    }
}
