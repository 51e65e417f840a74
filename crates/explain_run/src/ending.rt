//! How a run ends.
ghost use Rattle.std.specs.Prelude.{◌≡◌};
ghost use Rattle.explain_run.specs.Numbers.{number_of};

/// The status of a run: that of `check`, or of `check-lib`, on the same files.
#[derive(Clone, Copy, PartialEq, Eq)]
pub enum Status {
    /// No slot, or not the library, breaks a rule.
    Ok,
    /// A slot, or the library, breaks a rule.
    Refused,
    /// The words are no form of the command line.
    Usage,
    /// The bytes of the manifest are none.
    BadManifest,
    /// The bytes of the trace are none.
    BadTrace,
    /// A file has more bytes than its limit, or a trace too many items.
    TooLarge,
    /// A file could not be read.
    ReadFault,
    /// What is told could not be written whole.
    WriteFault,
    /// There was no memory, before anything was written.
    Memory,
}

impl Status {
    /// The exit status of the program.
    pub fn number(&self) -> u8
        ensures { result ≡ number_of self.now }
    {
        match self {
            Status::Ok => 0,
            Status::Refused => 1,
            Status::Usage => 2,
            Status::BadManifest => 3,
            Status::BadTrace => 4,
            Status::TooLarge => 5,
            Status::ReadFault => 6,
            Status::WriteFault => 7,
            Status::Memory => 8,
        }
    }
}
