//! Why bytes gave no certificate.
use code_units::Memory;
use std::alloc::AllocFailed;

/// Why bytes gave no certificate.
#[derive(Clone, Copy, PartialEq, Eq, Drop)]
pub enum CertFault {
    /// No certificate begins with the lines up to and with this one, counted from 1; or it is the
    /// line after the last, where the lines begin a certificate and are none.
    BadCert { line: u32 },
    /// There was no memory for the certificate.
    Memory,
}

impl From<Memory> for CertFault {
    ghost use Rattle.std.specs.Prelude.{◌≡◌};
    ghost use Rattle.reach_cert.specs.declared.fault.CertFault.TheVariants as fault;

    ghost from_gives = { λ _ e. e ≡ fault.Memory };

    fn from(_: Memory) -> CertFault {
        CertFault::Memory
    }
}

impl<T: Drop> From<AllocFailed<T>> for CertFault {
    ghost use Rattle.std.specs.Prelude.{◌≡◌};
    ghost use Rattle.reach_cert.specs.declared.fault.CertFault.TheVariants as fault;

    ghost from_gives = { λ _ e. e ≡ fault.Memory };

    fn from(_: AllocFailed<T>) -> CertFault {
        CertFault::Memory
    }
}
