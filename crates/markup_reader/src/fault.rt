//! Why markup is refused.
use code_units::Memory;
use thiserror::Error;

/// Why bytes gave no trees.
#[derive(Clone, Copy, PartialEq, Eq, Debug, Drop, Error)]
pub enum MarkupFault {
    /// No content begins with the bytes up to and with `at`; or `at` is the length, and the bytes end too early.
    #[error("bad markup at byte {at}")]
    BadMarkup { at: usize },
    /// There was no memory for the trees.
    #[error("out of memory")]
    Memory,
}

impl From<Memory> for MarkupFault {
    ghost use Rattle.std.specs.Prelude.{◌≡◌};
    ghost use Rattle.markup_reader.specs.declared.fault.MarkupFault.TheVariants as fault;

    ghost from_gives = { λ _ e. e ≡ fault.Memory };

    fn from(_: Memory) -> MarkupFault {
        MarkupFault::Memory
    }
}
