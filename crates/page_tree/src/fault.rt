//! Refusals.
ghost use Rattle.std.specs.Prelude.{◌≡◌};
ghost use Rattle.page_tree.specs.declared.fault.PageFault.TheVariants as fault;

use code_units::Memory;
use std::alloc::AllocError;

/// Why a call of the page is refused. A refused call changes nothing.
#[derive(Clone, Copy, PartialEq, Eq, Debug, Drop)]
pub enum PageFault {
    /// The widget has kept so many nodes, and the new ones pass 16,384.
    Nodes { kept: u32 },
    /// A node may not be put there.
    NotInside,
    /// A node would have over 200 nodes above it.
    TooDeep,
    /// There was no memory.
    Memory,
}

impl From<Memory> for PageFault {
    ghost from_gives = { λ _ e. e ≡ fault.Memory };

    fn from(_: Memory) -> PageFault {
        PageFault::Memory
    }
}

impl From<AllocError> for PageFault {
    ghost from_gives = { λ _ e. e ≡ fault.Memory };

    fn from(_: AllocError) -> PageFault {
        PageFault::Memory
    }
}
