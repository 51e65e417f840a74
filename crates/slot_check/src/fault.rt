//! Why a slot is refused.
ghost use Rattle.slot_check.specs.Verdicts.{source_of, IsSmall, IsRefusalAt, Refuses};

use crate::sources::SourceFile;
use code_units::{Memory, Place, place_in};
use std::alloc::{AllocFailed, Global};
use trace_text::Rule;

/// The first broken rule of a slot, the name of the file in which it is broken (the widget's or a
/// library's), and the place in that file.
#[derive(Drop)]
pub struct Refusal {
    pub rule: Rule,
    pub file: String,
    pub at: Place,
}

/// Why a slot is refused.
#[derive(Drop)]
pub enum SlotFault {
    /// It breaks a rule.
    Broken(Refusal),
    /// There was no memory to judge it.
    Memory,
}

impl From<Memory> for SlotFault {
    ghost use Rattle.std.specs.Prelude.{◌≡◌};
    ghost use Rattle.slot_check.specs.declared.fault.SlotFault.TheVariants as fault;

    ghost from_gives = { λ _ e. e ≡ fault.Memory };

    fn from(_: Memory) -> SlotFault {
        SlotFault::Memory
    }
}

impl<T: Drop> From<AllocFailed<T>> for SlotFault {
    ghost use Rattle.std.specs.Prelude.{◌≡◌};
    ghost use Rattle.slot_check.specs.declared.fault.SlotFault.TheVariants as fault;

    ghost from_gives = { λ _ e. e ≡ fault.Memory };

    fn from(_: AllocFailed<T>) -> SlotFault {
        SlotFault::Memory
    }
}

/// The rule is broken in this file, at this byte.
pub fn broken_in(alloc: Global, file: &SourceFile, rule: Rule, at: usize) -> SlotFault
    requires { IsSmall file.now }
    ensures { Refuses (IsRefusalAt (source_of file.now) rule at) result }
{
    match String::from_str(alloc, file.name.as_str()) {
        Ok(name) => SlotFault::Broken(Refusal {
            rule,
            file: name,
            at: place_in(&file.bytes, at),
        }),
        Err(_) => SlotFault::Memory,
    }
}
