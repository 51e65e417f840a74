//! Where a text stands, and what a check answers.
use code_units::{Memory, Text};

/// Where a text stands: the first script of a slot, a library, or the last script of a slot, with the slot's name.
#[derive(Drop)]
pub enum Scope {
    /// The first script of a slot that has several.
    Id(Text),
    /// A library.
    Lib,
    /// The last script of a slot.
    Go(Text),
}

impl Scope {
    ghost use Rattle.std.specs.Prelude.{◌≡◌, IfOk};

    /// The same position for a second holder.
    pub fn share(&self) -> Result<Scope, Memory>
        ensures { IfOk result (λ scope. scope ≡ self.now) }
    {
        Ok(match self {
            Scope::Id(slot) => Scope::Id(slot.share()?),
            Scope::Lib => Scope::Lib,
            Scope::Go(slot) => Scope::Go(slot.share()?),
        })
    }
}

/// Why a tree is not accepted.
#[derive(Clone, Copy, PartialEq, Eq, Drop)]
pub enum CheckFault {
    /// The first broken rule, from 2 to 19, and its place.
    Broken { rule: u8, at: usize },
    /// There was no memory to judge it.
    Memory,
}

impl From<Memory> for CheckFault {
    ghost use Rattle.std.specs.Prelude.{◌≡◌};
    ghost use Rattle.adsafe_rules.specs.declared.scope.CheckFault.TheVariants as fault;

    ghost from_gives = { λ _ e. e ≡ fault.Memory };

    fn from(_: Memory) -> CheckFault {
        CheckFault::Memory
    }
}
