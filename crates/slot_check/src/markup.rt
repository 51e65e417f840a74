//! The markup rules of a widget file.
ghost use Rattle.std.specs.Prelude.{IfOk, IfErr};
ghost use Rattle.slot_check.specs.Slots.{IsSlot, IsSlotFault};

use code_units::Text;
use markup_reader::{MarkupFault, read_markup};
use markup_rules::rule_numbers::M01;
use std::alloc::Global;
use widget_form::{Form, FormFault, split};

/// Why a widget file is not accepted.
#[derive(Clone, Copy, PartialEq, Eq, Drop)]
pub enum CheckMarkupFault {
    /// The first broken rule, from 1 to 12, and its place: a byte offset.
    Broken { rule: u8, at: usize },
    /// There was no memory to judge it.
    Memory,
}

impl From<MarkupFault> for CheckMarkupFault {
    ghost use Rattle.std.specs.Prelude.{◌≡◌};
    ghost use Rattle.slot_check.specs.Slots.{fault_of_markup};

    ghost from_gives = { λ f e. e ≡ fault_of_markup f };

    fn from(fault: MarkupFault) -> CheckMarkupFault {
        match fault {
            MarkupFault::BadMarkup { at } => CheckMarkupFault::Broken { rule: M01, at },
            MarkupFault::Memory => CheckMarkupFault::Memory,
        }
    }
}

impl From<FormFault> for CheckMarkupFault {
    ghost use Rattle.std.specs.Prelude.{◌≡◌};
    ghost use Rattle.slot_check.specs.Slots.{fault_of_form};

    ghost from_gives = { λ f e. e ≡ fault_of_form f };

    fn from(fault: FormFault) -> CheckMarkupFault {
        match fault {
            FormFault::BadForm { rule, at } => CheckMarkupFault::Broken { rule, at },
            FormFault::Memory => CheckMarkupFault::Memory,
        }
    }
}

/// The parts of a slot's widget file, by the slot's name and the files of its libraries
/// (`docs/RULES.md`).
///
/// `Broken` comes exactly where one of the rules M01 to M12 is broken, and gives the first of them:
/// M01 before the others, of which the least place decides, then the least number.
pub fn check_markup(
    alloc: Global,
    name: &Text,
    libs: &[Text],
    bytes: &[u8],
) -> Result<Form, CheckMarkupFault>
    // The file breaks no rule, and the form has its parts.
    ensures form { IfOk result (IsSlot name.now libs.now bytes.now) }
    // The rule of a refusal is the first that is broken.
    ensures first { IfErr result (IsSlotFault name.now libs.now bytes.now) }
{
    let content = read_markup(alloc, bytes)?;
    Ok(split(alloc, name, libs, content)?)
}
