//! Inline styles: texts of `property: value` between semicolons.
//!
//! `specs/Styles.antt` says which units spell which pairs. The properties are a fixed list, a value is short
//! and plain, and no value leads out of the page.
#![tactic(auto)]

mod form;
mod laws;
mod print;
mod property;
mod read;
mod value;

use code_units::Memory;
use std::alloc::{AllocError, AllocFailed};
use thiserror::Error;

/// Why units gave no pairs.
#[derive(Debug, Drop, Error)]
pub enum StyleFault {
    /// No style begins with the units up to and with this one; or `at` is the length, where the
    /// text ends too early.
    #[error("no style at unit {at}")]
    BadStyle { at: usize },
    /// There was no memory for the pairs.
    #[error("out of memory")]
    Memory,
}

impl From<Memory> for StyleFault {
    ghost use Rattle.std.specs.Prelude.{◌≡◌};
    ghost use Rattle.style_text.specs.declared.StyleFault.TheVariants as fault;

    ghost from_gives = { λ _ e. e ≡ fault.Memory };

    fn from(_: Memory) -> StyleFault {
        StyleFault::Memory
    }
}

impl From<AllocError> for StyleFault {
    ghost use Rattle.std.specs.Prelude.{◌≡◌};
    ghost use Rattle.style_text.specs.declared.StyleFault.TheVariants as fault;

    ghost from_gives = { λ _ e. e ≡ fault.Memory };

    fn from(_: AllocError) -> StyleFault {
        StyleFault::Memory
    }
}

impl<T: Drop> From<AllocFailed<T>> for StyleFault {
    ghost use Rattle.std.specs.Prelude.{◌≡◌};
    ghost use Rattle.style_text.specs.declared.StyleFault.TheVariants as fault;

    ghost from_gives = { λ _ e. e ≡ fault.Memory };

    fn from(_: AllocFailed<T>) -> StyleFault {
        StyleFault::Memory
    }
}

pub use form::prints_as;
pub use laws::{form_of_style, one_answer, printed_is_read, read_is_spelled};
pub use print::print_style;
pub use property::property_listed;
pub use read::read_style;
pub use value::value_spelled;
