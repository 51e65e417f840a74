//! The parser: from the tokens of a text to its tree.
#![tactic(auto)]

mod text;

use code_units::Memory as OutOfMemory;
use thiserror::Error;

/// Why tokens gave no tree. `at` is the byte at which the refused token begins, or the length of
/// the text where it ends too early.
#[derive(Clone, Copy, PartialEq, Eq, Debug, Drop, Error)]
pub enum ParseFault {
    /// No program begins with the tokens up to and with this one.
    #[error("unexpected token at byte {at}")]
    Syntax { at: usize },
    /// This token stands in more than 200 brackets and operands.
    #[error("nested too deeply at byte {at}")]
    TooDeep { at: usize },
    /// There was no memory for the tree.
    #[error("out of memory")]
    Memory,
}

impl From<OutOfMemory> for ParseFault {
    ghost use Rattle.std.specs.Prelude.{◌≡◌};
    ghost use Rattle.js_parser.specs.declared.ParseFault.TheVariants as fault;

    ghost from_gives = { λ _ e. e ≡ fault.Memory };

    fn from(_: OutOfMemory) -> ParseFault {
        ParseFault::Memory
    }
}

pub use text::parse;
