//! Tokens, and why a text has none.
use std::alloc::{AllocError, AllocFailed};
use thiserror::Error;

/// What a token is.
#[derive(Clone, Copy, PartialEq, Eq, Drop)]
pub enum TokenKind {
    /// A name that is not reserved.
    Name,
    /// A reserved word.
    Reserved,
    /// A number.
    Number,
    /// A string, with its quotes.
    Str,
    /// A mark, as `(` or `>>>=`.
    Mark,
}

/// A token of a text: the bytes from `from` up to and without `to`.
#[derive(Clone, Copy, PartialEq, Eq, Drop)]
pub struct Token {
    pub kind: TokenKind,
    pub from: usize,
    pub to: usize,
}

/// Why bytes gave no tokens.
#[derive(Clone, Copy, PartialEq, Eq, Debug, Drop, Error)]
pub enum TokenFault {
    /// The bytes are no UTF-8, or no token begins here, or this token is ill-formed.
    #[error("no token at byte {at}")]
    BadToken { at: usize },
    /// There was no memory for the list.
    #[error("out of memory")]
    Memory,
}

impl From<AllocError> for TokenFault {
    ghost use Rattle.std.specs.Prelude.{◌≡◌};
    ghost use Rattle.js_tokens.specs.declared.token.TokenFault.TheVariants.{Memory};

    ghost from_gives = { λ _ e. e ≡ Memory };

    fn from(_: AllocError) -> TokenFault {
        TokenFault::Memory
    }
}

impl<T: Drop> From<AllocFailed<T>> for TokenFault {
    ghost use Rattle.std.specs.Prelude.{◌≡◌};
    ghost use Rattle.js_tokens.specs.declared.token.TokenFault.TheVariants.{Memory};

    ghost from_gives = { λ _ e. e ≡ Memory };

    fn from(_: AllocFailed<T>) -> TokenFault {
        TokenFault::Memory
    }
}
