//! The text of queries, read.
//!
//! Which units spell which query is said by `query_grammar`.
#![tactic(auto)]

mod again;
mod parts;
mod read;

use code_units::Memory;
use std::alloc::{AllocError, AllocFailed};
use thiserror::Error;

/// Why a text gave no query.
#[derive(Debug, Drop, Error)]
pub enum QueryFault {
    /// No query begins with the units up to and with this one; or `at` is the length, where the
    /// text ends too early.
    #[error("no query at unit {at}")]
    BadQuery { at: usize },
    /// There was no memory for the query.
    #[error("out of memory")]
    Memory,
}

impl From<Memory> for QueryFault {
    ghost use Rattle.std.specs.Prelude.{◌≡◌};
    ghost use Rattle.query_text.specs.declared.QueryFault.TheVariants as fault;

    ghost from_gives = { λ _ e. e ≡ fault.Memory };

    fn from(_: Memory) -> QueryFault {
        QueryFault::Memory
    }
}

impl From<AllocError> for QueryFault {
    ghost use Rattle.std.specs.Prelude.{◌≡◌};
    ghost use Rattle.query_text.specs.declared.QueryFault.TheVariants as fault;

    ghost from_gives = { λ _ e. e ≡ fault.Memory };

    fn from(_: AllocError) -> QueryFault {
        QueryFault::Memory
    }
}

impl<T: Drop> From<AllocFailed<T>> for QueryFault {
    ghost use Rattle.std.specs.Prelude.{◌≡◌};
    ghost use Rattle.query_text.specs.declared.QueryFault.TheVariants as fault;

    ghost from_gives = { λ _ e. e ≡ fault.Memory };

    fn from(_: AllocFailed<T>) -> QueryFault {
        QueryFault::Memory
    }
}

pub use again::alike_end;
pub use read::{first_filter, read_query};
