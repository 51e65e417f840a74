//! Why a text gave nothing.
use code_units::Memory;
use std::alloc::{AllocError, AllocFailed};
use thiserror::Error;

/// Why a manifest or a trace was not read.
#[derive(Clone, Copy, PartialEq, Eq, Debug, Drop, Error)]
pub enum ShapeFault {
    /// The bytes are no JSON.
    #[error("no JSON")]
    NotJson,
    /// The value is not of the shape. `item` is the number of entries of `page` or `items` up to
    /// the first that breaks a rule, 0 where there is no such list.
    #[error("out of shape at entry {item}")]
    BadShape { item: u32 },
    /// There are over 4,096 items.
    #[error("{items} items")]
    TooMany { items: usize },
    /// There was no memory for the result.
    #[error("out of memory")]
    Memory,
}

impl From<Memory> for ShapeFault {
    ghost use Rattle.std.specs.Prelude.{◌≡◌};
    ghost use Rattle.json_shapes.specs.declared.fault.ShapeFault.TheVariants.{Memory as out_of_memory};

    ghost from_gives = { λ _ e. e ≡ out_of_memory };

    fn from(_: Memory) -> ShapeFault {
        ShapeFault::Memory
    }
}

impl<T: Drop> From<AllocFailed<T>> for ShapeFault {
    ghost use Rattle.std.specs.Prelude.{◌≡◌};
    ghost use Rattle.json_shapes.specs.declared.fault.ShapeFault.TheVariants.{Memory as out_of_memory};

    ghost from_gives = { λ _ e. e ≡ out_of_memory };

    fn from(_: AllocFailed<T>) -> ShapeFault {
        ShapeFault::Memory
    }
}

/// Why a part of a value gave nothing.
#[derive(Clone, Copy)]
pub enum Misfit {
    /// It is not of the shape.
    Shape,
    /// There was no memory.
    Memory,
}

impl From<Memory> for Misfit {
    ghost use Rattle.std.specs.Prelude.{◌≡◌};
    ghost use Rattle.json_shapes.specs.declared.fault.Misfit.TheVariants.{Memory as out_of_memory};

    ghost from_gives = { λ _ e. e ≡ out_of_memory };

    fn from(_: Memory) -> Misfit {
        Misfit::Memory
    }
}

impl From<AllocError> for Misfit {
    ghost use Rattle.std.specs.Prelude.{◌≡◌};
    ghost use Rattle.json_shapes.specs.declared.fault.Misfit.TheVariants.{Memory as out_of_memory};

    ghost from_gives = { λ _ e. e ≡ out_of_memory };

    fn from(_: AllocError) -> Misfit {
        Misfit::Memory
    }
}

impl<T: Drop> From<AllocFailed<T>> for Misfit {
    ghost use Rattle.std.specs.Prelude.{◌≡◌};
    ghost use Rattle.json_shapes.specs.declared.fault.Misfit.TheVariants.{Memory as out_of_memory};

    ghost from_gives = { λ _ e. e ≡ out_of_memory };

    fn from(_: AllocFailed<T>) -> Misfit {
        Misfit::Memory
    }
}
