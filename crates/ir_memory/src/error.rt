//! Why a call of the memory is refused.
use std::alloc::{AllocError, AllocFailed};

/// Why a call of the memory is refused. A refusal changes nothing.
#[derive(Clone, Copy, Debug, PartialEq, Eq)]
pub enum MemError {
    /// The live cells would pass their limit.
    Cells,
    /// The range lies in no live object, or the object is constant.
    Access,
    /// The cells that are read as a pointer are none.
    BadPointer,
    /// There was no memory for the cells.
    NoMemory,
}

impl From<AllocError> for MemError {
    ghost use Rattle.std.specs.Prelude.{◌≡◌};
    ghost use Rattle.ir_memory.specs.declared.error.MemError.TheVariants.{NoMemory};

    ghost from_gives = { λ _ e. e ≡ NoMemory };

    fn from(_e: AllocError) -> MemError {
        MemError::NoMemory
    }
}

impl<T: Drop> From<AllocFailed<T>> for MemError {
    ghost use Rattle.std.specs.Prelude.{◌≡◌};
    ghost use Rattle.ir_memory.specs.declared.error.MemError.TheVariants.{NoMemory};

    ghost from_gives = { λ _ e. e ≡ NoMemory };

    fn from(_e: AllocFailed<T>) -> MemError {
        MemError::NoMemory
    }
}
