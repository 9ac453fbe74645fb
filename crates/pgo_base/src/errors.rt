// The errors of this crate: want of memory, and a fault of something outside the process.
ghost use Rattle.std.specs.Prelude.{◌≡◌};
ghost use Rattle.pgo_base.specs.declared.errors.OutsideError.TheVariants as outside;

use std::alloc::{AllocError, AllocFailed};
use thiserror::Error;

/// There was no memory for what was asked.
#[derive(Clone, Copy, Debug, PartialEq, Eq, Drop, Error)]
#[error("out of memory")]
pub struct NoMemory;

impl From<AllocError> for NoMemory {
    fn from(_: AllocError) -> NoMemory {
        NoMemory
    }
}

impl<T: Drop> From<AllocFailed<T>> for NoMemory {
    fn from(_: AllocFailed<T>) -> NoMemory {
        NoMemory
    }
}

/// What a call on a file or an output answers: the outside failed it, or there was no memory for it.
#[derive(Clone, Copy, Debug, PartialEq, Eq, Drop, Error)]
pub enum OutsideError {
    #[error("a call outside the process failed")]
    Failed,
    #[error("out of memory")]
    NoMemory,
}

impl From<AllocError> for OutsideError {
    ghost from_gives = { λ _ e. e ≡ outside.NoMemory };

    fn from(_: AllocError) -> OutsideError {
        OutsideError::NoMemory
    }
}

impl<T: Drop> From<AllocFailed<T>> for OutsideError {
    ghost from_gives = { λ _ e. e ≡ outside.NoMemory };

    fn from(_: AllocFailed<T>) -> OutsideError {
        OutsideError::NoMemory
    }
}

impl From<NoMemory> for OutsideError {
    ghost from_gives = { λ _ e. e ≡ outside.NoMemory };

    fn from(_: NoMemory) -> OutsideError {
        OutsideError::NoMemory
    }
}
