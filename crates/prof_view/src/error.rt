// Why a profile text is refused.
ghost use Rattle.prof_view.specs.declared.error.ViewError.TheVariants as errors;
ghost use Rattle.std.specs.Prelude.{◌≡◌};

use std::alloc::{AllocError, AllocFailed};
use thiserror::Error;

/// Why a text gives no view.
#[derive(Clone, Copy, Debug, PartialEq, Eq, Drop, Error)]
pub enum ViewError {
    /// The text spells no profile. The line, counted from 1, is the first that can't stand where it
    /// does, or the last line of a text that ends too early.
    #[error("bad line {line}")]
    Syntax { line: u32 },
    /// The text is longer than 16,777,216 bytes.
    #[error("too long")]
    TextLimit { length: usize },
    /// There was no memory for the places of the records.
    #[error("out of memory")]
    NoMemory,
}

impl From<AllocError> for ViewError {
    ghost from_gives = { λ _ e. e ≡ errors.NoMemory };

    fn from(_: AllocError) -> ViewError {
        ViewError::NoMemory
    }
}

impl<T: Drop> From<AllocFailed<T>> for ViewError {
    ghost from_gives = { λ _ e. e ≡ errors.NoMemory };

    fn from(_: AllocFailed<T>) -> ViewError {
        ViewError::NoMemory
    }
}
