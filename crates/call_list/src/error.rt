// Why a calls text is refused.
ghost use Rattle.call_list.specs.declared.error.CallsError.TheVariants as errors;
ghost use Rattle.std.specs.Prelude.{◌≡◌};

use pgo_base::NoMemory;
use std::alloc::AllocError;
use thiserror::Error;

/// Why a calls text gives no calls. Lines are counted from 1, and of several lines that are refused
/// the first one is named.
#[derive(Clone, Copy, Debug, PartialEq, Eq, Drop, Error)]
pub enum CallsError {
    /// The line is neither passed over nor of the form of a call.
    #[error("bad line {line}")]
    BadLine { line: u32 },
    /// The line has the form of a call, and no defined function has its name.
    #[error("no function in line {line}")]
    NoFunction { line: u32 },
    /// The function is defined, and the arguments are not as many as its parameters, a parameter is
    /// no integer, or an argument is outside the range of a literal of its type.
    #[error("bad arguments in line {line}")]
    BadArgs { line: u32 },
    /// No line is refused, and there are more than 16,384 calls.
    #[error("too many calls")]
    TooMany { found: u32 },
    /// The text is longer than 16,777,216 bytes.
    #[error("too long")]
    TextLimit { length: usize },
    /// There was no memory.
    #[error("out of memory")]
    NoMemory,
}

impl From<AllocError> for CallsError {
    ghost from_gives = { λ _ e. e ≡ errors.NoMemory };

    fn from(_: AllocError) -> CallsError {
        CallsError::NoMemory
    }
}

impl From<NoMemory> for CallsError {
    ghost from_gives = { λ _ e. e ≡ errors.NoMemory };

    fn from(_: NoMemory) -> CallsError {
        CallsError::NoMemory
    }
}
