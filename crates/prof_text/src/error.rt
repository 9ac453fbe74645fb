// Why profiles are not merged.
ghost use Rattle.std.specs.Prelude.{◌≡◌};
ghost use Rattle.prof_text.specs.declared.error.MergeError.TheVariants as errors;

use pgo_base::NoMemory;
use seq::Seq;
use std::alloc::{AllocError, AllocFailed};
use thiserror::Error;

/// Why profiles, or records, can't be merged. The least key (name bytes, then hash) whose records differ is named, and its
/// counters are compared before its sites. `first` is the number of that key's first record, `other` that of its first
/// record that differs.
#[derive(Debug, Drop, Error)]
pub enum MergeError {
    /// Two records of one name and hash have other numbers of counters.
    #[error("{first} and {other} counters")]
    CounterMismatch {
        name: Seq<u8>,
        hash: u64,
        first: u32,
        other: u32,
    },
    /// Two records of one name and hash have other numbers of sites.
    #[error("{first} and {other} sites")]
    SiteMismatch {
        name: Seq<u8>,
        hash: u64,
        first: u32,
        other: u32,
    },
    /// The profile number `input`, counted from 0, is the first whose mode is not that of the first one.
    #[error("input {input} differs in entry_first")]
    HeaderMismatch {
        input: u32,
        first: bool,
        other: bool,
    },
    /// There was no memory.
    #[error("out of memory")]
    NoMemory,
}

impl From<AllocError> for MergeError {
    ghost from_gives = { λ _ e. e ≡ errors.NoMemory };

    fn from(_: AllocError) -> MergeError {
        MergeError::NoMemory
    }
}

impl<T: Drop> From<AllocFailed<T>> for MergeError {
    ghost from_gives = { λ _ e. e ≡ errors.NoMemory };

    fn from(_: AllocFailed<T>) -> MergeError {
        MergeError::NoMemory
    }
}

impl From<NoMemory> for MergeError {
    ghost from_gives = { λ _ e. e ≡ errors.NoMemory };

    fn from(_: NoMemory) -> MergeError {
        MergeError::NoMemory
    }
}
