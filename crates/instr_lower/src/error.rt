// Why a module is not lowered.
ghost use Rattle.std.specs.Prelude.{◌≡◌};
ghost use Rattle.instr_lower.specs.declared.error.LowerError.TheVariants as error;

use ir_check::{Kind, LimitKind};
use ir_tree::Seq;
use pgo_base::NoMemory;
use thiserror::Error;

/// Why a module is not lowered. A unit is named by the name that its global holds.
#[derive(Debug, Drop, Error)]
pub enum LowerError {
    /// The module is not one that counts by intrinsics.
    #[error("wrong kind {found:?}")]
    WrongKind {
        found: Kind,
    },
    /// A call has another hash than the first call that names the unit.
    #[error("hash {first} differs from {other}")]
    HashDiffers {
        name: Seq<u8>,
        first: u64,
        other: u64,
    },
    /// An increment has another number of counters than the first increment that names the unit.
    #[error("{first} and {other} counters")]
    CountDiffers {
        name: Seq<u8>,
        first: u32,
        other: u32,
    },
    /// An increment is of a counter past the last one.
    #[error("index {index} of {count}")]
    IndexPast {
        name: Seq<u8>,
        index: u32,
        count: u32,
    },
    /// Value notes alone name the unit.
    #[error("no increment")]
    NoIncrement {
        name: Seq<u8>,
    },
    /// The lowered module passes a limit.
    #[error("limit {which:?} {found}")]
    Limit {
        which: LimitKind,
        found: u64,
    },
    /// There was no memory.
    #[error("out of memory")]
    NoMemory,
}

impl From<NoMemory> for LowerError {
    ghost from_gives = { λ _ e. e ≡ error.NoMemory };

    fn from(_: NoMemory) -> LowerError {
        LowerError::NoMemory
    }
}
