// Why a module is refused.
ghost use Rattle.std.specs.Prelude.{◌≡◌};
ghost use Rattle.ir_check.specs.declared.errors.CheckError.TheVariants as error;

use ir_rules::{LimitKind, Place};
use ir_tree::Module;
use pgo_base::NoMemory;
use thiserror::Error;

/// Why a module is refused: a quantity above its limit, with the counted quantity or
/// 18446744073709551615 where it is greater; a rule with the first place that breaks it; or want of memory.
#[derive(Clone, Copy, Debug, PartialEq, Eq, Drop, Error)]
pub enum CheckError {
    #[error("limit {which:?} {found}")]
    Limit { which: LimitKind, found: u64 },
    #[error("rule {rule}")]
    Broken { rule: u8, place: Place },
    #[error("out of memory")]
    NoMemory,
}

impl From<NoMemory> for CheckError {
    ghost from_gives = { λ _ e. e ≡ error.NoMemory };

    fn from(_: NoMemory) -> CheckError {
        CheckError::NoMemory
    }
}

/// A refused module, handed back with the reason.
#[derive(Debug, Drop, Error)]
#[error("{why}")]
pub struct Refused {
    pub why: CheckError,
    pub module: Module,
}
