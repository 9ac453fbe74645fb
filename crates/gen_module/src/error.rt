// Why a module is not made one that counts.
ghost use Rattle.std.specs.Prelude.{◌≡◌};
ghost use Rattle.gen_module.specs.declared.error.GenError.TheVariants as error;

use ir_check::Kind;
use pgo_base::NoMemory;
use thiserror::Error;

/// Why a module is not made one that counts: it is one already, or a lowered one, by its kind; or there is no memory.
#[derive(Clone, Copy, Debug, PartialEq, Eq, Drop, Error)]
pub enum GenError {
    #[error("wrong kind {found:?}")]
    WrongKind { found: Kind },
    #[error("out of memory")]
    NoMemory,
}

impl From<NoMemory> for GenError {
    ghost from_gives = { λ _ e. e ≡ error.NoMemory };

    fn from(_: NoMemory) -> GenError {
        GenError::NoMemory
    }
}
