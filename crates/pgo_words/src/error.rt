// Why words give no plan.

use std::alloc::AllocError;

/// Why words give no plan: they name no command with its arguments, or there was no memory.
#[derive(Clone, Copy, Debug, PartialEq, Eq, Drop, thiserror::Error)]
pub enum WordsError {
    #[error("usage: pgo COMMAND ARGUMENTS")]
    Usage,
    #[error("out of memory")]
    NoMemory,
}

impl From<AllocError> for WordsError {
    ghost use Rattle.std.specs.Prelude.{◌≡◌};
    ghost use Rattle.pgo_words.specs.declared.error.WordsError.TheVariants as words;

    ghost from_gives = { λ _ e. e ≡ words.NoMemory };

    fn from(_: AllocError) -> WordsError {
        WordsError::NoMemory
    }
}
