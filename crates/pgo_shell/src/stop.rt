// Why a command stops before its end.
ghost use Rattle.std.specs.Prelude.{◌≡◌};

use std::alloc::{AllocError, AllocFailed};

/// Why a command stops before it has done all that it is to do. Files are named by their place in the command's lists.
#[derive(Debug, Drop)]
pub enum Stop {
    /// A text is refused, with a line that says why.
    Refused { line: Vec<u8> },
    /// The work came to a halt that is no fault, with a line that says where.
    Halted { line: Vec<u8> },
    /// A file that the command reads could not be read.
    Read { index: usize },
    /// The output failed.
    Output,
    /// A file that the command writes could not be written.
    Write { index: usize },
    /// There was no memory.
    NoMemory,
}

impl From<AllocError> for Stop {
    ghost use Rattle.pgo_shell.specs.declared.stop.Stop.TheVariants as stop;

    ghost from_gives = { λ _ e. e ≡ stop.NoMemory };

    fn from(_: AllocError) -> Stop {
        Stop::NoMemory
    }
}

impl<T: Drop> From<AllocFailed<T>> for Stop {
    ghost use Rattle.pgo_shell.specs.declared.stop.Stop.TheVariants as stop;

    ghost from_gives = { λ _ e. e ≡ stop.NoMemory };

    fn from(_: AllocFailed<T>) -> Stop {
        Stop::NoMemory
    }
}
