// Where a text can't be read on.
ghost use Rattle.std.specs.Prelude.{◌≡◌};
ghost use Rattle.prof_view.specs.declared.fault.Stop.TheVariants as stops;

use std::alloc::AllocFailed;

/// A line that can't stand where it does, or the end of a text that ends too early. `left` is how many
/// bytes stand behind the line.
#[derive(Clone, Copy, Drop)]
pub(crate) struct Fault {
    pub(crate) left: usize,
}

/// Why no records were read.
#[derive(Clone, Copy, Drop)]
pub(crate) enum Stop {
    Syntax { left: usize },
    NoMemory,
}

impl From<Fault> for Stop {
    ghost from_gives = { λ fault e. e ≡ stops.Syntax fault.left };

    fn from(fault: Fault) -> Stop {
        Stop::Syntax { left: fault.left }
    }
}

impl<T: Drop> From<AllocFailed<T>> for Stop {
    ghost from_gives = { λ _ e. e ≡ stops.NoMemory };

    fn from(_: AllocFailed<T>) -> Stop {
        Stop::NoMemory
    }
}
