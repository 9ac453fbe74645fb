// How the program ends.
ghost use Rattle.std.specs.Prelude.{◌≡◌};
ghost use Rattle.pgo_shell.specs.Status.{number_of};

/// The status that the program ends with.
#[derive(Clone, Copy, Debug, PartialEq, Eq, Drop)]
pub enum Status {
    /// The command did all that it is to do.
    Done = 0,
    /// The words name no command with its arguments.
    Words = 1,
    /// A text that was read is refused.
    Refused = 2,
    /// A call did not return.
    NotReturned = 3,
    /// A call on a file or on the output failed.
    Outside = 4,
    /// There was no memory.
    Memory = 5,
}

impl Status {
    /// The number that the process ends with.
    pub fn number(self) -> u8
        ensures { result ≡ number_of self }
    {
        self as u8
    }
}
