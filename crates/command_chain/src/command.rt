// The words of the command.
ghost use Rattle.std.specs.Prelude.{◌≤◌};

/// The command `chain`: the files of a module and of its calls, and the steps that each call is given, at most 2^40.
#[derive(Drop)]
pub struct Chain {
    pub module: String,
    pub calls: String,
    pub steps: u64,
    pub ghost few: { steps ≤ 1_099_511_627_776 },
}
