// What holds of the module that the command writes, the clause of a function that does nothing.
ghost use Rattle.command_lower.specs.Lower.{AreLowered};

use lowered_accepted::lowered_is_accepted;
use lowering::lowering_runs;

/// The lowered form of an accepted module that counts is accepted, where lowering refuses nothing and no limit is passed, and runs as the
/// module does.
pub fn modules_are_lowered()
    ensures { AreLowered }
{
    lowered_is_accepted();
    lowering_runs();
}
