// Answers as turns.
ghost use Rattle.std.specs.Prelude.{◌≡◌, Some, IfOk};
ghost use Rattle.ir_machine.specs.Turns as turns;

use crate::state::{Answer, Machine, Sight, Turn};
use pgo_base::NoMemory;

/// The turn that an answer stands for.
#[inline(always)]
pub fn turn_of(machine: &Machine, answer: Answer) -> Result<Turn, NoMemory>
    ensures { IfOk result (λ turn. turns.turn_of machine.now answer ≡ Some turn) }
{
    match answer {
        Answer::Goes => Ok(Turn::Goes),
        Answer::Enters => Ok(Turn::Sees(Sight::Entered {
            function: machine.top.function,
        })),
        Answer::Fails(kind) => Ok(Turn::Traps(kind)),
        Answer::NoMemory => Err(NoMemory),
    }
}
