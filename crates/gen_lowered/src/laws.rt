// What holds of the lowered form of the module that counts an accepted plain module, the clauses of a function that does nothing.
ghost use Rattle.gen_lowered.specs.GenLowered.{IsLoweredCounted, NoLimitPassed, NothingRefused};

use accepted_counts::plain_can_be_counted;
use counted_accepted::{counters_fit, gen_is_accepted};
use counted_rules::{limits_are_kept, names_are_plain};
use gen_asks::{calls_ask_of_units, counters_rise};
use lowered_accepted::lowered_is_accepted;
use lowered_rules::functions_stay_small;

/// Lowering refuses nothing in the module that counts an accepted plain module, and the lowered module passes no limit, so it is
/// accepted, in both modes.
pub fn gen_is_lowered()
    ensures refused { NothingRefused }
    ensures within { NoLimitPassed }
    ensures accepted { IsLoweredCounted }
{
    gen_is_accepted();
    calls_ask_of_units();
    counters_rise();
    counters_fit();
    plain_can_be_counted();
    functions_stay_small();
    limits_are_kept();
    names_are_plain();
    lowered_is_accepted();
}
