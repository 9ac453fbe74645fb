// What holds of every accepted plain module, the clause of a function that does nothing.
ghost use Rattle.std.specs.Prelude.{◌≡◌, Bool};
ghost use Rattle.gen_code.specs.Planned.{HavePlans};
ghost use Rattle.ir_rules.specs.Accepted.{IsAccepted};
ghost use Rattle.ir_rules.specs.Kinds.{kind_of};
ghost use Rattle.ir_rules.specs.declared.place.Kind.TheVariants.{Plain};
ghost use Rattle.ir_tree.specs.declared.types.Module.{Module};

use accepted_counts::plain_can_be_counted;
use counted_accepted::counters_are_few;

/// Each defined function of an accepted plain module has a plan, in both modes: it has an edge graph, and the limits see to it that
/// counters and names are few enough for numbers of 32 and 64 bits.
pub fn plain_have_plans()
    ensures { (entry_first : Bool) (m : Module) → IsAccepted m → kind_of m.functions ≡ Plain → HavePlans entry_first m }
{
    plain_can_be_counted();
    counters_are_few();
}
