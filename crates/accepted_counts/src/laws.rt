// What holds of every accepted plain module, the clauses of functions that do nothing.
ghost use Rattle.std.specs.Prelude.{◌≡◌, Bool};
ghost use Rattle.count_likeness.specs.Image.{MarksAre};
ghost use Rattle.gen_plan.specs.Countable.{CanCount};
ghost use Rattle.gen_plan.specs.Gen.{counted};
ghost use Rattle.gen_plan.specs.GenImage.{gen_image};
ghost use Rattle.ir_likeness.specs.Like.{AreLike};
ghost use Rattle.ir_rules.specs.Accepted.{IsAccepted};
ghost use Rattle.ir_rules.specs.Kinds.{kind_of};
ghost use Rattle.ir_rules.specs.declared.place.Kind.TheVariants.{Plain};
ghost use Rattle.ir_tree.specs.declared.types.Module.{Module};

use gen_plan::gen_counts;
use ir_rules::{accepted_are_small, functions_have_graphs, functions_have_numbers, look_ups_tell};

/// An accepted plain module can be counted: the rules see to names, targets, entries of phis and operands, and the limits to how many
/// functions and names there are.
pub fn plain_can_be_counted()
    ensures { (m : Module) → IsAccepted m → kind_of m.functions ≡ Plain → CanCount m }
{
    accepted_are_small();
    functions_have_graphs();
    functions_have_numbers();
    look_ups_tell();
}

/// So the module that counts it behaves as it does within four steps for one and one more, and the marks of each call that returns are
/// the log in counters, in both modes.
pub fn plain_modules_count()
    ensures alike { (entry_first : Bool) (m : Module) → IsAccepted m → kind_of m.functions ≡ Plain → AreLike m (counted entry_first m) 4 1 }
    ensures marks { (entry_first : Bool) (m : Module) → IsAccepted m → kind_of m.functions ≡ Plain → MarksAre (gen_image entry_first m) m (counted entry_first m) 4 1 }
{
    gen_counts();
    plain_can_be_counted();
}
