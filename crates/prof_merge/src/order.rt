// That the order of the profiles does not change what they are merged to.
ghost use Rattle.prof_merge.specs.Order.{OneMergeOfInputs, OneKeyOfInputs, ModesDiffer};

use prof_text::any_order;

/// A law: profiles in any order have the same merge, name the same key that can't be merged, or differ in mode.
pub fn any_inputs()
    ensures one_merge { OneMergeOfInputs }
    ensures one_key { OneKeyOfInputs }
    ensures modes_differ { ModesDiffer }
{
    any_order();
}
