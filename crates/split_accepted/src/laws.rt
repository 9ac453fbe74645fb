// What stays of the rules and limits, the clauses of functions that do nothing.
ghost use Rattle.split_accepted.specs.Accepted.{ReorderedIsAccepted, ReorderedIsFormed, SplitIsAccepted, SplitIsFormed};

use counted_rules::{
    functions_grow_little, functions_stay_formed, limits_are_kept, names_are_plain,
    reordered_are_as_large,
};

/// A plain module stays well formed, plain, and accepted when the blocks of a function behind the first stand in another order.
pub fn reordered_is_accepted()
    ensures formed { ReorderedIsFormed }
    ensures accepted { ReorderedIsAccepted }
{
    names_are_plain();
    functions_stay_formed();
    limits_are_kept();
    reordered_are_as_large();
}

/// A plain module stays well formed and plain when an edge of a function is split by a new block whose label is a name that stands for
/// nothing in the function, wherever the block stands behind the first; and accepted, where the limits leave room for one edge more.
pub fn split_is_accepted()
    ensures formed { SplitIsFormed }
    ensures accepted { SplitIsAccepted }
{
    names_are_plain();
    functions_stay_formed();
    limits_are_kept();
    functions_grow_little();
    reordered_is_accepted();
}
