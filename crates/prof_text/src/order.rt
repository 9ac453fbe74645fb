// That the order of the records does not change what they are merged to.
ghost use Rattle.prof_text.specs.Order.{Reordered, OneMerge, OneKey, MergedOrNot};

/// A law: records in any order have the same merge, or name the same key that can't be merged.
pub fn any_order()
    ensures reordered { Reordered }
    ensures one_merge { OneMerge }
    ensures one_key { OneKey }
    ensures merged_or_not { MergedOrNot }
{}
