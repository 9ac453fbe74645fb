// What holds of every plan, the clause of a function that does nothing.
ghost use Rattle.count_plan.specs.Stays.{BlocksStay};

/// A block into which a plan puts nothing, and to which no new block leads, stays as it is.
pub fn blocks_stay()
    ensures { BlocksStay }
{}
