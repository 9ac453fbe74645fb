// What holds of the tallies of every accepted module, the clause of a function that does nothing.
ghost use Rattle.tally_names.specs.Apart.{TalliesHaveNames};

/// No name is that of two tallies of an accepted module, so that a profile has one record for each of them. Takes no memory.
pub fn tallies_have_names()
    ensures { TalliesHaveNames }
{}
