// How many counters a function gets, the clause of a function that does nothing.
ghost use Rattle.counted_accepted.specs.Few.{CountersFit};

use cfg_edges::graphs_stand;

/// A function that has a graph gets at most as many counters as the limit counts for it, one for each edge and each select, and has at
/// most as many sites as calls through a register.
pub fn counters_fit()
    ensures { CountersFit }
{
    graphs_stand();
}
