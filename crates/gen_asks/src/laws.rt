// What holds of the calls in the module that counts an accepted plain module, the clauses of functions that do nothing.
ghost use Rattle.gen_asks.specs.Asks.{AsksStand, UnitsRise};

use accepted_counts::plain_can_be_counted;
use cfg_edges::graphs_stand;
use cfg_tree::trees_span;
use ir_rules::functions_have_numbers;

/// Each call of an intrinsic asks something of the unit of one defined function: by the hash of this, by the number of its counters,
/// for one of these, or at one of its sites.
pub fn calls_ask_of_units()
    ensures { AsksStand }
{
    functions_have_numbers();
}

/// Each defined function has an increment: a graph has as many edges as nodes, so that a spanning tree leaves one of them, and its
/// counter stands somewhere.
pub fn counters_rise()
    ensures { UnitsRise }
{
    plain_can_be_counted();
    graphs_stand();
    trees_span();
}
