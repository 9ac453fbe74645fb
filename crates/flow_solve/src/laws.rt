// The law of flows, the clause of a function that does nothing.
ghost use Rattle.std.specs.Prelude.{ℕ, List};
ghost use Rattle.ir_tree.specs.declared.edge.Edge.{Edge};
ghost use Rattle.flow_solve.specs.Solved.{HaveOneFlow};

/// For every spanning order of a graph and every list of counters there is one flow that has these
/// counters on the edges outside the order. So the counts that `solve` gives are the only ones, and
/// counts that are a flow come back from the counters of the counted edges alone.
pub fn counters_have_one_flow()
    ensures { (edges : List Edge) (nodes : ℕ) (order counted counters : List ℕ) → HaveOneFlow edges nodes order counted counters }
{}
