// The node that each edge of a spanning order joins.
ghost use Rattle.std.specs.Prelude.{◌≡◌, ◌≢◌, ℕ, ◌<◌, [], ◌∷◌, length, pos, slice_index, slice_set, replicate};
ghost use Rattle.spanning_order.specs.Lists.{Among};
ghost use Rattle.spanning_order.specs.Spanning.{Grows, EndsAreNodes};
ghost use Rattle.flow_solve.specs.Ends.{JoinsAt, IsNewEnd};

use ir_tree::Edge;

// Writes to each edge of the order the node that it joins, and 0 to the others. `marks` has the memory
// to mark the nodes.
pub(crate) fn find_ends(edges: &[Edge], order: &[u32], marks: &mut [i128], ends: &mut [u64])
    requires nodes { EndsAreNodes edges.now (length marks.old) }
    requires order { Grows edges.now 0 (0 ∷ []) order.now }
    requires places { length ends.old ≡ length edges.now }
    requires some { 0 < length marks.old }
    ensures joins { JoinsAt edges.now ends.new (0 ∷ []) order.now }
    ensures others { (k : ℕ) → slice_index ends.new k ≢ 0 → Among k order.now }
{
    marks.fill(0);
    marks[0] = 1;
    ends.fill(0);
    join(edges, order, marks, ends);
}

// Goes through the order, and marks the node that each edge joins.
fn join(edges: &[Edge], order: &[u32], marks: &mut [i128], ends: &mut [u64])
    requires nodes { EndsAreNodes edges.now (length marks.old) }
    requires order { Grows edges.now 0 (0 ∷ []) order.now }
    requires places { length ends.old ≡ length edges.now }
    requires none { ends.old ≡ replicate (length ends.old) 0 }
    requires some { 0 < length marks.old }
    requires marks { marks.old ≡ slice_set (replicate (length marks.old) (pos 0)) 0 (pos 1) }
    ensures joins { JoinsAt edges.now ends.new (0 ∷ []) order.now }
    ensures others { (k : ℕ) → slice_index ends.new k ≢ 0 → Among k order.now }
{
    for number in order {
        let k = *number as usize;
        let new = new_end(&edges[k], marks);
        marks[new as usize] = 1;
        ends[k] = u64::from(new);
    }
}

// The end of an edge that has no mark yet, where one of them has none.
fn new_end(edge: &Edge, marks: &[i128]) -> u32
    requires { edge.now.to < length marks.now }
    ensures { IsNewEnd edge.now marks.now result }
{
    if marks[edge.to as usize] == 0 {
        edge.to
    } else {
        edge.from
    }
}
