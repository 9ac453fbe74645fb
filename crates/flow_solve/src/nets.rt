// What the edges whose values are known bring to each node.
ghost use Rattle.std.specs.Prelude.{◌≡◌, ℕ, ◌+◌, ◌*◌, ◌^◌, ◌<◌, ◌≤◌, ◌+ℤ◌, ◌-ℤ◌, [], ◌∷◌, length, pos, slice_index, FitsSigned, AllPairs, replicate};
ghost use Rattle.std.specs.Int.{w128};
ghost use Rattle.spanning_order.specs.Lists.{Among};
ghost use Rattle.spanning_order.specs.Spanning.{EndsAreNodes};
ghost use Rattle.flow_solve.specs.Ends as spec;
ghost use Rattle.flow_solve.specs.Ends.{JoinsAt};
ghost use Rattle.flow_solve.specs.Nets.{at, paid, paid_outside, pay_all, merged, merge_all, AreWithin, IsBounded};

use ir_tree::Edge;

// Each counted edge outside the order brings its counter to its ends.
pub(crate) fn pay_counters(
    edges: &[Edge],
    counted: &[u32],
    counters: &[u64],
    ends: &[u64],
    nets: &mut [i128],
)
    requires nodes { EndsAreNodes edges.now (length nets.old) }
    requires rising { AllPairs (λ j k. j < k) counted.now }
    requires edges { (k : ℕ) → Among k counted.now → k < length edges.now }
    requires counters { length counters.now ≡ length counted.now }
    requires places { length ends.now ≡ length edges.now }
    requires few { length edges.now < 4294967296 }
    requires none { nets.old ≡ replicate (length nets.old) (pos 0) }
    ensures nets { nets.new ≡ pay_all edges.now ends.now counted.now counters.now nets.old }
    ensures within { AreWithin (2 ^ 98) nets.new }
{
    for (c, number) in counted.iter().enumerate() {
        let k = *number as usize;
        pay_outside(&edges[k], ends[k], counters[c], nets);
    }
}

// An edge without an end that it joins is outside the order.
fn pay_outside(edge: &Edge, end: u64, count: u64, nets: &mut [i128])
    requires from { edge.now.from < length nets.old }
    requires to { edge.now.to < length nets.old }
    requires within { AreWithin (2 ^ 100) nets.old }
    ensures { nets.new ≡ paid_outside edge.now end count nets.old }
{
    if end == 0 {
        pay(edge, count, nets);
    }
}

fn pay(edge: &Edge, count: u64, nets: &mut [i128])
    requires from { edge.now.from < length nets.old }
    requires to { edge.now.to < length nets.old }
    requires within { AreWithin (2 ^ 100) nets.old }
    ensures { nets.new ≡ paid edge.now count nets.old }
{
    take(edge.from, count, nets);
    give(edge.to, count, nets);
}

fn take(node: u32, count: u64, nets: &mut [i128])
    requires node { node < length nets.old }
    requires fits { FitsSigned w128 (at nets.old node -ℤ pos count) }
    ensures { nets.new ≡ spec.with_net nets.old node (at nets.old node -ℤ pos count) }
{
    nets[node as usize] -= i128::from(count);
}

fn give(node: u32, count: u64, nets: &mut [i128])
    requires node { node < length nets.old }
    requires fits { FitsSigned w128 (at nets.old node +ℤ pos count) }
    ensures { nets.new ≡ spec.with_net nets.old node (at nets.old node +ℤ pos count) }
{
    nets[node as usize] += i128::from(count);
}

// From the last edge of the order to the first, the node that the edge joins hands its net on to the
// node that it is joined to.
pub(crate) fn merge_nets(edges: &[Edge], order: &[u32], ends: &[u64], nets: &mut [i128])
    requires nodes { EndsAreNodes edges.now (length nets.old) }
    requires joins { JoinsAt edges.now ends.now (0 ∷ []) order.now }
    requires places { length ends.now ≡ length edges.now }
    requires within { AreWithin (2 ^ 98) nets.old }
    ensures nets { nets.new ≡ merge_all edges.now ends.now order.now nets.old }
    ensures bounded { (v : ℕ) → IsBounded (2 ^ 98) (at nets.new v) }
{
    let mut left = order.len();
    while left > 0 {
        left -= 1;
        let k = order[left] as usize;
        merge(&edges[k], ends[k], nets);
    }
}

fn merge(edge: &Edge, end: u64, nets: &mut [i128])
    requires end { end < length nets.old }
    requires other { spec.other_end edge.now end < length nets.old }
    requires fits { FitsSigned w128 (at nets.old (spec.other_end edge.now end) +ℤ at nets.old end) }
    ensures { nets.new ≡ merged edge.now end nets.old }
{
    let other = other_end(edge, end);
    let net = nets[end as usize];
    nets[other as usize] += net;
}

fn other_end(edge: &Edge, end: u64) -> u64
    ensures { result ≡ spec.other_end edge.now end }
{
    if u64::from(edge.to) == end {
        u64::from(edge.from)
    } else {
        u64::from(edge.to)
    }
}
