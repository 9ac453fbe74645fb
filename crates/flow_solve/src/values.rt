// The value that each edge of the order needs.
ghost use Rattle.std.specs.Prelude.{◌≡◌, ℕ, ◌^◌, ◌<◌, length, slice_index, OnOk, IfOk, IfErr};
ghost use Rattle.flow_solve.specs.Counts.{HasValue, HasNoValue, HaveValues, IsMisfit};
ghost use Rattle.flow_solve.specs.Nets as spec;
ghost use Rattle.flow_solve.specs.Nets.{at, IsBounded};

use crate::SolveError;
use ir_tree::Edge;

// Writes over the ends what each edge of the order needs, and 0 for the others.
pub(crate) fn write_values(
    edges: &[Edge],
    nets: &[i128],
    counts: &mut [u64],
) -> Result<(), SolveError>
    requires places { length counts.old ≡ length edges.now }
    requires ends { (k : ℕ) → slice_index counts.old k < length nets.now }
    requires bounded { (v : ℕ) → IsBounded (2 ^ 98) (at nets.now v) }
    requires few { length edges.now < 4294967296 }
    ensures ok { OnOk result (HaveValues edges.now counts.old nets.now counts.new) }
    ensures misfit { IfErr result (IsMisfit edges.now counts.old nets.now) }
{
    for (k, edge) in edges.iter().enumerate() {
        counts[k] = value(k as u32, edge, counts[k], nets)?;
    }
    Ok(())
}

fn value(number: u32, edge: &Edge, end: u64, nets: &[i128]) -> Result<u64, SolveError>
    requires end { end < length nets.now }
    requires bounded { (v : ℕ) → IsBounded (2 ^ 98) (at nets.now v) }
    ensures ok { IfOk result (HasValue edge.now end nets.now) }
    ensures misfit { IfErr result (HasNoValue number edge.now end nets.now) }
{
    if end == 0 {
        return Ok(0);
    }
    let value = needed(edge, end, nets);
    if value < 0 || value > 18446744073709551615 {
        return Err(SolveError::Inconsistent {
            edge: number,
            value,
        });
    }
    Ok(value as u64)
}

fn needed(edge: &Edge, end: u64, nets: &[i128]) -> i128
    requires end { end < length nets.now }
    requires bounded { (v : ℕ) → IsBounded (2 ^ 98) (at nets.now v) }
    ensures { result ≡ spec.needed edge.now end nets.now }
{
    let net = nets[end as usize];
    if u64::from(edge.to) == end { -net } else { net }
}
