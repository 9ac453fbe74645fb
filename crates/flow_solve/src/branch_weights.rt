// Branch weights from counts.
ghost use Rattle.std.specs.Prelude.{◌≡◌, ◌<◌, ◌+◌, ◌/◌, ◌^◌, map, length, max, fold};
ghost use Rattle.flow_solve.specs.Weights.{greatest, scale_of, weights_of};

/// Scales counts down to branch weights of 32 bits, all by one number: 1 where the greatest count is
/// below 2^32 - 1, else the greatest count / (2^32 - 1) + 1. Quotients are rounded down (LLVM
/// Language Reference, "branch_weights"; LLVM's `calculateCountScale` and `scaleBranchCount`). Takes
/// no memory.
pub fn weights(counts: &[u64], out: &mut [u32])
    requires { length out.old ≡ length counts.now }
    ensures { out.new ≡ weights_of counts.now }
{
    let scale = scale(counts);
    for (k, count) in counts.iter().enumerate() {
        out[k] = (*count / scale) as u32;
    }
}

fn scale(counts: &[u64]) -> u64
    ensures { result ≡ scale_of counts.now }
{
    let mut most = 0;
    for count in counts {
        most = most.max(*count);
    }
    if most < 4294967295 {
        1
    } else {
        most / 4294967295 + 1
    }
}
