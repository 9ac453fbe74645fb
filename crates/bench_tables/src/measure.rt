use std::io;
use std::time::Duration;

/// Reports how many steps a second the workers made together.
pub fn report(
    rt: &impl Eprint,
    kind: &str,
    workers: u32,
    apart: bool,
    rounds: u32,
    took: Duration,
) -> io::Result<()> {
    let steps = u128::from(workers) * u128::from(rounds);
    let rate = steps.saturating_mul(1_000_000_000) / took.as_nanos().max(1);
    eprintln!(rt; "{kind}: workers {workers} apart {apart}: {rate} steps a second")
}
