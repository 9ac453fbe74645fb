use anyhow::Result;
use std::rt::Clock;
use std::time::Instant;

/// Says how long a part took, where that is measured, and starts the clock anew.
pub fn lap<R: Clock + Eprint>(
    rt: &R,
    measured: bool,
    name: &str,
    part: &str,
    clock: &mut Instant,
) -> Result<()> {
    let took = clock.elapsed(rt)?;
    if measured {
        let milliseconds = took.as_millis();
        eprintln!(rt; "{name} {part}: {milliseconds} ms")?;
    }
    *clock = Instant::now(rt)?;
    Ok(())
}
