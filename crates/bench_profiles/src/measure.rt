use anyhow::Result;
use std::rt::Clock;
use std::time::Instant;

/// Says how long the work up to here took, where that is measured.
pub fn lap<R: Clock + Eprint>(rt: &R, measured: bool, work: &str, clock: &Instant) -> Result<()> {
    let took = clock.elapsed(rt)?;
    if measured {
        let milliseconds = took.as_millis();
        eprintln!(rt; "{work}: {milliseconds} ms")?;
    }
    Ok(())
}
