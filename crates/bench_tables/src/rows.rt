// Notes at one site, of three keys in turn.
ghost use Rattle.std.specs.Prelude.{◌≡◌, ◌<◌, ◌≤◌};

use crate::measure::report;
use anyhow::{Result, bail};
use std::rt::Clock;
use std::thread;
use std::thread::Threads;
use std::time::Instant;
use value_rows::{Row, RowSeat, ValueRows};

const PLACES: u32 = 8;

fn note_alone(table: &ValueRows, mut seat: RowSeat, rounds: u32) -> RowSeat
    requires seat { seat.table ≡ table.now.id }
    requires site { 0 < table.now.sites }
    ensures { (result.table ≡ seat.table) × (result.shares ≡ seat.shares) }
{
    'rounds: for round in 0..rounds {
        table.note(&mut seat, 0, u64::from(round % 3) + 1);
    }
    seat
}

fn note_by_two<R: Threads>(
    rt: &R,
    table: &ValueRows,
    mut seat: RowSeat,
    half: u32,
    rounds: u32,
) -> RowSeat
    requires seat { seat.table ≡ table.now.id }
    requires half { (0 < half) × (half < seat.shares) }
    requires site { 0 < table.now.sites }
    ensures { (result.table ≡ seat.table) × (result.shares ≡ seat.shares) }
{
    let other = table.split(&mut seat, half);
    let (mut seat, other) = thread::join(
        rt,
        move ||
            requires { (seat.table ≡ table.now.id) × (0 < table.now.sites) }
            ensures { (result.table ≡ seat.table) × (result.shares ≡ seat.shares) }
        { note_alone(table, seat, rounds) },
        move ||
            requires { (other.table ≡ table.now.id) × (0 < table.now.sites) }
            ensures { (result.table ≡ other.table) × (result.shares ≡ other.shares) }
        { note_alone(table, other, rounds) },
    );
    table.join(&mut seat, other);
    seat
}

fn note_by_four<R: Threads + Sync>(
    rt: &R,
    table: &ValueRows,
    mut seat: RowSeat,
    rounds: u32,
) -> RowSeat
    requires seat { seat.table ≡ table.now.id }
    requires shares { seat.shares ≡ 4 }
    requires site { 0 < table.now.sites }
    ensures { (result.table ≡ seat.table) × (result.shares ≡ seat.shares) }
{
    let other = table.split(&mut seat, 2);
    let (mut seat, other) = thread::join(
        rt,
        move ||
            requires { (seat.table ≡ table.now.id) × (seat.shares ≡ 2) × (0 < table.now.sites) }
            ensures { (result.table ≡ seat.table) × (result.shares ≡ seat.shares) }
        { note_by_two(rt, table, seat, 1, rounds) },
        move ||
            requires { (other.table ≡ table.now.id) × (other.shares ≡ 2) × (0 < table.now.sites) }
            ensures { (result.table ≡ other.table) × (result.shares ≡ other.shares) }
        { note_by_two(rt, table, other, 1, rounds) },
    );
    table.join(&mut seat, other);
    seat
}

fn note_by<R: Threads + Sync>(
    rt: &R,
    table: &ValueRows,
    seat: RowSeat,
    workers: u32,
    rounds: u32,
) -> RowSeat
    requires seat { seat.table ≡ table.now.id }
    requires shares { seat.shares ≡ 4 }
    requires site { 0 < table.now.sites }
    ensures { (result.table ≡ seat.table) × (result.shares ≡ seat.shares) }
{
    match workers {
        1 => note_alone(table, seat, rounds),
        2 => note_by_two(rt, table, seat, 2, rounds),
        _ => note_by_four(rt, table, seat, rounds),
    }
}

// How often a key was asked for, of those that the row keeps.
fn count_of(row: &Row, key: u64) -> u64 {
    let kept = row.kept.as_slice();
    kept.iter().find(|e| e.0 == key).map_or(0, |e| e.1)
}

/// Each worker notes one of three keys `rounds` times. Prints the row of the site, which has the
/// same keys whatever the schedule, though not their order.
pub fn run<R: Threads + Sync + Clock + Print + Eprint + AllocGlobal>(
    rt: &R,
    workers: u32,
    rounds: u32,
    measured: bool,
) -> Result<()> {
    let Ok((table, seat)) = ValueRows::new(rt.alloc(), 1, PLACES, 4) else {
        bail!("out of memory");
    };
    let start = Instant::now(rt)?;
    let seat = note_by(rt, &table, seat, workers, rounds);
    let took = start.elapsed(rt)?;
    let Ok(rows) = table.close(rt.alloc(), seat) else {
        bail!("out of memory");
    };
    for row in rows.as_slice() {
        let counts = [count_of(row, 1), count_of(row, 2), count_of(row, 3)];
        let dropped = row.dropped;
        println!(rt; "rows: workers {workers} counts {counts:?} dropped {dropped}")?;
    }
    if measured {
        report(rt, "value rows", workers, false, rounds, took)?;
    }
    Ok(())
}
