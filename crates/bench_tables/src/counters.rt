// Additions to one shared counter, and to counters apart.
ghost use Rattle.std.specs.Prelude.{◌≡◌, ◌<◌, ◌≤◌};

use crate::measure::report;
use crate::plain;
use anyhow::{Result, bail};
use counter_table::{CountSeat, CounterTable};
use std::rt::Clock;
use std::thread;
use std::thread::Threads;
use std::time::Instant;

// Counters that stand apart are 16 words, and so two cache lines, from one another.
const APART: u32 = 16;

const COUNTERS: u32 = 64;

// The counter of each worker.
fn indices(apart: bool) -> [u32; 4] {
    if apart {
        [0, APART, 2 * APART, 3 * APART]
    } else {
        [0; 4]
    }
}

fn add_alone(table: &CounterTable, mut seat: CountSeat, index: u32, rounds: u32) -> CountSeat
    requires seat { seat.table ≡ table.now.id }
    requires index { index < table.now.counters }
    ensures { (result.table ≡ seat.table) × (result.shares ≡ seat.shares) }
{
    'rounds: for _round in 0..rounds {
        table.add(&mut seat, index, 1);
    }
    seat
}

fn add_by_two<R: Threads>(
    rt: &R,
    table: &CounterTable,
    mut seat: CountSeat,
    half: u32,
    one: u32,
    two: u32,
    rounds: u32,
) -> CountSeat
    requires seat { seat.table ≡ table.now.id }
    requires half { (0 < half) × (half < seat.shares) }
    requires indices { (one < table.now.counters) × (two < table.now.counters) }
    ensures { (result.table ≡ seat.table) × (result.shares ≡ seat.shares) }
{
    let other = table.split(&mut seat, half);
    let (mut seat, other) = thread::join(
        rt,
        move ||
            requires { (seat.table ≡ table.now.id) × (one < table.now.counters) }
            ensures { (result.table ≡ seat.table) × (result.shares ≡ seat.shares) }
        { add_alone(table, seat, one, rounds) },
        move ||
            requires { (other.table ≡ table.now.id) × (two < table.now.counters) }
            ensures { (result.table ≡ other.table) × (result.shares ≡ other.shares) }
        { add_alone(table, other, two, rounds) },
    );
    table.join(&mut seat, other);
    seat
}

fn add_by_four<R: Threads + Sync>(
    rt: &R,
    table: &CounterTable,
    mut seat: CountSeat,
    at: [u32; 4],
    rounds: u32,
) -> CountSeat
    requires seat { seat.table ≡ table.now.id }
    requires shares { seat.shares ≡ 4 }
    requires counters { table.now.counters ≡ COUNTERS }
    ensures { (result.table ≡ seat.table) × (result.shares ≡ seat.shares) }
{
    let other = table.split(&mut seat, 2);
    let (one, two) = (at[0] % COUNTERS, at[1] % COUNTERS);
    let (three, four) = (at[2] % COUNTERS, at[3] % COUNTERS);
    let (mut seat, other) = thread::join(
        rt,
        move ||
            requires { (seat.table ≡ table.now.id) × (seat.shares ≡ 2) × (one < table.now.counters) × (two < table.now.counters) }
            ensures { (result.table ≡ seat.table) × (result.shares ≡ seat.shares) }
        { add_by_two(rt, table, seat, 1, one, two, rounds) },
        move ||
            requires { (other.table ≡ table.now.id) × (other.shares ≡ 2) × (three < table.now.counters) × (four < table.now.counters) }
            ensures { (result.table ≡ other.table) × (result.shares ≡ other.shares) }
        { add_by_two(rt, table, other, 1, three, four, rounds) },
    );
    table.join(&mut seat, other);
    seat
}

fn add_by<R: Threads + Sync>(
    rt: &R,
    table: &CounterTable,
    seat: CountSeat,
    workers: u32,
    at: [u32; 4],
    rounds: u32,
) -> CountSeat
    requires seat { seat.table ≡ table.now.id }
    requires shares { seat.shares ≡ 4 }
    requires counters { table.now.counters ≡ COUNTERS }
    ensures { (result.table ≡ seat.table) × (result.shares ≡ seat.shares) }
{
    let (one, two) = (at[0] % COUNTERS, at[1] % COUNTERS);
    match workers {
        1 => add_alone(table, seat, one, rounds),
        2 => add_by_two(rt, table, seat, 2, one, two, rounds),
        _ => add_by_four(rt, table, seat, at, rounds),
    }
}

/// Each worker adds 1 to its counter `rounds` times. Prints what the counters then hold.
pub fn run<R: Threads + Sync + Clock + Print + Eprint + AllocGlobal>(
    rt: &R,
    workers: u32,
    apart: bool,
    rounds: u32,
    measured: bool,
) -> Result<()> {
    let Ok((table, seat)) = CounterTable::new(rt.alloc(), COUNTERS, 4) else {
        bail!("out of memory");
    };
    let at = indices(apart);
    let start = Instant::now(rt)?;
    let seat = add_by(rt, &table, seat, workers, at, rounds);
    let took = start.elapsed(rt)?;
    let Ok(words) = table.close(rt.alloc(), seat) else {
        bail!("out of memory");
    };
    let total = words.iter().fold(0u64, |sum, word| sum.wrapping_add(*word));
    let first = words.first().copied().unwrap_or(0);
    println!(rt; "counters: workers {workers} apart {apart} first {first} total {total}")?;
    if measured {
        report(rt, "counter table", workers, apart, rounds, took)?;
        plain::run(rt, workers, apart, at, rounds)?;
    }
    Ok(())
}
