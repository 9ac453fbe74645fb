// Calls on several workers, and what they counted.
ghost use Rattle.std.specs.Prelude.{◌≡◌, ◌<◌, ◌≤◌, ◌%◌, ◌^◌, ℕ, length, slice_index, slice_index_or, IfOk};
ghost use Rattle.ir_model.specs.Run.{IsValidCallList};
ghost use Rattle.run_workers.specs.Calls.{results_of};
ghost use Rattle.run_profile.specs.Ran.{AreCounted, AreNoted};
ghost use Rattle.value_rows.specs.Row.{IsExact, keys_asked, no_row};

use counter_table::{CountSeat, CounterTable};
use few_marks::marks_are_few;
use ir_machine::Code;
use ir_model::{Call, CallResult};
use pgo_base::{Gate, NoMemory};
use run_workers::run_calls;
use std::alloc::Global;
use std::thread::Threads;
use ticket_draw::TicketDraw;
use value_rows::{Row, RowSeat, ValueRows};

/// What calls came to: the result of each in order, the closed counters, and the closed row of each site.
#[derive(Drop)]
pub struct RunCounts {
    pub results: Vec<CallResult>,
    pub counters: Vec<u64>,
    pub rows: Vec<Row>,
}

/// Runs the calls on so many workers over shared counters and rows of so many places, each call for at most `steps` steps. The
/// results are those of one call after the other, and what is counted is exact, however the workers run. Only memory can be wanting.
pub fn run_counted<R: Threads + Sync, G: Gate + Sync>(
    rt: &R,
    alloc: Global,
    code: &Code,
    calls: &[Call],
    steps: u64,
    workers: u32,
    places: u32,
    gate: &G,
) -> Result<RunCounts, NoMemory>
    requires workers { (0 < workers) × (workers ≤ 64) }
    requires places { (0 < places) × (places ≤ 24) }
    requires steps { steps ≤ 4_398_046_511_105 }
    requires valid { IsValidCallList code.now calls.now }
    ensures results { IfOk result (λ r. r.results.items ≡ results_of code.now steps calls.now) }
    ensures counters { IfOk result (λ r. AreCounted code.now steps calls.now r.counters.items) }
    ensures rows { IfOk result (λ r. AreNoted code.now steps calls.now places r.rows.items) }
{
    marks_are_few();
    code.has_few_marks();
    let (counters, mut count_seat) = CounterTable::new(alloc, code.counters(), workers)?;
    let (rows, mut row_seat) = ValueRows::new(alloc, code.sites(), places, workers)?;
    let (tickets, mut ticket_seat) = TicketDraw::new(alloc, calls.len() as u32, workers)?;
    let results = run_calls(
        rt,
        alloc,
        code,
        calls,
        steps,
        workers,
        &counters,
        &mut count_seat,
        &rows,
        &mut row_seat,
        &tickets,
        &mut ticket_seat,
        gate,
    )?;
    Ok(RunCounts {
        results,
        counters: closed_counters(alloc, counters, count_seat)?,
        rows: closed_rows(alloc, rows, row_seat)?,
    })
}

// The counters, when all workers are done.
fn closed_counters(
    alloc: Global,
    counters: CounterTable,
    seat: CountSeat,
) -> Result<Vec<u64>, NoMemory>
    requires seat { seat.table ≡ counters.id }
    requires whole { seat.shares ≡ counters.shares }
    ensures count { IfOk result (λ words. length words.items ≡ counters.counters) }
    ensures sums { IfOk result (λ words. (c : ℕ) → c < counters.counters → slice_index words.items c ≡ slice_index seat.sums c % 2 ^ 64) }
{
    match counters.close(alloc, seat) {
        Ok(words) => Ok(words),
        Err((why, _, _)) => Err(why),
    }
}

// The rows, when all workers are done.
fn closed_rows(alloc: Global, rows: ValueRows, seat: RowSeat) -> Result<Vec<Row>, NoMemory>
    requires seat { seat.table ≡ rows.id }
    requires whole { seat.shares ≡ rows.shares }
    ensures count { IfOk result (λ made. length made.items ≡ rows.sites) }
    ensures exact { IfOk result (λ made. (site : ℕ) → site < rows.sites → length (keys_asked site seat.asked) < 2 ^ 64 → IsExact rows.places (keys_asked site seat.asked) (slice_index_or made.items site no_row)) }
{
    match rows.close(alloc, seat) {
        Ok(made) => Ok(made),
        Err((why, _, _)) => Err(why),
    }
}
