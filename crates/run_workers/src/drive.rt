// Several workers: half of them beside the other half, down to one.
ghost use Rattle.std.specs.Prelude.{◌≡◌, ◌++◌, IfOk, IsOkAnd, OnErr};
ghost use Rattle.std.specs.Thread.{IsSync};
ghost use Rattle.run_workers.specs.Workers.{CanRun, Finished, Stopped, seats, tables};

use crate::work::work;
use counter_table::{CountSeat, CounterTable};
use ir_machine::Code;
use ir_model::{Call, CallResult};
use pgo_base::{Gate, NoMemory};
use std::alloc::Global;
use std::thread::{Threads, join_mut};
use ticket_draw::{TicketDraw, TicketSeat};
use value_rows::{RowSeat, ValueRows};

/// What a worker's calls came to: the number and the result of each, or that memory ran out.
type Done = Result<Vec<(u32, CallResult)>, NoMemory>;

/// The results of both halves, one list behind the other.
fn appended(done: Done, others: Done) -> Done
    ensures { IfOk result (λ all. IsOkAnd done (λ first. IsOkAnd others (λ second. all.items ≡ first.items ++ second.items))) }
{
    let (mut done, mut others) = (done?, others?);
    done.append(&mut others)?;
    Ok(done)
}

/// Runs the calls that are left on so many workers.
#[cycle(halves)]
pub(crate) fn drive<R: Threads + Sync, G: Gate + Sync>(
    rt: &R,
    alloc: Global,
    code: &Code,
    calls: &[Call],
    steps: u64,
    workers: u32,
    counters: &CounterTable,
    count_seat: &mut CountSeat,
    rows: &ValueRows,
    row_seat: &mut RowSeat,
    tickets: &TicketDraw,
    ticket_seat: &mut TicketSeat,
    gate: &G,
) -> Result<Vec<(u32, CallResult)>, NoMemory>
    requires { CanRun code.now calls.now (tables counters.now rows.now tickets.now) workers (seats count_seat.old row_seat.old ticket_seat.old) }
    ensures done { IfOk result (λ done. Finished code.now steps calls.now tickets.now.shares done.items (seats count_seat.old row_seat.old ticket_seat.old) (seats count_seat.new row_seat.new ticket_seat.new)) }
    ensures stopped { OnErr result (Stopped code.now steps calls.now (seats count_seat.old row_seat.old ticket_seat.old) (seats count_seat.new row_seat.new ticket_seat.new)) }
{
    if workers == 1 {
        return work(
            alloc,
            code,
            calls,
            steps,
            counters,
            count_seat,
            rows,
            row_seat,
            tickets,
            ticket_seat,
            gate,
        );
    }
    let second = workers / 2;
    let mut other_counts = counters.split(count_seat, second);
    let mut other_rows = rows.split(row_seat, second);
    let mut other_tickets = tickets.split(ticket_seat, second);
    let (done, others) = both_halves(
        rt,
        alloc,
        code,
        calls,
        steps,
        counters,
        rows,
        tickets,
        gate,
        workers - second,
        count_seat,
        row_seat,
        ticket_seat,
        second,
        &mut other_counts,
        &mut other_rows,
        &mut other_tickets,
    );
    counters.join(count_seat, other_counts);
    rows.join(row_seat, other_rows);
    tickets.join(ticket_seat, other_tickets);
    appended(done, others)
}

/// Two halves of the workers, side by side, each with seats of its own.
#[cycle(halves)]
fn both_halves<R: Threads + Sync, G: Gate + Sync>(
    rt: &R,
    alloc: Global,
    code: &Code,
    calls: &[Call],
    steps: u64,
    counters: &CounterTable,
    rows: &ValueRows,
    tickets: &TicketDraw,
    gate: &G,
    first: u32,
    count_seat: &mut CountSeat,
    row_seat: &mut RowSeat,
    ticket_seat: &mut TicketSeat,
    second: u32,
    other_counts: &mut CountSeat,
    other_rows: &mut RowSeat,
    other_tickets: &mut TicketSeat,
) -> (Done, Done)
    requires first { CanRun code.now calls.now (tables counters.now rows.now tickets.now) first (seats count_seat.old row_seat.old ticket_seat.old) }
    requires second { CanRun code.now calls.now (tables counters.now rows.now tickets.now) second (seats other_counts.old other_rows.old other_tickets.old) }
    ensures first_done { IfOk result.0 (λ done. Finished code.now steps calls.now tickets.now.shares done.items (seats count_seat.old row_seat.old ticket_seat.old) (seats count_seat.new row_seat.new ticket_seat.new)) }
    ensures first_stopped { OnErr result.0 (Stopped code.now steps calls.now (seats count_seat.old row_seat.old ticket_seat.old) (seats count_seat.new row_seat.new ticket_seat.new)) }
    ensures second_done { IfOk result.1 (λ done. Finished code.now steps calls.now tickets.now.shares done.items (seats other_counts.old other_rows.old other_tickets.old) (seats other_counts.new other_rows.new other_tickets.new)) }
    ensures second_stopped { OnErr result.1 (Stopped code.now steps calls.now (seats other_counts.old other_rows.old other_tickets.old) (seats other_counts.new other_rows.new other_tickets.new)) }
{
    join_mut(
        rt,
        &mut || -> Done
            requires { IsSync R.row × IsSync G.row × CanRun code.now calls.now (tables counters.now rows.now tickets.now) first (seats count_seat.now row_seat.now ticket_seat.now) }
            ensures done { IfOk result (λ done. Finished code.entry.now steps calls.entry.now tickets.entry.now.shares done.items (seats count_seat.entry.now row_seat.entry.now ticket_seat.entry.now) (seats count_seat.exit.now row_seat.exit.now ticket_seat.exit.now)) }
            ensures stopped { OnErr result (Stopped code.entry.now steps calls.entry.now (seats count_seat.entry.now row_seat.entry.now ticket_seat.entry.now) (seats count_seat.exit.now row_seat.exit.now ticket_seat.exit.now)) }
        {
            drive(
                rt,
                alloc,
                code,
                calls,
                steps,
                first,
                counters,
                count_seat,
                rows,
                row_seat,
                tickets,
                ticket_seat,
                gate,
            )
        },
        &mut || -> Done
            requires { IsSync R.row × IsSync G.row × CanRun code.now calls.now (tables counters.now rows.now tickets.now) second (seats other_counts.now other_rows.now other_tickets.now) }
            ensures done { IfOk result (λ done. Finished code.entry.now steps calls.entry.now tickets.entry.now.shares done.items (seats other_counts.entry.now other_rows.entry.now other_tickets.entry.now) (seats other_counts.exit.now other_rows.exit.now other_tickets.exit.now)) }
            ensures stopped { OnErr result (Stopped code.entry.now steps calls.entry.now (seats other_counts.entry.now other_rows.entry.now other_tickets.entry.now) (seats other_counts.exit.now other_rows.exit.now other_tickets.exit.now)) }
        {
            drive(
                rt,
                alloc,
                code,
                calls,
                steps,
                second,
                counters,
                other_counts,
                rows,
                other_rows,
                tickets,
                other_tickets,
                gate,
            )
        },
    )
}
