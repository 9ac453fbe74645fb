// The first call that fails a test.
ghost use Rattle.std.specs.Prelude.{◌≡◌, filter_map};
ghost use Rattle.std.specs.Option.{option_copied, option_map};
ghost use Rattle.lower_units.specs.Faults as faults;
ghost use Rattle.lower_units.specs.Shown as shown;
ghost use Rattle.lower_units.specs.Table.{told_at};
ghost use Rattle.lowering.specs.Asked as spec;

use crate::asked::{Asked, asked_of};
use crate::table::Table;
use crate::told::Told;
use ir_tree::{Block, Function, Instr, Name};

// The test that a call fails, with what it tells.
#[derive(Clone, Copy)]
pub(crate) enum Test {
    Hash { first: u64, other: u64 },
    Count { first: u64, other: u64 },
    Index { index: u64, count: u64 },
}

fn hash_fault(told: Option<&Told>, hash: u64) -> Option<Test>
    ensures { result ≡ faults.hash_fault (option_copied told.entry) hash }
{
    match told {
        Some(told) => {
            if told.hash != hash {
                return Some(Test::Hash {
                    first: told.hash,
                    other: hash,
                });
            }
            None
        }
        None => None,
    }
}

fn count_fault(told: Option<&Told>, counters: u64) -> Option<Test>
    ensures { result ≡ faults.count_fault (option_copied told.entry) counters }
{
    let first = told?.counters?;
    if first != counters {
        return Some(Test::Count {
            first,
            other: counters,
        });
    }
    None
}

fn index_fault(counters: u64, counter: u64) -> Option<Test>
    ensures { result ≡ faults.index_fault counters counter }
{
    if counters <= counter {
        return Some(Test::Index {
            index: counter,
            count: counters,
        });
    }
    None
}

// The first test that a call fails: its hash, and for an increment its number of counters and its counter.
fn test_failed(told: Option<&Told>, asked: &Asked<'_>) -> Option<Test>
    ensures { result ≡ faults.test_failed (option_copied told.entry) (shown.asked asked.now) }
{
    let hash = hash_fault(told, asked.hash());
    if hash.is_some() {
        return hash;
    }
    match asked {
        Asked::Rise {
            counters,
            counter,
            ..
        } => {
            let count = count_fault(told, *counters);
            if count.is_some() {
                return count;
            }
            index_fault(*counters, *counter)
        }
        Asked::Note { .. } => None,
    }
}

// The unit of a call that fails a test, and the test.
fn fault_of<'a>(table: &Table, asked: &Asked<'a>) -> Option<(&'a Name, Test)>
    ensures { option_map faults.shown result ≡ faults.fault_of (told_at table.now) (shown.asked asked.now) }
{
    let symbol = asked.symbol();
    match test_failed(table.find(symbol.bytes()), asked) {
        Some(test) => Some((symbol, test)),
        None => None,
    }
}

fn fault_by<'a>(table: &Table, instr: &'a Instr) -> Option<(&'a Name, Test)>
    ensures { option_map faults.shown result ≡ faults.fault_by (told_at table.now) (spec.asked instr.now) }
{
    match asked_of(instr) {
        Some(asked) => fault_of(table, &asked),
        None => None,
    }
}

fn first_in_instrs<'a>(table: &Table, instrs: &'a [Instr]) -> Option<(&'a Name, Test)>
    ensures { option_map faults.shown result ≡ faults.first_fault (told_at table.now) (filter_map spec.asked instrs.now) }
{
    for instr in instrs {
        if let Some(fault) = fault_by(table, instr) {
            return Some(fault);
        }
    }
    None
}

fn first_in_blocks<'a>(table: &Table, blocks: &'a [Block]) -> Option<(&'a Name, Test)>
    ensures { option_map faults.shown result ≡ faults.first_fault (told_at table.now) (spec.asked_in blocks.now) }
{
    for block in blocks {
        if let Some(fault) = first_in_instrs(table, block.instrs.as_slice()) {
            return Some(fault);
        }
    }
    None
}

// The first call that fails a test: its unit, and the test.
pub(crate) fn first_fault<'a>(table: &Table, functions: &'a [Function]) -> Option<(&'a Name, Test)>
    ensures { option_map faults.shown result ≡ faults.first_fault (told_at table.now) (spec.asked_by_all functions.now) }
{
    for function in functions {
        if let Some(fault) = first_in_blocks(table, function.blocks.as_slice()) {
            return Some(fault);
        }
    }
    None
}
