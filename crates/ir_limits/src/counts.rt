// The quantities of one function.
ghost use Rattle.std.specs.Prelude.{◌≡◌, ◌+◌, cond, sum_by};
ghost use Rattle.std.specs.List.{count_by};
ghost use Rattle.ir_limits.specs.Tally as count;
ghost use Rattle.ir_rules.specs.Limits as spec;
ghost use Rattle.ir_tree.specs.Edges.{edges_in};
ghost use Rattle.ir_tree.specs.Graphs.{count_in, is_site};
ghost use Rattle.ir_tree.specs.Successors.{ways_out};

use crate::kinds::is_plain;
use ir_rules::Kind;
use ir_tree::{Block, Function, Instr};

pub(crate) fn sites(f: &Function) -> u64
    ensures { result ≡ spec.reported (spec.total_of is_site f.now) }
{
    total_of(Tally::Sites, f)
}

pub(crate) fn edges(f: &Function) -> u64
    ensures { result ≡ spec.reported (edges_in f.now) }
{
    if f.is_declared() {
        return 0;
    }
    edges_of_blocks(f.blocks.as_slice())
}

fn edges_of_blocks(blocks: &[Block]) -> u64
    ensures { result ≡ spec.reported (1 + sum_by ways_out blocks.now) }
{
    let mut total = 1u64;
    for block in blocks {
        total = total.saturating_add(block.ways_out() as u64);
    }
    total
}

#[tactic(auto, unfolding(ir_rules::specs::Limits::registers))]
pub(crate) fn registers(kind: Kind, f: &Function) -> u64
    ensures { result ≡ spec.reported (spec.registers kind f.now) }
{
    let results = total_of(Tally::Results, f);
    let named = (f.params.as_slice().len() as u64).saturating_add(results);
    if is_plain(kind) {
        return named.saturating_add(sites(f).saturating_mul(8));
    }
    named
}

#[tactic(auto, unfolding(ir_rules::specs::Limits::counters))]
pub(crate) fn counters(f: &Function) -> u64
    ensures { result ≡ spec.reported (spec.counters f.now) }
{
    edges(f).saturating_add(total_of(Tally::Selects, f))
}

// The instructions that are counted: those with a result, calls through a local, or selects.
#[derive(Clone, Copy)]
pub(crate) enum Tally {
    Results,
    Sites,
    Selects,
}

#[tactic(auto, unfolding(ir_rules::specs::Limits::total_of))]
fn total_of(counted: Tally, f: &Function) -> u64
    ensures { result ≡ spec.reported (spec.total_of (count.is_counted counted) f.now) }
{
    count_in(counted, f.blocks.as_slice())
}

fn count_in(counted: Tally, blocks: &[Block]) -> u64
    ensures { result ≡ spec.reported (count_in (count.is_counted counted) blocks.now) }
{
    let mut total = 0u64;
    for block in blocks {
        total = total.saturating_add(count_of_instrs(counted, block.instrs.as_slice()));
    }
    total
}

fn count_of_instrs(counted: Tally, instrs: &[Instr]) -> u64
    ensures { result ≡ spec.reported (count_by (count.is_counted counted) instrs.now) }
{
    let mut total = 0u64;
    for instr in instrs {
        total = total.saturating_add(one_if(is_counted(counted, instr)));
    }
    total
}

fn one_if(holds: bool) -> u64
    ensures { result ≡ cond holds 1 0 }
{
    if holds {
        return 1;
    }
    0
}

fn is_counted(counted: Tally, instr: &Instr) -> bool
    ensures { result ≡ count.is_counted counted instr.now }
{
    match counted {
        Tally::Results => instr.result().is_some(),
        Tally::Sites => instr.is_site(),
        Tally::Selects => instr.is_select(),
    }
}
