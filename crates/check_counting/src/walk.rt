// The first instruction of a function that breaks a rule on what counts.
ghost use Rattle.std.specs.Prelude.{◌≡◌, ◌<◌, length};
ghost use Rattle.check_counting.specs.Checking as spec;
ghost use Rattle.ir_rules.specs.Kinds as kinds;
ghost use Rattle.ir_rules.specs.Parts as parts;
ghost use Rattle.spec_lists.specs.Each.{each, first_of};

use crate::counters::is_counted_well;
use crate::intrinsics::counts_well;
use ir_rules::{Kind, Place};
use ir_tree::{Block, Function, Index, Instr, Module};

/// Calls of the intrinsics for counters, or counters and notes.
#[derive(Clone, Copy)]
pub(crate) enum Checked {
    Intrinsics,
    Counters,
}

/// The first instruction that breaks the rule.
pub(crate) fn first_off(
    checked: Checked,
    symbols: &Index,
    kind: Kind,
    module: &Module,
    k: u32,
    f: &Function,
) -> Option<Place>
    requires few { length f.now.blocks < 4294967296 }
    requires scope { spec.IsScope symbols.now «module».now }
    requires kind { kind ≡ kinds.kind_of «module».now.functions }
    ensures { result ≡ first_of (parts.function_places (spec.rule checked «module».now) k f.now) }
{
    off_in_blocks(checked, symbols, kind, module, k, f.blocks.as_slice())
}

#[tactic(auto, using(spec_lists::proofs::Each::each_dropped, crate::proofs::Firsts::found_plain, crate::proofs::Firsts::over_plain))]
fn off_in_blocks(
    checked: Checked,
    symbols: &Index,
    kind: Kind,
    module: &Module,
    k: u32,
    blocks: &[Block],
) -> Option<Place>
    requires few { length blocks.now < 4294967296 }
    requires scope { spec.IsScope symbols.now «module».now }
    requires kind { kind ≡ kinds.kind_of «module».now.functions }
    ensures { result ≡ first_of (each (spec.item_places (spec.keeps checked «module».now) k) 0 blocks.now) }
{
    for (b, block) in blocks.iter().enumerate() {
        if let Some(at) = off_in_block(checked, symbols, kind, module, k, b, block) {
            return Some(at);
        }
    }
    None
}

#[tactic(auto, using(spec_lists::proofs::Each::each_dropped))]
fn off_in_block(
    checked: Checked,
    symbols: &Index,
    kind: Kind,
    module: &Module,
    k: u32,
    b: usize,
    block: &Block,
) -> Option<Place>
    requires few { b < 4294967296 }
    requires scope { spec.IsScope symbols.now «module».now }
    requires kind { kind ≡ kinds.kind_of «module».now.functions }
    ensures { result ≡ first_of (spec.item_places (spec.keeps checked «module».now) k b block.now) }
{
    for (i, instr) in block.instrs.as_slice().iter().enumerate() {
        if !keeps(checked, symbols, kind, module, instr) {
            return Some(place(k, b, i));
        }
    }
    None
}

fn place(k: u32, b: usize, i: usize) -> Place
    requires few { b < 4294967296 }
    ensures { result ≡ parts.place k b i }
{
    Place {
        function: k,
        block: b as u32,
        item: i as u64,
    }
}

fn keeps(checked: Checked, symbols: &Index, kind: Kind, module: &Module, instr: &Instr) -> bool
    requires scope { spec.IsScope symbols.now «module».now }
    requires kind { kind ≡ kinds.kind_of «module».now.functions }
    ensures { result ≡ spec.keeps checked «module».now instr.now }
{
    match checked {
        Checked::Intrinsics => counts_well(symbols, module, instr),
        Checked::Counters => is_counted_well(symbols, kind, module, instr),
    }
}
