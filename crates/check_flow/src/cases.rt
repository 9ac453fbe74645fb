// Rule 8: the case values of a switch are distinct.
ghost use Rattle.std.specs.Prelude.{◌≡◌, ◌<◌, length, map, IfOk};
ghost use Rattle.check_flow.specs.LookUps as spec;
ghost use Rattle.ir_rules.specs.Cases.{cases};
ghost use Rattle.ir_rules.specs.Lists.{are_apart};
ghost use Rattle.ir_rules.specs.Parts.{function_places};
ghost use Rattle.ir_tree.specs.Successors.{case_values};
ghost use Rattle.spec_lists.specs.Each.{each, first_of};

use crate::place::place;
use crate::rising::rises;
use ir_rules::Place;
use ir_tree::{Block, Function, Name, Term};
use pgo_base::NoMemory;
use std::alloc::Global;

/// The first switch with a value twice.
pub(crate) fn first_case_again(
    alloc: Global,
    k: u32,
    f: &Function,
) -> Result<Option<Place>, NoMemory>
    requires few { length f.now.blocks < 4294967296 }
    ensures { IfOk result (λ found. found ≡ first_of (function_places cases k f.now)) }
{
    case_again_in(alloc, k, f.blocks.as_slice())
}

#[tactic(auto, using(spec_lists::proofs::Each::each_dropped))]
fn case_again_in(alloc: Global, k: u32, blocks: &[Block]) -> Result<Option<Place>, NoMemory>
    requires few { length blocks.now < 4294967296 }
    ensures { IfOk result (λ found. found ≡ first_of (each (spec.exit_places (λ block. are_apart (case_values block.term)) k) 0 blocks.now)) }
{
    for (b, block) in blocks.iter().enumerate() {
        if !are_apart(alloc, &block.term)? {
            return Ok(Some(place(k, b, block.instrs.as_slice().len())));
        }
    }
    Ok(None)
}

fn are_apart(alloc: Global, term: &Term) -> Result<bool, NoMemory>
    ensures { IfOk result (λ apart. apart ≡ are_apart (case_values term.now)) }
{
    match term {
        Term::Switch { cases, .. } => values_apart(alloc, cases.as_slice()),
        Term::Br { .. } | Term::CondBr { .. } | Term::Ret { .. } | Term::Unreachable => Ok(true),
    }
}

fn values_apart(alloc: Global, cases: &[(u64, Name)]) -> Result<bool, NoMemory>
    ensures { IfOk result (λ apart. apart ≡ are_apart (map (λ c. c.0) cases.now)) }
{
    let mut values = values_of(alloc, cases)?;
    values.sort_unstable();
    Ok(rises(values.as_slice()))
}

fn values_of(alloc: Global, cases: &[(u64, Name)]) -> Result<Vec<u64>, NoMemory>
    ensures { IfOk result (λ values. values.items ≡ map (λ c. c.0) cases.now) }
{
    let mut values = Vec::with_capacity(alloc, cases.len())?;
    for case in cases {
        values.push(case.0)?;
    }
    Ok(values)
}
