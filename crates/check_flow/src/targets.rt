// Rule 7: each label that a terminator names is a block's, and not the first one's.
ghost use Rattle.std.specs.Prelude.{◌≡◌, ◌<◌, ◌∷◌, length, map};
ghost use Rattle.std.specs.List.{list_all};
ghost use Rattle.check_flow.specs.LookUps as spec;
ghost use Rattle.ir_rules.specs.Finding.{IsNamed};
ghost use Rattle.ir_rules.specs.Parts.{function_places};
ghost use Rattle.ir_rules.specs.Targets.{targets};
ghost use Rattle.ir_tree.specs.FunctionNames.{IsIndexOf};
ghost use Rattle.spec_lists.specs.Each.{each, first_of};

use crate::names::block_of;
use crate::place::place;
use ir_rules::{Place, look_ups_tell};
use ir_tree::{Block, Function, FunctionIndex, Name, Term};

/// The first terminator that names another label.
pub(crate) fn first_off_target(known: &FunctionIndex, k: u32, f: &Function) -> Option<Place>
    requires known { IsIndexOf known.now f.now }
    requires named { IsNamed f.now }
    requires few { length f.now.blocks < 4294967296 }
    ensures { result ≡ first_of (function_places targets k f.now) }
{
    look_ups_tell();
    off_target_in(known, k, f.blocks.as_slice())
}

#[tactic(auto, using(spec_lists::proofs::Each::each_dropped))]
fn off_target_in(known: &FunctionIndex, k: u32, blocks: &[Block]) -> Option<Place>
    requires few { length blocks.now < 4294967296 }
    ensures { result ≡ first_of (each (spec.exit_places (λ block. spec.are_inner (spec.block_of known.now) block.term) k) 0 blocks.now) }
{
    for (b, block) in blocks.iter().enumerate() {
        if !are_inner(known, &block.term) {
            return Some(place(k, b, block.instrs.as_slice().len()));
        }
    }
    None
}

fn are_inner(known: &FunctionIndex, term: &Term) -> bool
    ensures { result ≡ spec.are_inner (spec.block_of known.now) term.now }
{
    match term {
        Term::Br { to } => is_inner(known, to),
        Term::CondBr { yes, no, .. } => is_inner(known, yes) && is_inner(known, no),
        Term::Switch { default, cases, .. } => lead_inside(known, default, cases.as_slice()),
        Term::Ret { .. } | Term::Unreachable => true,
    }
}

fn lead_inside(known: &FunctionIndex, default: &Name, cases: &[(u64, Name)]) -> bool
    ensures { result ≡ list_all (λ to. spec.is_inner (spec.block_of known.now to)) (default.now ∷ map (λ c. c.1) cases.now) }
{
    is_inner(known, default) && lead_to_inner(known, cases)
}

fn lead_to_inner(known: &FunctionIndex, cases: &[(u64, Name)]) -> bool
    ensures { result ≡ list_all (λ c. spec.is_inner (spec.block_of known.now c.1)) cases.now }
{
    cases.iter().all(|case| is_inner(known, &case.1))
}

fn is_inner(known: &FunctionIndex, label: &Name) -> bool
    ensures { result ≡ spec.is_inner (spec.block_of known.now label.now) }
{
    match block_of(known, label) {
        Some(b) => b != 0,
        None => false,
    }
}
