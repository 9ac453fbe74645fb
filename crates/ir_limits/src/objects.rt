// The first array type of a module that is too large, in text order.
ghost use Rattle.std.specs.Prelude.{◌≡◌, flat_map, option_map};
ghost use Rattle.ir_limits.specs.Objects.{arrays_in, block_arrays, over};
ghost use Rattle.ir_rules.specs.Limits as spec;
ghost use Rattle.ir_rules.specs.declared.place.LimitKind.TheVariants.{Object};
ghost use Rattle.spec_lists.specs.Each.{first_of};

use crate::arrays::array_above;
use crate::globals::is_profile_variable;
use ir_rules::Kind;
use ir_tree::{Block, Function, Global1, Instr, Module};

#[tactic(auto, using(crate::proofs::OverLists::over_found, crate::proofs::OverLists::over_past))]
pub(crate) fn object_above(kind: Kind, module: &Module) -> Option<u64>
    ensures { option_map (λ found. (Object, found)) result ≡ first_of (over (arrays_in kind «module».now)) }
{
    match globals_above(kind, module.globals.as_slice()) {
        Some(found) => Some(found),
        None => functions_above(module.functions.as_slice()),
    }
}

#[tactic(auto, using(crate::proofs::OverLists::flat_found, crate::proofs::OverLists::flat_past))]
fn globals_above(kind: Kind, globals: &[Global1]) -> Option<u64>
    ensures { option_map (λ found. (Object, found)) result ≡ first_of (over (flat_map (spec.global_arrays kind) globals.now)) }
{
    for g in globals {
        if let Some(found) = global_above(kind, g) {
            return Some(found);
        }
    }
    None
}

fn global_above(kind: Kind, g: &Global1) -> Option<u64>
    ensures { option_map (λ found. (Object, found)) result ≡ first_of (over (spec.global_arrays kind g.now)) }
{
    if is_profile_variable(kind, g.name.bytes()) {
        return None;
    }
    array_above(&g.mem)
}

#[tactic(auto, using(crate::proofs::OverLists::flat_found, crate::proofs::OverLists::flat_past))]
fn functions_above(functions: &[Function]) -> Option<u64>
    ensures { option_map (λ found. (Object, found)) result ≡ first_of (over (flat_map spec.function_arrays functions.now)) }
{
    for f in functions {
        if let Some(found) = blocks_above(f.blocks.as_slice()) {
            return Some(found);
        }
    }
    None
}

#[tactic(auto, using(crate::proofs::OverLists::flat_found, crate::proofs::OverLists::flat_past))]
fn blocks_above(blocks: &[Block]) -> Option<u64>
    ensures { option_map (λ found. (Object, found)) result ≡ first_of (over (flat_map block_arrays blocks.now)) }
{
    for block in blocks {
        if let Some(found) = instrs_above(block.instrs.as_slice()) {
            return Some(found);
        }
    }
    None
}

#[tactic(auto, using(crate::proofs::OverLists::flat_found, crate::proofs::OverLists::flat_past))]
fn instrs_above(instrs: &[Instr]) -> Option<u64>
    ensures { option_map (λ found. (Object, found)) result ≡ first_of (over (flat_map spec.instr_arrays instrs.now)) }
{
    for instr in instrs {
        if let Some(found) = instr_above(instr) {
            return Some(found);
        }
    }
    None
}

fn instr_above(instr: &Instr) -> Option<u64>
    ensures { option_map (λ found. (Object, found)) result ≡ first_of (over (spec.instr_arrays instr.now)) }
{
    match instr {
        Instr::Alloca { mem, .. } | Instr::Gep { mem, .. } => array_above(mem),
        Instr::Binary { .. }
        | Instr::Compare { .. }
        | Instr::Convert { .. }
        | Instr::Freeze { .. }
        | Instr::Select { .. }
        | Instr::Phi { .. }
        | Instr::Load { .. }
        | Instr::Store { .. }
        | Instr::Call { .. }
        | Instr::Count { .. } => None,
    }
}
