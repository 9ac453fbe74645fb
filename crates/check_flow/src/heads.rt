// Rule 9: phis stand before all other instructions of their block, and none in the first block.
ghost use Rattle.std.specs.Prelude.{◌≡◌, ◌==◌, ◌<◌, ◌&&◌, ◌||◌, not, nat_lt, length};
ghost use Rattle.check_flow.specs.LookUps as spec;
ghost use Rattle.ir_rules.specs.Parts.{function_places};
ghost use Rattle.ir_rules.specs.PhiPlaces as rule;
ghost use Rattle.ir_tree.specs.Phis.{is_phi};
ghost use Rattle.spec_lists.specs.Each.{each, first_of};

use crate::place::place;
use ir_rules::Place;
use ir_tree::{Block, Function, Instr, phi_count};

/// The first phi behind another instruction, or in the first block.
pub(crate) fn first_phi_behind(k: u32, f: &Function) -> Option<Place>
    requires few { length f.now.blocks < 4294967296 }
    ensures { result ≡ first_of (function_places rule.phi_places k f.now) }
{
    phi_behind_in(k, f.blocks.as_slice())
}

#[tactic(auto, using(spec_lists::proofs::Each::each_dropped, crate::proofs::Firsts::found_plain, crate::proofs::Firsts::over_plain))]
fn phi_behind_in(k: u32, blocks: &[Block]) -> Option<Place>
    requires few { length blocks.now < 4294967296 }
    ensures { result ≡ first_of (each (spec.item_places rule.is_placed_well k) 0 blocks.now) }
{
    for (b, block) in blocks.iter().enumerate() {
        if let Some(at) = phi_behind(k, b, block) {
            return Some(at);
        }
    }
    None
}

#[tactic(auto, using(spec_lists::proofs::Each::each_dropped))]
fn phi_behind(k: u32, b: usize, block: &Block) -> Option<Place>
    requires few { b < 4294967296 }
    ensures { result ≡ first_of (spec.item_places rule.is_placed_well k b block.now) }
{
    let instrs = block.instrs.as_slice();
    let lead = phi_count(instrs);
    for (i, instr) in instrs.iter().enumerate() {
        if !is_placed_well(lead, b, i, instr) {
            return Some(place(k, b, i));
        }
    }
    None
}

// Whether an instruction is no phi, or stands among the `lead` phis at the head of its block, which is not the first.
fn is_placed_well(lead: usize, b: usize, i: usize, instr: &Instr) -> bool
    ensures { result ≡ (not (is_phi instr.now) || (not (b == 0) && nat_lt i lead)) }
{
    !instr.is_phi() || (b != 0 && i < lead)
}
