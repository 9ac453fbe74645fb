// The first rule on targets, cases and phis that a function breaks.
ghost use Rattle.std.specs.Prelude.{◌≡◌, ◌<◌, length, IfOk};
ghost use Rattle.ir_rules.specs.Finding.{IsNamed};
ghost use Rattle.ir_tree.specs.FunctionNames.{IsIndexOf};
ghost use Rattle.rule_groups.specs.Groups.{broken_in, flow_rules};
ghost use Rattle.spec_lists.specs.Each.{first_of};

use crate::cases::first_case_again;
use crate::entries::first_unmatched;
use crate::heads::first_phi_behind;
use crate::targets::first_off_target;
use ir_rules::Place;
use ir_tree::{Function, FunctionIndex};
use pgo_base::NoMemory;
use std::alloc::Global;

/// The first of rules 7 to 10 that function `k` of a module breaks, by its number, with its first place in text order.
#[tactic(auto, using(crate::proofs::Firsts::found_mapped, crate::proofs::Firsts::over_mapped), unfolding(rule_groups::specs::Groups::broken_in))]
pub fn first_in_flow(
    alloc: Global,
    known: &FunctionIndex,
    k: u32,
    f: &Function,
) -> Result<Option<(u8, Place)>, NoMemory>
    requires known { IsIndexOf known.now f.now }
    requires named { IsNamed f.now }
    requires few { length f.now.blocks < 4294967296 }
    ensures { IfOk result (λ found. found ≡ first_of (broken_in k f.now 7 flow_rules)) }
{
    if let Some(at) = first_off_target(known, k, f) {
        return Ok(Some((7, at)));
    }
    if let Some(at) = first_case_again(alloc, k, f)? {
        return Ok(Some((8, at)));
    }
    if let Some(at) = first_phi_behind(k, f) {
        return Ok(Some((9, at)));
    }
    match first_unmatched(alloc, known, k, f)? {
        Some(at) => Ok(Some((10, at))),
        None => Ok(None),
    }
}
