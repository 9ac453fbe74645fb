// The first rule on intrinsics, counters and notes that a function breaks.
ghost use Rattle.std.specs.Prelude.{◌≡◌, ◌<◌, ◌≤◌, ℕ, List, length};
ghost use Rattle.ir_rules.specs.Kinds as kinds;
ghost use Rattle.ir_rules.specs.Lists.{times};
ghost use Rattle.ir_rules.specs.Scopes as scopes;
ghost use Rattle.ir_tree.specs.Names.{Indexes};
ghost use Rattle.rule_groups.specs.Groups.{broken_in, counting_rules};
ghost use Rattle.spec_lists.specs.Each.{first_of};

use crate::walk::{Checked, first_off};
use ir_rules::{Kind, Place};
use ir_tree::{Function, Index, Module};

/// The first of rules 17 and 18 that function `k` of a module breaks, by its number, with its first place in text order. `symbols` are
/// the names of the module's global variables and then its functions. Takes no memory.
#[tactic(auto, using(crate::proofs::Firsts::found_mapped, crate::proofs::Firsts::over_mapped), unfolding(rule_groups::specs::Groups::broken_in))]
pub fn first_in_counting(
    symbols: &Index,
    kind: Kind,
    module: &Module,
    k: u32,
    f: &Function,
) -> Option<(u8, Place)>
    requires few { length f.now.blocks < 4294967296 }
    requires symbols { Indexes symbols.now (scopes.symbols «module».now) }
    requires once { (n : List ℕ) → times n (scopes.symbols «module».now) ≤ 1 }
    requires kind { kind ≡ kinds.kind_of «module».now.functions }
    ensures { result ≡ first_of (broken_in k f.now 17 (counting_rules «module».now)) }
{
    if let Some(at) = first_off(Checked::Intrinsics, symbols, kind, module, k, f) {
        return Some((17, at));
    }
    match first_off(Checked::Counters, symbols, kind, module, k, f) {
        Some(at) => Some((18, at)),
        None => None,
    }
}
