// The first rule on names and globals that a module breaks.
ghost use Rattle.std.specs.Prelude.{◌≡◌, ◌≤◌, ℕ, List, [], ◌∷◌, IfOk};
ghost use Rattle.check_names.specs.Few.{HasFew};
ghost use Rattle.check_names.specs.Scene.{IsScene};
ghost use Rattle.ir_rules.specs.Declarations.{declarations};
ghost use Rattle.ir_rules.specs.Distinct.{distinct};
ghost use Rattle.ir_rules.specs.Initialisers.{initialisers};
ghost use Rattle.ir_rules.specs.Limits.{passed};
ghost use Rattle.ir_rules.specs.Lists.{times};
ghost use Rattle.ir_rules.specs.OneKind.{one_kind};
ghost use Rattle.ir_rules.specs.Reserved.{reserved};
ghost use Rattle.ir_rules.specs.Scopes.{symbols};
ghost use Rattle.ir_tree.specs.Names.{Indexes};
ghost use Rattle.rule_groups.specs.Groups.{broken_from, name_rules};
ghost use Rattle.spec_lists.specs.Each.{first_of};

use crate::declared::ill_declared;
use crate::distinct::repeated;
use crate::initialised::ill_initialised;
use crate::kinds::of_two_kinds;
use crate::naming::misnamed;
use crate::reserved::reserved;
use ir_limits::kind_of;
use ir_rules::{Kind, Place};
use ir_tree::{Index, Module};
use pgo_base::NoMemory;
use std::alloc::Global;

/// The first of rules 1 to 6 that a module breaks, by its number, with its first place in text order; and the index of the names
/// of its global variables and functions, in this order.
pub fn first_of_names(
    alloc: Global,
    module: &Module,
) -> Result<(Index, Option<(u8, Place)>), NoMemory>
    requires within { passed «module».now ≡ [] }
    ensures indexed { IfOk result (λ r. Indexes r.0 (symbols «module».now)) }
    ensures found { IfOk result (λ r. r.1 ≡ first_of (broken_from «module».now 1 (name_rules «module».now))) }
{
    let (index, found) = misnamed(alloc, module)?;
    match found {
        Some(at) => Ok((index, Some((1, at)))),
        None => {
            let broken = first_behind(alloc, &index, module)?;
            Ok((index, broken))
        }
    }
}

// The first of rules 2 to 6, in a module whose names stand once.
#[tactic(auto, using(crate::proofs::Firsts::rule_found, crate::proofs::Firsts::rule_passed), unfolding(rule_groups::specs::Groups::broken_from))]
fn first_behind(
    alloc: Global,
    index: &Index,
    module: &Module,
) -> Result<Option<(u8, Place)>, NoMemory>
    requires few { HasFew «module».now }
    requires indexed { Indexes index.now (symbols «module».now) }
    requires once { (name : List ℕ) → times name (symbols «module».now) ≤ 1 }
    ensures { IfOk result (λ found. found ≡ first_of (broken_from «module».now 2 (one_kind «module».now ∷ reserved «module».now ∷ declarations ∷ initialisers «module».now ∷ distinct ∷ []))) }
{
    let kind = kind_of(module.functions.as_slice());
    if let Some(at) = of_two_kinds(kind, module) {
        return Ok(Some((2, at)));
    }
    if let Some(at) = reserved(kind, module) {
        return Ok(Some((3, at)));
    }
    if let Some(at) = ill_declared(module) {
        return Ok(Some((4, at)));
    }
    first_of_last(alloc, kind, index, module)
}

// The first of rules 5 and 6.
#[tactic(auto, using(crate::proofs::Firsts::rule_found, crate::proofs::Firsts::rule_passed), unfolding(rule_groups::specs::Groups::broken_from))]
fn first_of_last(
    alloc: Global,
    kind: Kind,
    index: &Index,
    module: &Module,
) -> Result<Option<(u8, Place)>, NoMemory>
    requires few { HasFew «module».now }
    requires scene { IsScene kind index.now «module».now }
    ensures { IfOk result (λ found. found ≡ first_of (broken_from «module».now 5 (initialisers «module».now ∷ distinct ∷ []))) }
{
    if let Some(at) = ill_initialised(alloc, kind, index, module)? {
        return Ok(Some((5, at)));
    }
    if let Some(at) = repeated(alloc, module)? {
        return Ok(Some((6, at)));
    }
    Ok(None)
}
