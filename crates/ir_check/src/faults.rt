// The first of the rules on functions that a module breaks. The functions are gone through once, and the names of one are held at a
// time.
ghost use Rattle.std.specs.Prelude.{◌≡◌, ◌<◌, ◌≤◌, ℕ, List, [], ◌∷◌, length, false, true, IfOk};
ghost use Rattle.ir_check.specs.Faults as spec;
ghost use Rattle.ir_rules.specs.Assigned.{assigned};
ghost use Rattle.ir_rules.specs.Distinct.{distinct};
ghost use Rattle.ir_rules.specs.Kinds as kinds;
ghost use Rattle.ir_rules.specs.Limits.{passed};
ghost use Rattle.ir_rules.specs.Lists.{times};
ghost use Rattle.ir_rules.specs.Parts.{FunctionKeeps};
ghost use Rattle.ir_rules.specs.Resolved.{IsResolved};
ghost use Rattle.ir_rules.specs.Scopes as scopes;
ghost use Rattle.ir_tree.specs.FunctionNames.{IsIndexOf};
ghost use Rattle.ir_tree.specs.Functions.{is_declared};
ghost use Rattle.ir_tree.specs.Names.{Indexes};
ghost use Rattle.ir_tree.specs.declared.types.Module.{Module};
ghost use Rattle.rule_groups.specs.Groups.{broken_from, broken_in, name_rules};
ghost use Rattle.spec_lists.specs.Each.{first_of};

use check_counting::first_in_counting;
use check_flow::first_in_flow;
use check_operands::first_in_operands;
use ir_assigned::{first_unready, unready_are_places};
use ir_limits::kind_of;
use ir_rules::{Kind, Place, kept_are_resolved};
use ir_tree::{Function, FunctionIndex, Index, Module};
use pgo_base::NoMemory;
use std::alloc::Global;

/// The first of rules 7 to 18 that is broken, by its number, and its first place in text order.
pub(crate) fn first_in_functions(
    alloc: Global,
    symbols: &Index,
    module: &Module,
) -> Result<Option<(u8, Place)>, NoMemory>
    requires symbols { Indexes symbols.now (scopes.symbols «module».now) }
    requires within { passed «module».now ≡ [] }
    requires named { broken_from «module».now 1 (name_rules «module».now) ≡ [] }
    ensures { IfOk result (λ found. found ≡ first_of (spec.faults «module».now «module».now.functions)) }
{
    let functions = module.functions.as_slice();
    let kind = kind_of(functions);
    let mut found = None;
    for (k, f) in functions.iter().enumerate() {
        let here = first_in(alloc, symbols, kind, module, k as u32, f)?;
        found = lower(found, here);
    }
    Ok(found)
}

// That of the lower rule, the earlier one where both are of one rule.
fn lower(earlier: Option<(u8, Place)>, later: Option<(u8, Place)>) -> Option<(u8, Place)>
    ensures { result ≡ spec.lowest earlier later }
{
    match (earlier, later) {
        (None, later) => later,
        (Some(a), None) => Some(a),
        (Some(a), Some(b)) => { if b.0 < a.0 { Some(b) } else { Some(a) } }
    }
}

// The first of the rules that function `k` breaks.
fn first_in(
    alloc: Global,
    symbols: &Index,
    kind: Kind,
    module: &Module,
    k: u32,
    f: &Function,
) -> Result<Option<(u8, Place)>, NoMemory>
    requires symbols { Indexes symbols.now (scopes.symbols «module».now) }
    requires once { (n : List ℕ) → times n (scopes.symbols «module».now) ≤ 1 }
    requires kind { kind ≡ kinds.kind_of «module».now.functions }
    requires few { length f.now.blocks < 4294967296 }
    requires distinct { FunctionKeeps distinct k f.now }
    ensures { IfOk result (λ found. found ≡ first_of (broken_in k f.now 7 (spec.function_rules «module».now))) }
{
    if f.is_declared() {
        return Ok(first_in_declared(k, f));
    }
    first_in_defined(alloc, symbols, kind, module, k, f)
}

// A declaration has no blocks, and breaks only the rule on weights, by a note.
fn first_in_declared(k: u32, f: &Function) -> Option<(u8, Place)>
    requires declared { is_declared f.now ≡ true }
    ensures { (m : Module) → result ≡ first_of (broken_in k f.now 7 (spec.function_rules m)) }
{
    if f.prof.is_some() {
        return Some((
            15,
            Place {
                function: k,
                block: 0,
                item: 0,
            },
        ));
    }
    None
}

fn first_in_defined(
    alloc: Global,
    symbols: &Index,
    kind: Kind,
    module: &Module,
    k: u32,
    f: &Function,
) -> Result<Option<(u8, Place)>, NoMemory>
    requires symbols { Indexes symbols.now (scopes.symbols «module».now) }
    requires once { (n : List ℕ) → times n (scopes.symbols «module».now) ≤ 1 }
    requires kind { kind ≡ kinds.kind_of «module».now.functions }
    requires few { length f.now.blocks < 4294967296 }
    requires distinct { FunctionKeeps distinct k f.now }
    requires defined { is_declared f.now ≡ false }
    ensures { IfOk result (λ found. found ≡ first_of (broken_in k f.now 7 (spec.function_rules «module».now))) }
{
    kept_are_resolved();
    let known = FunctionIndex::of(alloc, f)?;
    let flow = first_in_flow(alloc, &known, k, f)?;
    if flow.is_some() {
        return Ok(flow);
    }
    let operands = first_in_operands(&known, symbols, kind, module, k, f);
    if operands.is_some() {
        return Ok(operands);
    }
    let walks = first_on_walks(alloc, &known, k, f)?;
    if walks.is_some() {
        return Ok(walks);
    }
    Ok(first_in_counting(symbols, kind, module, k, f))
}

// The first register that is read where some walk doesn't assign it.
fn first_on_walks(
    alloc: Global,
    known: &FunctionIndex,
    k: u32,
    f: &Function,
) -> Result<Option<(u8, Place)>, NoMemory>
    requires known { IsIndexOf known.now f.now }
    requires resolved { IsResolved f.now }
    ensures { IfOk result (λ found. found ≡ first_of (broken_in k f.now 16 (assigned ∷ []))) }
{
    unready_are_places();
    let found = first_unready(alloc, known, f)?;
    match found {
        Some((block, item)) => Ok(Some((
            16,
            Place {
                function: k,
                block: block as u32,
                item: item as u64,
            },
        ))),
        None => Ok(None),
    }
}
