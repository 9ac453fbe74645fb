// Rule 6: the parameters, labels and results of a function have distinct names.
ghost use Rattle.std.specs.Prelude.{◌≡◌, ◌<◌, ◌≤◌, ◌^◌, ◌+◌, ℕ, true, List, [], ◌++◌, Some, slice_get, IfOk, OnOk};
ghost use Rattle.check_names.specs.Few.{HasFew, IsFew};
ghost use Rattle.check_names.specs.Outer.{repeated_items};
ghost use Rattle.check_names.specs.Seen.{HasSeen};
ghost use Rattle.ir_rules.specs.Distinct as spec;
ghost use Rattle.ir_rules.specs.Lists.{are_new};
ghost use Rattle.ir_rules.specs.Parts.{block_places, function_places, places};
ghost use Rattle.ir_rules.specs.Scopes.{param_names};
ghost use Rattle.ir_tree.specs.Operands.{listed, result_name};
ghost use Rattle.spec_lists.specs.Each.{each, first_of};

use crate::place::item_place;
use crate::seen::Seen;
use ir_rules::Place;
use ir_tree::{Block, Function, Instr, Module};
use pgo_base::NoMemory;
use std::alloc::Global;

/// The first place that breaks the rule.
pub(crate) fn repeated(alloc: Global, module: &Module) -> Result<Option<Place>, NoMemory>
    requires few { HasFew «module».now }
    ensures { IfOk result (λ at. at ≡ first_of (places spec.distinct «module».now)) }
{
    for (k, f) in module.functions.as_slice().iter().enumerate() {
        if let Some(at) = repeated_in(alloc, k, f)? {
            return Ok(Some(at));
        }
    }
    Ok(None)
}

fn repeated_in(alloc: Global, k: usize, f: &Function) -> Result<Option<Place>, NoMemory>
    requires few { IsFew f.now }
    requires function { k < 2 ^ 32 }
    ensures { IfOk result (λ at. at ≡ first_of (function_places spec.distinct k f.now)) }
{
    if f.is_declared() {
        return Ok(None);
    }
    // A function within the limits has few names beside its labels.
    let mut seen = Seen::with_room(alloc, f.blocks.len())?;
    if !are_new(alloc, &mut seen, f)? {
        return Ok(Some(item_place(k, 0, 0)));
    }
    repeated_in_blocks(alloc, &mut seen, k, f)
}

// Whether the parameters have distinct names, which are then seen.
fn are_new(alloc: Global, seen: &mut Seen, f: &Function) -> Result<bool, NoMemory>
    requires few { IsFew f.now }
    requires none { HasSeen seen.old [] }
    ensures apart { IfOk result (λ apart. apart ≡ are_new [] (param_names f.now)) }
    ensures seen { IfOk result (λ apart. apart ≡ true → HasSeen seen.new (param_names f.now)) }
{
    for param in f.params.as_slice() {
        if !seen.add(alloc, param.1.bytes())? {
            return Ok(false);
        }
    }
    Ok(true)
}

fn repeated_in_blocks(
    alloc: Global,
    seen: &mut Seen,
    k: usize,
    f: &Function,
) -> Result<Option<Place>, NoMemory>
    requires few { IsFew f.now }
    requires function { k < 2 ^ 32 }
    requires seen { HasSeen seen.old (param_names f.now) }
    ensures { IfOk result (λ at. at ≡ first_of (each (block_places spec.distinct k f.now) 0 f.now.blocks)) }
{
    for (b, block) in f.blocks.as_slice().iter().enumerate() {
        if let Some(at) = repeated_in_block(alloc, seen, k, f, b, block)? {
            return Ok(Some(at));
        }
    }
    Ok(None)
}

// The first repeated name of block b; where there is none, the names of the block are seen.
fn repeated_in_block(
    alloc: Global,
    seen: &mut Seen,
    k: usize,
    f: &Function,
    b: usize,
    block: &Block,
) -> Result<Option<Place>, NoMemory>
    requires few { IsFew f.now }
    requires function { k < 2 ^ 32 }
    requires block { slice_get f.now.blocks b ≡ Some block.now }
    requires seen { HasSeen seen.old (spec.names_before f.now b) }
    ensures found { IfOk result (λ at. at ≡ first_of (block_places spec.distinct k f.now b block.now)) }
    ensures seen { IfOk result (λ at. at ≡ None → HasSeen seen.new (spec.names_before f.now (b + 1))) }
{
    if !seen.add(alloc, block.label.bytes())? {
        return Ok(Some(item_place(k, b, 0)));
    }
    repeated_result(alloc, seen, k, f, b, block)
}

// The first repeated result of block b, whose label is seen.
fn repeated_result(
    alloc: Global,
    seen: &mut Seen,
    k: usize,
    f: &Function,
    b: usize,
    block: &Block,
) -> Result<Option<Place>, NoMemory>
    requires few { IsFew f.now }
    requires function { k < 2 ^ 32 }
    requires block { slice_get f.now.blocks b ≡ Some block.now }
    requires seen { HasSeen seen.old (spec.names_before_item f.now b block.now 0) }
    ensures found { IfOk result (λ at. at ≡ first_of (repeated_items k f.now b block.now 0 block.now.instrs)) }
    ensures seen { IfOk result (λ at. at ≡ None → HasSeen seen.new (spec.names_before f.now (b + 1))) }
{
    for (i, x) in block.instrs.as_slice().iter().enumerate() {
        if !is_new(alloc, seen, x)? {
            return Ok(Some(item_place(k, b, i)));
        }
    }
    Ok(None)
}

// Whether the instruction gives no result, or one of a new name, which is then seen.
fn is_new(alloc: Global, seen: &mut Seen, x: &Instr) -> Result<bool, NoMemory>
    requires room { seen.old.count ≤ 2101248 }
    ensures fresh { (names : List (List ℕ)) → HasSeen seen.old names → IfOk result (λ fresh. fresh ≡ spec.is_new_if_any (result_name x.now) names) }
    ensures added { (names : List (List ℕ)) → HasSeen seen.old names → OnOk result (HasSeen seen.new (names ++ listed (result_name x.now))) }
{
    match x.result() {
        Some((name, _)) => seen.add(alloc, name.bytes()),
        None => Ok(true),
    }
}
