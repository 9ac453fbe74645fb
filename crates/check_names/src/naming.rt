// Rule 1: global variables and functions have distinct names, and each name is one that may stand there.
ghost use Rattle.std.specs.Prelude.{◌≡◌, ◌<◌, ◌≤◌, ◌^◌, ◌&&◌, ◌++◌, [], length, IfOk, OnOk};
ghost use Rattle.std.specs.List.{list_all};
ghost use Rattle.check_names.specs.Few.{HasFew, IsFew};
ghost use Rattle.check_names.specs.Outer.{global_places, misspelled, misspelled_block, result_places};
ghost use Rattle.ir_rules.specs.Naming as spec;
ghost use Rattle.ir_rules.specs.Parts.{function_places, place, places, unless};
ghost use Rattle.ir_rules.specs.Scopes.{symbols, variables};
ghost use Rattle.ir_tree.specs.Names.{Indexes};
ghost use Rattle.ir_tree.specs.Spelling.{is_global_name};
ghost use Rattle.spec_lists.specs.Each.{each, first_of};

use crate::place::{first_of_both, item_place, unless, variable_place};
use ir_rules::Place;
use ir_tree::{
    Block, Function, Global1, Index, Instr, Module, Name, Ty, is_global_name, is_local_name,
};
use pgo_base::NoMemory;
use std::alloc::Global;

/// The first place that breaks the rule, and the index of the names of global variables and functions.
pub(crate) fn misnamed(alloc: Global, module: &Module) -> Result<(Index, Option<Place>), NoMemory>
    requires few { HasFew «module».now }
    ensures indexed { IfOk result (λ r. Indexes r.0 (symbols «module».now)) }
    ensures found { IfOk result (λ r. r.1 ≡ first_of (places (spec.naming «module».now) «module».now)) }
{
    let mut index = Index::with_room(alloc, module.globals.len() + module.functions.len())?;
    let variable = misnamed_variable(alloc, &mut index, module)?;
    let function = misnamed_function(alloc, &mut index, module)?;
    Ok((index, first_of_both(variable, function)))
}

// Puts the names of the global variables into the index of no names.
fn misnamed_variable(
    alloc: Global,
    index: &mut Index,
    module: &Module,
) -> Result<Option<Place>, NoMemory>
    requires empty { Indexes index.old [] }
    ensures indexed { OnOk result (Indexes index.new (variables «module».now)) }
    ensures found { IfOk result (λ at. at ≡ first_of (global_places (spec.naming «module».now).global «module».now.globals)) }
{
    let mut found = None;
    for (n, g) in module.globals.as_slice().iter().enumerate() {
        let fresh = index.add(alloc, g.name.bytes(), n)?;
        found = first_of_both(found, misnamed_at(fresh, n, g));
    }
    Ok(found)
}

fn misnamed_at(fresh: bool, n: usize, g: &Global1) -> Option<Place>
    ensures { result ≡ first_of (unless (is_global_name g.now.name && fresh) (place 0 0 n)) }
{
    unless(is_global_name(g.name.bytes()) && fresh, variable_place(n))
}

// Puts the names of the functions behind those of the global variables.
fn misnamed_function(
    alloc: Global,
    index: &mut Index,
    module: &Module,
) -> Result<Option<Place>, NoMemory>
    requires few { HasFew «module».now }
    requires before { Indexes index.old (variables «module».now) }
    ensures indexed { OnOk result (Indexes index.new (symbols «module».now)) }
    ensures found { IfOk result (λ at. at ≡ first_of (each (function_places (spec.naming «module».now)) 0 «module».now.functions)) }
{
    let first = module.globals.len();
    let mut found = None;
    for (k, f) in module.functions.as_slice().iter().enumerate() {
        let fresh = index.add(alloc, f.name.bytes(), first + k)?;
        found = first_of_both(found, misnamed_in(fresh, k, f));
    }
    Ok(found)
}

// The first place of a function, whose name is fresh or not.
fn misnamed_in(fresh: bool, k: usize, f: &Function) -> Option<Place>
    requires few { IsFew f.now }
    requires function { k < 2 ^ 32 }
    ensures { result ≡ first_of (unless (is_global_name f.now.name && (fresh && spec.are_param_names f.now)) (place k 0 0) ++ misspelled k f.now.blocks) }
{
    let kept = is_global_name(f.name.bytes()) && (fresh && are_param_names(f));
    first_of_both(
        unless(kept, item_place(k, 0, 0)),
        misspelled(k, f.blocks.as_slice()),
    )
}

#[tactic(auto, using(crate::proofs::Names::all_params))]
fn are_param_names(f: &Function) -> bool
    ensures { result ≡ spec.are_param_names f.now }
{
    are_names(f.is_declared(), f.params.as_slice())
}

fn are_names(declared: bool, params: &[(Ty, Name)]) -> bool
    ensures { result ≡ list_all (λ p. spec.is_param_name declared p.1) params.now }
{
    params.iter().all(|p| is_param_name(declared, p.1.bytes()))
}

fn is_param_name(declared: bool, name: &[u8]) -> bool
    ensures { result ≡ spec.is_param_name declared name.now }
{
    if declared {
        name.is_empty()
    } else {
        is_local_name(name)
    }
}

// The first label or result of a function that is not named as a local may be.
fn misspelled(k: usize, blocks: &[Block]) -> Option<Place>
    requires few { length blocks.now ≤ 2097152 }
    requires function { k < 2 ^ 32 }
    ensures { result ≡ first_of (misspelled k blocks.now) }
{
    for (b, block) in blocks.iter().enumerate() {
        if let Some(at) = misspelled_block(k, b, block) {
            return Some(at);
        }
    }
    None
}

fn misspelled_block(k: usize, b: usize, block: &Block) -> Option<Place>
    requires function { k < 2 ^ 32 }
    requires block { b < 2 ^ 32 }
    ensures { result ≡ first_of (misspelled_block k b block.now) }
{
    let label = unless(is_local_name(block.label.bytes()), item_place(k, b, 0));
    first_of_both(label, misspelled_result(k, b, block.instrs.as_slice()))
}

fn misspelled_result(k: usize, b: usize, instrs: &[Instr]) -> Option<Place>
    requires function { k < 2 ^ 32 }
    requires block { b < 2 ^ 32 }
    ensures { result ≡ first_of (result_places k b instrs.now) }
{
    for (i, x) in instrs.iter().enumerate() {
        if !has_result_name(x) {
            return Some(item_place(k, b, i));
        }
    }
    None
}

fn has_result_name(x: &Instr) -> bool
    ensures { result ≡ spec.has_result_name x.now }
{
    match x.result() {
        Some((name, _)) => is_local_name(name.bytes()),
        None => true,
    }
}
