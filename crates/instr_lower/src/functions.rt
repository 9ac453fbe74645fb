// Lowered blocks and functions, which are copies with other instructions.
ghost use Rattle.std.specs.Prelude.{◌≡◌, ◌++◌, ◌∷◌, [], map, IfOk, OnOk};
ghost use Rattle.instr_lower.specs.Parts.{lowered_own};
ghost use Rattle.ir_rules.specs.Reserved.{is_of_intrinsics};
ghost use Rattle.lowering.specs.Lowered as spec;

use crate::instrs::{lowered_instr, runtime_name};
use ir_tree::{Block, Function, Instr, Name, Prof, Ret, Seq, Ty};
use pgo_base::NoMemory;
use sqlite_items::Boxed;
use std::alloc::Global;

fn lowered_instrs(alloc: Global, instrs: &[Instr]) -> Result<Seq<Instr>, NoMemory>
    ensures { IfOk result (λ made. made ≡ map spec.lowered_instr instrs.now) }
{
    let mut made = Vec::with_capacity(alloc, instrs.len())?;
    for instr in instrs {
        made.push(lowered_instr(alloc, instr)?)?;
    }
    Ok(Seq::of(made))
}

fn lowered_block(alloc: Global, block: &Block) -> Result<Block, NoMemory>
    ensures { IfOk result (λ made. made ≡ spec.lowered_block block.now) }
{
    Ok(Block {
        label: block.label.copy(alloc)?,
        instrs: lowered_instrs(alloc, block.instrs.as_slice())?,
        term: block.term.copy(alloc)?,
    })
}

fn lowered_blocks(alloc: Global, blocks: &[Block]) -> Result<Seq<Block>, NoMemory>
    ensures { IfOk result (λ made. made ≡ map spec.lowered_block blocks.now) }
{
    let mut made = Vec::with_capacity(alloc, blocks.len())?;
    for block in blocks {
        made.push(lowered_block(alloc, block)?)?;
    }
    Ok(Seq::of(made))
}

fn params_of(alloc: Global, params: &[(Ty, Name)]) -> Result<Seq<(Ty, Name)>, NoMemory>
    ensures { IfOk result (λ made. made ≡ params.now) }
{
    let mut made = Vec::with_capacity(alloc, params.len())?;
    for param in params {
        made.push((param.0, param.1.copy(alloc)?))?;
    }
    Ok(Seq::of(made))
}

fn prof_of(alloc: Global, prof: &Option<Boxed<Prof>>) -> Result<Option<Boxed<Prof>>, NoMemory>
    ensures { IfOk result (λ made. made ≡ prof.now) }
{
    match prof {
        Some(prof) => {
            let copy = prof.get().copy(alloc)?;
            Ok(Some(Boxed::new(alloc, copy)?))
        }
        None => Ok(None),
    }
}

fn lowered_function(alloc: Global, function: &Function) -> Result<Function, NoMemory>
    ensures { IfOk result (λ made. made ≡ spec.lowered_function function.now) }
{
    Ok(Function {
        name: function.name.copy(alloc)?,
        ret: function.ret,
        params: params_of(alloc, function.params.as_slice())?,
        blocks: lowered_blocks(alloc, function.blocks.as_slice())?,
        prof: prof_of(alloc, &function.prof)?,
    })
}

#[tactic(auto, unfolding(ir_rules::specs::Reserved::is_of_intrinsics))]
fn is_of_intrinsics(name: &[u8]) -> bool
    ensures { result ≡ is_of_intrinsics name.now }
{
    name.starts_with(b"llvm.instrprof.".as_slice())
}

// Appends a function that is no intrinsic.
fn push_function(
    alloc: Global,
    function: &Function,
    made: &mut Vec<Function>,
) -> Result<(), NoMemory>
    ensures { OnOk result (made.new.items ≡ made.old.items ++ lowered_own (function.now ∷ [])) }
{
    if !is_of_intrinsics(function.name.bytes()) {
        made.push(lowered_function(alloc, function)?)?;
    }
    Ok(())
}

// `declare void @__llvm_profile_instrument_target(i64, ptr, i32)`
fn runtime_declaration(alloc: Global) -> Result<Function, NoMemory>
    ensures { IfOk result (λ made. made ≡ spec.runtime_declaration) }
{
    let mut params = Vec::with_capacity(alloc, 3)?;
    params.push((Ty::I64, Name::default()))?;
    params.push((Ty::Ptr, Name::default()))?;
    params.push((Ty::I32, Name::default()))?;
    Ok(Function {
        name: Name::of(alloc, runtime_name())?,
        ret: Ret::Void,
        params: Seq::of(params),
        blocks: Seq::new(alloc),
        prof: None,
    })
}

// The functions without the intrinsics, each lowered, and the profile runtime's.
pub(crate) fn lowered_functions(
    alloc: Global,
    functions: &[Function],
) -> Result<Seq<Function>, NoMemory>
    ensures { IfOk result (λ made. made ≡ spec.lowered_functions functions.now) }
{
    let mut made = own_functions(alloc, functions)?;
    made.push(runtime_declaration(alloc)?)?;
    Ok(Seq::of(made))
}

fn own_functions(alloc: Global, functions: &[Function]) -> Result<Vec<Function>, NoMemory>
    ensures { IfOk result (λ made. made.items ≡ lowered_own functions.now) }
{
    let mut made = Vec::with_capacity(alloc, functions.len())?;
    for function in functions {
        push_function(alloc, function, &mut made)?;
    }
    Ok(made)
}
