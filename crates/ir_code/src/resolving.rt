// From a module to code: names become numbers once.
ghost use Rattle.std.specs.Prelude.{◌≡◌, ℕ, List, ◌++◌, map, codes, IfOk, OnOk};
ghost use Rattle.std.specs.Option.{option_map};
ghost use Rattle.ir_tree.specs.Blocks.{labels};
ghost use Rattle.ir_tree.specs.Functions.{numbered};
ghost use Rattle.ir_tree.specs.Operands.{listed, result_name, result_names};
ghost use Rattle.ir_tree.specs.Phis as phi_spec;
ghost use Rattle.ir_model.specs.Step as model;
ghost use Rattle.ir_code.specs.Names.{AreNumbered};
ghost use Rattle.ir_code.specs.Found.{typed_input_in, exit_in, op_in, block_in, function_in};
ghost use Rattle.ir_code.specs.Resolved as spec;
ghost use Rattle.ir_code.specs.Resolved.{register_names};

use crate::cases::Cases;
use crate::code::{BlockCode, Exit, FunctionCode, Input, Op, Work};
use crate::names::Numbers;
use crate::operands::input;
use crate::ops::op;
use crate::phis::{IndexedPhi, edges, phis_of_blocks};
use crate::symbols::Symbols;
use ir_tree::{
    Block, Function, Instr, Name, Operand, Seq, Term, Ty, is_print_name, is_profile_name, phi_count,
};
use pgo_base::NoMemory;
use std::alloc::Global;

fn returned(
    symbols: &Symbols,
    registers: &Numbers,
    value: &Option<(Ty, Operand)>,
) -> Result<Option<(Ty, Input)>, NoMemory>
    ensures { IfOk result (λ v. v ≡ option_map (typed_input_in symbols.now registers.now) value.now) }
{
    match value {
        Some((ty, operand)) => Ok(Some((*ty, input(symbols, registers, operand)?))),
        None => Ok(None),
    }
}

/// The values of a switch's cases.
fn case_values(alloc: Global, cases: &[(u64, Name)]) -> Result<Vec<u64>, NoMemory>
    ensures { IfOk result (λ values. values.items ≡ map (λ c. c.0) cases.now) }
{
    let mut values = Vec::with_capacity(alloc, cases.len())?;
    for (value, _) in cases {
        values.push(*value)?;
    }
    Ok(values)
}

fn exit(
    alloc: Global,
    symbols: &Symbols,
    registers: &Numbers,
    term: &Term,
) -> Result<Exit, NoMemory>
    ensures { IfOk result (λ e. e ≡ exit_in symbols.now registers.now term.now) }
{
    match term {
        Term::Br { .. } => Ok(Exit::Go),
        Term::CondBr { cond, .. } => Ok(Exit::Choose {
            cond: input(symbols, registers, cond)?,
        }),
        Term::Switch {
            ty,
            value,
            cases,
            ..
        } => {
            let value = input(symbols, registers, value)?;
            let cases = Cases::of(alloc, case_values(alloc, cases.as_slice())?)?;
            Ok(Exit::Switch {
                ty: *ty,
                value,
                cases,
            })
        }
        Term::Ret { value } => Ok(Exit::Return {
            value: returned(symbols, registers, value)?,
        }),
        Term::Unreachable => Ok(Exit::Unreachable),
    }
}

/// The operations of instructions.
fn ops(
    alloc: Global,
    symbols: &Symbols,
    registers: &Numbers,
    instrs: &[Instr],
) -> Result<Vec<Op>, NoMemory>
    ensures { IfOk result (λ ops. ops.items ≡ map (op_in symbols.now registers.now) instrs.now) }
{
    let mut ops = Vec::with_capacity(alloc, instrs.len())?;
    for instr in instrs {
        ops.push(op(alloc, symbols, registers, instr)?)?;
    }
    Ok(ops)
}

/// What stands behind the phis in front of a list of instructions.
fn behind_phis(instrs: &[Instr]) -> &[Instr]
    ensures { result.now ≡ phi_spec.behind_phis instrs.now }
{
    instrs.split_at(phi_count(instrs)).1
}

fn resolve_block(
    alloc: Global,
    symbols: &Symbols,
    registers: &Numbers,
    labels: &Numbers,
    phis: &[Seq<IndexedPhi>],
    block: &Block,
) -> Result<BlockCode, NoMemory>
    ensures { IfOk result (λ b. b ≡ block_in symbols.now registers.now labels.now phis.now block.now) }
{
    let instrs = block.instrs.as_slice();
    let ops = ops(alloc, symbols, registers, behind_phis(instrs))?;
    let exit = exit(alloc, symbols, registers, &block.term)?;
    let edges = edges(
        alloc,
        symbols,
        registers,
        labels,
        phis,
        &block.label,
        &block.term,
    )?;
    Ok(BlockCode {
        ops: Seq::of(ops),
        exit,
        edges: Seq::of(edges),
    })
}

fn add_result(alloc: Global, registers: &mut Numbers, instr: &Instr) -> Result<(), NoMemory>
    ensures { (names : List (List ℕ)) → AreNumbered registers.old names → OnOk result (AreNumbered registers.new (names ++ listed (result_name instr.now))) }
{
    match instr.result() {
        Some((name, _ret)) => registers.add(alloc, name),
        None => Ok(()),
    }
}

fn add_results(alloc: Global, registers: &mut Numbers, instrs: &[Instr]) -> Result<(), NoMemory>
    ensures { (names : List (List ℕ)) → AreNumbered registers.old names → OnOk result (AreNumbered registers.new (names ++ result_names instrs.now)) }
{
    for instr in instrs {
        add_result(alloc, registers, instr)?;
    }
    Ok(())
}

fn add_params(alloc: Global, registers: &mut Numbers, params: &[(Ty, Name)]) -> Result<(), NoMemory>
    ensures { (names : List (List ℕ)) → AreNumbered registers.old names → OnOk result (AreNumbered registers.new (names ++ map (λ p. p.1) params.now)) }
{
    for (_, name) in params {
        registers.add(alloc, name)?;
    }
    Ok(())
}

/// Numbers the registers of a function: its parameters, and then the results of its blocks.
fn number_registers(alloc: Global, function: &Function) -> Result<Numbers, NoMemory>
    ensures { IfOk result (λ registers. AreNumbered registers (register_names function.now)) }
{
    let mut registers = Numbers::new(alloc);
    add_params(alloc, &mut registers, function.params.as_slice())?;
    for block in function.blocks.as_slice() {
        add_results(alloc, &mut registers, block.instrs.as_slice())?;
    }
    Ok(registers)
}

/// Numbers the labels of blocks.
fn number_labels(alloc: Global, blocks: &[Block]) -> Result<Numbers, NoMemory>
    ensures { IfOk result (λ numbers. AreNumbered numbers (labels blocks.now)) }
{
    let mut numbers = Numbers::new(alloc);
    for block in blocks {
        numbers.add(alloc, &block.label)?;
    }
    Ok(numbers)
}

fn resolve_blocks(
    alloc: Global,
    symbols: &Symbols,
    registers: &Numbers,
    labels: &Numbers,
    phis: &[Seq<IndexedPhi>],
    blocks: &[Block],
) -> Result<Vec<BlockCode>, NoMemory>
    ensures { IfOk result (λ codes. codes.items ≡ map (block_in symbols.now registers.now labels.now phis.now) blocks.now) }
{
    let mut codes = Vec::with_capacity(alloc, blocks.len())?;
    for block in blocks {
        codes.push(resolve_block(alloc, symbols, registers, labels, phis, block)?)?;
    }
    Ok(codes)
}

/// The types of parameters.
fn param_types(alloc: Global, params: &[(Ty, Name)]) -> Result<Vec<Ty>, NoMemory>
    ensures { IfOk result (λ types. types.items ≡ map (λ p. p.0) params.now) }
{
    let mut types = Vec::with_capacity(alloc, params.len())?;
    for (ty, _) in params {
        types.push(*ty)?;
    }
    Ok(types)
}

/// Whether a function of this name marks where an object lives (LLVM Language Reference, "Memory Use Markers").
fn marks_lifetime(name: &[u8]) -> bool
    ensures { result ≡ model.marks_lifetime name.now }
{
    b"llvm.lifetime.start.p0".as_slice() == name || b"llvm.lifetime.end.p0".as_slice() == name
}

/// What a declared function of this name does.
fn work(name: &[u8]) -> Work
    ensures { result ≡ spec.work_of name.now }
{
    if is_print_name(name) {
        Work::Print
    } else if marks_lifetime(name) {
        Work::Nothing
    } else {
        Work::External
    }
}

fn resolve_function(
    alloc: Global,
    symbols: &Symbols,
    function: &Function,
) -> Result<FunctionCode, NoMemory>
    ensures { IfOk result (λ f. f ≡ function_in symbols.now function.now) }
{
    let registers = number_registers(alloc, function)?;
    let blocks = function.blocks.as_slice();
    let labels = number_labels(alloc, blocks)?;
    let phis = phis_of_blocks(alloc, blocks)?;
    let codes = resolve_blocks(alloc, symbols, &registers, &labels, phis.as_slice(), blocks)?;
    let params = param_types(alloc, function.params.as_slice())?;
    Ok(FunctionCode {
        ret: function.ret,
        params: Seq::of(params),
        registers: registers.count(),
        blocks: Seq::of(codes),
        work: work(function.name.bytes()),
    })
}

/// The code of each function that has a number, in order.
pub fn resolve_functions(
    alloc: Global,
    symbols: &Symbols,
    functions: &[Function],
) -> Result<Vec<FunctionCode>, NoMemory>
    ensures { IfOk result (λ codes. codes.items ≡ map (function_in symbols.now) (numbered functions.now)) }
{
    let mut codes = Vec::new(alloc);
    for function in functions {
        if !is_profile_name(function.name.bytes()) {
            codes.push(resolve_function(alloc, symbols, function)?)?;
        }
    }
    Ok(codes)
}
