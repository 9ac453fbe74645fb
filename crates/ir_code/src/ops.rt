// Instructions as operations.
ghost use Rattle.std.specs.Prelude.{◌≡◌, codes, if◌then◌else◌, IfOk};
ghost use Rattle.std.specs.Option.{option_copied};
ghost use Rattle.ir_tree.specs.Names.{same};
ghost use Rattle.ir_model.specs.Deed as model;
ghost use Rattle.ir_model.specs.Deed.{operator, comparison};
ghost use Rattle.ir_code.specs.Names.{number_in};
ghost use Rattle.ir_code.specs.Found.{counters_of, sites_of, input_in, indices_in, profile_op_in, call_op_in, op_in};
ghost use Rattle.ir_code.specs.declared.code.Input.TheVariants.{Number};
ghost use Rattle.ir_code.specs.declared.code.Op.TheVariants.{Gep, Add, Note, Fail};

use crate::code::{Input, Op};
use crate::names::Numbers;
use crate::operands::{behind_eight, indices, input, inputs, target, unit_of};
use crate::sizes::size_of;
use crate::symbols::Symbols;
use ir_tree::{BinOp, Instr, MemTy, Name, Operand, Pred, Ret, Seq, Ty, is_profile_name};
use ir_value::{ValueOp, ValuePred};
use pgo_base::NoMemory;
use std::alloc::Global;

fn value_op(op: BinOp) -> ValueOp
    ensures { result ≡ operator op }
{
    match op {
        BinOp::Add => ValueOp::Add,
        BinOp::Sub => ValueOp::Sub,
        BinOp::Mul => ValueOp::Mul,
        BinOp::UDiv => ValueOp::UDiv,
        BinOp::SDiv => ValueOp::SDiv,
        BinOp::URem => ValueOp::URem,
        BinOp::SRem => ValueOp::SRem,
        BinOp::Shl => ValueOp::Shl,
        BinOp::LShr => ValueOp::LShr,
        BinOp::AShr => ValueOp::AShr,
        BinOp::And => ValueOp::And,
        BinOp::Or => ValueOp::Or,
        BinOp::Xor => ValueOp::Xor,
    }
}

fn value_pred(pred: Pred) -> ValuePred
    ensures { result ≡ comparison pred }
{
    match pred {
        Pred::Eq => ValuePred::Eq,
        Pred::Ne => ValuePred::Ne,
        Pred::Ugt => ValuePred::Ugt,
        Pred::Uge => ValuePred::Uge,
        Pred::Ult => ValuePred::Ult,
        Pred::Ule => ValuePred::Ule,
        Pred::Sgt => ValuePred::Sgt,
        Pred::Sge => ValuePred::Sge,
        Pred::Slt => ValuePred::Slt,
        Pred::Sle => ValuePred::Sle,
    }
}

fn is_increment(name: &[u8]) -> bool
    ensures { result ≡ same (codes "llvm.instrprof.increment") name.now }
{
    b"llvm.instrprof.increment".as_slice() == name
}

fn is_increment_step(name: &[u8]) -> bool
    ensures { result ≡ same (codes "llvm.instrprof.increment.step") name.now }
{
    b"llvm.instrprof.increment.step".as_slice() == name
}

fn is_value_note(name: &[u8]) -> bool
    ensures { result ≡ same (codes "llvm.instrprof.value.profile") name.now }
{
    b"llvm.instrprof.value.profile".as_slice() == name
}

fn is_target_note(name: &[u8]) -> bool
    ensures { result ≡ same (codes "__llvm_profile_instrument_target") name.now }
{
    b"__llvm_profile_instrument_target".as_slice() == name
}

/// A counter of a unit that rises by a step.
fn add(
    symbols: &Symbols,
    registers: &Numbers,
    unit: &Operand,
    counter: &Operand,
    step: &Operand,
) -> Result<Op, NoMemory>
    ensures { IfOk result (λ op. op ≡ Add (counters_of symbols.now (model.unit_of unit.now)) (input_in symbols.now registers.now counter.now) (input_in symbols.now registers.now step.now)) }
{
    Ok(Op::Add {
        unit: symbols.counters(unit_of(unit)),
        counter: input(symbols, registers, counter)?,
        step: input(symbols, registers, step)?,
    })
}

/// A target that is noted at a site of a unit.
fn note(
    symbols: &Symbols,
    registers: &Numbers,
    unit: &Operand,
    site: &Operand,
    target: &Operand,
) -> Result<Op, NoMemory>
    ensures { IfOk result (λ op. op ≡ Note (sites_of symbols.now (model.unit_of unit.now)) (input_in symbols.now registers.now site.now) (input_in symbols.now registers.now target.now)) }
{
    Ok(Op::Note {
        unit: symbols.sites(unit_of(unit)),
        site: input(symbols, registers, site)?,
        target: input(symbols, registers, target)?,
    })
}

/// `llvm.instrprof.increment`, by its arguments.
fn increment_op(
    symbols: &Symbols,
    registers: &Numbers,
    name: &[u8],
    unit: &Operand,
    index: &Operand,
) -> Result<Op, NoMemory>
    ensures { IfOk result (λ op. op ≡ (if same (codes "llvm.instrprof.increment") name.now then Add (counters_of symbols.now (model.unit_of unit.now)) (input_in symbols.now registers.now index.now) (Number 1) else Fail)) }
{
    if !is_increment(name) {
        return Ok(Op::Fail);
    }
    Ok(Op::Add {
        unit: symbols.counters(unit_of(unit)),
        counter: input(symbols, registers, index)?,
        step: Input::Number(1),
    })
}

/// `llvm.instrprof.increment.step` or `llvm.instrprof.value.profile`, by five arguments, of which `second` is not read.
fn five_op(
    symbols: &Symbols,
    registers: &Numbers,
    name: &[u8],
    unit: &Operand,
    third: &Operand,
    fourth: &Operand,
    fifth: &Operand,
) -> Result<Op, NoMemory>
    ensures { IfOk result (λ op. op ≡ (if same (codes "llvm.instrprof.increment.step") name.now then Add (counters_of symbols.now (model.unit_of unit.now)) (input_in symbols.now registers.now fourth.now) (input_in symbols.now registers.now fifth.now) else (if same (codes "llvm.instrprof.value.profile") name.now then Note (sites_of symbols.now (model.unit_of unit.now)) (input_in symbols.now registers.now fifth.now) (input_in symbols.now registers.now third.now) else Fail))) }
{
    if is_increment_step(name) {
        add(symbols, registers, unit, fourth, fifth)
    } else if is_value_note(name) {
        note(symbols, registers, unit, fifth, third)
    } else {
        Ok(Op::Fail)
    }
}

/// `__llvm_profile_instrument_target`, by its arguments.
fn target_op(
    symbols: &Symbols,
    registers: &Numbers,
    name: &[u8],
    target: &Operand,
    unit: &Operand,
    site: &Operand,
) -> Result<Op, NoMemory>
    ensures { IfOk result (λ op. op ≡ (if same (codes "__llvm_profile_instrument_target") name.now then Note (sites_of symbols.now (model.unit_of unit.now)) (input_in symbols.now registers.now site.now) (input_in symbols.now registers.now target.now) else Fail)) }
{
    if !is_target_note(name) {
        return Ok(Op::Fail);
    }
    note(symbols, registers, unit, site, target)
}

/// A call of one of the functions of a profile.
fn profile_op(
    symbols: &Symbols,
    registers: &Numbers,
    name: &[u8],
    args: &[(Ty, Operand)],
) -> Result<Op, NoMemory>
    ensures { IfOk result (λ op. op ≡ profile_op_in symbols.now registers.now name.now args.now) }
{
    match args {
        [target, unit, site] => { target_op(symbols, registers, name, &target.1, &unit.1, &site.1) }
        [unit, _, _, index] => increment_op(symbols, registers, name, &unit.1, &index.1),
        [unit, _, third, fourth, fifth] => five_op(
            symbols, registers, name, &unit.1, &third.1, &fourth.1, &fifth.1,
        ),
        _ => Ok(Op::Fail),
    }
}

/// The function of a profile that a call names.
fn profile_callee(callee: &Operand) -> Option<&Name>
    ensures { option_copied result ≡ model.profile_callee callee.now }
{
    match callee {
        Operand::Global(name) => {
            if is_profile_name(name.bytes()) {
                Some(name)
            } else {
                None
            }
        }
        Operand::Int(_) | Operand::Null | Operand::Local(_) => None,
    }
}

/// A call.
fn call_op(
    alloc: Global,
    symbols: &Symbols,
    registers: &Numbers,
    dest: &Option<Name>,
    ret: Ret,
    callee: &Operand,
    args: &[(Ty, Operand)],
) -> Result<Op, NoMemory>
    ensures { IfOk result (λ op. op ≡ call_op_in symbols.now registers.now dest.now ret callee.now args.now (model.profile_callee callee.now)) }
{
    match profile_callee(callee) {
        Some(name) => profile_op(symbols, registers, name.bytes(), args),
        None => {
            let callee = input(symbols, registers, callee)?;
            let args = inputs(alloc, symbols, registers, args)?;
            Ok(Op::Call {
                into: target(registers, dest, ret),
                ret,
                callee,
                args: Seq::of(args),
            })
        }
    }
}

/// A `getelementptr`.
fn gep_op(
    alloc: Global,
    symbols: &Symbols,
    registers: &Numbers,
    dest: &Name,
    mem: &MemTy,
    address: &Operand,
    operands: &[(Ty, Operand)],
) -> Result<Op, NoMemory>
    ensures { IfOk result (λ op. op ≡ Gep (number_in registers.now dest.now) (input_in symbols.now registers.now address.now) (indices_in symbols.now registers.now mem.now operands.now)) }
{
    let address = input(symbols, registers, address)?;
    let all = indices(alloc, symbols, registers, mem, operands)?;
    Ok(Op::Gep {
        into: registers.number(dest),
        address,
        indices: Seq::of(all),
    })
}

/// The operation of an instruction.
pub fn op(
    alloc: Global,
    symbols: &Symbols,
    registers: &Numbers,
    instr: &Instr,
) -> Result<Op, NoMemory>
    ensures { IfOk result (λ op. op ≡ op_in symbols.now registers.now instr.now) }
{
    match instr {
        Instr::Binary {
            dest,
            op,
            ty,
            left,
            right,
            ..
        } => Ok(Op::Binary {
            into: registers.number(dest),
            op: value_op(*op),
            ty: *ty,
            left: input(symbols, registers, left)?,
            right: input(symbols, registers, right)?,
        }),
        Instr::Compare {
            dest,
            pred,
            ty,
            left,
            right,
        } => Ok(Op::Compare {
            into: registers.number(dest),
            pred: value_pred(*pred),
            ty: *ty,
            left: input(symbols, registers, left)?,
            right: input(symbols, registers, right)?,
        }),
        Instr::Convert {
            dest,
            op,
            from,
            value,
            to,
            ..
        } => Ok(Op::Convert {
            into: registers.number(dest),
            op: *op,
            from: *from,
            to: *to,
            value: input(symbols, registers, value)?,
        }),
        Instr::Freeze { dest, ty, value } => Ok(Op::Freeze {
            into: registers.number(dest),
            ty: *ty,
            value: input(symbols, registers, value)?,
        }),
        Instr::Select {
            dest,
            cond,
            ty,
            yes,
            no,
            ..
        } => Ok(Op::Select {
            into: registers.number(dest),
            ty: *ty,
            cond: input(symbols, registers, cond)?,
            yes: input(symbols, registers, yes)?,
            no: input(symbols, registers, no)?,
        }),
        Instr::Phi { .. } => Ok(Op::Fail),
        Instr::Alloca { dest, mem } => Ok(Op::Alloca {
            into: registers.number(dest),
            size: size_of(mem)?,
        }),
        Instr::Load { dest, ty, address } => Ok(Op::Load {
            into: registers.number(dest),
            ty: *ty,
            address: input(symbols, registers, address)?,
        }),
        Instr::Store { ty, value, address } => Ok(Op::Store {
            ty: *ty,
            value: input(symbols, registers, value)?,
            address: input(symbols, registers, address)?,
        }),
        Instr::Gep {
            dest,
            mem,
            address,
            indices,
            ..
        } => gep_op(
            alloc,
            symbols,
            registers,
            dest,
            mem,
            address,
            indices.as_slice(),
        ),
        Instr::Call {
            dest,
            ret,
            callee,
            args,
            ..
        } => call_op(
            alloc,
            symbols,
            registers,
            dest,
            *ret,
            callee,
            args.as_slice(),
        ),
        Instr::Count {
            symbol,
            index,
            step,
            ..
        } => Ok(Op::Add {
            unit: symbols.counters(behind_eight(symbol.bytes())),
            counter: Input::Number(*index),
            step: input(symbols, registers, step)?,
        }),
    }
}
