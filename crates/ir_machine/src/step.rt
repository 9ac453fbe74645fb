// One step of the machine.
ghost use Rattle.std.specs.Prelude.{◌≡◌, Some, length, map, slice_get, IfOk};
ghost use Rattle.ir_tree.specs.Types.{is_pointer_type};
ghost use Rattle.ir_memory.specs.Memory.{loaded, stored};
ghost use Rattle.ir_model.specs.Sizes as sizes;
ghost use Rattle.ir_model.specs.Values as values;
ghost use Rattle.ir_machine.specs.Steps as spec;
ghost use Rattle.ir_machine.specs.Steps.{code_step, deed, input_value, read_as, state_of, valued, wrote, After, Comes, Does, DoesAlone};

use crate::answers::turn_of;
use crate::calls::{call, note};
use crate::deeds::{
    add, allocate, compare_numbers, compute, convert, freeze, load, point, select, store,
};
use crate::exits::leave;
use crate::state::{Machine, Turn};
use ir_code::{BlockCode, FunctionCode, Input, Op, Target};
use ir_model::TrapKind;
use ir_tree::{Ret, Ty};
use pgo_base::NoMemory;

/// Performs an operation that the machine counts as done.
#[inline(never)]
fn perform_any(functions: &[FunctionCode], machine: &mut Machine, op: &Op) -> Result<Turn, NoMemory>
    ensures { IfOk result (λ turn. Does functions.now machine.old (deed machine.old.top.registers (length functions.now) machine.old.memory op.now) turn machine.new) }
{
    match op {
        Op::Binary {
            into,
            op,
            ty,
            left,
            right,
        } => Ok(compute(machine, *into, *op, *ty, left, right)),
        Op::Compare {
            into,
            pred,
            ty,
            left,
            right,
        } => Ok(compare_numbers(machine, *into, *pred, *ty, left, right)),
        Op::Convert {
            into,
            op,
            from,
            to,
            value,
        } => Ok(convert(machine, *into, *op, *from, *to, value)),
        Op::Freeze { into, ty, value } => Ok(freeze(machine, *into, *ty, value)),
        Op::Select {
            into,
            ty,
            cond,
            yes,
            no,
        } => Ok(select(machine, *into, *ty, cond, yes, no)),
        Op::Alloca { into, size } => allocate(machine, *into, *size),
        Op::Load { into, ty, address } => load_apart(machine, *into, *ty, address),
        Op::Store { ty, value, address } => store_apart(machine, *ty, value, address),
        Op::Gep {
            into,
            address,
            indices,
        } => Ok(point(machine, *into, address, indices.as_slice())),
        Op::Call {
            into,
            ret,
            callee,
            args,
        } => call_apart(functions, machine, into, *ret, callee, args.as_slice()),
        Op::Add {
            unit,
            counter,
            step,
        } => add(machine, *unit, counter, step),
        Op::Note { unit, site, target } => note(functions.len(), machine, *unit, site, target),
        Op::Fail => Ok(Turn::Traps(TrapKind::Unreachable)),
    }
}

/// A load, out of the loop over the steps.
#[inline(always)]
fn load_apart(machine: &mut Machine, into: usize, ty: Ty, address: &Input) -> Result<Turn, NoMemory>
    ensures { IfOk result (λ turn. DoesAlone machine.old (read_as into machine.old.memory ty (loaded machine.old.memory (values.base_of (input_value machine.old.top.registers address.now)) (values.offset_of (input_value machine.old.top.registers address.now)) (sizes.bytes_of ty) (is_pointer_type ty))) turn machine.new) }
{
    let answer = load(machine, into, ty, address);
    turn_of(machine, answer)
}

/// A store, out of the loop over the steps.
#[inline(always)]
fn store_apart(
    machine: &mut Machine,
    ty: Ty,
    input: &Input,
    address: &Input,
) -> Result<Turn, NoMemory>
    ensures { IfOk result (λ turn. DoesAlone machine.old (wrote (stored machine.old.memory (values.base_of (input_value machine.old.top.registers address.now)) (values.offset_of (input_value machine.old.top.registers address.now)) (sizes.bytes_of ty) (values.at_type ty (input_value machine.old.top.registers input.now)))) turn machine.new) }
{
    let answer = store(machine, ty, input, address);
    turn_of(machine, answer)
}

/// A call, out of the loop over the steps.
#[inline(always)]
fn call_apart(
    functions: &[FunctionCode],
    machine: &mut Machine,
    into: &Option<Target>,
    ret: Ret,
    callee: &Input,
    args: &[(Ty, Input)],
) -> Result<Turn, NoMemory>
    ensures { IfOk result (λ turn. Does functions.now machine.old (spec.Calls into.now ret (values.as_number (input_value machine.old.top.registers callee.now)) (map (valued machine.old.top.registers) args.now)) turn machine.new) }
{
    let answer = call(functions, machine, into, ret, callee, args);
    turn_of(machine, answer)
}

/// Any operation, out of the loop over the steps.
#[inline(always)]
fn perform_apart(
    functions: &[FunctionCode],
    machine: &mut Machine,
    op: &Op,
) -> Result<Turn, NoMemory>
    ensures { IfOk result (λ turn. Does functions.now machine.old (deed machine.old.top.registers (length functions.now) machine.old.memory op.now) turn machine.new) }
{
    let turn = perform_any(functions, machine, op)?;
    Ok(turn)
}

/// Performs an operation that the machine counts as done. The loop over the steps has the operators and comparisons in
/// line, and the rest out of it. What comes from there is taken apart, so that the turn itself stays in registers.
#[inline(always)]
fn perform(functions: &[FunctionCode], machine: &mut Machine, op: &Op) -> Result<Turn, NoMemory>
    ensures { IfOk result (λ turn. Does functions.now machine.old (deed machine.old.top.registers (length functions.now) machine.old.memory op.now) turn machine.new) }
{
    match op {
        Op::Binary {
            into,
            op,
            ty,
            left,
            right,
        } => Ok(compute(machine, *into, *op, *ty, left, right)),
        Op::Compare {
            into,
            pred,
            ty,
            left,
            right,
        } => Ok(compare_numbers(machine, *into, *pred, *ty, left, right)),
        Op::Load { into, ty, address } => load_apart(machine, *into, *ty, address),
        Op::Store { ty, value, address } => store_apart(machine, *ty, value, address),
        Op::Call {
            into,
            ret,
            callee,
            args,
        } => call_apart(functions, machine, into, *ret, callee, args.as_slice()),
        _ => perform_apart(functions, machine, op),
    }
}

/// One step in a block.
#[inline(always)]
fn step_in(
    functions: &[FunctionCode],
    block: &BlockCode,
    machine: &mut Machine,
) -> Result<Turn, NoMemory>
    ensures { IfOk result (λ turn. Comes machine.old (λ fr rest sh. spec.in_block functions.now fr rest sh (Some block.now)) turn machine.new) }
{
    match block.ops.as_slice().get(machine.top.place) {
        Some(op) => {
            machine.top.place += 1;
            perform(functions, machine, op)
        }
        None => leave(machine, block.edges.as_slice(), &block.exit),
    }
}

/// One step in a function.
#[inline(always)]
fn step_function(
    functions: &[FunctionCode],
    function: &FunctionCode,
    machine: &mut Machine,
) -> Result<Turn, NoMemory>
    ensures { IfOk result (λ turn. Comes machine.old (λ fr rest sh. spec.in_function functions.now fr rest sh (Some function.now)) turn machine.new) }
{
    match function.blocks.as_slice().get(machine.top.block) {
        Some(block) => step_in(functions, block, machine),
        None => Ok(Turn::Traps(TrapKind::Unreachable)),
    }
}

/// One step: an operation or a terminator of the function that was called last.
#[inline(always)]
pub fn step(functions: &[FunctionCode], machine: &mut Machine) -> Result<Turn, NoMemory>
    ensures { IfOk result (λ turn. After (code_step functions.now (state_of machine.old)) machine.old.printed.items turn machine.new) }
{
    match functions.get(machine.top.function) {
        Some(function) => step_function(functions, function, machine),
        None => Ok(Turn::Traps(TrapKind::Unreachable)),
    }
}
