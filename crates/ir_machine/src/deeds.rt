// Operations other than calls: each gives a value or is seen, or it traps.
ghost use Rattle.std.specs.Prelude.{◌≡◌, ◌<◌, ◌^◌, ◌==◌, pos, ◌+ℤ◌, Some, None, [], if◌then◌else◌, length, IfOk, IfSome};
ghost use Rattle.ir_tree.specs.Types.{is_pointer_type};
ghost use Rattle.ir_tree.specs.declared.types.Ty.TheVariants.{I1, I64};
ghost use Rattle.ir_value.specs.Integer.{IsWidth, wrapped, signed_of};
ghost use Rattle.ir_value.specs.Operators.{binary_of, compare_of};
ghost use Rattle.ir_memory.specs.Memory.{loaded, stored};
ghost use Rattle.ir_memory.specs.declared.value.Value.TheVariants as value;
ghost use Rattle.ir_model.specs.Deed as model;
ghost use Rattle.ir_model.specs.Sizes as sizes;
ghost use Rattle.ir_model.specs.Values as values;
ghost use Rattle.ir_code.specs.Units.{added};
ghost use Rattle.ir_machine.specs.Turns.{turn_of};
ghost use Rattle.ir_machine.specs.declared.state.Turn.TheVariants as turn;
ghost use Rattle.ir_machine.specs.Steps.{input_value, distance, noted_at, Gives, computed, allocated, read_as, wrote, DoesAlone};

use crate::registers::{assign, number_of, typed_value_of, value_of};
use crate::state::{Answer, Machine, Sight, Turn};
use ir_code::{
    Input, Scaled, Span, as_number, at_type, base_of, bits_of, bytes_of, is_pointer, offset_of,
};
use ir_memory::{Base, MemError, Value};
use ir_model::TrapKind;
use ir_tree::{ConvOp, Ty};
use ir_value::{DivTrap, ValueOp, ValuePred, binary, compare, convert_signed, truncate};
use pgo_base::NoMemory;

/// The value of an operand of the function that runs.
#[inline(always)]
fn value_in(machine: &Machine, input: &Input) -> Value
    ensures { result ≡ input_value machine.now.top.registers input.now }
{
    value_of(machine.top.registers.as_slice(), input)
}

/// The value of an operand at a type, as a number.
#[inline(always)]
fn number_in(machine: &Machine, ty: Ty, input: &Input) -> u64
    ensures value { result ≡ values.number_at ty (input_value machine.now.top.registers input.now) }
    ensures fits { result < 2 ^ values.bits_of ty }
{
    number_of(machine.top.registers.as_slice(), ty, input)
}

/// Puts a value into a register.
#[inline(always)]
fn put(machine: &mut Machine, into: usize, value: Value)
    ensures { DoesAlone machine.old (Gives (Some into) value machine.old.memory []) turn.Goes machine.new }
{
    assign(machine.top.registers.as_mut_slice(), into, value);
}

/// Goes on with a value in a register.
#[inline(always)]
pub fn give(machine: &mut Machine, into: usize, value: Value) -> Turn
    ensures { DoesAlone machine.old (Gives (Some into) value machine.old.memory []) result machine.new }
{
    put(machine, into, value);
    Turn::Goes
}

/// Goes on with the result of an operator in a register, or stops with its trap.
#[inline(always)]
fn finish(machine: &mut Machine, into: usize, outcome: Result<u64, DivTrap>) -> Turn
    ensures { DoesAlone machine.old (computed into machine.old.memory outcome) result machine.new }
{
    match outcome {
        Ok(number) => give(machine, into, Value::Int(number)),
        Err(DivTrap::DivZero) => Turn::Traps(TrapKind::DivZero),
        Err(DivTrap::DivOverflow) => Turn::Traps(TrapKind::DivOverflow),
    }
}

/// What an operator gives. Each that never traps is called by its name, so that it alone is put in line.
#[inline(always)]
fn operate(op: ValueOp, width: u32, left: u64, right: u64) -> Result<u64, DivTrap>
    requires width { IsWidth width }
    requires left { left < 2 ^ width }
    requires right { right < 2 ^ width }
    ensures { result ≡ binary_of op width left right }
{
    match op {
        ValueOp::Add => binary(ValueOp::Add, width, left, right),
        ValueOp::Sub => binary(ValueOp::Sub, width, left, right),
        ValueOp::Mul => binary(ValueOp::Mul, width, left, right),
        ValueOp::Shl => binary(ValueOp::Shl, width, left, right),
        ValueOp::LShr => binary(ValueOp::LShr, width, left, right),
        ValueOp::AShr => binary(ValueOp::AShr, width, left, right),
        ValueOp::And => binary(ValueOp::And, width, left, right),
        ValueOp::Or => binary(ValueOp::Or, width, left, right),
        ValueOp::Xor => binary(ValueOp::Xor, width, left, right),
        ValueOp::UDiv | ValueOp::SDiv | ValueOp::URem | ValueOp::SRem => {
            let quotient = binary(op, width, left, right);
            quotient
        }
    }
}

/// An operator.
#[inline(always)]
pub fn compute(
    machine: &mut Machine,
    into: usize,
    op: ValueOp,
    ty: Ty,
    left: &Input,
    right: &Input,
) -> Turn
    ensures { DoesAlone machine.old (computed into machine.old.memory (binary_of op (values.bits_of ty) (values.number_at ty (input_value machine.old.top.registers left.now)) (values.number_at ty (input_value machine.old.top.registers right.now)))) result machine.new }
{
    let left = number_in(machine, ty, left);
    let right = number_in(machine, ty, right);
    finish(machine, into, operate(op, bits_of(ty), left, right))
}

/// A comparison.
#[inline(always)]
pub fn compare_numbers(
    machine: &mut Machine,
    into: usize,
    pred: ValuePred,
    ty: Ty,
    left: &Input,
    right: &Input,
) -> Turn
    ensures { DoesAlone machine.old (Gives (Some into) (value.Int (if compare_of pred (values.bits_of ty) (values.number_at ty (input_value machine.old.top.registers left.now)) (values.number_at ty (input_value machine.old.top.registers right.now)) then 1 else 0)) machine.old.memory []) result machine.new }
{
    let left = number_in(machine, ty, left);
    let right = number_in(machine, ty, right);
    let holds = compare(pred, bits_of(ty), left, right);
    give(machine, into, Value::Int(u64::from(holds)))
}

/// What a conversion gives.
fn converted(op: ConvOp, from: Ty, to: Ty, number: u64) -> u64
    requires { number < 2 ^ values.bits_of from }
    ensures { result ≡ model.converted op (values.bits_of from) (values.bits_of to) number }
{
    match op {
        ConvOp::Trunc | ConvOp::PtrToInt => truncate(bits_of(to), number),
        ConvOp::ZExt => number,
        ConvOp::SExt => convert_signed(bits_of(from), bits_of(to), number),
    }
}

/// A conversion.
pub fn convert(
    machine: &mut Machine,
    into: usize,
    op: ConvOp,
    from: Ty,
    to: Ty,
    input: &Input,
) -> Turn
    ensures { DoesAlone machine.old (Gives (Some into) (value.Int (model.converted op (values.bits_of from) (values.bits_of to) (values.number_at from (input_value machine.old.top.registers input.now)))) machine.old.memory []) result machine.new }
{
    let number = number_in(machine, from, input);
    give(machine, into, Value::Int(converted(op, from, to, number)))
}

/// A `freeze`, which gives the value itself.
pub fn freeze(machine: &mut Machine, into: usize, ty: Ty, input: &Input) -> Turn
    ensures { DoesAlone machine.old (Gives (Some into) (values.at_type ty (input_value machine.old.top.registers input.now)) machine.old.memory []) result machine.new }
{
    let value = typed_value_of(machine.top.registers.as_slice(), ty, input);
    give(machine, into, value)
}

/// A `select`: the first value where the condition is 1, else the second.
pub fn select(
    machine: &mut Machine,
    into: usize,
    ty: Ty,
    cond: &Input,
    yes: &Input,
    no: &Input,
) -> Turn
    ensures { DoesAlone machine.old (Gives (Some into) (values.at_type ty (if values.number_at I1 (input_value machine.old.top.registers cond.now) == 0 then input_value machine.old.top.registers no.now else input_value machine.old.top.registers yes.now)) machine.old.memory []) result machine.new }
{
    let chosen = if number_in(machine, Ty::I1, cond) == 0 {
        value_in(machine, no)
    } else {
        value_in(machine, yes)
    };
    give(machine, into, at_type(ty, chosen))
}

/// A new object, unless the live cells would be too many.
pub fn allocate(machine: &mut Machine, into: usize, size: u64) -> Result<Turn, NoMemory>
    ensures { IfOk result (λ turn. DoesAlone machine.old (allocated into machine.old.memory size) turn machine.new) }
{
    if machine.memory.next() == u64::MAX {
        // No run takes so many steps.
        return Err(NoMemory);
    }
    match machine.memory.make(size, false) {
        Ok(object) => Ok(give(
            machine,
            into,
            Value::Pointer {
                base: Base::Object(object),
                offset: 0,
            },
        )),
        Err(MemError::Cells) => Ok(Turn::Traps(TrapKind::Cells)),
        Err(MemError::Access | MemError::BadPointer | MemError::NoMemory) => Err(NoMemory),
    }
}

/// The trap of a refused load or store.
fn trap_of(error: MemError) -> TrapKind
    ensures { result ≡ model.trap_of error }
{
    match error {
        MemError::Cells => TrapKind::Cells,
        MemError::Access | MemError::NoMemory => TrapKind::Access,
        MemError::BadPointer => TrapKind::BadPointer,
    }
}

/// A load.
#[inline(never)]
pub fn load(machine: &mut Machine, into: usize, ty: Ty, address: &Input) -> Answer
    ensures { IfSome (turn_of machine.new result) (λ turn. DoesAlone machine.old (read_as into machine.old.memory ty (loaded machine.old.memory (values.base_of (input_value machine.old.top.registers address.now)) (values.offset_of (input_value machine.old.top.registers address.now)) (sizes.bytes_of ty) (is_pointer_type ty))) turn machine.new) }
{
    let address = value_in(machine, address);
    let loaded = machine.memory.load(
        base_of(address),
        offset_of(address),
        bytes_of(ty),
        is_pointer(ty),
    );
    match loaded {
        Ok(value) => {
            put(machine, into, at_type(ty, value));
            Answer::Goes
        }
        Err(error) => Answer::Fails(trap_of(error)),
    }
}

/// A store.
#[inline(never)]
pub fn store(machine: &mut Machine, ty: Ty, input: &Input, address: &Input) -> Answer
    ensures { IfSome (turn_of machine.new result) (λ turn. DoesAlone machine.old (wrote (stored machine.old.memory (values.base_of (input_value machine.old.top.registers address.now)) (values.offset_of (input_value machine.old.top.registers address.now)) (sizes.bytes_of ty) (values.at_type ty (input_value machine.old.top.registers input.now)))) turn machine.new) }
{
    let address = value_in(machine, address);
    let value = typed_value_of(machine.top.registers.as_slice(), ty, input);
    let stored = machine
        .memory
        .store(base_of(address), offset_of(address), bytes_of(ty), value);
    match stored {
        Ok(()) => Answer::Goes,
        Err(error) => Answer::Fails(trap_of(error)),
    }
}

/// The offset of a pointer that is moved by indices, modulo 2^64.
fn travel(registers: &[Value], start: u64, indices: &[Scaled]) -> u64
    ensures { result ≡ wrapped 64 (pos start +ℤ distance registers.now indices.now) }
{
    let mut offset = start;
    for one in indices {
        let number = number_of(registers, one.ty, &one.index);
        let index = convert_signed(bits_of(one.ty), 64, number);
        offset = offset.wrapping_add(index.wrapping_mul(one.size));
    }
    offset
}

/// A `getelementptr`.
pub fn point(machine: &mut Machine, into: usize, address: &Input, indices: &[Scaled]) -> Turn
    ensures { DoesAlone machine.old (Gives (Some into) (model.moved (input_value machine.old.top.registers address.now) (distance machine.old.top.registers indices.now)) machine.old.memory []) result machine.new }
{
    let address = value_in(machine, address);
    let registers = machine.top.registers.as_slice();
    let offset = travel(registers, offset_of(address), indices);
    let base = base_of(address);
    give(machine, into, Value::Pointer { base, offset })
}

/// A counter of a unit rises; one that the unit does not have is not told.
pub fn add(machine: &Machine, unit: Span, counter: &Input, step: &Input) -> Result<Turn, NoMemory>
    ensures { IfOk result (λ turn. DoesAlone machine.now (Gives None (value.Int 0) machine.now.memory (added unit (values.as_number (input_value machine.now.top.registers counter.now)) (values.number_at I64 (input_value machine.now.top.registers step.now)))) turn machine.now) }
{
    let counter = as_number(value_in(machine, counter));
    let step = number_in(machine, Ty::I64, step);
    if counter >= u64::from(unit.count) {
        return Ok(Turn::Goes);
    }
    match unit.first.checked_add(counter as u32) {
        Some(counter) => Ok(Turn::Sees(Sight::Added { counter, step })),
        // No accepted module has so many counters.
        None => Err(NoMemory),
    }
}
