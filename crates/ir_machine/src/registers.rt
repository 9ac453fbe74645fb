// The registers of a function.
ghost use Rattle.std.specs.Prelude.{◌≡◌, ◌<◌, ◌^◌, map, Some, slice_get, slice_set, OnOk};
ghost use Rattle.ir_model.specs.Values as values;
ghost use Rattle.ir_machine.specs.Steps.{register_value, input_value, with_value, with_target, put_all, moved_all};

use ir_code::{Input, Move, Target, at_type, bits_of, number_at};
use ir_memory::{Base, Value};
use ir_tree::Ty;
use ir_value::truncate;
use pgo_base::NoMemory;

/// The value at a place, 0 where there is none.
#[inline(always)]
fn value_at(values: &[Value], place: usize) -> Value
    ensures { result ≡ register_value values.now place }
{
    values.get(place).copied().unwrap_or(Value::Int(0))
}

/// The value of an operand, 0 at a register that is not there.
#[inline(always)]
pub fn value_of(registers: &[Value], input: &Input) -> Value
    ensures { result ≡ input_value registers.now input.now }
{
    match *input {
        Input::Number(value) => Value::Int(value),
        Input::Null => Value::Pointer {
            base: Base::Null,
            offset: 0,
        },
        Input::Function(function) => Value::Pointer {
            base: Base::Function(function),
            offset: 0,
        },
        Input::Object(object) => Value::Pointer {
            base: Base::Object(object),
            offset: 0,
        },
        Input::Register(register) => value_at(registers, register),
    }
}

/// The same as `number_of`, of any operand.
#[inline(never)]
fn any_number_of(registers: &[Value], ty: Ty, input: &Input) -> u64
    ensures value { result ≡ values.number_at ty (input_value registers.now input.now) }
    ensures fits { result < 2 ^ values.bits_of ty }
{
    number_at(ty, value_of(registers, input))
}

/// The value of an operand at a type, as a number. Most operands are numbers and registers that have one: these are read in
/// place.
#[inline(always)]
pub fn number_of(registers: &[Value], ty: Ty, input: &Input) -> u64
    ensures value { result ≡ values.number_at ty (input_value registers.now input.now) }
    ensures fits { result < 2 ^ values.bits_of ty }
{
    match *input {
        Input::Number(number) => truncate(bits_of(ty), number),
        Input::Register(register) => match registers.get(register) {
            Some(Value::Int(number)) => truncate(bits_of(ty), *number),
            Some(Value::Pointer { .. }) | None => any_number_of(registers, ty, input),
        },
        Input::Null | Input::Function(_) | Input::Object(_) => any_number_of(registers, ty, input),
    }
}

/// The value of an operand at a type.
#[inline(always)]
pub fn typed_value_of(registers: &[Value], ty: Ty, input: &Input) -> Value
    ensures { result ≡ values.at_type ty (input_value registers.now input.now) }
{
    match ty {
        Ty::I1 | Ty::I8 | Ty::I16 | Ty::I32 | Ty::I64 => Value::Int(number_of(
            registers, ty, input,
        )),
        Ty::Ptr => at_type(ty, value_of(registers, input)),
    }
}

/// Puts a value into a register.
#[inline(always)]
pub fn assign(registers: &mut [Value], register: usize, value: Value)
    ensures { registers.new ≡ slice_set registers.old register value }
{
    if register < registers.len() {
        registers[register] = value;
    }
}

/// Puts a value into a register at the type of the target.
#[inline(always)]
pub fn assign_target(registers: &mut [Value], target: Target, value: Value)
    ensures { registers.new ≡ with_target registers.old (Some target) value }
{
    assign(registers, target.register, at_type(target.ty, value));
}

/// Reads the values of moves, in place of what `values` held.
fn read_all(registers: &[Value], moves: &[Move], values: &mut Vec<Value>) -> Result<(), NoMemory>
    ensures { OnOk result (values.new.items ≡ map (λ m. input_value registers.now m.source) moves.now) }
{
    values.clear();
    for one in moves {
        values.push(value_of(registers, &one.source))?;
    }
    Ok(())
}

/// Writes the values of moves, in order.
fn write_all(registers: &mut [Value], moves: &[Move], values: &[Value])
    ensures { registers.new ≡ put_all registers.old moves.now values.now }
{
    for (i, one) in moves.iter().enumerate() {
        let value = value_at(values, i);
        assign_target(registers, one.into, value);
    }
}

/// Makes one move.
#[inline(always)]
fn move_one(registers: &mut [Value], one: &Move)
    ensures { registers.new ≡ with_target registers.old (Some one.now.into) (input_value registers.old one.now.source) }
{
    let value = typed_value_of(registers, one.into.ty, &one.source);
    assign(registers, one.into.register, value);
}

/// Makes moves together: all values are read before one is written. `values` is room for them.
#[inline(never)]
fn move_many(
    registers: &mut [Value],
    values: &mut Vec<Value>,
    moves: &[Move],
) -> Result<(), NoMemory>
    ensures { OnOk result (registers.new ≡ moved_all registers.old moves.now) }
{
    read_all(registers, moves, values)?;
    write_all(registers, moves, values.as_slice());
    Ok(())
}

/// Makes moves together, as `move_many` does. Most edges have one.
#[inline(always)]
pub fn move_all(
    registers: &mut [Value],
    values: &mut Vec<Value>,
    moves: &[Move],
) -> Result<(), NoMemory>
    ensures { OnOk result (registers.new ≡ moved_all registers.old moves.now) }
{
    match moves.len() {
        0 => Ok(()),
        1 => {
            move_one(registers, &moves[0]);
            Ok(())
        }
        _ => move_many(registers, values, moves),
    }
}
