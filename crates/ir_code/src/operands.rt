// Operands by number.
ghost use Rattle.std.specs.Prelude.{◌≡◌, ◌++◌, map, drop, OnOk, IfOk};
ghost use Rattle.std.specs.Option.{option_map};
ghost use Rattle.ir_model.specs.Deed.{unit_of, result_into};
ghost use Rattle.ir_code.specs.Names.{number_in};
ghost use Rattle.ir_code.specs.Found.{input_in, typed_input_in, scaled_in, inner_indices_in, indices_in};
ghost use Rattle.ir_code.specs.Resolved as spec;

use crate::code::{Input, Scaled, Span, Target};
use crate::names::Numbers;
use crate::sizes::{element_of, size_of};
use crate::symbols::Symbols;
use ir_tree::{MemTy, Name, Operand, Ret, Ty};
use pgo_base::NoMemory;
use std::alloc::Global;

/// Where the value of an operand comes from.
pub fn input(symbols: &Symbols, registers: &Numbers, operand: &Operand) -> Result<Input, NoMemory>
    ensures { IfOk result (λ i. i ≡ input_in symbols.now registers.now operand.now) }
{
    match operand {
        Operand::Int(value) => Ok(Input::Number(*value)),
        Operand::Null => Ok(Input::Null),
        Operand::Local(name) => Ok(Input::Register(registers.number(name))),
        Operand::Global(name) => symbols.input(name),
    }
}

/// Operands with their types.
pub fn inputs(
    alloc: Global,
    symbols: &Symbols,
    registers: &Numbers,
    operands: &[(Ty, Operand)],
) -> Result<Vec<(Ty, Input)>, NoMemory>
    ensures { IfOk result (λ inputs. inputs.items ≡ map (typed_input_in symbols.now registers.now) operands.now) }
{
    let mut inputs = Vec::with_capacity(alloc, operands.len())?;
    for (ty, operand) in operands {
        let one = input(symbols, registers, operand)?;
        inputs.push((*ty, one))?;
    }
    Ok(inputs)
}

/// The register that takes the result of a call, if one does.
pub fn target(registers: &Numbers, dest: &Option<Name>, ret: Ret) -> Option<Target>
    ensures { (symbol counters sites : _) → result ≡ option_map (spec.target_of symbol counters sites (number_in registers.now)) (result_into dest.now ret) }
{
    match (dest, ret) {
        (Some(name), Ret::Value(ty)) => Some(Target {
            register: registers.number(name),
            ty,
        }),
        (Some(_), Ret::Void) | (None, _) => None,
    }
}

/// An index with the size of what one step of it passes.
fn scaled(
    symbols: &Symbols,
    registers: &Numbers,
    size: u64,
    index: &(Ty, Operand),
) -> Result<Scaled, NoMemory>
    ensures { IfOk result (λ s. s ≡ scaled_in symbols.now registers.now size index.now) }
{
    let (ty, operand) = index;
    Ok(Scaled {
        ty: *ty,
        index: input(symbols, registers, operand)?,
        size,
    })
}

/// The indices behind the first: each enters an array.
fn push_inner(
    symbols: &Symbols,
    registers: &Numbers,
    mem: &MemTy,
    indices: &[(Ty, Operand)],
    all: &mut Vec<Scaled>,
) -> Result<(), NoMemory>
    ensures { OnOk result (all.new.items ≡ all.old.items ++ inner_indices_in symbols.now registers.now mem.now indices.now) }
{
    let mut inner = mem;
    for index in indices {
        inner = element_of(inner);
        let one = scaled(symbols, registers, size_of(inner)?, index)?;
        all.push(one)?;
    }
    Ok(())
}

/// The indices of a `getelementptr`.
pub fn indices(
    alloc: Global,
    symbols: &Symbols,
    registers: &Numbers,
    mem: &MemTy,
    indices: &[(Ty, Operand)],
) -> Result<Vec<Scaled>, NoMemory>
    ensures { IfOk result (λ all. all.items ≡ indices_in symbols.now registers.now mem.now indices.now) }
{
    let mut all = Vec::with_capacity(alloc, indices.len())?;
    match indices.split_first() {
        Some((first, rest)) => {
            let one = scaled(symbols, registers, size_of(mem)?, first)?;
            all.push(one)?;
            push_inner(symbols, registers, mem, rest, &mut all)?;
            Ok(all)
        }
        None => Ok(all),
    }
}

/// The unit that a global of the profile names: its name behind the eight bytes that say what it is.
pub fn unit_of(operand: &Operand) -> &[u8]
    ensures { result.now ≡ unit_of operand.now }
{
    match operand {
        Operand::Global(name) => behind_eight(name.bytes()),
        Operand::Int(_) | Operand::Null | Operand::Local(_) => &[],
    }
}

/// What stands behind the first eight bytes.
pub fn behind_eight(name: &[u8]) -> &[u8]
    ensures { result.now ≡ drop 8 name.now }
{
    name.get(8..).unwrap_or(&[])
}
