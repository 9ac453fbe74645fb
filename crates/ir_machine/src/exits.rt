// Leaving a block: by an edge, or by a return.
ghost use Rattle.std.specs.Prelude.{◌≡◌, ◌==◌, Some, position, slice_get, IfOk, true, false};
ghost use Rattle.std.specs.Option.{option_map};
ghost use Rattle.ir_model.specs.Deed.{Takes, Leaves, behind_default};
ghost use Rattle.ir_model.specs.Values as values;
ghost use Rattle.ir_machine.specs.Steps as spec;
ghost use Rattle.ir_machine.specs.Steps.{input_value, Comes};
ghost use Rattle.ir_machine.specs.declared.state.Sight.TheVariants as sight;
ghost use Rattle.ir_machine.specs.declared.state.Turn.TheVariants as turn;
ghost use Rattle.ir_machine.specs.Turns.{returned_value};

use crate::registers::{assign_target, move_all, number_of, typed_value_of};
use crate::state::{Machine, Sight, Turn};
use ir_code::{Cases, EdgeCode, Exit, Input, Target, as_number};
use ir_memory::Value;
use ir_model::TrapKind;
use ir_tree::Ty;
use pgo_base::NoMemory;
use std::mem;

/// The edge of the block by the successor at a position, as it is seen.
#[inline(always)]
fn sight_of(machine: &Machine, position: usize) -> Sight
    ensures { result ≡ sight.Left machine.now.top.function machine.now.top.block position }
{
    Sight::Left {
        function: machine.top.function,
        block: machine.top.block,
        position,
    }
}

/// Goes over an edge, the one of its block at this position: the phis of its target are done together.
#[inline(always)]
fn follow(machine: &mut Machine, edge: &EdgeCode, position: usize) -> Result<Turn, NoMemory>
    ensures { IfOk result (λ turn. Comes machine.old (λ fr rest sh. spec.walked fr rest sh position (Some edge.now)) turn machine.new) }
{
    let sight = sight_of(machine, position);
    move_all(
        machine.top.registers.as_mut_slice(),
        &mut machine.moved,
        edge.moves.as_slice(),
    )?;
    machine.top.block = edge.block;
    machine.top.place = 0;
    Ok(Turn::Sees(sight))
}

/// Walks the edge at a position.
#[inline(always)]
fn walk(machine: &mut Machine, edges: &[EdgeCode], position: usize) -> Result<Turn, NoMemory>
    ensures { IfOk result (λ turn. Comes machine.old (λ fr rest sh. spec.walked fr rest sh position (slice_get edges.now position)) turn machine.new) }
{
    match edges.get(position) {
        Some(edge) => follow(machine, edge, position),
        None => Ok(Turn::Traps(TrapKind::Unreachable)),
    }
}

/// The function that waits takes what is returned, at the type of its register.
fn take_result(machine: &mut Machine, into: Option<Target>, value: Option<Value>)
    ensures top { machine.new.top ≡ spec.resumed machine.old.top into value }
    ensures rest { (machine.new.callers ≡ machine.old.callers) × (machine.new.memory ≡ machine.old.memory) × (machine.new.printed ≡ machine.old.printed) }
{
    if let Some(value) = value {
        if let Some(target) = into {
            assign_target(machine.top.registers.as_mut_slice(), target, value);
        }
    }
}

/// A returned value as a number.
fn returned_number(value: Option<Value>) -> Option<u64>
    ensures { result ≡ option_map values.as_number value }
{
    match value {
        Some(value) => Some(as_number(value)),
        None => None,
    }
}

/// Returns to the function that waits: the objects of the one that ran end. Answers whether there was one that waits.
#[tactic(auto, using(crate::proofs::Stacks::reverse_push))]
#[inline(always)]
fn give_back(machine: &mut Machine, value: Option<Value>) -> bool
    ensures goes_on { result ≡ true → Comes machine.old (λ fr rest sh. spec.returned fr rest sh value) (turn.Sees (sight.Left machine.old.top.function machine.old.top.block 0)) machine.new }
    ensures ends { result ≡ false → Comes machine.old (λ fr rest sh. spec.returned fr rest sh value) (turn.Returns (sight.Left machine.old.top.function machine.old.top.block 0) (option_map values.as_number value)) machine.new }
    ensures stays { result ≡ false → machine.new.top ≡ machine.old.top }
{
    match machine.callers.pop() {
        Some(caller) => {
            let ended = mem::replace(&mut machine.top, caller);
            machine.memory.drop_from(ended.base);
            take_result(machine, ended.into, value);
            machine.spare = ended.registers;
            true
        }
        None => false,
    }
}

/// The value that a return gives.
#[inline(always)]
fn returned(registers: &[Value], value: Option<(Ty, Input)>) -> Option<Value>
    ensures { result ≡ returned_value registers.now value }
{
    match value {
        Some((ty, input)) => Some(typed_value_of(registers, ty, &input)),
        None => None,
    }
}

/// Returns as `give_back` does, with the value that a return gives.
#[inline(never)]
fn give_back_returned(machine: &mut Machine, value: &Option<(Ty, Input)>) -> bool
    ensures goes_on { result ≡ true → Comes machine.old (λ fr rest sh. spec.returned fr rest sh (returned_value machine.old.top.registers value.now)) (turn.Sees (sight.Left machine.old.top.function machine.old.top.block 0)) machine.new }
    ensures ends { result ≡ false → Comes machine.old (λ fr rest sh. spec.returned fr rest sh (returned_value machine.old.top.registers value.now)) (turn.Returns (sight.Left machine.old.top.function machine.old.top.block 0) (option_map values.as_number (returned_value machine.old.top.registers value.now))) machine.new }
    ensures stays { result ≡ false → machine.new.top ≡ machine.old.top }
{
    let value = returned(machine.top.registers.as_slice(), *value);
    give_back(machine, value)
}

/// The value of the call from outside.
#[inline(never)]
fn last_value(machine: &Machine, value: &Option<(Ty, Input)>) -> Option<u64>
    ensures { result ≡ option_map values.as_number (returned_value machine.now.top.registers value.now) }
{
    returned_number(returned(machine.top.registers.as_slice(), *value))
}

/// Returns from the function: its objects end, and the one that waits goes on.
#[inline(always)]
fn return_apart(machine: &mut Machine, value: &Option<(Ty, Input)>) -> Turn
    ensures { Comes machine.old (λ fr rest sh. spec.returned fr rest sh (returned_value machine.old.top.registers value.now)) result machine.new }
{
    let sight = sight_of(machine, 0);
    if give_back_returned(machine, value) {
        return Turn::Sees(sight);
    }
    Turn::Returns {
        sight,
        value: last_value(machine, value),
    }
}

/// Walks the edge of a case of a switch, by its place among the cases, or that of the default.
fn walk_case(
    machine: &mut Machine,
    edges: &[EdgeCode],
    place: Option<usize>,
) -> Result<Turn, NoMemory>
    ensures { IfOk result (λ turn. Comes machine.old (λ fr rest sh. spec.exited fr rest sh edges.now (Takes (behind_default place))) turn machine.new) }
{
    match place {
        Some(place) => {
            if place < edges.len() {
                walk(machine, edges, place + 1)
            } else {
                Ok(Turn::Traps(TrapKind::Unreachable))
            }
        }
        None => walk(machine, edges, 0),
    }
}

/// Leaves a block by a switch.
fn switch(
    machine: &mut Machine,
    edges: &[EdgeCode],
    ty: Ty,
    value: &Input,
    cases: &Cases,
) -> Result<Turn, NoMemory>
    ensures { IfOk result (λ turn. Comes machine.old (λ fr rest sh. spec.exited fr rest sh edges.now (Takes (behind_default (position (λ n. n == values.number_at ty (input_value machine.old.top.registers value.now)) cases.now)))) turn machine.new) }
{
    let number = number_of(machine.top.registers.as_slice(), ty, value);
    walk_case(machine, edges, cases.place(number))
}

/// Leaves a block.
#[inline(never)]
fn leave_any(machine: &mut Machine, edges: &[EdgeCode], exit: &Exit) -> Result<Turn, NoMemory>
    ensures { IfOk result (λ turn. Comes machine.old (λ fr rest sh. spec.exited fr rest sh edges.now (spec.choice machine.old.top.registers exit.now)) turn machine.new) }
{
    let registers = machine.top.registers.as_slice();
    match exit {
        Exit::Go => walk(machine, edges, 0),
        Exit::Choose { cond } => {
            let cond = number_of(registers, Ty::I1, cond);
            walk(machine, edges, if cond == 0 { 1 } else { 0 })
        }
        Exit::Switch { ty, value, cases } => switch(machine, edges, *ty, value, cases),
        Exit::Return { value } => Ok(return_apart(machine, value)),
        Exit::Unreachable => Ok(Turn::Traps(TrapKind::Unreachable)),
    }
}

/// Leaves a block, out of the loop over the steps.
#[inline(always)]
fn leave_apart(machine: &mut Machine, edges: &[EdgeCode], exit: &Exit) -> Result<Turn, NoMemory>
    ensures { IfOk result (λ turn. Comes machine.old (λ fr rest sh. spec.exited fr rest sh edges.now (spec.choice machine.old.top.registers exit.now)) turn machine.new) }
{
    let turn = leave_any(machine, edges, exit)?;
    Ok(turn)
}

/// Leaves a block. The loop over the steps has the branches in line, and the rest out of it.
#[inline(always)]
pub fn leave(machine: &mut Machine, edges: &[EdgeCode], exit: &Exit) -> Result<Turn, NoMemory>
    ensures { IfOk result (λ turn. Comes machine.old (λ fr rest sh. spec.exited fr rest sh edges.now (spec.choice machine.old.top.registers exit.now)) turn machine.new) }
{
    match exit {
        Exit::Go => walk(machine, edges, 0),
        Exit::Choose { cond } => {
            let cond = number_of(machine.top.registers.as_slice(), Ty::I1, cond);
            walk(machine, edges, if cond == 0 { 1 } else { 0 })
        }
        Exit::Return { value } => Ok(return_apart(machine, value)),
        _ => leave_apart(machine, edges, exit),
    }
}
