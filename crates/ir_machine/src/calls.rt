// Calls: by address and signature, into a defined function or to do the work of a declared one.
ghost use Rattle.std.specs.Prelude.{◌≡◌, ◌<◌, ◌^◌, List, ◌∷◌, map, Some, None, length, nat_lt, replicate, IfOk, IfSome, OnOk};
ghost use Rattle.ir_tree.specs.declared.types.Ty.TheVariants.{I64};
ghost use Rattle.ir_memory.specs.declared.value.Value.{Value};
ghost use Rattle.ir_memory.specs.declared.value.Value.TheVariants as value;
ghost use Rattle.ir_model.specs.Step as model;
ghost use Rattle.ir_model.specs.Step.{line_of};
ghost use Rattle.ir_model.specs.Values as values;
ghost use Rattle.ir_machine.specs.declared.state.Sight.TheVariants as sight;
ghost use Rattle.ir_machine.specs.declared.state.Turn.TheVariants as turn;
ghost use Rattle.ir_machine.specs.Turns.{turn_of};
ghost use Rattle.ir_machine.specs.Steps as spec;
ghost use Rattle.ir_machine.specs.Steps.{input_value, noted_at, valued, Comes, Does, DoesAlone, Prints, waiting_of};

use crate::registers::{assign, number_of, typed_value_of, value_of};
use crate::state::{Answer, Frame, Machine, Sight, Turn};
use ir_code::{FunctionCode, Input, Span, Target, Work, as_number, at_type};
use ir_memory::Value;
use ir_model::TrapKind;
use ir_tree::{Ret, Seq, Ty};
use itoa::Buffer;
use pgo_base::NoMemory;
use std::alloc::Global;
use std::mem;

/// The most bytes that one call prints.
const OUTPUT_MOST: usize = 32_768;

/// The most functions that run.
const DEPTH_MOST: usize = 512;

/// The number of the function at an address, of this many: function k lies at 16 * (k + 1).
fn function_at(count: usize, address: u64) -> Option<usize>
    requires { count < 2 ^ 63 }
    ensures { result ≡ values.function_at_address count address }
{
    if address % 16 == 0 && address != 0 && address / 16 < count as u64 + 1 {
        return Some((address / 16 - 1) as usize);
    }
    None
}

/// Whether two types are one: they are told apart by their widths.
fn is_same_type(left: Ty, right: Ty) -> bool
    ensures { result ≡ model.same_type left right }
{
    left == right
}

/// Whether two types of return are one.
fn is_same_ret(left: Ret, right: Ret) -> bool
    ensures { result ≡ model.same_ret left right }
{
    match (left, right) {
        (Ret::Void, Ret::Void) => true,
        (Ret::Value(left), Ret::Value(right)) => is_same_type(left, right),
        (Ret::Void, Ret::Value(_)) | (Ret::Value(_), Ret::Void) => false,
    }
}

/// Whether arguments have the types of parameters.
fn fit_params(params: &[Ty], args: &[(Ty, Input)]) -> bool
    ensures { (regs : List Value) → result ≡ spec.fits_params params.now (map (valued regs) args.now) }
{
    if params.len() != args.len() {
        return false;
    }
    for (i, arg) in args.iter().enumerate() {
        if !is_same_type(params[i], arg.0) {
            return false;
        }
    }
    true
}

/// The registers of a function that begins: its parameters with these values, and the others 0. They take the place of
/// `spare`.
pub fn first_registers(
    spare: Seq<Value>,
    function: &FunctionCode,
    values: &[Value],
) -> Result<Seq<Value>, NoMemory>
    ensures { IfOk result (λ r. r ≡ spec.first_registers function.now values.now) }
{
    let mut registers = spare.take();
    registers.clear();
    for (i, ty) in function.params.as_slice().iter().enumerate() {
        if let Some(value) = values.get(i) {
            registers.push(at_type(*ty, *value))?;
        }
    }
    registers.resize(function.registers, Value::Int(0))?;
    Ok(Seq::of(registers))
}

/// Makes registers 0, as many as these. Where there are as many already, which is so where a loop calls one function, their
/// length is not written, since what is written is not to be read at once in a wider piece.
#[inline(always)]
fn clear_registers(registers: &mut Vec<Value>, count: usize) -> Result<(), NoMemory>
    ensures { OnOk result (registers.new.items ≡ replicate count (value.Int 0)) }
{
    if registers.len() == count {
        registers.as_mut_slice().fill(Value::Int(0));
        return Ok(());
    }
    registers.clear();
    registers.resize(count, Value::Int(0))?;
    Ok(())
}

/// Puts the values of arguments into the registers of parameters. `caller` has the registers of the function that calls.
#[inline(always)]
fn put_arguments(
    registers: &mut [Value],
    function: &FunctionCode,
    caller: &[Value],
    args: &[(Ty, Input)],
)
    requires { registers.old ≡ replicate function.now.registers (value.Int 0) }
    ensures { registers.new ≡ spec.first_registers function.now (map (λ a. input_value caller.now a.1) args.now) }
{
    for (i, ty) in function.params.as_slice().iter().enumerate() {
        if let Some(arg) = args.get(i) {
            assign(registers, i, typed_value_of(caller, *ty, &arg.1));
        }
    }
}

/// The registers of a function that is called. They take the place of `spare`.
#[inline(always)]
fn called_registers(
    spare: Seq<Value>,
    function: &FunctionCode,
    caller: &[Value],
    args: &[(Ty, Input)],
) -> Result<Seq<Value>, NoMemory>
    ensures { IfOk result (λ r. r ≡ spec.first_registers function.now (map (λ a. input_value caller.now a.1) args.now)) }
{
    let mut registers = spare.take();
    clear_registers(&mut registers, function.registers)?;
    put_arguments(registers.as_mut_slice(), function, caller, args);
    Ok(Seq::of(registers))
}

/// Appends a number and a line feed, if that is not too much. Answers whether it did.
fn print_line(printed: &mut Vec<u8>, value: u64) -> Result<bool, NoMemory>
    ensures { IfOk result (λ fits. Prints (line_of value) printed.old.items fits printed.new.items) }
{
    let mut buffer = Buffer::new();
    let digits = buffer.format(value.cast_signed()).as_bytes();
    let room = OUTPUT_MOST.saturating_sub(printed.len());
    if digits.len() >= room {
        return Ok(false);
    }
    printed.extend_from_slice(digits)?;
    printed.push(b'\n')?;
    Ok(true)
}

/// Prints a number and a line feed, or stops where that is too much.
fn print(machine: &mut Machine, value: u64) -> Answer
    ensures { IfSome (turn_of machine.new result) (λ turn. Comes machine.old (λ fr rest sh. spec.prints fr rest sh (line_of value)) turn machine.new) }
{
    match print_line(&mut machine.printed, value) {
        Ok(true) => Answer::Goes,
        Ok(false) => Answer::Fails(TrapKind::Output),
        Err(_) => Answer::NoMemory,
    }
}

/// Prints the first argument.
fn print_first(machine: &mut Machine, args: &[(Ty, Input)]) -> Answer
    ensures { IfSome (turn_of machine.new result) (λ turn. Comes machine.old (λ fr rest sh. spec.prints_first fr rest sh (map (valued machine.old.top.registers) args.now)) turn machine.new) }
{
    match args.first() {
        Some((_, input)) => {
            let number = number_of(machine.top.registers.as_slice(), Ty::I64, input);
            print(machine, number)
        }
        None => Answer::Fails(TrapKind::External),
    }
}

/// The work of a declared function.
fn do_work(machine: &mut Machine, work: Work, args: &[(Ty, Input)]) -> Answer
    ensures { IfSome (turn_of machine.new result) (λ turn. Comes machine.old (λ fr rest sh. spec.declared fr rest sh work (map (valued machine.old.top.registers) args.now)) turn machine.new) }
{
    match work {
        Work::Print => print_first(machine, args),
        Work::Nothing => Answer::Goes,
        Work::External => Answer::Fails(TrapKind::External),
    }
}

/// The frame of a function that begins with these arguments.
fn first_frame(
    machine: &mut Machine,
    into: Option<Target>,
    number: usize,
    function: &FunctionCode,
    args: &[(Ty, Input)],
) -> Result<Frame, NoMemory>
    ensures frame { IfOk result (λ frame. frame ≡ spec.first_frame number function.now (map (λ a. input_value machine.old.top.registers a.1) args.now) machine.old.memory.next into) }
    ensures rest { (machine.new.top ≡ machine.old.top) × (machine.new.callers ≡ machine.old.callers) × (machine.new.memory ≡ machine.old.memory) × (machine.new.printed ≡ machine.old.printed) }
{
    let alloc = *machine.callers.allocator();
    let spare = mem::replace(&mut machine.spare, Seq::new(alloc));
    let registers = called_registers(spare, function, machine.top.registers.as_slice(), args)?;
    Ok(Frame {
        function: number,
        block: 0,
        place: 0,
        registers,
        base: machine.memory.next(),
        into,
    })
}

/// Has a frame run; the one that ran waits for it.
#[tactic(auto, using(crate::proofs::Stacks::reverse_push))]
fn push(machine: &mut Machine, frame: Frame) -> Result<(), NoMemory>
    ensures stack { OnOk result ((machine.new.top ≡ frame) × (waiting_of machine.new ≡ machine.old.top ∷ waiting_of machine.old)) }
    ensures rest { OnOk result ((machine.new.memory ≡ machine.old.memory) × (machine.new.printed ≡ machine.old.printed)) }
{
    let caller = mem::replace(&mut machine.top, frame);
    machine.callers.push(caller)?;
    Ok(())
}

/// A function begins with these arguments.
#[inline(always)]
fn begin(
    machine: &mut Machine,
    into: Option<Target>,
    number: usize,
    function: &FunctionCode,
    args: &[(Ty, Input)],
) -> Result<(), NoMemory>
    ensures steps { OnOk result (Comes machine.old (λ fr rest sh. spec.enters fr rest sh into number function.now (map (λ v. v.1) (map (valued machine.old.top.registers) args.now))) (turn.Sees (sight.Entered number)) machine.new) }
    ensures number { OnOk result (machine.new.top.function ≡ number) }
{
    let frame = first_frame(machine, into, number, function, args)?;
    push(machine, frame)?;
    Ok(())
}

/// Whether one more function may run.
fn has_room(machine: &Machine) -> bool
    ensures { result ≡ nat_lt (length (machine.now.top ∷ waiting_of machine.now)) model.depth_most }
{
    machine.callers.len() + 1 < DEPTH_MOST
}

/// A function is entered, or does its work where it is declared.
fn enter(
    machine: &mut Machine,
    into: Option<Target>,
    number: usize,
    function: &FunctionCode,
    args: &[(Ty, Input)],
) -> Answer
    ensures { IfSome (turn_of machine.new result) (λ turn. Comes machine.old (λ fr rest sh. spec.entered fr rest sh into number function.now (map (valued machine.old.top.registers) args.now) function.now.blocks) turn machine.new) }
{
    if function.blocks.is_empty() {
        return do_work(machine, function.work, args);
    }
    if !has_room(machine) {
        return Answer::Fails(TrapKind::Depth);
    }
    match begin(machine, into, number, function, args) {
        Ok(()) => Answer::Enters,
        Err(_) => Answer::NoMemory,
    }
}

/// A call of a function, which traps where the signature differs.
fn call_function(
    machine: &mut Machine,
    into: Option<Target>,
    ret: Ret,
    number: usize,
    function: &FunctionCode,
    args: &[(Ty, Input)],
) -> Answer
    ensures { IfSome (turn_of machine.new result) (λ turn. Comes machine.old (λ fr rest sh. spec.called fr rest sh into ret (map (valued machine.old.top.registers) args.now) number (Some function.now)) turn machine.new) }
{
    let fits = is_same_ret(function.ret, ret) && fit_params(function.params.as_slice(), args);
    if !fits {
        return Answer::Fails(TrapKind::Callee);
    }
    enter(machine, into, number, function, args)
}

/// A call of the function at an address.
#[inline(never)]
pub fn call(
    functions: &[FunctionCode],
    machine: &mut Machine,
    into: &Option<Target>,
    ret: Ret,
    callee: &Input,
    args: &[(Ty, Input)],
) -> Answer
    ensures { IfSome (turn_of machine.new result) (λ turn. Does functions.now machine.old (spec.Calls into.now ret (values.as_number (input_value machine.old.top.registers callee.now)) (map (valued machine.old.top.registers) args.now)) turn machine.new) }
{
    let address = as_number(value_of(machine.top.registers.as_slice(), callee));
    let Some(number) = function_at(functions.len(), address) else {
        return Answer::Fails(TrapKind::Callee);
    };
    match functions.get(number) {
        Some(function) => call_function(machine, *into, ret, number, function, args),
        None => Answer::Fails(TrapKind::Callee),
    }
}

/// The function at an address is noted at a site of a unit; a site that the unit does not have is not told.
pub fn note(
    functions: usize,
    machine: &Machine,
    unit: Span,
    site: &Input,
    target: &Input,
) -> Result<Turn, NoMemory>
    requires { functions < 2 ^ 63 }
    ensures { IfOk result (λ turn. DoesAlone machine.now (spec.Gives None (value.Int 0) machine.now.memory (noted_at unit (values.as_number (input_value machine.now.top.registers site.now)) (values.function_at_address functions (values.number_at I64 (input_value machine.now.top.registers target.now))))) turn machine.now) }
{
    let registers = machine.top.registers.as_slice();
    let address = number_of(registers, Ty::I64, target);
    let Some(callee) = function_at(functions, address) else {
        return Ok(Turn::Goes);
    };
    let site = as_number(value_of(registers, site));
    if site >= u64::from(unit.count) {
        return Ok(Turn::Goes);
    }
    match (unit.first.checked_add(site as u32), u32::try_from(callee)) {
        (Some(site), Ok(callee)) => Ok(Turn::Sees(Sight::Noted { site, callee })),
        // No accepted module has so many sites or functions.
        _ => Err(NoMemory),
    }
}
