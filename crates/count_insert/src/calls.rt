// The instructions that count, and where they are put among those of a block.
ghost use Rattle.std.specs.Prelude.{◌≡◌, ◌++◌, ◌∷◌, [], IfOk, OnOk};
ghost use Rattle.std.specs.Option.{option_copied};
ghost use Rattle.count_plan.specs.Calls as spec;
ghost use Rattle.count_plan.specs.Calls.{condition_of, condition_watched, intrinsic, of_unit, target_of, target_watched, watched};
ghost use Rattle.count_plan.specs.Counted.{counted_from, watch_at};

use count_plan::{BlockPlan, FunctionPlan, Watch};
use ir_tree::{ConvOp, Flags, Instr, Name, Operand, Ret, Seq, Ty};
use pgo_base::NoMemory;
use std::alloc::Global;

type Use = (Ty, Operand);

const NO_FLAGS: Flags = Flags {
    nuw: false,
    nsw: false,
    exact: false,
};

#[tactic(auto, unfolding(count_plan::specs::Calls::increment_name))]
fn increment_name() -> &'static [u8]
    ensures { result.now ≡ spec.increment_name }
{
    b"llvm.instrprof.increment"
}

#[tactic(auto, unfolding(count_plan::specs::Calls::step_name))]
fn step_name() -> &'static [u8]
    ensures { result.now ≡ spec.step_name }
{
    b"llvm.instrprof.increment.step"
}

#[tactic(auto, unfolding(count_plan::specs::Calls::value_name))]
fn value_name() -> &'static [u8]
    ensures { result.now ≡ spec.value_name }
{
    b"llvm.instrprof.value.profile"
}

// A call that returns nothing.
fn intrinsic(alloc: Global, name: &[u8], args: Vec<Use>) -> Result<Instr, NoMemory>
    ensures { IfOk result (λ call. call ≡ intrinsic name.now args.items) }
{
    Ok(Instr::Call {
        dest: None,
        ret: Ret::Void,
        callee: Operand::Global(Name::of(alloc, name)?),
        args: Seq::of(args),
        prof: None,
    })
}

// The arguments with which each of these calls begins.
fn of_unit(alloc: Global, unit: &FunctionPlan) -> Result<Vec<Use>, NoMemory>
    ensures { IfOk result (λ args. args.items ≡ of_unit unit.now []) }
{
    let mut args = Vec::with_capacity(alloc, 5)?;
    args.push((Ty::Ptr, Operand::Global(unit.symbol.copy(alloc)?)))?;
    args.push((Ty::I64, Operand::Int(unit.hash)))?;
    Ok(args)
}

fn increment(alloc: Global, unit: &FunctionPlan, counter: u32) -> Result<Instr, NoMemory>
    ensures { IfOk result (λ call. call ≡ spec.increment unit.now counter) }
{
    let mut args = of_unit(alloc, unit)?;
    args.push((Ty::I32, Operand::Int(u64::from(unit.counters))))?;
    args.push((Ty::I32, Operand::Int(u64::from(counter))))?;
    intrinsic(alloc, increment_name(), args)
}

fn increment_by(
    alloc: Global,
    unit: &FunctionPlan,
    counter: u32,
    register: &Name,
) -> Result<Instr, NoMemory>
    ensures { IfOk result (λ call. call ≡ spec.increment_by unit.now counter register.now) }
{
    let mut args = of_unit(alloc, unit)?;
    args.push((Ty::I32, Operand::Int(u64::from(unit.counters))))?;
    args.push((Ty::I32, Operand::Int(u64::from(counter))))?;
    args.push((Ty::I64, Operand::Local(register.copy(alloc)?)))?;
    intrinsic(alloc, step_name(), args)
}

fn note_target(
    alloc: Global,
    unit: &FunctionPlan,
    site: u32,
    register: &Name,
) -> Result<Instr, NoMemory>
    ensures { IfOk result (λ call. call ≡ spec.note_target unit.now site register.now) }
{
    let mut args = of_unit(alloc, unit)?;
    args.push((Ty::I64, Operand::Local(register.copy(alloc)?)))?;
    args.push((Ty::I32, Operand::Int(0)))?;
    args.push((Ty::I32, Operand::Int(u64::from(site))))?;
    intrinsic(alloc, value_name(), args)
}

// Appends the call by which a counter rises, if one does.
pub(crate) fn push_increments(
    alloc: Global,
    unit: &FunctionPlan,
    counter: Option<u32>,
    made: &mut Vec<Instr>,
) -> Result<(), NoMemory>
    ensures { OnOk result (made.new.items ≡ made.old.items ++ spec.increments unit.now counter) }
{
    if let Some(counter) = counter {
        made.push(increment(alloc, unit, counter)?)?;
    }
    Ok(())
}

fn condition_of(instr: &Instr) -> Option<&Operand>
    ensures { option_copied result ≡ condition_of instr.now }
{
    match instr {
        Instr::Select { cond, .. } => Some(cond),
        Instr::Binary { .. }
        | Instr::Compare { .. }
        | Instr::Convert { .. }
        | Instr::Freeze { .. }
        | Instr::Phi { .. }
        | Instr::Alloca { .. }
        | Instr::Load { .. }
        | Instr::Store { .. }
        | Instr::Gep { .. }
        | Instr::Call { .. }
        | Instr::Count { .. } => None,
    }
}

fn target_of(instr: &Instr) -> Option<&Operand>
    ensures { option_copied result ≡ target_of instr.now }
{
    match instr {
        Instr::Call { callee, .. } => {
            if matches!(callee, Operand::Local(_)) {
                Some(callee)
            } else {
                None
            }
        }
        Instr::Binary { .. }
        | Instr::Compare { .. }
        | Instr::Convert { .. }
        | Instr::Freeze { .. }
        | Instr::Select { .. }
        | Instr::Phi { .. }
        | Instr::Alloca { .. }
        | Instr::Load { .. }
        | Instr::Store { .. }
        | Instr::Gep { .. }
        | Instr::Count { .. } => None,
    }
}

// Appends the addition of a condition to a counter.
fn push_condition(
    alloc: Global,
    unit: &FunctionPlan,
    register: &Name,
    counter: u32,
    condition: Option<&Operand>,
    made: &mut Vec<Instr>,
) -> Result<(), NoMemory>
    ensures { OnOk result (made.new.items ≡ made.old.items ++ condition_watched unit.now register.now counter (option_copied condition.entry)) }
{
    if let Some(value) = condition {
        made.push(Instr::Convert {
            dest: register.copy(alloc)?,
            op: ConvOp::ZExt,
            flags: NO_FLAGS,
            from: Ty::I1,
            value: value.copy(alloc)?,
            to: Ty::I64,
        })?;
        made.push(increment_by(alloc, unit, counter, register)?)?;
    }
    Ok(())
}

// Appends the note of a call's target.
fn push_target(
    alloc: Global,
    unit: &FunctionPlan,
    register: &Name,
    site: u32,
    target: Option<&Operand>,
    made: &mut Vec<Instr>,
) -> Result<(), NoMemory>
    ensures { OnOk result (made.new.items ≡ made.old.items ++ target_watched unit.now register.now site (option_copied target.entry)) }
{
    if let Some(value) = target {
        made.push(Instr::Convert {
            dest: register.copy(alloc)?,
            op: ConvOp::PtrToInt,
            flags: NO_FLAGS,
            from: Ty::Ptr,
            value: value.copy(alloc)?,
            to: Ty::I64,
        })?;
        made.push(note_target(alloc, unit, site, register)?)?;
    }
    Ok(())
}

// Appends what stands before an instruction.
fn push_watched(
    alloc: Global,
    unit: &FunctionPlan,
    watch: &Watch,
    instr: &Instr,
    made: &mut Vec<Instr>,
) -> Result<(), NoMemory>
    ensures { OnOk result (made.new.items ≡ made.old.items ++ watched unit.now watch.now instr.now) }
{
    match watch {
        Watch::Nothing => Ok(()),
        Watch::Condition { register, counter } => {
            push_condition(alloc, unit, register, *counter, condition_of(instr), made)
        }
        Watch::Target { register, site } => {
            push_target(alloc, unit, register, *site, target_of(instr), made)
        }
    }
}

// Appends what stands before the instruction at place i behind the phis, and then the instruction.
fn push_instr(
    alloc: Global,
    unit: &FunctionPlan,
    plan: &BlockPlan,
    i: usize,
    instr: Instr,
    made: &mut Vec<Instr>,
) -> Result<(), NoMemory>
    ensures { OnOk result (made.new.items ≡ made.old.items ++ (watched unit.now (watch_at plan.now i) instr ++ instr ∷ [])) }
{
    if let Some(watch) = plan.watches.as_slice().get(i) {
        push_watched(alloc, unit, watch, &instr, made)?;
    }
    made.push(instr)?;
    Ok(())
}

// Appends the instructions behind the phis of a block, each behind what is put before it, and the counter that rises before the
// terminator.
pub(crate) fn push_counted(
    alloc: Global,
    unit: &FunctionPlan,
    plan: &BlockPlan,
    instrs: Vec<Instr>,
    made: &mut Vec<Instr>,
) -> Result<(), NoMemory>
    ensures { OnOk result (made.new.items ≡ made.old.items ++ counted_from unit.now plan.now 0 instrs.items) }
{
    let mut i = 0;
    for instr in instrs {
        push_instr(alloc, unit, plan, i, instr, made)?;
        i += 1;
    }
    push_increments(alloc, unit, plan.tail, made)
}
