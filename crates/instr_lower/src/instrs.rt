// Instructions that do what is asked for.
ghost use Rattle.std.specs.Prelude.{◌≡◌, IfOk, Some};
ghost use Rattle.ir_tree.specs.declared.types.Instr as spec_tree;
ghost use Rattle.lower_units.specs.Shown as shown;
ghost use Rattle.lower_units.specs.Shown.{amount_of};
ghost use Rattle.lowering.specs.Lowered as spec;
ghost use Rattle.ir_tree.specs.declared.types.Instr.TheVariants.{Count};
ghost use Rattle.lowering.specs.Units.{counters_symbol};

use ir_tree::{Instr, Name, Operand, Ret, Seq, Ty};
use lower_units::{Asked, asked_of, counters_symbol, data_symbol};
use pgo_base::NoMemory;
use std::alloc::Global;

#[tactic(auto, unfolding(lowering::specs::Lowered::runtime_name))]
pub(crate) fn runtime_name() -> &'static [u8]
    ensures { result.now ≡ spec.runtime_name }
{
    b"__llvm_profile_instrument_target"
}

fn amount_of(alloc: Global, amount: Option<&Operand>) -> Result<Operand, NoMemory>
    ensures { IfOk result (λ made. made ≡ amount_of amount.entry) }
{
    match amount {
        Some(amount) => amount.copy(alloc),
        None => Ok(Operand::Int(1)),
    }
}

// `atomicrmw add` on a counter of a unit.
fn counting(
    alloc: Global,
    symbol: &Name,
    counters: u64,
    counter: u64,
    amount: Option<&Operand>,
) -> Result<Instr, NoMemory>
    ensures { IfOk result (λ made. made ≡ Count (counters_symbol symbol.now) counters counter (amount_of amount.entry)) }
{
    Ok(Instr::Count {
        symbol: counters_symbol(alloc, symbol.bytes())?,
        size: counters,
        index: counter,
        step: amount_of(alloc, amount)?,
    })
}

// The call of the profile runtime that notes a target at a site of a unit.
fn noting(alloc: Global, symbol: &Name, target: &Operand, site: u64) -> Result<Instr, NoMemory>
    ensures { IfOk result (λ made. made ≡ spec.noting symbol.now target.now site) }
{
    let data = data_symbol(alloc, symbol.bytes())?;
    let mut args = Vec::with_capacity(alloc, 3)?;
    args.push((Ty::I64, target.copy(alloc)?))?;
    args.push((Ty::Ptr, Operand::Global(data)))?;
    args.push((Ty::I32, Operand::Int(site)))?;
    Ok(Instr::Call {
        dest: None,
        ret: Ret::Void,
        callee: Operand::Global(Name::of(alloc, runtime_name())?),
        args: Seq::of(args),
        prof: None,
    })
}

fn doing(alloc: Global, asked: &Asked<'_>) -> Result<Instr, NoMemory>
    ensures { (x : spec_tree.Instr) → IfOk result (λ made. made ≡ spec.doing x (Some (shown.asked asked.now))) }
{
    match asked {
        Asked::Rise {
            symbol,
            counters,
            counter,
            amount,
            ..
        } => counting(alloc, symbol, *counters, *counter, *amount),
        Asked::Note {
            symbol,
            target,
            site,
            ..
        } => noting(alloc, symbol, target, *site),
    }
}

// What stands in place of an instruction: what does what it asks for, or itself.
pub(crate) fn lowered_instr(alloc: Global, instr: &Instr) -> Result<Instr, NoMemory>
    ensures { IfOk result (λ made. made ≡ spec.lowered_instr instr.now) }
{
    match asked_of(instr) {
        Some(asked) => doing(alloc, &asked),
        None => instr.copy(alloc),
    }
}
