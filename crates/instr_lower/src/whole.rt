// A checked module that counts, lowered.
ghost use Rattle.std.specs.Prelude.{◌≡◌, ◌≤◌, ℕ, Some, true, IfErr, IfOk};
ghost use Rattle.instr_lower.specs.Made.{IsLoweredFrom, IsMadeOf, IsPast, IsRefusedFor, IsSmall};
ghost use Rattle.ir_likeness.specs.Like.{AreLike};
ghost use Rattle.ir_model.specs.Run.{run_of};
ghost use Rattle.ir_model.specs.declared.result.Call.{Call};
ghost use Rattle.ir_rules.specs.Accepted.{IsAccepted};
ghost use Rattle.ir_rules.specs.Kinds.{kind_of};
ghost use Rattle.ir_rules.specs.Lists.{Among};
ghost use Rattle.ir_rules.specs.WellFormed.{IsWellFormed};
ghost use Rattle.ir_rules.specs.declared.place.Kind.TheVariants.{Counted, Lowered};
ghost use Rattle.ir_tree.specs.declared.types.Global1 as tree_global;
ghost use Rattle.ir_tree.specs.declared.types.Module as tree;
ghost use Rattle.lower_units.specs.Shown as shown;
ghost use Rattle.lowering.specs.Asked.{all_asked};
ghost use Rattle.lowering.specs.Lowered as spec;
ghost use Rattle.lowering.specs.Refusals as refusals;
ghost use Rattle.lowering.specs.Units.{names_used, sites_told};

use crate::error::LowerError;
use crate::functions::lowered_functions;
use ir_check::{Checked, Kind};
use ir_limits::passed;
use ir_tree::{Global1, Module, Seq};
use lower_units::{Refusal, Units};
use lowered_accepted::{lowered_is_accepted, lowered_is_formed};
use lowered_rules::{asks_are_small, units_are_told};
use lowering::lowering_runs;
use pgo_base::NoMemory;
use std::alloc::Global;

/// The lowered form of a module that counts by LLVM's intrinsics: each increment is an addition to one of the unit's own counters, each
/// value note a call of the profile runtime, and each unit has its counters and its data. It is what LLVM's pass `instrprof` is for.
///
/// The module that is made is accepted as a lowered one, and each run of it is the run of the original, with the same counters that
/// rise and the same targets that are noted. It refuses a module of another kind; the first call, in text order, whose hash or number of
/// counters is not that of the unit's first, or whose counter is past that number; the first unit that value notes alone name; and the
/// first limit that the lowered module passes. Else memory alone is wanting. The original stays as it is, and is copied once.
pub fn lower(alloc: Global, module: &Checked) -> Result<Checked, LowerError>
    ensures lowered { IfOk result (λ made. made ≡ spec.lowered «module».now) }
    ensures unrefused { IfOk result (λ made. IsLoweredFrom «module».now) }
    ensures accepted { IfOk result (λ made. IsAccepted made) }
    ensures kind { IfOk result (λ made. kind_of made.functions ≡ Lowered) }
    ensures same { IfOk result (λ made. (c : Call) (n : ℕ) → run_of made c n ≡ run_of «module».now c n) }
    ensures alike { IfOk result (λ made. AreLike «module».now made 1 0) }
    ensures refused { IfErr result (IsRefusedFor «module».now) }
{
    match module.kind() {
        Kind::Counted => lowered(alloc, module.module()),
        found => Err(LowerError::WrongKind { found }),
    }
}

// The lowered form of an accepted module that counts.
fn lowered(alloc: Global, original: &Module) -> Result<Checked, LowerError>
    requires accepted { IsAccepted original.now }
    requires counted { kind_of original.now.functions ≡ Counted }
    ensures made { IfOk result (IsMadeOf original.now) }
    ensures refused { IfErr result (IsRefusedFor original.now) }
{
    asks_are_small();
    let units = Units::of(alloc, original)?;
    match units.refusal(alloc)? {
        Some(refusal) => Err(refused_for(refusal)),
        None => lowered_by(alloc, original, &units),
    }
}

fn refused_for(refusal: Refusal) -> LowerError
    requires { IsSmall (shown.refusal refusal) }
    ensures { (m : tree.Module) → kind_of m.functions ≡ Counted → refusals.refusal m ≡ Some (shown.refusal refusal) → IsRefusedFor m result }
{
    match refusal {
        Refusal::HashDiffers { name, first, other } => LowerError::HashDiffers {
            name,
            first,
            other,
        },
        Refusal::CountDiffers { name, first, other } => LowerError::CountDiffers {
            name,
            first: first as u32,
            other: other as u32,
        },
        Refusal::IndexPast { name, index, count } => LowerError::IndexPast {
            name,
            index: index as u32,
            count: count as u32,
        },
        Refusal::NoIncrement { name } => LowerError::NoIncrement { name },
    }
}

// The lowered form of one of which nothing is refused.
fn lowered_by(alloc: Global, original: &Module, units: &Units<'_>) -> Result<Checked, LowerError>
    requires accepted { IsAccepted original.now }
    requires from { IsLoweredFrom original.now }
    requires units { units.now.«module».now ≡ original.now }
    ensures made { IfOk result (IsMadeOf original.now) }
    ensures refused { IfErr result (IsRefusedFor original.now) }
{
    lowered_is_formed();
    lowered_is_accepted();
    units_are_told();
    lowering_runs();
    let made = lowered_module(alloc, original, units)?;
    checked(alloc, made)
}

fn lowered_module(alloc: Global, original: &Module, units: &Units<'_>) -> Result<Module, NoMemory>
    requires few { (g : tree_global.Global1) → Among g original.now.globals → names_used (all_asked original.now) g ≡ true → sites_told g.name (all_asked original.now) ≤ 65536 }
    requires units { units.now.«module».now ≡ original.now }
    ensures { IfOk result (λ made. made ≡ spec.lowered original.now) }
{
    let mut globals = copies(alloc, original.globals.as_slice())?;
    let mut added = units.globals(alloc)?;
    globals.append(&mut added)?;
    Ok(Module {
        globals: Seq::of(globals),
        functions: lowered_functions(alloc, original.functions.as_slice())?,
    })
}

fn copies(alloc: Global, globals: &[Global1]) -> Result<Vec<Global1>, NoMemory>
    ensures { IfOk result (λ made. made.items ≡ globals.now) }
{
    let mut made = Vec::with_capacity(alloc, globals.len())?;
    for g in globals {
        made.push(g.copy(alloc)?)?;
    }
    Ok(made)
}

// A well-formed module, checked: it can pass a limit alone.
fn checked(alloc: Global, module: Module) -> Result<Checked, LowerError>
    requires { IsWellFormed «module» }
    ensures made { IfOk result (λ made. made ≡ «module») }
    ensures accepted { IfOk result (λ made. IsAccepted «module») }
    ensures refused { IfErr result (IsPast «module») }
{
    let limit = passed(&module);
    match limit {
        Some((which, found)) => Err(LowerError::Limit { which, found }),
        None => Ok(Checked::of_accepted(alloc, module)?),
    }
}
