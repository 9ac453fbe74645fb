// The plan of a module.
ghost use Rattle.std.specs.Prelude.{◌≡◌, ℕ, ◌++◌, ◌∷◌, [], Some, false, map, slice_get, IfOk, OnOk};
ghost use Rattle.std.specs.List.{list_any};
ghost use Rattle.count_plan.specs.Counted.{counted_module, no_function_plan};
ghost use Rattle.gen_code.specs.Planned as spec;
ghost use Rattle.gen_code.specs.Planned.{HasPlan, HavePlans, record_globals};
ghost use Rattle.gen_plan.specs.Gen.{counted, has_select};
ghost use Rattle.ir_tree.specs.Functions.{is_declared};
ghost use Rattle.ir_tree.specs.declared.types.Function as tree;

use crate::function::planned;
use crate::globals::{declarations, record_global};
use count_plan::{FunctionPlan, ModulePlan};
use ir_tree::{Function, Global1, Module, Name, Seq};
use pgo_base::NoMemory;
use std::alloc::Global;

/// The plan by which a module counts: that of each defined function, the global that names the record of each, and the
/// intrinsics that count, the one for selects only where some function has a select that a walk leads to. Nothing is put into
/// declared functions. It refuses for want of memory alone.
pub fn plan_module(
    alloc: Global,
    original: &Module,
    entry_first: bool,
) -> Result<ModulePlan, NoMemory>
    requires { HavePlans entry_first original.now }
    ensures { IfOk result (λ plan. counted_module plan original.now ≡ counted entry_first original.now) }
{
    let functions = original.functions.as_slice();
    let (plans, selects) = plans_of(alloc, functions, entry_first)?;
    Ok(ModulePlan {
        functions: Seq::of(plans),
        globals: record_globals(alloc, functions)?,
        declarations: declarations(alloc, selects)?,
    })
}

// The plan of each function, and whether some has a select that a walk leads to.
fn plans_of(
    alloc: Global,
    functions: &[Function],
    entry_first: bool,
) -> Result<(Vec<FunctionPlan>, bool), NoMemory>
    requires { (j : ℕ) (f : tree.Function) → slice_get functions.now j ≡ Some f → is_declared f ≡ false → HasPlan entry_first f }
    ensures plans { IfOk result (λ made. made.0.items ≡ map (spec.plan_of entry_first) functions.now) }
    ensures selects { IfOk result (λ made. made.1 ≡ list_any has_select functions.now) }
{
    let mut plans = Vec::with_capacity(alloc, functions.len())?;
    let mut selects = false;
    for function in functions {
        let (plan, selecting) = plan_of(alloc, function, entry_first)?;
        plans.push(plan)?;
        selects = selects || selecting;
    }
    Ok((plans, selects))
}

// A declared function has nothing put in.
fn plan_of(
    alloc: Global,
    function: &Function,
    entry_first: bool,
) -> Result<(FunctionPlan, bool), NoMemory>
    requires { is_declared function.now ≡ false → HasPlan entry_first function.now }
    ensures plan { IfOk result (λ made. made.0 ≡ spec.plan_of entry_first function.now) }
    ensures selects { IfOk result (λ made. made.1 ≡ has_select function.now) }
{
    if function.is_declared() {
        return Ok((nothing(alloc), false));
    }
    planned(alloc, function, entry_first)
}

// The plan that puts nothing into a function.
fn nothing(alloc: Global) -> FunctionPlan
    ensures { result ≡ no_function_plan }
{
    FunctionPlan {
        symbol: Name::default(),
        hash: 0,
        counters: 0,
        blocks: Seq::new(alloc),
    }
}

// The global of each defined function, which names its record.
fn record_globals(alloc: Global, functions: &[Function]) -> Result<Seq<Global1>, NoMemory>
    ensures { IfOk result (λ made. made ≡ record_globals functions.now) }
{
    let mut made = Vec::new(alloc);
    for function in functions {
        push_global(alloc, function, &mut made)?;
    }
    Ok(Seq::of(made))
}

fn push_global(alloc: Global, function: &Function, made: &mut Vec<Global1>) -> Result<(), NoMemory>
    ensures { OnOk result (made.new.items ≡ made.old.items ++ record_globals (function.now ∷ [])) }
{
    if !function.is_declared() {
        made.push(record_global(alloc, &function.name)?)?;
    }
    Ok(())
}
