// Functions and modules that count.
ghost use Rattle.std.specs.Prelude.{◌≡◌, ◌++◌, ◌∷◌, [], IfOk, OnOk};
ghost use Rattle.count_plan.specs.Counted as spec;
ghost use Rattle.count_plan.specs.Counted.{counted_functions, counted_module, function_plan, no_function_plan};

use crate::blocks::counted_blocks;
use count_plan::{FunctionPlan, ModulePlan};
use ir_tree::{Function, Module, Name, Seq};
use pgo_base::NoMemory;
use std::alloc::Global;

/// The function with what a plan puts into it. Its parts move, and it is rebuilt once; labels are looked up by an index, so
/// that the time is linear. It refuses for want of memory alone.
pub fn insert_into_function(
    alloc: Global,
    unit: &FunctionPlan,
    function: Function,
) -> Result<Function, NoMemory>
    ensures { IfOk result (λ made. made ≡ spec.counted_function unit.now function) }
{
    let Function {
        name,
        ret,
        params,
        blocks,
        prof,
    } = function;
    let blocks = counted_blocks(alloc, unit, blocks.take())?;
    Ok(Function {
        name,
        ret,
        params,
        blocks: Seq::of(blocks),
        prof,
    })
}

/// The module with what a plan puts into it: each function by its own plan, and the plan's globals and declared functions
/// behind its own. Parts move, and nothing is copied but names of new blocks. It refuses for want of memory alone.
pub fn insert_into_module(
    alloc: Global,
    plan: ModulePlan,
    original: Module,
) -> Result<Module, NoMemory>
    ensures { IfOk result (λ made. made ≡ counted_module plan original) }
{
    let ModulePlan {
        functions: plans,
        globals: new_globals,
        declarations,
    } = plan;
    let Module { globals, functions } = original;
    let counted = counted_functions(alloc, plans.as_slice(), functions.take())?;
    Ok(Module {
        globals: joined(globals.take(), new_globals.take())?,
        functions: joined(counted, declarations.take())?,
    })
}

fn joined<T: Drop>(mut first: Vec<T>, mut second: Vec<T>) -> Result<Seq<T>, NoMemory>
    ensures { IfOk result (λ all. all ≡ first.items ++ second.items) }
{
    first.append(&mut second)?;
    Ok(Seq::of(first))
}

// The plan that puts nothing into a function.
fn nothing(alloc: Global) -> FunctionPlan
    ensures { result ≡ no_function_plan }
{
    FunctionPlan {
        symbol: Name::default(),
        hash: 0,
        counters: 0,
        blocks: Seq::new(alloc),
    }
}

fn plan_at<'a>(plans: &'a [FunctionPlan], j: usize, nothing: &'a FunctionPlan) -> &'a FunctionPlan
    requires { nothing.now ≡ no_function_plan }
    ensures { result.now ≡ function_plan plans.now j }
{
    match plans.get(j) {
        Some(plan) => plan,
        None => nothing,
    }
}

// Appends the function of this number, with what its plan puts into it.
fn push_function(
    alloc: Global,
    plans: &[FunctionPlan],
    nothing: &FunctionPlan,
    j: usize,
    function: Function,
    made: &mut Vec<Function>,
) -> Result<(), NoMemory>
    requires { nothing.now ≡ no_function_plan }
    ensures { OnOk result (made.new.items ≡ made.old.items ++ spec.counted_function (function_plan plans.now j) function ∷ []) }
{
    let unit = plan_at(plans, j, nothing);
    made.push(insert_into_function(alloc, unit, function)?)?;
    Ok(())
}

fn counted_functions(
    alloc: Global,
    plans: &[FunctionPlan],
    functions: Vec<Function>,
) -> Result<Vec<Function>, NoMemory>
    ensures { IfOk result (λ made. made.items ≡ counted_functions plans.now functions.items) }
{
    let nothing = nothing(alloc);
    let mut made = Vec::with_capacity(alloc, functions.len())?;
    let mut j = 0;
    for function in functions {
        push_function(alloc, plans, &nothing, j, function, &mut made)?;
        j += 1;
    }
    Ok(made)
}
