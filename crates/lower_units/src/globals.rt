// The globals of a unit's counters and data.
ghost use Rattle.std.specs.Prelude.{◌≡◌, ◌++◌, ◌∷◌, [], IfOk, OnOk};
ghost use Rattle.ir_tree.specs.declared.types.Init.TheVariants as init;
ghost use Rattle.lower_units.specs.Made.{data_global, told_globals, words};
ghost use Rattle.lowering.specs.Units as spec;

use crate::held::name_held;
use crate::names::{counters_symbol, data_symbol};
use crate::told::Told;
use ir_tree::{Global1, Init, MemTy, Seq, Ty};
use pgo_base::{NoMemory, hash8};
use sqlite_items::Boxed;
use std::alloc::Global;

// The type `[N x i64]`.
fn words(alloc: Global, count: u64) -> Result<MemTy, NoMemory>
    ensures { IfOk result (λ made. made ≡ words count) }
{
    let word = Boxed::new(alloc, MemTy::Scalar(Ty::I64))?;
    Ok(MemTy::Array {
        count,
        element: word,
    })
}

// `@__profc_X = global [N x i64] zeroinitializer`
fn counters_global(alloc: Global, symbol: &[u8], counters: u64) -> Result<Global1, NoMemory>
    ensures { IfOk result (λ made. made ≡ spec.counters_global symbol.now counters) }
{
    Ok(Global1 {
        name: counters_symbol(alloc, symbol)?,
        constant: false,
        mem: words(alloc, counters)?,
        init: Init::Zero,
    })
}

// `[i64 A, i64 B, i64 N, i64 S]`
fn data(
    alloc: Global,
    name_hash: u64,
    hash: u64,
    counters: u64,
    sites: u64,
) -> Result<Init, NoMemory>
    ensures { IfOk result (λ made. made ≡ init.List (init.Int name_hash ∷ init.Int hash ∷ init.Int counters ∷ init.Int sites ∷ [])) }
{
    let mut numbers = Vec::with_capacity(alloc, 4)?;
    numbers.push(Init::Int(name_hash))?;
    numbers.push(Init::Int(hash))?;
    numbers.push(Init::Int(counters))?;
    numbers.push(Init::Int(sites))?;
    Ok(Init::List(Seq::of(numbers)))
}

// `@__profd_X = global [4 x i64] [i64 A, i64 B, i64 N, i64 S]`
fn data_global(alloc: Global, symbol: &[u8], init: Init) -> Result<Global1, NoMemory>
    ensures { IfOk result (λ made. made ≡ data_global symbol.now init) }
{
    Ok(Global1 {
        name: data_symbol(alloc, symbol)?,
        constant: false,
        mem: words(alloc, 4)?,
        init,
    })
}

// Appends the globals of the unit that a global names, of which so much is told.
pub(crate) fn push_globals(
    alloc: Global,
    g: &Global1,
    told: &Told,
    made: &mut Vec<Global1>,
) -> Result<(), NoMemory>
    ensures { OnOk result (made.new.items ≡ made.old.items ++ told_globals g.now told.now) }
{
    let symbol = g.name.bytes();
    let counters = told.counters.unwrap_or(0);
    let data = data(alloc, hash8(name_held(g)), told.hash, counters, told.sites)?;
    made.push(counters_global(alloc, symbol, counters)?)?;
    made.push(data_global(alloc, symbol, data)?)?;
    Ok(())
}
