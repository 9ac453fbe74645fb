// A function of one block, and a module that has nothing but one function.
ghost use Rattle.std.specs.Prelude.{◌≡◌, ◌<◌, [], ◌∷◌, false, length, None, IfOk};
ghost use Rattle.check_operands_tests.specs.Alone.{IsAlone};
ghost use Rattle.ir_rules.specs.Finding.{IsNamed};
ghost use Rattle.ir_tree.specs.Functions.{is_declared};
ghost use Rattle.ir_tree.specs.Names.{Indexes};
ghost use Rattle.ir_tree.specs.Operands.{result_name};

use check_operands::first_in_operands;
use ir_rules::{Kind, Place};
use ir_tree::{Block, Function, FunctionIndex, Index, Instr, Module, Name, Prof, Ret, Seq, Term};
use pgo_base::NoMemory;
use sqlite_items::Boxed;
use std::alloc::Global;

/// A function without parameters, of a block `b` with two instructions that give no results.
pub(crate) fn function(
    alloc: Global,
    name: &[u8],
    ret: Ret,
    first: Instr,
    second: Instr,
    term: Term,
    prof: Option<Boxed<Prof>>,
) -> Result<Function, NoMemory>
    requires first { result_name first ≡ None }
    requires second { result_name second ≡ None }
    ensures named { IfOk result (λ f. IsNamed f) }
    ensures few { IfOk result (λ f. length f.blocks < 4294967296) }
{
    let mut instrs = Vec::new(alloc);
    instrs.push(first)?;
    instrs.push(second)?;
    let mut blocks = Vec::new(alloc);
    blocks.push(Block {
        label: Name::of(alloc, b"b".as_slice())?,
        instrs: Seq::of(instrs),
        term,
    })?;
    Ok(Function {
        name: Name::of(alloc, name)?,
        ret,
        params: Seq::new(alloc),
        blocks: Seq::of(blocks),
        prof,
    })
}

fn module_of(alloc: Global, only: Function) -> Result<Module, NoMemory>
    ensures { IfOk result (λ m. IsAlone m only) }
{
    let mut functions = Vec::new(alloc);
    functions.push(only)?;
    Ok(Module {
        globals: Seq::new(alloc),
        functions: Seq::of(functions),
    })
}

fn index_of(alloc: Global, name: &[u8]) -> Result<Index, NoMemory>
    ensures { IfOk result (λ index. Indexes index (name.now ∷ [])) }
{
    let mut symbols = Index::new(alloc);
    symbols.add(alloc, name, 0)?;
    Ok(symbols)
}

/// What is found in a function, as function 5, beside a module of one other function.
pub(crate) fn judge(
    alloc: Global,
    f: &Function,
    other: Function,
) -> Result<Option<(u8, Place)>, NoMemory>
    requires named { IsNamed f.now }
    requires few { length f.now.blocks < 4294967296 }
    requires other { is_declared other ≡ false }
{
    let known = FunctionIndex::of(alloc, f)?;
    let symbols = index_of(alloc, other.name.bytes())?;
    let module = module_of(alloc, other)?;
    Ok(first_in_operands(&known, &symbols, Kind::Plain, &module, 5, f))
}
