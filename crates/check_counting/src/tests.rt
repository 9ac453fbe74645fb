// Which rule and place is named is in the contract; here the rules are met on small functions, and numbers come from the text.
ghost use Rattle.std.specs.Prelude.{◌≡◌, length, IfOk};

use crate::first_in_counting;
use ir_rules::{Kind, Place};
use ir_tree::{Block, Function, Index, Instr, Module, Name, Operand, Ret, Seq, Term, Ty};
use pgo_base::NoMemory;
use std::alloc::Global;
use std::test::Fail;

/// `atomicrmw add ptr getelementptr ([1 x i64], ptr @__profc_f, i64 0, i64 0), i64 1 monotonic`
fn count(alloc: Global) -> Result<Instr, NoMemory> {
    Ok(Instr::Count {
        symbol: Name::of(alloc, b"__profc_f".as_slice())?,
        size: 1,
        index: 0,
        step: Operand::Int(1),
    })
}

/// `call void @llvm.instrprof.increment(ptr @__profn_f, i64 0, i32 1, i32 0)`
fn increment(alloc: Global) -> Result<Instr, NoMemory> {
    let mut args = Vec::new(alloc);
    args.push((
        Ty::Ptr,
        Operand::Global(Name::of(alloc, b"__profn_f".as_slice())?),
    ))?;
    args.push((Ty::I64, Operand::Int(0)))?;
    args.push((Ty::I32, Operand::Int(1)))?;
    args.push((Ty::I32, Operand::Int(0)))?;
    Ok(Instr::Call {
        dest: None,
        ret: Ret::Void,
        callee: Operand::Global(Name::of(alloc, b"llvm.instrprof.increment".as_slice())?),
        args: Seq::of(args),
        prof: None,
    })
}

fn function(alloc: Global, instrs: Vec<Instr>) -> Result<Function, NoMemory>
    ensures { IfOk result (λ f. length f.blocks ≡ 1) }
{
    let mut blocks = Vec::new(alloc);
    blocks.push(Block {
        label: Name::of(alloc, b"entry".as_slice())?,
        instrs: Seq::of(instrs),
        term: Term::Ret { value: None },
    })?;
    Ok(Function {
        name: Name::of(alloc, b"f".as_slice())?,
        ret: Ret::Void,
        params: Seq::new(alloc),
        blocks: Seq::of(blocks),
        prof: None,
    })
}

// The first of rules 17 and 18 that function 2 breaks, in a module without globals and functions.
fn found(alloc: Global, instrs: Vec<Instr>) -> Result<Option<(u8, Place)>, NoMemory> {
    let f = function(alloc, instrs)?;
    let module = Module {
        globals: Seq::new(alloc),
        functions: Seq::new(alloc),
    };
    Ok(first_in_counting(&Index::new(alloc), Kind::Plain, &module, 2, &f))
}

#[test]
fn nothing_is_counted(rt: HostRuntime) -> Result<(), Fail> {
    let alloc = rt.alloc();
    assert_eq!(rt; found(alloc, Vec::new(alloc))?, None);
    Ok(())
}

#[test]
fn a_plain_module_counts_nothing(rt: HostRuntime) -> Result<(), Fail> {
    let alloc = rt.alloc();
    let mut instrs = Vec::new(alloc);
    instrs.push(count(alloc)?)?;
    let place = Place {
        function: 2,
        block: 0,
        item: 0,
    };
    assert_eq!(rt; found(alloc, instrs)?, Some((18, place)));
    Ok(())
}

#[test]
fn the_lower_rule_is_named_though_its_place_is_later(rt: HostRuntime) -> Result<(), Fail> {
    let alloc = rt.alloc();
    let mut instrs = Vec::new(alloc);
    instrs.push(count(alloc)?)?;
    instrs.push(increment(alloc)?)?;
    let place = Place {
        function: 2,
        block: 0,
        item: 1,
    };
    assert_eq!(rt; found(alloc, instrs)?, Some((17, place)));
    Ok(())
}
