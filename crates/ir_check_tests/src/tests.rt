// Modules that are accepted or refused, with answers taken from the rules by hand.
use crate::limits::counted;
use ir_check::{CheckError, Kind, LimitKind, Place, check};
use ir_tree::{
    BinOp, Block, Flags, Function, Instr, Module, Name, Operand, Pred, Ret, Seq, Term, Ty,
};
use pgo_base::NoMemory;
use std::alloc::Global;
use std::test::Fail;

fn name(alloc: Global, bytes: &[u8]) -> Result<Name, NoMemory> {
    Name::of(alloc, bytes)
}

fn local(alloc: Global, bytes: &[u8]) -> Result<Operand, NoMemory> {
    Ok(Operand::Local(name(alloc, bytes)?))
}

// %c = icmp slt i64 %n, 10
fn compare(alloc: Global) -> Result<Instr, NoMemory> {
    Ok(Instr::Compare {
        dest: name(alloc, b"c".as_slice())?,
        pred: Pred::Slt,
        ty: Ty::I64,
        left: local(alloc, b"n".as_slice())?,
        right: Operand::Int(10),
    })
}

// %DEST = add i64 %n, 1
fn add(alloc: Global, dest: &[u8]) -> Result<Instr, NoMemory> {
    Ok(Instr::Binary {
        dest: name(alloc, dest)?,
        op: BinOp::Add,
        flags: Flags {
            nuw: false,
            nsw: false,
            exact: false,
        },
        ty: Ty::I64,
        left: local(alloc, b"n".as_slice())?,
        right: Operand::Int(1),
    })
}

// call void @print_i64(i64 %a)
fn print(alloc: Global) -> Result<Instr, NoMemory> {
    let mut args = Vec::new(alloc);
    args.push((Ty::I64, local(alloc, b"a".as_slice())?))?;
    Ok(Instr::Call {
        dest: None,
        ret: Ret::Void,
        callee: Operand::Global(name(alloc, b"print_i64".as_slice())?),
        args: Seq::of(args),
        prof: None,
    })
}

fn ret(alloc: Global, value: &[u8]) -> Result<Term, NoMemory> {
    Ok(Term::Ret {
        value: Some((Ty::I64, local(alloc, value)?)),
    })
}

fn entry(alloc: Global) -> Result<Block, NoMemory> {
    let mut instrs = Vec::new(alloc);
    instrs.push(compare(alloc)?)?;
    Ok(Block {
        label: name(alloc, b"entry".as_slice())?,
        instrs: Seq::of(instrs),
        term: Term::CondBr {
            cond: local(alloc, b"c".as_slice())?,
            yes: name(alloc, b"low".as_slice())?,
            no: name(alloc, b"high".as_slice())?,
            prof: None,
        },
    })
}

fn low(alloc: Global) -> Result<Block, NoMemory> {
    let mut instrs = Vec::new(alloc);
    instrs.push(add(alloc, b"a".as_slice())?)?;
    instrs.push(print(alloc)?)?;
    Ok(Block {
        label: name(alloc, b"low".as_slice())?,
        instrs: Seq::of(instrs),
        term: ret(alloc, b"a".as_slice())?,
    })
}

// The block `high`, which returns the named value.
fn high(alloc: Global, value: &[u8]) -> Result<Block, NoMemory> {
    Ok(Block {
        label: name(alloc, b"high".as_slice())?,
        instrs: Seq::of(Vec::new(alloc)),
        term: ret(alloc, value)?,
    })
}

fn print_i64(alloc: Global) -> Result<Function, NoMemory> {
    let mut params = Vec::new(alloc);
    params.push((Ty::I64, name(alloc, b"".as_slice())?))?;
    Ok(Function {
        name: name(alloc, b"print_i64".as_slice())?,
        ret: Ret::Void,
        params: Seq::of(params),
        blocks: Seq::of(Vec::new(alloc)),
        prof: None,
    })
}

fn branching(alloc: Global, value: &[u8]) -> Result<Function, NoMemory> {
    let mut params = Vec::new(alloc);
    params.push((Ty::I64, name(alloc, b"n".as_slice())?))?;
    let mut blocks = Vec::new(alloc);
    blocks.push(entry(alloc)?)?;
    blocks.push(low(alloc)?)?;
    blocks.push(high(alloc, value)?)?;
    Ok(Function {
        name: name(alloc, b"g".as_slice())?,
        ret: Ret::Value(Ty::I64),
        params: Seq::of(params),
        blocks: Seq::of(blocks),
        prof: None,
    })
}

// `print_i64` and functions `g` whose block `high` returns the named values.
fn module(alloc: Global, values: &[&[u8]]) -> Result<Module, NoMemory> {
    let mut functions = Vec::new(alloc);
    functions.push(print_i64(alloc)?)?;
    for value in values {
        functions.push(branching(alloc, *value)?)?;
    }
    Ok(Module {
        globals: Seq::of(Vec::new(alloc)),
        functions: Seq::of(functions),
    })
}

#[test]
fn a_branching_function_that_prints_is_accepted(rt: HostRuntime) -> Result<(), Fail> {
    let alloc = rt.alloc();
    let module = module(alloc, [b"n".as_slice()].as_slice())?;
    match check(alloc, module) {
        Ok(checked) => {
            assert!(rt; checked.kind() == Kind::Plain);
            assert_eq!(rt; checked.function_at(b"g".as_slice()), Some(1));
            assert_eq!(rt; checked.function_at(b"h".as_slice()), None);
            assert_eq!(rt; checked.module().functions.as_slice().len(), 2);
            assert_eq!(rt; checked.into_module().functions.as_slice().len(), 2);
        }
        Err(_) => assert!(rt; false, "refused"),
    }
    Ok(())
}

fn refusal(alloc: Global, values: &[&[u8]]) -> Result<Option<CheckError>, NoMemory> {
    match check(alloc, module(alloc, values)?) {
        Ok(_) => Ok(None),
        Err(refused) => Ok(Some(refused.why)),
    }
}

fn broken(rule: u8, function: u32, block: u32, item: u64) -> Option<CheckError> {
    let place = Place {
        function,
        block,
        item,
    };
    Some(CheckError::Broken { rule, place })
}

#[test]
fn the_first_broken_rule_is_named(rt: HostRuntime) -> Result<(), Fail> {
    let alloc = rt.alloc();
    let n = b"n".as_slice();
    let twice = refusal(alloc, [n, n].as_slice())?;
    assert!(rt; twice == broken(1, 2, 0, 0));
    let unknown = refusal(alloc, [b"z".as_slice()].as_slice())?;
    assert!(rt; unknown == broken(11, 1, 2, 0));
    let other_type = refusal(alloc, [b"c".as_slice()].as_slice())?;
    assert!(rt; other_type == broken(12, 1, 2, 0));
    let other_block = refusal(alloc, [b"a".as_slice()].as_slice())?;
    assert!(rt; other_block == broken(16, 1, 2, 0));
    Ok(())
}

// One block of so many additions, which returns the last sum.
fn additions(alloc: Global, count: u64) -> Result<Module, Fail> {
    let mut instrs = Vec::new(alloc);
    for number in 0..count {
        let dest = format!(in alloc; "r{number}")?;
        instrs.push(add(alloc, dest.as_bytes())?)?;
    }
    let mut params = Vec::new(alloc);
    params.push((Ty::I64, name(alloc, b"n".as_slice())?))?;
    let mut blocks = Vec::new(alloc);
    blocks.push(Block {
        label: name(alloc, b"entry".as_slice())?,
        instrs: Seq::of(instrs),
        term: ret(alloc, b"n".as_slice())?,
    })?;
    let mut functions = Vec::new(alloc);
    functions.push(Function {
        name: name(alloc, b"f".as_slice())?,
        ret: Ret::Value(Ty::I64),
        params: Seq::of(params),
        blocks: Seq::of(blocks),
        prof: None,
    })?;
    Ok(Module {
        globals: Seq::of(Vec::new(alloc)),
        functions: Seq::of(functions),
    })
}

// With the parameter these are 2,048 registers, and one more.
#[test]
fn a_function_has_at_most_2048_registers(rt: HostRuntime) -> Result<(), Fail> {
    let alloc = rt.alloc();
    assert!(rt; check(alloc, additions(alloc, 2047)?).is_ok());
    match check(alloc, additions(alloc, 2048)?) {
        Ok(_) => assert!(rt; false, "accepted"),
        Err(refused) => {
            let limit = CheckError::Limit {
                which: LimitKind::Registers,
                found: 2049,
            };
            assert!(rt; refused.why == limit);
        }
    }
    Ok(())
}

#[test]
fn a_function_that_counts_has_at_most_4096_registers(rt: HostRuntime) -> Result<(), Fail> {
    let alloc = rt.alloc();
    assert!(rt; check(alloc, counted(alloc, additions(alloc, 4095)?)?).is_ok());
    match check(alloc, counted(alloc, additions(alloc, 4096)?)?) {
        Ok(_) => assert!(rt; false, "accepted"),
        Err(refused) => {
            let limit = CheckError::Limit {
                which: LimitKind::Registers,
                found: 4097,
            };
            assert!(rt; refused.why == limit);
        }
    }
    Ok(())
}

// The branching module, whose function `g` has another name.
fn with_name(alloc: Global, other: &[u8]) -> Result<Option<CheckError>, Fail> {
    let mut function = branching(alloc, b"n".as_slice())?;
    function.name = name(alloc, other)?;
    let mut functions = Vec::new(alloc);
    functions.push(print_i64(alloc)?)?;
    functions.push(function)?;
    let module = Module {
        globals: Seq::of(Vec::new(alloc)),
        functions: Seq::of(functions),
    };
    match check(alloc, module) {
        Ok(_) => Ok(None),
        Err(refused) => Ok(Some(refused.why)),
    }
}

#[test]
fn names_of_the_profile_runtime_are_reserved(rt: HostRuntime) -> Result<(), Fail> {
    let alloc = rt.alloc();
    assert!(rt; with_name(alloc, b"__profc_f".as_slice())? == broken(3, 1, 0, 0));
    assert!(rt; with_name(alloc, b"__prof".as_slice())? == broken(3, 1, 0, 0));
    assert!(rt; with_name(alloc, b"__llvm_profile_f".as_slice())? == broken(3, 1, 0, 0));
    assert!(rt; with_name(alloc, b"llvm.instrprof.f".as_slice())? == broken(3, 1, 0, 0));
    assert!(rt; with_name(alloc, b"__pro".as_slice())?.is_none());
    assert!(rt; with_name(alloc, b"f__prof".as_slice())?.is_none());
    Ok(())
}
