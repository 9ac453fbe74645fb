//! Modules made by hand, with the code that they come to.
use ir_code::{
    Cases, EdgeCode, Exit, FunctionCode, GlobalImage, Input, Op, Symbols, Work, counter_total,
    global_images, module_symbols, resolve_functions, site_total,
};
use ir_memory::{Base, Memory, Value};
use ir_tree::{
    BinOp, Block, Flags, Function, Global1, Init, Instr, MemTy, Module, Name, Operand, Ret, Seq,
    Term, Ty,
};
use pgo_base::NoMemory;
use sqlite_items::Boxed;
use std::alloc::Global;
use std::test::Fail;

fn name(alloc: Global, text: &str) -> Result<Name, NoMemory> {
    Name::of(alloc, text.as_bytes())
}

fn local(alloc: Global, text: &str) -> Result<Operand, NoMemory> {
    Ok(Operand::Local(name(alloc, text)?))
}

fn global(alloc: Global, text: &str) -> Result<Operand, NoMemory> {
    Ok(Operand::Global(name(alloc, text)?))
}

fn add(alloc: Global, dest: &str, left: &str, right: Operand) -> Result<Instr, NoMemory> {
    Ok(Instr::Binary {
        dest: name(alloc, dest)?,
        op: BinOp::Add,
        flags: Flags {
            nuw: false,
            nsw: false,
            exact: false,
        },
        ty: Ty::I64,
        left: local(alloc, left)?,
        right,
    })
}

/// `%p = phi i64 [ %x, %entry ], [ %q, %loop ]`
fn phi(alloc: Global) -> Result<Instr, NoMemory> {
    let mut entries = Vec::new(alloc);
    entries.push((local(alloc, "x")?, name(alloc, "entry")?))?;
    entries.push((local(alloc, "q")?, name(alloc, "loop")?))?;
    Ok(Instr::Phi {
        dest: name(alloc, "p")?,
        ty: Ty::I64,
        entries: Seq::of(entries),
    })
}

/// `call void @llvm.instrprof.increment(ptr @__profn_NAME, i64 0, i32 2, i32 1)`
fn increment(alloc: Global, unit: &str) -> Result<Instr, NoMemory> {
    let mut args = Vec::new(alloc);
    args.push((Ty::Ptr, global(alloc, unit)?))?;
    args.push((Ty::I64, Operand::Int(0)))?;
    args.push((Ty::I32, Operand::Int(2)))?;
    args.push((Ty::I32, Operand::Int(1)))?;
    Ok(Instr::Call {
        dest: None,
        ret: Ret::Void,
        callee: global(alloc, "llvm.instrprof.increment")?,
        args: Seq::of(args),
        prof: None,
    })
}

/// `%g = getelementptr [2 x i16], ptr @table, i64 0, i64 %q`
fn gep(alloc: Global) -> Result<Instr, NoMemory> {
    let mut indices = Vec::new(alloc);
    indices.push((Ty::I64, Operand::Int(0)))?;
    indices.push((Ty::I64, local(alloc, "q")?))?;
    Ok(Instr::Gep {
        dest: name(alloc, "g")?,
        inbounds: false,
        mem: pair(alloc)?,
        address: global(alloc, "table")?,
        indices: Seq::of(indices),
    })
}

/// `[2 x i16]`
fn pair(alloc: Global) -> Result<MemTy, NoMemory> {
    Ok(MemTy::Array {
        count: 2,
        element: Boxed::new(alloc, MemTy::Scalar(Ty::I16))?,
    })
}

fn numbers(alloc: Global, all: &[u64]) -> Result<Init, NoMemory> {
    let mut inits = Vec::new(alloc);
    for number in all {
        inits.push(Init::Int(*number))?;
    }
    Ok(Init::List(Seq::of(inits)))
}

fn variable(alloc: Global, text: &str, mem: MemTy, init: Init) -> Result<Global1, NoMemory> {
    Ok(Global1 {
        name: name(alloc, text)?,
        constant: false,
        mem,
        init,
    })
}

fn data(alloc: Global, text: &str, counters: u64, sites: u64) -> Result<Global1, NoMemory> {
    let init = numbers(alloc, [5, 9, counters, sites].as_slice())?;
    variable(alloc, text, MemTy::Scalar(Ty::I64), init)
}

fn unit_name(alloc: Global, text: &str) -> Result<Global1, NoMemory> {
    let bytes = Vec::from_slice(alloc, text.as_bytes())?;
    let init = Init::Bytes(Seq::of(bytes));
    variable(alloc, text, MemTy::Scalar(Ty::I8), init)
}

/// `@__profn_f`, `@limit = global i32 258`, `@__profd_f`, `@table = global [2 x i16] [ i16 3, i16 4 ]`, `@__profd_g`
fn globals(alloc: Global) -> Result<Seq<Global1>, NoMemory> {
    let mut all = Vec::new(alloc);
    all.push(unit_name(alloc, "__profn_f")?)?;
    all.push(variable(alloc, "limit", MemTy::Scalar(Ty::I32), Init::Int(258))?)?;
    all.push(data(alloc, "__profd_f", 3, 1)?)?;
    let table = numbers(alloc, [3, 4].as_slice())?;
    all.push(variable(alloc, "table", pair(alloc)?, table)?)?;
    all.push(data(alloc, "__profd_g", 4, 2)?)?;
    Ok(Seq::of(all))
}

fn block(label: Name, instrs: Vec<Instr>, term: Term) -> Block {
    Block {
        label,
        instrs: Seq::of(instrs),
        term,
    }
}

/// The block `loop`, of a phi and three instructions; it goes to itself or to `out`.
fn loop_block(alloc: Global) -> Result<Block, NoMemory> {
    let mut instrs = Vec::new(alloc);
    instrs.push(phi(alloc)?)?;
    instrs.push(add(alloc, "q", "p", Operand::Int(2))?)?;
    instrs.push(increment(alloc, "__profn_g")?)?;
    instrs.push(gep(alloc)?)?;
    let term = Term::CondBr {
        cond: local(alloc, "q")?,
        yes: name(alloc, "loop")?,
        no: name(alloc, "out")?,
        prof: None,
    };
    Ok(block(name(alloc, "loop")?, instrs, term))
}

/// `define i64 @f(i64 %n)` of the blocks `entry`, `loop` and `out`.
fn defined(alloc: Global) -> Result<Function, NoMemory> {
    let mut params = Vec::new(alloc);
    params.push((Ty::I64, name(alloc, "n")?))?;
    let mut entry = Vec::new(alloc);
    entry.push(add(alloc, "x", "n", Operand::Int(1))?)?;
    let to_loop = Term::Br {
        to: name(alloc, "loop")?,
    };
    let mut blocks = Vec::new(alloc);
    blocks.push(block(name(alloc, "entry")?, entry, to_loop))?;
    blocks.push(loop_block(alloc)?)?;
    let returns = Term::Ret {
        value: Some((Ty::I64, local(alloc, "q")?)),
    };
    blocks.push(block(name(alloc, "out")?, Vec::new(alloc), returns))?;
    Ok(Function {
        name: name(alloc, "f")?,
        ret: Ret::Value(Ty::I64),
        params: Seq::of(params),
        blocks: Seq::of(blocks),
        prof: None,
    })
}

fn declared(alloc: Global, text: &str) -> Result<Function, NoMemory> {
    Ok(Function {
        name: name(alloc, text)?,
        ret: Ret::Void,
        params: Seq::new(alloc),
        blocks: Seq::new(alloc),
        prof: None,
    })
}

/// The intrinsic of a profile has no number: `print_i64` is function 0, `f` function 1.
fn module(alloc: Global) -> Result<Module, NoMemory> {
    let mut functions = Vec::new(alloc);
    functions.push(declared(alloc, "print_i64")?)?;
    functions.push(declared(alloc, "llvm.instrprof.increment")?)?;
    functions.push(defined(alloc)?)?;
    functions.push(declared(alloc, "llvm.lifetime.start.p0")?)?;
    functions.push(declared(alloc, "exit")?)?;
    Ok(Module {
        globals: globals(alloc)?,
        functions: Seq::of(functions),
    })
}

fn code(alloc: Global, module: &Module) -> Result<Vec<FunctionCode>, NoMemory> {
    let symbols = module_symbols(alloc, module)?;
    resolve_functions(alloc, &symbols, module.functions.as_slice())
}

#[test]
fn declared_functions_have_their_work(rt: HostRuntime) -> Result<(), Fail> {
    let codes = code(rt.alloc(), &module(rt.alloc())?)?;
    assert_eq!(rt; codes.len(), 4);
    assert!(rt; matches!(codes[0].work, Work::Print));
    assert_eq!(rt; codes[1].blocks.len(), 3);
    assert!(rt; matches!(codes[2].work, Work::Nothing));
    assert!(rt; matches!(codes[3].work, Work::External));
    Ok(())
}

#[test]
fn registers_are_numbered_from_the_parameters_on(rt: HostRuntime) -> Result<(), Fail> {
    let codes = code(rt.alloc(), &module(rt.alloc())?)?;
    let f = codes.get(1).ok_or("a function")?;
    // n, x, p, q, g
    assert_eq!(rt; f.registers, 5);
    let entry = f.blocks.as_slice().first().ok_or("a block")?;
    let first = entry.ops.as_slice().first().ok_or("an operation")?;
    assert!(rt;
        matches!(
            first,
            Op::Binary {
                into: 1,
                left: Input::Register(0),
                right: Input::Number(1),
                ..
            }
        )
    );
    let out = f.blocks.as_slice().get(2).ok_or("a block")?;
    assert!(rt;
        matches!(
            out.exit,
            Exit::Return {
                value: Some((_, Input::Register(3)))
            }
        )
    );
    Ok(())
}

fn source(edge: &EdgeCode) -> Option<(usize, Input)> {
    let one = edge.moves.as_slice().first()?;
    Some((one.into.register, one.source))
}

#[test]
fn a_phi_moves_on_each_edge_the_value_of_its_entry(rt: HostRuntime) -> Result<(), Fail> {
    let codes = code(rt.alloc(), &module(rt.alloc())?)?;
    let blocks = codes.get(1).ok_or("a function")?.blocks.as_slice();
    let entered = blocks.first().ok_or("a block")?.edges.as_slice();
    let into_loop = entered.first().ok_or("an edge")?;
    assert_eq!(rt; into_loop.block, 1);
    assert!(rt; matches!(source(into_loop), Some((2, Input::Register(1)))));
    let behind = blocks.get(1).ok_or("a block")?.edges.as_slice();
    assert_eq!(rt; behind.len(), 2);
    assert!(rt; matches!(source(&behind[0]), Some((2, Input::Register(3)))));
    assert_eq!(rt; behind[1].block, 2);
    assert_eq!(rt; behind[1].moves.len(), 0);
    Ok(())
}

#[test]
fn counters_of_a_unit_stand_behind_those_before(rt: HostRuntime) -> Result<(), Fail> {
    let module = module(rt.alloc())?;
    let codes = code(rt.alloc(), &module)?;
    let f = codes.get(1).ok_or("a function")?;
    let turning = f.blocks.as_slice().get(1).ok_or("a block")?;
    let op = turning.ops.as_slice().get(1).ok_or("an operation")?;
    let Op::Add {
        unit,
        counter,
        step,
    } = op
    else {
        return Err(Fail::from("an increment"));
    };
    // `__profd_f` has 3 counters
    assert_eq!(rt; unit.first, 3);
    assert_eq!(rt; unit.count, 4);
    assert!(rt; matches!((counter, step), (Input::Number(1), Input::Number(1))));
    let symbols = module_symbols(rt.alloc(), &module)?;
    assert_eq!(rt; counter_total(symbols.tallies.as_slice())?, 7);
    assert_eq!(rt; site_total(symbols.tallies.as_slice())?, 3);
    Ok(())
}

#[test]
fn an_index_has_the_size_of_what_it_passes(rt: HostRuntime) -> Result<(), Fail> {
    let codes = code(rt.alloc(), &module(rt.alloc())?)?;
    let f = codes.get(1).ok_or("a function")?;
    let turning = f.blocks.as_slice().get(1).ok_or("a block")?;
    let op = turning.ops.as_slice().get(2).ok_or("an operation")?;
    let Op::Gep {
        address,
        indices,
        ..
    } = op
    else {
        return Err(Fail::from("a getelementptr"));
    };
    // the globals of the profile are no objects
    assert!(rt; matches!(address, Input::Object(1)));
    let indices = indices.as_slice();
    assert_eq!(rt; indices.len(), 2);
    assert_eq!(rt; indices[0].size, 4);
    assert_eq!(rt; indices[1].size, 2);
    Ok(())
}

fn memory_of(alloc: Global, images: &[GlobalImage]) -> Result<Memory, Fail> {
    let mut memory = Memory::new(alloc);
    for one in images {
        if memory.next() < 9 {
            memory.make_of(&one.cells, one.constant)?;
        }
    }
    Ok(memory)
}

fn images(alloc: Global, symbols: &Symbols, module: &Module) -> Result<Memory, Fail> {
    let images = global_images(alloc, symbols, module.globals.as_slice())?;
    memory_of(alloc, images.as_slice())
}

#[test]
fn objects_begin_with_their_values(rt: HostRuntime) -> Result<(), Fail> {
    let module = module(rt.alloc())?;
    let symbols = module_symbols(rt.alloc(), &module)?;
    let memory = images(rt.alloc(), &symbols, &module)?;
    assert_eq!(rt; memory.next(), 2);
    assert_eq!(rt;
        memory.load(Base::Object(0), 0, 4, false),
        Ok(Value::Int(258))
    );
    assert_eq!(rt;
        memory.load(Base::Object(1), 0, 2, false),
        Ok(Value::Int(3))
    );
    assert_eq!(rt;
        memory.load(Base::Object(1), 2, 2, false),
        Ok(Value::Int(4))
    );
    assert!(rt; memory.load(Base::Object(1), 4, 1, false).is_err());
    Ok(())
}

#[test]
fn the_first_of_equal_cases_counts(rt: HostRuntime) -> Result<(), Fail> {
    let few = Cases::of(
        rt.alloc(),
        Vec::from_slice(rt.alloc(), [7, 5, 7].as_slice())?,
    )?;
    assert_eq!(rt; few.place(7), Some(0));
    assert_eq!(rt; few.place(5), Some(1));
    assert_eq!(rt; few.place(6), None);
    let many = [9, 8, 7, 6, 5, 9, 8, 7, 6, 5, 4];
    let many = Cases::of(rt.alloc(), Vec::from_slice(rt.alloc(), many.as_slice())?)?;
    assert_eq!(rt; many.place(9), Some(0));
    assert_eq!(rt; many.place(5), Some(4));
    assert_eq!(rt; many.place(4), Some(10));
    assert_eq!(rt; many.place(3), None);
    Ok(())
}
