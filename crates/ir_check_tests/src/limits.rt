// Limits at their number and one past. What is past a limit is told before any rule.
use crate::texts::{limit, refusal};
use ir_check::{CheckError, LimitKind, check};
use ir_tree::{
    Block, Function, Global1, Init, Instr, MemTy, Module, Name, Operand, Ret, Seq, Term, Ty,
};
use pgo_base::NoMemory;
use std::alloc::Global;
use std::test::Fail;

// `declare void @fK()`
fn declaration(alloc: Global, k: u64) -> Result<Function, Fail> {
    let name = format!(in alloc; "f{k}")?;
    Ok(Function {
        name: Name::of(alloc, name.as_bytes())?,
        ret: Ret::Void,
        params: Seq::of(Vec::new(alloc)),
        blocks: Seq::of(Vec::new(alloc)),
        prof: None,
    })
}

// `@gK = global i8 zeroinitializer`
fn variable(alloc: Global, k: u64) -> Result<Global1, Fail> {
    let name = format!(in alloc; "g{k}")?;
    Ok(Global1 {
        name: Name::of(alloc, name.as_bytes())?,
        constant: false,
        mem: MemTy::Scalar(Ty::I8),
        init: Init::Zero,
    })
}

// So many global variables and declarations.
fn declarations(alloc: Global, variables: u64, functions: u64) -> Result<Module, Fail> {
    let mut some = Vec::new(alloc);
    for k in 0..variables {
        some.push(variable(alloc, k)?)?;
    }
    let mut others = Vec::new(alloc);
    for k in 0..functions {
        others.push(declaration(alloc, k)?)?;
    }
    Ok(Module {
        globals: Seq::of(some),
        functions: Seq::of(others),
    })
}

fn found(alloc: Global, module: Module) -> Result<Option<CheckError>, NoMemory> {
    match check(alloc, module) {
        Ok(_) => Ok(None),
        Err(refused) => Ok(Some(refused.why)),
    }
}

#[test]
fn a_plain_module_has_at_most_65536_functions(rt: HostRuntime) -> Result<(), Fail> {
    let alloc = rt.alloc();
    assert!(rt; found(alloc, declarations(alloc, 0, 65_536)?)?.is_none());
    let more = found(alloc, declarations(alloc, 0, 65_537)?)?;
    assert!(rt; more == limit(LimitKind::Functions, 65_537));
    Ok(())
}

#[test]
fn a_plain_module_has_at_most_65536_variables(rt: HostRuntime) -> Result<(), Fail> {
    let alloc = rt.alloc();
    assert!(rt; found(alloc, declarations(alloc, 65_536, 0)?)?.is_none());
    let more = found(alloc, declarations(alloc, 65_537, 0)?)?;
    assert!(rt; more == limit(LimitKind::Globals, 65_537));
    Ok(())
}

// `define void @NAME(TY %a)` whose entry switches by so many cases to a block that returns: beside the cases there are the way in, the
// default way and the way out.
fn switching(alloc: Global, name: &[u8], ty: Ty, count: u64) -> Result<Function, Fail> {
    let mut cases = Vec::new(alloc);
    for k in 0..count {
        cases.push((k, Name::of(alloc, b"x")?))?;
    }
    let mut blocks = Vec::new(alloc);
    blocks.push(Block {
        label: Name::of(alloc, b"e")?,
        instrs: Seq::of(Vec::new(alloc)),
        term: Term::Switch {
            ty,
            value: Operand::Local(Name::of(alloc, b"a")?),
            default: Name::of(alloc, b"x")?,
            cases: Seq::of(cases),
            prof: None,
        },
    })?;
    blocks.push(Block {
        label: Name::of(alloc, b"x")?,
        instrs: Seq::of(Vec::new(alloc)),
        term: Term::Ret { value: None },
    })?;
    let mut params = Vec::new(alloc);
    params.push((ty, Name::of(alloc, b"a")?))?;
    Ok(Function {
        name: Name::of(alloc, name)?,
        ret: Ret::Void,
        params: Seq::of(params),
        blocks: Seq::of(blocks),
        prof: None,
    })
}

fn one_switch(alloc: Global, count: u64) -> Result<Module, Fail> {
    let mut functions = Vec::new(alloc);
    functions.push(switching(alloc, b"f", Ty::I64, count)?)?;
    Ok(Module {
        globals: Seq::of(Vec::new(alloc)),
        functions: Seq::of(functions),
    })
}

#[test]
fn a_function_has_at_most_1048576_edges(rt: HostRuntime) -> Result<(), Fail> {
    let alloc = rt.alloc();
    assert!(rt; found(alloc, one_switch(alloc, 1_048_573)?)?.is_none());
    let more = found(alloc, one_switch(alloc, 1_048_574)?)?;
    assert!(rt; more == limit(LimitKind::Edges, 1_048_577));
    Ok(())
}

// Two functions, each with the way in, 600,001 ways of the switch and the way out, which may all get counters.
#[test]
fn a_plain_module_has_at_most_1048576_counters(rt: HostRuntime) -> Result<(), Fail> {
    let alloc = rt.alloc();
    let mut functions = Vec::new(alloc);
    functions.push(switching(alloc, b"f", Ty::I32, 600_000)?)?;
    functions.push(switching(alloc, b"g", Ty::I32, 600_000)?)?;
    let module = Module {
        globals: Seq::of(Vec::new(alloc)),
        functions: Seq::of(functions),
    };
    assert!(rt; found(alloc, module)? == limit(LimitKind::Counters, 1_200_006));
    Ok(())
}

// `call void %p()`
fn call_through(alloc: Global) -> Result<Instr, NoMemory> {
    Ok(Instr::Call {
        dest: None,
        ret: Ret::Void,
        callee: Operand::Local(Name::of(alloc, b"p")?),
        args: Seq::of(Vec::new(alloc)),
        prof: None,
    })
}

// `define void @fK(ptr %p)` with so many calls through `%p`, for each of which there are 8 registers.
fn calling(alloc: Global, k: u64, calls: u64) -> Result<Function, Fail> {
    let mut instrs = Vec::new(alloc);
    for _call in 0..calls {
        instrs.push(call_through(alloc)?)?;
    }
    let mut blocks = Vec::new(alloc);
    blocks.push(Block {
        label: Name::of(alloc, b"e")?,
        instrs: Seq::of(instrs),
        term: Term::Ret { value: None },
    })?;
    let mut params = Vec::new(alloc);
    params.push((Ty::Ptr, Name::of(alloc, b"p")?))?;
    let name = format!(in alloc; "f{k}")?;
    Ok(Function {
        name: Name::of(alloc, name.as_bytes())?,
        ret: Ret::Void,
        params: Seq::of(params),
        blocks: Seq::of(blocks),
        prof: None,
    })
}

// 257 functions with 255 such calls each, which are 65,535, and one with so many more.
fn calling_module(alloc: Global, more: u64) -> Result<Module, Fail> {
    let mut functions = Vec::new(alloc);
    for k in 0..257 {
        functions.push(calling(alloc, k, 255)?)?;
    }
    functions.push(calling(alloc, 257, more)?)?;
    Ok(Module {
        globals: Seq::of(Vec::new(alloc)),
        functions: Seq::of(functions),
    })
}

#[test]
fn a_plain_module_has_at_most_65536_sites(rt: HostRuntime) -> Result<(), Fail> {
    let alloc = rt.alloc();
    assert!(rt; found(alloc, calling_module(alloc, 1)?)?.is_none());
    let more = found(alloc, calling_module(alloc, 2)?)?;
    assert!(rt; more == limit(LimitKind::Sites, 65_537));
    Ok(())
}

// ---- modules that count

// `declare void @llvm.instrprof.increment(ptr, i64, i32, i32)`, which a module that counts has
fn increment(alloc: Global) -> Result<Function, Fail> {
    let mut params = Vec::new(alloc);
    for ty in [Ty::Ptr, Ty::I64, Ty::I32, Ty::I32] {
        params.push((ty, Name::of(alloc, b"")?))?;
    }
    Ok(Function {
        name: Name::of(alloc, b"llvm.instrprof.increment")?,
        ret: Ret::Void,
        params: Seq::of(params),
        blocks: Seq::of(Vec::new(alloc)),
        prof: None,
    })
}

// The module with this declaration behind its functions.
pub(crate) fn counted(alloc: Global, mut module: Module) -> Result<Module, Fail> {
    module.functions.push(increment(alloc)?)?;
    Ok(module)
}

#[test]
fn a_module_that_counts_has_at_most_65540_functions(rt: HostRuntime) -> Result<(), Fail> {
    let alloc = rt.alloc();
    let most = counted(alloc, declarations(alloc, 0, 65_539)?)?;
    assert!(rt; found(alloc, most)?.is_none());
    let more = counted(alloc, declarations(alloc, 0, 65_540)?)?;
    assert!(rt; found(alloc, more)? == limit(LimitKind::Functions, 65_541));
    Ok(())
}

#[test]
fn a_module_that_counts_has_at_most_262144_variables(rt: HostRuntime) -> Result<(), Fail> {
    let alloc = rt.alloc();
    let most = counted(alloc, declarations(alloc, 262_144, 0)?)?;
    assert!(rt; found(alloc, most)?.is_none());
    let more = counted(alloc, declarations(alloc, 262_145, 0)?)?;
    assert!(rt; found(alloc, more)? == limit(LimitKind::Globals, 262_145));
    Ok(())
}

#[test]
fn a_function_that_counts_has_at_most_2097152_edges(rt: HostRuntime) -> Result<(), Fail> {
    let alloc = rt.alloc();
    let most = counted(alloc, one_switch(alloc, 2_097_149)?)?;
    assert!(rt; found(alloc, most)?.is_none());
    let more = counted(alloc, one_switch(alloc, 2_097_150)?)?;
    assert!(rt; found(alloc, more)? == limit(LimitKind::Edges, 2_097_153));
    Ok(())
}

#[test]
fn an_array_has_at_most_1048576_bytes(rt: HostRuntime) -> Result<(), Fail> {
    let alloc = rt.alloc();
    let most = b"@a = global [1024 x [1024 x i8]] zeroinitializer\n";
    assert!(rt; refusal(alloc, most)?.is_none());
    let more = b"@a = global [131073 x i64] zeroinitializer\n";
    assert!(rt; refusal(alloc, more)? == limit(LimitKind::Object, 1_048_584));
    let local = b"define void @f() {\ne: %p = alloca [1048577 x i8]\nret void\n}\n";
    assert!(rt; refusal(alloc, local)? == limit(LimitKind::Object, 1_048_577));
    Ok(())
}

#[test]
fn variables_have_at_most_1048576_bytes_in_all(rt: HostRuntime) -> Result<(), Fail> {
    let alloc = rt.alloc();
    let most =
        b"@a = global [1048575 x i8] zeroinitializer\n@b = global [0 x i64] zeroinitializer\n";
    assert!(rt; refusal(alloc, most)?.is_none());
    let more = b"@a = global [1048575 x i8] zeroinitializer\n@b = global i16 0\n";
    assert!(rt; refusal(alloc, more)? == limit(LimitKind::Cells, 1_048_577));
    Ok(())
}
