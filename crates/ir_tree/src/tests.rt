// Each call that takes memory is shown to answer Ok; what it answers is in its contract.
use crate::{
    BinOp, Block, ConvOp, Flags, Function, FunctionIndex, Global1, Index, Init, Instr, Local,
    LocalKind, MemTy, Module, Name, Operand, Pred, Prof, Ret, Seq, Term, Ty, push_global_name,
    push_local_name,
};
use pgo_base::NoMemory;
use sqlite_items::Boxed;
use std::alloc::Global;
use std::test::Fail;

const NO_FLAGS: Flags = Flags {
    nuw: false,
    nsw: false,
    exact: false,
};

fn name(alloc: Global) -> Result<Name, NoMemory> {
    Name::of(alloc, b"x".as_slice())
}

fn local(alloc: Global) -> Result<Operand, NoMemory> {
    Ok(Operand::Local(name(alloc)?))
}

fn boxed(alloc: Global, prof: Prof) -> Result<Option<Boxed<Prof>>, NoMemory> {
    Ok(Some(Boxed::new(alloc, prof)?))
}

fn weights(alloc: Global) -> Result<Option<Boxed<Prof>>, NoMemory> {
    let list = Vec::from_slice(alloc, [3, 1].as_slice())?;
    boxed(alloc, Prof::Weights(Seq::of(list)))
}

fn array(alloc: Global) -> Result<MemTy, NoMemory> {
    Ok(MemTy::Array {
        count: 4,
        element: Boxed::new(alloc, MemTy::Scalar(Ty::I8))?,
    })
}

fn typed(alloc: Global) -> Result<Seq<(Ty, Operand)>, NoMemory> {
    let mut operands = Vec::new(alloc);
    operands.push((Ty::I64, local(alloc)?))?;
    operands.push((Ty::Ptr, Operand::Null))?;
    Ok(Seq::of(operands))
}

fn binary(alloc: Global) -> Result<Instr, NoMemory> {
    Ok(Instr::Binary {
        dest: name(alloc)?,
        op: BinOp::Add,
        flags: NO_FLAGS,
        ty: Ty::I64,
        left: local(alloc)?,
        right: Operand::Int(1),
    })
}

fn compare(alloc: Global) -> Result<Instr, NoMemory> {
    Ok(Instr::Compare {
        dest: name(alloc)?,
        pred: Pred::Slt,
        ty: Ty::I64,
        left: local(alloc)?,
        right: Operand::Int(1),
    })
}

fn convert(alloc: Global) -> Result<Instr, NoMemory> {
    Ok(Instr::Convert {
        dest: name(alloc)?,
        op: ConvOp::ZExt,
        flags: NO_FLAGS,
        from: Ty::I8,
        value: local(alloc)?,
        to: Ty::I64,
    })
}

fn select(alloc: Global) -> Result<Instr, NoMemory> {
    Ok(Instr::Select {
        dest: name(alloc)?,
        cond: local(alloc)?,
        ty: Ty::I64,
        yes: Operand::Int(4),
        no: Operand::Int(9),
        prof: weights(alloc)?,
    })
}

fn phi(alloc: Global) -> Result<Instr, NoMemory> {
    let mut entries = Vec::new(alloc);
    entries.push((local(alloc)?, name(alloc)?))?;
    Ok(Instr::Phi {
        dest: name(alloc)?,
        ty: Ty::I64,
        entries: Seq::of(entries),
    })
}

fn gep(alloc: Global) -> Result<Instr, NoMemory> {
    Ok(Instr::Gep {
        dest: name(alloc)?,
        inbounds: true,
        mem: array(alloc)?,
        address: local(alloc)?,
        indices: typed(alloc)?,
    })
}

fn call(alloc: Global) -> Result<Instr, NoMemory> {
    let list = Vec::from_slice(alloc, [(7, 2)].as_slice())?;
    Ok(Instr::Call {
        dest: Some(name(alloc)?),
        ret: Ret::Value(Ty::I64),
        callee: Operand::Global(name(alloc)?),
        args: typed(alloc)?,
        prof: boxed(
            alloc,
            Prof::Targets {
                total: 2,
                list: Seq::of(list),
            },
        )?,
    })
}

fn count(alloc: Global) -> Result<Instr, NoMemory> {
    Ok(Instr::Count {
        symbol: name(alloc)?,
        size: 2,
        index: 1,
        step: Operand::Int(1),
    })
}

fn numbers(alloc: Global) -> Result<Seq<Instr>, NoMemory> {
    let mut instrs = Vec::new(alloc);
    instrs.push(phi(alloc)?)?;
    instrs.push(binary(alloc)?)?;
    instrs.push(compare(alloc)?)?;
    instrs.push(convert(alloc)?)?;
    instrs.push(select(alloc)?)?;
    instrs.push(Instr::Freeze {
        dest: name(alloc)?,
        ty: Ty::I64,
        value: local(alloc)?,
    })?;
    Ok(Seq::of(instrs))
}

fn places(alloc: Global) -> Result<Seq<Instr>, NoMemory> {
    let mut instrs = Vec::new(alloc);
    instrs.push(gep(alloc)?)?;
    instrs.push(call(alloc)?)?;
    instrs.push(count(alloc)?)?;
    instrs.push(Instr::Alloca {
        dest: name(alloc)?,
        mem: array(alloc)?,
    })?;
    instrs.push(Instr::Load {
        dest: name(alloc)?,
        ty: Ty::I64,
        address: local(alloc)?,
    })?;
    instrs.push(Instr::Store {
        ty: Ty::I64,
        value: local(alloc)?,
        address: Operand::Null,
    })?;
    Ok(Seq::of(instrs))
}

fn branch(alloc: Global) -> Result<Term, NoMemory> {
    Ok(Term::CondBr {
        cond: local(alloc)?,
        yes: name(alloc)?,
        no: name(alloc)?,
        prof: weights(alloc)?,
    })
}

fn switch(alloc: Global) -> Result<Term, NoMemory> {
    let mut cases = Vec::new(alloc);
    cases.push((5, name(alloc)?))?;
    Ok(Term::Switch {
        ty: Ty::I64,
        value: local(alloc)?,
        default: name(alloc)?,
        cases: Seq::of(cases),
        prof: None,
    })
}

fn block(alloc: Global, instrs: Seq<Instr>, term: Term) -> Result<Block, NoMemory> {
    Ok(Block {
        label: name(alloc)?,
        instrs,
        term,
    })
}

fn function(alloc: Global) -> Result<Function, NoMemory> {
    let mut blocks = Vec::new(alloc);
    blocks.push(block(alloc, numbers(alloc)?, branch(alloc)?)?)?;
    blocks.push(block(alloc, places(alloc)?, switch(alloc)?)?)?;
    let to = Term::Br { to: name(alloc)? };
    blocks.push(block(alloc, Seq::of(Vec::new(alloc)), to)?)?;
    let ret = Term::Ret {
        value: Some((Ty::I64, local(alloc)?)),
    };
    blocks.push(block(alloc, Seq::of(Vec::new(alloc)), ret)?)?;
    let mut params = Vec::new(alloc);
    params.push((Ty::I64, name(alloc)?))?;
    Ok(Function {
        name: name(alloc)?,
        ret: Ret::Value(Ty::I64),
        params: Seq::of(params),
        blocks: Seq::of(blocks),
        prof: boxed(alloc, Prof::Entry(3))?,
    })
}

fn global(alloc: Global, init: Init) -> Result<Global1, NoMemory> {
    Ok(Global1 {
        name: name(alloc)?,
        constant: true,
        mem: array(alloc)?,
        init,
    })
}

fn module(alloc: Global) -> Result<Module, NoMemory> {
    let mut inits = Vec::new(alloc);
    inits.push(Init::Symbol(name(alloc)?))?;
    inits.push(Init::Int(7))?;
    let bytes = Vec::from_slice(alloc, b"abc".as_slice())?;
    let mut globals = Vec::new(alloc);
    globals.push(global(alloc, Init::List(Seq::of(inits)))?)?;
    globals.push(global(alloc, Init::Bytes(Seq::of(bytes)))?)?;
    let mut functions = Vec::new(alloc);
    functions.push(function(alloc)?)?;
    Ok(Module {
        globals: Seq::of(globals),
        functions: Seq::of(functions),
    })
}

#[test]
fn a_module_of_every_part_is_copied(rt: HostRuntime) -> Result<(), Fail> {
    let module = module(rt.alloc())?;
    let copy = module.copy(rt.alloc())?;
    assert_eq!(rt; copy.globals.as_slice().len(), 2);
    assert_eq!(rt; copy.functions.as_slice().len(), 1);
    Ok(())
}

#[test]
fn names_are_indexed_and_found(rt: HostRuntime) -> Result<(), Fail> {
    let alloc = rt.alloc();
    let mut names = Vec::new(alloc);
    names.push(Name::of(alloc, b"a".as_slice())?)?;
    names.push(Name::of(alloc, b"b".as_slice())?)?;
    names.push(Name::of(alloc, b"a".as_slice())?)?;
    let mut index = Index::of(alloc, names.as_slice())?;
    assert_eq!(rt; index.find(b"a".as_slice()), Some(0));
    assert_eq!(rt; index.find(b"b".as_slice()), Some(1));
    assert_eq!(rt; index.find(b"c".as_slice()), None);
    assert!(rt; index.add(alloc, b"c".as_slice(), 3)?);
    assert!(rt; !index.add(alloc, b"b".as_slice(), 4)?);
    assert_eq!(rt; index.find(b"c".as_slice()), Some(3));
    Ok(())
}

#[test]
fn lists_hand_back_what_they_are_made_of(rt: HostRuntime) -> Result<(), Fail> {
    let alloc = rt.alloc();
    let mut seq = Seq::of(Vec::from_slice(alloc, [1u32, 2].as_slice())?);
    for item in seq.as_mut_slice() {
        *item = 9;
    }
    assert_eq!(rt; seq.take().as_slice(), [9u32, 9].as_slice());
    Ok(())
}

// Two blocks `a` and `b`, of which the first gives `r`: `br i1 %c, label %b, label %b`.
fn branching(alloc: Global) -> Result<Function, NoMemory> {
    let mut params = Vec::new(alloc);
    params.push((Ty::I1, Name::of(alloc, b"c".as_slice())?))?;
    let mut instrs = Vec::new(alloc);
    instrs.push(Instr::Freeze {
        dest: Name::of(alloc, b"r".as_slice())?,
        ty: Ty::I8,
        value: Operand::Int(3),
    })?;
    let to_both = Term::CondBr {
        cond: Operand::Local(Name::of(alloc, b"c".as_slice())?),
        yes: Name::of(alloc, b"b".as_slice())?,
        no: Name::of(alloc, b"b".as_slice())?,
        prof: None,
    };
    let mut blocks = Vec::new(alloc);
    blocks.push(Block {
        label: Name::of(alloc, b"a".as_slice())?,
        instrs: Seq::of(instrs),
        term: to_both,
    })?;
    blocks.push(Block {
        label: Name::of(alloc, b"b".as_slice())?,
        instrs: Seq::new(alloc),
        term: Term::Ret { value: None },
    })?;
    Ok(Function {
        name: name(alloc)?,
        ret: Ret::Void,
        params: Seq::of(params),
        blocks: Seq::of(blocks),
        prof: None,
    })
}

#[test]
fn parameters_labels_and_results_are_found(rt: HostRuntime) -> Result<(), Fail> {
    let index = FunctionIndex::of(rt.alloc(), &branching(rt.alloc())?)?;
    let local = |kind, block, item| Some(Local { kind, block, item });
    assert_eq!(rt;
        index.find(b"c".as_slice()),
        local(LocalKind::Param(Ty::I1), 0, 0)
    );
    assert_eq!(rt; index.find(b"b".as_slice()), local(LocalKind::Label, 1, 0));
    assert_eq!(rt;
        index.find(b"r".as_slice()),
        local(LocalKind::Result(Ret::Value(Ty::I8)), 0, 0)
    );
    assert_eq!(rt; index.find(b"x".as_slice()), None);
    Ok(())
}

#[test]
fn a_hint_that_is_taken_gets_a_number(rt: HostRuntime) -> Result<(), Fail> {
    let index = FunctionIndex::of(rt.alloc(), &branching(rt.alloc())?)?;
    assert_eq!(rt;
        index.fresh(rt.alloc(), b"x".as_slice())?.bytes(),
        b"x".as_slice()
    );
    assert_eq!(rt;
        index.fresh(rt.alloc(), b"r".as_slice())?.bytes(),
        b"r.1".as_slice()
    );
    Ok(())
}

#[test]
fn a_long_name_is_held_and_copied(rt: HostRuntime) -> Result<(), Fail> {
    let long = Name::of(rt.alloc(), b"a.name.of.26.bytes.in.all.".as_slice())?;
    assert_eq!(rt;
        long.copy(rt.alloc())?.bytes(),
        b"a.name.of.26.bytes.in.all.".as_slice()
    );
    Ok(())
}

#[test]
fn names_are_quoted_where_they_are_not_plain(rt: HostRuntime) -> Result<(), Fail> {
    let mut text = Vec::new(rt.alloc());
    push_global_name(&mut text, b"f".as_slice())?;
    push_global_name(&mut text, b"a+b".as_slice())?;
    push_local_name(&mut text, b"12".as_slice())?;
    push_local_name(&mut text, b"1x".as_slice())?;
    assert_eq!(rt; text.as_slice(), b"f\"a+b\"12\"1x\"".as_slice());
    Ok(())
}
