use crate::first_of_names;
use ir_limits::passed;
use ir_rules::Place;
use ir_tree::{Block, Function, Module, Name, Ret, Seq, Term, Ty};
use pgo_base::NoMemory;
use std::alloc::Global;
use std::test::Fail;

// A function with one parameter and one block.
fn function(alloc: Global, name: &[u8], param: &[u8], label: &[u8]) -> Result<Function, NoMemory> {
    let mut params = Vec::new(alloc);
    params.push((Ty::I64, Name::of(alloc, param)?))?;
    let mut blocks = Vec::new(alloc);
    blocks.push(Block {
        label: Name::of(alloc, label)?,
        instrs: Seq::new(alloc),
        term: Term::Ret { value: None },
    })?;
    Ok(Function {
        name: Name::of(alloc, name)?,
        ret: Ret::Void,
        params: Seq::of(params),
        blocks: Seq::of(blocks),
        prof: None,
    })
}

// Two functions, the first of which keeps every rule.
fn module(alloc: Global, name: &[u8], param: &[u8], label: &[u8]) -> Result<Module, NoMemory> {
    let mut functions = Vec::new(alloc);
    functions.push(function(
        alloc,
        b"first".as_slice(),
        b"x".as_slice(),
        b"entry".as_slice(),
    )?)?;
    functions.push(function(alloc, name, param, label)?)?;
    Ok(Module {
        globals: Seq::new(alloc),
        functions: Seq::of(functions),
    })
}

// The first rule that is broken in a module within the limits, none in another.
fn broken(alloc: Global, module: &Module) -> Result<Option<(u8, Place)>, NoMemory> {
    match passed(module) {
        None => {
            let (_index, broken) = first_of_names(alloc, module)?;
            Ok(broken)
        }
        Some(_) => Ok(None),
    }
}

#[test]
fn the_rule_and_its_place_are_told(rt: HostRuntime) -> Result<(), Fail> {
    let alloc = rt.alloc();
    let second = Place {
        function: 1,
        block: 0,
        item: 0,
    };
    let kept = module(
        alloc,
        b"second".as_slice(),
        b"x".as_slice(),
        b"0".as_slice(),
    )?;
    assert!(rt; broken(alloc, &kept)? == None);
    let twice = module(alloc, b"first".as_slice(), b"x".as_slice(), b"0".as_slice())?;
    assert!(rt; broken(alloc, &twice)? == Some((1, second)));
    let reserved = module(
        alloc,
        b"__prof_".as_slice(),
        b"x".as_slice(),
        b"0".as_slice(),
    )?;
    assert!(rt; broken(alloc, &reserved)? == Some((3, second)));
    let label = module(
        alloc,
        b"second".as_slice(),
        b"x".as_slice(),
        b"x".as_slice(),
    )?;
    assert!(rt; broken(alloc, &label)? == Some((6, second)));
    Ok(())
}
