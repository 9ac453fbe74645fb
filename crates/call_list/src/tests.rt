// The calls text and the outcomes of a small module: `@g` gives its argument back.
use super::*;
use ir_check::Checked;
use ir_model::{CallResult, End};
use ir_tree::{Block, Function, Module, Name, Numbering, Operand, Ret, Seq, Term, Ty};
use std::alloc::Global;
use std::test::Fail;

fn entry(alloc: Global) -> Result<Block, Fail> {
    let value = Operand::Local(Name::of(alloc, b"n")?);
    Ok(Block {
        label: Name::of(alloc, b"entry")?,
        instrs: Seq::of(Vec::new(alloc)),
        term: Term::Ret {
            value: Some((Ty::I64, value)),
        },
    })
}

fn module_of_g(alloc: Global) -> Result<Checked, Fail> {
    let mut params = Vec::new(alloc);
    params.push((Ty::I64, Name::of(alloc, b"n")?))?;
    let mut blocks = Vec::new(alloc);
    blocks.push(entry(alloc)?)?;
    let mut functions = Vec::new(alloc);
    functions.push(Function {
        name: Name::of(alloc, b"g")?,
        ret: Ret::Value(Ty::I64),
        params: Seq::of(params),
        blocks: Seq::of(blocks),
        prof: None,
    })?;
    let module = Module {
        globals: Seq::of(Vec::new(alloc)),
        functions: Seq::of(functions),
    };
    Ok(ir_check::check(alloc, module)?)
}

#[test]
fn calls_are_read_in_order(rt: HostRuntime) -> Result<(), Fail> {
    let alloc = rt.alloc();
    let module = module_of_g(alloc)?;
    let calls = read_calls(alloc, &module, b"@g 3\n# more\n \t\n@g -1\r\n")?;
    assert_eq!(rt; calls.len(), 2);
    assert_eq!(rt; calls[0].args.as_slice(), [3].as_slice());
    assert_eq!(rt; calls[1].args.as_slice(), [18446744073709551615].as_slice());
    assert_eq!(rt; calls[1].function, 0);
    Ok(())
}

#[test]
fn the_first_bad_line_is_named(rt: HostRuntime) -> Result<(), Fail> {
    let alloc = rt.alloc();
    let module = module_of_g(alloc)?;
    let bad = read_calls(alloc, &module, b"@g 1\ng 2").err();
    assert_eq!(rt; bad, Some(CallsError::BadLine { line: 2 }));
    let unknown = read_calls(alloc, &module, b"@h 1").err();
    assert_eq!(rt; unknown, Some(CallsError::NoFunction { line: 1 }));
    let two = read_calls(alloc, &module, b"@g 1 2").err();
    assert_eq!(rt; two, Some(CallsError::BadArgs { line: 1 }));
    Ok(())
}

#[test]
fn an_outcome_is_written(rt: HostRuntime) -> Result<(), Fail> {
    let alloc = rt.alloc();
    let module = module_of_g(alloc)?;
    let calls = read_calls(alloc, &module, b"@g 4")?;
    assert_eq!(rt; calls.len(), 1);
    let ended = CallResult {
        printed: Seq::of(b"4\n".to_vec(alloc)?),
        end: End::Returned(Some(18446744073709551615)),
    };
    let functions = Numbering::of(alloc, module.module().functions.as_slice())?;
    let text = outcome(alloc, &functions, 1, &calls[0], &ended)?;
    assert_eq!(rt; text.as_slice(), b"call 1 @g\n4\nreturned -1\n".as_slice());
    Ok(())
}
