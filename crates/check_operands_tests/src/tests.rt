// For each rule a function that breaks it, and one that breaks none.
ghost use Rattle.std.specs.Prelude.{◌≡◌, None, IfOk};
ghost use Rattle.ir_rules.specs.Finding.{IsNamed};
ghost use Rattle.ir_tree.specs.Operands.{result_name};

use crate::alone::{function, judge};
use ir_rules::Place;
use ir_tree::{Function, Instr, Name, Operand, Prof, Ret, Seq, Term, Ty};
use pgo_base::NoMemory;
use sqlite_items::Boxed;
use std::alloc::Global;
use std::test::Fail;

// The place of an item in the block.
fn at(rule: u8, item: u64) -> Option<(u8, Place)> {
    Some((
        rule,
        Place {
            function: 5,
            block: 0,
            item,
        },
    ))
}

fn symbol(alloc: Global) -> Result<Operand, NoMemory> {
    Ok(Operand::Global(Name::of(alloc, b"g".as_slice())?))
}

// `store` of a value of 64 bits to the null pointer.
fn store(value: Operand) -> Instr
    ensures { result_name result ≡ None }
{
    Instr::Store {
        ty: Ty::I64,
        value,
        address: Operand::Null,
    }
}

// `call` of `@g` without a result name.
fn call(alloc: Global, ret: Ret, args: Seq<(Ty, Operand)>) -> Result<Instr, NoMemory>
    ensures { IfOk result (λ x. result_name x ≡ None) }
{
    Ok(Instr::Call {
        dest: None,
        ret,
        callee: symbol(alloc)?,
        args,
        prof: None,
    })
}

fn returned() -> Term {
    Term::Ret {
        value: Some((Ty::I64, Operand::Int(7))),
    }
}

// `i64 @g()`, which stores two numbers.
fn other(alloc: Global, name: &[u8]) -> Result<Function, NoMemory>
    ensures { IfOk result (λ f. IsNamed f) }
{
    function(
        alloc,
        name,
        Ret::Value(Ty::I64),
        store(Operand::Int(1)),
        store(Operand::Int(2)),
        returned(),
        None,
    )
}

// What is found in `i64 @f()` of these instructions.
fn found(
    alloc: Global,
    first: Instr,
    second: Instr,
    term: Term,
) -> Result<Option<(u8, Place)>, NoMemory>
    requires first { result_name first ≡ None }
    requires second { result_name second ≡ None }
{
    let f = function(
        alloc,
        b"f".as_slice(),
        Ret::Value(Ty::I64),
        first,
        second,
        term,
        None,
    )?;
    judge(alloc, &f, other(alloc, b"g".as_slice())?)
}

fn missing(alloc: Global) -> Result<Operand, NoMemory> {
    Ok(Operand::Local(Name::of(alloc, b"x".as_slice())?))
}

fn weights(alloc: Global, list: &[u32]) -> Result<Option<Boxed<Prof>>, NoMemory> {
    let note = Prof::Weights(Seq::of(Vec::from_slice(alloc, list)?));
    Ok(Some(Boxed::new(alloc, note)?))
}

#[test]
fn a_well_formed_function_breaks_none(rt: HostRuntime) -> Result<(), Fail> {
    let alloc = rt.alloc();
    let called = call(alloc, Ret::Value(Ty::I64), Seq::new(alloc))?;
    let broken = found(alloc, store(Operand::Int(1)), called, returned())?;
    assert_eq!(rt; broken, None);
    Ok(())
}

#[test]
fn a_missing_operand_comes_before_an_earlier_type(rt: HostRuntime) -> Result<(), Fail> {
    let alloc = rt.alloc();
    let broken = found(
        alloc,
        store(Operand::Null),
        store(missing(alloc)?),
        returned(),
    )?;
    assert_eq!(rt; broken, at(11, 1));
    Ok(())
}

#[test]
fn the_first_of_two_types_is_named(rt: HostRuntime) -> Result<(), Fail> {
    let alloc = rt.alloc();
    let broken = found(
        alloc,
        store(Operand::Null),
        store(symbol(alloc)?),
        returned(),
    )?;
    assert_eq!(rt; broken, at(12, 0));
    Ok(())
}

#[test]
fn a_call_has_the_type_of_its_callee(rt: HostRuntime) -> Result<(), Fail> {
    let alloc = rt.alloc();
    let void = call(alloc, Ret::Void, Seq::new(alloc))?;
    let broken = found(alloc, store(Operand::Int(1)), void, returned())?;
    assert_eq!(rt; broken, at(13, 1));
    let mut args = Seq::new(alloc);
    args.push((Ty::I64, Operand::Int(3)))?;
    let more = call(alloc, Ret::Value(Ty::I64), args)?;
    let broken = found(alloc, more, store(Operand::Int(1)), returned())?;
    assert_eq!(rt; broken, at(13, 0));
    Ok(())
}

#[test]
fn a_value_is_returned(rt: HostRuntime) -> Result<(), Fail> {
    let alloc = rt.alloc();
    let nothing = Term::Ret { value: None };
    let broken = found(
        alloc,
        store(Operand::Int(1)),
        store(Operand::Int(2)),
        nothing,
    )?;
    assert_eq!(rt; broken, at(14, 2));
    Ok(())
}

#[test]
fn a_branch_has_two_weights(rt: HostRuntime) -> Result<(), Fail> {
    let alloc = rt.alloc();
    let branch = Term::CondBr {
        cond: Operand::Int(1),
        yes: Name::of(alloc, b"b".as_slice())?,
        no: Name::of(alloc, b"b".as_slice())?,
        prof: weights(alloc, [3u32].as_slice())?,
    };
    let broken = found(
        alloc,
        store(Operand::Int(1)),
        store(Operand::Int(2)),
        branch,
    )?;
    assert_eq!(rt; broken, at(15, 2));
    Ok(())
}

#[test]
fn a_symbol_of_the_profile_is_no_operand(rt: HostRuntime) -> Result<(), Fail> {
    let alloc = rt.alloc();
    let name = b"__llvm_profile_x".as_slice();
    let f = function(
        alloc,
        b"f".as_slice(),
        Ret::Value(Ty::I64),
        store(Operand::Int(1)),
        store(Operand::Global(Name::of(alloc, name)?)),
        returned(),
        None,
    )?;
    let broken = judge(alloc, &f, other(alloc, name)?)?;
    assert_eq!(rt; broken, at(11, 1));
    Ok(())
}
