// Which rule and place is named is in the contract; here the rules are met on small functions, and numbers come from the text.
ghost use Rattle.std.specs.Prelude.{◌≡◌, [], ◌∷◌, codes, length, IfOk};
ghost use Rattle.ir_rules.specs.Finding.{IsNamed};
ghost use Rattle.ir_tree.specs.Operands.{result_names};

use crate::first_in_flow;
use ir_rules::Place;
use ir_tree::{Block, Function, FunctionIndex, Instr, Name, Operand, Ret, Seq, Term, Ty};
use pgo_base::NoMemory;
use std::alloc::Global;
use std::test::Fail;

fn label(alloc: Global, to: &[u8]) -> Result<Name, NoMemory> {
    Name::of(alloc, to)
}

// Block `a`.
fn first(alloc: Global, term: Term) -> Result<Block, NoMemory>
    ensures label { IfOk result (λ b. b.label ≡ codes "a") }
    ensures instrs { IfOk result (λ b. b.instrs ≡ []) }
{
    Ok(Block {
        label: Name::of(alloc, b"a".as_slice())?,
        instrs: Seq::new(alloc),
        term,
    })
}

// `%p = phi i64 ENTRIES`
fn phi(alloc: Global, entries: Vec<(Operand, Name)>) -> Result<Vec<Instr>, NoMemory>
    ensures { IfOk result (λ xs. result_names xs.items ≡ codes "p" ∷ []) }
{
    let mut instrs = Vec::new(alloc);
    instrs.push(Instr::Phi {
        dest: Name::of(alloc, b"p".as_slice())?,
        ty: Ty::I64,
        entries: Seq::of(entries),
    })?;
    Ok(instrs)
}

// Block `b`, which begins with a phi and returns.
fn second(alloc: Global, entries: Vec<(Operand, Name)>) -> Result<Block, NoMemory>
    ensures label { IfOk result (λ b. b.label ≡ codes "b") }
    ensures results { IfOk result (λ b. result_names b.instrs ≡ codes "p" ∷ []) }
{
    let instrs = phi(alloc, entries)?;
    Ok(Block {
        label: Name::of(alloc, b"b".as_slice())?,
        instrs: Seq::of(instrs),
        term: Term::Ret { value: None },
    })
}

fn function(alloc: Global, a: Block, b: Block) -> Result<Function, NoMemory>
    ensures params { IfOk result (λ f. f.params ≡ []) }
    ensures blocks { IfOk result (λ f. f.blocks ≡ a ∷ b ∷ []) }
{
    let mut blocks = Vec::new(alloc);
    blocks.push(a)?;
    blocks.push(b)?;
    Ok(Function {
        name: Name::of(alloc, b"f".as_slice())?,
        ret: Ret::Void,
        params: Seq::new(alloc),
        blocks: Seq::of(blocks),
        prof: None,
    })
}

// A function with the blocks `a` and `b`.
fn named(alloc: Global, term: Term, entries: Vec<(Operand, Name)>) -> Result<Function, NoMemory>
    ensures named { IfOk result (λ f. IsNamed f) }
    ensures few { IfOk result (λ f. length f.blocks ≡ 2) }
{
    let a = first(alloc, term)?;
    let b = second(alloc, entries)?;
    let f = function(alloc, a, b)?;
    Ok(f)
}

// The first of rules 7 to 10 that it breaks as function 3 of a module.
fn found(
    alloc: Global,
    term: Term,
    entries: Vec<(Operand, Name)>,
) -> Result<Option<(u8, Place)>, NoMemory> {
    let f = named(alloc, term, entries)?;
    let known = FunctionIndex::of(alloc, &f)?;
    first_in_flow(alloc, &known, 3, &f)
}

// `switch i64 0, label %b [ i64 FIRST, label %b  i64 SECOND, label %b ]`
fn switch(alloc: Global, first: u64, second: u64) -> Result<Term, NoMemory> {
    let mut cases = Vec::new(alloc);
    cases.push((first, label(alloc, b"b".as_slice())?))?;
    cases.push((second, label(alloc, b"b".as_slice())?))?;
    Ok(Term::Switch {
        ty: Ty::I64,
        value: Operand::Int(0),
        default: label(alloc, b"b".as_slice())?,
        cases: Seq::of(cases),
        prof: None,
    })
}

// So many entries of 7 from `a`.
fn sevens(alloc: Global, count: usize) -> Result<Vec<(Operand, Name)>, NoMemory> {
    let mut entries = Vec::new(alloc);
    for _entry in 0..count {
        entries.push((Operand::Int(7), label(alloc, b"a".as_slice())?))?;
    }
    Ok(entries)
}

#[test]
fn the_first_block_is_no_target(rt: HostRuntime) -> Result<(), Fail> {
    let alloc = rt.alloc();
    let term = Term::Br {
        to: label(alloc, b"a".as_slice())?,
    };
    let place = Place {
        function: 3,
        block: 0,
        item: 0,
    };
    assert_eq!(rt; found(alloc, term, sevens(alloc, 0)?)?, Some((7, place)));
    Ok(())
}

#[test]
fn a_case_stands_once(rt: HostRuntime) -> Result<(), Fail> {
    let alloc = rt.alloc();
    let place = Place {
        function: 3,
        block: 0,
        item: 0,
    };
    assert_eq!(rt;
        found(alloc, switch(alloc, 5, 5)?, sevens(alloc, 3)?)?,
        Some((8, place))
    );
    assert_eq!(rt;
        found(alloc, switch(alloc, 5, 6)?, sevens(alloc, 3)?)?,
        None
    );
    Ok(())
}

#[test]
fn parallel_edges_have_an_entry_each(rt: HostRuntime) -> Result<(), Fail> {
    let alloc = rt.alloc();
    let place = Place {
        function: 3,
        block: 1,
        item: 0,
    };
    assert_eq!(rt;
        found(alloc, switch(alloc, 5, 6)?, sevens(alloc, 2)?)?,
        Some((10, place))
    );
    let mut entries = sevens(alloc, 2)?;
    entries.push((Operand::Int(8), label(alloc, b"a".as_slice())?))?;
    assert_eq!(rt;
        found(alloc, switch(alloc, 5, 6)?, entries)?,
        Some((10, place))
    );
    Ok(())
}
