// Functions of a shape, without instructions.
use ir_tree::{Block, Function, Name, Operand, Ret, Seq, Term, Ty};
use pgo_base::NoMemory;
use std::alloc::Global;

/// How the blocks of a function lead to each other.
#[derive(Clone, Copy, Debug)]
pub enum Shape {
    /// A chain of branches whose two sides meet.
    Diamonds,
    /// Two chains that branch into each other at every step.
    Ladder,
    /// One switch with a block for each case.
    Switch,
    /// Loops, 64 within each other.
    Loops,
    /// One switch whose cases all lead to one block.
    Parallel,
    /// A chain with jumps to any block.
    Random,
}

// A label made of a letter and a number.
fn label(alloc: Global, letter: u8, number: u32) -> Result<Name, NoMemory> {
    let mut bytes = Vec::new(alloc);
    bytes.push(letter)?;
    let mut n = number;
    for _ in 0..10 {
        bytes.push(b'0' + (n % 10) as u8)?;
        n /= 10;
    }
    Name::of(alloc, bytes.as_slice())
}

fn block(alloc: Global, label: Name, term: Term, blocks: &mut Vec<Block>) -> Result<(), NoMemory> {
    let block = Block {
        label,
        instrs: Seq::of(Vec::new(alloc)),
        term,
    };
    blocks.push(block)?;
    Ok(())
}

fn goes(to: Name) -> Term {
    Term::Br { to }
}

fn branches(yes: Name, no: Name) -> Term {
    Term::CondBr {
        cond: Operand::Int(1),
        yes,
        no,
        prof: None,
    }
}

fn diamonds(alloc: Global, edges: u32, blocks: &mut Vec<Block>) -> Result<(), NoMemory> {
    let count = edges / 4;
    for i in 0..count {
        block(
            alloc,
            label(alloc, b'h', i)?,
            branches(label(alloc, b'l', i)?, label(alloc, b'r', i)?),
            blocks,
        )?;
        block(
            alloc,
            label(alloc, b'l', i)?,
            goes(label(alloc, b'h', i + 1)?),
            blocks,
        )?;
        block(
            alloc,
            label(alloc, b'r', i)?,
            goes(label(alloc, b'h', i + 1)?),
            blocks,
        )?;
    }
    block(
        alloc,
        label(alloc, b'h', count)?,
        Term::Ret { value: None },
        blocks,
    )
}

fn ladder(alloc: Global, edges: u32, blocks: &mut Vec<Block>) -> Result<(), NoMemory> {
    let count = edges / 4;
    for i in 0..count {
        block(
            alloc,
            label(alloc, b'a', i)?,
            branches(label(alloc, b'a', i + 1)?, label(alloc, b'b', i + 1)?),
            blocks,
        )?;
        block(
            alloc,
            label(alloc, b'b', i)?,
            branches(label(alloc, b'a', i + 1)?, label(alloc, b'b', i + 1)?),
            blocks,
        )?;
    }
    block(
        alloc,
        label(alloc, b'a', count)?,
        Term::Ret { value: None },
        blocks,
    )?;
    block(
        alloc,
        label(alloc, b'b', count)?,
        Term::Ret { value: None },
        blocks,
    )
}

// A switch whose cases have blocks of their own where they are `apart`, and else one in common.
fn switch(alloc: Global, edges: u32, apart: bool, blocks: &mut Vec<Block>) -> Result<(), NoMemory> {
    let count = if apart { edges / 2 } else { edges };
    let mut cases = Vec::new(alloc);
    for i in 0..count {
        let to = if apart {
            label(alloc, b'c', i)?
        } else {
            label(alloc, b'j', 0)?
        };
        cases.push((i as u64, to))?;
    }
    let term = Term::Switch {
        ty: Ty::I64,
        value: Operand::Int(1),
        default: label(alloc, b'j', 0)?,
        cases: Seq::of(cases),
        prof: None,
    };
    block(alloc, label(alloc, b'e', 0)?, term, blocks)?;
    if apart {
        for i in 0..count {
            block(
                alloc,
                label(alloc, b'c', i)?,
                goes(label(alloc, b'j', 0)?),
                blocks,
            )?;
        }
    }
    block(
        alloc,
        label(alloc, b'j', 0)?,
        Term::Ret { value: None },
        blocks,
    )
}

fn loops(alloc: Global, edges: u32, blocks: &mut Vec<Block>) -> Result<(), NoMemory> {
    let groups = edges / 192;
    for g in 0..groups {
        let base = g * 64;
        for d in 0..63u32 {
            block(
                alloc,
                label(alloc, b'h', base + d)?,
                goes(label(alloc, b'h', base + d + 1)?),
                blocks,
            )?;
        }
        block(
            alloc,
            label(alloc, b'h', base + 63)?,
            goes(label(alloc, b'l', base + 63)?),
            blocks,
        )?;
        for e in 0..64u32 {
            let d = 63 - e;
            let out = if d == 0 {
                label(alloc, b'h', base + 64)?
            } else {
                label(alloc, b'l', base + d - 1)?
            };
            block(
                alloc,
                label(alloc, b'l', base + d)?,
                branches(label(alloc, b'h', base + d)?, out),
                blocks,
            )?;
        }
    }
    block(
        alloc,
        label(alloc, b'h', groups * 64)?,
        Term::Ret { value: None },
        blocks,
    )
}

// Each block goes to the next one or to any other.
fn random(alloc: Global, edges: u32, blocks: &mut Vec<Block>) -> Result<(), NoMemory> {
    let count = edges / 2;
    let mut seed = 12345u64;
    for i in 0..count {
        seed = (seed * 1103515245 + 12345) % 2147483648;
        let to = (seed as u32) % count;
        block(
            alloc,
            label(alloc, b'x', i)?,
            branches(label(alloc, b'x', i + 1)?, label(alloc, b'x', to)?),
            blocks,
        )?;
    }
    block(
        alloc,
        label(alloc, b'x', count)?,
        Term::Ret { value: None },
        blocks,
    )
}

/// A function of a shape with about so many edges.
pub fn function(alloc: Global, shape: Shape, edges: u32) -> Result<Function, NoMemory> {
    let mut blocks = Vec::new(alloc);
    match shape {
        Shape::Diamonds => diamonds(alloc, edges, &mut blocks)?,
        Shape::Ladder => ladder(alloc, edges, &mut blocks)?,
        Shape::Switch => switch(alloc, edges, true, &mut blocks)?,
        Shape::Loops => loops(alloc, edges, &mut blocks)?,
        Shape::Parallel => switch(alloc, edges, false, &mut blocks)?,
        Shape::Random => random(alloc, edges, &mut blocks)?,
    }
    Ok(Function {
        name: label(alloc, b'f', 0)?,
        ret: Ret::Void,
        params: Seq::of(Vec::new(alloc)),
        blocks: Seq::of(blocks),
        prof: None,
    })
}
