//! Instructions on memory.

ghost use Rattle.std.specs.Prelude.{◌≡◌};
ghost use Rattle.ir_grammar.specs.Instructions as grammar;
ghost use Rattle.ir_grammar.specs.Rules.{many_after};
ghost use Rattle.ir_grammar.specs.Types as types;
ghost use Rattle.ir_grammar.specs.Words.{behind_comma, comma_item, comma_takes};
ghost use Rattle.ir_read.specs.Reads.{Reads};

use crate::cursor::Cursor;
use crate::instr::marked;
use crate::note::this_literal;
use crate::operand::{literal, operand, typed_operand};
use crate::past::tail;
use crate::stop::Stop;
use crate::types::{memory_type, this_type, value_type};
use crate::word::{count, global, sign, word};
use ir_grammar::{Marks, Tail};
use ir_tree::{Instr, Name, Operand, Seq, Ty};
use std::alloc::Global;

#[tactic(auto, unfolding(ir_grammar::specs::Instructions::alloca))]
pub(crate) fn alloca(alloc: Global, toks: &mut Cursor, dest: Name) -> Result<Instr, Stop>
    ensures { Reads result toks.old toks.new (grammar.alloca dest).read }
{
    let mem = memory_type(alloc, toks)?;
    tail(alloc, toks, Tail::Aligned)?;
    Ok(Instr::Alloca { dest, mem })
}

#[tactic(auto, unfolding(ir_grammar::specs::Instructions::address))]
fn address(alloc: Global, toks: &mut Cursor) -> Result<Operand, Stop>
    ensures { Reads result toks.old toks.new grammar.address.read }
{
    this_type(toks, Ty::Ptr)?;
    operand(alloc, toks, Ty::Ptr)
}

#[tactic(auto, unfolding(ir_grammar::specs::Instructions::load))]
pub(crate) fn load(alloc: Global, toks: &mut Cursor, dest: Name) -> Result<Instr, Stop>
    ensures { Reads result toks.old toks.new (grammar.load dest).read }
{
    let ty = value_type(toks)?;
    sign(toks, b',')?;
    let address = address(alloc, toks)?;
    tail(alloc, toks, Tail::Aligned)?;
    Ok(Instr::Load { dest, ty, address })
}

#[tactic(auto, unfolding(ir_grammar::specs::Instructions::store))]
pub(crate) fn store(alloc: Global, toks: &mut Cursor) -> Result<Instr, Stop>
    ensures { Reads result toks.old toks.new grammar.store.read }
{
    let (ty, value) = typed_operand(alloc, toks)?;
    sign(toks, b',')?;
    let address = address(alloc, toks)?;
    tail(alloc, toks, Tail::Aligned)?;
    Ok(Instr::Store { ty, value, address })
}

fn next_index(alloc: Global, toks: &mut Cursor) -> Result<(Ty, Operand), Stop>
    ensures { Reads result toks.old toks.new (comma_item types.typed_operand).read }
{
    sign(toks, b',')?;
    typed_operand(alloc, toks)
}

/// The indices behind those that were found.
fn more_indices(
    alloc: Global,
    toks: &mut Cursor,
    mut found: Vec<(Ty, Operand)>,
) -> Result<Seq<(Ty, Operand)>, Stop>
    ensures { Reads result toks.old toks.new (many_after found.items (behind_comma grammar.is_type_word) (comma_item types.typed_operand) (comma_takes types.typed_operand)).read }
{
    for _turn in 0..=toks.left() {
        if !toks.starts_comma_type() {
            return Ok(Seq::of(found));
        }
        found.push(next_index(alloc, toks)?)?;
    }
    Err(Stop::Syntax)
}

/// One or more indices.
#[tactic(auto, unfolding(ir_grammar::specs::Instructions::indices))]
fn indices(alloc: Global, toks: &mut Cursor) -> Result<Seq<(Ty, Operand)>, Stop>
    ensures { Reads result toks.old toks.new grammar.indices.read }
{
    let mut found = Vec::new(alloc);
    found.push(typed_operand(alloc, toks)?)?;
    more_indices(alloc, toks, found)
}

#[tactic(auto, unfolding(ir_grammar::specs::Instructions::gep))]
pub(crate) fn gep(alloc: Global, toks: &mut Cursor, dest: Name) -> Result<Instr, Stop>
    ensures { Reads result toks.old toks.new (grammar.gep dest).read }
{
    let inbounds = marked(toks, Marks::Inbounds)?;
    let mem = memory_type(alloc, toks)?;
    sign(toks, b',')?;
    let address = address(alloc, toks)?;
    sign(toks, b',')?;
    let indices = indices(alloc, toks)?;
    tail(alloc, toks, Tail::Plain)?;
    Ok(Instr::Gep {
        dest,
        inbounds,
        mem,
        address,
        indices,
    })
}

// ---- counters

/// The size of an array of counters, in the brackets of its type.
#[tactic(auto, unfolding(ir_grammar::specs::Instructions::counters_type))]
fn counters_type(toks: &mut Cursor) -> Result<u64, Stop>
    ensures { Reads result toks.old toks.new grammar.counters_type.read }
{
    sign(toks, b'[')?;
    let size = count(toks)?;
    word(toks, b"x")?;
    this_type(toks, Ty::I64)?;
    sign(toks, b']')?;
    Ok(size)
}

/// The index of a counter, behind the name of its array.
#[tactic(auto, unfolding(ir_grammar::specs::Instructions::counter_index))]
fn counter_index(toks: &mut Cursor) -> Result<u64, Stop>
    ensures { Reads result toks.old toks.new grammar.counter_index.read }
{
    sign(toks, b',')?;
    this_type(toks, Ty::I64)?;
    this_literal(toks, Ty::I64, 0)?;
    sign(toks, b',')?;
    this_type(toks, Ty::I64)?;
    literal(toks, Ty::I64)
}

/// The address of a counter: the name of its array, the size of this and the index.
#[tactic(auto, unfolding(ir_grammar::specs::Instructions::counter))]
fn counter(alloc: Global, toks: &mut Cursor) -> Result<(Name, u64, u64), Stop>
    ensures { Reads result toks.old toks.new grammar.counter.read }
{
    this_type(toks, Ty::Ptr)?;
    word(toks, b"getelementptr")?;
    word(toks, b"inbounds")?;
    sign(toks, b'(')?;
    let size = counters_type(toks)?;
    sign(toks, b',')?;
    this_type(toks, Ty::Ptr)?;
    let name = global(alloc, toks)?;
    let index = counter_index(toks)?;
    sign(toks, b')')?;
    Ok((name, size, index))
}

/// An addition to a counter.
#[tactic(auto, unfolding(ir_grammar::specs::Instructions::counter_add))]
pub(crate) fn counter_add(alloc: Global, toks: &mut Cursor) -> Result<Instr, Stop>
    ensures { Reads result toks.old toks.new grammar.counter_add.read }
{
    word(toks, b"add")?;
    let (symbol, size, index) = counter(alloc, toks)?;
    sign(toks, b',')?;
    this_type(toks, Ty::I64)?;
    let step = operand(alloc, toks, Ty::I64)?;
    word(toks, b"monotonic")?;
    tail(alloc, toks, Tail::Aligned)?;
    Ok(Instr::Count {
        symbol,
        size,
        index,
        step,
    })
}
