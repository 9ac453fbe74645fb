//! Types of values and of memory.

ghost use Rattle.std.specs.Prelude.{◌≡◌, length, IfOk};
ghost use Rattle.ir_grammar.specs.Types as grammar;
ghost use Rattle.ir_read.specs.Reads.{Reads};

use crate::cursor::Cursor;
use crate::item::Item;
use crate::stop::Stop;
use crate::table::{return_of, type_of, type_word};
use crate::word::{count, sign, this_count, word};
use ir_tree::{MemTy, Ret, Seq, Ty};
use pgo_base::NoMemory;
use sqlite_items::Boxed;
use std::alloc::Global;

/// The most arrays that stand in one another.
const DEPTH_MOST: usize = 16;

/// A type.
#[tactic(auto, unfolding(ir_grammar::specs::Types::value_type))]
pub(crate) fn value_type(toks: &mut Cursor) -> Result<Ty, Stop>
    ensures { Reads result toks.old toks.new grammar.value_type.read }
{
    match toks.next() {
        Some(Item::Word(text)) => type_of(text).ok_or(Stop::Syntax),
        _ => Err(Stop::Syntax),
    }
}

/// This very type.
#[tactic(auto, unfolding(ir_grammar::specs::Types::this_type))]
pub(crate) fn this_type(toks: &mut Cursor, ty: Ty) -> Result<(), Stop>
    ensures { Reads result toks.old toks.new (grammar.this_type ty).read }
{
    match toks.next() {
        Some(Item::Word(text)) if text == type_word(ty) => Ok(()),
        _ => Err(Stop::Syntax),
    }
}

/// A return type.
#[tactic(auto, unfolding(ir_grammar::specs::Types::return_type))]
pub(crate) fn return_type(toks: &mut Cursor) -> Result<Ret, Stop>
    ensures { Reads result toks.old toks.new grammar.return_type.read }
{
    match toks.next() {
        Some(Item::Word(text)) => return_of(text).ok_or(Stop::Syntax),
        _ => Err(Stop::Syntax),
    }
}

/// One dimension of an array, before the type of its elements.
#[tactic(auto, unfolding(ir_grammar::specs::Types::dimension))]
fn dimension(toks: &mut Cursor) -> Result<u64, Stop>
    ensures { Reads result toks.old toks.new grammar.dimension.read }
{
    sign(toks, b'[')?;
    let n = count(toks)?;
    word(toks, b"x")?;
    Ok(n)
}

/// The dimensions before a type, the outermost first.
#[tactic(auto, unfolding(ir_grammar::specs::Types::dimensions))]
fn dimensions(alloc: Global, toks: &mut Cursor) -> Result<Seq<u64>, Stop>
    ensures { Reads result toks.old toks.new grammar.dimensions.read }
{
    let mut found = Vec::new(alloc);
    for _turn in 0..=toks.left() {
        if !toks.starts_sign(b'[') {
            return Ok(Seq::of(found));
        }
        found.push(dimension(toks)?)?;
    }
    Err(Stop::Syntax)
}

/// A closing bracket for each dimension.
fn closings(toks: &mut Cursor, ns: &[u64]) -> Result<(), Stop>
    ensures { Reads result toks.old toks.new (grammar.closings ns.now).read }
{
    match ns {
        [] => Ok(()),
        [_, rest @ ..] => {
            sign(toks, b']')?;
            closings(toks, rest)
        }
    }
}

/// A type of memory: its dimensions, the outermost first, and the type inside.
#[tactic(auto, unfolding(ir_grammar::specs::Types::shape))]
pub(crate) fn shape(alloc: Global, toks: &mut Cursor) -> Result<(Seq<u64>, Ty), Stop>
    ensures { Reads result toks.old toks.new grammar.shape.read }
{
    let ns = dimensions(alloc, toks)?;
    if ns.as_slice().len() > DEPTH_MOST {
        return Err(Stop::Syntax);
    }
    let ty = value_type(toks)?;
    closings(toks, ns.as_slice())?;
    Ok((ns, ty))
}

/// A type of memory by its dimensions.
pub(crate) fn memory_of(alloc: Global, ns: &[u64], ty: Ty) -> Result<MemTy, NoMemory>
    ensures { IfOk result (λ mem. mem ≡ grammar.memory_of ns.now ty) }
{
    match ns {
        [] => Ok(MemTy::Scalar(ty)),
        [n, rest @ ..] => {
            let element = memory_of(alloc, rest, ty)?;
            Ok(MemTy::Array {
                count: *n,
                element: Boxed::new(alloc, element)?,
            })
        }
    }
}

/// A type of memory.
#[tactic(auto, unfolding(ir_grammar::specs::Types::memory_type))]
pub(crate) fn memory_type(alloc: Global, toks: &mut Cursor) -> Result<MemTy, Stop>
    ensures { Reads result toks.old toks.new grammar.memory_type.read }
{
    let (ns, ty) = shape(alloc, toks)?;
    Ok(memory_of(alloc, ns.as_slice(), ty)?)
}

/// This very type of memory.
pub(crate) fn this_memory(toks: &mut Cursor, ns: &[u64], ty: Ty) -> Result<(), Stop>
    ensures { Reads result toks.old toks.new (grammar.this_memory ns.now ty).read }
{
    match ns {
        [] => this_type(toks, ty),
        [n, rest @ ..] => {
            sign(toks, b'[')?;
            this_count(toks, *n)?;
            word(toks, b"x")?;
            this_memory(toks, rest, ty)?;
            sign(toks, b']')
        }
    }
}
