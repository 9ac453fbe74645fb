//! Calls.

ghost use Rattle.std.specs.Prelude.{◌≡◌, [], ◌∷◌};
ghost use Rattle.ir_grammar.specs.Instructions as grammar;
ghost use Rattle.ir_grammar.specs.Rules.{either, pure};
ghost use Rattle.ir_grammar.specs.Words.{comma_item, more_of, some_of, first_is, is_sign, listed};
ghost use Rattle.ir_read.specs.Reads.{Reads};

use crate::cursor::Cursor;
use crate::item::Item;
use crate::nodes::Nodes;
use crate::note::noted;
use crate::operand::operand;
use crate::past::past_parts;
use crate::stop::Stop;
use crate::types::{return_type, value_type};
use crate::word::sign;
use ir_grammar::{NoteKind, Place};
use ir_tree::{Instr, Name, Operand, Seq, Ty};
use std::alloc::Global;

/// What is called: a function by its name, or a parameter or result.
#[tactic(auto, unfolding(ir_grammar::specs::Instructions::callee))]
fn callee(alloc: Global, toks: &mut Cursor) -> Result<Operand, Stop>
    ensures { Reads result toks.old toks.new grammar.callee.read }
{
    match toks.next() {
        Some(Item::Global(name)) => Ok(Operand::Global(Name::of(alloc, name)?)),
        Some(Item::Local(name)) => Ok(Operand::Local(Name::of(alloc, name)?)),
        _ => Err(Stop::Syntax),
    }
}

#[tactic(auto, unfolding(ir_grammar::specs::Instructions::argument))]
fn argument(alloc: Global, toks: &mut Cursor) -> Result<(Ty, Operand), Stop>
    ensures { Reads result toks.old toks.new grammar.argument.read }
{
    let ty = value_type(toks)?;
    past_parts(alloc, toks, Place::Value)?;
    let value = operand(alloc, toks, ty)?;
    Ok((ty, value))
}

fn next_argument(alloc: Global, toks: &mut Cursor) -> Result<(Ty, Operand), Stop>
    ensures { Reads result toks.old toks.new (comma_item grammar.argument).read }
{
    sign(toks, b',')?;
    argument(alloc, toks)
}

/// The arguments behind those that were found.
fn more_arguments(
    alloc: Global,
    toks: &mut Cursor,
    mut found: Vec<(Ty, Operand)>,
) -> Result<Seq<(Ty, Operand)>, Stop>
    ensures { Reads result toks.old toks.new (more_of grammar.argument found.items).read }
{
    for _turn in 0..=toks.left() {
        if !toks.starts_sign(b',') {
            return Ok(Seq::of(found));
        }
        found.push(next_argument(alloc, toks)?)?;
    }
    Err(Stop::Syntax)
}

/// One or more arguments.
fn some_arguments(alloc: Global, toks: &mut Cursor) -> Result<Seq<(Ty, Operand)>, Stop>
    ensures { Reads result toks.old toks.new (some_of grammar.argument).read }
{
    let mut found = Vec::new(alloc);
    found.push(argument(alloc, toks)?)?;
    more_arguments(alloc, toks, found)
}

fn maybe_arguments(alloc: Global, toks: &mut Cursor) -> Result<Seq<(Ty, Operand)>, Stop>
    ensures { Reads result toks.old toks.new (either (first_is (is_sign 41)) (pure []) (some_of grammar.argument)).read }
{
    if toks.starts_sign(b')') {
        Ok(Seq::of(Vec::new(alloc)))
    } else {
        some_arguments(alloc, toks)
    }
}

/// The arguments, in parentheses.
#[tactic(auto, unfolding(ir_grammar::specs::Instructions::arguments))]
fn arguments(alloc: Global, toks: &mut Cursor) -> Result<Seq<(Ty, Operand)>, Stop>
    ensures { Reads result toks.old toks.new grammar.arguments.read }
{
    sign(toks, b'(')?;
    let list = maybe_arguments(alloc, toks)?;
    sign(toks, b')')?;
    Ok(list)
}

/// A call, with the name of its result where it has one.
#[tactic(auto, unfolding(ir_grammar::specs::Instructions::call))]
pub(crate) fn call(
    alloc: Global,
    toks: &mut Cursor,
    nodes: &mut Nodes,
    dest: Option<Name>,
) -> Result<Instr, Stop>
    ensures reads { Reads result toks.old toks.new (grammar.call nodes.old dest).read }
    ensures same { nodes.new ≡ nodes.old }
{
    past_parts(alloc, toks, Place::Return)?;
    let ret = return_type(toks)?;
    let callee = callee(alloc, toks)?;
    let args = arguments(alloc, toks)?;
    past_parts(alloc, toks, Place::Function)?;
    let prof = noted(alloc, toks, nodes, NoteKind::Targets)?;
    Ok(Instr::Call {
        dest,
        ret,
        callee,
        args,
        prof,
    })
}
