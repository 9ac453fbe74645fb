//! Functions and their blocks.

ghost use Rattle.std.specs.Prelude.{◌≡◌, [], ◌∷◌, IfOk, ◌≤◌, length};
ghost use Rattle.ir_grammar.specs.Functions as grammar;
ghost use Rattle.ir_grammar.specs.Rules.{either, pure, many_after};
ghost use Rattle.ir_grammar.specs.Words.{comma_item, more_of, some_of, first_is, is_label, is_sign, listed};
ghost use Rattle.ir_read.specs.Reads.{Reads};

use crate::cursor::Cursor;
use crate::instr::instrs;
use crate::nodes::Nodes;
use crate::note::head_note;
use crate::params::{name_parameters, numbered_name};
use crate::past::past_parts;
use crate::stop::Stop;
use crate::term::terminator;
use crate::types::{return_type, value_type};
use crate::word::{global, label, local, sign};
use ir_grammar::Place;
use ir_tree::{Block, Function, Name, Seq, Ty};
use std::alloc::Global;

// ---- blocks

/// Instructions and a terminator, behind the block's label.
#[tactic(auto, unfolding(ir_grammar::specs::Functions::block_behind))]
fn block_behind(
    alloc: Global,
    toks: &mut Cursor,
    nodes: &mut Nodes,
    label: Name,
) -> Result<Block, Stop>
    ensures reads { Reads result toks.old toks.new (grammar.block_behind nodes.old label).read }
    ensures same { nodes.new ≡ nodes.old }
{
    let instrs = instrs(alloc, toks, nodes)?;
    let term = terminator(alloc, toks, nodes)?;
    Ok(Block {
        label,
        instrs,
        term,
    })
}

#[tactic(auto, unfolding(ir_grammar::specs::Functions::block))]
fn block(alloc: Global, toks: &mut Cursor, nodes: &mut Nodes) -> Result<Block, Stop>
    ensures reads { Reads result toks.old toks.new (grammar.block nodes.old).read }
    ensures same { nodes.new ≡ nodes.old }
{
    let label = label(alloc, toks)?;
    block_behind(alloc, toks, nodes, label)
}

/// The label of the first block, or the number that it has for its name without one.
#[tactic(auto, unfolding(ir_grammar::specs::Functions::entry_label))]
fn entry_label(alloc: Global, toks: &mut Cursor, n: usize) -> Result<Name, Stop>
    ensures { Reads result toks.old toks.new (grammar.entry_label n).read }
{
    if toks.starts_label() {
        label(alloc, toks)
    } else {
        Ok(numbered_name(alloc, n)?)
    }
}

#[tactic(auto, unfolding(ir_grammar::specs::Functions::entry_block))]
fn entry_block(alloc: Global, toks: &mut Cursor, nodes: &mut Nodes, n: usize) -> Result<Block, Stop>
    ensures reads { Reads result toks.old toks.new (grammar.entry_block nodes.old n).read }
    ensures same { nodes.new ≡ nodes.old }
{
    let label = entry_label(alloc, toks, n)?;
    block_behind(alloc, toks, nodes, label)
}

/// The blocks behind those that were found.
fn more_blocks(
    alloc: Global,
    toks: &mut Cursor,
    nodes: &mut Nodes,
    mut found: Vec<Block>,
) -> Result<Seq<Block>, Stop>
    ensures reads { Reads result toks.old toks.new (many_after found.items (first_is is_label) (grammar.block nodes.old) (grammar.block_takes nodes.old)).read }
    ensures same { nodes.new ≡ nodes.old }
{
    for _turn in 0..=toks.left() {
        if !toks.starts_label() {
            return Ok(Seq::of(found));
        }
        found.push(block(alloc, toks, nodes)?)?;
    }
    Err(Stop::Syntax)
}

/// One or more blocks.
#[tactic(auto, unfolding(ir_grammar::specs::Functions::blocks))]
fn blocks(alloc: Global, toks: &mut Cursor, nodes: &mut Nodes, n: usize) -> Result<Seq<Block>, Stop>
    ensures reads { Reads result toks.old toks.new (grammar.blocks nodes.old n).read }
    ensures same { nodes.new ≡ nodes.old }
{
    let mut found = Vec::new(alloc);
    found.push(entry_block(alloc, toks, nodes, n)?)?;
    more_blocks(alloc, toks, nodes, found)
}

// ---- parameters

/// The name of a parameter; the empty name where none is written.
#[tactic(auto, unfolding(ir_grammar::specs::Functions::parameter_name))]
fn parameter_name(alloc: Global, toks: &mut Cursor) -> Result<Name, Stop>
    ensures { Reads result toks.old toks.new grammar.parameter_name.read }
{
    if toks.starts_local() {
        local(alloc, toks)
    } else {
        Ok(Name::default())
    }
}

#[tactic(auto, unfolding(ir_grammar::specs::Functions::parameter))]
fn parameter(alloc: Global, toks: &mut Cursor) -> Result<(Ty, Name), Stop>
    ensures { Reads result toks.old toks.new grammar.parameter.read }
{
    let ty = value_type(toks)?;
    past_parts(alloc, toks, Place::Value)?;
    let name = parameter_name(alloc, toks)?;
    Ok((ty, name))
}

fn next_parameter(alloc: Global, toks: &mut Cursor) -> Result<(Ty, Name), Stop>
    ensures { Reads result toks.old toks.new (comma_item grammar.parameter).read }
{
    sign(toks, b',')?;
    parameter(alloc, toks)
}

/// The parameters behind those that were found.
fn more_parameters(
    alloc: Global,
    toks: &mut Cursor,
    mut found: Vec<(Ty, Name)>,
) -> Result<Seq<(Ty, Name)>, Stop>
    ensures { Reads result toks.old toks.new (more_of grammar.parameter found.items).read }
{
    for _turn in 0..=toks.left() {
        if !toks.starts_sign(b',') {
            return Ok(Seq::of(found));
        }
        found.push(next_parameter(alloc, toks)?)?;
    }
    Err(Stop::Syntax)
}

/// One or more parameters.
fn some_parameters(alloc: Global, toks: &mut Cursor) -> Result<Seq<(Ty, Name)>, Stop>
    ensures { Reads result toks.old toks.new (some_of grammar.parameter).read }
{
    let mut found = Vec::new(alloc);
    found.push(parameter(alloc, toks)?)?;
    more_parameters(alloc, toks, found)
}

fn maybe_parameters(alloc: Global, toks: &mut Cursor) -> Result<Seq<(Ty, Name)>, Stop>
    ensures { Reads result toks.old toks.new (either (first_is (is_sign 41)) (pure []) (some_of grammar.parameter)).read }
{
    if toks.starts_sign(b')') {
        Ok(Seq::of(Vec::new(alloc)))
    } else {
        some_parameters(alloc, toks)
    }
}

/// The parameters of a definition, in parentheses. One without a name has the empty name.
#[tactic(auto, unfolding(ir_grammar::specs::Functions::parameters))]
fn parameters(alloc: Global, toks: &mut Cursor) -> Result<Seq<(Ty, Name)>, Stop>
    ensures { Reads result toks.old toks.new grammar.parameters.read }
{
    sign(toks, b'(')?;
    let list = maybe_parameters(alloc, toks)?;
    sign(toks, b')')?;
    Ok(list)
}

#[tactic(auto, unfolding(ir_grammar::specs::Functions::declared_parameter))]
fn declared_parameter(alloc: Global, toks: &mut Cursor) -> Result<(Ty, Name), Stop>
    ensures { Reads result toks.old toks.new grammar.declared_parameter.read }
{
    let ty = value_type(toks)?;
    past_parts(alloc, toks, Place::Value)?;
    Ok((ty, Name::default()))
}

fn next_declared(alloc: Global, toks: &mut Cursor) -> Result<(Ty, Name), Stop>
    ensures { Reads result toks.old toks.new (comma_item grammar.declared_parameter).read }
{
    sign(toks, b',')?;
    declared_parameter(alloc, toks)
}

/// The parameters of a declaration behind those that were found.
fn more_declared(
    alloc: Global,
    toks: &mut Cursor,
    mut found: Vec<(Ty, Name)>,
) -> Result<Seq<(Ty, Name)>, Stop>
    ensures { Reads result toks.old toks.new (more_of grammar.declared_parameter found.items).read }
{
    for _turn in 0..=toks.left() {
        if !toks.starts_sign(b',') {
            return Ok(Seq::of(found));
        }
        found.push(next_declared(alloc, toks)?)?;
    }
    Err(Stop::Syntax)
}

fn some_declared(alloc: Global, toks: &mut Cursor) -> Result<Seq<(Ty, Name)>, Stop>
    ensures { Reads result toks.old toks.new (some_of grammar.declared_parameter).read }
{
    let mut found = Vec::new(alloc);
    found.push(declared_parameter(alloc, toks)?)?;
    more_declared(alloc, toks, found)
}

fn maybe_declared(alloc: Global, toks: &mut Cursor) -> Result<Seq<(Ty, Name)>, Stop>
    ensures { Reads result toks.old toks.new (either (first_is (is_sign 41)) (pure []) (some_of grammar.declared_parameter)).read }
{
    if toks.starts_sign(b')') {
        Ok(Seq::of(Vec::new(alloc)))
    } else {
        some_declared(alloc, toks)
    }
}

/// The parameters of a declaration, in parentheses.
#[tactic(auto, unfolding(ir_grammar::specs::Functions::declared_parameters))]
fn declared_parameters(alloc: Global, toks: &mut Cursor) -> Result<Seq<(Ty, Name)>, Stop>
    ensures { Reads result toks.old toks.new grammar.declared_parameters.read }
{
    sign(toks, b'(')?;
    let list = maybe_declared(alloc, toks)?;
    sign(toks, b')')?;
    Ok(list)
}

// ---- functions

/// The blocks of a definition, in braces.
#[tactic(auto, unfolding(ir_grammar::specs::Functions::body))]
fn body(alloc: Global, toks: &mut Cursor, nodes: &mut Nodes, n: usize) -> Result<Seq<Block>, Stop>
    ensures reads { Reads result toks.old toks.new (grammar.body nodes.old n).read }
    ensures same { nodes.new ≡ nodes.old }
{
    sign(toks, b'{')?;
    let blocks = blocks(alloc, toks, nodes, n)?;
    sign(toks, b'}')?;
    Ok(blocks)
}

/// A function with its body, behind `define`.
#[tactic(auto, unfolding(ir_grammar::specs::Functions::definition))]
pub(crate) fn definition(
    alloc: Global,
    toks: &mut Cursor,
    nodes: &mut Nodes,
) -> Result<Function, Stop>
    ensures reads { Reads result toks.old toks.new (grammar.definition nodes.old).read }
    ensures same { nodes.new ≡ nodes.old }
{
    past_parts(alloc, toks, Place::Return)?;
    let ret = return_type(toks)?;
    let name = global(alloc, toks)?;
    let list = parameters(alloc, toks)?;
    let prof = head_note(alloc, toks, nodes)?;
    let (params, numbered) = name_parameters(alloc, list.as_slice())?;
    let blocks = body(alloc, toks, nodes, numbered)?;
    Ok(Function {
        name,
        ret,
        params,
        blocks,
        prof,
    })
}

/// A function without a body, behind `declare`.
#[tactic(auto, unfolding(ir_grammar::specs::Functions::declaration))]
pub(crate) fn declaration(alloc: Global, toks: &mut Cursor) -> Result<Function, Stop>
    ensures { Reads result toks.old toks.new grammar.declaration.read }
{
    past_parts(alloc, toks, Place::Return)?;
    let ret = return_type(toks)?;
    let name = global(alloc, toks)?;
    let params = declared_parameters(alloc, toks)?;
    past_parts(alloc, toks, Place::Function)?;
    Ok(Function {
        name,
        ret,
        params,
        blocks: Seq::of(Vec::new(alloc)),
        prof: None,
    })
}
