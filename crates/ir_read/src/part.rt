//! The parts of a module.

ghost use Rattle.std.specs.Prelude.{◌≡◌, codes, OnOk};
ghost use Rattle.ir_grammar.specs.Grammar as grammar;
ghost use Rattle.ir_read.specs.Parts.{with_part};
ghost use Rattle.ir_read.specs.Reads.{Reads};

use crate::cursor::Cursor;
use crate::function::{declaration, definition};
use crate::item::Item;
use crate::nodes::Nodes;
use crate::past::balanced;
use crate::stop::Stop;
use crate::table::keyword_of;
use crate::variable::variable;
use crate::word::{any_word, flag, mark, sign, string};
use ir_grammar::{Keyword, Part};
use ir_tree::{Function, Global1, Module, Name, Seq};
use pgo_base::NoMemory;
use std::alloc::Global;

// ---- parts that are read past

#[tactic(auto, unfolding(ir_grammar::specs::Grammar::comdat))]
fn comdat(toks: &mut Cursor) -> Result<Part, Stop>
    ensures { Reads result toks.old toks.new grammar.comdat.read }
{
    any_word(toks)?;
    Ok(Part::Nothing)
}

/// What stands behind the `=` of a word.
#[tactic(auto, unfolding(ir_grammar::specs::Grammar::assigned))]
fn assigned(toks: &mut Cursor, name: &[u8]) -> Result<Part, Stop>
    ensures { Reads result toks.old toks.new (grammar.assigned name.now).read }
{
    match toks.next() {
        Some(Item::Str(_)) if name == b"source_filename".as_slice() => Ok(Part::Nothing),
        Some(Item::Word(text)) if text == b"comdat".as_slice() => comdat(toks),
        _ => Err(Stop::Syntax),
    }
}

#[tactic(auto, unfolding(ir_grammar::specs::Grammar::assignment))]
fn assignment(toks: &mut Cursor, name: &[u8]) -> Result<Part, Stop>
    ensures { Reads result toks.old toks.new (grammar.assignment name.now).read }
{
    sign(toks, b'=')?;
    assigned(toks, name)
}

#[tactic(auto, unfolding(ir_grammar::specs::Grammar::target_text))]
fn target_text(toks: &mut Cursor) -> Result<Part, Stop>
    ensures { Reads result toks.old toks.new grammar.target_text.read }
{
    any_word(toks)?;
    sign(toks, b'=')?;
    string(toks)?;
    Ok(Part::Nothing)
}

#[tactic(auto, unfolding(ir_grammar::specs::Grammar::group))]
fn group(toks: &mut Cursor) -> Result<(), Stop>
    ensures { Reads result toks.old toks.new grammar.group.read }
{
    match toks.next() {
        Some(Item::Group(_)) => Ok(()),
        _ => Err(Stop::Syntax),
    }
}

#[tactic(auto, unfolding(ir_grammar::specs::Grammar::attribute_group))]
fn attribute_group(alloc: Global, toks: &mut Cursor) -> Result<Part, Stop>
    ensures { Reads result toks.old toks.new grammar.attribute_group.read }
{
    group(toks)?;
    sign(toks, b'=')?;
    sign(toks, b'{')?;
    balanced(alloc, toks, b'{')?;
    Ok(Part::Nothing)
}

#[tactic(auto, unfolding(ir_grammar::specs::Grammar::tuple))]
fn tuple(alloc: Global, toks: &mut Cursor) -> Result<Part, Stop>
    ensures { Reads result toks.old toks.new grammar.tuple.read }
{
    balanced(alloc, toks, b'{')?;
    Ok(Part::Nothing)
}

#[tactic(auto, unfolding(ir_grammar::specs::Grammar::special))]
fn special(alloc: Global, toks: &mut Cursor) -> Result<Part, Stop>
    ensures { Reads result toks.old toks.new grammar.special.read }
{
    sign(toks, b'(')?;
    balanced(alloc, toks, b'(')?;
    Ok(Part::Nothing)
}

/// The content of a node, from behind its mark.
#[tactic(auto, unfolding(ir_grammar::specs::Grammar::content))]
fn content(alloc: Global, toks: &mut Cursor) -> Result<Part, Stop>
    ensures { Reads result toks.old toks.new grammar.content.read }
{
    match toks.next() {
        Some(Item::Sign(b'{')) => tuple(alloc, toks),
        Some(Item::Word(_)) => special(alloc, toks),
        _ => Err(Stop::Syntax),
    }
}

#[tactic(auto, unfolding(ir_grammar::specs::Grammar::named_metadata))]
fn named_metadata(alloc: Global, toks: &mut Cursor) -> Result<Part, Stop>
    ensures { Reads result toks.old toks.new grammar.named_metadata.read }
{
    sign(toks, b'=')?;
    mark(toks)?;
    sign(toks, b'{')?;
    tuple(alloc, toks)
}

#[tactic(auto, unfolding(ir_grammar::specs::Grammar::node))]
fn node(alloc: Global, toks: &mut Cursor) -> Result<Part, Stop>
    ensures { Reads result toks.old toks.new grammar.node.read }
{
    sign(toks, b'=')?;
    flag(toks, b"distinct")?;
    mark(toks)?;
    content(alloc, toks)
}

/// What a mark begins.
#[tactic(auto, unfolding(ir_grammar::specs::Grammar::metadata))]
fn metadata(alloc: Global, toks: &mut Cursor) -> Result<Part, Stop>
    ensures { Reads result toks.old toks.new grammar.metadata.read }
{
    match toks.next() {
        Some(Item::Word(_)) => named_metadata(alloc, toks),
        Some(Item::Number { minus: false, .. }) => node(alloc, toks),
        _ => Err(Stop::Syntax),
    }
}

// ---- parts

#[tactic(auto, unfolding(ir_grammar::specs::Grammar::declared))]
fn declared(alloc: Global, toks: &mut Cursor) -> Result<Part, Stop>
    ensures { Reads result toks.old toks.new grammar.declared.read }
{
    Ok(Part::Function(declaration(alloc, toks)?))
}

#[tactic(auto, unfolding(ir_grammar::specs::Grammar::defined))]
fn defined(alloc: Global, toks: &mut Cursor, nodes: &mut Nodes) -> Result<Part, Stop>
    ensures reads { Reads result toks.old toks.new (grammar.defined nodes.old).read }
    ensures same { nodes.new ≡ nodes.old }
{
    Ok(Part::Function(definition(alloc, toks, nodes)?))
}

fn keyword_behind(
    alloc: Global,
    toks: &mut Cursor,
    nodes: &mut Nodes,
    what: Keyword,
) -> Result<Part, Stop>
    ensures reads { Reads result toks.old toks.new (grammar.keyword_behind nodes.old what).read }
    ensures same { nodes.new ≡ nodes.old }
{
    match what {
        Keyword::Target => target_text(toks),
        Keyword::Attributes => attribute_group(alloc, toks),
        Keyword::Declare => declared(alloc, toks),
        Keyword::Define => defined(alloc, toks, nodes),
    }
}

#[tactic(auto, unfolding(ir_grammar::specs::Grammar::keyword))]
fn keyword(alloc: Global, toks: &mut Cursor, nodes: &mut Nodes, text: &[u8]) -> Result<Part, Stop>
    ensures reads { Reads result toks.old toks.new (grammar.keyword nodes.old text.now).read }
    ensures same { nodes.new ≡ nodes.old }
{
    match keyword_of(text) {
        Some(what) => keyword_behind(alloc, toks, nodes, what),
        None => Err(Stop::Syntax),
    }
}

/// A part that begins with this word.
#[tactic(auto, unfolding(ir_grammar::specs::Grammar::word_part))]
fn word_part(alloc: Global, toks: &mut Cursor, nodes: &mut Nodes, text: &[u8]) -> Result<Part, Stop>
    ensures reads { Reads result toks.old toks.new (grammar.word_part nodes.old text.now).read }
    ensures same { nodes.new ≡ nodes.old }
{
    if toks.starts_sign(b'=') {
        assignment(toks, text)
    } else {
        keyword(alloc, toks, nodes, text)
    }
}

#[tactic(auto, unfolding(ir_grammar::specs::Grammar::variable_part))]
fn variable_part(alloc: Global, toks: &mut Cursor, name: Name) -> Result<Part, Stop>
    ensures { Reads result toks.old toks.new (grammar.variable_part name).read }
{
    Ok(Part::Variable(variable(alloc, toks, name)?))
}

#[tactic(auto, unfolding(ir_grammar::specs::Grammar::part))]
fn part(alloc: Global, toks: &mut Cursor, nodes: &mut Nodes) -> Result<Part, Stop>
    ensures reads { Reads result toks.old toks.new (grammar.part nodes.old).read }
    ensures same { nodes.new ≡ nodes.old }
{
    match toks.next() {
        Some(Item::Global(name)) => {
            let name = Name::of(alloc, name)?;
            variable_part(alloc, toks, name)
        }
        Some(Item::Mark) => metadata(alloc, toks),
        Some(Item::Word(text)) => word_part(alloc, toks, nodes, text),
        _ => Err(Stop::Syntax),
    }
}

/// Adds what a part adds to the module.
fn add_part(
    globals: &mut Vec<Global1>,
    functions: &mut Vec<Function>,
    part: Part,
) -> Result<(), NoMemory>
    ensures { OnOk result (with_part (record { globals = globals.old.items; functions = functions.old.items }) part ≡ record { globals = globals.new.items; functions = functions.new.items }) }
{
    match part {
        Part::Variable(variable) => globals.push(variable)?,
        Part::Function(function) => functions.push(function)?,
        Part::Nothing => (),
    }
    Ok(())
}

/// A module, up to the last token.
#[tactic(auto, unfolding(ir_grammar::specs::Grammar::module))]
pub(crate) fn module(alloc: Global, toks: &mut Cursor, nodes: &mut Nodes) -> Result<Module, Stop>
    ensures reads { Reads result toks.old toks.new (grammar.«module» nodes.old).read }
    ensures same { nodes.new ≡ nodes.old }
{
    let mut globals = Vec::new(alloc);
    let mut functions = Vec::new(alloc);
    for _turn in 0..=toks.left() {
        if !toks.any_left() {
            return Ok(Module {
                globals: Seq::of(globals),
                functions: Seq::of(functions),
            });
        }
        match part(alloc, toks, nodes) {
            Ok(found) => add_part(&mut globals, &mut functions, found)?,
            Err(stop) => return Err(stop),
        }
    }
    Err(Stop::Syntax)
}
