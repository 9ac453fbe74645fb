//! Global variables and their initialisers.

ghost use Rattle.std.specs.Prelude.{◌≡◌, [], ◌∷◌, IfOk};
ghost use Rattle.ir_lex.specs.Meaning.{decoded};
ghost use Rattle.ir_grammar.specs.Variables as grammar;
ghost use Rattle.ir_grammar.specs.Rules.{either, pure};
ghost use Rattle.ir_grammar.specs.Words.{comma_item, more_of, some_of, first_is, is_sign};
ghost use Rattle.ir_grammar.specs.Tables.{by_word};
ghost use Rattle.ir_read.specs.Reads.{Reads};

use crate::cursor::Cursor;
use crate::decode::decoded;
use crate::instr::marked;
use crate::item::Item;
use crate::operand::{literal_of, literal_word};
use crate::past::tail;
use crate::stop::Stop;
use crate::table::variable_of;
use crate::types::{memory_of, shape, this_memory};
use crate::word::sign;
use ir_grammar::{Marks, Tail};
use ir_tree::{Global1, Init, Name, Seq, Ty};
use std::alloc::Global;

/// The initialiser that a word is at any type.
fn init_word(text: &[u8]) -> Option<Init>
    ensures { result ≡ by_word grammar.init_words text.now }
{
    if text == b"null".as_slice() {
        Some(Init::Null)
    } else if text == b"zeroinitializer".as_slice() {
        Some(Init::Zero)
    } else {
        None
    }
}

/// The initialiser that a word is at a type.
fn scalar_word(ty: Ty, text: &[u8]) -> Option<Init>
    ensures { result ≡ grammar.scalar_word ty text.now }
{
    if let Some(init) = init_word(text) {
        return Some(init);
    }
    match literal_word(ty, text) {
        Some(value) => Some(Init::Int(value)),
        None => None,
    }
}

/// An initialiser of a type without dimensions.
#[tactic(auto, unfolding(ir_grammar::specs::Variables::scalar))]
fn scalar(alloc: Global, toks: &mut Cursor, ty: Ty) -> Result<Init, Stop>
    ensures { Reads result toks.old toks.new (grammar.scalar ty).read }
{
    match toks.next() {
        Some(Item::Number { minus, digits }) => match literal_of(ty, minus, digits) {
            Some(value) => Ok(Init::Int(value)),
            None => Err(Stop::Syntax),
        },
        Some(Item::Word(text)) => scalar_word(ty, text).ok_or(Stop::Syntax),
        Some(Item::Global(name)) => Ok(Init::Symbol(Name::of(alloc, name)?)),
        Some(Item::Bytes(content)) => Ok(Init::Bytes(Seq::of(decoded(alloc, content)?))),
        _ => Err(Stop::Syntax),
    }
}

/// An item of a list: its type, which is that of the elements, and its initialiser.
#[cycle(initialiser)]
fn element(alloc: Global, toks: &mut Cursor, ns: &[u64], ty: Ty) -> Result<Init, Stop>
    ensures { Reads result toks.old toks.new (grammar.element ns.now ty).read }
{
    this_memory(toks, ns, ty)?;
    init(alloc, toks, ns, ty)
}

#[cycle(initialiser)]
fn next_element(alloc: Global, toks: &mut Cursor, ns: &[u64], ty: Ty) -> Result<Init, Stop>
    ensures { Reads result toks.old toks.new (comma_item (grammar.element ns.now ty)).read }
{
    sign(toks, b',')?;
    element(alloc, toks, ns, ty)
}

/// The elements behind those that were found.
#[cycle(initialiser)]
fn more_elements(
    alloc: Global,
    toks: &mut Cursor,
    ns: &[u64],
    ty: Ty,
    mut found: Vec<Init>,
) -> Result<Seq<Init>, Stop>
    ensures { Reads result toks.old toks.new (more_of (grammar.element ns.now ty) found.items).read }
{
    for _turn in 0..=toks.left() {
        if !toks.starts_sign(b',') {
            return Ok(Seq::of(found));
        }
        found.push(next_element(alloc, toks, ns, ty)?)?;
    }
    Err(Stop::Syntax)
}

/// One or more elements.
#[cycle(initialiser)]
fn some_elements(alloc: Global, toks: &mut Cursor, ns: &[u64], ty: Ty) -> Result<Seq<Init>, Stop>
    ensures { Reads result toks.old toks.new (some_of (grammar.element ns.now ty)).read }
{
    let mut found = Vec::new(alloc);
    found.push(element(alloc, toks, ns, ty)?)?;
    more_elements(alloc, toks, ns, ty, found)
}

#[cycle(initialiser)]
fn maybe_elements(alloc: Global, toks: &mut Cursor, ns: &[u64], ty: Ty) -> Result<Seq<Init>, Stop>
    ensures { Reads result toks.old toks.new (either (first_is (is_sign 93)) (pure []) (some_of (grammar.element ns.now ty))).read }
{
    if toks.starts_sign(b']') {
        Ok(Seq::of(Vec::new(alloc)))
    } else {
        some_elements(alloc, toks, ns, ty)
    }
}

/// The elements of a list, up to its closing bracket.
#[cycle(initialiser)]
fn elements(alloc: Global, toks: &mut Cursor, ns: &[u64], ty: Ty) -> Result<Init, Stop>
    ensures { Reads result toks.old toks.new (grammar.list_of (grammar.element ns.now ty)).read }
{
    let list = maybe_elements(alloc, toks, ns, ty)?;
    sign(toks, b']')?;
    Ok(Init::List(list))
}

/// An initialiser of an array whose elements have these dimensions.
#[cycle(initialiser)]
fn array(alloc: Global, toks: &mut Cursor, ns: &[u64], ty: Ty) -> Result<Init, Stop>
    ensures { Reads result toks.old toks.new (grammar.array (grammar.element ns.now ty)).read }
{
    match toks.next() {
        Some(Item::Word(text)) => init_word(text).ok_or(Stop::Syntax),
        Some(Item::Global(name)) => Ok(Init::Symbol(Name::of(alloc, name)?)),
        Some(Item::Bytes(content)) => Ok(Init::Bytes(Seq::of(decoded(alloc, content)?))),
        Some(Item::Sign(b'[')) => elements(alloc, toks, ns, ty),
        _ => Err(Stop::Syntax),
    }
}

/// An initialiser of a type of memory.
#[cycle(initialiser)]
fn init(alloc: Global, toks: &mut Cursor, ns: &[u64], ty: Ty) -> Result<Init, Stop>
    ensures { Reads result toks.old toks.new (grammar.init ns.now ty).read }
{
    match ns {
        [] => scalar(alloc, toks, ty),
        [_, rest @ ..] => array(alloc, toks, rest, ty),
    }
}

/// The initialiser, which an external variable has not.
fn initial(
    alloc: Global,
    toks: &mut Cursor,
    external: bool,
    ns: &[u64],
    ty: Ty,
) -> Result<Init, Stop>
    ensures { Reads result toks.old toks.new (grammar.initial external ns.now ty).read }
{
    if external {
        Ok(Init::External)
    } else {
        init(alloc, toks, ns, ty)
    }
}

#[tactic(auto, unfolding(ir_grammar::specs::Variables::variable_word))]
fn variable_word(toks: &mut Cursor) -> Result<bool, Stop>
    ensures { Reads result toks.old toks.new grammar.variable_word.read }
{
    match toks.next() {
        Some(Item::Word(text)) => variable_of(text).ok_or(Stop::Syntax),
        _ => Err(Stop::Syntax),
    }
}

/// A global variable, behind its name.
#[tactic(auto, unfolding(ir_grammar::specs::Variables::variable))]
pub(crate) fn variable(alloc: Global, toks: &mut Cursor, name: Name) -> Result<Global1, Stop>
    ensures { Reads result toks.old toks.new (grammar.variable name).read }
{
    sign(toks, b'=')?;
    let external = marked(toks, Marks::External)?;
    let constant = variable_word(toks)?;
    let (ns, ty) = shape(alloc, toks)?;
    let init = initial(alloc, toks, external, ns.as_slice(), ty)?;
    tail(alloc, toks, Tail::Global)?;
    let mem = memory_of(alloc, ns.as_slice(), ty)?;
    Ok(Global1 {
        name,
        constant,
        mem,
        init,
    })
}
