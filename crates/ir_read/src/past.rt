//! What is read past: linkage, attributes, alignment, attachments, and all that stands in balanced brackets.

ghost use Rattle.std.specs.Prelude.{◌≡◌};
ghost use Rattle.ir_grammar.specs.Past as grammar;
ghost use Rattle.ir_read.specs.Items.{token_of};
ghost use Rattle.ir_grammar.specs.Brackets.{nest_after};
ghost use Rattle.ir_grammar.specs.declared.words.Bracket.TheVariants as brackets;
ghost use Rattle.ir_read.specs.Nests.{nest_of, Nests};
ghost use Rattle.ir_read.specs.Reads.{Reads};

use crate::cursor::Cursor;
use crate::item::Item;
use crate::stop::Stop;
use crate::table::{aligned_past, function_past, return_past, value_past, variable_past};
use crate::word::{mark, node_number, number, sign, string, word_is};
use ir_grammar::{Bracket, Past, Place, Tail};
use std::alloc::Global;

// ---- balanced brackets

/// What a token does to the brackets that are open.
pub(crate) fn bracket_of(item: Item) -> Bracket
    ensures { result ≡ grammar.bracket_of (token_of item.entry) }
{
    match item {
        Item::Sign(byte) => bracket_byte(byte),
        _ => Bracket::Neither,
    }
}

fn bracket_byte(byte: u8) -> Bracket
    ensures { result ≡ grammar.bracket_byte byte }
{
    if byte == b'(' {
        Bracket::Opens(b'(')
    } else if byte == b')' {
        Bracket::Closes(b'(')
    } else if byte == b'[' {
        Bracket::Opens(b'[')
    } else if byte == b']' {
        Bracket::Closes(b'[')
    } else if byte == b'{' {
        Bracket::Opens(b'{')
    } else if byte == b'}' {
        Bracket::Closes(b'{')
    } else {
        Bracket::Neither
    }
}

/// Closes the innermost bracket, which is the outer one where no other is open. Answers whether it was the outer one.
fn close(inside: &mut Vec<u8>, outer: u8, kind: u8) -> Result<bool, Stop>
    ensures { Nests result (nest_after (brackets.Closes kind) (nest_of outer inside.old.items)) outer inside.new.items }
{
    match inside.pop() {
        Some(inner) => {
            if inner == kind {
                Ok(false)
            } else {
                Err(Stop::Syntax)
            }
        }
        None => {
            if outer == kind {
                Ok(true)
            } else {
                Err(Stop::Syntax)
            }
        }
    }
}

/// Goes over one token. Answers whether it closed the outer bracket.
fn nest(inside: &mut Vec<u8>, outer: u8, bracket: Bracket) -> Result<bool, Stop>
    ensures { Nests result (nest_after bracket (nest_of outer inside.old.items)) outer inside.new.items }
{
    match bracket {
        Bracket::Opens(kind) => {
            inside.push(kind)?;
            Ok(false)
        }
        Bracket::Closes(kind) => close(inside, outer, kind),
        Bracket::Neither => Ok(false),
    }
}

/// The tokens up to the bracket that closes one of a kind, which is open.
#[tactic(auto, unfolding(ir_grammar::specs::Past::balanced))]
pub(crate) fn balanced(alloc: Global, toks: &mut Cursor, outer: u8) -> Result<(), Stop>
    ensures { Reads result toks.old toks.new (grammar.balanced outer).read }
{
    let mut inside = Vec::new(alloc);
    for _turn in 0..=toks.left() {
        match toks.next() {
            Some(item) => match nest(&mut inside, outer, bracket_of(item)) {
                Ok(true) => return Ok(()),
                Ok(false) => (),
                Err(stop) => return Err(stop),
            },
            None => return Err(Stop::Syntax),
        }
    }
    Err(Stop::Syntax)
}

// ---- one part

/// The node of a `!prof` attachment, from behind the first mark; none of another attachment.
#[tactic(auto, unfolding(ir_grammar::specs::Past::attachment))]
pub(crate) fn attachment(toks: &mut Cursor) -> Result<Option<u64>, Stop>
    ensures { Reads result toks.old toks.new grammar.attachment.read }
{
    let is_prof = word_is(toks, b"prof")?;
    mark(toks)?;
    let node = node_number(toks)?;
    if is_prof { Ok(node) } else { Ok(None) }
}

/// An `=` and a string, where an `=` stands.
#[tactic(auto, unfolding(ir_grammar::specs::Past::assigned_string))]
fn assigned_string(toks: &mut Cursor) -> Result<(), Stop>
    ensures { Reads result toks.old toks.new grammar.assigned_string.read }
{
    if toks.starts_sign(b'=') {
        sign(toks, b'=')?;
        string(toks)
    } else {
        Ok(())
    }
}

/// What stands in parentheses.
#[tactic(auto, unfolding(ir_grammar::specs::Past::parens))]
fn parens(alloc: Global, toks: &mut Cursor) -> Result<(), Stop>
    ensures { Reads result toks.old toks.new grammar.parens.read }
{
    sign(toks, b'(')?;
    balanced(alloc, toks, b'(')
}

/// An attachment, whatever node it names.
#[tactic(auto, unfolding(ir_grammar::specs::Past::any_attachment))]
fn any_attachment(toks: &mut Cursor) -> Result<(), Stop>
    ensures { Reads result toks.old toks.new grammar.any_attachment.read }
{
    attachment(toks)?;
    Ok(())
}

/// What follows the first token of a part that is read past.
pub(crate) fn past_behind(alloc: Global, toks: &mut Cursor, past: Past) -> Result<(), Stop>
    ensures { Reads result toks.old toks.new (grammar.past_behind past).read }
{
    match past {
        Past::Alone => Ok(()),
        Past::Number => number(toks),
        Past::Text => string(toks),
        Past::Parens => parens(alloc, toks),
        Past::Assigned => assigned_string(toks),
        Past::Attachment => any_attachment(toks),
    }
}

// ---- words before a return type, with a value, and behind the head of a function

/// An attribute of a function, by its first token.
pub(crate) fn function_meaning(item: Item) -> Option<Past>
    ensures { result ≡ grammar.function_meaning (token_of item.entry) }
{
    match item {
        Item::Word(text) => function_past(text),
        Item::Group(_) => Some(Past::Alone),
        Item::Str(_) => Some(Past::Assigned),
        _ => None,
    }
}

fn value_meaning(item: Item) -> Option<Past>
    ensures { result ≡ grammar.value_meaning (token_of item.entry) }
{
    match item {
        Item::Word(text) => value_past(text),
        _ => None,
    }
}

fn before_return(item: Item) -> Option<Past>
    ensures { result ≡ grammar.before_return (token_of item.entry) }
{
    match item {
        Item::Word(text) => return_past(text),
        _ => None,
    }
}

pub(crate) fn past_meaning(place: Place, item: Item) -> Option<Past>
    ensures { result ≡ grammar.past_meaning place (token_of item.entry) }
{
    match place {
        Place::Return => before_return(item),
        Place::Value => value_meaning(item),
        Place::Function => function_meaning(item),
    }
}

#[tactic(auto, unfolding(ir_grammar::specs::Past::past_part))]
fn past_part(alloc: Global, toks: &mut Cursor, place: Place) -> Result<(), Stop>
    ensures { Reads result toks.old toks.new (grammar.past_part place).read }
{
    match toks.next() {
        Some(item) => match past_meaning(place, item) {
            Some(past) => past_behind(alloc, toks, past),
            None => Err(Stop::Syntax),
        },
        None => Err(Stop::Syntax),
    }
}

/// A word before an `=`, which is the name of a comdat.
fn names_comdat(toks: &Cursor) -> bool
    ensures { result ≡ grammar.names_comdat toks.now.tokens }
{
    toks.starts_any_word() && toks.second_is_sign(b'=')
}

#[tactic(auto, unfolding(ir_grammar::specs::Past::past_begins))]
fn past_begins(toks: &Cursor, place: Place) -> bool
    ensures { result ≡ grammar.past_begins place toks.now.tokens }
{
    !names_comdat(toks) && toks.starts_past(place)
}

/// The words of a place, as many as stand there.
#[tactic(auto, unfolding(ir_grammar::specs::Past::past_parts))]
pub(crate) fn past_parts(alloc: Global, toks: &mut Cursor, place: Place) -> Result<(), Stop>
    ensures { Reads result toks.old toks.new (grammar.past_parts place).read }
{
    for _turn in 0..=toks.left() {
        if !past_begins(toks, place) {
            return Ok(());
        }
        past_part(alloc, toks, place)?;
    }
    Err(Stop::Syntax)
}

// ---- parts behind a comma

fn variable_tail(item: Item) -> Option<Past>
    ensures { result ≡ grammar.variable_tail (token_of item.entry) }
{
    match item {
        Item::Word(text) => variable_past(text),
        Item::Mark => Some(Past::Attachment),
        _ => None,
    }
}

fn aligned_tail(item: Item) -> Option<Past>
    ensures { result ≡ grammar.aligned_tail (token_of item.entry) }
{
    match item {
        Item::Word(text) => aligned_past(text),
        Item::Mark => Some(Past::Attachment),
        _ => None,
    }
}

fn plain_tail(item: Item) -> Option<Past>
    ensures { result ≡ grammar.plain_tail (token_of item.entry) }
{
    match item {
        Item::Mark => Some(Past::Attachment),
        _ => None,
    }
}

fn tail_meaning(place: Tail, item: Item) -> Option<Past>
    ensures { result ≡ grammar.tail_meaning place (token_of item.entry) }
{
    match place {
        Tail::Plain => plain_tail(item),
        Tail::Aligned => aligned_tail(item),
        Tail::Global => variable_tail(item),
    }
}

#[tactic(auto, unfolding(ir_grammar::specs::Past::after_comma))]
fn after_comma(alloc: Global, toks: &mut Cursor, place: Tail) -> Result<(), Stop>
    ensures { Reads result toks.old toks.new (grammar.after_comma place).read }
{
    match toks.next() {
        Some(item) => match tail_meaning(place, item) {
            Some(past) => past_behind(alloc, toks, past),
            None => Err(Stop::Syntax),
        },
        None => Err(Stop::Syntax),
    }
}

#[tactic(auto, unfolding(ir_grammar::specs::Past::tail_part))]
fn tail_part(alloc: Global, toks: &mut Cursor, place: Tail) -> Result<(), Stop>
    ensures { Reads result toks.old toks.new (grammar.tail_part place).read }
{
    sign(toks, b',')?;
    after_comma(alloc, toks, place)
}

/// The parts that begin with a comma, as many as stand there.
#[tactic(auto, unfolding(ir_grammar::specs::Past::tail))]
pub(crate) fn tail(alloc: Global, toks: &mut Cursor, place: Tail) -> Result<(), Stop>
    ensures { Reads result toks.old toks.new (grammar.tail place).read }
{
    for _turn in 0..=toks.left() {
        if !toks.starts_sign(b',') {
            return Ok(());
        }
        tail_part(alloc, toks, place)?;
    }
    Err(Stop::Syntax)
}
