//! Single tokens.

ghost use Rattle.std.specs.Prelude.{◌≡◌, ◌^◌, ◌≤◌, ◌+◌, ◌*◌, MatchOption};
ghost use Rattle.std.specs.Str.Parse.{digits_value};
ghost use Rattle.std.specs.Char.{digit_value};
ghost use Rattle.ir_grammar.specs.Words as grammar;
ghost use Rattle.ir_grammar.specs.Past as past;
ghost use Rattle.ir_read.specs.Reads.{Reads};

use crate::cursor::Cursor;
use crate::item::Item;
use crate::stop::Stop;
use ir_tree::Name;
use std::alloc::Global;

/// This very word.
#[tactic(auto, unfolding(ir_grammar::specs::Words::word))]
pub(crate) fn word(toks: &mut Cursor, text: &[u8]) -> Result<(), Stop>
    ensures { Reads result toks.old toks.new (grammar.word text.now).read }
{
    match toks.next() {
        Some(Item::Word(found)) if found == text => Ok(()),
        _ => Err(Stop::Syntax),
    }
}

/// This very sign.
#[tactic(auto, unfolding(ir_grammar::specs::Words::sign))]
pub(crate) fn sign(toks: &mut Cursor, byte: u8) -> Result<(), Stop>
    ensures { Reads result toks.old toks.new (grammar.sign byte).read }
{
    match toks.next() {
        Some(Item::Sign(found)) if found == byte => Ok(()),
        _ => Err(Stop::Syntax),
    }
}

/// An exclamation mark.
#[tactic(auto, unfolding(ir_grammar::specs::Words::mark))]
pub(crate) fn mark(toks: &mut Cursor) -> Result<(), Stop>
    ensures { Reads result toks.old toks.new grammar.mark.read }
{
    match toks.next() {
        Some(Item::Mark) => Ok(()),
        _ => Err(Stop::Syntax),
    }
}

/// Whether the word stands there; it is taken where it does.
#[tactic(auto, unfolding(ir_grammar::specs::Words::flag))]
pub(crate) fn flag(toks: &mut Cursor, text: &[u8]) -> Result<bool, Stop>
    ensures { Reads result toks.old toks.new (grammar.flag text.now).read }
{
    if toks.starts_word(text) {
        word(toks, text)?;
        Ok(true)
    } else {
        Ok(false)
    }
}

/// The same, where the word is allowed.
pub(crate) fn flag_where(toks: &mut Cursor, allowed: bool, text: &[u8]) -> Result<bool, Stop>
    ensures { Reads result toks.old toks.new (grammar.flag_where allowed text.now).read }
{
    if allowed { flag(toks, text) } else { Ok(false) }
}

/// The name of a global variable or function.
#[tactic(auto, unfolding(ir_grammar::specs::Words::global))]
pub(crate) fn global(alloc: Global, toks: &mut Cursor) -> Result<Name, Stop>
    ensures { Reads result toks.old toks.new grammar.global.read }
{
    match toks.next() {
        Some(Item::Global(name)) => Ok(Name::of(alloc, name)?),
        _ => Err(Stop::Syntax),
    }
}

/// The name of a local.
#[tactic(auto, unfolding(ir_grammar::specs::Words::local))]
pub(crate) fn local(alloc: Global, toks: &mut Cursor) -> Result<Name, Stop>
    ensures { Reads result toks.old toks.new grammar.local.read }
{
    match toks.next() {
        Some(Item::Local(name)) => Ok(Name::of(alloc, name)?),
        _ => Err(Stop::Syntax),
    }
}

/// The name of a block, before its instructions.
#[tactic(auto, unfolding(ir_grammar::specs::Words::label))]
pub(crate) fn label(alloc: Global, toks: &mut Cursor) -> Result<Name, Stop>
    ensures { Reads result toks.old toks.new grammar.label.read }
{
    match toks.next() {
        Some(Item::Label(name)) => Ok(Name::of(alloc, name)?),
        _ => Err(Stop::Syntax),
    }
}

/// Any word.
#[tactic(auto, unfolding(ir_grammar::specs::Words::any_word))]
pub(crate) fn any_word(toks: &mut Cursor) -> Result<(), Stop>
    ensures { Reads result toks.old toks.new grammar.any_word.read }
{
    match toks.next() {
        Some(Item::Word(_)) => Ok(()),
        _ => Err(Stop::Syntax),
    }
}

/// Whether a word is this one.
#[tactic(auto, unfolding(ir_grammar::specs::Words::word_is))]
pub(crate) fn word_is(toks: &mut Cursor, text: &[u8]) -> Result<bool, Stop>
    ensures { Reads result toks.old toks.new (grammar.word_is text.now).read }
{
    match toks.next() {
        Some(Item::Word(found)) => Ok(found == text),
        _ => Err(Stop::Syntax),
    }
}

/// Any number without a minus sign.
#[tactic(auto, unfolding(ir_grammar::specs::Words::number))]
pub(crate) fn number(toks: &mut Cursor) -> Result<(), Stop>
    ensures { Reads result toks.old toks.new grammar.number.read }
{
    match toks.next() {
        Some(Item::Number { minus: false, .. }) => Ok(()),
        _ => Err(Stop::Syntax),
    }
}

/// A string.
#[tactic(auto, unfolding(ir_grammar::specs::Words::string))]
pub(crate) fn string(toks: &mut Cursor) -> Result<(), Stop>
    ensures { Reads result toks.old toks.new grammar.string.read }
{
    match toks.next() {
        Some(Item::Str(_)) => Ok(()),
        _ => Err(Stop::Syntax),
    }
}

/// The value of a digit, 36 for a byte that is none in any radix.
pub(crate) fn value_of_digit(byte: u8) -> u32
    ensures { result ≡ digit_value byte }
{
    char::from(byte).to_digit(36).unwrap_or(36)
}

/// The number with one decimal digit more; none from 2^64 on.
fn append(value: u64, digit: u8) -> Option<u64>
    ensures { MatchOption result (2 ^ 64 ≤ value * 10 + digit_value digit) (λ n. n ≡ value * 10 + digit_value digit) }
{
    value
        .checked_mul(10)?
        .checked_add(u64::from(value_of_digit(digit)))
}

/// The number that decimal digits write; none from 2^64 on.
pub(crate) fn decimal(digits: &[u8]) -> Option<u64>
    ensures { MatchOption result (2 ^ 64 ≤ digits_value 10 digits.now) (λ n. n ≡ digits_value 10 digits.now) }
{
    let mut value = 0u64;
    for digit in digits {
        match append(value, *digit) {
            Some(more) => value = more,
            None => return None,
        }
    }
    Some(value)
}

/// The number of digits without a minus sign, below 2^64.
fn count_of(minus: bool, digits: &[u8]) -> Option<u64>
    ensures { result ≡ grammar.count_of minus (digits_value 10 digits.now) }
{
    if minus {
        return None;
    }
    decimal(digits)
}

/// A number without a minus sign, below 2^64.
#[tactic(auto, unfolding(ir_grammar::specs::Words::count))]
pub(crate) fn count(toks: &mut Cursor) -> Result<u64, Stop>
    ensures { Reads result toks.old toks.new grammar.count.read }
{
    match toks.next() {
        Some(Item::Number { minus, digits }) => count_of(minus, digits).ok_or(Stop::Syntax),
        _ => Err(Stop::Syntax),
    }
}

/// This very number.
#[tactic(auto, unfolding(ir_grammar::specs::Words::this_count))]
pub(crate) fn this_count(toks: &mut Cursor, n: u64) -> Result<(), Stop>
    ensures { Reads result toks.old toks.new (grammar.this_count n).read }
{
    match toks.next() {
        Some(Item::Number { minus, digits }) => match count_of(minus, digits) {
            Some(found) if found == n => Ok(()),
            _ => Err(Stop::Syntax),
        },
        _ => Err(Stop::Syntax),
    }
}

/// The number of a node, none from 2^64 on.
#[tactic(auto, unfolding(ir_grammar::specs::Past::node_number))]
pub(crate) fn node_number(toks: &mut Cursor) -> Result<Option<u64>, Stop>
    ensures { Reads result toks.old toks.new past.node_number.read }
{
    match toks.next() {
        Some(
            Item::Number {
                minus: false,
                digits,
            },
        ) => Ok(count_of(false, digits)),
        _ => Err(Stop::Syntax),
    }
}
