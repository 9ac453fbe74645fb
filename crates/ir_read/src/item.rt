//! A token by what it means, still as slices of the text.

ghost use Rattle.std.specs.Prelude.{◌≡◌, ◌-◌, take, drop, length, slice_index};
ghost use Rattle.ir_lex.specs.Meaning as meaning;
ghost use Rattle.ir_read.specs.Items.{token_of};

use ir_lex::{Token, TokenKind};

/// A token without the bytes that only mark its kind. Contracts see it as the grammar's token.
#[derive(Clone, Copy)]
pub(crate) enum Item<'a> {
    Word(&'a [u8]),
    Number { minus: bool, digits: &'a [u8] },
    Global(&'a [u8]),
    Local(&'a [u8]),
    Label(&'a [u8]),
    Str(&'a [u8]),
    /// The content of a byte string, with its escapes.
    Bytes(&'a [u8]),
    Group(&'a [u8]),
    Mark,
    Sign(u8),
}

fn without_first(bytes: &[u8]) -> &[u8]
    ensures { result.now ≡ drop 1 bytes.now }
{
    match bytes {
        [_, rest @ ..] => rest,
        [] => bytes,
    }
}

fn without_last(bytes: &[u8]) -> &[u8]
    ensures { result.now ≡ take (length bytes.now - 1) bytes.now }
{
    match bytes {
        [rest @ .., _] => rest,
        [] => bytes,
    }
}

fn between(bytes: &[u8]) -> &[u8]
    ensures { result.now ≡ meaning.between bytes.now }
{
    match bytes {
        [_, inner @ .., _] => inner,
        _ => &[],
    }
}

fn unquoted(name: &[u8]) -> &[u8]
    ensures { result.now ≡ meaning.unquoted name.now }
{
    match name {
        [b'"', ..] => between(name),
        _ => name,
    }
}

fn is_negative(bytes: &[u8]) -> bool
    ensures { result ≡ meaning.is_negative bytes.now }
{
    match bytes {
        [b'-', ..] => true,
        _ => false,
    }
}

fn digits_of(bytes: &[u8]) -> &[u8]
    ensures { result.now ≡ meaning.digits_of bytes.now }
{
    if is_negative(bytes) {
        without_first(bytes)
    } else {
        bytes
    }
}

fn first_byte(bytes: &[u8]) -> u8
    ensures { result ≡ slice_index bytes.now 0 }
{
    match bytes {
        [byte, ..] => *byte,
        [] => 0,
    }
}

/// What a token means.
pub(crate) fn item_of<'a>(token: &Token<'a>) -> Item<'a>
    ensures { token_of result ≡ meaning.meaning token.now.kind token.now.text.now }
{
    let bytes = token.text;
    match token.kind {
        TokenKind::Word => Item::Word(bytes),
        TokenKind::Number => Item::Number {
            minus: is_negative(bytes),
            digits: digits_of(bytes),
        },
        TokenKind::Global => Item::Global(unquoted(without_first(bytes))),
        TokenKind::Local => Item::Local(unquoted(without_first(bytes))),
        TokenKind::Label => Item::Label(unquoted(without_last(bytes))),
        TokenKind::Str => Item::Str(between(bytes)),
        TokenKind::Bytes => Item::Bytes(between(without_first(bytes))),
        TokenKind::Group => Item::Group(without_first(bytes)),
        TokenKind::Mark => Item::Mark,
        TokenKind::Sign => Item::Sign(first_byte(bytes)),
    }
}
