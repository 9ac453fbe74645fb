//! What a token is.

/// The kinds of token.
#[derive(Clone, Copy, Debug, PartialEq, Eq)]
pub enum TokenKind {
    /// A keyword or another word, as `define` or `i64`.
    Word,
    /// A decimal number, with a minus sign or without.
    Number,
    /// The name of a global or a function, as `@main`.
    Global,
    /// The name of a local value or a label, as `%sum`.
    Local,
    /// The name of a block and a colon, as `entry:`.
    Label,
    /// A string in quotes.
    Str,
    /// A string of bytes, as `c"a\00"`.
    Bytes,
    /// The number of an attribute group, as `#0`.
    Group,
    /// An exclamation mark.
    Mark,
    /// A bracket, a comma or another single sign.
    Sign,
}

/// A token and where it stands.
#[derive(Clone, Copy, Debug)]
pub struct Token<'a> {
    pub kind: TokenKind,
    /// The place of its first byte, counted from 0.
    pub start: usize,
    /// The place behind its last byte.
    pub end: usize,
    /// Its bytes, a slice of the text.
    pub text: &'a [u8],
}

/// No token is spelled at this place of the text.
#[derive(Clone, Copy, Debug, PartialEq, Eq)]
pub struct Syntax {
    pub at: usize,
}
