//! The tokens of a text, one after the other.

ghost use Rattle.std.specs.Prelude.{◌≡◌, ℕ, ◌-◌, ◌<◌, ◌≤◌, false, length, drop, None, IsTrue, IfOk, IfErr, OnErr, MatchOption, MatchResult};
ghost use Rattle.ir_lex.specs.Scan as scan;
ghost use Rattle.ir_lex.specs.Spelling.{after_gap};
ghost use Rattle.ir_lex.specs.Next.{Place, IsNext, IsAtEnd, NothingNext, Unlabelled};

use crate::bytes::is_blank;
use crate::longest::longest;
use crate::scan::{behind, unlabelled_len};
use crate::token::{Syntax, Token};
use std::marker::Model;

/// Goes over the tokens of a text from its start. A contract sees the text and how far it was read.
#[derive(Drop)]
pub struct Tokens<'a> {
    text: &'a [u8],
    at: usize,
    /// No label without quotes begins from `at` to here.
    unlabelled_to: usize,
}

impl<'a> Model for Tokens<'a> {
    ghost use Rattle.std.specs.Prelude.{◌≤◌, length};
    ghost use Rattle.ir_lex.specs.Next.{Place, Unlabelled};

    ghost Value = { Place };

    ghost view = { λ t. record { text = t.text.now; at = t.at } };

    ghost invariant = { λ t. (t.at ≤ length t.text.now) × Unlabelled t.text.now t.at t.unlabelled_to };
}

/// How many bytes at the front are blanks and comments.
fn gap_len(text: &[u8]) -> usize
    ensures within { result ≤ length text.now }
    ensures gap { drop result text.now ≡ after_gap false text.now }
{
    let mut comment = false;
    for (i, b) in text.iter().enumerate() {
        if comment {
            comment = *b != b'\n';
        } else if !is_blank(*b) {
            if *b != b';' {
                return i;
            }
            comment = true;
        }
    }
    text.len()
}

impl<'a> Tokens<'a> {
    /// Stands at the start of the text.
    pub fn new(text: &'a [u8]) -> Tokens<'a>
        ensures text { result.text ≡ text.now }
        ensures at { result.at ≡ 0 }
    {
        Tokens {
            text,
            at: 0,
            unlabelled_to: 0,
        }
    }

    /// Stands where these tokens stand, and goes on by itself.
    pub fn fork(&self) -> Tokens<'a>
        ensures { result ≡ self.now }
    {
        Tokens {
            text: self.text,
            at: self.at,
            unlabelled_to: self.unlabelled_to,
        }
    }

    /// The next token behind blanks and comments, which is the longest that is spelled there, or `None` exactly at the
    /// end of the text.
    ///
    /// [`Syntax`] comes exactly where bytes are left and no token is spelled. The place then stays as it was, so later
    /// calls answer it again.
    pub fn next(&mut self) -> Result<Option<Token<'a>>, Syntax>
        ensures text { self.new.text ≡ self.old.text }
        ensures found { IfOk result (λ next. MatchOption next (IsAtEnd self.old) (λ token. IsNext self.old token.kind token.start token.«end» token.text.now)) }
        ensures after { IfOk result (λ next. MatchOption next (self.new ≡ self.old) (λ token. self.new.at ≡ token.«end»)) }
        ensures syntax { IfErr result (λ error. NothingNext self.old error.at) }
        ensures same { OnErr result (self.new ≡ self.old) }
    {
        let start = self.at + gap_len(behind(self.text, self.at));
        let rest = behind(self.text, start);
        if rest.is_empty() {
            return Ok(None);
        }
        let unlabelled_to = if start < self.unlabelled_to {
            self.unlabelled_to
        } else {
            start + unlabelled_len(rest)
        };
        let found = longest(rest, start < unlabelled_to);
        if found.len == 0 {
            return Err(Syntax { at: start });
        }
        let end = start + found.len;
        self.at = end;
        self.unlabelled_to = unlabelled_to;
        Ok(Some(Token {
            kind: found.kind,
            start,
            end,
            text: &self.text[start..end],
        }))
    }
}
