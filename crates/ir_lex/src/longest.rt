//! The longest token at the front of a text.

ghost use Rattle.std.specs.Prelude.{◌≡◌, suc, ◌≤◌, length, None, IsTrue};
ghost use Rattle.ir_lex.specs.Scan as scan;
ghost use Rattle.ir_lex.specs.Spelling.{rank};
ghost use Rattle.ir_lex.specs.Best.{IsBest};

use crate::scan::{
    after_bytes, after_global, after_group, after_label, after_local, after_mark, after_number,
    after_sign, after_string, after_word,
};
use crate::token::TokenKind;

/// A kind and the length of its longest token at the front of a text.
#[derive(Clone, Copy)]
pub(crate) struct Front {
    pub(crate) kind: TokenKind,
    pub(crate) len: usize,
}

#[tactic(auto, unfolding(crate::specs::Scan::front))]
fn front_len(kind: TokenKind, text: &[u8], unlabelled: bool) -> usize
    requires { IsTrue unlabelled → scan.plain_label_rest text.now ≡ None }
    ensures { result ≡ scan.front kind text.now }
{
    let rest = match kind {
        TokenKind::Word => after_word(text),
        TokenKind::Number => after_number(text),
        TokenKind::Global => after_global(text),
        TokenKind::Local => after_local(text),
        TokenKind::Label => after_label(text, unlabelled),
        TokenKind::Str => after_string(text),
        TokenKind::Bytes => after_bytes(text),
        TokenKind::Group => after_group(text),
        TokenKind::Mark => after_mark(text),
        TokenKind::Sign => after_sign(text),
    };
    match rest {
        Some(rest) => text.len().saturating_sub(rest.len()),
        None => 0,
    }
}

/// The longer of what was found and the next kind's token.
fn longer(best: Front, kind: TokenKind, text: &[u8], unlabelled: bool) -> Front
    requires known { IsTrue unlabelled → scan.plain_label_rest text.now ≡ None }
    requires before { IsBest (rank kind) text.now best.kind best.len }
    ensures { IsBest (suc (rank kind)) text.now result.kind result.len }
{
    let len = front_len(kind, text, unlabelled);
    if len > best.len {
        Front { kind, len }
    } else {
        best
    }
}

/// The longest token of any kind. Its length is 0 where no token stands at the front.
pub(crate) fn longest(text: &[u8], unlabelled: bool) -> Front
    requires { IsTrue unlabelled → scan.plain_label_rest text.now ≡ None }
    ensures { IsBest 10 text.now result.kind result.len }
{
    let none = Front {
        kind: TokenKind::Word,
        len: 0,
    };
    let best = longer(none, TokenKind::Word, text, unlabelled);
    let best = longer(best, TokenKind::Number, text, unlabelled);
    let best = longer(best, TokenKind::Global, text, unlabelled);
    let best = longer(best, TokenKind::Local, text, unlabelled);
    let best = longer(best, TokenKind::Label, text, unlabelled);
    let best = longer(best, TokenKind::Str, text, unlabelled);
    let best = longer(best, TokenKind::Bytes, text, unlabelled);
    let best = longer(best, TokenKind::Group, text, unlabelled);
    let best = longer(best, TokenKind::Mark, text, unlabelled);
    longer(best, TokenKind::Sign, text, unlabelled)
}
