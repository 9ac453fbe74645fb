use crate::{Syntax, TokenKind, Tokens};
use std::process::Abort;

/// The next token has this kind, this place and these bytes.
fn assert_next(rt: &impl Abort, tokens: &mut Tokens, kind: TokenKind, start: usize, text: &[u8]) {
    let next = tokens.next();
    assert!(rt; next.is_ok());
    if let Ok(found) = next {
        assert!(rt; found.is_some());
        if let Some(token) = found {
            assert_eq!(rt; token.kind, kind);
            assert_eq!(rt; token.start, start);
            assert!(rt; token.text == text);
        }
    }
}

#[test]
fn the_longest_token_is_taken(rt: HostRuntime) {
    let mut tokens = Tokens::new(b"-5 -5: 5: c\"a\\0A\" c\"\\0\" \"x\":%1a");
    assert_next(&rt, &mut tokens, TokenKind::Number, 0, b"-5");
    assert_next(&rt, &mut tokens, TokenKind::Label, 3, b"-5:");
    assert_next(&rt, &mut tokens, TokenKind::Label, 7, b"5:");
    assert_next(&rt, &mut tokens, TokenKind::Bytes, 10, b"c\"a\\0A\"");
    assert_next(&rt, &mut tokens, TokenKind::Word, 18, b"c");
    assert_next(&rt, &mut tokens, TokenKind::Str, 19, b"\"\\0\"");
    assert_next(&rt, &mut tokens, TokenKind::Label, 24, b"\"x\":");
    assert_next(&rt, &mut tokens, TokenKind::Local, 28, b"%1");
    assert_next(&rt, &mut tokens, TokenKind::Word, 30, b"a");
    assert!(rt; matches!(tokens.next(), Ok(None)));
}

#[test]
fn numbers_in_a_row_are_no_label(rt: HostRuntime) {
    let mut tokens = Tokens::new(b"-1-2-3 -4-5:");
    assert_next(&rt, &mut tokens, TokenKind::Number, 0, b"-1");
    assert_next(&rt, &mut tokens, TokenKind::Number, 2, b"-2");
    assert_next(&rt, &mut tokens, TokenKind::Number, 4, b"-3");
    assert_next(&rt, &mut tokens, TokenKind::Label, 7, b"-4-5:");
}

#[test]
fn syntax_is_answered_again(rt: HostRuntime) {
    let mut tokens = Tokens::new(b"ret ; \"\n \"x86");
    assert_next(&rt, &mut tokens, TokenKind::Word, 0, b"ret");
    assert!(rt; matches!(tokens.next(), Err(Syntax { at: 9 })));
    assert!(rt; matches!(tokens.next(), Err(Syntax { at: 9 })));
}
