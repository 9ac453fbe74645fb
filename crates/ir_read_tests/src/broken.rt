// Fronts of a text, and texts with a token left out or doubled. The answers were found by hand, from the grammar.
use crate::text::SUM;
use ir_lex::Tokens;
use ir_read::{ReadError, read};
use std::alloc::Global;
use std::test::Fail;

// Whether the text spells a module.
fn is_spelled(alloc: Global, text: &[u8]) -> Result<bool, Fail> {
    match read(alloc, text) {
        Ok(_) => Ok(true),
        Err(ReadError::Syntax { .. }) => Ok(false),
        Err(error) => Err(Fail::from(error)),
    }
}

// From the end of a part to the start of the next one, with the comments between.
const BETWEEN_PARTS: [(usize, usize); 9] = [
    (0, 19),
    (42, 43),
    (85, 122),
    (494, 496),
    (554, 555),
    (581, 582),
    (617, 618),
    (667, 668),
    (715, 716),
];

#[test]
fn a_front_is_a_module_where_it_ends_between_two_parts(rt: HostRuntime) -> Result<(), Fail> {
    for end in 0..=SUM.len() {
        let expected = BETWEEN_PARTS.iter().any(|gap| gap.0 <= end && end <= gap.1);
        assert_eq!(rt; is_spelled(rt.alloc(), &SUM[..end])?, expected);
    }
    Ok(())
}

// The tokens without which the text spells a module: linkage, attributes, the name of a parameter, a flag, `distinct`, and
// what stands in brackets that are read past.
const MAY_BE_LEFT_OUT: [usize; 36] = [
    8, 13, 14, 16, 17, 49, 86, 87, 88, 89, 90, 97, 98, 105, 106, 107, 108, 109, 110, 111, 112, 117,
    121, 122, 123, 124, 125, 133, 134, 135, 136, 137, 138, 139, 140, 141,
];

// The tokens that may stand twice.
const MAY_BE_DOUBLED: [usize; 33] = [
    8, 13, 16, 17, 86, 87, 88, 89, 90, 97, 98, 105, 106, 107, 108, 109, 110, 111, 112, 121, 122,
    123, 124, 125, 133, 134, 135, 136, 137, 138, 139, 140, 141,
];

// The text up to one place, a blank, and the text from another place on.
fn joined(alloc: Global, front: usize, back: usize) -> Result<Vec<u8>, Fail> {
    let mut text = Vec::new(alloc);
    if front <= SUM.len() && back <= SUM.len() {
        text.extend_from_slice(&SUM[..front])?;
        text.push(b' ')?;
        text.extend_from_slice(&SUM[back..])?;
    }
    Ok(text)
}

#[test]
fn each_token_is_left_out_and_doubled(rt: HostRuntime) -> Result<(), Fail> {
    let mut tokens = Tokens::new(SUM);
    let mut count = 0usize;
    for number in 0..143usize {
        if let Ok(Some(token)) = tokens.next() {
            let without = joined(rt.alloc(), token.start, token.end)?;
            assert_eq!(rt;
                is_spelled(rt.alloc(), without.as_slice())?,
                MAY_BE_LEFT_OUT.contains(&number)
            );
            let twice = joined(rt.alloc(), token.end, token.start)?;
            assert_eq!(rt;
                is_spelled(rt.alloc(), twice.as_slice())?,
                MAY_BE_DOUBLED.contains(&number)
            );
            count = number + 1;
        }
    }
    assert_eq!(rt; count, 143);
    assert!(rt; matches!(tokens.next(), Ok(None)));
    Ok(())
}
