use super::*;
use std::test::Fail;

#[test]
fn bytes_and_numbers_are_appended(rt: HostRuntime) -> Result<(), Fail> {
    let mut text = Vec::new(rt.alloc());
    push(&mut text, b"a ")?;
    push_number(&mut text, 18446744073709551615)?;
    push(&mut text, b" ")?;
    push_signed(&mut text, -128)?;
    assert_eq!(rt; text.as_slice(), b"a 18446744073709551615 -128".as_slice());
    Ok(())
}
