use super::*;
use std::test::Fail;

#[test]
fn tokens_are_written(rt: HostRuntime) -> Result<(), Fail> {
    let mut out = Vec::new(rt.alloc());
    push_global(&mut out, b"a.b")?;
    push_stop(&mut out, Stop::OpenParen)?;
    push_global(&mut out, b"1x")?;
    push_stop(&mut out, Stop::Comma)?;
    push_local(&mut out, b"12")?;
    push_stop(&mut out, Stop::Space)?;
    push_label(&mut out, b"a+")?;
    push_stop(&mut out, Stop::Line)?;
    push_negative(&mut out, 128)?;
    push_stop(&mut out, Stop::Equals)?;
    push_byte_string(&mut out, b" ~\"\\\n\x7f")?;
    assert_eq!(rt;
        out.as_slice(),
        b"@a.b(@\"1x\", %12 \"a+\":\n-128= c\" ~\\22\\5C\\0A\\7F\"".as_slice()
    );
    Ok(())
}
