// The line of a module that passes a limit, which is told before any rule. Edges in such numbers are tested on modules that are
// built as values.
use crate::program::{check, repeated};
use std::test::Fail;

#[test]
fn lists_are_limited(rt: HostRuntime) -> Result<(), Fail> {
    let alloc = rt.alloc();
    let cases: [(&[u8], &[u8], u32, &[u8], &str); 3] = [
        (
            b"",
            b"declare void @f()\n",
            65_537,
            b"",
            "pgo: m.ll: limit Functions 65537\nstatus 2\n",
        ),
        (
            b"",
            b"@g = global i8 0\n",
            65_537,
            b"",
            "pgo: m.ll: limit Globals 65537\nstatus 2\n",
        ),
        (
            b"define void @f() {\n",
            b"%a = add i64 1, 1\n",
            2_049,
            b"ret void\n}\n",
            "pgo: m.ll: limit Registers 2049\nstatus 2\n",
        ),
    ];
    for (before, text, count, after, line) in cases {
        let whole = repeated(alloc, before, text, count, after)?;
        assert_eq!(rt; check(&rt, alloc, whole.as_slice())?.as_str(), line);
    }
    Ok(())
}

// 258 functions of 255 calls each pass the limit on calls. A function of 256 passes its own: a parameter and eight for each.
#[test]
fn calls_through_locals_are_limited(rt: HostRuntime) -> Result<(), Fail> {
    let alloc = rt.alloc();
    let one = repeated(
        alloc,
        b"define void @f(ptr %p) {\n",
        b"call void %p()\n",
        255,
        b"ret void\n}\n",
    )?;
    let whole = repeated(alloc, b"", one.as_slice(), 258, b"")?;
    assert_eq!(rt;
        check(&rt, alloc, whole.as_slice())?.as_str(),
        "pgo: m.ll: limit Sites 65790\nstatus 2\n"
    );
    let one = repeated(
        alloc,
        b"define void @f(ptr %p) {\n",
        b"call void %p()\n",
        256,
        b"ret void\n}\n",
    )?;
    assert_eq!(rt;
        check(&rt, alloc, one.as_slice())?.as_str(),
        "pgo: m.ll: limit Registers 2049\nstatus 2\n"
    );
    Ok(())
}

#[test]
fn bytes_of_variables_are_limited(rt: HostRuntime) -> Result<(), Fail> {
    let alloc = rt.alloc();
    let cases: [(&[u8], &str); 4] = [
        (
            b"@a = global [1048576 x i8] zeroinitializer\n",
            "plain\nstatus 0\n",
        ),
        (
            b"@a = global [131073 x i64] zeroinitializer\n",
            "pgo: m.ll: limit Object 1048584\nstatus 2\n",
        ),
        (
            b"@a = global [1048576 x i8] zeroinitializer\n@b = global [0 x i8] zeroinitializer\n",
            "pgo: m.ll: limit Cells 1048577\nstatus 2\n",
        ),
        (
            b"@__profc_f = global [1048577 x i64] zeroinitializer
declare void @__llvm_profile_instrument_target(i64, ptr, i32)
",
            "pgo: m.ll: limit Counters 1048577\nstatus 2\n",
        ),
    ];
    for (text, line) in cases {
        assert_eq!(rt; check(&rt, alloc, text)?.as_str(), line);
    }
    Ok(())
}
