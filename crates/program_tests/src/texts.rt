// Texts as clang writes them, the smallest texts, and names and calls in them.
use crate::clang_text::{NUMBERS, SUM, SUM_PRINTED};
use crate::program::{check, print, run};
use std::test::Fail;

#[test]
fn what_is_read_past_is_not_printed(rt: HostRuntime) -> Result<(), Fail> {
    let alloc = rt.alloc();
    assert_eq!(rt; check(&rt, alloc, SUM)?.as_str(), "plain\nstatus 0\n");
    assert_eq!(rt; print(&rt, alloc, SUM)?.as_str(), SUM_PRINTED);
    assert_eq!(rt;
        run(&rt, alloc, SUM, b"@sum 4\n@sum 0\n@sum -1\n")?.as_str(),
        "call 0 @sum
returned 3
call 1 @sum
returned 0
call 2 @sum
returned 0
status 0
"
    );
    Ok(())
}

// The values are those of the C functions as clang builds and the machine runs them.
#[test]
fn optimized_functions_compute_what_they_did_in_c(rt: HostRuntime) -> Result<(), Fail> {
    let cases: [(&[u8], &str); 10] = [
        (b"@gcd 1071 462", "call 0 @gcd\nreturned 21\nstatus 0\n"),
        // An unsigned result whose sign bit is clear; the arguments have theirs set.
        (
            b"@gcd 3000000000 4000000000",
            "call 0 @gcd\nreturned 1000000000\nstatus 0\n",
        ),
        (b"@collatz 27", "call 0 @collatz\nreturned 111\nstatus 0\n"),
        (
            b"@walk 0 5",
            "call 0 @walk\n2\n6\n12\n37\n39\nreturned 39\nstatus 0\n",
        ),
        (b"@walk 5 5", "call 0 @walk\nreturned 0\nstatus 0\n"),
        (b"@kind 111", "call 0 @kind\nreturned 1\nstatus 0\n"),
        (b"@kind 32", "call 0 @kind\nreturned -3\nstatus 0\n"),
        (b"@kind 55", "call 0 @kind\nreturned 2\nstatus 0\n"),
        (b"@kind 120", "call 0 @kind\nreturned 0\nstatus 0\n"),
        (
            b"@reversed 4660",
            "call 0 @reversed\nreturned 11336\nstatus 0\n",
        ),
    ];
    for (call, text) in cases {
        assert_eq!(rt; run(&rt, rt.alloc(), NUMBERS, call)?.as_str(), text);
    }
    Ok(())
}

#[test]
fn small_texts_are_printed(rt: HostRuntime) -> Result<(), Fail> {
    let alloc = rt.alloc();
    assert_eq!(rt; check(&rt, alloc, b"")?.as_str(), "plain\nstatus 0\n");
    assert_eq!(rt; print(&rt, alloc, b"")?.as_str(), "status 0\n");
    assert_eq!(rt;
        print(&rt, alloc, b"define void @f() { ret void }")?.as_str(),
        "define void @f() {\n0:\n  ret void\n}\nstatus 0\n"
    );
    Ok(())
}

// A name of the calls text has no quotes, and one of the outcomes has them where it needs them. The second call ends in a
// carriage return.
#[test]
fn names_are_quoted_where_they_need_it(rt: HostRuntime) -> Result<(), Fail> {
    let module = b"define i8 @\"a/b\"(i8 %\"x/y\") {
  ret i8 %\"x/y\"
}
define void @\"plain\"(ptr %p) {
  ret void
}
";
    let calls = b"# two calls\n\t@a/b\t-128 \n\n@a/b 255\r\n";
    let alloc = rt.alloc();
    assert_eq!(rt;
        run(&rt, alloc, module, calls)?.as_str(),
        "call 0 @\"a/b\"\nreturned -128\ncall 1 @\"a/b\"\nreturned -1\nstatus 0\n"
    );
    let refused: [(&[u8], &str); 5] = [
        (
            b"@a/b 256",
            "pgo: c.txt: bad arguments in line 1\nstatus 2\n",
        ),
        (
            b"@plain 0",
            "pgo: c.txt: bad arguments in line 1\nstatus 2\n",
        ),
        (
            b"@a/b 1\n@ab 1",
            "pgo: c.txt: no function in line 2\nstatus 2\n",
        ),
        (b"@a/b 1\n@\"a/b\" 1", "pgo: c.txt: bad line 2\nstatus 2\n"),
        (b"@5", "pgo: c.txt: bad line 1\nstatus 2\n"),
    ];
    for (calls, text) in refused {
        assert_eq!(rt; run(&rt, alloc, module, calls)?.as_str(), text);
    }
    Ok(())
}
