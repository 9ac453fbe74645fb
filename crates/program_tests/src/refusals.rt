// The line of a refused module, by each command that reads one.
use crate::clang_text::SUM;
use crate::program::{check, repeated, transcript};
use std::alloc::Global;
use std::test::Fail;
use std::thread::Threads;

// Whether `check`, `print`, `run` and `chain` all refuse the module with this line, and put nothing out.
fn all_refuse<R: Threads + Sync>(
    rt: &R,
    alloc: Global,
    module: &[u8],
    line: &str,
) -> Result<bool, Fail> {
    let lists: [&[&str]; 4] = [
        &["check", "m.ll"],
        &["print", "m.ll"],
        &["run", "m.ll", "c.txt"],
        &["chain", "m.ll", "c.txt"],
    ];
    let mut wanted = String::from_str(alloc, "pgo: m.ll: ")?;
    wanted.push_str(line)?;
    wanted.push_str("\nstatus 2\n")?;
    let mut all = true;
    for words in lists {
        // The calls text is no better than the module, which is looked at first.
        let text = transcript(rt, alloc, words, module, b"no call")?;
        if text.as_str() != wanted.as_str() {
            all = false;
        }
    }
    Ok(all)
}

#[test]
fn a_text_that_spells_no_module_is_refused(rt: HostRuntime) -> Result<(), Fail> {
    let texts: [(&[u8], &str); 7] = [
        (b"define void @f() { ret }", "syntax at byte 23"),
        (b"@g = global i8 256\n", "syntax at byte 15"),
        (b"@g = global i8 -129\n", "syntax at byte 15"),
        (b"!0 = !{i32 1", "syntax at byte 12"),
        (b"define i32 @sum(i32 noundef", "syntax at byte 27"),
        (b"@a = global i8 0 ; one\n)", "syntax at byte 23"),
        (
            b"define void @f() { %x = add nsw nuw i8 1, 1 ret void }",
            "syntax at byte 32",
        ),
    ];
    for (text, line) in texts {
        assert!(rt; all_refuse(&rt, rt.alloc(), text, line)?, "{line}");
    }
    Ok(())
}

// A front of a text as clang writes it ends too early, inside of the list of parameters.
#[test]
fn a_text_that_is_cut_is_refused_at_its_end(rt: HostRuntime) -> Result<(), Fail> {
    let alloc = rt.alloc();
    let front = SUM.get(..159);
    match front {
        Some(front) => {
            assert!(rt; front.ends_with(b"@sum(i32 noundef"));
            assert!(rt; all_refuse(&rt, alloc, front, "syntax at byte 159")?);
        }
        None => assert!(rt; false, "a short text"),
    }
    Ok(())
}

// A variable of so many nested arrays.
fn nested(alloc: Global, depth: u32) -> Result<Vec<u8>, Fail> {
    let mut text = repeated(alloc, b"@g = global ", b"[1 x ", depth, b"i8")?;
    for _ in 0..depth {
        text.push(b']')?;
    }
    text.extend_from_slice(b" zeroinitializer\n")?;
    Ok(text)
}

#[test]
fn arrays_are_nested_to_16(rt: HostRuntime) -> Result<(), Fail> {
    let alloc = rt.alloc();
    let text = nested(alloc, 16)?;
    assert_eq!(rt;
        check(&rt, alloc, text.as_slice())?.as_str(),
        "plain\nstatus 0\n"
    );
    let text = nested(alloc, 17)?;
    let told = check(&rt, alloc, text.as_slice())?;
    assert!(rt; told.starts_with("pgo: m.ll: syntax at byte "), "{told}");
    Ok(())
}

#[test]
fn a_text_has_at_most_16777216_bytes(rt: HostRuntime) -> Result<(), Fail> {
    let alloc = rt.alloc();
    let mut text = vec![in alloc; b' '; 16777216]?;
    assert_eq!(rt;
        check(&rt, alloc, text.as_slice())?.as_str(),
        "plain\nstatus 0\n"
    );
    text.push(b' ')?;
    assert!(rt; all_refuse(&rt, alloc, text.as_slice(), "too long")?);
    Ok(())
}

// Of the variables of a unit the third has another hash of the name; a number of counters is 0; a counter is past its
// variable's end.
const RULES: [(&[u8], &str); 7] = [
    (
        b"define void @f() { ret void }\ndefine void @f() { ret void }\n",
        "rule 1 at 1 0 0",
    ),
    (
        b"define i64 @f(i64 %n) {
entry:
  %c = icmp eq i64 %n, 0
  br i1 %c, label %set, label %use
set:
  %v = add i64 %n, 1
  br label %use
use:
  ret i64 %v
}
",
        "rule 16 at 0 2 0",
    ),
    (
        b"declare void @llvm.instrprof.increment(ptr, i64, i32, i32)
declare void @__llvm_profile_instrument_target(i64, ptr, i32)
",
        "rule 2 at 0 0 0",
    ),
    (
        b"@a = global i8 0\n@__profile = global i8 0\n",
        "rule 3 at 0 0 1",
    ),
    (
        b"@__profn_c = constant [1 x i8] c\"c\"
@__profc_c = global [1 x i64] zeroinitializer
@__profd_c = global [4 x i64] [i64 4014738744300571211, i64 7, i64 1, i64 0]
declare void @__llvm_profile_instrument_target(i64, ptr, i32)
",
        "rule 5 at 0 0 1",
    ),
    (
        b"@__profn_f = constant [1 x i8] c\"f\"
declare void @llvm.instrprof.increment(ptr, i64, i32, i32)
define void @f() {
  call void @llvm.instrprof.increment(ptr @__profn_f, i64 1, i32 0, i32 0)
  ret void
}
",
        "rule 17 at 1 0 0",
    ),
    (
        b"@__profn_c = constant [1 x i8] c\"c\"
@__profc_c = global [1 x i64] zeroinitializer
@__profd_c = global [4 x i64] [i64 4014738744300571210, i64 7, i64 1, i64 0]
declare void @__llvm_profile_instrument_target(i64, ptr, i32)
define void @c() {
  atomicrmw add ptr getelementptr inbounds ([1 x i64], ptr @__profc_c, i64 0, i64 1), i64 1 monotonic
  ret void
}
",
        "rule 18 at 1 0 0",
    ),
];

#[test]
fn a_module_that_breaks_a_rule_is_refused_with_its_place(rt: HostRuntime) -> Result<(), Fail> {
    for (text, line) in RULES {
        assert!(rt; all_refuse(&rt, rt.alloc(), text, line)?, "{line}");
    }
    Ok(())
}
