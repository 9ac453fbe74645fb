// Why a module that counts is not lowered: the first call that fails a test, then a unit without an increment, then a limit.
use crate::text::refusal;
use std::alloc::Global;
use std::test::Fail;

const BEFORE: &[u8] = b"@__profn_e = constant [1 x i8] c\"e\"
@__profn_f = constant [5 x i8] c\"x.c:f\"
declare void @llvm.instrprof.increment(ptr, i64, i32, i32)
declare void @llvm.instrprof.increment.step(ptr, i64, i32, i32, i64)
declare void @llvm.instrprof.value.profile(ptr, i64, i64, i32, i32)
define void @f() {
entry:
";

// Why the module with these calls and the units `e` and `x.c:f` is not lowered.
fn told_of(alloc: Global, calls: &[u8]) -> Result<String, Fail> {
    let mut text = BEFORE.to_vec(alloc)?;
    text.extend_from_slice(calls)?;
    text.extend_from_slice(b"  ret void\n}\n")?;
    refusal(alloc, text.as_slice())
}

#[test]
fn a_refusal_tells_its_unit_and_its_numbers(rt: HostRuntime) -> Result<(), Fail> {
    let cases: [(&[u8], &str); 8] = [
        (
            b"  call void @llvm.instrprof.increment(ptr @__profn_f, i64 7, i32 1, i32 0)
  call void @llvm.instrprof.increment(ptr @__profn_f, i64 8, i32 1, i32 0)
",
            "x.c:f: hashes 7, 8",
        ),
        (
            b"  call void @llvm.instrprof.value.profile(ptr @__profn_f, i64 7, i64 0, i32 0, i32 0)
  call void @llvm.instrprof.increment(ptr @__profn_f, i64 -1, i32 1, i32 0)
",
            "x.c:f: hashes 7, 18446744073709551615",
        ),
        (
            b"  call void @llvm.instrprof.increment(ptr @__profn_f, i64 7, i32 2, i32 0)
  call void @llvm.instrprof.increment(ptr @__profn_f, i64 7, i32 3, i32 0)
",
            "x.c:f: numbers 2, 3",
        ),
        (
            b"  call void @llvm.instrprof.increment(ptr @__profn_f, i64 7, i32 2, i32 1)
  call void @llvm.instrprof.increment.step(ptr @__profn_f, i64 7, i32 1, i32 0, i64 5)
",
            "x.c:f: numbers 2, 1",
        ),
        (
            b"  call void @llvm.instrprof.increment(ptr @__profn_f, i64 7, i32 2, i32 2)
",
            "x.c:f: index 2 of 2",
        ),
        (
            b"  call void @llvm.instrprof.increment(ptr @__profn_f, i64 7, i32 2, i32 1)
  call void @llvm.instrprof.increment.step(ptr @__profn_f, i64 7, i32 2, i32 3, i64 5)
",
            "x.c:f: index 3 of 2",
        ),
        (
            b"  call void @llvm.instrprof.value.profile(ptr @__profn_f, i64 7, i64 0, i32 0, i32 0)
",
            "x.c:f: no increment",
        ),
        (
            b"  call void @llvm.instrprof.increment(ptr @__profn_f, i64 7, i32 2, i32 1)
  call void @llvm.instrprof.increment(ptr @__profn_e, i64 8, i32 3, i32 2)
  call void @llvm.instrprof.value.profile(ptr @__profn_f, i64 7, i64 0, i32 0, i32 4)
",
            "",
        ),
    ];
    for (calls, told) in cases {
        assert_eq!(rt; told_of(rt.alloc(), calls)?.as_str(), told);
    }
    Ok(())
}

// Of one call the hash is tried first, then the number of counters, then the index; calls are tried in text order, and units without an
// increment behind them, in the order of their variables.
#[test]
fn the_first_call_that_fails_is_told(rt: HostRuntime) -> Result<(), Fail> {
    let cases: [(&[u8], &str); 7] = [
        (
            b"  call void @llvm.instrprof.increment(ptr @__profn_f, i64 7, i32 2, i32 1)
  call void @llvm.instrprof.increment(ptr @__profn_f, i64 8, i32 3, i32 9)
",
            "x.c:f: hashes 7, 8",
        ),
        (
            b"  call void @llvm.instrprof.increment(ptr @__profn_f, i64 7, i32 2, i32 1)
  call void @llvm.instrprof.increment(ptr @__profn_f, i64 7, i32 3, i32 9)
",
            "x.c:f: numbers 2, 3",
        ),
        (
            b"  call void @llvm.instrprof.increment(ptr @__profn_f, i64 7, i32 2, i32 2)
  call void @llvm.instrprof.increment(ptr @__profn_f, i64 8, i32 2, i32 0)
",
            "x.c:f: index 2 of 2",
        ),
        (
            b"  call void @llvm.instrprof.increment(ptr @__profn_f, i64 7, i32 2, i32 1)
  call void @llvm.instrprof.increment(ptr @__profn_f, i64 7, i32 3, i32 0)
  call void @llvm.instrprof.increment(ptr @__profn_f, i64 8, i32 2, i32 0)
",
            "x.c:f: numbers 2, 3",
        ),
        (
            b"  call void @llvm.instrprof.increment(ptr @__profn_f, i64 7, i32 1, i32 0)
  call void @llvm.instrprof.increment(ptr @__profn_e, i64 7, i32 1, i32 0)
  call void @llvm.instrprof.increment(ptr @__profn_f, i64 7, i32 1, i32 1)
  call void @llvm.instrprof.increment(ptr @__profn_e, i64 8, i32 1, i32 0)
",
            "x.c:f: index 1 of 1",
        ),
        (
            b"  call void @llvm.instrprof.value.profile(ptr @__profn_e, i64 7, i64 0, i32 0, i32 0)
  call void @llvm.instrprof.increment(ptr @__profn_f, i64 7, i32 1, i32 1)
",
            "x.c:f: index 1 of 1",
        ),
        (
            b"  call void @llvm.instrprof.value.profile(ptr @__profn_f, i64 7, i64 0, i32 0, i32 0)
  call void @llvm.instrprof.value.profile(ptr @__profn_e, i64 7, i64 0, i32 0, i32 0)
",
            "e: no increment",
        ),
    ];
    for (calls, told) in cases {
        assert_eq!(rt; told_of(rt.alloc(), calls)?.as_str(), told);
    }
    Ok(())
}

// All counters together, and the sites that all units tell, are limited in the lowered module alone.
#[test]
fn a_limit_of_the_lowered_module_is_told(rt: HostRuntime) -> Result<(), Fail> {
    let cases: [(&[u8], &str); 3] = [
        (
            b"  call void @llvm.instrprof.increment(ptr @__profn_e, i64 7, i32 1048576, i32 0)
  call void @llvm.instrprof.increment(ptr @__profn_f, i64 7, i32 1, i32 0)
",
            "limit Counters 1048577",
        ),
        (
            b"  call void @llvm.instrprof.increment(ptr @__profn_e, i64 7, i32 1048575, i32 0)
  call void @llvm.instrprof.increment(ptr @__profn_f, i64 7, i32 1, i32 0)
",
            "",
        ),
        (
            b"  call void @llvm.instrprof.increment(ptr @__profn_e, i64 7, i32 1, i32 0)
  call void @llvm.instrprof.increment(ptr @__profn_f, i64 7, i32 1048576, i32 0)
  call void @llvm.instrprof.value.profile(ptr @__profn_e, i64 7, i64 0, i32 0, i32 65535)
  call void @llvm.instrprof.value.profile(ptr @__profn_f, i64 7, i64 0, i32 0, i32 0)
",
            "limit Sites 65537",
        ),
    ];
    for (calls, told) in cases {
        assert_eq!(rt; told_of(rt.alloc(), calls)?.as_str(), told);
    }
    Ok(())
}

#[test]
fn another_kind_is_not_lowered(rt: HostRuntime) -> Result<(), Fail> {
    let alloc = rt.alloc();
    let plain = b"define void @f() {\nentry:\n  ret void\n}\n";
    assert_eq!(rt; refusal(alloc, plain)?.as_str(), "wrong kind Plain");
    let lowered = b"declare void @__llvm_profile_instrument_target(i64, ptr, i32)\n";
    assert_eq!(rt; refusal(alloc, lowered)?.as_str(), "wrong kind Lowered");
    Ok(())
}
