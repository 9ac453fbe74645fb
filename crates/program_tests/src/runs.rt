// What calls come to: frames, callees, traps and what declared functions do.
use crate::program::{chain, run};
use std::test::Fail;

// The bottom of the recursion prints, which takes no frame.
const DEEP: &[u8] = b"declare void @print_i64(i64)
define i64 @d(i64 %n) {
entry:
  %c = icmp eq i64 %n, 0
  br i1 %c, label %last, label %more
last:
  call void @print_i64(i64 77)
  ret i64 0
more:
  %m = sub i64 %n, 1
  %r = call i64 @d(i64 %m)
  ret i64 %r
}
";

#[test]
fn a_call_has_512_frames(rt: HostRuntime) -> Result<(), Fail> {
    let text = run(&rt, rt.alloc(), DEEP, b"@d 511\n@d 512\n")?;
    assert_eq!(rt;
        text.as_str(),
        "call 0 @d
77
returned 0
call 1 @d
trapped depth
pgo: call 1 trapped depth
status 3
"
    );
    Ok(())
}

const QUOTIENT: &[u8] = b"define i64 @q(i64 %x) {
entry:
  %y = sdiv i64 100, %x
  ret i64 %y
}
";

#[test]
fn the_calls_behind_a_trap_are_run(rt: HostRuntime) -> Result<(), Fail> {
    let alloc = rt.alloc();
    let calls = b"@q 5\n@q 0\n@q 4\n";
    let lines = "call 0 @q
returned 20
call 1 @q
trapped div-zero
call 2 @q
returned 25
pgo: call 1 trapped div-zero
status 3
";
    assert_eq!(rt; run(&rt, alloc, QUOTIENT, calls)?.as_str(), lines);
    assert_eq!(rt; chain(&rt, alloc, QUOTIENT, calls)?.as_str(), lines);
    Ok(())
}

const VARIABLE: &[u8] = b"define void @c() {
entry:
  %a = alloca i64
  call void %a()
  ret void
}
";

// The same module with its counter and its noted target, as they are lowered.
const VARIABLE_LOWERED: &[u8] = b"@__profn_c = constant [1 x i8] c\"c\"
@__profc_c = global [1 x i64] zeroinitializer
@__profd_c = global [4 x i64] [i64 4014738744300571210, i64 6695714925982477502, i64 1, i64 1]
define void @c() {
entry:
  %a = alloca i64
  %pgo.target.0 = ptrtoint ptr %a to i64
  call void @__llvm_profile_instrument_target(i64 %pgo.target.0, ptr @__profd_c, i32 0)
  call void %a()
  atomicrmw add ptr getelementptr inbounds ([1 x i64], ptr @__profc_c, i64 0, i64 0), i64 1 monotonic
  ret void
}
declare void @__llvm_profile_instrument_target(i64, ptr, i32)
";

#[test]
fn the_address_of_a_variable_is_no_function(rt: HostRuntime) -> Result<(), Fail> {
    let alloc = rt.alloc();
    for module in [VARIABLE, VARIABLE_LOWERED] {
        assert_eq!(rt;
            run(&rt, alloc, module, b"@c\n")?.as_str(),
            "call 0 @c\ntrapped callee\npgo: call 0 trapped callee\nstatus 3\n"
        );
    }
    Ok(())
}

const DISPATCH: &[u8] =
    b"@table = constant [9 x ptr] [ptr @t0, ptr @t1, ptr @t2, ptr @t3, ptr @t4, ptr @t5, ptr @t6, ptr @t7, ptr @t8]
declare void @print_i64(i64)
define void @t0() { call void @print_i64(i64 0) ret void }
define void @t1() { call void @print_i64(i64 10) ret void }
define void @t2() { call void @print_i64(i64 20) ret void }
define void @t3() { call void @print_i64(i64 30) ret void }
define void @t4() { call void @print_i64(i64 40) ret void }
define void @t5() { call void @print_i64(i64 50) ret void }
define void @t6() { call void @print_i64(i64 60) ret void }
define void @t7() { call void @print_i64(i64 70) ret void }
define void @t8() { call void @print_i64(i64 80) ret void }
define void @dispatch(i64 %k) {
entry:
  %p = getelementptr inbounds [9 x ptr], ptr @table, i64 0, i64 %k
  %f = load ptr, ptr %p
  call void %f()
  ret void
}
";

#[test]
fn functions_are_called_through_a_table(rt: HostRuntime) -> Result<(), Fail> {
    let text = run(
        &rt,
        rt.alloc(),
        DISPATCH,
        b"@dispatch 0\n@dispatch 8\n@dispatch 3\n@dispatch 9\n@dispatch -1\n",
    )?;
    assert_eq!(rt;
        text.as_str(),
        "call 0 @dispatch
0
returned
call 1 @dispatch
80
returned
call 2 @dispatch
30
returned
call 3 @dispatch
trapped access
call 4 @dispatch
trapped access
pgo: call 3 trapped access
status 3
"
    );
    Ok(())
}

// A function for each trap that is not one of frames, objects or output.
const TRAPS: &[u8] = b"@limit = constant i64 5
@pair = global [2 x i32] [i32 1, i32 2]
@table = constant [1 x ptr] [ptr @frame]
declare void @unknown(i64)
define i8 @quotient(i8 %a, i8 %b) {
  %q = sdiv i8 %a, %b
  ret i8 %q
}
define i8 @signed(i8 %a, i8 %b) {
  %r = srem i8 %a, %b
  ret i8 %r
}
define i16 @rest(i16 %a, i16 %b) {
  %r = urem i16 %a, %b
  ret i16 %r
}
define i32 @at(i64 %k) {
  %p = getelementptr i32, ptr @pair, i64 %k
  %v = load i32, ptr %p
  ret i32 %v
}
define void @set() {
  store i64 6, ptr @limit
  ret void
}
define ptr @frame() {
  %p = alloca i64
  ret ptr %p
}
define i64 @left() {
  %p = call ptr @frame()
  %v = load i64, ptr %p
  ret i64 %v
}
define ptr @piece() {
  %p = load ptr, ptr @pair
  ret ptr %p
}
define void @other() {
  %p = load ptr, ptr @table
  call void %p()
  ret void
}
define void @none() {
  %p = freeze ptr null
  call void %p()
  ret void
}
define void @beyond() {
  call void @unknown(i64 1)
  ret void
}
define void @never() {
  unreachable
}
";

#[test]
fn what_has_no_meaning_traps(rt: HostRuntime) -> Result<(), Fail> {
    let cases: [(&[u8], &str); 13] = [
        (b"@quotient -128 -1", "trapped div-overflow"),
        (b"@quotient 1 0", "trapped div-zero"),
        (b"@signed -128 -1", "trapped div-overflow"),
        (b"@rest -1 0", "trapped div-zero"),
        (b"@at 2", "trapped access"),
        (b"@at -1", "trapped access"),
        (b"@set", "trapped access"),
        (b"@left", "trapped access"),
        (b"@piece", "trapped pointer"),
        (b"@other", "trapped callee"),
        (b"@none", "trapped callee"),
        (b"@beyond", "trapped external"),
        (b"@never", "trapped unreachable"),
    ];
    for (call, line) in cases {
        let text = run(&rt, rt.alloc(), TRAPS, call)?;
        assert!(rt; text.contains(line), "{text}");
        assert!(rt; text.ends_with("status 3\n"), "{text}");
    }
    Ok(())
}

// With the variable these objects take 1,048,576 bytes, and one of no bytes counts as one.
const OBJECTS: &[u8] = b"@g = global i8 0
define void @all() {
  %p = alloca [1048575 x i8]
  ret void
}
define void @again() {
  call void @all()
  call void @all()
  ret void
}
define void @more() {
  %p = alloca [1048575 x i8]
  %q = alloca [0 x i8]
  ret void
}
";

#[test]
fn live_objects_have_1048576_bytes(rt: HostRuntime) -> Result<(), Fail> {
    let text = run(&rt, rt.alloc(), OBJECTS, b"@all\n@again\n@more\n")?;
    assert_eq!(rt;
        text.as_str(),
        "call 0 @all
returned
call 1 @again
returned
call 2 @more
trapped cells
pgo: call 2 trapped cells
status 3
"
    );
    Ok(())
}

const LIFETIMES: &[u8] = b"declare void @llvm.lifetime.start.p0(i64 immarg, ptr nocapture) #1
declare void @llvm.lifetime.end.p0(i64 immarg, ptr nocapture) #1
declare void @print_i64(i64)
define i64 @kept(i64 %x) {
  %p = alloca i64, align 8
  call void @llvm.lifetime.start.p0(i64 8, ptr nonnull %p)
  store i64 %x, ptr %p, align 8
  call void @llvm.lifetime.end.p0(i64 8, ptr nonnull %p)
  %y = load i64, ptr %p, align 8
  call void @print_i64(i64 -9223372036854775808)
  ret i64 %y
}
";

#[test]
fn declared_functions_print_or_do_nothing(rt: HostRuntime) -> Result<(), Fail> {
    let text = run(&rt, rt.alloc(), LIFETIMES, b"@kept -4\n")?;
    assert_eq!(rt;
        text.as_str(),
        "call 0 @kept\n-9223372036854775808\nreturned -4\nstatus 0\n"
    );
    Ok(())
}
