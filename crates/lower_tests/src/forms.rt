// Lowered modules as text, worked by hand. Hashes are those of another program.
use crate::text::{counted_and_lowered, lowered};
use std::test::Fail;

const DISPATCH: &[u8] =
    b"@table = constant [9 x ptr] [ptr @t0, ptr @t1, ptr @t2, ptr @t3, ptr @t4, ptr @t5, ptr @t6, ptr @t7, ptr @t8]
define void @t0() {
entry:
  ret void
}
define void @t1() {
entry:
  ret void
}
define void @t2() {
entry:
  ret void
}
define void @t3() {
entry:
  ret void
}
define void @t4() {
entry:
  ret void
}
define void @t5() {
entry:
  ret void
}
define void @t6() {
entry:
  ret void
}
define void @t7() {
entry:
  ret void
}
define void @t8() {
entry:
  ret void
}
define void @dispatch(i64 %k) {
entry:
  %p = getelementptr inbounds [9 x ptr], ptr @table, i64 0, i64 %k
  %f = load ptr, ptr %p
  call void %f()
  ret void
}
";

const DISPATCH_LOWERED: &str =
    "@table = constant [9 x ptr] [ptr @t0, ptr @t1, ptr @t2, ptr @t3, ptr @t4, ptr @t5, ptr @t6, ptr @t7, ptr @t8]
@__profn_t0 = constant [2 x i8] c\"t0\"
@__profn_t1 = constant [2 x i8] c\"t1\"
@__profn_t2 = constant [2 x i8] c\"t2\"
@__profn_t3 = constant [2 x i8] c\"t3\"
@__profn_t4 = constant [2 x i8] c\"t4\"
@__profn_t5 = constant [2 x i8] c\"t5\"
@__profn_t6 = constant [2 x i8] c\"t6\"
@__profn_t7 = constant [2 x i8] c\"t7\"
@__profn_t8 = constant [2 x i8] c\"t8\"
@__profn_dispatch = constant [8 x i8] c\"dispatch\"
@__profc_t0 = global [1 x i64] zeroinitializer
@__profd_t0 = global [4 x i64] [i64 6215510277300264320, i64 4042501815599933724, i64 1, i64 0]
@__profc_t1 = global [1 x i64] zeroinitializer
@__profd_t1 = global [4 x i64] [i64 -861406228493635197, i64 4042501815599933724, i64 1, i64 0]
@__profc_t2 = global [1 x i64] zeroinitializer
@__profd_t2 = global [4 x i64] [i64 -7366929324875021809, i64 4042501815599933724, i64 1, i64 0]
@__profc_t3 = global [1 x i64] zeroinitializer
@__profd_t3 = global [4 x i64] [i64 -4132351481849018357, i64 4042501815599933724, i64 1, i64 0]
@__profc_t4 = global [1 x i64] zeroinitializer
@__profd_t4 = global [4 x i64] [i64 8059958135287337232, i64 4042501815599933724, i64 1, i64 0]
@__profc_t5 = global [1 x i64] zeroinitializer
@__profd_t5 = global [4 x i64] [i64 -2458000347650317857, i64 4042501815599933724, i64 1, i64 0]
@__profc_t6 = global [1 x i64] zeroinitializer
@__profd_t6 = global [4 x i64] [i64 6586081056788216999, i64 4042501815599933724, i64 1, i64 0]
@__profc_t7 = global [1 x i64] zeroinitializer
@__profd_t7 = global [4 x i64] [i64 -8744137981537778378, i64 4042501815599933724, i64 1, i64 0]
@__profc_t8 = global [1 x i64] zeroinitializer
@__profd_t8 = global [4 x i64] [i64 -2424098273798972845, i64 4042501815599933724, i64 1, i64 0]
@__profc_dispatch = global [1 x i64] zeroinitializer
@__profd_dispatch = global [4 x i64] [i64 -7762558725055652451, i64 6695714925982477502, i64 1, i64 1]

define void @t0() {
entry:
  atomicrmw add ptr getelementptr inbounds ([1 x i64], ptr @__profc_t0, i64 0, i64 0), i64 1 monotonic
  ret void
}

define void @t1() {
entry:
  atomicrmw add ptr getelementptr inbounds ([1 x i64], ptr @__profc_t1, i64 0, i64 0), i64 1 monotonic
  ret void
}

define void @t2() {
entry:
  atomicrmw add ptr getelementptr inbounds ([1 x i64], ptr @__profc_t2, i64 0, i64 0), i64 1 monotonic
  ret void
}

define void @t3() {
entry:
  atomicrmw add ptr getelementptr inbounds ([1 x i64], ptr @__profc_t3, i64 0, i64 0), i64 1 monotonic
  ret void
}

define void @t4() {
entry:
  atomicrmw add ptr getelementptr inbounds ([1 x i64], ptr @__profc_t4, i64 0, i64 0), i64 1 monotonic
  ret void
}

define void @t5() {
entry:
  atomicrmw add ptr getelementptr inbounds ([1 x i64], ptr @__profc_t5, i64 0, i64 0), i64 1 monotonic
  ret void
}

define void @t6() {
entry:
  atomicrmw add ptr getelementptr inbounds ([1 x i64], ptr @__profc_t6, i64 0, i64 0), i64 1 monotonic
  ret void
}

define void @t7() {
entry:
  atomicrmw add ptr getelementptr inbounds ([1 x i64], ptr @__profc_t7, i64 0, i64 0), i64 1 monotonic
  ret void
}

define void @t8() {
entry:
  atomicrmw add ptr getelementptr inbounds ([1 x i64], ptr @__profc_t8, i64 0, i64 0), i64 1 monotonic
  ret void
}

define void @dispatch(i64 %k) {
entry:
  %p = getelementptr inbounds [9 x ptr], ptr @table, i64 0, i64 %k
  %f = load ptr, ptr %p
  %pgo.target.0 = ptrtoint ptr %f to i64
  call void @__llvm_profile_instrument_target(i64 %pgo.target.0, ptr @__profd_dispatch, i32 0)
  call void %f()
  atomicrmw add ptr getelementptr inbounds ([1 x i64], ptr @__profc_dispatch, i64 0, i64 0), i64 1 monotonic
  ret void
}

declare void @__llvm_profile_instrument_target(i64, ptr, i32)
";

#[test]
fn counters_and_data_stand_behind_the_names(rt: HostRuntime) -> Result<(), Fail> {
    let text = counted_and_lowered(rt.alloc(), DISPATCH)?;
    assert_eq!(rt; text.as_str(), DISPATCH_LOWERED);
    Ok(())
}

const SELECT: &[u8] = b"define i64 @s(i1 %c) {
entry:
  %x = select i1 %c, i64 4, i64 9
  ret i64 %x
}
";

const SELECT_LOWERED: &str = "@__profn_s = constant [1 x i8] c\"s\"
@__profc_s = global [2 x i64] zeroinitializer
@__profd_s = global [4 x i64] [i64 133020994095859459, i64 -8864290305566230816, i64 2, i64 0]

define i64 @s(i1 %c) {
entry:
  %pgo.select.0 = zext i1 %c to i64
  atomicrmw add ptr getelementptr inbounds ([2 x i64], ptr @__profc_s, i64 0, i64 1), i64 %pgo.select.0 monotonic
  %x = select i1 %c, i64 4, i64 9
  atomicrmw add ptr getelementptr inbounds ([2 x i64], ptr @__profc_s, i64 0, i64 0), i64 1 monotonic
  ret i64 %x
}

declare void @__llvm_profile_instrument_target(i64, ptr, i32)
";

#[test]
fn a_stepped_increment_adds_its_amount(rt: HostRuntime) -> Result<(), Fail> {
    let text = counted_and_lowered(rt.alloc(), SELECT)?;
    assert_eq!(rt; text.as_str(), SELECT_LOWERED);
    Ok(())
}

// A text as another program may write it.
const VERSION: &[u8] = b"$__llvm_profile_raw_version = comdat any
@__llvm_profile_raw_version = hidden constant i64 72057594037927944, comdat
@__profn_unused = private constant [6 x i8] c\"unused\"
@__profn_f = private constant [3 x i8] c\"a/b\"
declare void @llvm.instrprof.increment(ptr, i64, i32, i32)
declare void @print_i64(i64)
declare void @llvm.instrprof.value.profile(ptr, i64, i64, i32, i32)
define void @f(ptr %p) {
entry:
  %t = ptrtoint ptr %p to i64
  call void @llvm.instrprof.value.profile(ptr @__profn_f, i64 -7, i64 %t, i32 0, i32 41)
  call void %p(), !prof !0
  call void @llvm.instrprof.value.profile(ptr @__profn_f, i64 -7, i64 16, i32 0, i32 3)
  call void @llvm.instrprof.increment(ptr @__profn_f, i64 -7, i32 3, i32 2), !prof !0
  call void @print_i64(i64 5)
  ret void
}
!0 = !{!\"VP\", i32 0, i64 6, i64 4, i64 6}
";

const VERSION_LOWERED: &str = "@__llvm_profile_raw_version = constant i64 72057594037927944
@__profn_unused = constant [6 x i8] c\"unused\"
@__profn_f = constant [3 x i8] c\"a/b\"
@__profc_f = global [3 x i64] zeroinitializer
@__profd_f = global [4 x i64] [i64 -7133355101902477145, i64 -7, i64 3, i64 42]

declare void @print_i64(i64)

define void @f(ptr %p) {
entry:
  %t = ptrtoint ptr %p to i64
  call void @__llvm_profile_instrument_target(i64 %t, ptr @__profd_f, i32 41)
  call void %p(), !prof !0
  call void @__llvm_profile_instrument_target(i64 16, ptr @__profd_f, i32 3)
  atomicrmw add ptr getelementptr inbounds ([3 x i64], ptr @__profc_f, i64 0, i64 2), i64 1 monotonic
  call void @print_i64(i64 5)
  ret void
}

declare void @__llvm_profile_instrument_target(i64, ptr, i32)

!0 = !{!\"VP\", i32 0, i64 6, i64 4, i64 6}
";

// The hash is that of the name that the unit's variable holds, the sites are one more than the greatest, and the note on an intrinsic's
// call goes with it.
#[test]
fn the_version_stays_and_a_name_alone_has_no_counters(rt: HostRuntime) -> Result<(), Fail> {
    assert_eq!(rt; lowered(rt.alloc(), VERSION)?.as_str(), VERSION_LOWERED);
    Ok(())
}
