// Selects, sites of calls, blocks that nothing leads to, names that are taken, and modules that are not counted. Places are worked by
// hand, and hashes are those of another program.
use crate::text::{counted, refusal};
use gen_module::GenError;
use ir_check::Kind;
use std::test::Fail;

const DEAD: &[u8] = b"define void @f() {
entry:
  ret void
dead:
  %b = add i64 %a, 1
  %a = select i1 true, i64 %b, i64 1
  call void %p()
  %p = freeze ptr null
  br label %dead
}
";

const DEAD_COUNTED: &str = "@__profn_f = constant [1 x i8] c\"f\"

define void @f() {
entry:
  call void @llvm.instrprof.increment(ptr @__profn_f, i64 4042501815599933724, i32 1, i32 0)
  ret void
dead:
  %b = add i64 %a, 1
  %a = select i1 true, i64 %b, i64 1
  call void %p()
  %p = freeze ptr null
  br label %dead
}

declare void @llvm.instrprof.increment(ptr, i64, i32, i32)

declare void @llvm.instrprof.value.profile(ptr, i64, i64, i32, i32)
";

#[test]
fn a_block_that_nothing_leads_to_stays_as_it_is(rt: HostRuntime) -> Result<(), Fail> {
    assert_eq!(rt; counted(rt.alloc(), DEAD, false)?.as_str(), DEAD_COUNTED);
    Ok(())
}

const SELECT: &[u8] = b"define i64 @s(i1 %c) {
entry:
  %x = select i1 %c, i64 4, i64 9
  ret i64 %x
}
";

const SELECT_COUNTED: &str = "@__profn_s = constant [1 x i8] c\"s\"

define i64 @s(i1 %c) {
entry:
  %pgo.select.0 = zext i1 %c to i64
  call void @llvm.instrprof.increment.step(ptr @__profn_s, i64 -8864290305566230816, i32 2, i32 1, i64 %pgo.select.0)
  %x = select i1 %c, i64 4, i64 9
  call void @llvm.instrprof.increment(ptr @__profn_s, i64 -8864290305566230816, i32 2, i32 0)
  ret i64 %x
}

declare void @llvm.instrprof.increment(ptr, i64, i32, i32)

declare void @llvm.instrprof.value.profile(ptr, i64, i64, i32, i32)

declare void @llvm.instrprof.increment.step(ptr, i64, i32, i32, i64)
";

#[test]
fn a_select_is_counted_by_its_condition_before_it(rt: HostRuntime) -> Result<(), Fail> {
    assert_eq!(rt;
        counted(rt.alloc(), SELECT, false)?.as_str(),
        SELECT_COUNTED
    );
    Ok(())
}

const TAKEN: &[u8] = b"define i64 @p(i1 %pgo.edge.2, ptr %pgo.target.0) {
entry:
  br i1 %pgo.edge.2, label %pgo.edge.2.1, label %pgo.edge.2.1
pgo.edge.2.1:
  %pgo.select.0 = select i1 %pgo.edge.2, i64 1, i64 2
  %pgo.select.0.1 = call i64 %pgo.target.0(i64 %pgo.select.0)
  ret i64 %pgo.select.0.1
}
";

const TAKEN_COUNTED: &str = "@__profn_p = constant [1 x i8] c\"p\"

define i64 @p(i1 %pgo.edge.2, ptr %pgo.target.0) {
entry:
  br i1 %pgo.edge.2, label %pgo.edge.2.1, label %pgo.edge.2.2
pgo.edge.2.2:
  call void @llvm.instrprof.increment(ptr @__profn_p, i64 6185025404300684206, i32 3, i32 0)
  br label %pgo.edge.2.1
pgo.edge.2.1:
  %pgo.select.0.2 = zext i1 %pgo.edge.2 to i64
  call void @llvm.instrprof.increment.step(ptr @__profn_p, i64 6185025404300684206, i32 3, i32 2, i64 %pgo.select.0.2)
  %pgo.select.0 = select i1 %pgo.edge.2, i64 1, i64 2
  %pgo.target.0.1 = ptrtoint ptr %pgo.target.0 to i64
  call void @llvm.instrprof.value.profile(ptr @__profn_p, i64 6185025404300684206, i64 %pgo.target.0.1, i32 0, i32 0)
  %pgo.select.0.1 = call i64 %pgo.target.0(i64 %pgo.select.0)
  call void @llvm.instrprof.increment(ptr @__profn_p, i64 6185025404300684206, i32 3, i32 1)
  ret i64 %pgo.select.0.1
}

declare void @llvm.instrprof.increment(ptr, i64, i32, i32)

declare void @llvm.instrprof.value.profile(ptr, i64, i64, i32, i32)

declare void @llvm.instrprof.increment.step(ptr, i64, i32, i32, i64)
";

#[test]
fn a_name_that_is_taken_has_a_number_behind_it(rt: HostRuntime) -> Result<(), Fail> {
    assert_eq!(rt; counted(rt.alloc(), TAKEN, false)?.as_str(), TAKEN_COUNTED);
    Ok(())
}

const SEVERAL: &[u8] = b"@g = global i8 3
declare void @print_i64(i64)
define void @\"a/b\"(ptr %f, ptr %g) {
entry:
  call void %f()
  call void @print_i64(i64 1)
  %x = select i1 true, i64 1, i64 2
  %y = select i1 false, i64 %x, i64 2
  call void %g()
  ret void
}
define void @c() {
entry:
  unreachable
}
";

const SEVERAL_COUNTED: &str = "@g = global i8 3
@\"__profn_a/b\" = constant [3 x i8] c\"a/b\"
@__profn_c = constant [1 x i8] c\"c\"

declare void @print_i64(i64)

define void @\"a/b\"(ptr %f, ptr %g) {
entry:
  %pgo.target.0 = ptrtoint ptr %f to i64
  call void @llvm.instrprof.value.profile(ptr @\"__profn_a/b\", i64 -3913120876566614162, i64 %pgo.target.0, i32 0, i32 0)
  call void %f()
  call void @print_i64(i64 1)
  %pgo.select.0 = zext i1 true to i64
  call void @llvm.instrprof.increment.step(ptr @\"__profn_a/b\", i64 -3913120876566614162, i32 3, i32 1, i64 %pgo.select.0)
  %x = select i1 true, i64 1, i64 2
  %pgo.select.1 = zext i1 false to i64
  call void @llvm.instrprof.increment.step(ptr @\"__profn_a/b\", i64 -3913120876566614162, i32 3, i32 2, i64 %pgo.select.1)
  %y = select i1 false, i64 %x, i64 2
  %pgo.target.1 = ptrtoint ptr %g to i64
  call void @llvm.instrprof.value.profile(ptr @\"__profn_a/b\", i64 -3913120876566614162, i64 %pgo.target.1, i32 0, i32 1)
  call void %g()
  call void @llvm.instrprof.increment(ptr @\"__profn_a/b\", i64 -3913120876566614162, i32 3, i32 0)
  ret void
}

define void @c() {
entry:
  call void @llvm.instrprof.increment(ptr @__profn_c, i64 4042501815599933724, i32 1, i32 0)
  unreachable
}

declare void @llvm.instrprof.increment(ptr, i64, i32, i32)

declare void @llvm.instrprof.value.profile(ptr, i64, i64, i32, i32)

declare void @llvm.instrprof.increment.step(ptr, i64, i32, i32, i64)
";

// Each defined function has a unit behind the variables, and the declarations stand behind the functions.
#[test]
fn selects_and_sites_of_each_function_have_numbers_of_their_own(
    rt: HostRuntime,
) -> Result<(), Fail> {
    assert_eq!(rt;
        counted(rt.alloc(), SEVERAL, false)?.as_str(),
        SEVERAL_COUNTED
    );
    Ok(())
}

const LOWERED: &[u8] = b"declare void @__llvm_profile_instrument_target(i64, ptr, i32)
define void @v() {
entry:
  ret void
}
";

#[test]
fn a_module_that_counts_is_not_counted_again(rt: HostRuntime) -> Result<(), Fail> {
    let alloc = rt.alloc();
    assert!(rt;
        refusal(alloc, TAKEN_COUNTED.as_bytes())?
            == Some(GenError::WrongKind {
                found: Kind::Counted
            })
    );
    assert!(rt;
        refusal(alloc, LOWERED)?
            == Some(GenError::WrongKind {
                found: Kind::Lowered
            })
    );
    assert!(rt; refusal(alloc, TAKEN)?.is_none());
    Ok(())
}
