// Profile notes: the first at each place that is kept, equal ones as one node, numbered by their first appearance; all others are gone.
use crate::text::is_printed_as;
use std::test::Fail;

const WRITTEN: &[u8] = b"!9 = !{!\"branch_weights\", i32 7, i32 4294967295}
!8 = !{!\"function_entry_count\", i64 18446744073709551615}
define void @f(i1 %c, ptr %p, i8 %x) !prof !9 !prof !8 !prof !7 {
entry:
  %s = select i1 %c, i8 %x, i8 1, !prof !8, !dbg !5, !prof !9, !prof !4
  %v = add i8 %s, 1, !prof !9
  call void %p(), !prof !1, !prof !9
  %w = call i8 %p(i8 %v), !prof !9, !prof !2
  %k = call i8 @g(), !prof !3
  br i1 %c, label %a, label %b, !prof !5
a:
  br i1 %c, label %b, label %c, !prof !6
b:
  switch i8 %x, label %c [
    i8 1, label %a
  ], !prof !4, !prof !9
c:
  br i1 %c, label %a, label %b, !prof !10
}
define i8 @g() !prof !7 {
  switch i8 0, label %d [ i8 1, label %d i8 2, label %d ], !prof !11
d:
  switch i8 1, label %d [ ], !prof !12
}
define void @h() !prof !8 { br label %e, !prof !5 e: ret void, !prof !5 }
!1 = !{!\"VP\", i32 0, i64 3, i64 -6, i64 2, i64 18446744073709551615, i64 1}
!2 = !{!\"VP\", i32 0, i64 0}
!3 = !{!\"VP\", i32 1, i64 3, i64 6, i64 3}
!4 = !{!\"branch_weights\", i32 7, i32 -1}
!5 = !{!\"branch_weights\", i32 0, i32 0}
!6 = distinct !{!\"branch_weights\", i32 1, i32 2}
!7 = !{!\"function_entry_count\", i64 0}
!10 = !{!\"branch_weights\", i32 1, i32 1}
!10 = !{!\"branch_weights\", i32 1, i32 1}
!11 = !{!\"branch_weights\", i32 1, i32 2, i32 3}
!12 = !{!\"branch_weights\", i32 5}
!13 = !{!\"function_entry_count\", i64 13}
";

const PRINTED: &[u8] = b"define void @f(i1 %c, ptr %p, i8 %x) !prof !0 {
entry:
  %s = select i1 %c, i8 %x, i8 1, !prof !1
  %v = add i8 %s, 1
  call void %p(), !prof !2
  %w = call i8 %p(i8 %v), !prof !3
  %k = call i8 @g()
  br i1 %c, label %a, label %b, !prof !4
a:
  br i1 %c, label %b, label %c
b:
  switch i8 %x, label %c [
    i8 1, label %a
  ], !prof !1
c:
  br i1 %c, label %a, label %b
}

define i8 @g() !prof !5 {
0:
  switch i8 0, label %d [
    i8 1, label %d
    i8 2, label %d
  ], !prof !6
d:
  switch i8 1, label %d [
  ], !prof !7
}

define void @h() !prof !0 {
0:
  br label %e
e:
  ret void
}

!0 = !{!\"function_entry_count\", i64 -1}
!1 = !{!\"branch_weights\", i32 7, i32 -1}
!2 = !{!\"VP\", i32 0, i64 3, i64 -6, i64 2, i64 -1, i64 1}
!3 = !{!\"VP\", i32 0, i64 0}
!4 = !{!\"branch_weights\", i32 0, i32 0}
!5 = !{!\"function_entry_count\", i64 0}
!6 = !{!\"branch_weights\", i32 1, i32 2, i32 3}
!7 = !{!\"branch_weights\", i32 5}
";

#[test]
fn notes_are_numbered_by_appearance(rt: HostRuntime) -> Result<(), Fail> {
    assert!(rt; is_printed_as(rt.alloc(), WRITTEN, PRINTED)?);
    assert!(rt; is_printed_as(rt.alloc(), PRINTED, PRINTED)?);
    Ok(())
}
