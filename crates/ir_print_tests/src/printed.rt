// Texts as clang and as people write them, and the canonical texts of their modules, written by hand.
use crate::text::{is_printed_as, printed};
use std::test::Fail;

const WRITTEN: &[u8] = b"; ModuleID = 'a.c'
source_filename = \"a.c\"
@\"ops\" = internal unnamed_addr constant [2 x ptr] [ptr @inc, ptr null], align 16
@s = private unnamed_addr constant [5 x i8] c\"a\\22\\5c\\0a\\00\", align 1
@e = external dso_local global i64
@m = global [2 x [1 x i1]] [[1 x i1] [i1 1], [1 x i1] [i1 false]]
declare void @\"2x\"(i64 noundef) local_unnamed_addr #1
define dso_local i64 @inc(i64 noundef %0, ptr nocapture %q) #0 !prof !3 {
  %2 = add nuw nsw i64 %0, 18446744073709551615 ; -1
  %3 = udiv exact i64 %2, 2
  %4 = or disjoint i8 255, 127
  %5 = icmp samesign ult i64 %2, %3
  %6 = select i1 %5, i64 %2, i64 %3, !prof !7, !dbg !9
  %7 = call fastcc noundef i64 %q(i64 noundef %6) #2, !prof !8
  tail call void @\"2x\"(i64 %7)
  br i1 %5, label %a, label %\"b+\", !prof !5
a:
  %8 = phi i64 [ %6, %1 ]
  %9 = getelementptr inbounds [4 x i8], ptr %q, i64 0, i64 %8
  %10 = load i64, ptr %9, align 8
  store i64 %10, ptr @e, align 8
  %11 = trunc i64 %10 to i1
  %12 = zext nneg i1 %11 to i8
  %13 = sext i8 %12 to i16
  %14 = ptrtoint ptr %9 to i64
  %15 = alloca [2 x i16], align 2
  %16 = freeze i16 %13
  switch i16 %16, label %a [ i16 1, label %\"b+\"
    i16 65535, label %c ], !prof !7
\"b+\":
  ret i64 0
c:
  unreachable
}
define void @d() { br label %x
x: atomicrmw add ptr getelementptr inbounds ([3 x i64], ptr @e, i64 0, i64 2), i64 1 monotonic, align 8
  ret void }
!3 = !{!\"function_entry_count\", i64 10}
!5 = !{!\"branch_weights\", i32 1, i32 4294967295}
!7 = !{!\"branch_weights\", i32 1, i32 4294967295}
!8 = !{!\"VP\", i32 0, i64 4, i64 9223372036854775808, i64 3, i64 -1, i64 1}
!9 = !{}
";

const PRINTED: &[u8] = b"@ops = constant [2 x ptr] [ptr @inc, ptr null]
@s = constant [5 x i8] c\"a\\22\\5C\\0A\\00\"
@e = external global i64
@m = global [2 x [1 x i1]] [[1 x i1] [i1 true], [1 x i1] [i1 false]]

declare void @\"2x\"(i64)

define i64 @inc(i64 %0, ptr %q) !prof !0 {
1:
  %2 = add nuw nsw i64 %0, -1
  %3 = udiv exact i64 %2, 2
  %4 = or i8 -1, 127
  %5 = icmp ult i64 %2, %3
  %6 = select i1 %5, i64 %2, i64 %3, !prof !1
  %7 = call i64 %q(i64 %6), !prof !2
  call void @\"2x\"(i64 %7)
  br i1 %5, label %a, label %\"b+\", !prof !1
a:
  %8 = phi i64 [ %6, %1 ]
  %9 = getelementptr inbounds [4 x i8], ptr %q, i64 0, i64 %8
  %10 = load i64, ptr %9
  store i64 %10, ptr @e
  %11 = trunc i64 %10 to i1
  %12 = zext i1 %11 to i8
  %13 = sext i8 %12 to i16
  %14 = ptrtoint ptr %9 to i64
  %15 = alloca [2 x i16]
  %16 = freeze i16 %13
  switch i16 %16, label %a [
    i16 1, label %\"b+\"
    i16 -1, label %c
  ], !prof !1
\"b+\":
  ret i64 0
c:
  unreachable
}

define void @d() {
0:
  br label %x
x:
  atomicrmw add ptr getelementptr inbounds ([3 x i64], ptr @e, i64 0, i64 2), i64 1 monotonic
  ret void
}

!0 = !{!\"function_entry_count\", i64 10}
!1 = !{!\"branch_weights\", i32 1, i32 -1}
!2 = !{!\"VP\", i32 0, i64 4, i64 -9223372036854775808, i64 3, i64 -1, i64 1}
";

const SUM: &[u8] = b"; ModuleID = 'a.c'
source_filename = \"a.c\"
target triple = \"x86_64-unknown-linux-gnu\"

; Function Attrs: nounwind uwtable
define dso_local i32 @sum(i32 noundef %0) local_unnamed_addr #0 !dbg !8 {
  %2 = icmp sgt i32 %0, 0
  br i1 %2, label %3, label %5, !dbg !9

3:                                                ; preds = %1
  %4 = add nsw i32 %0, -1, !dbg !9
  br label %5

5:                                                ; preds = %3, %1
  %6 = phi i32 [ %4, %3 ], [ 0, %1 ]
  ret i32 %6
}

attributes #0 = { nounwind uwtable \"frame-pointer\"=\"all\" }
!llvm.module.flags = !{!0}
!0 = !{i32 1, !\"wchar_size\", i32 4}
!8 = distinct !DISubprogram(name: \"sum\", line: 1)
!9 = !DILocation(line: 2, column: 3, scope: !8)
";

const PRINTED_SUM: &[u8] = b"define i32 @sum(i32 %0) {
1:
  %2 = icmp sgt i32 %0, 0
  br i1 %2, label %3, label %5
3:
  %4 = add nsw i32 %0, -1
  br label %5
5:
  %6 = phi i32 [ %4, %3 ], [ 0, %1 ]
  ret i32 %6
}
";

// A global variable of sixteen arrays, one in the other.
const DEEP: &[u8] =
    b"@g = global [1 x [1 x [1 x [1 x [1 x [1 x [1 x [1 x [1 x [1 x [1 x [1 x [1 x [1 x [1 x [2 x i8]]]]]]]]]]]]]]]] zeroinitializer
";

#[test]
fn a_text_is_printed_as_by_hand(rt: HostRuntime) -> Result<(), Fail> {
    assert!(rt; is_printed_as(rt.alloc(), WRITTEN, PRINTED)?);
    assert!(rt; is_printed_as(rt.alloc(), PRINTED, PRINTED)?);
    Ok(())
}

#[test]
fn an_empty_module_is_the_empty_text(rt: HostRuntime) -> Result<(), Fail> {
    let text = printed(rt.alloc(), b"; nothing\n")?;
    assert_eq!(rt; text.as_slice(), b"".as_slice());
    Ok(())
}

#[test]
fn nothing_precedes_the_first_function(rt: HostRuntime) -> Result<(), Fail> {
    let text = printed(rt.alloc(), b"declare void @f()\ndeclare i1 @g(ptr,i8)")?;
    assert_eq!(rt;
        text.as_slice(),
        b"declare void @f()\n\ndeclare i1 @g(ptr, i8)\n".as_slice()
    );
    Ok(())
}

#[test]
fn a_function_of_clang_is_printed(rt: HostRuntime) -> Result<(), Fail> {
    assert!(rt; is_printed_as(rt.alloc(), SUM, PRINTED_SUM)?);
    assert!(rt; is_printed_as(rt.alloc(), PRINTED_SUM, PRINTED_SUM)?);
    Ok(())
}

#[test]
fn a_first_block_without_a_label_has_a_number(rt: HostRuntime) -> Result<(), Fail> {
    let text = printed(rt.alloc(), b"define void @f() { ret void }")?;
    assert_eq!(rt;
        text.as_slice(),
        b"define void @f() {\n0:\n  ret void\n}\n".as_slice()
    );
    Ok(())
}

#[test]
fn sixteen_arrays_are_printed(rt: HostRuntime) -> Result<(), Fail> {
    assert!(rt; is_printed_as(rt.alloc(), DEEP, DEEP)?);
    Ok(())
}
