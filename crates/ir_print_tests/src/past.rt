// Each part, word and attribute that is read past is printed by no byte.
use crate::text::is_printed_as;
use std::test::Fail;

const WRITTEN: &[u8] = b"; ModuleID = 'a.c' \"
source_filename = \"a.c\"
target datalayout = \"e-m:e-i64:64\"
target triple = \"x86_64-pc-linux-gnu\"
$k = comdat any
one = comdat largest
@a = private internal available_externally linkonce weak common appending extern_weak linkonce_odr weak_odr dso_local dso_preemptable default hidden protected unnamed_addr local_unnamed_addr ccc fastcc coldcc global i8 1, align 16, section \".data\", comdat, !dbg !0, align 8
@b = extern_weak dso_local external constant i8, align 1
declare private external internal available_externally linkonce weak common appending extern_weak linkonce_odr weak_odr dso_local dso_preemptable default hidden protected unnamed_addr local_unnamed_addr ccc fastcc coldcc zeroext signext inreg noundef nocapture noalias nonnull readonly readnone writeonly returned immarg nofree nosync align 8 dereferenceable(8) dereferenceable_or_null(4) captures(ret: address) range(i32 -1, 5) void @f(ptr zeroext signext inreg noundef nocapture noalias nonnull readonly readnone writeonly returned immarg nofree nosync align 8 dereferenceable(8) dereferenceable_or_null(4) captures(none) range(i32 (0), [5], {6})) unnamed_addr local_unnamed_addr nounwind noinline alwaysinline optnone uwtable norecurse willreturn mustprogress cold hot noreturn nofree nosync readnone readonly minsize optsize ssp sspstrong sspreq nocallback memory(argmem: read, inaccessiblemem: none) section \".text\" comdat align 16 #0 \"alone\" \"key\"=\"value\"
two = comdat nodeduplicate
define dso_local noundef zeroext i8 @g(i8 noundef signext %x, ptr nocapture readonly align 4 %p) local_unnamed_addr nounwind #1 #2 \"probe\"=\"inline\" memory(none) comdat section \".t\" align 32 !dbg !2 !type !0 {
  %v = add i8 %x, 1, !dbg !0, !annotation !1
  %w = zext nneg i8 %x to i16, !dbg !0
  %o = or disjoint i8 %x, 1, !dbg !0
  %c = icmp samesign slt i8 %v, %o, !dbg !0
  %t = trunc i16 %w to i8, !dbg !0
  %z = freeze i8 %t, !dbg !0
  %s = select i1 %c, i8 %v, i8 %o, !unpredictable !1, !dbg !0
  %m = alloca [4 x i8], align 4, !dbg !0, align 8
  %e = getelementptr inbounds nuw [4 x i8], ptr %m, i64 0, i64 1, !dbg !0
  %l = load i8, ptr %e, align 1, !tbaa !0, !dbg !0
  store i8 %l, ptr %p, align 1, !tbaa !0
  %n = tail call fastcc noundef zeroext range(i8 0, 9) i8 @g(i8 noundef signext %s, ptr nonnull align 4 dereferenceable(4) %m) nounwind willreturn #2 \"tag\"=\"1\" memory(read), !dbg !0
  notail call coldcc void @f(ptr noundef readnone %p) cold noreturn #0, !dbg !0, !srcloc !1
  call void @f(ptr captures(none) null) \"only\", !dbg !0
  atomicrmw add ptr getelementptr inbounds ([2 x i64], ptr @counts, i64 0, i64 1), i64 1 monotonic, align 8, !dbg !0
  br i1 %c, label %a, label %b, !dbg !0, !llvm.loop !4
a:                                                ; preds = %2
  %q = phi i8 [ %v, %2 ], !dbg !0
  switch i8 %q, label %b [
    i8 1, label %b
  ], !dbg !0
b:
  ret i8 0, !dbg !0 ; \"
}
attributes #0 = { nounwind \"frame-pointer\"=\"none\" memory(none) }
attributes #1 = { }
!llvm.module.flags = !{!0, !1}
!0 = !{i32 1, !\"wchar_size\", i32 4}
!1 = distinct !{!1, !{}, [null], (2)}
!2 = !DISubroutineType(types: !0)
!3 = distinct !DISubprogram(name: \"g\", flags: DIFlagPrototyped | DIFlagPublic, line: 7)
!4 = distinct !{!4}
";

const PRINTED: &[u8] = b"@a = global i8 1
@b = external constant i8

declare void @f(ptr)

define i8 @g(i8 %x, ptr %p) {
0:
  %v = add i8 %x, 1
  %w = zext i8 %x to i16
  %o = or i8 %x, 1
  %c = icmp slt i8 %v, %o
  %t = trunc i16 %w to i8
  %z = freeze i8 %t
  %s = select i1 %c, i8 %v, i8 %o
  %m = alloca [4 x i8]
  %e = getelementptr inbounds [4 x i8], ptr %m, i64 0, i64 1
  %l = load i8, ptr %e
  store i8 %l, ptr %p
  %n = call i8 @g(i8 %s, ptr %m)
  call void @f(ptr %p)
  call void @f(ptr null)
  atomicrmw add ptr getelementptr inbounds ([2 x i64], ptr @counts, i64 0, i64 1), i64 1 monotonic
  br i1 %c, label %a, label %b
a:
  %q = phi i8 [ %v, %2 ]
  switch i8 %q, label %b [
    i8 1, label %b
  ]
b:
  ret i8 0
}
";

#[test]
fn what_is_read_past_is_not_printed(rt: HostRuntime) -> Result<(), Fail> {
    assert!(rt; is_printed_as(rt.alloc(), WRITTEN, PRINTED)?);
    assert!(rt; is_printed_as(rt.alloc(), PRINTED, PRINTED)?);
    Ok(())
}
