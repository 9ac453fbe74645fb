// Texts as clang writes them.

// With notes for a debugger.
pub(crate) const SUM: &[u8] = b"; ModuleID = 'a.c'
source_filename = \"a.c\"
target triple = \"x86_64-unknown-linux-gnu\"

; Function Attrs: nounwind uwtable
define dso_local i32 @sum(i32 noundef %0) local_unnamed_addr #0 !dbg !8 {
  %2 = icmp sgt i32 %0, 0
  br i1 %2, label %3, label %5, !dbg !9

3:                                                ; preds = %1
  %4 = add nsw i32 %0, -1, !dbg !9
  br label %5

5:                                                ; preds = %3, %1
  %6 = phi i32 [ %4, %3 ], [ 0, %1 ]
  ret i32 %6
}

attributes #0 = { nounwind uwtable \"frame-pointer\"=\"all\" }
!llvm.module.flags = !{!0}
!0 = !{i32 1, !\"wchar_size\", i32 4}
!8 = distinct !DISubprogram(name: \"sum\", line: 1)
!9 = !DILocation(line: 2, column: 3, scope: !8)
";

// Its canonical text, and the status behind it.
pub(crate) const SUM_PRINTED: &str = "define i32 @sum(i32 %0) {
1:
  %2 = icmp sgt i32 %0, 0
  br i1 %2, label %3, label %5
3:
  %4 = add nsw i32 %0, -1
  br label %5
5:
  %6 = phi i32 [ %4, %3 ], [ 0, %1 ]
  ret i32 %6
}
status 0
";

// Of C functions at -O1: a greatest common divisor, the steps of a sequence, a sum over tables of numbers and of functions, a
// choice among letters, and bits in the other order.
pub(crate) const NUMBERS: &[u8] = b"; ModuleID = 'numbers.c'
source_filename = \"numbers.c\"
target datalayout = \"e-m:e-p270:32:32-p271:32:32-p272:64:64-i64:64-f80:128-n8:16:32:64-S128\"
target triple = \"x86_64-pc-linux-gnu\"

@shapes = internal unnamed_addr constant [2 x ptr] [ptr @twice, ptr @square], align 16
@steps = internal unnamed_addr constant [4 x i32] [i32 1, i32 -2, i32 3, i32 5], align 16

; Function Attrs: mustprogress nofree norecurse nosync nounwind readnone uwtable willreturn
define dso_local i64 @twice(i64 noundef %0) #0 {
  %2 = shl nsw i64 %0, 1
  ret i64 %2
}

; Function Attrs: mustprogress nofree norecurse nosync nounwind readnone uwtable willreturn
define dso_local i64 @square(i64 noundef %0) #0 {
  %2 = mul nsw i64 %0, %0
  ret i64 %2
}

; Function Attrs: nofree norecurse nosync nounwind readnone uwtable
define dso_local i32 @gcd(i32 noundef %0, i32 noundef %1) local_unnamed_addr #1 {
  %3 = icmp eq i32 %1, 0
  br i1 %3, label %9, label %4

4:                                                ; preds = %4, %2
  %5 = phi i32 [ %6, %4 ], [ %0, %2 ]
  %6 = phi i32 [ %7, %4 ], [ %1, %2 ]
  %7 = urem i32 %5, %6
  %8 = icmp eq i32 %7, 0
  br i1 %8, label %9, label %4, !llvm.loop !5

9:                                                ; preds = %4, %2
  %10 = phi i32 [ %0, %2 ], [ %6, %4 ]
  ret i32 %10
}

; Function Attrs: nofree norecurse nosync nounwind readnone uwtable
define dso_local i32 @collatz(i64 noundef %0) local_unnamed_addr #1 {
  %2 = icmp eq i64 %0, 1
  br i1 %2, label %17, label %3

3:                                                ; preds = %13, %1
  %4 = phi i32 [ %15, %13 ], [ 0, %1 ]
  %5 = phi i64 [ %14, %13 ], [ %0, %1 ]
  %6 = and i64 %5, 1
  %7 = icmp eq i64 %6, 0
  br i1 %7, label %8, label %10

8:                                                ; preds = %3
  %9 = sdiv i64 %5, 2
  br label %13

10:                                               ; preds = %3
  %11 = mul nsw i64 %5, 3
  %12 = add nsw i64 %11, 1
  br label %13

13:                                               ; preds = %10, %8
  %14 = phi i64 [ %9, %8 ], [ %12, %10 ]
  %15 = add nuw nsw i32 %4, 1
  %16 = icmp eq i64 %14, 1
  br i1 %16, label %17, label %3, !llvm.loop !8

17:                                               ; preds = %13, %1
  %18 = phi i32 [ 0, %1 ], [ %15, %13 ]
  ret i32 %18
}

; Function Attrs: nounwind uwtable
define dso_local i64 @walk(i32 noundef %0, i32 noundef %1) local_unnamed_addr #2 {
  %3 = icmp slt i32 %0, %1
  br i1 %3, label %6, label %4

4:                                                ; preds = %6, %2
  %5 = phi i64 [ 0, %2 ], [ %19, %6 ]
  ret i64 %5

6:                                                ; preds = %6, %2
  %7 = phi i32 [ %20, %6 ], [ %0, %2 ]
  %8 = phi i64 [ %19, %6 ], [ 0, %2 ]
  %9 = and i32 %7, 1
  %10 = zext i32 %9 to i64
  %11 = getelementptr inbounds [2 x ptr], ptr @shapes, i64 0, i64 %10
  %12 = load ptr, ptr %11, align 8, !tbaa !9
  %13 = and i32 %7, 3
  %14 = zext i32 %13 to i64
  %15 = getelementptr inbounds [4 x i32], ptr @steps, i64 0, i64 %14
  %16 = load i32, ptr %15, align 4, !tbaa !13
  %17 = sext i32 %16 to i64
  %18 = call i64 %12(i64 noundef %17) #4
  %19 = add nsw i64 %18, %8
  call void @print_i64(i64 noundef %19) #4
  %20 = add i32 %7, 1
  %21 = icmp eq i32 %20, %1
  br i1 %21, label %4, label %6, !llvm.loop !15
}

declare void @print_i64(i64 noundef) local_unnamed_addr #3

; Function Attrs: mustprogress nofree norecurse nosync nounwind readnone uwtable willreturn
define dso_local signext i8 @kind(i32 noundef %0) local_unnamed_addr #0 {
  switch i32 %0, label %3 [
    i32 97, label %7
    i32 101, label %7
    i32 105, label %7
    i32 111, label %7
    i32 117, label %7
    i32 32, label %2
  ]

2:                                                ; preds = %1
  br label %7

3:                                                ; preds = %1
  %4 = add i32 %0, -48
  %5 = icmp ult i32 %4, 10
  %6 = select i1 %5, i8 2, i8 0
  br label %7

7:                                                ; preds = %3, %2, %1, %1, %1, %1, %1
  %8 = phi i8 [ %6, %3 ], [ -3, %2 ], [ 1, %1 ], [ 1, %1 ], [ 1, %1 ], [ 1, %1 ], [ 1, %1 ]
  ret i8 %8
}

; Function Attrs: nofree norecurse nosync nounwind readnone uwtable
define dso_local signext i16 @reversed(i16 noundef zeroext %0) local_unnamed_addr #1 {
  br label %3

2:                                                ; preds = %3
  ret i16 %9

3:                                                ; preds = %3, %1
  %4 = phi i32 [ 0, %1 ], [ %11, %3 ]
  %5 = phi i16 [ 0, %1 ], [ %9, %3 ]
  %6 = phi i16 [ %0, %1 ], [ %10, %3 ]
  %7 = shl i16 %5, 1
  %8 = and i16 %6, 1
  %9 = or i16 %7, %8
  %10 = lshr i16 %6, 1
  %11 = add nuw nsw i32 %4, 1
  %12 = icmp eq i32 %11, 16
  br i1 %12, label %2, label %3, !llvm.loop !16
}

attributes #0 = { mustprogress nofree norecurse nosync nounwind readnone uwtable willreturn \"frame-pointer\"=\"none\" \"min-legal-vector-width\"=\"0\" \"no-trapping-math\"=\"true\" \"stack-protector-buffer-size\"=\"8\" \"target-cpu\"=\"x86-64\" \"target-features\"=\"+cx8,+fxsr,+mmx,+sse,+sse2,+x87\" \"tune-cpu\"=\"generic\" }
attributes #1 = { nofree norecurse nosync nounwind readnone uwtable \"frame-pointer\"=\"none\" \"min-legal-vector-width\"=\"0\" \"no-trapping-math\"=\"true\" \"stack-protector-buffer-size\"=\"8\" \"target-cpu\"=\"x86-64\" \"target-features\"=\"+cx8,+fxsr,+mmx,+sse,+sse2,+x87\" \"tune-cpu\"=\"generic\" }
attributes #2 = { nounwind uwtable \"frame-pointer\"=\"none\" \"min-legal-vector-width\"=\"0\" \"no-trapping-math\"=\"true\" \"stack-protector-buffer-size\"=\"8\" \"target-cpu\"=\"x86-64\" \"target-features\"=\"+cx8,+fxsr,+mmx,+sse,+sse2,+x87\" \"tune-cpu\"=\"generic\" }
attributes #3 = { \"frame-pointer\"=\"none\" \"no-trapping-math\"=\"true\" \"stack-protector-buffer-size\"=\"8\" \"target-cpu\"=\"x86-64\" \"target-features\"=\"+cx8,+fxsr,+mmx,+sse,+sse2,+x87\" \"tune-cpu\"=\"generic\" }
attributes #4 = { nounwind }

!llvm.module.flags = !{!0, !1, !2, !3}
!llvm.ident = !{!4}

!0 = !{i32 1, !\"wchar_size\", i32 4}
!1 = !{i32 7, !\"PIC Level\", i32 2}
!2 = !{i32 7, !\"PIE Level\", i32 2}
!3 = !{i32 7, !\"uwtable\", i32 1}
!4 = !{!\"Debian clang version 14.0.6\"}
!5 = distinct !{!5, !6, !7}
!6 = !{!\"llvm.loop.mustprogress\"}
!7 = !{!\"llvm.loop.unroll.disable\"}
!8 = distinct !{!8, !6, !7}
!9 = !{!10, !10, i64 0}
!10 = !{!\"any pointer\", !11, i64 0}
!11 = !{!\"omnipotent char\", !12, i64 0}
!12 = !{!\"Simple C/C++ TBAA\"}
!13 = !{!14, !14, i64 0}
!14 = !{!\"int\", !11, i64 0}
!15 = distinct !{!15, !6, !7}
!16 = distinct !{!16, !6, !7}
";
