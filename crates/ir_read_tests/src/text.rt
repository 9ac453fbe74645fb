// A text as clang writes it.
pub(crate) const SUM: &[u8] = b"; ModuleID = 'a.c'
source_filename = \"a.c\"
target triple = \"x86_64-unknown-linux-gnu\"

; Function Attrs: nounwind uwtable
define dso_local i32 @sum(i32 noundef %0) local_unnamed_addr #0 !dbg !8 {
  %2 = icmp sgt i32 %0, 0
  br i1 %2, label %3, label %5, !dbg !9

3:                                                ; preds = %1
  %4 = add nsw i32 %0, -1, !dbg !9
  br label %5

5:                                                ; preds = %3, %1
  %6 = phi i32 [ %4, %3 ], [ 0, %1 ]
  ret i32 %6
}

attributes #0 = { nounwind uwtable \"frame-pointer\"=\"all\" }
!llvm.module.flags = !{!0}
!0 = !{i32 1, !\"wchar_size\", i32 4}
!8 = distinct !DISubprogram(name: \"sum\", line: 1)
!9 = !DILocation(line: 2, column: 3, scope: !8)
";
