// Each instruction, flag, type, literal, initialiser and kind of name, written in another layout than the canonical one.
use crate::text::is_printed_as;
use std::test::Fail;

const WRITTEN: &[u8] = b"@\"bit\" = global i1 -1\t@byte=constant i8 255 @short = global i16 32768
@int = global i32 -2147483648
@long = global i64 9223372036854775807 @least = global i64 9223372036854775808
@nowhere = global ptr null @where = constant ptr @\"1+1\"
@zero = global [3 x [2 x i32]] zeroinitializer
@rows = global [2 x [1 x i16]] [ [1 x i16] [ i16 65535 ],[1 x i16]zeroinitializer ]
@none = global [0 x i8] [] @listed = constant [2 x i8] [i8 104, i8 0]
@text = constant [9 x i8] c\"\\68i ~\\22\\5c\\7f\\0a\\FF\"
@far = external constant [2 x ptr]
@\"1+1\" = external global i64
declare void @nothing() declare i1 @all(i1,i8 , i16,i32,i64,ptr)
define i32 @operators(i32 %x, i32 %\"y\") {
entry:
  %v1 = add i32 %x, %y %v2 = add nuw i32 %x, 1 %v3 = add nsw i32 %x, 4294967295
  %v4 = add nuw nsw i32 %x, 2147483648
  %v5 = sub i32 %v4, 0
  %v6 = sub nuw nsw i32 %v4, %v5
  %v7 = mul nuw i32 %v6, %v6
  %v8 = shl nsw i32 %v7, 31
  %v9 = udiv i32 %v8, 3
  %v10 = udiv exact i32 %v8, 3
  %v11 = sdiv exact i32 %v8, -3
  %v12 = urem i32 %v8, 7
  %v13 = srem i32 %v8, 4294967289
  %v14 = lshr exact i32 %v8, 1
  %v15 = ashr exact i32 %v8, 1
  %v16 = and i32 %v8, %v9
  %v17 = or disjoint i32 %v16, 1
  %v18 = xor i32 %v17, -1
  ret i32 %v18
}
define void @predicates(i8 %a, ptr %p) {
  %c1 = icmp eq i8 %a, 128
  %c2 = icmp ne ptr %p, null
  %c3 = icmp ugt i8 %a, 127
  %c4 = icmp uge i8 %a, 0
  %c5 = icmp samesign ult i8 %a, 1
  %c6 = icmp ule i8 %a, 2
  %c7 = icmp sgt i8 %a, 3
  %c8 = icmp sge i8 %a, 4
  %c9 = icmp slt i8 %a, -128
  %c10 = icmp sle i8 %a, 6
  ret void
}
define ptr @others(i1 %c, i8, ptr %p, i64, i1 %\"5+5\", ptr %4) {
  %t1 = trunc i64 %1 to i32
  %t2 = trunc nuw i64 %1 to i16
  %t3 = trunc nsw i64 %1 to i8
  %t4 = trunc nuw nsw i64 %1 to i1
  %t5 = zext nneg i8 %0 to i16
  %t6 = sext i1 %c to i64
  %t7 = ptrtoint ptr @far to i32
  %t8 = freeze ptr %p
  %t9 = select i1 1, i1 0, i1 true
  %s1 = alloca i8
  %s2 = alloca [2 x [3 x i64]]
  %s3 = load i1, ptr %s1
  store ptr @operators, ptr %s2
  store i1 -1, ptr null
  %s4 = getelementptr i8, ptr %s1, i64 1
  %s5 = getelementptr nuw inbounds nusw [2 x [3 x i64]], ptr %s2, i64 0, i32 1, i8 2
  %r1 = call i32 @operators(i32 -1, i32 4294967294)
  call i32 %p(i32 1, ptr null, ptr @far, i1 1)
  notail call void @nothing()
  atomicrmw add ptr getelementptr inbounds ([7 x i64], ptr @c, i64 0, i64 6), i64 %1 monotonic
  atomicrmw add ptr getelementptr inbounds ([1 x i64], ptr @\"7x\", i64 0, i64 0), i64 -1 monotonic
  br i1 %\"5+5\", label %left, label %\"9\"
left: br label %\"join+\"
\"9\": switch i8 %0, label %\"join+\" []
\"join+\":
  %m1 = phi ptr [null,%\"left\"],[@far,%9]
  %m2 = phi i1 [ 1, %left ], [ %\"5+5\", %9 ]
  switch i1 %m2, label %-end [ i1 0, label %last i1 1, label %-end ]
-end:
  unreachable
last:
  ret ptr %m1
}
";

const PRINTED: &[u8] = b"@bit = global i1 true
@byte = constant i8 -1
@short = global i16 -32768
@int = global i32 -2147483648
@long = global i64 9223372036854775807
@least = global i64 -9223372036854775808
@nowhere = global ptr null
@where = constant ptr @\"1+1\"
@zero = global [3 x [2 x i32]] zeroinitializer
@rows = global [2 x [1 x i16]] [[1 x i16] [i16 -1], [1 x i16] zeroinitializer]
@none = global [0 x i8] []
@listed = constant [2 x i8] [i8 104, i8 0]
@text = constant [9 x i8] c\"hi ~\\22\\5C\\7F\\0A\\FF\"
@far = external constant [2 x ptr]
@\"1+1\" = external global i64

declare void @nothing()

declare i1 @all(i1, i8, i16, i32, i64, ptr)

define i32 @operators(i32 %x, i32 %y) {
entry:
  %v1 = add i32 %x, %y
  %v2 = add nuw i32 %x, 1
  %v3 = add nsw i32 %x, -1
  %v4 = add nuw nsw i32 %x, -2147483648
  %v5 = sub i32 %v4, 0
  %v6 = sub nuw nsw i32 %v4, %v5
  %v7 = mul nuw i32 %v6, %v6
  %v8 = shl nsw i32 %v7, 31
  %v9 = udiv i32 %v8, 3
  %v10 = udiv exact i32 %v8, 3
  %v11 = sdiv exact i32 %v8, -3
  %v12 = urem i32 %v8, 7
  %v13 = srem i32 %v8, -7
  %v14 = lshr exact i32 %v8, 1
  %v15 = ashr exact i32 %v8, 1
  %v16 = and i32 %v8, %v9
  %v17 = or i32 %v16, 1
  %v18 = xor i32 %v17, -1
  ret i32 %v18
}

define void @predicates(i8 %a, ptr %p) {
0:
  %c1 = icmp eq i8 %a, -128
  %c2 = icmp ne ptr %p, null
  %c3 = icmp ugt i8 %a, 127
  %c4 = icmp uge i8 %a, 0
  %c5 = icmp ult i8 %a, 1
  %c6 = icmp ule i8 %a, 2
  %c7 = icmp sgt i8 %a, 3
  %c8 = icmp sge i8 %a, 4
  %c9 = icmp slt i8 %a, -128
  %c10 = icmp sle i8 %a, 6
  ret void
}

define ptr @others(i1 %c, i8 %0, ptr %p, i64 %1, i1 %\"5+5\", ptr %4) {
3:
  %t1 = trunc i64 %1 to i32
  %t2 = trunc nuw i64 %1 to i16
  %t3 = trunc nsw i64 %1 to i8
  %t4 = trunc nuw nsw i64 %1 to i1
  %t5 = zext i8 %0 to i16
  %t6 = sext i1 %c to i64
  %t7 = ptrtoint ptr @far to i32
  %t8 = freeze ptr %p
  %t9 = select i1 true, i1 false, i1 true
  %s1 = alloca i8
  %s2 = alloca [2 x [3 x i64]]
  %s3 = load i1, ptr %s1
  store ptr @operators, ptr %s2
  store i1 true, ptr null
  %s4 = getelementptr i8, ptr %s1, i64 1
  %s5 = getelementptr inbounds [2 x [3 x i64]], ptr %s2, i64 0, i32 1, i8 2
  %r1 = call i32 @operators(i32 -1, i32 -2)
  call i32 %p(i32 1, ptr null, ptr @far, i1 true)
  call void @nothing()
  atomicrmw add ptr getelementptr inbounds ([7 x i64], ptr @c, i64 0, i64 6), i64 %1 monotonic
  atomicrmw add ptr getelementptr inbounds ([1 x i64], ptr @\"7x\", i64 0, i64 0), i64 -1 monotonic
  br i1 %\"5+5\", label %left, label %9
left:
  br label %\"join+\"
9:
  switch i8 %0, label %\"join+\" [
  ]
\"join+\":
  %m1 = phi ptr [ null, %left ], [ @far, %9 ]
  %m2 = phi i1 [ true, %left ], [ %\"5+5\", %9 ]
  switch i1 %m2, label %-end [
    i1 false, label %last
    i1 true, label %-end
  ]
-end:
  unreachable
last:
  ret ptr %m1
}
";

#[test]
fn each_instruction_is_printed(rt: HostRuntime) -> Result<(), Fail> {
    assert!(rt; is_printed_as(rt.alloc(), WRITTEN, PRINTED)?);
    assert!(rt; is_printed_as(rt.alloc(), PRINTED, PRINTED)?);
    Ok(())
}
