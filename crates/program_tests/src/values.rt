// Integers of a width, and what memory holds.
use crate::program::run;
use std::test::Fail;

const WIDTHS: &[u8] = b"define i1 @odd(i64 %n) {
  %r = trunc i64 %n to i1
  ret i1 %r
}
define i8 @low(i64 %n) {
  %r = trunc i64 %n to i8
  ret i8 %r
}
define i32 @up(i32 %a, i32 %n) {
  %r = shl i32 %a, %n
  ret i32 %r
}
define i32 @down(i32 %a, i32 %n) {
  %r = ashr i32 %a, %n
  ret i32 %r
}
define i16 @quotient(i16 %a, i16 %b) {
  %r = sdiv i16 %a, %b
  ret i16 %r
}
define i16 @rest(i16 %a, i16 %b) {
  %r = srem i16 %a, %b
  ret i16 %r
}
define i8 @half(i8 %a) {
  %r = udiv i8 %a, 2
  ret i8 %r
}
define i64 @apart(i8 %a) {
  %s = sext i8 %a to i64
  %z = zext i8 %a to i64
  %r = sub i64 %z, %s
  ret i64 %r
}
define i64 @most() {
  %r = add i64 9223372036854775807, 1
  ret i64 %r
}
";

#[test]
fn integers_are_those_of_their_width(rt: HostRuntime) -> Result<(), Fail> {
    let cases: [(&[u8], &str); 16] = [
        (b"@odd 3", "returned -1\n"),
        (b"@odd 2", "returned 0\n"),
        (b"@low 200", "returned -56\n"),
        (b"@up 1 31", "returned -2147483648\n"),
        (b"@up 1 32", "returned 0\n"),
        (b"@down -8 1", "returned -4\n"),
        (b"@down -8 31", "returned -1\n"),
        (b"@down -8 32", "returned 0\n"),
        (b"@quotient -7 2", "returned -3\n"),
        (b"@quotient 7 -2", "returned -3\n"),
        (b"@rest -7 2", "returned -1\n"),
        (b"@rest 7 -2", "returned 1\n"),
        (b"@half -1", "returned 127\n"),
        (b"@apart -1", "returned 256\n"),
        (b"@apart 127", "returned 0\n"),
        (b"@most", "returned -9223372036854775808\n"),
    ];
    for (call, line) in cases {
        let text = run(&rt, rt.alloc(), WIDTHS, call)?;
        assert!(rt; text.contains(line), "{text}");
        assert!(rt; text.ends_with("status 0\n"), "{text}");
    }
    Ok(())
}

// Function number 1 is `print_i64`, since declared ones count.
const MEMORY: &[u8] = b"@word = global i32 305419896
@zeros = global [4 x i16] zeroinitializer
@text = constant [3 x i8] c\"A\\FF\\00\"
@to = global ptr @half
define i64 @unset() {
  %p = alloca i64
  %v = load i64, ptr %p
  ret i64 %v
}
declare void @print_i64(i64)
define i8 @byte(i64 %k) {
  %p = getelementptr inbounds i8, ptr @word, i64 %k
  %v = load i8, ptr %p
  ret i8 %v
}
define i16 @half(i64 %k) {
  %p = getelementptr inbounds [2 x i16], ptr @word, i64 0, i64 %k
  %v = load i16, ptr %p
  ret i16 %v
}
define i8 @letter(i64 %k) {
  %p = getelementptr inbounds [3 x i8], ptr @text, i64 0, i64 %k
  %v = load i8, ptr %p
  ret i8 %v
}
define i1 @bit(i8 %x) {
  %p = alloca i8
  store i8 %x, ptr %p
  %v = load i1, ptr %p
  ret i1 %v
}
define i64 @pieces() {
  %v = load i64, ptr @to
  ret i64 %v
}
define i32 @second() {
  store i16 7, ptr @zeros
  %p = getelementptr inbounds [4 x i16], ptr @zeros, i64 0, i64 1
  store i16 -1, ptr %p
  %v = load i32, ptr @zeros
  ret i32 %v
}
define ptr @null() {
  %p = load ptr, ptr @zeros
  ret ptr %p
}
define ptr @place() {
  %p = getelementptr i16, ptr @zeros, i64 3
  ret ptr %p
}
define ptr @before() {
  %p = getelementptr i8, ptr null, i64 -1
  ret ptr %p
}
define i32 @cut() {
  %p = getelementptr i8, ptr @text, i64 2
  %v = ptrtoint ptr %p to i32
  ret i32 %v
}
define i1 @below() {
  %r = icmp ult ptr @unset, @byte
  ret i1 %r
}
";

// Objects lie 2^32 apart from 2^32 on, functions 16 apart from 16 on.
#[test]
fn memory_holds_bytes_and_pointers(rt: HostRuntime) -> Result<(), Fail> {
    let cases: [(&[u8], &str); 17] = [
        (b"@unset", "returned 0\n"),
        (b"@byte 0", "returned 120\n"),
        (b"@byte 3", "returned 18\n"),
        (b"@half 0", "returned 22136\n"),
        (b"@half 1", "returned 4660\n"),
        (b"@letter 0", "returned 65\n"),
        (b"@letter 1", "returned -1\n"),
        (b"@letter 2", "returned 0\n"),
        (b"@bit 3", "returned -1\n"),
        (b"@bit 2", "returned 0\n"),
        (b"@pieces", "returned 64\n"),
        (b"@second", "returned -65529\n"),
        (b"@null", "returned 0\n"),
        (b"@place", "returned 8589934598\n"),
        (b"@before", "returned 18446744073709551615\n"),
        (b"@cut", "returned 2\n"),
        (b"@below", "returned -1\n"),
    ];
    for (call, line) in cases {
        let text = run(&rt, rt.alloc(), MEMORY, call)?;
        assert!(rt; text.contains(line), "{text}");
        assert!(rt; text.ends_with("status 0\n"), "{text}");
    }
    Ok(())
}
