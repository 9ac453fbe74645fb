// For each rule on plain modules texts that break it alone, with the place, and texts just inside. The rules on phis have a file of
// their own.
use crate::texts::{broken, refusal};
use std::test::Fail;

#[test]
fn names_are_distinct(rt: HostRuntime) -> Result<(), Fail> {
    let alloc = rt.alloc();
    let functions = b"define void @f() {\ne: ret void\n}\ndefine void @f() {\ne: ret void\n}\n";
    assert!(rt; refusal(alloc, functions)? == broken(1, 1, 0, 0));
    let variables = b"@a = global i8 0\n@b = global i8 0\n@a = global i8 0\n";
    assert!(rt; refusal(alloc, variables)? == broken(1, 0, 0, 2));
    let both = b"@f = global i8 0\ndeclare void @g()\ndefine void @f() {\ne: ret void\n}\n";
    assert!(rt; refusal(alloc, both)? == broken(1, 1, 0, 0));
    let inside =
        b"@a = global i8 0\ndefine void @f() {\n1: ret void\n}\ndefine void @g() {\n1: ret void\n}\n";
    assert!(rt; refusal(alloc, inside)?.is_none());
    Ok(())
}

#[test]
fn what_is_provided_has_its_types(rt: HostRuntime) -> Result<(), Fail> {
    let alloc = rt.alloc();
    assert!(rt; refusal(alloc, b"declare void @print_i64(i32)\n")? == broken(4, 0, 0, 0));
    assert!(rt;
        refusal(
            alloc,
            b"declare void @f()\ndeclare i64 @llvm.lifetime.end.p0(ptr)\n"
        )? == broken(4, 1, 0, 0)
    );
    assert!(rt;
        refusal(
            alloc,
            b"declare void @print_i64(i64)\ndeclare void @print_i6(i32)\n"
        )?
        .is_none()
    );
    assert!(rt; refusal(alloc, b"declare void @llvm.lifetime.end.p0(i64, ptr)\n")?.is_none());
    Ok(())
}

#[test]
fn initialisers_have_their_types(rt: HostRuntime) -> Result<(), Fail> {
    let alloc = rt.alloc();
    assert!(rt;
        refusal(alloc, b"@a = global i8 0\n@b = global [3 x i8] c\"ab\"\n")? == broken(5, 0, 0, 1)
    );
    assert!(rt; refusal(alloc, b"@b = global [2 x i8] c\"ab\"\n")?.is_none());
    assert!(rt; refusal(alloc, b"@b = global [2 x i8] [i8 1]\n")? == broken(5, 0, 0, 0));
    assert!(rt; refusal(alloc, b"@b = global [1 x i8] [i8 1]\n")?.is_none());
    assert!(rt; refusal(alloc, b"@a = global i8 1\n@p = global ptr @q\n")? == broken(5, 0, 0, 1));
    assert!(rt; refusal(alloc, b"@p = global ptr @q\n@q = global ptr @p\n")?.is_none());
    assert!(rt; refusal(alloc, b"@p = global i64 null\n")? == broken(5, 0, 0, 0));
    Ok(())
}

#[test]
fn names_of_a_function_are_distinct(rt: HostRuntime) -> Result<(), Fail> {
    let alloc = rt.alloc();
    let params = b"define void @f(i64 %a, i64 %a) {\ne: ret void\n}\n";
    assert!(rt; refusal(alloc, params)? == broken(6, 0, 0, 0));
    let label = b"define void @f(i64 %a) {\ne: br label %a\na: ret void\n}\n";
    assert!(rt; refusal(alloc, label)? == broken(6, 0, 1, 0));
    let result =
        b"define void @f(i64 %a) {\ne: %b = add i64 %a, 1\n%b = add i64 %a, 2\nret void\n}\n";
    assert!(rt; refusal(alloc, result)? == broken(6, 0, 0, 1));
    let inside =
        b"define void @f(i64 %a) {\ne: %b = add i64 %a, 1\n%c = add i64 %a, 2\nret void\n}\n";
    assert!(rt; refusal(alloc, inside)?.is_none());
    Ok(())
}

#[test]
fn branches_lead_to_blocks_behind_the_first(rt: HostRuntime) -> Result<(), Fail> {
    let alloc = rt.alloc();
    assert!(rt; refusal(alloc, b"define void @f() {\ne: br label %e\n}\n")? == broken(7, 0, 0, 0));
    let unknown =
        b"define void @f(i64 %a) {\ne: br label %x\nx: %b = add i64 %a, 1\nbr label %y\n}\n";
    assert!(rt; refusal(alloc, unknown)? == broken(7, 0, 1, 1));
    let parameter = b"define void @f(i64 %a) {\ne: br label %a\n}\n";
    assert!(rt; refusal(alloc, parameter)? == broken(7, 0, 0, 0));
    assert!(rt;
        refusal(
            alloc,
            b"define void @f() {\ne: br label %x\nx: br label %x\n}\n"
        )?
        .is_none()
    );
    Ok(())
}

#[test]
fn the_values_of_a_switch_are_distinct(rt: HostRuntime) -> Result<(), Fail> {
    let alloc = rt.alloc();
    let twice =
        b"define void @f(i8 %a) {\ne: switch i8 %a, label %x [ i8 255, label %x i8 1, label %x i8 -1, label %x ]\nx: ret void\n}\n";
    assert!(rt; refusal(alloc, twice)? == broken(8, 0, 0, 0));
    let once =
        b"define void @f(i8 %a) {\ne: switch i8 %a, label %x [ i8 255, label %x i8 1, label %x i8 -2, label %x ]\nx: ret void\n}\n";
    assert!(rt; refusal(alloc, once)?.is_none());
    Ok(())
}

#[test]
fn operands_exist(rt: HostRuntime) -> Result<(), Fail> {
    let alloc = rt.alloc();
    assert!(rt; refusal(alloc, b"define i64 @f() {\ne: ret i64 %z\n}\n")? == broken(11, 0, 0, 0));
    let label = b"define i64 @f() {\ne: br label %x\nx: ret i64 %x\n}\n";
    assert!(rt; refusal(alloc, label)? == broken(11, 0, 1, 0));
    let function =
        b"define void @f(i64 %a) {\ne: %b = add i64 %a, 1\ncall void @g()\nret void\n}\n";
    assert!(rt; refusal(alloc, function)? == broken(11, 0, 0, 1));
    let inside =
        b"@v = global i64 0\ndeclare void @g()\ndefine i64 @f(i64 %a) {\ne: call void @g()\n%b = load i64, ptr @v\nret i64 %a\n}\n";
    assert!(rt; refusal(alloc, inside)?.is_none());
    Ok(())
}

#[test]
fn operands_have_the_types_of_their_places(rt: HostRuntime) -> Result<(), Fail> {
    let alloc = rt.alloc();
    let other = b"define i64 @f(i32 %a) {\ne: %b = add i64 %a, 1\nret i64 %b\n}\n";
    assert!(rt; refusal(alloc, other)? == broken(12, 0, 0, 0));
    let narrowed = b"define i64 @f(i64 %a) {\ne: %b = zext i64 %a to i64\nret i64 %b\n}\n";
    assert!(rt; refusal(alloc, narrowed)? == broken(12, 0, 0, 0));
    let returned = b"define i64 @f(i32 %a) {\ne: ret i64 %a\n}\n";
    assert!(rt; refusal(alloc, returned)? == broken(12, 0, 0, 0));
    let inside = b"define i64 @f(i32 %a) {\ne: %b = zext i32 %a to i64\nret i64 %b\n}\n";
    assert!(rt; refusal(alloc, inside)?.is_none());
    Ok(())
}

#[test]
fn calls_fit_their_callees(rt: HostRuntime) -> Result<(), Fail> {
    let alloc = rt.alloc();
    let result = b"declare i64 @g(i64)\ndefine void @f() {\ne: call void @g(i64 1)\nret void\n}\n";
    assert!(rt; refusal(alloc, result)? == broken(13, 1, 0, 0));
    let arguments =
        b"declare i64 @g(i64)\ndefine void @f() {\ne: %r = call i64 @g(i32 1)\nret void\n}\n";
    assert!(rt; refusal(alloc, arguments)? == broken(13, 1, 0, 0));
    let variable = b"@v = global i8 0\ndefine void @f() {\ne: call void @v()\nret void\n}\n";
    assert!(rt; refusal(alloc, variable)? == broken(13, 0, 0, 0));
    let inside =
        b"declare i64 @g(i64)\ndefine void @f(ptr %p) {\ne: call i64 @g(i64 1)\ncall i8 %p(i64 1)\nret void\n}\n";
    assert!(rt; refusal(alloc, inside)?.is_none());
    Ok(())
}

#[test]
fn returns_fit_their_function(rt: HostRuntime) -> Result<(), Fail> {
    let alloc = rt.alloc();
    assert!(rt; refusal(alloc, b"define i64 @f() {\ne: ret void\n}\n")? == broken(14, 0, 0, 0));
    assert!(rt;
        refusal(
            alloc,
            b"define i64 @f() {\ne: br label %x\nx: ret i32 0\n}\n"
        )? == broken(14, 0, 1, 0)
    );
    assert!(rt; refusal(alloc, b"define i64 @f() {\ne: unreachable\n}\n")?.is_none());
    Ok(())
}

#[test]
fn a_branch_has_two_weights(rt: HostRuntime) -> Result<(), Fail> {
    let alloc = rt.alloc();
    let one =
        b"define void @f(i1 %c) {\ne: br i1 %c, label %x, label %x, !prof !0\nx: ret void\n}\n!0 = !{!\"branch_weights\", i32 1}\n";
    assert!(rt; refusal(alloc, one)? == broken(15, 0, 0, 0));
    let two =
        b"define void @f(i1 %c) {\ne: br i1 %c, label %x, label %x, !prof !0\nx: ret void\n}\n!0 = !{!\"branch_weights\", i32 1, i32 2}\n";
    assert!(rt; refusal(alloc, two)?.is_none());
    Ok(())
}

#[test]
fn registers_are_assigned_on_every_walk(rt: HostRuntime) -> Result<(), Fail> {
    let alloc = rt.alloc();
    let past =
        b"define i64 @f(i64 %a, i1 %c) {\ne: br i1 %c, label %low, label %done\nlow: %b = add i64 %a, 1\nbr label %done\ndone: ret i64 %b\n}\n";
    assert!(rt; refusal(alloc, past)? == broken(16, 0, 2, 0));
    let through =
        b"define i64 @f(i64 %a, i1 %c) {\ne: br i1 %c, label %low, label %low\nlow: %b = add i64 %a, 1\nbr label %done\ndone: ret i64 %b\n}\n";
    assert!(rt; refusal(alloc, through)?.is_none());
    let behind =
        b"define i64 @f(i64 %a) {\ne: %b = add i64 %c, 1\n%c = add i64 %a, 1\nret i64 %b\n}\n";
    assert!(rt; refusal(alloc, behind)? == broken(16, 0, 0, 0));
    let nowhere =
        b"define i64 @f(i64 %a) {\ne: ret i64 %a\nu: ret i64 %x\nw: %x = add i64 %a, 1\nret i64 %x\n}\n";
    assert!(rt; refusal(alloc, nowhere)?.is_none());
    Ok(())
}

// Of the functions' faults that of the lowest rule is told, and the earlier one of two.
#[test]
fn the_lowest_rule_is_told(rt: HostRuntime) -> Result<(), Fail> {
    let alloc = rt.alloc();
    let later =
        b"define i64 @f() {\ne: ret void\n}\ndefine i64 @g() {\ne: ret i64 %z\n}\ndefine i64 @h() {\ne: ret i64 %z\n}\n";
    assert!(rt; refusal(alloc, later)? == broken(11, 1, 0, 0));
    let named = b"define void @f() {\ne: br label %e\n}\n@a = global ptr @b\n";
    assert!(rt; refusal(alloc, named)? == broken(5, 0, 0, 0));
    Ok(())
}
