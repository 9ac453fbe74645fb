// Modules with phis, read from text, and the answers that the rules give by hand.
use crate::texts::{broken, refusal};
use ir_check::CheckError;
use std::alloc::Global;
use std::test::Fail;

#[test]
fn a_loop_with_phis_is_accepted(rt: HostRuntime) -> Result<(), Fail> {
    let found = refusal(
        rt.alloc(),
        b"define i64 @f(i64 %n) {
entry:
  br label %head
head:
  %i = phi i64 [ 0, %entry ], [ %j, %body ]
  %c = icmp slt i64 %i, %n
  br i1 %c, label %body, label %done
body:
  %k = phi i64 [ %i, %head ]
  %j = add i64 %k, 1
  br label %head
done:
  %r = phi i64 [ %i, %head ]
  ret i64 %r
}
",
    )?;
    assert!(rt; found.is_none());
    Ok(())
}

// Two phis exchange their values on the edge from their own block.
#[test]
fn a_swap_is_accepted(rt: HostRuntime) -> Result<(), Fail> {
    let found = refusal(
        rt.alloc(),
        b"define i64 @f(i64 %a, i64 %b) {
entry:
  br label %head
head:
  %x = phi i64 [ %a, %entry ], [ %y, %head ]
  %y = phi i64 [ %b, %entry ], [ %x, %head ]
  %c = icmp slt i64 %x, %y
  br i1 %c, label %head, label %done
done:
  ret i64 %b
}
",
    )?;
    assert!(rt; found.is_none());
    Ok(())
}

#[test]
fn phis_stand_first_and_in_no_first_block(rt: HostRuntime) -> Result<(), Fail> {
    let alloc = rt.alloc();
    let behind = refusal(
        alloc,
        b"define i64 @f(i64 %n) {
entry:
  br label %head
head:
  %i = phi i64 [ 0, %entry ]
  %a = add i64 %n, 1
  %j = phi i64 [ 0, %entry ]
  ret i64 %j
}
",
    )?;
    assert!(rt; behind == broken(9, 0, 1, 2));
    let first = refusal(
        alloc,
        b"define i64 @f(i64 %n) { a: %x = phi i64 [ 0, %a ] ret i64 %x }",
    )?;
    assert!(rt; first == broken(9, 0, 0, 0));
    Ok(())
}

// The block `to` is entered from `entry` twice, and from the unreachable block `dead`.
const BEFORE: &[u8] = b"define i64 @f(i64 %n) {
entry:
  %c = icmp eq i64 %n, 0
  %d = add i64 %n, 1
  br i1 %c, label %to, label %to
dead:
  %e = add i64 %n, 2
  br label %to
to:
  %p = phi i64 [ 7, %entry ], [ 8, %dead ], [ 7, %entry ]
  %q = phi i64 ";

const AFTER: &[u8] = b"
  ret i64 %q
}
";

// The refusal of the module whose second phi has these entries.
fn with_entries(alloc: Global, entries: &[u8]) -> Result<Option<CheckError>, Fail> {
    let mut text = Vec::from_slice(alloc, BEFORE)?;
    text.extend_from_slice(entries)?;
    text.extend_from_slice(AFTER)?;
    refusal(alloc, text.as_slice())
}

#[test]
fn a_phi_has_an_entry_for_each_position(rt: HostRuntime) -> Result<(), Fail> {
    let alloc = rt.alloc();
    let unmatched = broken(10, 0, 2, 1);
    assert!(rt; with_entries(alloc, b"[ %d, %entry ], [ %d, %entry ], [ %e, %dead ]")?.is_none());
    assert!(rt; with_entries(alloc, b"[ %d, %entry ], [ %e, %dead ]")? == unmatched);
    assert!(rt; with_entries(alloc, b"[ %d, %entry ], [ %d, %entry ]")? == unmatched);
    assert!(rt; with_entries(alloc, b"[ 1, %entry ], [ 2, %entry ], [ 3, %dead ]")? == unmatched);
    assert!(rt; with_entries(alloc, b"[ 1, %entry ], [ 1, %entry ], [ 3, %to ]")? == unmatched);
    assert!(rt; with_entries(alloc, b"[ 1, %entry ], [ 1, %entry ], [ 3, %n ]")? == unmatched);
    Ok(())
}

#[test]
fn the_values_of_a_phi_exist_and_fit(rt: HostRuntime) -> Result<(), Fail> {
    let alloc = rt.alloc();
    let unknown = with_entries(alloc, b"[ 1, %entry ], [ 1, %entry ], [ %z, %dead ]")?;
    assert!(rt; unknown == broken(11, 0, 2, 1));
    let other_type = with_entries(alloc, b"[ %c, %entry ], [ %c, %entry ], [ 1, %dead ]")?;
    assert!(rt; other_type == broken(12, 0, 2, 1));
    let other_block = with_entries(alloc, b"[ %e, %entry ], [ %e, %entry ], [ %d, %dead ]")?;
    assert!(rt; other_block == broken(16, 0, 2, 1));
    Ok(())
}
