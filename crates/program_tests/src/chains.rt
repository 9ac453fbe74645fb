// How often each edge is walked, as `chain` reports it.
use crate::program::{chain, check};
use std::test::Fail;

const SWITCH: &[u8] = b"define void @s(i64 %x) {
entry:
  switch i64 %x, label %d [
    i64 0, label %d
    i64 1, label %d
    i64 2, label %d
  ]
d:
  ret void
}
";

#[test]
fn cases_to_one_block_have_edges_of_their_own(rt: HostRuntime) -> Result<(), Fail> {
    assert_eq!(rt;
        chain(&rt, rt.alloc(), SWITCH, b"@s 1\n")?.as_str(),
        "call 0 @s
returned
function @s solved
edge 0 - %entry 1
edge 1 %entry %d 0
edge 2 %entry %d 0
edge 3 %entry %d 1
edge 4 %entry %d 0
edge 5 %d - 1
status 0
"
    );
    Ok(())
}

const WAYS: &[u8] = b"define i64 @w(i64 %x) {
entry:
  switch i64 %x, label %d [
    i64 0, label %a
    i64 1, label %b
  ]
a:
  ret i64 10
b:
  ret i64 20
d:
  ret i64 30
}
";

#[test]
fn a_switch_leads_to_its_case_or_its_default(rt: HostRuntime) -> Result<(), Fail> {
    let text = chain(&rt, rt.alloc(), WAYS, b"@w 1\n@w 1\n@w 5\n@w 1\n")?;
    assert_eq!(rt;
        text.as_str(),
        "call 0 @w
returned 20
call 1 @w
returned 20
call 2 @w
returned 30
call 3 @w
returned 20
function @w solved
edge 0 - %entry 4
edge 1 %entry %d 1
edge 2 %entry %a 0
edge 3 %entry %b 3
edge 4 %a - 0
edge 5 %b - 3
edge 6 %d - 1
status 0
"
    );
    Ok(())
}

const PARALLEL: &[u8] = b"define i64 @p(i1 %c) {
entry:
  br i1 %c, label %j, label %j
j:
  %x = phi i64 [ 7, %entry ], [ 7, %entry ]
  ret i64 %x
}
";

#[test]
fn both_ways_of_a_branch_may_lead_to_one_block(rt: HostRuntime) -> Result<(), Fail> {
    assert_eq!(rt;
        chain(&rt, rt.alloc(), PARALLEL, b"@p 1\n")?.as_str(),
        "call 0 @p
returned 7
function @p solved
edge 0 - %entry 1
edge 1 %entry %j 1
edge 2 %entry %j 0
edge 3 %j - 1
status 0
"
    );
    Ok(())
}

const GUARDED: &[u8] = b"define i64 @h(i64 %n) {
entry:
  %c = icmp eq i64 %n, 0
  br i1 %c, label %bad, label %good
bad:
  unreachable
good:
  ret i64 %n
}
";

#[test]
fn unreachable_leaves_the_function(rt: HostRuntime) -> Result<(), Fail> {
    let alloc = rt.alloc();
    assert_eq!(rt;
        chain(&rt, alloc, GUARDED, b"@h 4\n")?.as_str(),
        "call 0 @h
returned 4
function @h solved
edge 0 - %entry 1
edge 1 %entry %bad 0
edge 2 %entry %good 1
edge 3 %bad - 0
edge 4 %good - 1
status 0
"
    );
    assert_eq!(rt;
        chain(&rt, alloc, GUARDED, b"@h 4\n@h 0\n")?.as_str(),
        "call 0 @h
returned 4
call 1 @h
trapped unreachable
pgo: call 1 trapped unreachable
status 3
"
    );
    Ok(())
}

// The second block's registers are never assigned, and no walk comes to it.
const DEAD: &[u8] = b"define void @f() {
entry:
  ret void
dead:
  %b = add i64 %a, 1
  %a = add i64 %b, 1
  br label %dead
}
";

#[test]
fn a_block_that_nothing_leads_to_has_no_edge(rt: HostRuntime) -> Result<(), Fail> {
    let alloc = rt.alloc();
    assert_eq!(rt; check(&rt, alloc, DEAD)?.as_str(), "plain\nstatus 0\n");
    assert_eq!(rt;
        chain(&rt, alloc, DEAD, b"@f\n")?.as_str(),
        "call 0 @f
returned
function @f solved
edge 0 - %entry 1
edge 1 %entry - 1
status 0
"
    );
    Ok(())
}

// Of two functions the first calls itself, and the other calls it through its address.
const CALLERS: &[u8] = b"define i64 @d(i64 %n) {
entry:
  %c = icmp eq i64 %n, 0
  br i1 %c, label %last, label %more
last:
  ret i64 0
more:
  %m = sub i64 %n, 1
  %r = call i64 @d(i64 %m)
  ret i64 %r
}
define i64 @twice(i64 %n) {
entry:
  %f = select i1 true, ptr @d, ptr null
  %a = call i64 %f(i64 %n)
  %b = call i64 @d(i64 %n)
  ret i64 %b
}
";

#[test]
fn walks_of_called_functions_are_counted(rt: HostRuntime) -> Result<(), Fail> {
    assert_eq!(rt;
        chain(&rt, rt.alloc(), CALLERS, b"@d 3\n@twice 1\n")?.as_str(),
        "call 0 @d
returned 0
call 1 @twice
returned 0
function @d solved
edge 0 - %entry 8
edge 1 %entry %last 3
edge 2 %entry %more 5
edge 3 %last - 3
edge 4 %more - 5
function @twice solved
edge 0 - %entry 1
edge 1 %entry - 1
status 0
"
    );
    Ok(())
}
