// The counters of edges, where they stand and which edges have them. Trees and places are worked by hand, and hashes are those of
// another program.
use crate::text::counted;
use std::test::Fail;

const SINGLE: &[u8] = b"define void @v() {
entry:
  ret void
}
";

const SINGLE_COUNTED: &str = "@__profn_v = constant [1 x i8] c\"v\"

define void @v() {
entry:
  call void @llvm.instrprof.increment(ptr @__profn_v, i64 4042501815599933724, i32 1, i32 0)
  ret void
}

declare void @llvm.instrprof.increment(ptr, i64, i32, i32)

declare void @llvm.instrprof.value.profile(ptr, i64, i64, i32, i32)
";

#[test]
fn the_way_out_of_a_single_block_is_counted(rt: HostRuntime) -> Result<(), Fail> {
    assert_eq!(rt;
        counted(rt.alloc(), SINGLE, false)?.as_str(),
        SINGLE_COUNTED
    );
    Ok(())
}

const PARALLEL: &[u8] = b"define i64 @p(i1 %c) {
entry:
  br i1 %c, label %j, label %j
j:
  %x = phi i64 [ 7, %entry ], [ 7, %entry ]
  ret i64 %x
}
";

const PARALLEL_COUNTED: &str = "@__profn_p = constant [1 x i8] c\"p\"

define i64 @p(i1 %c) {
entry:
  br i1 %c, label %j, label %pgo.edge.2
pgo.edge.2:
  call void @llvm.instrprof.increment(ptr @__profn_p, i64 -1291347784060061606, i32 2, i32 0)
  br label %j
j:
  %x = phi i64 [ 7, %pgo.edge.2 ], [ 7, %entry ]
  call void @llvm.instrprof.increment(ptr @__profn_p, i64 -1291347784060061606, i32 2, i32 1)
  ret i64 %x
}

declare void @llvm.instrprof.increment(ptr, i64, i32, i32)

declare void @llvm.instrprof.value.profile(ptr, i64, i64, i32, i32)
";

#[test]
fn of_two_parallel_edges_the_second_is_split(rt: HostRuntime) -> Result<(), Fail> {
    assert_eq!(rt;
        counted(rt.alloc(), PARALLEL, false)?.as_str(),
        PARALLEL_COUNTED
    );
    Ok(())
}

const SWITCH: &[u8] = b"define i64 @s(i64 %x) {
entry:
  switch i64 %x, label %d [
    i64 0, label %d
    i64 1, label %d
    i64 2, label %d
  ]
d:
  %r = phi i64 [ 5, %entry ], [ 5, %entry ], [ 5, %entry ], [ 5, %entry ]
  %t = phi i64 [ %x, %entry ], [ %x, %entry ], [ %x, %entry ], [ %x, %entry ]
  %u = add i64 %r, %t
  ret i64 %u
}
";

const SWITCH_COUNTED: &str = "@__profn_s = constant [1 x i8] c\"s\"

define i64 @s(i64 %x) {
entry:
  switch i64 %x, label %d [
    i64 0, label %pgo.edge.2
    i64 1, label %pgo.edge.3
    i64 2, label %pgo.edge.4
  ]
pgo.edge.2:
  call void @llvm.instrprof.increment(ptr @__profn_s, i64 3465782557901949484, i32 4, i32 0)
  br label %d
pgo.edge.3:
  call void @llvm.instrprof.increment(ptr @__profn_s, i64 3465782557901949484, i32 4, i32 1)
  br label %d
pgo.edge.4:
  call void @llvm.instrprof.increment(ptr @__profn_s, i64 3465782557901949484, i32 4, i32 2)
  br label %d
d:
  %r = phi i64 [ 5, %pgo.edge.2 ], [ 5, %pgo.edge.3 ], [ 5, %pgo.edge.4 ], [ 5, %entry ]
  %t = phi i64 [ %x, %pgo.edge.2 ], [ %x, %pgo.edge.3 ], [ %x, %pgo.edge.4 ], [ %x, %entry ]
  %u = add i64 %r, %t
  call void @llvm.instrprof.increment(ptr @__profn_s, i64 3465782557901949484, i32 4, i32 3)
  ret i64 %u
}

declare void @llvm.instrprof.increment(ptr, i64, i32, i32)

declare void @llvm.instrprof.value.profile(ptr, i64, i64, i32, i32)
";

// The first entry that is still the switch's is renamed for each case, in the order of the edges.
#[test]
fn each_case_to_one_block_has_an_entry_renamed(rt: HostRuntime) -> Result<(), Fail> {
    assert_eq!(rt;
        counted(rt.alloc(), SWITCH, false)?.as_str(),
        SWITCH_COUNTED
    );
    Ok(())
}

const LOOP: &[u8] = b"define i64 @f(i64 %n) {
entry:
  br label %head
head:
  %i = phi i64 [ 0, %entry ], [ %j, %body ]
  %c = icmp slt i64 %i, %n
  br i1 %c, label %body, label %done
body:
  %k = phi i64 [ %i, %head ]
  %j = add i64 %k, 1
  br label %head
done:
  %r = phi i64 [ %i, %head ]
  ret i64 %r
}
";

const LOOP_COUNTED: &str = "@__profn_f = constant [1 x i8] c\"f\"

define i64 @f(i64 %n) {
entry:
  br label %head
head:
  %i = phi i64 [ 0, %entry ], [ %j, %body ]
  %c = icmp slt i64 %i, %n
  br i1 %c, label %body, label %done
body:
  %k = phi i64 [ %i, %head ]
  call void @llvm.instrprof.increment(ptr @__profn_f, i64 -1387460194071757602, i32 2, i32 0)
  %j = add i64 %k, 1
  br label %head
done:
  %r = phi i64 [ %i, %head ]
  call void @llvm.instrprof.increment(ptr @__profn_f, i64 -1387460194071757602, i32 2, i32 1)
  ret i64 %r
}

declare void @llvm.instrprof.increment(ptr, i64, i32, i32)

declare void @llvm.instrprof.value.profile(ptr, i64, i64, i32, i32)
";

const LOOP_COUNTED_FROM_ITS_ENTRY: &str = "@__profn_f = constant [1 x i8] c\"f\"

define i64 @f(i64 %n) {
entry:
  call void @llvm.instrprof.increment(ptr @__profn_f, i64 8800037394803806888, i32 2, i32 0)
  br label %head
head:
  %i = phi i64 [ 0, %entry ], [ %j, %body ]
  %c = icmp slt i64 %i, %n
  br i1 %c, label %body, label %done
body:
  %k = phi i64 [ %i, %head ]
  call void @llvm.instrprof.increment(ptr @__profn_f, i64 8800037394803806888, i32 2, i32 1)
  %j = add i64 %k, 1
  br label %head
done:
  %r = phi i64 [ %i, %head ]
  ret i64 %r
}

declare void @llvm.instrprof.increment(ptr, i64, i32, i32)

declare void @llvm.instrprof.value.profile(ptr, i64, i64, i32, i32)
";

#[test]
fn a_counter_stands_behind_the_phis_or_at_the_entry(rt: HostRuntime) -> Result<(), Fail> {
    let alloc = rt.alloc();
    assert_eq!(rt; counted(alloc, LOOP, false)?.as_str(), LOOP_COUNTED);
    assert_eq!(rt;
        counted(alloc, LOOP, true)?.as_str(),
        LOOP_COUNTED_FROM_ITS_ENTRY
    );
    Ok(())
}

const SPIN: &[u8] = b"define void @spin() {
entry:
  br label %a
a:
  br label %a
}
";

const SPIN_COUNTED: &str = "@__profn_spin = constant [4 x i8] c\"spin\"

define void @spin() {
entry:
  br label %a
a:
  call void @llvm.instrprof.increment(ptr @__profn_spin, i64 -3965335260841394164, i32 1, i32 0)
  br label %a
}

declare void @llvm.instrprof.increment(ptr, i64, i32, i32)

declare void @llvm.instrprof.value.profile(ptr, i64, i64, i32, i32)
";

const SPIN_COUNTED_FROM_ITS_ENTRY: &str = "@__profn_spin = constant [4 x i8] c\"spin\"

define void @spin() {
entry:
  call void @llvm.instrprof.increment(ptr @__profn_spin, i64 5371293670743295992, i32 2, i32 0)
  br label %a
a:
  call void @llvm.instrprof.increment(ptr @__profn_spin, i64 5371293670743295992, i32 2, i32 1)
  br label %a
}

declare void @llvm.instrprof.increment(ptr, i64, i32, i32)

declare void @llvm.instrprof.value.profile(ptr, i64, i64, i32, i32)
";

// No edge leads out, so the one into the function is in the tree; it has a counter all the same where the entry is counted first.
#[test]
fn the_entry_of_an_endless_function_is_counted_where_it_comes_first(
    rt: HostRuntime,
) -> Result<(), Fail> {
    let alloc = rt.alloc();
    assert_eq!(rt; counted(alloc, SPIN, false)?.as_str(), SPIN_COUNTED);
    assert_eq!(rt;
        counted(alloc, SPIN, true)?.as_str(),
        SPIN_COUNTED_FROM_ITS_ENTRY
    );
    Ok(())
}

const AROUND: &[u8] = b"define i64 @g(i64 %n) {
entry:
  br label %head
head:
  %i = phi i64 [ 0, %entry ], [ %j, %head ]
  %j = add i64 %i, 1
  %c = icmp slt i64 %j, %n
  br i1 %c, label %head, label %done, !prof !0
done:
  ret i64 %j
}

!0 = !{!\"branch_weights\", i32 9, i32 1}
";

const AROUND_COUNTED: &str = "@__profn_g = constant [1 x i8] c\"g\"

define i64 @g(i64 %n) {
entry:
  br label %head
head:
  %i = phi i64 [ 0, %entry ], [ %j, %pgo.edge.2 ]
  %j = add i64 %i, 1
  %c = icmp slt i64 %j, %n
  br i1 %c, label %pgo.edge.2, label %done, !prof !0
pgo.edge.2:
  call void @llvm.instrprof.increment(ptr @__profn_g, i64 -2164477076450787537, i32 2, i32 0)
  br label %head
done:
  call void @llvm.instrprof.increment(ptr @__profn_g, i64 -2164477076450787537, i32 2, i32 1)
  ret i64 %j
}

declare void @llvm.instrprof.increment(ptr, i64, i32, i32)

declare void @llvm.instrprof.value.profile(ptr, i64, i64, i32, i32)

!0 = !{!\"branch_weights\", i32 9, i32 1}
";

// The block is on the edge from the loop to itself, and stands behind it; the branch keeps its note.
#[test]
fn the_edge_back_to_its_own_block_is_split(rt: HostRuntime) -> Result<(), Fail> {
    assert_eq!(rt;
        counted(rt.alloc(), AROUND, false)?.as_str(),
        AROUND_COUNTED
    );
    Ok(())
}
