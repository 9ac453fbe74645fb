// The commands that write a module, over stores and sinks in memory.
use super::*;
use pgo_base::{MemoryStore, NeverSink, QuietGate};
use std::alloc::Global;
use std::test::Fail;
use std::thread::Threads;

#[derive(Drop)]
struct Ended {
    status: Status,
    store: MemoryStore,
    out: NeverSink,
    err: NeverSink,
}

// What these words end with, where the file `m.ll` holds this module; the store's calls of these numbers fail.
fn ended_by<R: Threads + Sync>(
    rt: &R,
    alloc: Global,
    words: &[&str],
    module: &[u8],
    failing: Vec<u64>,
) -> Result<Ended, Fail> {
    let mut list = Vec::new(alloc);
    for word in words {
        list.push(String::from_str(alloc, word)?)?;
    }
    let mut files = Vec::new(alloc);
    files.push((String::from_str(alloc, "m.ll")?, module.to_vec(alloc)?))?;
    let mut store = MemoryStore::new(alloc, files, failing)?;
    let mut out = NeverSink::new(alloc)?;
    let mut err = NeverSink::new(alloc)?;
    let status = pgo(
        rt,
        alloc,
        list.as_slice(),
        &mut store,
        &mut out,
        &mut err,
        &QuietGate,
    );
    Ok(Ended {
        status,
        store,
        out,
        err,
    })
}

// Both edges lead to one block: they are parallel, and the second one is counted in a block of its own.
const PARALLEL: &[u8] = b"define i64 @p(i1 %c) {
entry:
  br i1 %c, label %j, label %j
j:
  %x = phi i64 [ 7, %entry ], [ 7, %entry ]
  ret i64 %x
}
";

// The hash is over `3 4 0 1 1 2 1 2 2 0 2 0 0`.
const PARALLEL_COUNTED: &[u8] = b"@__profn_p = constant [1 x i8] c\"p\"

define i64 @p(i1 %c) {
entry:
  br i1 %c, label %j, label %pgo.edge.2
pgo.edge.2:
  call void @llvm.instrprof.increment(ptr @__profn_p, i64 -1291347784060061606, i32 2, i32 0)
  br label %j
j:
  %x = phi i64 [ 7, %pgo.edge.2 ], [ 7, %entry ]
  call void @llvm.instrprof.increment(ptr @__profn_p, i64 -1291347784060061606, i32 2, i32 1)
  ret i64 %x
}

declare void @llvm.instrprof.increment(ptr, i64, i32, i32)

declare void @llvm.instrprof.value.profile(ptr, i64, i64, i32, i32)
";

#[test]
fn gen_writes_the_module_that_counts(rt: HostRuntime) -> Result<(), Fail> {
    let alloc = rt.alloc();
    let words = ["gen", "m.ll", "o.ll"];
    let ended = ended_by(&rt, alloc, words.as_slice(), PARALLEL, Vec::new(alloc))?;
    assert_eq!(rt; ended.status, Status::Done);
    assert_eq!(rt; ended.store.file("o.ll"), Some(PARALLEL_COUNTED));
    assert_eq!(rt; ended.store.file("m.ll"), Some(PARALLEL));
    assert_eq!(rt; ended.out.bytes(), b"".as_slice());
    assert_eq!(rt; ended.err.bytes(), b"".as_slice());
    Ok(())
}

#[test]
fn gen_takes_plain_modules_alone(rt: HostRuntime) -> Result<(), Fail> {
    let alloc = rt.alloc();
    let words = ["gen", "m.ll", "o.ll", "--entry-first"];
    let ended = ended_by(
        &rt,
        alloc,
        words.as_slice(),
        PARALLEL_COUNTED,
        Vec::new(alloc),
    )?;
    assert_eq!(rt; ended.status, Status::Refused);
    assert_eq!(rt; ended.store.file("o.ll"), None);
    assert_eq!(rt;
        ended.err.bytes(),
        b"pgo: m.ll: wrong kind counted\n".as_slice()
    );
    Ok(())
}

#[test]
fn a_write_that_fails_is_told(rt: HostRuntime) -> Result<(), Fail> {
    let alloc = rt.alloc();
    let words = ["gen", "m.ll", "o.ll"];
    let ended = ended_by(
        &rt,
        alloc,
        words.as_slice(),
        PARALLEL,
        vec![in alloc; 1u64]?,
    )?;
    assert_eq!(rt; ended.status, Status::Outside);
    assert_eq!(rt; ended.err.bytes(), b"pgo: cannot write o.ll\n".as_slice());
    Ok(())
}

const ONE_COUNTER: &[u8] = b"@__profn_f = constant [1 x i8] c\"f\"
define void @f() {
entry:
  call void @llvm.instrprof.increment(ptr @__profn_f, i64 7, i32 1, i32 0)
  ret void
}
declare void @llvm.instrprof.increment(ptr, i64, i32, i32)
";

// The first word of the data is the hash of the name `f`.
const ONE_COUNTER_LOWERED: &[u8] = b"@__profn_f = constant [1 x i8] c\"f\"
@__profc_f = global [1 x i64] zeroinitializer
@__profd_f = global [4 x i64] [i64 -3706093650706652785, i64 7, i64 1, i64 0]

define void @f() {
entry:
  atomicrmw add ptr getelementptr inbounds ([1 x i64], ptr @__profc_f, i64 0, i64 0), i64 1 monotonic
  ret void
}

declare void @__llvm_profile_instrument_target(i64, ptr, i32)
";

#[test]
fn lower_writes_the_lowered_form(rt: HostRuntime) -> Result<(), Fail> {
    let alloc = rt.alloc();
    let words = ["lower", "m.ll", "o.ll"];
    let ended = ended_by(&rt, alloc, words.as_slice(), ONE_COUNTER, Vec::new(alloc))?;
    assert_eq!(rt; ended.status, Status::Done);
    assert_eq!(rt; ended.store.file("o.ll"), Some(ONE_COUNTER_LOWERED));
    assert_eq!(rt; ended.out.bytes(), b"".as_slice());
    assert_eq!(rt; ended.err.bytes(), b"".as_slice());
    Ok(())
}

// Why `lower` refuses a function with these two lines before its end.
fn refusal<R: Threads + Sync>(rt: &R, alloc: Global, calls: &[u8]) -> Result<Ended, Fail> {
    let mut module = Vec::new(alloc);
    module.extend_from_slice(b"@__profn_f = constant [1 x i8] c\"f\"\n")?;
    module.extend_from_slice(b"declare void @llvm.instrprof.increment(ptr, i64, i32, i32)\n")?;
    module.extend_from_slice(
        b"declare void @llvm.instrprof.value.profile(ptr, i64, i64, i32, i32)\n",
    )?;
    module.extend_from_slice(b"define void @f() {\nentry:\n")?;
    module.extend_from_slice(calls)?;
    module.extend_from_slice(b"  ret void\n}\n")?;
    let words = ["lower", "m.ll", "o.ll"];
    ended_by(
        rt,
        alloc,
        words.as_slice(),
        module.as_slice(),
        Vec::new(alloc),
    )
}

const FIRST: &[u8] =
    b"  call void @llvm.instrprof.increment(ptr @__profn_f, i64 7, i32 2, i32 0)\n";

#[test]
fn lower_tells_the_first_cause(rt: HostRuntime) -> Result<(), Fail> {
    let alloc = rt.alloc();
    let hash =
        b"  call void @llvm.instrprof.increment(ptr @__profn_f, i64 8, i32 3, i32 5)\n".as_slice();
    let count =
        b"  call void @llvm.instrprof.increment(ptr @__profn_f, i64 7, i32 3, i32 5)\n".as_slice();
    let index =
        b"  call void @llvm.instrprof.increment(ptr @__profn_f, i64 7, i32 2, i32 2)\n".as_slice();
    let cases: [(&[u8], &[u8]); 3] = [
        (hash, b"pgo: f hash 7 differs from 8\n"),
        (count, b"pgo: f has 2 and 3 counters\n"),
        (index, b"pgo: f index 2 of 2\n"),
    ];
    for (second, line) in cases {
        let mut calls = FIRST.to_vec(alloc)?;
        calls.extend_from_slice(second)?;
        let ended = refusal(&rt, alloc, calls.as_slice())?;
        assert_eq!(rt; ended.status, Status::Refused);
        assert_eq!(rt; ended.store.file("o.ll"), None);
        assert_eq!(rt; ended.err.bytes(), line);
    }
    Ok(())
}

#[test]
fn lower_takes_no_unit_that_is_noted_alone(rt: HostRuntime) -> Result<(), Fail> {
    let alloc = rt.alloc();
    let note =
        b"  call void @llvm.instrprof.value.profile(ptr @__profn_f, i64 7, i64 1, i32 0, i32 0)\n".as_slice();
    let ended = refusal(&rt, alloc, note)?;
    assert_eq!(rt; ended.status, Status::Refused);
    assert_eq!(rt; ended.err.bytes(), b"pgo: f has no increment\n".as_slice());
    Ok(())
}

#[test]
fn lower_takes_counted_modules_alone(rt: HostRuntime) -> Result<(), Fail> {
    let alloc = rt.alloc();
    let words = ["lower", "m.ll", "o.ll"];
    let ended = ended_by(&rt, alloc, words.as_slice(), PARALLEL, Vec::new(alloc))?;
    assert_eq!(rt; ended.status, Status::Refused);
    assert_eq!(rt;
        ended.err.bytes(),
        b"pgo: m.ll: wrong kind plain\n".as_slice()
    );
    Ok(())
}
