// The profiles of runs: a module is counted, lowered and run, over one store.
use crate::program::status_line;
use pgo_base::{MemoryStore, NeverSink, QuietGate};
use pgo_top::pgo;
use std::alloc::Global;
use std::test::Fail;
use std::thread::Threads;

const DISPATCH: &[u8] =
    b"@table = constant [9 x ptr] [ptr @t0, ptr @t1, ptr @t2, ptr @t3, ptr @t4, ptr @t5, ptr @t6, ptr @t7, ptr @t8]
define void @t0() { ret void }
define void @t1() { ret void }
define void @t2() { ret void }
define void @t3() { ret void }
define void @t4() { ret void }
define void @t5() { ret void }
define void @t6() { ret void }
define void @t7() { ret void }
define void @t8() { ret void }
define void @dispatch(i64 %k) {
entry:
  %p = getelementptr inbounds [9 x ptr], ptr @table, i64 0, i64 %k
  %f = load ptr, ptr %p
  call void %f()
  ret void
}
";

// The numbers 0 to 7, each twice, and then 8 three times.
const NINETEEN: &[u8] =
    b"@dispatch 0\n@dispatch 0\n@dispatch 1\n@dispatch 1\n@dispatch 2\n@dispatch 2\n@dispatch 3\n@dispatch 3\n@dispatch 4\n@dispatch 4\n@dispatch 5\n@dispatch 5\n@dispatch 6\n@dispatch 6\n@dispatch 7\n@dispatch 7\n@dispatch 8\n@dispatch 8\n@dispatch 8\n";

// A store with a module and a calls text.
fn store_of(alloc: Global, module: &[u8], calls: &[u8]) -> Result<MemoryStore, Fail> {
    let mut files = Vec::new(alloc);
    files.push((String::from_str(alloc, "m.ll")?, module.to_vec(alloc)?))?;
    files.push((String::from_str(alloc, "c.txt")?, calls.to_vec(alloc)?))?;
    Ok(MemoryStore::new(alloc, files, Vec::new(alloc))?)
}

// What these words end with: the output, then the line on the error output, then a line with the status.
fn transcript<R: Threads + Sync>(
    rt: &R,
    alloc: Global,
    words: &[&str],
    store: &mut MemoryStore,
) -> Result<Vec<u8>, Fail> {
    let mut list = Vec::new(alloc);
    for word in words {
        list.push(String::from_str(alloc, word)?)?;
    }
    let mut out = NeverSink::new(alloc)?;
    let mut err = NeverSink::new(alloc)?;
    let words = list.as_slice();
    let status = pgo(rt, alloc, words, store, &mut out, &mut err, &QuietGate);
    let mut text = out.bytes().to_vec(alloc)?;
    text.extend_from_slice(err.bytes())?;
    text.extend_from_slice(status_line(status))?;
    Ok(text)
}

// A store with the counted and lowered form `l.ll` of a module, and a calls text.
fn lowered<R: Threads + Sync>(
    rt: &R,
    alloc: Global,
    module: &[u8],
    calls: &[u8],
) -> Result<MemoryStore, Fail> {
    let mut store = store_of(alloc, module, calls)?;
    let _counted = transcript(rt, alloc, &["gen", "m.ll", "g.ll"], &mut store)?;
    let _lowered = transcript(rt, alloc, &["lower", "g.ll", "l.ll"], &mut store)?;
    Ok(store)
}

const PROFILE: &[u8] = b":ir
dispatch
# Func Hash:
6695714925982477502
# Num Counters:
1
# Counter Values:
19
# Num Value Kinds:
1
# ValueKind = IPVK_IndirectCallTarget:
0
# NumValueSites:
1
8
t0:2
t1:2
t2:2
t3:2
t4:2
t5:2
t6:2
t7:2

t0
# Func Hash:
4042501815599933724
# Num Counters:
1
# Counter Values:
2

t1
# Func Hash:
4042501815599933724
# Num Counters:
1
# Counter Values:
2

t2
# Func Hash:
4042501815599933724
# Num Counters:
1
# Counter Values:
2

t3
# Func Hash:
4042501815599933724
# Num Counters:
1
# Counter Values:
2

t4
# Func Hash:
4042501815599933724
# Num Counters:
1
# Counter Values:
2

t5
# Func Hash:
4042501815599933724
# Num Counters:
1
# Counter Values:
2

t6
# Func Hash:
4042501815599933724
# Num Counters:
1
# Counter Values:
2

t7
# Func Hash:
4042501815599933724
# Num Counters:
1
# Counter Values:
2

t8
# Func Hash:
4042501815599933724
# Num Counters:
1
# Counter Values:
3

";

#[test]
fn a_run_writes_its_profile(rt: HostRuntime) -> Result<(), Fail> {
    let alloc = rt.alloc();
    let mut store = lowered(&rt, alloc, DISPATCH, NINETEEN)?;
    let words = ["run", "l.ll", "c.txt", "--profile", "p.prof"];
    let text = transcript(&rt, alloc, words.as_slice(), &mut store)?;
    let end =
        b"call 18 @dispatch\nreturned\nsite dispatch 0 kept 8 dropped 3\nstatus 0\n".as_slice();
    assert!(rt; text.as_slice().ends_with(end));
    assert_eq!(rt; store.file("p.prof"), Some(PROFILE));
    Ok(())
}

// Every number of workers gives the outcomes of one, and as many names as there are places.
#[test]
fn workers_change_only_which_names_are_kept(rt: HostRuntime) -> Result<(), Fail> {
    let alloc = rt.alloc();
    let mut store = lowered(&rt, alloc, DISPATCH, NINETEEN)?;
    for workers in ["2", "4", "7", "64"] {
        let words = ["run", "l.ll", "c.txt", "--workers", workers];
        let text = transcript(&rt, alloc, words.as_slice(), &mut store)?;
        let two =
            b"call 18 @dispatch\nreturned\nsite dispatch 0 kept 8 dropped 2\nstatus 0\n".as_slice();
        let three =
            b"call 18 @dispatch\nreturned\nsite dispatch 0 kept 8 dropped 3\nstatus 0\n".as_slice();
        assert!(rt; text.as_slice().ends_with(two) || text.as_slice().ends_with(three));
    }
    Ok(())
}

#[test]
fn a_site_has_as_many_places_as_the_words_say(rt: HostRuntime) -> Result<(), Fail> {
    let alloc = rt.alloc();
    let mut store = lowered(&rt, alloc, DISPATCH, NINETEEN)?;
    let words = ["run", "l.ll", "c.txt", "--places", "9", "--workers", "3"];
    let text = transcript(&rt, alloc, words.as_slice(), &mut store)?;
    let end = b"returned\nsite dispatch 0 kept 9 dropped 0\nstatus 0\n".as_slice();
    assert!(rt; text.as_slice().ends_with(end));
    let words = [
        "run",
        "--places=1",
        "l.ll",
        "c.txt",
        "--profile=p",
        "--entry-first",
    ];
    let text = transcript(&rt, alloc, words.as_slice(), &mut store)?;
    let end = b"returned\nsite dispatch 0 kept 1 dropped 17\nstatus 0\n".as_slice();
    assert!(rt; text.as_slice().ends_with(end));
    let profile = store.file("p").unwrap_or(b"");
    let front =
        b":ir\n:entry_first\ndispatch\n# Func Hash:\n6695714925982477502\n# Num Counters:\n1\n# Counter Values:\n19\n# Num Value Kinds:\n1\n# ValueKind = IPVK_IndirectCallTarget:\n0\n# NumValueSites:\n1\n1\nt0:2\n\nt0\n".as_slice();
    assert!(rt; profile.starts_with(front));
    Ok(())
}

#[test]
fn a_profile_is_of_a_lowered_module(rt: HostRuntime) -> Result<(), Fail> {
    let alloc = rt.alloc();
    let mut store = lowered(&rt, alloc, DISPATCH, NINETEEN)?;
    let words = ["run", "m.ll", "c.txt", "--profile", "p"];
    let text = transcript(&rt, alloc, words.as_slice(), &mut store)?;
    assert_eq!(rt;
        text.as_slice(),
        b"pgo: m.ll: wrong kind plain\nstatus 2\n".as_slice()
    );
    let words = ["run", "g.ll", "c.txt", "--profile", "p"];
    let text = transcript(&rt, alloc, words.as_slice(), &mut store)?;
    assert_eq!(rt;
        text.as_slice(),
        b"pgo: g.ll: wrong kind counted\nstatus 2\n".as_slice()
    );
    assert_eq!(rt; store.file("p"), None);
    Ok(())
}

// The outcomes alone are put, and no profile is written.
#[test]
fn a_run_that_does_not_return_has_no_profile(rt: HostRuntime) -> Result<(), Fail> {
    let alloc = rt.alloc();
    let mut store = lowered(
        &rt,
        alloc,
        DISPATCH,
        b"@dispatch 0\n@dispatch 9\n@dispatch 1\n",
    )?;
    let words = ["run", "l.ll", "c.txt", "--profile", "p", "--workers", "2"];
    let text = transcript(&rt, alloc, words.as_slice(), &mut store)?;
    assert_eq!(rt;
        text.as_slice(),
        b"call 0 @dispatch
returned
call 1 @dispatch
trapped access
call 2 @dispatch
returned
pgo: call 1 trapped access
status 3
"
            .as_slice()
    );
    assert_eq!(rt; store.file("p"), None);
    Ok(())
}

#[test]
fn numbers_past_their_limits_have_no_plan(rt: HostRuntime) -> Result<(), Fail> {
    let alloc = rt.alloc();
    let mut store = store_of(alloc, DISPATCH, NINETEEN)?;
    for (option, value) in [
        ("--workers", "65"),
        ("--workers", "0"),
        ("--places", "25"),
        ("--places", "0"),
        ("--steps", "1099511627777"),
    ] {
        let words = ["run", "m.ll", "c.txt", option, value];
        let text = transcript(&rt, alloc, words.as_slice(), &mut store)?;
        assert_eq!(rt;
            text.as_slice(),
            b"pgo: usage: pgo COMMAND ARGUMENTS\nstatus 1\n".as_slice()
        );
    }
    Ok(())
}

// A table of functions, memory and prints.
const APPLY: &[u8] = b"@table = constant [2 x ptr] [ptr @double, ptr @square]
@seen = global i64 0
declare void @print_i64(i64)
define i64 @double(i64 %x) {
  %y = add i64 %x, %x
  ret i64 %y
}
define i64 @square(i64 %x) {
  %y = mul i64 %x, %x
  ret i64 %y
}
define i64 @apply(i64 %k, i64 %x) {
  %n = load i64, ptr @seen
  %m = add i64 %n, 1
  store i64 %m, ptr @seen
  call void @print_i64(i64 %m)
  %cell = alloca i64
  store i64 %x, ptr %cell
  %p = getelementptr inbounds [2 x ptr], ptr @table, i64 0, i64 %k
  %f = load ptr, ptr %p
  %v = load i64, ptr %cell
  %y = call i64 %f(i64 %v)
  ret i64 %y
}
";

const APPLY_PROFILE: &[u8] = b":ir
apply
# Func Hash:
6695714925982477502
# Num Counters:
1
# Counter Values:
5
# Num Value Kinds:
1
# ValueKind = IPVK_IndirectCallTarget:
0
# NumValueSites:
1
2
double:2
square:3

double
# Func Hash:
4042501815599933724
# Num Counters:
1
# Counter Values:
2

square
# Func Hash:
4042501815599933724
# Num Counters:
1
# Counter Values:
3

";

// Each call has its own memory, so each sees that none ran before it.
#[test]
fn workers_change_nothing_where_all_names_fit(rt: HostRuntime) -> Result<(), Fail> {
    let alloc = rt.alloc();
    let calls = b"@apply 0 5\n@apply 1 5\n@apply 1 6\n@apply 0 7\n@apply 1 9\n";
    let mut store = lowered(&rt, alloc, APPLY, calls)?;
    let lines = b"call 0 @apply
1
returned 10
call 1 @apply
1
returned 25
call 2 @apply
1
returned 36
call 3 @apply
1
returned 14
call 4 @apply
1
returned 81
site apply 0 kept 2 dropped 0
status 0
"
        .as_slice();
    for workers in ["1", "2", "7", "64"] {
        let words = [
            "run",
            "l.ll",
            "c.txt",
            "--workers",
            workers,
            "--profile",
            workers,
        ];
        let text = transcript(&rt, alloc, words.as_slice(), &mut store)?;
        assert_eq!(rt; text.as_slice(), lines);
        assert_eq!(rt; store.file(workers), Some(APPLY_PROFILE));
    }
    Ok(())
}
