// The commands over stores and sinks in memory: their outputs and statuses, and the line on the error output, which no
// clause says is there.
use super::*;
use pgo_base::{MemorySink, MemoryStore, NeverSink, QuietGate};
use std::alloc::Global;
use std::test::Fail;
use std::thread::Threads;

// Prints the successor of an argument below 10.
const SUCCESSOR: &[u8] = b"declare void @print_i64(i64)
define i64 @g(i64 %n) {
entry:
  %c = icmp slt i64 %n, 10
  br i1 %c, label %low, label %high
low:
  %a = add i64 %n, 1
  call void @print_i64(i64 %a)
  ret i64 %a
high:
  ret i64 %n
}
";

fn words_of(alloc: Global, words: &[&str]) -> Result<Vec<String>, Fail> {
    let mut list = Vec::new(alloc);
    for word in words {
        list.push(String::from_str(alloc, word)?)?;
    }
    Ok(list)
}

// A store with a module and a calls text; the calls of these numbers fail.
fn store_of(
    alloc: Global,
    module: &[u8],
    calls: &[u8],
    failing: Vec<u64>,
) -> Result<MemoryStore, Fail> {
    let mut files = Vec::new(alloc);
    files.push((String::from_str(alloc, "m.ll")?, module.to_vec(alloc)?))?;
    files.push((String::from_str(alloc, "c.txt")?, calls.to_vec(alloc)?))?;
    Ok(MemoryStore::new(alloc, files, failing)?)
}

#[derive(Drop)]
struct Ended {
    status: Status,
    out: NeverSink,
    err: NeverSink,
}

// What `run m.ll c.txt` ends with.
fn run<R: Threads + Sync>(
    rt: &R,
    alloc: Global,
    module: &[u8],
    calls: &[u8],
    failing: Vec<u64>,
) -> Result<Ended, Fail> {
    perform(rt, alloc, "run", module, calls, failing)
}

// What `chain m.ll c.txt` ends with.
fn chain<R: Threads + Sync>(
    rt: &R,
    alloc: Global,
    module: &[u8],
    calls: &[u8],
) -> Result<Ended, Fail> {
    perform(rt, alloc, "chain", module, calls, Vec::new(alloc))
}

fn perform<R: Threads + Sync>(
    rt: &R,
    alloc: Global,
    command: &str,
    module: &[u8],
    calls: &[u8],
    failing: Vec<u64>,
) -> Result<Ended, Fail> {
    let words = words_of(alloc, &[command, "m.ll", "c.txt"])?;
    let mut store = store_of(alloc, module, calls, failing)?;
    let mut out = NeverSink::new(alloc)?;
    let mut err = NeverSink::new(alloc)?;
    let status = pgo(
        rt,
        alloc,
        words.as_slice(),
        &mut store,
        &mut out,
        &mut err,
        &QuietGate,
    );
    Ok(Ended { status, out, err })
}

// What these words end with, where the calls text is `@g 3`.
fn of_words<R: Threads + Sync>(
    rt: &R,
    alloc: Global,
    words: &[&str],
    module: &[u8],
) -> Result<Ended, Fail> {
    let words = words_of(alloc, words)?;
    let mut store = store_of(alloc, module, b"@g 3", Vec::new(alloc))?;
    let mut out = NeverSink::new(alloc)?;
    let mut err = NeverSink::new(alloc)?;
    let status = pgo(
        rt,
        alloc,
        words.as_slice(),
        &mut store,
        &mut out,
        &mut err,
        &QuietGate,
    );
    Ok(Ended { status, out, err })
}

// Adds one twice, and returns.
const THREE_STEPS: &[u8] = b"define i64 @g(i64 %n) {
entry:
  %a = add i64 %n, 1
  %b = add i64 %a, 1
  ret i64 %b
}
";

#[test]
fn words_without_a_plan_name_the_usage(rt: HostRuntime) -> Result<(), Fail> {
    let alloc = rt.alloc();
    let lists: [&[&str]; 12] = [
        &[],
        &["fly"],
        &["fly", "m.ll", "c.txt"],
        &["run", "m.ll"],
        &["run", "m.ll", "c.txt", "x"],
        &["run", "m.ll", ""],
        &["run", "-m", "c.txt"],
        &["run", "m.ll", "c.txt", "--workers", "65"],
        &["run", "m.ll", "c.txt", "--places", "25"],
        // The work of these is not built.
        &["edges", "m.ll", "p"],
        &["chain", "m.ll", "c.txt", "p", "o"],
        &["stream", "m.ll", "c.txt"],
    ];
    for list in lists {
        let words = words_of(alloc, list)?;
        let mut store = store_of(alloc, SUCCESSOR, b"@g 3", Vec::new(alloc))?;
        let mut out = NeverSink::new(alloc)?;
        let mut err = NeverSink::new(alloc)?;
        let status = pgo(
            &rt,
            alloc,
            words.as_slice(),
            &mut store,
            &mut out,
            &mut err,
            &QuietGate,
        );
        assert_eq!(rt; status, Status::Words);
        assert_eq!(rt; out.bytes(), b"".as_slice());
        assert_eq!(rt;
            err.bytes(),
            b"pgo: usage: pgo COMMAND ARGUMENTS\n".as_slice()
        );
    }
    Ok(())
}

#[test]
fn print_puts_the_canonical_text(rt: HostRuntime) -> Result<(), Fail> {
    let alloc = rt.alloc();
    let module = b"; a text\ndefine void @\"f\"(i8) { ret void }";
    let ended = of_words(&rt, alloc, &["print", "m.ll"], module)?;
    assert_eq!(rt; ended.status, Status::Done);
    assert_eq!(rt;
        ended.out.bytes(),
        b"define void @f(i8 %0) {\n1:\n  ret void\n}\n".as_slice()
    );
    assert_eq!(rt; ended.err.bytes(), b"".as_slice());
    Ok(())
}

#[test]
fn print_says_why_a_module_is_refused(rt: HostRuntime) -> Result<(), Fail> {
    let alloc = rt.alloc();
    let texts: [(&[u8], &[u8]); 2] = [
        // No token is spelled behind the sign.
        (b"target triple = \"x86", b"pgo: m.ll: syntax at byte 16\n"),
        // The entry block is no target.
        (
            b"define void @f() {\ne:\n  br label %e\n}\n",
            b"pgo: m.ll: rule 7 at 0 0 0\n",
        ),
    ];
    for (text, line) in texts {
        let ended = of_words(&rt, alloc, &["print", "m.ll"], text)?;
        assert_eq!(rt; ended.status, Status::Refused);
        assert_eq!(rt; ended.out.bytes(), b"".as_slice());
        assert_eq!(rt; ended.err.bytes(), line);
    }
    Ok(())
}

#[test]
fn run_prints_the_outcomes_of_its_calls(rt: HostRuntime) -> Result<(), Fail> {
    let alloc = rt.alloc();
    let ended = run(&rt, alloc, SUCCESSOR, b"@g 3\n@g 12\n", Vec::new(alloc))?;
    assert_eq!(rt; ended.status, Status::Done);
    assert_eq!(rt;
        ended.out.bytes(),
        b"call 0 @g\n4\nreturned 4\ncall 1 @g\nreturned 12\n".as_slice()
    );
    assert_eq!(rt; ended.err.bytes(), b"".as_slice());
    Ok(())
}

#[test]
fn check_prints_the_kind(rt: HostRuntime) -> Result<(), Fail> {
    let alloc = rt.alloc();
    let ended = of_words(&rt, alloc, &["check", "m.ll"], SUCCESSOR)?;
    assert_eq!(rt; ended.status, Status::Done);
    assert_eq!(rt; ended.out.bytes(), b"plain\n".as_slice());
    let ended = of_words(&rt, alloc, &["check", "m.ll"], b"nothing")?;
    assert_eq!(rt; ended.status, Status::Refused);
    assert_eq!(rt;
        ended.err.bytes(),
        b"pgo: m.ll: syntax at byte 0\n".as_slice()
    );
    Ok(())
}

// The third step of this call is its return.
#[test]
fn a_call_is_given_as_many_steps_as_the_words_say(rt: HostRuntime) -> Result<(), Fail> {
    let alloc = rt.alloc();
    let enough = ["run", "--steps=3", "m.ll", "c.txt"];
    let ended = of_words(&rt, alloc, &enough, THREE_STEPS)?;
    assert_eq!(rt; ended.status, Status::Done);
    let few = ["run", "m.ll", "c.txt", "--steps", "2"];
    let ended = of_words(&rt, alloc, &few, THREE_STEPS)?;
    assert_eq!(rt; ended.status, Status::NotReturned);
    assert_eq!(rt; ended.err.bytes(), b"pgo: call 0 steps spent\n".as_slice());
    Ok(())
}

#[test]
fn an_endless_call_spends_its_steps(rt: HostRuntime) -> Result<(), Fail> {
    let alloc = rt.alloc();
    let module = b"define void @s() {
e: br label %a
a: br label %a
}
";
    let ended = run(&rt, alloc, module, b"@s", Vec::new(alloc))?;
    assert_eq!(rt; ended.status, Status::NotReturned);
    assert_eq!(rt; ended.out.bytes(), b"call 0 @s\nsteps spent\n".as_slice());
    assert_eq!(rt; ended.err.bytes(), b"pgo: call 0 steps spent\n".as_slice());
    Ok(())
}

#[test]
fn a_call_that_prints_too_much_traps(rt: HostRuntime) -> Result<(), Fail> {
    let alloc = rt.alloc();
    let module = b"declare void @print_i64(i64)
define void @p() {
e: br label %a
a: call void @print_i64(i64 7)
br label %a
}
define void @q() {
e: ret void
}
";
    let ended = run(&rt, alloc, module, b"@q\n@p\n@p\n", Vec::new(alloc))?;
    assert_eq!(rt; ended.status, Status::NotReturned);
    assert_eq!(rt;
        ended.err.bytes(),
        b"pgo: call 1 trapped output\n".as_slice()
    );
    // 16,384 times `7` and a line feed, twice
    assert_eq!(rt;
        ended.out.bytes().len(),
        "call 0 @q\nreturned\n".len() + 2 * ("call 1 @p\ntrapped output\n".len() + 32_768)
    );
    Ok(())
}

#[test]
fn a_text_that_is_no_program_is_refused(rt: HostRuntime) -> Result<(), Fail> {
    let alloc = rt.alloc();
    let texts: [(&[u8], &[u8]); 4] = [
        (b"target triple = \"x86", b"pgo: m.ll: syntax at byte 16\n"),
        (
            b"declare void @g()\ndefine i8 @b() {\ne: br label %x\nx: %y = add i8 1, 1\nret void\n}\n",
            b"pgo: m.ll: rule 14 at 1 1 1\n",
        ),
        (
            b"define i64 @f() {\ne: ret i64 %x\n}\n",
            b"pgo: m.ll: rule 11 at 0 0 0\n",
        ),
        (
            b"@a = global [1048577 x i8] zeroinitializer\n",
            b"pgo: m.ll: limit Object 1048577\n",
        ),
    ];
    for (text, line) in texts {
        let ended = run(&rt, alloc, text, b"@b", Vec::new(alloc))?;
        assert_eq!(rt; ended.status, Status::Refused);
        assert_eq!(rt; ended.out.bytes(), b"".as_slice());
        assert_eq!(rt; ended.err.bytes(), line);
    }
    Ok(())
}

const COUNTED: &[u8] = b"declare void @llvm.instrprof.increment(ptr, i64, i32, i32)
define i64 @g(i64 %n) {
entry:
  ret i64 %n
}
";

const LOWERED: &[u8] = b"declare void @__llvm_profile_instrument_target(i64, ptr, i32)
define i64 @g(i64 %n) {
entry:
  ret i64 %n
}
";

// `check` takes each kind, `run` all but the counted one, and `chain` the plain one.
#[test]
fn commands_take_some_kinds(rt: HostRuntime) -> Result<(), Fail> {
    let alloc = rt.alloc();
    let counted = of_words(&rt, alloc, &["check", "m.ll"], COUNTED)?;
    assert_eq!(rt; counted.out.bytes(), b"counted\n".as_slice());
    let lowered = of_words(&rt, alloc, &["check", "m.ll"], LOWERED)?;
    assert_eq!(rt; lowered.out.bytes(), b"lowered\n".as_slice());
    let refused: [(&str, &[u8], &[u8]); 3] = [
        ("run", COUNTED, b"pgo: m.ll: wrong kind counted\n"),
        ("chain", COUNTED, b"pgo: m.ll: wrong kind counted\n"),
        ("chain", LOWERED, b"pgo: m.ll: wrong kind lowered\n"),
    ];
    for (command, text, line) in refused {
        let ended = perform(&rt, alloc, command, text, b"@g 3", Vec::new(alloc))?;
        assert_eq!(rt; ended.status, Status::Refused);
        assert_eq!(rt; ended.out.bytes(), b"".as_slice());
        assert_eq!(rt; ended.err.bytes(), line);
    }
    let ran = run(&rt, alloc, LOWERED, b"@g 3", Vec::new(alloc))?;
    assert_eq!(rt; ran.status, Status::Done);
    assert_eq!(rt; ran.out.bytes(), b"call 0 @g\nreturned 3\n".as_slice());
    Ok(())
}

#[test]
fn a_calls_text_is_refused_by_its_first_bad_line(rt: HostRuntime) -> Result<(), Fail> {
    let alloc = rt.alloc();
    let texts: [(&[u8], &[u8]); 4] = [
        (b"@g 1\ng 2\n", b"pgo: c.txt: bad line 2\n"),
        (b"@h 1\n", b"pgo: c.txt: no function in line 1\n"),
        (b"@g 1 2\n", b"pgo: c.txt: bad arguments in line 1\n"),
        (
            b"# above the numbers of an i64\n@g 99999999999999999999\n",
            b"pgo: c.txt: bad arguments in line 2\n",
        ),
    ];
    for (text, line) in texts {
        let ended = run(&rt, alloc, SUCCESSOR, text, Vec::new(alloc))?;
        assert_eq!(rt; ended.status, Status::Refused);
        assert_eq!(rt; ended.out.bytes(), b"".as_slice());
        assert_eq!(rt; ended.err.bytes(), line);
    }
    Ok(())
}

#[test]
fn too_many_calls_are_refused(rt: HostRuntime) -> Result<(), Fail> {
    let alloc = rt.alloc();
    let mut text = Vec::new(alloc);
    for _ in 0..16_385 {
        text.extend_from_slice(b"@g 12\n")?;
    }
    let ended = run(&rt, alloc, SUCCESSOR, text.as_slice(), Vec::new(alloc))?;
    assert_eq!(rt; ended.status, Status::Refused);
    assert_eq!(rt;
        ended.err.bytes(),
        b"pgo: c.txt: too many calls\n".as_slice()
    );
    Ok(())
}

#[test]
fn a_read_that_fails_is_told(rt: HostRuntime) -> Result<(), Fail> {
    let alloc = rt.alloc();
    let ended = run(&rt, alloc, SUCCESSOR, b"@g 3", vec![in alloc; 0]?)?;
    assert_eq!(rt; ended.status, Status::Outside);
    assert_eq!(rt; ended.out.bytes(), b"".as_slice());
    assert_eq!(rt; ended.err.bytes(), b"pgo: cannot read m.ll\n".as_slice());
    let ended = run(&rt, alloc, SUCCESSOR, b"@g 3", vec![in alloc; 1]?)?;
    assert_eq!(rt; ended.status, Status::Outside);
    assert_eq!(rt; ended.err.bytes(), b"pgo: cannot read c.txt\n".as_slice());
    Ok(())
}

#[test]
fn an_output_that_fails_is_told(rt: HostRuntime) -> Result<(), Fail> {
    let alloc = rt.alloc();
    let words = words_of(alloc, &["run", "m.ll", "c.txt"])?;
    let mut store = store_of(alloc, SUCCESSOR, b"@g 12", Vec::new(alloc))?;
    let mut out = MemorySink::new(alloc, vec![in alloc; 0]?)?;
    let mut err = NeverSink::new(alloc)?;
    let status = pgo(
        &rt,
        alloc,
        words.as_slice(),
        &mut store,
        &mut out,
        &mut err,
        &QuietGate,
    );
    assert_eq!(rt; status, Status::Outside);
    assert_eq!(rt; err.bytes(), b"pgo: cannot write output\n".as_slice());
    Ok(())
}

// Counts from 0 up to its argument.
const COUNTING: &[u8] = b"define i64 @f(i64 %n) {
entry:
  br label %head
head:
  %i = phi i64 [ 0, %entry ], [ %j, %body ]
  %c = icmp slt i64 %i, %n
  br i1 %c, label %body, label %done
body:
  %k = phi i64 [ %i, %head ]
  %j = add i64 %k, 1
  br label %head
done:
  %r = phi i64 [ %i, %head ]
  ret i64 %r
}
";

#[test]
fn chain_counts_the_walks_of_every_edge(rt: HostRuntime) -> Result<(), Fail> {
    let alloc = rt.alloc();
    let ended = chain(&rt, alloc, COUNTING, b"@f 3\n")?;
    assert_eq!(rt; ended.status, Status::Done);
    assert_eq!(rt;
        ended.out.bytes(),
        b"call 0 @f
returned 3
function @f solved
edge 0 - %entry 1
edge 1 %entry %head 1
edge 2 %head %body 3
edge 3 %head %done 1
edge 4 %body %head 3
edge 5 %done - 1
"
            .as_slice()
    );
    assert_eq!(rt; ended.err.bytes(), b"".as_slice());
    Ok(())
}

#[test]
fn chain_adds_the_walks_of_its_calls(rt: HostRuntime) -> Result<(), Fail> {
    let alloc = rt.alloc();
    let cases: [(&[u8], &[u8]); 3] = [
        (
            b"@f 0\n",
            b"call 0 @f
returned 0
function @f solved
edge 0 - %entry 1
edge 1 %entry %head 1
edge 2 %head %body 0
edge 3 %head %done 1
edge 4 %body %head 0
edge 5 %done - 1
",
        ),
        (
            b"@f 3\n@f 0\n@f 5\n",
            b"call 0 @f
returned 3
call 1 @f
returned 0
call 2 @f
returned 5
function @f solved
edge 0 - %entry 3
edge 1 %entry %head 3
edge 2 %head %body 8
edge 3 %head %done 3
edge 4 %body %head 8
edge 5 %done - 3
",
        ),
        (
            b"",
            b"function @f solved
edge 0 - %entry 0
edge 1 %entry %head 0
edge 2 %head %body 0
edge 3 %head %done 0
edge 4 %body %head 0
edge 5 %done - 0
",
        ),
    ];
    for (calls, output) in cases {
        let ended = chain(&rt, alloc, COUNTING, calls)?;
        assert_eq!(rt; ended.status, Status::Done);
        assert_eq!(rt; ended.out.bytes(), output);
    }
    Ok(())
}

#[test]
fn phis_of_a_block_exchange_their_values(rt: HostRuntime) -> Result<(), Fail> {
    let alloc = rt.alloc();
    let module = b"declare void @print_i64(i64)
define i64 @swap(i64 %x, i64 %y, i64 %n) {
entry:
  br label %head
head:
  %a = phi i64 [ %x, %entry ], [ %b, %head ]
  %b = phi i64 [ %y, %entry ], [ %a, %head ]
  %i = phi i64 [ 1, %entry ], [ %j, %head ]
  call void @print_i64(i64 %a)
  %j = add i64 %i, 1
  %c = icmp sle i64 %j, %n
  br i1 %c, label %head, label %done
done:
  %r = phi i64 [ %b, %head ]
  ret i64 %r
}
";
    let ended = chain(&rt, alloc, module, b"@swap 1 2 3\n")?;
    assert_eq!(rt; ended.status, Status::Done);
    assert_eq!(rt;
        ended.out.bytes(),
        b"call 0 @swap
1
2
1
returned 2
function @swap solved
edge 0 - %entry 1
edge 1 %entry %head 1
edge 2 %head %head 2
edge 3 %head %done 1
edge 4 %done - 1
"
            .as_slice()
    );
    Ok(())
}

#[test]
fn parallel_edges_are_counted_apart_and_lost_blocks_not_at_all(
    rt: HostRuntime,
) -> Result<(), Fail> {
    let alloc = rt.alloc();
    let module = b"define i64 @both(i64 %n) {
entry:
  %c = icmp eq i64 %n, 0
  br i1 %c, label %out, label %out
lost:
  br label %out
out:
  ret i64 %n
}
define void @never() {
only:
  ret void
}
";
    let ended = chain(&rt, alloc, module, b"@both 0\n@both 7\n@both 8\n")?;
    assert_eq!(rt; ended.status, Status::Done);
    assert_eq!(rt;
        ended.out.bytes(),
        b"call 0 @both
returned 0
call 1 @both
returned 7
call 2 @both
returned 8
function @both solved
edge 0 - %entry 3
edge 1 %entry %out 1
edge 2 %entry %out 2
edge 3 %out - 3
function @never solved
edge 0 - %only 0
edge 1 %only - 0
"
            .as_slice()
    );
    Ok(())
}

#[test]
fn chain_has_no_report_where_a_call_does_not_return(rt: HostRuntime) -> Result<(), Fail> {
    let alloc = rt.alloc();
    let module = b"define void @s() {
e: br label %a
a: br label %a
}
define void @t() {
e: ret void
}
";
    let ended = chain(&rt, alloc, module, b"@t\n@s\n@t\n")?;
    assert_eq!(rt; ended.status, Status::NotReturned);
    assert_eq!(rt;
        ended.out.bytes(),
        b"call 0 @t\nreturned\ncall 1 @s\nsteps spent\ncall 2 @t\nreturned\n".as_slice()
    );
    assert_eq!(rt; ended.err.bytes(), b"pgo: call 1 steps spent\n".as_slice());
    Ok(())
}
