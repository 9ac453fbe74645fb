// Two calls that two workers run beside each other: one of them waits at the gate until the other has ended. Workers that ran one after
// the other would miss at one of the two gates, and workers that counted apart would read other words.
use call_list::read_calls;
use gen_module::gen_module;
use instr_lower::lower;
use ir_check::{Checked, check};
use ir_machine::resolve;
use ir_read::read;
use pgo_base::Gate;
use run_profile::{RunCounts, run_counted};
use std::alloc::Global;
use std::sync::atomic::{AtomicU64, Ordering};
use std::test::Fail;
use std::thread::Threads;

// Turns as often as its argument says, and returns it.
const LOOP: &[u8] = b"define i64 @f(i64 %n) {
entry:
  br label %head
head:
  %i = phi i64 [ 0, %entry ], [ %j, %body ]
  %c = icmp slt i64 %i, %n
  br i1 %c, label %body, label %done
body:
  %k = phi i64 [ %i, %head ]
  %j = add i64 %k, 1
  br label %head
done:
  %r = phi i64 [ %i, %head ]
  ret i64 %r
}
";

// The most turns of a call that waits.
const MOST_TURNS: u32 = 268_435_456;

// A gate at which one of two calls waits until the other has ended. It keeps the word that each then read.
#[derive(Drop)]
struct Meeting {
    waits: u32,
    over: AtomicU64,
    missed: AtomicU64,
    first: AtomicU64,
    second: AtomicU64,
}

impl Meeting {
    fn of(waits: u32) -> Meeting {
        Meeting {
            waits,
            over: AtomicU64::new(0),
            missed: AtomicU64::new(0),
            first: AtomicU64::new(0),
            second: AtomicU64::new(0),
        }
    }

    fn wait(&self) {
        for _ in 0..MOST_TURNS {
            if self.over.load(Ordering::SeqCst) == 1 {
                return;
            }
        }
        self.missed.store(1, Ordering::SeqCst);
    }
}

impl Gate for Meeting {
    fn before(&self, call: u32) {
        if call == self.waits {
            self.wait();
        }
    }

    fn ended(&self, call: u32, word: u64) {
        match call {
            0 => self.first.store(word, Ordering::SeqCst),
            _ => self.second.store(word, Ordering::SeqCst),
        }
        if call != self.waits {
            self.over.store(1, Ordering::SeqCst);
        }
    }
}

fn checked(alloc: Global, text: &[u8]) -> Result<Checked, Fail> {
    match check(alloc, read(alloc, text)?) {
        Ok(module) => Ok(module),
        Err(refused) => Err(refused.why.into()),
    }
}

// The calls with 3 and with 5, on two workers.
fn run<R: Threads + Sync>(rt: &R, alloc: Global, gate: &Meeting) -> Result<RunCounts, Fail> {
    let plain = checked(alloc, LOOP)?;
    let counted = gen_module(alloc, &plain, false)?;
    let lowered = lower(alloc, &counted)?;
    let code = resolve(alloc, &lowered)?;
    let calls = read_calls(alloc, &lowered, b"@f 3\n@f 5\n")?;
    Ok(run_counted(rt, alloc, &code, calls.as_slice(), 1_000_000, 2, 8, gate)?)
}

#[test]
fn the_first_call_waits_for_the_second(rt: HostRuntime) -> Result<(), Fail> {
    let gate = Meeting::of(0);
    let counts = run(&rt, rt.alloc(), &gate)?;
    assert_eq!(rt; gate.missed.load(Ordering::SeqCst), 0);
    assert_eq!(rt; gate.second.load(Ordering::SeqCst), 5);
    assert_eq!(rt; gate.first.load(Ordering::SeqCst), 8);
    assert_eq!(rt; counts.counters.as_slice(), [8, 2].as_slice());
    Ok(())
}

#[test]
fn the_second_call_waits_for_the_first(rt: HostRuntime) -> Result<(), Fail> {
    let gate = Meeting::of(1);
    let counts = run(&rt, rt.alloc(), &gate)?;
    assert_eq!(rt; gate.missed.load(Ordering::SeqCst), 0);
    assert_eq!(rt; gate.first.load(Ordering::SeqCst), 3);
    assert_eq!(rt; gate.second.load(Ordering::SeqCst), 8);
    assert_eq!(rt; counts.counters.as_slice(), [8, 2].as_slice());
    Ok(())
}
