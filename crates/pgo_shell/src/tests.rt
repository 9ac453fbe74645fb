// A command that prints the text of its one file, run over stores and sinks in memory.
ghost use Rattle.std.specs.Prelude.{◌≡◌, ◌∷◌, [], None, Some, codes, true, string_bytes, slice_index_or};
ghost use Rattle.std.proofs.Common.{ap, sym, ◌∙◌};
ghost use Rattle.pgo_shell.specs.Judgement.{demand, halt_of, making, then};

use super::*;
use pgo_base::{Gate, MemorySink, MemoryStore, NeverSink, QuietGate};
use std::alloc::Global;
use std::test::Fail;
use std::thread::Threads;

#[derive(Drop)]
struct Shown {
    name: String,
}

impl Command for Shown {
    ghost task = { λ c. record {
      reads = string_bytes c.name ∷ [];
      writes = [];
      judges = λ texts. making (λ made. made ≡ record { halted = None; output = slice_index_or texts 0 []; written = [] }) (λ a b e f. ap halt_of (e ∙ sym f));
    } };

    fn read_name(&self, index: usize) -> Option<&str> {
        if index == 0 {
            Some(self.name.as_str())
        } else {
            None
        }
    }

    fn write_name(&self, _index: usize) -> Option<&str> {
        None
    }

    fn product<R: Threads + Sync, G: Gate + Sync>(
        &self,
        _rt: &R,
        alloc: Global,
        texts: &[Vec<u8>],
        _gate: &G,
    ) -> Result<Product, Refusal> {
        Ok(Product {
            halted: None,
            output: Vec::from_slice(alloc, &texts[0])?,
            files: Vec::new(alloc),
        })
    }
}

fn store_of(alloc: Global, failing: Vec<u64>) -> Result<MemoryStore, Fail> {
    let mut files = Vec::new(alloc);
    files.push((String::from_str(alloc, "a")?, b"text".to_vec(alloc)?))?;
    Ok(MemoryStore::new(alloc, files, failing)?)
}

#[test]
fn the_output_is_put(rt: HostRuntime) -> Result<(), Fail> {
    let alloc = rt.alloc();
    let command = Shown {
        name: String::from_str(alloc, "a")?,
    };
    let mut store = store_of(alloc, Vec::new(alloc))?;
    let mut out = NeverSink::new(alloc)?;
    let mut err = NeverSink::new(alloc)?;
    let status = perform(
        &rt, alloc, &command, &mut store, &mut out, &mut err, &QuietGate,
    );
    assert_eq!(rt; status, Status::Done);
    assert_eq!(rt; out.bytes(), b"text".as_slice());
    assert_eq!(rt; err.bytes(), b"".as_slice());
    Ok(())
}

#[test]
fn faults_are_told(rt: HostRuntime) -> Result<(), Fail> {
    let alloc = rt.alloc();
    let command = Shown {
        name: String::from_str(alloc, "a")?,
    };
    let mut store = store_of(alloc, vec![in alloc; 0]?)?;
    let mut out = MemorySink::new(alloc, vec![in alloc; 0]?)?;
    let mut err = NeverSink::new(alloc)?;
    let status = perform(
        &rt, alloc, &command, &mut store, &mut out, &mut err, &QuietGate,
    );
    assert_eq!(rt; status, Status::Outside);
    assert_eq!(rt; err.bytes(), b"pgo: cannot read a\n".as_slice());
    let status = perform(
        &rt, alloc, &command, &mut store, &mut out, &mut err, &QuietGate,
    );
    assert_eq!(rt; status, Status::Outside);
    assert_eq!(rt; out.bytes(), b"te".as_slice());
    assert_eq!(rt;
        err.bytes(),
        b"pgo: cannot read a\npgo: cannot write output\n".as_slice()
    );
    Ok(())
}

// A command that refuses its text as `bad`, or halts behind it at `stop`.
#[derive(Drop)]
struct Ends {
    name: String,
    halts: bool,
}

impl Command for Ends {
    ghost task = { λ c. record {
      reads = string_bytes c.name ∷ [];
      writes = [];
      judges = λ texts. then (demand (c.halts ≡ true) (codes "bad")) (λ u.
          making (λ made. made ≡ record { halted = Some (codes "stop"); output = slice_index_or texts 0 []; written = [] }) (λ a b e f. ap halt_of (e ∙ sym f)));
    } };

    fn read_name(&self, index: usize) -> Option<&str> {
        if index == 0 {
            Some(self.name.as_str())
        } else {
            None
        }
    }

    fn write_name(&self, _index: usize) -> Option<&str> {
        None
    }

    fn product<R: Threads + Sync, G: Gate + Sync>(
        &self,
        _rt: &R,
        alloc: Global,
        texts: &[Vec<u8>],
        _gate: &G,
    ) -> Result<Product, Refusal> {
        if !self.halts {
            return Err(Refusal::Text {
                line: b"bad".to_vec(alloc)?,
            });
        }
        Ok(Product {
            halted: Some(b"stop".to_vec(alloc)?),
            output: Vec::from_slice(alloc, &texts[0])?,
            files: Vec::new(alloc),
        })
    }
}

// The status, the output and the line of such a command.
fn ended<R: Threads + Sync>(
    rt: &R,
    alloc: Global,
    halts: bool,
) -> Result<(Status, NeverSink, NeverSink), Fail> {
    let command = Ends {
        name: String::from_str(alloc, "a")?,
        halts,
    };
    let mut store = store_of(alloc, Vec::new(alloc))?;
    let mut out = NeverSink::new(alloc)?;
    let mut err = NeverSink::new(alloc)?;
    let status = perform(
        rt, alloc, &command, &mut store, &mut out, &mut err, &QuietGate,
    );
    Ok((status, out, err))
}

#[test]
fn a_refusal_and_a_halt_have_their_lines(rt: HostRuntime) -> Result<(), Fail> {
    let alloc = rt.alloc();
    let (status, out, err) = ended(&rt, alloc, false)?;
    assert_eq!(rt; status.number(), 2);
    assert_eq!(rt; out.bytes(), b"".as_slice());
    assert_eq!(rt; err.bytes(), b"pgo: bad\n".as_slice());
    let (status, out, err) = ended(&rt, alloc, true)?;
    assert_eq!(rt; status.number(), 3);
    assert_eq!(rt; out.bytes(), b"text".as_slice());
    assert_eq!(rt; err.bytes(), b"pgo: stop\n".as_slice());
    Ok(())
}
