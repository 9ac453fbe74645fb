// The program over files in memory.
use pgo_base::{MemoryStore, NeverSink, QuietGate};
use pgo_top::{Status, pgo};
use std::alloc::Global;
use std::test::Fail;
use std::thread::Threads;

// A store with a module and a calls text.
fn store_of(alloc: Global, module: &[u8], calls: &[u8]) -> Result<MemoryStore, Fail> {
    let mut files = Vec::new(alloc);
    files.push((String::from_str(alloc, "m.ll")?, module.to_vec(alloc)?))?;
    files.push((String::from_str(alloc, "c.txt")?, calls.to_vec(alloc)?))?;
    Ok(MemoryStore::new(alloc, files, Vec::new(alloc))?)
}

pub(crate) fn status_line(status: Status) -> &'static [u8] {
    match status {
        Status::Done => b"status 0\n".as_slice(),
        Status::Words => b"status 1\n".as_slice(),
        Status::Refused => b"status 2\n".as_slice(),
        Status::NotReturned => b"status 3\n".as_slice(),
        Status::Outside => b"status 4\n".as_slice(),
        Status::Memory => b"status 5\n".as_slice(),
    }
}

// What these words end with, where `m.ll` and `c.txt` hold these texts: the output, then the line on the error output, then
// a line with the status.
pub(crate) fn transcript<R: Threads + Sync>(
    rt: &R,
    alloc: Global,
    words: &[&str],
    module: &[u8],
    calls: &[u8],
) -> Result<String, Fail> {
    let mut list = Vec::new(alloc);
    for word in words {
        list.push(String::from_str(alloc, word)?)?;
    }
    let mut store = store_of(alloc, module, calls)?;
    let mut out = NeverSink::new(alloc)?;
    let mut err = NeverSink::new(alloc)?;
    let words = list.as_slice();
    let status = pgo(rt, alloc, words, &mut store, &mut out, &mut err, &QuietGate);
    let mut text = out.bytes().to_vec(alloc)?;
    text.extend_from_slice(err.bytes())?;
    text.extend_from_slice(status_line(status))?;
    Ok(String::from_utf8(text)?)
}

// What `run m.ll c.txt` ends with.
pub(crate) fn run<R: Threads + Sync>(
    rt: &R,
    alloc: Global,
    module: &[u8],
    calls: &[u8],
) -> Result<String, Fail> {
    transcript(rt, alloc, &["run", "m.ll", "c.txt"], module, calls)
}

// What `chain m.ll c.txt` ends with.
pub(crate) fn chain<R: Threads + Sync>(
    rt: &R,
    alloc: Global,
    module: &[u8],
    calls: &[u8],
) -> Result<String, Fail> {
    transcript(rt, alloc, &["chain", "m.ll", "c.txt"], module, calls)
}

// What `check m.ll` ends with.
pub(crate) fn check<R: Threads + Sync>(
    rt: &R,
    alloc: Global,
    module: &[u8],
) -> Result<String, Fail> {
    transcript(rt, alloc, &["check", "m.ll"], module, b"")
}

// What `print m.ll` ends with.
pub(crate) fn print<R: Threads + Sync>(
    rt: &R,
    alloc: Global,
    module: &[u8],
) -> Result<String, Fail> {
    transcript(rt, alloc, &["print", "m.ll"], module, b"")
}

// `count` times a text between two others.
pub(crate) fn repeated(
    alloc: Global,
    before: &[u8],
    text: &[u8],
    count: u32,
    after: &[u8],
) -> Result<Vec<u8>, Fail> {
    let mut whole = before.to_vec(alloc)?;
    for _ in 0..count {
        whole.extend_from_slice(text)?;
    }
    whole.extend_from_slice(after)?;
    Ok(whole)
}
