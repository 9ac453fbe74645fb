//! The program: the words of the command line, the system's files and the standard streams, to the status.
#![tactic(auto)]

use pgo_base::{FileStore, QuietGate, StreamSink};
use pgo_top::{no_memory, pgo, usage};
use std::alloc::Global;
use std::io::ErrorKind;
use std::process::ExitCode;
use std::{env, io};

// The words after the program's name. One that isn't UTF-8 is invalid data.
fn words_of(rt: &HostRuntime, alloc: Global) -> io::Result<Vec<String>> {
    let mut words = Vec::new(alloc);
    for word in env::args(rt)?.skip(1) {
        words.push(word)?;
    }
    Ok(words)
}

fn main(rt: HostRuntime) -> ExitCode {
    let alloc = rt.alloc();
    let mut store = FileStore::new(&rt, alloc);
    let mut out = StreamSink::new(rt.stdout());
    let mut err = StreamSink::new(rt.stderr());
    let status = match words_of(&rt, alloc) {
        Ok(words) => pgo(
            &rt, alloc, &words, &mut store, &mut out, &mut err, &QuietGate,
        ),
        Err(error) => match error.kind() {
            ErrorKind::InvalidData => usage(&mut err),
            _ => no_memory(&mut err),
        },
    };
    ExitCode::from(status.number())
}
