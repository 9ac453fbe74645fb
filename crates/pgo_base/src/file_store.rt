// A store over the system's files: the edge to the real ones.
ghost use Rattle.std.specs.Prelude.{◌<◌, ◌≤◌, IfOk, None, length, vec_capacity, vec_len};
ghost use Rattle.pgo_base.specs.Outside.{Gained};
ghost use Rattle.pgo_base.specs.Shelf.{call_of, calls_of};

use crate::shelf::FailedCall;
use crate::writing::write_whole;
use crate::{OutsideError, READ_MOST, Store};
use std::alloc::Global;
use std::fs;
use std::io::{ErrorKind, Read};
use std::rt::Files;

/// The system's files. It tells nothing of what they hold, since others write them too, and keeps the list of its failed
/// calls. It takes the memory for an entry of that list before it touches a file.
#[derive(Drop)]
pub struct FileStore<'a, R: Files> {
    rt: &'a R,
    alloc: Global,
    failed: Vec<FailedCall>,
}

impl<'a, R: Files> FileStore<'a, R> {
    /// The files that the runtime reaches. It takes no memory yet.
    pub fn new(rt: &'a R, alloc: Global) -> FileStore<'a, R> {
        FileStore {
            rt,
            alloc,
            failed: Vec::new(alloc),
        }
    }
}

impl<'a, R: Files> Store for FileStore<'a, R> {
    ghost tells = { λ _. ⊥ };

    ghost files = { λ _ _. None };

    ghost failures = { λ store. calls_of store.failed.items };

    fn read_file(&mut self, alloc: Global, name: &str) -> Result<Vec<u8>, OutsideError> {
        let call = FailedCall::of(self.alloc, name, false)?;
        self.failed.reserve(1)?;
        match read_first(self.rt, alloc, name) {
            Err(OutsideError::Failed) => {
                keep(&mut self.failed, call);
                Err(OutsideError::Failed)
            }
            other => other,
        }
    }

    fn write_file(&mut self, name: &str, bytes: &[u8]) -> Result<(), OutsideError> {
        let call = FailedCall::of(self.alloc, name, true)?;
        self.failed.reserve(1)?;
        if write_all(self.rt, name, bytes) {
            return Ok(());
        }
        keep(&mut self.failed, call);
        Err(OutsideError::Failed)
    }
}

// Keeps a failed call, for which there is room.
fn keep(failed: &mut Vec<FailedCall>, call: FailedCall)
    requires { vec_len failed.old < vec_capacity failed.old }
    ensures { Gained (calls_of failed.old.items) (calls_of failed.new.items) (call_of call) }
{
    failed.push(call).unwrap();
}

// The first `READ_MOST` bytes of the file, or all of them. An interrupted read is tried again.
fn read_first<R: Files>(rt: &R, alloc: Global, name: &str) -> Result<Vec<u8>, OutsideError>
    ensures { IfOk result (λ bytes. length bytes.items ≤ READ_MOST) }
{
    let Ok(mut file) = fs::open(rt, name) else {
        return Err(OutsideError::Failed);
    };
    let mut bytes = Vec::new(alloc);
    let mut buffer = [0; 65_536];
    'reads: for _ in 0..READ_MOST {
        let room = buffer.len().min(READ_MOST - bytes.len());
        if room == 0 {
            return Ok(bytes);
        }
        match file.read(&mut buffer[..room]) {
            Ok(0) => return Ok(bytes),
            Ok(count) => bytes.extend_from_slice(&buffer[..count])?,
            Err(error) => {
                if error.kind() != ErrorKind::Interrupted {
                    return Err(OutsideError::Failed);
                }
            }
        }
    }
    if bytes.len() == READ_MOST {
        Ok(bytes)
    } else {
        Err(OutsideError::Failed)
    }
}

// Makes the file exactly these bytes, and says whether that went well.
fn write_all<R: Files>(rt: &R, name: &str, bytes: &[u8]) -> bool {
    match fs::create(rt, name) {
        Ok(mut file) => write_whole(&mut file, bytes),
        Err(_) => false,
    }
}
