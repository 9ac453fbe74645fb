// The files and failed calls of a store in memory.
ghost use Rattle.std.specs.Prelude.{◌≡◌, IfOk, IsErrOf, None, OnErr, OnOk, [], false, true, ◌/◌, length, map, take};
ghost use Rattle.std.specs.Option.{option_map};
ghost use Rattle.pgo_base.specs.Outside.{FailsBy, Gained, Puts, ReadGives};
ghost use Rattle.pgo_base.specs.Shelf.{call_of, calls_of, entry_of, files_of};

use crate::{NoMemory, OutsideError, READ_MOST};
use std::alloc::Global;

/// A file's name and what was written to it.
#[derive(Debug, Drop)]
pub struct FileEntry {
    pub name: String,
    pub bytes: Vec<u8>,
}

/// A call that failed.
#[derive(Debug, Drop)]
pub struct FailedCall {
    pub name: String,
    pub was_write: bool,
}

impl FailedCall {
    pub fn of(alloc: Global, name: &str, was_write: bool) -> Result<FailedCall, NoMemory>
        ensures { IfOk result (λ c. call_of c ≡ (name.now, was_write)) }
    {
        Ok(FailedCall {
            name: String::from_str(alloc, name)?,
            was_write,
        })
    }
}

// The first bytes, at most so many.
fn first_bytes(bytes: &[u8], most: usize) -> &[u8]
    ensures { result.now ≡ take most bytes.now }
{
    if bytes.len() > most {
        &bytes[..most]
    } else {
        bytes
    }
}

/// All writes, the newest last, and all calls that failed. A name's file is what its newest write left.
#[derive(Debug, Drop)]
pub struct Shelf {
    pub alloc: Global,
    pub writes: Vec<FileEntry>,
    pub failed: Vec<FailedCall>,
}

impl Shelf {
    /// The files that are given, of which the later counts where two have one name; no call has failed.
    pub fn of(alloc: Global, files: Vec<(String, Vec<u8>)>) -> Result<Shelf, NoMemory>
        ensures writes { IfOk result (λ shelf. shelf.writes.items ≡ map entry_of files.items) }
        ensures failed { IfOk result (λ shelf. shelf.failed.items ≡ []) }
    {
        let writes = files
            .into_iter()
            .map(|(name, bytes)| FileEntry { name, bytes })
            .collect(alloc)?;
        Ok(Shelf {
            alloc,
            writes,
            failed: Vec::new(alloc),
        })
    }

    /// The bytes of the named file; None exactly where there is none.
    pub fn file(&self, name: &str) -> Option<&[u8]>
        ensures { option_map (λ b. b.now) result ≡ files_of self.now.writes.items name.now }
    {
        let entry = self
            .writes
            .iter()
            .rev()
            .find(|entry| entry.name.as_str() == name)?;
        Some(entry.bytes.as_slice())
    }

    /// Makes the named file these bytes.
    pub fn put(&mut self, name: &str, bytes: &[u8]) -> Result<(), NoMemory>
        ensures puts { OnOk result (Puts name.now bytes.now (files_of self.old.writes.items) (files_of self.new.writes.items)) }
        ensures stays { OnErr result (self.new.writes.items ≡ self.old.writes.items) }
        ensures failed { self.new.failed ≡ self.old.failed }
    {
        let entry = FileEntry {
            name: String::from_str(self.alloc, name)?,
            bytes: Vec::from_slice(self.alloc, bytes)?,
        };
        self.writes.push(entry)?;
        Ok(())
    }

    /// The first `READ_MOST` bytes of the named file; where it is absent the read fails, and that is kept.
    pub fn read(&mut self, alloc: Global, name: &str) -> Result<Vec<u8>, OutsideError>
        ensures gives { ReadGives (λ v. v.items) READ_MOST name.now (files_of self.old.writes.items) (files_of self.new.writes.items) result }
        ensures fails { FailsBy (calls_of self.old.failed.items) (calls_of self.new.failed.items) (name.now, false) result }
        ensures absent { IsErrOf result OutsideError.Failed → files_of self.old.writes.items name.now ≡ None }
    {
        let Some(bytes) = self.file(name) else {
            self.fail(name, false)?;
            return Err(OutsideError::Failed);
        };
        Ok(Vec::from_slice(alloc, first_bytes(bytes, READ_MOST))?)
    }

    /// Keeps a failed call.
    pub fn fail(&mut self, name: &str, was_write: bool) -> Result<(), NoMemory>
        ensures gained { OnOk result (Gained (calls_of self.old.failed.items) (calls_of self.new.failed.items) (name.now, was_write)) }
        ensures stays { OnErr result (calls_of self.new.failed.items ≡ calls_of self.old.failed.items) }
        ensures writes { self.new.writes ≡ self.old.writes }
    {
        let call = FailedCall::of(self.alloc, name, was_write)?;
        self.failed.push(call)?;
        Ok(())
    }

    /// Makes the named file the first half of these bytes and keeps the write as one that failed, or does neither.
    pub fn fail_write(&mut self, name: &str, bytes: &[u8]) -> Result<(), NoMemory>
        ensures puts { OnOk result (Puts name.now (take (length bytes.now / 2) bytes.now) (files_of self.old.writes.items) (files_of self.new.writes.items)) }
        ensures gained { OnOk result (Gained (calls_of self.old.failed.items) (calls_of self.new.failed.items) (name.now, true)) }
        ensures no_write { OnErr result (self.new.writes.items ≡ self.old.writes.items) }
        ensures no_call { OnErr result (calls_of self.new.failed.items ≡ calls_of self.old.failed.items) }
    {
        let call = FailedCall::of(self.alloc, name, true)?;
        self.failed.reserve(1)?;
        self.put(name, &bytes[..bytes.len() / 2])?;
        self.failed.push(call).unwrap();
        Ok(())
    }
}
