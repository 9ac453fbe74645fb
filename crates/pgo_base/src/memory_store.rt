// Stores in memory, for tests and for runs on texts at hand.
ghost use Rattle.std.specs.Prelude.{◌≡◌, ◌⊎◌, ◌/◌, IfOk, IsErr, IsErrOf, IsTrue, None, Some, [], false, length, take, true, ⊤};
ghost use Rattle.std.specs.Option.{option_map};
ghost use Rattle.pgo_base.specs.Outside.{FailsBy, ReadGives, Tells, WriteLeaves};
ghost use Rattle.pgo_base.specs.Shelf.{calls_of, files_of, given_file};

use crate::shelf::Shelf;
use crate::{NoMemory, OutsideError, READ_MOST, Store};
use std::alloc::Global;

/// A store in memory whose calls fail as they are told: the calls whose numbers, counted from 0 over reads and writes,
/// are listed, and each read of an absent name. A listed write leaves the first half of the bytes. The call number
/// stands still at the last `u64`.
#[derive(Debug, Drop)]
pub struct MemoryStore {
    shelf: Shelf,
    failing: Vec<u64>,
    calls: u64,
}

impl MemoryStore {
    ghost use Rattle.pgo_base.specs.Fakes.{next_number, store_failing, store_fails, store_number};

    /// A store with these files; of two with one name the later counts. It answers `NoMemory` where there is no memory.
    pub fn new(
        alloc: Global,
        files: Vec<(String, Vec<u8>)>,
        failing: Vec<u64>,
    ) -> Result<MemoryStore, NoMemory>
        ensures files { IfOk result (λ store. (name : _) → ⟦<MemoryStore as Store>⟧.files store name ≡ given_file files.items name) }
        ensures failures { IfOk result (λ store. ⟦<MemoryStore as Store>⟧.failures store ≡ []) }
        ensures failing { IfOk result (λ store. store_failing store ≡ failing.items) }
        ensures number { IfOk result (λ store. store_number store ≡ 0) }
    {
        Ok(MemoryStore {
            shelf: Shelf::of(alloc, files)?,
            failing,
            calls: 0,
        })
    }

    /// The named file's bytes; None exactly where the file is absent.
    pub fn file(&self, name: &str) -> Option<&[u8]>
        ensures { option_map (λ b. b.now) result ≡ ⟦<MemoryStore as Store>⟧.files self.now name.now }
    {
        self.shelf.file(name)
    }

    // Counts a call, and says whether it is to fail.
    fn is_failing(&mut self) -> bool
        ensures fails { result ≡ store_fails self.old }
        ensures number { store_number self.new ≡ next_number (store_number self.old) }
        ensures failing { store_failing self.new ≡ store_failing self.old }
        ensures shelf { self.new.shelf ≡ self.old.shelf }
    {
        let call = self.calls;
        self.calls = call.saturating_add(1);
        self.failing.contains(&call)
    }
}

impl Store for MemoryStore {
    ghost use Rattle.pgo_base.specs.Fakes.{next_number, store_failing, store_fails, store_number};

    ghost tells = { λ _. ⊤ };

    ghost files = { λ store. files_of store.shelf.writes.items };

    ghost failures = { λ store. calls_of store.shelf.failed.items };

    fn read_file(&mut self, alloc: Global, name: &str) -> Result<Vec<u8>, OutsideError>
        ensures gives { Tells ⊤ ⊤ (ReadGives (λ v. v.items) READ_MOST name.now (files_of self.old.shelf.writes.items) (files_of self.new.shelf.writes.items) result) }
        ensures fails { FailsBy (calls_of self.old.shelf.failed.items) (calls_of self.new.shelf.failed.items) (name.now, false) result }
        ensures listed { IsTrue (store_fails self.old) → IsErr result }
        ensures cause { IsErrOf result OutsideError.Failed → IsTrue (store_fails self.old) ⊎ (files_of self.old.shelf.writes.items name.now ≡ None) }
        ensures number { store_number self.new ≡ next_number (store_number self.old) }
        ensures failing { store_failing self.new ≡ store_failing self.old }
    {
        if self.is_failing() {
            self.shelf.fail(name, false)?;
            return Err(OutsideError::Failed);
        }
        self.shelf.read(alloc, name)
    }

    fn write_file(&mut self, name: &str, bytes: &[u8]) -> Result<(), OutsideError>
        ensures leaves { Tells ⊤ ⊤ (WriteLeaves name.now bytes.now (files_of self.old.shelf.writes.items) (files_of self.new.shelf.writes.items) result) }
        ensures fails { FailsBy (calls_of self.old.shelf.failed.items) (calls_of self.new.shelf.failed.items) (name.now, true) result }
        ensures listed { IsTrue (store_fails self.old) → IsErr result }
        ensures cause { IsErrOf result OutsideError.Failed → IsTrue (store_fails self.old) }
        ensures half { IsErrOf result OutsideError.Failed → files_of self.new.shelf.writes.items name.now ≡ Some (take (length bytes.now / 2) bytes.now) }
        ensures number { store_number self.new ≡ next_number (store_number self.old) }
        ensures failing { store_failing self.new ≡ store_failing self.old }
    {
        if self.is_failing() {
            self.shelf.fail_write(name, bytes)?;
            return Err(OutsideError::Failed);
        }
        self.shelf.put(name, bytes)?;
        Ok(())
    }
}

/// A store in memory whose writes never fail; a read fails where the name is absent.
#[derive(Debug, Drop)]
pub struct NeverStore {
    shelf: Shelf,
}

impl NeverStore {
    /// A store with these files; of two with one name the later counts. It answers `NoMemory` where there is no memory.
    pub fn new(alloc: Global, files: Vec<(String, Vec<u8>)>) -> Result<NeverStore, NoMemory>
        ensures files { IfOk result (λ store. (name : _) → ⟦<NeverStore as Store>⟧.files store name ≡ given_file files.items name) }
        ensures failures { IfOk result (λ store. ⟦<NeverStore as Store>⟧.failures store ≡ []) }
    {
        Ok(NeverStore {
            shelf: Shelf::of(alloc, files)?,
        })
    }

    /// The named file's bytes; None exactly where the file is absent.
    pub fn file(&self, name: &str) -> Option<&[u8]>
        ensures { option_map (λ b. b.now) result ≡ ⟦<NeverStore as Store>⟧.files self.now name.now }
    {
        self.shelf.file(name)
    }
}

impl Store for NeverStore {
    ghost tells = { λ _. ⊤ };

    ghost files = { λ store. files_of store.shelf.writes.items };

    ghost failures = { λ store. calls_of store.shelf.failed.items };

    fn read_file(&mut self, alloc: Global, name: &str) -> Result<Vec<u8>, OutsideError>
        ensures gives { Tells ⊤ ⊤ (ReadGives (λ v. v.items) READ_MOST name.now (files_of self.old.shelf.writes.items) (files_of self.new.shelf.writes.items) result) }
        ensures fails { FailsBy (calls_of self.old.shelf.failed.items) (calls_of self.new.shelf.failed.items) (name.now, false) result }
        ensures absent { IsErrOf result OutsideError.Failed → files_of self.old.shelf.writes.items name.now ≡ None }
    {
        self.shelf.read(alloc, name)
    }

    fn write_file(&mut self, name: &str, bytes: &[u8]) -> Result<(), OutsideError>
        ensures leaves { Tells ⊤ ⊤ (WriteLeaves name.now bytes.now (files_of self.old.shelf.writes.items) (files_of self.new.shelf.writes.items) result) }
        ensures fails { FailsBy (calls_of self.old.shelf.failed.items) (calls_of self.new.shelf.failed.items) (name.now, true) result }
        ensures never { IsErrOf result OutsideError.Failed → ⊥ }
    {
        self.shelf.put(name, bytes)?;
        Ok(())
    }
}
