// Files by name.
ghost use Rattle.std.specs.Prelude.{List, false, true};
ghost use Rattle.pgo_base.specs.Outside.{Call, FailsBy, Files, ReadGives, Tells, WriteLeaves};

use crate::OutsideError;
use std::alloc::Global;

/// The most bytes that a read gives: one more than the longest text that is accepted.
pub const READ_MOST: usize = 16_777_217;

/// Files under names, and the list of the calls that failed.
pub trait Store {
    /// Whether the store tells its files.
    ghost tells: { Self → Type 0 };

    /// The bytes under each name, where the store tells them.
    ghost files: { Self → Files };

    /// The calls that failed so far, in order.
    ghost failures: { Self → List Call };

    /// Reads the named file: its first `READ_MOST` bytes, or all of them where there are fewer. Whatever it answers, no
    /// file changes. It answers `Failed` where the file isn't there or can't be read, and that is then in the list of
    /// failed calls, and `NoMemory` where there is no memory for the bytes.
    fn read_file(&mut self, alloc: Global, name: &str) -> Result<Vec<u8>, OutsideError>
        ensures gives { Tells (tells self.old) (tells self.new) (ReadGives (λ v. v.items) READ_MOST name.now (files self.old) (files self.new) result) }
        ensures fails { FailsBy (failures self.old) (failures self.new) (name.now, false) result };

    /// Makes the named file exactly `bytes`. No other file changes. After `Failed`, which is then in the list of failed
    /// calls, the file's content is open; after `NoMemory` all files are as before.
    fn write_file(&mut self, name: &str, bytes: &[u8]) -> Result<(), OutsideError>
        ensures leaves { Tells (tells self.old) (tells self.new) (WriteLeaves name.now bytes.now (files self.old) (files self.new) result) }
        ensures fails { FailsBy (failures self.old) (failures self.new) (name.now, true) result };
}
