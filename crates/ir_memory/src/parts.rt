//! Parts of vectors that are written in place.
ghost use Rattle.std.specs.Prelude.{◌≡◌, ◌+◌, ◌^◌, ◌<◌, ◌≤◌, ◌++◌, length, replicate, take, OnOk, OnErr};
ghost use Rattle.ir_memory.specs.Packed.{put};

use crate::stored_pointer::{NULL, StoredPointer};
use std::alloc::AllocError;

/// Writes bytes from a place on.
#[inline(always)]
pub fn put_bytes(bytes: &mut Vec<u8>, at: usize, new: &[u8])
    requires { at + length new.now ≤ length bytes.old.items }
    ensures { bytes.new.items ≡ put bytes.old.items at new.now }
{
    let end = at + new.len();
    bytes[at..end].copy_from_slice(new);
}

/// Writes zero bytes from a place on.
#[inline(always)]
pub fn put_zeros(bytes: &mut Vec<u8>, at: usize, count: usize)
    requires { at + count ≤ length bytes.old.items }
    ensures { bytes.new.items ≡ put bytes.old.items at (replicate count 0) }
{
    bytes[at..at + count].fill(0);
}

/// Puts zero bytes behind what there is, at once where they are four or eight.
#[inline(always)]
pub fn add_zeros(bytes: &mut Vec<u8>, count: usize) -> Result<(), AllocError>
    requires { length bytes.old.items + count < 2 ^ 64 }
    ensures ok { OnOk result (bytes.new.items ≡ bytes.old.items ++ replicate count 0) }
    ensures err { OnErr result (bytes.new.items ≡ bytes.old.items) }
{
    match count {
        8 => bytes.extend_from_slice(&[0; 8]),
        4 => bytes.extend_from_slice(&[0; 4]),
        _ => bytes.resize(bytes.len() + count, 0),
    }
}

/// Writes pointers from a place on.
pub fn put_pointers(pointers: &mut Vec<StoredPointer>, at: usize, new: &[StoredPointer])
    requires { at + length new.now ≤ length pointers.old.items }
    ensures { pointers.new.items ≡ put pointers.old.items at new.now }
{
    let end = at + new.len();
    pointers[at..end].copy_from_slice(new);
}

/// Adds null pointers until there are at least `count`; those there were stay, whatever the result.
#[inline(always)]
pub fn grow(pointers: &mut Vec<StoredPointer>, count: usize) -> Result<(), AllocError>
    ensures stay { take (length pointers.old.items) pointers.new.items ≡ pointers.old.items }
    ensures enough { OnOk result (count ≤ length pointers.new.items) }
{
    if count <= pointers.len() {
        return Ok(());
    }
    pointers.resize(count, NULL)
}
