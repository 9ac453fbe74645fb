//! The cells of all objects: bytes, and pieces of pointers.
ghost use Rattle.std.specs.Prelude.{◌≡◌, ◌+◌, ◌≤◌, true, [], ◌++◌, OnOk, OnErr, length, map, replicate, take, drop};
ghost use Rattle.ir_memory.specs.Cell.{Byte};
ghost use Rattle.ir_memory.specs.Contents.{FitsIn, cells_of, overwritten, pieces, value_in};

use crate::bytes::{number_at, word_at};
use crate::error::MemError;
use crate::parts::{add_zeros, grow, put_bytes, put_pointers, put_zeros};
use crate::stored_pointer::{NULL, StoredPointer};
use crate::value::{Base, Value, address};
use std::alloc::{AllocError, Global};
use std::marker::Model;

/// The tags of a pointer's pieces, in order.
const PIECE_TAGS: [u8; 8] = [1, 2, 3, 4, 5, 6, 7, 8];

/// Those tags as a number.
const PIECE_TAGS_WORD: u64 = 0x0807_0605_0403_0201;

/// Cells in order, seen as a list. In an integer a cell reads as its value. Its tag is 0 for a byte, and k + 1 for the
/// piece k of the pointer that was stored k cells earlier, which stands in `pointers` at the place of its first cell.
#[derive(Debug, Drop)]
pub struct Cells {
    values: Vec<u8>,
    tags: Vec<u8>,
    // At least as many as cells, and never cut, so that it isn't filled again.
    pointers: Vec<StoredPointer>,
}

impl Model for Cells {
    ghost use Rattle.std.specs.Prelude.{List};
    ghost use Rattle.ir_memory.specs.Cell.{Cell};
    ghost use Rattle.ir_memory.specs.Packed.{ArePacked, cells_from};

    ghost Value = { List Cell };

    ghost view = { λ c. cells_from c.pointers.items 0 c.values.items c.tags.items };

    ghost invariant = { λ c. ArePacked c.values.items c.tags.items c.pointers.items };
}

impl Cells {
    /// No cells. Takes no memory.
    pub fn new(alloc: Global) -> Cells
        ensures { result ≡ [] }
    {
        Cells {
            values: Vec::new(alloc),
            tags: Vec::new(alloc),
            pointers: Vec::new(alloc),
        }
    }

    #[inline(always)]
    pub fn len(&self) -> usize
        ensures { result ≡ length self.now }
    {
        self.values.len()
    }

    /// Puts zero bytes behind what there is.
    pub fn push_zeros(&mut self, count: usize) -> Result<(), AllocError>
        ensures ok { OnOk result (self.new ≡ self.old ++ replicate count (Byte 0)) }
        ensures err { OnErr result (self.new ≡ self.old) }
    {
        let len = self.values.len();
        let Some(all) = len.checked_add(count) else {
            return Err(AllocError);
        };
        grow(&mut self.pointers, all)?;
        add_zeros(&mut self.values, count)?;
        if let Err(error) = add_zeros(&mut self.tags, count) {
            self.values.truncate(len);
            return Err(error);
        }
        Ok(())
    }

    /// Puts other cells behind what there is.
    pub fn append(&mut self, other: &Cells) -> Result<(), AllocError>
        ensures ok { OnOk result (self.new ≡ self.old ++ other.now) }
        ensures err { OnErr result (self.new ≡ self.old) }
    {
        let start = self.len();
        self.push_zeros(other.len())?;
        put_bytes(&mut self.values, start, &other.values);
        put_bytes(&mut self.tags, start, &other.tags);
        put_pointers(
            &mut self.pointers,
            start,
            &other.pointers[..other.values.len()],
        );
        Ok(())
    }

    /// Keeps the first cells.
    #[inline(always)]
    pub fn truncate(&mut self, count: usize)
        ensures { self.new ≡ take count self.old }
    {
        self.values.truncate(count);
        self.tags.truncate(count);
    }

    /// What the `width` cells from a place on read as: an integer, or a pointer.
    #[inline(always)]
    pub fn read(&self, at: usize, width: u32, pointer: bool) -> Result<Value, MemError>
        requires width { width ≤ 8 }
        requires pointer { pointer ≡ true → width ≡ 8 }
        requires within { at + width ≤ length self.now }
        ensures { result ≡ value_in pointer (take width (drop at self.now)) }
    {
        if pointer {
            self.pointer(at)
        } else {
            Ok(Value::Int(number_at(&self.values, at, width)))
        }
    }

    #[inline(always)]
    fn pointer(&self, at: usize) -> Result<Value, MemError>
        requires { at + 8 ≤ length self.now }
        ensures { result ≡ value_in true (take 8 (drop at self.now)) }
    {
        let tags = word_at(&self.tags, at);
        if tags == PIECE_TAGS_WORD {
            return Ok(self.pointers[at].value());
        }
        if tags == 0 && word_at(&self.values, at) == 0 {
            return Ok(NULL.value());
        }
        Err(MemError::BadPointer)
    }

    /// Writes a value of `width` bytes from a place on.
    #[inline(always)]
    pub fn write(&mut self, at: usize, width: u32, value: Value)
        requires width { width ≤ 8 }
        requires value { FitsIn width value }
        requires within { at + width ≤ length self.old }
        ensures { self.new ≡ overwritten self.old at (cells_of width value) }
    {
        match value {
            Value::Int(n) => {
                let bytes = n.to_le_bytes();
                match width {
                    8 => self.write_bytes(at, &bytes),
                    4 => self.write_bytes(at, &bytes[..4]),
                    1 => self.write_bytes(at, &bytes[..1]),
                    _ => self.write_bytes(at, &bytes[..width as usize]),
                }
            },
            Value::Pointer { base, offset } => self.write_pointer(at, base, offset),
        }
    }

    /// Writes bytes from a place on.
    #[inline(always)]
    pub fn write_bytes(&mut self, at: usize, bytes: &[u8])
        requires { at + length bytes.now ≤ length self.old }
        ensures { self.new ≡ overwritten self.old at (map Byte bytes.now) }
    {
        put_bytes(&mut self.values, at, bytes);
        put_zeros(&mut self.tags, at, bytes.len());
    }

    #[inline(always)]
    fn write_pointer(&mut self, at: usize, base: Base, offset: u64)
        requires { at + 8 ≤ length self.old }
        ensures { self.new ≡ overwritten self.old at (pieces base offset) }
    {
        put_bytes(&mut self.values, at, &address(base, offset).to_le_bytes());
        put_bytes(&mut self.tags, at, &PIECE_TAGS);
        self.pointers[at] = StoredPointer { base, offset };
    }
}
