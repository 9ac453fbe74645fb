//! What an object holds at first.
ghost use Rattle.std.specs.Prelude.{◌≡◌, ◌+◌, ◌^◌, ◌<◌, ◌++◌, ◌≤◌, [], map, length, replicate, OnOk};
ghost use Rattle.ir_memory.specs.Cell.{Byte};
ghost use Rattle.ir_memory.specs.Contents.{FitsIn, cells_of};

use crate::cells::Cells;
use crate::error::MemError;
use crate::value::Value;
use std::alloc::Global;
use std::marker::Model;

/// The cells that an object begins with, made from the first on, and seen as a list.
#[derive(Drop)]
pub struct Image {
    cells: Cells,
}

impl Model for Image {
    ghost use Rattle.std.specs.Prelude.{List};
    ghost use Rattle.ir_memory.specs.Cell.{Cell};

    ghost Value = { List Cell };

    ghost view = { λ i. i.cells };
}

impl Image {
    /// No cells. Takes no memory.
    pub fn new(alloc: Global) -> Image
        ensures { result ≡ [] }
    {
        Image {
            cells: Cells::new(alloc),
        }
    }

    /// Puts a value of `width` bytes behind what there is.
    pub fn push(&mut self, width: u32, value: Value) -> Result<(), MemError>
        requires width { width ≤ 8 }
        requires value { FitsIn width value }
        ensures { OnOk result (self.new ≡ self.old ++ cells_of width value) }
    {
        let at = self.cells.len();
        self.cells.push_zeros(width as usize)?;
        self.cells.write(at, width, value);
        Ok(())
    }

    /// Puts zero bytes behind what there is.
    pub fn push_zeros(&mut self, count: usize) -> Result<(), MemError>
        ensures { OnOk result (self.new ≡ self.old ++ replicate count (Byte 0)) }
    {
        self.cells.push_zeros(count)?;
        Ok(())
    }

    /// Puts bytes behind what there is.
    pub fn push_bytes(&mut self, bytes: &[u8]) -> Result<(), MemError>
        ensures { OnOk result (self.new ≡ self.old ++ map Byte bytes.now) }
    {
        let at = self.cells.len();
        self.cells.push_zeros(bytes.len())?;
        self.cells.write_bytes(at, bytes);
        Ok(())
    }

    /// The cells in order.
    pub(crate) fn cells(&self) -> &Cells
        ensures { result.now ≡ self.now }
    {
        &self.cells
    }
}
