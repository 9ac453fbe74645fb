//! The memory: live allocations by rising number.
ghost use Rattle.std.specs.Prelude.{◌≡◌, ℕ, ◌+◌, ◌-◌, ◌^◌, ◌<◌, ◌≤◌, ◌↔◌, max, length, true, OnOk, OnErr, IfOk, IfErr};

use crate::cells::Cells;
use crate::error::MemError;
use crate::image::Image;
use crate::live_object::{LiveObject, count_below, counted_cells, index_of};
use crate::value::{Base, Value};
use std::alloc::Global;
use std::marker::Model;

/// The greatest number of live cells, of which each object counts as one at least.
pub const CELL_LIMIT: u64 = 1_048_576;

/// Numbered objects of cells. Numbers rise from 0 and are not used again. The cells of all live objects lie one object
/// after the other, so that objects are made and ended without an allocation of their own.
#[derive(Drop)]
pub struct Memory {
    next: u64,
    live_cells: u64,
    objects: Vec<LiveObject>,
    cells: Cells,
}

impl Model for Memory {
    ghost use Rattle.ir_memory.specs.Memory.{MemoryState};
    ghost use Rattle.ir_memory.specs.Objects.{IsWhole, allocations_of};

    ghost Value = { MemoryState };

    ghost view = { λ m. record { next = m.next; live = allocations_of m.objects.items m.cells } };

    ghost invariant = { λ m. IsWhole m.next m.objects.items m.cells m.live_cells };
}

impl Memory {
    ghost use Rattle.ir_memory.specs.Contents.{FitsIn, is_pointer};
    ghost use Rattle.ir_memory.specs.Image.{made_of};
    ghost use Rattle.ir_memory.specs.Laws.{ChangesOnlyRange, ReadsPointer};
    ghost use Rattle.ir_memory.specs.Memory.{empty_memory, found, live_cells, made, dropped, loaded, placed, stored, written, cells_at, IsMakeRefusal};

    /// A memory with no object, which takes no memory itself.
    pub fn new(alloc: Global) -> Memory
        ensures { result ≡ empty_memory }
    {
        Memory {
            next: 0,
            live_cells: 0,
            objects: Vec::new(alloc),
            cells: Cells::new(alloc),
        }
    }

    /// The number of the next object.
    pub fn next(&self) -> u64
        ensures { result ≡ self.now.next }
    {
        self.next
    }

    /// A new object of these cells, as a global variable takes one. It is refused with `Cells` where the live cells
    /// would pass `CELL_LIMIT`, and with `NoMemory` where there is no memory for them.
    pub fn make_of(&mut self, image: &Image, constant: bool) -> Result<(), MemError>
        requires { self.old.next < 2 ^ 64 - 1 }
        ensures ok { OnOk result (self.new ≡ made_of self.old image.now constant) }
        ensures next_within { self.new.next ≤ self.old.next + 1 }
        ensures err { IfErr result IsMakeRefusal }
        ensures unchanged { OnErr result (self.new ≡ self.old) }
    {
        let cells = image.cells();
        let counted = (cells.len() as u64).max(1);
        if CELL_LIMIT - self.live_cells < counted {
            return Err(MemError::Cells);
        }
        self.objects.reserve(1)?;
        let start = self.cells.len();
        self.cells.append(cells)?;
        self.objects.push(LiveObject {
            number: self.next,
            start,
            size: cells.len(),
            constant,
        })?;
        self.next += 1;
        self.live_cells += counted;
        Ok(())
    }

    /// A new object of `size` zero bytes, by its number, as an `alloca` or a global takes one. It is refused with
    /// `Cells` where the live cells would pass `CELL_LIMIT`, and with `NoMemory` where there is no memory for them.
    pub fn make(&mut self, size: u64, constant: bool) -> Result<u64, MemError>
        requires { self.old.next < 2 ^ 64 - 1 }
        ensures number { IfOk result (λ number. number ≡ self.old.next) }
        ensures ok { OnOk result (self.new ≡ made self.old size constant) }
        ensures next_within { self.new.next ≤ self.old.next + 1 }
        ensures not_used_before { found self.old.live self.old.next ≡ None }
        ensures cells { (result ≡ Err MemError.Cells)
            ↔ (CELL_LIMIT < live_cells self.old.live + max 1 size) }
        ensures err { IfErr result IsMakeRefusal }
        ensures unchanged { OnErr result (self.new ≡ self.old) }
    {
        let counted = size.max(1);
        if counted > CELL_LIMIT - self.live_cells {
            return Err(MemError::Cells);
        }
        self.objects.reserve(1)?;
        let start = self.cells.len();
        self.cells.push_zeros(size as usize)?;
        let number = self.next;
        self.objects.push(LiveObject {
            number,
            start,
            size: size as usize,
            constant,
        })?;
        self.next += 1;
        self.live_cells += counted;
        Ok(number)
    }

    /// Fills `width` bytes of an object with an initial value, whether it is constant or not. It is refused with
    /// `Access` where the range lies in no live object.
    pub fn place(
        &mut self,
        object: u64,
        offset: u64,
        width: u32,
        value: Value,
    ) -> Result<(), MemError>
        requires width { width ≤ 8 }
        requires value { FitsIn width value }
        ensures ok { OnOk result (placed self.old object offset width value ≡ Ok self.new) }
        ensures err { IfErr result (λ e. placed self.old object offset width value ≡ Err e) }
        ensures unchanged { OnErr result (self.new ≡ self.old) }
        ensures next_stays { self.new.next ≡ self.old.next }
        ensures loads_back { OnOk result
            (loaded self.new (Base.Object object) offset width (is_pointer value) ≡ Ok value) }
        ensures elsewhere { OnOk result
            (ChangesOnlyRange self.old self.new (Base.Object object) offset width) }
    {
        self.write(false, object, offset, width, value)
    }

    /// Reads `width` bytes as an integer, or eight as a pointer: LLVM Language Reference, "'load' Instruction". It is
    /// refused with `Access` where the range lies in no live object, and with `BadPointer` where a pointer is read from
    /// other cells than eight zero bytes or the pieces of one pointer.
    pub fn load(
        &self,
        base: Base,
        offset: u64,
        width: u32,
        pointer: bool,
    ) -> Result<Value, MemError>
        requires width { width ≤ 8 }
        requires pointer { pointer ≡ true → width ≡ 8 }
        ensures value { result ≡ loaded self.now base offset width pointer }
        ensures pointer { pointer ≡ true → ReadsPointer (cells_at self.now base offset width) result }
    {
        let Base::Object(number) = base else {
            return Err(MemError::Access);
        };
        let Some(at) = index_of(&self.objects, number) else {
            return Err(MemError::Access);
        };
        let object = self.objects[at];
        if !object.has_range(offset, width) {
            return Err(MemError::Access);
        }
        self.cells
            .read(object.start + offset as usize, width, pointer)
    }

    /// Writes a value of `width` bytes: LLVM Language Reference, "'store' Instruction". It is refused with `Access`
    /// where the range lies in no live object, or the object is constant.
    pub fn store(
        &mut self,
        base: Base,
        offset: u64,
        width: u32,
        value: Value,
    ) -> Result<(), MemError>
        requires width { width ≤ 8 }
        requires value { FitsIn width value }
        ensures ok { OnOk result (stored self.old base offset width value ≡ Ok self.new) }
        ensures err { IfErr result (λ e. stored self.old base offset width value ≡ Err e) }
        ensures unchanged { OnErr result (self.new ≡ self.old) }
        ensures next_stays { self.new.next ≡ self.old.next }
        ensures loads_back { OnOk result
            (loaded self.new base offset width (is_pointer value) ≡ Ok value) }
        ensures elsewhere { OnOk result (ChangesOnlyRange self.old self.new base offset width) }
    {
        match base {
            Base::Object(object) => self.write(true, object, offset, width, value),
            Base::Null | Base::Function(_) => Err(MemError::Access),
        }
    }

    /// Ends all objects numbered `object` or more, as those of a function that returns.
    pub fn drop_from(&mut self, object: u64)
        ensures value { self.new ≡ dropped self.old object }
        ensures ended { (i : ℕ) → object ≤ i → found self.new.live i ≡ None }
        ensures kept { (i : ℕ) → i < object → found self.new.live i ≡ found self.old.live i }
    {
        let keep = count_below(&self.objects, object);
        if keep == self.objects.len() {
            return;
        }
        let start = self.objects[keep].start;
        let ended = counted_cells(&self.objects[keep..]);
        self.objects.truncate(keep);
        self.cells.truncate(start);
        self.live_cells -= ended;
    }

    /// Writes a value; a constant object is refused where `protect` holds.
    #[inline(always)]
    fn write(
        &mut self,
        protect: bool,
        number: u64,
        offset: u64,
        width: u32,
        value: Value,
    ) -> Result<(), MemError>
        requires width { width ≤ 8 }
        requires value { FitsIn width value }
        ensures ok { OnOk result
            (written protect self.old number offset width value ≡ Ok self.new) }
        ensures err { IfErr result
            (λ e. written protect self.old number offset width value ≡ Err e) }
        ensures unchanged { OnErr result (self.new ≡ self.old) }
        ensures next_stays { self.new.next ≡ self.old.next }
        ensures loads_back { OnOk result
            (loaded self.new (Base.Object number) offset width (is_pointer value) ≡ Ok value) }
        ensures elsewhere { OnOk result
            (ChangesOnlyRange self.old self.new (Base.Object number) offset width) }
    {
        let Some(at) = index_of(&self.objects, number) else {
            return Err(MemError::Access);
        };
        let object = self.objects[at];
        if !object.may_write(protect, offset, width) {
            return Err(MemError::Access);
        }
        self.cells
            .write(object.start + offset as usize, width, value);
        Ok(())
    }
}
