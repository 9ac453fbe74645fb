//! The live objects of a memory, and the look-up by number.
ghost use Rattle.std.specs.Prelude.{◌≡◌, ◌≤◌, true, length, sum_by, MatchOption};
ghost use Rattle.ir_memory.specs.Objects.{AreRising, HasNone, IsCut, IsPlace, counted_size, has_range, may_write};

use crate::memory::CELL_LIMIT;

/// A live object: its number, which of the memory's cells are its own, and whether stores to it are refused.
#[derive(Clone, Copy, Debug)]
pub struct LiveObject {
    pub number: u64,
    pub start: usize,
    pub size: usize,
    pub constant: bool,
}

impl LiveObject {
    /// Whether the `width` cells from `offset` on lie in the object.
    #[inline(always)]
    pub fn has_range(&self, offset: u64, width: u32) -> bool
        ensures { result ≡ has_range offset width self.now }
    {
        let (size, width) = (self.size as u64, u64::from(width));
        width <= size && offset <= size - width
    }

    /// Whether a value of `width` bytes may be written at `offset`; a constant takes none where `protect` holds.
    #[inline(always)]
    pub fn may_write(&self, protect: bool, offset: u64, width: u32) -> bool
        ensures { result ≡ may_write protect offset width self.now }
    {
        !(protect && self.constant) && self.has_range(offset, width)
    }
}

/// Where the object with a number stands. Numbers are dense among the objects that were made first, and mostly among the
/// last ones, so that both places where it stands then are tried before a search.
#[inline(always)]
pub fn index_of(objects: &[LiveObject], number: u64) -> Option<usize>
    requires { AreRising objects.now }
    ensures { MatchOption result (HasNone objects.now number) (λ at. IsPlace objects.now number at) }
{
    let from_start = number as usize;
    if is_place(objects, number, from_start) {
        return Some(from_start);
    }
    let from_end = place_from_end(objects, number);
    if is_place(objects, number, from_end) {
        return Some(from_end);
    }
    searched(objects, number)
}

#[inline(always)]
fn is_place(objects: &[LiveObject], number: u64, at: usize) -> bool
    ensures { result ≡ true → IsPlace objects.now number at }
{
    at < objects.len() && objects[at].number == number
}

/// Where the object stands if no number is left out between it and the last object.
#[inline(always)]
fn place_from_end(objects: &[LiveObject], number: u64) -> usize {
    match objects.last() {
        Some(last) => (objects.len() - 1).wrapping_sub(last.number.wrapping_sub(number) as usize),
        None => 0,
    }
}

#[cold]
fn searched(objects: &[LiveObject], number: u64) -> Option<usize>
    requires { AreRising objects.now }
    ensures { MatchOption result (HasNone objects.now number) (λ at. IsPlace objects.now number at) }
{
    match objects.binary_search_by_key(&number, |o| o.number) {
        Ok(at) => Some(at),
        Err(_) => None,
    }
}

/// How many objects at the front have a number below `number`. The object with that number is mostly the last one, or
/// no number is left out after it.
#[inline(always)]
pub fn count_below(objects: &[LiveObject], number: u64) -> usize
    requires { AreRising objects.now }
    ensures { IsCut objects.now number result }
{
    if all_below(objects, number) {
        return objects.len();
    }
    let from_end = place_from_end(objects, number);
    if is_place(objects, number, from_end) {
        return from_end;
    }
    cut(objects, number)
}

#[inline(always)]
fn all_below(objects: &[LiveObject], number: u64) -> bool
    requires { AreRising objects.now }
    ensures { result ≡ true → IsCut objects.now number (length objects.now) }
{
    let len = objects.len();
    len == 0 || objects[len - 1].number < number
}

#[cold]
fn cut(objects: &[LiveObject], number: u64) -> usize
    requires { AreRising objects.now }
    ensures { IsCut objects.now number result }
{
    objects.partition_point(|o| o.number < number)
}

/// How many cells the objects count as.
pub fn counted_cells(objects: &[LiveObject]) -> u64
    requires { sum_by counted_size objects.now ≤ CELL_LIMIT }
    ensures { result ≡ sum_by counted_size objects.now }
{
    let mut all = 0;
    for o in objects {
        all += (o.size as u64).max(1);
    }
    all
}
