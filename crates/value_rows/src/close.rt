// The rows read off the words of a table that no thread shares any more.
ghost use Rattle.std.specs.Prelude.{◌≡◌, ◌≢◌, ℕ, ◌+◌, ◌*◌, ◌<◌, ◌≤◌, ◌^◌, [], length, slice_index, slice_index_or, IfOk};
ghost use Rattle.std.specs.Mem.Slots.{slots_items, slots_len, IsFull};
ghost use Rattle.value_rows.specs.Row.{no_row, Reads};

use crate::row::Row;
use crate::rule::NoSlot;
use atomic_table::Closed;
use seq::Seq;
use std::alloc::{AllocError, Global};
use std::mem;

// Rows with room for their places, so that filling them takes no memory.
pub fn blank_rows(alloc: Global, sites: u32, places: u32) -> Result<Vec<Row>, AllocError>
    ensures count { IfOk result (λ rows. length rows.items ≡ sites) }
    ensures room { IfOk result (λ rows. (site : ℕ) → site < sites → length (slice_index_or rows.items site no_row).kept ≡ places) }
{
    let mut rows = Vec::with_capacity(alloc, sites as usize)?;
    'rows: while rows.len() < sites as usize {
        let row = blank_row(alloc, places)?;
        rows.push(row)?;
    }
    Ok(rows)
}

fn blank_row(alloc: Global, places: u32) -> Result<Row, AllocError>
    ensures { IfOk result (λ row. length row.kept ≡ places) }
{
    let kept = vec![in alloc; (0, 0); places as usize]?;
    Ok(Row {
        kept: Seq::of(kept),
        dropped: 0,
    })
}

// How many places have a key. They are the first ones.
fn key_count(closed: &Closed<NoSlot, Global>, start: usize, places: u32) -> usize
    requires full { IsFull closed.now.words }
    requires start { start + 2 * places < slots_len closed.now.words }
    ensures few { result ≤ places }
    ensures keys { (p : ℕ) → p < result → slice_index (slots_items closed.now.words) (start + p) ≢ 0 }
    ensures ends { result < places → slice_index (slots_items closed.now.words) (start + result) ≡ 0 }
{
    let places = places as usize;
    for place in 0..places {
        if word_at(closed, start + place) == 0 {
            return place;
        }
    }
    places
}

fn word_at(closed: &Closed<NoSlot, Global>, at: usize) -> u64
    requires full { IsFull closed.now.words }
    requires at { at < slots_len closed.now.words }
    ensures { result ≡ slice_index (slots_items closed.now.words) at }
{
    closed.word(at)
}

// The first places, each with its key and its count.
fn copy_places(
    closed: &Closed<NoSlot, Global>,
    start: usize,
    places: u32,
    kept: &mut Vec<(u64, u64)>,
    count: usize,
)
    requires full { IsFull closed.now.words }
    requires start { start + 2 * places < slots_len closed.now.words }
    requires room { (length kept.old.items ≡ places) × (count ≤ places) }
    ensures room { length kept.new.items ≡ places }
    ensures copied { (p : ℕ) (d : ℕ × ℕ) → p < count → slice_index_or kept.new.items p d ≡ (slice_index (slots_items closed.now.words) (start + p), slice_index (slots_items closed.now.words) (start + (places + p))) }
{
    let places = places as usize;
    for place in 0..count {
        let key = word_at(closed, start + place);
        let asks = word_at(closed, start + (places + place));
        kept[place] = (key, asks);
    }
}

// The places that have a key, in order, with their counts. `kept` has room for all of them.
fn kept_of(
    closed: &Closed<NoSlot, Global>,
    start: usize,
    places: u32,
    mut kept: Vec<(u64, u64)>,
) -> Vec<(u64, u64)>
    requires full { IsFull closed.now.words }
    requires start { start + 2 * places < slots_len closed.now.words }
    requires room { length kept.items ≡ places }
    ensures { Reads (slots_items closed.now.words) start places result.items }
{
    let count = key_count(closed, start, places);
    copy_places(closed, start, places, &mut kept, count);
    kept.truncate(count);
    kept
}

fn fill_row(
    alloc: Global,
    closed: &Closed<NoSlot, Global>,
    start: usize,
    places: u32,
    row: &mut Row,
)
    requires full { IsFull closed.now.words }
    requires start { start + 2 * places < slots_len closed.now.words }
    requires room { length row.old.kept ≡ places }
    ensures kept { Reads (slots_items closed.now.words) start places row.new.kept }
    ensures dropped { row.new.dropped ≡ slice_index (slots_items closed.now.words) (start + 2 * places) }
{
    let room = mem::replace(&mut row.kept, Seq::new(alloc));
    row.kept = Seq::of(kept_of(closed, start, places, room.take()));
    row.dropped = word_at(closed, start + 2 * places as usize);
}

pub fn fill_rows(alloc: Global, closed: &Closed<NoSlot, Global>, places: u32, rows: &mut [Row])
    requires full { IsFull closed.now.words }
    requires words { slots_len closed.now.words ≡ length rows.old * (2 * places + 1) + 1 }
    requires room { (site : ℕ) → site < length rows.old → length (slice_index_or rows.old site no_row).kept ≡ places }
    ensures kept { (site : ℕ) → site < length rows.old → Reads (slots_items closed.now.words) (site * (2 * places + 1)) places (slice_index_or rows.new site no_row).kept }
    ensures dropped { (site : ℕ) → site < length rows.old → (slice_index_or rows.new site no_row).dropped ≡ slice_index (slots_items closed.now.words) (site * (2 * places + 1) + 2 * places) }
{
    let row = 2 * places as usize + 1;
    for site in 0..rows.len() {
        fill_row(alloc, closed, site * row, places, &mut rows[site]);
    }
}
