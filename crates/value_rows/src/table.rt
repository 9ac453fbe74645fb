ghost use Rattle.std.specs.Prelude.{◌≡◌, ◌≢◌, ℕ, [], ◌∷◌, ◌++◌, ◌+◌, ◌-◌, ◌*◌, ◌^◌, ◌<◌, ◌≤◌, length, slice_index_or, IfOk, IfErr};
ghost use Rattle.count_core.specs.Layout.{key_at, count_at, dropped_at, word_count};
ghost use Rattle.value_rows.specs.Seen.{layout_of};
ghost use Rattle.value_rows.specs.Row.{IsExact, keys_asked, no_row};

use crate::close::{blank_rows, fill_rows};
use crate::row::Row;
use crate::rule::{Cuts, Known, Merges, NoSlot, Rows};
use crate::seat::RowSeat;
use atomic_table::Table;
use count_core::{CoreView, Layout, Opening, kept_keys_stand, one_did_all, steps_keep};
use pgo_base::NoMemory;
use std::alloc::{AllocError, Global};
use std::marker::{Brand, Model};

/// Rows of keys, one a site. Contracts see which table it is, how many sites it has, the places of
/// a row, and the shares of all its seats.
#[derive(Drop)]
pub struct ValueRows {
    pub(crate) table: Table<NoSlot, CoreView, Opening, Rows, Global>,
    sites: u32,
    places: u32,
}

impl Model for ValueRows {
    ghost use Rattle.value_rows.specs.Seen.{RowsSize, rows_size_code};
    ghost use Rattle.value_rows.specs.Rows.{IsLaidOut};

    ghost Value = { RowsSize };

    ghost coded = { rows_size_code };

    ghost view = { λ t. record { id = t.table.shared.table_id; sites = t.sites; places = t.places; shares = t.table.shared.key.shares } };

    ghost invariant = { λ t. IsLaidOut t.sites t.places t.table.shared.key t.table.shared.table_id };
}

impl ValueRows {
    /// Empty rows of `places` places, and the first seat, which holds all shares. Needs 1 to 24
    /// places and 1 to 65 shares.
    pub fn new(
        alloc: Global,
        sites: u32,
        places: u32,
        shares: u32,
    ) -> Result<(ValueRows, RowSeat), NoMemory>
        requires places { (0 < places) × (places ≤ 24) }
        requires shares { 0 < shares }
        ensures table { IfOk result (λ t. (t.0.sites ≡ sites) × (t.0.places ≡ places) × (t.0.shares ≡ shares)) }
        ensures seat { IfOk result (λ t. t.1 ≡ record { table = t.0.id; shares = shares; asked = [] }) }
    {
        let layout = Layout {
            counters: 0,
            sites,
            places,
            numbers: 0,
        };
        let row = 2 * places as usize + 1;
        // The ticket word stands last, though nothing draws here.
        let words = vec![in alloc; 0; sites as usize * row + 1]?;
        let about = Opening { layout, shares };
        let (table, seat) = Table::of_words(alloc, words.as_slice(), &about)?;
        let rows = ValueRows {
            table,
            sites,
            places,
        };
        Ok((rows, RowSeat { seat }))
    }

    pub(crate) fn place_count(&self) -> u32
        ensures places { result ≡ self.now.places }
        ensures some { (0 < self.now.places) × (self.now.places ≤ 24) }
    {
        self.places
    }

    fn site_word(&self, site: u32) -> usize
        requires { site < self.now.sites }
        ensures at { result ≡ site * (2 * self.now.places + 1) }
        ensures small { result < 2 ^ 40 }
    {
        site as usize * (2 * self.places as usize + 1)
    }

    pub(crate) fn key_word(&self, site: u32, place: u32) -> usize
        requires site { site < self.now.sites }
        requires place { place < self.now.places }
        ensures { result ≡ key_at (layout_of self.now) site place }
    {
        self.site_word(site) + place as usize
    }

    pub(crate) fn count_word(&self, site: u32, place: u32) -> usize
        requires site { site < self.now.sites }
        requires place { place < self.now.places }
        ensures { result ≡ count_at (layout_of self.now) site place }
    {
        self.site_word(site) + (self.places as usize + place as usize)
    }

    pub(crate) fn dropped_word(&self, site: u32) -> usize
        requires { site < self.now.sites }
        ensures { result ≡ dropped_at (layout_of self.now) site }
    {
        self.site_word(site) + 2 * self.places as usize
    }

    /// Notes that the site met the key, which is not 0. Walks the places from the first, claims an
    /// empty one by a single compare and exchange, and goes on with the winner's key where it lost.
    /// It ends by one addition to the count of the key, or to the dropped word where every place has
    /// another key.
    pub fn note(&self, seat: &mut RowSeat, site: u32, key: u64)
        requires seat { seat.old.table ≡ self.now.id }
        requires site { site < self.now.sites }
        requires key { key ≢ 0 }
        ensures { seat.new ≡ record { table = seat.old.table; shares = seat.old.shares; asked = seat.old.asked ++ (site, key) ∷ [] } }
    {
        self.ask(&mut seat.seat, site, key);
    }

    /// Gives some of the seat's shares to a new seat, which has asked for nothing.
    pub fn split(&self, seat: &mut RowSeat, shares: u32) -> RowSeat
        requires seat { seat.old.table ≡ self.now.id }
        requires shares { (0 < shares) × (shares < seat.old.shares) }
        ensures kept { seat.new ≡ record { table = seat.old.table; shares = seat.old.shares - shares; asked = seat.old.asked } }
        ensures given { result ≡ record { table = seat.old.table; shares = shares; asked = [] } }
    {
        self.cut::<Brand>(seat, shares)
    }

    fn cut<W: Known>(&self, seat: &mut RowSeat, shares: u32) -> RowSeat
        requires seat { seat.old.table ≡ self.now.id }
        requires shares { (0 < shares) × (shares < seat.old.shares) }
        requires known { shares ≡ W.shares }
        ensures kept { seat.new ≡ record { table = seat.old.table; shares = seat.old.shares - W.shares; asked = seat.old.asked } }
        ensures given { result ≡ record { table = seat.old.table; shares = W.shares; asked = [] } }
    {
        steps_keep();
        let seat = self.table.shared.split_seat::<Cuts<W>>(&mut seat.seat);
        RowSeat { seat }
    }

    /// Takes in the other seat's shares, and puts what it asked for behind the seat's own.
    pub fn join(&self, seat: &mut RowSeat, other: RowSeat)
        requires seat { seat.old.table ≡ self.now.id }
        requires other { other.table ≡ self.now.id }
        ensures { seat.new ≡ record { table = seat.old.table; shares = seat.old.shares + other.shares; asked = seat.old.asked ++ other.asked } }
    {
        steps_keep();
        let RowSeat { seat: other } = other;
        self.table.shared.join_seat::<Merges>(&mut seat.seat, other);
    }

    /// The row of each site, exact for what a seat that holds all shares asked for there, where that
    /// is less than 2^64 asks. Without memory the table and the seat come back as they were.
    pub fn close(
        self,
        alloc: Global,
        seat: RowSeat,
    ) -> Result<Vec<Row>, (NoMemory, ValueRows, RowSeat)>
        requires seat { seat.table ≡ self.id }
        requires whole { seat.shares ≡ self.shares }
        ensures count { IfOk result (λ rows. length rows.items ≡ self.sites) }
        ensures exact { IfOk result (λ rows. (site : ℕ) → site < self.sites → length (keys_asked site seat.asked) < 2 ^ 64 → IsExact self.places (keys_asked site seat.asked) (slice_index_or rows.items site no_row)) }
        ensures err { IfErr result (λ e. (e.1 ≡ self) × (e.2 ≡ seat)) }
    {
        let Ok(mut rows) = blank_rows(alloc, self.sites, self.places) else {
            return Err((NoMemory, self, seat));
        };
        self.close_into(alloc, seat, rows.as_mut_slice());
        Ok(rows)
    }

    fn close_into(self, alloc: Global, seat: RowSeat, rows: &mut [Row])
        requires seat { seat.table ≡ self.id }
        requires whole { seat.shares ≡ self.shares }
        requires rows { (length rows.old ≡ self.sites) × ((site : ℕ) → site < self.sites → length (slice_index_or rows.old site no_row).kept ≡ self.places) }
        ensures { (site : ℕ) → site < self.sites → length (keys_asked site seat.asked) < 2 ^ 64 → IsExact self.places (keys_asked site seat.asked) (slice_index_or rows.new site no_row) }
    {
        one_did_all();
        kept_keys_stand();
        let ValueRows {
            table,
            sites: _,
            places,
        } = self;
        let RowSeat { seat } = seat;
        let closed = table.close_with(seat);
        fill_rows(alloc, &closed, places, rows);
        closed.free();
    }
}
