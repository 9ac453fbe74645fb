ghost use Rattle.std.specs.Prelude.{◌≡◌, ℕ, [], ◌+◌, ◌-◌, ◌%◌, ◌^◌, ◌<◌, length, slice_index, IfOk, IfErr};
ghost use Rattle.count_core.specs.CoreView.{raised, joined};

use crate::rule::{Adds, Counters, Cuts, Known, Merges, NoSlot, Reads};
use crate::seat::CountSeat;
use atomic_table::Table;
use count_core::{CoreView, Layout, Opening, one_did_all, steps_keep};
use pgo_base::NoMemory;
use std::alloc::Global;
use std::marker::{Brand, Model};

/// Counters, each a word of its own. Contracts see which table it is, how many counters it has, and
/// the shares of all its seats.
#[derive(Drop)]
pub struct CounterTable {
    table: Table<NoSlot, CoreView, Opening, Counters, Global>,
}

impl Model for CounterTable {
    ghost use Rattle.counter_table.specs.Seen.{TableSize, table_size_code};
    ghost use Rattle.counter_table.specs.Counters.{IsLaidOut};

    ghost Value = { TableSize };

    ghost coded = { table_size_code };

    ghost view = { λ t. record { id = t.table.shared.table_id; counters = t.table.shared.key.layout.counters; shares = t.table.shared.key.shares } };

    ghost invariant = { λ t. IsLaidOut t.table.shared.key t.table.shared.table_id };
}

impl CounterTable {
    /// A table whose counters are 0, and its first seat, which holds all shares. Needs at least one share.
    pub fn new(
        alloc: Global,
        counters: u32,
        shares: u32,
    ) -> Result<(CounterTable, CountSeat), NoMemory>
        requires { 0 < shares }
        ensures table { IfOk result (λ t. (t.0.counters ≡ counters) × (t.0.shares ≡ shares)) }
        ensures seat { IfOk result (λ t. t.1 ≡ record { table = t.0.id; shares = shares; sums = [] }) }
    {
        let layout = Layout {
            counters,
            sites: 0,
            places: 0,
            numbers: 0,
        };
        // The ticket word stands last, though nothing draws here.
        let words = vec![in alloc; 0; counters as usize + 1]?;
        let about = Opening { layout, shares };
        let (table, seat) = Table::of_words(alloc, words.as_slice(), &about)?;
        Ok((CounterTable { table }, CountSeat { seat }))
    }

    /// Adds `step` to a counter modulo 2^64, by one atomic addition.
    pub fn add(&self, seat: &mut CountSeat, index: u32, step: u64)
        requires seat { seat.old.table ≡ self.now.id }
        requires index { index < self.now.counters }
        ensures { seat.new ≡ record { table = seat.old.table; shares = seat.old.shares; sums = raised seat.old.sums index step } }
    {
        steps_keep();
        self.table
            .shared
            .fetch_add::<Adds>(&mut seat.seat, index as usize, step);
    }

    /// The counter at some moment of this call. A seat that holds all shares finds its own sum.
    pub fn read(&self, seat: &mut CountSeat, index: u32) -> u64
        requires seat { seat.old.table ≡ self.now.id }
        requires index { index < self.now.counters }
        ensures same { seat.new ≡ seat.old }
        ensures whole { seat.old.shares ≡ self.now.shares → result ≡ slice_index seat.old.sums index % 2 ^ 64 }
    {
        self.find::<Brand>(seat, index)
    }

    fn find<W: Known>(&self, seat: &mut CountSeat, index: u32) -> u64
        requires seat { seat.old.table ≡ self.now.id }
        requires index { index < self.now.counters }
        requires known { self.now.shares ≡ W.known }
        ensures same { seat.new ≡ seat.old }
        ensures whole { seat.old.shares ≡ W.known → result ≡ slice_index seat.old.sums index % 2 ^ 64 }
    {
        one_did_all();
        self.table
            .shared
            .load::<Reads<W>>(&mut seat.seat, index as usize)
    }

    /// Gives some of the seat's shares to a new seat, which has added nothing.
    pub fn split(&self, seat: &mut CountSeat, shares: u32) -> CountSeat
        requires seat { seat.old.table ≡ self.now.id }
        requires shares { (0 < shares) × (shares < seat.old.shares) }
        ensures kept { seat.new ≡ record { table = seat.old.table; shares = seat.old.shares - shares; sums = seat.old.sums } }
        ensures given { result ≡ record { table = seat.old.table; shares = shares; sums = [] } }
    {
        self.cut::<Brand>(seat, shares)
    }

    fn cut<W: Known>(&self, seat: &mut CountSeat, shares: u32) -> CountSeat
        requires seat { seat.old.table ≡ self.now.id }
        requires shares { (0 < shares) × (shares < seat.old.shares) }
        requires known { shares ≡ W.known }
        ensures kept { seat.new ≡ record { table = seat.old.table; shares = seat.old.shares - W.known; sums = seat.old.sums } }
        ensures given { result ≡ record { table = seat.old.table; shares = W.known; sums = [] } }
    {
        steps_keep();
        let seat = self.table.shared.split_seat::<Cuts<W>>(&mut seat.seat);
        CountSeat { seat }
    }

    /// Takes in the other seat's shares and sums.
    pub fn join(&self, seat: &mut CountSeat, other: CountSeat)
        requires seat { seat.old.table ≡ self.now.id }
        requires other { other.table ≡ self.now.id }
        ensures { seat.new ≡ record { table = seat.old.table; shares = seat.old.shares + other.shares; sums = joined seat.old.sums other.sums } }
    {
        steps_keep();
        let CountSeat { seat: other } = other;
        self.table.shared.join_seat::<Merges>(&mut seat.seat, other);
    }

    /// The counters, which are the sums of a seat that holds all shares, modulo 2^64. Without memory
    /// the table and the seat come back as they were.
    pub fn close(
        self,
        alloc: Global,
        seat: CountSeat,
    ) -> Result<Vec<u64>, (NoMemory, CounterTable, CountSeat)>
        requires seat { seat.table ≡ self.id }
        requires whole { seat.shares ≡ self.shares }
        ensures count { IfOk result (λ words. length words.items ≡ self.counters) }
        ensures sums { IfOk result (λ words. (c : ℕ) → c < self.counters → slice_index words.items c ≡ slice_index seat.sums c % 2 ^ 64) }
        ensures err { IfErr result (λ e. (e.1 ≡ self) × (e.2 ≡ seat)) }
    {
        let count = self.table.word_count() - 1;
        let Ok(mut words) = vec![in alloc; 0; count] else {
            return Err((NoMemory, self, seat));
        };
        self.close_into(seat, words.as_mut_slice());
        Ok(words)
    }

    fn close_into(self, seat: CountSeat, words: &mut [u64])
        requires seat { seat.table ≡ self.id }
        requires whole { seat.shares ≡ self.shares }
        requires count { length words.old ≡ self.counters }
        ensures { (c : ℕ) → c < self.counters → slice_index words.new c ≡ slice_index seat.sums c % 2 ^ 64 }
    {
        one_did_all();
        let CounterTable { table } = self;
        let CountSeat { seat } = seat;
        let closed = table.close_with(seat);
        for i in 0..words.len() {
            words[i] = closed.word(i);
        }
        closed.free();
    }
}
