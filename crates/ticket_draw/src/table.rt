ghost use Rattle.std.specs.Prelude.{◌≡◌, ℕ, [], ◌∷◌, ◌++◌, ◌+◌, ◌-◌, ◌^◌, ◌<◌, ◌≤◌, true, false, ◌||◌, length, IfOk, IfSome, IfNone};
ghost use Rattle.ticket_draw.specs.Tickets.{DrewEachOnce, seat_after};

use crate::rule::{Cuts, Draws, Known, Learns, Merges, NoSlot, TicketView, Tickets};
use crate::seat::TicketSeat;
use atomic_table::Table;
use count_core::{Layout, Opening, one_did_all, steps_keep};
use pgo_base::NoMemory;
use std::alloc::Global;
use std::marker::{Brand, Model};

/// One word that counts the draws. Contracts see which table it is, the number below which it draws,
/// and the shares of all its seats.
#[derive(Drop)]
pub struct TicketDraw {
    table: Table<NoSlot, TicketView, Opening, Tickets, Global>,
    numbers: u32,
}

impl Model for TicketDraw {
    ghost use Rattle.ticket_draw.specs.Seen.{DrawSize, draw_size_code};
    ghost use Rattle.ticket_draw.specs.Tickets.{IsLaidOut};

    ghost Value = { DrawSize };

    ghost coded = { draw_size_code };

    ghost view = { λ t. record { id = t.table.shared.table_id; numbers = t.numbers; shares = t.table.shared.key.shares } };

    ghost invariant = { λ t. IsLaidOut t.numbers t.table.shared.key t.table.shared.table_id };
}

impl TicketDraw {
    /// Draws the numbers below `numbers`, at most 4,294,967,231, and its first seat holds all shares.
    /// Needs 1 to 65 shares. Where each is drawn, the ticket word stays below 2^32.
    pub fn new(
        alloc: Global,
        numbers: u32,
        shares: u32,
    ) -> Result<(TicketDraw, TicketSeat), NoMemory>
        requires numbers { numbers ≤ 4294967231 }
        requires shares { (0 < shares) × (shares ≤ 65) }
        ensures table { IfOk result (λ t. (t.0.numbers ≡ numbers) × (t.0.shares ≡ shares)) }
        ensures seat { IfOk result (λ t. t.1 ≡ record { table = t.0.id; shares = shares; drawn = []; ended = false }) }
    {
        let layout = Layout {
            counters: 0,
            sites: 0,
            places: 0,
            numbers,
        };
        let about = Opening { layout, shares };
        let (table, seat) = Table::of_words(alloc, [0].as_slice(), &about)?;
        Ok((TicketDraw { table, numbers }, TicketSeat { seat }))
    }

    /// Draws the next number by one atomic addition. `None` comes exactly where the number found is
    /// not below the table's: the seat has then met the end, and draws no more.
    pub fn draw(&self, seat: &mut TicketSeat) -> Option<u32>
        requires seat { seat.old.table ≡ self.now.id }
        requires more { seat.old.ended ≡ false }
        ensures some { IfSome result (λ n. (n < self.now.numbers) × (seat.new ≡ record { table = seat.old.table; shares = seat.old.shares; drawn = seat.old.drawn ++ n ∷ []; ended = false })) }
        ensures none { IfNone result (seat.new ≡ record { table = seat.old.table; shares = seat.old.shares; drawn = seat.old.drawn; ended = true }) }

        // Who holds all shares and finds no number has drawn each one once.
        ensures whole { IfNone result (seat.old.shares ≡ self.now.shares → DrewEachOnce self.now.numbers seat.new.drawn) }

        // No seat draws more numbers than there are.
        ensures few { length seat.new.drawn ≤ self.now.numbers }
    {
        let found = self.take::<Brand>(seat);
        if found < u64::from(self.numbers) {
            Some(found as u32)
        } else {
            None
        }
    }

    fn take<W: Known>(&self, seat: &mut TicketSeat) -> u64
        requires seat { seat.old.table ≡ self.now.id }
        requires more { seat.old.ended ≡ false }
        requires known { (self.now.shares ≡ W.shares) × (self.now.numbers ≡ W.numbers) }
        ensures seat { seat.new ≡ seat_after seat.old result W.numbers }
        ensures whole { seat.old.shares ≡ W.shares → W.numbers ≤ result → DrewEachOnce W.numbers seat.new.drawn }
        ensures few { length seat.new.drawn ≤ W.numbers }
    {
        steps_keep();
        one_did_all();
        self.table
            .shared
            .fetch_add::<Draws<W>>(&mut seat.seat, 0, 1)
    }

    /// Gives some of the seat's shares to a new seat, which has drawn nothing.
    pub fn split(&self, seat: &mut TicketSeat, shares: u32) -> TicketSeat
        requires seat { seat.old.table ≡ self.now.id }
        requires more { seat.old.ended ≡ false }
        requires shares { (0 < shares) × (shares < seat.old.shares) }
        ensures kept { seat.new ≡ record { table = seat.old.table; shares = seat.old.shares - shares; drawn = seat.old.drawn; ended = false } }
        ensures given { result ≡ record { table = seat.old.table; shares = shares; drawn = []; ended = false } }
    {
        self.cut::<Brand>(seat, shares)
    }

    fn cut<W: Known>(&self, seat: &mut TicketSeat, shares: u32) -> TicketSeat
        requires seat { seat.old.table ≡ self.now.id }
        requires more { seat.old.ended ≡ false }
        requires shares { (0 < shares) × (shares < seat.old.shares) }
        requires known { shares ≡ W.shares }
        ensures kept { seat.new ≡ record { table = seat.old.table; shares = seat.old.shares - W.shares; drawn = seat.old.drawn; ended = seat.old.ended } }
        ensures given { result ≡ record { table = seat.old.table; shares = W.shares; drawn = []; ended = false } }
    {
        steps_keep();
        let seat = self.table.shared.split_seat::<Cuts<W>>(&mut seat.seat);
        TicketSeat { seat }
    }

    /// Takes in the other seat's shares and numbers. The seat has met the end where either had.
    pub fn join(&self, seat: &mut TicketSeat, other: TicketSeat)
        requires seat { seat.old.table ≡ self.now.id }
        requires other { other.table ≡ self.now.id }
        ensures joined { seat.new ≡ record { table = seat.old.table; shares = seat.old.shares + other.shares; drawn = seat.old.drawn ++ other.drawn; ended = seat.old.ended || other.ended } }

        // Who holds all shares and has met the end has drawn each number once.
        ensures whole { seat.new.shares ≡ self.now.shares → seat.new.ended ≡ true → DrewEachOnce self.now.numbers seat.new.drawn }
    {
        self.merge(seat, other);
        self.learn::<Brand>(seat);
    }

    fn merge(&self, seat: &mut TicketSeat, other: TicketSeat)
        requires seat { seat.old.table ≡ self.now.id }
        requires other { other.table ≡ self.now.id }
        ensures { seat.new ≡ record { table = seat.old.table; shares = seat.old.shares + other.shares; drawn = seat.old.drawn ++ other.drawn; ended = seat.old.ended || other.ended } }
    {
        steps_keep();
        let TicketSeat { seat: other } = other;
        self.table.shared.join_seat::<Merges>(&mut seat.seat, other);
    }

    // A look at the ticket word, which tells a seat with all shares what it has drawn.
    fn learn<W: Known>(&self, seat: &mut TicketSeat)
        requires seat { seat.old.table ≡ self.now.id }
        requires known { (self.now.shares ≡ W.shares) × (self.now.numbers ≡ W.numbers) }
        ensures same { seat.new ≡ seat.old }
        ensures whole { seat.old.shares ≡ W.shares → seat.old.ended ≡ true → DrewEachOnce W.numbers seat.old.drawn }
    {
        one_did_all();
        self.table.shared.load::<Learns<W>>(&mut seat.seat, 0);
    }

    /// Lets the table and the seat go. Needs a seat that holds all shares. Takes no memory.
    pub fn close(self, seat: TicketSeat)
        requires seat { seat.table ≡ self.id }
        requires whole { seat.shares ≡ self.shares }
    {
        let TicketDraw { table, numbers: _ } = self;
        let TicketSeat { seat } = seat;
        table.close_with(seat).free();
    }
}
