// What a run tells its marks to: a seat of the counters and a seat of the rows.
ghost use Rattle.std.specs.Prelude.{◌≡◌, ◌≢◌};
ghost use Rattle.counted_call.specs.Marks.{key_of};

use counter_table::{CountSeat, CounterTable};
use ir_memory::{Base, address};
use ir_model::Probe;
use value_rows::{RowSeat, ValueRows};

/// The key of a function in the rows is its address, which is not 0.
fn row_key(callee: u32) -> u64
    ensures key { result ≡ key_of callee }
    ensures some { result ≢ 0 }
{
    address(Base::Function(callee), 0)
}

/// A worker's seats, each beside its table.
#[derive(Drop)]
pub struct TableProbe<'t, 's> {
    pub counters: &'t CounterTable,
    pub count_seat: &'s mut CountSeat,
    pub rows: &'t ValueRows,
    pub row_seat: &'s mut RowSeat,
    pub ghost counts_here: { count_seat.now.table ≡ counters.now.id },
    pub ghost asks_here: { row_seat.now.table ≡ rows.now.id },
}

impl Probe for TableProbe<'_, '_> {
    ghost use Rattle.std.specs.Prelude.{◌≡◌, refl};
    ghost use Rattle.std.proofs.Common.{◌∙◌};
    ghost use Rattle.counted_call.specs.Marks.{CountsGrew, AsksGrew, counts_stay, counts_more, asks_stay, asks_more};

    ghost after = { λ a es b. (b.counters.now ≡ a.counters.now) × (b.rows.now ≡ a.rows.now) × CountsGrew es a.count_seat.now b.count_seat.now × AsksGrew es a.row_seat.now b.row_seat.now × (b.count_seat.ghost_name ≡ a.count_seat.ghost_name) × (b.row_seat.ghost_name ≡ a.row_seat.ghost_name) };

    ghost counters = { λ a. a.counters.now.counters };

    ghost sites = { λ a. a.rows.now.sites };

    fn count(&mut self, counter: u32, step: u64) {
        self.counters.add(self.count_seat, counter, step);
    }

    fn target(&mut self, site: u32, callee: u32) {
        self.rows.note(self.row_seat, site, row_key(callee));
    }

    ghost none = { λ a. (refl, refl, counts_stay a.count_seat.now, asks_stay a.row_seat.now, refl, refl) };

    ghost more = { λ a b c xs ys h g. (g.0 ∙ h.0, g.1 ∙ h.1, counts_more xs ys a.count_seat.now b.count_seat.now c.count_seat.now h.2 g.2, asks_more xs ys a.row_seat.now b.row_seat.now c.row_seat.now h.3 g.3, g.4 ∙ h.4, g.5 ∙ h.5) };
}
