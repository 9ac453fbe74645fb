use crate::rule::NoSlot;
use atomic_table::Seat;
use count_core::CoreView;
use std::marker::Model;

/// What one thread steps with. Contracts see the table it belongs to, its shares, and the sum that
/// it added to each counter, where a counter past the end of `sums` has the sum 0.
#[derive(Drop)]
pub struct CountSeat {
    pub(crate) seat: Seat<NoSlot, CoreView>,
}

impl Model for CountSeat {
    ghost use Rattle.std.specs.Prelude.{◌≡◌, ◌<◌, []};
    ghost use Rattle.counter_table.specs.Seen.{SeatSums, seat_sums_code};

    ghost Value = { SeatSums };

    ghost coded = { seat_sums_code };

    ghost view = { λ s. record { table = s.seat.table_id; shares = s.seat.me.0.shares; sums = s.seat.me.0.added } };

    ghost invariant = { λ s. (s.seat.me.1 ≡ []) × (0 < s.seat.me.0.shares) };
}
