use crate::rule::NoSlot;
use atomic_table::Seat;
use count_core::CoreView;
use std::marker::Model;

/// What one thread steps with. Contracts see the table it belongs to, its shares, and the (site, key)
/// of each call of `note`, in order.
#[derive(Drop)]
pub struct RowSeat {
    pub(crate) seat: Seat<NoSlot, CoreView>,
}

impl Model for RowSeat {
    ghost use Rattle.std.specs.Prelude.{◌≡◌, ◌<◌, []};
    ghost use Rattle.value_rows.specs.Seen.{SeatAsks, seat_asks_code};
    ghost use Rattle.value_rows.specs.Rows.{IsResting};

    ghost Value = { SeatAsks };

    ghost coded = { seat_asks_code };

    ghost view = { λ s. record { table = s.seat.table_id; shares = s.seat.me.0.shares; asked = s.seat.me.0.asked } };

    ghost invariant = { λ s. IsResting s.seat.me };
}
