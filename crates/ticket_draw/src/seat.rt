use crate::rule::{NoSlot, TicketView};
use atomic_table::Seat;
use std::marker::Model;

/// What one thread draws with. Contracts see the table it belongs to, its shares, the numbers that
/// it drew, in order, and whether it has met the end.
#[derive(Drop)]
pub struct TicketSeat {
    pub(crate) seat: Seat<NoSlot, TicketView>,
}

impl Model for TicketSeat {
    ghost use Rattle.std.specs.Prelude.{◌≡◌, ◌<◌, []};
    ghost use Rattle.ticket_draw.specs.Seen.{SeatTickets, seat_tickets_code};

    ghost Value = { SeatTickets };

    ghost coded = { seat_tickets_code };

    ghost view = { λ s. record { table = s.seat.table_id; shares = s.seat.me.0.core.shares; drawn = s.seat.me.0.core.drawn; ended = s.seat.me.0.ended } };

    ghost invariant = { λ s. (s.seat.me.1 ≡ []) × (0 < s.seat.me.0.core.shares) };
}
