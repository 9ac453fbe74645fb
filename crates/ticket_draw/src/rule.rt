// What the tickets keep between any two steps, and what a step tells its seat.
use atomic_table::{Join, Play, Split, TableRule};
use count_core::{CoreView, Opening};
use std::marker::{Brand, PhantomData};

// The table has words alone.
#[derive(Drop)]
pub struct NoSlot;

// What a seat knows: its part of the core, and whether it has met the end. No value of it is made.
#[derive(Drop)]
pub struct TicketView {
    pub core: CoreView,
    pub ended: bool,
}

pub struct Tickets;

impl TableRule<NoSlot, TicketView, Opening> for Tickets {
    ghost use Rattle.ticket_draw.specs.Tickets.{IsTicketed, fresh_tickets};

    ghost holds = { λ k s. IsTicketed k.shares k.layout.numbers s.words s.views };

    ghost first = { λ k. fresh_tickets k.shares };
}

// Numbers that a step's caller knows and the step itself cannot see.
pub trait Known {
    ghost use Rattle.std.specs.Prelude.{ℕ};

    ghost shares: { ℕ };

    ghost numbers: { ℕ };
}

impl Known for Brand {
    ghost shares = { 0 };

    ghost numbers = { 0 };
}

// The known numbers are the shares of all seats, and the bound of what is drawn.
pub struct Draws<W> {
    known: PhantomData<W>,
}

impl<W: Known> Play<NoSlot, TicketView> for Draws<W> {
    ghost use Rattle.ticket_draw.specs.Tickets.{Drawn};

    ghost then = { λ _ m word n. Drawn W.shares W.numbers m word n };
}

pub struct Learns<W> {
    known: PhantomData<W>,
}

impl<W: Known> Play<NoSlot, TicketView> for Learns<W> {
    ghost use Rattle.ticket_draw.specs.Tickets.{Learned};

    ghost then = { λ _ m _ n. Learned W.shares W.numbers m n };
}

// The known shares are those of the new seat.
pub struct Cuts<W> {
    known: PhantomData<W>,
}

impl<W: Known> Split<TicketView> for Cuts<W> {
    ghost use Rattle.ticket_draw.specs.Tickets.{fresh_tickets, lessened_tickets};

    ghost left = { λ v. lessened_tickets v W.shares };

    ghost right = { λ _. fresh_tickets W.shares };
}

pub struct Merges;

impl Join<TicketView> for Merges {
    ghost use Rattle.ticket_draw.specs.Tickets.{merged_tickets, spent_tickets};

    ghost both = { merged_tickets };

    ghost spent = { spent_tickets };
}
