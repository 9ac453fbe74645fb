// What the counters keep between any two steps, and what a step tells its seat.
use atomic_table::{Join, Play, Split, TableRule};
use count_core::{CoreView, Opening};
use std::marker::{Brand, PhantomData};

// The table has words alone.
#[derive(Drop)]
pub struct NoSlot;

pub struct Counters;

impl TableRule<NoSlot, CoreView, Opening> for Counters {
    ghost use Rattle.count_core.specs.CoreState.{core, IsSound};
    ghost use Rattle.count_core.specs.CoreView.{fresh};

    ghost holds = { λ k s. IsSound k.shares (core k.layout s.words s.views) };

    ghost first = { λ k. fresh k.shares };
}

// A number that a step's caller knows and the step itself cannot see.
pub trait Known {
    ghost use Rattle.std.specs.Prelude.{ℕ};

    ghost known: { ℕ };
}

impl Known for Brand {
    ghost known = { 0 };
}

pub struct Adds;

impl Play<NoSlot, CoreView> for Adds {
    ghost use Rattle.counter_table.specs.Counters.{Added};

    ghost then = { λ step m _ n. Added step.word step.first m n };
}

// The known number is that of all shares.
pub struct Reads<W> {
    shares: PhantomData<W>,
}

impl<W: Known> Play<NoSlot, CoreView> for Reads<W> {
    ghost use Rattle.counter_table.specs.Counters.{Found};

    ghost then = { λ step m word n. Found W.known step.word m word n };
}

// The known number is that of the new seat's shares.
pub struct Cuts<W> {
    shares: PhantomData<W>,
}

impl<W: Known> Split<CoreView> for Cuts<W> {
    ghost use Rattle.count_core.specs.CoreView.{fresh};
    ghost use Rattle.count_core.specs.CoreStep.{lessened};

    ghost left = { λ v. lessened v W.known };

    ghost right = { λ _. fresh W.known };
}

pub struct Merges;

impl Join<CoreView> for Merges {
    ghost use Rattle.count_core.specs.CoreView.{merged, spent};

    ghost both = { merged };

    ghost spent = { spent };
}
