// What the rows keep between any two steps, and what a step tells its seat.
use atomic_table::{Join, Play, Split, TableRule};
use count_core::{CoreView, Opening};
use std::marker::{Brand, PhantomData};

// The table has words alone.
#[derive(Drop)]
pub struct NoSlot;

pub struct Rows;

impl TableRule<NoSlot, CoreView, Opening> for Rows {
    ghost use Rattle.count_core.specs.CoreState.{core, IsCore};
    ghost use Rattle.count_core.specs.CoreView.{fresh};

    ghost holds = { λ k s. IsCore k.shares (core k.layout s.words s.views) };

    ghost first = { λ k. fresh k.shares };
}

// Numbers that a step's caller knows and the step itself cannot see: where a walk begins, or how
// many shares a new seat gets.
pub trait Known {
    ghost use Rattle.std.specs.Prelude.{ℕ};

    ghost site: { ℕ };

    ghost key: { ℕ };

    ghost shares: { ℕ };
}

impl Known for Brand {
    ghost site = { 0 };

    ghost key = { 0 };

    ghost shares = { 0 };
}

// A walk begins at the first place.
pub struct Begins<W> {
    walk: PhantomData<W>,
}

impl<W: Known> Play<NoSlot, CoreView> for Begins<W> {
    ghost use Rattle.value_rows.specs.Rows.{Began};

    ghost then = { λ _ m word n. Began W.site W.key m word n };
}

// The walk goes on to the next place.
pub struct GoesOn;

impl Play<NoSlot, CoreView> for GoesOn {
    ghost use Rattle.value_rows.specs.Rows.{WentOn};

    ghost then = { λ _ m word n. WentOn m word n };
}

// The walk claims its place, which it found empty.
pub struct Claims;

impl Play<NoSlot, CoreView> for Claims {
    ghost use Rattle.value_rows.specs.Rows.{Claimed};

    ghost then = { λ _ m word n. Claimed m word n };
}

// The walk ends.
pub struct Ends;

impl Play<NoSlot, CoreView> for Ends {
    ghost use Rattle.value_rows.specs.Rows.{Ended};

    ghost then = { λ _ m _ n. Ended m n };
}

pub struct Cuts<W> {
    shares: PhantomData<W>,
}

impl<W: Known> Split<CoreView> for Cuts<W> {
    ghost use Rattle.count_core.specs.CoreView.{fresh};
    ghost use Rattle.count_core.specs.CoreStep.{lessened};

    ghost left = { λ v. lessened v W.shares };

    ghost right = { λ _. fresh W.shares };
}

pub struct Merges;

impl Join<CoreView> for Merges {
    ghost use Rattle.count_core.specs.CoreView.{merged, spent};

    ghost both = { merged };

    ghost spent = { spent };
}
