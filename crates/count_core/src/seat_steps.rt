// The steps that cut a view in two and join two views.
ghost use Rattle.std.specs.Prelude.{◌≡◌, ℕ, ◌+◌, ◌<◌, ◌≤◌, ◌^◌, IsTrue, IfOk, OnOk, OnErr, length, slice_index};
ghost use Rattle.count_core.specs.CoreView.{merged};
ghost use Rattle.count_core.specs.CoreStep.{after, seen, lessened, view_of};
ghost use Rattle.count_core.specs.Play.{IsReady, can_play};

use crate::state::{CoreState, CoreView, fresh_view};
use crate::step::CoreStep;
use crate::sums::joined_sums;
use seq::Seq;
use std::alloc::{AllocError, Global};

pub fn split(alloc: Global, state: &mut CoreState, seat: u32, shares: u32) -> Result<(), AllocError>
    requires ready { IsReady state.old }
    requires playable { IsTrue (can_play state.old (CoreStep.Split seat shares)) }
    ensures ok { OnOk result (state.new ≡ after state.old (CoreStep.Split seat shares)) }
    ensures err { OnErr result (state.new ≡ state.old) }
{
    state.views.push(fresh_view(alloc, shares))?;
    give_away(state, seat, shares);
    Ok(())
}

fn give_away(state: &mut CoreState, seat: u32, shares: u32)
    requires seat { seat < length state.old.views }
    requires shares { shares ≤ (view_of state.old seat).shares }
    ensures { state.new ≡ seen state.old seat (lessened (view_of state.old seat) shares) }
{
    let view = &mut state.views.as_mut_slice()[seat as usize];
    view.shares -= shares;
}

fn view_at(state: &CoreState, seat: u32) -> &CoreView
    requires { seat < length state.now.views }
    ensures { result.now ≡ view_of state.now seat }
{
    &state.views.as_slice()[seat as usize]
}

fn merged_view(alloc: Global, first: &CoreView, second: &CoreView) -> Result<CoreView, AllocError>
    requires shares { first.now.shares + second.now.shares < 2 ^ 32 }
    requires sums { (c : ℕ) → slice_index first.now.added c + slice_index second.now.added c < 2 ^ 128 }
    ensures { IfOk result (λ view. view ≡ merged first.now second.now) }
{
    let shares = first.shares + second.shares;
    let added = joined_sums(alloc, first.added.as_slice(), second.added.as_slice())?;
    let asked = Seq::concat(alloc, first.asked.as_slice(), second.asked.as_slice())?;
    let drawn = Seq::concat(alloc, first.drawn.as_slice(), second.drawn.as_slice())?;
    Ok(CoreView {
        shares,
        added,
        asked,
        drawn,
        walking: first.walking,
    })
}

fn merged_seats(
    alloc: Global,
    state: &CoreState,
    seat: u32,
    other: u32,
) -> Result<CoreView, AllocError>
    requires ready { IsReady state.now }
    requires playable { IsTrue (can_play state.now (CoreStep.Join seat other)) }
    ensures { IfOk result (λ view. view ≡ merged (view_of state.now seat) (view_of state.now other)) }
{
    let first = view_at(state, seat);
    let second = view_at(state, other);
    merged_view(alloc, first, second)
}

pub fn join(alloc: Global, state: &mut CoreState, seat: u32, other: u32) -> Result<(), AllocError>
    requires ready { IsReady state.old }
    requires playable { IsTrue (can_play state.old (CoreStep.Join seat other)) }
    ensures ok { OnOk result (state.new ≡ after state.old (CoreStep.Join seat other)) }
    ensures err { OnErr result (state.new ≡ state.old) }
{
    let both = merged_seats(alloc, state, seat, other)?;
    let views = state.views.as_mut_slice();
    views[seat as usize] = both;
    views[other as usize] = fresh_view(alloc, 0);
    Ok(())
}
