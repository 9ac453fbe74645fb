ghost use Rattle.std.specs.Prelude.{◌≡◌, ◌↔◌, IsTrue, IsFalse, OnOk, OnErr, Err, sum_by};
ghost use Rattle.count_core.specs.CoreView.{shares_of};
ghost use Rattle.count_core.specs.CoreStep.{after};
ghost use Rattle.count_core.specs.Play.{IsReady, can_play};

use crate::allowed::is_playable;
use crate::row_steps::{add_count, add_dropped, claim_key, load_key};
use crate::seat_steps::{join, split};
use crate::state::CoreState;
use crate::step::{CoreStep, PlayError};
use crate::word_steps::{add, draw};
use std::alloc::{AllocError, Global};

/// Makes one step of the machine, for tests of what is built on it.
///
/// `NotAllowed` comes exactly where the step is not allowed in the state, or where it is an `Add` by
/// which the sum of one counter over all views would reach 2^128. After an error the state is as
/// it was.
pub fn play(alloc: Global, state: &mut CoreState, step: &CoreStep) -> Result<(), PlayError>
    requires { IsReady state.old }
    ensures not_allowed { (result ≡ Err PlayError.NotAllowed) ↔ IsFalse (can_play state.old step.now) }
    ensures ok { OnOk result (state.new ≡ after state.old step.now) }
    ensures err { OnErr result (state.new ≡ state.old) }

    // The invariant holds again, for the same opening number of shares.
    ensures ready { IsReady state.new }
    ensures shares { sum_by shares_of state.new.views ≡ sum_by shares_of state.old.views }
{
    if !is_playable(state, step) {
        return Err(PlayError::NotAllowed);
    }
    match make(alloc, state, step) {
        Ok(()) => Ok(()),
        Err(AllocError) => Err(PlayError::NoMemory),
    }
}

fn make(alloc: Global, state: &mut CoreState, step: &CoreStep) -> Result<(), AllocError>
    requires ready { IsReady state.old }
    requires playable { IsTrue (can_play state.old step.now) }
    ensures ok { OnOk result (state.new ≡ after state.old step.now) }
    ensures err { OnErr result (state.new ≡ state.old) }
{
    match *step {
        CoreStep::Add { seat, index, step } => add(alloc, state, seat, index, step),
        CoreStep::Read { seat: _, index: _ } => Ok(()),
        CoreStep::LoadKey {
            seat,
            site,
            key,
            place,
        } => {
            load_key(state, seat, site, key, place);
            Ok(())
        }
        CoreStep::ClaimKey { seat, place } => {
            claim_key(state, seat, place);
            Ok(())
        }
        CoreStep::AddCount { seat, place } => add_count(state, seat, place),
        CoreStep::AddDropped { seat } => add_dropped(state, seat),
        CoreStep::Draw { seat } => draw(state, seat),
        CoreStep::Split { seat, shares } => split(alloc, state, seat, shares),
        CoreStep::Join { seat, other } => join(alloc, state, seat, other),
    }
}
