// The steps on the counters and on the ticket word.
ghost use Rattle.std.specs.Prelude.{◌≡◌, IsTrue, OnOk, OnErr};
ghost use Rattle.count_core.specs.CoreStep.{after};
ghost use Rattle.count_core.specs.Play.{IsReady, can_play};

use crate::allowed::ticket;
use crate::state::CoreState;
use crate::step::CoreStep;
use crate::sums::raise;
use std::alloc::{AllocError, Global};

pub fn add(
    alloc: Global,
    state: &mut CoreState,
    seat: u32,
    index: u32,
    step: u64,
) -> Result<(), AllocError>
    requires ready { IsReady state.old }
    requires playable { IsTrue (can_play state.old (CoreStep.Add seat index step)) }
    ensures ok { OnOk result (state.new ≡ after state.old (CoreStep.Add seat index step)) }
    ensures err { OnErr result (state.new ≡ state.old) }
{
    let view = &mut state.views.as_mut_slice()[seat as usize];
    raise(alloc, &mut view.added, index, step)?;
    let words = state.words.as_mut_slice();
    words[index as usize] = words[index as usize].wrapping_add(step);
    Ok(())
}

pub fn draw(state: &mut CoreState, seat: u32) -> Result<(), AllocError>
    requires ready { IsReady state.old }
    requires playable { IsTrue (can_play state.old (CoreStep.Draw seat)) }
    ensures ok { OnOk result (state.new ≡ after state.old (CoreStep.Draw seat)) }
    ensures err { OnErr result (state.new ≡ state.old) }
{
    let number = ticket(state);
    if number < u64::from(state.layout.numbers) {
        let view = &mut state.views.as_mut_slice()[seat as usize];
        view.drawn.push(number as u32)?;
    }
    let words = state.words.as_mut_slice();
    let last = words.len() - 1;
    words[last] = number + 1;
    Ok(())
}
