use crate::{CoreState, CoreStep, Layout, PlayError, opening_state, play};
use std::test::Fail;

const LAYOUT: Layout = Layout {
    counters: 2,
    sites: 1,
    places: 2,
    numbers: 1,
};

// The words of `LAYOUT`: two counters, two keys, two counts, the dropped word, the ticket word.
#[test]
fn counts_and_draws(rt: HostRuntime) -> Result<(), Fail> {
    let mut state = opening_state(rt.alloc(), LAYOUT, 3)?;
    let most = CoreStep::Add {
        seat: 0,
        index: 1,
        step: u64::MAX,
    };
    play(rt.alloc(), &mut state, &most)?;
    let three = CoreStep::Add {
        seat: 0,
        index: 1,
        step: 3,
    };
    play(rt.alloc(), &mut state, &three)?;
    play(
        rt.alloc(),
        &mut state,
        &CoreStep::Read { seat: 0, index: 0 },
    )?;
    play(rt.alloc(), &mut state, &CoreStep::Draw { seat: 0 })?;
    play(rt.alloc(), &mut state, &CoreStep::Draw { seat: 0 })?;
    assert_eq!(rt; state.words.as_slice(), [0, 2, 0, 0, 0, 0, 0, 2].as_slice());
    assert_eq!(rt; state.views.len(), 1);
    let view = &state.views.as_slice()[0];
    assert_eq!(rt; view.added.as_slice(), [0, 18446744073709551618].as_slice());
    assert_eq!(rt; view.drawn.as_slice(), [0].as_slice());
    Ok(())
}

fn ask(key: u64, place: u32) -> CoreStep {
    CoreStep::LoadKey {
        seat: 0,
        site: 0,
        key,
        place,
    }
}

#[test]
fn a_full_row_drops(rt: HostRuntime) -> Result<(), Fail> {
    let mut state = opening_state(rt.alloc(), LAYOUT, 3)?;
    play(rt.alloc(), &mut state, &ask(7, 0))?;
    play(
        rt.alloc(),
        &mut state,
        &CoreStep::ClaimKey { seat: 0, place: 0 },
    )?;
    play(
        rt.alloc(),
        &mut state,
        &CoreStep::AddCount { seat: 0, place: 0 },
    )?;
    play(rt.alloc(), &mut state, &ask(8, 0))?;
    play(rt.alloc(), &mut state, &ask(8, 1))?;
    play(
        rt.alloc(),
        &mut state,
        &CoreStep::ClaimKey { seat: 0, place: 1 },
    )?;
    play(
        rt.alloc(),
        &mut state,
        &CoreStep::AddCount { seat: 0, place: 1 },
    )?;
    play(rt.alloc(), &mut state, &ask(9, 0))?;
    play(rt.alloc(), &mut state, &ask(9, 1))?;
    play(rt.alloc(), &mut state, &CoreStep::AddDropped { seat: 0 })?;
    assert_eq!(rt; state.words.as_slice(), [0, 0, 7, 8, 1, 1, 1, 0].as_slice());
    Ok(())
}

#[test]
fn views_split_and_join(rt: HostRuntime) -> Result<(), Fail> {
    let mut state = opening_state(rt.alloc(), LAYOUT, 3)?;
    play(
        rt.alloc(),
        &mut state,
        &CoreStep::Split { seat: 0, shares: 1 },
    )?;
    let five = CoreStep::Add {
        seat: 1,
        index: 0,
        step: 5,
    };
    play(rt.alloc(), &mut state, &five)?;
    play(
        rt.alloc(),
        &mut state,
        &CoreStep::Join { seat: 0, other: 1 },
    )?;
    assert_eq!(rt; state.views.len(), 2);
    let view = &state.views.as_slice()[0];
    assert_eq!(rt; view.shares, 3);
    assert_eq!(rt; view.added.as_slice(), [5].as_slice());
    assert_eq!(rt;
        play(rt.alloc(), &mut state, &five),
        Err(PlayError::NotAllowed)
    );
    Ok(())
}

// The place before is empty, so it is to be claimed first.
#[test]
fn a_walk_claims_before_it_goes_on(rt: HostRuntime) -> Result<(), Fail> {
    let mut state = opening_state(rt.alloc(), LAYOUT, 1)?;
    play(rt.alloc(), &mut state, &ask(7, 0))?;
    assert_eq!(rt;
        play(rt.alloc(), &mut state, &ask(7, 1)),
        Err(PlayError::NotAllowed)
    );
    assert_eq!(rt; place_of(&state), Some((0, 0)));
    assert_eq!(rt; state.words.as_slice(), [0; 8].as_slice());
    Ok(())
}

// The place and the winner of the first view's walk.
fn place_of(state: &CoreState) -> Option<(u32, u64)> {
    let view = state.views.as_slice().first()?;
    let walk = view.walking?;
    Some((walk.place, walk.winner))
}
