// The steps on the rows.
ghost use Rattle.std.specs.Prelude.{◌≡◌, ◌<◌, ◌^◌, IsTrue, IfSome, OnOk, OnErr, Some, length};
ghost use Rattle.count_core.specs.CoreState.{IsOnWay};
ghost use Rattle.count_core.specs.CoreStep.{after, ended, view_of};
ghost use Rattle.count_core.specs.Layout.{site_at, key_at, count_at, dropped_at, word_count};
ghost use Rattle.count_core.specs.Play.{IsReady, can_play};

use crate::allowed::walk_of;
use crate::state::{CoreState, Walk};
use crate::step::CoreStep;
use std::alloc::AllocError;

// The first word of a site.
fn site_start(state: &CoreState, site: u32) -> usize
    requires site { site < state.now.layout.sites }
    requires words { length state.now.words ≡ word_count state.now.layout }
    ensures start { result ≡ site_at state.now.layout site }
    ensures inside { dropped_at state.now.layout site < length state.now.words }
    ensures small { length state.now.words < 2 ^ 64 }
{
    // The indices of the words fit, as their number does.
    let _count = state.words.len();
    let layout = &state.layout;
    layout.counters as usize + site as usize * (2 * layout.places as usize + 1)
}

fn key_index(state: &CoreState, site: u32, place: u32) -> usize
    requires site { site < state.now.layout.sites }
    requires place { place < state.now.layout.places }
    requires words { length state.now.words ≡ word_count state.now.layout }
    ensures at { result ≡ key_at state.now.layout site place }
    ensures inside { result < length state.now.words }
{
    site_start(state, site) + place as usize
}

fn count_index(state: &CoreState, site: u32, place: u32) -> usize
    requires site { site < state.now.layout.sites }
    requires place { place < state.now.layout.places }
    requires words { length state.now.words ≡ word_count state.now.layout }
    ensures at { result ≡ count_at state.now.layout site place }
    ensures inside { result < length state.now.words }
{
    site_start(state, site) + (state.layout.places as usize + place as usize)
}

fn dropped_index(state: &CoreState, site: u32) -> usize
    requires site { site < state.now.layout.sites }
    requires words { length state.now.words ≡ word_count state.now.layout }
    ensures at { result ≡ dropped_at state.now.layout site }
    ensures inside { result < length state.now.words }
{
    site_start(state, site) + 2 * state.layout.places as usize
}

// The walk of a seat, which is on its way.
fn walk_on_way(state: &CoreState, seat: u32) -> Option<Walk>
    requires { IsReady state.now }
    ensures walk { result ≡ (view_of state.now seat).walking }
    ensures way { IfSome result (λ walk. IsOnWay state.now.layout state.now.words walk) }
    ensures seat { IfSome result (λ _. seat < length state.now.views) }
{
    walk_of(state, seat)
}

pub fn load_key(state: &mut CoreState, seat: u32, site: u32, key: u64, place: u32)
    requires ready { IsReady state.old }
    requires playable { IsTrue (can_play state.old (CoreStep.LoadKey seat site key place)) }
    ensures { state.new ≡ after state.old (CoreStep.LoadKey seat site key place) }
{
    let at = key_index(state, site, place);
    let winner = state.words.as_slice()[at];
    let view = &mut state.views.as_mut_slice()[seat as usize];
    view.walking = Some(Walk {
        site,
        key,
        place,
        winner,
    });
}

pub fn claim_key(state: &mut CoreState, seat: u32, place: u32)
    requires ready { IsReady state.old }
    requires playable { IsTrue (can_play state.old (CoreStep.ClaimKey seat place)) }
    ensures { state.new ≡ after state.old (CoreStep.ClaimKey seat place) }
{
    let Some(walk) = walk_on_way(state, seat) else {
        return;
    };
    let at = key_index(state, walk.site, walk.place);
    let words = state.words.as_mut_slice();
    let winner = if words[at] == 0 { walk.key } else { words[at] };
    words[at] = winner;
    let view = &mut state.views.as_mut_slice()[seat as usize];
    view.walking = Some(Walk { winner, ..walk });
}

// The word `at` rises, and what the walk wanted is asked for.
fn end_walk(state: &mut CoreState, seat: u32, walk: Walk, at: usize) -> Result<(), AllocError>
    requires seat { seat < length state.old.views }
    requires at { at < length state.old.words }
    ensures ok { OnOk result (state.new ≡ ended state.old seat at walk) }
    ensures err { OnErr result (state.new ≡ state.old) }
{
    let view = &mut state.views.as_mut_slice()[seat as usize];
    view.asked.push((walk.site, walk.key))?;
    view.walking = None;
    let words = state.words.as_mut_slice();
    words[at] = words[at].wrapping_add(1);
    Ok(())
}

pub fn add_count(state: &mut CoreState, seat: u32, place: u32) -> Result<(), AllocError>
    requires ready { IsReady state.old }
    requires playable { IsTrue (can_play state.old (CoreStep.AddCount seat place)) }
    ensures ok { OnOk result (state.new ≡ after state.old (CoreStep.AddCount seat place)) }
    ensures err { OnErr result (state.new ≡ state.old) }
{
    let Some(walk) = walk_on_way(state, seat) else {
        return Ok(());
    };
    let at = count_index(state, walk.site, walk.place);
    end_walk(state, seat, walk, at)
}

pub fn add_dropped(state: &mut CoreState, seat: u32) -> Result<(), AllocError>
    requires ready { IsReady state.old }
    requires playable { IsTrue (can_play state.old (CoreStep.AddDropped seat)) }
    ensures ok { OnOk result (state.new ≡ after state.old (CoreStep.AddDropped seat)) }
    ensures err { OnErr result (state.new ≡ state.old) }
{
    let Some(walk) = walk_on_way(state, seat) else {
        return Ok(());
    };
    let at = dropped_index(state, walk.site);
    end_walk(state, seat, walk, at)
}
