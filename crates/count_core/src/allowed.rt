// Whether a step is allowed in a state.
ghost use Rattle.std.specs.Prelude.{◌≡◌, ℕ, ◌+◌, ◌<◌, ◌^◌, length, sum_by};
ghost use Rattle.count_core.specs.CoreView.{added_to};
ghost use Rattle.count_core.specs.CoreState.{ticket_of};
ghost use Rattle.count_core.specs.CoreStep.{view_of, is_passing, can_load, can_claim, can_count, can_drop, allowed};
ghost use Rattle.count_core.specs.Layout.{word_count};
ghost use Rattle.count_core.specs.Play.{fits, can_play};

use crate::state::{CoreState, CoreView, Walk};
use crate::step::CoreStep;

// The walk of a seat's view, if it has one.
pub fn walk_of(state: &CoreState, seat: u32) -> Option<Walk>
    ensures { result ≡ (view_of state.now seat).walking }
{
    match state.views.as_slice().get(seat as usize) {
        Some(view) => view.walking,
        None => None,
    }
}

fn shares_of(state: &CoreState, seat: u32) -> u32
    ensures { result ≡ (view_of state.now seat).shares }
{
    match state.views.as_slice().get(seat as usize) {
        Some(view) => view.shares,
        None => 0,
    }
}

fn is_passing(walk: &Walk) -> bool
    ensures { result ≡ is_passing walk.now }
{
    walk.winner != 0 && walk.winner != walk.key
}

fn can_load(walk: Option<Walk>, site: u32, key: u64, place: u32) -> bool
    ensures { result ≡ can_load walk site key place }
{
    match walk {
        None => place == 0 && key != 0,
        Some(walk) => {
            walk.site == site
                && walk.key == key
                && is_passing(&walk)
                && u64::from(place) == u64::from(walk.place) + 1
        }
    }
}

fn can_claim(walk: Option<Walk>, place: u32) -> bool
    ensures { result ≡ can_claim walk place }
{
    match walk {
        None => false,
        Some(walk) => walk.place == place && walk.winner == 0,
    }
}

fn can_count(walk: Option<Walk>, place: u32) -> bool
    ensures { result ≡ can_count walk place }
{
    match walk {
        None => false,
        Some(walk) => walk.place == place && walk.winner == walk.key,
    }
}

fn can_drop(walk: Option<Walk>, places: u32) -> bool
    ensures { result ≡ can_drop walk places }
{
    match walk {
        None => false,
        Some(walk) => u64::from(walk.place) + 1 == u64::from(places) && is_passing(&walk),
    }
}

// The ticket word, which is the last one.
pub fn ticket(state: &CoreState) -> u64
    requires { length state.now.words ≡ word_count state.now.layout }
    ensures { result ≡ ticket_of state.now }
{
    let words = state.words.as_slice();
    words[words.len() - 1]
}

fn can_step(state: &CoreState, step: &CoreStep) -> bool
    requires { length state.now.words ≡ word_count state.now.layout }
    ensures { result ≡ allowed state.now step.now }
{
    let layout = &state.layout;
    match *step {
        CoreStep::Add {
            seat,
            index,
            step: _,
        } => { shares_of(state, seat) > 0 && index < layout.counters }
        CoreStep::Read { seat, index } => shares_of(state, seat) > 0 && index < layout.counters,
        CoreStep::LoadKey {
            seat,
            site,
            key,
            place,
        } => {
            shares_of(state, seat) > 0
                && site < layout.sites
                && place < layout.places
                && can_load(walk_of(state, seat), site, key, place)
        }
        CoreStep::ClaimKey { seat, place } => {
            shares_of(state, seat) > 0
                && place < layout.places
                && can_claim(walk_of(state, seat), place)
        }
        CoreStep::AddCount { seat, place } => {
            shares_of(state, seat) > 0
                && place < layout.places
                && can_count(walk_of(state, seat), place)
        }
        CoreStep::AddDropped { seat } => {
            shares_of(state, seat) > 0 && can_drop(walk_of(state, seat), layout.places)
        }
        CoreStep::Draw { seat } => shares_of(state, seat) > 0 && ticket(state) < 1 << 32,
        CoreStep::Split { seat, shares } => {
            walk_of(state, seat).is_none() && shares > 0 && shares < shares_of(state, seat)
        }
        CoreStep::Join { seat, other } => {
            shares_of(state, seat) > 0
                && shares_of(state, other) > 0
                && seat != other
                && walk_of(state, seat).is_none()
                && walk_of(state, other).is_none()
        }
    }
}

// What a view added to a counter.
fn added_at(view: &CoreView, index: u32) -> u128
    ensures { result ≡ added_to index view.now }
{
    let sums = view.added.as_slice();
    sums.get(index as usize).copied().unwrap_or(0)
}

// What all views added to a counter.
fn added_by_all(state: &CoreState, index: u32) -> u128
    requires { sum_by (added_to index) state.now.views < 2 ^ 128 }
    ensures { result ≡ sum_by (added_to index) state.now.views }
{
    let views = state.views.as_slice();
    views.iter().map(|view| added_at(view, index)).sum()
}

// Whether the sum of an Add stays within its field.
fn sum_fits(state: &CoreState, step: &CoreStep) -> bool
    requires { (c : ℕ) → sum_by (added_to c) state.now.views < 2 ^ 128 }
    ensures { result ≡ fits state.now step.now }
{
    match *step {
        CoreStep::Add {
            seat: _,
            index,
            step,
        } => {
            added_by_all(state, index)
                .checked_add(u128::from(step))
                .is_some()
        }
        _ => true,
    }
}

/// Whether `play` makes the step.
pub fn is_playable(state: &CoreState, step: &CoreStep) -> bool
    requires words { length state.now.words ≡ word_count state.now.layout }
    requires sums { (c : ℕ) → sum_by (added_to c) state.now.views < 2 ^ 128 }
    ensures { result ≡ can_play state.now step.now }
{
    can_step(state, step) && sum_fits(state, step)
}
