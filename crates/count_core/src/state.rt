ghost use Rattle.std.specs.Prelude.{◌≡◌, IfSome, IfOk};
ghost use Rattle.count_core.specs.CoreView.{fresh};
ghost use Rattle.count_core.specs.CoreState.{opening};
ghost use Rattle.count_core.specs.Layout.{word_count};
ghost use Rattle.count_core.specs.Play.{IsReady};

use seq::Seq;
use std::alloc::{AllocError, Global};

/// How many words of each kind a table has. The words are the counters, then for each site its
/// keys, its counts and its dropped word, then the ticket word.
#[derive(Clone, Copy, Debug, PartialEq, Eq, Drop)]
pub struct Layout {
    /// Words that count events.
    pub counters: u32,
    /// Value sites, each with one row of places.
    pub sites: u32,
    /// Places of a row: how many different keys it can keep.
    pub places: u32,
    /// The numbers that are drawn are those below this one.
    pub numbers: u32,
}

/// What a table is told once, when it is made: its layout, and the shares of its first view.
#[derive(Clone, Copy, Debug, Drop)]
pub struct Opening {
    pub layout: Layout,
    pub shares: u32,
}

/// A key on its way along the places of its site.
#[derive(Clone, Copy, Debug, PartialEq, Eq, Drop)]
pub struct Walk {
    pub site: u32,
    /// Never 0, which stands for an empty place.
    pub key: u64,
    /// The place that was looked at last.
    pub place: u32,
    /// The key that was found there, or 0 where the place was empty.
    pub winner: u64,
}

/// What one thread has done to the words.
#[derive(Debug, Drop)]
pub struct CoreView {
    /// A view steps only with shares. The shares of all views add up to those of the opening.
    pub shares: u32,
    /// The sum that was added to each counter. Past the end of the list the sums are 0.
    pub added: Seq<u128>,
    /// The (site, key) of each walk that has ended, in order.
    pub asked: Seq<(u32, u64)>,
    /// The numbers that were drawn, in order.
    pub drawn: Seq<u32>,
    /// The walk that has not ended.
    pub walking: Option<Walk>,
}

/// The words of a table and the views of all threads, between two steps.
#[derive(Debug, Drop)]
pub struct CoreState {
    pub words: Seq<u64>,
    pub views: Seq<CoreView>,
    pub layout: Layout,
}

// How many words the layout has, where the number fits.
fn word_total(layout: &Layout) -> Option<usize>
    ensures { IfSome result (λ n. n ≡ word_count layout.now) }
{
    let row = 2 * layout.places as usize + 1;
    let rows = (layout.sites as usize).checked_mul(row)?;
    rows.checked_add(layout.counters as usize + 1)
}

/// A view that has done nothing. Takes no memory.
pub(crate) fn fresh_view(alloc: Global, shares: u32) -> CoreView
    ensures { result ≡ fresh shares }
{
    CoreView {
        shares,
        added: Seq::new(alloc),
        asked: Seq::new(alloc),
        drawn: Seq::new(alloc),
        walking: None,
    }
}

fn zero_state(alloc: Global, layout: Layout, shares: u32) -> Result<CoreState, AllocError>
    ensures { IfOk result (λ state. state ≡ opening layout shares) }
{
    let count = word_total(&layout).ok_or(AllocError)?;
    let words = vec![in alloc; 0; count]?;
    let views = vec![in alloc; fresh_view(alloc, shares)]?;
    Ok(CoreState {
        words: Seq::of(words),
        views: Seq::of(views),
        layout,
    })
}

/// The state before any step: all words are 0, and one view has all shares.
pub fn opening_state(alloc: Global, layout: Layout, shares: u32) -> Result<CoreState, AllocError>
    ensures state { IfOk result (λ state. state ≡ opening layout shares) }
    ensures ready { IfOk result (λ state. IsReady state) }
{
    let state = zero_state(alloc, layout, shares)?;
    Ok(state)
}
