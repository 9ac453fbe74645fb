use thiserror::Error;

/// One atomic operation on one word, made by the view `seat`.
#[derive(Clone, Copy, Debug, PartialEq, Eq, Drop)]
pub enum CoreStep {
    /// Raises counter `index` by `step`.
    Add {
        seat: u32,
        index: u32,
        step: u64,
    },
    /// Reads counter `index`.
    Read {
        seat: u32,
        index: u32,
    },
    /// Looks at a place of the site for the key: at place 0 a walk begins, at the next one it goes on.
    LoadKey {
        seat: u32,
        site: u32,
        key: u64,
        place: u32,
    },
    /// Claims the place, which was found empty, by one compare and exchange.
    ClaimKey {
        seat: u32,
        place: u32,
    },
    /// Raises the count of the place, which has the walk's key. The walk ends.
    AddCount {
        seat: u32,
        place: u32,
    },
    /// Raises the dropped word, where every place has another key. The walk ends.
    AddDropped {
        seat: u32,
    },
    /// Raises the ticket word by 1, and draws the number found if it is below the layout's.
    Draw {
        seat: u32,
    },
    /// Gives a new view, at the end of the views, some of the shares.
    Split {
        seat: u32,
        shares: u32,
    },
    /// Takes in the shares, the sums and the lists of `other`, which is spent.
    Join {
        seat: u32,
        other: u32,
    },
}

/// Why `play` made no step. The state is then as it was.
#[derive(Clone, Copy, Debug, PartialEq, Eq, Drop, Error)]
pub enum PlayError {
    /// The step is not allowed in this state.
    #[error("the step is not allowed in this state")]
    NotAllowed,
    #[error("out of memory")]
    NoMemory,
}
