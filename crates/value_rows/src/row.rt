use seq::Seq;

/// What one site asked for.
#[derive(Debug, Drop)]
pub struct Row {
    /// The keys that got a place, each with how often it was asked for.
    pub kept: Seq<(u64, u64)>,
    /// How often a key was asked for that got none.
    pub dropped: u64,
}
