// The counts of a function.

use seq::Seq;

/// The solved counts of a function: of each edge by number; of each call through a local its targets
/// by name with their counts; and of each select how often its condition was true and how often false.
#[derive(Debug, Drop)]
pub struct SolvedCounts {
    pub edges: Seq<u64>,
    pub sites: Seq<Seq<(Seq<u8>, u64)>>,
    pub selects: Seq<(u64, u64)>,
}
