// A record that owns its parts.
use seq::Seq;

/// A target of a site: its name and its count.
pub type Target = (Seq<u8>, u64);

/// What a profile has of one function.
#[derive(Debug, Drop)]
pub struct ProfRecord {
    /// The function's name.
    pub name: Seq<u8>,
    /// The hash of its edges.
    pub hash: u64,
    /// Its counters.
    pub counters: Seq<u64>,
    /// For each site of an indirect call, the targets with their counts.
    pub sites: Seq<Seq<Target>>,
}
