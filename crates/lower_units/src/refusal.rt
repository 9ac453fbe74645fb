// Why a module that counts is not lowered.
use ir_tree::Seq;

/// Why a module that counts is not lowered. Each names the unit, by the name that its global holds.
#[derive(Debug, Drop)]
pub enum Refusal {
    /// The first call that names the unit has one hash, and another call another one.
    HashDiffers {
        name: Seq<u8>,
        first: u64,
        other: u64,
    },
    /// The first increment that names the unit has one number of counters, and another increment another one.
    CountDiffers {
        name: Seq<u8>,
        first: u64,
        other: u64,
    },
    /// An increment is of a counter past the last one.
    IndexPast {
        name: Seq<u8>,
        index: u64,
        count: u64,
    },
    /// Value notes alone name the unit.
    NoIncrement {
        name: Seq<u8>,
    },
}
