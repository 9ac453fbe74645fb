// The profile of a run as text.
ghost use Rattle.std.specs.Prelude.{IfOk};
ghost use Rattle.run_texts.specs.RunProfile.{AreApart, IsRunText};

use crate::records::records_of;
use ir_model::Tally;
use ir_tree::Numbering;
use pgo_base::NoMemory;
use prof_text::{MergeError, Profile, write};
use std::alloc::Global;
use value_rows::Row;

/// The text of the profile of a run: a record for each tally, whose counters are its part of `counters`, and whose targets
/// are the keys and counts of its part of `rows`, a key being the address of a function. The tallies have different names.
/// The only refusal is want of memory.
pub fn profile_text(
    alloc: Global,
    functions: &Numbering,
    tallies: &[Tally],
    counters: &[u64],
    rows: &[Row],
    entry_first: bool,
) -> Result<Vec<u8>, NoMemory>
    requires apart { AreApart tallies.now }
    ensures { IfOk result (λ text. IsRunText entry_first functions.now tallies.now counters.now rows.now text.items) }
{
    let records = records_of(alloc, functions, tallies, counters, rows)?;
    match Profile::of_records(alloc, records, entry_first) {
        Ok(profile) => write(alloc, &profile),
        Err(error) => match error {
            MergeError::NoMemory => Err(NoMemory),
            MergeError::CounterMismatch { .. }
            | MergeError::SiteMismatch { .. }
            | MergeError::HeaderMismatch { .. } => unreachable!(),
        },
    }
}
