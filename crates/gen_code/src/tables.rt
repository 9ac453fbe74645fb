// Tables of numbers by place, of which the first that is put at a place stays.
ghost use Rattle.std.specs.Prelude.{◌≡◌, ℕ, ◌<◌, None, Some, cond, length, IfOk, IfSome};
ghost use Rattle.gen_code.specs.Tables as spec;
ghost use Rattle.gen_code.specs.Tables.{or_else};
ghost use Rattle.gen_plan.specs.Placing.{counter_of};
ghost use Rattle.ir_model.specs.Log.{is_at};
ghost use Rattle.spanning_order.specs.Lists.{Among};

use pgo_base::NoMemory;
use std::alloc::Global;

// A table of so many places without numbers.
pub(crate) fn no_numbers(alloc: Global, places: usize) -> Result<Vec<Option<u32>>, NoMemory>
    ensures size { IfOk result (λ table. length table.items ≡ places) }
    ensures none { IfOk result (λ table. (p : ℕ) → spec.at table.items p ≡ None) }
{
    Ok(vec![in alloc; None; places]?)
}

// The number at a place, None past the last place too.
pub(crate) fn at(table: &[Option<u32>], place: usize) -> Option<u32>
    ensures { result ≡ spec.at table.now place }
{
    match table.get(place) {
        Some(number) => *number,
        None => None,
    }
}

// Puts a number at a place, unless there is one.
pub(crate) fn put_first(table: &mut [Option<u32>], place: Option<u32>, number: Option<u32>)
    requires { IfSome place (λ p. p < length table.old) }
    ensures size { length table.new ≡ length table.old }
    ensures put { (p : ℕ) → spec.at table.new p ≡ cond (is_at p place) (or_else (spec.at table.old p) number) (spec.at table.old p) }
{
    if let Some(place) = place {
        let place = place as usize;
        table[place] = or_else(table[place], number);
    }
}

fn or_else(number: Option<u32>, other: Option<u32>) -> Option<u32>
    ensures { result ≡ or_else number other }
{
    match number {
        Some(number) => Some(number),
        None => other,
    }
}

// The counter of each edge by its number: its rank among the counted edges.
pub(crate) fn ranks_of(
    alloc: Global,
    counted: &[u32],
    edges: usize,
) -> Result<Vec<Option<u32>>, NoMemory>
    requires within { (k : ℕ) → Among k counted.now → k < edges }
    requires few { length counted.now < 4294967296 }
    ensures { IfOk result (λ ranks. (k : ℕ) → spec.at ranks.items k ≡ counter_of counted.now k) }
{
    let mut ranks = no_numbers(alloc, edges)?;
    put_ranks(counted, ranks.as_mut_slice());
    Ok(ranks)
}

// Puts the rank of each counted edge at its number.
fn put_ranks(counted: &[u32], ranks: &mut [Option<u32>])
    requires within { (k : ℕ) → Among k counted.now → k < length ranks.old }
    requires few { length counted.now < 4294967296 }
    requires none { (k : ℕ) → spec.at ranks.old k ≡ None }
    ensures { (k : ℕ) → spec.at ranks.new k ≡ counter_of counted.now k }
{
    for (rank, edge) in counted.iter().enumerate() {
        put_first(ranks, Some(*edge), Some(rank as u32));
    }
}
