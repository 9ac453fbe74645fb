// The totals of records.
ghost use Rattle.std.specs.Prelude.{◌≡◌, ◌+◌, min, max, fold, sum, sum_by, length, List};
ghost use Rattle.prof_view.specs.Profile.{ProfileRecord};
ghost use Rattle.prof_text.specs.Merged.{Target, most, capped};
ghost use Rattle.prof_text.specs.Record.{value_of, values_of};
ghost use Rattle.prof_merge.specs.Show.{all_counters, counter_count, site_count, target_count, greatest_of, total};

use prof_text::{ProfRecord, Target};
use seq::Seq;

// The sum of these numbers on top of `start`, which stops at the largest number.
fn sum_from(start: u64, numbers: &[u64]) -> u64
    ensures { result ≡ min (start + sum numbers.now) most }
{
    let mut sum = start;
    for number in numbers {
        sum = sum.saturating_add(*number);
    }
    sum
}

fn greatest_from(start: u64, numbers: &[u64]) -> u64
    ensures { result ≡ fold (λ a n. max a n) start numbers.now }
{
    let mut greatest = start;
    for number in numbers {
        greatest = greatest.max(*number);
    }
    greatest
}

fn targets_from(start: u64, sites: &[Seq<Target>]) -> u64
    ensures { result ≡ min (start + sum_by (λ (site : List Target). length site) sites.now) most }
{
    let mut targets = start;
    for site in sites {
        targets = targets.saturating_add(site.len() as u64);
    }
    targets
}

/// The sum of all counters, which stops at the largest number.
pub fn counter_sum(records: &[ProfRecord]) -> u64
    ensures { result ≡ capped (sum (all_counters (values_of records.now))) }
{
    let mut sum = 0;
    for record in records {
        sum = sum_from(sum, record.counters.as_slice());
    }
    sum
}

/// The greatest counter, 0 where there is none.
pub fn greatest_counter(records: &[ProfRecord]) -> u64
    ensures { result ≡ greatest_of (all_counters (values_of records.now)) }
{
    let mut greatest = 0;
    for record in records {
        greatest = greatest_from(greatest, record.counters.as_slice());
    }
    greatest
}

/// How many counters there are.
pub fn counter_total(records: &[ProfRecord]) -> u64
    ensures { result ≡ total counter_count (values_of records.now) }
{
    let mut count: u64 = 0;
    for record in records {
        count = count.saturating_add(record.counters.len() as u64);
    }
    count
}

/// How many sites there are.
pub fn site_total(records: &[ProfRecord]) -> u64
    ensures { result ≡ total site_count (values_of records.now) }
{
    let mut count: u64 = 0;
    for record in records {
        count = count.saturating_add(record.sites.len() as u64);
    }
    count
}

/// How many targets there are.
pub fn target_total(records: &[ProfRecord]) -> u64
    ensures { result ≡ total target_count (values_of records.now) }
{
    let mut count = 0;
    for record in records {
        count = targets_from(count, record.sites.as_slice());
    }
    count
}
