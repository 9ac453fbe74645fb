// Merges and texts that were worked out by hand.
ghost use Rattle.std.specs.Prelude.{◌<◌, ◌↔◌, length, All, IsTrue};

use super::*;
use seq::Seq;
use std::alloc::{AllocError, Global};
use std::test::Fail;

// A record with these counters and these sites.
fn record(
    alloc: Global,
    name: &[u8],
    hash: u64,
    counters: &[u64],
    sites: Vec<Seq<Target>>,
) -> Result<ProfRecord, AllocError> {
    Ok(ProfRecord {
        name: Seq::of(Vec::from_slice(alloc, name)?),
        hash,
        counters: Seq::of(Vec::from_slice(alloc, counters)?),
        sites: Seq::of(sites),
    })
}

fn have_few_counters(records: &[ProfRecord]) -> bool
    ensures { IsTrue result ↔ All (λ r. length r.counters < 4294967296) records.now }
{
    records.iter().all(|r| r.counters.len() < 4294967296)
}

fn have_few_sites(records: &[ProfRecord]) -> bool
    ensures { IsTrue result ↔ All (λ r. length r.sites < 4294967296) records.now }
{
    records.iter().all(|r| r.sites.len() < 4294967296)
}

// The merge of two records.
fn merged(
    alloc: Global,
    first: ProfRecord,
    second: ProfRecord,
    entry_first: bool,
) -> Result<Profile, MergeError> {
    let mut records = Vec::new(alloc);
    records.push(first)?;
    records.push(second)?;
    if have_few_counters(records.as_slice()) {
        if have_few_sites(records.as_slice()) {
            return Profile::of_records(alloc, records, entry_first);
        }
    }
    Err(MergeError::NoMemory)
}

// One site with these two targets.
fn site(
    alloc: Global,
    first: (&[u8], u64),
    second: (&[u8], u64),
) -> Result<Vec<Seq<Target>>, AllocError> {
    let mut targets = Vec::new(alloc);
    targets.push((Seq::of(Vec::from_slice(alloc, first.0)?), first.1))?;
    targets.push((Seq::of(Vec::from_slice(alloc, second.0)?), second.1))?;
    let mut sites = Vec::new(alloc);
    sites.push(Seq::of(targets))?;
    Ok(sites)
}

#[test]
fn sums_stop_at_the_largest_number(rt: HostRuntime) -> Result<(), Fail> {
    let alloc = rt.alloc();
    let text =
        b":ir\nf\n# Func Hash:\n1\n# Num Counters:\n1\n# Counter Values:\n18446744073709551615\n\n";
    let most = record(alloc, b"f", 1, &[18446744073709551615], Vec::new(alloc))?;
    let one = record(alloc, b"f", 1, &[1], Vec::new(alloc))?;
    let profile = merged(alloc, most, one, false)?;
    assert_eq!(rt; write(alloc, &profile)?.as_slice(), text.as_slice());
    let most = record(alloc, b"f", 1, &[18446744073709551615], Vec::new(alloc))?;
    let one = record(alloc, b"f", 1, &[1], Vec::new(alloc))?;
    let profile = merged(alloc, one, most, false)?;
    assert_eq!(rt; write(alloc, &profile)?.as_slice(), text.as_slice());
    Ok(())
}

#[test]
fn two_hashes_of_a_name_are_kept(rt: HostRuntime) -> Result<(), Fail> {
    let alloc = rt.alloc();
    let second = record(alloc, b"f", 2, &[5], Vec::new(alloc))?;
    let first = record(alloc, b"f", 1, &[3, 4], Vec::new(alloc))?;
    let profile = merged(alloc, second, first, true)?;
    let text =
        b":ir\n:entry_first\nf\n# Func Hash:\n1\n# Num Counters:\n2\n# Counter Values:\n3\n4\n\nf\n# Func Hash:\n2\n# Num Counters:\n1\n# Counter Values:\n5\n\n";
    assert_eq!(rt; write(alloc, &profile)?.as_slice(), text.as_slice());
    assert!(rt; profile.entry_first());
    assert_eq!(rt; profile.records().len(), 2);
    Ok(())
}

#[test]
fn targets_stand_by_name_with_their_sums(rt: HostRuntime) -> Result<(), Fail> {
    let alloc = rt.alloc();
    let first = record(alloc, b"f", 1, &[1], site(alloc, (b"b", 1), (b"a", 2))?)?;
    let second = record(alloc, b"f", 1, &[1], site(alloc, (b"c", 9), (b"b", 4))?)?;
    let profile = merged(alloc, first, second, false)?;
    let text =
        b":ir\nf\n# Func Hash:\n1\n# Num Counters:\n1\n# Counter Values:\n2\n# Num Value Kinds:\n1\n# ValueKind = IPVK_IndirectCallTarget:\n0\n# NumValueSites:\n1\n3\na:2\nb:5\nc:9\n\n";
    assert_eq!(rt; write(alloc, &profile)?.as_slice(), text.as_slice());
    Ok(())
}

#[test]
fn other_numbers_of_counters_are_refused(rt: HostRuntime) -> Result<(), Fail> {
    let alloc = rt.alloc();
    let one = record(alloc, b"f", 1, &[1], Vec::new(alloc))?;
    let two = record(alloc, b"f", 1, &[1, 2], Vec::new(alloc))?;
    match merged(alloc, one, two, false) {
        Err(
            MergeError::CounterMismatch {
                hash,
                first,
                other,
                ..
            },
        ) => {
            assert_eq!(rt; (hash, first, other), (1, 1, 2));
        }
        _ => assert!(rt; false, "no counter mismatch"),
    }
    Ok(())
}

#[test]
fn other_numbers_of_sites_are_refused(rt: HostRuntime) -> Result<(), Fail> {
    let alloc = rt.alloc();
    let none = record(alloc, b"f", 1, &[1], Vec::new(alloc))?;
    let one = record(alloc, b"f", 1, &[1], site(alloc, (b"a", 1), (b"b", 1))?)?;
    match merged(alloc, none, one, false) {
        Err(
            MergeError::SiteMismatch {
                hash,
                first,
                other,
                ..
            },
        ) => {
            assert_eq!(rt; (hash, first, other), (1, 0, 1));
        }
        _ => assert!(rt; false, "no site mismatch"),
    }
    Ok(())
}

#[test]
fn no_records_are_a_header(rt: HostRuntime) -> Result<(), Fail> {
    let alloc = rt.alloc();
    let profile = Profile::of_records(alloc, Vec::new(alloc), false)?;
    assert_eq!(rt; write(alloc, &profile)?.as_slice(), b":ir\n".as_slice());
    Ok(())
}
