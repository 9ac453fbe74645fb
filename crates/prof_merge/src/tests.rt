// Merges that were worked out by hand.
ghost use Rattle.std.specs.Prelude.{◌<◌, ◌≤◌};

use super::*;
use prof_text::{MergeError, Profile, write};
use prof_view::ProfileView;
use std::alloc::Global;
use std::test::Fail;
use std::thread::Threads;

// The merge of two texts.
fn merged<R: Threads + Sync>(
    rt: &R,
    alloc: Global,
    first: &[u8],
    second: &[u8],
    workers: u32,
) -> Result<Result<Profile, MergeError>, Fail>
    requires { (0 < workers) × (workers ≤ 64) }
{
    let mut inputs = MergeInputs::new(alloc);
    inputs.add(ProfileView::read(alloc, first)?)?;
    inputs.add(ProfileView::read(alloc, second)?)?;
    if inputs.len() == 2 {
        Ok(merge(rt, alloc, &inputs, workers))
    } else {
        Ok(Err(MergeError::NoMemory))
    }
}

#[test]
fn sums_stop_at_the_largest_number(rt: HostRuntime) -> Result<(), Fail> {
    let alloc = rt.alloc();
    let most = b":ir\nf\n1\n1\n18446744073709551615\n".as_slice();
    let one = b":ir\nf\n1\n1\n1\n".as_slice();
    let text =
        b":ir\nf\n# Func Hash:\n1\n# Num Counters:\n1\n# Counter Values:\n18446744073709551615\n\n".as_slice();
    let profile = merged(&rt, alloc, most, one, 1)??;
    assert_eq!(rt; write(alloc, &profile)?.as_slice(), text);
    let profile = merged(&rt, alloc, one, most, 8)??;
    assert_eq!(rt; write(alloc, &profile)?.as_slice(), text);
    Ok(())
}

#[test]
fn functions_may_be_in_other_orders(rt: HostRuntime) -> Result<(), Fail> {
    let alloc = rt.alloc();
    let first = b":ir\ng\n2\n1\n10\nf\n1\n1\n20\nh\n3\n1\n30\n".as_slice();
    let second = b":ir\nf\n1\n1\n1\nh\n3\n1\n2\nf\n1\n1\n4\ng\n9\n1\n8\n".as_slice();
    let text =
        b":ir\nf\n# Func Hash:\n1\n# Num Counters:\n1\n# Counter Values:\n25\n\ng\n# Func Hash:\n2\n# Num Counters:\n1\n# Counter Values:\n10\n\ng\n# Func Hash:\n9\n# Num Counters:\n1\n# Counter Values:\n8\n\nh\n# Func Hash:\n3\n# Num Counters:\n1\n# Counter Values:\n32\n\n".as_slice();
    let profile = merged(&rt, alloc, first, second, 1)??;
    assert_eq!(rt; write(alloc, &profile)?.as_slice(), text);
    let profile = merged(&rt, alloc, second, first, 2)??;
    assert_eq!(rt; write(alloc, &profile)?.as_slice(), text);
    Ok(())
}

#[test]
fn other_modes_name_the_input(rt: HostRuntime) -> Result<(), Fail> {
    let alloc = rt.alloc();
    let plain = b":ir\n".as_slice();
    let entry_first = b":ir\n:entry_first\n".as_slice();
    match merged(&rt, alloc, plain, entry_first, 2)? {
        Err(
            MergeError::HeaderMismatch {
                input,
                first,
                other,
            },
        ) => {
            assert_eq!(rt; (input, first, other), (1, false, true));
        }
        _ => assert!(rt; false, "no header mismatch"),
    }
    Ok(())
}

#[test]
fn other_numbers_of_counters_are_told_in_order(rt: HostRuntime) -> Result<(), Fail> {
    let alloc = rt.alloc();
    let one = b":ir\nf\n1\n1\n5\n".as_slice();
    let two = b":ir\nf\n1\n2\n5\n6\n".as_slice();
    match merged(&rt, alloc, one, two, 2)? {
        Err(
            MergeError::CounterMismatch {
                hash,
                first,
                other,
                ..
            },
        ) => {
            assert_eq!(rt; (hash, first, other), (1, 1, 2));
        }
        _ => assert!(rt; false, "no counter mismatch"),
    }
    match merged(&rt, alloc, two, one, 1)? {
        Err(
            MergeError::CounterMismatch {
                hash,
                first,
                other,
                ..
            },
        ) => {
            assert_eq!(rt; (hash, first, other), (1, 2, 1));
        }
        _ => assert!(rt; false, "no counter mismatch"),
    }
    Ok(())
}

#[test]
fn sixty_four_inputs_by_any_number_of_workers(rt: HostRuntime) -> Result<(), Fail> {
    let alloc = rt.alloc();
    let text = b":ir\nf\n1\n1\n288230376151711744\n1\n0\n1\n1\na:1\n".as_slice();
    let mut inputs = MergeInputs::new(alloc);
    for _ in 0..64 {
        inputs.add(ProfileView::read(alloc, text)?)?;
    }
    assert_eq!(rt; inputs.len(), 64);
    let sum =
        b":ir\nf\n# Func Hash:\n1\n# Num Counters:\n1\n# Counter Values:\n18446744073709551615\n# Num Value Kinds:\n1\n# ValueKind = IPVK_IndirectCallTarget:\n0\n# NumValueSites:\n1\n1\na:64\n\n".as_slice();
    assert_eq!(rt;
        write(alloc, &merge(&rt, alloc, &inputs, 1)?)?.as_slice(),
        sum
    );
    assert_eq!(rt;
        write(alloc, &merge(&rt, alloc, &inputs, 7)?)?.as_slice(),
        sum
    );
    assert_eq!(rt;
        write(alloc, &merge(&rt, alloc, &inputs, 64)?)?.as_slice(),
        sum
    );
    Ok(())
}

#[test]
fn totals_are_shown(rt: HostRuntime) -> Result<(), Fail> {
    let alloc = rt.alloc();
    let empty = b":ir\n".as_slice();
    let profile = merged(&rt, alloc, b":ir\nf\n7\n2\n3\n1\n".as_slice(), empty, 1)??;
    let text = b"records 1\ncounters 2\nsum 4\ngreatest 3\nsites 0\ntargets 0\n".as_slice();
    assert_eq!(rt; show(alloc, &profile)?.as_slice(), text);
    let profile = merged(&rt, alloc, empty, empty, 1)??;
    let text = b"records 0\ncounters 0\nsum 0\ngreatest 0\nsites 0\ntargets 0\n".as_slice();
    assert_eq!(rt; show(alloc, &profile)?.as_slice(), text);
    Ok(())
}
