// The commands on profiles over stores and sinks in memory.
use super::*;
use pgo_base::{MemoryStore, NeverSink, QuietGate};
use std::alloc::Global;
use std::test::Fail;
use std::thread::Threads;

#[derive(Drop)]
struct Ended {
    status: Status,
    store: MemoryStore,
    out: NeverSink,
    err: NeverSink,
}

// What these words end with, where the files `a` and `b` hold these profiles; the store's calls of these numbers fail.
fn ended_by<R: Threads + Sync>(
    rt: &R,
    alloc: Global,
    words: &[&str],
    a: &[u8],
    b: &[u8],
    failing: Vec<u64>,
) -> Result<Ended, Fail> {
    let mut list = Vec::new(alloc);
    for word in words {
        list.push(String::from_str(alloc, word)?)?;
    }
    let mut files = Vec::new(alloc);
    files.push((String::from_str(alloc, "a")?, a.to_vec(alloc)?))?;
    files.push((String::from_str(alloc, "b")?, b.to_vec(alloc)?))?;
    let mut store = MemoryStore::new(alloc, files, failing)?;
    let mut out = NeverSink::new(alloc)?;
    let mut err = NeverSink::new(alloc)?;
    let status = pgo(
        rt,
        alloc,
        list.as_slice(),
        &mut store,
        &mut out,
        &mut err,
        &QuietGate,
    );
    Ok(Ended {
        status,
        store,
        out,
        err,
    })
}

// What `merge o a b` ends with.
fn merge<R: Threads + Sync>(rt: &R, alloc: Global, a: &[u8], b: &[u8]) -> Result<Ended, Fail> {
    ended_by(rt, alloc, &["merge", "o", "a", "b"], a, b, Vec::new(alloc))
}

// What `show a` ends with.
fn show<R: Threads + Sync>(rt: &R, alloc: Global, a: &[u8]) -> Result<Ended, Fail> {
    ended_by(rt, alloc, &["show", "a"], a, b"", Vec::new(alloc))
}

#[test]
fn the_sum_of_the_largest_counter_and_one_is_the_largest(rt: HostRuntime) -> Result<(), Fail> {
    let alloc = rt.alloc();
    let most = b"f\n1\n1\n18446744073709551615\n".as_slice();
    let one = b"f\n1\n1\n1\n".as_slice();
    let text =
        b":ir\nf\n# Func Hash:\n1\n# Num Counters:\n1\n# Counter Values:\n18446744073709551615\n\n".as_slice();
    for (a, b) in [(most, one), (one, most)] {
        let end = merge(&rt, alloc, a, b)?;
        assert_eq!(rt; end.status, Status::Done);
        assert_eq!(rt; end.store.file("o"), Some(text));
        assert_eq!(rt; end.out.bytes(), b"".as_slice());
        assert_eq!(rt; end.err.bytes(), b"".as_slice());
    }
    Ok(())
}

// The sum is 2^64 - 3, where LLVM's writer stops.
#[test]
fn sums_below_the_largest_number_are_kept(rt: HostRuntime) -> Result<(), Fail> {
    let alloc = rt.alloc();
    let end = merge(
        &rt,
        alloc,
        b"f\n1\n2\n18446744073709551612\n9223372036854775807",
        b"f\n1\n2\n1\n9223372036854775807",
    )?;
    let text =
        b":ir\nf\n# Func Hash:\n1\n# Num Counters:\n2\n# Counter Values:\n18446744073709551613\n18446744073709551614\n\n".as_slice();
    assert_eq!(rt; end.store.file("o"), Some(text));
    Ok(())
}

// Both records are kept, by their hashes, which may be written in both notations.
#[test]
fn records_of_other_hashes_are_kept_apart(rt: HostRuntime) -> Result<(), Fail> {
    let alloc = rt.alloc();
    let end = merge(&rt, alloc, b"f\n2\n1\n7\n", b"f\n0x1\n1\n5\nf\n1\n1\n6\n")?;
    let text =
        b":ir\nf\n# Func Hash:\n1\n# Num Counters:\n1\n# Counter Values:\n11\n\nf\n# Func Hash:\n2\n# Num Counters:\n1\n# Counter Values:\n7\n\n".as_slice();
    assert_eq!(rt; end.status, Status::Done);
    assert_eq!(rt; end.store.file("o"), Some(text));
    Ok(())
}

#[test]
fn names_stand_before_hashes_and_have_blanks_and_colons(rt: HostRuntime) -> Result<(), Fail> {
    let alloc = rt.alloc();
    let end = merge(
        &rt,
        alloc,
        b"a.c:f g\n9\n1\n1\n1\n0\n1\n1\nx:y z:4\n",
        b" a.c \n8\n1\n2\n",
    )?;
    let text =
        b":ir\na.c\n# Func Hash:\n8\n# Num Counters:\n1\n# Counter Values:\n2\n\na.c:f g\n# Func Hash:\n9\n# Num Counters:\n1\n# Counter Values:\n1\n# Num Value Kinds:\n1\n# ValueKind = IPVK_IndirectCallTarget:\n0\n# NumValueSites:\n1\n1\nx:y z:4\n\n".as_slice();
    assert_eq!(rt; end.store.file("o"), Some(text));
    Ok(())
}

#[test]
fn other_numbers_name_the_least_key(rt: HostRuntime) -> Result<(), Fail> {
    let alloc = rt.alloc();
    let end = merge(&rt, alloc, b"f\n1\n1\n5\n", b"f\n1\n2\n5\n6\n")?;
    assert_eq!(rt; end.status, Status::Refused);
    assert_eq!(rt;
        end.err.bytes(),
        b"pgo: merge: f 1 has 1 and 2 counters\n".as_slice()
    );
    assert_eq!(rt; end.store.file("o"), None);
    let with_site = b"f\n1\n1\n5\n1\n0\n1\n0\n".as_slice();
    let end = merge(&rt, alloc, b"f\n1\n1\n5\n", with_site)?;
    assert_eq!(rt;
        end.err.bytes(),
        b"pgo: merge: f 1 has 0 and 1 sites\n".as_slice()
    );
    // The name decides before the hash.
    let end = merge(
        &rt,
        alloc,
        b"g\n1\n1\n5\nf\n2\n1\n5\n",
        b"g\n1\n2\n5\n6\nf\n2\n3\n5\n6\n7\n",
    )?;
    assert_eq!(rt;
        end.err.bytes(),
        b"pgo: merge: f 2 has 1 and 3 counters\n".as_slice()
    );
    Ok(())
}

#[test]
fn another_mode_names_the_input(rt: HostRuntime) -> Result<(), Fail> {
    let alloc = rt.alloc();
    let end = merge(&rt, alloc, b":ir\n", b":ir\n:entry_first\n")?;
    assert_eq!(rt; end.status, Status::Refused);
    assert_eq!(rt;
        end.err.bytes(),
        b"pgo: merge: input 1 differs in entry_first\n".as_slice()
    );
    // The mode is looked at before any record.
    let end = merge(
        &rt,
        alloc,
        b":Entry_First\n:IR\nf\n1\n1\n5\n",
        b"f\n1\n2\n5\n6\n",
    )?;
    assert_eq!(rt;
        end.err.bytes(),
        b"pgo: merge: input 1 differs in entry_first\n".as_slice()
    );
    let first = b":ENTRY_FIRST\n:ir\n".as_slice();
    let end = merge(&rt, alloc, first, first)?;
    assert_eq!(rt;
        end.store.file("o"),
        Some(b":ir\n:entry_first\n".as_slice())
    );
    Ok(())
}

#[test]
fn the_first_input_that_is_no_profile_is_named(rt: HostRuntime) -> Result<(), Fail> {
    let alloc = rt.alloc();
    let cut = b"f\n1\n2\n3".as_slice();
    let end = merge(&rt, alloc, b":ir\n", cut)?;
    assert_eq!(rt; end.status, Status::Refused);
    assert_eq!(rt; end.err.bytes(), b"pgo: b: syntax at line 4\n".as_slice());
    let end = merge(&rt, alloc, cut, b":csir\n")?;
    assert_eq!(rt; end.err.bytes(), b"pgo: a: syntax at line 4\n".as_slice());
    // A text that is none is refused before the modes are compared.
    let words = ["merge", "o", "a", "b", "a"];
    let end = ended_by(&rt, alloc, &words, b":entry_first", b"f\n", Vec::new(alloc))?;
    assert_eq!(rt; end.err.bytes(), b"pgo: b: syntax at line 1\n".as_slice());
    Ok(())
}

#[test]
fn an_input_may_be_the_file_that_is_written(rt: HostRuntime) -> Result<(), Fail> {
    let alloc = rt.alloc();
    let text = b":ir\nf\n# Func Hash:\n1\n# Num Counters:\n1\n# Counter Values:\n7\n\n".as_slice();
    let words = ["merge", "a", "a", "b"];
    let end = ended_by(
        &rt,
        alloc,
        &words,
        b"f\n1\n1\n5\n",
        b"f\n1\n1\n2\n",
        Vec::new(alloc),
    )?;
    assert_eq!(rt; end.status, Status::Done);
    assert_eq!(rt; end.store.file("a"), Some(text));
    let end = ended_by(
        &rt,
        alloc,
        &["merge", "o", "a"],
        b"f\n1\n1\n5\nf\n1\n1\n2\n",
        b"",
        Vec::new(alloc),
    )?;
    assert_eq!(rt; end.store.file("o"), Some(text));
    Ok(())
}

#[test]
fn a_merge_of_64_is_the_same_by_any_number_of_workers(rt: HostRuntime) -> Result<(), Fail> {
    let alloc = rt.alloc();
    let a = b"f\n1\n1\n288230376151711744\n1\n0\n1\n1\na:1\n".as_slice();
    let sum =
        b":ir\nf\n# Func Hash:\n1\n# Num Counters:\n1\n# Counter Values:\n18446744073709551615\n# Num Value Kinds:\n1\n# ValueKind = IPVK_IndirectCallTarget:\n0\n# NumValueSites:\n1\n1\na:64\n\n".as_slice();
    for workers in ["1", "7", "64"] {
        let mut words = Vec::new(alloc);
        words.push("merge")?;
        words.push("--workers")?;
        words.push(workers)?;
        words.push("o")?;
        for _ in 0..64 {
            words.push("a")?;
        }
        let end = ended_by(&rt, alloc, words.as_slice(), a, b"", Vec::new(alloc))?;
        assert_eq!(rt; end.status, Status::Done);
        assert_eq!(rt; end.store.file("o"), Some(sum));
        words.push("a")?;
        let end = ended_by(&rt, alloc, words.as_slice(), a, b"", Vec::new(alloc))?;
        assert_eq!(rt; end.status, Status::Words);
    }
    Ok(())
}

#[test]
fn show_prints_the_totals(rt: HostRuntime) -> Result<(), Fail> {
    let alloc = rt.alloc();
    let end = show(&rt, alloc, b":ir\nf\n7\n2\n3\n1\n")?;
    assert_eq!(rt; end.status, Status::Done);
    assert_eq!(rt;
        end.out.bytes(),
        b"records 1\ncounters 2\nsum 4\ngreatest 3\nsites 0\ntargets 0\n".as_slice()
    );
    let end = show(&rt, alloc, b":ir\n")?;
    assert_eq!(rt;
        end.out.bytes(),
        b"records 0\ncounters 0\nsum 0\ngreatest 0\nsites 0\ntargets 0\n".as_slice()
    );
    Ok(())
}

#[test]
fn texts_that_are_no_profiles_are_refused_with_a_line(rt: HostRuntime) -> Result<(), Fail> {
    let alloc = rt.alloc();
    let refused: [(&[u8], &[u8]); 7] = [
        (b"f\n1\n2\n3", b"pgo: a: syntax at line 4\n"),
        (b"f\n1\n0\n", b"pgo: a: syntax at line 3\n"),
        (
            b"f\n1\n1\n18446744073709551616\n",
            b"pgo: a: syntax at line 4\n",
        ),
        (b"f\n0x\n1\n5\n", b"pgo: a: syntax at line 2\n"),
        (b"f\n1\n1048577\n", b"pgo: a: syntax at line 3\n"),
        (
            b"f\n1\n1\n5\n2\n0\n0\n0\n0\n",
            b"pgo: a: syntax at line 8\n",
        ),
        (b"\n# x\n:csir\n", b"pgo: a: syntax at line 3\n"),
    ];
    for (text, line) in refused {
        let end = show(&rt, alloc, text)?;
        assert_eq!(rt; end.status, Status::Refused);
        assert_eq!(rt; end.err.bytes(), line);
        assert_eq!(rt; end.out.bytes(), b"".as_slice());
    }
    Ok(())
}

#[test]
fn a_record_may_have_1048576_counters(rt: HostRuntime) -> Result<(), Fail> {
    let alloc = rt.alloc();
    let mut text = b"f\n1\n1048576\n".to_vec(alloc)?;
    for _ in 0..1_048_576 {
        text.extend_from_slice(b"2\n")?;
    }
    let end = show(&rt, alloc, text.as_slice())?;
    assert_eq!(rt;
        end.out.bytes(),
        b"records 1\ncounters 1048576\nsum 2097152\ngreatest 2\nsites 0\ntargets 0\n".as_slice()
    );
    Ok(())
}

// Calls 0 and 1 are the reads, and call 2 is the write.
#[test]
fn a_file_that_fails_is_named(rt: HostRuntime) -> Result<(), Fail> {
    let alloc = rt.alloc();
    let words = ["merge", "o", "a", "b"];
    let lines: [&[u8]; 3] = [
        b"pgo: cannot read a\n",
        b"pgo: cannot read b\n",
        b"pgo: cannot write o\n",
    ];
    for (call, line) in lines.iter().enumerate() {
        let mut failing = Vec::new(alloc);
        failing.push(call as u64)?;
        let end = ended_by(&rt, alloc, &words, b":ir\n", b":ir\n", failing)?;
        assert_eq!(rt; end.status, Status::Outside);
        assert_eq!(rt; end.err.bytes(), *line);
    }
    Ok(())
}
