// Profiles that `show` takes, and those that it names a line of.
use crate::program::transcript;
use std::test::Fail;

#[test]
fn a_text_that_is_no_profile_is_refused_with_its_line(rt: HostRuntime) -> Result<(), Fail> {
    let texts: [(&[u8], &str); 7] = [
        (b"f\n1\n0\n", "pgo: m.ll: syntax at line 3\nstatus 2\n"),
        (
            b"f\n1\n1\n18446744073709551616\n",
            "pgo: m.ll: syntax at line 4\nstatus 2\n",
        ),
        (b"f\n0x\n1\n5\n", "pgo: m.ll: syntax at line 2\nstatus 2\n"),
        (
            b"f\n1\n1048577\n",
            "pgo: m.ll: syntax at line 3\nstatus 2\n",
        ),
        // The numbers of counters, and then no counter behind the first.
        (b"f\n1\n2\n3\n", "pgo: m.ll: syntax at line 4\nstatus 2\n"),
        // Kind 0 for the second time.
        (
            b"f\n1\n1\n5\n2\n0\n0\n0\n0\n",
            "pgo: m.ll: syntax at line 8\nstatus 2\n",
        ),
        (
            b"f\n1\n1\n5\n:ir\n",
            "pgo: m.ll: syntax at line 5\nstatus 2\n",
        ),
    ];
    for (text, told) in texts {
        assert_eq!(rt;
            transcript(&rt, rt.alloc(), &["show", "m.ll"], text, b"")?.as_str(),
            told
        );
    }
    Ok(())
}

#[test]
fn the_totals_of_profiles_are_shown(rt: HostRuntime) -> Result<(), Fail> {
    let texts: [(&[u8], &str); 2] = [
        (
            b":ir\n",
            "records 0\ncounters 0\nsum 0\ngreatest 0\nsites 0\ntargets 0\nstatus 0\n",
        ),
        (
            b":ENTRY_FIRST\n:ir\nf\n7\n2\n3\n1\n",
            "records 1\ncounters 2\nsum 4\ngreatest 3\nsites 0\ntargets 0\nstatus 0\n",
        ),
    ];
    for (text, told) in texts {
        assert_eq!(rt;
            transcript(&rt, rt.alloc(), &["show", "m.ll"], text, b"")?.as_str(),
            told
        );
    }
    Ok(())
}
