// What views show of texts, and the lines that refusals name. Expected values are worked out by hand from the format.
use crate::{ProfileView, TEXT_MOST, ViewError};
use std::alloc::Global;
use std::test::Fail;

fn push_number(out: &mut Vec<u8>, alloc: Global, number: u64) -> Result<(), Fail> {
    let text = format!(in alloc; " {number}")?;
    out.extend_from_slice(text.as_str().as_bytes())?;
    Ok(())
}

// A line for each record: its name, hash and counters, and for each site a bar and its targets.
fn shown(alloc: Global, view: &ProfileView<'_>) -> Result<Vec<u8>, Fail> {
    let mut out = Vec::new(alloc);
    for index in 0..view.len() {
        let record = view.at(index);
        out.extend_from_slice(record.name())?;
        push_number(&mut out, alloc, record.hash())?;
        out.push(b';')?;
        for counter in record.counters() {
            push_number(&mut out, alloc, counter)?;
        }
        for site in record.sites() {
            out.extend_from_slice(b" |")?;
            for (name, count) in site.targets() {
                out.push(b' ')?;
                out.extend_from_slice(name)?;
                push_number(&mut out, alloc, count)?;
            }
        }
        out.push(b'\n')?;
    }
    Ok(out)
}

// The line that a refusal names; 0 where the text is not refused so.
fn bad_line(alloc: Global, text: &[u8]) -> u32 {
    match ProfileView::read(alloc, text) {
        Err(ViewError::Syntax { line }) => line,
        _ => 0,
    }
}

// What threads may share and hand on.
fn crosses_threads<T: Send + Sync>(_value: &T) {}

#[test]
fn a_header_in_capitals_is_entry_first(rt: HostRuntime) -> Result<(), Fail> {
    let view = ProfileView::read(rt.alloc(), b"# a comment\n:ENTRY_FIRST\n\n:IR\n:ir\n")?;
    assert!(rt; view.entry_first());
    assert!(rt; view.is_empty());
    Ok(())
}

#[test]
fn the_header_alone_is_a_profile(rt: HostRuntime) -> Result<(), Fail> {
    let view = ProfileView::read(rt.alloc(), b":ir\n")?;
    assert!(rt; !view.entry_first());
    assert_eq!(rt; view.len(), 0);
    crosses_threads(&view);
    Ok(())
}

#[test]
fn comments_and_blanks_are_passed_over(rt: HostRuntime) -> Result<(), Fail> {
    let view = ProfileView::read(
        rt.alloc(),
        b":ir\n f \r\n# Func Hash:\n\t7\n\n # Num Counters:\n2\n5 \t\n\r\n6",
    )?;
    assert_eq!(rt;
        shown(rt.alloc(), &view)?.as_slice(),
        b"f 7; 5 6\n".as_slice()
    );
    Ok(())
}

#[test]
fn hashes_are_read_in_both_notations(rt: HostRuntime) -> Result<(), Fail> {
    let view = ProfileView::read(rt.alloc(), b"f\n0x1fA\n1\n5\nf\n010\n1\n6\n")?;
    assert_eq!(rt;
        shown(rt.alloc(), &view)?.as_slice(),
        b"f 506; 5\nf 10; 6\n".as_slice()
    );
    Ok(())
}

#[test]
fn long_numbers_are_read_among_the_written_comments(rt: HostRuntime) -> Result<(), Fail> {
    let view = ProfileView::read(
        rt.alloc(),
        b"_f\n# Func Hash:\n18446744073709551615\n# Num Counters:\n3\n# Counter Values:\n9999999999999999999\n18446744073709551615\n0000000000000000000007\n\ng\n# Func Hash: \n7\n# Num Counters\n1\n5\n",
    )?;
    assert_eq!(rt;
        shown(rt.alloc(), &view)?.as_slice(),
        b"_f 18446744073709551615; 9999999999999999999 18446744073709551615 7\ng 7; 5\n".as_slice()
    );
    Ok(())
}

#[test]
fn names_have_blanks_and_colons_inside(rt: HostRuntime) -> Result<(), Fail> {
    let view = ProfileView::read(
        rt.alloc(),
        b"a b:c 1\n2\n1\n3\n1\n0\n1\n2\nx y:z:4\n#no:5\nw:5\n",
    )?;
    assert_eq!(rt;
        shown(rt.alloc(), &view)?.as_slice(),
        b"a b:c 1 2; 3 | x y:z 4 w 5\n".as_slice()
    );
    Ok(())
}

#[test]
fn only_kind_0_is_kept(rt: HostRuntime) -> Result<(), Fail> {
    let view = ProfileView::read(
        rt.alloc(),
        b"f\n1\n1\n5\n3\n2\n1\n1\nv:7\n0\n2\n1\ng:4\n0\n1\n1\n1\n8:2\nh\n2\n1\n6\n",
    )?;
    assert_eq!(rt;
        shown(rt.alloc(), &view)?.as_slice(),
        b"f 1; 5 | g 4 |\nh 2; 6\n".as_slice()
    );
    Ok(())
}

#[test]
fn a_text_above_the_limit_is_refused(rt: HostRuntime) -> Result<(), Fail> {
    let text = vec![in rt.alloc(); b'#'; TEXT_MOST + 1]?;
    let view = ProfileView::read(rt.alloc(), &text.as_slice()[1..])?;
    assert!(rt; view.is_empty());
    let refused = ProfileView::read(rt.alloc(), text.as_slice());
    assert!(rt; matches!(refused, Err(ViewError::TextLimit { length: 16_777_217 })));
    Ok(())
}

#[test]
fn the_bad_line_is_named(rt: HostRuntime) {
    assert_eq!(rt; bad_line(rt.alloc(), b":ir\n:csir\n"), 2);
    assert_eq!(rt; bad_line(rt.alloc(), b"f\n1\n1\n5\n:ir\n"), 5);
    assert_eq!(rt; bad_line(rt.alloc(), b"f\n1\n0\n"), 3);
    assert_eq!(rt; bad_line(rt.alloc(), b"f\n1\n0"), 3);
    assert_eq!(rt; bad_line(rt.alloc(), b"f\n1\n1\n18446744073709551616\n"), 4);
    assert_eq!(rt; bad_line(rt.alloc(), b"# a comment\n\nf\n0x\n1\n5\n"), 4);
    assert_eq!(rt; bad_line(rt.alloc(), b"f\n1\n1048577\n1\n"), 3);
    assert_eq!(rt; bad_line(rt.alloc(), b"f\n1\n1\n5\n2\n0\n0\n0\n0\n"), 8);
}

#[test]
fn a_text_that_ends_too_early_names_its_last_line(rt: HostRuntime) {
    assert_eq!(rt; bad_line(rt.alloc(), b"f\n1\n2\n3\n"), 4);
    assert_eq!(rt; bad_line(rt.alloc(), b"f\n1\n2\n3"), 4);
    assert_eq!(rt; bad_line(rt.alloc(), b"f\n1\n2\n3\n\n# the end\n"), 6);
}

#[test]
fn a_record_may_have_1048576_counters(rt: HostRuntime) -> Result<(), Fail> {
    let mut text = Vec::new(rt.alloc());
    text.extend_from_slice(b"f\n1\n1048576\n")?;
    for _ in 0..1_048_576 {
        text.extend_from_slice(b"3\n")?;
    }
    let view = ProfileView::read(rt.alloc(), text.as_slice())?;
    assert_eq!(rt; view.len(), 1);
    let mut sum: u64 = 0;
    for counter in view.at(0).counters() {
        sum = sum.wrapping_add(counter);
    }
    assert_eq!(rt; sum, 3_145_728);
    Ok(())
}
