// Lists of words that keep each rule and that break it. The words of a list are written in one line, parted by single
// spaces.
use super::*;
use std::alloc::Global;
use std::process::Abort;
use std::test::Fail;

fn words_of(alloc: Global, line: &str) -> Result<Vec<String>, Fail> {
    let mut words = Vec::new(alloc);
    for word in line.split(' ') {
        words.push(String::from_str(alloc, word)?)?;
    }
    Ok(words)
}

fn has_plan(alloc: Global, line: &str) -> Result<bool, Fail> {
    let words = words_of(alloc, line)?;
    match plan_of(alloc, &words) {
        Ok(_) => Ok(true),
        Err(WordsError::Usage) => Ok(false),
        Err(WordsError::NoMemory) => Err(Fail::from("out of memory")),
    }
}

fn expect(rt: &impl Abort, alloc: Global, lines: &[&str], wanted: bool) -> Result<(), Fail> {
    for line in lines {
        assert_eq!(rt; has_plan(alloc, line)?, wanted, "{line}");
    }
    Ok(())
}

#[test]
fn each_command_has_its_words(rt: HostRuntime) -> Result<(), Fail> {
    let alloc = rt.alloc();
    let kept = [
        "check m",
        "print m",
        "gen m o",
        "lower m o",
        "run m c",
        "merge o a",
        "show p",
        "edges m p",
        "use m p o",
        "promote m p o",
        "chain m c p o",
        "chain m c",
        "large 7",
        "layout m p o",
        "tree m",
    ];
    let broken = [
        "check",
        "print m n",
        "gen m",
        "lower m o o",
        "run m",
        "merge o",
        "show",
        "edges m",
        "use m p",
        "promote m p",
        "chain m c p",
        "large",
        "layout m p",
        "tree",
        "stream m c",
        "help",
        "",
        "checks m",
    ];
    expect(&rt, alloc, &kept, true)?;
    expect(&rt, alloc, &broken, false)
}

#[test]
fn options_stand_anywhere_behind_the_command(rt: HostRuntime) -> Result<(), Fail> {
    let alloc = rt.alloc();
    let kept = [
        "run --steps 5 m c",
        "run m --steps 5 c",
        "run m c --steps 5",
        "run m c --steps=5",
        "run --workers=2 m --steps 5 c --places 3 --profile p --entry-first",
    ];
    let broken = [
        "--steps 5 run m c",
        "run m c --steps",
        "run m c --steps=",
        "run m c --step 5",
        "run m c ---steps 5",
        "run m c --=5",
        "check m --steps 5",
        "run m c --peel 5",
        "run m c -s5",
        "run m c --help",
        "run m c -h",
        "run m c --version",
    ];
    expect(&rt, alloc, &kept, true)?;
    expect(&rt, alloc, &broken, false)
}

#[test]
fn an_option_stands_at_most_once(rt: HostRuntime) -> Result<(), Fail> {
    let alloc = rt.alloc();
    let kept = [
        "run m c --steps 5",
        "gen m o --entry-first",
        "tree --entry-first m",
    ];
    let broken = [
        "run m c --steps 5 --steps 5",
        "run m c --steps=5 --steps 5",
        "run m c --profile p --profile p",
        "gen m o --entry-first --entry-first",
        "gen m o --entry-first=1",
    ];
    expect(&rt, alloc, &kept, true)?;
    expect(&rt, alloc, &broken, false)
}

#[test]
fn behind_two_hyphens_all_words_are_files(rt: HostRuntime) -> Result<(), Fail> {
    let alloc = rt.alloc();
    let kept = [
        "check -- -x",
        "check -- --",
        "run --steps 5 -- m -c",
        "check m --",
        "large -- 7",
    ];
    let broken = [
        "check -x",
        "run -- m c --steps 5",
        "run m c --steps --",
        "run m c --steps -- 5",
    ];
    expect(&rt, alloc, &kept, true)?;
    expect(&rt, alloc, &broken, false)
}

#[test]
fn a_hyphen_alone_is_a_file_and_others_are_no_values(rt: HostRuntime) -> Result<(), Fail> {
    let alloc = rt.alloc();
    let kept = [
        "check -",
        "run m c --profile -",
        "run m c --profile=-x",
        "run - - --steps 5",
    ];
    let broken = [
        "run m c --profile -x",
        "run m c --steps -5",
        "run m c --profile --steps 5",
    ];
    expect(&rt, alloc, &kept, true)?;
    expect(&rt, alloc, &broken, false)
}

#[test]
fn files_are_not_empty_and_a_chain_writes_two(rt: HostRuntime) -> Result<(), Fail> {
    let alloc = rt.alloc();
    let kept = [
        "check m",
        "run m c --profile=p",
        "chain m c p o",
        "chain m m m o",
    ];
    let broken = [
        "check ",
        "run m ",
        "run  c",
        "run m c --profile=",
        "chain m c p p",
    ];
    expect(&rt, alloc, &kept, true)?;
    expect(&rt, alloc, &broken, false)
}

#[test]
fn numbers_are_digits_within_their_ranges(rt: HostRuntime) -> Result<(), Fail> {
    let alloc = rt.alloc();
    let kept = [
        "run m c --steps 1",
        "run m c --steps 1099511627776",
        "run m c --steps 0000000000007",
        "run m c --workers 64",
        "run m c --places 24",
        "layout m p o --peel 100",
        "large 0",
        "large 4294967295",
    ];
    let broken = [
        "run m c --steps 0",
        "run m c --steps 1099511627777",
        "run m c --steps 00000000000007",
        "run m c --workers 65",
        "run m c --workers 0",
        "run m c --workers +1",
        "run m c --workers 1x",
        "run m c --places 25",
        "run m c --places 008",
        "layout m p o --peel 101",
        "layout m p o --peel 0",
        "large 4294967296",
        "large x",
    ];
    expect(&rt, alloc, &kept, true)?;
    expect(&rt, alloc, &broken, false)
}

#[test]
fn a_merge_has_one_to_64_inputs(rt: HostRuntime) -> Result<(), Fail> {
    let alloc = rt.alloc();
    let mut words = words_of(alloc, "merge o")?;
    for _ in 0..64u32 {
        words.push(String::from_str(alloc, "p")?)?;
    }
    assert!(rt; plan_of(alloc, &words).is_ok());
    words.push(String::from_str(alloc, "p")?)?;
    assert!(rt; plan_of(alloc, &words).is_err());
    Ok(())
}

#[test]
fn an_option_that_is_not_given_has_its_default(rt: HostRuntime) -> Result<(), Fail> {
    let alloc = rt.alloc();
    let words = words_of(alloc, "run m c")?;
    let plan = plan_of(alloc, &words)?;
    match &plan {
        Plan::Run {
            module,
            calls,
            steps,
            workers,
            profile,
            entry_first,
            places,
        } => {
            assert_eq!(rt; module.as_str(), "m");
            assert_eq!(rt; calls.as_str(), "c");
            assert_eq!(rt; *steps, 1_000_000);
            assert_eq!(rt; *workers, 1);
            assert!(rt; profile.is_none() && !*entry_first);
            assert_eq!(rt; *places, 8);
        }
        _ => assert!(rt; false),
    }
    Ok(())
}

#[test]
fn stream_has_a_plan_of_its_own(rt: HostRuntime) -> Result<(), Fail> {
    let alloc = rt.alloc();
    let words = words_of(alloc, "stream m c --room 4096")?;
    let plan = stream_plan_of(alloc, &words)?;
    assert_eq!(rt; plan.room, 4096);
    assert_eq!(rt; plan.steps, 1_000_000);
    let words = words_of(alloc, "stream m c --room 4097")?;
    assert!(rt; stream_plan_of(alloc, &words).is_err());
    let words = words_of(alloc, "run m c")?;
    assert!(rt; stream_plan_of(alloc, &words).is_err());
    Ok(())
}
