// Modules that count: their kinds, the rules that speak of them, and their limits.
use crate::texts::{broken, limit, refusal};
use ir_check::{CheckError, Kind, LimitKind, check};
use ir_read::read;
use ir_tree::{Function, Module, Name, Prof, Ret, Seq};
use sqlite_items::Boxed;
use std::alloc::Global;
use std::test::Fail;

const INCREMENT: &[u8] = b"declare void @llvm.instrprof.increment(ptr, i64, i32, i32)\n";

const NOTE: &[u8] = b"declare void @__llvm_profile_instrument_target(i64, ptr, i32)\n";

// The pieces one behind the other.
fn joined(alloc: Global, pieces: &[&[u8]]) -> Result<Vec<u8>, Fail> {
    let mut text = Vec::new(alloc);
    for piece in pieces {
        text.extend_from_slice(*piece)?;
    }
    Ok(text)
}

fn kind_of(alloc: Global, text: &[u8]) -> Result<Option<Kind>, Fail> {
    match check(alloc, read(alloc, text)?) {
        Ok(checked) => Ok(Some(checked.kind())),
        Err(_) => Ok(None),
    }
}

#[test]
fn a_module_is_of_one_kind(rt: HostRuntime) -> Result<(), Fail> {
    let alloc = rt.alloc();
    assert!(rt; kind_of(alloc, b"")? == Some(Kind::Plain));
    assert!(rt; kind_of(alloc, INCREMENT)? == Some(Kind::Counted));
    assert!(rt; kind_of(alloc, NOTE)? == Some(Kind::Lowered));
    let both = joined(alloc, [NOTE, INCREMENT].as_slice())?;
    assert!(rt; refusal(alloc, both.as_slice())? == broken(2, 0, 0, 0));
    Ok(())
}

#[test]
fn names_of_profiles_are_reserved(rt: HostRuntime) -> Result<(), Fail> {
    let alloc = rt.alloc();
    let plain = b"declare void @f()\ndefine void @__profx() {\ne: ret void\n}\n";
    assert!(rt; refusal(alloc, plain)? == broken(3, 1, 0, 0));
    let variable = b"@a = global i8 0\n@llvm.instrprof.x = global i8 0\n";
    assert!(rt; refusal(alloc, variable)? == broken(3, 0, 0, 1));
    let version = joined(
        alloc,
        [b"@__llvm_profile_raw_version = constant i64 1\n", INCREMENT].as_slice(),
    )?;
    assert!(rt; refusal(alloc, version.as_slice())?.is_none());
    let other = joined(
        alloc,
        [b"@__llvm_profile_raw = constant i64 1\n", INCREMENT].as_slice(),
    )?;
    assert!(rt; refusal(alloc, other.as_slice())? == broken(3, 0, 0, 0));
    Ok(())
}

#[test]
fn intrinsics_are_those_that_are_known(rt: HostRuntime) -> Result<(), Fail> {
    let alloc = rt.alloc();
    let cover = joined(
        alloc,
        [INCREMENT, b"declare void @llvm.instrprof.cover(ptr)\n"].as_slice(),
    )?;
    assert!(rt; refusal(alloc, cover.as_slice())? == broken(4, 1, 0, 0));
    Ok(())
}

// A counted module whose call of the intrinsic has these numbers.
fn counting(alloc: Global, numbers: &[u8]) -> Result<Option<CheckError>, Fail> {
    let text = joined(
        alloc,
        [
            b"@__profn_f = constant [1 x i8] c\"f\"\n",
            INCREMENT,
            b"define void @f() {\ne: call void @llvm.instrprof.increment(ptr @__profn_f, i64 7, ",
            numbers,
            b")\nret void\n}\n",
        ]
        .as_slice(),
    )?;
    refusal(alloc, text.as_slice())
}

#[test]
fn a_unit_has_counters(rt: HostRuntime) -> Result<(), Fail> {
    let alloc = rt.alloc();
    assert!(rt; counting(alloc, b"i32 1, i32 0")?.is_none());
    assert!(rt; counting(alloc, b"i32 0, i32 0")? == broken(17, 1, 0, 0));
    assert!(rt; counting(alloc, b"i32 1048576, i32 0")?.is_none());
    assert!(rt; counting(alloc, b"i32 1048577, i32 0")? == broken(17, 1, 0, 0));
    Ok(())
}

// A lowered module of one unit: so many counters, what its data tell of counters and sites, and one instruction. The first number
// is the hash of the name `f`.
fn lowered(
    alloc: Global,
    counters: &[u8],
    told: &[u8],
    instr: &[u8],
) -> Result<Option<CheckError>, Fail> {
    let text = joined(
        alloc,
        [
            b"@__profn_f = constant [1 x i8] c\"f\"\n@__profc_f = global [",
            counters,
            b" x i64] zeroinitializer\n@__profd_f = global [4 x i64] [i64 14740650423002898831, i64 7, ",
            told,
            b"]\n",
            NOTE,
            b"define void @f(i64 %a) {\ne: ",
            instr,
            b"\nret void\n}\n",
        ]
        .as_slice(),
    )?;
    refusal(alloc, text.as_slice())
}

const LAST: &[u8] =
    b"atomicrmw add ptr getelementptr inbounds ([2 x i64], ptr @__profc_f, i64 0, i64 1), i64 1 monotonic";

const PAST: &[u8] =
    b"atomicrmw add ptr getelementptr inbounds ([2 x i64], ptr @__profc_f, i64 0, i64 2), i64 1 monotonic";

const NOTED: &[u8] = b"call void @__llvm_profile_instrument_target(i64 %a, ptr @__profd_f, i32 0)";

const PAST_NOTED: &[u8] =
    b"call void @__llvm_profile_instrument_target(i64 %a, ptr @__profd_f, i32 1)";

#[test]
fn counters_and_sites_are_those_of_the_unit(rt: HostRuntime) -> Result<(), Fail> {
    let alloc = rt.alloc();
    let told = b"i64 2, i64 1";
    assert!(rt; lowered(alloc, b"2", told, LAST)?.is_none());
    assert!(rt; lowered(alloc, b"2", told, PAST)? == broken(18, 1, 0, 0));
    assert!(rt; lowered(alloc, b"2", told, NOTED)?.is_none());
    assert!(rt; lowered(alloc, b"2", told, PAST_NOTED)? == broken(18, 1, 0, 0));
    assert!(rt; lowered(alloc, b"2", b"i64 3, i64 1", NOTED)? == broken(5, 0, 0, 1));
    Ok(())
}

#[test]
fn a_plain_module_counts_nothing(rt: HostRuntime) -> Result<(), Fail> {
    let alloc = rt.alloc();
    let text = joined(
        alloc,
        [
            b"@c = global [2 x i64] zeroinitializer\ndefine void @f() {\ne: ".as_slice(),
            b"atomicrmw add ptr getelementptr inbounds ([2 x i64], ptr @c, i64 0, i64 1), i64 1 monotonic",
            b"\nret void\n}\n",
        ]
        .as_slice(),
    )?;
    assert!(rt; refusal(alloc, text.as_slice())? == broken(18, 0, 0, 0));
    Ok(())
}

#[test]
fn units_have_at_most_1048576_counters_and_65536_sites(rt: HostRuntime) -> Result<(), Fail> {
    let alloc = rt.alloc();
    let counters = lowered(alloc, b"1048576", b"i64 1048576, i64 1", NOTED)?;
    assert!(rt; counters.is_none());
    let more = lowered(alloc, b"1048577", b"i64 1048577, i64 1", NOTED)?;
    assert!(rt; more == limit(LimitKind::Counters, 1_048_577));
    let sites = lowered(alloc, b"1", b"i64 1, i64 65536", NOTED)?;
    assert!(rt; sites.is_none());
    let past = lowered(alloc, b"1", b"i64 1, i64 65537", NOTED)?;
    assert!(rt; past == limit(LimitKind::Sites, 65_537));
    Ok(())
}

// A declaration with a note of entries, which no text spells.
#[test]
fn a_declaration_has_no_note(rt: HostRuntime) -> Result<(), Fail> {
    let alloc = rt.alloc();
    let mut functions = Vec::new(alloc);
    functions.push(Function {
        name: Name::of(alloc, b"f")?,
        ret: Ret::Void,
        params: Seq::of(Vec::new(alloc)),
        blocks: Seq::of(Vec::new(alloc)),
        prof: Some(Boxed::new(alloc, Prof::Entry(3))?),
    })?;
    let module = Module {
        globals: Seq::of(Vec::new(alloc)),
        functions: Seq::of(functions),
    };
    match check(alloc, module) {
        Ok(_) => assert!(rt; false, "accepted"),
        Err(refused) => {
            assert!(rt; Some(refused.why) == broken(15, 0, 0, 0));
            assert_eq!(rt; refused.module.functions.as_slice().len(), 1);
        }
    }
    Ok(())
}
