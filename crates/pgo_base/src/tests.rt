// What no clause says: the digest of a known name, the fakes' failing calls, and the real edge.
use super::*;
use std::alloc::{AllocError, Global};
use std::path::PathBuf;
use std::test::Fail;
use std::{env, fs, process};

type GivenFiles = Vec<(String, Vec<u8>)>;

fn one_file(alloc: Global, name: &str, bytes: &[u8]) -> Result<GivenFiles, AllocError> {
    let mut files = Vec::new(alloc);
    files.push((String::from_str(alloc, name)?, bytes.to_vec(alloc)?))?;
    Ok(files)
}

#[test]
fn the_hash_of_abc(rt: HostRuntime) {
    assert_eq!(rt; hash8(b"abc"), 12_704_604_231_530_709_392);
}

#[test]
fn a_memory_store_fails_the_listed_calls(rt: HostRuntime) -> Result<(), Fail> {
    let alloc = rt.alloc();
    let files = one_file(alloc, "a", b"old")?;
    let mut store = MemoryStore::new(alloc, files, vec![in alloc; 1, 3]?)?;
    assert_eq!(rt; store.read_file(alloc, "a")?.as_slice(), b"old".as_slice());
    assert!(rt; store.read_file(alloc, "a") == Err(OutsideError::Failed));
    assert!(rt; store.write_file("b", b"new").is_ok());
    assert!(rt; store.write_file("a", b"abcd") == Err(OutsideError::Failed));
    assert!(rt; store.file("a") == Some(b"ab".as_slice()));
    assert!(rt; store.file("b") == Some(b"new".as_slice()));
    assert!(rt; store.read_file(alloc, "c") == Err(OutsideError::Failed));
    assert!(rt; store.file("c").is_none());
    Ok(())
}

#[test]
fn a_never_store_reads_and_writes(rt: HostRuntime) -> Result<(), Fail> {
    let alloc = rt.alloc();
    let mut store = NeverStore::new(alloc, one_file(alloc, "a", b"old")?)?;
    store.write_file("a", b"newer")?;
    assert_eq!(rt;
        store.read_file(alloc, "a")?.as_slice(),
        b"newer".as_slice()
    );
    assert!(rt; store.file("a") == Some(b"newer".as_slice()));
    assert!(rt; store.read_file(alloc, "b") == Err(OutsideError::Failed));
    Ok(())
}

#[test]
fn a_memory_sink_fails_the_listed_puts(rt: HostRuntime) -> Result<(), Fail> {
    let alloc = rt.alloc();
    let mut sink = MemorySink::new(alloc, vec![in alloc; 1]?)?;
    sink.put(b"one ")?;
    sink.put(b"")?;
    assert!(rt; sink.put(b"half") == Err(OutsideError::Failed));
    sink.put(b" two")?;
    assert_eq!(rt; sink.bytes(), b"one ha two".as_slice());
    let mut never = NeverSink::new(alloc)?;
    never.put(b"all")?;
    assert_eq!(rt; never.bytes(), b"all".as_slice());
    Ok(())
}

#[test]
fn a_file_store_reads_and_writes_files(rt: HostRuntime) -> Result<(), Fail> {
    let alloc = rt.alloc();
    let folder: PathBuf = env::temp_dir(&rt)?;
    let file = format!(in alloc;
        "{}/pgo_base_test_{}",
        folder.display(),
        process::id(rt.process())
    )?;
    let mut store = FileStore::new(&rt, alloc);
    assert!(rt; store.read_file(alloc, file.as_str()) == Err(OutsideError::Failed));
    store.write_file(file.as_str(), b"some bytes")?;
    assert_eq!(rt;
        store.read_file(alloc, file.as_str())?.as_slice(),
        b"some bytes".as_slice()
    );
    let long = vec![in alloc; 7; READ_MOST + 3]?;
    store.write_file(file.as_str(), long.as_slice())?;
    assert_eq!(rt; store.read_file(alloc, file.as_str())?.len(), READ_MOST);
    store.write_file(file.as_str(), b"")?;
    assert_eq!(rt; store.read_file(alloc, file.as_str())?.len(), 0);
    fs::remove_file(&rt, file.as_str())?;
    Ok(())
}

#[test]
fn a_stream_sink_writes_to_its_writer(rt: HostRuntime) -> Result<(), Fail> {
    let alloc = rt.alloc();
    let mut bytes: Vec<u8> = Vec::new(alloc);
    {
        let mut sink = StreamSink::new(&mut bytes);
        sink.put(b"ab")?;
        sink.put(b"cd")?;
    }
    assert_eq!(rt; bytes.as_slice(), b"abcd".as_slice());
    let mut room = [0; 3];
    let mut full = StreamSink::new(room.as_mut_slice());
    assert!(rt; full.put(b"abcd") == Err(OutsideError::Failed));
    Ok(())
}
