//! What no clause says of the objects in memory: that their calls succeed where there is memory and they aren't to fail.
use crate::tests::rows::same;
use cs_base::{FileSink, FileStore, Files, MemFiles, MemSink, MemStore, Sink, Store, TiredStore};
use std::alloc::Global;
use std::process::Abort;
use std::test::Fail;

// The file `x` of three bytes.
fn one_file(alloc: Global) -> Result<MemFiles, Fail> {
    let mut files = MemFiles::new(alloc);
    files.hold("x", b"abc".to_vec(alloc)?)?;
    Ok(files)
}

// What is put, and whether that is to succeed.
type Put = (&'static [u8], bool);

// What is read from a place on, or nothing where the read is to fail.
type Read = (u64, Option<[u8; 2]>);

fn puts<S: Sink>(rt: &impl Abort, sink: &mut S, rows: &[Put]) {
    for (bytes, succeeds) in rows {
        same(rt, &sink.put(bytes).is_ok(), succeeds, *bytes);
    }
}

fn reads<S: Store>(rt: &impl Abort, store: &mut S, rows: &[Read]) {
    for (at, want) in rows {
        same(rt, &two_from(store, *at), want, *at);
    }
}

// Two bytes of a store, where it has so many and the read succeeds.
fn two_from<S: Store>(store: &mut S, at: u64) -> Option<[u8; 2]> {
    let mut out = [0; 2];
    let Ok(size) = store.size() else {
        return None;
    };
    if at >= size || size - at < 2 {
        return None;
    }
    match store.read_at(at, &mut out) {
        Ok(()) => Some(out),
        Err(_) => None,
    }
}

#[test]
fn bytes_are_put(rt: HostRuntime) {
    let mut sink = MemSink::new(rt.alloc());
    puts(&rt, &mut sink, &[(b"ab", true), (b"", true)]);
    same(&rt, &sink.into_bytes().as_slice(), &b"ab".as_slice(), "put");
}

#[test]
fn the_second_put_fails(rt: HostRuntime) -> Result<(), Fail> {
    let mut sink = MemSink::new(rt.alloc());
    sink.fail(vec![in rt.alloc(); 2]?);
    puts(&rt, &mut sink, &[(b"a", true), (b"b", false), (b"c", true)]);
    same(&rt, &sink.bytes(), &b"ac".as_slice(), "put");
    Ok(())
}

#[test]
fn a_file_is_made(rt: HostRuntime) -> Result<(), Fail> {
    let mut files = MemFiles::new(rt.alloc());
    files.create("y")?;
    let Ok(Some(0)) = files.size("y") else {
        return Err(Fail::new("not that size"));
    };
    files.append("y", b"de")?;
    let Ok(Some(2)) = files.size("y") else {
        return Err(Fail::new("not that size"));
    };
    files.finish("y")?;
    same(&rt, &files.bytes("y"), &Some(b"de".as_slice()), "finished");
    Ok(())
}

#[test]
fn listed_reads_and_writes_of_files_fail_each_for_itself(rt: HostRuntime) -> Result<(), Fail> {
    let mut files = one_file(rt.alloc())?;
    files.fail_reads(vec![in rt.alloc(); 1, 3]?);
    files.fail_writes(vec![in rt.alloc(); 2]?);
    assert!(rt; files.size("x").is_err());
    files.create("y")?;
    assert!(rt; files.size("y") == Ok(Some(0)));
    assert!(rt; files.create("z").is_err());
    assert!(rt; files.size("y").is_err());
    assert!(rt; files.bytes("z").is_none());
    Ok(())
}

#[test]
fn a_store_in_memory_is_read(rt: HostRuntime) -> Result<(), Fail> {
    let mut store = MemStore::new(b"abc".to_vec(rt.alloc())?);
    same(&rt, &store.size(), &Ok(3), "the size");
    reads(&rt, &mut store, &[(1, Some(*b"bc"))]);
    Ok(())
}

#[test]
fn the_second_read_of_a_tired_store_fails(rt: HostRuntime) -> Result<(), Fail> {
    let mut store = TiredStore::new(b"abc".to_vec(rt.alloc())?);
    store.fail_at(2);
    reads(&rt, &mut store, TIRED);
    Ok(())
}

const TIRED: &[Read] = &[(1, Some(*b"bc")), (0, None), (0, Some(*b"ab"))];

#[test]
fn a_file_is_read_as_a_store(rt: HostRuntime) -> Result<(), Fail> {
    let mut files = one_file(rt.alloc())?;
    files.fail_reads(vec![in rt.alloc(); 3]?);
    let Ok(Some(3)) = files.size("x") else {
        return Err(Fail::new("not that size"));
    };
    let mut store = FileStore::new(&mut files, "x", 3);
    same(&rt, &store.size(), &Ok(3), "the size");
    reads(&rt, &mut store, &[(1, Some(*b"bc")), (0, None)]);
    Ok(())
}

#[test]
fn a_file_is_written_as_a_sink(rt: HostRuntime) -> Result<(), Fail> {
    let mut files = one_file(rt.alloc())?;
    files.fail_writes(vec![in rt.alloc(); 3]?);
    let Ok(()) = files.create("x") else {
        return Err(Fail::new("not made"));
    };
    let mut sink = FileSink::new(&mut files, "x");
    puts(&rt, &mut sink, &[(b"d", true), (b"e", false), (b"f", true)]);
    same(&rt, &files.bytes("x"), &Some(b"df".as_slice()), "written");
    Ok(())
}
