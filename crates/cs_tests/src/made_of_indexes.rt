//! What no clause says: that with memory at hand index files are upgraded and merged, and how the lines read.
use crate::runs::{built, run_over, same};
use cs_base::{MemFiles, Memory};
use std::alloc::Global;
use std::test::Fail;

const UPGRADE: &[&str] = &["upgrade", "A", "N"];

const MERGE: &[&str] = &["merge", "A", "B", "N"];

const ONE: &str = "Ab\tk=C\tb a";

// The index file of this one document in the version before the one that is written, whose directory has 16 bytes a block.
const EARLIER: &[u8] = b"HYBIDX1\n\
    \x00\x00\x00\x01\x00\x00\x00\x04\x00\x00\x00\x04\x00\x00\x00\x02\x00\x00\x20\x00\
    \x00\x00\x00\x0c\x00\x00\x00\x02\x00\x00\x00\x20\x00\x00\x00\x00\
    \x04:k:c\x01a\x02ab\x01b\
    \x00\x00\x00\x00\x00\x00\x00\x02\
    Ab\
    \x00\x00\x00\x00\x00\x00\x00\x01\x00\x00\x00\x01\x00\x00\x00\x08\
    \x00\x00\x00\x01\x00\x00\x00\x03\x00\x00\x00\x03\x00\x00\x00\x18\
    \x00\x00\x00\x00\x00\x00\x00\x02\
    \x00\x00\x00\
    \x00\x01\x00\x02\x00\x00\
    \x00\x00\x00\x01\x00\x00\x00\x0a\x00\x00\x00\x0b\
    \x04\x01\x01";

// The files A and B.
fn both(alloc: Global, a: &[u8], b: &[u8]) -> Result<MemFiles, Memory> {
    let mut files = MemFiles::new(alloc);
    files.hold("A", a.to_vec(alloc)?)?;
    files.hold("B", b.to_vec(alloc)?)?;
    Ok(files)
}

// The index file of a collection.
fn index_of(alloc: Global, collection: &str) -> Result<Vec<u8>, Fail> {
    let files = built(alloc, collection, b"")?;
    let bytes = files.bytes("I").unwrap_or(b"");
    Ok(bytes.to_vec(alloc)?)
}

#[test]
fn an_index_file_is_upgraded_once(rt: HostRuntime) -> Result<(), Fail> {
    let alloc = rt.alloc();
    let wanted = index_of(alloc, ONE)?;
    for bytes in [EARLIER, wanted.as_slice()] {
        let mut files = both(alloc, bytes, b"")?;
        let left = run_over(alloc, UPGRADE, &mut files)?;
        assert!(rt; left.is(0, b"", ""));
        same(
            &rt,
            &files.bytes("N"),
            &Some(wanted.as_slice()),
            bytes.len(),
        );
    }
    Ok(())
}

// Two collections, and the one of the documents of both.
const MERGES: &[(&str, &str, &str)] = &[
    (
        "Typeless, find\tauthor=Bast;year=2006\ta succinct",
        "Typed\tauthor=Church\tlambda\nFaceted\tyear=2006\tsearch",
        "Typeless, find\tauthor=Bast;year=2006\ta succinct\nTyped\tauthor=Church\tlambda\nFaceted\tyear=2006\tsearch",
    ),
    ("", ONE, ONE),
    ("", "", ""),
];

#[test]
fn merged_index_files_are_that_of_both_collections(rt: HostRuntime) -> Result<(), Fail> {
    let alloc = rt.alloc();
    for (first, second, whole) in MERGES {
        let a = index_of(alloc, first)?;
        let b = index_of(alloc, second)?;
        let mut files = both(alloc, &a, &b)?;
        let left = run_over(alloc, MERGE, &mut files)?;
        assert!(rt; left.is(0, b"", ""));
        let wanted = index_of(alloc, whole)?;
        same(&rt, &files.bytes("N"), &Some(wanted.as_slice()), *whole);
    }
    Ok(())
}

// One place of an index file, and what stands there in its stead.
type Change = Option<(usize, u8)>;

// The index files of two collections, each with a change; the status, and what is said.
type Refused = (&'static str, Change, &'static str, Change, u8, &'static str);

const REFUSED: &[Refused] = &[
    (
        "#weights title=9 facet=2 text=1\na",
        None,
        "a",
        None,
        10,
        "merge: weights differ\n",
    ),
    // a target of 0 rows, and of 7 more than the other
    ("", None, "", Some((26, 0x00)), 4, "index: rule 3 at 24\n"),
    (
        "",
        None,
        "",
        Some((27, 0x07)),
        10,
        "merge: targets 8192 and 8199 differ\n",
    ),
];

fn changed(alloc: Global, collection: &str, change: Change) -> Result<Vec<u8>, Fail> {
    let mut bytes = index_of(alloc, collection)?;
    if let Some((at, byte)) = change {
        if at < bytes.len() {
            bytes[at] = byte;
        }
    }
    Ok(bytes)
}

#[test]
fn index_files_that_are_not_merged_leave_no_file(rt: HostRuntime) -> Result<(), Fail> {
    let alloc = rt.alloc();
    for (first, first_change, second, second_change, status, err) in REFUSED {
        let a = changed(alloc, first, *first_change)?;
        let b = changed(alloc, second, *second_change)?;
        let mut files = both(alloc, &a, &b)?;
        let left = run_over(alloc, MERGE, &mut files)?;
        let ending = (left.status, left.err.as_slice());
        same(&rt, &ending, &(*status, err.as_bytes()), *err);
        same(&rt, &files.bytes("N"), &None, *err);
    }
    Ok(())
}
