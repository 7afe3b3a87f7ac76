//! Runs of command lines, and what they leave.
//!
//! An assertion costs most of what a test's proof takes, so `same` has the only one that prints two values.
use crate::hubs::hub_of;
use cs_base::{MemFiles, MemSink, Memory, ScriptHub};
use cs_top::run;
use std::alloc::Global;
use std::fmt::Debug;
use std::process::Abort;
use std::test::Fail;

// Command lines: C is a collection, Q a script and I an index file.
pub(crate) const ASK: &[&str] = &["ask", "C", "Q"];

const BUILD: &[&str] = &["build", "C", "I"];

pub(crate) const REPLAY: &[&str] = &["replay", "I", "Q"];

pub(crate) const SERVE: &[&str] = &["serve", "I", "8080", "1"];

/// What a run leaves.
#[derive(Drop)]
pub(crate) struct Left {
    pub(crate) status: u8,
    pub(crate) out: Vec<u8>,
    pub(crate) err: Vec<u8>,
}

impl Left {
    pub(crate) fn is(&self, status: u8, out: &[u8], err: &str) -> bool {
        self.status == status && self.out.as_slice() == out && self.err.as_slice() == err.as_bytes()
    }
}

/// That both are equal. A failure names the row.
pub fn same<T: PartialEq + Debug>(rt: &impl Abort, found: &T, want: &T, row: impl Debug + Copy) {
    assert_eq!(rt; found, want, "of {row:?}");
}

/// The status of a run.
pub(crate) fn status_of(
    alloc: Global,
    words: &[&str],
    files: &mut MemFiles,
    hub: &mut ScriptHub,
    out: &mut MemSink,
    err: &mut MemSink,
) -> Result<u8, Memory> {
    let mut given = Vec::new(alloc);
    for word in words {
        given.push(String::from_str(alloc, word)?)?;
    }
    Ok(run(alloc, &given, files, hub, out, err))
}

/// What a run leaves, whose hub nothing comes to.
pub(crate) fn run_over(
    alloc: Global,
    words: &[&str],
    files: &mut MemFiles,
) -> Result<Left, Memory> {
    run_beside(alloc, words, files, &mut hub_of(alloc, &[])?)
}

pub(crate) fn run_beside(
    alloc: Global,
    words: &[&str],
    files: &mut MemFiles,
    hub: &mut ScriptHub,
) -> Result<Left, Memory> {
    let mut out = MemSink::new(alloc);
    let mut err = MemSink::new(alloc);
    let status = status_of(alloc, words, files, hub, &mut out, &mut err)?;
    Ok(Left {
        status,
        out: out.into_bytes(),
        err: err.into_bytes(),
    })
}

/// The files C and Q, where there are any.
pub(crate) fn held(
    alloc: Global,
    collection: Option<&[u8]>,
    script: Option<&[u8]>,
) -> Result<MemFiles, Memory> {
    let mut files = MemFiles::new(alloc);
    if let Some(bytes) = collection {
        files.hold("C", bytes.to_vec(alloc)?)?;
    }
    if let Some(bytes) = script {
        files.hold("Q", bytes.to_vec(alloc)?)?;
    }
    Ok(files)
}

/// The files C and Q, and the index file I of the collection.
pub(crate) fn built(alloc: Global, collection: &str, script: &[u8]) -> Result<MemFiles, Fail> {
    let mut files = held(alloc, Some(collection.as_bytes()), Some(script))?;
    let left = run_over(alloc, BUILD, &mut files)?;
    if left.is(0, b"", "") {
        Ok(files)
    } else {
        Err(Fail::new("not built"))
    }
}
